//! The library for C: objects behind handles, with a code as the answer of each call.
//!
//! `bindings/c/mysql_session.h` declares the calls. The bindings in Rust and Python call them.
//!
//! | exports | crate that does it |
//! |---|---|
//! | of commands and logins | `mysql_c_commands` |
//! | of replies | `mysql_c_replies` |
//! | of whole connections | `mysql_c_connection` |
//! | of bytes and codes | `mysql_c_handles` |
//!
//! A handle that C holds is one pointer; a call takes its address. An `alloc` takes no bytes, so
//! that C passes nothing for it; a slice is a pointer, which isn't null, and a length. Each export
//! calls one function of a crate below, and has the same contract.
//!
//!     mysql_session_handle out = MYSQL_SESSION_NOTHING;
//!     uint32_t code = mysql_session_bytes_new(&out);
//!     mysql_session_free(&out);
#![tactic(auto)]

ghost use Rattle.std.specs.Prelude.{◌≡◌, ◌-◌, ℕ, List, IsTrue, length};
ghost use Rattle.mysql_c_handles.specs.Texts.{ends_at_nul};
ghost use Rattle.mysql_c_handles.specs.declared.object.Object.TheVariants.{Empty};

mod commands;
mod connections;
mod login;
mod replies;

use mysql_c_connection::connection_code_text;
use mysql_c_handles::{Handle, start_of};
use std::alloc::Global;
use std::mem::replace;

/// The number of the interface, which changes with each of its declarations.
#[unsafe(no_mangle)]
pub extern "C" fn mysql_session_abi() -> u32
    ensures { result ≡ 11 }
{
    11
}

/// 1 where the library was proved before it was compiled.
///
/// `tools/trial_library`, which proves nothing, writes 0 here before it compiles.
#[unsafe(no_mangle)]
pub extern "C" fn mysql_session_build() -> u32
    ensures { result ≡ 1 }
{
    1
}

/// The library's version, as CHANGELOG.md counts versions, with a NUL byte behind it.
fn version() -> &'static [u8]
    ensures { IsTrue (ends_at_nul result.now) }
{
    b"0.1.0\0"
}

/// Shows the library's version, and its length without the NUL byte behind it.
#[unsafe(no_mangle)]
pub extern "C" fn mysql_session_version(text: &mut *const u8, len: &mut usize)
    ensures { (shown : List ℕ) × IsTrue (ends_at_nul shown) × (len.new ≡ length shown - 1) }
{
    let shown = version();
    *text = start_of(shown);
    *len = shown.len().saturating_sub(1);
}

/// Frees what the handle refers to. It refers to nothing then.
#[unsafe(no_mangle)]
pub extern "C" fn mysql_session_free(alloc: Global, handle: &mut Handle)
    ensures { handle.new.object ≡ Empty }
{
    drop(replace(handle, Handle::empty(alloc)));
}

/// Shows the text of a code, and its length without the NUL byte behind it. A number that is no
/// code has a text too.
#[unsafe(no_mangle)]
pub extern "C" fn mysql_session_code_text(code: u32, text: &mut *const u8, len: &mut usize)
    ensures { (shown : List ℕ) × IsTrue (ends_at_nul shown) × (len.new ≡ length shown - 1) }
{
    connection_code_text(code, text, len);
}
