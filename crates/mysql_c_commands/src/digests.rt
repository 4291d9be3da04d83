//! The digest of a statement's text.

ghost use Rattle.mysql_c_handles.specs.Codes.{code_number};
ghost use Rattle.mysql_c_commands.specs.Digests.{PutsDigest, PutsDigestTo};
ghost use Rattle.mysql_c_commands.specs.Modes.{InMode};

use crate::modes::mode_of;
use mysql_c_handles::{Code, Handle, Object};
use mysql_digests::digest;
use mysql_values::Mode;
use std::alloc::Global;

/// Appends the digest of a text to bytes.
fn put_digest(alloc: Global, mode: Mode, text: &[u8], out: &mut Vec<u8>) -> Code
    ensures { PutsDigest mode text.now out.old.items (code_number result) out.new.items }
{
    let Ok(digest) = digest(alloc, mode, text) else {
        return Code::Memory;
    };
    match out.extend_from_slice(&digest) {
        Ok(()) => Code::Done,
        Err(_) => Code::Memory,
    }
}

/// Appends the digest of a text to the bytes that an object is.
fn put_digest_to(alloc: Global, mode: Mode, text: &[u8], object: &mut Object) -> Code
    ensures { PutsDigestTo mode text.now object.old (code_number result) object.new }
{
    match object {
        Object::Bytes(out) => put_digest(alloc, mode, text, out),
        Object::Empty => Code::EmptyHandle,
        _ => Code::OtherKind,
    }
}

/// Appends the digest of a text to the bytes that a handle refers to.
fn put_digest_onto(alloc: Global, mode: Mode, text: &[u8], out: &mut Handle) -> Code
    ensures { PutsDigestTo mode text.now out.old.object (code_number result) out.new.object }
{
    let Some(mut object) = out.take(alloc) else {
        return Code::EmptyHandle;
    };
    let code = put_digest_to(alloc, mode, text, &mut object);
    out.put(object);
    code
}

/// Appends the digest of a statement's text to the bytes that a handle refers to.
///
/// It is the text with the values taken out. The flags tell the mode of the server that reads the
/// text. How byte strings are spelled says nothing here.
///
/// Promise: exactly the digest of the text in this mode is appended, or the bytes stay
/// (`PutsDigestTo`).
pub fn digest_put(alloc: Global, text: &[u8], flags: u32, out: &mut Handle) -> u32
    ensures { InMode flags result out.old.object out.new.object
        (λ mode spelling. PutsDigestTo mode text.now out.old.object result out.new.object) }
{
    let Some((mode, _)) = mode_of(flags) else {
        return Code::NoSuchMode.number();
    };
    put_digest_onto(alloc, mode, text, out).number()
}
