//! A server's first payload.
//!
//!     match read_greeting(alloc, payload)? {
//!         GreetingEvent::Greeting(greeting) => answer(greeting),
//!         GreetingEvent::Rejected(error) => give_up(error),
//!     }

ghost use Rattle.std.specs.Prelude.{◌≡◌, ◌==◌, if◌then◌else◌, slice_index_or};
ghost use Rattle.mysql_authentication.specs.Events.{Greeted, Rejected};
ghost use Rattle.mysql_authentication.specs.Readings.{Answers, early_error_at, greeting_at, or_fault};
ghost use Rattle.mysql_authentication.specs.Views.{greeting_view};
ghost use Rattle.mysql_authentication.specs.declared.fault.LoginFault.TheVariants.{BadError, BadGreeting};
ghost use Rattle.mysql_fields.specs.Wire.{Tells};
ghost use Rattle.mysql_handshake.specs.Handshakes.{handshake_at};
ghost use Rattle.mysql_server_packets.specs.Views.{server_error_view};

use crate::events::GreetingEvent;
use crate::fault::LoginFault;
use mysql_buf::ParseBuf;
use mysql_const::CapabilityFlags;
use mysql_fields::{ParseExt, WireError};
use mysql_handshake::HandshakePacket;
use mysql_server_packets::ServerError;
use mysql_server_packets::err_packet::server_error_of;
use std::alloc::Global;

// The capabilities by which an error is read while none are known.
fn early_capabilities(payload: &[u8]) -> CapabilityFlags
    ensures { result.0 ≡ (if slice_index_or payload.now 3 0 == 35 then 0x200 else 0) }
{
    if payload.len() > 3 && payload[3] == b'#' {
        CapabilityFlags::CLIENT_PROTOCOL_41
    } else {
        CapabilityFlags(0)
    }
}

/// The error of a server that no capabilities are known of. It stands in place of a greeting, or is
/// the server's last words. It has an SQL state where `#` stands behind its code.
///
/// Promise: any bytes are read exactly so (`early_error_at`).
///
/// # Errors
/// - `UnexpectedEof` below three bytes.
/// - `BadConstant` for another first byte than ff.
/// - `UnexpectedEof` where the state is cut off.
///
/// All bytes are left after an error.
///
/// MySQL: Client/Server Protocol, "ERR_Packet" and "Connection Phase".
#[tactic(auto, unfolding(crate::specs::Readings::early_error_at))]
pub fn early_error_of<'de>(
    alloc: Global,
    buf: &mut ParseBuf<'de>,
) -> Result<ServerError<'de>, WireError>
    ensures { Tells server_error_view buf.old.0.now buf.new.0.now result (early_error_at buf.old.0.now) }
{
    let capabilities = early_capabilities(buf.0);
    server_error_of(alloc, capabilities, buf)
}

// The refusal.
fn rejected(alloc: Global, payload: &[u8]) -> Result<GreetingEvent<'_>, LoginFault>
    ensures { Answers greeting_view result (or_fault BadError Rejected (early_error_at payload.now)) }
{
    let mut rest = ParseBuf(payload);
    match early_error_of(alloc, &mut rest) {
        Ok(error) => Ok(GreetingEvent::Rejected(error)),
        Err(_) => Err(LoginFault::BadError),
    }
}

// The greeting.
fn greeted(alloc: Global, payload: &[u8]) -> Result<GreetingEvent<'_>, LoginFault>
    ensures { Answers greeting_view result (or_fault BadGreeting Greeted (handshake_at payload.now)) }
{
    let mut rest = ParseBuf(payload);
    match rest.parse::<HandshakePacket>(alloc, ()) {
        Ok(packet) => Ok(GreetingEvent::Greeting(packet)),
        Err(_) => Err(LoginFault::BadGreeting),
    }
}

/// Reads a server's first payload: a refusal, or a greeting of the protocol of version 10. Bytes behind
/// its fields are passed over.
///
/// Promise: what is answered is a function of the payload (`greeting_at`).
///
/// # Errors
/// - `BadError` where it begins with ff and is no error; [`early_error_of`] reads one.
/// - `OldProtocol` for another version than 10.
/// - `BadGreeting` where it can't be read, or is empty.
///
/// MySQL: Client/Server Protocol, "Protocol::HandshakeV10"; MariaDB: Client/Server Protocol,
/// "Connecting", 'Initial handshake packet'.
#[tactic(auto, unfolding(crate::specs::Readings::greeting_at))]
pub fn read_greeting(alloc: Global, payload: &[u8]) -> Result<GreetingEvent<'_>, LoginFault>
    ensures { Answers greeting_view result (greeting_at payload.now) }
{
    let Some(first) = payload.first() else {
        return Err(LoginFault::BadGreeting);
    };
    if *first == 0xff {
        return rejected(alloc, payload);
    }
    if *first == 10 {
        return greeted(alloc, payload);
    }
    Err(LoginFault::OldProtocol)
}
