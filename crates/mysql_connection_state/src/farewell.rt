//! The server's last words.

ghost use Rattle.std.specs.Prelude.{◌≡◌};
ghost use Rattle.mysql_authentication.specs.Readings.{early_error_at};
ghost use Rattle.mysql_connection_rules.specs.Standing.{Standing};
ghost use Rattle.mysql_connection_rules.specs.Streams.{begins_error};
ghost use Rattle.mysql_connection_state.specs.Reads.{Gives};
ghost use Rattle.mysql_connection_state.specs.Peeks.{Peeks, or_bad_error, words_step};
ghost use Rattle.mysql_server_packets.specs.Views.{server_error_view};

use crate::Event;
use mysql_authentication::early_error_of;
use mysql_buf::ParseBuf;
use mysql_connection_rules::Fault;
use mysql_reply_events::ReplyFault;
use mysql_server_packets::ServerError;
use std::alloc::Global;

// Whether a payload is an error.
fn begins_error(payload: &[u8]) -> bool
    ensures { result ≡ begins_error payload.now }
{
    match payload {
        [byte, ..] => *byte == 255,
        _ => false,
    }
}

// The error, in bytes of its own.
fn last_words(alloc: Global, payload: &[u8]) -> Result<ServerError<'static>, Fault>
    ensures { Gives server_error_view result (or_bad_error (early_error_at payload.now)) }
{
    let mut rest = ParseBuf(payload);
    let Ok(error) = early_error_of(alloc, &mut rest) else {
        return Err(Fault::BadReply(ReplyFault::BadError));
    };
    match error.into_owned(alloc) {
        Ok(error) => Ok(error),
        Err(_) => Err(Fault::Memory),
    }
}

/// What the server's last words say: an error that answers nothing, whatever stands.
///
/// Promise: the error is the one that is read without capabilities (`words_step`).
///
/// # Errors
/// - `Unasked` where the payload doesn't begin as an error.
/// - `BadReply(BadError)` where it is none.
/// - `Memory`.
///
/// MySQL: Client/Server Protocol, "ERR_Packet" and "Connection Lifecycle".
#[inline(never)]
pub fn peek_farewell(alloc: Global, payload: &[u8]) -> Result<Event, Fault>
    ensures { (s : Standing) → Peeks (words_step s payload.now) result }
{
    if !begins_error(payload) {
        return Err(Fault::Unasked);
    }
    match last_words(alloc, payload) {
        Ok(error) => Ok(Event::Farewell(error)),
        Err(fault) => Err(fault),
    }
}
