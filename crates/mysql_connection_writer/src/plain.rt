//! Bytes as they stand, and the server's last words.

ghost use Rattle.std.specs.Prelude.{◌≡◌, Some};
ghost use Rattle.mysql_server_packets.specs.Views.{server_error_view};
ghost use Rattle.mysql_connection_rules.specs.Events as events;
ghost use Rattle.mysql_connection_rules.specs.Standing.{Standing};
ghost use Rattle.mysql_connection_writer.specs.Writes.{Writes, WritesEvent};
ghost use Rattle.mysql_connection_writer.specs.declared.refusal.BadEvent.TheVariants as bad;

use crate::login::put_first;
use crate::phases::{awaits_answer, awaits_file};
use crate::refusal::{BadEvent, EventRefusal};
use mysql_authentication::GreetingEvent;
use mysql_connection_state::State;
use mysql_server_packets::ServerError;

// Appends bytes as they stand.
fn put_bytes(bytes: &[u8], out: &mut Vec<u8>) -> Result<(), EventRefusal>
    ensures { Writes (λ payload. payload ≡ bytes.now) (Some bytes.now) bad.ReadsOtherwise out.old.items
        out.new.items result }
{
    match out.extend_from_slice(bytes) {
        Ok(()) => Ok(()),
        Err(_) => Err(EventRefusal::Memory),
    }
}

/// Writes the client's answer while a user is logged in or changed.
pub fn write_answer(state: &State, bytes: &[u8], out: &mut Vec<u8>) -> Result<(), EventRefusal>
    ensures { WritesEvent state.now.standing (events.Answer bytes.now) out.old.items out.new.items result }
{
    if awaits_answer(state) {
        put_bytes(bytes, out)
    } else {
        Err(EventRefusal::BadEvent(BadEvent::ReadsOtherwise))
    }
}

/// Writes bytes of the client's file; no bytes end it.
pub fn write_file_data(state: &State, bytes: &[u8], out: &mut Vec<u8>) -> Result<(), EventRefusal>
    ensures { WritesEvent state.now.standing (events.FileData bytes.now) out.old.items out.new.items result }
{
    if awaits_file(state) {
        put_bytes(bytes, out)
    } else {
        Err(EventRefusal::BadEvent(BadEvent::ReadsOtherwise))
    }
}

/// Writes the server's last words, which are read without capabilities.
pub fn write_farewell(error: &ServerError, out: &mut Vec<u8>) -> Result<(), EventRefusal>
    ensures { (s : Standing) → WritesEvent s (events.Farewell (server_error_view error.now)) out.old.items
        out.new.items result }
{
    let said = GreetingEvent::Rejected(error.clone(*out.allocator())?);
    put_first(&said, out)
}
