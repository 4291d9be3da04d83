//! Puts events.

ghost use Rattle.std.specs.Prelude.{◌≡◌, None};
ghost use Rattle.mysql_reply_events.specs.Views.{event_view};
ghost use Rattle.mysql_reply_event_writer.specs.Puts.{GoesBehind, Puts, Tells, WritesEvent, takes_payload};

use crate::payloads::write_payload;
use crate::refusal::ReplyPutRefusal;
use crate::same::is_same;
use mysql_reply_events::laws::events_lead_on;
use mysql_reply_events::{EventReader, ReplyEvent, ReplyFault, Turn};
use std::alloc::AllocError;

// A payload of the server is due, and no fault was found.
fn takes_payload(reader: &EventReader) -> bool
    ensures { result ≡ takes_payload reader.now }
{
    if reader.fault().is_some() {
        return false;
    }
    match reader.turn() {
        Turn::Server => true,
        _ => false,
    }
}

// Whether a payload is read as this event.
fn tells(reader: &EventReader, event: &ReplyEvent, payload: &[u8]) -> Result<bool, ReplyPutRefusal>
    requires { reader.now.fault ≡ None }
    ensures { Tells reader.now (event_view event.now) payload.now result }
{
    match reader.peek(payload) {
        Ok(found) => {
            let same = is_same(&found, event);
            // One step of the proof, in place of one for each part of a variant.
            drop(found);
            Ok(same)
        }
        Err(ReplyFault::Memory) => Err(ReplyPutRefusal::Memory),
        Err(_) => Ok(false),
    }
}

// Goes on behind an event that was written.
fn go_behind(reader: &mut EventReader, event: &ReplyEvent) -> Result<(), AllocError>
    requires { reader.old.fault ≡ None }
    ensures { GoesBehind reader.old (event_view event.now) result reader.new }
{
    match event {
        ReplyEvent::Column(column) => match reader.pass_column(column) {
            Ok(_) => Ok(()),
            Err(refused) => Err(refused),
        },
        _ => {
            reader.pass(event);
            Ok(())
        }
    }
}

/// Appends the payload of an event, not framed, where it is read as this event. The reader stays.
///
/// It may then go on behind the event, by [`EventReader::pass`] or [`EventReader::pass_column`], as
/// [`put_event`] lets it.
///
/// Promise: what was written is read as it was. An event is refused by `BadEvent` exactly where no
/// payload of its own is read as it there (`WritesEvent`, `event_payload`).
///
/// # Errors
/// - Those of [`put_event`], in the same order.
///
/// `out` is as it was after an error.
///
/// MySQL: Client/Server Protocol, "COM_QUERY Response", "COM_STMT_PREPARE Response",
/// "COM_STMT_FETCH Response", "COM_FIELD_LIST Response" and "COM_STATISTICS".
pub fn write_event(
    reader: &EventReader,
    event: &ReplyEvent,
    out: &mut Vec<u8>,
) -> Result<(), ReplyPutRefusal>
    ensures { WritesEvent reader.now (event_view event.now) result out.old.items out.new.items }
{
    if !takes_payload(reader) {
        return Err(ReplyPutRefusal::NotDue);
    }
    let len = out.len();
    write_payload(reader.context(), event, out)?;
    match tells(reader, event, &out[len..]) {
        Ok(true) => {
            events_lead_on();
            Ok(())
        }
        Ok(false) => {
            out.truncate(len);
            Err(ReplyPutRefusal::BadEvent)
        }
        Err(refusal) => {
            out.truncate(len);
            Err(refusal)
        }
    }
}

/// Appends the payload of an event, not framed, where it is read as this event. The reader is then
/// behind it.
///
/// Promise: what was put is read again as it was. An event is refused by `BadEvent` exactly where
/// no payload of its own is read as it there (`Puts`, `event_payload`).
///
/// So a server that puts its events and a client that reads them have the same events.
///
/// # Errors
/// - `NotDue` where no payload of the server is due, or the reader has failed.
/// - `BadEvent` where the event has no place there, or has no payload that is read as it. Such are
///   a count that is 0, and an OK packet with an empty info in place of none. Such are a row under
///   other columns than those that stand, and one whose values aren't those that reading gives.
/// - `Memory`.
///
/// The reader and `out` are as they were after an error.
///
/// MySQL: Client/Server Protocol, "COM_QUERY Response", "COM_STMT_PREPARE Response",
/// "COM_STMT_FETCH Response", "COM_FIELD_LIST Response" and "COM_STATISTICS".
pub fn put_event(
    reader: &mut EventReader,
    event: &ReplyEvent,
    out: &mut Vec<u8>,
) -> Result<(), ReplyPutRefusal>
    ensures { Puts reader.old (event_view event.now) result reader.new out.old.items out.new.items }
{
    let len = out.len();
    write_event(reader, event, out)?;
    match go_behind(reader, event) {
        Ok(()) => Ok(()),
        Err(_) => {
            out.truncate(len);
            Err(ReplyPutRefusal::Memory)
        }
    }
}
