//! The payload of any event.

ghost use Rattle.mysql_connection_state.specs.Views.{event_view};
ghost use Rattle.mysql_connection_writer.specs.Writes.{WritesEvent};

use crate::authentication::write_authentication;
use crate::command::write_command;
use crate::login::{write_greeting, write_response};
use crate::plain::{write_answer, write_farewell, write_file_data};
use crate::refusal::EventRefusal;
use crate::reply::write_reply;
use mysql_connection_state::{Event, State};

/// Appends the payload of an event, not framed, where it is read as this event by what stands.
///
/// Whose turn it is isn't looked at: last words may be written in any phase. The state doesn't change.
///
/// Promise: exactly the event's payload is appended, and the table of steps reads it as the event.
/// Or nothing is, since no payload of its own says it there. The cause is then the one that its
/// packet's writer names (`WritesEvent`, `payload_of`, `cause_of`).
///
/// # Errors
/// - `BadEvent(Login)` for a packet of logging in, or last words, with the first cause against it.
/// - `BadEvent(Command)` for a command, with the cause against it. It is `ReadsOtherwise` also
///   where an unsigned number below 2^63 would be read as a signed one. It is `UnknownStatement`
///   for an execution of a statement that isn't known here.
/// - `BadEvent(ReadsOtherwise)` for an event of another phase, and for data of a plugin that would
///   be read as a new greeting. The same holds for a reply's event that would be read otherwise, and
///   for bytes of a file where none are due.
/// - `Memory`.
///
/// `out` is as it was after an error.
///
/// MySQL: Client/Server Protocol, "Connection Lifecycle", "Connection Phase" and "Command Phase".
pub fn write_event(state: &State, event: &Event, out: &mut Vec<u8>) -> Result<(), EventRefusal>
    ensures { WritesEvent state.now.standing (event_view event.now) out.old.items out.new.items result }
{
    match event {
        Event::Greeting(said) => write_greeting(state, said, out),
        Event::Response(said) => write_response(state, said, out),
        Event::Authentication(said) => write_authentication(state, said, out),
        Event::Answer(bytes) => write_answer(state, bytes.as_slice(), out),
        Event::Command(command) => write_command(state, command, out),
        Event::Reply(said) => write_reply(state, said, out),
        Event::FileData(bytes) => write_file_data(state, bytes.as_slice(), out),
        Event::Farewell(error) => write_farewell(error, out),
    }
}
