//! Payloads of a reply, and of a file that it asks for.

ghost use Rattle.std.specs.Prelude.{◌≡◌, None, Ok};
ghost use Rattle.mysql_connection_rules.specs.Events as events;
ghost use Rattle.mysql_connection_state.specs.Reads.{Gives};
ghost use Rattle.mysql_connection_state.specs.Views.{event_view};
ghost use Rattle.mysql_connection_state.specs.Peeks.{reply_fault, said_in_reply};
ghost use Rattle.mysql_reply_events.specs.Views.{turn_of};
ghost use Rattle.mysql_reply_events.specs.declared.awaited.Turn.TheVariants.{Server};

use crate::Event;
use mysql_bytes::ByteString;
use mysql_connection_rules::Fault;
use mysql_reply_events::{EventReader, ReplyFault, Turn};
use std::alloc::Global;

// The fault of a payload of a reply.
fn reply_fault(fault: ReplyFault) -> Fault
    ensures { result ≡ reply_fault fault }
{
    match fault {
        ReplyFault::Memory => Fault::Memory,
        fault => Fault::BadReply(fault),
    }
}

// What a payload of the server says in a reply.
fn peek_part(alloc: Global, reader: &EventReader, payload: &[u8]) -> Result<Event, Fault>
    requires { reader.now.fault ≡ None }
    ensures { Gives event_view result (said_in_reply Server reader.now payload.now) }
{
    match reader.peek(payload) {
        Ok(said) => Ok(Event::reply(alloc, said)?),
        Err(fault) => Err(reply_fault(fault)),
    }
}

// What bytes of the client's file say: these bytes.
fn peek_file(alloc: Global, payload: &[u8]) -> Result<Event, Fault>
    ensures { Gives event_view result (Ok (events.FileData payload.now)) }
{
    Ok(Event::FileData(ByteString::copy(alloc, payload)?))
}

/// What a payload of a reply, or of a file that it asks for, says to the reply's reader.
pub fn peek_in_reply(alloc: Global, reader: &EventReader, payload: &[u8]) -> Result<Event, Fault>
    requires { reader.now.fault ≡ None }
    ensures { Gives event_view result
        (said_in_reply (turn_of reader.now.so_far.awaited) reader.now payload.now) }
{
    match reader.turn() {
        Turn::Client => peek_file(alloc, payload),
        Turn::Server | Turn::Nobody => peek_part(alloc, reader, payload),
    }
}
