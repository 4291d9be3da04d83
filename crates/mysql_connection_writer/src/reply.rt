//! Payloads of a reply.

ghost use Rattle.std.specs.Prelude.{◌≡◌, None};
ghost use Rattle.mysql_reply_events.specs.Views.{event_view as reply_view};
ghost use Rattle.mysql_connection_rules.specs.Events as events;
ghost use Rattle.mysql_connection_writer.specs.Replies.{PutsReply};
ghost use Rattle.mysql_connection_writer.specs.Writes.{WritesEvent};

use crate::refusal::{BadEvent, EventRefusal};
use mysql_connection_state::State;
use mysql_reply_event_writer::{ReplyPutRefusal, write_event};
use mysql_reply_events::{EventReader, ReplyEvent};

// Puts an event of a reply, by what its reader awaits.
#[tactic(auto, using(crate::proofs::Replies::none_due))]
fn put_event(reader: &EventReader, said: &ReplyEvent, out: &mut Vec<u8>) -> Result<(), EventRefusal>
    requires { reader.now.fault ≡ None }
    ensures { PutsReply reader.now (reply_view said.now) out.old.items out.new.items result }
{
    match write_event(reader, said, out) {
        Ok(()) => Ok(()),
        Err(ReplyPutRefusal::NotDue) => Err(EventRefusal::BadEvent(BadEvent::ReadsOtherwise)),
        Err(ReplyPutRefusal::BadEvent) => Err(EventRefusal::BadEvent(BadEvent::ReadsOtherwise)),
        Err(ReplyPutRefusal::Memory) => Err(EventRefusal::Memory),
    }
}

/// Writes a server's payload of a reply.
pub fn write_reply(state: &State, said: &ReplyEvent, out: &mut Vec<u8>) -> Result<(), EventRefusal>
    ensures { WritesEvent state.now.standing (events.Replied (reply_view said.now)) out.old.items
        out.new.items result }
{
    match state.reply_reader() {
        Some(reader) => put_event(reader, said, out),
        None => Err(EventRefusal::BadEvent(BadEvent::ReadsOtherwise)),
    }
}
