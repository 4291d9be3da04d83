//! Payloads of a reply, and of a file that it asks for.

ghost use Rattle.std.specs.Prelude.{◌≡◌, true};
ghost use Rattle.mysql_const.specs.declared.capabilities.Capabilities.{Capabilities};
ghost use Rattle.mysql_connection_rules.specs.Standing as phases;
ghost use Rattle.mysql_connection_rules.specs.Standing.{InReply as StandingReply};
ghost use Rattle.mysql_connection_rules.specs.Steps as steps;
ghost use Rattle.mysql_reply_events.specs.Standing.{RowAt};
ghost use Rattle.mysql_reply_events.specs.Views.{event_view as reply_view};
ghost use Rattle.mysql_row_refs.specs.RowRefs.{row_ref_view};
ghost use Rattle.mysql_rows.specs.Rows.{Row};
ghost use Rattle.mysql_connection_state.specs.Views.{Fits, about_view};
ghost use Rattle.mysql_connection_state.specs.Views.{in_reply_view};
ghost use Rattle.mysql_connection_state.specs.Views.{phase_view, plain_reply};

use crate::due::{About, Due, InReply};
use crate::phase::Phase;
use crate::state::State;
use mysql_connection_rules::Side;
use mysql_reply_events::{ReplyEvent, Turn};
use mysql_row_refs::RowRef;

impl InReply {
    /// Whose payload is due.
    pub fn side(&self) -> Side
        ensures { result ≡ steps.turn_in_reply (in_reply_view self.now).so_far.awaited }
    {
        match self.reader.turn() {
            Turn::Client => Side::Client,
            Turn::Server | Turn::Nobody => Side::Server,
        }
    }

    /// What callers are told of it.
    pub fn plain_phase(&self) -> Phase
        ensures { result ≡ plain_reply (in_reply_view self.now).so_far.awaited }
    {
        match self.reader.turn() {
            Turn::Client => Phase::FileData,
            Turn::Server | Turn::Nobody => Phase::Reply,
        }
    }

    /// Whether nothing more of the reply is awaited.
    pub fn is_whole(&self) -> bool
        ensures { result ≡ steps.is_whole (in_reply_view self.now).so_far.awaited }
    {
        match self.reader.turn() {
            Turn::Nobody => true,
            Turn::Client | Turn::Server => false,
        }
    }
}

// What is due behind a reply: where a stream of its own follows, nothing that is read here.
fn due_behind(about: &About, event: &ReplyEvent) -> Due
    ensures due { phase_view result ≡
        steps.phase_behind (about_view about.now) (reply_view event.now) }
    ensures fits { (capabilities : Capabilities) → Fits capabilities result }
{
    match (about, event) {
        (About::Streaming(reason), ReplyEvent::Line(_)) => Due::Over(*reason),
        _ => Due::Command,
    }
}

impl State {
    /// What is due behind the last event of a reply. Apart from its caller, since room for what goes
    /// would be cleared at each of its calls.
    #[inline(never)]
    pub(crate) fn end_reply(&mut self, event: &ReplyEvent)
        ensures { (r : StandingReply) → self.old.standing.phase ≡ phases.Reply r →
            self.new.standing ≡
            steps.in_phase (steps.phase_behind r.about (reply_view event.now)) self.old.standing }
    {
        if let Due::Reply(reply) = &self.due {
            self.due = due_behind(&reply.about, event);
        }
    }

    /// Whether the reply that is due is whole.
    pub(crate) fn has_whole_reply(&self) -> bool
        ensures { (r : StandingReply) → self.now.standing.phase ≡ phases.Reply r →
            result ≡ steps.is_whole r.so_far.awaited }
    {
        match &self.due {
            Due::Reply(reply) => reply.is_whole(),
            _ => false,
        }
    }

    /// The row that [`State::lend_row`] or [`State::take_row`] read last, which borrows its payload.
    ///
    /// MySQL: Client/Server Protocol, "Text Resultset Row" and "Binary Protocol Resultset Row".
    pub fn row_ref<'r, 'p>(&'r self, payload: &'p [u8]) -> RowRef<'r, 'p>
        requires { (row : Row) × RowAt self.now.rows payload.now row }
        ensures { RowAt self.now.rows payload.now (row_ref_view result) }
    {
        let Due::Reply(reply) = &self.due else {
            unreachable!()
        };
        reply.reader.row_ref(payload)
    }
}
