//! Whether an event may be put, and in which packets.

ghost use Rattle.std.specs.Prelude.{◌≡◌};
ghost use Rattle.mysql_connection_rules.specs.Puts.{is_free, may_end as may_end_by};
ghost use Rattle.mysql_connection_rules.specs.Puts.{has_ended, has_place, is_due, number_for};
ghost use Rattle.mysql_connection_rules.specs.Steps.{turn};
ghost use Rattle.mysql_connection_state.specs.Views.{event_view};

use crate::both_streams::BothStreams;
use crate::stream_buffer::StreamBuffer;
use mysql_connection_rules::Side;
use mysql_connection_state::Event;
use mysql_wire::is_short;

/// The stream is open, and nothing of it waits unread.
pub fn is_free(stream: &StreamBuffer) -> bool
    ensures { result ≡ is_free stream.now.stream }
{
    !stream.is_closed() && stream.is_empty()
}

impl BothStreams {
    // The client's stream has ended without a whole payload.
    fn has_ended(&self) -> bool
        ensures { result ≡ has_ended self.now.world }
    {
        let client = self.stream(Side::Client);
        client.is_closed()
            && is_short(
                self.limits().client,
                self.state().number(),
                client.as_slice(),
            )
    }

    // Whether the server may say its last words.
    fn may_end(&self) -> bool
        ensures { result ≡ may_end_by self.now.world (turn self.now.world.standing.phase) }
    {
        match self.state().turn() {
            None => false,
            Some(Side::Client) => self.has_ended(),
            Some(Side::Server) => self.state().answers() && self.state().number() > 0,
        }
    }

    // Whether an event has its place here.
    fn has_place(&self, event: &Event) -> bool
        ensures { result ≡ has_place self.now.world (event_view event.now) }
    {
        match event {
            Event::Farewell(_) => self.may_end(),
            _ => self.state().turn() == Some(event.side()),
        }
    }

    /// Whether an event may be put: it is its turn, and its side's stream is open and all read.
    pub fn is_due(&self, event: &Event) -> bool
        ensures { result ≡ is_due self.now.world (event_view event.now) }
    {
        is_free(self.stream(event.side())) && self.has_place(event)
    }

    /// The number of the first packet of an event that is put.
    pub fn number_for(&self, event: &Event) -> u8
        ensures { result ≡ number_for (event_view event.now) self.now.world.standing }
    {
        match (event, self.state().turn()) {
            (Event::Farewell(_), Some(Side::Server)) => 0,
            _ => self.state().number(),
        }
    }
}
