//! Payloads that are put: looked at, framed, and gone on behind.

ghost use Rattle.std.specs.Prelude.{◌≡◌, IfOk};
ghost use Rattle.mysql_connection_machine.specs.PuttingPayloads.{PutsPayloadOf, awaits_payload};
ghost use Rattle.mysql_connection_state.specs.Views.{EventHasUnclear};

use crate::both_streams::BothStreams;
use crate::due::is_free;
use crate::payload_refusal::PayloadRefusal;
use crate::put_refusal::PutRefusal;
use crate::room::limit_of;
use mysql_connection_rules::{Fault, Side};
use mysql_connection_state::laws::payloads_are_in_turn;
use mysql_connection_state::{Event, peek_event};

impl BothStreams {
    /// Whether a payload of a side can be put: it is its turn, and its stream is open and read.
    pub fn awaits_payload(&self, side: Side) -> bool
        ensures { result ≡ awaits_payload self.now.world side }
    {
        self.state().turn() == Some(side) && is_free(self.stream(side))
    }

    /// Appends the packets of a payload of a side at its turn, and goes on behind it. Answers the
    /// event that it says.
    pub fn put_due_payload(
        &mut self,
        side: Side,
        payload: &[u8],
        out: &mut Vec<u8>,
    ) -> Result<Event, PayloadRefusal>
        ensures puts { PutsPayloadOf self.old side payload.now out.old.items result self.new
            out.new.items }
        ensures unclear { IfOk result (λ event.
            EventHasUnclear self.old.world.standing payload.now event) }
    {
        payloads_are_in_turn();
        if !self.awaits_payload(side) {
            return Err(PayloadRefusal::NotDue);
        }
        if payload.len() > limit_of(side, self.limits) {
            return Err(PayloadRefusal::TooLarge);
        }
        let event = match peek_event(self.alloc, &self.state, payload) {
            Ok(event) => event,
            Err(Fault::Memory) => return Err(PayloadRefusal::Memory),
            Err(fault) => return Err(PayloadRefusal::BadPayload(fault)),
        };
        match self.put_payload(&event, payload, out) {
            Ok(()) => Ok(event),
            Err(PutRefusal::Held) => Err(PayloadRefusal::Held),
            Err(_) => Err(PayloadRefusal::Memory),
        }
    }
}
