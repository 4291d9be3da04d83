//! Events that are put: written, framed, and gone on behind.

ghost use Rattle.std.specs.Prelude.{◌≡◌, ◌+◌, ◌≤◌, ◌<◌, drop, length, true};
ghost use Rattle.mysql_connection_rules.specs.Puts.{is_due};
ghost use Rattle.mysql_connection_machine.specs.Machines.{lending_none};
ghost use Rattle.mysql_connection_machine.specs.Writing.{GoesOnBehind, PutsBehind, PutsDue, PutsEvent};
ghost use Rattle.mysql_connection_machine.specs.Writing.{PutsPayload, StandsBehind, WritesBehindRoom};
ghost use Rattle.mysql_connection_machine.specs.Writing.{passed_by, refused_as};
ghost use Rattle.mysql_connection_rules.specs.Streams.{limit_of, stream_of};
ghost use Rattle.mysql_connection_state.specs.Views.{event_view};
ghost use Rattle.mysql_connection_writer.specs.Writes.{Says};
ghost use Rattle.mysql_wire.specs.Framing.{max_payload_len};

use crate::both_streams::BothStreams;
use crate::put_refusal::PutRefusal;
use crate::room::{limit_of, room_to_keep};
use crate::saying::is_row;
use mysql_connection_rules::Side;
use mysql_connection_state::{Event, FollowRefusal};
use mysql_connection_writer::laws::rows_lead_to_rows;
use mysql_connection_writer::{EventRefusal, write_event};
use mysql_const::MAX_PAYLOAD_LEN;
use mysql_wire::{frame_in_place, packet_to_chunks};

impl BothStreams {
    // Stands behind a payload that says an event, where what is kept then has room.
    fn follow(&mut self, event: &Event, payload: &[u8]) -> Result<(), PutRefusal>
        requires said { Says self.old.world.standing (event_view event.now) payload.now }
        ensures { StandsBehind self.old (event_view event.now) payload.now result self.new }
    {
        let room = room_to_keep(self.limits) as u128;
        match self.state.follow(event, payload, room) {
            Ok(()) => {
                self.lends = false;
                self.puts_rows = false;
                Ok(())
            }
            Err(FollowRefusal::Held) => Err(PutRefusal::Held),
            Err(FollowRefusal::Memory) => Err(PutRefusal::Memory),
        }
    }

    // So many bytes more of a side's stream were read, which never waited, and this number is due.
    pub(crate) fn pass(&mut self, side: Side, next: u8, count: usize)
        requires { (stream_of side self.old.world.unread).read + count ≤ u64.MAX }
        ensures { self.new ≡ lending_none
            (passed_by self.old.world side next count self.old.world.standing) }
    {
        self.lends = false;
        self.puts_rows = false;
        self.state.set_number(side, next);
        match side {
            Side::Client => self.client.pass(count),
            Side::Server => self.server.pass(count),
        }
    }

    // Goes on behind so many bytes of packets of a payload that says an event, behind which this
    // number is due.
    fn go_on(
        &mut self,
        event: &Event,
        payload: &[u8],
        next: u8,
        count: usize,
    ) -> Result<(), PutRefusal>
        requires said { Says self.old.world.standing (event_view event.now) payload.now }
        ensures { GoesOnBehind self.old (event_view event.now) payload.now next count result
            self.new }
    {
        let side = event.side();
        if !self.stream(side).can_advance(count) {
            return Err(PutRefusal::Memory);
        }
        self.follow(event, payload)?;
        self.pass(side, next, count);
        Ok(())
    }

    /// Appends the packets of a payload that says an event, and goes on behind it.
    #[inline(never)]
    pub fn put_payload(
        &mut self,
        event: &Event,
        payload: &[u8],
        out: &mut Vec<u8>,
    ) -> Result<(), PutRefusal>
        requires said { Says self.old.world.standing (event_view event.now) payload.now }
        ensures { PutsPayload self.old (event_view event.now) payload.now out.old.items result
            self.new out.new.items }
    {
        let start = out.len();
        let next = packet_to_chunks(self.number_for(event), payload, out)?;
        match self.go_on(event, payload, next, out.len() - start) {
            Ok(()) => Ok(()),
            Err(refusal) => {
                out.truncate(start);
                Err(refusal)
            }
        }
    }

    // The same of a payload that stands at the end of a buffer, behind room for a header at this place.
    #[inline(never)]
    fn put_chunks(
        &mut self,
        event: &Event,
        start: usize,
        out: &mut Vec<u8>,
    ) -> Result<(), PutRefusal>
        requires there { start + 4 ≤ length out.old.items }
        requires said { Says self.old.world.standing (event_view event.now)
            (drop (start + 4) out.old.items) }
        ensures { PutsBehind self.old (event_view event.now) start out.old.items result self.new
            out.new.items }
    {
        let payload = Vec::from_slice(self.alloc, &out[start + 4..])?;
        out.truncate(start);
        self.put_payload(event, payload.as_slice(), out)
    }

    // The same of a payload of one chunk, which is framed where it stands.
    fn put_chunk(
        &mut self,
        event: &Event,
        start: usize,
        out: &mut Vec<u8>,
    ) -> Result<(), PutRefusal>
        requires there { start + 4 ≤ length out.old.items }
        requires short { length out.old.items < start + 4 + max_payload_len }
        requires said { Says self.old.world.standing (event_view event.now)
            (drop (start + 4) out.old.items) }
        ensures { PutsBehind self.old (event_view event.now) start out.old.items result self.new
            out.new.items }
    {
        let mut spare = Vec::new(self.alloc);
        let next = frame_in_place(self.number_for(event), start, &mut spare, out)?;
        self.go_on(event, behind(out, start + 4), next, out.len() - start)
    }

    // Appends the payload of an event that is due, behind room for a header.
    fn write_behind_room(&self, event: &Event, out: &mut Vec<u8>) -> Result<(), PutRefusal>
        requires { is_due self.now.world (event_view event.now) ≡ true }
        ensures { WritesBehindRoom self.now.world (event_view event.now) out.old.items result
            out.new.items }
    {
        out.extend_from_slice(&[0, 0, 0, 0])?;
        match write_event(&self.state, event, out) {
            Ok(()) => Ok(()),
            Err(refusal) => Err(refused_as(refusal)),
        }
    }

    // Appends the packets of an event that is due, and goes on behind it.
    fn put_due(&mut self, event: &Event, out: &mut Vec<u8>) -> Result<(), PutRefusal>
        requires { is_due self.old.world (event_view event.now) ≡ true }
        ensures { PutsDue self.old (event_view event.now) out.old.items result self.new
            out.new.items }
    {
        let start = out.len();
        self.write_behind_room(event, out)?;
        let size = out.len() - start - 4;
        if size > limit_of(event.side(), self.limits) {
            return Err(PutRefusal::TooLarge);
        }
        if size < MAX_PAYLOAD_LEN {
            self.put_chunk(event, start, out)
        } else {
            self.put_chunks(event, start, out)
        }
    }

    /// Appends the packets of an event at its turn, and goes on behind it.
    pub fn put(&mut self, event: &Event, out: &mut Vec<u8>) -> Result<(), PutRefusal>
        ensures { PutsEvent self.old (event_view event.now) out.old.items result self.new
            out.new.items }
    {
        rows_lead_to_rows();
        if !self.is_due(event) {
            return Err(PutRefusal::NotDue);
        }
        let start = out.len();
        match self.put_due(event, out) {
            Ok(()) => {
                self.puts_rows = is_row(event);
                Ok(())
            }
            Err(refusal) => {
                out.truncate(start);
                Err(refusal)
            }
        }
    }
}

/// The bytes behind a position.
pub fn behind(bytes: &[u8], place: usize) -> &[u8]
    requires { place ≤ length bytes.now }
    ensures { result.now ≡ drop place bytes.now }
{
    &bytes[place..]
}

// What a writer's refusal is here.
fn refused_as(refusal: EventRefusal) -> PutRefusal
    ensures { result ≡ refused_as refusal }
{
    match refusal {
        EventRefusal::BadEvent(cause) => PutRefusal::BadEvent(cause),
        EventRefusal::Memory => PutRefusal::Memory,
    }
}
