//! Commands that are put by their payloads: they are gone on behind, and no event is made of them.

ghost use Rattle.std.specs.Prelude.{◌≡◌, ◌≤◌, IsTrue, drop, length};
ghost use Rattle.mysql_connection_machine.specs.PuttingCommands.{AwaitsCommandOf, IsPlainCommand, PutsFirstCommand};
ghost use Rattle.mysql_connection_machine.specs.PuttingCommands.{command_event};
ghost use Rattle.mysql_connection_machine.specs.PuttingPayloads.{PutsWithoutEvent};
ghost use Rattle.mysql_connection_machine.specs.Writing.{GoesOnBehind, PutsPayload, StandsBehind};
ghost use Rattle.mysql_connection_rules.specs.Standing as phases;

use crate::both_streams::BothStreams;
use crate::last_words::number_of;
use crate::payload_refusal::PayloadRefusal;
use crate::put_refusal::PutRefusal;
use crate::putting::behind;
use crate::room::{limit_of, room_to_keep};
use mysql_connection_modes::is_plain;
use mysql_connection_rules::Side;
use mysql_connection_state::FollowRefusal;
use mysql_connection_state::laws::payloads_are_in_turn;
use mysql_wire::{frame_in_place, one_chunk, packet_to_chunks};

impl BothStreams {
    // A command is due, and this side says it.
    fn awaits_command_of(&self, side: Side) -> bool
        ensures { IsTrue result → AwaitsCommandOf self.now.world side }
    {
        match side {
            Side::Client => self.awaits_command(),
            Side::Server => false,
        }
    }

    /// A command is due, this side says it, and the payload holds no query that may have attributes.
    pub fn awaits_plain_command(&self, side: Side, payload: &[u8]) -> bool
        ensures { IsTrue result → IsPlainCommand self.now.world side payload.now }
    {
        self.awaits_command_of(side) && is_plain(&self.state, payload)
    }

    // Stands behind a command, by its payload, where what is kept then has room.
    fn follow_command(&mut self, payload: &[u8]) -> Result<(), PutRefusal>
        requires { self.old.world.standing.phase ≡ phases.Command }
        ensures { StandsBehind self.old (command_event self.old.world.standing payload.now)
            payload.now result self.new }
    {
        let room = room_to_keep(self.limits) as u128;
        match self.state.follow_command(payload, room) {
            Ok(()) => {
                self.lends = false;
                self.puts_rows = false;
                Ok(())
            }
            Err(FollowRefusal::Held) => Err(PutRefusal::Held),
            Err(FollowRefusal::Memory) => Err(PutRefusal::Memory),
        }
    }

    // Goes on behind so many bytes of packets of a command, behind which this number is due.
    fn go_on_behind_command(
        &mut self,
        payload: &[u8],
        next: u8,
        count: usize,
    ) -> Result<(), PutRefusal>
        requires { self.old.world.standing.phase ≡ phases.Command }
        ensures { GoesOnBehind self.old (command_event self.old.world.standing payload.now)
            payload.now next count result self.new }
    {
        if !self.client.can_advance(count) {
            return Err(PutRefusal::Memory);
        }
        self.follow_command(payload)?;
        self.pass(Side::Client, next, count);
        Ok(())
    }

    // Appends the packets of a command by its payload, and goes on behind it. It isn't read, but for
    // what it changes.
    fn put_command(&mut self, payload: &[u8], out: &mut Vec<u8>) -> Result<(), PutRefusal>
        requires { self.old.world.standing.phase ≡ phases.Command }
        ensures { PutsPayload self.old (command_event self.old.world.standing payload.now)
            payload.now out.old.items result self.new out.new.items }
    {
        let start = out.len();
        let next = packet_to_chunks(self.state.number(), payload, out)?;
        match self.go_on_behind_command(payload, next, out.len() - start) {
            Ok(()) => Ok(()),
            Err(refusal) => {
                out.truncate(start);
                Err(refusal)
            }
        }
    }

    // Appends a packet of one chunk, numbered as it is due, and goes on behind the command that it is. Its
    // header takes four bytes.
    #[inline(always)]
    fn put_packet(&mut self, packet: &[u8], out: &mut Vec<u8>) -> Result<(), PutRefusal>
        requires phase { self.old.world.standing.phase ≡ phases.Command }
        requires header { 4 ≤ length packet.now }
        ensures { PutsPayload self.old
            (command_event self.old.world.standing (drop 4 packet.now)) (drop 4 packet.now)
            out.old.items result self.new out.new.items }
    {
        let start = out.len();
        out.extend_from_slice(packet)?;
        let mut spare = Vec::new(self.alloc);
        let next = frame_in_place(self.state.number(), start, &mut spare, out)?;
        match self.go_on_behind_command(behind(packet, 4), next, out.len() - start) {
            Ok(()) => Ok(()),
            Err(refusal) => {
                out.truncate(start);
                Err(refusal)
            }
        }
    }

    /// Puts the first command of packets, where it is its turn and it has one chunk.
    ///
    /// Answers how many bytes it takes. `None` says nothing of it, and nothing has changed.
    #[inline(always)]
    pub fn put_first_command(&mut self, packets: &[u8], out: &mut Vec<u8>) -> Option<usize>
        ensures { PutsFirstCommand self.old packets.now out.old.items result self.new
            out.new.items }
    {
        payloads_are_in_turn();
        if !self.awaits_command() {
            return None;
        }
        let limit = self.limits.client;
        let payload = one_chunk(limit, number_of(packets), packets)?;
        let used = 4 + payload.len();
        if payload.len() > limit {
            return None;
        }
        if !is_plain(&self.state, payload) {
            return None;
        }
        match self.put_packet(&packets[..used], out) {
            Ok(()) => Some(used),
            Err(_) => None,
        }
    }

    /// Puts a payload as [`BothStreams::put_due_payload`] does, but answers no event. None is made
    /// of a command.
    pub fn put_without_event(
        &mut self,
        side: Side,
        payload: &[u8],
        out: &mut Vec<u8>,
    ) -> Result<(), PayloadRefusal>
        ensures { PutsWithoutEvent self.old side payload.now out.old.items result self.new
            out.new.items }
    {
        payloads_are_in_turn();
        if !self.awaits_command_of(side) {
            self.put_due_payload(side, payload, out)?;
            return Ok(());
        }
        if payload.len() > limit_of(side, self.limits) {
            return Err(PayloadRefusal::TooLarge);
        }
        match self.put_command(payload, out) {
            Ok(()) => Ok(()),
            Err(PutRefusal::Held) => Err(PayloadRefusal::Held),
            Err(_) => Err(PayloadRefusal::Memory),
        }
    }
}
