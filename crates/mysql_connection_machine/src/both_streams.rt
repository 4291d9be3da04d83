//! Both streams of a connection, and its state: the next event of them.

ghost use Rattle.std.specs.Prelude.{◌≡◌, ◌≤◌, IfOk, IfSome, None, OnErr, OnOk, Some, false};
ghost use Rattle.std.specs.Prelude.{min, option_map, true};
ghost use Rattle.mysql_connection_machine.specs.Endings.{end_view, is_waiting, server_number};
ghost use Rattle.mysql_connection_machine.specs.Endings.{waiting_ending};
ghost use Rattle.mysql_connection_machine.specs.Machines.{Answers, AnswersLent, failure_view};
ghost use Rattle.mysql_connection_machine.specs.Machines.{LentHasUnclear, NextHasUnclear};
ghost use Rattle.mysql_connection_machine.specs.Machines.{lending_none};
ghost use Rattle.mysql_wire.specs.FirstPacket.{Short, first_packet};
ghost use Rattle.mysql_connection_machine.specs.NextRows.{LendsRow};
ghost use Rattle.mysql_connection_rules.specs.Standing.{kept};
ghost use Rattle.mysql_connection_rules.specs.Steps.{turn};
ghost use Rattle.mysql_connection_rules.specs.Streams.{End as Ended, Piece, client_by, come, held};
ghost use Rattle.mysql_connection_rules.specs.Streams.{is_early, next, room_to_keep};
ghost use Rattle.mysql_connection_rules.specs.Streams.{no_bytes, of_server, start, stream_of};
ghost use Rattle.mysql_connection_rules.specs.Streams.{words};
ghost use Rattle.mysql_connection_rules.specs.declared.side.Side.TheVariants.{Client, Server};
ghost use Rattle.mysql_connection_state.specs.Views.{plain_phase};
ghost use Rattle.mysql_row_refs.specs.RowRefs.{row_ref_view};

use crate::end::End;
use crate::fault::ConnectionFault;
use crate::last_words::{has_number, is_early, number_of};
use crate::lent_event::LentEvent;
use crate::next_rows::take_row;
use crate::stream_buffer::StreamBuffer;
use crate::taking::{take_lent, take_packet, take_words};
use mysql_connection_rules::laws::events_are_in_turn;
use mysql_connection_rules::{Fault, Limits, Reason, Side};
use mysql_connection_state::{Event, Phase, State};
use mysql_row_refs::RowRef;
use mysql_wire::is_short;
use std::alloc::{AllocError, Global};
use std::marker::Model;

/// Both streams of a connection, its state, the limits, and the row that was lent last.
///
/// Contracts see it as a `LendingWorld`.
#[derive(Drop)]
pub struct BothStreams {
    pub(crate) alloc: Global,
    pub(crate) limits: Limits,
    pub(crate) state: State,
    pub(crate) client: StreamBuffer,
    pub(crate) server: StreamBuffer,
    // A row lies in the payload that the server's buffer lends.
    pub(crate) lends: bool,
    // Rows of a reply are due behind others, where the one before was put.
    pub(crate) puts_rows: bool,
}

impl Model for BothStreams {
    ghost use Rattle.mysql_connection_machine.specs.Machines.{LendingWorld};

    ghost Value = { LendingWorld };

    ghost use Rattle.mysql_connection_machine.specs.Inside.{IsReaderSound, lending_inside};

    ghost view = { lending_inside };

    ghost invariant = { IsReaderSound };
}

impl BothStreams {
    /// Streams of which no byte came, in this state.
    pub fn new(alloc: Global, limits: Limits, state: State) -> BothStreams
        ensures { result ≡ lending_none (start
            (record { limits = limits; first = state.standing }) no_bytes) }
    {
        BothStreams {
            alloc,
            limits,
            state,
            client: StreamBuffer::new(alloc),
            server: StreamBuffer::new(alloc),
            lends: false,
            puts_rows: false,
        }
    }

    /// The limits.
    pub fn limits(&self) -> Limits
        ensures { result ≡ self.now.world.limits }
    {
        self.limits
    }

    /// The state of the connection.
    pub fn state(&self) -> &State
        ensures { result.now.standing ≡ self.now.world.standing }
    {
        &self.state
    }

    /// A side's stream.
    pub fn stream(&self, side: Side) -> &StreamBuffer
        ensures { result.now.stream ≡ stream_of side self.now.world.unread }
    {
        match side {
            Side::Client => &self.client,
            Side::Server => &self.server,
        }
    }

    /// A piece of a side's stream came.
    pub fn extend(&mut self, side: Side, piece: &[u8]) -> Result<(), AllocError>
        ensures came { OnOk result (self.new ≡
            lending_none (come side (Piece piece.now) self.old.world)) }
        ensures err { OnErr result (self.new ≡ lending_none self.old.world) }
    {
        self.lends = false;
        self.puts_rows = false;
        match side {
            Side::Client => self.client.extend(piece),
            Side::Server => self.server.extend(piece),
        }
    }

    /// No more comes of a side's stream.
    pub fn close(&mut self, side: Side)
        ensures { self.new ≡ lending_none (come side Ended self.old.world) }
    {
        self.lends = false;
        self.puts_rows = false;
        match side {
            Side::Client => self.client.close(),
            Side::Server => self.server.close(),
        }
    }

    /// How many bytes are held, or the most that a `usize` tells.
    pub fn held(&self) -> usize
        ensures { result ≡ min (held self.now.world) usize.MAX }
    {
        let unread = self.client.as_slice().len() + self.server.as_slice().len();
        match self.state.kept() {
            Some(kept) => kept.saturating_add(unread),
            None => usize::MAX,
        }
    }

    // Last words, behind the end of the client's stream.
    #[tactic(auto, using(crate::proofs::Coming::comes, crate::proofs::Words::words_said))]
    #[inline(never)]
    fn last_words(&mut self) -> Result<Option<Event>, ConnectionFault>
        requires turn { turn self.old.world.standing.phase ≡ Some Client }
        requires closed { self.old.world.unread.client.closed ≡ true }
        requires short { first_packet self.old.world.limits.client self.old.world.standing.number
            self.old.world.unread.client.bytes ≡ Short }
        ensures answers { Answers self.old.world result self.new.world }
        ensures row { self.new.row ≡ None }
    {
        self.lends = false;
        self.puts_rows = false;
        let number = self.state.number();
        if !has_number(number, self.server.as_slice()) {
            return Ok(None);
        }
        let alloc = self.alloc;
        let limits = self.limits;
        match take_words(alloc, limits, number, &mut self.state, &mut self.server) {
            Ok(event) => Ok(event),
            Err(fault) => Err(fault_in(Side::Server, &self.server, fault)),
        }
    }

    // The next event where the client's payload is due.
    #[tactic(auto, using(crate::proofs::Coming::comes))]
    fn next_of_client(&mut self) -> Result<Option<Event>, ConnectionFault>
        requires { turn self.old.world.standing.phase ≡ Some Client }
        ensures answers { Answers self.old.world result self.new.world }
        ensures unclear { IfOk result (λ found. IfSome found (λ event.
            NextHasUnclear self.old.world event)) }
        ensures row { self.new.row ≡ None }
    {
        self.lends = false;
        self.puts_rows = false;
        let alloc = self.alloc;
        let limits = self.limits;
        match take_packet(
            alloc,
            limits,
            Side::Client,
            &mut self.state,
            &mut self.client,
        ) {
            Ok(None) if self.client.is_closed() => self.last_words(),
            Ok(event) => Ok(event),
            Err(fault) => Err(fault_in(Side::Client, &self.client, fault)),
        }
    }

    // The next event where the server's payload is due.
    #[tactic(auto, using(crate::proofs::Coming::comes, crate::proofs::Words::words_said))]
    fn next_of_server(&mut self) -> Result<Option<Event>, ConnectionFault>
        requires { turn self.old.world.standing.phase ≡ Some Server }
        ensures answers { Answers self.old.world result self.new.world }
        ensures row { self.new.row ≡ None }
    {
        self.lends = false;
        self.puts_rows = false;
        let alloc = self.alloc;
        let limits = self.limits;
        let bytes = self.server.as_slice();
        let taken = if is_early(&self.state, bytes) {
            let number = number_of(bytes);
            take_words(alloc, limits, number, &mut self.state, &mut self.server)
        } else {
            take_packet(
                alloc,
                limits,
                Side::Server,
                &mut self.state,
                &mut self.server,
            )
        };
        match taken {
            Ok(event) => Ok(event),
            Err(fault) => Err(fault_in(Side::Server, &self.server, fault)),
        }
    }

    /// The next event of both streams.
    #[inline(always)]
    pub fn next_event(&mut self) -> Result<Option<Event>, ConnectionFault>
        ensures answers { Answers self.old.world result self.new.world }
        ensures unclear { IfOk result (λ found. IfSome found (λ event.
            NextHasUnclear self.old.world event)) }
        ensures row { self.new.row ≡ None }
    {
        self.lends = false;
        self.puts_rows = false;
        match self.state.turn() {
            None => Ok(None),
            Some(Side::Client) => self.next_of_client(),
            Some(Side::Server) => self.next_of_server(),
        }
    }

    // An event that is no row, where the client's payload or the server's last words are due.
    #[tactic(auto, using(crate::proofs::Lending::others_lent))]
    fn next_of_others(&mut self) -> Result<Option<LentEvent>, ConnectionFault>
        requires { turn self.old.world.standing.phase ≡ Some Server →
            is_early self.old.world.standing self.old.world.unread.server.bytes ≡ true }
        ensures answers { AnswersLent self.old.world result self.new }
        ensures unclear { IfOk result (λ found. IfSome found (λ event.
            LentHasUnclear self.old.world event)) }
    {
        events_are_in_turn();
        match self.next_event() {
            Ok(None) => Ok(None),
            Ok(Some(event)) => Ok(Some(LentEvent::Event(event))),
            Err(fault) => Err(fault),
        }
    }

    // The next payload of a reply; each row of it that has one chunk is lent.
    #[tactic(auto, using(crate::proofs::Coming::comes))]
    fn lend_of_server(&mut self) -> Result<Option<LentEvent>, ConnectionFault>
        requires within { kept self.old.world.standing ≤ room_to_keep self.old.world.limits }
        requires turn { turn self.old.world.standing.phase ≡ Some Server }
        requires answer { is_early self.old.world.standing self.old.world.unread.server.bytes ≡
            false }
        ensures { AnswersLent self.old.world result self.new }
    {
        let alloc = self.alloc;
        let limits = self.limits;
        self.lends = false;
        self.puts_rows = false;
        match take_lent(
            alloc,
            limits,
            Side::Server,
            &mut self.state,
            &mut self.server,
        ) {
            Ok(Some(LentEvent::Row)) => {
                self.lends = true;
                Ok(Some(LentEvent::Row))
            }
            Ok(event) => Ok(event),
            Err(fault) => Err(fault_in(Side::Server, &self.server, fault)),
        }
    }

    // A row behind another one is lent, where one comes next. `false` says nothing of what comes.
    fn lend_row(&mut self) -> bool
        requires { kept self.old.world.standing ≤ room_to_keep self.old.world.limits }
        ensures { LendsRow self.old.world result self.new }
    {
        self.lends = false;
        self.puts_rows = false;
        let limits = self.limits;
        if take_row(limits, &mut self.state, &mut self.server) {
            self.lends = true;
            true
        } else {
            false
        }
    }

    /// The next event of both streams; each row that has one chunk is lent.
    pub fn next_event_lent(&mut self) -> Result<Option<LentEvent>, ConnectionFault>
        requires { kept self.old.world.standing ≤ room_to_keep self.old.world.limits }
        ensures answers { AnswersLent self.old.world result self.new }
        ensures unclear { IfOk result (λ found. IfSome found (λ event.
            LentHasUnclear self.old.world event)) }
    {
        if self.lend_row() {
            Ok(Some(LentEvent::Row))
        } else {
            self.lend_next()
        }
    }

    // The next event of both streams, whatever it is. Apart from its caller, so that a row that is
    // taken there pays for none of it.
    #[inline(never)]
    fn lend_next(&mut self) -> Result<Option<LentEvent>, ConnectionFault>
        requires { kept self.old.world.standing ≤ room_to_keep self.old.world.limits }
        ensures answers { AnswersLent self.old.world result self.new }
        ensures unclear { IfOk result (λ found. IfSome found (λ event.
            LentHasUnclear self.old.world event)) }
    {
        match self.state.turn() {
            Some(Side::Server) if !is_early(&self.state, self.server.as_slice()) => {
                self.lend_of_server()
            }
            _ => self.next_of_others(),
        }
    }

    /// The row that was lent last, until something changes.
    pub fn row(&self) -> Option<RowRef<'_, '_>>
        ensures { option_map row_ref_view result ≡ self.now.row }
    {
        if self.lends {
            Some(self.state.row_ref(self.server.lent()))
        } else {
            None
        }
    }

    // Whether nothing comes next of the server's last words, behind the end of the client's stream.
    #[tactic(auto, using(crate::proofs::Waiting::words_waited))]
    fn waits_for_words(&self) -> bool
        ensures { result ≡ is_waiting (words self.now.world) }
    {
        let number = self.state.number();
        let bytes = self.server.as_slice();
        !has_number(number, bytes) || is_short(self.limits.server, number, bytes)
    }

    // Whether nothing comes next where the client's payload is due.
    #[tactic(auto, using(crate::proofs::Waiting::client_waited))]
    fn waits_for_client(&self) -> bool
        ensures { result ≡ is_waiting (client_by self.now.world (first_packet
            self.now.world.limits.client self.now.world.standing.number
            self.now.world.unread.client.bytes)) }
    {
        let number = self.state.number();
        is_short(self.limits.client, number, self.client.as_slice())
            && (!self.client.is_closed() || self.waits_for_words())
    }

    // The number that the server's packet is read by.
    fn server_number(&self) -> u8
        ensures { result ≡ server_number self.now.world.standing self.now.world.unread.server.bytes }
    {
        let bytes = self.server.as_slice();
        if is_early(&self.state, bytes) {
            number_of(bytes)
        } else {
            self.state.number()
        }
    }

    // Whether nothing comes next where the server's payload is due.
    #[tactic(auto, using(crate::proofs::Waiting::server_waited))]
    fn waits_for_server(&self) -> bool
        ensures { result ≡ is_waiting (of_server self.now.world self.now.world.unread.server.bytes) }
    {
        let number = self.server_number();
        is_short(self.limits.server, number, self.server.as_slice())
    }

    /// Whether nothing comes next.
    pub fn is_waiting(&self) -> bool
        ensures { result ≡ is_waiting (next self.now.world) }
    {
        match self.state.turn() {
            None => true,
            Some(Side::Client) => self.waits_for_client(),
            Some(Side::Server) => self.waits_for_server(),
        }
    }

    /// The state of a connection that waits for more.
    pub fn waiting_end(&self) -> End
        ensures { end_view result ≡ waiting_ending self.now.world
            (plain_phase self.now.world.standing.phase) (turn self.now.world.standing.phase) }
    {
        let is_read = self.client.is_empty();
        match self.state.phase() {
            Phase::Over(Reason::Quit) if !is_read => {
                End::Fault(fault_in(Side::Client, &self.client, Fault::AfterQuit))
            }
            Phase::Over(reason) => End::Over(reason),
            Phase::Command if is_read && self.server.is_empty() => End::Whole,
            _ => match self.state.turn() {
                Some(side) => End::Unfinished(side),
                None => End::Whole,
            },
        }
    }
}

// A fault of the packet that stands first of a side's stream.
fn fault_in(side: Side, stream: &StreamBuffer, fault: Fault) -> ConnectionFault
    ensures { failure_view result ≡ record { side = side; byte = stream.now.stream.read; fault = fault } }
{
    ConnectionFault {
        side,
        byte: stream.position(),
        fault,
    }
}
