//! A connection, read and put: bytes of both sides in, events out, and back.

ghost use Rattle.std.specs.Prelude.{◌≡◌, Err, IfOk, IfSome, None, OnErr, OnOk, min, option_copied, option_map};
ghost use Rattle.mysql_connection_machine.specs.Endings.{end_view, ending_of};
ghost use Rattle.mysql_connection_machine.specs.Machines.{Answers, AnswersFault, AnswersLent, Feeds};
ghost use Rattle.mysql_connection_machine.specs.Machines.{HoldsAtMost, TakesBytes, both_ended};
ghost use Rattle.mysql_connection_machine.specs.Machines.{LentHasUnclear, NextHasUnclear, ended};
ghost use Rattle.mysql_connection_machine.specs.Machines.{failure_in, failure_view, new_machine};
ghost use Rattle.mysql_connection_machine.specs.Machines.{room_left, statement_meant, stream_in, turn_in};
ghost use Rattle.mysql_connection_machine.specs.Modes.{Knows, KnowsPayload, ModeTaken, event_answered};
ghost use Rattle.mysql_connection_machine.specs.Modes.{event_in, event_in_lent, event_lent, event_put};
ghost use Rattle.mysql_connection_machine.specs.PuttingPayloads.{PutsPayloadOn, PutsWithoutEventOn, is_due_of};
ghost use Rattle.mysql_connection_machine.specs.PuttingPackets.{PutsCommandOrStays};
ghost use Rattle.mysql_connection_machine.specs.PuttingExecutions.{PutsExecutionOn};
ghost use Rattle.mysql_connection_machine.specs.PuttingRows.{PutsRowOn};
ghost use Rattle.mysql_connection_machine.specs.Writing.{IsReadFrom, PutsOn};
ghost use Rattle.mysql_connection_machine.specs.declared.payload_refusal.PayloadRefusal.TheVariants as refusals;
ghost use Rattle.mysql_connection_machine.specs.declared.put_refusal.PutRefusal.TheVariants.{NotDue};
ghost use Rattle.mysql_connection_rules.specs.Streams.{from_greeting, from_login, held, limit_of};
ghost use Rattle.mysql_connection_state.specs.Views.{EventHasUnclear, event_view, plain_phase};
ghost use Rattle.mysql_connection_writer.specs.Executions.{execution_said};
ghost use Rattle.mysql_connection_writer.specs.NextRows.{row_said};
ghost use Rattle.mysql_row_refs.specs.RowRefs.{row_ref_view};
ghost use Rattle.mysql_rows.specs.Views.{row_view};

use crate::both_streams::BothStreams;
use crate::end::End;
use crate::fault::{ConnectionFault, FeedRefusal};
use crate::lent_event::LentEvent;
use crate::payload_refusal::PayloadRefusal;
use crate::put_refusal::PutRefusal;
use crate::room::{limit_of, room};
use mysql_cells::Value;
use mysql_connection_modes::{mode_behind, mode_behind_payload, mode_executed};
use mysql_connection_rules::agreement_laws::puts_are_read;
use mysql_connection_rules::laws::{events_take_bytes, held_stays};
use mysql_connection_rules::{Limits, Side};
use mysql_connection_state::{Event, Phase, State};
use mysql_connection_statements::Statement;
use mysql_const::Capabilities;
use mysql_row_refs::RowRef;
use mysql_rows::Row;
use mysql_session_modes::SessionMode;
use std::alloc::Global;
use std::marker::Model;

/// Reads a connection: it is fed the bytes of both sides, and tells what was said. The pieces and
/// their order don't matter, and each payload is one event.
///
/// It is always one side's turn: what comes of the other waits until its own. So the events are
/// those of the two streams, however their bytes arrive. Of each side as many bytes wait unread as
/// the longest payload takes with its headers. A side that is refused is fed again once events were
/// taken.
///
///     let mut connection = Connection::new(alloc, limits);
///     connection.feed(Side::Server, greeting)?;
///     connection.feed(Side::Client, response)?;
///     while let Some(event) = connection.next_event()? {
///         ..
///     }
///
/// Contracts see it as a `Machine`: the limits, the state, and what is unread of both streams. It
/// also has the fault that was found, the row that was lent last, and what is known of the session.
///
/// MySQL: Client/Server Protocol, "Connection Lifecycle".
pub struct Connection {
    reader: BothStreams,
    fault: Option<ConnectionFault>,
    mode: SessionMode,
}

impl Model for Connection {
    ghost use Rattle.mysql_connection_machine.specs.Machines.{IsWithinLimits, Machine};

    ghost Value = { Machine };

    ghost use Rattle.mysql_connection_machine.specs.Inside.{machine_inside};

    ghost view = { machine_inside };

    ghost invariant = { λ c. IsWithinLimits (machine_inside c) };
}

// Written out, so that who owns a connection lets it go in one step.
impl Drop for Connection {
    fn drop(self) {
        let Connection {
            reader: _reader,
            fault: _,
            mode: _,
        } = self;
    }
}

impl Connection {
    /// A connection of which no byte came.
    ///
    /// Any limits are taken; [`Limits`] says what small ones do.
    ///
    /// MySQL: Client/Server Protocol, "Connection Lifecycle".
    pub fn new(alloc: Global, limits: Limits) -> Connection
        ensures { result ≡ new_machine (from_greeting limits) }
    {
        held_stays();
        Connection {
            reader: BothStreams::new(alloc, limits, State::new(alloc)),
            fault: None,
            mode: SessionMode::unknown(),
        }
    }

    /// A connection behind a login that was made elsewhere, by TLS or a pool.
    ///
    /// A command comes next, and no byte came since. `capabilities` are those that both sides have.
    ///
    /// MySQL: Client/Server Protocol, "Command Phase" and "Capabilities Flags".
    pub fn after_login(alloc: Global, limits: Limits, capabilities: Capabilities) -> Connection
        ensures { result ≡ new_machine (from_login limits capabilities) }
    {
        held_stays();
        Connection {
            reader: BothStreams::new(alloc, limits, State::after_login(alloc, capabilities)),
            fault: None,
            mode: SessionMode::unknown(),
        }
    }

    /// Takes a piece of a side's stream, whole; nothing of it is read yet. After an `Err` nothing
    /// has changed, but that no row is lent any more where memory ran out.
    ///
    /// Promise: the piece is taken where the stream is open and there is room for it, but for want
    /// of memory. Each refusal comes exactly where it is named (`Feeds`).
    ///
    /// # Errors
    /// - `Closed` where the side's stream has ended.
    /// - `Held` where more of the side would wait unread than its longest payload takes with its
    ///   headers. A caller takes events first, or feeds the side whose turn it is.
    /// - `Memory`, only where the piece would be taken else.
    ///
    /// MySQL: Client/Server Protocol, "MySQL Packets".
    pub fn feed(&mut self, side: Side, piece: &[u8]) -> Result<(), FeedRefusal>
        ensures { Feeds self.old side piece.now result self.new }
    {
        held_stays();
        let stream = self.reader.stream(side);
        if stream.is_closed() {
            return Err(FeedRefusal::Closed);
        }
        let waiting = stream.as_slice().len() as u128 + piece.len() as u128;
        if waiting > room(side, self.reader.limits()) {
            return Err(FeedRefusal::Held);
        }
        match self.reader.extend(side, piece) {
            Ok(()) => Ok(()),
            Err(_) => Err(FeedRefusal::Memory),
        }
    }

    /// Ends a side's stream: no more comes of it. Behind the client's end the server may say last
    /// words.
    ///
    /// MySQL: Client/Server Protocol, "Connection Lifecycle".
    pub fn close(&mut self, side: Side)
        ensures { self.new ≡ ended side self.old }
    {
        self.reader.close(side);
    }

    /// The next event. `None` where the next payload isn't there whole, or the connection is over.
    ///
    /// Promise: exactly what comes next of the two streams (`next`), for any bytes; an event takes
    /// its bytes and leaves all others. Exactly those values of an execution are unclear that are so
    /// by its bytes and by what is in force (`NextHasUnclear`).
    ///
    /// # Errors
    /// - The fault of the first packet, with its side and its position: `TooLarge`, `OutOfSync`,
    ///   those of the next payload, `Unasked`, `Held`.
    /// - `Memory`, which is asked for only where the next packet is complete (`FindsFault`).
    ///
    /// After an error it has failed: each call answers that error from then on. Nothing else has
    /// changed: the state before that payload is still told, and what is unread stays.
    ///
    /// MySQL: Client/Server Protocol, "Connection Phase", "Command Phase" and "Sequence ID".
    pub fn next_event(&mut self) -> Result<Option<Event>, ConnectionFault>
        ensures failed { IfSome self.old.failure (λ failure.
            AnswersFault result failure × (self.new ≡ self.old)) }
        ensures answers { self.old.failure ≡ None → Answers self.old.world result self.new.world }
        ensures unclear { IfOk result (λ found. IfSome found (λ event.
            NextHasUnclear self.old.world event)) }
        ensures row { self.old.failure ≡ None → self.new.row ≡ None }
        ensures fault { self.old.failure ≡ None → self.new.failure ≡ failure_in result }
        ensures fewer { TakesBytes self.old.world result self.new.world }
        ensures mode { Knows self.old (event_in result) self.new }
    {
        events_take_bytes();
        held_stays();
        if let Some(fault) = self.fault {
            return Err(fault);
        }
        match self.reader.next_event() {
            Ok(event) => {
                self.mode = mode_taken(self.mode, self.reader.state(), &event);
                Ok(event)
            }
            Err(fault) => {
                self.fault = Some(fault);
                Err(fault)
            }
        }
    }

    /// The next event, as [`Connection::next_event`] tells it, but a row stays where it lies.
    ///
    /// [`Connection::row`] then lends it. None of it is copied, and memory is asked for at the first
    /// row of a result alone. A row of more than one packet's chunk is an event as any other.
    ///
    ///     while let Some(event) = connection.next_event_lent()? {
    ///         match event {
    ///             LentEvent::Row => look_at(connection.row()),
    ///             LentEvent::Event(event) => ..
    ///         }
    ///     }
    ///
    /// Promise: exactly what comes next of the two streams, and the row that is lent is that event's.
    /// Each row of one chunk is lent (`AnswersLent`, `RowHasManyChunks`). An execution's unclear values
    /// are those of `next_event` (`LentHasUnclear`).
    ///
    /// # Errors
    /// - Those of [`Connection::next_event`], in the same order. Memory is asked for only where the next
    ///   packet is complete. After an error it has failed in the same way.
    ///
    /// MySQL: Client/Server Protocol, "Text Resultset Row" and "Binary Protocol Resultset Row"; C
    /// API, "mysql_use_result()".
    pub fn next_event_lent(&mut self) -> Result<Option<LentEvent>, ConnectionFault>
        ensures failed { IfSome self.old.failure (λ failure.
            AnswersFault result failure × (self.new ≡ self.old)) }
        ensures answers { self.old.failure ≡ None →
            AnswersLent self.old.world result (record { world = self.new.world; row = self.new.row }) }
        ensures unclear { IfOk result (λ found. IfSome found (λ event.
            LentHasUnclear self.old.world event)) }
        ensures fault { self.old.failure ≡ None → self.new.failure ≡ failure_in result }
        ensures fewer { TakesBytes self.old.world result self.new.world }
        ensures mode { Knows self.old (event_in_lent result) self.new }
    {
        events_take_bytes();
        held_stays();
        if let Some(fault) = self.fault {
            return Err(fault);
        }
        match self.reader.next_event_lent() {
            Ok(event) => {
                self.mode = mode_lent(self.mode, self.reader.state(), &event);
                Ok(event)
            }
            Err(fault) => {
                self.fault = Some(fault);
                Err(fault)
            }
        }
    }

    /// The row that [`Connection::next_event_lent`] told of: it is lent until the next call that
    /// changes the connection.
    ///
    /// MySQL: Client/Server Protocol, "Text Resultset Row" and "Binary Protocol Resultset Row".
    pub fn row(&self) -> Option<RowRef<'_, '_>>
        ensures { option_map row_ref_view result ≡ self.now.row }
    {
        self.reader.row()
    }

    /// Appends the packets of an event of the side whose turn it is, and goes on behind it.
    ///
    /// The connection is then as if they had come. A client puts what it asks, and sends what is
    /// appended; a server what it answers. What the other side sends is fed. Last words are put by
    /// a server in place of an answer, or behind the end of the client's stream.
    ///
    ///     connection.put(&event, &mut output)?;
    ///     socket.write_all(&output)?;
    ///
    /// Promise: exactly the packets of the one payload are appended that the event has here. They
    /// are read here as the event, by this connection and by any other that has seen the same
    /// (`AppendsEvent`, `Puts`). Or it is refused for the first cause that there is, and nothing
    /// has changed (`RefusesEvent`).
    ///
    /// # Errors
    /// - `NotDue` where it isn't the turn of the event's side, or bytes of that side wait unread.
    ///   Or its stream has ended, or the connection has failed.
    /// - `BadEvent` where no payload says the event here, with its packet's cause.
    /// - `TooLarge` where its payload is longer than the limit of its side.
    /// - `Held` where more would be kept behind it than the limit leaves.
    /// - `Memory`.
    ///
    /// MySQL: Client/Server Protocol, "Connection Phase", "Command Phase", "MySQL Packets" and "Sequence
    /// ID".
    #[tactic(auto, using(crate::proofs::PutEvents::read_from))]
    pub fn put(&mut self, event: &Event, out: &mut Vec<u8>) -> Result<(), PutRefusal>
        ensures failed { IfSome self.old.failure (λ failure. (result ≡ Err NotDue) ×
            (self.new ≡ self.old) × (out.new.items ≡ out.old.items)) }
        ensures puts { self.old.failure ≡ None → PutsOn self.old (event_view event.now)
            out.old.items result self.new out.new.items }
        ensures read { OnOk result (IsReadFrom self.old.world (event_view event.now)
            out.old.items out.new.items self.new.world) }
        ensures mode { Knows self.old (event_put (event_view event.now) result) self.new }
    {
        puts_are_read();
        held_stays();
        if self.fault.is_some() {
            return Err(PutRefusal::NotDue);
        }
        // For the proof alone: the number is a byte.
        let _number = self.reader.state().number();
        if self.reader.put_among_rows(event, out) {
            self.mode = mode_behind(self.mode, self.reader.state(), event);
            return Ok(());
        }
        match self.reader.put(event, out) {
            Ok(()) => {
                self.mode = mode_behind(self.mode, self.reader.state(), event);
                Ok(())
            }
            Err(refusal) => Err(refusal),
        }
    }

    /// Puts a row under the columns of the reply that goes on; the row's own columns don't matter.
    ///
    /// As [`Connection::put`] of the event that its cells are under these columns, where they are as
    /// many; else under its own. A row behind another one is written where it goes: no event is made
    /// of it, and its columns aren't compared.
    ///
    ///     for row in &rows {
    ///         connection.put_row(row, &mut output)?;
    ///     }
    ///
    /// Promise: exactly what `put` of that event does (`PutsRowOn`, `row_due`).
    ///
    /// # Errors
    /// - Those of [`Connection::put`], in the same order.
    ///
    /// MySQL: Client/Server Protocol, "Text Resultset Row" and "Binary Protocol Resultset Row".
    #[tactic(auto, using(crate::proofs::PutEvents::read_from))]
    pub fn put_row(&mut self, row: &Row, out: &mut Vec<u8>) -> Result<(), PutRefusal>
        ensures failed { IfSome self.old.failure (λ failure. (result ≡ Err NotDue) ×
            (self.new ≡ self.old) × (out.new.items ≡ out.old.items)) }
        ensures puts { self.old.failure ≡ None → PutsRowOn self.old (row_view row.now)
            out.old.items result self.new out.new.items }
        ensures read { OnOk result (IsReadFrom self.old.world
            (row_said self.old.world.standing (row_view row.now)) out.old.items out.new.items
            self.new.world) }
        ensures mode { Knows self.old
            (event_put (row_said self.old.world.standing (row_view row.now)) result) self.new }
    {
        puts_are_read();
        held_stays();
        if self.fault.is_some() {
            return Err(PutRefusal::NotDue);
        }
        // For the proof alone: the number is a byte.
        let _number = self.reader.state().number();
        self.reader.put_row(row, out)
    }

    /// Puts an execution of the statement of this id with these values, in the order of its placeholders.
    ///
    /// As [`Connection::put`] of its event. Types go with it only where those in force won't do, as
    /// servers keep them. That is at the first execution, and where a value has no cell by them.
    /// NULL has one by any type. An unsigned number below 2^63 is put as one with a sign, as it is
    /// read. It is written where it goes, with no event made of it. This holds where its types are
    /// in force, and neither long data nor query attributes are.
    ///
    ///     for set in &sets {
    ///         connection.put_execution(id, set, &mut output)?;
    ///         // send the output, and feed and take the reply
    ///     }
    ///
    /// Promise: exactly what `put` of that event does (`PutsExecutionOn`, `execution_said`).
    ///
    /// # Errors
    /// - Those of [`Connection::put`], in the same order. `BadEvent(Command(UnknownStatement))` is
    ///   of a statement that isn't known. `BadEvent(Command(ReadsOtherwise))` is where the values
    ///   aren't as many as its placeholders, or long data that waits is another text.
    ///
    /// MySQL: Client/Server Protocol, "COM_STMT_EXECUTE" (new_params_bind_flag).
    #[tactic(auto, using(crate::proofs::PutEvents::read_from))]
    pub fn put_execution(
        &mut self,
        id: u32,
        values: &[Value],
        out: &mut Vec<u8>,
    ) -> Result<(), PutRefusal>
        ensures failed { IfSome self.old.failure (λ failure. (result ≡ Err NotDue) ×
            (self.new ≡ self.old) × (out.new.items ≡ out.old.items)) }
        ensures puts { self.old.failure ≡ None → PutsExecutionOn self.old id values.now
            out.old.items result self.new out.new.items }
        ensures read { OnOk result (IsReadFrom self.old.world
            (execution_said self.old.world.standing id values.now) out.old.items out.new.items
            self.new.world) }
        ensures mode { Knows self.old
            (event_put (execution_said self.old.world.standing id values.now) result) self.new }
    {
        puts_are_read();
        held_stays();
        if self.fault.is_some() {
            return Err(PutRefusal::NotDue);
        }
        // For the proof alone: the number is a byte.
        let _number = self.reader.state().number();
        match self.reader.put_execution(id, values, out) {
            Ok(()) => {
                self.mode = mode_executed(self.mode, self.reader.state());
                Ok(())
            }
            Err(refusal) => Err(refusal),
        }
    }

    /// Whether a payload of a side can be put now.
    ///
    /// It is where it is the side's turn, its stream is open, nothing of it waits unread, and the
    /// connection hasn't failed.
    ///
    /// MySQL: Client/Server Protocol, "Connection Lifecycle".
    pub fn is_due(&self, side: Side) -> bool
        ensures { result ≡ is_due_of self.now side }
    {
        match self.fault {
            None => self.reader.awaits_payload(side),
            Some(_) => false,
        }
    }

    /// Appends the packets of this very payload at its side's turn, and goes on behind it. Answers
    /// the event that it says.
    ///
    /// The connection is then as if they had come. For who has payloads by packet writers of their
    /// own, or passes on what another connection said. Last words are put by [`Connection::put`]
    /// alone: an error in place of an answer says what it says there. No command is refused for its
    /// layout: one that is laid out as none is put as `Other`.
    ///
    ///     let event = connection.put_payload(Side::Client, payload, &mut output)?;
    ///     socket.write_all(&output)?;
    ///
    /// Promise: exactly this payload's packets are appended, numbered as they follow. They are read
    /// here as the event that is answered, by this connection and by any other that has seen the
    /// same (`AppendsPayload`, `Puts`). Or it is refused for the first cause that there is, and
    /// nothing has changed (`RefusesPayload`). Exactly those values of an execution are unclear
    /// that are so by its bytes and by what is in force (`EventHasUnclear`).
    ///
    /// # Errors
    /// - `NotDue` where it isn't the turn of the side, or bytes of it wait unread. Or its
    ///   stream has ended, or the connection has failed.
    /// - `TooLarge` where the payload is longer than the limit of its side.
    /// - `BadPayload` where it can't be read here, with the fault.
    /// - `Held` where more would be kept behind it than the limit leaves.
    /// - `Memory`.
    ///
    /// MySQL: Client/Server Protocol, "Connection Phase", "Command Phase", "MySQL Packets" and "Sequence
    /// ID".
    #[tactic(auto, using(crate::proofs::PutPayloads::read_payload))]
    pub fn put_payload(
        &mut self,
        side: Side,
        payload: &[u8],
        out: &mut Vec<u8>,
    ) -> Result<Event, PayloadRefusal>
        ensures failed { IfSome self.old.failure (λ failure. (result ≡ Err refusals.NotDue) ×
            (self.new ≡ self.old) × (out.new.items ≡ out.old.items)) }
        ensures puts { self.old.failure ≡ None → PutsPayloadOn self.old side payload.now
            out.old.items result self.new out.new.items }
        ensures read { IfOk result (λ event. IsReadFrom self.old.world (event_view event)
            out.old.items out.new.items self.new.world) }
        ensures unclear { IfOk result (λ event.
            EventHasUnclear self.old.world.standing payload.now event) }
        ensures mode { Knows self.old (event_answered result) self.new }
    {
        puts_are_read();
        held_stays();
        if self.fault.is_some() {
            return Err(PayloadRefusal::NotDue);
        }
        // For the proof alone: the number is a byte.
        let _number = self.reader.state().number();
        match self.reader.put_due_payload(side, payload, out) {
            Ok(event) => {
                self.mode = mode_behind(self.mode, self.reader.state(), &event);
                Ok(event)
            }
            Err(refusal) => Err(refusal),
        }
    }

    // Puts the command that stands first of a side's packets, where its packet can go as it stands, and
    // answers how many bytes it takes. `None` says nothing of it, and nothing has changed.
    #[inline(always)]
    pub(crate) fn put_first_command(
        &mut self,
        side: Side,
        packets: &[u8],
        out: &mut Vec<u8>,
    ) -> Option<usize>
        ensures { PutsCommandOrStays self.old side packets.now out.old.items result self.new
            out.new.items }
    {
        held_stays();
        match (self.fault, side) {
            (None, Side::Client) => {
                let used = self.reader.put_first_command(packets, out)?;
                self.mode = mode_behind_payload(self.mode, self.reader.state(), &packets[4..used]);
                Some(used)
            }
            _ => None,
        }
    }

    // Puts a payload whose event nobody asks for, on a connection that has found no fault.
    pub(crate) fn put_without_event(
        &mut self,
        side: Side,
        payload: &[u8],
        out: &mut Vec<u8>,
    ) -> Result<(), PayloadRefusal>
        requires { self.old.failure ≡ None }
        ensures puts { PutsWithoutEventOn self.old side payload.now out.old.items result self.new
            out.new.items }
        ensures mode { OnOk result (KnowsPayload self.old payload.now self.new) }
        ensures stays { OnErr result (self.new.mode ≡ self.old.mode) }
    {
        held_stays();
        if !self.reader.awaits_plain_command(side, payload) {
            let event = self.reader.put_due_payload(side, payload, out)?;
            self.mode = mode_behind(self.mode, self.reader.state(), &event);
            return Ok(());
        }
        self.reader.put_without_event(side, payload, out)?;
        self.mode = mode_behind_payload(self.mode, self.reader.state(), payload);
        Ok(())
    }

    // The longest payload of a side.
    pub(crate) fn limit_of(&self, side: Side) -> usize
        ensures { result ≡ limit_of side self.now.world.limits }
    {
        limit_of(side, self.reader.limits())
    }

    /// How many bytes of a side [`Connection::feed`] takes now: none where its stream has ended.
    ///
    /// MySQL: Client/Server Protocol, "MySQL Packets".
    pub fn room(&self, side: Side) -> usize
        ensures { result ≡ min (room_left side self.now) usize.MAX }
    {
        let stream = self.reader.stream(side);
        if stream.is_closed() {
            return 0;
        }
        let left = room(side, self.reader.limits()).saturating_sub(stream.as_slice().len() as u128);
        left.min(usize::MAX as u128) as usize
    }

    /// How many bytes are held: the unread ones of both sides, and what is kept. That is of
    /// statements, columns and long data. At most `usize::MAX` is told. A fault changes nothing of it.
    ///
    /// Promise: no more than the limit, after a fault too, where this is the room of both sides at
    /// least (`HoldsAtMost`).
    ///
    /// MySQL: Client/Server Protocol, "Prepared Statements".
    pub fn held(&self) -> usize
        ensures sum { result ≡ min (held self.now.world) usize.MAX }
        ensures limit { HoldsAtMost self.now }
    {
        held_stays();
        self.reader.held()
    }

    /// What of a side's stream is unread. Where the connection is over, it follows in a form of its
    /// own: TLS, compressed packets, the events of a dump.
    ///
    /// MySQL: Client/Server Protocol, "TLS", "Compression" and "Replication Protocol".
    pub fn rest(&self, side: Side) -> &[u8]
        ensures { result.now ≡ (stream_in side self.now).bytes }
    {
        self.reader.stream(side).as_slice()
    }

    /// Whose turn it is: nobody's where the connection is over, or has failed.
    ///
    /// MySQL: Client/Server Protocol, "Connection Lifecycle".
    pub fn turn(&self) -> Option<Side>
        ensures { result ≡ turn_in self.now }
    {
        match self.fault {
            None => self.reader.state().turn(),
            Some(_) => None,
        }
    }

    /// What comes next. After an error it is what was awaited before the payload that has the
    /// fault.
    ///
    /// MySQL: Client/Server Protocol, "Connection Phase" and "Command Phase".
    pub fn phase(&self) -> Phase
        ensures { result ≡ plain_phase self.now.world.standing.phase }
    {
        self.reader.state().phase()
    }

    /// The capabilities in force: those that both sides have. After an error they are those before the
    /// payload that has the fault.
    ///
    /// MySQL: Client/Server Protocol, "Capabilities Flags".
    pub fn capabilities(&self) -> Capabilities
        ensures { result ≡ self.now.world.standing.capabilities }
    {
        self.reader.state().capabilities()
    }

    /// What is known of the session's SQL mode and character set, by what was said so far.
    ///
    /// Behind a login, a change of user and a reset nothing is: ask by the text `ASK_SESSION_MODE`. After
    /// an error it is what was known before the payload that has the fault.
    ///
    /// Promise: it begins unknown, and each event that is read or put leaves what follows of it (`Knows`,
    /// `ModeBehind`).
    ///
    /// MySQL Reference Manual, "Server SQL Modes", "Server Tracking of Client Session State".
    pub fn session_mode(&self) -> SessionMode
        ensures { result ≡ self.now.mode }
    {
        self.mode
    }

    /// The prepared statement that this id of a command refers to: 0xffffffff for that which was
    /// prepared last.
    ///
    /// After an error it is the same as before the payload that has the fault.
    ///
    /// Promise: exactly the statement by which such a command is read (`statement_meant`).
    ///
    /// MySQL: Client/Server Protocol, "Prepared Statements"; MariaDB: "COM_STMT_EXECUTE" (statement
    /// id).
    pub fn statement(&self, id: u32) -> Option<&Statement>
        ensures { option_copied result ≡ statement_meant self.now.world.standing.statements id }
    {
        let statements = self.reader.state().statements();
        match statements.resolve(id) {
            Some(found) => statements.get(found),
            None => None,
        }
    }

    /// The fault that was found.
    ///
    /// MySQL: Client/Server Protocol, "MySQL Packets".
    pub fn fault(&self) -> Option<ConnectionFault>
        ensures { option_map failure_view result ≡ self.now.failure }
    {
        self.fault
    }

    /// Ends both streams, and says in which state the connection is.
    ///
    /// Nothing is taken. Where an event or a fault comes next it is `Unread`, and
    /// [`Connection::next_event`] answers it. That holds of last words too, behind the end of the
    /// client's stream.
    ///
    /// Promise: exactly by what comes next of the two ended streams (`ending_of`).
    ///
    /// MySQL: Client/Server Protocol, "Connection Lifecycle" and "COM_QUIT".
    pub fn finish(&mut self) -> End
        ensures closed { self.new ≡ both_ended self.old }
        ensures end { end_view result ≡ ending_of self.new }
    {
        self.reader.close(Side::Client);
        self.reader.close(Side::Server);
        if let Some(fault) = self.fault {
            return End::Fault(fault);
        }
        if self.reader.is_waiting() {
            self.reader.waiting_end()
        } else {
            End::Unread
        }
    }
}

// Behind an event, where one came.
#[inline(always)]
fn mode_taken(session: SessionMode, state: &State, event: &Option<Event>) -> SessionMode
    ensures { ModeTaken state.now.standing (option_map event_view event.now) session result }
{
    match event {
        Some(event) => mode_behind(session, state, event),
        None => session,
    }
}

// Behind an event that was told, where it is no row that is lent.
#[inline(always)]
fn mode_lent(session: SessionMode, state: &State, told: &Option<LentEvent>) -> SessionMode
    ensures { ModeTaken state.now.standing (event_lent told.now) session result }
{
    match told {
        Some(LentEvent::Event(event)) => mode_behind(session, state, event),
        _ => session,
    }
}
