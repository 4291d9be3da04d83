//! Reading a stream of commands back as it comes, piece by piece.

ghost use Rattle.std.specs.Prelude.{◌≡◌, ◌≢◌, ◌≤◌, [], false, None, Err, IfErr, IfOk, IfSome, OnOk, length};
ghost use Rattle.std.specs.List.{list_all};
ghost use Rattle.mysql_wire.specs.Bytes.{AreBytes};
ghost use Rattle.mysql_wire.specs.Incoming.{bytes_kept};
ghost use Rattle.mysql_values.specs.Queries.{HasMixed, HasPlaces, IsParsed};
ghost use Rattle.mysql_values.specs.Sql.{read_by, read_by_default};
ghost use Rattle.mysql_receive.specs.declared.fault.StreamFault.TheVariants.{Memory};
ghost use Rattle.mysql_receive.specs.declared.receiver.ReceiverError.TheVariants as receiver_error;
ghost use Rattle.mysql_receive.specs.Query.{IsQuery};
ghost use Rattle.mysql_receive.specs.Audit.{IsAbout};
ghost use Rattle.mysql_receive.specs.GoingOn.{HasFoundNoFault, ReceiverGoesOn, ReceiverDecides, RunsShort, TakesAll};
ghost use Rattle.mysql_receive.specs.GoingOn.{fresh_receiver};
ghost use Rattle.mysql_receive.specs.Receiving.{answer_by, audit_of};
ghost use Rattle.mysql_receive.specs.Making.{IsFresh, IsReceiverError};
ghost use Rattle.mysql_receive.specs.Parts.{end_by, fault_from, state_of_parts};
ghost use Rattle.mysql_receive.specs.Received.{receiver_state};
ghost use Rattle.mysql_receive.specs.Taking.{HandsOut, most_kept};
ghost use Rattle.mysql_receive.specs.Views.{statement_view, sets_of};

use crate::audit::{Audit, End};
use crate::fault::StreamFault;
use crate::incoming::read_piece;
use crate::progress::Progress;
use crate::read_error::ReadError;
use crate::reading::has_waiting_data;
use crate::statement::{Statement, StatementState};
use mysql_queries::ParsedQuery;
use mysql_values::laws::tokens_of_a_text;
use mysql_values::{Content, Mode, Place, Spelling};
use mysql_wire::PacketReader;
use mysql_wire::laws::reader_laws;
use std::alloc::{AllocError, Global};
use std::marker::Model;
use std::mem;
use thiserror::Error;

/// Why a receiver can't be made.
#[derive(Clone, Copy, Debug, PartialEq, Eq, Error)]
pub enum ReceiverError {
    /// The query has both names and question marks as placeholders.
    #[error("the query has both named and positional parameters")]
    Mixed,
    /// A growth of memory was refused.
    #[error("out of memory")]
    Memory,
}

impl From<AllocError> for ReceiverError {
    ghost from_gives = { λ _ e. e ≡ receiver_error.Memory };

    fn from(_e: AllocError) -> ReceiverError {
        ReceiverError::Memory
    }
}

/// Whether each place stands alone.
fn all_alone(places: &[Place]) -> bool
    ensures { result ≡ list_all (λ place. place.alone) places.now }
{
    places.iter().all(|place| place.alone)
}

/// The statement of a query with this text and these placeholders, which are copied.
fn copied_statement(
    alloc: Global,
    query: &[u8],
    mode: Mode,
    spelling: Spelling,
    parsed: &[u8],
    places: &[Place],
    stmt_id: u32,
) -> Result<Statement, AllocError>
    requires parsed { IsParsed (read_by mode spelling query.now) parsed.now }
    requires places { HasPlaces (read_by mode spelling query.now) places.now }
    ensures query { IfOk result (λ statement. IsQuery (statement_view statement).query) }
    ensures about { IfOk result
        (λ statement. IsAbout (statement_view statement) (read_by mode spelling query.now) stmt_id) }
{
    tokens_of_a_text();
    let places = Vec::from_slice(alloc, places)?;
    Ok(Statement {
        query: Vec::from_slice(alloc, query)?,
        mode,
        spelling,
        parsed: Vec::from_slice(alloc, parsed)?,
        alone: all_alone(&places),
        places,
        id: stmt_id,
    })
}

/// Reads a stream of commands about one query that is handed over in pieces.
///
///     let mut receiver = Receiver::new(alloc, b"SELECT :a", 1, 1 << 24)?;
///     while let Some(piece) = next_piece()? {
///         receiver.feed(piece)?;
///         for set in receiver.take_sets() { .. }
///     }
///     let audit = receiver.finish();
///
/// Contracts see what it holds in place of the bytes that it was fed: the payloads read, and what
/// is in force behind them. With these stand the bytes of the packet that isn't whole, the sets so
/// far, and the fault.
#[derive(Drop)]
pub struct Receiver {
    alloc: Global,
    statement: Statement,
    packets: PacketReader,
    progress: Progress,
    fault: Option<StreamFault>,
}

impl Model for Receiver {
    ghost use Rattle.mysql_receive.specs.Received.{Received};

    ghost Value = { Received };

    ghost use Rattle.mysql_receive.specs.Inside.{received_of, IsKept};

    ghost view = { received_of };

    ghost invariant = { IsKept };
}

/// The fault that an error is.
fn fault_of(error: ReadError) -> StreamFault
    ensures { result ≡ fault_from error }
{
    match error {
        ReadError::Memory => StreamFault::Memory,
        ReadError::Fault(fault) => fault,
    }
}

/// How a stream ends as things stand.
fn end_now(
    statement: &Statement,
    progress: &Progress,
    begun: bool,
    fault: Option<StreamFault>,
) -> End
    ensures { result ≡ end_by (statement_view statement.now) (state_of_parts progress.now [] fault) begun fault }
{
    if let Some(fault) = fault {
        return End::Fault(progress.count, fault);
    }
    if has_waiting_data(statement, &progress.state) {
        return End::WaitingPieces;
    }
    if begun {
        return End::UnfinishedPacket;
    }
    End::Whole
}

impl Receiver {
    /// A receiver of a stream of commands about this query, whose statement was given this id.
    ///
    /// The server that they were sent to is in the default mode. Texts have byte strings in quotes:
    /// [`Receiver::new_in`] takes the mode and the spelling. `limit` is the most bytes of a
    /// payload: the `max_allowed_packet` of this side, at least 4.
    ///
    /// # Errors
    /// - `Mixed` where both names and question marks occur in the query.
    /// - `Memory`.
    pub fn new(
        alloc: Global,
        query: &[u8],
        stmt_id: u32,
        limit: usize,
    ) -> Result<Receiver, ReceiverError>
        requires { 4 ≤ limit }
        ensures fresh { IfOk result (IsFresh (read_by_default query.now) stmt_id limit) }
        ensures one_kind { OnOk result (HasMixed (read_by_default query.now) false) }
        ensures mixed { IfErr result (IsReceiverError (read_by_default query.now)) }
    {
        Receiver::new_in(
            alloc,
            query,
            stmt_id,
            limit,
            Mode::default(),
            Spelling::Quoted,
        )
    }

    /// A receiver of a stream of commands about this query, which were sent to a server in this mode.
    ///
    /// Their texts have byte strings in this spelling: by `Spelling::Hexadecimal` literals behind an
    /// introducer are read too. `Mode::of_sql_mode` reads the mode from the variable `sql_mode`, as
    /// session tracking tells it.
    ///
    /// # Errors
    /// - `Mixed` where both names and question marks occur in the query.
    /// - `Memory`.
    ///
    /// (MySQL Reference Manual, "Server SQL Modes", "Character Set Introducers".)
    pub fn new_in(
        alloc: Global,
        query: &[u8],
        stmt_id: u32,
        limit: usize,
        mode: Mode,
        spelling: Spelling,
    ) -> Result<Receiver, ReceiverError>
        requires { 4 ≤ limit }
        ensures fresh { IfOk result (IsFresh (read_by mode spelling query.now) stmt_id limit) }
        ensures one_kind { OnOk result (HasMixed (read_by mode spelling query.now) false) }
        ensures mixed { IfErr result (IsReceiverError (read_by mode spelling query.now)) }
    {
        let query = ParsedQuery::new_in(alloc, query, mode, spelling)?;
        if query.is_mixed() {
            return Err(ReceiverError::Mixed);
        }
        Ok(Receiver::of_query(alloc, &query, stmt_id, limit)?)
    }

    /// A receiver of a stream of commands about a query that was parsed before, in the query's mode
    /// and spelling.
    ///
    /// # Errors
    /// - `AllocError` for want of memory.
    pub fn of_query(
        alloc: Global,
        query: &ParsedQuery<'_>,
        stmt_id: u32,
        limit: usize,
    ) -> Result<Receiver, AllocError>
        requires limit { 4 ≤ limit }
        requires one_kind { HasMixed query.now.sql false }
        ensures { IfOk result (IsFresh query.now.sql stmt_id limit) }
    {
        let parsed = query.with_marks(alloc)?;
        let statement = copied_statement(
            alloc,
            query.text(),
            query.mode(),
            query.spelling(),
            parsed.as_slice(),
            query.places(),
            stmt_id,
        )?;
        Ok(Receiver::of_statement(alloc, statement, limit))
    }

    /// A receiver that was fed nothing.
    fn of_statement(alloc: Global, statement: Statement, limit: usize) -> Receiver
        requires { IsQuery (statement_view statement).query }
        ensures fresh { receiver_state result ≡ fresh_receiver }
        ensures statement { result.statement ≡ statement_view statement }
        ensures limit { result.limit ≡ limit }
    {
        reader_laws();
        Receiver {
            alloc,
            statement,
            packets: PacketReader::new(alloc, 0, limit),
            progress: Progress {
                state: StatementState {
                    prepared: false,
                    types: None,
                    long_data: Vec::new(alloc),
                },
                sets: Vec::new(alloc),
                count: 0,
            },
            fault: None,
        }
    }

    /// Takes the next piece of the stream, of any length.
    ///
    /// What is held after it decides, over all bytes to come, what was decided before it over the
    /// piece and them. No more is held of the bytes than the packet that isn't whole. A fault that
    /// needs no more bytes is answered at once: after `Ok` what came ends without one.
    ///
    /// Promise: what is held decides, over all bytes to come, what was decided before over the
    /// piece and them. After a fault it answers that fault and changes nothing (`HasFoundNoFault`,
    /// `TakesAll`, `RunsShort`).
    ///
    /// # Errors
    /// - The first fault of the stream, [`StreamFault::Memory`] where a growth was refused.
    ///
    /// From then on each call answers that fault and changes nothing. Where memory ran out, what
    /// was read of the payloads before stays.
    ///
    /// Follows the MySQL Client/Server Protocol, "MySQL Packets" and "Command Phase".
    pub fn feed(&mut self, piece: &[u8]) -> Result<(), StreamFault>
        ensures goes_on { result ≢ Err Memory →
            ReceiverGoesOn self.old.statement self.old.limit (receiver_state self.old) piece.now
            (receiver_state self.new) }
        ensures short { self.old.fault ≡ None → result ≡ Err Memory →
            RunsShort self.old.statement self.old.limit (receiver_state self.old) piece.now
            (receiver_state self.new) }
        ensures takes { OnOk result
            (TakesAll self.old.statement self.old.limit (receiver_state self.old) piece.now
            (receiver_state self.new)) }
        ensures no_fault { OnOk result
            (HasFoundNoFault self.new.statement self.new.limit (receiver_state self.new)) }
        ensures stays { IfSome self.old.fault (λ fault. (result ≡ Err fault) × (self.new ≡ self.old)) }
        ensures answer { result ≡ answer_by self.new.fault }
        ensures bytes { OnOk result (AreBytes self.new.partial) }
        ensures statement { self.new.statement ≡ self.old.statement }
        ensures limit { self.new.limit ≡ self.old.limit }
    {
        reader_laws();
        if let Some(fault) = self.fault {
            return Err(fault);
        }
        match read_piece(
            &mut self.packets,
            self.alloc,
            &self.statement,
            &mut self.progress,
            piece,
        ) {
            Ok(()) => Ok(()),
            Err(error) => {
                let fault = fault_of(error);
                self.fault = Some(fault);
                Err(fault)
            }
        }
    }

    /// How many bytes are held of the packet that isn't whole. It takes no memory.
    ///
    /// They are those that came of it, but for the headers of its chunks, of which only one that
    /// doesn't stand whole is held. They are fewer than the limit. Where the limit has room for
    /// full chunks and at most three bytes more, they are up to three more than those chunks hold.
    /// After a fault none are held.
    ///
    /// Promise: the count is stated in closed form, and is at most `most_kept limit`; it is 0 after
    /// a fault (`bytes_kept`, `most_kept`).
    ///
    /// Follows the MySQL Client/Server Protocol, "MySQL Packets".
    pub fn kept(&self) -> usize
        ensures kept { result ≡ bytes_kept (length self.now.partial) }
        ensures most { result ≤ most_kept self.now.limit }
        ensures stopped { IfSome self.now.fault (λ _. result ≡ 0) }
    {
        self.packets.kept()
    }

    /// How many payloads were read. It takes no memory.
    ///
    /// Follows the MySQL Client/Server Protocol, "MySQL Packets".
    pub fn payloads(&self) -> u64
        ensures { result ≡ self.now.count }
    {
        self.progress.count
    }

    /// The sets that were read and not taken yet, in their order, place by place.
    pub fn sets(&self) -> &[Vec<Content>]
        ensures { sets_of result.now ≡ self.now.sets }
    {
        &self.progress.sets
    }

    /// Takes the sets that were read and not taken yet, in their order. It takes no memory.
    ///
    /// They are handed out place by place, also after a fault, and after [`StreamFault::Memory`].
    /// What is handed out isn't held any more, and nothing else changes. The next sets, and those
    /// of `finish`, follow on it. All of them in a row are those of the audit of what was fed. Let
    /// sets be taken from a receiver as they come, of a stream of any length. Then it holds at most
    /// one packet within the limit ([`Receiver::kept`]). Beside it stand the long data that waits
    /// for an execution, and the types in force.
    ///
    /// Promise: the sets that stand and weren't taken are handed out in order, and nothing else
    /// changes (`HandsOut`).
    ///
    /// Follows the MySQL Client/Server Protocol, "Command Phase".
    pub fn take_sets(&mut self) -> Vec<Vec<Content>>
        ensures hands_out { HandsOut self.old.statement self.old.limit (receiver_state self.old)
            (sets_of result.items) (receiver_state self.new) }
        ensures sets { sets_of result.items ≡ self.old.sets }
        ensures left { self.new ≡ record self.old { sets = [] } }
    {
        let none = Vec::new(self.alloc);
        mem::replace(&mut self.progress.sets, none)
    }

    /// The audit of what was fed, but for the sets that were taken before. It takes no memory.
    ///
    /// [`Receiver::take_sets`] takes them. After `StreamFault::Memory` its sets, behind those that
    /// were taken, are those of the stream's first payloads, as many as its end counts. They are at
    /// least those that stood whole before the `feed` that answered it.
    ///
    /// Promise: the answer is the audit that is decided over no more bytes (`AuditOf`).
    pub fn finish(self) -> Audit
        ensures { ReceiverDecides self.statement self.limit (receiver_state self) [] (audit_of result) }
    {
        reader_laws();
        let end = end_now(
            &self.statement,
            &self.progress,
            self.packets.is_begun(),
            self.fault,
        );
        let Receiver {
            alloc: _,
            statement: _,
            packets: _,
            progress,
            fault: _,
        } = self;
        let Progress {
            state: _,
            sets,
            count: _,
        } = progress;
        Audit { sets, end }
    }
}
