//! A query that is kept for calls that each send or read sets of it.

ghost use Rattle.std.specs.Prelude.{◌≡◌, ◌≢◌, ◌≤◌, ◌++◌, ℕ, IfErr, IfOk, List, OnErr, OnOk, false, length};
ghost use Rattle.std.specs.Prelude.{◌+◌, ◌<◌, ◌^◌, map};
ghost use Rattle.mysql_values.specs.Binding.{Binds, RefusesBinding};
ghost use Rattle.mysql_values.specs.Parsed.{names_of};
ghost use Rattle.mysql_values.specs.Place.{Place as PlaceOf};
ghost use Rattle.mysql_values.specs.Queries.{HasMixed, HasPlaces};
ghost use Rattle.mysql_values.specs.Sql.{read_by, read_by_default};
ghost use Rattle.mysql_receive.specs.Making.{IsFresh};
ghost use Rattle.mysql_values.specs.declared.bind.BindError.TheVariants as bind_error;
ghost use Rattle.mysql_session.specs.Delivery.{Delivers};
ghost use Rattle.mysql_session.specs.Kept.{AppendsFurther, ChecksCount, IsNotKept, KeepsQuery, RefusesFurther};
ghost use Rattle.mysql_session.specs.WritingTo.{DeliversTo, StopsSending};
ghost use Rattle.mysql_command_rules.specs.Writing.{Writes};
ghost use Rattle.mysql_command_rules.specs.declared.road.Road.TheVariants as roads;
ghost use Rattle.mysql_command_rules.specs.Sending.{RefusesGiven};
ghost use Rattle.mysql_command_rules.specs.Sets.{Given, all_given, all_given_in_places};
ghost use Rattle.mysql_command_rules.specs.declared.refusal.Refusal.TheVariants as refusals;

use crate::laws::{further_sets_are_delivered, readable_sets_are_delivered};
use crate::wrong_count::WrongCount;
use mysql_buf::laws::are_bytes;
use mysql_command_rules::{Refusal, Road, SendToError, flush};
use mysql_receive::Receiver;
use mysql_send::{
    Statement, put_executions, put_more_executions, put_queries, put_requests, write_executions,
    write_queries,
};
use mysql_values::bind::bind_query;
use mysql_values::laws::{pieces_of_a_query, tokens_of_a_text};
use mysql_values::{BindError, Mode, Params, Spelling, Value};
use std::alloc::{AllocError, Global};
use std::io::Write;
use std::marker::Model;

/// The text of a query and the id of its statement, kept for many calls.
///
/// What [`send`](crate::send), [`Receiver::new`] and `bind_text` find of a text is found once: its
/// placeholders, their names and the text with a question mark for each.
///
///     let query = Query::new(alloc, b"INSERT INTO goods VALUES (?, ?)", 1)?;
///     query.send(alloc, &sets, Road::Execute, 1 << 24, &mut out)?;
#[derive(Drop)]
pub struct Query<'q> {
    statement: Statement<'q>,
}

impl<'q> Model for Query<'q> {
    ghost use Rattle.mysql_session.specs.Kept.{KeptQuery};

    ghost Value = { KeptQuery };

    ghost use Rattle.mysql_session.specs.Inside.{kept_query};

    ghost view = { kept_query };
}

impl<'q> Query<'q> {
    /// The query of this text, whose statement has this id.
    ///
    /// It is for a server in the default mode, and its texts have byte strings in quotes:
    /// [`Query::new_in`] takes the mode and the spelling.
    ///
    /// Promise: it represents its text and its statement's id, and is refused by `Mixed` exactly
    /// where both kinds of placeholder occur. Where it is refused, so are all sets of this text and
    /// id, in each way (`KeepsQuery`, `IsNotKept`).
    ///
    /// # Errors
    /// - `Mixed` where both names and question marks occur in the text.
    /// - `Memory`.
    ///
    /// (MySQL Reference Manual, "PREPARE Statement" (parameter markers).)
    pub fn new(alloc: Global, text: &'q [u8], stmt_id: u32) -> Result<Query<'q>, Refusal>
        ensures kept { IfOk result (KeepsQuery (read_by_default text.entry.now) stmt_id) }
        ensures refused { IfErr result (IsNotKept (read_by_default text.entry.now) stmt_id) }
    {
        Query::new_in(alloc, text, stmt_id, Mode::default(), Spelling::Quoted)
    }

    /// The query of this text for a server in this mode, whose statement has this id.
    ///
    /// What is sent, bound and read by it goes by the mode, and texts have byte strings in this
    /// spelling. `Mode::of_sql_mode` reads the mode from the variable `sql_mode`, as session tracking
    /// tells it. `Mode::of` reads it from a status, which is wrong behind a procedure that changed the
    /// mode. Where the mode isn't known, take `Spelling::Hexadecimal`, or send by execute.
    ///
    ///     let mode = Mode::of_sql_mode(value);
    ///     let spelling = if mode.is_some() { Spelling::Quoted } else { Spelling::Hexadecimal };
    ///     let query = Query::new_in(alloc, text, 1, mode.unwrap_or_default(), spelling)?;
    ///
    /// Promise: it represents its text, the mode, the spelling and its statement's id. It is
    /// refused by `Mixed` exactly where both kinds of placeholder occur. Where it is refused, so
    /// are all sets of this text and id in this mode, in each way (`KeepsQuery`, `IsNotKept`).
    ///
    /// # Errors
    /// - `Mixed` where both names and question marks occur in the text.
    /// - `Memory`.
    ///
    /// (MySQL Reference Manual, "PREPARE Statement" (parameter markers), "Server SQL Modes".)
    pub fn new_in(
        alloc: Global,
        text: &'q [u8],
        stmt_id: u32,
        mode: Mode,
        spelling: Spelling,
    ) -> Result<Query<'q>, Refusal>
        ensures kept { IfOk result (KeepsQuery (read_by mode spelling text.entry.now) stmt_id) }
        ensures refused { IfErr result (IsNotKept (read_by mode spelling text.entry.now) stmt_id) }
    {
        let statement = Statement::new_in(alloc, text, stmt_id, mode, spelling)?;
        Ok(Query { statement })
    }

    /// The mode of the server that it is for.
    pub fn mode(&self) -> Mode
        ensures { result ≡ self.now.sql.mode }
    {
        self.statement.query().mode()
    }

    /// The spelling of byte strings in its texts.
    pub fn spelling(&self) -> Spelling
        ensures { result ≡ self.now.sql.spelling }
    {
        self.statement.query().spelling()
    }

    /// The text, in which not both names and question marks occur.
    pub fn text(&self) -> &[u8]
        ensures text { result.now ≡ self.now.sql.text }
        ensures one_kind { HasMixed self.now.sql false }
    {
        self.statement.text()
    }

    /// The id of the statement.
    pub fn stmt_id(&self) -> u32
        ensures { result ≡ self.now.id }
    {
        self.statement.id()
    }

    /// How many placeholders the text has.
    pub fn place_count(&self) -> usize
        ensures { (places : List PlaceOf) × HasPlaces self.now.sql places × (result ≡ length places) }
    {
        self.statement.query().places().len()
    }

    /// Checks that the server counted as many parameters as the text has placeholders.
    ///
    /// `parameters` is what its answer to the prepare has (`StmtPacket::num_params`). A server runs
    /// an execution with another number of values too, with other values than were meant. So ask
    /// before you send what [`Query::send_more`] appends, or what [`Query::send`] appends behind its
    /// prepare. `Connection::put_sets` asks by itself.
    ///
    ///     query.check_count(answer.num_params())?;
    ///
    /// Promise: exactly where the two numbers are the same, it has nothing against them
    /// (`ChecksCount`).
    ///
    /// # Errors
    /// - `WrongCount` with both numbers.
    ///
    /// (MySQL: Client/Server Protocol, "COM_STMT_PREPARE Response" (num_params).)
    pub fn check_count(&self, parameters: u16) -> Result<(), WrongCount>
        ensures { ChecksCount self.now.sql parameters result }
    {
        let places = self.place_count();
        if places == parameters as usize {
            Ok(())
        } else {
            Err(WrongCount { places, parameters })
        }
    }

    /// Appends to `out` what [`send`](crate::send) appends of sets of this text and id.
    ///
    /// The `Road` and the limit are those of that call, and so are its refusals. By text **safe
    /// for** a server in the query's mode, as `mysql_values::bind_text_in` says; by execute and
    /// bulk for any.
    ///
    /// Promise: what [`send`](crate::send) promises over this text and id; never `Mixed`
    /// (`RefusesGiven`, `Delivers`).
    ///
    /// # Errors
    /// - Those of [`send`](crate::send) but for `Mixed`, which [`Query::new`] refused, in its
    ///   order. `out` is then as it was.
    ///
    /// (MySQL: Client/Server Protocol, "COM_QUERY", "COM_STMT_PREPARE", "COM_STMT_SEND_LONG_DATA",
    /// "COM_STMT_EXECUTE"; MariaDB: Client/Server Protocol, "COM_STMT_BULK_EXECUTE".)
    pub fn send(
        &self,
        alloc: Global,
        sets: &[Params],
        road: Road,
        limit: usize,
        out: &mut Vec<u8>,
    ) -> Result<(), Refusal>
        requires { 4 ≤ limit }
        ensures refused { IfErr result
            (RefusesGiven road self.now.sql (all_given sets.now)
            self.now.id limit) }
        ensures never_mixed { IfErr result (λ refusal. refusal ≢ refusals.Mixed) }
        ensures kept { OnErr result (out.new.items ≡ out.old.items) }
        ensures delivered { OnOk result
            (Delivers road self.now.sql (all_given sets.now) self.now.id limit out.old.items
            out.new.items) }
    {
        readable_sets_are_delivered();
        tokens_of_a_text();
        // For the proof alone: the id is below 2^32, the text's placeholders are of one kind.
        let (_id, _text) = (self.statement.id(), self.text());
        let start = out.len();
        let statement = &self.statement;
        let sent = match road {
            Road::Text => put_queries(alloc, statement.query(), sets, limit, out),
            Road::Execute => put_executions(alloc, statement, sets, limit, out),
            Road::Bulk => put_requests(alloc, statement, sets, None, limit, out),
        };
        are_bytes(out.as_slice());
        if sent.is_err() {
            out.truncate(start);
        }
        sent
    }

    /// Appends the executions of further sets of values, for a statement that was prepared once.
    ///
    /// They are those that [`Query::send`] by [`Road::Execute`] appends behind its prepare,
    /// numbered on from `first` and with it fewer than 2^64. `first` is the number of the sets that
    /// were sent before; values are in the order of the placeholders. A payload has at most
    /// `limit - 4` bytes, and so has an execution with all its values. Behind sets that were
    /// delivered by execute, with their number as `first`, they are delivered with them.
    ///
    /// Promise: exactly the framings of the sets' executions are appended, numbered on, or the
    /// first cause is answered and `out` is as it was (`AppendsFurther`).
    ///
    /// # Errors
    /// - `TooManyPlaces`.
    /// - The first cause that holds, set by set: `WrongCount`, `Float`, `PacketTooLarge`.
    /// - `Memory` where a growth was refused.
    ///
    /// `out` is as it was after an error.
    ///
    /// (MySQL: Client/Server Protocol, "COM_STMT_SEND_LONG_DATA", "COM_STMT_EXECUTE".)
    pub fn send_more(
        &self,
        alloc: Global,
        first: usize,
        sets: &[Vec<Value>],
        limit: usize,
        out: &mut Vec<u8>,
    ) -> Result<(), Refusal>
        requires limit { 4 ≤ limit }
        requires numbers { first + length sets.now < 2 ^ 64 }
        ensures ok { OnOk result (AppendsFurther self.now limit first
            (map (λ set. set.items) sets.now) out.old.items out.new.items) }
        ensures err { IfErr result (RefusesFurther self.now limit first (map (λ set. set.items) sets.now)) }
        ensures kept { OnErr result (out.new.items ≡ out.old.items) }
        // Whatever stood in front of the sets that were delivered.
        ensures delivered { OnOk result ((before : List (List ℕ) → List Given) (start : List ℕ) →
            (delivery : Delivers roads.Execute self.now.sql before self.now.id limit start
            out.old.items)
            → length (before (names_of delivery.tokens)) ≡ first
            → Delivers roads.Execute self.now.sql (λ names. before names ++
            all_given_in_places (map (λ set. set.items) sets.now) names) self.now.id limit start
            out.new.items) }
    {
        further_sets_are_delivered();
        let (id, places) = (self.statement.id(), self.statement.place_count());
        if places > 65535 {
            return Err(Refusal::TooManyPlaces);
        }
        let start = out.len();
        let sent = put_more_executions(alloc, id, places, first, sets, limit, out);
        are_bytes(out.as_slice());
        if sent.is_err() {
            out.truncate(start);
        }
        sent
    }

    /// Sends sets by bulk to a writer.
    fn send_requests_to<W: Write>(
        &self,
        alloc: Global,
        sets: &[Params],
        limit: usize,
        to: &mut W,
    ) -> Result<(), SendToError>
        requires { 4 ≤ limit }
        ensures written { OnOk result
            (Writes roads.Bulk self.now.sql (all_given sets.now) self.now.id limit
            (W.contents to.old) (W.contents to.new)) }
        ensures stopped { IfErr result
            (StopsSending roads.Bulk self.now.sql sets.now self.now.id limit (W.contents to.old)
            (W.contents to.new)) }
    {
        let mut requests = Vec::new(alloc);
        match put_requests(alloc, &self.statement, sets, None, limit, &mut requests) {
            Ok(()) => Ok(flush(&mut requests, to)?),
            Err(refusal) => Err(SendToError::Refused(refusal, 0)),
        }
    }

    /// Sends sets to a writer by the calls over what was found.
    fn send_sets_to<W: Write>(
        &self,
        alloc: Global,
        sets: &[Params],
        road: Road,
        limit: usize,
        to: &mut W,
    ) -> Result<(), SendToError>
        requires { 4 ≤ limit }
        ensures written { OnOk result
            (Writes road self.now.sql (all_given sets.now) self.now.id
            limit (W.contents to.old)
            (W.contents to.new)) }
        ensures stopped { IfErr result
            (StopsSending road self.now.sql sets.now self.now.id limit (W.contents to.old)
            (W.contents to.new)) }
    {
        match road {
            Road::Text => write_queries(alloc, self.statement.query(), sets, limit, to),
            Road::Execute => write_executions(alloc, &self.statement, sets, limit, to),
            Road::Bulk => self.send_requests_to(alloc, sets, limit, to),
        }
    }

    /// Writes to `to`, as to a connection, what [`Query::send`] appends of the same sets.
    ///
    /// By text and execute it goes in parts, as the sets are made packets. By bulk it goes when all
    /// requests are made, since what speaks against any set comes before the first of them. What
    /// `to` holds back itself, as a `BufWriter` does, is flushed by who gave it.
    ///
    /// By text **safe for** a server in the query's mode, as `mysql_values::bind_text_in` says; by
    /// execute and bulk for any.
    ///
    /// Promise: the writer is given what [`Query::send`] appends, or, where not all are written,
    /// all sets before the refused one. A writer that failed took a prefix, and not all
    /// (`DeliversTo`, `StopsSending`).
    ///
    /// # Errors
    /// - `SendToError::Refused` with what [`Query::send`] is refused for, and how many sets were
    ///   written before. By text `NotAlone`, and by execute `TooManyPlaces` and `PrepareTooLarge`,
    ///   come before anything is written. At a set come `Params`, `WrongCount`, `Float`,
    ///   `PacketTooLarge`, or `Memory` where a growth was refused. All sets before it are written
    ///   then, each whole. By bulk each refusal comes before anything is written.
    /// - `SendToError::Io` where the writer fails. It has taken a prefix of a stream that carries
    ///   the first sets, by bulk all, and not all of that stream. A receiver reads of that, without
    ///   a fault, exactly the sets that are whole in it: the theorem
    ///   `laws::failed_writers_are_read`.
    ///
    /// (MySQL: Client/Server Protocol, "COM_QUERY", "COM_STMT_PREPARE", "COM_STMT_SEND_LONG_DATA",
    /// "COM_STMT_EXECUTE"; MariaDB: Client/Server Protocol, "COM_STMT_BULK_EXECUTE".)
    pub fn send_to<W: Write>(
        &self,
        alloc: Global,
        sets: &[Params],
        road: Road,
        limit: usize,
        to: &mut W,
    ) -> Result<(), SendToError>
        requires { 4 ≤ limit }
        ensures delivered { OnOk result
            (DeliversTo road self.now.sql (all_given sets.now) self.now.id limit
            (W.contents to.old) (W.contents to.new)) }
        ensures stopped { IfErr result
            (StopsSending road self.now.sql sets.now self.now.id limit (W.contents to.old)
            (W.contents to.new)) }
    {
        readable_sets_are_delivered();
        // For the proof alone: the id is below 2^32.
        let _id = self.statement.id();
        self.send_sets_to(alloc, sets, road, limit, to)
    }

    /// A receiver of a stream of commands about this query, with this limit.
    ///
    /// It is the one that [`Receiver::new`] makes of this text and id.
    ///
    /// Promise: what [`Receiver::new`] promises over this text, but for a refusal other than memory
    /// (`KeptQuery`).
    ///
    /// # Errors
    /// - `AllocError` out of memory.
    ///
    /// (MySQL: Client/Server Protocol, "MySQL Packets" and "Command Phase".)
    pub fn receiver(&self, alloc: Global, limit: usize) -> Result<Receiver, AllocError>
        requires { 4 ≤ limit }
        ensures fresh { IfOk result (IsFresh self.now.sql self.now.id limit) }
        ensures one_kind { HasMixed self.now.sql false }
    {
        // For the proof alone: the text's placeholders are of one kind.
        let _text = self.text();
        Receiver::of_query(alloc, self.statement.query(), self.statement.id(), limit)
    }

    /// Appends the text with the literals of a set's values in the places of its placeholders.
    ///
    /// `mysql_values::bind_text_in` does the same, and is **safe for** the same servers.
    ///
    /// Promise: what `mysql_values::bind_text_in` promises over this text, mode and spelling; never
    /// `Mixed` (`Binds`).
    ///
    /// # Errors
    /// - `NotAlone` with the first such placeholder.
    /// - `Params`.
    /// - `WrongCount`.
    /// - `Float` with the first such placeholder.
    /// - `Memory`.
    ///
    /// Nothing is appended after an error.
    ///
    /// (MySQL Reference Manual, "Literal Values".)
    pub fn bind_text(
        &self,
        alloc: Global,
        params: &Params,
        out: &mut Vec<u8>,
    ) -> Result<(), BindError>
        ensures ok { OnOk result (Binds self.now.sql params.now out.old.items out.new.items) }
        ensures err { IfErr result (RefusesBinding self.now.sql params.now) }
        ensures never_mixed { IfErr result (λ e. e ≢ bind_error.Mixed) }
        ensures kept { OnErr result (out.new.items ≡ out.old.items) }
    {
        pieces_of_a_query();
        tokens_of_a_text();
        // For the proof alone: the text's placeholders are of one kind.
        let _text = self.text();
        let query = self.statement.query();
        // For the proof alone: the placeholders are those of the text.
        let _places = query.places();
        if let Some(place) = query.first_not_alone() {
            return Err(BindError::NotAlone(place));
        }
        let mut values = Vec::new(alloc);
        bind_query(query, params, &mut values, out)
    }
}
