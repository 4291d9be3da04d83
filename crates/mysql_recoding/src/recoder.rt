//! Streams of commands as executions, as their bytes come.

ghost use Rattle.std.specs.Prelude.{◌≡◌, ◌≤◌, ◌++◌, ◌⊎◌, ℕ, List, Err, IfErr, IfOk, IfSome, None, OnErr, OnOk, Some};
ghost use Rattle.std.specs.Prelude.{length, take};
ghost use Rattle.std.specs.Option.{option_map};
ghost use Rattle.mysql_values.specs.Sql.{read_by, read_by_default};
ghost use Rattle.mysql_receive.specs.Views.{sets_of};
ghost use Rattle.mysql_recoding.specs.declared.errors.RecodeError.TheVariants as recode_error;
ghost use Rattle.mysql_recoding.specs.Causes.{error_for};
ghost use Rattle.mysql_recoding.specs.AsItComes.{Finishes, IsNewRecoder, RecodesPiece, RefusesEnd, RefusesPiece};
ghost use Rattle.mysql_recoding.specs.AsItComes.{RefusesQuery, answer_by, recoder_state, sets_cause};
ghost use Rattle.mysql_recoding.specs.Steps.{AppendsTo, CanBePrepared, PutsSets, ReadsPiece, RefusesSetsFrom};

use crate::errors::RecodeError;
use crate::whole::{refused, values_of_all};
use mysql_receive::laws::there_is_one_audit;
use mysql_receive::{Content, Receiver, StreamFault};
use mysql_send::{Statement, put_more_executions, put_prepare};
use mysql_values::laws::tokens_of_a_text;
use mysql_values::{Mode, Spelling};
use mysql_wire::laws::one_split;
use std::alloc::Global;
use std::marker::Model;

/// Recodes a stream of commands whose bytes come in pieces, as [`recode`](crate::recode) does a
/// whole one. It holds the packet that isn't whole, the long data that waits, and the types in
/// force. It holds the number of the sets so far, and the prepare until it is appended.
#[derive(Drop)]
pub struct Recoder {
    alloc: Global,
    receiver: Receiver,
    stmt_id: u32,
    places: usize,
    limit: usize,
    count: usize,
    prepare: Vec<u8>,
    refused: Option<RecodeError>,
}

impl Model for Recoder {
    ghost use Rattle.mysql_recoding.specs.AsItComes.{Recoded};

    ghost Value = { Recoded };

    ghost use Rattle.mysql_recoding.specs.Inside.{recoder_of, IsKept};

    ghost view = { recoder_of };

    ghost invariant = { IsKept };
}

/// The prepare of a query as it is framed, and how many placeholders it has.
fn prepared(
    alloc: Global,
    query: &[u8],
    stmt_id: u32,
    limit: usize,
    mode: Mode,
    spelling: Spelling,
) -> Result<(usize, Vec<u8>), RecodeError>
    requires { 4 ≤ limit }
    ensures ok { IfOk result (λ found. CanBePrepared (read_by mode spelling query.now) stmt_id limit
        found.0 found.1.items) }
    ensures few { IfOk result (λ found. found.0 ≤ 65535) }
    ensures err { IfErr result (RefusesQuery (read_by mode spelling query.now) stmt_id limit) }
{
    tokens_of_a_text();
    let statement = match Statement::new_in(alloc, query, stmt_id, mode, spelling) {
        Ok(statement) => statement,
        Err(refusal) => return Err(refused(refusal)),
    };
    let mut prepare = Vec::new(alloc);
    match put_prepare(alloc, &statement, limit - 4, &mut prepare) {
        Ok(()) => Ok((statement.place_count(), prepare)),
        Err(refusal) => Err(refused(refusal)),
    }
}

/// Reads the next piece. Answers the sets of the payloads that stand whole with it, which the receiver
/// holds no more, and the fault behind them.
fn read_piece(
    receiver: &mut Receiver,
    piece: &[u8],
) -> Result<(Vec<Vec<Content>>, Option<RecodeError>), RecodeError>
    ensures ok { IfOk result (λ read. ReadsPiece receiver.old piece.now (sets_of read.0.items) read.1 receiver.new) }
    ensures err { IfErr result (λ error. error ≡ recode_error.Memory) }
    ensures statement { receiver.new.statement ≡ receiver.old.statement }
    ensures limit { receiver.new.limit ≡ receiver.old.limit }
{
    match receiver.feed(piece) {
        Ok(()) => Ok((receiver.take_sets(), None)),
        Err(StreamFault::Memory) => Err(RecodeError::Memory),
        Err(fault) => {
            let error = RecodeError::Stream(receiver.payloads(), fault);
            Ok((receiver.take_sets(), Some(error)))
        }
    }
}

/// Appends the prepare, and the executions of sets of the statement, of which the first has the
/// number `first`. Answers the number behind them.
fn put_sets(
    alloc: Global,
    stmt_id: u32,
    places: usize,
    limit: usize,
    first: usize,
    prepare: &[u8],
    sets: Vec<Vec<Content>>,
    out: &mut Vec<u8>,
) -> Result<usize, RecodeError>
    requires limit { 4 ≤ limit }
    requires places { places ≤ 65535 }
    ensures ok { IfOk result (λ count. AppendsTo stmt_id places limit first prepare.now
        (sets_of sets.items) out.old.items out.new.items count) }
    ensures err { IfErr result (RefusesSetsFrom stmt_id places limit first (sets_of sets.items)) }
    ensures kept { take (length out.old.items) out.new.items ≡ out.old.items }
{
    let count = match first.checked_add(sets.len()) {
        Some(count) => count,
        None => return Err(RecodeError::Memory),
    };
    let values = match values_of_all(alloc, sets) {
        Ok(values) => values,
        Err(refusal) => return Err(refused(refusal)),
    };
    out.extend_from_slice(prepare)?;
    match put_more_executions(alloc, stmt_id, places, first, &values, limit, out) {
        Ok(()) => Ok(count),
        Err(refusal) => Err(refused(refusal)),
    }
}

impl Recoder {
    /// A recoder of a stream of commands about this query, whose statement was given the id
    /// `stmt_id`.
    ///
    /// What it appends are executions of that statement. `limit` is a `max_allowed_packet` of at
    /// least 4. A payload that is read has at most `limit` bytes, and one that is appended at most
    /// `limit - 4`.
    ///
    /// Promise: it is refused for the first cause against preparing the query (`RefusesQuery`).
    ///
    /// # Errors
    /// The first cause that holds:
    /// - `Mixed` where both names and question marks occur in the query.
    /// - `TooManyPlaces`.
    /// - `PrepareTooLarge`.
    /// - `Memory` where a growth was refused.
    ///
    /// (MySQL: Client/Server Protocol, "COM_STMT_PREPARE".)
    pub fn new(
        alloc: Global,
        query: &[u8],
        stmt_id: u32,
        limit: usize,
    ) -> Result<Recoder, RecodeError>
        requires { 4 ≤ limit }
        ensures new { IfOk result
            (λ recoder. IsNewRecoder (read_by_default query.now) stmt_id limit (recoder_state recoder)) }
        ensures refused { IfErr result (RefusesQuery (read_by_default query.now) stmt_id limit) }
    {
        Recoder::new_in(
            alloc,
            query,
            stmt_id,
            limit,
            Mode::default(),
            Spelling::Quoted,
        )
    }

    /// A recoder of a stream that was sent to a server in this mode, else as [`Recoder::new`] makes
    /// it.
    ///
    /// The stream's texts have byte strings in this spelling, as [`Receiver::new_in`] says.
    ///
    /// Promise: it is refused for the first cause against preparing the query (`RefusesQuery`).
    ///
    /// # Errors
    /// - Those of [`Recoder::new`], in its order.
    ///
    /// (MySQL Reference Manual, "Server SQL Modes".)
    pub fn new_in(
        alloc: Global,
        query: &[u8],
        stmt_id: u32,
        limit: usize,
        mode: Mode,
        spelling: Spelling,
    ) -> Result<Recoder, RecodeError>
        requires { 4 ≤ limit }
        ensures new { IfOk result
            (λ recoder. IsNewRecoder (read_by mode spelling query.now) stmt_id limit (recoder_state recoder)) }
        ensures refused { IfErr result (RefusesQuery (read_by mode spelling query.now) stmt_id limit) }
    {
        let (places, prepare) = prepared(alloc, query, stmt_id, limit, mode, spelling)?;
        let receiver = match Receiver::new_in(alloc, query, stmt_id, limit, mode, spelling) {
            Ok(receiver) => receiver,
            // A query that can be prepared has one kind of placeholder.
            Err(_) => return Err(RecodeError::Memory),
        };
        Ok(Recoder {
            alloc,
            receiver,
            stmt_id,
            places,
            limit,
            count: 0,
            prepare,
            refused: None,
        })
    }

    /// Appends the executions of sets, and before the first set of all the prepare.
    fn put(&mut self, sets: Vec<Vec<Content>>, out: &mut Vec<u8>) -> Result<(), RecodeError>
        ensures ok { OnOk result (PutsSets self.old (sets_of sets.items) out.old.items out.new.items self.new) }
        ensures err { IfErr result (λ error. (error ≡ recode_error.Memory) ⊎
            (option_map error_for (sets_cause (recoder_state self.old).terms self.old.count
            (sets_of sets.items)) ≡ Some error)) }
        ensures kept { take (length out.old.items) out.new.items ≡ out.old.items }
        ensures unchanged { OnErr result (self.new ≡ self.old) }
    {
        if sets.is_empty() {
            return Ok(());
        }
        self.count = put_sets(
            self.alloc,
            self.stmt_id,
            self.places,
            self.limit,
            self.count,
            &self.prepare,
            sets,
            out,
        )?;
        self.prepare = Vec::new(self.alloc);
        Ok(())
    }

    /// Recodes the next piece. A refusal is not held yet, and what was appended before it stands.
    fn recode_piece(&mut self, piece: &[u8], out: &mut Vec<u8>) -> Result<(), RecodeError>
        ensures recoded { OnOk result ((appended : List ℕ) ×
            (out.new.items ≡ out.old.items ++ appended) ×
            RecodesPiece (recoder_state self.old).terms (recoder_state self.old) piece.now appended
            (recoder_state self.new)) }
        ensures refused { IfErr result (RefusesPiece (recoder_state self.old) piece.now) }
        ensures kept { take (length out.old.items) out.new.items ≡ out.old.items }
        ensures terms { (recoder_state self.new).terms ≡ (recoder_state self.old).terms }
        ensures unchanged { self.new.refused ≡ self.old.refused }
    {
        one_split();
        there_is_one_audit();
        let (sets, fault) = read_piece(&mut self.receiver, piece)?;
        self.put(sets, out)?;
        match fault {
            Some(error) => Err(error),
            None => Ok(()),
        }
    }

    /// Takes the next piece of the stream, of any length, and appends executions to `out`.
    ///
    /// They are those of the sets whose packets are whole with the piece, in the order of the
    /// stream. Before the first execution of all it appends the prepare. Each packet is numbered
    /// from 0. What all calls append, and [`finish`](Recoder::finish) behind them, is what
    /// [`recode`](crate::recode) appends of all bytes, however they are cut. Sets are sent as
    /// [`send_contents`](crate::send_contents) sends them.
    ///
    /// Promise: exactly the executions of the sets that are whole with the piece are appended,
    /// before the first the prepare. Or the first cause in the stream's order is answered
    /// (`RecodesPiece`, `RefusesPiece`).
    ///
    /// # Errors
    /// The first cause in the order of the stream:
    /// - `PacketTooLarge` with the number of the set, among all sets of the stream.
    /// - `Stream` with the payload's number and its fault, which `recode` finds before it looks at
    ///   sets.
    /// - `Memory` where a growth was refused, or more than 2^64-1 sets came.
    ///
    /// `out` is as it was after an error, also where sets of this piece stand before the cause.
    /// From then on each call answers the same and changes nothing.
    ///
    /// (MySQL: Client/Server Protocol, "COM_QUERY", "COM_STMT_PREPARE", "COM_STMT_SEND_LONG_DATA",
    /// "COM_STMT_EXECUTE"; MariaDB: Client/Server Protocol, "COM_STMT_BULK_EXECUTE".)
    pub fn feed(&mut self, piece: &[u8], out: &mut Vec<u8>) -> Result<(), RecodeError>
        ensures recoded { OnOk result ((appended : List ℕ) ×
            (out.new.items ≡ out.old.items ++ appended) ×
            RecodesPiece (recoder_state self.old).terms (recoder_state self.old) piece.now appended
            (recoder_state self.new)) }
        ensures refused { self.old.refused ≡ None → IfErr result (RefusesPiece (recoder_state self.old) piece.now) }
        ensures stays { IfSome self.old.refused (λ error. (result ≡ Err error) × (self.new ≡ self.old)) }
        ensures answer { result ≡ answer_by self.new.refused }
        ensures kept { OnErr result (out.new.items ≡ out.old.items) }
        ensures terms { (recoder_state self.new).terms ≡ (recoder_state self.old).terms }
    {
        if let Some(error) = self.refused {
            return Err(error);
        }
        let start = out.len();
        match self.recode_piece(piece, out) {
            Ok(()) => Ok(()),
            Err(error) => {
                out.truncate(start);
                self.refused = Some(error);
                Err(error)
            }
        }
    }

    /// Ends the stream. Where it carried no sets, it appends the prepare to `out`, as
    /// [`recode`](crate::recode) does.
    ///
    /// Promise: the prepare is appended where no set came, or how the stream ends is refused
    /// (`Finishes`, `RefusesEnd`).
    ///
    /// # Errors
    /// - What a call of [`feed`](Recoder::feed) refused.
    /// - `Unfinished` where long data waits or a packet isn't whole.
    /// - `Memory` where a growth was refused.
    ///
    /// `out` is as it was after an error.
    ///
    /// (MySQL: Client/Server Protocol, "COM_STMT_PREPARE", "COM_STMT_SEND_LONG_DATA".)
    pub fn finish(self, out: &mut Vec<u8>) -> Result<(), RecodeError>
        ensures finished { OnOk result ((appended : List ℕ) ×
            (out.new.items ≡ out.old.items ++ appended) × Finishes (recoder_state self) appended) }
        ensures refused { self.refused ≡ None → IfErr result (RefusesEnd (recoder_state self)) }
        ensures stays { IfSome self.refused (λ error. result ≡ Err error) }
        ensures kept { OnErr result (out.new.items ≡ out.old.items) }
    {
        if let Some(error) = self.refused {
            return Err(error);
        }
        let Recoder {
            alloc: _,
            receiver,
            stmt_id: _,
            places: _,
            limit: _,
            count: _,
            prepare,
            refused: _,
        } = self;
        match RecodeError::of_end(receiver.finish().end) {
            Some(error) => Err(error),
            None => {
                out.extend_from_slice(&prepare)?;
                Ok(())
            }
        }
    }
}
