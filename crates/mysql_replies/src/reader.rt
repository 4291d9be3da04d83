//! A reply, read from the bytes of a connection as they come.

ghost use Rattle.std.specs.Prelude.{◌≡◌, ◌≢◌, ◌⊎◌, ◌+◌, ◌++◌, [], None, Some, Ok, Err, OnOk, IfErr, IfSome, false};
ghost use Rattle.std.specs.Prelude.{flat_map, length, map, ◌<◌, ◌≤◌};
ghost use Rattle.std.specs.Bool.{OnFalse, OnTrue};
ghost use Rattle.mysql_wire.specs.Incoming.{ReadsOn, bytes_kept, codec_by};
ghost use Rattle.mysql_replies.specs.declared.fault.ReplyFault.TheVariants.{Memory};
ghost use Rattle.mysql_replies.specs.Bytes.{IsReplyOf, IsShortReplyOf};
ghost use Rattle.mysql_replies.specs.Reply.{context_by};
ghost use Rattle.mysql_replies.specs.Holding.{fresh_reader, fault_of, ReaderDecides, ReaderGoesOn, HasFoundNoFault};
ghost use Rattle.mysql_replies.specs.Holding.{TakesAll, StandsShort};
ghost use Rattle.mysql_replies.specs.States.{IsAwaiting, reader_state, fault_named};
ghost use Rattle.mysql_replies.specs.Pieces.{IsWaiting, TakesPiece};
ghost use Rattle.mysql_replies.specs.Taking.{ListsResults, ListsRows, results_in, without_results, reports_in};
ghost use Rattle.mysql_replies.specs.Taking.{without_reports};
ghost use Rattle.mysql_replies.specs.Views.{answer_view, outcome_views, report_views, row_views};

use crate::fault::ReplyFault;
use crate::framing::framing_laws;
use crate::results::{Reply, ReplyResult};
use crate::state::ReplyState;
use mysql_buf::laws::are_bytes;
use mysql_const::CapabilityFlags;
use mysql_reply_events::ReplyKind;
use mysql_rows::Row;
use mysql_server_packets::ProgressReport;
use mysql_wire::{PacketCodecError, PacketReader};
use std::alloc::Global;
use std::marker::Model;

/// The fault of a reply that a codec's error means.
pub fn fault_from(error: PacketCodecError) -> ReplyFault
    ensures { result ≡ fault_named error }
{
    match error {
        PacketCodecError::PacketTooLarge => ReplyFault::TooLarge,
        PacketCodecError::PacketsOutOfSync => ReplyFault::OutOfSync,
        // `Io` is of codecs over streams: what reads buffers never answers it.
        PacketCodecError::Memory | PacketCodecError::Io(_) => ReplyFault::Memory,
    }
}

// Takes each payload that the piece makes whole.
#[inline(never)]
fn take_payloads(
    alloc: Global,
    state: &mut ReplyState,
    packets: &mut PacketReader,
    piece: &[u8],
) -> Result<(), ReplyFault>
    requires { IsWaiting state.old packets.old }
    ensures { TakesPiece state.old packets.old piece.now result state.new packets.new }
{
    framing_laws();
    let mut rest = piece;
    'packets: loop {
        if state.is_over() {
            if rest.is_empty() {
                return Ok(());
            }
            return Err(state.fail(ReplyFault::AfterEnd));
        }
        if let Some(payload) = packets.read_in_place(&mut rest) {
            let placed = state.take(alloc, payload);
            if placed.is_err() {
                return placed;
            }
            continue 'packets;
        }
        match packets.advance(&mut rest) {
            Ok(false) => return Ok(()),
            Ok(true) => {
                let taken = state.take(alloc, packets.payload());
                if taken.is_err() {
                    return taken;
                }
            }
            Err(error) => return Err(state.fail(fault_from(error))),
        }
    }
}

// Takes a piece that ends within a header or a chunk of a packet that is awaited, and answers whether it did.
#[inline(always)]
fn took_within(state: &ReplyState, packets: &mut PacketReader, piece: &[u8]) -> bool
    ensures awaiting { OnTrue result (IsAwaiting state.now) }
    ensures waits { OnTrue result (ReadsOn packets.old piece.now false packets.new []) }
    ensures used { OnTrue result (packets.new ≡
        record packets.old { bytes = packets.old.bytes ++ piece.now; payload = [] }) }
    ensures kept { OnFalse result (packets.new ≡ packets.old) }
{
    if state.is_over() {
        return false;
    }
    packets.take_within(piece)
}

/// What a reader holds: what was read of the reply, and the bytes of the packet that isn't whole.
///
/// They are one field, so that a row which borrows from both can be handed out.
#[derive(Drop)]
pub struct ReaderParts {
    pub state: ReplyState,
    pub packets: PacketReader,
}

impl ReaderParts {
    // Takes each payload that the piece makes whole. A piece that ends within a packet is taken at once.
    #[inline(always)]
    fn take_packets(&mut self, alloc: Global, piece: &[u8]) -> Result<(), ReplyFault>
        requires { IsWaiting self.old.state self.old.packets }
        ensures { TakesPiece self.old.state self.old.packets piece.now result self.new.state self.new.packets }
    {
        framing_laws();
        if took_within(&self.state, &mut self.packets, piece) {
            return Ok(());
        }
        take_payloads(alloc, &mut self.state, &mut self.packets, piece)
    }
}

/// Reads a server's reply from the bytes of a connection, in whatever pieces they come.
///
/// It holds at most one packet within the limit, beside the results and the reports that it read
/// and that were not handed out. What [`ReplyReader::take_results`] and
/// [`ReplyReader::take_progress`] hand out on the way and what [`ReplyReader::finish`] gives are,
/// joined, the reply.
///
///     let mut reader = ReplyReader::new(alloc, ReplyKind::Text, capabilities, 1, limit);
///     while let Some(piece) = next_piece()? {
///         reader.feed(piece)?;
///         for result in reader.take_results() { .. }
///     }
///     let rest = reader.finish();
///
/// MySQL: Client/Server Protocol, "COM_QUERY Response", "Text Resultset", "Binary Protocol Resultset" and
/// "COM_STMT_PREPARE Response".
#[derive(Drop)]
pub struct ReplyReader {
    pub(crate) alloc: Global,
    pub(crate) parts: ReaderParts,
}

impl Model for ReplyReader {
    ghost use Rattle.mysql_replies.specs.Holding.{ReaderState};

    ghost Value = { ReaderState };

    ghost use Rattle.std.specs.Prelude.{[]};
    ghost use Rattle.mysql_wire.specs.Incoming.{codec_by};
    ghost use Rattle.mysql_replies.specs.States.{reader_state, IsReceiving};

    ghost view = { λ reader. reader_state reader.parts.state reader.parts.packets };

    ghost invariant = { λ reader. IsReceiving reader.parts.state (codec_by reader.parts.packets)
        reader.parts.packets.bytes [] };
}

impl ReplyReader {
    /// A reader of the reply to a command of this kind, of which nothing came yet.
    ///
    /// The reply's first chunk has the number `first_id`.
    ///
    /// `limit` is the most bytes of a payload: the `max_allowed_packet` of this side, at least 4.
    ///
    /// It isn't told the columns of a statement. So rows of a fetch come as `RawRows` where MySQL's
    /// optional metadata are agreed on, and else are `BadRow`: an `EventReader` reads them.
    pub fn new(
        alloc: Global,
        kind: ReplyKind,
        capabilities: CapabilityFlags,
        first_id: u8,
        limit: usize,
    ) -> ReplyReader
        ensures { result ≡ fresh_reader (context_by kind capabilities) first_id limit }
    {
        framing_laws();
        let parts = ReaderParts {
            state: ReplyState::new(alloc, kind, capabilities),
            packets: PacketReader::new(alloc, first_id, limit),
        };
        ReplyReader { alloc, parts }
    }

    /// Reads the next bytes.
    ///
    /// Answers the fault of the first payload that has no place, or of the bytes behind, as soon as
    /// no further bytes could mend it. From then on it answers that fault and changes nothing.
    /// Where memory ran out it answers `Memory` from then on, and what was read of the payloads
    /// before stays. Each of them has its place in a reply that goes on behind them.
    ///
    /// Promise: what is held decides, over all bytes to come, what was decided before over the piece
    /// and them (`HasFoundNoFault`, `RunsShort`).
    pub fn feed(&mut self, piece: &[u8]) -> Result<(), ReplyFault>
        ensures stays { IfSome (fault_of self.old.so_far) (λ fault. (result ≡ Err fault) × (self.new ≡ self.old)) }
        ensures going { OnOk result (fault_of self.new.so_far ≡ None) }
        ensures no_fault { OnOk result (HasFoundNoFault self.new) }
        ensures fault { IfErr result (λ fault. fault_of self.new.so_far ≡ Some fault) }
        ensures takes { OnOk result (TakesAll self.old (self.old.bytes ++ piece.now) self.new) }
        ensures goes_on { result ≢ Err Memory → ReaderGoesOn self.old piece.now self.new }
        ensures short { fault_of self.old.so_far ≡ None → result ≡ Err Memory →
            StandsShort self.old (self.old.bytes ++ piece.now) self.new }
    {
        framing_laws();
        match self.parts.state.fault {
            Some(fault) => return Err(fault),
            None => {}
        }
        self.parts.take_packets(self.alloc, piece)
    }

    /// Hands out the results so far. Takes no memory.
    ///
    /// They are those that stand whole. Of a result set that goes on there are its rows so far, if
    /// any, as `ReplyResult::Rows` without a terminator. Its later rows are listed anew, under the
    /// same columns. A result set that was handed out in parts is theirs joined, all but the last
    /// without a terminator. Where a fault was met, or memory ran out, all that is listed is handed
    /// out.
    ///
    /// Promise: results that stand whole are handed out, and of the result set that goes on its
    /// rows so far. Nothing else changes (`results_in`, `without_results`).
    ///
    /// MySQL: Client/Server Protocol, "COM_QUERY Response" and "Text Resultset".
    pub fn take_results(&mut self) -> Vec<ReplyResult>
        ensures taken { outcome_views result.items ≡ results_in self.old.so_far }
        ensures left { self.new ≡ record self.old { so_far = without_results self.old.so_far } }
    {
        self.parts.state.take_results(self.alloc)
    }

    /// Hands out the progress reports so far. Takes no memory.
    ///
    /// MariaDB: 'Progress report' of "ERR_Packet".
    pub fn take_progress(&mut self) -> Vec<ProgressReport<'static>>
        ensures taken { report_views result.items ≡ reports_in self.old.so_far }
        ensures left { self.new ≡ record self.old { so_far = without_reports self.old.so_far } }
    {
        self.parts.state.take_progress(self.alloc)
    }

    /// The results that stand whole and were not handed out.
    pub fn results(&self) -> &[ReplyResult]
        ensures { ListsResults self.now.so_far (outcome_views result.now) }
    {
        self.parts.state.results.as_slice()
    }

    /// The rows so far of a result set that goes on, but for those that were handed out.
    pub fn rows(&self) -> &[Row]
        ensures { ListsRows self.now.so_far (row_views result.now) }
    {
        self.parts.state.rows()
    }

    /// The progress reports that were not handed out.
    pub fn progress(&self) -> &[ProgressReport<'static>]
        ensures { report_views result.now ≡ reports_in self.now.so_far }
    {
        self.parts.state.progress.as_slice()
    }

    /// How many bytes are held of the packet that isn't whole. Takes no memory.
    ///
    /// They are those that came of it, but for the headers of its chunks, of which only one that
    /// doesn't stand whole is held. Where no fault was met they are no more than the limit and three
    /// bytes of a header.
    ///
    /// Promise: where no fault was met they are at most the limit and three (`bytes_kept`).
    ///
    /// MySQL: Client/Server Protocol, "MySQL Packets".
    pub fn kept(&self) -> usize
        ensures bytes { result ≡ bytes_kept (length self.now.bytes) }
        ensures within { fault_of self.now.so_far ≡ None → result ≤ self.now.limit + 3 }
    {
        self.parts.packets.kept()
    }

    /// What was read, where no more bytes come, but for what was handed out. Takes no memory.
    ///
    /// Promise: the answer that is decided over no more bytes (`ReaderDecides`).
    pub fn finish(self) -> Reply
        ensures { ReaderDecides self [] (answer_view result) }
    {
        self.parts.state.finish()
    }
}

/// The reply of these pieces' bytes, one after another.
///
/// It is the answer of a [`ReplyReader`] that is fed them. Where memory ran out over a piece its
/// end is `Fault(p, Memory)`, and it has the results and the reports of the first p payloads. These
/// are at least those that stand whole in the pieces before it.
///
/// `limit` is the most bytes of a payload: the `max_allowed_packet` of this side, at least 4.
///
/// Promise: of any bytes in any pieces the answer is the events of the payloads, put together
/// (`IsReplyOf`, `IsShortReplyOf`).
///
/// MySQL: Client/Server Protocol, "COM_QUERY Response", "Text Resultset", "Binary Protocol Resultset" and
/// "COM_STMT_PREPARE Response".
pub fn read_reply(
    alloc: Global,
    kind: ReplyKind,
    capabilities: CapabilityFlags,
    first_id: u8,
    limit: usize,
    pieces: &[&[u8]],
) -> Reply
    ensures { IsReplyOf (context_by kind capabilities) first_id limit
        (flat_map (λ piece. piece.now) pieces.now) (answer_view result)
        ⊎ IsShortReplyOf (context_by kind capabilities) first_id limit
        (map (λ piece. piece.now) pieces.now) (answer_view result) }
{
    let mut reader = ReplyReader::new(alloc, kind, capabilities, first_id, limit);
    // After a fault the reader takes no notice of further pieces.
    for piece in pieces {
        are_bytes(piece);
        let _answer = reader.feed(piece);
    }
    reader.finish()
}
