//! Rows of a reply that are borrowed as they come.

ghost use Rattle.std.specs.Prelude.{◌≡◌, ◌++◌, ◌<◌, [], Err, IfErr, IfOk, MatchOption, None, Ok, OnOk, Some, length};
ghost use Rattle.std.specs.Borrow.{sem};
ghost use Rattle.std.specs.Io.BufRead.{Rests};
ghost use Rattle.mysql_row_refs.specs.RowRefs.{row_ref_view};
ghost use Rattle.mysql_rows.specs.Rows.{Row};
ghost use Rattle.mysql_wire.specs.Incoming.{codec_by};
ghost use Rattle.mysql_replies.specs.Holding.{ReaderGoesOn, StandsShort};
ghost use Rattle.mysql_replies.specs.Borrowing.{BorrowsNext, rows_listed};
ghost use Rattle.mysql_reply_events.specs.Standing.{RowAt};
ghost use Rattle.mysql_replies.specs.RowSteps.{ReadsToRow, payload_at};
ghost use Rattle.mysql_replies.specs.Pieces.{IsWaiting};
ghost use Rattle.mysql_replies.specs.States.{IsPaused, IsReading, OnMemory, UnlessMemory, reader_state, reply_so_far};

use crate::fault::ReplyFault;
use crate::framing::framing_laws;
use crate::reader::{ReaderParts, ReplyReader, fault_from};
use mysql_buf::laws::are_bytes;
use mysql_row_refs::RowRef;
use std::alloc::Global;

/// Where a payload lies that stands whole.
#[derive(Clone, Copy)]
pub enum Place<'p> {
    InPiece(&'p [u8]),
    InBuffer,
}

impl ReaderParts {
    // Takes each payload up to the next row, and answers where that row's payload lies.
    fn take_to_row<'p>(
        &mut self,
        alloc: Global,
        rest: &mut &'p [u8],
    ) -> Result<Option<Place<'p>>, ReplyFault>
        requires { IsWaiting self.old.state self.old.packets }
        ensures reading { IsReading self.new.state }
        ensures paused { OnOk result ((self.new.state.fault ≡ None) ×
            IsPaused self.new.state (codec_by self.new.packets) self.new.packets.bytes []) }
        ensures fault { IfErr result (λ fault. self.new.state.fault ≡ Some fault) }
        ensures keeps_none { rows_listed (reply_so_far self.new.state) ≡ rows_listed (reply_so_far self.old.state) }
        ensures found { IfOk result (λ found. ReadsToRow (reader_state self.old.state self.old.packets) rest.old.now
            found self.new.state self.new.packets rest.new.now) }
        ensures uses { IfOk result (λ found. MatchOption found (rest.new.now ≡ [])
            (λ _. length rest.new.now < length rest.old.now)) }
        ensures goes_on { IfErr result (λ fault. UnlessMemory {X = Unit {0}} (Err fault)
            (ReaderGoesOn (reader_state self.old.state self.old.packets) rest.old.now
            (reader_state self.new.state self.new.packets))) }
        ensures short { IfErr result (λ fault. OnMemory {X = Unit {0}} (Err fault)
            (StandsShort (reader_state self.old.state self.old.packets)
            ((reader_state self.old.state self.old.packets).bytes ++ rest.old.now)
            (reader_state self.new.state self.new.packets))) }
    {
        framing_laws();
        are_bytes(*rest);
        'packets: loop {
            if self.state.is_over() {
                if rest.is_empty() {
                    return Ok(None);
                }
                return Err(self.state.fail(ReplyFault::AfterEnd));
            }
            if let Some(payload) = self.packets.read_in_place(rest) {
                match self.state.borrow(alloc, payload) {
                    Ok(true) => return Ok(Some(Place::InPiece(payload))),
                    Ok(false) => continue 'packets,
                    Err(fault) => return Err(fault),
                }
            }
            match self.packets.advance(rest) {
                Ok(false) => return Ok(None),
                Ok(true) => match self.state.borrow(alloc, self.packets.payload()) {
                    Ok(true) => return Ok(Some(Place::InBuffer)),
                    Ok(false) => {}
                    Err(fault) => return Err(fault),
                },
                Err(error) => return Err(self.state.fail(fault_from(error))),
            }
        }
    }

    // The row that was read last, which borrows the payload at this place.
    #[inline(always)]
    fn row_ref<'r, 'p: 'r>(&'r self, place: Place<'p>) -> RowRef<'r, 'r>
        requires { (row : Row) × RowAt self.now.state.events.rows (payload_at place self.now.packets) row }
        ensures { RowAt self.now.state.events.rows (payload_at place.entry self.now.packets)
            (row_ref_view result) }
    {
        let payload = match place {
            Place::InPiece(payload) => payload,
            Place::InBuffer => self.packets.payload(),
        };
        self.state.events.row_ref(payload)
    }
}

impl ReplyReader {
    ghost use Rattle.mysql_replies.specs.contracts.reader.ReplyReader.{the_row};

    /// Reads on to the end of the next row of a result set, and gives it where it lies.
    ///
    /// Its cells are read there, and nothing of it is kept. The bytes that were used are taken from
    /// the front of `rest`. Where the piece has no further row the answer is `None`, and all of it
    /// was read, as [`ReplyReader::feed`] reads it. All that isn't a row is listed as ever, and
    /// [`ReplyReader::take_results`] hands it out. Of a result set whose rows were borrowed that is
    /// the packet that ended it, and its rows that [`ReplyReader::feed`] kept.
    ///
    ///     let mut rest = piece;
    ///     while let Some(row) = reader.next_row(&mut rest)? {
    ///         let id: Option<Result<u64, _>> = row.get_opt(0);
    ///     }
    ///
    /// Memory is asked for at the first row of a result set, and for a packet that is cut by the
    /// pieces. So it is for what isn't a row.
    ///
    /// Promise: the row is the one that `feed` of the used bytes would list; none is kept, and none
    /// is passed over (`BorrowsNext`).
    ///
    /// # Errors
    /// - Those of [`ReplyReader::feed`], where they are met before a row. The piece is as it was; from
    ///   then on each call answers that error, and nothing changes.
    ///
    /// MySQL: Client/Server Protocol, "Text Resultset Row" and "Binary Protocol Resultset Row"; C
    /// API, "mysql_use_result()".
    pub fn next_row<'r, 'p: 'r>(
        &'r mut self,
        rest: &mut &'p [u8],
    ) -> Result<Option<RowRef<'r, 'r>>, ReplyFault>
        ensures* after { sem 𝓛 (Rests the_row self.entry
            (λ after. BorrowsNext self.old rest.old.now result after rest.new.now)) }
        ensures uses { IfOk result (λ found. MatchOption found (rest.new.now ≡ [])
            (λ _. length rest.new.now < length rest.old.now)) }
    {
        framing_laws();
        match self.parts.state.fault {
            Some(fault) => return Err(fault),
            None => {}
        }
        let mut left = *rest;
        match self.parts.take_to_row(self.alloc, &mut left) {
            Ok(Some(place)) => {
                *rest = left;
                Ok(Some(self.parts.row_ref(place)))
            }
            Ok(None) => {
                *rest = left;
                Ok(None)
            }
            Err(fault) => Err(fault),
        }
    }
}
