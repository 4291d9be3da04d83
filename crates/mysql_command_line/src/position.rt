//! Where a transcript is between two bytes.
//!
//! A transcript is a list of records, in the order in which bytes came. A record is the letter of a
//! side, `c` or `s`, a length in 4 bytes, the lowest first, and the bytes.

ghost use Rattle.std.specs.Prelude.{◌<◌};

use mysql_connection_rules::Side;

/// How many bytes are before a record's bytes: the letter of its side, and its length.
const HEADER_LEN: usize = 5;

/// A record of which bytes are still to come.
#[derive(Clone, Copy, Debug, PartialEq, Eq)]
pub(crate) struct Record {
    /// Whose bytes they are.
    pub(crate) side: Side,
    /// How many are still to come.
    pub(crate) left: u32,
    ghost is_unfinished: { 0 < left },
}

/// What a transcript has come to between two bytes of it.
#[derive(Clone, Copy, Debug, PartialEq, Eq)]
pub(crate) enum Position {
    /// So many bytes of a record's header came, which begins with them.
    Header([u8; HEADER_LEN], usize),
    /// Bytes of a record are still to come.
    Record(Record),
}

/// A record has neither the client's letter nor the server's.
#[derive(Clone, Copy, Debug, PartialEq, Eq)]
pub(crate) struct BadTranscript;

/// The side that a letter names.
fn side_of(letter: u8) -> Result<Side, BadTranscript> {
    match letter {
        b'c' => Ok(Side::Client),
        b's' => Ok(Side::Server),
        _ => Err(BadTranscript),
    }
}

impl Position {
    /// Before a record.
    pub(crate) fn before_record() -> Position {
        Position::Header([0; HEADER_LEN], 0)
    }

    /// Where so many bytes of a record are still to come. Where none are, the next record is due.
    pub(crate) fn in_record(side: Side, left: u32) -> Position {
        if left == 0 {
            return Position::before_record();
        }
        Position::Record(Record { side, left })
    }

    /// Behind one more byte of a header of which so many came.
    ///
    /// # Errors
    /// - `BadTranscript`: its first byte is no side's letter.
    pub(crate) fn after_header_byte(
        header: [u8; HEADER_LEN],
        count: usize,
        byte: u8,
    ) -> Result<Position, BadTranscript> {
        let mut header = header;
        let Some(place) = header.get_mut(count) else {
            return Err(BadTranscript);
        };
        *place = byte;
        let [letter, a, b, c, d] = header;
        let side = side_of(letter)?;
        if count < HEADER_LEN - 1 {
            return Ok(Position::Header(header, count + 1));
        }
        Ok(Position::in_record(side, u32::from_le_bytes([a, b, c, d])))
    }

    /// Whether the transcript may end here: no record is cut off.
    pub(crate) fn is_between_records(self) -> bool {
        matches!(self, Position::Header(_, 0))
    }
}
