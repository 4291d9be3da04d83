//! Why a reply is not written.

ghost use Rattle.std.specs.Prelude.{◌≡◌};
ghost use Rattle.mysql_reply_writer.specs.declared.refusal.ReplyRefusal.TheVariants as refusal;

use std::alloc::{AllocError, AllocFailed};
use thiserror::Error;

/// Why a reply is not written.
///
/// Results, rows, places and payloads are counted from 0; payloads with the progress reports.
///
/// MySQL: Client/Server Protocol, "COM_QUERY Response" and "COM_STMT_PREPARE Response".
#[derive(Clone, Copy, Debug, PartialEq, Eq, Error)]
pub enum ReplyRefusal {
    /// A reply has at least one result.
    #[error("the reply has no result")]
    NoResults,
    /// The result, or a progress report in its place, comes behind the last one of a reply.
    ///
    /// The last one is an error, the request of a file, a prepared statement or what was written as
    /// the last.
    #[error("result {0}: the result before it ends the reply")]
    AfterEnd(usize),
    /// The rows of this result go on: they have no terminator, and no error follows them.
    #[error("result {0}: its rows are not ended")]
    NotEnded(usize),
    /// Rows, or their end, where no columns began them.
    #[error("result {0}: its columns are not written")]
    NotBegun(usize),
    /// The command has no such result.
    ///
    /// A prepared statement answers a prepare and nothing else; an OK packet, rows and the request
    /// of a file answer a query or an execution. Rows as they came, columns of a table and lines are
    /// read alone.
    #[error("result {0}: its command has no such result")]
    WrongKind(usize),
    /// Rows have at least one column.
    #[error("result {0}: it has no column")]
    NoColumns(usize),
    /// Rows have at most 65535 columns, a prepared statement as many parameters and as many columns.
    #[error("result {0}: it has more than 65535 columns")]
    TooManyColumns(usize),
    /// A bit of the status has no name at MySQL or MariaDB, and can't be read: bit 2 is one.
    #[error("result {0}: a bit of its status has no name")]
    Status(usize),
    /// An error of the code 65535 is read as a progress report, where these were agreed on.
    #[error("result {0}: an error of the code 65535 is read as a progress report")]
    ReadsAsReport(usize),
    /// A row has other cells than one for each column.
    #[error("result {result}, row {row}: it has not one cell for each column")]
    CellCount {
        result: usize,
        row: usize,
    },
    /// The cell has no form in its row.
    ///
    /// Its value was taken, or a binary row has none for it under its column.
    #[error("result {result}, row {row}: the cell at {place} can't be written")]
    NoForm {
        result: usize,
        row: usize,
        place: usize,
    },
    /// The payload of this number exceeds the limit.
    ///
    /// The OK packet that ends rows has less than 16777215 bytes. No payload has the number 2^64 - 1.
    #[error("payload {0}: it is larger than max_allowed_packet")]
    PacketTooLarge(u64),
    /// Memory ran out.
    #[error("out of memory")]
    Memory,
}

impl From<AllocError> for ReplyRefusal {
    ghost from_gives = { λ _ e. e ≡ refusal.Memory };

    fn from(_e: AllocError) -> ReplyRefusal {
        ReplyRefusal::Memory
    }
}

impl<T: Drop> From<AllocFailed<T>> for ReplyRefusal {
    ghost from_gives = { λ _ e. e ≡ refusal.Memory };

    fn from(_e: AllocFailed<T>) -> ReplyRefusal {
        ReplyRefusal::Memory
    }
}
