//! What came of a result that isn't whole.

use crate::open_rows::OpenRows;
use crate::results::ReplyResult;
use mysql_columns::{Column, ListedColumn};
use mysql_server_packets::StmtPacket;

/// What came of a result that isn't whole.
#[derive(Drop)]
pub enum Part {
    Nothing,
    /// A result set whose rows aren't due yet; whether they are read by columns that are known.
    Set {
        known: bool,
    },
    /// Rows under their columns.
    Rows(OpenRows),
    /// Rows whose columns aren't known, as they came.
    RawRows(Vec<Vec<u8>>),
    /// A statement: its parameters so far, and its columns.
    Statement {
        stmt: StmtPacket,
        params: Vec<Column>,
        columns: Vec<Column>,
    },
    /// Columns of a table.
    Fields(Vec<ListedColumn>),
}

/// Results that a payload made whole.
#[derive(Drop)]
pub enum Listed {
    None,
    One(ReplyResult),
    Two(ReplyResult, ReplyResult),
}

/// What an event led to.
#[derive(Drop)]
pub enum Stepped {
    /// These results are whole, and that is there of one more.
    Moved(Listed, Part),
    /// Memory ran out; that is still there.
    Failed(Part),
}
