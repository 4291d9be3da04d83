//! The results of a reply.
//!
//! [`Reply`] is what `read_reply` and `ReplyReader::finish` give: the results in their order, the
//! progress reports, and how the reply ends.
//!
//!     for result in reply.results {
//!         match result {
//!             ReplyResult::Rows { columns, rows, .. } => { .. }
//!             ReplyResult::Error(error) => { .. }
//!             _ => {}
//!         }
//!     }

use crate::fault::ReplyFault;
use mysql_columns::{Column, ListedColumn};
use mysql_ok_packets::OkPacket;
use mysql_rows::Row;
use mysql_server_packets::{LocalInfilePacket, ProgressReport, ServerError, StmtPacket};
use std::fmt;
use std::rc::RcSlice;

/// A result of a reply.
///
/// MySQL: Client/Server Protocol, "COM_QUERY Response", "Text Resultset" and "COM_STMT_PREPARE Response".
#[derive(Debug, Drop)]
pub enum ReplyResult {
    /// A command that gives no rows was done.
    Ok(OkPacket<'static>),
    /// Rows under their columns, which they share, and the packet that ended them.
    ///
    /// Without it they ended by an error, which is the next result, or haven't ended. Those that
    /// were handed out before their end go on in the next result. Where a cursor was opened there
    /// are no rows, and the packet is the one that says so.
    Rows {
        columns: RcSlice<Column>,
        rows: Vec<Row>,
        terminator: Option<OkPacket<'static>>,
    },
    /// A statement was prepared.
    Prepared {
        stmt: StmtPacket,
        params: Vec<Column>,
        columns: Vec<Column>,
    },
    /// The command failed, or its rows ended by an error.
    Error(ServerError<'static>),
    /// The server asks for a file of the client.
    File(LocalInfilePacket<'static>),
    /// Rows as they came, and the packet that ended them.
    ///
    /// Their columns aren't known: they were left out, as MySQL's optional metadata allows. Or the
    /// rows are those of a fetch. Without the packet they ended as `Rows` may.
    RawRows {
        rows: Vec<Vec<u8>>,
        terminator: Option<OkPacket<'static>>,
    },
    /// Columns of a table with their default values, and the packet that ended them.
    Fields {
        fields: Vec<ListedColumn>,
        terminator: Option<OkPacket<'static>>,
    },
    /// A text, or the first payload of what goes on in a form of its own.
    Line(Vec<u8>),
}

/// How a reply ends.
#[derive(Clone, Copy, Debug, PartialEq, Eq)]
pub enum ReplyEnd {
    /// The last result is whole, and nothing follows it.
    Whole,
    /// The bytes end before the last result does.
    Unfinished,
    /// The payload of this number, counted from 0 and with the progress reports, is at fault.
    Fault(u64, ReplyFault),
}

impl fmt::Display for ReplyEnd {
    fn fmt<W: fmt::Write>(&self, f: &mut fmt::Formatter<W>) -> fmt::Result {
        match self {
            ReplyEnd::Whole => f.write_str("whole"),
            ReplyEnd::Unfinished => f.write_str("the reply is not whole"),
            ReplyEnd::Fault(payload, fault) => write!(f, "payload {payload}: {fault}"),
        }
    }
}

/// What was read of a reply.
#[derive(Debug, Drop)]
pub struct Reply {
    /// The results, in order. Rows are listed once their columns are whole.
    pub results: Vec<ReplyResult>,
    /// The progress reports, in order.
    pub progress: Vec<ProgressReport<'static>>,
    /// How the reply ends.
    pub end: ReplyEnd,
}
