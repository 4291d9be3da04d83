//! What C gives to a writer of a reply.

use mysql_ok_packets::OkPacket;
use mysql_rows::Row;
use mysql_server_packets::{ServerError, StmtPacket};

/// What is to be written next.
#[derive(Drop)]
pub(crate) enum Given<'a> {
    /// An OK packet, and whether another result follows.
    Ok(OkPacket<'a>, bool),
    /// An error.
    Error(ServerError<'a>),
    /// The columns that were given, which begin rows.
    Columns,
    /// A row.
    Row(Row),
    /// What ends rows, and whether another result follows.
    End(OkPacket<'a>, bool),
    /// A statement; so many of the columns that were given are its parameters.
    Prepared(StmtPacket, usize),
}
