//! What one payload of a reply says.

use mysql_columns::{ExtendedColumn, ListedColumn};
use mysql_ok_packets::OkPacket;
use mysql_rows::Row;
use mysql_server_packets::{LocalInfilePacket, ProgressReport, ServerError, StmtPacket};

/// What one payload of a reply says.
///
/// MySQL: Client/Server Protocol, "COM_QUERY Response", "COM_STMT_PREPARE Response", "COM_FIELD_LIST
/// Response" and "COM_STATISTICS"; MariaDB: 'Progress report' of "ERR_Packet".
#[derive(Drop)]
pub enum ReplyEvent {
    /// An OK packet, which is a result.
    Ok(OkPacket<'static>),
    /// An error, which ends the reply.
    Error(ServerError<'static>),
    /// How far the command has come.
    Progress(ProgressReport<'static>),
    /// A result set of so many columns, 1 to 65535, and whether they follow.
    ///
    /// They do where neither MySQL's optional nor MariaDB's cached metadata is agreed on.
    ColumnCount {
        count: u16,
        columns_follow: bool,
    },
    /// A column of a result set, or a parameter or a column of a prepared statement. It has
    /// MariaDB's extended metadata where they are agreed on.
    Column(ExtendedColumn),
    /// A column of a table, and its default value, where it has one.
    Field(ListedColumn),
    /// The EOF packet behind columns.
    ColumnsEnd(OkPacket<'static>),
    /// A row.
    Row(Row),
    /// A row whose columns aren't known, as it came: its cells are there, their types aren't.
    RawRow(Vec<u8>),
    /// What ends rows, or columns of a table; or an EOF packet in an OK packet's place.
    RowsEnd(OkPacket<'static>),
    /// A request for a file of the client: its bytes are due, and then the reply goes on.
    FileRequest(LocalInfilePacket<'static>),
    /// A prepared statement, and whether its parameters and columns follow.
    ///
    /// They do where MySQL's optional metadata isn't agreed on.
    Prepared {
        statement: StmtPacket,
        columns_follow: bool,
    },
    /// A text, or the first payload of what goes on in a form of its own.
    Line(Vec<u8>),
}
