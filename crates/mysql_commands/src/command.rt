//! What a client asks for.
//!
//!     let command = Command::read(alloc, capabilities, parameters, payload)?;
//!     match &command {
//!         Command::Query { sql, .. } => log(sql.as_slice()),
//!         _ => (),
//!     }

use mysql_executions::{Attribute, BulkExecution, Execution};
use mysql_login::ComChangeUser;
use mysql_replication::{ComBinlogDump, ComBinlogDumpGtid, ComRegisterSlave, ComTableDump};
use std::borrow::CowSlice;

/// What a client asks for, as one payload says it; ids are those of prepared statements.
///
/// MySQL: Client/Server Protocol, "Command Phase"; MariaDB: Client/Server Protocol, "2 - Text
/// Protocol", "3 - Binary Protocol (Prepared Statements)".
#[derive(Debug, PartialEq, Eq, Drop)]
pub enum Command<'a> {
    /// The connection ends (COM_QUIT).
    Quit,
    /// Another schema by default (COM_INIT_DB).
    InitDb(CowSlice<'a, u8>),
    /// A query (COM_QUERY).
    Query {
        /// Its attributes, where they are in force.
        attributes: Vec<Attribute>,
        /// Its text.
        sql: CowSlice<'a, u8>,
    },
    /// The columns of a table (COM_FIELD_LIST).
    FieldList {
        /// The table's name.
        table: CowSlice<'a, u8>,
        /// A pattern of the columns' names.
        wildcard: CowSlice<'a, u8>,
    },
    /// A new schema (COM_CREATE_DB).
    CreateDb(CowSlice<'a, u8>),
    /// A schema goes (COM_DROP_DB).
    DropDb(CowSlice<'a, u8>),
    /// Logs and caches begin anew, by these flags (COM_REFRESH).
    Refresh(u8),
    /// The server ends, at this level (COM_SHUTDOWN).
    Shutdown(Option<u8>),
    /// A line of the server's numbers (COM_STATISTICS).
    Statistics,
    /// The list of connections (COM_PROCESS_INFO).
    ProcessInfo,
    /// The connection with this id ends (COM_PROCESS_KILL).
    ProcessKill(u32),
    /// The server writes what it knows of itself to its log (COM_DEBUG).
    Debug,
    /// Whether the server is there (COM_PING).
    Ping,
    /// Another user logs in, by the capabilities in force (COM_CHANGE_USER). Bytes behind its last
    /// field don't count.
    ChangeUser(ComChangeUser<'a>),
    /// The binary log, from a position of a file (COM_BINLOG_DUMP).
    BinlogDump(ComBinlogDump<'a>),
    /// The bytes of a table (COM_TABLE_DUMP).
    TableDump(ComTableDump<'a>),
    /// What a replica says of itself (COM_REGISTER_SLAVE).
    RegisterSlave(ComRegisterSlave<'a>),
    /// A statement is prepared (COM_STMT_PREPARE).
    Prepare(CowSlice<'a, u8>),
    /// A prepared statement is executed (COM_STMT_EXECUTE).
    Execute(Execution),
    /// A piece of a parameter, before the execution that takes it (COM_STMT_SEND_LONG_DATA).
    LongData {
        /// The statement's id.
        stmt_id: u32,
        /// The parameter's place, counted from 0.
        place: u16,
        /// The piece.
        bytes: CowSlice<'a, u8>,
    },
    /// A statement goes (COM_STMT_CLOSE).
    Close(u32),
    /// A statement's long data and cursor go (COM_STMT_RESET).
    ResetStatement(u32),
    /// Several statements in one query, on or off (COM_SET_OPTION).
    SetOption(u16),
    /// Rows of an open cursor (COM_STMT_FETCH).
    Fetch {
        /// The statement's id.
        stmt_id: u32,
        /// How many rows.
        rows: u32,
    },
    /// The binary log without the transactions that are known (COM_BINLOG_DUMP_GTID).
    BinlogDumpGtid(ComBinlogDumpGtid<'a>),
    /// The session begins anew (COM_RESET_CONNECTION).
    ResetConnection,
    /// A copy of the server's data, by these arguments (COM_CLONE).
    Clone(CowSlice<'a, u8>),
    /// A prepared statement is executed with many rows (MariaDB's COM_STMT_BULK_EXECUTE).
    BulkExecute(BulkExecution),
    /// A payload that is laid out as none of these, as it stands: its first byte is its number.
    Other(CowSlice<'a, u8>),
}
