//! The public crate of packets: columns, rows, OK packets, errors, and the commands of prepared
//! statements.
//!
//! A user lists it, and `mysql_values`, `mysql_convert` and `mysql_wire` for what it names of them.
//!
//! | packets of | crate below |
//! |---|---|
//! | a server: columns and rows | `mysql_columns`, `mysql_rows`, `mysql_from_row` |
//! | a server: all other answers | `mysql_ok_packets`, `mysql_server_packets` |
//! | a client: one statement, or many rows | `mysql_stmt`, `mysql_bulk_builder` |
//!
//!     let column: Column = ParseBuf(payload).parse(alloc, ())?;
//!     let packet: ErrPacket = ParseBuf(payload).parse(alloc, capabilities)?;
//!     let (id, name): (u32, String) = from_row(alloc, row)?;
#![tactic(auto)]

pub use mysql_bulk_builder::{
    BulkExecuteRequestBuilderError, BulkExecuteRequestError, BulkRequests,
    ComStmtBulkExecuteHeader, ComStmtBulkExecuteRequest, ComStmtBulkExecuteRequestBuilder,
    InvalidComStmtBulkExecuteHeader, StmtBulkExecuteParamType, StmtBulkExecuteParamValue,
    StmtBulkExecuteParamValues, read_bulk_row,
};
pub use mysql_columns::{
    Catalog, Column, ColumnDefinitionCatalog, ExtendedColumn, FixedLengthFieldsLen, InvalidCatalog,
    InvalidFixedLengthFieldsLen, ListedColumn,
};
pub use mysql_field_lists::{BitmapBytes, NullBitmap, NullBits};
pub use mysql_from_row::{
    FromRow, FromRowError, FromRowRef, RowConversionError, RowExt, RowRefExt, SingleValue,
    SingleValueRef, from_cell, from_cell_ref, from_row, from_row_opt, from_row_ref,
};
pub use mysql_ok_packets::{
    CommonOkPacket, Gtids, InvalidOkPacketHeader, NetworkStreamTerminator, OkPacket, OkPacketBody,
    OkPacketDeserializer, OkPacketKind, OldEofPacket, ResultSetTerminator, Schema,
    SessionStateChange, SessionStateInfo, StateText, SystemVariable, TransactionCharacteristics,
    TransactionState, Unsupported, has_mysql_status, has_named_status, put_states,
};
pub use mysql_rows::{
    ColumnIndex, Row, RowDeserializer, RowRefusal, new_row, new_row_raw, write_binary_row,
    write_text_row,
};
pub use mysql_server_packets::err_packet::server_error_of;
pub use mysql_server_packets::{
    ErrPacket, ErrPacketHeader, InvalidErrPacketHeader, InvalidLocalInfileHeader,
    InvalidSqlStateMarker, InvalidStmtPacketStatus, LocalInfileHeader, LocalInfilePacket,
    ProgressReport, ServerError, SqlState, SqlStateMarker, StmtPacket, StmtPacketStatus, laws,
};
pub use mysql_stmt::{
    ComStmtClose, ComStmtCloseHeader, ComStmtExecuteHeader, ComStmtExecuteRequest,
    ComStmtExecuteRequestBuilder, ComStmtReset, ComStmtResetHeader, ComStmtSendLongData,
    ComStmtSendLongDataHeader, InvalidComStmtCloseHeader, InvalidComStmtExecuteHeader,
    InvalidComStmtResetHeader, InvalidComStmtSendLongDataHeader, InvalidIterationCount,
    IterationCount, StatementAlone,
};
