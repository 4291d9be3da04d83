//! What a user of `mysql_packets` can name: each item that it passes on, by each of its paths.
//! Written by `tools/faces` from the sources. A name that the crate doesn't pass on is refused here.

use mysql_packets::{
    BitmapBytes, BulkExecuteRequestBuilderError, BulkExecuteRequestError, BulkRequests, Catalog,
    Column, ColumnDefinitionCatalog, ColumnIndex, ComStmtBulkExecuteHeader,
    ComStmtBulkExecuteRequest, ComStmtBulkExecuteRequestBuilder, ComStmtClose, ComStmtCloseHeader,
    ComStmtExecuteHeader, ComStmtExecuteRequest, ComStmtExecuteRequestBuilder, ComStmtReset,
    ComStmtResetHeader, ComStmtSendLongData, ComStmtSendLongDataHeader, CommonOkPacket, ErrPacket,
    ErrPacketHeader, ExtendedColumn, FixedLengthFieldsLen, FromRow, FromRowError, FromRowRef,
    Gtids, InvalidCatalog, InvalidComStmtBulkExecuteHeader, InvalidComStmtCloseHeader,
    InvalidComStmtExecuteHeader, InvalidComStmtResetHeader, InvalidComStmtSendLongDataHeader,
    InvalidErrPacketHeader, InvalidFixedLengthFieldsLen, InvalidIterationCount,
    InvalidLocalInfileHeader, InvalidOkPacketHeader, InvalidSqlStateMarker,
    InvalidStmtPacketStatus, IterationCount, ListedColumn, LocalInfileHeader, LocalInfilePacket,
    NetworkStreamTerminator, NullBitmap, NullBits, OkPacket, OkPacketBody, OkPacketDeserializer,
    OkPacketKind, OldEofPacket, ProgressReport, ResultSetTerminator, Row, RowConversionError,
    RowDeserializer, RowExt, RowRefExt, RowRefusal, Schema, ServerError, SessionStateChange,
    SessionStateInfo, SingleValue, SingleValueRef, SqlState, SqlStateMarker, StateText,
    StatementAlone, StmtBulkExecuteParamType, StmtBulkExecuteParamValue,
    StmtBulkExecuteParamValues, StmtPacket, StmtPacketStatus, SystemVariable,
    TransactionCharacteristics, TransactionState, Unsupported, from_cell, from_cell_ref, from_row,
    from_row_opt, from_row_ref, has_mysql_status, has_named_status, new_row, new_row_raw,
    put_states, read_bulk_row, server_error_of, write_binary_row, write_text_row,
};

mod laws {
    use mysql_packets::laws::{
        errors_read_back, file_requests_read_back, reports_read_back, statements_read_back,
        states_read_back,
    };
}
