//! What a user of `mysql_buf` can name: each item that it passes on, by each of its paths.
//! Written by `tools/faces` from the sources. A name that the crate doesn't pass on is refused here.

use mysql_buf::{
    BufMutExt, ParseBuf, ReadMysqlExt, WriteMysqlExt, front_of, lenenc_int_len, lenenc_str_len,
    read_varlen_uint, varlen_uint_size, write_varlen_uint,
};

mod constants {
    use mysql_buf::constants::{
        BinlogDumpFlags, Capabilities, CapabilityFlags, ColumnFlags, ColumnType, Command,
        CursorType, DEFAULT_MAX_ALLOWED_PACKET, Flags, GeometryType, ItemResult, MAX_PAYLOAD_LEN,
        MariadbBulkIndicator, MariadbCapabilities, MariadbStatusFlags, SessionStateType,
        StatusFlags, StmtBulkExecuteFlags, StmtExecuteParamFlags, StmtExecuteParamsFlags,
        UTF8_GENERAL_CI, UTF8MB4_GENERAL_CI, UnknownBinlogDumpFlags, UnknownCapabilityFlags,
        UnknownColumnFlags, UnknownColumnType, UnknownCommand, UnknownCursorType,
        UnknownGeometryType, UnknownItemResultType, UnknownMariadbBulkIndicator,
        UnknownMariadbCapabilities, UnknownSessionStateType, UnknownStatusFlags,
        UnknownStmtBulkExecuteFlags, UnknownStmtExecuteParamFlags, UnknownStmtExecuteParamsFlags,
    };
}

mod laws {
    use mysql_buf::laws::{
        are_bytes, lenenc_reads_back, numbers_read_back, shortest_spellings,
        signed_numbers_read_back, texts_read_back, varlen_reads_back,
    };
}
