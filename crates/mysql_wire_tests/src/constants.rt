//! Values by their numbers, and sets of flags by their bits.

use crate::support::Asserting;
use bitflags::Flags;
use mysql_const::{
    BinlogDumpFlags, CapabilityFlags, ColumnFlags, ColumnType, Command, CursorType, GeometryType,
    ItemResult, MariadbBulkIndicator, MariadbCapabilities, SessionStateType, StatusFlags,
    StmtBulkExecuteFlags, StmtExecuteParamFlags, StmtExecuteParamsFlags, UnknownColumnType,
    UnknownCommand, UnknownCursorType, UnknownGeometryType, UnknownItemResultType,
    UnknownMariadbBulkIndicator, UnknownSessionStateType, UnknownStatusFlags,
    UnknownStmtBulkExecuteFlags,
};
use std::test::*;
use tests_support::{Assert, once_more};

// MySQL: Client/Server Protocol, "Command Phase" (enum_server_command); MariaDB: "COM_STMT_BULK_EXECUTE".
const COMMANDS: [(Command, u8); 34] = [
    (Command::COM_SLEEP, 0),
    (Command::COM_QUIT, 1),
    (Command::COM_INIT_DB, 2),
    (Command::COM_QUERY, 3),
    (Command::COM_FIELD_LIST, 4),
    (Command::COM_CREATE_DB, 5),
    (Command::COM_DROP_DB, 6),
    (Command::COM_REFRESH, 7),
    (Command::COM_DEPRECATED_1, 8),
    (Command::COM_STATISTICS, 9),
    (Command::COM_PROCESS_INFO, 10),
    (Command::COM_CONNECT, 11),
    (Command::COM_PROCESS_KILL, 12),
    (Command::COM_DEBUG, 13),
    (Command::COM_PING, 14),
    (Command::COM_TIME, 15),
    (Command::COM_DELAYED_INSERT, 16),
    (Command::COM_CHANGE_USER, 17),
    (Command::COM_BINLOG_DUMP, 18),
    (Command::COM_TABLE_DUMP, 19),
    (Command::COM_CONNECT_OUT, 20),
    (Command::COM_REGISTER_SLAVE, 21),
    (Command::COM_STMT_PREPARE, 22),
    (Command::COM_STMT_EXECUTE, 23),
    (Command::COM_STMT_SEND_LONG_DATA, 24),
    (Command::COM_STMT_CLOSE, 25),
    (Command::COM_STMT_RESET, 26),
    (Command::COM_SET_OPTION, 27),
    (Command::COM_STMT_FETCH, 28),
    (Command::COM_DAEMON, 29),
    (Command::COM_BINLOG_DUMP_GTID, 30),
    (Command::COM_RESET_CONNECTION, 31),
    (Command::COM_END, 32),
    (Command::COM_STMT_BULK_EXECUTE, 0xfa),
];

// MySQL: Client/Server Protocol, "Column Definition" (enum_field_types).
const COLUMN_TYPES: [(ColumnType, u8); 34] = [
    (ColumnType::MYSQL_TYPE_DECIMAL, 0),
    (ColumnType::MYSQL_TYPE_TINY, 1),
    (ColumnType::MYSQL_TYPE_SHORT, 2),
    (ColumnType::MYSQL_TYPE_LONG, 3),
    (ColumnType::MYSQL_TYPE_FLOAT, 4),
    (ColumnType::MYSQL_TYPE_DOUBLE, 5),
    (ColumnType::MYSQL_TYPE_NULL, 6),
    (ColumnType::MYSQL_TYPE_TIMESTAMP, 7),
    (ColumnType::MYSQL_TYPE_LONGLONG, 8),
    (ColumnType::MYSQL_TYPE_INT24, 9),
    (ColumnType::MYSQL_TYPE_DATE, 10),
    (ColumnType::MYSQL_TYPE_TIME, 11),
    (ColumnType::MYSQL_TYPE_DATETIME, 12),
    (ColumnType::MYSQL_TYPE_YEAR, 13),
    (ColumnType::MYSQL_TYPE_NEWDATE, 14),
    (ColumnType::MYSQL_TYPE_VARCHAR, 15),
    (ColumnType::MYSQL_TYPE_BIT, 16),
    (ColumnType::MYSQL_TYPE_TIMESTAMP2, 17),
    (ColumnType::MYSQL_TYPE_DATETIME2, 18),
    (ColumnType::MYSQL_TYPE_TIME2, 19),
    (ColumnType::MYSQL_TYPE_TYPED_ARRAY, 20),
    (ColumnType::MYSQL_TYPE_VECTOR, 242),
    (ColumnType::MYSQL_TYPE_UNKNOWN, 243),
    (ColumnType::MYSQL_TYPE_JSON, 245),
    (ColumnType::MYSQL_TYPE_NEWDECIMAL, 246),
    (ColumnType::MYSQL_TYPE_ENUM, 247),
    (ColumnType::MYSQL_TYPE_SET, 248),
    (ColumnType::MYSQL_TYPE_TINY_BLOB, 249),
    (ColumnType::MYSQL_TYPE_MEDIUM_BLOB, 250),
    (ColumnType::MYSQL_TYPE_LONG_BLOB, 251),
    (ColumnType::MYSQL_TYPE_BLOB, 252),
    (ColumnType::MYSQL_TYPE_VAR_STRING, 253),
    (ColumnType::MYSQL_TYPE_STRING, 254),
    (ColumnType::MYSQL_TYPE_GEOMETRY, 255),
];

// The kinds of geometry, as MySQL numbers them.
const GEOMETRY_TYPES: [(GeometryType, u8); 8] = [
    (GeometryType::GEOM_GEOMETRY, 0),
    (GeometryType::GEOM_POINT, 1),
    (GeometryType::GEOM_LINESTRING, 2),
    (GeometryType::GEOM_POLYGON, 3),
    (GeometryType::GEOM_MULTIPOINT, 4),
    (GeometryType::GEOM_MULTILINESTRING, 5),
    (GeometryType::GEOM_MULTIPOLYGON, 6),
    (GeometryType::GEOM_GEOMETRYCOLLECTION, 7),
];

// MySQL: Client/Server Protocol, "OK_Packet" (enum_session_state_type).
const SESSION_STATE_TYPES: [(SessionStateType, u8); 6] = [
    (SessionStateType::SESSION_TRACK_SYSTEM_VARIABLES, 0),
    (SessionStateType::SESSION_TRACK_SCHEMA, 1),
    (SessionStateType::SESSION_TRACK_STATE_CHANGE, 2),
    (SessionStateType::SESSION_TRACK_GTIDS, 3),
    (
        SessionStateType::SESSION_TRACK_TRANSACTION_CHARACTERISTICS,
        4,
    ),
    (SessionStateType::SESSION_TRACK_TRANSACTION_STATE, 5),
];

// MariaDB: Client/Server Protocol, "COM_STMT_BULK_EXECUTE".
const BULK_INDICATORS: [(MariadbBulkIndicator, u8); 4] = [
    (MariadbBulkIndicator::BULK_INDICATOR_NONE, 0),
    (MariadbBulkIndicator::BULK_INDICATOR_NULL, 1),
    (MariadbBulkIndicator::BULK_INDICATOR_DEFAULT, 2),
    (MariadbBulkIndicator::BULK_INDICATOR_IGNORE, 3),
];

// MySQL's kinds of results of an item (Item_result).
const ITEM_RESULTS: [(ItemResult, i8); 6] = [
    (ItemResult::INVALID_RESULT, -1),
    (ItemResult::STRING_RESULT, 0),
    (ItemResult::REAL_RESULT, 1),
    (ItemResult::INT_RESULT, 2),
    (ItemResult::ROW_RESULT, 3),
    (ItemResult::DECIMAL_RESULT, 4),
];

// MySQL: Client/Server Protocol, "Status Flags".
const STATUS: [(StatusFlags, u16); 14] = [
    (StatusFlags::SERVER_STATUS_IN_TRANS, 1),
    (StatusFlags::SERVER_STATUS_AUTOCOMMIT, 2),
    (StatusFlags::SERVER_MORE_RESULTS_EXISTS, 8),
    (StatusFlags::SERVER_STATUS_NO_GOOD_INDEX_USED, 0x10),
    (StatusFlags::SERVER_STATUS_NO_INDEX_USED, 0x20),
    (StatusFlags::SERVER_STATUS_CURSOR_EXISTS, 0x40),
    (StatusFlags::SERVER_STATUS_LAST_ROW_SENT, 0x80),
    (StatusFlags::SERVER_STATUS_DB_DROPPED, 0x100),
    (StatusFlags::SERVER_STATUS_NO_BACKSLASH_ESCAPES, 0x200),
    (StatusFlags::SERVER_STATUS_METADATA_CHANGED, 0x400),
    (StatusFlags::SERVER_QUERY_WAS_SLOW, 0x800),
    (StatusFlags::SERVER_PS_OUT_PARAMS, 0x1000),
    (StatusFlags::SERVER_STATUS_IN_TRANS_READONLY, 0x2000),
    (StatusFlags::SERVER_SESSION_STATE_CHANGED, 0x4000),
];

// MySQL: Client/Server Protocol, "Capabilities Flags".
const CAPABILITIES: [(CapabilityFlags, u32); 32] = [
    (CapabilityFlags::CLIENT_LONG_PASSWORD, 1 << 0),
    (CapabilityFlags::CLIENT_FOUND_ROWS, 1 << 1),
    (CapabilityFlags::CLIENT_LONG_FLAG, 1 << 2),
    (CapabilityFlags::CLIENT_CONNECT_WITH_DB, 1 << 3),
    (CapabilityFlags::CLIENT_NO_SCHEMA, 1 << 4),
    (CapabilityFlags::CLIENT_COMPRESS, 1 << 5),
    (CapabilityFlags::CLIENT_ODBC, 1 << 6),
    (CapabilityFlags::CLIENT_LOCAL_FILES, 1 << 7),
    (CapabilityFlags::CLIENT_IGNORE_SPACE, 1 << 8),
    (CapabilityFlags::CLIENT_PROTOCOL_41, 1 << 9),
    (CapabilityFlags::CLIENT_INTERACTIVE, 1 << 10),
    (CapabilityFlags::CLIENT_SSL, 1 << 11),
    (CapabilityFlags::CLIENT_IGNORE_SIGPIPE, 1 << 12),
    (CapabilityFlags::CLIENT_TRANSACTIONS, 1 << 13),
    (CapabilityFlags::CLIENT_RESERVED, 1 << 14),
    (CapabilityFlags::CLIENT_SECURE_CONNECTION, 1 << 15),
    (CapabilityFlags::CLIENT_MULTI_STATEMENTS, 1 << 16),
    (CapabilityFlags::CLIENT_MULTI_RESULTS, 1 << 17),
    (CapabilityFlags::CLIENT_PS_MULTI_RESULTS, 1 << 18),
    (CapabilityFlags::CLIENT_PLUGIN_AUTH, 1 << 19),
    (CapabilityFlags::CLIENT_CONNECT_ATTRS, 1 << 20),
    (
        CapabilityFlags::CLIENT_PLUGIN_AUTH_LENENC_CLIENT_DATA,
        1 << 21,
    ),
    (
        CapabilityFlags::CLIENT_CAN_HANDLE_EXPIRED_PASSWORDS,
        1 << 22,
    ),
    (CapabilityFlags::CLIENT_SESSION_TRACK, 1 << 23),
    (CapabilityFlags::CLIENT_DEPRECATE_EOF, 1 << 24),
    (CapabilityFlags::CLIENT_OPTIONAL_RESULTSET_METADATA, 1 << 25),
    (CapabilityFlags::CLIENT_ZSTD_COMPRESSION_ALGORITHM, 1 << 26),
    (CapabilityFlags::CLIENT_QUERY_ATTRIBUTES, 1 << 27),
    (CapabilityFlags::MULTI_FACTOR_AUTHENTICATION, 1 << 28),
    (CapabilityFlags::CLIENT_PROGRESS_OBSOLETE, 1 << 29),
    (CapabilityFlags::CLIENT_SSL_VERIFY_SERVER_CERT, 1 << 30),
    (CapabilityFlags::CLIENT_REMEMBER_OPTIONS, 1 << 31),
];

// MariaDB: Client/Server Protocol, "Capabilities".
const MARIADB_CAPABILITIES: [(MariadbCapabilities, u32); 6] = [
    (MariadbCapabilities::MARIADB_CLIENT_PROGRESS, 1),
    (MariadbCapabilities::MARIADB_CLIENT_COM_MULTI, 2),
    (MariadbCapabilities::MARIADB_CLIENT_STMT_BULK_OPERATIONS, 4),
    (MariadbCapabilities::MARIADB_CLIENT_EXTENDED_METADATA, 8),
    (MariadbCapabilities::MARIADB_CLIENT_CACHE_METADATA, 0x10),
    (MariadbCapabilities::MARIADB_CLIENT_BULK_UNIT_RESULTS, 0x20),
];

// MySQL: Client/Server Protocol, "Column Definition Flags".
const COLUMN: [(ColumnFlags, u16); 16] = [
    (ColumnFlags::NOT_NULL_FLAG, 1 << 0),
    (ColumnFlags::PRI_KEY_FLAG, 1 << 1),
    (ColumnFlags::UNIQUE_KEY_FLAG, 1 << 2),
    (ColumnFlags::MULTIPLE_KEY_FLAG, 1 << 3),
    (ColumnFlags::BLOB_FLAG, 1 << 4),
    (ColumnFlags::UNSIGNED_FLAG, 1 << 5),
    (ColumnFlags::ZEROFILL_FLAG, 1 << 6),
    (ColumnFlags::BINARY_FLAG, 1 << 7),
    (ColumnFlags::ENUM_FLAG, 1 << 8),
    (ColumnFlags::AUTO_INCREMENT_FLAG, 1 << 9),
    (ColumnFlags::TIMESTAMP_FLAG, 1 << 10),
    (ColumnFlags::SET_FLAG, 1 << 11),
    (ColumnFlags::NO_DEFAULT_VALUE_FLAG, 1 << 12),
    (ColumnFlags::ON_UPDATE_NOW_FLAG, 1 << 13),
    (ColumnFlags::PART_KEY_FLAG, 1 << 14),
    (ColumnFlags::NUM_FLAG, 1 << 15),
];

// MySQL: Client/Server Protocol, "COM_STMT_EXECUTE" (enum_cursor_type).
const CURSOR_TYPES: [(CursorType, u8); 4] = [
    (CursorType::CURSOR_TYPE_NO_CURSOR, 0),
    (CursorType::CURSOR_TYPE_READ_ONLY, 1),
    (CursorType::CURSOR_TYPE_FOR_UPDATE, 2),
    (CursorType::CURSOR_TYPE_SCROLLABLE, 4),
];

// MySQL: Client/Server Protocol, "COM_STMT_EXECUTE" (new_params_bind_flag).
const EXECUTE_PARAMS: [(StmtExecuteParamsFlags, u8); 1] = [(
    StmtExecuteParamsFlags::NEW_PARAMS_BOUND,
    1,
)];

// The same (parameter_type).
const EXECUTE_PARAM: [(StmtExecuteParamFlags, u8); 1] = [(StmtExecuteParamFlags::UNSIGNED, 128)];

// MariaDB: Client/Server Protocol, "COM_STMT_BULK_EXECUTE".
const BULK: [(StmtBulkExecuteFlags, u16); 2] = [
    (StmtBulkExecuteFlags::SEND_UNIT_RESULTS, 64),
    (StmtBulkExecuteFlags::SEND_TYPES_TO_SERVER, 128),
];

// MySQL: Client/Server Protocol, "COM_BINLOG_DUMP", "COM_BINLOG_DUMP_GTID".
const DUMP: [(BinlogDumpFlags, u16); 3] = [
    (BinlogDumpFlags::BINLOG_DUMP_NON_BLOCK, 1),
    (BinlogDumpFlags::BINLOG_THROUGH_POSITION, 2),
    (BinlogDumpFlags::BINLOG_THROUGH_GTID, 4),
];

// The types of numbers. DECIMAL, YEAR and BIT are not among them.
const NUMERIC: [ColumnType; 8] = [
    ColumnType::MYSQL_TYPE_TINY,
    ColumnType::MYSQL_TYPE_SHORT,
    ColumnType::MYSQL_TYPE_INT24,
    ColumnType::MYSQL_TYPE_LONG,
    ColumnType::MYSQL_TYPE_LONGLONG,
    ColumnType::MYSQL_TYPE_NEWDECIMAL,
    ColumnType::MYSQL_TYPE_FLOAT,
    ColumnType::MYSQL_TYPE_DOUBLE,
];

// The types of texts. The three other blobs are not among them.
const CHARACTER: [ColumnType; 4] = [
    ColumnType::MYSQL_TYPE_STRING,
    ColumnType::MYSQL_TYPE_VAR_STRING,
    ColumnType::MYSQL_TYPE_VARCHAR,
    ColumnType::MYSQL_TYPE_BLOB,
];

// Asserts of each row of a table that the value has its number, and the number its value.
fn assert_numbered<
    Value: Copy + PartialEq + TryFrom<Number, Error = Unknown> + Drop,
    Number: Copy + PartialEq + From<Value> + Drop,
    Unknown: Drop,
>(assert: &impl Assert, rows: &[(Value, Number)]) {
    for (value, number) in rows {
        assert.holds(Number::from(*value) == *number);
        assert.holds(Value::try_from(*number).ok() == Some(*value));
    }
}

#[test]
fn values_and_numbers(rt: HostRuntime) {
    let assert = Asserting(&rt);
    assert_numbered(&assert, &COMMANDS);
    assert_numbered(&assert, &COLUMN_TYPES);
    assert_numbered(&assert, &GEOMETRY_TYPES);
    assert_numbered(&assert, &SESSION_STATE_TYPES);
    assert_numbered(&assert, &BULK_INDICATORS);
    assert_numbered(&assert, &ITEM_RESULTS);
    assert_numbered(&assert, &STATUS);
    assert_numbered(&assert, &CAPABILITIES);
    assert_numbered(&assert, &MARIADB_CAPABILITIES);
    assert_numbered(&assert, &COLUMN);
    assert_numbered(&assert, &CURSOR_TYPES);
    assert_numbered(&assert, &EXECUTE_PARAMS);
    assert_numbered(&assert, &EXECUTE_PARAM);
    assert_numbered(&assert, &BULK);
    assert_numbered(&assert, &DUMP);
    // 247 is ENUM, 248 SET, 255 GEOMETRY and 242 VECTOR.
    for (it, number) in COLUMN_TYPES {
        let has_kinds = (it.is_numeric_type() == NUMERIC.contains(&it))
            & (it.is_character_type() == CHARACTER.contains(&it))
            & (it.is_enum_type() == (number == 247))
            & (it.is_set_type() == (number == 248))
            & (it.is_enum_or_set_type() == ((number == 247) | (number == 248)))
            & (it.is_geometry_type() == (number == 255))
            & (it.is_vector_type() == (number == 242));
        assert.holds(has_kinds);
    }
}

// Each number is refused by its own error, which carries it.
#[test]
fn refused_numbers(rt: HostRuntime) {
    let assert = Asserting(&rt);
    let are_refused = (Command::try_from(33) == Err(UnknownCommand(33)))
        & (ColumnType::try_from(244) == Err(UnknownColumnType(244)))
        & (GeometryType::try_from(8) == Err(UnknownGeometryType(8)))
        & (SessionStateType::try_from(6) == Err(UnknownSessionStateType(6)))
        & (MariadbBulkIndicator::try_from(4) == Err(UnknownMariadbBulkIndicator(4)))
        & (ItemResult::try_from(-2) == Err(UnknownItemResultType(-2)))
        & (CursorType::try_from(8) == Err(UnknownCursorType(8)))
        & (StmtBulkExecuteFlags::try_from(1) == Err(UnknownStmtBulkExecuteFlags(1)))
        & (StatusFlags::try_from(0x8002) == Err(UnknownStatusFlags(0x8002)))
        & (u8::from(UnknownColumnType(244)) == 244)
        & (u8::from(UnknownGeometryType(8)) == 8)
        & (i8::from(UnknownItemResultType(-2)) == -2);
    assert.holds(are_refused);
    let (number, bits) = (UnknownItemResultType(-2), UnknownStatusFlags(0x8002));
    let alloc = rt.alloc();
    let text = once_more(&assert, number.to_string(alloc), number.to_string(alloc));
    assert.holds(text.as_str() == "unknown item result type -2");
    drop(text);
    let text = once_more(&assert, bits.to_string(alloc), bits.to_string(alloc));
    assert.holds(text.as_str() == "unknown flags in the bits 1000000000000010 of StatusFlags");
    drop(text);
}

// All flags of a set, or none, have their bits, and bits their flags.
#[test]
fn sets_of_flags(rt: HostRuntime) {
    let assert = Asserting(&rt);
    let have_bits = (CapabilityFlags::all().bits() == 0xffff_ffff)
        & (MariadbCapabilities::all().bits() == 0x3f)
        & (StatusFlags::all().bits() == 0x7ffb)
        & (ColumnFlags::all().bits() == 0xffff)
        & (StmtBulkExecuteFlags::all().bits() == 192)
        & (BinlogDumpFlags::all().bits() == 7)
        & (BinlogDumpFlags::default().bits() == 0)
        & (CursorType::default() == CursorType::CURSOR_TYPE_NO_CURSOR)
        & (StatusFlags::from_bits(4) == None)
        & (StatusFlags::try_from(10) == Ok(StatusFlags(10)))
        & (StatusFlags(2).union(StatusFlags(8)).bits() == 10);
    assert.holds(have_bits);
}
