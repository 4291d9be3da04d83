//! Packets, and what stands in them, by their own readers and writers. Each is written behind bytes
//! that have to stay where memory is refused.

ghost use Rattle.std.specs.Prelude.{◌≤◌, length};

use crate::support::{Asserting, assert_appended, assert_behind, assert_field, front};
use mysql_cells::Value;
use mysql_const::{CapabilityFlags, ColumnFlags, ColumnType, MariadbCapabilities};
use mysql_fields::WireError;
use mysql_ok_packets::Unsupported;
use mysql_packets::{
    Column, ComStmtClose, ComStmtReset, ComStmtSendLongData, ErrPacket, ExtendedColumn,
    ListedColumn, LocalInfilePacket, ProgressReport, ServerError, SqlState,
    StmtBulkExecuteParamType, StmtPacket,
};
use mysql_stmt::{ComStmtExecuteRequestBuilder, HasValue, put_execution, size_within};
use std::alloc::{AllocError, Global};
use std::borrow::CowSlice;
use tests_support::{
    Assert, again, assert_bytes, assert_copied, assert_equal, assert_made, assert_written, whole,
};

const NONE: CapabilityFlags = CapabilityFlags(0);

const PROTOCOL_41: CapabilityFlags = CapabilityFlags::CLIENT_PROTOCOL_41;

const WITH_PROGRESS: CapabilityFlags = CapabilityFlags(0x2000_0200);

const NO_TABLES: &[u8] = b"\xff\x48\x04#HY000No tables used";

const TOO_MANY: &[u8] = b"\xff\x10\x04Too many connections";

const PROGRESS: &[u8] = b"\xff\xff\xff\x01\x01\x0a\xcc\x5b\0\x0astage name";

/// Another byte than the one that begins a packet, and another one than that before a state.
const NO_ERRORS: [(&[u8], WireError); 2] = [
    (b"\xfe\x48\x04#HY000No tables used", WireError::BadConstant),
    (b"\xff\x48\x04$HY000No tables used", WireError::BadConstant),
];

const BODY: &[u8] = b"#HY000No tables used";

const NO_STATE: [(&[u8], WireError); 1] = [(b"$HY000", WireError::BadConstant)];

/// A progress report without the head of its packet.
const REPORT: &[u8] = b"\x01\x01\x0a\xcc\x5b\0\x0astage name";

const NO_FILE: [(&[u8], WireError); 1] = [(b"\xfa", WireError::BadConstant)];

const PREPARED: &[u8] = b"\0\x01\0\0\0\x01\0\x02\0\0\0\0";

const NOT_PREPARED: [(&[u8], WireError); 1] = [(
    b"\x01\x01\0\0\0\x01\0\x02\0\0\0\0",
    WireError::BadConstant,
)];

/// What a server sends. A server's error is read behind its code, with a state and without one.
#[test]
fn of_servers(rt: HostRuntime) {
    let a = Asserting(&rt);
    let alloc = rt.alloc();
    assert_field::<ErrPacket, CapabilityFlags>(&a, alloc, PROTOCOL_41, NO_TABLES, 9, &NO_ERRORS);
    assert_field::<ErrPacket, CapabilityFlags>(&a, alloc, NONE, TOO_MANY, 3, &[]);
    assert_field::<ErrPacket, CapabilityFlags>(&a, alloc, WITH_PROGRESS, NO_TABLES, 9, &[]);
    assert_field::<ErrPacket, CapabilityFlags>(&a, alloc, WITH_PROGRESS, PROGRESS, 20, &[]);
    assert_field::<ServerError, (u16, bool)>(&a, alloc, (1096, true), BODY, 6, &[]);
    assert_field::<ServerError, (u16, bool)>(&a, alloc, (1096, false), BODY, 0, &[]);
    assert_field::<ServerError, (u16, bool)>(&a, alloc, (1096, false), b"", 0, &[]);
    assert_field::<SqlState, ()>(&a, alloc, (), b"#HY000", 6, &NO_STATE);
    assert_field::<ProgressReport, ()>(&a, alloc, (), REPORT, REPORT.len(), &[]);
    assert_field::<LocalInfilePacket, ()>(&a, alloc, (), b"\xfbfile_name", 1, &NO_FILE);
    assert_field::<StmtPacket, ()>(&a, alloc, (), PREPARED, 12, &NOT_PREPARED);
    // A change of the session of another kind is text with its length before it.
    assert_field::<Unsupported, ()>(&a, alloc, (), b"\x03abc", 4, &[]);
}

const CLOSE: &[u8] = b"\x19\x01\0\0\0";

const RESET: &[u8] = b"\x1a\x01\0\0\0";

const NO_CLOSE: [(&[u8], WireError); 1] = [(RESET, WireError::BadConstant)];

const NO_RESET: [(&[u8], WireError); 1] = [(CLOSE, WireError::BadConstant)];

const PIECE: &[u8] = b"\x18\x01\0\0\0\0\0x";

const EXECUTION: &[u8] = b"\x17\x01\0\0\0\0\x01\0\0\0\x02\x01\x08\0\x06\0\x01\0\0\0\0\0\0\0";

/// Asserts that the bytes of an execution of values are as many as was said before.
fn assert_put<V: HasValue>(assert: &impl Assert, alloc: Global, values: &[V], bytes: &[u8])
    requires { length values.now ≤ 65535 }
{
    let mut out = front(assert, alloc);
    let first = put_execution(1, values, false, &mut out).is_ok();
    let second = put_execution(1, values, false, &mut out).is_ok();
    assert_behind(assert, &out, first, second, bytes);
    assert_equal(assert, size_within(values, bytes.len()), Some(bytes.len()));
    let fewer = bytes.len().saturating_sub(1);
    assert_equal(assert, size_within(values, fewer), None);
}

/// What a client says of statements. The execution is of the number 1 and NULL, of which the second
/// one's bit is set.
#[test]
fn of_clients(rt: HostRuntime) {
    let a = Asserting(&rt);
    let alloc = rt.alloc();
    assert_field::<ComStmtClose, ()>(&a, alloc, (), CLOSE, 5, &NO_CLOSE);
    assert_appended(&a, alloc, &ComStmtClose::new(1), CLOSE);
    assert_field::<ComStmtReset, ()>(&a, alloc, (), RESET, 5, &NO_RESET);
    assert_appended(&a, alloc, &ComStmtReset::new(1), RESET);
    assert_field::<StmtBulkExecuteParamType, ()>(&a, alloc, (), b"\x08\x80", 2, &[]);
    let piece = ComStmtSendLongData::new(1, 0, CowSlice::Borrowed(b"x"));
    assert_appended(&a, alloc, &piece, PIECE);
    drop(piece);
    let values = [Value::Int(1), Value::NULL];
    assert_put(&a, alloc, &values, EXECUTION);
    assert_put(&a, alloc, &[&values[0], &values[1]], EXECUTION);
    let builder = ComStmtExecuteRequestBuilder::new(1);
    let (request, as_long_data) = again!(&a, builder.build(alloc, &values));
    a.holds(!as_long_data);
    assert_appended(&a, alloc, &request, EXECUTION);
    assert_copied(&a, &request, request.clone(alloc), request.clone(alloc));
    drop(request);
    drop(values);
}

const COLUMN: &[u8] =
    b"\x03def\x06schema\x05table\x09org_table\x04name\x08org_name\x0c\x21\0\x0f\0\0\0\0\x01\0\x08\0\0";

const NAMES: [&[u8]; 5] = [b"schema", b"table", b"org_table", b"name", b"org_name"];

/// The column of that packet, made by its parts, with these names.
pub fn column_named(alloc: Global, names: [&[u8]; 5]) -> Result<Column, AllocError> {
    let [schema, table, org_table, name, org_name] = names;
    Column::new(alloc, ColumnType::MYSQL_TYPE_DECIMAL)
        .with_character_set(33)
        .with_column_length(15)
        .with_flags(ColumnFlags::NOT_NULL_FLAG)
        .with_decimals(8)
        .with_schema(schema)?
        .with_table(table)?
        .with_org_table(org_table)?
        .with_name(name)?
        .with_org_name(org_name)
}

/// Bytes, and why they are refused: another catalog, another count of the fixed fields, a type without a name.
const NO_COLUMNS: [(&[u8], WireError); 3] = [
    (
        b"\x03dex\0\0\0\0\0\x0c\x21\0\x0f\0\0\0\0\x01\0\x08\0\0",
        WireError::BadConstant,
    ),
    (
        b"\x03def\0\0\0\0\0\x0d\x21\0\x0f\0\0\0\0\x01\0\x08\0\0",
        WireError::BadConstant,
    ),
    (
        b"\x03def\0\0\0\0\0\x0c\x21\0\x0f\0\0\0\xf0\x01\0\x08\0\0",
        WireError::UnknownValue,
    ),
];

const NO_METADATA: MariadbCapabilities = MariadbCapabilities(0);

const EXTENDED: MariadbCapabilities = MariadbCapabilities::MARIADB_CLIENT_EXTENDED_METADATA;

const UUID: &[u8] =
    b"\x03def\0\0\0\x01c\0\x0c\x01\x04json\0\x04uuid\x0c\x2d\0\0\0\0\0\xfc\0\0\0\0\0";

/// Packets of the column `c` with extended metadata, and the type's name and the format that these tell.
const METADATA: [(&[u8], Option<&[u8]>, Option<&[u8]>); 5] = [
    (
        b"\x03def\0\0\0\x01c\0\0\x0c\x21\0\0\0\0\0\xfe\0\0\0\0\0",
        None,
        None,
    ),
    (
        b"\x03def\0\0\0\x01c\0\x07\0\x05point\x0c\x3f\0\0\0\0\0\xff\0\0\0\0\0",
        Some(b"point"),
        None,
    ),
    (
        b"\x03def\0\0\0\x01c\0\x06\x01\x04json\x0c\x2d\0\0\0\0\0\xfc\0\0\0\0\0",
        None,
        Some(b"json"),
    ),
    (UUID, Some(b"uuid"), Some(b"json")),
    // A value that is cut off ends them.
    (
        b"\x03def\0\0\0\x01c\0\x09\0\x04uuid\x01\x04j\x0c\x2d\0\0\0\0\0\xfc\0\0\0\0\0",
        Some(b"uuid"),
        None,
    ),
];

/// The column of `UUID`, made by its parts.
fn with_names(alloc: Global) -> Result<ExtendedColumn, AllocError> {
    let mut metadata = Vec::new(alloc);
    ExtendedColumn::put_format(b"json", &mut metadata)?;
    ExtendedColumn::put_type_name(b"uuid", &mut metadata)?;
    let column = Column::new(alloc, ColumnType::MYSQL_TYPE_BLOB).with_name(b"c")?;
    Ok(ExtendedColumn::new(column.with_character_set(45)).with_metadata(metadata))
}

/// Columns by themselves, and with metadata beside them.
#[test]
fn columns(rt: HostRuntime) {
    let a = Asserting(&rt);
    let alloc = rt.alloc();
    assert_field::<Column, ()>(&a, alloc, (), COLUMN, COLUMN.len(), &NO_COLUMNS);
    let (first, second) = (column_named(alloc, NAMES), column_named(alloc, NAMES));
    assert_made(&a, alloc, first, second, COLUMN);
    assert_made(&a, alloc, with_names(alloc), with_names(alloc), UUID);
    for (bytes, type_name, format) in &METADATA {
        assert_field::<ExtendedColumn, MariadbCapabilities>(&a, alloc, EXTENDED, *bytes, 0, &[]);
        let read = whole::<ExtendedColumn, MariadbCapabilities>(&a, alloc, EXTENDED, *bytes);
        let is_told = (read.type_name() == *type_name) & (read.format() == *format);
        a.holds(is_told & (read.metadata_ref().is_some()));
        assert_bytes(&a, read.column().name_ref(), b"c");
        assert_copied(&a, &read, read.clone(alloc), read.clone(alloc));
        drop(read);
    }
    let plain = whole::<ExtendedColumn, MariadbCapabilities>(&a, alloc, NO_METADATA, COLUMN);
    a.holds(plain.metadata_ref().is_none());
    let plain = plain.into_column();
    assert_written(&a, alloc, &plain, COLUMN);
    assert_copied(&a, &plain, plain.clone(alloc), plain.clone(alloc));
    drop(plain);
}

const WITH_NULL: &[u8] =
    b"\x03def\x06schema\x05table\x09org_table\x04name\x08org_name\x0c\x21\0\x0f\0\0\0\0\x01\0\x08\0\0\xfb";

const WITH_NO: &[u8] =
    b"\x03def\x06schema\x05table\x09org_table\x04name\x08org_name\x0c\x21\0\x0f\0\0\0\0\x01\0\x08\0\0\x02no";

/// Columns that are listed, what is written of them again, and the text of their default.
const LISTED: [(&[u8], &[u8], Option<&[u8]>); 3] = [
    (WITH_NULL, WITH_NULL, None),
    (COLUMN, WITH_NULL, None),
    (WITH_NO, WITH_NO, Some(b"no")),
];

#[test]
fn listed_columns(rt: HostRuntime) {
    let a = Asserting(&rt);
    let alloc = rt.alloc();
    for (bytes, put, default) in &LISTED {
        let read = whole::<ListedColumn, MariadbCapabilities>(&a, alloc, NO_METADATA, *bytes);
        a.holds(read.default_ref() == *default);
        assert_copied(&a, &read, read.clone(alloc), read.clone(alloc));
        assert_appended(&a, alloc, &read, *put);
        drop(read);
    }
}
