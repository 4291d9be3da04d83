//! Cells of the binary and of the text protocol, read and written as fields, and by what they are
//! read alone.

use crate::support::{Asserting, Given, assert_value, copied};
use mysql_values::{
    BinValue, ClientSide, SerializationSide, ServerSide, TextValue, Value, ValueDeserializer,
    read_cell, read_text_cell,
};
use mysql_wire::constants::{ColumnFlags, ColumnType};
use mysql_wire::{MySerialize, ParseBuf, WireError};
use tests_support::{
    Assert, assert_answer, assert_bytes, assert_cut_off, assert_equal, assert_refused, first_of,
    once_more,
};

const SIGNED: ColumnFlags = ColumnFlags(0);

const UNSIGNED: ColumnFlags = ColumnFlags(0x20);

/// A column's type and flags.
type Ctx = (ColumnType, ColumnFlags);

type Binary = ValueDeserializer<BinValue>;

type Text = ValueDeserializer<TextValue>;

/// Types, flags and cells with two bytes behind them, and the values that are read. Others are rows.
const BINARY: [(ColumnType, ColumnFlags, &[u8], Given); 5] = [
    (ColumnType::MYSQL_TYPE_NULL, SIGNED, b"..", Given::Null),
    (
        ColumnType::MYSQL_TYPE_SHORT,
        SIGNED,
        b"\xfe\xff..",
        Given::Int(-2),
    ),
    (
        ColumnType::MYSQL_TYPE_LONGLONG,
        UNSIGNED,
        b"\x00\x00\x00\x00\x00\x00\x00\x80..",
        Given::UInt(9223372036854775808),
    ),
    (
        ColumnType::MYSQL_TYPE_VAR_STRING,
        SIGNED,
        b"\x01a..",
        Given::Bytes(b"a"),
    ),
    (
        ColumnType::MYSQL_TYPE_DATETIME,
        SIGNED,
        b"\x04\xe8\x07\x02\x1d..",
        Given::Date(2024, 2, 29, 0, 0, 0, 0),
    ),
];

/// Types, and cells that are refused wherever they are cut off.
const WHOLE: [(ColumnType, &[u8]); 3] = [
    (
        ColumnType::MYSQL_TYPE_LONGLONG,
        b"\x02\x01\x00\x00\x00\x00\x00\x00",
    ),
    (ColumnType::MYSQL_TYPE_VAR_STRING, b"\xfc\x02\x00ab"),
    (
        ColumnType::MYSQL_TYPE_TIME,
        b"\x08\x01\x01\x00\x00\x00\x02\x03\x04",
    ),
];

/// The types that have no cells.
const WITHOUT_CELLS: [ColumnType; 6] = [
    ColumnType::MYSQL_TYPE_NEWDATE,
    ColumnType::MYSQL_TYPE_TIMESTAMP2,
    ColumnType::MYSQL_TYPE_DATETIME2,
    ColumnType::MYSQL_TYPE_TIME2,
    ColumnType::MYSQL_TYPE_TYPED_ARRAY,
    ColumnType::MYSQL_TYPE_UNKNOWN,
];

/// A cell is a field, and is read by itself.
#[test]
fn binary_cells(rt: HostRuntime) {
    let assert = Asserting(&rt);
    let alloc = rt.alloc();
    for (column_type, flags, cell, wanted) in BINARY {
        let mut buf = ParseBuf(cell);
        let read = first_of::<Binary, Ctx>(&assert, alloc, (column_type, flags), &mut buf);
        assert_value(&assert, alloc, &read.0, wanted);
        drop(read);
        assert_bytes(&assert, buf.0, b"..");
        let (number, unsigned) = (u8::from(column_type), flags.0 == UNSIGNED.0);
        let (mut buf, mut again) = (ParseBuf(cell), ParseBuf(cell));
        let first = read_cell(alloc, number, unsigned, &mut buf);
        let second = read_cell(alloc, number, unsigned, &mut again);
        let value = once_more(&assert, first, second);
        assert_value(&assert, alloc, &value, wanted);
        drop(value);
        assert.holds((buf.len() == 2) | (again.len() == 2));
    }
    for (column_type, cell) in WHOLE {
        let ctx = (column_type, SIGNED);
        assert_cut_off::<Binary, Ctx>(&assert, alloc, ctx, cell, 0, cell.len());
    }
    for column_type in WITHOUT_CELLS {
        let cause = WireError::UnsupportedType;
        assert_refused::<Binary, Ctx>(&assert, alloc, (column_type, SIGNED), b"", cause);
    }
}

/// Cells of the text protocol with two bytes behind them, and the values that are read.
const TEXTS: [(&[u8], Given); 2] = [(b"\x015..", Given::Bytes(b"5")), (b"\xfb..", Given::Null)];

#[test]
fn text_cells(rt: HostRuntime) {
    let assert = Asserting(&rt);
    let alloc = rt.alloc();
    for (cell, wanted) in TEXTS {
        let mut buf = ParseBuf(cell);
        let read = first_of::<Text, ()>(&assert, alloc, (), &mut buf);
        assert_value(&assert, alloc, &read.0, wanted);
        drop(read);
        assert_bytes(&assert, buf.0, b"..");
    }
    for cell in [&b"\xff"[..], b"\xff.."] {
        assert_refused::<Text, ()>(&assert, alloc, (), cell, WireError::BadLength);
        let (mut buf, mut again) = (ParseBuf(cell), ParseBuf(cell));
        assert_answer(
            &assert,
            read_text_cell(alloc, &mut buf).err(),
            read_text_cell(alloc, &mut again).err(),
            Some(WireError::Memory),
            Some(WireError::BadLength),
        );
        assert_bytes(&assert, again.0, cell);
    }
}

/// A value's cell stands behind what is there, and is as long as is counted for it. Where memory was refused nothing
/// was written.
#[test]
fn cells_written(rt: HostRuntime) {
    let assert = Asserting(&rt);
    let cell: &[u8] = b"\x0c\x01\x01\x00\x00\x00\x02\x03\x04\x05\x00\x00\x00";
    let value = Value::Time(true, 1, 2, 3, 4, 5);
    let mut out = copied(&assert, rt.alloc(), b"> ");
    if value.serialize(&mut out).is_err() {
        assert_bytes(&assert, out.as_slice(), b"> ");
        assert.holds(value.serialize(&mut out).is_ok());
    }
    assert_equal(&assert, out.as_slice().strip_prefix(b"> "), Some(cell));
    assert_equal(&assert, value.bin_len(), cell.len() as u64);
    drop(value);
    let value = Value::UInt(1);
    assert_equal(&assert, u8::from(value.column_type()), 8);
    assert.holds(value.is_unsigned());
    drop(value);
    assert_equal(
        &assert,
        (ServerSide::BIT_OFFSET, ClientSide::BIT_OFFSET),
        (2, 0),
    );
}
