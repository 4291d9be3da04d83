//! Rows by their own readers, calls and writers, and rows that are lent, beside the same rows copied.
//! Those that a reply has are rows of bindings/testing/rows.

use crate::given::{Cells, Given, Kind, NO_FLAG, ONE, columns_of};
use crate::support::{Asserting, assert_behind, assert_shown, converted, front, is_shown};
use mysql_buf::ParseBuf;
use mysql_cells::Value;
use mysql_const::ColumnType;
use mysql_convert::FromValueError;
use mysql_field_lists::{ClientSide, ServerSide};
use mysql_fields::{Binary, MyDeserialize, ParseExt, Readable, Text, WireError};
use mysql_packets::{Column, RowExt, RowRefExt, RowRefusal, write_binary_row, write_text_row};
use mysql_row_refs::{RowError, RowFormat, RowReader, RowRef, ValueRef};
use mysql_rows::{ColumnIndex, Row, RowDeserializer, new_row};
use std::alloc::{AllocError, Global};
use std::rc::RcSlice;
use tests_support::{
    Assert, again, assert_bytes, assert_copied, assert_equal, assert_same, given_values, once_more,
};

const ID: Kind = (b"id", ColumnType::MYSQL_TYPE_LONGLONG, NO_FLAG);

const NAME: Kind = (b"name", ColumnType::MYSQL_TYPE_VAR_STRING, NO_FLAG);

/// A number and a text.
const TWO: [Kind; 2] = [ID, NAME];

/// The row under these columns that these bytes are, with none left, or why they are none.
fn read<'a, T: MyDeserialize<'a> + Readable<Ctx = RcSlice<Column>> + Drop>(
    assert: &impl Assert,
    alloc: Global,
    columns: Result<RcSlice<Column>, AllocError>,
    bytes: &'a [u8],
) -> Result<T, WireError> {
    let mut buf = ParseBuf(bytes);
    let row = buf.parse::<T>(alloc, columns?);
    assert.holds(row.is_err() | buf.is_empty());
    row
}

/// A row of these values, of which the second was taken or not.
fn made(
    assert: &impl Assert,
    alloc: Global,
    kinds: &[Kind],
    cells: Cells,
    is_taken: bool,
) -> Result<Row, AllocError> {
    let values = given_values(alloc, cells)?;
    let columns = columns_of(alloc, kinds)?;
    assert.holds(values.len() == columns.as_slice().len());
    let mut made = new_row(alloc, values, columns)?;
    if is_taken {
        drop(made.take_value(1usize));
    }
    Ok(made)
}

/// Of a client the bits begin with the first.
const CLIENT_NULL: &[u8] = b"\x00\x01\x01x";

/// Any byte may come first.
const OTHER_FIRST_BYTE: &[u8] = b"\xff\x00\x05\0\0\0\0\0\0\0\x01x";

const FIVE_AND_X: Cells = &[Given::Int(5), Given::Filled(1)];

const NULL_AND_X: Cells = &[Given::Null, Given::Filled(1)];

/// The first column of a name counts.
const SAME_NAMES: [Kind; 2] = [ID, ID];

const NUMBERS: Cells = &[Given::Int(1), Given::Int(2)];

/// The number in the cell of this name, copied.
fn copy_of<R: RowExt>(
    alloc: Global,
    row: &R,
    name: &str,
) -> Result<Option<Result<u64, FromValueError>>, AllocError> {
    row.get_opt(alloc, name)
}

/// The values of a whole row.
fn unwrapped(assert: &impl Assert, alloc: Global) -> Result<Vec<Value>, AllocError> {
    let row = made(assert, alloc, &TWO, FIVE_AND_X, false)?;
    assert.holds(row.is_whole());
    row.unwrap(alloc)
}

type BinaryRow = RowDeserializer<ServerSide, Binary>;

type SentRow = RowDeserializer<ClientSide, Binary>;

type TextRow = RowDeserializer<ServerSide, Text>;

#[test]
fn whole_rows(rt: HostRuntime) {
    let a = Asserting(&rt);
    let alloc = rt.alloc();
    let found = again!(
        &a,
        read::<BinaryRow>(&a, alloc, columns_of(alloc, &TWO), OTHER_FIRST_BYTE)
    );
    assert_copied(&a, &found, found.clone(alloc), found.clone(alloc));
    let five = again!(&a, made(&a, alloc, &TWO, FIVE_AND_X, false));
    assert_equal(&a, Row::from(found), five);
    let found = again!(
        &a,
        read::<SentRow>(&a, alloc, columns_of(alloc, &TWO), CLIENT_NULL)
    );
    let null = again!(&a, made(&a, alloc, &TWO, NULL_AND_X, false));
    assert_equal(&a, found.into_inner(), null);
    let same = again!(&a, made(&a, alloc, &SAME_NAMES, NUMBERS, false));
    let (first, second) = (copy_of(alloc, &same, "id"), copy_of(alloc, &same, "id"));
    assert_shown(&a, alloc, first, second, "Ok(Some(Ok(1)))");
    drop(same);
    let empty = again!(&a, made(&a, alloc, &[], &[], false));
    a.holds(empty.is_empty() & empty.is_whole());
    drop(empty);
    let values = again!(&a, given_values(alloc, FIVE_AND_X));
    assert_equal(&a, again!(&a, unwrapped(&a, alloc)), values);
}

/// Asserts what stands in a cell by its number.
fn assert_indexed(assert: &impl Assert, row: &Row) {
    match row.as_ref(0) {
        Some(_) => assert_same(assert, &row[0], &Value::Int(5)),
        None => assert.holds(false),
    }
}

/// What `get` and `take` give of the cell `id`: both want one that converts, or none.
fn got_and_taken(
    alloc: Global,
    row: &mut Row,
) -> Result<(Option<Value>, Option<Value>), AllocError> {
    match row.value_at("id") {
        Some(_) => {
            let got = row.get(alloc, "id")?;
            Ok((got, row.take("id")))
        }
        None => Ok((None, row.take("id"))),
    }
}

#[test]
fn cells_by_type(rt: HostRuntime) {
    let a = Asserting(&rt);
    let alloc = rt.alloc();
    let mut row = again!(&a, made(&a, alloc, &TWO, FIVE_AND_X, false));
    a.holds(!row.is_empty() & row.is_whole() & (row.len() == 2));
    assert_indexed(&a, &row);
    let shared = again!(&a, row.columns());
    let columns = shared.as_slice();
    a.holds(columns == row.columns_ref());
    a.holds(
        [
            0usize.idx(columns),
            1usize.idx(columns),
            2usize.idx(columns),
        ] == [Some(0), Some(1), None],
    );
    a.holds(["id".idx(columns), "name".idx(columns)] == [Some(0), Some(1)]);
    a.holds("Name".idx(columns).is_none() & "".idx(columns).is_none());
    drop(shared);
    assert_copied(&a, &row, row.clone(alloc), row.clone(alloc));
    // A cell is taken once.
    let found = again!(&a, got_and_taken(alloc, &mut row));
    a.holds(is_shown(&a, alloc, found, "(Some(Int(5)), Some(Int(5)))"));
    let found = again!(&a, got_and_taken(alloc, &mut row));
    a.holds(is_shown(&a, alloc, found, "(None, None)"));
    a.holds(!row.is_whole() & row.as_ref(0).is_none());
    // The value of the one was taken, and there is no column of the other name.
    for name in ["id", "no"] {
        let (first, second) = (copy_of(alloc, &row, name), copy_of(alloc, &row, name));
        assert_shown(&a, alloc, first, second, "Ok(None)");
    }
    let cells = row.unwrap_raw();
    a.holds(is_shown(&a, alloc, cells, "[None, Some(Bytes([120]))]"));
}

#[test]
fn cells_that_convert_or_not(rt: HostRuntime) {
    let a = Asserting(&rt);
    let alloc = rt.alloc();
    let found = again!(
        &a,
        read::<TextRow>(&a, alloc, columns_of(alloc, &TWO), b"\x017\x01x")
    );
    let mut row = found.into_inner();
    // A cell that is copied stays. Text of a number converts, by name; it is taken once.
    let (first, second) = (copy_of(alloc, &row, "id"), copy_of(alloc, &row, "id"));
    assert_shown(&a, alloc, first, second, "Ok(Some(Ok(7)))");
    a.holds(row.is_whole() & (row.len() == 2));
    let taken = row.take_opt::<u64, &str>("id");
    a.holds(is_shown(&a, alloc, taken, "Some(Ok(7))"));
    let taken = row.take_opt::<u64, usize>(0);
    a.holds(is_shown(&a, alloc, taken, "None"));
    a.holds(!row.is_whole());
    // What doesn't convert comes back with its error.
    let taken = row.take_opt::<u64, &str>("name");
    a.holds(is_shown(&a, alloc, taken, "Some(Err(FromValueError(Bytes([120]))))"));
    a.holds(row.len() == 2);
    row.place(0, Value::Int(1));
    a.holds(is_shown(&a, alloc, row.as_ref(0), "Some(Int(1))"));
    drop(row);
}

/// Columns, values of which the second was taken or not, whether they are written as text, and the
/// bytes or the refusal.
type Written = (
    &'static [Kind],
    Cells,
    bool,
    bool,
    Result<&'static [u8], &'static str>,
);

const BYTES_AND_FLOAT: &[Kind] = &[
    (b"a", ColumnType::MYSQL_TYPE_VAR_STRING, NO_FLAG),
    (b"b", ColumnType::MYSQL_TYPE_FLOAT, NO_FLAG),
];

const X_AND_0: Cells = &[Given::Filled(1), Given::Float(0)];

const NO_FORM: Result<&[u8], &str> = Err("Err(NoForm(1))");

/// Rows in binary and as text, and rows of which the second cell was taken or has no form.
const WRITTEN: [Written; 6] = [
    (
        &[
            (b"a", ColumnType::MYSQL_TYPE_TINY, NO_FLAG),
            (b"b", ColumnType::MYSQL_TYPE_VAR_STRING, NO_FLAG),
            (b"c", ColumnType::MYSQL_TYPE_FLOAT, NO_FLAG),
            (b"d", ColumnType::MYSQL_TYPE_DOUBLE, NO_FLAG),
            (b"e", ColumnType::MYSQL_TYPE_NEWDATE, NO_FLAG),
        ],
        &[
            Given::UInt(127),
            Given::Filled(1),
            Given::Float(0x4123_3333),
            Given::Double(0x4024_6666_6666_6666),
            Given::Null,
        ],
        false,
        false,
        Ok(b"\0\x40\x7f\x01x\x33\x33\x23\x41\x66\x66\x66\x66\x66\x66\x24\x40"),
    ),
    (
        &[
            (b"a", ColumnType::MYSQL_TYPE_TINY, NO_FLAG),
            (b"b", ColumnType::MYSQL_TYPE_FLOAT, NO_FLAG),
            (b"c", ColumnType::MYSQL_TYPE_FLOAT, NO_FLAG),
        ],
        &[Given::Int(1), Given::Double(0), Given::Double(0)],
        false,
        false,
        NO_FORM,
    ),
    (
        &[ID, ID, NAME],
        &[Given::Int(1), Given::Null, Given::Filled(0)],
        false,
        true,
        Ok(b"\x011\xfb\0"),
    ),
    (BYTES_AND_FLOAT, X_AND_0, true, true, NO_FORM),
    (BYTES_AND_FLOAT, X_AND_0, true, false, NO_FORM),
    (BYTES_AND_FLOAT, X_AND_0, false, true, NO_FORM),
];

/// Writes such a row.
fn put(
    assert: &impl Assert,
    alloc: Global,
    (kinds, cells, is_taken, is_text, _): &Written,
    out: &mut Vec<u8>,
) -> Result<(), RowRefusal> {
    let row = made(assert, alloc, *kinds, *cells, *is_taken)?;
    let columns = row.columns_ref();
    assert.holds(columns.len() == row.len());
    let answer = if *is_text {
        row.write_text(out)
    } else {
        row.write_binary(columns, out)
    };
    drop(row);
    answer
}

/// Rows are written behind `front`, which stands alone where memory is refused or a cell has no form.
#[test]
fn written_rows(rt: HostRuntime) {
    let a = Asserting(&rt);
    let alloc = rt.alloc();
    for case in &WRITTEN {
        let mut out = front(&a, alloc);
        let first = put(&a, alloc, case, &mut out);
        let second = put(&a, alloc, case, &mut out);
        match case.4 {
            Ok(bytes) => assert_behind(&a, &out, first.is_ok(), second.is_ok(), bytes),
            Err(refusal) => {
                assert_shown(&a, alloc, first, second, refusal);
                assert_bytes(&a, &out, b"front");
            }
        }
    }
    // Values that are in no row.
    let values = again!(&a, given_values(alloc, ONE));
    let mut out = front(&a, alloc);
    let first = write_text_row(&values, &mut out).is_ok();
    let second = write_text_row(&values, &mut out).is_ok();
    assert_behind(&a, &out, first, second, b"\x011");
    let columns = again!(&a, columns_of(alloc, &[ID]));
    a.holds(columns.as_slice().len() == values.len());
    let mut out = front(&a, alloc);
    let first = write_binary_row(columns.as_slice(), &values, &mut out).is_ok();
    let second = write_binary_row(columns.as_slice(), &values, &mut out).is_ok();
    assert_behind(&a, &out, first, second, b"\0\0\x01\0\0\0\0\0\0\0");
    drop(columns);
    drop(values);
}

/// Asserts that a cell converts where it lies as its copy does, or the same copied once more.
fn assert_cell<T: PartialEq + Drop>(
    assert: &impl Assert,
    found: Option<Result<T, ValueRef<'_>>>,
    first: Result<Option<Result<T, FromValueError>>, AllocError>,
    second: Result<Option<Result<T, FromValueError>>, AllocError>,
) {
    let copied = once_more(assert, first, second);
    assert.holds(converted(found) == converted(copied));
}

/// Asserts what the cells of one row convert to, and that they stand under the same columns.
fn assert_cells(assert: &impl Assert, alloc: Global, lent: &RowRef<'_, '_>, row: &Row) {
    let shared = again!(assert, lent.columns());
    assert.holds(shared.as_slice() == row.columns_ref());
    drop(shared);
    for at in 0..4 {
        assert.holds(lent.get(at) == lent.as_ref(at));
        assert.holds(lent.as_ref(at).is_some() == row.as_ref(at).is_some());
        assert_cell::<i8>(
            assert,
            lent.get_opt(at),
            row.get_opt(alloc, at),
            row.get_opt(alloc, at),
        );
        assert_cell::<u64>(
            assert,
            lent.get_opt(at),
            row.get_opt(alloc, at),
            row.get_opt(alloc, at),
        );
        assert_cell::<Option<i64>>(
            assert,
            lent.get_opt(at),
            row.get_opt(alloc, at),
            row.get_opt(alloc, at),
        );
        assert_cell::<bool>(
            assert,
            lent.get_opt(at),
            row.get_opt(alloc, at),
            row.get_opt(alloc, at),
        );
    }
}

/// Asserts the cells of the row `hi`, ff and 7: what is borrowed, in the first column of a name.
fn assert_named<'p, R: RowRefExt<'p>>(assert: &impl Assert, lent: &R) {
    assert.holds(converted(lent.get_opt::<&str, &str>("a")) == Some("hi"));
    assert.holds(converted(lent.get_opt::<&[u8], &str>("b")) == Some(b"\xff".as_slice()));
    assert.holds(converted(lent.get_opt::<&str, &str>("b")).is_none());
    assert.holds(lent.get_opt::<&[u8], &str>("c").is_none());
}

pub const TEXTS: [Kind; 3] = [
    (b"a", ColumnType::MYSQL_TYPE_VAR_STRING, NO_FLAG),
    (b"b", ColumnType::MYSQL_TYPE_VAR_STRING, NO_FLAG),
    (b"a", ColumnType::MYSQL_TYPE_LONGLONG, NO_FLAG),
];

const CONVERTED: [&[u8]; 4] = [
    b"\x03127\x03128\xfb",
    b"\x04-129\x02+5\x00",
    b"\x011\x1d00000000000000000000000000012\x02x1",
    b"\x1418446744073709551615\x1418446744073709551616\x14-9223372036854775808",
];

/// Payloads that are no rows, and why: cut off, a length that is none, a byte behind the last cell.
const NO_ROWS: [(&[u8], RowError); 5] = [
    (b"", RowError::Unreadable(WireError::UnexpectedEof)),
    (b"\x015", RowError::Unreadable(WireError::UnexpectedEof)),
    (
        b"\x015\x02x",
        RowError::Unreadable(WireError::UnexpectedEof),
    ),
    (b"\x015\xff", RowError::Unreadable(WireError::BadLength)),
    (b"\xfb\x00\x0242\x00", RowError::BytesLeft),
];

#[test]
fn lent_rows(rt: HostRuntime) {
    let a = Asserting(&rt);
    let alloc = rt.alloc();
    let mut reader = again!(
        &a,
        RowReader::new(
            alloc,
            again!(&a, columns_of(alloc, &TEXTS)),
            RowFormat::Text
        )
    );
    for payload in CONVERTED {
        let row = again!(
            &a,
            read::<TextRow>(&a, alloc, columns_of(alloc, &TEXTS), payload)
        )
        .into_inner();
        match reader.row(payload) {
            Ok(lent) => assert_cells(&a, alloc, &lent, &row),
            Err(_) => a.holds(false),
        }
        drop(row);
    }
    match reader.row(b"\x02hi\x01\xff\x017") {
        Ok(lent) => assert_named(&a, &lent),
        Err(_) => a.holds(false),
    }
    for (payload, cause) in &NO_ROWS {
        a.holds(reader.row(*payload).err() == Some(*cause));
    }
    drop(reader);
}
