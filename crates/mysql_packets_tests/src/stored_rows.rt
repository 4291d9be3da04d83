//! Rows that are kept, beside the same rows read again.

use crate::given::{Kind, NO_FLAG, columns_of};
use crate::rows::TEXTS;
use crate::support::Asserting;
use mysql_const::{ColumnFlags, ColumnType};
use mysql_row_refs::{RowFormat, RowReader, RowRef, StoredRows};
use std::alloc::Global;
use tests_support::{Assert, again, assert_equal};

/// Keeps a row. Where memory is refused nothing changes, and the row is kept once more.
fn keep(assert: &impl Assert, stored: &mut StoredRows, row: &RowRef<'_, '_>) {
    let count = stored.len();
    assert.holds(row.len() == stored.columns_ref().len());
    if stored.push(row).is_err() {
        assert_equal(assert, stored.len(), count);
        assert.holds(stored.push(row).is_ok());
    }
    assert.holds(stored.len() > count);
}

/// Keeps each payload's row.
fn keep_all(
    assert: &impl Assert,
    reader: &mut RowReader,
    stored: &mut StoredRows,
    payloads: &[&[u8]],
) {
    for payload in payloads {
        match reader.row(*payload) {
            Ok(row) => keep(assert, stored, &row),
            Err(_) => assert.holds(false),
        }
    }
}

/// Asserts that two rows have the same cells.
fn assert_same_cells(assert: &impl Assert, found: RowRef<'_, '_>, wanted: RowRef<'_, '_>) {
    assert_equal(assert, found.len(), wanted.len());
    for index in 0..wanted.len() {
        assert.holds(found.as_ref(index) == wanted.as_ref(index));
    }
}

/// Asserts that the rows that are kept are those of the payloads, by their numbers and in order.
fn assert_kept(
    assert: &impl Assert,
    reader: &mut RowReader,
    stored: &StoredRows,
    payloads: &[&[u8]],
) {
    assert_equal(assert, stored.len(), payloads.len());
    assert_equal(assert, stored.is_empty(), payloads.is_empty());
    let mut rows = stored.iter();
    for (index, payload) in payloads.iter().enumerate() {
        match (stored.row(index), rows.next(), reader.row(*payload)) {
            (Some(found), Some(next), Ok(wanted)) => {
                assert_same_cells(assert, found, wanted);
                assert_same_cells(assert, next, wanted);
            }
            _ => assert.holds(false),
        }
    }
    assert.holds(rows.next().is_none() & stored.row(payloads.len()).is_none());
}

/// Columns, the format of rows, and payloads.
type Case = (&'static [Kind], RowFormat, &'static [&'static [u8]]);

/// Asserts it of rows that are kept, let go of, and kept again.
fn assert_stored(assert: &impl Assert, alloc: Global, (kinds, format, payloads): &Case) {
    let mut stored = StoredRows::new(alloc, again!(assert, columns_of(alloc, *kinds)));
    let mut reader = again!(
        assert,
        RowReader::new(alloc, again!(assert, columns_of(alloc, *kinds)), *format)
    );
    assert_kept(assert, &mut reader, &stored, &[]);
    keep_all(assert, &mut reader, &mut stored, *payloads);
    assert_kept(assert, &mut reader, &stored, *payloads);
    stored.clear();
    assert_kept(assert, &mut reader, &stored, &[]);
    keep_all(assert, &mut reader, &mut stored, *payloads);
    assert_kept(assert, &mut reader, &stored, *payloads);
    drop(stored);
    drop(reader);
}

const UNSIGNED: ColumnFlags = ColumnFlags::UNSIGNED_FLAG;

const WIDTHS: &[Kind] = &[
    (b"a", ColumnType::MYSQL_TYPE_TINY, UNSIGNED),
    (b"b", ColumnType::MYSQL_TYPE_SHORT, NO_FLAG),
    (b"c", ColumnType::MYSQL_TYPE_LONG, NO_FLAG),
    (b"d", ColumnType::MYSQL_TYPE_LONGLONG, UNSIGNED),
    (b"e", ColumnType::MYSQL_TYPE_FLOAT, NO_FLAG),
    (b"f", ColumnType::MYSQL_TYPE_DOUBLE, NO_FLAG),
    (b"g", ColumnType::MYSQL_TYPE_VAR_STRING, NO_FLAG),
    (b"h", ColumnType::MYSQL_TYPE_DATETIME, NO_FLAG),
    (b"i", ColumnType::MYSQL_TYPE_TIME, NO_FLAG),
    (b"j", ColumnType::MYSQL_TYPE_LONG, NO_FLAG),
];

/// A row with a cell of each width, the last one NULL.
const WIDE_ROW: &[u8] =
    b"\x00\x00\x08\xff\xfe\xff\x01\x02\x03\x84\xff\xff\xff\xff\xff\xff\xff\xff\x00\x00\x80\x3f\x00\
    \x00\x00\x00\x00\x00\xf0\x3f\x02hi\x07\xe8\x07\x02\x1d\x0c\x22\x38\x08\x01\x01\x00\x00\x00\x02\x03\x04";

/// Text rows of several lengths, with NULL, an empty text and an overlong length. Binary rows, of
/// which one is of NULLs alone. Rows without cells, which are counted too.
const CASES: [Case; 3] = [
    (
        &TEXTS,
        RowFormat::Text,
        &[
            b"\xfb\x00\x0242",
            b"\xfc\x01\x00x\x03abc\xfb",
            b"\xfb\xfb\xfb",
            b"\x09something\x04else\x011",
        ],
    ),
    (
        WIDTHS,
        RowFormat::Binary,
        &[WIDE_ROW, b"\x00\xfc\x0f", WIDE_ROW],
    ),
    (&[], RowFormat::Text, &[b"", b"", b""]),
];

#[test]
fn kept_rows(rt: HostRuntime) {
    let a = Asserting(&rt);
    for case in &CASES {
        assert_stored(&a, rt.alloc(), case);
    }
}
