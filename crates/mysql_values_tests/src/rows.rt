//! Rows as tuples, as single values and as types of one's own, handed over, borrowed and lent.

ghost use Rattle.std.specs.Prelude.{codes, List, ℕ};
ghost use Rattle.std.specs.String.{string_bytes};
ghost use Rattle.mysql_from_row.specs.FromRow.{both, named_as};

use crate::support::{Asserting, string};
use mysql_buf::ParseBuf;
use mysql_columns::Column;
use mysql_const::ColumnType;
use mysql_convert::FromValue;
use mysql_field_lists::ServerSide;
use mysql_fields::{ParseExt, Text, WireError};
use mysql_from_row::{
    FromRow, FromRowError, RowConversionError, from_cell, from_row_opt, from_row_ref,
};
use mysql_row_refs::{RowFormat, RowReader};
use mysql_rows::{Row, RowDeserializer};
use std::alloc::{AllocError, AllocFailed, Global};
use std::rc::RcSlice;
use tests_support::{Assert, assert_same, once_more};

/// The columns of the rows.
const GOODS: [&[u8]; 3] = [b"id", b"name", b"price"];

/// A good without a price.
const APPLE: &[u8] = b"\x017\x05apple\xfb";

/// Columns of these names.
fn columns_of(alloc: Global, names: &[&[u8]]) -> Result<RcSlice<Column>, AllocError> {
    let mut columns = Vec::new(alloc);
    for name in names {
        let column = Column::new(alloc, ColumnType::MYSQL_TYPE_VAR_STRING).with_name(*name)?;
        columns.push(column)?;
    }
    RcSlice::from_vec(columns)
}

/// The text row that a payload is.
fn read(alloc: Global, names: &[&[u8]], payload: &[u8]) -> Result<Row, WireError> {
    let columns = columns_of(alloc, names)?;
    let mut buf = ParseBuf(payload);
    let row: RowDeserializer<ServerSide, Text> = buf.parse(alloc, columns)?;
    Ok(row.into_inner())
}

/// The text row that a payload is. It is read once more where memory was refused.
fn row_of(assert: &impl Assert, alloc: Global, names: &[&[u8]], payload: &[u8]) -> Row {
    let first = read(alloc, names, payload);
    let second = read(alloc, names, payload);
    once_more(assert, first, second)
}

/// What a row converts to, or the row. It is converted once more where memory was refused: it is the row that was
/// given back then.
fn converted<T: FromRow>(assert: &impl Assert, alloc: Global, row: Row) -> Result<T, FromRowError> {
    match from_row_opt::<T>(alloc, row) {
        Ok(answer) => answer,
        Err(AllocFailed { value: row }) => match from_row_opt::<T>(alloc, row) {
            Ok(answer) => answer,
            Err(AllocFailed { value: row }) => {
                assert.holds(false);
                Err(FromRowError(row))
            }
        },
    }
}

/// Asserts what a row of goods converts to; where it doesn't, that it is given back with all its cells.
fn assert_converts<T: FromRow + PartialEq + Drop>(
    assert: &impl Assert,
    alloc: Global,
    names: &[&[u8]],
    payload: &[u8],
    wanted: Option<&T>,
) {
    let row = row_of(assert, alloc, names, payload);
    match converted::<T>(assert, alloc, row_of(assert, alloc, names, payload)) {
        Ok(x) => match wanted {
            Some(wanted) => assert.holds(x == *wanted),
            None => assert.holds(false),
        },
        Err(error) => {
            assert.holds(wanted.is_none());
            assert_same(assert, &error.0, &row);
            drop(error);
        }
    }
    drop(row);
}

/// A text; a number, a text and NULL; a row by itself; a number, alone and as a tuple.
#[test]
fn rows_handed_over(rt: HostRuntime) {
    let assert = Asserting(&rt);
    let alloc = rt.alloc();
    let name = string(&assert, alloc, "apple");
    assert_converts(&assert, alloc, &GOODS[..1], b"\x05apple", Some(&name));
    let good = (7u32, name, None::<i64>);
    assert_converts(&assert, alloc, &GOODS, APPLE, Some(&good));
    drop(good);
    let whole = row_of(&assert, alloc, &GOODS, APPLE);
    assert_converts(&assert, alloc, &GOODS, APPLE, Some(&whole));
    drop(whole);
    assert_converts(&assert, alloc, &GOODS[..1], b"\x017", Some(&7u32));
    assert_converts(&assert, alloc, &GOODS[..1], b"\x017", Some(&(7i8,)));
}

/// Another number of columns, a text that is no number, NULL, and bytes that are no text.
#[test]
fn rows_given_back(rt: HostRuntime) {
    let assert = Asserting(&rt);
    let alloc = rt.alloc();
    assert_converts::<(u32, String)>(&assert, alloc, &GOODS, APPLE, None);
    assert_converts::<(u32, String, i64)>(&assert, alloc, &GOODS, APPLE, None);
    assert_converts::<(String, u32, Option<i64>)>(&assert, alloc, &GOODS, APPLE, None);
    assert_converts::<u32>(&assert, alloc, &GOODS, APPLE, None);
    assert_converts::<u32>(&assert, alloc, &GOODS[..1], b"\xfb", None);
    assert_converts::<String>(&assert, alloc, &GOODS[..1], b"\x01\xff", None);
}

/// A good by its number and its name.
#[derive(PartialEq, Drop)]
struct Item {
    id: u32,
    name: String,
}

impl FromRow for Item {
    ghost Shown = { ℕ × List ℕ };

    ghost shown = { λ item. (item.id, string_bytes item.name) };

    ghost converted = { ⟦<(u32, String) as FromRow>⟧.converted };

    fn from_row_ref_opt(alloc: Global, row: &Row) -> Result<Item, RowConversionError> {
        let (id, name) = <(u32, String)>::from_row_ref_opt(alloc, row)?;
        Ok(Item { id, name })
    }
}

/// The same of a row with any columns, by two of their names.
#[derive(PartialEq, Drop)]
struct Named(Item);

impl FromRow for Named {
    ghost Shown = { ℕ × List ℕ };

    ghost shown = { λ named. (named.0.id, string_bytes named.0.name) };

    ghost converted = { λ row. both
        (named_as ⟦<u32 as FromValue>⟧.converted row (codes "id"))
        (named_as ⟦<String as FromValue>⟧.converted row (codes "name")) };

    fn from_row_ref_opt(alloc: Global, row: &Row) -> Result<Named, RowConversionError> {
        Ok(Named(Item {
            id: from_cell(alloc, row, "id")?,
            name: from_cell(alloc, row, "name")?,
        }))
    }
}

fn made_item(assert: &impl Assert, alloc: Global, id: u32, name: &str) -> Item {
    Item {
        id,
        name: string(assert, alloc, name),
    }
}

/// By a tuple the row has two columns; by names it may have more.
#[test]
fn items(rt: HostRuntime) {
    let assert = Asserting(&rt);
    let alloc = rt.alloc();
    let apple = made_item(&assert, alloc, 7, "apple");
    assert_converts(&assert, alloc, &GOODS[..2], b"\x017\x05apple", Some(&apple));
    drop(apple);
    assert_converts::<Item>(&assert, alloc, &GOODS, b"\x018\x04pear\x0212", None);
    let pear = Named(made_item(&assert, alloc, 8, "pear"));
    assert_converts(&assert, alloc, &GOODS, b"\x018\x04pear\x0212", Some(&pear));
    drop(pear);
    assert_converts::<Named>(&assert, alloc, &GOODS[1..], b"\x018\x04pear", None);
}

/// A reader of text rows with columns of these names.
fn reader_of(alloc: Global, names: &[&[u8]]) -> Result<RowReader, AllocError> {
    RowReader::new(alloc, columns_of(alloc, names)?, RowFormat::Text)
}

/// Nothing is copied of a row that is lent.
#[test]
fn lent_rows(rt: HostRuntime) {
    let assert = Asserting(&rt);
    let alloc = rt.alloc();
    let (first, second) = (reader_of(alloc, &GOODS), reader_of(alloc, &GOODS));
    let mut reader = once_more(&assert, first, second);
    match reader.row(APPLE) {
        Ok(row) => {
            let is_apple = (from_row_ref::<(u32, &str, Option<i64>)>(&row)
                == Some((7, "apple", None)))
                & (from_row_ref::<(u32, &str, i64)>(&row) == None)
                & (from_row_ref::<(u32, &str)>(&row) == None)
                & (from_row_ref::<u32>(&row) == None);
            assert.holds(is_apple)
        }
        Err(_) => assert.holds(false),
    }
    drop(reader);
    let (first, second) = (reader_of(alloc, &GOODS[..1]), reader_of(alloc, &GOODS[..1]));
    let mut reader = once_more(&assert, first, second);
    match reader.row(b"\x05apple") {
        Ok(row) => assert.holds(from_row_ref::<&str>(&row) == Some("apple")),
        Err(_) => assert.holds(false),
    }
    drop(reader);
}
