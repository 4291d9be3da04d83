//! Rows of one column as the value in it.

ghost use Rattle.std.specs.Prelude.{◌≡◌, IfErr, IfOk, None, Some};
ghost use Rattle.mysql_rows.specs.Views.{row_view};
ghost use Rattle.mysql_from_row.specs.FromRow.{numbered_as, of_columns};

use crate::convert::{FromRow, from_cell, has_columns};
use crate::errors::{FromRowError, RowConversionError};
use mysql_cells::Value;
use mysql_convert::{FromValue, FromValueError};
use mysql_rows::Row;
use std::alloc::{AllocFailed, Global};
use std::borrow::{CowSlice, CowStr};
use std::time::Duration;

/// A type that a row of one column converts to by itself, as its only value does.
///
/// Each type of [`FromValue`] in this library is one. A type of one's own becomes one by an empty
/// impl; without it `(T,)` does the same.
pub trait SingleValue: FromValue {}

impl SingleValue for bool {}

impl SingleValue for i8 {}

impl SingleValue for i16 {}

impl SingleValue for i32 {}

impl SingleValue for i64 {}

impl SingleValue for i128 {}

impl SingleValue for isize {}

impl SingleValue for u8 {}

impl SingleValue for u16 {}

impl SingleValue for u32 {}

impl SingleValue for u64 {}

impl SingleValue for u128 {}

impl SingleValue for usize {}

impl SingleValue for Duration {}

impl SingleValue for String {}

impl SingleValue for CowStr<'static, Global> {}

impl SingleValue for Vec<u8> {}

impl SingleValue for CowSlice<'static, u8, Global> {}

impl<const N: usize> SingleValue for [u8; N] {}

impl SingleValue for Value {}

impl<T: FromValue> SingleValue for Option<T> {}

/// Converts the value of a row of one column, which is moved; the row where it doesn't convert.
fn only_value<T: FromValue>(mut row: Row) -> Result<T, Row>
    ensures ok { IfOk result (λ x. of_columns 1 (row_view row) (numbered_as T.converted (row_view row) 0) ≡
        Some (T.shown x)) }
    ensures none { IfErr result (λ _. of_columns 1 (row_view row) (numbered_as T.converted (row_view row) 0) ≡ None) }
    ensures kept { IfErr result (λ kept. row_view kept ≡ row_view row) }
{
    if row.len() != 1 {
        return Err(row);
    }
    let Some(value) = row.take_value(0usize) else {
        return Err(row);
    };
    match T::from_value_opt(value) {
        Ok(x) => Ok(x),
        Err(FromValueError(value)) => {
            row.place(0, value);
            Err(row)
        }
    }
}

/// A value that is handed over is moved, and asks for no memory.
impl<T: SingleValue> FromRow for T {
    ghost Shown = { T.Shown };

    ghost shown = { T.shown };

    ghost converted = { λ row. of_columns 1 row (numbered_as T.converted row 0) };

    fn from_row_ref_opt(alloc: Global, row: &Row) -> Result<T, RowConversionError> {
        has_columns(row, 1)?;
        from_cell(alloc, row, 0usize)
    }

    fn from_row_opt(_alloc: Global, row: Row) -> Result<Result<T, FromRowError>, AllocFailed<Row>> {
        match only_value(row) {
            Ok(x) => Ok(Ok(x)),
            Err(row) => Ok(Err(FromRowError(row))),
        }
    }
}
