//! Conversions of a row's cells.

ghost use Rattle.std.specs.Prelude.{◌≡◌, IfOk, IfSome, IsSome};
ghost use Rattle.std.specs.Option.{option_and_then, option_map};
ghost use Rattle.mysql_rows.specs.Rows.{Row as RowOf, cell_at, without_cell};
ghost use Rattle.mysql_rows.specs.Views.{row_view};
ghost use Rattle.mysql_from_row.specs.Answers.{answer_view, converted_or_value};

use mysql_convert::{FromValue, FromValueError};
use mysql_rows::{ColumnIndex, Row};
use std::alloc::{AllocError, Global};

/// Conversions of the cells of a [`Row`]. It stands in place of methods of `Row`, a type of another
/// crate.
///
/// A cell is named by its number, from 0 on, or by its column's name.
pub trait RowExt {
    // the row
    ghost row: { Self → RowOf };

    /// A copy of the value in a cell, converted to `T`.
    ///
    /// None where there is no such column, or its value was taken. Where the value doesn't convert
    /// the error holds it.
    ///
    /// Promise: None exactly where there is no such column or its value was taken. Else it is what
    /// the value converts to, or the very value. The row stays as it is.
    ///
    /// # Errors
    /// - `AllocError` for want of memory.
    fn get_opt<T: FromValue, I: ColumnIndex>(
        &self,
        alloc: Global,
        index: I,
    ) -> Result<Option<Result<T, FromValueError>>, AllocError>
        ensures { IfOk result (λ answer. option_map (answer_view T.shown) answer ≡
            option_map (converted_or_value T.converted)
            (cell_at (row self.now) (I.place index (row self.now).columns))) };

    /// A copy of the value in a cell, converted to `T`, where it converts.
    ///
    /// It is what [`get_opt`](Self::get_opt) answers. None where there is no such column, or its
    /// value was taken.
    ///
    /// # Errors
    /// - `AllocError` for want of memory.
    fn get<T: FromValue, I: ColumnIndex>(
        &self,
        alloc: Global,
        index: I,
    ) -> Result<Option<T>, AllocError>
        requires { IfSome (cell_at (row self.now) (I.place index (row self.now).columns))
            (λ value. IsSome (T.converted value)) }
        ensures { IfOk result (λ answer. option_map T.shown answer ≡
            option_and_then T.converted
            (cell_at (row self.now) (I.place index (row self.now).columns))) };

    /// Takes the value out of a cell and converts it to `T`.
    ///
    /// None where there is no such column, or its value was taken. Where the value doesn't convert
    /// it is taken all the same, and the error holds it.
    ///
    /// Promise: the answer is that of [`get_opt`](Self::get_opt), and the cell is empty then, also
    /// where the value doesn't convert.
    fn take_opt<T: FromValue, I: ColumnIndex>(
        &mut self,
        index: I,
    ) -> Option<Result<T, FromValueError>>
        ensures value { option_map (answer_view T.shown) result ≡
            option_map (converted_or_value T.converted)
            (cell_at (row self.old) (I.place index (row self.old).columns)) }
        ensures taken { row self.new ≡
            without_cell (row self.old) (I.place index (row self.old).columns) };

    /// Takes the value out of a cell and converts it to `T`, where it converts.
    ///
    /// None where there is no such column, or its value was taken.
    fn take<T: FromValue, I: ColumnIndex>(&mut self, index: I) -> Option<T>
        requires { IfSome (cell_at (row self.old) (I.place index (row self.old).columns))
            (λ value. IsSome (T.converted value)) }
        ensures value { option_map T.shown result ≡
            option_and_then T.converted
            (cell_at (row self.old) (I.place index (row self.old).columns)) }
        ensures taken { row self.new ≡
            without_cell (row self.old) (I.place index (row self.old).columns) };
}

impl RowExt for Row {
    ghost row = { row_view };

    #[inline(always)]
    fn get_opt<T: FromValue, I: ColumnIndex>(
        &self,
        alloc: Global,
        index: I,
    ) -> Result<Option<Result<T, FromValueError>>, AllocError> {
        match self.value_at(index) {
            Some(value) => Ok(Some(T::from_value_ref_opt(alloc, value)?)),
            None => Ok(None),
        }
    }

    #[inline(always)]
    fn get<T: FromValue, I: ColumnIndex>(
        &self,
        alloc: Global,
        index: I,
    ) -> Result<Option<T>, AllocError> {
        match self.value_at(index) {
            Some(value) => match T::from_value_ref_opt(alloc, value)? {
                Ok(x) => Ok(Some(x)),
                Err(_) => unreachable!(),
            },
            None => Ok(None),
        }
    }

    fn take_opt<T: FromValue, I: ColumnIndex>(
        &mut self,
        index: I,
    ) -> Option<Result<T, FromValueError>> {
        match self.take_value(index) {
            Some(value) => Some(T::from_value_opt(value)),
            None => None,
        }
    }

    fn take<T: FromValue, I: ColumnIndex>(&mut self, index: I) -> Option<T> {
        match self.take_value(index) {
            Some(value) => Some(T::from_value(value)),
            None => None,
        }
    }
}
