//! The trait of types that rows convert to.
//!
//!     let (id, name) = <(u32, String)>::from_row_ref_opt(alloc, &row)?;

ghost use Rattle.std.specs.Prelude.{◌≡◌, ◌≢◌, ◌⊎◌, IfErr, IfOk, IsSome, None, OnOk, Option, Some, length};
ghost use Rattle.mysql_rows.specs.Rows.{Row as RowOf};
ghost use Rattle.mysql_rows.specs.Views.{row_view};
ghost use Rattle.mysql_from_row.specs.FromRow.{cell_as};
ghost use Rattle.mysql_from_row.specs.declared.errors.RowConversionError.TheVariants as row_conversion_error;

use crate::errors::{FromRowError, RowConversionError};
use mysql_convert::FromValue;
use mysql_rows::{ColumnIndex, Row};
use std::alloc::{AllocFailed, Global};

/// A type that a [`Row`] converts to.
///
/// A tuple of one to twelve values is read from a row of as many columns. Each value is read from
/// the cell at its place, as `FromValue` says. A value by itself, as a number or a text
/// ([`SingleValue`](crate::SingleValue)), is read from a row of one column, and a [`Row`] is any
/// row.
///
/// An impl says by `converted` what each row converts to. One for a type of one's own takes a tuple
/// apart, or reads cells by their columns' names with [`from_cell`]:
///
///     impl FromRow for Item {
///         ghost Shown = { ℕ × List ℕ };
///         ghost shown = { λ item. (item.id, string_bytes item.name) };
///         ghost converted = { ⟦<(u32, String) as FromRow>⟧.converted };
///         fn from_row_ref_opt(alloc: Global, row: &Row) -> Result<Item, RowConversionError> {
///             let (id, name) = <(u32, String)>::from_row_ref_opt(alloc, row)?;
///             Ok(Item { id, name })
///         }
///     }
///
/// Promise: a tuple is answered exactly where the row has as many columns and each cell converts.
/// It then has what each cell converts to (`of_columns`, `numbered_as`).
pub trait FromRow: Sized {
    // what this is, apart from where it lies
    ghost Shown: { Type 0 };

    ghost shown: { Self → Shown };

    // what a row converts to, if it converts
    ghost converted: { RowOf → Option Shown };

    /// Converts a row that stays as it is; texts and bytes are copied.
    ///
    /// Promise: the result is the one that the type's definition says, of callers' impls too;
    /// `Mismatch` is answered exactly where there is none.
    ///
    /// # Errors
    /// - `Mismatch` where the row doesn't convert.
    /// - `Memory`.
    fn from_row_ref_opt(alloc: Global, row: &Row) -> Result<Self, RowConversionError>
        ensures ok { IfOk result (λ x. converted (row_view row.now) ≡ Some (shown x)) }
        ensures err { IfErr result (λ e. (e ≡ row_conversion_error.Memory) ⊎
            ((e ≡ row_conversion_error.Mismatch) × (converted (row_view row.now) ≡ None))) };

    /// Converts a row that is handed over.
    ///
    /// An impl may spare the copies of `from_row_ref_opt`.
    ///
    /// Promise: the result is that of `from_row_ref_opt`; after an error the row is given back with
    /// all its columns and cells.
    ///
    /// # Errors
    /// - `AllocFailed`, outermost, for want of memory alone, with the row.
    /// - `FromRowError` with the row, where it doesn't convert.
    fn from_row_opt(alloc: Global, row: Row) -> Result<Result<Self, FromRowError>, AllocFailed<Row>>
        ensures ok { IfOk result (λ answer. IfOk answer (λ x. converted (row_view row) ≡ Some (shown x))) }
        ensures err { IfOk result (λ answer. IfErr answer (λ e. (converted (row_view row) ≡ None) ×
            (row_view e.0 ≡ row_view row))) }
        ensures memory { IfErr result (λ e. row_view e.value ≡ row_view row) }
    {
        match Self::from_row_ref_opt(alloc, &row) {
            Ok(x) => Ok(Ok(x)),
            Err(RowConversionError::Mismatch) => Ok(Err(FromRowError(row))),
            Err(RowConversionError::Memory) => Err(AllocFailed { value: row }),
        }
    }

    /// Converts a row that converts, as `from_row_opt` tells.
    ///
    /// # Errors
    /// - `AllocFailed` for want of memory, with the row.
    final fn from_row(alloc: Global, row: Row) -> Result<Self, AllocFailed<Row>>
        requires { IsSome (converted (row_view row)) }
        ensures ok { IfOk result (λ x. converted (row_view row) ≡ Some (shown x)) }
        ensures memory { IfErr result (λ e. row_view e.value ≡ row_view row) }
    {
        match Self::from_row_opt(alloc, row)? {
            Ok(x) => Ok(x),
            Err(_) => unreachable!(),
        }
    }
}

/// A row is any row. One that is handed over is not copied.
impl FromRow for Row {
    ghost Shown = { RowOf };

    ghost shown = { row_view };

    ghost converted = { λ row. Some row };

    fn from_row_ref_opt(alloc: Global, row: &Row) -> Result<Row, RowConversionError> {
        Ok(row.clone(alloc)?)
    }

    fn from_row_opt(
        _alloc: Global,
        row: Row,
    ) -> Result<Result<Row, FromRowError>, AllocFailed<Row>> {
        Ok(Ok(row))
    }
}

/// Converts a row that converts, as [`from_row_opt`] tells.
///
/// # Errors
/// - `AllocFailed` for want of memory, with the row.
pub fn from_row<T: FromRow>(alloc: Global, row: Row) -> Result<T, AllocFailed<Row>>
    requires { IsSome (T.converted (row_view row)) }
    ensures ok { IfOk result (λ x. T.converted (row_view row) ≡ Some (T.shown x)) }
    ensures memory { IfErr result (λ e. row_view e.value ≡ row_view row) }
{
    T::from_row(alloc, row)
}

/// Converts a row that is handed over.
///
/// # Errors
/// - `AllocFailed`, outermost, for want of memory alone, with the row.
/// - `FromRowError` with the row, where it doesn't convert.
pub fn from_row_opt<T: FromRow>(
    alloc: Global,
    row: Row,
) -> Result<Result<T, FromRowError>, AllocFailed<Row>>
    ensures ok { IfOk result (λ answer. IfOk answer (λ x. T.converted (row_view row) ≡ Some (T.shown x))) }
    ensures err { IfOk result (λ answer. IfErr answer (λ e. (T.converted (row_view row) ≡ None) ×
        (row_view e.0 ≡ row_view row))) }
    ensures memory { IfErr result (λ e. row_view e.value ≡ row_view row) }
{
    T::from_row_opt(alloc, row)
}

/// Converts a copy of the value in a cell, for an impl of [`FromRow`].
///
/// The cell is named by its number, from 0 on, or by its column's name.
///
/// # Errors
/// - `Mismatch` where there is no such column, its value was taken, or it doesn't convert.
/// - `Memory`.
pub fn from_cell<T: FromValue, I: ColumnIndex>(
    alloc: Global,
    row: &Row,
    index: I,
) -> Result<T, RowConversionError>
    ensures ok { IfOk result (λ x. cell_as T.converted (row_view row.now)
        (I.place index (row_view row.now).columns) ≡ Some (T.shown x)) }
    ensures err { IfErr result (λ e. (e ≡ row_conversion_error.Memory) ⊎
        ((e ≡ row_conversion_error.Mismatch) × (cell_as T.converted (row_view row.now)
        (I.place index (row_view row.now).columns) ≡ None))) }
{
    let Some(value) = row.value_at(index) else {
        return Err(RowConversionError::Mismatch);
    };
    match T::from_value_ref_opt(alloc, value)? {
        Ok(x) => Ok(x),
        Err(_) => Err(RowConversionError::Mismatch),
    }
}

/// Whether a row has so many columns. Refuses `Mismatch`.
pub(crate) fn has_columns(row: &Row, count: usize) -> Result<(), RowConversionError>
    ensures ok { OnOk result (length (row_view row.now).columns ≡ count) }
    ensures err { IfErr result (λ e. (e ≡ row_conversion_error.Mismatch) ×
        (length (row_view row.now).columns ≢ count)) }
{
    if row.len() == count {
        Ok(())
    } else {
        Err(RowConversionError::Mismatch)
    }
}
