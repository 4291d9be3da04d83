//! Values of cells that stand one behind another, as pairs of the first and the others.

ghost use Rattle.std.specs.Prelude.{◌≡◌, ◌+◌, ◌<◌, ◌^◌, ◌⊎◌, IfErr, IfOk, None, Option, Some, ℕ};
ghost use Rattle.mysql_rows.specs.Rows.{Row as RowOf};
ghost use Rattle.mysql_rows.specs.Views.{row_view};
ghost use Rattle.mysql_from_row.specs.FromRow.{both, numbered_as};
ghost use Rattle.mysql_from_row.specs.declared.errors.RowConversionError.TheVariants as row_conversion_error;

use crate::convert::from_cell;
use crate::errors::RowConversionError;
use mysql_convert::FromValue;
use mysql_rows::Row;
use std::alloc::Global;

/// Values of cells that stand one behind another.
pub(crate) trait Cells: Sized {
    // how many cells
    ghost count: { ℕ };

    ghost Shown: { Type 0 };

    ghost shown: { Self → Shown };

    // what the cells from this number on convert to
    ghost converted: { RowOf → ℕ → Option Shown };

    /// Converts copies of the values in the cells from this number on. Refuses `Mismatch`, `Memory`.
    fn from_cells(alloc: Global, row: &Row, first: usize) -> Result<Self, RowConversionError>
        requires { first + count < 2 ^ 64 }
        ensures ok { IfOk result (λ x. converted (row_view row.now) first ≡ Some (shown x)) }
        ensures err { IfErr result (λ e. (e ≡ row_conversion_error.Memory) ⊎
            ((e ≡ row_conversion_error.Mismatch) × (converted (row_view row.now) first ≡ None))) };
}

impl<A: FromValue> Cells for (A,) {
    ghost count = { 1 };

    ghost Shown = { A.Shown };

    ghost shown = { λ tuple. A.shown tuple.0 };

    ghost converted = { numbered_as A.converted };

    fn from_cells(alloc: Global, row: &Row, first: usize) -> Result<(A,), RowConversionError> {
        Ok((from_cell(alloc, row, first)?,))
    }
}

impl<A: FromValue + Drop, B: Cells> Cells for (A, B) {
    ghost count = { B.count + 1 };

    ghost Shown = { A.Shown × B.Shown };

    ghost shown = { λ tuple. (A.shown tuple.0, B.shown tuple.1) };

    ghost converted = { λ row first. both (numbered_as A.converted row first) (B.converted row (first + 1)) };

    fn from_cells(alloc: Global, row: &Row, first: usize) -> Result<(A, B), RowConversionError> {
        let value = from_cell(alloc, row, first)?;
        Ok((value, B::from_cells(alloc, row, first + 1)?))
    }
}
