//! Values of lent cells that stand one behind another, as pairs of the first and the others.

ghost use Rattle.std.specs.Prelude.{◌≡◌, ◌+◌, ◌<◌, ◌^◌, Option, ℕ};
ghost use Rattle.std.specs.Option.{option_map};
ghost use Rattle.mysql_rows.specs.Rows.{Row as RowOf};
ghost use Rattle.mysql_row_refs.specs.RowRefs.{row_ref_view};
ghost use Rattle.mysql_from_row.specs.FromRow.{both, numbered_as};

use crate::FromValueRef;
use crate::lent::from_cell_ref;
use mysql_row_refs::RowRef;

/// Values of lent cells that stand one behind another.
pub(crate) trait LentCells<'p>: Sized {
    // how many cells
    ghost count: { ℕ };

    ghost Shown: { Type 0 };

    ghost shown: { Self → Shown };

    // what the cells from this number on convert to
    ghost converted: { RowOf → ℕ → Option Shown };

    /// Converts the values in the cells from this number on.
    fn from_cells(row: &RowRef<'_, 'p>, first: usize) -> Option<Self>
        requires { first + count < 2 ^ 64 }
        ensures { option_map shown result ≡ converted (row_ref_view row.now) first };
}

impl<'p, A: FromValueRef<'p>> LentCells<'p> for (A,) {
    ghost count = { 1 };

    ghost Shown = { A.Shown };

    ghost shown = { λ tuple. A.shown tuple.0 };

    ghost converted = { numbered_as A.converted };

    fn from_cells(row: &RowRef<'_, 'p>, first: usize) -> Option<(A,)> {
        Some((from_cell_ref(row, first)?,))
    }
}

impl<'p, A: FromValueRef<'p> + Drop, B: LentCells<'p>> LentCells<'p> for (A, B) {
    ghost count = { B.count + 1 };

    ghost Shown = { A.Shown × B.Shown };

    ghost shown = { λ tuple. (A.shown tuple.0, B.shown tuple.1) };

    ghost converted = { λ row first. both (numbered_as A.converted row first) (B.converted row (first + 1)) };

    fn from_cells(row: &RowRef<'_, 'p>, first: usize) -> Option<(A, B)> {
        let value = from_cell_ref(row, first)?;
        Some((value, B::from_cells(row, first + 1)?))
    }
}
