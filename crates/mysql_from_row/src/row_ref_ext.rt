//! Conversions of cells where they lie.

ghost use Rattle.std.specs.Prelude.{◌≡◌};
ghost use Rattle.std.specs.Option.{option_map};
ghost use Rattle.mysql_rows.specs.Rows.{Row as RowOf, cell_at};
ghost use Rattle.mysql_row_refs.specs.Places.{value_of};
ghost use Rattle.mysql_row_refs.specs.RowRefs.{row_ref_view};
ghost use Rattle.mysql_from_row.specs.Answers.{converted_or_value, ref_answer_view};

use crate::from_value_ref::FromValueRef;
use mysql_row_refs::{RowRef, ValueRef};
use mysql_rows::ColumnIndex;

/// Conversions of the cells of a [`RowRef`], where they lie. It stands in place of methods of
/// `RowRef`, a type of another crate.
pub trait RowRefExt<'p>: Sized {
    // the row
    ghost row: { Self → RowOf };

    /// The value of the cell that a number or a name names, as [`RowRef::get`] gives it.
    fn value_at<I: ColumnIndex>(&self, index: I) -> Option<ValueRef<'p>>
        ensures { option_map value_of result ≡
            cell_at (row self.now) (I.place index (row self.now).columns) };

    /// The value in the cell that a number or a name names, converted to `T` where it lies.
    ///
    /// None where there is no such column. Where the value doesn't convert the error is the value.
    ///
    /// Promise: None exactly where there is no such column, else what the value converts to, or the
    /// very value; no memory is asked for.
    #[inline(always)]
    final fn get_opt<T: FromValueRef<'p>, I: ColumnIndex>(
        &self,
        index: I,
    ) -> Option<Result<T, ValueRef<'p>>>
        ensures { option_map (ref_answer_view T.shown) result ≡
            option_map (converted_or_value T.converted)
            (cell_at (row self.now) (I.place index (row self.now).columns)) }
    {
        match self.value_at(index) {
            Some(value) => match T::from_value_ref(value) {
                Some(x) => Some(Ok(x)),
                None => Some(Err(value)),
            },
            None => None,
        }
    }
}

impl<'r, 'p> RowRefExt<'p> for RowRef<'r, 'p> {
    ghost row = { row_ref_view };

    #[inline(always)]
    fn value_at<I: ColumnIndex>(&self, index: I) -> Option<ValueRef<'p>> {
        self.get(index)
    }
}
