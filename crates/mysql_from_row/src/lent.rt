//! The trait of types that rows convert to where they lie.
//!
//!     let (id, name) = from_row_ref::<(u32, &str)>(&row)?;

ghost use Rattle.std.specs.Prelude.{◌≡◌, ◌≢◌, IfNone, OnSome, Option, length};
ghost use Rattle.std.specs.Option.{option_map};
ghost use Rattle.mysql_rows.specs.Rows.{Row as RowOf};
ghost use Rattle.mysql_row_refs.specs.RowRefs.{row_ref_view};
ghost use Rattle.mysql_from_row.specs.FromRow.{cell_as};

use crate::FromValueRef;
use mysql_row_refs::RowRef;
use mysql_rows::ColumnIndex;

/// A type that a [`RowRef`] converts to, with no bytes copied but an array's.
///
/// It goes by the rules of [`FromRow`](crate::FromRow), and by [`FromValueRef`] for each value:
/// tuples of one to twelve values, and values by themselves
/// ([`SingleValueRef`](crate::SingleValueRef)).
pub trait FromRowRef<'p>: Sized {
    // what this is, apart from where it lies
    ghost Shown: { Type 0 };

    ghost shown: { Self → Shown };

    // what a row converts to, if it converts
    ghost converted: { RowOf → Option Shown };

    /// Converts a row; None where it doesn't convert.
    ///
    /// Promise: the result is the one that the type's definition says, of callers' impls too, and
    /// None exactly where there is none. No memory is asked for.
    fn from_row_ref(row: &RowRef<'_, 'p>) -> Option<Self>
        ensures { option_map shown result ≡ converted (row_ref_view row.now) };
}

/// Converts a row where it lies; None where it doesn't convert.
pub fn from_row_ref<'p, T: FromRowRef<'p>>(row: &RowRef<'_, 'p>) -> Option<T>
    ensures { option_map T.shown result ≡ T.converted (row_ref_view row.now) }
{
    T::from_row_ref(row)
}

/// Converts the value in a cell where it lies, for an impl of [`FromRowRef`].
///
/// The cell is named by its number, from 0 on, or by its column's name. None where there is no such
/// column, or its value doesn't convert.
pub fn from_cell_ref<'p, T: FromValueRef<'p>, I: ColumnIndex>(
    row: &RowRef<'_, 'p>,
    index: I,
) -> Option<T>
    ensures { option_map T.shown result ≡ cell_as T.converted (row_ref_view row.now)
        (I.place index (row_ref_view row.now).columns) }
{
    T::from_value_ref(row.get(index)?)
}

/// Whether a row has so many columns.
pub(crate) fn has_lent_columns(row: &RowRef, count: usize) -> Option<()>
    ensures some { OnSome result (length (row_ref_view row.now).columns ≡ count) }
    ensures none { IfNone result (length (row_ref_view row.now).columns ≢ count) }
{
    if row.len() == count { Some(()) } else { None }
}
