//! What is read of rows by reference.

ghost use Rattle.std.specs.Prelude.{◌≡◌, ◌==◌, IfOk, Some, length, slice_get};
ghost use Rattle.std.specs.Option.{option_map};
ghost use Rattle.mysql_rows.specs.Rows.{cell_at};
ghost use Rattle.mysql_rows.specs.Views.{column_views, shared_columns};
ghost use Rattle.mysql_row_refs.specs.Places.{value_of};
ghost use Rattle.mysql_row_refs.specs.RowRefs.{row_ref_view};

use crate::place::{CellPlace, value_at};
use crate::row_ref::RowRef;
use crate::value_ref::ValueRef;
use mysql_columns::Column;
use mysql_rows::ColumnIndex;
use std::alloc::AllocError;
use std::rc::RcSlice;

/// The place of the cell of this number, if there is one.
#[inline(always)]
fn place_at(places: &[CellPlace], index: usize) -> Option<CellPlace>
    ensures { result ≡ slice_get places.now index }
{
    match places.get(index) {
        Some(place) => Some(*place),
        None => None,
    }
}

impl<'r, 'p> RowRef<'r, 'p> {
    /// How many cells there are: as many as columns.
    pub fn len(&self) -> usize
        ensures cells { result ≡ length (row_ref_view self.now).cells }
        ensures columns { result ≡ length (row_ref_view self.now).columns }
    {
        self.places.len()
    }

    /// Whether there are no cells.
    pub fn is_empty(&self) -> bool
        ensures { result ≡ (length (row_ref_view self.now).cells == 0) }
    {
        self.places.is_empty()
    }

    /// The columns.
    pub fn columns_ref(&self) -> &'r [Column]
        ensures { column_views result.now ≡ (row_ref_view self.now).columns }
    {
        self.columns.as_slice()
    }

    /// The columns, shared, as a [`StoredRows`](crate::StoredRows) takes them.
    ///
    /// # Errors
    /// - `AllocError` for want of memory.
    pub fn columns(&self) -> Result<RcSlice<Column>, AllocError>
        ensures { IfOk result (λ columns. shared_columns columns ≡ (row_ref_view self.now).columns) }
    {
        self.columns.clone()
    }

    /// The value of the cell of this number; it borrows its bytes of the payload.
    ///
    /// None where there is no such cell.
    #[inline(always)]
    pub fn as_ref(&self, index: usize) -> Option<ValueRef<'p>>
        ensures { option_map value_of result ≡ cell_at (row_ref_view self.now) (Some index) }
    {
        match place_at(self.places, index) {
            Some(place) => Some(value_at(self.payload, place)),
            None => None,
        }
    }

    /// The value of the cell that a number or a name names; it borrows its bytes of the payload.
    ///
    /// None where there is no such column.
    #[inline(always)]
    pub fn get<I: ColumnIndex>(&self, index: I) -> Option<ValueRef<'p>>
        ensures { option_map value_of result ≡
            cell_at (row_ref_view self.now) (I.place index (row_ref_view self.now).columns) }
    {
        match index.idx(self.columns.as_slice()) {
            Some(number) => self.as_ref(number),
            None => None,
        }
    }
}
