//! Rows that borrow their payloads.

ghost use Rattle.std.specs.Prelude.{◌≡◌, length, true};
ghost use Rattle.std.specs.List.{list_all};
ghost use Rattle.std.specs.Rc.{rc_slice_items};
ghost use Rattle.mysql_row_refs.specs.Places.{is_inside};

use crate::place::CellPlace;
use mysql_columns::Column;
use std::rc::RcSlice;

/// A row of a result set that borrows its payload: a cell for each column.
///
/// MySQL: Client/Server Protocol, "Text Resultset Row" and "Binary Protocol Resultset Row".
#[derive(Clone, Copy)]
pub struct RowRef<'r, 'p> {
    pub(crate) payload: &'p [u8],
    pub(crate) columns: &'r RcSlice<Column>,
    pub(crate) places: &'r [CellPlace],
    ghost inside: { list_all (is_inside payload.now) places.now ≡ true },
    ghost as_long: { length places.now ≡ length (rc_slice_items columns.now) },
}
