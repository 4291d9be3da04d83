//! Rows.

ghost use Rattle.std.specs.Prelude.{◌≡◌, length};
ghost use Rattle.std.specs.Rc.{rc_slice_items};

pub use crate::calls::{new_row, new_row_raw};
pub use crate::column_index::ColumnIndex;
pub use crate::deserializer::RowDeserializer;
use mysql_cells::Value;
use mysql_columns::Column;
use std::rc::RcSlice;

/// A row of a result set: a cell for each of the columns, which it shares with other rows. A cell's value can be taken
/// out, and the cell is then empty.
///
/// MySQL: Client/Server Protocol, "Text Resultset Row" and "Binary Protocol Resultset Row".
#[derive(Debug, PartialEq, Drop)]
pub struct Row {
    pub(crate) cells: Vec<Option<Value>>,
    pub(crate) columns: RcSlice<Column>,
    ghost as_long: { length cells.items ≡ length (rc_slice_items columns) },
}
