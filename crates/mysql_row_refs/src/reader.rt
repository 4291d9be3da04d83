//! What reads rows.

ghost use Rattle.std.specs.Prelude.{◌≤◌, length, vec_capacity};
ghost use Rattle.std.specs.Rc.{rc_slice_items};

use crate::format::RowFormat;
use crate::place::CellPlace;
use mysql_columns::Column;
use std::rc::RcSlice;

/// Reads the rows of one result set, one after another, each where it lies in its payload.
///
/// It keeps the list of the places of a row's cells, which is made once and used for each row
/// again.
///
///     let mut reader = RowReader::new(alloc, columns, RowFormat::Text)?;
///     let row = reader.row(payload)?;
///     let id: Option<Result<u64, _>> = row.get_opt(0);
///
/// The last line needs `RowRefExt` in scope.
///
/// Payloads come from a `PacketReader`, for instance. Its `read_in_place` hands out those that
/// stand whole in a piece of the stream. Its `read` joins the others in a buffer that is used
/// again. [`is_row`](crate::is_row) tells rows from the error or terminator that ends them.
#[derive(Drop)]
pub struct RowReader {
    pub(crate) columns: RcSlice<Column>,
    pub(crate) format: RowFormat,
    pub(crate) places: Vec<CellPlace>,
    ghost room: { length (rc_slice_items columns) ≤ vec_capacity places },
}
