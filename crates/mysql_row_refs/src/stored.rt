//! What keeps rows.

use crate::place::CellPlace;
use mysql_columns::Column;
use std::marker::Model;
use std::rc::RcSlice;

/// Rows of one result set that are kept, as `mysql_store_result` keeps them.
///
/// The bytes of all payloads stand in one list, where each of them ends in another, and the places
/// of all cells in a third. Memory is asked for where these grow, and never for a row or a cell.
///
///     let mut stored = StoredRows::new(alloc, columns);
///     stored.push(&reader.row(payload)?)?;
///     let id: Option<Result<u64, _>> = stored.row(0)?.get_opt(0);
///
/// A row takes the bytes of its payload, 16 bytes a cell, and 8 more.
///
/// Promise: it stands for its columns and the list of its rows; `push` puts a row's cells behind
/// the others, or changes nothing (`ResultSet`).
///
/// MySQL: C API, `mysql_store_result()`.
#[derive(Drop)]
pub struct StoredRows {
    pub(crate) columns: RcSlice<Column>,
    pub(crate) payloads: Vec<u8>,
    pub(crate) payload_ends: Vec<usize>,
    pub(crate) places: Vec<CellPlace>,
}

impl Model for StoredRows {
    ghost use Rattle.std.specs.Prelude.{length};
    ghost use Rattle.mysql_rows.specs.Views.{shared_columns};
    ghost use Rattle.mysql_row_refs.specs.StoredRows.{AreKept, ResultSet, rows_kept};

    ghost Value = { ResultSet };

    ghost view = { λ s. record {
      columns = shared_columns s.columns;
      rows =
          rows_kept (shared_columns s.columns) s.payloads.items s.payload_ends.items s.places.items;
    } };

    ghost invariant = { λ s. AreKept (length (shared_columns s.columns)) s.payloads.items
        s.payload_ends.items s.places.items };
}
