//! How rows are kept, and borrowed again.

ghost use Rattle.std.specs.Prelude.{◌≡◌, ◌==◌, ◌+◌, ◌*◌, ◌<◌, ◌≤◌, ◌++◌, ◌∷◌, [], OnErr, OnOk, get_or, length};
ghost use Rattle.std.specs.Prelude.{slice_get};
ghost use Rattle.std.specs.Option.{option_map};
ghost use Rattle.mysql_rows.specs.Views.{column_views, shared_columns};
ghost use Rattle.mysql_row_refs.specs.RowRefs.{row_ref_view};
ghost use Rattle.mysql_row_refs.specs.StoredRows.{AreKept, no_rows, payload_of, payload_start, places_of, row_kept};
ghost use Rattle.mysql_row_refs.specs.StoredRows.{with_row};

use crate::place::CellPlace;
use crate::row_ref::RowRef;
use crate::stored::StoredRows;
use mysql_columns::Column;
use std::alloc::{AllocError, Global};
use std::rc::RcSlice;

/// Where the payload of the row of this number begins.
#[inline(always)]
fn start_at(ends: &[usize], index: usize) -> usize
    requires { index ≤ length ends.now }
    ensures { result ≡ payload_start ends.now index }
{
    if index == 0 { 0 } else { ends[index - 1] }
}

/// The payload of the row of this number.
#[inline(always)]
fn payload_at<'r>(payloads: &'r [u8], ends: &[usize], index: usize) -> &'r [u8]
    requires index { index < length ends.now }
    requires starts { payload_start ends.now index ≤ get_or ends.now index 0 }
    requires within { get_or ends.now index 0 ≤ length payloads.now }
    ensures { result.now ≡ payload_of payloads.now ends.now index }
{
    &payloads[start_at(ends, index)..ends[index]]
}

/// The places of the cells of the row of this number, where each row has so many.
#[inline(always)]
fn places_at<'r>(count: usize, places: &'r [CellPlace], index: usize) -> &'r [CellPlace]
    requires { index * count + count ≤ length places.now }
    ensures { result.now ≡ places_of count places.now index }
{
    let start = index * count;
    &places[start..start + count]
}

/// The row of this number, which borrows these lists.
#[inline(always)]
fn row_at<'r>(
    columns: &'r RcSlice<Column>,
    payloads: &'r [u8],
    ends: &[usize],
    places: &'r [CellPlace],
    index: usize,
) -> RowRef<'r, 'r>
    requires index { index < length ends.now }
    requires kept { AreKept (length (shared_columns columns.now)) payloads.now ends.now places.now }
    ensures { row_ref_view result ≡ row_kept (shared_columns columns.now) payloads.now ends.now places.now index }
{
    RowRef {
        payload: payload_at(payloads, ends, index),
        columns,
        places: places_at(columns.len(), places, index),
    }
}

/// Appends a row's payload and the places of its cells. Where memory is refused nothing is appended.
#[inline(always)]
fn put_row(
    payload: &[u8],
    cells: &[CellPlace],
    payloads: &mut Vec<u8>,
    ends: &mut Vec<usize>,
    places: &mut Vec<CellPlace>,
) -> Result<(), AllocError>
    ensures payloads { OnOk result (payloads.new.items ≡ payloads.old.items ++ payload.now) }
    ensures ends { OnOk result (ends.new.items ≡ ends.old.items ++ length (payloads.old.items ++ payload.now) ∷ []) }
    ensures places { OnOk result (places.new.items ≡ places.old.items ++ cells.now) }
    ensures err { OnErr result ((payloads.new.items ≡ payloads.old.items) ×
        (ends.new.items ≡ ends.old.items) × (places.new.items ≡ places.old.items)) }
{
    ends.reserve(1)?;
    places.reserve(cells.len())?;
    payloads.extend_from_slice(payload)?;
    places.extend_from_slice(cells)?;
    ends.push_reserved(payloads.len());
    Ok(())
}

impl StoredRows {
    /// No rows, under these columns. No memory is asked for.
    pub fn new(alloc: Global, columns: RcSlice<Column>) -> StoredRows
        ensures { result ≡ no_rows (shared_columns columns) }
    {
        StoredRows {
            columns,
            payloads: Vec::new(alloc),
            payload_ends: Vec::new(alloc),
            places: Vec::new(alloc),
        }
    }

    /// Keeps a row, behind the others, under these columns: it has to have as many.
    ///
    /// # Errors
    /// - `AllocError` for want of memory. Nothing changes then.
    ///
    /// MySQL: Client/Server Protocol, "Text Resultset Row" and "Binary Protocol Resultset Row".
    pub fn push(&mut self, row: &RowRef) -> Result<(), AllocError>
        requires { length (row_ref_view row.now).columns ≡ length self.old.columns }
        ensures row { OnOk result (self.new ≡ with_row self.old (row_ref_view row.now)) }
        ensures err { OnErr result (self.new ≡ self.old) }
    {
        put_row(
            row.payload,
            row.places,
            &mut self.payloads,
            &mut self.payload_ends,
            &mut self.places,
        )
    }

    /// How many rows are kept.
    #[inline(always)]
    #[tactic(auto, using(crate::proofs::KeptRows::rows_len))]
    pub fn len(&self) -> usize
        ensures { result ≡ length self.now.rows }
    {
        self.payload_ends.len()
    }

    /// Whether no row is kept.
    #[inline(always)]
    pub fn is_empty(&self) -> bool
        ensures { result ≡ (length self.now.rows == 0) }
    {
        self.payload_ends.is_empty()
    }

    /// The columns.
    #[inline(always)]
    pub fn columns_ref(&self) -> &[Column]
        ensures { column_views result.now ≡ self.now.columns }
    {
        self.columns.as_slice()
    }

    /// Lets go of the rows, and keeps the memory for others.
    pub fn clear(&mut self)
        ensures { self.new ≡ no_rows self.old.columns }
    {
        self.payloads.clear();
        self.payload_ends.clear();
        self.places.clear();
    }

    /// The row of this number, from 0 on; None where there is no such row. No memory is asked for.
    #[inline(always)]
    #[tactic(auto, using(crate::proofs::KeptRows::no_row, crate::proofs::KeptRows::row_found))]
    pub fn row(&self, index: usize) -> Option<RowRef<'_, '_>>
        ensures { option_map row_ref_view result ≡ slice_get self.now.rows index }
    {
        if index >= self.payload_ends.len() {
            return None;
        }
        Some(row_at(
            &self.columns,
            self.payloads.as_slice(),
            self.payload_ends.as_slice(),
            self.places.as_slice(),
            index,
        ))
    }
}
