//! The longest part of the rows that fits one request.
ghost use Rattle.std.specs.Prelude.{◌≡◌, ℕ, ◌+◌, ◌*◌, ◌<◌, ◌≤◌, ◌||◌, false, length, map, take, sum, None, All};
ghost use Rattle.std.specs.Prelude.{MatchBool, MatchOption, IfOk, IfErr, ◌-◌, slice_index_or, []};
ghost use Rattle.mysql_bulk_builder.specs.Causes.{row_too_large};
ghost use Rattle.mysql_bulk_builder.specs.Cut.{row_size};
ghost use Rattle.mysql_bulk_builder.specs.TypedCut.{has_value_at};
ghost use Rattle.mysql_bulk_builder.specs.Seen.{IsKnown, IsUnknown, AreSeen};
ghost use Rattle.mysql_bulk_builder.specs.RowSizes.{EachIsWithin, IsPast};
ghost use Rattle.mysql_bulk_builder.specs.TypedCut.{IsTightTypedPart, IsTightTyped};
ghost use Rattle.mysql_bulk_builder.specs.TypedCutLaws.{EachRowFitsTyped};
ghost use Rattle.mysql_bulk_builder.specs.TypedRequests.{view_part, view_parts, HasNoTypedCut};
ghost use Rattle.mysql_bulk_builder.specs.RowLists.{row_in, rows_in};

use crate::row_size::refs_size_within;
use mysql_cells::Value;
use std::alloc::{AllocError, AllocFailed, Global};

/// A part of the rows, for one request.
#[derive(Clone, Copy, Debug, PartialEq, Eq)]
pub struct BulkPart {
    pub typed: bool,
    pub count: usize,
}

/// Why rows are not cut.
#[derive(Clone, Copy, Debug, PartialEq, Eq)]
pub enum BulkCutError {
    RowTooLarge(usize),
    Memory,
}

impl From<AllocError> for BulkCutError {
    ghost use Rattle.std.specs.Prelude.{◌≡◌};
    ghost use Rattle.mysql_bulk_builder.specs.declared.search.BulkCutError.TheVariants.{Memory};

    ghost from_gives = { λ _ e. e ≡ Memory };

    fn from(_e: AllocError) -> BulkCutError {
        BulkCutError::Memory
    }
}

impl<T: Drop> From<AllocFailed<T>> for BulkCutError {
    ghost use Rattle.std.specs.Prelude.{◌≡◌};
    ghost use Rattle.mysql_bulk_builder.specs.declared.search.BulkCutError.TheVariants.{Memory};

    ghost from_gives = { λ _ e. e ≡ Memory };

    fn from(_e: AllocFailed<T>) -> BulkCutError {
        BulkCutError::Memory
    }
}

/// How many of the first rows take at most `room` bytes together, by what each takes.
fn longest_within(sizes: &[usize], room: usize) -> usize
    ensures within { result ≤ length sizes.now }
    ensures fits { sum (take result sizes.now) ≤ room }
    ensures longest { result < length sizes.now → room < sum (take (result + 1) sizes.now) }
{
    let mut left = room;
    for (i, size) in sizes.iter().enumerate() {
        if left < *size {
            return i;
        }
        left -= *size;
    }
    sizes.len()
}

/// Whether each of the row's values is in a column that was seen.
fn is_known(row: &[&Value], seen: &[bool]) -> bool
    requires { length row.now ≡ length seen.now }
    ensures { MatchBool result (IsKnown seen.now (row_in row.now)) (IsUnknown seen.now (row_in row.now)) }
{
    for (i, value) in row.iter().enumerate() {
        if !value.is_null() && !seen[i] {
            return false;
        }
    }
    true
}

/// How many of the first rows, at most `most`, have values in columns that were seen alone.
fn longest_known(rows: &[&[&Value]], seen: &[bool], most: usize) -> usize
    requires arity { All (λ row. length row.now ≡ length seen.now) rows.now }
    requires most { most ≤ length rows.now }
    ensures within { result ≤ most }
    ensures known { (k : ℕ) → k < result → IsKnown seen.now (slice_index_or (rows_in rows.now) k []) }
    ensures longest { result < most → IsUnknown seen.now (slice_index_or (rows_in rows.now) result []) }
{
    for i in 0..most {
        if !is_known(rows[i], seen) {
            return i;
        }
    }
    most
}

/// Marks the columns in which the row has a value.
fn mark(seen: &mut [bool], row: &[&Value])
    requires { length row.now ≡ length seen.old }
    ensures { (column : ℕ) → column < length seen.old → slice_index_or seen.new column false ≡
        (slice_index_or seen.old column false || has_value_at column (row_in row.now)) }
{
    for (i, value) in row.iter().enumerate() {
        if !value.is_null() {
            seen[i] = true;
        }
    }
}

/// Marks the columns in which the rows from `from` to before `to` have a value.
fn mark_rows(seen: &mut [bool], rows: &[&[&Value]], from: usize, to: usize)
    requires order { from ≤ to }
    requires within { to ≤ length rows.now }
    requires arity { All (λ row. length row.now ≡ length seen.old) rows.now }
    requires seen { AreSeen (length seen.old) (rows_in rows.now) from seen.old }
    ensures { AreSeen (length seen.old) (rows_in rows.now) to seen.new }
{
    for k in from..to {
        mark(seen, rows[k]);
    }
}

/// The longest part from a row on: untyped where that is no shorter than the longest typed one, and not the first.
fn next_part(
    rows: &[&[&Value]],
    sizes: &[usize],
    start: usize,
    columns: usize,
    room: usize,
    seen: &[bool],
) -> BulkPart
    requires sizes { sizes.now ≡ map row_size (rows_in rows.now) }
    requires start { start < length rows.now }
    requires arity { All (λ row. length row.now ≡ columns) rows.now }
    requires seen { AreSeen columns (rows_in rows.now) start seen.now }
    requires fits { EachRowFitsTyped room columns (rows_in rows.now) }
    ensures tight { IsTightTypedPart room columns (rows_in rows.now) start (view_part result) }
    ensures some { 0 < result.count }
    ensures within { start + result.count ≤ length rows.now }
{
    let rest = &sizes[start..];
    let typed = longest_within(rest, room - 7 - 2 * columns);
    if start > 0 {
        let within = longest_within(rest, room - 7);
        let untyped = longest_known(&rows[start..], seen, within);
        if typed <= untyped {
            return BulkPart {
                typed: false,
                count: untyped,
            };
        }
    }
    BulkPart {
        typed: true,
        count: typed,
    }
}

/// What each row takes. Refuses the first row that takes more than `room` bytes.
fn sizes_within(alloc: Global, rows: &[&[&Value]], room: usize) -> Result<Vec<usize>, BulkCutError>
    ensures ok { IfOk result (λ sizes. (sizes.items ≡ map row_size (rows_in rows.now)) ×
        EachIsWithin room (rows_in rows.now)) }
    ensures err { IfErr result (IsPast room (rows_in rows.now)) }
{
    let mut sizes = Vec::with_capacity(alloc, rows.len())?;
    for (i, row) in rows.iter().enumerate() {
        match refs_size_within(*row, room) {
            None => return Err(BulkCutError::RowTooLarge(i)),
            Some(size) => sizes.push(size)?,
        }
    }
    Ok(sizes)
}

/// What the types of so many columns leave of a request, where they leave anything.
fn room_beside_types(columns: usize, room: usize) -> Option<usize>
    ensures { MatchOption result (room < 7 + 2 * columns) (λ left. left + (7 + 2 * columns) ≡ room) }
{
    if room < 7 || (room - 7) / 2 < columns {
        return None;
    }
    Some(room - 7 - 2 * columns)
}

/// What each row takes. Refuses the first row that fits no typed request.
fn row_sizes(
    alloc: Global,
    rows: &[&[&Value]],
    columns: usize,
    room: usize,
) -> Result<Vec<usize>, BulkCutError>
    ensures sizes { IfOk result (λ sizes. sizes.items ≡ map row_size (rows_in rows.now)) }
    ensures none { IfOk result (λ _. row_too_large room columns (rows_in rows.now) ≡ None) }
    ensures refused { IfErr result (HasNoTypedCut room columns (rows_in rows.now)) }
{
    match room_beside_types(columns, room) {
        None if rows.is_empty() => Ok(Vec::new(alloc)),
        None => Err(BulkCutError::RowTooLarge(0)),
        Some(left) => sizes_within(alloc, rows, left),
    }
}

/// Cuts rows into as few requests as there can be, each with types or without.
///
/// Promise: the cut is the tight one. But for want of memory, it is refused exactly by the least
/// row that fits no request of its own (`HasNoTypedCut`).
pub fn bulk_cut(
    alloc: Global,
    rows: &[&[&Value]],
    columns: usize,
    room: usize,
) -> Result<Vec<BulkPart>, BulkCutError>
    requires { All (λ row. length row.now ≡ columns) rows.now }
    ensures tight { IfOk result (λ cut. IsTightTyped room columns (rows_in rows.now) (view_parts cut.items)) }
    ensures none { IfOk result (λ _. row_too_large room columns (rows_in rows.now) ≡ None) }
    ensures refused { IfErr result (HasNoTypedCut room columns (rows_in rows.now)) }
{
    let sizes = row_sizes(alloc, rows, columns, room)?;
    let mut seen = vec![in alloc; false; columns]?;
    let mut cut = Vec::new(alloc);
    let mut start = 0;
    while start < rows.len() {
        let part = next_part(rows, &sizes, start, columns, room, &seen);
        let end = start + part.count;
        if end < rows.len() {
            mark_rows(&mut seen, rows, start, end);
        }
        cut.push(part)?;
        start = end;
    }
    Ok(cut)
}
