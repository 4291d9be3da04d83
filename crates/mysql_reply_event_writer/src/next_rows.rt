//! Rows that stand behind others, as most of a long result do: they are written, and not read back.

ghost use Rattle.std.specs.Prelude.{◌≡◌, ◌<◌, ℕ, IsTrue, Some, false, length, true};
ghost use Rattle.mysql_rows.specs.Rows.{cell_at};
ghost use Rattle.mysql_rows.specs.Views.{column_views, row_view};
ghost use Rattle.mysql_reply_event_writer.specs.NextRows.{WritesNextRow, under};
ghost use Rattle.mysql_reply_event_writer.specs.OwnCells.{FitsCell, IsOwnText, WritesOwnCells};

use mysql_cells::Value;
use mysql_cells::laws::fields_fit;
use mysql_columns::Column;
use mysql_reply_events::Context;
use mysql_rows::laws::{binary_rows_read_back, text_rows_begin, text_rows_read_back};
use mysql_rows::{Row, RowRefusal};
use std::alloc::AllocError;

// For the proof alone: the numbers of a cell's value fit their fields.
fn cell_fits(row: &Row, place: usize)
    ensures { FitsCell (cell_at (row_view row.now) (Some place)) }
{
    if let Some(value) = row.as_ref(place) {
        fields_fit(value);
    }
}

// For the proof alone: so do those of each cell's value. Compiled with optimizations, nothing is
// left of the loop.
fn cells_fit(row: &Row)
    ensures { (place : ℕ) → place < length (row_view row.now).cells →
        FitsCell (cell_at (row_view row.now) (Some place)) }
{
    for place in 0..row.len() {
        cell_fits(row, place);
    }
}

// A cell of a text row is read as itself, where its value wasn't taken: NULL, and bytes.
fn is_own_text(row: &Row, place: usize) -> bool
    ensures { IsTrue result → IsOwnText (cell_at (row_view row.now) (Some place)) }
{
    match row.as_ref(place) {
        None | Some(Value::NULL | Value::Bytes(_)) => true,
        _ => false,
    }
}

// Each cell of a text row is read as itself, where its value wasn't taken.
fn are_own_texts(row: &Row) -> bool
    ensures { IsTrue result → (place : ℕ) → place < length (row_view row.now).cells →
        IsOwnText (cell_at (row_view row.now) (Some place)) }
{
    for place in 0..row.len() {
        if !is_own_text(row, place) {
            return false;
        }
    }
    true
}

// Appends the text row of cells that are each read as itself.
#[inline(always)]
fn write_own_text(row: &Row, out: &mut Vec<u8>) -> Result<bool, AllocError>
    ensures { WritesOwnCells false (row_view row.now) result out.old.items out.new.items }
{
    if !are_own_texts(row) {
        return Ok(false);
    }
    match row.write_text(out) {
        Ok(()) => Ok(true),
        Err(RowRefusal::NoForm(_)) => Ok(false),
        Err(RowRefusal::Memory) => Err(AllocError),
    }
}

// Appends the row of cells under these columns, as many, that are each read as itself.
//
// Of a binary row that is told as it is written; `false` where it isn't so, or a cell has no form.
#[inline(always)]
fn write_own_cells(
    binary: bool,
    columns: &[Column],
    row: &Row,
    out: &mut Vec<u8>,
) -> Result<bool, AllocError>
    requires { length columns.now ≡ length (row_view row.now).cells }
    ensures { WritesOwnCells binary (under (column_views columns.now) (row_view row.now)) result
        out.old.items out.new.items }
{
    if binary {
        row.write_own_binary(columns, out)
    } else {
        write_own_text(row, out)
    }
}

/// Appends the payload of a row's cells under these columns, where it need not be read back.
///
/// It is read as this row wherever rows of these columns are due behind others.
///
/// `false` says nothing of the row: [`write_event`](crate::write_event) writes it then, where it has
/// a payload. So it is of other columns than cells, and where a cell would be read as another value.
///
/// # Errors
/// - `AllocError` for want of memory.
///
/// `out` is as it was after an error, and where the answer is `false`.
///
/// MySQL: Client/Server Protocol, "Text Resultset Row" and "Binary Protocol Resultset Row".
#[inline(always)]
pub fn write_next_row(
    context: Context,
    columns: &[Column],
    row: &Row,
    out: &mut Vec<u8>,
) -> Result<bool, AllocError>
    ensures { WritesNextRow context (under (column_views columns.now) (row_view row.now)) result
        out.old.items out.new.items }
{
    text_rows_read_back();
    text_rows_begin();
    binary_rows_read_back();
    cells_fit(row);
    if columns.len() != row.len() {
        return Ok(false);
    }
    write_own_cells(context.kind.has_binary_rows(), columns, row, out)
}
