//! Rows that are written whole or not at all.

ghost use Rattle.std.specs.Prelude.{◌≡◌, Some, length, map, take};
ghost use Rattle.mysql_rows.specs.CellsWritten.{PutsOwnRow, PutsRow};
ghost use Rattle.mysql_rows.specs.Views.{column_views};
ghost use Rattle.mysql_rows.specs.Written.{binary_cause, binary_row, text_cause, text_row, values_of};

use crate::held::Held;
use crate::refusal::RowRefusal;
use crate::{binary_writing, text_writing};
use mysql_cells::Value;
use mysql_columns::Column;
use std::alloc::AllocError;

/// Appends a text row, after room was made for all of it.
pub(crate) fn write_text<C: Held>(cells: &[C], out: &mut Vec<u8>) -> Result<(), RowRefusal>
    ensures { PutsRow (text_cause (map C.held cells.now))
        (text_row (values_of (map C.held cells.now))) out.old.items out.new.items result }
{
    let room = match text_writing::row_room(cells) {
        Ok(room) => room,
        Err(place) => return Err(RowRefusal::NoForm(place)),
    };
    out.reserve(room)?;
    let len = out.len();
    if text_writing::put_row(cells, out).is_err() {
        out.truncate(len);
        return Err(RowRefusal::Memory);
    }
    Ok(())
}

/// Appends a binary row.
pub(crate) fn write_binary<C: Held>(
    columns: &[Column],
    cells: &[C],
    out: &mut Vec<u8>,
) -> Result<(), RowRefusal>
    requires { length columns.now ≡ length cells.now }
    ensures { PutsRow (binary_cause (column_views columns.now) (map C.held cells.now))
        (binary_row (column_views columns.now) (values_of (map C.held cells.now))) out.old.items
        out.new.items result }
{
    let len = out.len();
    if binary_writing::put_row(columns, cells, out).is_ok() {
        return Ok(());
    }
    out.truncate(len);
    match binary_writing::first_without_form(columns, cells) {
        Some(place) => Err(RowRefusal::NoForm(place)),
        None => Err(RowRefusal::Memory),
    }
}

/// Takes back what stands behind this length, of a row that was refused. Answers `false`, or an error
/// where that was for want of memory.
#[cold]
fn take_back<C: Held>(
    len: usize,
    columns: &[Column],
    cells: &[C],
    out: &mut Vec<u8>,
) -> Result<bool, AllocError>
    requires { length columns.now ≡ length cells.now }
    ensures { PutsOwnRow (column_views columns.now) (map C.held cells.now) (take len out.old.items)
        out.new.items result }
{
    out.truncate(len);
    if binary_writing::have_own_forms(columns, cells) {
        return Err(AllocError);
    }
    Ok(false)
}

/// Appends a binary row of which each value is surely read as itself, or answers `false`.
#[inline(always)]
pub(crate) fn write_own_binary<C: Held>(
    columns: &[Column],
    cells: &[C],
    out: &mut Vec<u8>,
) -> Result<bool, AllocError>
    requires { length columns.now ≡ length cells.now }
    ensures { PutsOwnRow (column_views columns.now) (map C.held cells.now) out.old.items out.new.items result }
{
    let len = out.len();
    if binary_writing::put_own_row(columns, cells, out).is_ok() {
        return Ok(true);
    }
    take_back(len, columns, cells, out)
}

/// Appends the text row of these values.
///
/// NULL is written as fb. Each other value is written as its text after its length. The text of a
/// number is its digits. Bytes and the texts of dates and times are written as they are. An
/// all-zero time is written without its sign.
///
/// Promise: exactly the row is appended, or it is refused and the buffer is as it was. It is
/// refused by the least place whose value has no form there (`text_row`).
///
/// # Errors
/// - `NoForm` with the least place that holds a float, which has no text here.
/// - `Memory`.
///
/// `out` is as it was after an error.
///
/// MySQL: Client/Server Protocol, "Text Resultset Row".
pub fn write_text_row(values: &[Value], out: &mut Vec<u8>) -> Result<(), RowRefusal>
    ensures { PutsRow (text_cause (map Some values.now)) (text_row values.now) out.old.items out.new.items result }
{
    write_text(values, out)
}

/// Appends the binary row of these values, as many as there are columns.
///
/// It is a zero, the bitmap of those that are NULL, and the cells of the others by their columns'
/// types and flags. A whole number is written in as many bytes as its column's type has, where it
/// is in range there. Floats, bytes, dates and times are written in columns of such types. NULL is
/// written in each column.
///
/// Promise: exactly the row is appended, or it is refused and the buffer is as it was. It is
/// refused by the least place whose value has no form there (`binary_row`).
///
/// # Errors
/// - `NoForm` with the least place whose value has no cell by its column.
/// - `Memory`.
///
/// `out` is as it was after an error.
///
/// MySQL: Client/Server Protocol, "Binary Protocol Resultset Row", "Null-Bitmap" and "Binary
/// Protocol Value".
pub fn write_binary_row(
    columns: &[Column],
    values: &[Value],
    out: &mut Vec<u8>,
) -> Result<(), RowRefusal>
    requires { length columns.now ≡ length values.now }
    ensures { PutsRow (binary_cause (column_views columns.now) (map Some values.now))
        (binary_row (column_views columns.now) values.now) out.old.items out.new.items result }
{
    write_binary(columns, values, out)
}
