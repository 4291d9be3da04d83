//! Binary rows as they are written.

ghost use Rattle.std.specs.Prelude.{◌≡◌, ◌++◌, ◌∷◌, ◌+◌, ◌-◌, ◌/◌, ◌%◌, ◌^◌, ◌<◌, ◌≤◌, [], None, IfOk, IsTrue, OnErr};
ghost use Rattle.std.specs.Prelude.{OnOk, drop};
ghost use Rattle.std.specs.Prelude.{false, is_none, length, map, replicate, take, unwrap_or};
ghost use Rattle.std.proofs.Common.{get_or};
ghost use Rattle.std.specs.Option.{option_and_then, option_map};
ghost use Rattle.mysql_columns.specs.Views.{column_view};
ghost use Rattle.mysql_rows.specs.Written.{binary_cause, bits_bytes, cell_in};
ghost use Rattle.mysql_cells.specs.TypedCells.{cell_bytes};
ghost use Rattle.mysql_rows.specs.CellsWritten.{AreOwn, IsOwn, cells_in, holds_null as is_held_null, marked};
ghost use Rattle.mysql_rows.specs.CellsWritten.{null_marks};
ghost use Rattle.mysql_rows.specs.Views.{column_views};

use crate::binary_cell::{NotWritten, cell_of, is_own, put_value};
use crate::held::Held;
use crate::row_bitmap::put_zeros;
use mysql_cells::Cell;
use mysql_columns::Column;
use mysql_field_lists::{NullBitmap, ServerSide};

/// The cell of what is held, by its column.
fn held_cell<'a, C: Held>(column: &Column, cell: &'a C) -> Option<Cell<'a>>
    ensures { option_map cell_bytes result ≡ option_and_then (cell_in (column_view column.now)) (C.held cell.now) }
{
    cell_of(column, cell.held()?)
}

/// The first cell that has no form.
#[cold]
pub fn first_without_form<C: Held>(columns: &[Column], cells: &[C]) -> Option<usize>
    requires { length columns.now ≡ length cells.now }
    ensures { result ≡ binary_cause (column_views columns.now) (map C.held cells.now) }
{
    for (place, column) in columns.iter().enumerate() {
        if held_cell(column, &cells[place]).is_none() {
            return Some(place);
        }
    }
    None
}

/// Whether each cell has a form, and a value that is surely read as itself. A row of such cells is
/// refused for want of memory alone.
#[cold]
pub fn have_own_forms<C: Held>(columns: &[Column], cells: &[C]) -> bool
    requires { length columns.now ≡ length cells.now }
    ensures { IsTrue result → binary_cause (column_views columns.now) (map C.held cells.now) ≡ None }
{
    for cell in cells {
        match cell.held() {
            Some(value) if is_own(value) => {}
            _ => return false,
        }
    }
    first_without_form(columns, cells).is_none()
}

/// Appends what is held at a place; NULL sets its bit in the bitmap that stands from `bitmap` on.
/// Refused where that has no form, or isn't surely read as itself where it has to be its `own`, or for
/// want of memory.
#[inline(always)]
fn put_held<C: Held>(
    own: bool,
    bitmap: usize,
    place: usize,
    column: &Column,
    cell: &C,
    out: &mut Vec<u8>,
) -> Result<(), NotWritten>
    requires few { place ≤ usize.MAX - 2 }
    requires inside { bitmap + (place + 2) / 8 < length out.old.items }
    requires room { get_or out.old.items (bitmap + (place + 2) / 8) 0 + 2 ^ ((place + 2) % 8) < 256 }
    ensures ok { OnOk result (out.new.items ≡
        marked (is_held_null (C.held cell.now)) bitmap (place + 2) out.old.items ++
        unwrap_or (option_and_then (cell_in (column_view column.now)) (C.held cell.now)) []) }
    ensures form { OnOk result
        (is_none (option_and_then (cell_in (column_view column.now)) (C.held cell.now)) ≡ false) }
    ensures own { OnOk result (IsTrue own → IsOwn (C.held cell.now)) }
    ensures kept { OnErr result (out.new.items ≡ out.old.items) }
{
    match cell.held() {
        Some(value) => put_value(own, bitmap, place, column, value, out),
        None => Err(NotWritten),
    }
}

/// Appends the cells, of which each one has to have a form. Sets the bits of those that are NULL in
/// the bitmap of zeros that stands from a place on. Where each has to be its `own`, it is surely
/// read as itself. After a refusal what stood before the bitmap stands in front.
///
/// It is compiled into both functions below, so that `own` is asked for in neither. They stand apart
/// from those of rows, where what appends bytes would be called, and not compiled in.
#[inline(always)]
fn put_cells_as<C: Held>(
    own: bool,
    bitmap: usize,
    columns: &[Column],
    cells: &[C],
    out: &mut Vec<u8>,
) -> Result<(), NotWritten>
    requires same { length columns.now ≡ length cells.now }
    requires few { length cells.now ≤ usize.MAX - 9 }
    requires from { bitmap ≤ length out.old.items }
    requires clear { drop bitmap out.old.items ≡ replicate ((length cells.now + 9) / 8) 0 }
    ensures form { OnOk result (binary_cause (column_views columns.now) (map C.held cells.now) ≡ None) }
    ensures ok { OnOk result (out.new.items ≡ take bitmap out.old.items ++
        (bits_bytes (null_marks (map C.held cells.now)) ++
        cells_in (column_views columns.now) (map C.held cells.now))) }
    ensures own { OnOk result (IsTrue own → AreOwn (map C.held cells.now)) }
    ensures kept { take bitmap out.new.items ≡ take bitmap out.old.items }
{
    for (place, column) in columns.iter().enumerate() {
        put_held(own, bitmap, place, column, &cells[place], out)?;
    }
    Ok(())
}

/// Appends cells, of which each one has to have a form.
fn put_cells<C: Held>(
    bitmap: usize,
    columns: &[Column],
    cells: &[C],
    out: &mut Vec<u8>,
) -> Result<(), NotWritten>
    requires same { length columns.now ≡ length cells.now }
    requires few { length cells.now ≤ usize.MAX - 9 }
    requires from { bitmap ≤ length out.old.items }
    requires clear { drop bitmap out.old.items ≡ replicate ((length cells.now + 9) / 8) 0 }
    ensures form { OnOk result (binary_cause (column_views columns.now) (map C.held cells.now) ≡ None) }
    ensures ok { OnOk result (out.new.items ≡ take bitmap out.old.items ++
        (bits_bytes (null_marks (map C.held cells.now)) ++
        cells_in (column_views columns.now) (map C.held cells.now))) }
    ensures kept { take bitmap out.new.items ≡ take bitmap out.old.items }
{
    put_cells_as(false, bitmap, columns, cells, out)
}

/// Appends cells, of which each one has to have a form and to be surely read as itself.
fn put_own_cells<C: Held>(
    bitmap: usize,
    columns: &[Column],
    cells: &[C],
    out: &mut Vec<u8>,
) -> Result<(), NotWritten>
    requires same { length columns.now ≡ length cells.now }
    requires few { length cells.now ≤ usize.MAX - 9 }
    requires from { bitmap ≤ length out.old.items }
    requires clear { drop bitmap out.old.items ≡ replicate ((length cells.now + 9) / 8) 0 }
    ensures form { OnOk result (binary_cause (column_views columns.now) (map C.held cells.now) ≡ None) }
    ensures ok { OnOk result (out.new.items ≡ take bitmap out.old.items ++
        (bits_bytes (null_marks (map C.held cells.now)) ++
        cells_in (column_views columns.now) (map C.held cells.now))) }
    ensures own { OnOk result (AreOwn (map C.held cells.now)) }
    ensures kept { take bitmap out.new.items ≡ take bitmap out.old.items }
{
    put_cells_as(true, bitmap, columns, cells, out)
}

/// Appends a zero and a bitmap of zeros for so many cells. Answers from where on that stands. After a
/// refusal what stood before stands in front.
#[inline(always)]
#[tactic(auto, using(crate::proofs::NullBits::one_byte))]
fn put_front(count: usize, out: &mut Vec<u8>) -> Result<usize, NotWritten>
    requires { count ≤ usize.MAX - 9 }
    ensures place { IfOk result (λ bitmap. bitmap ≡ length (out.old.items ++ 0 ∷ [])) }
    ensures ok { OnOk result (out.new.items ≡ (out.old.items ++ 0 ∷ []) ++ replicate ((count + 9) / 8) 0) }
    ensures kept { take (length out.old.items) out.new.items ≡ out.old.items }
{
    out.push(0)?;
    let bitmap = out.len();
    // Most rows have so few cells that their bitmap is one byte.
    if count <= 6 {
        out.push(0)?;
        return Ok(bitmap);
    }
    put_zeros(NullBitmap::<ServerSide, &[u8]>::bitmap_len(count), out)?;
    Ok(bitmap)
}

/// Appends a row, of which each cell has to have a form. After a refusal what stood before stands in front.
#[inline(never)]
pub fn put_row<C: Held>(
    columns: &[Column],
    cells: &[C],
    out: &mut Vec<u8>,
) -> Result<(), NotWritten>
    requires { length columns.now ≡ length cells.now }
    ensures form { OnOk result (binary_cause (column_views columns.now) (map C.held cells.now) ≡ None) }
    ensures ok { OnOk result (out.new.items ≡ out.old.items ++ 0 ∷
        (bits_bytes (null_marks (map C.held cells.now)) ++
        cells_in (column_views columns.now) (map C.held cells.now))) }
    ensures kept { take (length out.old.items) out.new.items ≡ out.old.items }
{
    // For the proof alone: a length is below 2^64.
    let _few = columns.len();
    let bitmap = put_front(cells.len(), out)?;
    put_cells(bitmap, columns, cells, out)
}

/// Appends a row, of which each cell has to have a form and to be surely read as itself. After a
/// refusal what stood before stands in front.
#[inline(never)]
pub fn put_own_row<C: Held>(
    columns: &[Column],
    cells: &[C],
    out: &mut Vec<u8>,
) -> Result<(), NotWritten>
    requires { length columns.now ≡ length cells.now }
    ensures form { OnOk result (binary_cause (column_views columns.now) (map C.held cells.now) ≡ None) }
    ensures ok { OnOk result (out.new.items ≡ out.old.items ++ 0 ∷
        (bits_bytes (null_marks (map C.held cells.now)) ++
        cells_in (column_views columns.now) (map C.held cells.now))) }
    ensures own { OnOk result (AreOwn (map C.held cells.now)) }
    ensures kept { take (length out.old.items) out.new.items ≡ out.old.items }
{
    // For the proof alone: a length is below 2^64.
    let _few = columns.len();
    let bitmap = put_front(cells.len(), out)?;
    put_own_cells(bitmap, columns, cells, out)
}
