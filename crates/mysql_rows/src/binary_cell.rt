//! Cells of a binary row as they are written.

ghost use Rattle.std.specs.Prelude.{◌≡◌, ◌++◌, ◌+◌, ◌-◌, ◌/◌, ◌%◌, ◌^◌, ◌<◌, ◌≤◌, IsSomeAnd, IsTrue, OnErr, OnOk};
ghost use Rattle.std.specs.Prelude.{length, ⊤};
ghost use Rattle.std.proofs.Common.{get_or};
ghost use Rattle.std.specs.Int.{w64};
ghost use Rattle.std.specs.Option.{option_map};
ghost use Rattle.byteorder.specs.Endian.{little_bytes};
ghost use Rattle.mysql_buf.specs.Writing.{lenenc_str};
ghost use Rattle.mysql_columns.specs.Views.{column_view};
ghost use Rattle.mysql_cells.specs.Cells.{form as form_by_type, has_no_sign as is_without_sign};
ghost use Rattle.mysql_cells.specs.declared.cell_form.CellForm.TheVariants as cell_form;
ghost use Rattle.mysql_cells.specs.declared.value.Value.TheVariants.{Int};
ghost use Rattle.mysql_rows.specs.Written.{as_binary, cell_in};
ghost use Rattle.mysql_cells.specs.TypedCells.{cell_bytes, number_cell};
ghost use Rattle.mysql_cells.specs.Values.{is_null};
ghost use Rattle.mysql_rows.specs.CellsWritten.{marked};

use crate::row_bitmap::mark;
use crate::text_writing::put_text;
use bitflags::Flags;
use mysql_cells::cell_form::{CellForm, form_of_type};
use mysql_cells::typed_cell::in_four;
use mysql_cells::{Cell, Value, cell_of as cell_by_type, put_cell};
use mysql_columns::Column;
use mysql_const::{ColumnFlags, ColumnType};
use std::alloc::{AllocError, AllocFailed};

/// Whether a column's whole numbers have no sign.
pub fn has_no_sign(flags: ColumnFlags) -> bool
    ensures { result ≡ is_without_sign flags }
{
    flags.contains(ColumnFlags::UNSIGNED_FLAG)
}

/// The cell of a value by its column's type and flags, if it has one; NULL takes no bytes.
pub fn cell_of<'a>(column: &Column, value: &'a Value) -> Option<Cell<'a>>
    ensures { option_map cell_bytes result ≡ cell_in (column_view column.now) value.now }
{
    cell_by_type(column.column_type(), has_no_sign(column.flags()), value)
}

/// A cell that isn't written: it has no form, or memory for it was refused.
#[derive(Clone, Copy)]
pub struct NotWritten;

impl From<AllocError> for NotWritten {
    ghost from_gives = { λ _ _. ⊤ };

    fn from(_e: AllocError) -> NotWritten {
        NotWritten
    }
}

impl From<AllocFailed<u8>> for NotWritten {
    ghost from_gives = { λ _ _. ⊤ };

    fn from(_e: AllocFailed<u8>) -> NotWritten {
        NotWritten
    }
}

/// Whether a value's cell is surely read as the value itself.
///
/// So it is but of whole numbers without a sign that fit one with it, and of negative times.
pub fn is_own(value: &Value) -> bool
    ensures { IsTrue result → as_binary value.now ≡ value.now }
{
    match value {
        Value::UInt(number) => *number >= 1 << 63,
        Value::Time(negative, ..) => !*negative,
        _ => true,
    }
}

/// Appends the cell of a value by its column's type and flags.
#[inline(never)]
fn put_any(column: &Column, value: &Value, out: &mut Vec<u8>) -> Result<(), NotWritten>
    ensures ok { OnOk result (IsSomeAnd (cell_in (column_view column.now) value.now)
        (λ bytes. out.new.items ≡ out.old.items ++ bytes)) }
    ensures kept { OnErr result (out.new.items ≡ out.old.items) }
{
    match cell_of(column, value) {
        Some(cell) => Ok(put_cell(cell, out)?),
        None => Err(NotWritten),
    }
}

/// Appends the cell of a value of a kind that few have.
///
/// Where each has to be its `own`, one that isn't surely read as itself is refused. Here, and not
/// before the kinds are told apart: the others, which always are, don't pay for it.
#[inline(always)]
fn put_rare(own: bool, column: &Column, value: &Value, out: &mut Vec<u8>) -> Result<(), NotWritten>
    ensures ok { OnOk result (IsSomeAnd (cell_in (column_view column.now) value.now)
        (λ bytes. out.new.items ≡ out.old.items ++ bytes)) }
    ensures own { OnOk result (IsTrue own → as_binary value.now ≡ value.now) }
    ensures kept { OnErr result (out.new.items ≡ out.old.items) }
{
    if own && !is_own(value) {
        return Err(NotWritten);
    }
    put_any(column, value, out)
}

/// Appends the cell of bytes.
#[inline(always)]
fn put_bytes(column: &Column, bytes: &[u8], out: &mut Vec<u8>) -> Result<(), NotWritten>
    ensures ok { OnOk result ((form_by_type (column_view column.now).column_type ≡
        cell_form.Counted) × (out.new.items ≡ out.old.items ++ lenenc_str bytes.now)) }
    ensures kept { OnErr result (out.new.items ≡ out.old.items) }
{
    match form_of_type(column.column_type()) {
        CellForm::Counted => Ok(put_text(bytes, out)?),
        _ => Err(NotWritten),
    }
}

/// Appends the four bytes of a number that is in range.
#[inline(always)]
fn put_four(number: Option<u32>, out: &mut Vec<u8>) -> Result<(), NotWritten>
    ensures ok { OnOk result (IsSomeAnd (option_map (little_bytes 4) number)
        (λ bytes. out.new.items ≡ out.old.items ++ bytes)) }
    ensures kept { OnErr result (out.new.items ≡ out.old.items) }
{
    match number {
        Some(number) => Ok(out.extend_from_slice(&number.to_le_bytes())?),
        None => Err(NotWritten),
    }
}

/// Appends the eight bytes of a number with a sign. It is out of range only where it is negative
/// and the column's numbers have no sign.
#[inline(always)]
fn put_long(unsigned: bool, number: i64, out: &mut Vec<u8>) -> Result<(), NotWritten>
    ensures ok { OnOk result (IsSomeAnd (number_cell 8 w64 unsigned number)
        (λ bytes. out.new.items ≡ out.old.items ++ bytes)) }
    ensures kept { OnErr result (out.new.items ≡ out.old.items) }
{
    if unsigned && number < 0 {
        return Err(NotWritten);
    }
    Ok(out.extend_from_slice(&number.cast_unsigned().to_le_bytes())?)
}

/// Appends the cell of a number with a sign, which the value is. The types that most such numbers
/// have are asked for one by one: the table of all types takes longer.
#[inline(always)]
fn put_int(column: &Column, value: &Value, number: i64, out: &mut Vec<u8>) -> Result<(), NotWritten>
    requires { value.now ≡ Int number }
    ensures ok { OnOk result (IsSomeAnd (cell_in (column_view column.now) value.now)
        (λ bytes. out.new.items ≡ out.old.items ++ bytes)) }
    ensures kept { OnErr result (out.new.items ≡ out.old.items) }
{
    let unsigned = has_no_sign(column.flags());
    let column_type = column.column_type();
    if column_type == ColumnType::MYSQL_TYPE_LONGLONG {
        put_long(unsigned, number, out)
    } else if column_type == ColumnType::MYSQL_TYPE_LONG
        || column_type == ColumnType::MYSQL_TYPE_INT24
    {
        put_four(in_four(unsigned, i128::from(number)), out)
    } else {
        put_any(column, value, out)
    }
}

/// Appends the cell of the value at a place; NULL sets its bit in the bitmap.
///
/// The bitmap stands from `bitmap` on. Where the value has to be its `own`, one that isn't surely read
/// as itself is refused. The kinds that most values have come first.
#[inline(always)]
pub fn put_value(
    own: bool,
    bitmap: usize,
    place: usize,
    column: &Column,
    value: &Value,
    out: &mut Vec<u8>,
) -> Result<(), NotWritten>
    requires few { place ≤ usize.MAX - 2 }
    requires inside { bitmap + (place + 2) / 8 < length out.old.items }
    requires room { get_or out.old.items (bitmap + (place + 2) / 8) 0 + 2 ^ ((place + 2) % 8) < 256 }
    ensures ok { OnOk result (IsSomeAnd (cell_in (column_view column.now) value.now)
        (λ bytes. out.new.items ≡ marked (is_null value.now) bitmap (place + 2) out.old.items ++
        bytes)) }
    ensures own { OnOk result (IsTrue own → as_binary value.now ≡ value.now) }
    ensures kept { OnErr result (out.new.items ≡ out.old.items) }
{
    match value {
        Value::NULL => {
            mark(bitmap, place + 2, out);
            Ok(())
        }
        Value::Bytes(bytes) => put_bytes(column, bytes.as_slice(), out),
        Value::Int(number) => put_int(column, value, *number, out),
        Value::UInt(_) | Value::Float(_) | Value::Double(_) | Value::Date(..) | Value::Time(..) =>
            put_rare(own, column, value, out),
    }
}
