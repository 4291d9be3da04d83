//! Cells by a type that is agreed on, a column's or a parameter's, in place of the value's own.
//!
//!     let cell = cell_of(ColumnType::MYSQL_TYPE_LONG, false, &value).ok_or(Refused)?;
//!     put_cell(cell, &mut out)?;

ghost use Rattle.std.specs.Prelude.{◌≡◌};
ghost use Rattle.std.specs.Int.{w8, w16, w32, w64};
ghost use Rattle.std.specs.Option.{option_map};
ghost use Rattle.byteorder.specs.Endian.{little_bytes};
ghost use Rattle.mysql_fields.specs.Wire.{Appends};
ghost use Rattle.mysql_cells.specs.TypedCells.{cell_bytes, number_cell, some_cell, typed_cell};
ghost use Rattle.mysql_cells.specs.TypedCells.{whole_number as number_of};

use crate::cell_form::{CellForm, form_of_type};
use crate::value::Value;
use mysql_const::ColumnType;
use mysql_fields::MySerialize;
use std::alloc::AllocError;

/// The bytes of a cell.
#[derive(Clone, Copy)]
pub enum Cell<'a> {
    /// No byte: the cell of NULL.
    Empty,
    One(u8),
    Two(u16),
    Four(u32),
    Eight(u64),
    /// The cell that the value has by its own type.
    Own(&'a Value),
}

/// The number that a value is, if it is a whole one.
fn whole_number(value: &Value) -> Option<i128>
    ensures { result ≡ number_of value.now }
{
    match value {
        Value::Int(number) => Some(i128::from(*number)),
        Value::UInt(number) => Some(i128::from(*number)),
        _ => None,
    }
}

/// The number in one byte, where it is in range.
fn in_one(unsigned: bool, number: i128) -> Option<u8>
    ensures { option_map (little_bytes 1) result ≡ number_cell 1 w8 unsigned number }
{
    if unsigned {
        u8::try_from(number).ok()
    } else {
        Some(i8::try_from(number).ok()?.cast_unsigned())
    }
}

/// The number in two bytes, where it is in range.
fn in_two(unsigned: bool, number: i128) -> Option<u16>
    ensures { option_map (little_bytes 2) result ≡ number_cell 2 w16 unsigned number }
{
    if unsigned {
        u16::try_from(number).ok()
    } else {
        Some(i16::try_from(number).ok()?.cast_unsigned())
    }
}

/// The number in four bytes, where it is in range without a sign or with one.
#[inline(always)]
pub fn in_four(unsigned: bool, number: i128) -> Option<u32>
    ensures { option_map (little_bytes 4) result ≡ number_cell 4 w32 unsigned number }
{
    if unsigned {
        u32::try_from(number).ok()
    } else {
        Some(i32::try_from(number).ok()?.cast_unsigned())
    }
}

/// The number in eight bytes, where it is in range without a sign or with one.
#[inline(always)]
pub fn in_eight(unsigned: bool, number: i128) -> Option<u64>
    ensures { option_map (little_bytes 8) result ≡ number_cell 8 w64 unsigned number }
{
    if unsigned {
        u64::try_from(number).ok()
    } else {
        Some(i64::try_from(number).ok()?.cast_unsigned())
    }
}

/// The cell of a value that isn't NULL, if it has one of this form.
#[inline]
fn cell_of_some<'a>(form: CellForm, unsigned: bool, value: &'a Value) -> Option<Cell<'a>>
    ensures { option_map cell_bytes result ≡ some_cell form unsigned value.now }
{
    match (form, value) {
        (CellForm::Whole1, _) => Some(Cell::One(in_one(unsigned, whole_number(value)?)?)),
        (CellForm::Whole2, _) => Some(Cell::Two(in_two(unsigned, whole_number(value)?)?)),
        (CellForm::Whole4, _) => Some(Cell::Four(in_four(unsigned, whole_number(value)?)?)),
        (CellForm::Whole8, _) => Some(Cell::Eight(in_eight(unsigned, whole_number(value)?)?)),
        (CellForm::FloatBits, Value::Float(_)) => Some(Cell::Own(value)),
        (CellForm::DoubleBits, Value::Double(_)) => Some(Cell::Own(value)),
        (CellForm::Counted, Value::Bytes(_)) => Some(Cell::Own(value)),
        (CellForm::DateAndTime, Value::Date(..)) => Some(Cell::Own(value)),
        (CellForm::Duration, Value::Time(..)) => Some(Cell::Own(value)),
        _ => None,
    }
}

/// The cell of a value by a type and whether the type's whole numbers have no sign.
///
/// None where the value has no cell by that type: a number out of its range, a value of another
/// kind. NULL takes no bytes by any type.
///
/// Promise: a cell that is written so is read by `read_cell` as the value (`TypedCellsReadBack`).
///
/// Follows "Binary Protocol Value" of the client/server protocol documentation.
#[inline]
pub fn cell_of<'a>(column_type: ColumnType, unsigned: bool, value: &'a Value) -> Option<Cell<'a>>
    ensures { option_map cell_bytes result ≡ typed_cell column_type unsigned value.now }
{
    if matches!(value, Value::NULL) {
        return Some(Cell::Empty);
    }
    cell_of_some(form_of_type(column_type), unsigned, value)
}

/// Appends a cell.
///
/// # Errors
/// For want of memory; all is as it was then.
#[inline]
pub fn put_cell(cell: Cell<'_>, out: &mut Vec<u8>) -> Result<(), AllocError>
    ensures { Appends result out.old.items out.new.items (cell_bytes cell.entry) }
{
    match cell {
        Cell::Empty => Ok(()),
        Cell::One(number) => out.extend_from_slice(&number.to_le_bytes()),
        Cell::Two(number) => out.extend_from_slice(&number.to_le_bytes()),
        Cell::Four(number) => out.extend_from_slice(&number.to_le_bytes()),
        Cell::Eight(number) => out.extend_from_slice(&number.to_le_bytes()),
        Cell::Own(value) => value.serialize(out),
    }
}
