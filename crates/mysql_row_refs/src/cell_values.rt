//! What the cells of numbers, dates and times hold.

ghost use Rattle.std.specs.Prelude.{◌≡◌, ℕ, List, true};
ghost use Rattle.std.specs.Int.{w64};
ghost use Rattle.mysql_cells.specs.Cells.{date_of, time_of, whole_value};
ghost use Rattle.mysql_row_refs.specs.Places.{held, is_inside, value_of};

use crate::place::CellPlace;
use crate::value_ref::ValueRef;
use mysql_cells::cell_values::{date_parts, time_parts};

/// A whole number of eight bytes.
pub fn whole8(unsigned: bool, number: u64) -> CellPlace
    ensures value { (payload : List ℕ) → held payload result ≡ whole_value w64 unsigned number }
    ensures inside { (payload : List ℕ) → is_inside payload result ≡ true }
{
    if !unsigned {
        CellPlace::Int(number.cast_signed())
    } else if number < 1 << 63 {
        CellPlace::Int(number as i64)
    } else {
        CellPlace::UInt(number)
    }
}

/// The date in a cell.
pub fn date<'p>(cell: &'p [u8]) -> ValueRef<'p>
    ensures { value_of result ≡ date_of cell.now }
{
    let (year, month, day, hour, minute, second, micros) = date_parts(cell);
    ValueRef::Date(year, month, day, hour, minute, second, micros)
}

/// The time in a cell.
pub fn time<'p>(cell: &'p [u8]) -> ValueRef<'p>
    ensures { value_of result ≡ time_of cell.now }
{
    let (negative, days, hours, minutes, seconds, micros) = time_parts(cell);
    ValueRef::Time(negative, days, hours, minutes, seconds, micros)
}
