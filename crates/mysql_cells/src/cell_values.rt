//! The numbers, dates and times that the bytes of a cell stand for.

ghost use Rattle.std.specs.Prelude.{◌≡◌, ◌+◌, ◌≤◌};
ghost use Rattle.std.specs.Int.{w8, w16, w32, w64};
ghost use Rattle.mysql_cells.specs.Cells.{date_of, part, time_of, whole_value};
ghost use Rattle.mysql_cells.specs.declared.value.Value.TheVariants.{Date, Int, Time};

use crate::value::Value;
use byteorder::{ByteOrder, LittleEndian};

/// A whole number of one byte.
pub fn whole1(unsigned: bool, number: u8) -> i64
    ensures { Int result ≡ whole_value w8 unsigned number }
{
    if unsigned {
        i64::from(number)
    } else {
        i64::from(number.cast_signed())
    }
}

/// A whole number of two bytes.
pub fn whole2(unsigned: bool, number: u16) -> i64
    ensures { Int result ≡ whole_value w16 unsigned number }
{
    if unsigned {
        i64::from(number)
    } else {
        i64::from(number.cast_signed())
    }
}

/// A whole number of four bytes.
pub fn whole4(unsigned: bool, number: u32) -> i64
    ensures { Int result ≡ whole_value w32 unsigned number }
{
    if unsigned {
        i64::from(number)
    } else {
        i64::from(number.cast_signed())
    }
}

/// A whole number of eight bytes: `Int` where it fits, else `UInt`.
pub fn whole8(unsigned: bool, number: u64) -> Value
    ensures { result ≡ whole_value w64 unsigned number }
{
    if !unsigned {
        Value::Int(number.cast_signed())
    } else if number < 1 << 63 {
        Value::Int(number as i64)
    } else {
        Value::UInt(number)
    }
}

/// The byte at a place of a cell.
fn part1(cell: &[u8], least: usize, at: usize) -> u8
    requires { at + 1 ≤ least }
    ensures { result ≡ part cell.now least at 1 }
{
    if cell.len() < least {
        return 0;
    }
    cell[at..][0]
}

/// The two bytes at a place of a cell.
fn part2(cell: &[u8], least: usize, at: usize) -> u16
    requires { at + 2 ≤ least }
    ensures { result ≡ part cell.now least at 2 }
{
    if cell.len() < least {
        return 0;
    }
    LittleEndian::read_u16(&cell[at..])
}

/// The four bytes at a place of a cell.
fn part4(cell: &[u8], least: usize, at: usize) -> u32
    requires { at + 4 ≤ least }
    ensures { result ≡ part cell.now least at 4 }
{
    if cell.len() < least {
        return 0;
    }
    LittleEndian::read_u32(&cell[at..])
}

/// The year, month, day, hour, minute, second and microseconds in a date's cell, behind its length.
/// Those that its length leaves out are 0.
///
/// Follows "Binary Protocol Value" of the client/server protocol documentation.
pub fn date_parts(cell: &[u8]) -> (u16, u8, u8, u8, u8, u8, u32)
    ensures { Date result.0 result.1 result.2 result.3 result.4 result.5 result.6 ≡ date_of cell.now }
{
    (
        part2(cell, 4, 0),
        part1(cell, 4, 2),
        part1(cell, 4, 3),
        part1(cell, 7, 4),
        part1(cell, 7, 5),
        part1(cell, 7, 6),
        part4(cell, 11, 7),
    )
}

/// Whether it is negative, and the days, hours, minutes, seconds and microseconds in a time's cell,
/// behind its length. Those that its length leaves out are 0.
///
/// Follows "Binary Protocol Value" of the client/server protocol documentation.
pub fn time_parts(cell: &[u8]) -> (bool, u32, u8, u8, u8, u32)
    ensures { Time result.0 result.1 result.2 result.3 result.4 result.5 ≡ time_of cell.now }
{
    (
        part1(cell, 8, 0) == 1,
        part4(cell, 8, 1),
        part1(cell, 8, 5),
        part1(cell, 8, 6),
        part1(cell, 8, 7),
        part4(cell, 12, 8),
    )
}
