//! Dates and times as the server's own client shows them.
//!
//! MySQL Reference Manual, "The DATE, DATETIME, and TIMESTAMP Types", "The TIME Type" and
//! "Fractional Seconds in Time Values".

use mysql_columns::Column;
use mysql_const::ColumnType;
use mysql_row_refs::ValueRef;
use std::alloc::Global;
use std::io;
use std::io::Write;

/// Whether so many digits have all of a fraction; columns of a server have six at most.
fn have_all(decimals: u8, micros: u32) -> bool {
    match decimals {
        0 => micros == 0,
        1 => micros % 100_000 == 0,
        2 => micros % 10_000 == 0,
        3 => micros % 1_000 == 0,
        4 => micros % 100 == 0,
        5 => micros % 10 == 0,
        decimals => decimals == 6,
    }
}

/// The digits of a fraction that are shown: those of the column, or all where it has fewer.
fn shown_digits<'d>(column: Option<&Column>, micros: u32, digits: &'d str) -> &'d [u8] {
    let decimals = match column {
        Some(column) => column.decimals(),
        None => 0,
    };
    let digits = digits.as_bytes();
    if micros < 1_000_000 && have_all(decimals, micros) {
        digits.get(..usize::from(decimals)).unwrap_or(digits)
    } else if micros == 0 {
        &[]
    } else {
        digits
    }
}

/// Writes the fraction of a second behind a point, where a digit of it is shown.
fn write_fraction<W: Write>(
    alloc: Global,
    output: &mut W,
    column: Option<&Column>,
    micros: u32,
) -> io::Result<()> {
    let digits = format!(in alloc; "{micros:06}")?;
    let shown = shown_digits(column, micros, digits.as_str());
    if shown.is_empty() {
        return Ok(());
    }
    output.write_all(b".")?;
    output.write_all(shown)
}

/// Whether a column's dates have a time of day.
fn has_clock(column: Option<&Column>) -> bool {
    let Some(column) = column else {
        return false;
    };
    matches!(
        column.column_type(),
        ColumnType::MYSQL_TYPE_DATETIME
            | ColumnType::MYSQL_TYPE_DATETIME2
            | ColumnType::MYSQL_TYPE_TIMESTAMP
            | ColumnType::MYSQL_TYPE_TIMESTAMP2
    )
}

/// Writes a date, and its time of day where the column has one or it isn't 0; or a time, its days as
/// hours.
pub(crate) fn write_moment<W: Write>(
    alloc: Global,
    output: &mut W,
    column: Option<&Column>,
    value: ValueRef<'_>,
) -> io::Result<()> {
    match value {
        ValueRef::Date(year, month, day, hour, minute, second, micros) => {
            write!(output, "{year:04}-{month:02}-{day:02}")?;
            let is_midnight = hour == 0 && minute == 0 && second == 0 && micros == 0;
            if is_midnight && !has_clock(column) {
                return Ok(());
            }
            write!(output, " {hour:02}:{minute:02}:{second:02}")?;
            write_fraction(alloc, output, column, micros)
        }
        ValueRef::Time(negative, days, hours, minutes, seconds, micros) => {
            let hours = u64::from(days) * 24 + u64::from(hours);
            let is_zero = hours == 0 && minutes == 0 && seconds == 0 && micros == 0;
            let sign = if negative && !is_zero { "-" } else { "" };
            write!(output, "{sign}{hours:02}:{minutes:02}:{seconds:02}")?;
            write_fraction(alloc, output, column, micros)
        }
        _ => Ok(()),
    }
}
