//! Dates and times as literals.
#![tactic(auto, using(mysql_cells::proofs::Appended::what_is_kept))]

ghost use Rattle.mysql_cells.specs.Values.{Puts, date_text, time_text};
ghost use Rattle.mysql_literals.specs.Literals.{in_quotes};

use mysql_cells::date_text::{put_date_text, put_time_text};
use std::alloc::AllocError;

/// Appends the text of a date between single quotes.
pub fn put_date(
    out: &mut Vec<u8>,
    year: u16,
    month: u8,
    day: u8,
    hour: u8,
    minute: u8,
    second: u8,
    micros: u32,
) -> Result<(), AllocError>
    ensures { Puts (in_quotes (date_text year month day hour minute second micros)) out.old.items out.new.items result }
{
    out.push(b'\'')?;
    put_date_text(out, year, month, day, hour, minute, second, micros)?;
    out.push(b'\'')?;
    Ok(())
}

/// Appends the text of a time between single quotes.
pub fn put_time(
    out: &mut Vec<u8>,
    negative: bool,
    days: u32,
    hours: u8,
    minutes: u8,
    seconds: u8,
    micros: u32,
) -> Result<(), AllocError>
    ensures { Puts (in_quotes (time_text negative days hours minutes seconds micros)) out.old.items
        out.new.items result }
{
    out.push(b'\'')?;
    put_time_text(out, negative, days, hours, minutes, seconds, micros)?;
    out.push(b'\'')?;
    Ok(())
}
