//! The texts of dates and times.
#![tactic(auto, using(crate::proofs::Appended::what_is_kept))]

ghost use Rattle.mysql_cells.specs.Values.{Puts, part_text, time_of_day_text};
ghost use Rattle.mysql_cells.specs.Values.{clock_text, date_text, day_text, digits_in, is_zero_time};
ghost use Rattle.mysql_cells.specs.Values.{micros_text, time_text};
ghost use Rattle.std.specs.Prelude.{◌++◌, ◌<◌, ◌≡◌};

use itoa::Buffer;
use std::alloc::AllocError;

/// Appends the number's digits, filled with zeros to the width.
fn put_padded(out: &mut Vec<u8>, width: u8, number: u64) -> Result<(), AllocError>
    ensures { Puts (digits_in width number) out.old.items out.new.items result }
{
    let mut buffer = Buffer::new();
    let digits = buffer.format(number).as_bytes();
    let zeros = usize::from(width).saturating_sub(digits.len());
    out.resize(out.len() + zeros, b'0')?;
    out.extend_from_slice(digits)
}

/// Appends a separator and at least two digits.
fn put_part(out: &mut Vec<u8>, separator: u8, number: u8) -> Result<(), AllocError>
    ensures { Puts (part_text separator number) out.old.items out.new.items result }
{
    out.push(separator)?;
    put_padded(out, 2, u64::from(number))
}

/// Appends a point and six digits, unless there are no microseconds.
fn put_micros(out: &mut Vec<u8>, micros: u32) -> Result<(), AllocError>
    ensures { Puts (micros_text micros) out.old.items out.new.items result }
{
    if micros == 0 {
        return Ok(());
    }
    out.push(b'.')?;
    put_padded(out, 6, u64::from(micros))
}

/// Appends hours in at least `width` digits, minutes, seconds and microseconds.
fn put_clock(
    out: &mut Vec<u8>,
    width: u8,
    hours: u64,
    minutes: u8,
    seconds: u8,
    micros: u32,
) -> Result<(), AllocError>
    ensures { Puts (clock_text width hours minutes seconds ++ micros_text micros) out.old.items out.new.items result }
{
    put_padded(out, width, hours)?;
    put_part(out, b':', minutes)?;
    put_part(out, b':', seconds)?;
    put_micros(out, micros)?;
    Ok(())
}

/// Appends year, month and day.
fn put_day(out: &mut Vec<u8>, year: u16, month: u8, day: u8) -> Result<(), AllocError>
    ensures { Puts (day_text year month day) out.old.items out.new.items result }
{
    put_padded(out, 4, u64::from(year))?;
    put_part(out, b'-', month)?;
    put_part(out, b'-', day)?;
    Ok(())
}

/// Whether no part of a time is more than 0.
pub fn is_zero_time(days: u32, hours: u8, minutes: u8, seconds: u8, micros: u32) -> bool
    ensures { result ≡ is_zero_time days hours minutes seconds micros }
{
    days == 0 && hours == 0 && minutes == 0 && seconds == 0 && micros == 0
}

/// Appends a space and the time of day, unless all of it is 0.
fn put_time_of_day(
    out: &mut Vec<u8>,
    hour: u8,
    minute: u8,
    second: u8,
    micros: u32,
) -> Result<(), AllocError>
    ensures { Puts (time_of_day_text hour minute second micros) out.old.items out.new.items result }
{
    if is_zero_time(0, hour, minute, second, micros) {
        return Ok(());
    }
    out.push(b' ')?;
    put_clock(out, 2, u64::from(hour), minute, second, micros)?;
    Ok(())
}

/// Appends the text of a date.
pub fn put_date_text(
    out: &mut Vec<u8>,
    year: u16,
    month: u8,
    day: u8,
    hour: u8,
    minute: u8,
    second: u8,
    micros: u32,
) -> Result<(), AllocError>
    ensures { Puts (date_text year month day hour minute second micros) out.old.items out.new.items result }
{
    put_day(out, year, month, day)?;
    put_time_of_day(out, hour, minute, second, micros)?;
    Ok(())
}

/// Appends the text of a time, its days as hours.
pub fn put_time_text(
    out: &mut Vec<u8>,
    negative: bool,
    days: u32,
    hours: u8,
    minutes: u8,
    seconds: u8,
    micros: u32,
) -> Result<(), AllocError>
    ensures { Puts (time_text negative days hours minutes seconds micros) out.old.items out.new.items result }
{
    let sign: &[u8] = if negative { b"-" } else { b"" };
    out.extend_from_slice(sign)?;
    let all_hours = u64::from(days) * 24 + u64::from(hours);
    put_clock(out, 3, all_hours, minutes, seconds, micros)?;
    Ok(())
}
