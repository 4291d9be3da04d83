//! Cells as they are written.

ghost use Rattle.mysql_cells.specs.Cells.{date_cell, date_size, time_cell, time_size};
ghost use Rattle.mysql_fields.specs.Wire.{Appends};
ghost use Rattle.std.specs.Prelude.{◌≡◌};

use std::alloc::AllocError;

/// The fewest bytes that keep a date.
pub fn date_size(year: u16, month: u8, day: u8, hour: u8, minute: u8, second: u8, micros: u32) -> u8
    ensures { result ≡ date_size year month day hour minute second micros }
{
    if micros > 0 {
        11
    } else if hour > 0 || minute > 0 || second > 0 {
        7
    } else if year > 0 || month > 0 || day > 0 {
        4
    } else {
        0
    }
}

/// The fewest bytes that keep a time.
pub fn time_size(days: u32, hours: u8, minutes: u8, seconds: u8, micros: u32) -> u8
    ensures { result ≡ time_size days hours minutes seconds micros }
{
    if micros > 0 {
        12
    } else if days > 0 || hours > 0 || minutes > 0 || seconds > 0 {
        8
    } else {
        0
    }
}

/// Appends a date in its shortest form.
pub fn put_date(
    year: u16,
    month: u8,
    day: u8,
    hour: u8,
    minute: u8,
    second: u8,
    micros: u32,
    out: &mut Vec<u8>,
) -> Result<(), AllocError>
    ensures { Appends result out.old.items out.new.items (date_cell year month day hour minute second micros) }
{
    let size = date_size(year, month, day, hour, minute, second, micros);
    let [y0, y1] = year.to_le_bytes();
    let [m0, m1, m2, m3] = micros.to_le_bytes();
    let whole = [
        size, y0, y1, month, day, hour, minute, second, m0, m1, m2, m3,
    ];
    let (cell, _) = whole.split_at(usize::from(size) + 1);
    out.extend_from_slice(cell)
}

/// Appends a time in its shortest form.
pub fn put_time(
    negative: bool,
    days: u32,
    hours: u8,
    minutes: u8,
    seconds: u8,
    micros: u32,
    out: &mut Vec<u8>,
) -> Result<(), AllocError>
    ensures { Appends result out.old.items out.new.items (time_cell negative days hours minutes seconds micros) }
{
    let size = time_size(days, hours, minutes, seconds, micros);
    let [d0, d1, d2, d3] = days.to_le_bytes();
    let [m0, m1, m2, m3] = micros.to_le_bytes();
    let whole = [
        size,
        u8::from(negative),
        d0,
        d1,
        d2,
        d3,
        hours,
        minutes,
        seconds,
        m0,
        m1,
        m2,
        m3,
    ];
    let (cell, _) = whole.split_at(usize::from(size) + 1);
    out.extend_from_slice(cell)
}
