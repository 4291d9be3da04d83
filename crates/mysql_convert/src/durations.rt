//! Conversions of durations.

ghost use Rattle.std.specs.Prelude.{◌≡◌, ◌<◌, ◌≤◌, ◌^◌, ◌*◌, ◌-◌, IfSome, length, None, Option, Some, ℕ};
ghost use Rattle.std.specs.Option.{option_map};
ghost use Rattle.std.specs.Duration.{as_nanos};
ghost use Rattle.mysql_convert.specs.Numbers.{digits_number as number_of_digits};
ghost use Rattle.mysql_convert.specs.DurationReading.{clock_nanos as nanos_of_clock};
ghost use Rattle.mysql_convert.specs.DurationReading.{fraction_nanos as nanos_of_fraction};
ghost use Rattle.mysql_convert.specs.DurationReading.{is_below_sixty as are_below_sixty, text_nanos as nanos_of_text};
ghost use Rattle.mysql_convert.specs.DurationReading.{two_digits as number_of_two};
ghost use Rattle.mysql_convert.specs.Durations.{duration_of};

use crate::conversion::FromValue;
use crate::errors::{FromValueError, read_or_refused};
use crate::intermediates::ParseIrOpt;
use crate::numbers::{digits_number, is_digit};
use mysql_cells::Value;
use std::alloc::{AllocError, Global};
use std::time::Duration;

/// Whether two bytes are digits from 00 to 59.
fn is_below_sixty(tens: u8, ones: u8) -> bool
    ensures { result ≡ are_below_sixty tens ones }
{
    is_digit(tens) && tens <= b'5' && is_digit(ones)
}

/// The number of two digits.
fn two_digits(tens: u8, ones: u8) -> u64
    requires tens { 48 ≤ tens }
    requires ones { 48 ≤ ones }
    ensures value { result ≡ number_of_two tens ones }
    ensures small { result < 2 ^ 12 }
{
    u64::from(tens - b'0') * 10 + u64::from(ones - b'0')
}

/// The nanoseconds of at most six digits behind a point.
fn digits_nanos(digits: &[u8]) -> Option<u64>
    requires { length digits.now ≤ 6 }
    ensures value { result ≡ option_map (λ n. n * 10 ^ (9 - length digits.now)) (number_of_digits digits.now) }
    ensures small { IfSome result (λ n. n < 2 ^ 32) }
{
    let n = digits_number(digits)? as u64;
    Some(n * 10u64.pow((9 - digits.len()) as u32))
}

/// The nanoseconds of nothing, or of a point and one to six digits.
fn fraction_nanos(fraction: &[u8]) -> Option<u64>
    ensures value { result ≡ nanos_of_fraction fraction.now }
    ensures small { IfSome result (λ n. n < 2 ^ 32) }
{
    match fraction {
        [] => Some(0),
        [b'.', digits @ ..] if digits.len() <= 6 => digits_nanos(digits),
        _ => None,
    }
}

/// The nanoseconds of hours and, behind them, `:MM:SS` and a fraction.
fn clock_nanos(hours: u64, clock: &[u8]) -> Option<u64>
    requires { hours < 2 ^ 16 }
    ensures { result ≡ nanos_of_clock hours clock.now }
{
    match clock {
        [b':', m, n, b':', s, t, fraction @ ..]
            if is_below_sixty(*m, *n) && is_below_sixty(*s, *t) => {
            let seconds = (hours * 60 + two_digits(*m, *n)) * 60 + two_digits(*s, *t);
            let nanos = fraction_nanos(fraction)?;
            Some(seconds * 1_000_000_000 + nanos)
        }
        _ => None,
    }
}

/// The nanoseconds of a text.
fn text_nanos(text: &[u8]) -> Option<u64>
    ensures { result ≡ nanos_of_text text.now }
{
    let [h, i, j, clock @ ..] = text else {
        return None;
    };
    if is_digit(*h) && is_digit(*i) && *j == b':' {
        clock_nanos(two_digits(*h, *i), &text[2..])
    } else if is_digit(*h) && *h <= b'8' && is_digit(*i) && is_digit(*j) {
        clock_nanos(u64::from(*h - b'0') * 100 + two_digits(*i, *j), clock)
    } else {
        None
    }
}

/// The duration that a value holds.
fn duration_in(value: &Value) -> Option<Duration>
    ensures { option_map as_nanos result ≡ duration_of value.now }
{
    match value {
        Value::Bytes(text) => Some(Duration::from_nanos(text_nanos(text.as_slice())?)),
        Value::Time(false, days, hours, minutes, seconds, micros) => {
            let hours = u128::from(*days) * 24 + u128::from(*hours);
            let seconds = (hours * 60 + u128::from(*minutes)) * 60 + u128::from(*seconds);
            Some(Duration::from_nanos_u128(seconds * 1_000_000_000 + u128::from(*micros) * 1_000))
        }
        _ => None,
    }
}

impl FromValue for Duration {
    type Intermediate = ParseIrOpt<Duration>;

    ghost Shown = { ℕ };

    ghost shown = { as_nanos };

    ghost converted = { duration_of };

    fn get_intermediate(value: Value) -> Result<ParseIrOpt<Duration>, FromValueError> {
        match duration_in(&value) {
            Some(duration) => Ok(ParseIrOpt::Parsed(duration, value)),
            None => Err(FromValueError(value)),
        }
    }

    #[inline(always)]
    fn from_value_ref_opt(
        alloc: Global,
        value: &Value,
    ) -> Result<Result<Duration, FromValueError>, AllocError> {
        read_or_refused(alloc, value, duration_in(value))
    }
}
