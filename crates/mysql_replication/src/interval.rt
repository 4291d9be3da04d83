//! Intervals of transaction numbers: from a start up to an end that is no part of it.
//!
//!     let interval = GnoInterval::check_and_new(1, 6)?;

ghost use Rattle.std.specs.Prelude.{◌≡◌, MatchOption, None, Some};
ghost use Rattle.mysql_replication.specs.Intervals.{around_hyphen, ends_of, interval_between, interval_of};
ghost use Rattle.mysql_replication.specs.Intervals.{interval_text};
ghost use Rattle.mysql_replication.specs.Intervals.{number_of};

use crate::error::SidError;
use std::fmt;

/// Transaction numbers from `start` to before `end`.
///
/// MySQL Reference Manual, "GTID Sets".
#[derive(Clone, Copy, Debug, PartialEq, Eq, Hash)]
pub struct GnoInterval {
    start: u64,
    end: u64,
}

impl GnoInterval {
    /// The interval with these ends, whatever they are.
    pub fn new(start: u64, end: u64) -> GnoInterval
        ensures { result ≡ record { start = start; end = end } }
    {
        GnoInterval { start, end }
    }

    /// The interval with these ends.
    ///
    /// # Errors
    /// - `StartNotBelowEnd` where `start` isn't below `end`.
    /// - `ZeroGno` where `start` is 0.
    pub fn check_and_new(start: u64, end: u64) -> Result<GnoInterval, SidError>
        ensures { result ≡ interval_between start end }
    {
        if start >= end {
            return Err(SidError::StartNotBelowEnd);
        }
        if start == 0 {
            return Err(SidError::ZeroGno);
        }
        Ok(GnoInterval { start, end })
    }

    /// The first number.
    pub fn start(&self) -> u64
        ensures { result ≡ self.now.start }
    {
        self.start
    }

    /// The number after the last.
    pub fn end(&self) -> u64
        ensures { result ≡ self.now.end }
    {
        self.end
    }

    /// The interval that a text `n` or `n-m` writes. Refuses BadInterval for any other text, then
    /// Overflow where no number below 2^64 follows the last, StartNotBelowEnd and ZeroGno.
    ///
    /// MySQL Reference Manual, "GTID Sets".
    #[tactic(auto, unfolding(crate::specs::Intervals::interval_of))]
    pub(crate) fn parse(field: &str) -> Result<GnoInterval, SidError>
        ensures { result ≡ interval_of field.now }
    {
        let (first, last) = ends_of(field)?;
        let Some(end) = last.checked_add(1) else {
            return Err(SidError::Overflow);
        };
        GnoInterval::check_and_new(first, end)
    }
}

impl fmt::Display for GnoInterval {
    ghost output = { λ interval. Some (interval_text interval) };

    fn fmt<W: fmt::Write>(&self, f: &mut fmt::Formatter<W>) -> fmt::Result {
        if u128::from(self.start) + 1 == u128::from(self.end) {
            write!(f, "{}", self.start)
        } else {
            write!(f, "{}-{}", self.start, self.end.saturating_sub(1))
        }
    }
}

/// The first and the last number of an interval. Refuses BadInterval for another text than `n` or `n-m`.
#[tactic(auto, unfolding(crate::specs::Intervals::ends_of))]
fn ends_of(field: &str) -> Result<(u64, u64), SidError>
    ensures { result ≡ ends_of field.now (around_hyphen field.now) }
{
    match around_hyphen(field) {
        None => {
            let n = number_of(field)?;
            Ok((n, n))
        }
        Some((first, last)) => {
            let first = number_of(first)?;
            let last = number_of(last)?;
            Ok((first, last))
        }
    }
}

/// The two parts of a text around its first hyphen.
#[tactic(auto, unfolding(crate::specs::Intervals::around_hyphen))]
fn around_hyphen(text: &str) -> Option<(&str, &str)>
    ensures { MatchOption result (around_hyphen text.now ≡ None) (λ parts. around_hyphen text.now ≡
        Some (parts.0.now, parts.1.now)) }
{
    text.split_once('-')
}

/// A whole number below 2^64. Refuses BadInterval for any other text.
fn number_of(text: &str) -> Result<u64, SidError>
    ensures { result ≡ number_of text.now }
{
    match text.parse::<u64>() {
        Ok(n) => Ok(n),
        Err(_) => Err(SidError::BadInterval),
    }
}
