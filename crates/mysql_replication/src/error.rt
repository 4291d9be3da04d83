//! Why a text is no set of global transaction identifiers.

ghost use Rattle.std.specs.Prelude.{◌≡◌};
ghost use Rattle.mysql_replication.specs.declared.error.SidError.TheVariants.{Memory};

use std::alloc::{AllocError, AllocFailed};
use std::error::Error;
use std::fmt;

/// Why a text is no set of global transaction identifiers; what stands leftmost counts.
///
/// MySQL Reference Manual, "GTID Sets".
#[derive(Clone, Copy, Debug, PartialEq, Eq)]
pub enum SidError {
    /// There is no colon.
    NoColon = 1,
    /// What stands before the first colon is no UUID.
    BadUuid = 2,
    /// Nothing stands behind the first colon.
    Empty = 3,
    /// What stands before the intervals is no tag.
    BadTag = 4,
    /// What stands behind the UUID begins with no digit, and no colon follows.
    NoIntervals = 5,
    /// An interval is neither a whole number below 2^64 nor two with a hyphen between.
    BadInterval = 6,
    /// An interval begins at 0.
    ZeroGno = 7,
    /// An interval ends before it begins.
    StartNotBelowEnd = 8,
    /// The number after an interval's last isn't below 2^64.
    Overflow = 9,
    /// A growth of a buffer was refused.
    Memory = 10,
}

impl SidError {
    // What is printed.
    fn text(self) -> &'static str {
        match self {
            SidError::NoColon => "no colon behind the UUID",
            SidError::BadUuid => "no UUID before the first colon",
            SidError::Empty => "nothing behind the UUID",
            SidError::BadTag => "no tag before the intervals",
            SidError::NoIntervals => "no intervals behind the UUID",
            SidError::BadInterval => "an interval must be one number or two with a hyphen between",
            SidError::ZeroGno => "transactions are numbered from 1",
            SidError::StartNotBelowEnd => "an interval can't end before it begins",
            SidError::Overflow => "an interval ends at the greatest number",
            SidError::Memory => "out of memory",
        }
    }
}

impl fmt::Display for SidError {
    fn fmt<W: fmt::Write>(&self, f: &mut fmt::Formatter<W>) -> fmt::Result {
        f.write_str(self.text())
    }
}

impl Error for SidError {}

impl From<AllocError> for SidError {
    ghost from_gives = { λ _ e. e ≡ Memory };

    fn from(_e: AllocError) -> SidError {
        SidError::Memory
    }
}

impl<T: Drop> From<AllocFailed<T>> for SidError {
    ghost from_gives = { λ _ e. e ≡ Memory };

    fn from(_e: AllocFailed<T>) -> SidError {
        SidError::Memory
    }
}
