//! Texts of the refusals of numbers and bits that have no name.

use std::fmt;
use std::fmt::{Formatter, Write};

// Says which number no name has.
pub fn write_unknown_number<W: Write>(
    f: &mut Formatter<W>,
    what: &str,
    number: i32,
) -> fmt::Result {
    write!(f, "unknown {what} {number}")
}

// Says which bits are not all flags of a set.
pub fn write_unknown_flags<W: Write>(f: &mut Formatter<W>, set: &str, bits: u32) -> fmt::Result {
    write!(f, "unknown flags in the bits {bits:b} of {set}")
}
