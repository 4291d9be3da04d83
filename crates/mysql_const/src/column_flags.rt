//! Flags of a column: whether it takes NULL, is a key, has numbers without a sign, and so on.
//!
//!     use bitflags::Flags;
//!
//!     let flags = ColumnFlags::try_from(bits)?;
//!     let unsigned = flags.contains(ColumnFlags::UNSIGNED_FLAG);

ghost use Rattle.std.specs.Prelude.{⊤, ◌≡◌};
ghost use Rattle.mysql_const.specs.Tables.{ReadsFlags};
ghost use Rattle.mysql_const.specs.ColumnFlags.{column_flags};

use crate::unknown::write_unknown_flags;
use bitflags::{Flag, Flags, bitflag_items};
use std::error::Error;
use std::fmt;
use std::fmt::{Display, Formatter, Write};

/// What holds of a column. All 16 bits have names.
///
/// MySQL: Client/Server Protocol, "Column Definition Flags".
#[derive(Clone, Copy, PartialEq, Eq, Hash, Debug)]
pub struct ColumnFlags(pub u16);

bitflag_items! {
    impl ColumnFlags: u16 {
        const NOT_NULL_FLAG = 1;
        const PRI_KEY_FLAG = 2;
        const UNIQUE_KEY_FLAG = 4;
        const MULTIPLE_KEY_FLAG = 8;
        const BLOB_FLAG = 0x10;
        const UNSIGNED_FLAG = 0x20;
        const ZEROFILL_FLAG = 0x40;
        const BINARY_FLAG = 0x80;
        const ENUM_FLAG = 0x100;
        const AUTO_INCREMENT_FLAG = 0x200;
        const TIMESTAMP_FLAG = 0x400;
        const SET_FLAG = 0x800;
        const NO_DEFAULT_VALUE_FLAG = 0x1000;
        const ON_UPDATE_NOW_FLAG = 0x2000;
        const PART_KEY_FLAG = 0x4000;
        const NUM_FLAG = 0x8000;
    }
}

impl Flags for ColumnFlags {
    type Bits = u16;

    ghost exact = { ⊤ };

    ghost table = { column_flags };

    ghost set_of = { λ flags. flags.0 };

    fn flags<'a>() -> &'a [Flag<ColumnFlags>] {
        ColumnFlags::FLAGS
    }

    fn bits(&self) -> u16 {
        self.0
    }

    fn from_bits_retain(bits: u16) -> ColumnFlags {
        ColumnFlags(bits)
    }
}

/// No flag.
impl Default for ColumnFlags {
    ghost is_default = { λ flags. flags.0 ≡ 0 };

    fn default() -> ColumnFlags {
        ColumnFlags::empty()
    }
}

/// Bits, of which some are no flag of [`ColumnFlags`].
#[derive(Clone, Copy, PartialEq, Eq, Debug)]
pub struct UnknownColumnFlags(pub u16);

impl Error for UnknownColumnFlags {}

impl Display for UnknownColumnFlags {
    fn fmt<W: Write>(&self, f: &mut Formatter<W>) -> fmt::Result {
        write_unknown_flags(f, "ColumnFlags", u32::from(self.0))
    }
}

/// The bits of some [`ColumnFlags`].
impl From<ColumnFlags> for u16 {
    ghost from_gives = { λ flags bits. bits ≡ flags.0 };

    fn from(flags: ColumnFlags) -> u16 {
        flags.bits()
    }
}

/// The [`ColumnFlags`] of these bits. Bits of which some have no name are refused, and the refusal carries them all.
impl TryFrom<u16> for ColumnFlags {
    type Error = UnknownColumnFlags;

    ghost try_from_gives = { λ bits answer. ReadsFlags column_flags (λ flags. flags.0)
        (λ unknown. unknown.0) bits answer };

    fn try_from(bits: u16) -> Result<ColumnFlags, UnknownColumnFlags> {
        match ColumnFlags::from_bits(bits) {
            Some(flags) => Ok(flags),
            None => Err(UnknownColumnFlags(bits)),
        }
    }
}
