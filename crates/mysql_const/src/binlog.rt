//! Requests for the binary log: the flags of COM_BINLOG_DUMP and COM_BINLOG_DUMP_GTID.
//!
//!     let bits = u16::from(BinlogDumpFlags::BINLOG_DUMP_NON_BLOCK);
//!     let flags = BinlogDumpFlags::try_from(bits)?;

ghost use Rattle.std.specs.Prelude.{⊤, ◌≡◌};
ghost use Rattle.mysql_const.specs.Tables.{ReadsFlags};
ghost use Rattle.mysql_const.specs.BinlogDumpFlags.{binlog_dump_flags};

use crate::unknown::write_unknown_flags;
use bitflags::{Flag, Flags, bitflag_items};
use std::error::Error;
use std::fmt;
use std::fmt::{Display, Formatter, Write};

/// How the binary log is asked for. Bits 3 to 15 have no name.
///
/// MySQL: Client/Server Protocol, "COM_BINLOG_DUMP" and "COM_BINLOG_DUMP_GTID".
#[derive(Clone, Copy, PartialEq, Eq, Hash, Debug)]
pub struct BinlogDumpFlags(pub u16);

bitflag_items! {
    impl BinlogDumpFlags: u16 {
        const BINLOG_DUMP_NON_BLOCK = 1;
        const BINLOG_THROUGH_POSITION = 2;
        const BINLOG_THROUGH_GTID = 4;
    }
}

impl Flags for BinlogDumpFlags {
    type Bits = u16;

    ghost exact = { ⊤ };

    ghost table = { binlog_dump_flags };

    ghost set_of = { λ flags. flags.0 };

    fn flags<'a>() -> &'a [Flag<BinlogDumpFlags>] {
        BinlogDumpFlags::FLAGS
    }

    fn bits(&self) -> u16 {
        self.0
    }

    fn from_bits_retain(bits: u16) -> BinlogDumpFlags {
        BinlogDumpFlags(bits)
    }
}

/// No flag.
impl Default for BinlogDumpFlags {
    ghost is_default = { λ flags. flags.0 ≡ 0 };

    fn default() -> BinlogDumpFlags {
        BinlogDumpFlags::empty()
    }
}

/// Bits, of which some are no flag of [`BinlogDumpFlags`].
#[derive(Clone, Copy, PartialEq, Eq, Debug)]
pub struct UnknownBinlogDumpFlags(pub u16);

impl Error for UnknownBinlogDumpFlags {}

impl Display for UnknownBinlogDumpFlags {
    fn fmt<W: Write>(&self, f: &mut Formatter<W>) -> fmt::Result {
        write_unknown_flags(f, "BinlogDumpFlags", u32::from(self.0))
    }
}

/// The bits of some [`BinlogDumpFlags`].
impl From<BinlogDumpFlags> for u16 {
    ghost from_gives = { λ flags bits. bits ≡ flags.0 };

    fn from(flags: BinlogDumpFlags) -> u16 {
        flags.bits()
    }
}

/// The [`BinlogDumpFlags`] of these bits. Bits of which some have no name are refused, and the
/// refusal carries them all.
impl TryFrom<u16> for BinlogDumpFlags {
    type Error = UnknownBinlogDumpFlags;

    ghost try_from_gives = { λ bits answer. ReadsFlags binlog_dump_flags (λ flags. flags.0)
        (λ unknown. unknown.0) bits answer };

    fn try_from(bits: u16) -> Result<BinlogDumpFlags, UnknownBinlogDumpFlags> {
        match BinlogDumpFlags::from_bits(bits) {
            Some(flags) => Ok(flags),
            None => Err(UnknownBinlogDumpFlags(bits)),
        }
    }
}
