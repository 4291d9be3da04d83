//! MariaDB's bulk requests: what stands before each value, and the flags of a request.
//!
//!     let flags = u16::from(StmtBulkExecuteFlags::SEND_TYPES_TO_SERVER);
//!     let indicator = MariadbBulkIndicator::try_from(number)?;
//!     let is_null = indicator == MariadbBulkIndicator::BULK_INDICATOR_NULL;

ghost use Rattle.std.specs.Prelude.{⊤, ◌≡◌};
ghost use Rattle.mysql_const.specs.Tables.{ReadsAs, ReadsFlags};
ghost use Rattle.mysql_const.specs.BulkIndicators.{bulk_indicator_number, bulk_indicator_named};
ghost use Rattle.mysql_const.specs.BulkFlags.{bulk_execute_flags};

use crate::unknown::{write_unknown_flags, write_unknown_number};
use bitflags::{Flag, Flags, bitflag_items};
use std::error::Error;
use std::fmt;
use std::fmt::{Display, Formatter, Write};

/// What stands before each value of a bulk request.
///
/// MariaDB: Client/Server Protocol, "COM_STMT_BULK_EXECUTE".
#[allow(non_camel_case_types)]
#[derive(Clone, Copy, PartialEq, Eq, Hash, Debug)]
pub enum MariadbBulkIndicator {
    BULK_INDICATOR_NONE = 0,
    BULK_INDICATOR_NULL = 1,
    BULK_INDICATOR_DEFAULT = 2,
    BULK_INDICATOR_IGNORE = 3,
}

/// A number that no [`MariadbBulkIndicator`] has.
#[derive(Clone, Copy, PartialEq, Eq, Debug)]
pub struct UnknownMariadbBulkIndicator(pub u8);

impl Error for UnknownMariadbBulkIndicator {}

impl Display for UnknownMariadbBulkIndicator {
    fn fmt<W: Write>(&self, f: &mut Formatter<W>) -> fmt::Result {
        write_unknown_number(f, "bulk indicator", i32::from(self.0))
    }
}

/// The number of a [`MariadbBulkIndicator`].
impl From<MariadbBulkIndicator> for u8 {
    ghost from_gives = { λ indicator number. number ≡ bulk_indicator_number indicator };

    fn from(indicator: MariadbBulkIndicator) -> u8 {
        indicator as u8
    }
}

/// The [`MariadbBulkIndicator`] of a number. A number without a name is refused, and the refusal carries it.
impl TryFrom<u8> for MariadbBulkIndicator {
    type Error = UnknownMariadbBulkIndicator;

    ghost try_from_gives = { λ number answer. ReadsAs (bulk_indicator_named number)
        (λ unknown. unknown.0) number answer };

    fn try_from(number: u8) -> Result<MariadbBulkIndicator, UnknownMariadbBulkIndicator> {
        match number {
            0 => Ok(MariadbBulkIndicator::BULK_INDICATOR_NONE),
            1 => Ok(MariadbBulkIndicator::BULK_INDICATOR_NULL),
            2 => Ok(MariadbBulkIndicator::BULK_INDICATOR_DEFAULT),
            3 => Ok(MariadbBulkIndicator::BULK_INDICATOR_IGNORE),
            _ => Err(UnknownMariadbBulkIndicator(number)),
        }
    }
}

/// How a bulk request is sent and answered. All bits but 6 and 7 have no name.
///
/// MariaDB: Client/Server Protocol, "COM_STMT_BULK_EXECUTE".
#[derive(Clone, Copy, PartialEq, Eq, Hash, Debug)]
pub struct StmtBulkExecuteFlags(pub u16);

bitflag_items! {
    impl StmtBulkExecuteFlags: u16 {
        const SEND_UNIT_RESULTS = 0x40;
        const SEND_TYPES_TO_SERVER = 0x80;
    }
}

impl Flags for StmtBulkExecuteFlags {
    type Bits = u16;

    ghost exact = { ⊤ };

    ghost table = { bulk_execute_flags };

    ghost set_of = { λ flags. flags.0 };

    fn flags<'a>() -> &'a [Flag<StmtBulkExecuteFlags>] {
        StmtBulkExecuteFlags::FLAGS
    }

    fn bits(&self) -> u16 {
        self.0
    }

    fn from_bits_retain(bits: u16) -> StmtBulkExecuteFlags {
        StmtBulkExecuteFlags(bits)
    }
}

/// No flag.
impl Default for StmtBulkExecuteFlags {
    ghost is_default = { λ flags. flags.0 ≡ 0 };

    fn default() -> StmtBulkExecuteFlags {
        StmtBulkExecuteFlags::empty()
    }
}

/// Bits, of which some are no flag of [`StmtBulkExecuteFlags`].
#[derive(Clone, Copy, PartialEq, Eq, Debug)]
pub struct UnknownStmtBulkExecuteFlags(pub u16);

impl Error for UnknownStmtBulkExecuteFlags {}

impl Display for UnknownStmtBulkExecuteFlags {
    fn fmt<W: Write>(&self, f: &mut Formatter<W>) -> fmt::Result {
        write_unknown_flags(f, "StmtBulkExecuteFlags", u32::from(self.0))
    }
}

/// The bits of some [`StmtBulkExecuteFlags`].
impl From<StmtBulkExecuteFlags> for u16 {
    ghost from_gives = { λ flags bits. bits ≡ flags.0 };

    fn from(flags: StmtBulkExecuteFlags) -> u16 {
        flags.bits()
    }
}

/// The [`StmtBulkExecuteFlags`] of these bits. Bits of which some have no name are refused, and the
/// refusal carries them all.
impl TryFrom<u16> for StmtBulkExecuteFlags {
    type Error = UnknownStmtBulkExecuteFlags;

    ghost try_from_gives = { λ bits answer. ReadsFlags bulk_execute_flags (λ flags. flags.0)
        (λ unknown. unknown.0) bits answer };

    fn try_from(bits: u16) -> Result<StmtBulkExecuteFlags, UnknownStmtBulkExecuteFlags> {
        match StmtBulkExecuteFlags::from_bits(bits) {
            Some(flags) => Ok(flags),
            None => Err(UnknownStmtBulkExecuteFlags(bits)),
        }
    }
}
