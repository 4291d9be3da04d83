//! The server's status after a command: an open transaction, more results, a cursor, and so on.
//!
//!     use bitflags::Flags;
//!
//!     let status = StatusFlags::try_from(bits)?;
//!     let more = status.contains(StatusFlags::SERVER_MORE_RESULTS_EXISTS);
//!     let of_mariadb = MariadbStatusFlags::of(status);
//!     let quotes_names = of_mariadb.contains(MariadbStatusFlags::SERVER_STATUS_ANSI_QUOTES);

ghost use Rattle.std.specs.Prelude.{⊤, ◌≡◌};
ghost use Rattle.mysql_const.specs.Tables.{ReadsFlags};
ghost use Rattle.mysql_const.specs.StatusFlags.{mariadb_status_flags, status_flags};
ghost use Rattle.std.specs.Int.RustNames.{bit_and};

use crate::unknown::write_unknown_flags;
use bitflags::{Flag, Flags, bitflag_items};
use std::error::Error;
use std::fmt;
use std::fmt::{Display, Formatter, Write};

/// The server's state after a command. Bits 2 and 15 have no name.
///
/// MySQL: Client/Server Protocol, "Status Flags" (SERVER_STATUS_flags_enum).
#[derive(Clone, Copy, PartialEq, Eq, Hash, Debug)]
pub struct StatusFlags(pub u16);

bitflag_items! {
    impl StatusFlags: u16 {
        const SERVER_STATUS_IN_TRANS = 1;
        const SERVER_STATUS_AUTOCOMMIT = 2;
        const SERVER_MORE_RESULTS_EXISTS = 8;
        const SERVER_STATUS_NO_GOOD_INDEX_USED = 0x10;
        const SERVER_STATUS_NO_INDEX_USED = 0x20;
        const SERVER_STATUS_CURSOR_EXISTS = 0x40;
        const SERVER_STATUS_LAST_ROW_SENT = 0x80;
        const SERVER_STATUS_DB_DROPPED = 0x100;
        const SERVER_STATUS_NO_BACKSLASH_ESCAPES = 0x200;
        const SERVER_STATUS_METADATA_CHANGED = 0x400;
        const SERVER_QUERY_WAS_SLOW = 0x800;
        const SERVER_PS_OUT_PARAMS = 0x1000;
        const SERVER_STATUS_IN_TRANS_READONLY = 0x2000;
        const SERVER_SESSION_STATE_CHANGED = 0x4000;
    }
}

impl Flags for StatusFlags {
    type Bits = u16;

    ghost exact = { ⊤ };

    ghost table = { status_flags };

    ghost set_of = { λ flags. flags.0 };

    fn flags<'a>() -> &'a [Flag<StatusFlags>] {
        StatusFlags::FLAGS
    }

    fn bits(&self) -> u16 {
        self.0
    }

    fn from_bits_retain(bits: u16) -> StatusFlags {
        StatusFlags(bits)
    }
}

/// No flag.
impl Default for StatusFlags {
    ghost is_default = { λ flags. flags.0 ≡ 0 };

    fn default() -> StatusFlags {
        StatusFlags::empty()
    }
}

/// Bits, of which some are no flag of [`StatusFlags`].
#[derive(Clone, Copy, PartialEq, Eq, Debug)]
pub struct UnknownStatusFlags(pub u16);

impl Error for UnknownStatusFlags {}

impl Display for UnknownStatusFlags {
    fn fmt<W: Write>(&self, f: &mut Formatter<W>) -> fmt::Result {
        write_unknown_flags(f, "StatusFlags", u32::from(self.0))
    }
}

/// The bits of some [`StatusFlags`].
impl From<StatusFlags> for u16 {
    ghost from_gives = { λ flags bits. bits ≡ flags.0 };

    fn from(flags: StatusFlags) -> u16 {
        flags.bits()
    }
}

/// The [`StatusFlags`] of these bits. Bits of which some have no name are refused, and the refusal carries them all.
impl TryFrom<u16> for StatusFlags {
    type Error = UnknownStatusFlags;

    ghost try_from_gives = { λ bits answer. ReadsFlags status_flags (λ flags. flags.0)
        (λ unknown. unknown.0) bits answer };

    fn try_from(bits: u16) -> Result<StatusFlags, UnknownStatusFlags> {
        match StatusFlags::from_bits(bits) {
            Some(flags) => Ok(flags),
            None => Err(UnknownStatusFlags(bits)),
        }
    }
}

/// What only MariaDB tells of its state, in a bit that has no name in [`StatusFlags`].
///
/// MariaDB: Client/Server Protocol, "OK_Packet", 'Server status flag'.
#[derive(Clone, Copy, PartialEq, Eq, Hash, Debug)]
pub struct MariadbStatusFlags(pub u16);

bitflag_items! {
    impl MariadbStatusFlags: u16 {
        const SERVER_STATUS_ANSI_QUOTES = 0x8000;
    }
}

impl Flags for MariadbStatusFlags {
    type Bits = u16;

    ghost exact = { ⊤ };

    ghost table = { mariadb_status_flags };

    ghost set_of = { λ flags. flags.0 };

    fn flags<'a>() -> &'a [Flag<MariadbStatusFlags>] {
        MariadbStatusFlags::FLAGS
    }

    fn bits(&self) -> u16 {
        self.0
    }

    fn from_bits_retain(bits: u16) -> MariadbStatusFlags {
        MariadbStatusFlags(bits)
    }
}

/// No flag.
impl Default for MariadbStatusFlags {
    ghost is_default = { λ flags. flags.0 ≡ 0 };

    fn default() -> MariadbStatusFlags {
        MariadbStatusFlags::empty()
    }
}

impl MariadbStatusFlags {
    /// Those of a status that MariaDB sent.
    pub fn of(status: StatusFlags) -> MariadbStatusFlags
        ensures { result.0 ≡ bit_and status.0 0x8000 }
    {
        MariadbStatusFlags(status.0 & 0x8000)
    }
}
