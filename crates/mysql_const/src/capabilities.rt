//! Capabilities: what a client and a server can do, by which the forms of packets are chosen.
//!
//!     use bitflags::Flags;
//!
//!     let both = client.intersection(server);
//!     let is_new = both.contains(CapabilityFlags::CLIENT_PROTOCOL_41);
//!     let bits = u32::from(both);

ghost use Rattle.std.specs.Prelude.{⊤, ◌≡◌};
ghost use Rattle.mysql_const.specs.Tables.{ReadsFlags};
ghost use Rattle.mysql_const.specs.CapabilityFlags.{capability_flags};
ghost use Rattle.mysql_const.specs.MariadbCapabilities.{mariadb_capabilities};

use crate::unknown::write_unknown_flags;
use bitflags::{Flag, Flags, bitflag_items};
use std::error::Error;
use std::fmt;
use std::fmt::{Display, Formatter, Write};

/// What a client or a server can do. All 32 bits have names.
///
/// MySQL: Client/Server Protocol, "Capabilities Flags"; bit 29 is the progress reports of old MariaDB servers.
#[derive(Clone, Copy, PartialEq, Eq, Hash, Debug)]
pub struct CapabilityFlags(pub u32);

bitflag_items! {
    impl CapabilityFlags: u32 {
        const CLIENT_LONG_PASSWORD = 1;
        const CLIENT_FOUND_ROWS = 2;
        const CLIENT_LONG_FLAG = 4;
        const CLIENT_CONNECT_WITH_DB = 8;
        const CLIENT_NO_SCHEMA = 0x10;
        const CLIENT_COMPRESS = 0x20;
        const CLIENT_ODBC = 0x40;
        const CLIENT_LOCAL_FILES = 0x80;
        const CLIENT_IGNORE_SPACE = 0x100;
        const CLIENT_PROTOCOL_41 = 0x200;
        const CLIENT_INTERACTIVE = 0x400;
        const CLIENT_SSL = 0x800;
        const CLIENT_IGNORE_SIGPIPE = 0x1000;
        const CLIENT_TRANSACTIONS = 0x2000;
        const CLIENT_RESERVED = 0x4000;
        const CLIENT_SECURE_CONNECTION = 0x8000;
        const CLIENT_MULTI_STATEMENTS = 0x10000;
        const CLIENT_MULTI_RESULTS = 0x20000;
        const CLIENT_PS_MULTI_RESULTS = 0x40000;
        const CLIENT_PLUGIN_AUTH = 0x80000;
        const CLIENT_CONNECT_ATTRS = 0x100000;
        const CLIENT_PLUGIN_AUTH_LENENC_CLIENT_DATA = 0x200000;
        const CLIENT_CAN_HANDLE_EXPIRED_PASSWORDS = 0x400000;
        const CLIENT_SESSION_TRACK = 0x800000;
        const CLIENT_DEPRECATE_EOF = 0x1000000;
        const CLIENT_OPTIONAL_RESULTSET_METADATA = 0x2000000;
        const CLIENT_ZSTD_COMPRESSION_ALGORITHM = 0x4000000;
        const CLIENT_QUERY_ATTRIBUTES = 0x8000000;
        const MULTI_FACTOR_AUTHENTICATION = 0x10000000;
        const CLIENT_PROGRESS_OBSOLETE = 0x20000000;
        const CLIENT_SSL_VERIFY_SERVER_CERT = 0x40000000;
        const CLIENT_REMEMBER_OPTIONS = 0x80000000;
    }
}

impl Flags for CapabilityFlags {
    type Bits = u32;

    ghost exact = { ⊤ };

    ghost table = { capability_flags };

    ghost set_of = { λ flags. flags.0 };

    fn flags<'a>() -> &'a [Flag<CapabilityFlags>] {
        CapabilityFlags::FLAGS
    }

    fn bits(&self) -> u32 {
        self.0
    }

    fn from_bits_retain(bits: u32) -> CapabilityFlags {
        CapabilityFlags(bits)
    }
}

/// No flag.
impl Default for CapabilityFlags {
    ghost is_default = { λ flags. flags.0 ≡ 0 };

    fn default() -> CapabilityFlags {
        CapabilityFlags::empty()
    }
}

/// Bits, of which some are no flag of [`CapabilityFlags`].
#[derive(Clone, Copy, PartialEq, Eq, Debug)]
pub struct UnknownCapabilityFlags(pub u32);

impl Error for UnknownCapabilityFlags {}

impl Display for UnknownCapabilityFlags {
    fn fmt<W: Write>(&self, f: &mut Formatter<W>) -> fmt::Result {
        write_unknown_flags(f, "CapabilityFlags", self.0)
    }
}

/// The bits of some [`CapabilityFlags`].
impl From<CapabilityFlags> for u32 {
    ghost from_gives = { λ flags bits. bits ≡ flags.0 };

    fn from(flags: CapabilityFlags) -> u32 {
        flags.bits()
    }
}

/// The [`CapabilityFlags`] of these bits. Bits of which some have no name are refused, and the
/// refusal carries them all.
impl TryFrom<u32> for CapabilityFlags {
    type Error = UnknownCapabilityFlags;

    ghost try_from_gives = { λ bits answer. ReadsFlags capability_flags (λ flags. flags.0)
        (λ unknown. unknown.0) bits answer };

    fn try_from(bits: u32) -> Result<CapabilityFlags, UnknownCapabilityFlags> {
        match CapabilityFlags::from_bits(bits) {
            Some(flags) => Ok(flags),
            None => Err(UnknownCapabilityFlags(bits)),
        }
    }
}

/// What a client or a server can do by MariaDB's own protocol. Bits 6 to 31 have no name.
///
/// MariaDB: Client/Server Protocol, "Connecting", 'Capabilities' (bits 32 and up there).
#[derive(Clone, Copy, PartialEq, Eq, Hash, Debug)]
pub struct MariadbCapabilities(pub u32);

bitflag_items! {
    impl MariadbCapabilities: u32 {
        const MARIADB_CLIENT_PROGRESS = 1;
        const MARIADB_CLIENT_COM_MULTI = 2;
        const MARIADB_CLIENT_STMT_BULK_OPERATIONS = 4;
        const MARIADB_CLIENT_EXTENDED_METADATA = 8;
        const MARIADB_CLIENT_CACHE_METADATA = 0x10;
        const MARIADB_CLIENT_BULK_UNIT_RESULTS = 0x20;
    }
}

impl Flags for MariadbCapabilities {
    type Bits = u32;

    ghost exact = { ⊤ };

    ghost table = { mariadb_capabilities };

    ghost set_of = { λ flags. flags.0 };

    fn flags<'a>() -> &'a [Flag<MariadbCapabilities>] {
        MariadbCapabilities::FLAGS
    }

    fn bits(&self) -> u32 {
        self.0
    }

    fn from_bits_retain(bits: u32) -> MariadbCapabilities {
        MariadbCapabilities(bits)
    }
}

/// No flag.
impl Default for MariadbCapabilities {
    ghost is_default = { λ flags. flags.0 ≡ 0 };

    fn default() -> MariadbCapabilities {
        MariadbCapabilities::empty()
    }
}

/// Bits, of which some are no flag of [`MariadbCapabilities`].
#[derive(Clone, Copy, PartialEq, Eq, Debug)]
pub struct UnknownMariadbCapabilities(pub u32);

impl Error for UnknownMariadbCapabilities {}

impl Display for UnknownMariadbCapabilities {
    fn fmt<W: Write>(&self, f: &mut Formatter<W>) -> fmt::Result {
        write_unknown_flags(f, "MariadbCapabilities", self.0)
    }
}

/// The bits of some [`MariadbCapabilities`].
impl From<MariadbCapabilities> for u32 {
    ghost from_gives = { λ flags bits. bits ≡ flags.0 };

    fn from(flags: MariadbCapabilities) -> u32 {
        flags.bits()
    }
}

/// The [`MariadbCapabilities`] of these bits. Bits of which some have no name are refused, and the
/// refusal carries them all.
impl TryFrom<u32> for MariadbCapabilities {
    type Error = UnknownMariadbCapabilities;

    ghost try_from_gives = { λ bits answer. ReadsFlags mariadb_capabilities (λ flags. flags.0)
        (λ unknown. unknown.0) bits answer };

    fn try_from(bits: u32) -> Result<MariadbCapabilities, UnknownMariadbCapabilities> {
        match MariadbCapabilities::from_bits(bits) {
            Some(flags) => Ok(flags),
            None => Err(UnknownMariadbCapabilities(bits)),
        }
    }
}

/// The capabilities in force on a connection: those that both of its sides have. They are those of
/// the protocol and those that are MariaDB's own.
///
/// MySQL: Client/Server Protocol, "Capabilities Flags"; MariaDB: Client/Server Protocol,
/// "Connecting", 'Capabilities'.
#[derive(Clone, Copy, PartialEq, Eq, Hash, Debug)]
pub struct Capabilities {
    /// Those of the protocol.
    pub protocol: CapabilityFlags,
    /// Those that are MariaDB's own.
    pub mariadb: MariadbCapabilities,
}
