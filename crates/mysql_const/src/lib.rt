//! The constants of the protocol: commands, types of columns, flags and sizes.
//!
//! Each set is a table of names and numbers, and no bytes are read here. Every crate that knows a
//! packet uses it. A user names it `mysql_buf::constants`.
//!
//! | a number is | types | how it is named |
//! |---|---|---|
//! | one of a list | `Command`, `ColumnType`, .. | `try_from`, or `Unknown..` has the number |
//! | a set of flags | `CapabilityFlags`, .. | `from_bits`, `from_bits_truncate` |
//!
//!     let kind = ColumnType::try_from(3u8)?;            // MYSQL_TYPE_LONG
//!     let status = StatusFlags::from_bits_truncate(2);  // SERVER_STATUS_AUTOCOMMIT
#![tactic(auto)]

pub mod binlog;
pub mod bulk;
pub mod capabilities;
pub mod column_flags;
pub mod column_type;
pub mod command;
pub mod execute;
pub mod geometry;
pub mod item_result;
pub mod laws;
pub mod session_state;
pub mod status;
mod unknown;

pub use binlog::{BinlogDumpFlags, UnknownBinlogDumpFlags};
pub use bulk::{
    MariadbBulkIndicator, StmtBulkExecuteFlags, UnknownMariadbBulkIndicator,
    UnknownStmtBulkExecuteFlags,
};
pub use capabilities::{
    Capabilities, CapabilityFlags, MariadbCapabilities, UnknownCapabilityFlags,
    UnknownMariadbCapabilities,
};
pub use column_flags::{ColumnFlags, UnknownColumnFlags};
pub use column_type::{ColumnType, UnknownColumnType};
pub use command::{Command, UnknownCommand};
pub use execute::{
    CursorType, StmtExecuteParamFlags, StmtExecuteParamsFlags, UnknownCursorType,
    UnknownStmtExecuteParamFlags, UnknownStmtExecuteParamsFlags,
};
pub use geometry::{GeometryType, UnknownGeometryType};
pub use item_result::{ItemResult, UnknownItemResultType};
pub use session_state::{SessionStateType, UnknownSessionStateType};
pub use status::{MariadbStatusFlags, StatusFlags, UnknownStatusFlags};

/// The most bytes that a chunk of a packet can have.
///
/// MySQL: Client/Server Protocol, "MySQL Packets".
pub const MAX_PAYLOAD_LEN: usize = 16777215;

/// The most bytes of a packet, unless something else is set: 4 MiB.
///
/// MySQL Reference Manual, "Packet Too Large" (max_allowed_packet).
pub const DEFAULT_MAX_ALLOWED_PACKET: usize = 4194304;

/// The number of the collation utf8mb3_general_ci.
///
/// MySQL: Client/Server Protocol, "Character Set".
pub const UTF8_GENERAL_CI: u16 = 33;

/// The number of the collation utf8mb4_general_ci.
///
/// MySQL: Client/Server Protocol, "Character Set".
pub const UTF8MB4_GENERAL_CI: u16 = 45;
