//! The constants of the protocol: commands, types, flags and sizes, and the trait of flag sets.
//!
//!     use mysql_buf::constants::{CapabilityFlags, Flags};
//!
//!     let is_new = capabilities.contains(CapabilityFlags::CLIENT_PROTOCOL_41);

pub use bitflags::Flags;
pub use mysql_const::{
    BinlogDumpFlags, Capabilities, CapabilityFlags, ColumnFlags, ColumnType, Command, CursorType,
    DEFAULT_MAX_ALLOWED_PACKET, GeometryType, ItemResult, MAX_PAYLOAD_LEN, MariadbBulkIndicator,
    MariadbCapabilities, MariadbStatusFlags, SessionStateType, StatusFlags, StmtBulkExecuteFlags,
    StmtExecuteParamFlags, StmtExecuteParamsFlags, UTF8_GENERAL_CI, UTF8MB4_GENERAL_CI,
    UnknownBinlogDumpFlags, UnknownCapabilityFlags, UnknownColumnFlags, UnknownColumnType,
    UnknownCommand, UnknownCursorType, UnknownGeometryType, UnknownItemResultType,
    UnknownMariadbBulkIndicator, UnknownMariadbCapabilities, UnknownSessionStateType,
    UnknownStatusFlags, UnknownStmtBulkExecuteFlags, UnknownStmtExecuteParamFlags,
    UnknownStmtExecuteParamsFlags,
};
