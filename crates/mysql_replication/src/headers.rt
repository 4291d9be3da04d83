//! The first bytes of the packets that a replica sends.

use mysql_field_constants::ConstU8;
use thiserror::Error;

/// Another first byte than that of COM_REGISTER_SLAVE.
#[derive(Clone, Copy, Debug, Default, PartialEq, Eq, Hash, Error)]
#[error("Invalid header for COM_REGISTER_SLAVE")]
pub struct InvalidComRegisterSlaveHeader;

/// The first byte of COM_REGISTER_SLAVE.
///
/// MySQL: Client/Server Protocol, "COM_REGISTER_SLAVE".
pub type ComRegisterSlaveHeader = ConstU8<InvalidComRegisterSlaveHeader, 21>;

/// Another first byte than that of COM_TABLE_DUMP.
#[derive(Clone, Copy, Debug, Default, PartialEq, Eq, Hash, Error)]
#[error("Invalid header for COM_TABLE_DUMP")]
pub struct InvalidComTableDumpHeader;

/// The first byte of COM_TABLE_DUMP.
///
/// MySQL: Client/Server Protocol, "COM_TABLE_DUMP".
pub type ComTableDumpHeader = ConstU8<InvalidComTableDumpHeader, 19>;

/// Another first byte than that of COM_BINLOG_DUMP.
#[derive(Clone, Copy, Debug, Default, PartialEq, Eq, Hash, Error)]
#[error("Invalid header for COM_BINLOG_DUMP")]
pub struct InvalidComBinlogDumpHeader;

/// The first byte of COM_BINLOG_DUMP.
///
/// MySQL: Client/Server Protocol, "COM_BINLOG_DUMP".
pub type ComBinlogDumpHeader = ConstU8<InvalidComBinlogDumpHeader, 18>;

/// Another first byte than that of COM_BINLOG_DUMP_GTID.
#[derive(Clone, Copy, Debug, Default, PartialEq, Eq, Hash, Error)]
#[error("Invalid header for COM_BINLOG_DUMP_GTID")]
pub struct InvalidComBinlogDumpGtidHeader;

/// The first byte of COM_BINLOG_DUMP_GTID.
///
/// MySQL: Client/Server Protocol, "COM_BINLOG_DUMP_GTID".
pub type ComBinlogDumpGtidHeader = ConstU8<InvalidComBinlogDumpGtidHeader, 30>;

/// Another first byte than that of an acknowledgement.
#[derive(Clone, Copy, Debug, Default, PartialEq, Eq, Hash, Error)]
#[error("Invalid semi-sync ack packet header")]
pub struct InvalidSemiSyncAckPacketPacketHeader;

/// The first byte of an acknowledgement.
///
/// MySQL: Internals Manual, "Semi-Sync ACK packet".
pub type SemiSyncAckPacketPacketHeader = ConstU8<InvalidSemiSyncAckPacketPacketHeader, 239>;
