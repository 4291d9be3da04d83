//! The constants of error packets, of requests for files and of statement packets.

use mysql_field_constants::ConstU8;
use thiserror::Error;

/// Another first byte than that of an error packet.
#[derive(Clone, Copy, Debug, Default, PartialEq, Eq, Hash, Error)]
#[error("Invalid error packet header")]
pub struct InvalidErrPacketHeader;

/// The first byte of an error packet.
///
/// MySQL: Client/Server Protocol, "ERR_Packet".
pub type ErrPacketHeader = ConstU8<InvalidErrPacketHeader, 255>;

/// Another byte than `#` before an SQL state.
#[derive(Clone, Copy, Debug, Default, PartialEq, Eq, Hash, Error)]
#[error("Invalid SqlStateMarker value")]
pub struct InvalidSqlStateMarker;

/// The byte before an SQL state.
///
/// MySQL: Client/Server Protocol, "ERR_Packet".
pub type SqlStateMarker = ConstU8<InvalidSqlStateMarker, 35>;

/// Another first byte than that of a request for a file.
#[derive(Clone, Copy, Debug, Default, PartialEq, Eq, Hash, Error)]
#[error("Invalid LOCAL_INFILE header")]
pub struct InvalidLocalInfileHeader;

/// The first byte of a request for a file.
///
/// MySQL: Client/Server Protocol, "LOCAL INFILE Request".
pub type LocalInfileHeader = ConstU8<InvalidLocalInfileHeader, 251>;

/// Another first byte than that of a statement packet.
#[derive(Clone, Copy, Debug, Default, PartialEq, Eq, Hash, Error)]
#[error("Invalid statement packet status")]
pub struct InvalidStmtPacketStatus;

/// The first byte of a statement packet.
///
/// MySQL: Client/Server Protocol, "COM_STMT_PREPARE Response".
pub type StmtPacketStatus = ConstU8<InvalidStmtPacketStatus, 0>;
