//! The constant fields of the commands of prepared statements.

use mysql_field_constants::{ConstU8, ConstU32};
use thiserror::Error;

/// Another first byte than that of COM_STMT_EXECUTE.
#[derive(Clone, Copy, Debug, Default, PartialEq, Eq, Hash, Error)]
#[error("Invalid header for COM_STMT_EXECUTE")]
pub struct InvalidComStmtExecuteHeader;

/// The first byte of COM_STMT_EXECUTE.
///
/// MySQL: Client/Server Protocol, "COM_STMT_EXECUTE".
pub type ComStmtExecuteHeader = ConstU8<InvalidComStmtExecuteHeader, 23>;

/// Another iteration count than 1.
#[derive(Clone, Copy, Debug, Default, PartialEq, Eq, Hash, Error)]
#[error("Invalid iteration count for COM_STMT_EXECUTE")]
pub struct InvalidIterationCount;

/// How often a statement is executed: once.
///
/// MySQL: Client/Server Protocol, "COM_STMT_EXECUTE" (iteration_count).
pub type IterationCount = ConstU32<InvalidIterationCount, 1>;

/// Another first byte than that of COM_STMT_SEND_LONG_DATA.
#[derive(Clone, Copy, Debug, Default, PartialEq, Eq, Hash, Error)]
#[error("Invalid header for COM_STMT_SEND_LONG_DATA")]
pub struct InvalidComStmtSendLongDataHeader;

/// The first byte of COM_STMT_SEND_LONG_DATA.
///
/// MySQL: Client/Server Protocol, "COM_STMT_SEND_LONG_DATA".
pub type ComStmtSendLongDataHeader = ConstU8<InvalidComStmtSendLongDataHeader, 24>;

/// Another first byte than that of COM_STMT_CLOSE.
#[derive(Clone, Copy, Debug, Default, PartialEq, Eq, Hash, Error)]
#[error("Invalid header for COM_STMT_CLOSE")]
pub struct InvalidComStmtCloseHeader;

/// The first byte of COM_STMT_CLOSE.
///
/// MySQL: Client/Server Protocol, "COM_STMT_CLOSE".
pub type ComStmtCloseHeader = ConstU8<InvalidComStmtCloseHeader, 25>;

/// Another first byte than that of COM_STMT_RESET.
#[derive(Clone, Copy, Debug, Default, PartialEq, Eq, Hash, Error)]
#[error("Invalid header for COM_STMT_RESET")]
pub struct InvalidComStmtResetHeader;

/// The first byte of COM_STMT_RESET.
///
/// MySQL: Client/Server Protocol, "COM_STMT_RESET".
pub type ComStmtResetHeader = ConstU8<InvalidComStmtResetHeader, 26>;
