//! The first byte of a bulk execution.

use mysql_field_constants::ConstU8;
use thiserror::Error;

/// Another first byte than that of COM_STMT_BULK_EXECUTE.
#[derive(Clone, Copy, Debug, Default, PartialEq, Eq, Hash, Error)]
#[error("Invalid header for COM_STMT_BULK_EXECUTE")]
pub struct InvalidComStmtBulkExecuteHeader;

/// The first byte of COM_STMT_BULK_EXECUTE.
///
/// MariaDB: Client/Server Protocol, "COM_STMT_BULK_EXECUTE".
pub type ComStmtBulkExecuteHeader = ConstU8<InvalidComStmtBulkExecuteHeader, 250>;
