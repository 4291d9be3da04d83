//! Why a payload is no row.

use mysql_fields::WireError;
use thiserror::Error;

/// Why a payload is no row of its result set.
#[derive(Clone, Copy, Debug, PartialEq, Eq, Error)]
pub enum RowError {
    /// The row's first byte, its bitmap or a cell can't be read.
    #[error("the row can't be read: {0}")]
    Unreadable(WireError),
    /// Bytes stand behind the row's last cell.
    #[error("bytes stand behind the row's last cell")]
    BytesLeft,
}
