//! Why sets of a query aren't put.

use crate::packets_refusal::PacketsRefusal;
use thiserror::Error;

/// Why packets of a query's sets aren't put on a connection.
///
/// MySQL: Client/Server Protocol, "COM_STMT_PREPARE Response" (num_params).
#[derive(Clone, Copy, Debug, PartialEq, Eq, Error)]
pub enum SetsRefusal {
    /// No statement of this id is known: the server hasn't answered its prepare, or it is closed.
    #[error("the statement is not known")]
    UnknownStatement,
    /// The server counted so many parameters, and the query has another number of placeholders.
    #[error("the server counted {0} parameters, and the query has another number of placeholders")]
    WrongCount(u16),
    /// One of the packets isn't put. Those before it were.
    #[error("{0}")]
    Packets(PacketsRefusal),
}
