//! Bulk executions.

use crate::types::BoundType;
use crate::unclear::UnclearCells;
use mysql_bytes::ByteString;
use mysql_cells::Value;

/// What a parameter holds in a row of a bulk execution.
///
/// Follows "COM_STMT_BULK_EXECUTE" of MariaDB's client/server protocol documentation.
#[derive(Debug, PartialEq, Eq, Drop)]
pub enum BulkValue {
    /// A value, or NULL.
    Value(Value),
    /// The default of the column.
    Default,
    /// Nothing: the column stays as it is.
    Ignore,
}

/// A bulk execution of a prepared statement: one for each row.
///
/// Follows "COM_STMT_BULK_EXECUTE" of MariaDB's client/server protocol documentation.
#[derive(Debug, PartialEq, Eq, Drop)]
pub struct BulkExecution {
    /// The statement's id.
    pub statement: u32,
    /// Whether a result for each row is asked for (SEND_UNIT_RESULTS).
    pub unit_results: bool,
    /// The types of the parameters, where the execution carries them; their names are empty.
    pub types: Option<Vec<BoundType>>,
    /// What the parameters hold in each row.
    pub rows: Vec<Vec<BulkValue>>,
    /// The bytes from the first row on that can't be read, none of a client library's. Servers may
    /// execute the rows before them.
    pub rest: ByteString,
    /// The cells that servers read each their way, none of a client library's.
    pub unclear: Option<UnclearCells>,
}
