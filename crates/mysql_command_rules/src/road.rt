//! The ways in which parameter sets are sent.

/// How parameter sets of a query are sent.
#[derive(Clone, Copy, Debug, PartialEq, Eq)]
pub enum Road {
    /// A text query for each set, its values as literals.
    Text,
    /// One prepare, and an execution for each set.
    Execute,
    /// One prepare, and MariaDB's bulk executions, each of as many sets as it has room for.
    Bulk,
}
