//! An execution that isn't answered.

use mysql_executions::{Refused, StatementParameters};

/// An execution that isn't answered: what an error takes back.
///
/// Follows "COM_STMT_EXECUTE" of the client/server protocol documentation.
#[derive(Drop)]
pub struct Pending {
    /// The statement's id.
    pub id: u32,
    /// How the execution is refused.
    pub refused: Refused,
    /// How many types it carried.
    pub carried: usize,
    // What was in force before it, and the size of the long data that waited then.
    pub(crate) before: StatementParameters,
    pub(crate) sent: usize,
}
