//! Parameter sets of a query as executions of a prepared statement: appended to a list of bytes, or
//! written to a writer.

mod executions;
pub mod laws;
mod made_executions;
pub mod set_values;
mod statement;
mod writing;

pub use executions::{put_executions, put_executions_of_values, put_more_executions};
pub use made_executions::put_made_executions;
pub use statement::{Statement, put_prepare};
pub use writing::write_executions;
