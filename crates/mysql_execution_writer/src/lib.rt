//! Executions of a prepared statement, and attributes of a query, as they are written.
//!
//! What is written is read again by `mysql_executions`, which is proved. `mysql_command_writer` and
//! `mysql_connection_writer` call it; a user calls `put_command` of `mysql_connection`.
//!
//! | what | call |
//! |---|---|
//! | an execution or a bulk execution | [`put_execution`], [`put_bulk_execution`] |
//! | an execution of values by the types in force | [`put_in_force`] |
//! | attributes of a query | [`put_query_attributes`] |
//!
//!     put_execution(capabilities, &parameters, &execution, &mut payload)?;
//!     put_query_attributes(alloc, &attributes, &mut payload)?;
#![tactic(auto)]

mod attributes;
mod bitmap;
mod bulk;
mod cells;
mod execution;
mod in_force;
pub mod laws;
pub mod refusal;

pub use attributes::put_query_attributes;
pub use bulk::put_bulk_execution;
pub use execution::{can_put, put_execution};
pub use in_force::put_in_force;
pub use refusal::PutRefusal;
