//! A client's commands are put as payloads, where they read as they were.
//!
//! `mysql_connection_writer` calls it, and a user by `mysql_connection`. A command that would be
//! read as another one is refused, and nothing is appended. The values of an execution are put by
//! the types in force, which `parameters` has.
//!
//!     put_command(alloc, capabilities, None, &Command::Ping, &mut payload)?;
//!     put_command(alloc, capabilities, Some(&parameters), &execution, &mut payload)?;
#![tactic(auto)]

pub mod laws;
pub mod refusal;
pub mod same;
mod sids;
mod testing;
mod values;
mod writing;

pub use refusal::CommandRefusal;
pub use writing::put_command;
