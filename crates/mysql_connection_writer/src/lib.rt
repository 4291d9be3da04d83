//! The payload of an event of a connection, written where the table of steps reads it as that
//! event.
//!
//! `mysql_connection_machine` calls it for `put`. Nothing is appended for an event that isn't this
//! side's turn, or that would be read as another one.
//!
//! | what | call |
//! |---|---|
//! | any event | [`write_event`] |
//! | an execution of values, by the types in force | [`execution_event`], [`write_execution`] |
//! | one of many rows | [`write_next_row`] |
//!
//!     write_event(&state, &event, &mut payload)?;    // Err(EventRefusal): the cause
#![tactic(auto)]

mod authentication;
mod command;
mod executions;
pub mod laws;
mod login;
mod next_rows;
mod own;
mod phases;
mod plain;
pub mod refusal;
mod reply;
mod same;
mod writing;

pub use executions::{execution_event, write_execution};
pub use next_rows::{has_columns_due, write_next_row};
pub use refusal::{BadEvent, EventRefusal};
pub use writing::write_event;
