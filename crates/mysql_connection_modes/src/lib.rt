//! What is known of the session's mode and character set behind each event of a connection.
//!
//! `mysql_connection_machine` calls it behind each event, read or put. The table of steps knows
//! nothing of it.
#![tactic(auto)]

pub mod modes;

pub use modes::{is_plain, mode_behind, mode_behind_payload, mode_executed};
