//! The prepared statements of a connection by their ids: what is kept of each, and what a command
//! and its reply change.
//!
//! `mysql_connection_state` calls it behind each event. A user names [`Statements`] by
//! `mysql_connection`. How many bytes all of it takes is counted, so that a connection can bound
//! it.
//!
//!     event                           call
//!     the answer to a prepare         prepared, set_columns
//!     long data, an execution         add_long_data, execute
//!     an error behind an execution    take_back, by the Pending that execute answered
//!     close, reset, change of user    close, reset, clear
#![tactic(auto)]

pub mod laws;
pub mod pending;
mod sizes;
pub mod statement;
pub mod statements;
mod stored;

pub use pending::Pending;
pub use statement::Statement;
pub use statements::Statements;
