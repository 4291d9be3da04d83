//! The rules of commands that carry parameter sets: what is sent by each [`Road`], why not, and how
//! it is read back.
//!
//! `mysql_send` and `mysql_recoding` call it. A user names [`Road`], [`Refusal`] and
//! [`SendToError`] by `mysql_session`. The rules are definitions and theorems. Beside them is what
//! the senders share.
//!
//! | method | commands for the sets | refused besides |
//! |---|---|---|
//! | `Text` | a query with literals for each set | placeholders that touch other tokens |
//! | `Execute` | a prepare, long data and an execution for each set | too many placeholders |
//! | `Bulk` | a prepare, and MariaDB's bulk executions | kinds of values that differ in a column |
//!
//! Each refuses a float, a wrong count of values and packets over the limit. [`SetMaker`] is a
//! caller who makes a set only when its turn comes.
#![tactic(auto)]

mod buffering;
pub mod in_turn;
pub mod laws;
pub mod manual;
mod refusal;
mod road;
mod send_to_error;
mod set_maker;

pub use buffering::{flush, flush_set};
pub use refusal::Refusal;
pub use road::Road;
pub use send_to_error::SendToError;
pub use set_maker::{SetMaker, made_set};
