//! What is known of a connection between two payloads, and behind the event that each says.
//!
//! [`State`] goes on behind the events of both sides by one table of steps, all or nothing. A machine
//! that reads or puts a connection calls it. `peek_event` says what the payload that comes next is,
//! and changes nothing.
//!
//! | modules | of what |
//! |---|---|
//! | `state`, `phase`, `event` | what is known, and the words for it |
//! | `following` and its neighbours | the step behind an event of each kind |
//! | `peeking` and its neighbours | the event of the payload that comes next |
//! | `farewell` | the last words of a server: an error that answers nothing |
#![tactic(auto)]

mod authentication;
mod commands;
mod due;
pub mod event;
mod executions;
pub mod following;
mod following_commands;
mod following_replies;
mod following_sizes;
mod login;
mod next_rows;
pub mod phase;
mod replies;
mod sizes;
mod state;

pub use event::Event;
pub use executions::shared_columns_of;
pub use following::FollowRefusal;
pub use phase::Phase;
pub use state::State;

mod command;
mod farewell;
pub mod laws;
mod login_peek;
mod owned;
mod peeking;
mod reply;

pub use farewell::peek_farewell;
pub use login_peek::greets_anew;
pub use peeking::peek_event;
