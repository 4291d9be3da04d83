//! What a program in C sees of an event of a connection: one struct for all kinds.
//!
//! `mysql_c_connection` calls it. [`ShownEvent`] is `mysql_session_event` of
//! `bindings/c/mysql_session.h`. A field that a kind doesn't have is 0, and a text that it doesn't
//! have is empty.
//!
//!     let shown = telling_reply(&event);        // kind, side, affected_rows, ..
#![tactic(auto)]

pub mod commands;
pub mod logins;
pub mod packets;
pub mod replies;
pub mod shown;

pub use commands::telling_command;
pub use logins::{telling_authentication, telling_greeting, telling_response_event};
pub use packets::telling_error;
pub use replies::{telling_reply, telling_row};
pub use shown::{ShownEvent, blank, with_data};
