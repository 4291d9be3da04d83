//! What events of a connection say, and lines of text with it.
//!
//!     write_reply_event(&mut output, &event)?;     // Row cells=((i 1) (b x61) -)
//!
//! commands.rt, logins.rt and replies.rt are one table, by which each line is written: a row is an
//! event's name and its fields. A [`Form`] says how a line has them.
#![tactic(auto)]

mod commands;
mod fields;
mod form;
mod lists;
mod logins;
mod moments;
pub mod quoted;
mod replies;
mod secrets;
mod texts;
mod values;

pub use crate::commands::{command_said, write_command};
pub use crate::fields::Said;
pub use crate::form::{Form, write_said};
pub use crate::logins::{
    answer_said, authentication_said, greeting_said, response_said, write_authentication_event,
    write_greeting_event, write_response_event,
};
pub use crate::replies::{
    farewell_said, file_data_said, lent_row_said, reply_said, write_reply_event, write_row_ref,
};
pub use crate::secrets::Secrets;
pub use crate::texts::Texts;
pub use crate::values::write_hexadecimal;
