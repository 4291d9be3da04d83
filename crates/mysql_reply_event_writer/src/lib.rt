//! Writes replies of a server payload by payload: events, each of which is read again as it was.
//!
//! `mysql_connection_writer` calls it, and a user by `mysql_connection`. What isn't read again as
//! it was given is refused, and nothing is appended.
//!
//!     let mut state = EventReader::new(alloc, ReplyKind::Text, capabilities, None);
//!     put_event(&mut state, &ReplyEvent::Ok(ok), &mut payload)?;    // Err(ReplyPutRefusal)
//!
//! [`write_event`] writes the same, and leaves the reader as it was. [`write_next_row`] writes one
//! of many rows by the columns that were read.
#![tactic(auto)]

pub mod laws;
mod next_rows;
mod payloads;
mod put;
pub mod refusal;
mod same;

pub use next_rows::write_next_row;
pub use put::{put_event, write_event};
pub use refusal::ReplyPutRefusal;
pub use same::has_columns;
