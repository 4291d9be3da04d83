//! Replies of a server, read from the bytes of a connection however they are cut.
//!
//! `mysql_session` passes it on to a user, and the library for C calls it. [`ReplyReader`] reads a
//! reply as its bytes come, and answers its results or lends its rows. [`read_reply`] reads one
//! whose pieces are all there.
//!
//!     let mut reader = ReplyReader::new(alloc, ReplyKind::Text, capabilities, 1, 1 << 24);
//!     reader.feed(piece)?;                      // Err(ReplyFault): the same from then on
//!     let results = reader.take_results();      // those that are whole so far
//!
//!     let mut rest = piece;
//!     while let Some(row) = reader.next_row(&mut rest)? { .. }    // rows that borrow the piece
#![tactic(auto)]

mod borrowed_rows;
mod borrowing;
pub mod fault;
mod framing;
mod handed_out;
pub mod laws;
mod next_payload;
mod open_rows;
mod part;
mod put;
mod reader;
pub mod results;
mod state;

pub use fault::ReplyFault;
pub use mysql_reply_events::{Context, ReplyKind};
pub use reader::{ReplyReader, read_reply};
pub use results::{Reply, ReplyEnd, ReplyResult};
