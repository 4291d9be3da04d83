//! Streams of commands that carry parameter sets of one query, read back.
//!
//! `mysql_session` passes it on to a user. The senders are proved by it: what they append is read
//! here as it was given.
//!
//! [`Receiver`] takes a stream in pieces, as they come; [`receive`] takes all pieces at once. Each
//! answers an [`Audit`]: the sets that were carried, and how the stream ended.
//!
//!     let mut receiver = Receiver::new(alloc, b"SELECT ?", 1, 1 << 24)?;
//!     receiver.feed(piece)?;              // Err(StreamFault): the same from then on
//!     let sets = receiver.take_sets();    // those that are whole so far
//!     let end = receiver.finish().end;    // End::Whole, or what is missing
#![tactic(auto)]

mod audit;
mod carried;
mod cells;
mod fault;
mod fields;
mod incoming;
pub mod laws;
mod layout;
mod param_type;
mod progress;
mod read_error;
mod reading;
mod receiver;
mod statement;
mod step;
mod whole;

pub use audit::{Audit, End};
pub use fault::StreamFault;
pub use mysql_values::Content;
pub use receiver::{Receiver, ReceiverError};
pub use whole::{receive, receive_in};
