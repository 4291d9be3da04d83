//! A whole connection, read and put: bytes of both sides in, events out; events in, bytes out.
//!
//! A user names its items by `mysql_connection`; the library for C and the program call it. Steps
//! are `mysql_connection_state`'s, payloads `mysql_connection_writer`'s. Here are framing, limits,
//! and what waits unread.
//!
//!      feed(side, piece) ──► packets ──► the step of the payload ──► next_event
//!      put(side, event)  ──► the payload of the event ──► packets ──► out
//!
//!     let mut connection = Connection::new(alloc, limits);
//!     connection.feed(Side::Server, greeting)?;          // Err(FeedRefusal): nothing is taken
//!     while let Some(event) = connection.next_event()? {
//!         ..
//!     }
#![tactic(auto)]

mod both_streams;
pub mod connection;
mod due;
pub mod end;
pub mod fault;
mod last_words;
pub mod laws;
pub mod lent_event;
mod next_rows;
pub mod packets_refusal;
pub mod payload_refusal;
pub mod put_refusal;
mod putting;
mod putting_commands;
mod putting_executions;
mod putting_packets;
mod putting_payloads;
mod putting_rows;
mod putting_sets;
mod room;
mod saying;
pub mod sets_refusal;
mod stream_buffer;
mod taking;

pub use connection::Connection;
pub use end::End;
pub use fault::{ConnectionFault, FeedRefusal, side_name};
pub use lent_event::LentEvent;
pub use packets_refusal::PacketsRefusal;
pub use payload_refusal::PayloadRefusal;
pub use put_refusal::PutRefusal;
pub use sets_refusal::SetsRefusal;
