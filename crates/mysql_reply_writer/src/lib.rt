//! Replies of a server, written, and the rules of what is written.
//!
//! [`ReplyWriter`] writes one result by result, as they come; [`write_reply`] a whole list of
//! results. What they write reads back by `mysql_replies`. A program that answers as a server calls
//! them, also by the library for C.
//!
//! The rules say the payloads of each result, and what is a cause against one ([`ReplyRefusal`]).
//! What reading makes of them is in `reply_laws`, and what a prefix reads as in `fronts`. By `laws`
//! a reply that is written call by call is the whole one.
#![tactic(auto)]

mod facts;
pub mod fronts;
pub mod laws;
mod made;
mod packets;
pub mod refusal;
mod reply;
pub mod reply_laws;
mod whole;
mod writer;

pub use refusal::ReplyRefusal;
pub use reply::write_reply;
pub use writer::ReplyWriter;
