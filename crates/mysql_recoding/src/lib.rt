//! One form for the same contents: streams of commands recoded as executions.
//!
//! `mysql_session` passes it on to a user, and the library for C calls it. Two streams that carry
//! the same sets recode to the same bytes, by whatever commands they carry them.
//!
//! | the stream is | call |
//! |---|---|
//! | all there | [`recode`] |
//! | still coming | [`Recoder`] |
//! | read already, as contents | [`send_contents`] |
//!
//!     let mut recoder = Recoder::new(alloc, b"SELECT ?", 1, 1 << 24)?;
//!     recoder.feed(piece, &mut out)?;
//!     recoder.finish(&mut out)?;
#![tactic(auto)]

mod errors;
pub mod laws;
mod recoder;
mod whole;

pub use errors::RecodeError;
pub use recoder::Recoder;
pub use whole::{recode, recode_in, send_contents, send_contents_in};
