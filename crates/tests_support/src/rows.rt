//! The fields of rows of data: a line's tokens, and the names that a file gives to them.
//!
//! `conformance` and `connection_conformance` read their rows by it. A row is a line of text with
//! an input and what is expected; a token stands for bytes or for a number.
//!
//!     let tokens = tokens_of(alloc, line, &names)?;
//!     let bytes = bytes_of(alloc, field)?;
//!     let limit: usize = number(field)?;

mod fields;
mod tokens;
mod trouble;

pub use fields::{bytes_of, number};
pub use tokens::{Names, Token, tokens_of};
pub use trouble::Trouble;
