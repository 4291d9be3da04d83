//! Digests of statements: a text with its values taken out.
//!
//! Statements that differ in their values alone have one digest. So it serves to count them, to
//! filter a log of them, and to show one where the values are a secret.
//!
//!     let digest = digest(alloc, Mode::default(), b"SELECT a FROM t WHERE id=5")?;
//!     // select a from t where id = ?
#![tactic(auto)]

pub mod digests;
pub mod laws;
mod left_out;
mod lexemes;
mod pieces;

pub use digests::digest;
pub use mysql_bytes::Mode;
