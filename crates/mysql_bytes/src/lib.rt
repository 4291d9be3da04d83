//! Bytes and what they mean, whatever holds them: byte strings, contents, and how a server reads them.
//!
//! Crates of queries, values, rows and connections use it. A user names it by `mysql_values`.
//!
//! | type | what it is |
//! |---|---|
//! | [`ByteString`] | the bytes of a value or of a name |
//! | [`Content`] | what a literal or a value stands for |
//! | [`Mode`] | the SQL mode by which a server reads a text |
//! | [`Spelling`] | how byte strings are written as literals |
#![tactic(auto)]

pub mod byte_string;
pub mod content;
pub mod mode;
pub mod spelling;

pub use byte_string::ByteString;
pub use content::Content;
pub use mode::{Mode, is_safe_to_quote};
pub use spelling::Spelling;
