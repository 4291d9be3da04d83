//! Queries and the texts made of them: tokens, placeholders, literals, and what a text is read as.
//!
//! The crates of literals, values, digests and sessions use it. A user names most of it by `mysql_values`.
//!
//! | question | call |
//! |---|---|
//! | where are a query's placeholders, and what are their names? | [`ParsedQuery`], [`places`] |
//! | which values does a text have where the query has placeholders? | [`read_text`] |
//! | which literal begins a text? | [`read_literal`] |
//! | by which SQL mode is a text read? | `mysql_bytes::Mode`, for the calls in `_in` |
//!
//!     let query = ParsedQuery::new(alloc, b"SELECT :a")?;
//!     let statement = query.with_marks(alloc)?;                  // SELECT ?
//!     let contents = read_text(alloc, b"SELECT :a", query.places(), b"SELECT 5")?;
#![tactic(auto)]

pub mod alone;
mod hexadecimal;
pub mod laws;
pub mod literals;
pub mod named_params;
mod numbers;
pub mod parsed_query;
pub mod placeholders;
mod strings;
pub mod texts;
pub mod tokens;

pub use literals::{Literal, read_literal, read_literal_in};
pub use named_params::{MixedParamsError, NamedParamsError, ParsedNamedParams};
pub use parsed_query::ParsedQuery;
pub use placeholders::{Place, first_not_alone, is_mixed, places, places_in};
pub use texts::{read_text, read_text_in};
