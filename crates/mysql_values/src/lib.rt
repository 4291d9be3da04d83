//! Values and parameters: parameter sets of a query and the texts that they make, over queries and
//! cells.
//!
//! A public crate. The crates of sessions use it.
//!
//! [`Params`] is one set: no values, values in order, or values by name. A query is text with
//! placeholders; [`bind_text`] writes it with literals instead.
//!
//!     let params = Params::Positional(values);
//!     bind_text(alloc, b"SELECT ? + 1", &params, &mut out)?;   // SELECT 5 + 1
//!     let query = ParsedNamedParams::parse(alloc, b"SELECT ? + 1")?;
//!     let lent = params.values_for(alloc, &query)?;            // in the order of the placeholders
#![tactic(auto)]

pub mod bind;
mod contents;
pub mod laws;
pub mod params;

pub use bind::{BindError, bind_query, bind_text, bind_text_at, bind_text_in};
pub use contents::ContentExt;
pub use mysql_bytes::{ByteString, Content, Mode, Spelling, is_safe_to_quote};
pub use mysql_cells::{BinValue, TextValue, Value, ValueDeserializer, read_cell, read_text_cell};
pub use mysql_field_lists::{ClientSide, SerializationSide, ServerSide};
pub use mysql_literals::{AsSql, AsSqlError};
pub use mysql_queries::{
    Literal, MixedParamsError, NamedParamsError, ParsedNamedParams, Place, first_not_alone,
    is_mixed, places, places_in, read_literal, read_literal_in, read_text, read_text_in,
};
pub use params::{MissingNamedParameterError, Params, ParamsConfusionError, ParamsError, SetError};
