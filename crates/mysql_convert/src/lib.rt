//! Conversions between Rust's types and values, in both directions.
//!
//! `ToValue` makes a value, and `IntoParams` a parameter set of a list, pairs, a tuple or boxed
//! objects. `FromValue` makes a Rust value of a value; its intermediate form can be undone. Rows and
//! recoding call these.
#![tactic(auto)]

mod booleans;
mod contents;
pub mod conversion;
mod durations;
pub mod errors;
mod integer_values;
mod integers;
pub mod intermediates;
pub mod laws;
pub mod numbers;
mod objects;
mod scalars;
mod sets;
mod text_values;
mod texts;
mod to_value;
mod to_value_error;
mod tuples;

pub use conversion::{FromValue, Intermediate, from_value, from_value_opt, get_intermediate};
pub use errors::FromValueError;
pub use intermediates::{OptionIr2, ParseIr, ParseIrOpt, ValueIr};
pub use mysql_values::SetError;
pub use sets::IntoParams;
pub use to_value::ToValue;
pub use to_value_error::ToValueError;
