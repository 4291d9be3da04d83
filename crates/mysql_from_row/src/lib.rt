//! Rows that become values of Rust: tuples, single values, and types of one's own, by `FromRow`.
//! Those of a row that is lent, where its cells lie, do so by `FromRowRef`.
//!
//!     let (id, name) = from_row_ref::<(u32, &str)>(&row)?;
//!
//! Single cells are converted by `RowExt` and `RowRefExt`, also out of a row (`take`). A user calls
//! these on the rows that a reader of replies gives.
#![tactic(auto)]

mod cells;
pub mod convert;
pub mod errors;
pub mod lent;
mod lent_cells;
mod lent_tuples;
pub mod lent_values;
mod tuples;
pub mod values;

pub use convert::{FromRow, from_cell, from_row, from_row_opt};
pub use errors::{FromRowError, RowConversionError};
pub use lent::{FromRowRef, from_cell_ref, from_row_ref};
pub use lent_values::SingleValueRef;
pub use values::SingleValue;

mod booleans;
pub mod from_value_ref;
mod numbers;
pub mod row_ext;
pub mod row_ref_ext;
mod texts;

pub use from_value_ref::FromValueRef;
pub use row_ext::RowExt;
pub use row_ref_ext::RowRefExt;
