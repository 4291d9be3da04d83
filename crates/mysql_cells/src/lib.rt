//! Values of the client/server protocol: their cells in the binary format, and what they mean.
//!
//! The crates of rows, executions and sessions use it. A user names most of it by `mysql_values`.
//!
//! | a value as | written by | read by |
//! |---|---|---|
//! | a literal of a query | `mysql_literals::push_literal_in` | `mysql_queries::read_literal` |
//! | a cell in the binary format | [`cell_of`] and [`put_cell`] | [`read_cell`] |
//! | a cell in the text format | `mysql_rows::write_text_row` | [`read_text_cell`] |
//!
//!     let value = read_cell(alloc, 3, false, &mut ParseBuf(&[5, 0, 0, 0]))?;      // Value::Int(5)
#![tactic(auto)]

pub mod cell_form;
pub mod cell_values;
mod cell_writing;
pub mod cells;
pub mod date_text;
pub mod deserializer;
mod into_content;
pub mod laws;
pub mod typed_cell;
pub mod value;

pub use cell_form::CellForm;
pub use cells::{read_cell, read_text_cell};
pub use deserializer::{BinValue, TextValue, ValueDeserializer};
pub use typed_cell::{Cell, cell_of, put_cell};
pub use value::Value;
