//! Rows of result sets that own their cells: reached by number or by name, read and written.
//!
//! The crates of replies and of connections use it. A user names [`Row`] by `mysql_session` or
//! `mysql_packets`. Rows that borrow are in `mysql_row_refs`, conversions in `mysql_from_row`.
//!
//! | format | read as | written by |
//! |---|---|---|
//! | text | `RowDeserializer<ServerSide, Text>` | [`write_text_row`], `Row::write_text` |
//! | binary | `RowDeserializer<ServerSide, Binary>` | [`write_binary_row`], `Row::write_binary` |
//!
//!     let row = new_row(alloc, values, columns)?;
//!     let id = row.value_at("id");            // Some(&Value), or None
//!     row.write_text(&mut payload)?;          // Err(RowRefusal) where a value has no such form
#![tactic(auto)]

mod binary_cell;
mod binary_writing;
mod calls;
mod column_index;
mod deserializer;
mod held;
pub mod laws;
mod refusal;
pub mod row;
mod row_bitmap;
mod text_writing;
mod writing;

pub use column_index::ColumnIndex;
pub use deserializer::RowDeserializer;
pub use refusal::RowRefusal;
pub use row::{Row, new_row, new_row_raw};
pub use writing::{write_binary_row, write_text_row};
