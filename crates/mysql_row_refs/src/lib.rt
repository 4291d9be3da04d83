//! Rows of result sets that borrow their payloads: nothing of a cell is copied.
//!
//! The crates of replies and of connections use it. A user names its items by `mysql_session`.
//!
//!     payload ──► RowReader::row ──► RowRef ──► get ──► ValueRef, borrowed
//!                                      │
//!                                      └──► StoredRows::push, which keeps copies in three lists
//!
//!     let mut reader = RowReader::new(alloc, columns, RowFormat::Text)?;
//!     let row = reader.row(payload)?;
//!     let id = row.get("id");
//!     stored.push(&row)?;
#![tactic(auto)]

mod calls;
mod cell_values;
mod cells;
pub mod errors;
pub mod format;
pub mod lines;
mod place;
pub mod reader;
mod reading;
pub mod row_ref;
mod rows;
pub mod stored;
pub mod stored_iter;
mod storing;
pub mod value_ref;

pub use errors::RowError;
pub use format::RowFormat;
pub use lines::{is_row, limit_of_terminators, starts_with};
pub use reader::RowReader;
pub use row_ref::RowRef;
pub use stored::StoredRows;
pub use stored_iter::StoredIter;
pub use value_ref::ValueRef;
