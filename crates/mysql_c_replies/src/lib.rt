//! The part of the library for C that reads and writes replies: what its exports do.
//!
//! `mysql_c` exports its functions, and `mysql_c_connection` shows columns and values by it.
//!
//! | in turn | reading | writing |
//! |---|---|---|
//! | begin | [`reply_new`] | [`writer_new`] |
//! | go on | [`reply_feed`], [`reply_take`] | [`writer_column`], [`writer_row`], .. |
//! | look | [`reply_result`], [`reply_cell`] | |
//! | end | [`reply_end`] | [`writer_end`] |
//!
//!     let code = reply_feed(alloc, &mut handle, piece);
//!     let code = reply_cell(alloc, &mut handle, result, row, column, &mut shown);
#![tactic(auto)]

mod finding;
mod given;
mod reading;
mod shown;
mod spot;
mod steps;
mod writing;

pub use finding::{
    reply_cell, reply_column, reply_param, reply_result, reply_results, reply_state,
};
pub use reading::{reply_end, reply_feed, reply_new, reply_take};
pub use shown::{ShownColumn, ShownResult, ShownValue, show_column, show_value};
pub use spot::ShownSpot;
pub use writing::{
    writer_column, writer_end, writer_end_rows, writer_error, writer_new, writer_ok,
    writer_prepared, writer_row, writer_rows,
};
