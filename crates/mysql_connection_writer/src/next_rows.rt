//! Rows that stand behind others, as most of a long result do.

ghost use Rattle.std.specs.Prelude.{◌≡◌, IsTrue};
ghost use Rattle.mysql_rows.specs.Views.{row_view};
ghost use Rattle.mysql_connection_writer.specs.NextRows.{IsAmongRows, WritesNextRow, row_due};

use mysql_connection_state::State;
use mysql_reply_event_writer::{has_columns, write_next_row as write_row_under};
use mysql_rows::Row;
use std::alloc::AllocError;

/// Appends the payload of a row's cells under the columns of the reply that is due, not framed.
///
/// It does where rows are due behind others, and the row need not be read back.
///
/// `false` says nothing of the row: [`write_event`](crate::write_event) writes it then, where it has
/// a payload.
///
/// Promise: what was appended says the row, behind which the same stands (`WritesNextRow`).
///
/// # Errors
/// - `AllocError` when memory runs out.
///
/// `out` is as it was after an error, and where the answer is `false`.
///
/// MySQL: Client/Server Protocol, "Text Resultset Row" and "Binary Protocol Resultset Row".
#[inline(always)]
pub fn write_next_row(state: &State, row: &Row, out: &mut Vec<u8>) -> Result<bool, AllocError>
    requires { IsAmongRows state.now.standing }
    ensures { WritesNextRow state.now.standing (row_view row.now) out.old.items out.new.items result }
{
    let Some(reader) = state.reply_reader() else {
        return Ok(false);
    };
    match reader.columns() {
        Some(columns) => write_row_under(reader.context(), columns.as_slice(), row, out),
        None => Ok(false),
    }
}

/// Whether a row has the columns of the reply that is due.
///
/// MySQL: Client/Server Protocol, "Column Definition".
pub fn has_columns_due(state: &State, row: &Row) -> bool
    ensures { IsTrue result → row_due state.now.standing (row_view row.now) ≡ row_view row.now }
{
    let Some(reader) = state.reply_reader() else {
        return false;
    };
    match reader.columns() {
        Some(columns) => has_columns(row, columns.as_slice()),
        None => false,
    }
}
