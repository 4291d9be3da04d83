//! The table of events, replies: what one payload of a reply says.

use crate::fields::{
    Brief, Field, Held, Said, bytes, bytes_entry, bytes_or, entry, field_of, number,
};
use crate::form::{Form, write_said};
use crate::lists::List;
use crate::secrets::Secrets;
use mysql_columns::{ExtendedColumn, ListedColumn};
use mysql_ok_packets::OkPacket;
use mysql_reply_events::ReplyEvent;
use mysql_row_refs::RowRef;
use mysql_rows::Row;
use mysql_server_packets::{ProgressReport, ServerError, StmtPacket};
use std::io;
use std::io::Write;

/// No bytes where there are none.
fn or_empty(bytes: Option<&[u8]>) -> &[u8] {
    match bytes {
        Some(bytes) => bytes,
        None => &[],
    }
}

/// What an OK or EOF packet says. Short lines have what changed where it answers a command.
pub(crate) fn ok_said<'e>(name: &'static str, ok: &'e OkPacket<'_>) -> Said<'e> {
    let brief = if name == "Ok" {
        Brief::Bare
    } else {
        Brief::Without
    };
    entry(name).with(&[
        number("affected", ok.affected_rows()).with(brief),
        number("insert_id", ok.last_insert_id().unwrap_or(0)).with(brief),
        number("status", u64::from(ok.status_flags().0)).long(),
        number("warnings", u64::from(ok.warnings())).long(),
        bytes("info", or_empty(ok.info_ref())).long(),
        bytes("state", or_empty(ok.session_state_info_ref())).long(),
    ])
}

/// What an error says.
pub(crate) fn error_said<'e>(name: &'static str, error: &'e ServerError<'_>) -> Said<'e> {
    let state = match error.sql_state_ref() {
        Some(state) => Held::State(state.as_bytes()),
        None => Held::Bytes(&[]),
    };
    entry(name).with(&[
        number("code", u64::from(error.error_code())),
        field_of("state", state).long(),
        bytes("message", error.message_ref()),
    ])
}

fn progress_said<'e>(report: &'e ProgressReport<'_>) -> Said<'e> {
    entry("Progress").with(&[
        number("stage", u64::from(report.stage())),
        number("max", u64::from(report.max_stage())),
        number("progress", u64::from(report.progress())),
        bytes("info", report.stage_info_ref()),
    ])
}

/// What a column says, and the default value that a column of a table's list has.
fn column_said<'e>(extended: &'e ExtendedColumn, default: Field<'e>) -> Said<'e> {
    let column = extended.column();
    entry("Column").with(&[
        bytes("schema", column.schema_ref()).long(),
        bytes("table", column.table_ref()).long(),
        bytes("org_table", column.org_table_ref()).long(),
        bytes("name", column.name_ref()),
        bytes("org_name", column.org_name_ref()).long(),
        bytes_or("extended", Held::Usual, extended.metadata_ref()).long(),
        number("charset", u64::from(column.character_set())).long(),
        number("length", u64::from(column.column_length())).long(),
        number("type", u64::from(u8::from(column.column_type()))),
        number("flags", u64::from(column.flags().0)).long(),
        number("decimals", u64::from(column.decimals())).long(),
        default.long(),
    ])
}

fn plain_column_said(column: &ExtendedColumn) -> Said<'_> {
    column_said(column, field_of("default", Held::Usual))
}

fn listed_column_said(listed: &ListedColumn) -> Said<'_> {
    let default = bytes_or("default", Held::Absent, listed.default_ref());
    column_said(listed.column(), default)
}

fn count_said<'e>(count: u16, follow: bool) -> Said<'e> {
    entry("ColumnCount").with(&[
        number("count", u64::from(count)),
        number("follow", u64::from(follow)).long(),
    ])
}

fn row_said(row: &Row) -> Said<'_> {
    entry("Row").with(&[field_of("cells", Held::List(List::Cells(row)))])
}

fn statement_said<'e>(statement: &StmtPacket, follow: bool) -> Said<'e> {
    entry("Prepared").with(&[
        number("id", u64::from(statement.statement_id())),
        number("columns", u64::from(statement.num_columns())),
        number("params", u64::from(statement.num_params())),
        number("warnings", u64::from(statement.warning_count())).long(),
        number("follow", u64::from(follow)).long(),
    ])
}

/// What a payload of a reply says.
pub fn reply_said(event: &ReplyEvent) -> Said<'_> {
    match event {
        ReplyEvent::Ok(ok) => ok_said("Ok", ok),
        ReplyEvent::Error(error) => error_said("Error", error),
        ReplyEvent::Progress(report) => progress_said(report),
        ReplyEvent::ColumnCount {
            count,
            columns_follow,
        } => count_said(*count, *columns_follow),
        ReplyEvent::Column(column) => plain_column_said(column),
        ReplyEvent::Field(listed) => listed_column_said(listed),
        ReplyEvent::ColumnsEnd(ok) => ok_said("ColumnsEnd", ok),
        ReplyEvent::Row(row) => row_said(row),
        ReplyEvent::RawRow(data) => bytes_entry("RawRow", "data", data.as_slice()),
        ReplyEvent::RowsEnd(ok) => ok_said("RowsEnd", ok),
        ReplyEvent::FileRequest(file) => bytes_entry("FileRequest", "name", file.file_name_ref()),
        ReplyEvent::Prepared {
            statement,
            columns_follow,
        } => { statement_said(statement, *columns_follow) }
        ReplyEvent::Line(data) => bytes_entry("Line", "data", data.as_slice()),
    }
}

/// What a payload of the file says that a client was asked for.
pub fn file_data_said(data: &[u8]) -> Said<'_> {
    entry("FileData").with(&[bytes("data", data)])
}

/// What a server's last words say, an error that answers nothing.
pub fn farewell_said<'e>(error: &'e ServerError<'_>) -> Said<'e> {
    error_said("Farewell", error)
}

/// Writes what a payload of a reply says, as a line without its end.
///
/// # Errors
/// - Those of the output.
pub fn write_reply_event<W: Write>(output: &mut W, event: &ReplyEvent) -> io::Result<()> {
    write_said(output, Form::Long(Secrets::Hidden), &reply_said(event))
}

/// What a row says that is lent.
pub fn lent_row_said<'e>(row: &'e RowRef<'e, 'e>) -> Said<'e> {
    entry("Row").with(&[field_of("cells", Held::List(List::LentCells(row)))])
}

/// Writes a row that is lent, as [`write_reply_event`] writes it where it is kept.
///
/// # Errors
/// - Those of the output.
pub fn write_row_ref<W: Write>(output: &mut W, row: &RowRef<'_, '_>) -> io::Result<()> {
    write_said(output, Form::Long(Secrets::Hidden), &lent_row_said(row))
}
