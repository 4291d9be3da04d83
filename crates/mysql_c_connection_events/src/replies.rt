//! What C sees of replies.

ghost use Rattle.std.specs.Prelude.{◌≡◌};
ghost use Rattle.mysql_columns.specs.Views.{listed_view};
ghost use Rattle.mysql_reply_events.specs.Views.{event_view};
ghost use Rattle.mysql_server_packets.specs.Views.{prepare_ok_view, progress_report_view};
ghost use Rattle.mysql_c_connection_events.specs.Replies.{count_shown, field_shown, prepared_shown};
ghost use Rattle.mysql_c_connection_events.specs.Replies.{progress_shown, reply_shown, row_shown};

use crate::packets::{telling_error, telling_packet};
use crate::shown::{ShownEvent, blank, with_data, with_statement, with_text};
use mysql_columns::ListedColumn;
use mysql_reply_events::ReplyEvent;
use mysql_server_packets::{ProgressReport, StmtPacket};

/// How far a command has come.
fn telling_progress(report: &ProgressReport<'_>) -> ShownEvent
    ensures { result ≡ progress_shown (progress_report_view report.now) result }
{
    let mut shown = with_text(22, 1, report.stage_info_ref());
    shown.rows = report.stage() as usize;
    shown.columns = report.max_stage() as usize;
    shown.number = report.progress();
    shown
}

/// A number of columns.
fn telling_count(count: u16, columns_follow: bool) -> ShownEvent
    ensures { result ≡ count_shown count columns_follow result }
{
    let mut shown = blank(23, 1);
    shown.columns = count as usize;
    shown.follows = columns_follow;
    shown
}

/// A column of a table.
fn telling_field(field: &ListedColumn) -> ShownEvent
    ensures { result ≡ field_shown (listed_view field.now) result }
{
    match field.default_ref() {
        Some(default) => {
            let mut shown = with_data(25, 1, default);
            shown.flags = 1;
            shown
        }
        None => blank(25, 1),
    }
}

/// A row of so many cells.
pub fn telling_row(cells: usize) -> ShownEvent
    ensures { result ≡ row_shown cells result }
{
    let mut shown = blank(27, 1);
    shown.columns = cells;
    shown
}

/// A prepared statement.
fn telling_prepared(statement: &StmtPacket, columns_follow: bool) -> ShownEvent
    ensures { result ≡ prepared_shown (prepare_ok_view statement.now) columns_follow result }
{
    let mut shown = with_statement(31, 1, statement.statement_id());
    shown.params = statement.num_params() as usize;
    shown.columns = statement.num_columns() as usize;
    shown.warnings = statement.warning_count();
    shown.follows = columns_follow;
    shown
}

/// What the server replies.
pub fn telling_reply(said: &ReplyEvent) -> ShownEvent
    ensures { result ≡ reply_shown (event_view said.now) result }
{
    match said {
        ReplyEvent::Ok(ok) => telling_packet(20, ok),
        ReplyEvent::Error(error) => telling_error(21, error),
        ReplyEvent::Progress(report) => telling_progress(report),
        ReplyEvent::ColumnCount {
            count,
            columns_follow,
        } => telling_count(*count, *columns_follow),
        ReplyEvent::Column(_) => blank(24, 1),
        ReplyEvent::Field(field) => telling_field(field),
        ReplyEvent::ColumnsEnd(ok) => telling_packet(26, ok),
        ReplyEvent::Row(row) => telling_row(row.len()),
        ReplyEvent::RawRow(bytes) => with_data(28, 1, bytes),
        ReplyEvent::RowsEnd(ok) => telling_packet(29, ok),
        ReplyEvent::FileRequest(file) => with_text(30, 1, file.file_name_ref()),
        ReplyEvent::Prepared {
            statement,
            columns_follow,
        } => telling_prepared(statement, *columns_follow),
        ReplyEvent::Line(text) => with_text(32, 1, text),
    }
}
