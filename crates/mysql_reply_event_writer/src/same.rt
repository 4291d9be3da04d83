//! Whether two events are the same.

ghost use Rattle.std.specs.Prelude.{◌≡◌, option_map};
ghost use Rattle.std.specs.Bool.{Decides};
ghost use Rattle.mysql_columns.specs.Views.{column_view, extended_view, listed_view};
ghost use Rattle.mysql_ok_packets.specs.Views.{ok_packet_view};
ghost use Rattle.mysql_rows.specs.Views.{column_views, row_view};
ghost use Rattle.mysql_server_packets.specs.Views.{local_infile_view, prepare_ok_view, progress_report_view};
ghost use Rattle.mysql_server_packets.specs.Views.{server_error_view};
ghost use Rattle.mysql_reply_events.specs.Views.{event_view};

use mysql_columns::{Column, ExtendedColumn, ListedColumn};
use mysql_ok_packets::OkPacket;
use mysql_reply_events::ReplyEvent;
use mysql_rows::Row;
use mysql_server_packets::{LocalInfilePacket, ProgressReport, ServerError, StmtPacket};

fn same_bytes(a: &[u8], b: &[u8]) -> bool
    ensures { Decides result (a.now ≡ b.now) }
{
    a == b
}

fn same_text(a: Option<&[u8]>, b: Option<&[u8]>) -> bool
    ensures { Decides result (option_map (λ t. t.now) a.entry ≡ option_map (λ t. t.now) b.entry) }
{
    match a {
        None => match b {
            None => true,
            Some(_) => false,
        },
        Some(a) => match b {
            None => false,
            Some(b) => same_bytes(a, b),
        },
    }
}

fn same_ok(a: &OkPacket, b: &OkPacket) -> bool
    ensures { Decides result (ok_packet_view a.now ≡ ok_packet_view b.now) }
{
    a.affected_rows() == b.affected_rows()
        && a.last_insert_id() == b.last_insert_id()
        && a.status_flags() == b.status_flags()
        && a.warnings() == b.warnings()
        && same_text(a.info_ref(), b.info_ref())
        && same_text(a.session_state_info_ref(), b.session_state_info_ref())
}

fn same_statement(a: &StmtPacket, b: &StmtPacket) -> bool
    ensures { Decides result (prepare_ok_view a.now ≡ prepare_ok_view b.now) }
{
    a.statement_id() == b.statement_id()
        && a.num_columns() == b.num_columns()
        && a.num_params() == b.num_params()
        && a.warning_count() == b.warning_count()
}

fn same_report(a: &ProgressReport, b: &ProgressReport) -> bool
    ensures { Decides result (progress_report_view a.now ≡ progress_report_view b.now) }
{
    a.stage() == b.stage()
        && a.max_stage() == b.max_stage()
        && a.progress() == b.progress()
        && same_bytes(a.stage_info_ref(), b.stage_info_ref())
}

fn same_file(a: &LocalInfilePacket, b: &LocalInfilePacket) -> bool
    ensures { Decides result (local_infile_view a.now ≡ local_infile_view b.now) }
{
    same_bytes(a.file_name_ref(), b.file_name_ref())
}

fn same_error(a: &ServerError, b: &ServerError) -> bool
    ensures { Decides result (server_error_view a.now ≡ server_error_view b.now) }
{
    a == b
}

fn same_column(a: &Column, b: &Column) -> bool
    ensures { Decides result (column_view a.now ≡ column_view b.now) }
{
    a == b
}

fn same_extended(a: &ExtendedColumn, b: &ExtendedColumn) -> bool
    ensures { Decides result (extended_view a.now ≡ extended_view b.now) }
{
    same_column(a.column(), b.column()) && same_text(a.metadata_ref(), b.metadata_ref())
}

fn same_listed(a: &ListedColumn, b: &ListedColumn) -> bool
    ensures { Decides result (listed_view a.now ≡ listed_view b.now) }
{
    same_extended(a.column(), b.column()) && same_text(a.default_ref(), b.default_ref())
}

fn same_row(a: &Row, b: &Row) -> bool
    ensures { Decides result (row_view a.now ≡ row_view b.now) }
{
    a == b
}

/// Whether a row has these columns.
///
/// MySQL: Client/Server Protocol, "Column Definition".
pub fn has_columns(row: &Row, columns: &[Column]) -> bool
    ensures { Decides result ((row_view row.now).columns ≡ column_views columns.now) }
{
    row.columns_ref() == columns
}

fn same_payload(a: &Vec<u8>, b: &Vec<u8>) -> bool
    ensures { Decides result (a.now.items ≡ b.now.items) }
{
    same_bytes(a.as_slice(), b.as_slice())
}

/// Whether two events are the same.
pub fn is_same(a: &ReplyEvent, b: &ReplyEvent) -> bool
    ensures { Decides result (event_view a.now ≡ event_view b.now) }
{
    match a {
        ReplyEvent::Ok(a) => match b {
            ReplyEvent::Ok(b) => same_ok(a, b),
            _ => false,
        },
        ReplyEvent::Error(a) => match b {
            ReplyEvent::Error(b) => same_error(a, b),
            _ => false,
        },
        ReplyEvent::Progress(a) => match b {
            ReplyEvent::Progress(b) => same_report(a, b),
            _ => false,
        },
        ReplyEvent::ColumnCount {
            count: n,
            columns_follow: follow,
        } => match b {
            ReplyEvent::ColumnCount {
                count,
                columns_follow,
            } => *n == *count && *follow == *columns_follow,
            _ => false,
        },
        ReplyEvent::Column(a) => match b {
            ReplyEvent::Column(b) => same_extended(a, b),
            _ => false,
        },
        ReplyEvent::Field(a) => match b {
            ReplyEvent::Field(b) => same_listed(a, b),
            _ => false,
        },
        ReplyEvent::ColumnsEnd(a) => match b {
            ReplyEvent::ColumnsEnd(b) => same_ok(a, b),
            _ => false,
        },
        ReplyEvent::Row(a) => match b {
            ReplyEvent::Row(b) => same_row(a, b),
            _ => false,
        },
        ReplyEvent::RawRow(a) => match b {
            ReplyEvent::RawRow(b) => same_payload(a, b),
            _ => false,
        },
        ReplyEvent::RowsEnd(a) => match b {
            ReplyEvent::RowsEnd(b) => same_ok(a, b),
            _ => false,
        },
        ReplyEvent::FileRequest(a) => match b {
            ReplyEvent::FileRequest(b) => same_file(a, b),
            _ => false,
        },
        ReplyEvent::Prepared {
            statement: a,
            columns_follow: follow,
        } => match b {
            ReplyEvent::Prepared {
                statement,
                columns_follow,
            } => same_statement(a, statement) && *follow == *columns_follow,
            _ => false,
        },
        ReplyEvent::Line(a) => match b {
            ReplyEvent::Line(b) => same_payload(a, b),
            _ => false,
        },
    }
}
