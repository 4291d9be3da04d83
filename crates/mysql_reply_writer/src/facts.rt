//! For the proof alone: what the types of a step's fields hold. Each of these only reads.

ghost use Rattle.std.specs.Prelude.{IfSome, Some};
ghost use Rattle.mysql_cells.specs.Values.{FitsFields};
ghost use Rattle.mysql_columns.specs.Columns.{IsColumn};
ghost use Rattle.mysql_rows.specs.Rows.{cell_at};
ghost use Rattle.mysql_columns.specs.Views.{column_view};
ghost use Rattle.mysql_ok_packets.specs.Views.{ok_packet_view};
ghost use Rattle.mysql_server_packets.specs.Views.{prepare_ok_view, progress_report_view, server_error_view};
ghost use Rattle.mysql_reply_writer.specs.Fits.{CellsFit, ErrorFits, OkFits, ReportFits, StatementFits};
ghost use Rattle.mysql_rows.specs.Views.{row_view};

use mysql_cells::laws::fields_fit;
use mysql_columns::Column;
use mysql_ok_packets::OkPacket;
use mysql_rows::Row;
use mysql_server_packets::{ProgressReport, ServerError, StmtPacket};

/// Each field of a column.
pub(crate) fn column_fits(column: &Column)
    ensures { IsColumn (column_view column.now) }
{
    let _schema = column.schema_ref().len();
    let _table = column.table_ref().len();
    let _org_table = column.org_table_ref().len();
    let _name = column.name_ref().len();
    let _org_name = column.org_name_ref().len();
    let _character_set = column.character_set();
    let _column_length = column.column_length();
    let _flags = column.flags().0;
    let _decimals = column.decimals();
}

// The length of bytes that may be there.
fn length_fits(bytes: Option<&[u8]>) {
    if let Some(bytes) = bytes {
        let _length = bytes.len();
    }
}

/// Each field of an OK packet.
pub(crate) fn ok_fits(ok: &OkPacket<'_>)
    ensures { OkFits (ok_packet_view ok.now) }
{
    let _affected_rows = ok.affected_rows();
    if let Some(id) = ok.last_insert_id() {
        let _id = id;
    }
    let _status = ok.status_flags().0;
    let _warnings = ok.warnings();
    length_fits(ok.info_ref());
    length_fits(ok.session_state_info_ref());
}

/// Each field of an error.
pub(crate) fn error_fits(error: &ServerError<'_>)
    ensures { ErrorFits (server_error_view error.now) }
{
    let _code = error.error_code();
    if let Some(state) = error.sql_state_ref() {
        let _state = state.as_bytes();
    }
}

/// Each field of a progress report.
pub(crate) fn report_fits(report: &ProgressReport<'_>)
    ensures { ReportFits (progress_report_view report.now) }
{
    let _stage = report.stage();
    let _max_stage = report.max_stage();
    let _length = report.stage_info_ref().len();
}

/// Each field of a statement, but its counts.
pub(crate) fn statement_fits(statement: &StmtPacket)
    ensures { StatementFits (prepare_ok_view statement.now) }
{
    let _id = statement.statement_id();
    let _warnings = statement.warning_count();
}

// The value of a row's cell, where there is one.
fn cell_fits(row: &Row, place: usize)
    ensures { IfSome (cell_at (row_view row.now) (Some place)) (λ value. FitsFields value) }
{
    if let Some(value) = row.as_ref(place) {
        fields_fit(value);
    }
}

/// Each value of a row's cells.
pub(crate) fn cells_fit(row: &Row)
    ensures { CellsFit (row_view row.now).cells }
{
    for place in 0..row.len() {
        cell_fits(row, place);
    }
}
