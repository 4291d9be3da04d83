//! The results of a whole reply, one after another.

ghost use Rattle.std.specs.Prelude.{◌≡◌, IfErr, None, OnOk, length, map, option_map, take};
ghost use Rattle.mysql_ok_packets.specs.Views.{ok_packet_view};
ghost use Rattle.mysql_replies.specs.Together.{RowsResult};
ghost use Rattle.mysql_replies.specs.Views.{outcome_view, outcome_views, report_views, row_views};
ghost use Rattle.mysql_rows.specs.Views.{shared_columns};
ghost use Rattle.mysql_reply_writer.specs.Refusals.{end_cause, whole_cause};
ghost use Rattle.mysql_reply_writer.specs.Written.{ReportStep, RowStep, end_steps, reply_steps, result_steps};
ghost use Rattle.mysql_reply_writer.specs.Written.{results_steps};
ghost use Rattle.mysql_reply_writer.specs.Puts.{IsCause};
ghost use Rattle.mysql_reply_writer.specs.Writer.{Refuses, Wrote, columns_of};

use crate::refusal::ReplyRefusal;
use crate::writer::ReplyWriter;
use mysql_columns::Column;
use mysql_ok_packets::OkPacket;
use mysql_replies::ReplyResult;
use mysql_rows::Row;
use mysql_server_packets::ProgressReport;
use std::rc::RcSlice;

// Writes rows under the columns that rows began with.
fn put_rows(writer: &mut ReplyWriter, rows: &[Row], out: &mut Vec<u8>) -> Result<(), ReplyRefusal>
    ensures ok { OnOk result (Wrote writer.old
        (map (RowStep (columns_of writer.old.so_far.rows)) (row_views rows.now)) writer.new
        out.old.items out.new.items) }
    ensures err { IfErr result
        (Refuses writer.old (map (RowStep (columns_of writer.old.so_far.rows))
        (row_views rows.now))) }
    ensures kept { take (length out.old.items) out.new.items ≡ out.old.items }
{
    'rows: for row in rows {
        writer.row(row, out)?;
    }
    Ok(())
}

// Writes what ends rows, where there is something.
fn put_end(
    writer: &mut ReplyWriter,
    terminator: &Option<OkPacket<'static>>,
    more: bool,
    out: &mut Vec<u8>,
) -> Result<(), ReplyRefusal>
    ensures ok { OnOk result (Wrote writer.old
        (end_steps more (option_map ok_packet_view terminator.now)) writer.new out.old.items
        out.new.items) }
    ensures err { IfErr result (Refuses writer.old (end_steps more (option_map ok_packet_view terminator.now))) }
    ensures kept { take (length out.old.items) out.new.items ≡ out.old.items }
{
    match terminator {
        Some(ok) => writer.end_rows(ok, more, out),
        None => Ok(()),
    }
}

// Writes rows under their columns.
fn put_row_set(
    writer: &mut ReplyWriter,
    columns: &RcSlice<Column>,
    rows: &[Row],
    terminator: &Option<OkPacket<'static>>,
    more: bool,
    out: &mut Vec<u8>,
) -> Result<(), ReplyRefusal>
    ensures ok { OnOk result (Wrote writer.old
        (result_steps more (RowsResult (shared_columns columns.now) (row_views rows.now)
        (option_map ok_packet_view terminator.now))) writer.new out.old.items out.new.items) }
    ensures err { IfErr result
        (Refuses writer.old (result_steps more
        (RowsResult (shared_columns columns.now) (row_views rows.now)
        (option_map ok_packet_view terminator.now)))) }
    ensures kept { take (length out.old.items) out.new.items ≡ out.old.items }
{
    writer.columns(columns, out)?;
    put_rows(writer, rows, out)?;
    put_end(writer, terminator, more, out)
}

// Writes a result, and whether another one follows.
fn put_result(
    writer: &mut ReplyWriter,
    reply_result: &ReplyResult,
    more: bool,
    out: &mut Vec<u8>,
) -> Result<(), ReplyRefusal>
    ensures ok { OnOk result (Wrote writer.old (result_steps more (outcome_view reply_result.now))
        writer.new out.old.items out.new.items) }
    ensures err { IfErr result (Refuses writer.old (result_steps more (outcome_view reply_result.now))) }
    ensures kept { take (length out.old.items) out.new.items ≡ out.old.items }
{
    match reply_result {
        ReplyResult::Ok(ok) => writer.ok(ok, more, out),
        ReplyResult::Rows {
            columns,
            rows,
            terminator,
        } => put_row_set(writer, columns, rows, terminator, more, out),
        ReplyResult::Prepared {
            stmt,
            params,
            columns,
        } => writer.prepared(stmt, params, columns, out),
        ReplyResult::Error(error) => writer.error(error, out),
        ReplyResult::File(file) => writer.file(file, out),
        ReplyResult::RawRows {
            rows: _,
            terminator: _,
        }
        | ReplyResult::Fields {
            fields: _,
            terminator: _,
        }
        | ReplyResult::Line(_) => writer.check_unwritten(),
    }
}

// Writes results: another one follows each but the last.
fn put_results(
    writer: &mut ReplyWriter,
    results: &[ReplyResult],
    out: &mut Vec<u8>,
) -> Result<(), ReplyRefusal>
    ensures ok { OnOk result (Wrote writer.old (results_steps (outcome_views results.now))
        writer.new out.old.items out.new.items) }
    ensures err { IfErr result (Refuses writer.old (results_steps (outcome_views results.now))) }
    ensures kept { take (length out.old.items) out.new.items ≡ out.old.items }
{
    'results: for (index, one) in results.iter().enumerate() {
        let more = index + 1 < results.len();
        put_result(writer, one, more, out)?;
    }
    Ok(())
}

// Writes progress reports.
fn put_reports(
    writer: &mut ReplyWriter,
    progress: &[ProgressReport<'static>],
    out: &mut Vec<u8>,
) -> Result<(), ReplyRefusal>
    ensures ok { OnOk result (Wrote writer.old (map ReportStep (report_views progress.now))
        writer.new out.old.items out.new.items) }
    ensures err { IfErr result (Refuses writer.old (map ReportStep (report_views progress.now))) }
    ensures kept { take (length out.old.items) out.new.items ≡ out.old.items }
{
    'reports: for report in progress {
        writer.report(report, out)?;
    }
    Ok(())
}

/// Writes a whole reply. After a refusal `out` still begins with what it held.
pub(crate) fn put_reply(
    writer: &mut ReplyWriter,
    results: &[ReplyResult],
    progress: &[ProgressReport<'static>],
    out: &mut Vec<u8>,
) -> Result<(), ReplyRefusal>
    ensures ok { OnOk result (Wrote writer.old
        (reply_steps (outcome_views results.now) (report_views progress.now)) writer.new
        out.old.items out.new.items) }
    ensures whole { OnOk result (end_cause writer.new.so_far ≡ None) }
    ensures err { IfErr result
        (IsCause (whole_cause writer.old.so_far
        (reply_steps (outcome_views results.now) (report_views progress.now)))) }
    ensures kept { take (length out.old.items) out.new.items ≡ out.old.items }
{
    put_reports(writer, progress, out)?;
    put_results(writer, results, out)?;
    writer.finish()
}
