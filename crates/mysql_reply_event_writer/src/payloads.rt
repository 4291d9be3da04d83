//! The payloads of events.

ghost use Rattle.std.specs.Prelude.{◌≡◌, ◌++◌, Some, []};
ghost use Rattle.mysql_buf.specs.Writing.{lenenc_int};
ghost use Rattle.mysql_fields.specs.Wire.{Appends};
ghost use Rattle.mysql_ok_packets.specs.Views.{ok_packet_view};
ghost use Rattle.mysql_ok_packets.specs.Written.{eof_bytes, ok_packet_bytes};
ghost use Rattle.mysql_rows.specs.Views.{row_view};
ghost use Rattle.mysql_server_packets.specs.Packets.{Error, Progress, err_packet, prepare_ok};
ghost use Rattle.mysql_server_packets.specs.Views.{err_packet_view, prepare_ok_view};
ghost use Rattle.mysql_server_packets.specs.Views.{progress_report_view, server_error_view};
ghost use Rattle.mysql_reply_events.specs.Readings as readings;
ghost use Rattle.mysql_reply_events.specs.Views.{event_view};
ghost use Rattle.mysql_reply_event_writer.specs.Puts.{WritesPayload, memory_alone};
ghost use Rattle.mysql_reply_event_writer.specs.Written.{cells_bytes, count_bytes, event_payload, follow_byte};
ghost use Rattle.mysql_reply_event_writer.specs.Written.{follow_told, form_cause, terminator_bytes, unless_cause};

use crate::refusal::ReplyPutRefusal;
use mysql_buf::BufMutExt;
use mysql_fields::MySerialize;
use mysql_ok_packets::{CommonOkPacket, OkPacket, OldEofPacket, ResultSetTerminator};
use mysql_reply_events::{Context, ReplyEvent};
use mysql_rows::{Row, RowRefusal};
use mysql_server_packets::{ErrPacket, ProgressReport, ServerError, StmtPacket};
use std::alloc::AllocError;
use std::borrow::CowSlice;

/// Appends an OK packet.
#[tactic(auto, unfolding(mysql_ok_packets::specs::Written::ok_packet_bytes))]
fn write_ok(context: Context, ok: &OkPacket, out: &mut Vec<u8>) -> Result<(), AllocError>
    ensures { Appends result out.old.items out.new.items
        (ok_packet_bytes 0 (readings.protocol context) (ok_packet_view ok.now)) }
{
    ok.serialize_as::<CommonOkPacket>(context.capabilities.protocol, ok.status_flags(), out)
}

// Appends the OK packet that ends rows.
#[tactic(auto, unfolding(mysql_ok_packets::specs::Written::ok_packet_bytes))]
fn write_ok_terminator(context: Context, ok: &OkPacket, out: &mut Vec<u8>) -> Result<(), AllocError>
    ensures { Appends result out.old.items out.new.items
        (ok_packet_bytes 254 (readings.protocol context) (ok_packet_view ok.now)) }
{
    ok.serialize_as::<ResultSetTerminator>(context.capabilities.protocol, ok.status_flags(), out)
}

/// Appends an EOF packet.
#[tactic(auto, unfolding(mysql_ok_packets::specs::Written::eof_bytes))]
fn write_eof(context: Context, ok: &OkPacket, out: &mut Vec<u8>) -> Result<(), AllocError>
    ensures { Appends result out.old.items out.new.items (eof_bytes (ok_packet_view ok.now)) }
{
    ok.serialize_as::<OldEofPacket>(context.capabilities.protocol, ok.status_flags(), out)
}

/// Appends what ends rows.
fn write_terminator(context: Context, ok: &OkPacket, out: &mut Vec<u8>) -> Result<(), AllocError>
    ensures { Appends result out.old.items out.new.items (terminator_bytes context (ok_packet_view ok.now)) }
{
    if context.deprecates_eof() {
        write_ok_terminator(context, ok, out)
    } else {
        write_eof(context, ok, out)
    }
}

/// The packet of an error.
fn error_packet<'a>(error: &'a ServerError<'_>) -> ErrPacket<'a>
    ensures { err_packet_view result ≡ Error (server_error_view error.now) }
{
    let state = match error.sql_state_ref() {
        Some(state) => Some(*state),
        None => None,
    };
    ErrPacket::Error(ServerError::new(
        error.error_code(),
        state,
        CowSlice::Borrowed(error.message_ref()),
    ))
}

/// Appends an error packet.
fn write_error(error: &ServerError, out: &mut Vec<u8>) -> Result<(), AllocError>
    ensures { Appends result out.old.items out.new.items (err_packet (Error (server_error_view error.now))) }
{
    error_packet(error).serialize(out)
}

/// The packet of a progress report.
fn report_packet<'a>(report: &'a ProgressReport<'_>) -> ErrPacket<'a>
    ensures { err_packet_view result ≡ Progress (progress_report_view report.now) }
{
    ErrPacket::Progress(ProgressReport::new(
        report.stage(),
        report.max_stage(),
        report.progress(),
        CowSlice::Borrowed(report.stage_info_ref()),
    ))
}

/// Appends a progress report.
fn write_report(report: &ProgressReport, out: &mut Vec<u8>) -> Result<(), AllocError>
    ensures { Appends result out.old.items out.new.items (err_packet (Progress (progress_report_view report.now))) }
{
    report_packet(report).serialize(out)
}

// Appends the byte that says whether columns follow.
fn write_follow(follow: bool, out: &mut Vec<u8>) -> Result<(), AllocError>
    ensures { Appends result out.old.items out.new.items (follow_byte follow) }
{
    let byte = if follow { 1 } else { 0 };
    out.push(byte)?;
    Ok(())
}

// Appends a count with the byte before it, after room was made for both.
fn write_follow_and_count(count: u16, follow: bool, out: &mut Vec<u8>) -> Result<(), AllocError>
    ensures { Appends result out.old.items out.new.items (follow_byte follow ++ lenenc_int count) }
{
    let len = out.len();
    write_follow(follow, out)?;
    let answer = out.put_lenenc_int(count as u64);
    if answer.is_err() {
        out.truncate(len);
    }
    answer
}

// Appends a count with the byte behind it.
fn write_count_and_follow(count: u16, follow: bool, out: &mut Vec<u8>) -> Result<(), AllocError>
    ensures { Appends result out.old.items out.new.items (lenenc_int count ++ follow_byte follow) }
{
    let len = out.len();
    out.put_lenenc_int(count as u64)?;
    let answer = write_follow(follow, out);
    if answer.is_err() {
        out.truncate(len);
    }
    answer
}

/// Appends a count of columns.
fn write_count(
    context: Context,
    count: u16,
    follow: bool,
    out: &mut Vec<u8>,
) -> Result<(), AllocError>
    ensures { Appends result out.old.items out.new.items (count_bytes context count follow) }
{
    if context.has_optional_metadata() {
        write_follow_and_count(count, follow, out)
    } else if context.has_cached_metadata() {
        write_count_and_follow(count, follow, out)
    } else {
        out.put_lenenc_int(count as u64)
    }
}

// Appends a statement packet and the byte behind it.
fn write_prepared_and_follow(
    statement: &StmtPacket,
    follow: bool,
    out: &mut Vec<u8>,
) -> Result<(), AllocError>
    ensures { Appends result out.old.items out.new.items
        (prepare_ok (prepare_ok_view statement.now) ++ follow_byte follow) }
{
    let len = out.len();
    statement.serialize(out)?;
    let answer = write_follow(follow, out);
    if answer.is_err() {
        out.truncate(len);
    }
    answer
}

// Appends a statement packet alone.
fn write_prepared_alone(statement: &StmtPacket, out: &mut Vec<u8>) -> Result<(), AllocError>
    ensures { Appends result out.old.items out.new.items (prepare_ok (prepare_ok_view statement.now) ++ []) }
{
    statement.serialize(out)
}

/// Appends a statement packet.
fn write_prepared(
    context: Context,
    statement: &StmtPacket,
    follow: bool,
    out: &mut Vec<u8>,
) -> Result<(), AllocError>
    ensures { Appends result out.old.items out.new.items
        (prepare_ok (prepare_ok_view statement.now) ++ follow_told context follow) }
{
    if context.has_optional_metadata() {
        write_prepared_and_follow(statement, follow, out)
    } else {
        write_prepared_alone(statement, out)
    }
}

/// Appends a row.
fn write_row(context: Context, row: &Row, out: &mut Vec<u8>) -> Result<(), ReplyPutRefusal>
    ensures { WritesPayload
        (unless_cause (form_cause context (row_view row.now)) (cells_bytes context (row_view row.now)))
        out.old.items out.new.items result }
{
    let written = if context.kind.has_binary_rows() {
        row.write_binary(row.columns_ref(), out)
    } else {
        row.write_text(out)
    };
    match written {
        Ok(()) => Ok(()),
        Err(RowRefusal::NoForm(_)) => Err(ReplyPutRefusal::BadEvent),
        Err(RowRefusal::Memory) => Err(ReplyPutRefusal::Memory),
    }
}

// What was answered, where it is refused for want of memory alone.
fn or_memory(written: Result<(), AllocError>) -> Result<(), ReplyPutRefusal>
    ensures { result ≡ memory_alone written }
{
    match written {
        Ok(()) => Ok(()),
        Err(_) => Err(ReplyPutRefusal::Memory),
    }
}

/// Appends the payload of an event, where it has one.
pub fn write_payload(
    context: Context,
    event: &ReplyEvent,
    out: &mut Vec<u8>,
) -> Result<(), ReplyPutRefusal>
    ensures { WritesPayload (event_payload context (event_view event.now)) out.old.items out.new.items result }
{
    match event {
        ReplyEvent::Ok(ok) => or_memory(write_ok(context, ok, out)),
        ReplyEvent::Error(error) => or_memory(write_error(error, out)),
        ReplyEvent::Progress(report) => or_memory(write_report(report, out)),
        ReplyEvent::ColumnCount {
            count,
            columns_follow,
        } => or_memory(write_count(context, *count, *columns_follow, out)),
        ReplyEvent::Column(column) => or_memory(column.serialize(out)),
        ReplyEvent::Field(column) => or_memory(column.serialize(out)),
        ReplyEvent::ColumnsEnd(ok) => or_memory(write_eof(context, ok, out)),
        ReplyEvent::Row(row) => write_row(context, row, out),
        ReplyEvent::RawRow(bytes) => or_memory(out.extend_from_slice(bytes.as_slice())),
        ReplyEvent::RowsEnd(ok) => or_memory(write_terminator(context, ok, out)),
        ReplyEvent::FileRequest(file) => or_memory(file.serialize(out)),
        ReplyEvent::Prepared {
            statement,
            columns_follow,
        } => or_memory(write_prepared(context, statement, *columns_follow, out)),
        ReplyEvent::Line(bytes) => or_memory(out.extend_from_slice(bytes.as_slice())),
    }
}
