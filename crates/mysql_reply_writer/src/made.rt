//! Payloads as they are made, each in place of what its buffer held.

ghost use Rattle.std.specs.Prelude.{◌≡◌, ◌++◌, IfErr, None, OnErr, OnOk, Some, if◌then◌else◌, length, min};
ghost use Rattle.std.specs.Option.{option_map};
ghost use Rattle.mysql_ok_packets.specs.Views.{ok_packet_view};
ghost use Rattle.mysql_server_packets.specs.Packets.{Error, Progress, protocol_41, progress_obsolete};
ghost use Rattle.mysql_server_packets.specs.Views.{err_packet_view, progress_report_view, server_error_view};
ghost use Rattle.mysql_server_packets.specs.Views.{sql_state_view};
ghost use Rattle.mysql_wire.specs.Flags.{contains};
ghost use Rattle.mysql_reply_events.specs.Readings.{deprecate_eof, has_reports};
ghost use Rattle.mysql_replies.specs.Views.{column_views};
ghost use Rattle.mysql_ok_packets.specs.Written.{eof_bytes, ok_packet_bytes};
ghost use Rattle.mysql_reply_writer.specs.Refusals.{form_cause};
ghost use Rattle.mysql_reply_writer.specs.Written.{cells_payload, columns_follow, error_written, nothing_said};
ghost use Rattle.mysql_reply_writer.specs.Written.{report_written, saying, state_written, tells_progress};
ghost use Rattle.mysql_reply_writer.specs.Written.{terminator_payload};
ghost use Rattle.mysql_reply_writer.specs.Written.{with_more as more_flag};
ghost use Rattle.mysql_reply_writer.specs.Puts.{IsCause};
ghost use Rattle.mysql_reply_writer.specs.Views.{row_cause, row_payload};
ghost use Rattle.mysql_rows.specs.CellsWritten.{PutsRow};
ghost use Rattle.mysql_rows.specs.Views.{row_view};

use crate::refusal::ReplyRefusal;
use crate::writer::OpenRows;
use bitflags::Flags;
use mysql_columns::Column;
use mysql_const::{CapabilityFlags, MariadbCapabilities, StatusFlags};
use mysql_ok_packets::{CommonOkPacket, OkPacket, OldEofPacket, ResultSetTerminator};
use mysql_replies::{Context, ReplyKind};
use mysql_rows::{Row, RowRefusal};
use mysql_server_packets::{ErrPacket, ProgressReport, ServerError, SqlState};
use std::alloc::AllocError;
use std::borrow::CowSlice;

/// Whether errors have states, which clients of the protocol of version 4.1 read.
pub(crate) fn has_states(capabilities: CapabilityFlags) -> bool
    ensures { result ≡ protocol_41 capabilities.0 }
{
    capabilities.contains(CapabilityFlags::CLIENT_PROTOCOL_41)
}

// Whether the client reads progress reports as old servers send them.
fn reads_reports(capabilities: CapabilityFlags) -> bool
    ensures { result ≡ progress_obsolete capabilities.0 }
{
    capabilities.contains(CapabilityFlags::CLIENT_PROGRESS_OBSOLETE)
}

// Whether the client reads MariaDB's newer progress reports.
fn reads_newer_reports(capabilities: MariadbCapabilities) -> bool
    ensures { result ≡ contains capabilities.0 1 }
{
    capabilities.contains(MariadbCapabilities::MARIADB_CLIENT_PROGRESS)
}

// Whether progress reports may stand in a reply of this kind.
fn has_reports(kind: ReplyKind) -> bool
    ensures { result ≡ has_reports kind }
{
    match kind {
        ReplyKind::Line => false,
        _ => true,
    }
}

/// Whether the client reads progress reports, and the reply may have some.
pub(crate) fn tells_progress(context: Context) -> bool
    ensures { result ≡ tells_progress context }
{
    has_reports(context.kind)
        && (reads_reports(context.capabilities.protocol)
            || reads_newer_reports(context.capabilities.mariadb))
}

/// The status that says whether another result follows.
pub(crate) fn with_more(more: bool, status: StatusFlags) -> StatusFlags
    ensures { result.0 ≡ more_flag more status.0 }
{
    if more {
        StatusFlags(status.0 | 8)
    } else {
        StatusFlags(status.0 & 0xfff7)
    }
}

/// Makes an OK packet that answers a command.
#[tactic(auto, unfolding(mysql_ok_packets::specs::Written::ok_packet_bytes))]
pub(crate) fn make_ok(
    payload: &mut Vec<u8>,
    capabilities: CapabilityFlags,
    more: bool,
    ok: &OkPacket<'_>,
) -> Result<(), AllocError>
    ensures { OnOk result (payload.new.items ≡ ok_packet_bytes 0 capabilities.0 (saying more (ok_packet_view ok.now))) }
{
    payload.clear();
    let status = with_more(more, ok.status_flags());
    ok.serialize_as::<CommonOkPacket>(capabilities, status, payload)
}

// The OK packet that ends rows.
#[tactic(auto, unfolding(mysql_ok_packets::specs::Written::ok_packet_bytes))]
fn make_ok_terminator(
    payload: &mut Vec<u8>,
    capabilities: CapabilityFlags,
    more: bool,
    ok: &OkPacket<'_>,
) -> Result<(), AllocError>
    ensures { OnOk result (payload.new.items ≡
        ok_packet_bytes 254 capabilities.0 (saying more (ok_packet_view ok.now))) }
{
    payload.clear();
    let status = with_more(more, ok.status_flags());
    ok.serialize_as::<ResultSetTerminator>(capabilities, status, payload)
}

// The EOF packet that ends rows.
#[tactic(auto, unfolding(mysql_ok_packets::specs::Written::eof_bytes))]
fn make_eof_terminator(
    payload: &mut Vec<u8>,
    capabilities: CapabilityFlags,
    more: bool,
    ok: &OkPacket<'_>,
) -> Result<(), AllocError>
    ensures { OnOk result (payload.new.items ≡ eof_bytes (saying more (ok_packet_view ok.now))) }
{
    payload.clear();
    let status = with_more(more, ok.status_flags());
    ok.serialize_as::<OldEofPacket>(capabilities, status, payload)
}

/// Makes what ends rows.
pub(crate) fn make_terminator(
    payload: &mut Vec<u8>,
    context: Context,
    more: bool,
    ok: &OkPacket<'_>,
) -> Result<(), AllocError>
    ensures { OnOk result (payload.new.items ≡
        terminator_payload context (saying more (ok_packet_view ok.now))) }
{
    let capabilities = context.capabilities.protocol;
    if context.deprecates_eof() {
        make_ok_terminator(payload, capabilities, more, ok)
    } else {
        make_eof_terminator(payload, capabilities, more, ok)
    }
}

/// Makes the EOF packet behind columns, which says nothing.
#[tactic(auto, unfolding(mysql_ok_packets::specs::Written::eof_bytes))]
pub(crate) fn make_empty_eof(payload: &mut Vec<u8>) -> Result<(), AllocError>
    ensures { OnOk result (payload.new.items ≡ eof_bytes nothing_said) }
{
    payload.clear();
    payload.extend_from_slice(&[254, 0, 0, 0, 0])
}

/// Appends MySQL's byte that says that columns follow, where optional metadata are agreed on.
pub(crate) fn put_follow(payload: &mut Vec<u8>, context: Context) -> Result<(), AllocError>
    ensures { OnOk result (payload.new.items ≡ payload.old.items ++ columns_follow context) }
{
    if context.has_optional_metadata() {
        payload.push(1)?;
    }
    Ok(())
}

/// The most bytes of what ends rows: with DEPRECATE_EOF a longer packet is read as a row.
pub(crate) fn end_room(context: Context, limit: usize) -> usize
    ensures { result ≡ (if deprecate_eof context then min limit 16777214 else limit) }
{
    if context.deprecates_eof() && limit > 16777214 {
        16777214
    } else {
        limit
    }
}

// The state that is written: for the protocol of version 4.1 a general error's where there is none, else none.
fn state_of(states: bool, state: Option<&SqlState>) -> Option<SqlState>
    ensures { option_map sql_state_view result ≡
        state_written states (option_map (λ state. sql_state_view state.now) state.entry) }
{
    if !states {
        return None;
    }
    match state {
        Some(state) => Some(*state),
        None => Some(SqlState::new(*b"HY000")),
    }
}

/// The packet of an error.
pub(crate) fn error_packet<'a>(
    capabilities: CapabilityFlags,
    error: &'a ServerError<'_>,
) -> ErrPacket<'a>
    ensures { err_packet_view result ≡ Error (error_written capabilities.0 (server_error_view error.now)) }
{
    let state = state_of(has_states(capabilities), error.sql_state_ref());
    ErrPacket::Error(ServerError::new(
        error.error_code(),
        state,
        CowSlice::Borrowed(error.message_ref()),
    ))
}

/// The packet of a progress report.
pub(crate) fn report_packet<'a>(report: &'a ProgressReport<'_>) -> ErrPacket<'a>
    ensures { err_packet_view result ≡ Progress (report_written (progress_report_view report.now)) }
{
    ErrPacket::Progress(ProgressReport::new(
        report.stage(),
        report.max_stage(),
        report.progress() % 16777216,
        CowSlice::Borrowed(report.stage_info_ref()),
    ))
}

// Appends a row's payload by the kind of the command.
#[inline(always)]
fn put_cells(
    out: &mut Vec<u8>,
    binary: bool,
    columns: &[Column],
    row: &Row,
) -> Result<(), RowRefusal>
    requires { length columns.now ≡ length (row_view row.now).cells }
    ensures { PutsRow (form_cause binary (column_views columns.now) (row_view row.now).cells)
        (cells_payload binary (column_views columns.now) (row_view row.now).cells)
        out.old.items out.new.items result }
{
    if binary {
        row.write_binary(columns, out)
    } else {
        row.write_text(out)
    }
}

/// Appends the payload of a row under the columns of the rows that go on.
#[inline(always)]
pub(crate) fn put_row_payload(
    out: &mut Vec<u8>,
    binary: bool,
    result_number: usize,
    rows: &OpenRows,
    row: &Row,
) -> Result<(), ReplyRefusal>
    ensures ok { OnOk result ((out.new.items ≡ out.old.items ++ row_payload binary rows.now row.now) ×
        (row_cause binary result_number rows.now row.now ≡ None)) }
    ensures kept { OnErr result (out.new.items ≡ out.old.items) }
    ensures err { IfErr result (IsCause (row_cause binary result_number rows.now row.now)) }
{
    if row.len() != rows.columns.as_slice().len() {
        return Err(ReplyRefusal::CellCount {
            result: result_number,
            row: rows.count,
        });
    }
    match put_cells(out, binary, rows.columns.as_slice(), row) {
        Ok(()) => Ok(()),
        Err(RowRefusal::NoForm(place)) => Err(ReplyRefusal::NoForm {
            result: result_number,
            row: rows.count,
            place,
        }),
        Err(RowRefusal::Memory) => Err(ReplyRefusal::Memory),
    }
}
