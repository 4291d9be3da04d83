//! The packets of a reply, each by itself.

ghost use Rattle.std.specs.Prelude.{◌≡◌, ◌≤◌, if◌then◌else◌, length, drop, Ok};
ghost use Rattle.mysql_fields.specs.Wire.{TellsPart};
ghost use Rattle.mysql_columns.specs.Views.{extended_view, listed_view};
ghost use Rattle.mysql_ok_packets.specs.OkPackets.{old_eof_at, result_set_terminator_at};
ghost use Rattle.mysql_ok_packets.specs.Views.{ok_packet_view};
ghost use Rattle.mysql_server_packets.specs.Packets.{progress_report_at};
ghost use Rattle.mysql_server_packets.specs.Views.{local_infile_view, progress_report_view, server_error_view};
ghost use Rattle.mysql_reply_events.specs.Readings.{column, deprecate_eof, eof, field, protocol, report};
ghost use Rattle.mysql_reply_events.specs.Readings.{server_error, terminator};
ghost use Rattle.mysql_reply_events.specs.Readings as readings;
ghost use Rattle.mysql_reply_events.specs.Views.{Gives, named, refused};

use crate::context::Context;
use crate::fault::ReplyFault;
use mysql_buf::ParseBuf;
use mysql_columns::{ExtendedColumn, ListedColumn};
use mysql_const::CapabilityFlags;
use mysql_fields::{ParseExt, WireError};
use mysql_ok_packets::{
    CommonOkPacket, OkPacket, OkPacketDeserializer, OldEofPacket, ResultSetTerminator,
};
use mysql_server_packets::err_packet::server_error_of;
use mysql_server_packets::{LocalInfilePacket, ProgressReport, ServerError};
use std::alloc::Global;
use std::borrow::CowSlice;

/// What was read, whatever bytes follow it, or the fault of this name.
pub fn named_of<T: Drop>(read: Result<T, WireError>, fault: ReplyFault) -> Result<T, ReplyFault>
    ensures { result ≡ named read fault }
{
    match read {
        Ok(value) => Ok(value),
        Err(WireError::Memory) => Err(ReplyFault::Memory),
        Err(_) => Err(fault),
    }
}

/// What was read by a reader that asks for no memory, or the fault of this name.
pub fn refused_of<T: Drop>(read: Result<T, WireError>, fault: ReplyFault) -> Result<T, ReplyFault>
    ensures { result ≡ refused read fault }
{
    match read {
        Ok(value) => Ok(value),
        Err(_) => Err(fault),
    }
}

/// Reads an OK packet.
#[tactic(auto, unfolding(mysql_ok_packets::specs::OkPackets::ok_packet_at))]
pub fn ok_packet(
    alloc: Global,
    context: Context,
    payload: &[u8],
) -> Result<OkPacket<'static>, ReplyFault>
    ensures { Gives ok_packet_view result (readings.ok_packet context payload.now) }
{
    let read = ParseBuf(payload).parse::<OkPacketDeserializer<CommonOkPacket>>(
        alloc,
        context.capabilities.protocol,
    );
    let ok = refused_of(read, ReplyFault::BadOk)?;
    match ok.into_inner().into_owned(alloc) {
        Ok(ok) => Ok(ok),
        Err(_) => Err(ReplyFault::Memory),
    }
}

/// Reads an error packet.
pub fn error_packet(
    alloc: Global,
    context: Context,
    payload: &[u8],
) -> Result<ServerError<'static>, ReplyFault>
    ensures { Gives server_error_view result (server_error context payload.now) }
{
    let read = server_error_of(alloc, context.capabilities.protocol, &mut ParseBuf(payload));
    let error = refused_of(read, ReplyFault::BadError)?;
    match error.into_owned(alloc) {
        Ok(error) => Ok(error),
        Err(_) => Err(ReplyFault::Memory),
    }
}

/// Reads a request for the file of the name behind the first byte. Refused for want of memory alone.
pub fn file_packet(alloc: Global, payload: &[u8]) -> Result<LocalInfilePacket<'static>, ReplyFault>
    requires { 1 ≤ length payload.now }
    ensures { Gives local_infile_view result (Ok (drop 1 payload.now)) }
{
    match Vec::from_slice(alloc, &payload[1..]) {
        Ok(name) => Ok(LocalInfilePacket::new(CowSlice::Owned(name))),
        Err(_) => Err(ReplyFault::Memory),
    }
}

/// Copies a payload.
pub fn bytes_of(alloc: Global, payload: &[u8]) -> Result<Vec<u8>, ReplyFault>
    ensures { Gives (λ bytes. bytes.items) result (Ok payload.now) }
{
    match Vec::from_slice(alloc, payload) {
        Ok(bytes) => Ok(bytes),
        Err(_) => Err(ReplyFault::Memory),
    }
}

// A progress report behind the three bytes of its form, which borrows from the payload.
#[tactic(auto, unfolding(mysql_server_packets::specs::Packets::progress_report_at))]
fn report_of<'a>(alloc: Global, buf: &mut ParseBuf<'a>) -> Result<ProgressReport<'a>, WireError>
    ensures { TellsPart progress_report_view buf.new.0.now result (progress_report_at buf.old.0.now) }
{
    buf.parse::<ParseBuf>(alloc, 3)?;
    let report: ProgressReport = buf.parse(alloc, ())?;
    Ok(report)
}

/// Reads a progress report.
pub fn report_packet(alloc: Global, payload: &[u8]) -> Result<ProgressReport<'static>, ReplyFault>
    ensures { Gives progress_report_view result (report payload.now) }
{
    let read = report_of(alloc, &mut ParseBuf(payload));
    let report = refused_of(read, ReplyFault::BadError)?;
    match report.into_owned(alloc) {
        Ok(report) => Ok(report),
        Err(_) => Err(ReplyFault::Memory),
    }
}

/// Reads a column packet, with MariaDB's extended metadata where they are agreed on.
pub fn column_packet(
    alloc: Global,
    context: Context,
    payload: &[u8],
) -> Result<ExtendedColumn, ReplyFault>
    ensures { Gives extended_view result (column context payload.now) }
{
    let read = ParseBuf(payload).parse(alloc, context.capabilities.mariadb);
    named_of(read, ReplyFault::BadColumn)
}

/// Reads a column of a table, and its default value.
pub fn field_packet(
    alloc: Global,
    context: Context,
    payload: &[u8],
) -> Result<ListedColumn, ReplyFault>
    ensures { Gives listed_view result (field context payload.now) }
{
    let read = ParseBuf(payload).parse(alloc, context.capabilities.mariadb);
    named_of(read, ReplyFault::BadColumn)
}

// The OK packet that ends rows, which borrows from the payload.
#[tactic(auto, unfolding(mysql_ok_packets::specs::OkPackets::result_set_terminator_at))]
fn ok_terminator_of<'a>(
    alloc: Global,
    capabilities: CapabilityFlags,
    buf: &mut ParseBuf<'a>,
) -> Result<OkPacket<'a>, WireError>
    ensures { TellsPart ok_packet_view buf.new.0.now result
        (result_set_terminator_at capabilities.0 buf.old.0.now) }
{
    let read: OkPacketDeserializer<ResultSetTerminator> = buf.parse(alloc, capabilities)?;
    Ok(read.into_inner())
}

// The EOF packet, which borrows from the payload.
#[tactic(auto, unfolding(mysql_ok_packets::specs::OkPackets::old_eof_at))]
fn old_eof_of<'a>(
    alloc: Global,
    capabilities: CapabilityFlags,
    buf: &mut ParseBuf<'a>,
) -> Result<OkPacket<'a>, WireError>
    ensures { TellsPart ok_packet_view buf.new.0.now result (old_eof_at buf.old.0.now) }
{
    let read: OkPacketDeserializer<OldEofPacket> = buf.parse(alloc, capabilities)?;
    Ok(read.into_inner())
}

// A terminator, which borrows from the payload.
fn terminator_of<'a>(
    alloc: Global,
    context: Context,
    buf: &mut ParseBuf<'a>,
) -> Result<OkPacket<'a>, WireError>
    ensures { TellsPart ok_packet_view buf.new.0.now result
        (if deprecate_eof context then result_set_terminator_at (protocol context) buf.old.0.now
        else old_eof_at buf.old.0.now) }
{
    if context.deprecates_eof() {
        ok_terminator_of(alloc, context.capabilities.protocol, buf)
    } else {
        old_eof_of(alloc, context.capabilities.protocol, buf)
    }
}

/// Reads a terminator.
pub fn terminator_packet(
    alloc: Global,
    context: Context,
    payload: &[u8],
) -> Result<OkPacket<'static>, ReplyFault>
    ensures { Gives ok_packet_view result (terminator context payload.now) }
{
    let mut buf = ParseBuf(payload);
    let read = terminator_of(alloc, context, &mut buf);
    let ok = refused_of(read, ReplyFault::BadTerminator)?;
    match ok.into_owned(alloc) {
        Ok(ok) => Ok(ok),
        Err(_) => Err(ReplyFault::Memory),
    }
}

/// Reads an EOF packet, which has less than nine bytes.
pub fn eof_packet(
    alloc: Global,
    context: Context,
    payload: &[u8],
) -> Result<OkPacket<'static>, ReplyFault>
    ensures { Gives ok_packet_view result (eof payload.now) }
{
    if payload.len() >= 9 {
        return Err(ReplyFault::BadTerminator);
    }
    let mut buf = ParseBuf(payload);
    let read = old_eof_of(alloc, context.capabilities.protocol, &mut buf);
    let ok = refused_of(read, ReplyFault::BadTerminator)?;
    match ok.into_owned(alloc) {
        Ok(ok) => Ok(ok),
        Err(_) => Err(ReplyFault::Memory),
    }
}
