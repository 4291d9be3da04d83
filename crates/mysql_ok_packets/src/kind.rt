//! The four kinds of OK and EOF packets: what stands behind the header of each, read and written.

ghost use Rattle.std.specs.Prelude.{◌≡◌, List, Ok, [], ℕ};
ghost use Rattle.mysql_fields.specs.Wire.{Appends, Reading, Tells};
ghost use Rattle.mysql_ok_packets.specs.BackLaws.{eof_body-back, ok_body-back, terminator_body-back};
ghost use Rattle.mysql_ok_packets.specs.OkPackets.{OkPacket as OkPacketFields, ok_body_at, old_eof_body_at};
ghost use Rattle.mysql_ok_packets.specs.OkPackets.{result_set_terminator_body_at};
ghost use Rattle.mysql_ok_packets.specs.Views.{body_view, ok_packet_view};
ghost use Rattle.mysql_ok_packets.specs.Written.{IsWritable, as_eof, as_ok, as_terminator, eof_body_bytes};
ghost use Rattle.mysql_ok_packets.specs.Written.{ok_body_bytes, with_status};

use crate::body::{OkPacketBody, old_eof_body_of, status_and_info_of};
use crate::ok_packet::OkPacket;
use crate::writing::{write_eof_body, write_ok_body};
use mysql_buf::ParseBuf;
use mysql_const::{CapabilityFlags, StatusFlags};
use mysql_fields::{LenEnc, ParseExt, RawInt, WireError};
use std::alloc::{AllocError, Global};

/// A kind of OK or EOF packets: its first byte, and what follows, read and written.
///
/// MySQL: Client/Server Protocol, "OK_Packet" and "EOF_Packet".
pub trait OkPacketKind {
    /// The first byte of each packet of this kind.
    const HEADER: u8;

    ghost HEADER: { ℕ };

    // what reading answers behind the header, by the client's capabilities
    ghost body_at: { ℕ → List ℕ → Reading OkPacketFields };

    // what is written behind the header, for a client of these capabilities
    ghost body_bytes: { ℕ → OkPacketFields → List ℕ };

    // what is read of a packet that was written
    ghost kept: { ℕ → OkPacketFields → OkPacketFields };

    /// Reads what follows the header.
    ///
    /// # Errors
    /// - Those that the kind names. All bytes are then left.
    fn parse_body<'de>(
        alloc: Global,
        capabilities: CapabilityFlags,
        buf: &mut ParseBuf<'de>,
    ) -> Result<OkPacketBody<'de>, WireError>
        ensures { Tells body_view buf.old.0.now buf.new.0.now result (body_at capabilities.0 buf.old.0.now) };

    /// Appends what follows the header, with this status in place of the packet's own.
    ///
    /// # Errors
    /// - `AllocError` for want of memory. The buffer is then as it was.
    fn write_body(
        capabilities: CapabilityFlags,
        status: StatusFlags,
        packet: &OkPacket,
        buf: &mut Vec<u8>,
    ) -> Result<(), AllocError>
        ensures { Appends result buf.old.items buf.new.items
            (body_bytes capabilities.0 (with_status status.0 (ok_packet_view packet.now))) };

    // what was written is read back where nothing follows it
    ghost reads_back: { (capabilities : ℕ) (p : OkPacketFields) → IsWritable p →
        body_at capabilities (body_bytes capabilities p) ≡ Ok (kept capabilities p, []) };
}

/// The OK packet that answers a command without rows.
#[derive(Clone, Copy, Debug, PartialEq, Eq, Hash)]
pub struct CommonOkPacket;

/// Refused by `UnexpectedEof` where one of the two numbers, status and warnings together, the info
/// or the session state is cut off. Refused by `UnknownValue` for a status bit without a name (bit
/// 2). It is whichever stands first. MariaDB's bit 15, ANSI_QUOTES, is kept in the status.
///
/// MySQL: Client/Server Protocol, "OK_Packet" and "Status Flags".
impl OkPacketKind for CommonOkPacket {
    const HEADER: u8 = 0;

    ghost HEADER = { 0 };

    ghost body_at = { ok_body_at };

    ghost body_bytes = { ok_body_bytes };

    ghost kept = { as_ok };

    ghost reads_back = { ok_body-back };

    // OK_Packet, behind its header:
    //   int<lenenc>     affected_rows
    //   int<lenenc>     last_insert_id
    //   int<2>          status_flags
    //   int<2>          warnings
    //   string<lenenc>  info, where bytes follow
    //   string<lenenc>  session state, with CLIENT_SESSION_TRACK and SERVER_SESSION_STATE_CHANGED in the status
    fn parse_body<'de>(
        alloc: Global,
        capabilities: CapabilityFlags,
        buf: &mut ParseBuf<'de>,
    ) -> Result<OkPacketBody<'de>, WireError> {
        let mut rest = *buf;
        let affected = rest.parse::<RawInt<LenEnc>>(alloc, ())?;
        let id = rest.parse::<RawInt<LenEnc>>(alloc, ())?;
        let body = status_and_info_of(alloc, capabilities, affected.0, id.0, &mut rest)?;
        *buf = rest;
        Ok(body)
    }

    fn write_body(
        capabilities: CapabilityFlags,
        status: StatusFlags,
        packet: &OkPacket,
        buf: &mut Vec<u8>,
    ) -> Result<(), AllocError> {
        write_ok_body(capabilities, status, packet, buf)
    }
}

/// The OK packet that ends a result set where EOF packets are deprecated.
#[derive(Clone, Copy, Debug, PartialEq, Eq, Hash)]
pub struct ResultSetTerminator;

/// The two numbers are passed over: 0 rows and no id are told. Refused as a common OK packet is.
///
/// MySQL: Client/Server Protocol, "OK_Packet".
impl OkPacketKind for ResultSetTerminator {
    const HEADER: u8 = 254;

    ghost HEADER = { 254 };

    ghost body_at = { result_set_terminator_body_at };

    ghost body_bytes = { ok_body_bytes };

    ghost kept = { as_terminator };

    ghost reads_back = { terminator_body-back };

    // OK_Packet that ends rows, behind its header: the fields of an OK packet, of which the first two say nothing.
    //   int<lenenc>     affected_rows
    //   int<lenenc>     last_insert_id
    //   int<2>          status_flags
    //   int<2>          warnings
    //   string<lenenc>  info, where bytes follow
    //   string<lenenc>  session state, with CLIENT_SESSION_TRACK and SERVER_SESSION_STATE_CHANGED in the status
    fn parse_body<'de>(
        alloc: Global,
        capabilities: CapabilityFlags,
        buf: &mut ParseBuf<'de>,
    ) -> Result<OkPacketBody<'de>, WireError> {
        let mut rest = *buf;
        rest.parse::<RawInt<LenEnc>>(alloc, ())?;
        rest.parse::<RawInt<LenEnc>>(alloc, ())?;
        let body = status_and_info_of(alloc, capabilities, 0, 0, &mut rest)?;
        *buf = rest;
        Ok(body)
    }

    fn write_body(
        capabilities: CapabilityFlags,
        status: StatusFlags,
        packet: &OkPacket,
        buf: &mut Vec<u8>,
    ) -> Result<(), AllocError> {
        write_ok_body(capabilities, status, packet, buf)
    }
}

/// The EOF packet that ends columns or rows.
#[derive(Clone, Copy, Debug, PartialEq, Eq, Hash)]
pub struct OldEofPacket;

/// Warnings and status, without regard to the capabilities. Refused by `UnexpectedEof` where they
/// are cut off, and then by `UnknownValue` for a status bit without a name (bit 2).
///
/// MySQL: Client/Server Protocol, "EOF_Packet".
impl OkPacketKind for OldEofPacket {
    const HEADER: u8 = 254;

    ghost HEADER = { 254 };

    ghost body_at = { λ _ bytes. old_eof_body_at bytes };

    ghost body_bytes = { λ _. eof_body_bytes };

    ghost kept = { λ _. as_eof };

    ghost reads_back = { λ _. eof_body-back };

    // EOF_Packet, behind its header:
    //   int<2>  warnings
    //   int<2>  status_flags
    fn parse_body<'de>(
        alloc: Global,
        _capabilities: CapabilityFlags,
        buf: &mut ParseBuf<'de>,
    ) -> Result<OkPacketBody<'de>, WireError> {
        let mut rest = *buf;
        let body = old_eof_body_of(alloc, &mut rest)?;
        *buf = rest;
        Ok(body)
    }

    fn write_body(
        _capabilities: CapabilityFlags,
        status: StatusFlags,
        packet: &OkPacket,
        buf: &mut Vec<u8>,
    ) -> Result<(), AllocError> {
        write_eof_body(status, packet, buf)
    }
}

/// The EOF packet that ends a stream of binary log events.
#[derive(Clone, Copy, Debug, PartialEq, Eq, Hash)]
pub struct NetworkStreamTerminator;

/// Written and read as an EOF packet that ends rows.
///
/// MySQL: Client/Server Protocol, "EOF_Packet" and "Binlog Network Stream".
impl OkPacketKind for NetworkStreamTerminator {
    const HEADER: u8 = 254;

    ghost HEADER = { 254 };

    ghost body_at = { λ _ bytes. old_eof_body_at bytes };

    ghost body_bytes = { λ _. eof_body_bytes };

    ghost kept = { λ _. as_eof };

    ghost reads_back = { λ _. eof_body-back };

    fn parse_body<'de>(
        alloc: Global,
        capabilities: CapabilityFlags,
        buf: &mut ParseBuf<'de>,
    ) -> Result<OkPacketBody<'de>, WireError> {
        OldEofPacket::parse_body(alloc, capabilities, buf)
    }

    fn write_body(
        _capabilities: CapabilityFlags,
        status: StatusFlags,
        packet: &OkPacket,
        buf: &mut Vec<u8>,
    ) -> Result<(), AllocError> {
        write_eof_body(status, packet, buf)
    }
}
