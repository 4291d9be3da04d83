//! Error packets: an error, or a progress report where these were agreed on.
//!
//!     let packet: ErrPacket = ParseBuf(payload).parse(alloc, capabilities)?;
//!     if packet.is_error() {
//!         let error = packet.server_error();
//!     }

ghost use Rattle.std.specs.Prelude.{◌≡◌, IfOk, None, Some, false, not, true, ℕ};
ghost use Rattle.mysql_fields.specs.Laws.{unsized};
ghost use Rattle.mysql_fields.specs.Wire.{Tells, TellsPart};
ghost use Rattle.mysql_server_packets.specs.Packets.{Error, ErrPacket as ErrPacketFields, Progress, err_body_at};
ghost use Rattle.mysql_server_packets.specs.Packets.{err_packet};
ghost use Rattle.mysql_server_packets.specs.Packets.{err_packet_at, error_at, error_code_at, holds_error};
ghost use Rattle.mysql_server_packets.specs.Packets.{is_progress_code};
ghost use Rattle.mysql_server_packets.specs.Packets.{protocol_41};
ghost use Rattle.mysql_server_packets.specs.Texts.{err_packet_text};
ghost use Rattle.mysql_server_packets.specs.Views.{err_packet_view, progress_report_view, server_error_view};

use crate::headers::ErrPacketHeader;
use crate::progress_report::ProgressReport;
use crate::server_error::ServerError;
use bitflags::Flags;
use mysql_buf::ParseBuf;
use mysql_const::CapabilityFlags;
use mysql_fields::{
    LeU16, MyDeserialize, MySerialize, ParseExt, RawInt, Readable, WireError, in_order,
};
use std::alloc::{AllocError, Global};
use std::fmt;

/// An error packet, which holds an error or a progress report.
///
/// Promise: it is an error or a report by the capabilities that both sides agreed on. Any bytes are
/// read exactly as its layout says (`err_packet`, `err_packet_at`).
///
/// MySQL: Client/Server Protocol, "ERR_Packet".
#[derive(Debug, PartialEq, Drop)]
pub enum ErrPacket<'a> {
    /// An error, which ends the reply.
    Error(ServerError<'a>),
    /// How far a command has come, from a MariaDB server.
    Progress(ProgressReport<'a>),
}

impl<'a> ErrPacket<'a> {
    /// Whether it holds an error.
    pub fn is_error(&self) -> bool
        ensures { result ≡ holds_error (err_packet_view self.now) }
    {
        match self {
            ErrPacket::Error(_) => true,
            ErrPacket::Progress(_) => false,
        }
    }

    /// Whether it holds a progress report.
    pub fn is_progress_report(&self) -> bool
        ensures { result ≡ not (holds_error (err_packet_view self.now)) }
    {
        !self.is_error()
    }

    /// The error. Called where [`ErrPacket::is_error`] holds.
    pub fn server_error(&self) -> &ServerError<'a>
        requires { holds_error (err_packet_view self.now) ≡ true }
        ensures { err_packet_view self.now ≡ Error (server_error_view result.now) }
    {
        match self {
            ErrPacket::Error(error) => error,
            ErrPacket::Progress(_) => unreachable!(),
        }
    }

    /// The progress report. Called where [`ErrPacket::is_progress_report`] holds.
    pub fn progress_report(&self) -> &ProgressReport<'a>
        requires { holds_error (err_packet_view self.now) ≡ false }
        ensures { err_packet_view self.now ≡ Progress (progress_report_view result.now) }
    {
        match self {
            ErrPacket::Error(_) => unreachable!(),
            ErrPacket::Progress(report) => report,
        }
    }

    /// A copy, which borrows nothing.
    ///
    /// # Errors
    /// - `AllocError` for want of memory.
    pub fn clone(&self, alloc: Global) -> Result<ErrPacket<'static>, AllocError>
        ensures { IfOk result (λ copy. err_packet_view copy ≡ err_packet_view self.now) }
    {
        match self {
            ErrPacket::Error(error) => Ok(ErrPacket::Error(error.clone(alloc)?)),
            ErrPacket::Progress(report) => Ok(ErrPacket::Progress(report.clone(alloc)?)),
        }
    }
}

/// ff, the code of the error or ffff, and the error or the report.
impl<'a> MySerialize for ErrPacket<'a> {
    ghost written = { λ p. err_packet (err_packet_view p) };

    fn serialize(&self, buf: &mut Vec<u8>) -> Result<(), AllocError> {
        let header = ErrPacketHeader::new();
        match self {
            ErrPacket::Error(error) => {
                let code: RawInt<LeU16> = RawInt::new(error.error_code());
                in_order!(header, code, error).serialize(buf)
            }
            ErrPacket::Progress(report) => {
                let code: RawInt<LeU16> = RawInt::new(0xffff);
                in_order!(header, code, report).serialize(buf)
            }
        }
    }
}

impl<'a> Readable for ErrPacket<'a> {
    type Ctx = CapabilityFlags;

    ghost Shown = { ErrPacketFields };

    ghost shown = { err_packet_view };

    ghost kept = { err_packet_view };

    ghost read_at = { λ capabilities bytes. err_packet_at capabilities.0 bytes };

    ghost sized = { λ capabilities. unsized (err_packet_at capabilities.0) };

    fn size() -> Option<usize>
        ensures { result ≡ None }
    {
        None
    }
}

fn speaks_protocol_41(capabilities: CapabilityFlags) -> bool
    ensures { result ≡ protocol_41 capabilities.0 }
{
    capabilities.contains(CapabilityFlags::CLIENT_PROTOCOL_41)
}

// Whether this is the code of a progress report.
fn is_progress(capabilities: CapabilityFlags, code: u16) -> bool
    ensures { result ≡ is_progress_code capabilities.0 code }
{
    code == 0xffff && capabilities.contains(CapabilityFlags::CLIENT_PROGRESS_OBSOLETE)
}

// The code, behind the header.
#[tactic(auto, unfolding(crate::specs::Packets::error_code_at))]
fn error_code(alloc: Global, rest: &mut ParseBuf) -> Result<u16, WireError>
    ensures { TellsPart (λ (code : ℕ). code) rest.new.0.now result (error_code_at rest.old.0.now) }
{
    let mut block = rest.parse::<ParseBuf>(alloc, 3)?;
    let _header: ErrPacketHeader = block.parse(alloc, ())?;
    let code = block.checked_eat_u16_le().ok_or(WireError::UnexpectedEof)?;
    Ok(code)
}

/// The error of a packet that is no progress report.
///
/// It is none where reports were not agreed on, or where this packet's form was seen.
///
/// Promise: a packet that is known to be no report is read as its layout says (`error_at`).
///
/// # Errors
/// - `UnexpectedEof` below three bytes.
/// - `BadConstant` for another first byte than ff.
/// - Those of the error itself.
///
/// All bytes are left after an error.
///
/// MySQL: Client/Server Protocol, "ERR_Packet".
#[tactic(auto, unfolding(crate::specs::Packets::error_at))]
pub fn server_error_of<'de>(
    alloc: Global,
    capabilities: CapabilityFlags,
    buf: &mut ParseBuf<'de>,
) -> Result<ServerError<'de>, WireError>
    ensures { Tells server_error_view buf.old.0.now buf.new.0.now result (error_at capabilities.0 buf.old.0.now) }
{
    let mut rest = *buf;
    let code = error_code(alloc, &mut rest)?;
    let error: ServerError = rest.parse(alloc, (code, speaks_protocol_41(capabilities)))?;
    *buf = rest;
    Ok(error)
}

// What stands behind the code.
fn body_of<'de>(
    alloc: Global,
    capabilities: CapabilityFlags,
    code: u16,
    rest: &mut ParseBuf<'de>,
) -> Result<ErrPacket<'de>, WireError>
    ensures { TellsPart err_packet_view rest.new.0.now result (err_body_at capabilities.0 code rest.old.0.now) }
{
    if is_progress(capabilities, code) {
        let report: ProgressReport = rest.parse(alloc, ())?;
        Ok(ErrPacket::Progress(report))
    } else {
        let error: ServerError = rest.parse(alloc, (code, speaks_protocol_41(capabilities)))?;
        Ok(ErrPacket::Error(error))
    }
}

/// Reads an error packet: ff, its code, and a progress report where the code is ffff and reports
/// were agreed on, else an error. Refused by UnexpectedEof below three bytes, then by BadConstant
/// for another first byte, then as the report or the error is.
///
/// MySQL: Client/Server Protocol, "ERR_Packet"; MariaDB: 'Progress report' of "ERR_Packet".
#[tactic(auto, unfolding(crate::specs::Packets::err_packet_at))]
impl<'de> MyDeserialize<'de> for ErrPacket<'de> {
    // ERR_Packet:
    //   int<1>  header ff
    //   int<2>  error code
    //   ..      a progress report, where reports were agreed on and the code is ffff
    //   ..      an error, else
    fn deserialize(
        alloc: Global,
        capabilities: CapabilityFlags,
        buf: &mut ParseBuf<'de>,
    ) -> Result<ErrPacket<'de>, WireError> {
        let mut rest = *buf;
        let code = error_code(alloc, &mut rest)?;
        let packet = body_of(alloc, capabilities, code, &mut rest)?;
        *buf = rest;
        Ok(packet)
    }
}

/// Shown as the error or the report is.
impl<'a> fmt::Display for ErrPacket<'a> {
    ghost output = { λ p. Some (err_packet_text (err_packet_view p)) };

    fn fmt<W: fmt::Write>(&self, f: &mut fmt::Formatter<W>) -> fmt::Result {
        match self {
            ErrPacket::Error(error) => write!(f, "{error}"),
            ErrPacket::Progress(report) => write!(f, "{report}"),
        }
    }
}
