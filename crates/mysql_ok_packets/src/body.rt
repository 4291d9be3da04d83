//! What stands behind the header of an OK or EOF packet.

ghost use Rattle.std.specs.Prelude.{◌≡◌};
ghost use Rattle.mysql_fields.specs.Wire.{TellsPart};
ghost use Rattle.mysql_ok_packets.specs.OkPackets.{info_at, old_eof_body_at, session_state_changed, session_track};
ghost use Rattle.mysql_ok_packets.specs.OkPackets.{status_and_info_at};
ghost use Rattle.mysql_ok_packets.specs.Views.{body_view};

use bitflags::Flags;
use mysql_buf::ParseBuf;
use mysql_const::{CapabilityFlags, StatusFlags};
use mysql_field_constants::Const;
use mysql_fields::{LeU16, ParseExt, RawInt, WireError, read_lenenc_text};
use std::alloc::Global;

/// What stands behind the header of an OK or EOF packet. It borrows its bytes from the packet.
///
/// MySQL: Client/Server Protocol, "OK_Packet".
#[derive(Clone, Copy, Debug, PartialEq, Eq)]
pub struct OkPacketBody<'a> {
    pub(crate) affected_rows: u64,
    pub(crate) last_insert_id: u64,
    pub(crate) status_flags: StatusFlags,
    pub(crate) warnings: u16,
    pub(crate) info: &'a [u8],
    pub(crate) session_state_info: &'a [u8],
}

// Session states are tracked.
pub(crate) fn tracks_session(capabilities: CapabilityFlags) -> bool
    ensures { result ≡ session_track capabilities.0 }
{
    capabilities.contains(CapabilityFlags::CLIENT_SESSION_TRACK)
}

// Session states follow the info.
pub(crate) fn has_session_state(status: StatusFlags) -> bool
    ensures { result ≡ session_state_changed status.0 }
{
    status.contains(StatusFlags::SERVER_SESSION_STATE_CHANGED)
}

// The info and the session state of an OK packet.
#[tactic(auto, unfolding(crate::specs::OkPackets::info_at))]
fn info_of<'a>(
    capabilities: CapabilityFlags,
    status: StatusFlags,
    buf: &mut ParseBuf<'a>,
) -> Result<(&'a [u8], &'a [u8]), WireError>
    ensures { TellsPart (λ x. (x.0.now, x.1.now)) buf.new.0.now result (info_at capabilities.0 status.0 buf.old.0.now) }
{
    let Some(first) = buf.0.first() else {
        return Ok((&[], &[]));
    };
    if tracks_session(capabilities) {
        let info = read_lenenc_text(buf)?;
        if has_session_state(status) {
            let state = read_lenenc_text(buf)?;
            return Ok((info, state));
        }
        return Ok((info, &[]));
    }
    if *first == 0 {
        return Ok((&[], &[]));
    }
    let info = read_lenenc_text(buf)?;
    Ok((info, &[]))
}

// Status, warnings and what follows them.
#[tactic(auto, unfolding(crate::specs::OkPackets::status_and_info_at))]
pub(crate) fn status_and_info_of<'a>(
    alloc: Global,
    capabilities: CapabilityFlags,
    affected_rows: u64,
    last_insert_id: u64,
    buf: &mut ParseBuf<'a>,
) -> Result<OkPacketBody<'a>, WireError>
    ensures { TellsPart body_view buf.new.0.now result
        (status_and_info_at capabilities.0 affected_rows last_insert_id buf.old.0.now) }
{
    let mut block = buf.parse::<ParseBuf>(alloc, 4)?;
    let status = block.parse::<Const<StatusFlags, LeU16>>(alloc, ())?;
    let warnings = block.parse::<RawInt<LeU16>>(alloc, ())?;
    let (info, state) = info_of(capabilities, status.0, buf)?;
    Ok(OkPacketBody {
        affected_rows,
        last_insert_id,
        status_flags: status.0,
        warnings: warnings.0,
        info,
        session_state_info: state,
    })
}

// Warnings and status, of an EOF packet.
#[tactic(auto, unfolding(crate::specs::OkPackets::old_eof_body_at))]
pub(crate) fn old_eof_body_of<'a>(
    alloc: Global,
    buf: &mut ParseBuf<'a>,
) -> Result<OkPacketBody<'a>, WireError>
    ensures { TellsPart body_view buf.new.0.now result (old_eof_body_at buf.old.0.now) }
{
    let mut block = buf.parse::<ParseBuf>(alloc, 4)?;
    let warnings = block.parse::<RawInt<LeU16>>(alloc, ())?;
    let status = block.parse::<Const<StatusFlags, LeU16>>(alloc, ())?;
    Ok(OkPacketBody {
        affected_rows: 0,
        last_insert_id: 0,
        status_flags: status.0,
        warnings: warnings.0,
        info: &[],
        session_state_info: &[],
    })
}
