//! Writing OK and EOF packets.

ghost use Rattle.std.specs.Prelude.{◌∷◌};
ghost use Rattle.mysql_fields.specs.Wire.{Appends};
ghost use Rattle.mysql_ok_packets.specs.Views.{ok_packet_view};
ghost use Rattle.mysql_ok_packets.specs.Written.{eof_body_bytes, info_bytes, ok_body_bytes, with_status};

use crate::body::{has_session_state, tracks_session};
use crate::kind::OkPacketKind;
use crate::ok_packet::OkPacket;
use mysql_buf::BufMutExt;
use mysql_const::{CapabilityFlags, StatusFlags};
use mysql_field_constants::Const;
use mysql_fields::{LeU16, LenEnc, MySerialize, RawBytes, RawInt, in_order};
use std::alloc::AllocError;

// What follows the warnings of an OK packet, where it has this status and goes to a client of these capabilities.
#[derive(Clone, Copy)]
struct InfoPart<'p, 'a> {
    capabilities: CapabilityFlags,
    status: StatusFlags,
    packet: &'p OkPacket<'a>,
}

#[tactic(auto, unfolding(crate::specs::Written::info_bytes))]
impl<'p, 'a> MySerialize for InfoPart<'p, 'a> {
    ghost written = { λ x. info_bytes x.capabilities.0 (with_status x.status.0 (ok_packet_view x.packet.now)) };

    fn serialize(&self, buf: &mut Vec<u8>) -> Result<(), AllocError> {
        let info = self.packet.info_or_empty();
        if tracks_session(self.capabilities) && has_session_state(self.status) {
            let state = self.packet.session_state_or_empty();
            let info: RawBytes<LenEnc> = RawBytes::from(info);
            let state: RawBytes<LenEnc> = RawBytes::from(state);
            return (info, state).serialize(buf);
        }
        if info.is_empty() {
            return Ok(());
        }
        buf.put_lenenc_str(info)
    }
}

// Appends an OK packet behind its header.
pub(crate) fn write_ok_body(
    capabilities: CapabilityFlags,
    status: StatusFlags,
    packet: &OkPacket,
    buf: &mut Vec<u8>,
) -> Result<(), AllocError>
    ensures { Appends result buf.old.items buf.new.items
        (ok_body_bytes capabilities.0 (with_status status.0 (ok_packet_view packet.now))) }
{
    let affected_rows: RawInt<LenEnc> = RawInt::new(packet.affected_rows());
    let id: RawInt<LenEnc> = RawInt::new(packet.id_or_zero());
    let flags: Const<StatusFlags, LeU16> = Const::new(status);
    let warnings: RawInt<LeU16> = RawInt::new(packet.warnings());
    let info = InfoPart {
        capabilities,
        status,
        packet,
    };
    in_order!(affected_rows, id, flags, warnings, info).serialize(buf)
}

// Appends an EOF packet behind its header.
pub(crate) fn write_eof_body(
    status: StatusFlags,
    packet: &OkPacket,
    buf: &mut Vec<u8>,
) -> Result<(), AllocError>
    ensures { Appends result buf.old.items buf.new.items
        (eof_body_bytes (with_status status.0 (ok_packet_view packet.now))) }
{
    let warnings: RawInt<LeU16> = RawInt::new(packet.warnings());
    let flags: Const<StatusFlags, LeU16> = Const::new(status);
    in_order!(warnings, flags).serialize(buf)
}

impl<'a> OkPacket<'a> {
    /// Appends the packet as one of the kind `T`, for a client of these capabilities.
    ///
    /// `status` is written in place of the packet's own. Only a status whose bits all have names
    /// ([`has_named_status`](crate::has_named_status)) is read back.
    ///
    /// Promise: exactly the bytes of the kind are appended, with the status that is handed in, or
    /// nothing.
    ///
    /// # Errors
    /// - `AllocError` for want of memory. The buffer is then as it was.
    ///
    /// MySQL: Client/Server Protocol, "OK_Packet" and "EOF_Packet".
    pub fn serialize_as<T: OkPacketKind>(
        &self,
        capabilities: CapabilityFlags,
        status: StatusFlags,
        buf: &mut Vec<u8>,
    ) -> Result<(), AllocError>
        ensures { Appends result buf.old.items buf.new.items (T.HEADER ∷
            T.body_bytes capabilities.0 (with_status status.0 (ok_packet_view self.now))) }
    {
        let len = buf.len();
        buf.push(T::HEADER)?;
        let answer = T::write_body(capabilities, status, self, buf);
        if answer.is_err() {
            buf.truncate(len);
        }
        answer
    }
}
