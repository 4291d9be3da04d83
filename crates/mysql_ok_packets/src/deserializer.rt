//! Reads OK and EOF packets by their kind and the client's capabilities.
//!
//!     let read: OkPacketDeserializer<ResultSetTerminator> = ParseBuf(payload).parse(alloc, capabilities)?;
//!     let packet = read.into_inner();

ghost use Rattle.std.specs.Prelude.{◌≡◌, IfOk, None};
ghost use Rattle.mysql_fields.specs.Laws.{unsized};
ghost use Rattle.mysql_ok_packets.specs.OkPackets.{OkPacket as OkPacketFields, packet_at};
ghost use Rattle.mysql_ok_packets.specs.Views.{ok_packet_view};

use crate::kind::OkPacketKind;
use crate::ok_packet::OkPacket;
use mysql_buf::ParseBuf;
use mysql_const::CapabilityFlags;
use mysql_fields::{MyDeserialize, ParseExt, RawInt, Readable, WireError};
use std::alloc::{AllocError, Global};
use std::marker::PhantomData;
use thiserror::Error;

/// Another byte than the one that is due begins an OK or EOF packet.
#[derive(Clone, Copy, Debug, Default, PartialEq, Eq, Hash, Error)]
#[error("Invalid OK packet header")]
pub struct InvalidOkPacketHeader;

/// An OK or EOF packet that was read as one of the kind `T`.
///
/// Promise: of any bytes and for every kind, those of other crates too, the answer is the header's
/// byte and then the kind's body. No memory is asked for (`packet_at`).
#[derive(Drop)]
#[derive_where(Debug, PartialEq, Eq)]
pub struct OkPacketDeserializer<'de, T>(OkPacket<'de>, PhantomData<T>);

impl<'de, T> OkPacketDeserializer<'de, T> {
    /// The packet.
    pub fn into_inner(self) -> OkPacket<'de>
        ensures { ok_packet_view result ≡ ok_packet_view self.entry.0 }
    {
        self.0
    }

    /// A copy of the packet, which borrows nothing.
    ///
    /// # Errors
    /// - `AllocError` for want of memory.
    pub fn clone(&self, alloc: Global) -> Result<OkPacketDeserializer<'static, T>, AllocError>
        ensures { IfOk result (λ copy. ok_packet_view copy.0 ≡ ok_packet_view self.now.0) }
    {
        Ok(OkPacketDeserializer(self.0.clone(alloc)?, PhantomData))
    }
}

/// The packet.
impl<'de, T> From<OkPacketDeserializer<'de, T>> for OkPacket<'de> {
    ghost from_gives = { λ read packet. ok_packet_view packet ≡ ok_packet_view read.0 };

    fn from(read: OkPacketDeserializer<'de, T>) -> OkPacket<'de> {
        read.0
    }
}

impl<'de, T: OkPacketKind> Readable for OkPacketDeserializer<'de, T> {
    type Ctx = CapabilityFlags;

    ghost Shown = { OkPacketFields };

    ghost shown = { λ read. ok_packet_view read.0 };

    ghost kept = { λ read. ok_packet_view read.0 };

    ghost read_at = { λ capabilities bytes. packet_at T.HEADER T.body_at capabilities.0 bytes };

    ghost sized = { λ capabilities. unsized (packet_at T.HEADER T.body_at capabilities.0) };

    fn size() -> Option<usize>
        ensures { result ≡ None }
    {
        None
    }
}

/// Reads a packet of the kind `T`, by the client's capabilities. Refused by `UnexpectedEof` where
/// there is no byte, then by `BadConstant` for another first byte than the kind's, then as the kind
/// refuses what follows.
///
/// MySQL: Client/Server Protocol, "OK_Packet" and "EOF_Packet".
impl<'de, T: OkPacketKind> MyDeserialize<'de> for OkPacketDeserializer<'de, T> {
    // OK_Packet or EOF_Packet:
    //   int<1>  header: 00 for OK, fe for what ends rows or a stream
    //   ..      what the kind has behind it (`parse_body`)
    fn deserialize(
        alloc: Global,
        capabilities: CapabilityFlags,
        buf: &mut ParseBuf<'de>,
    ) -> Result<OkPacketDeserializer<'de, T>, WireError> {
        let mut rest = *buf;
        let header = rest.parse::<RawInt<u8>>(alloc, ())?;
        if header.0 != T::HEADER {
            return Err(WireError::BadConstant);
        }
        let body = T::parse_body(alloc, capabilities, &mut rest)?;
        *buf = rest;
        Ok(OkPacketDeserializer(OkPacket::of_body(body), PhantomData))
    }
}
