//! The codec: reads packets from a stream and writes payloads as packets.
//!
//!     let mut codec = PacketCodec::default();
//!     codec.encode(command, &mut out)?;
//!     while codec.decode(&mut src, &mut payload)? {
//!         self.take(&payload);
//!         payload.clear();
//!     }

ghost use Rattle.std.specs.Prelude.{◌≡◌, ◌≢◌, ◌++◌, ◌<◌, ◌≤◌, [], None, Err, IfErr, IfOk, IfSome, Ok, OnErr, OnOk};
ghost use Rattle.std.specs.Prelude.{◌+◌, ◌%◌, false, length, option_map};
ghost use Rattle.std.specs.Option.{ForSome};
ghost use Rattle.mysql_wire.specs.Chunk.{IsTooLargeOrMemory};
ghost use Rattle.mysql_wire.specs.Codec.{CanGoOn, Decodes, RefusesBy, Waits, codec_at, error_of};
ghost use Rattle.std.specs.Bool.{OnFalse, OnTrue};
ghost use Rattle.mysql_wire.specs.Framing.{framing, max_payload_len, number_after};

use bytes::{Buf, BufMut, BytesMut};
use mysql_const::DEFAULT_MAX_ALLOWED_PACKET;
use packet::{BegunChunk, move_within, take_packet};
use std::io;
use std::marker::Model;
use thiserror::Error;

mod chunk;
mod feed;
mod header;
mod packet;
mod reader;
mod writing;

pub use chunk::{ChunkDecoder, ChunkInfo};
pub use feed::{Packets, feed_all};
pub use header::{ChunkHeader, PartialHeader};
pub use reader::PacketReader;
pub use writing::{frame_in_place, packet_header, packet_to_chunks};

/// Why a codec refuses.
#[derive(Debug, Drop, Error)]
pub enum PacketCodecError {
    /// Never answered by the calls of this crate, which read no file or socket.
    #[error("IO error: `{0}`")]
    Io(io::Error),
    /// A chunk's header stands that makes its packet longer than the limit.
    #[error("Packet is larger than max_allowed_packet")]
    PacketTooLarge,
    /// A chunk stands whole whose number isn't the one that is due.
    #[error("Packets out of sync")]
    PacketsOutOfSync,
    /// A growth of a buffer was refused.
    #[error("out of memory")]
    Memory,
}

/// A refusal that a codec keeps to.
#[derive(Clone, Copy, Debug, PartialEq, Eq)]
pub(crate) enum Refusal {
    /// Answered as [`PacketCodecError::PacketTooLarge`].
    TooLarge,
    /// Answered as [`PacketCodecError::PacketsOutOfSync`].
    OutOfSync,
    /// Answered as [`PacketCodecError::Memory`].
    Memory,
}

impl Refusal {
    fn error(self) -> PacketCodecError
        ensures { result ≡ error_of self }
    {
        match self {
            Refusal::TooLarge => PacketCodecError::PacketTooLarge,
            Refusal::OutOfSync => PacketCodecError::PacketsOutOfSync,
            Refusal::Memory => PacketCodecError::Memory,
        }
    }
}

/// Reads packets from a stream, and writes payloads as packets. It counts the chunks' numbers.
///
/// `max_allowed_packet` is the most payload bytes of one packet; it has to stay while a packet is read.
/// (MySQL: Client/Server Protocol, "Protocol Basics: MySQL Packets".)
#[derive(Debug, Drop)]
pub struct PacketCodec {
    pub max_allowed_packet: usize,
    number: u8,
    begun: Option<BegunChunk>,
    refused: Option<Refusal>,
}

impl Model for PacketCodec {
    ghost use Rattle.mysql_wire.specs.Codec.{Codec};
    ghost use Rattle.mysql_wire.specs.Moving.{begun_of};

    ghost Value = { Codec };

    ghost view = { λ c. record {
      limit = c.max_allowed_packet;
      number = c.number;
      begun =
          begun_of c.begun;
      refused = c.refused;
    } };
}

impl Default for PacketCodec {
    ghost is_default = { λ c. c ≡ codec_at 0 4194304 };

    /// A codec between packets, at the number 0 and the limit [`DEFAULT_MAX_ALLOWED_PACKET`].
    fn default() -> PacketCodec {
        PacketCodec::at(0, DEFAULT_MAX_ALLOWED_PACKET)
    }
}

impl PacketCodec {
    /// A codec between packets: the next chunk has this number, and `max_allowed_packet` is the most
    /// payload bytes of one packet. A reply begins at the number after its command's last chunk.
    /// (MySQL: Client/Server Protocol, "Sequence ID".)
    pub fn at(number: u8, max_allowed_packet: usize) -> Self
        ensures { result ≡ codec_at number max_allowed_packet }
    {
        PacketCodec {
            max_allowed_packet,
            number,
            begun: None,
            refused: None,
        }
    }

    // The number of the next chunk.
    fn seq_id(&self) -> u8
        ensures { result ≡ self.now.number }
    {
        self.number
    }

    // Whether it has refused nothing.
    fn is_open(&self) -> bool
        ensures open { OnTrue result (self.now.refused ≡ None) }
        ensures refused { OnFalse result (self.now.refused ≢ None) }
    {
        self.refused.is_none()
    }

    // The most payload bytes of one packet.
    fn limit(&self) -> usize
        ensures { result ≡ self.now.limit }
    {
        self.max_allowed_packet
    }

    // The next chunk has this number.
    fn set_seq_id(&mut self, number: u8)
        ensures { self.new ≡ record self.old { number = number } }
    {
        self.number = number;
    }

    /// The next chunk has the number 0, as the first one of each command.
    /// (MySQL: Client/Server Protocol, "Sequence ID".)
    pub fn reset_seq_id(&mut self)
        ensures { self.new ≡ record self.old { number = 0 } }
    {
        self.number = 0;
    }

    /// Changes nothing: packets that aren't compressed have one count of numbers.
    pub fn sync_seq_id(&mut self)
        ensures { self.new ≡ self.old }
    {}

    /// Appends the framing of `payload` to `dst`, its first chunk with the codec's number.
    ///
    /// The number then goes on after the last chunk.
    ///
    /// Promise: exactly the framing is appended; after a refusal all is as it was (`framing`).
    ///
    /// # Errors
    /// - `PacketTooLarge` where the payload is longer than the limit.
    /// - `Memory` where a growth of `dst` was refused.
    ///
    /// `dst` and the codec are as they were after an error.
    ///
    /// (MySQL: Client/Server Protocol, "Protocol Basics: MySQL Packets".)
    pub fn encode<B: BufMut>(&mut self, payload: &[u8], dst: &mut B) -> Result<(), PacketCodecError>
        ensures ok { OnOk result ((B.written dst.new ≡ B.written dst.old ++ framing payload.now self.old.number)
            × (self.new ≡ record self.old { number = number_after payload.now self.old.number })) }
        ensures within { OnOk result (length payload.now ≤ self.old.limit) }
        ensures err { OnErr result ((B.written dst.new ≡ B.written dst.old) × (self.new ≡ self.old)) }
        ensures too_large { IfErr result (λ e. IsTooLargeOrMemory e (self.old.limit < length payload.now)) }
    {
        if payload.len() > self.max_allowed_packet {
            return Err(PacketCodecError::PacketTooLarge);
        }
        match packet_to_chunks(self.number, payload, dst) {
            Ok(next) => {
                self.number = next;
                Ok(())
            }
            Err(_) => Err(PacketCodecError::Memory),
        }
    }

    /// Moves the next packet's payload to the end of `dst`, and answers whether it stands whole
    /// there.
    ///
    /// Its bytes are taken from the front of `src`. `dst` has to be empty where a packet begins,
    /// and else as the last call left it. After `true` the caller takes the payload and empties
    /// `dst`.
    ///
    /// `src` is any buffer that is read from the front. It is one that grows as bytes come, or a
    /// piece of the stream. Or it is what was left of one piece followed by the next. After `false`
    /// fewer than 4 bytes are left in `src`, the front of a header. The next call has to be given
    /// them before what comes next.
    ///
    /// Promise: from any source, however it is cut, exactly the payloads whose framings follow each
    /// other are handed out. Then comes the fault of what follows (`Decodes`).
    ///
    /// # Errors
    /// - `PacketTooLarge` once a chunk's header stands with which the packet would pass the limit.
    /// - `Memory` where a growth of `dst` was refused.
    /// - `PacketsOutOfSync` once a chunk stands whole that hasn't the number due.
    ///
    /// What `src` and `dst` hold after an error isn't said. The codec has the number that it had
    /// before the call, and keeps to the error: each further call answers it again and changes
    /// nothing.
    ///
    /// (MySQL: Client/Server Protocol, "Protocol Basics: MySQL Packets", "Sending More Than 16Mb"
    /// and "Sequence ID".)
    pub fn decode<B: Buf>(
        &mut self,
        src: &mut B,
        dst: &mut BytesMut,
    ) -> Result<bool, PacketCodecError>
        requires { CanGoOn self.old dst.old.items }
        ensures ok { IfOk result (λ whole. Decodes self.old (B.unread src.old) dst.old.items whole
            self.new (B.unread src.new) dst.new.items) }
        ensures refused { IfErr result (RefusesBy self.old (B.unread src.old) dst.old.items self.new) }
        ensures stays { IfSome self.old.refused (λ refusal. (result ≡ Err (error_of refusal))
            × (self.new ≡ self.old) × (src.new ≡ src.old) × (dst.new ≡ dst.old)) }
        // What came of a chunk is moved at once: what is left is the front of a header, or nothing
        // behind a chunk that was begun.
        ensures moved { result ≡ Ok false → length (B.unread src.new) < 4 }
        ensures used { result ≡ Ok false → self.new.begun ≢ None → B.unread src.new ≡ [] }
    {
        let filled = dst.len();
        match self.decode_onto(src, dst, filled) {
            Ok(whole) => Ok(whole),
            Err(refusal) => Err(refusal.error()),
        }
    }

    // Whether it stands before the header of a chunk, and has refused nothing.
    fn awaits_header(&self) -> bool
        ensures { OnTrue result ((self.now.begun ≡ None) × (self.now.refused ≡ None)) }
    {
        self.begun.is_none() && self.refused.is_none()
    }

    // What the header says of the chunk that was begun, where so many bytes of its packet came.
    fn begun_header(&self, filled: usize) -> Option<ChunkHeader>
        requires { ForSome self.now.begun (λ chunk. filled % max_payload_len + chunk.awaited ≤ max_payload_len) }
        ensures value { result ≡ option_map
            (λ chunk. record { number = chunk.number; len = filled % max_payload_len + chunk.awaited })
            self.now.begun }
        ensures byte { IfSome result (λ header. header.number < 256) }
    {
        match &self.begun {
            Some(chunk) => Some(chunk.header(filled)),
            None => None,
        }
    }

    // `decode` of a piece that ends within the chunk that was begun. Answers whether it is one; else nothing changes.
    #[inline(always)]
    fn decode_within(&mut self, piece: &[u8], packet: &mut Vec<u8>) -> bool
        requires open { self.old.refused ≡ None }
        requires goes_on { CanGoOn self.old packet.old.items }
        ensures waits { OnTrue result ((self.old.begun ≢ None) ×
            Waits self.old piece.now packet.old.items self.new [] packet.new.items) }
        ensures kept { OnFalse result ((self.new ≡ self.old) × (packet.new.items ≡ packet.old.items)) }
    {
        move_within(&mut self.begun, piece, packet)
    }

    // `decode` onto any buffer, which has `filled` bytes.
    fn decode_onto<B: Buf, D: BufMut>(
        &mut self,
        src: &mut B,
        dst: &mut D,
        filled: usize,
    ) -> Result<bool, Refusal>
        requires goes_on { CanGoOn self.old (D.written dst.old) }
        requires filled { filled ≡ length (D.written dst.old) }
        ensures ok { IfOk result (λ whole. Decodes self.old (B.unread src.old) (D.written dst.old) whole
            self.new (B.unread src.new) (D.written dst.new)) }
        ensures refused { IfErr result
            (λ refusal. RefusesBy self.old (B.unread src.old) (D.written dst.old) self.new
            (error_of refusal)) }
        ensures stays { IfSome self.old.refused (λ refusal. (result ≡ Err refusal)
            × (self.new ≡ self.old) × (src.new ≡ src.old) × (dst.new ≡ dst.old)) }
        ensures moved { result ≡ Ok false → length (B.unread src.new) < 4 }
        ensures used { result ≡ Ok false → self.new.begun ≢ None → B.unread src.new ≡ [] }
    {
        if let Some(refusal) = self.refused {
            return Err(refusal);
        }
        let mut number = self.number;
        match take_packet(
            &mut number,
            &mut self.begun,
            src,
            dst,
            filled,
            self.max_allowed_packet,
        ) {
            Ok(whole) => {
                self.number = number;
                Ok(whole)
            }
            Err(refusal) => {
                self.refused = Some(refusal);
                Err(refusal)
            }
        }
    }
}
