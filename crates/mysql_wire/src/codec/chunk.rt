//! Single chunks: their headers, and the decoder that takes one at a time.
//!
//!     let mut decoder = ChunkDecoder::Idle;
//!     while let Some(chunk) = decoder.decode(&mut src, &mut dst, max_allowed_packet)? {
//!         let ends_packet = chunk.is_last();
//!     }

ghost use Rattle.std.specs.Prelude.{◌≡◌, ◌≤◌, IfErr, IfOk, IfSome, MatchOption, None, Ok, OnErr, length};
ghost use Rattle.mysql_wire.specs.Chunk.{IsTooLargeOrMemory, LacksChunk, PassesLimit, StillAwaits, TakesChunk};
ghost use Rattle.mysql_wire.specs.Chunk.{info_number, is_last};
ghost use Rattle.mysql_wire.specs.Framing.{announced, max_payload_len, number_at};
ghost use Rattle.mysql_wire.specs.Incoming.{LacksFrontChunk, IsFrontChunk};
ghost use Rattle.mysql_buf.specs.Bytes.{AreBytes};

use super::PacketCodecError;
use byteorder::{ByteOrder, LittleEndian};
use bytes::BytesMut;
use mysql_const::MAX_PAYLOAD_LEN;

/// A chunk that was taken: its number, and whether more chunks of its packet follow.
/// (MySQL: Client/Server Protocol, "Sequence ID" and "Sending More Than 16Mb".)
#[derive(Clone, Copy, Debug, PartialEq, Eq)]
pub enum ChunkInfo {
    /// A full chunk: at least one more chunk of the packet follows.
    Middle(u8),
    /// A chunk of fewer than [`MAX_PAYLOAD_LEN`] bytes, with which its packet ends.
    Last(u8),
}

impl ChunkInfo {
    /// The chunk's number.
    pub fn number(self) -> u8
        ensures { result ≡ info_number self }
    {
        match self {
            ChunkInfo::Middle(number) | ChunkInfo::Last(number) => number,
        }
    }

    /// Whether no more chunks of its packet follow.
    pub fn is_last(self) -> bool
        ensures { result ≡ is_last self }
    {
        matches!(self, ChunkInfo::Last(_))
    }
}

/// The length and the number that the header at the front gives.
pub(super) fn header_of(bytes: &[u8]) -> (usize, u8)
    requires { 4 ≤ length bytes.now }
    ensures count { result.0 ≡ announced bytes.now }
    ensures bound { result.0 ≤ max_payload_len }
    ensures number { result.1 ≡ number_at bytes.now }
    ensures bytes { AreBytes bytes.now }
{
    (LittleEndian::read_u24(bytes) as usize, bytes[3])
}

/// How many bytes the chunk at the front carries, where it stands whole, has this number, and its packet ends with it.
pub(super) fn whole_chunk(bytes: &[u8], number: u8, limit: usize) -> Option<usize>
    ensures found { IfSome result (λ count. IsFrontChunk limit number bytes.now count × AreBytes bytes.now) }
    ensures none { result ≡ None → LacksFrontChunk limit number bytes.now }
{
    if bytes.len() < 4 {
        return None;
    }
    let (count, own) = header_of(bytes);
    if own != number || count == MAX_PAYLOAD_LEN || count > limit || bytes.len() - 4 < count {
        return None;
    }
    Some(count)
}

/// Takes one chunk at a time from the front of a buffer that keeps a chunk until it stands whole.
/// (MySQL: Client/Server Protocol, "Protocol Basics: MySQL Packets".)
#[derive(Clone, Copy, Debug, PartialEq, Eq)]
pub enum ChunkDecoder {
    /// Any chunk may come.
    Idle,
    /// The header of the chunk at the front was seen; it carries `needed` payload bytes.
    Chunk { needed: usize },
}

impl ChunkDecoder {
    /// Moves the payload of the chunk at the front of `src` to the end of `dst`.
    ///
    /// Once the chunk stands whole the answer is its number; before that it is `None`, and nothing
    /// moves. `max_allowed_packet` is the most bytes that `dst` may hold afterwards.
    ///
    /// Promise: one chunk is taken whole or not at all; after a refusal all is as it was
    /// (`LacksChunk`).
    ///
    /// # Errors
    /// - `PacketTooLarge` where the chunk's header stands and would pass the limit, or says another
    ///   length than the `needed` of this decoder.
    /// - `Memory` where a growth of `dst` is refused.
    ///
    /// The decoder and the buffers are as they were after an error.
    ///
    /// (MySQL: Client/Server Protocol, "Protocol Basics: MySQL Packets".)
    pub fn decode(
        &mut self,
        src: &mut BytesMut,
        dst: &mut BytesMut,
        max_allowed_packet: usize,
    ) -> Result<Option<ChunkInfo>, PacketCodecError>
        ensures taken { IfOk result (λ info. MatchOption info
            (LacksChunk self.old max_allowed_packet src.old.items dst.old.items)
            (TakesChunk self.old max_allowed_packet src.old.items dst.old.items src.new.items dst.new.items)) }
        ensures waits { result ≡ Ok None → (src.new.items ≡ src.old.items) × (dst.new.items ≡ dst.old.items) }
        ensures too_large { IfErr result
            (λ e. IsTooLargeOrMemory e
            (PassesLimit self.old max_allowed_packet src.old.items dst.old.items)) }
        ensures err { OnErr result ((src.new.items ≡ src.old.items) × (dst.new.items ≡ dst.old.items)) }
        ensures kept { OnErr result (self.new ≡ self.old) }
        // A chunk that is awaited is the one whose header stands; after one was taken, any is.
        ensures awaits { IfOk result
            (λ info. MatchOption info (StillAwaits self.old src.old.items self.new) (λ _. self.new ≡
            ChunkDecoder.Idle)) }
    {
        if src.len() < 4 {
            return Ok(None);
        }
        let (count, number) = header_of(src.as_slice());
        if let ChunkDecoder::Chunk { needed } = *self {
            if needed != count {
                return Err(PacketCodecError::PacketTooLarge);
            }
        }
        if dst.len() + count > max_allowed_packet {
            return Err(PacketCodecError::PacketTooLarge);
        }
        if src.len() < 4 + count {
            *self = ChunkDecoder::Chunk { needed: count };
            return Ok(None);
        }
        if dst
            .extend_from_slice(&src.as_slice()[4..4 + count])
            .is_err()
        {
            return Err(PacketCodecError::Memory);
        }
        src.advance(4 + count);
        *self = ChunkDecoder::Idle;
        if count < MAX_PAYLOAD_LEN {
            Ok(Some(ChunkInfo::Last(number)))
        } else {
            Ok(Some(ChunkInfo::Middle(number)))
        }
    }
}
