//! One packet read from a buffer: its payload bytes go on to where they are wanted as they come.

ghost use Rattle.std.specs.Bool.{OnFalse, OnTrue};
ghost use Rattle.std.specs.Prelude.{◌≡◌, ◌≢◌, ◌⊎◌, ◌%◌, ◌+◌, [], None, false, ◌<◌, ◌≤◌, ◌++◌, IfErr, IfOk, Ok};
ghost use Rattle.std.specs.Prelude.{OnOk, drop, length, take};
ghost use Rattle.mysql_wire.specs.Codec.{Decodes, IsDue, IsOfPacket};
ghost use Rattle.mysql_wire.specs.Framing.{max_payload_len};
ghost use Rattle.mysql_wire.specs.Moving.{EndsWithin, NextChunk, begun_of, codec_of};

use super::Refusal;
use super::chunk::header_of;
use super::header::ChunkHeader;
use bytes::{Buf, BufMut};
use mysql_const::MAX_PAYLOAD_LEN;
use std::alloc::AllocError;

/// A chunk whose header was taken while its bytes still come.
#[derive(Clone, Copy, Debug, PartialEq, Eq)]
pub(super) struct BegunChunk {
    number: u8,
    awaited: usize,
}

impl BegunChunk {
    /// What its header says, where so many bytes of its packet came.
    pub(super) fn header(&self, filled: usize) -> ChunkHeader
        requires { filled % max_payload_len + self.now.awaited ≤ max_payload_len }
        ensures value { result ≡
            record { number = self.now.number; len = filled % max_payload_len + self.now.awaited } }
        ensures byte { result.number < 256 }
    {
        ChunkHeader {
            number: self.number,
            len: filled % MAX_PAYLOAD_LEN + self.awaited,
        }
    }
}

// The chunk whose bytes come next, if its header stands.
fn next_chunk<B: Buf>(
    begun: Option<BegunChunk>,
    src: &mut B,
    filled: usize,
    limit: usize,
) -> Result<Option<BegunChunk>, Refusal>
    requires { filled ≤ limit }
    ensures { NextChunk begun (B.unread src.old) filled limit result (B.unread src.new) }
{
    if begun.is_some() {
        return Ok(begun);
    }
    if src.remaining() < 4 {
        return Ok(None);
    }
    let mut header = [0; 4];
    src.copy_to_slice(&mut header);
    let (awaited, number) = header_of(&header);
    if awaited > limit - filled {
        return Err(Refusal::TooLarge);
    }
    Ok(Some(BegunChunk { number, awaited }))
}

// Moves the first bytes of a buffer to the end of another, which grows as they come.
fn move_bytes<B: Buf, D: BufMut>(src: &mut B, count: usize, dst: &mut D) -> Result<(), AllocError>
    requires { count ≤ length (B.unread src.old) }
    ensures ok { OnOk result (D.written dst.new ≡ D.written dst.old ++ take count (B.unread src.old)) }
    ensures rest { OnOk result (B.unread src.new ≡ drop count (B.unread src.old)) }
{
    let mut moved = 0;
    'parts: while moved < count {
        let part = src.chunk();
        let len = part.len().min(count - moved);
        dst.put_slice(&part[..len])?;
        src.advance(len);
        moved += len;
    }
    Ok(())
}

// Whether the chunk whose last `count` bytes were moved is its packet's last one, being shorter than a
// full one: so it is where it had no bytes, or where what was moved of the packet isn't full chunks.
fn is_last_chunk(count: usize, filled: usize) -> bool
    ensures last { OnTrue result ((count ≡ 0) ⊎ (filled % max_payload_len ≢ 0)) }
    ensures middle { OnFalse result ((count ≢ 0) × (filled % max_payload_len ≡ 0)) }
{
    count == 0 || filled % MAX_PAYLOAD_LEN != 0
}

// Appends a piece, and answers whether there was room for it. A single byte is no call of a copy.
#[inline(always)]
fn append(piece: &[u8], packet: &mut Vec<u8>) -> bool
    ensures taken { OnTrue result (packet.new.items ≡ packet.old.items ++ piece.now) }
    ensures kept { OnFalse result (packet.new.items ≡ packet.old.items) }
{
    if let [byte] = piece {
        return packet.push(*byte).is_ok();
    }
    packet.extend_from_slice(piece).is_ok()
}

/// Moves a piece to the end of a packet where it ends within the chunk that was begun, and answers
/// whether it did. Else, or where no room was to be had, nothing changes.
#[inline(always)]
pub(super) fn move_within(
    begun: &mut Option<BegunChunk>,
    piece: &[u8],
    packet: &mut Vec<u8>,
) -> bool
    ensures moved { OnTrue result (EndsWithin begun.old piece.now begun.new ×
        (packet.new.items ≡ packet.old.items ++ piece.now)) }
    ensures kept { OnFalse result ((begun.new ≡ begun.old) × (packet.new.items ≡ packet.old.items)) }
{
    let Some(chunk) = begun else {
        return false;
    };
    if piece.len() >= chunk.awaited || !append(piece, packet) {
        return false;
    }
    chunk.awaited -= piece.len();
    true
}

/// Moves the bytes of one packet from `src` to the end of `dst`, as far as they came. `dst` has
/// `filled` of them. The answer is whether the packet is whole.
pub(super) fn take_packet<B: Buf, D: BufMut>(
    number: &mut u8,
    begun: &mut Option<BegunChunk>,
    src: &mut B,
    dst: &mut D,
    filled: usize,
    limit: usize,
) -> Result<bool, Refusal>
    requires goes_on { IsOfPacket limit (begun_of begun.old) (D.written dst.old) }
    requires filled { filled ≡ length (D.written dst.old) }
    ensures ok { IfOk result (λ whole. Decodes (codec_of number.old limit begun.old)
        (B.unread src.old) (D.written dst.old) whole
        (codec_of number.new limit begun.new) (B.unread src.new) (D.written dst.new)) }
    ensures err { IfErr result (IsDue (codec_of number.old limit begun.old) (B.unread src.old) (D.written dst.old)) }
    ensures moved { result ≡ Ok false → length (B.unread src.new) < 4 }
    ensures used { result ≡ Ok false → begun.new ≢ None → B.unread src.new ≡ [] }
{
    let mut filled = filled;
    'chunks: loop {
        let chunk = match next_chunk(*begun, src, filled, limit) {
            Ok(Some(chunk)) => chunk,
            Ok(None) => return Ok(false),
            Err(refusal) => return Err(refusal),
        };
        let count = chunk.awaited.min(src.remaining());
        if move_bytes(src, count, dst).is_err() {
            return Err(Refusal::Memory);
        }
        filled += count;
        if count < chunk.awaited {
            *begun = Some(BegunChunk {
                number: chunk.number,
                awaited: chunk.awaited - count,
            });
            return Ok(false);
        }
        *begun = None;
        if chunk.number != *number {
            return Err(Refusal::OutOfSync);
        }
        *number = number.wrapping_add(1);
        if is_last_chunk(count, filled) {
            return Ok(true);
        }
    }
}
