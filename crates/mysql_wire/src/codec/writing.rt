//! Payloads written as chunks: appended to a buffer, or framed where they stand in it.
//!
//!     let next = packet_to_chunks(0, payload, &mut out)?;
//!
//!     let start = out.len();
//!     out.extend_from_slice(&[0; 4])?;
//!     response.serialize(&mut out)?;
//!     let next = frame_in_place(number, start, &mut spare, &mut out)?;

ghost use Rattle.byteorder.specs.Endian.{little_bytes};
ghost use Rattle.std.specs.Prelude.{◌≡◌, ◌+◌, ◌++◌, ◌∷◌, ◌<◌, ◌≤◌, [], IfOk, OnErr, OnOk, drop, length, take};
ghost use Rattle.mysql_wire.specs.Framing.{chunk, framing, max_payload_len, number_after};

use bytes::BufMut;
use mysql_const::MAX_PAYLOAD_LEN;
use std::alloc::AllocError;

/// The header of a chunk of so many bytes that has this number.
/// (MySQL: Client/Server Protocol, "Protocol Basics: MySQL Packets".)
#[inline(always)]
pub fn packet_header(number: u8, size: u32) -> [u8; 4]
    requires { size < 16777216 }
    ensures { result ≡ little_bytes 3 size ++ number ∷ [] }
{
    let [first, second, third, _] = size.to_le_bytes();
    [first, second, third, number]
}

// Writes a chunk, where there is room.
fn put_chunk<B: BufMut>(number: u8, bytes: &[u8], dst: &mut B)
    requires fits { length bytes.now ≤ max_payload_len }
    requires room { 4 + length bytes.now ≤ B.spare dst.old }
    ensures items { B.written dst.new ≡ B.written dst.old ++ chunk number bytes.now }
    ensures spare { B.spare dst.old ≤ B.spare dst.new + 4 + length bytes.now }
{
    dst.put_slice(&packet_header(number, bytes.len() as u32))
        .unwrap();
    dst.put_slice(bytes).unwrap();
}

/// Appends the framing of `payload` to `dst`, and answers the number after its last chunk.
///
/// The first chunk is numbered `id`; the answer is `id` and the count of chunks, modulo 256. A
/// payload of n bytes takes n / [`MAX_PAYLOAD_LEN`] + 1 chunks, so one that fills its chunks ends
/// with an empty chunk.
///
/// Promise: exactly the framing is appended, or nothing (`framing`).
///
/// # Errors
/// - `AllocError` where a growth of `dst` was refused; `dst` then holds what it held.
///
/// (MySQL: Client/Server Protocol, "Protocol Basics: MySQL Packets", "Sending More Than 16Mb" and
/// "Sequence ID".)
pub fn packet_to_chunks<B: BufMut>(id: u8, payload: &[u8], dst: &mut B) -> Result<u8, AllocError>
    ensures ok { OnOk result (B.written dst.new ≡ B.written dst.old ++ framing payload.now id) }
    ensures next { IfOk result (λ next. next ≡ number_after payload.now id) }
    ensures err { OnErr result (B.written dst.new ≡ B.written dst.old) }
{
    dst.reserve(payload.len() + 4 * (payload.len() / MAX_PAYLOAD_LEN + 1))?;
    let mut number = id;
    let mut rest = payload;
    'slices: while rest.len() >= MAX_PAYLOAD_LEN {
        put_chunk(number, &rest[..MAX_PAYLOAD_LEN], dst);
        rest = &rest[MAX_PAYLOAD_LEN..];
        number = number.wrapping_add(1);
    }
    put_chunk(number, rest, dst);
    Ok(number.wrapping_add(1))
}

// `frame_in_place` by way of the spare buffer.
#[cold]
#[inline(never)]
fn frame_moved(
    number: u8,
    start: usize,
    spare: &mut Vec<u8>,
    out: &mut Vec<u8>,
) -> Result<u8, AllocError>
    requires { start + 4 ≤ length out.old.items }
    ensures ok { OnOk result (out.new.items ≡
        take start out.old.items ++ framing (drop (start + 4) out.old.items) number) }
    ensures next { IfOk result (λ next. next ≡ number_after (drop (start + 4) out.old.items) number) }
    ensures kept { OnErr result (out.new.items ≡ take start out.old.items) }
{
    spare.clear();
    let copied = spare.extend_from_slice(&out[start + 4..]);
    out.truncate(start);
    copied?;
    packet_to_chunks(number, spare, out)
}

/// Frames the payload behind four bytes of room for a header in `out`, which begin at `start`.
///
/// Its first chunk gets this number; the answer is the number after its last chunk. A payload of
/// fewer than [`MAX_PAYLOAD_LEN`] bytes stays where it is. A longer one is moved to `spare` and
/// appended again; `spare` keeps its room from call to call, and what it holds afterwards isn't
/// said.
///
/// Promise: `out` ends with exactly the framing of the payload, in place of the room and the
/// payload (`framing`).
///
/// # Errors
/// - `AllocError` where a growth was refused; `out` then ends at `start`.
///
/// (MySQL: Client/Server Protocol, "Protocol Basics: MySQL Packets", "Sending More Than 16Mb" and
/// "Sequence ID".)
#[inline(always)]
pub fn frame_in_place(
    number: u8,
    start: usize,
    spare: &mut Vec<u8>,
    out: &mut Vec<u8>,
) -> Result<u8, AllocError>
    requires { start + 4 ≤ length out.old.items }
    ensures ok { OnOk result (out.new.items ≡
        take start out.old.items ++ framing (drop (start + 4) out.old.items) number) }
    ensures next { IfOk result (λ next. next ≡ number_after (drop (start + 4) out.old.items) number) }
    ensures kept { OnErr result (out.new.items ≡ take start out.old.items) }
{
    let payload = start + 4;
    let size = out.len() - payload;
    if size >= MAX_PAYLOAD_LEN {
        return frame_moved(number, start, spare, out);
    }
    out[start..payload].copy_from_slice(&packet_header(number, size as u32));
    Ok(number.wrapping_add(1))
}
