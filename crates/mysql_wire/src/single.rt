//! The first packet of a stream, where it has one chunk, as most have.

ghost use Rattle.std.specs.Prelude.{MatchOption};
ghost use Rattle.mysql_wire.specs.FirstPacket.{first_packet};
ghost use Rattle.mysql_wire.specs.OneChunk.{HasOtherChunks, IsOneChunk};

use crate::chunk::{Chunk, chunk_at};
use mysql_const::MAX_PAYLOAD_LEN;

/// The payload of the first packet, where it has one chunk and stands whole. Nothing is copied.
///
/// It takes 4 bytes and its own, and the number that is due behind it is the next one.
///
/// Promise: that is what [`first_packet`](crate::first_packet) finds, and `None` where it finds no
/// packet of one chunk (`IsOneChunk`, `HasOtherChunks`).
///
/// (MySQL: Client/Server Protocol, "Protocol Basics: MySQL Packets" and "Sequence ID".)
pub fn one_chunk(limit: usize, number: u8, bytes: &[u8]) -> Option<&[u8]>
    ensures { MatchOption result (HasOtherChunks (first_packet limit number bytes.now))
        (λ payload. IsOneChunk (first_packet limit number bytes.now) number bytes.now payload.now) }
{
    match chunk_at(limit, number, bytes) {
        Chunk::Whole(len) if len < MAX_PAYLOAD_LEN => Some(&bytes[4..4 + len]),
        _ => None,
    }
}
