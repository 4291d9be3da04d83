//! The chunk at the front of bytes, by its header.

ghost use Rattle.std.specs.Prelude.{◌≡◌, ℕ, suc, ◌+◌};
ghost use Rattle.mysql_wire.specs.Chunks.{StandsIn, by_chunk};
ghost use Rattle.mysql_wire.specs.FirstPacket.{packet_by};

use byteorder::{ByteOrder, LittleEndian};

/// What stands at the front.
#[derive(Clone, Copy)]
pub enum Chunk {
    /// Less than a whole chunk.
    Short,
    /// The header of a chunk that takes its packet past the limit.
    TooLarge,
    /// A chunk with this number, which isn't the one that is due.
    OutOfSync(u8),
    /// A chunk of so many bytes behind its header.
    Whole(usize),
}

/// The chunk at the front, by what its packet has left of the limit and the number that is due.
pub fn chunk_at(room: usize, number: u8, bytes: &[u8]) -> Chunk
    ensures found { (chunks limit before : ℕ) → before + room ≡ limit →
        packet_by (suc chunks) limit before number bytes.now ≡
        by_chunk chunks limit before number bytes.now result }
    ensures stands { StandsIn room bytes.now result }
{
    let [a, b, c, own, body @ ..] = bytes else {
        return Chunk::Short;
    };
    let len = LittleEndian::read_u24(&[*a, *b, *c]) as usize;
    if len > room {
        Chunk::TooLarge
    } else if len > body.len() {
        Chunk::Short
    } else if *own != number {
        Chunk::OutOfSync(*own)
    } else {
        Chunk::Whole(len)
    }
}
