//! How far the first packet goes, by the headers of its chunks.

ghost use Rattle.std.specs.Prelude.{◌≡◌};
ghost use Rattle.mysql_wire.specs.Chunks.{StandIn, by_extent};
ghost use Rattle.mysql_wire.specs.FirstPacket.{first_packet};

use crate::chunk::{Chunk, chunk_at};
use mysql_const::MAX_PAYLOAD_LEN;

/// How far the first packet goes.
#[derive(Clone, Copy)]
pub enum Extent {
    /// Less than a whole packet stands there.
    Short,
    /// A header takes the packet past the limit.
    TooLarge,
    /// A chunk has this number, which isn't the one that is due.
    OutOfSync(u8),
    /// Over full chunks and a last one.
    Whole {
        /// How many chunks are full.
        full: usize,
        /// How many bytes the last one has.
        last: usize,
        /// The number that is due behind it.
        next: u8,
    },
}

/// How far the first packet goes, by the longest payload and the number that is due.
pub fn extent_at(limit: usize, number: u8, bytes: &[u8]) -> Extent
    ensures found { first_packet limit number bytes.now ≡ by_extent bytes.now result }
    ensures stands { StandIn bytes.now result }
{
    let mut rest = bytes;
    let mut room = limit;
    let mut due = number;
    let mut full = 0;
    'chunks: loop {
        match chunk_at(room, due, rest) {
            Chunk::Short => return Extent::Short,
            Chunk::TooLarge => return Extent::TooLarge,
            Chunk::OutOfSync(other) => return Extent::OutOfSync(other),
            Chunk::Whole(len) => {
                due = due.wrapping_add(1);
                if len < MAX_PAYLOAD_LEN {
                    return Extent::Whole {
                        full,
                        last: len,
                        next: due,
                    };
                }
                rest = &rest[4 + len..];
                room -= len;
                full += 1;
            }
        }
    }
}
