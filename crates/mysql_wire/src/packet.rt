//! The first packet of a stream, where it stands whole.
//!
//!     match first_packet(alloc, limit, due, bytes)? {
//!         FirstPacket::Whole { payload, next, used } => ..,
//!         FirstPacket::Short => ..,
//!         FirstPacket::TooLarge | FirstPacket::OutOfSync(_) => ..,
//!     }

ghost use Rattle.std.specs.Prelude.{◌≡◌, ◌+◌, ◌<◌, ◌≤◌, IfOk, MatchOption, OnErr, length};
ghost use Rattle.mysql_wire.specs.Chunks.{header_behind, payload_of};
ghost use Rattle.mysql_wire.specs.FirstPacket.{first_packet, framed, is_short};
ghost use Rattle.mysql_wire.specs.Views.{HasManyChunks, IsLentFrom, StandsWithin};
ghost use Rattle.mysql_wire.specs.Views.{found_in};

use crate::extent::{Extent, extent_at};
use mysql_const::MAX_PAYLOAD_LEN;
use std::alloc::{AllocError, Global};
use std::borrow::CowSlice;

/// What stands first in a stream.
///
/// (MySQL: Client/Server Protocol, "Protocol Basics: MySQL Packets", "Sending More Than 16Mb" and
/// "Sequence ID".)
#[derive(Debug, PartialEq, Eq, Drop)]
pub enum FirstPacket<'a> {
    /// Less than a whole packet.
    Short,
    /// A packet that its headers take past the limit.
    TooLarge,
    /// A packet with a chunk of this number, which isn't the one that is due.
    OutOfSync(u8),
    /// A whole packet.
    Whole {
        /// Its payload, which is lent where it has one chunk.
        payload: CowSlice<'a, u8>,
        /// The number that is due behind it.
        next: u8,
        /// How many bytes it takes with its headers.
        used: usize,
    },
}

/// The most bytes that a packet takes with its headers, by the longest payload, where a `usize` has
/// this number.
pub fn framed(limit: usize) -> Option<usize>
    ensures { MatchOption result (usize.MAX < framed limit) (λ bytes. bytes ≡ framed limit) }
{
    limit.checked_add(4 * (limit / MAX_PAYLOAD_LEN + 1))
}

/// Whether less than a whole packet stands first. Nothing is copied.
///
/// (MySQL: Client/Server Protocol, "Protocol Basics: MySQL Packets".)
pub fn is_short(limit: usize, number: u8, bytes: &[u8]) -> bool
    ensures { result ≡ is_short (first_packet limit number bytes.now) }
{
    matches!(extent_at(limit, number, bytes), Extent::Short)
}

// The payload of so many full chunks and a last one, in one allocation.
fn join(alloc: Global, full: usize, last: usize, bytes: &[u8]) -> Result<Vec<u8>, AllocError>
    requires { header_behind full + 4 + last ≤ length bytes.now }
    ensures { IfOk result (λ payload. payload.items ≡ payload_of full last bytes.now) }
{
    let mut payload = Vec::with_capacity(alloc, full * MAX_PAYLOAD_LEN + last)?;
    let mut rest = bytes;
    'chunks: for _ in 0..full {
        payload.extend_from_slice(&rest[4..4 + MAX_PAYLOAD_LEN])?;
        rest = &rest[4 + MAX_PAYLOAD_LEN..];
    }
    payload.extend_from_slice(&rest[4..4 + last])?;
    Ok(payload)
}

/// The first packet, by the longest payload and the number that is due.
///
/// Chunk by chunk, a header that takes the packet past the limit comes first, then whether the chunk
/// stands whole, and then its number.
///
/// A payload of one chunk is lent. One of several is joined in one allocation, once all of them
/// stand: before that nothing is copied, and only the headers are looked at.
///
/// # Errors
/// - `AllocError` where this allocation is refused.
///
/// (MySQL: Client/Server Protocol, "Protocol Basics: MySQL Packets", "Sending More Than 16Mb" and
/// "Sequence ID".)
pub fn first_packet<'a>(
    alloc: Global,
    limit: usize,
    number: u8,
    bytes: &'a [u8],
) -> Result<FirstPacket<'a>, AllocError>
    ensures found { IfOk result
        (λ found. first_packet limit number bytes.now ≡ found_in bytes.now found) }
    ensures within { IfOk result (λ found. StandsWithin bytes.now found) }
    ensures lent { IfOk result (λ found. IsLentFrom bytes.now found) }
    ensures err { OnErr result (HasManyChunks (first_packet limit number bytes.now)) }
{
    let (full, last, next) = match extent_at(limit, number, bytes) {
        Extent::Short => return Ok(FirstPacket::Short),
        Extent::TooLarge => return Ok(FirstPacket::TooLarge),
        Extent::OutOfSync(other) => return Ok(FirstPacket::OutOfSync(other)),
        Extent::Whole { full, last, next } => (full, last, next),
    };
    if full == 0 {
        return Ok(FirstPacket::Whole {
            payload: CowSlice::Borrowed(&bytes[4..4 + last]),
            next,
            used: 4 + last,
        });
    }
    Ok(FirstPacket::Whole {
        payload: CowSlice::Owned(join(alloc, full, last, bytes)?),
        next,
        used: full * (4 + MAX_PAYLOAD_LEN) + 4 + last,
    })
}
