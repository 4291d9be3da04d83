//! The front of a header that a reader keeps from one piece of a stream to the next.
//!
//!     let mut src = header.followed_by(piece);
//!     while codec.decode(&mut src, &mut payload)? { .. }
//!     let kept = PartialHeader::rest_of(&mut src);

ghost use Rattle.std.specs.Bool.{OnFalse, OnTrue};
ghost use Rattle.std.specs.Prelude.{◌≡◌, ◌<◌, ◌==◌, [], ◌++◌, length};
ghost use Rattle.mysql_wire.specs.Incoming.{header_at};

use super::chunk::header_of;
use bytes::Buf;
use bytes::buf::Chain;
use std::marker::Model;

/// What a chunk's header says: the chunk's number, and how many payload bytes the chunk carries.
/// (MySQL: Client/Server Protocol, "Protocol Basics: MySQL Packets".)
#[derive(Clone, Copy, Debug, PartialEq, Eq)]
pub struct ChunkHeader {
    pub number: u8,
    pub len: usize,
}

/// The bytes of a chunk's header of which fewer than four came.
///
/// [`PacketCodec::decode`] leaves them of a piece of a stream, to be read before the next piece.
/// (MySQL: Client/Server Protocol, "Protocol Basics: MySQL Packets".)
///
/// [`PacketCodec::decode`]: super::PacketCodec::decode
#[derive(Debug, Drop)]
pub struct PartialHeader {
    bytes: [u8; 3],
    len: usize,
}

impl Model for PartialHeader {
    ghost use Rattle.std.specs.Prelude.{ℕ, List, ◌≤◌, take};

    ghost Value = { List ℕ };

    ghost view = { λ header. take header.len header.bytes };

    ghost invariant = { λ header. header.len ≤ 3 };
}

impl PartialHeader {
    /// No byte came.
    pub fn new() -> Self
        ensures { result ≡ [] }
    {
        PartialHeader {
            bytes: [0; 3],
            len: 0,
        }
    }

    /// All that is left of a buffer that holds fewer than four bytes.
    pub fn rest_of<B: Buf>(src: &mut B) -> Self
        requires { length (B.unread src.old) < 4 }
        ensures { result ≡ B.unread src.old }
    {
        let len = src.remaining();
        let mut bytes = [0; 3];
        src.copy_to_slice(&mut bytes[..len]);
        PartialHeader { bytes, len }
    }

    // Takes a piece behind the bytes that came, where they are fewer than four with it, and answers
    // whether they are. Else nothing changes.
    pub(super) fn append(&mut self, piece: &[u8]) -> bool
        ensures taken { OnTrue result ((self.new ≡ self.old ++ piece.now) × (length self.new < 4)) }
        ensures kept { OnFalse result (self.new ≡ self.old) }
    {
        let len = self.len;
        if piece.len() > 3 - len {
            return false;
        }
        self.bytes[len..len + piece.len()].copy_from_slice(piece);
        self.len = len + piece.len();
        true
    }

    // The header that they begin, once its four bytes stand in them and a piece behind them.
    pub(super) fn with_piece(&self, piece: &[u8]) -> Option<ChunkHeader>
        ensures value { result ≡ header_at (self.now ++ piece.now) }
        ensures short { length self.now < 4 }
    {
        let mut src = self.as_slice().chain(piece);
        if src.remaining() < 4 {
            return None;
        }
        let mut header = [0; 4];
        src.copy_to_slice(&mut header);
        let (len, number) = header_of(&header);
        Some(ChunkHeader { number, len })
    }

    // Whether no byte came.
    pub(super) fn is_empty(&self) -> bool
        ensures { result ≡ (length self.now == 0) }
    {
        self.len == 0
    }

    /// The bytes that came.
    pub fn as_slice(&self) -> &[u8]
        ensures value { result.now ≡ self.now }
        ensures short { length self.now < 4 }
    {
        &self.bytes[..self.len]
    }

    /// The bytes that came and then those of the next piece, as one buffer, without copying the piece.
    pub fn followed_by<'a>(&'a self, piece: &'a [u8]) -> Chain<&'a [u8], &'a [u8]>
        ensures { ⟦<Chain<&'a [u8], &'a [u8]> as Buf>⟧.unread result ≡ self.now ++ piece.now }
    {
        self.as_slice().chain(piece)
    }
}
