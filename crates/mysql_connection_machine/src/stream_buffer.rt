//! What came of a side's stream and isn't read yet.

ghost use Rattle.std.specs.Prelude.{◌≡◌, ◌+◌, ◌≤◌, ◌↔◌, [], length, drop, take, IsTrue, OnOk};
ghost use Rattle.std.specs.Prelude.{OnErr};
ghost use Rattle.mysql_connection_rules.specs.Puts.{passed};
ghost use Rattle.mysql_connection_machine.specs.Endings.{is_empty};
ghost use Rattle.mysql_connection_rules.specs.Streams.{Piece, End, behind, grown, nothing_came};

use bytes::BytesMut;
use std::alloc::{AllocError, Global};
use std::marker::Model;

/// What came of a side's stream and isn't read yet, and how much of it was read. The packet that
/// was read last may be lent: its bytes stay until the next call that changes something.
///
/// Contracts see it as a `Buffer`.
#[derive(Drop)]
pub struct StreamBuffer {
    read: u64,
    bytes: BytesMut,
    // How many of the bytes are those of the packet that is lent, which stand at the front.
    lent: usize,
    closed: bool,
}

impl Model for StreamBuffer {
    ghost use Rattle.mysql_connection_machine.specs.Buffers.{Buffer};

    ghost Value = { Buffer };

    ghost use Rattle.mysql_connection_machine.specs.Inside.{IsLentWithin, buffer_inside};

    ghost view = { buffer_inside };

    ghost invariant = { IsLentWithin };
}

// The packet that was lent is let go.
fn let_go(bytes: &mut BytesMut, lent: &mut usize)
    requires { lent.old ≤ length bytes.old.items }
    ensures bytes { bytes.new.items ≡ drop lent.old bytes.old.items }
    ensures lent { lent.new ≡ 0 }
{
    bytes.advance(*lent);
    *lent = 0;
}

impl StreamBuffer {
    /// A stream of which nothing came.
    pub fn new(alloc: Global) -> StreamBuffer
        ensures { result ≡ record { stream = nothing_came; lent = [] } }
    {
        StreamBuffer {
            read: 0,
            bytes: BytesMut::new(alloc),
            lent: 0,
            closed: false,
        }
    }

    /// Whether no more comes.
    pub fn is_closed(&self) -> bool
        ensures { result ≡ self.now.stream.closed }
    {
        self.closed
    }

    /// How many bytes were read.
    pub fn position(&self) -> u64
        ensures { result ≡ self.now.stream.read }
    {
        self.read
    }

    /// The bytes that aren't read yet.
    pub fn as_slice(&self) -> &[u8]
        ensures { result.now ≡ self.now.stream.bytes }
    {
        &self.bytes.as_slice()[self.lent..]
    }

    /// The payload that is lent.
    pub fn lent(&self) -> &[u8]
        ensures { result.now ≡ self.now.lent }
    {
        let packet = &self.bytes.as_slice()[..self.lent];
        match packet {
            [_, _, _, _, payload @ ..] => payload,
            _ => &[],
        }
    }

    /// Whether all that came was read.
    pub fn is_empty(&self) -> bool
        ensures { result ≡ is_empty self.now.stream.bytes }
    {
        self.as_slice().is_empty()
    }

    /// A piece came.
    pub fn extend(&mut self, piece: &[u8]) -> Result<(), AllocError>
        ensures came { OnOk result (self.new.stream ≡ grown (Piece piece.now) self.old.stream) }
        ensures err { OnErr result (self.new.stream ≡ self.old.stream) }
    {
        let_go(&mut self.bytes, &mut self.lent);
        self.bytes.extend_from_slice(piece)
    }

    /// No more comes.
    pub fn close(&mut self)
        ensures { self.new.stream ≡ grown End self.old.stream }
    {
        self.closed = true;
    }

    /// Whether 64 bits tell the position behind so many bytes more.
    pub fn can_advance(&self, count: usize) -> bool
        ensures { IsTrue result ↔ (self.now.stream.read + count ≤ u64.MAX) }
    {
        self.read.checked_add(count as u64).is_some()
    }

    /// So many bytes were read.
    pub fn advance(&mut self, count: usize)
        requires there { count ≤ length self.old.stream.bytes }
        requires place { self.old.stream.read + count ≤ u64.MAX }
        ensures { self.new.stream ≡ behind (drop count self.old.stream.bytes) self.old.stream }
    {
        let_go(&mut self.bytes, &mut self.lent);
        self.read += count as u64;
        self.bytes.advance(count);
    }

    /// So many bytes more were read, which never waited here.
    pub fn pass(&mut self, count: usize)
        requires place { self.old.stream.read + count ≤ u64.MAX }
        ensures stream { self.new.stream ≡ passed count self.old.stream }
        ensures lent { self.new.lent ≡ self.old.lent }
    {
        self.read += count as u64;
    }

    /// A packet of so many bytes was read, and its payload is lent.
    pub fn lend(&mut self, count: usize)
        requires there { count ≤ length self.old.stream.bytes }
        requires place { self.old.stream.read + count ≤ u64.MAX }
        ensures stream { self.new.stream ≡
            behind (drop count self.old.stream.bytes) self.old.stream }
        ensures lent { self.new.lent ≡ drop 4 (take count self.old.stream.bytes) }
    {
        let_go(&mut self.bytes, &mut self.lent);
        self.read += count as u64;
        self.lent = count;
    }
}
