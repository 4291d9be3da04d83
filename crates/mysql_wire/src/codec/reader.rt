//! A reader of the packets of a stream that comes in pieces.
//!
//!     let mut reader = PacketReader::new(alloc, 0, 1 << 24);
//!     let mut rest = piece;
//!     while let Some(payload) = reader.read(&mut rest)? { .. }

ghost use Rattle.std.specs.Prelude.{◌≡◌, ◌≢◌, ◌+◌, ◌%◌, ◌==◌, ◌<◌, ◌≤◌, ◌++◌, not, [], None, Err, IfErr, IfOk, IfSome};
ghost use Rattle.std.specs.Prelude.{MatchOption, Ok, OnErr, OnOk, false, length, true};
ghost use Rattle.std.specs.Bool.{OnFalse, OnTrue};
ghost use Rattle.mysql_wire.specs.Codec.{Decodes, RefusesBy, error_of, held, packet_number};
ghost use Rattle.mysql_wire.specs.Incoming.{LacksFrontChunk, Reads, ReadsOn, RefusesOn, bytes_kept, full_chunk};
ghost use Rattle.mysql_wire.specs.Incoming.{header_due, incoming_at};
ghost use Rattle.std.specs.Borrow.{sem};
ghost use Rattle.std.specs.Io.BufRead.{Rests};
ghost use Rattle.mysql_wire.specs.Kept.{Stands, unfinished};

use super::chunk::whole_chunk;
use super::header::{ChunkHeader, PartialHeader};
use super::{PacketCodec, PacketCodecError, Refusal};
use bytes::Buf;
use mysql_const::MAX_PAYLOAD_LEN;
use std::alloc::{AllocError, Global};
use std::marker::Model;
use std::mem;

/// Reads the packets of a stream that comes in pieces of any size. It holds at most the packet that isn't whole, or the
/// payload that it handed out last. Each byte of a payload is copied once.
///
///     let mut rest = piece;
///     while let Some(payload) = reader.read(&mut rest)? { .. }
///
/// A reply's packets count on from its command. In a stream of commands
/// [`PacketReader::reset_seq_id`] comes after each payload, since each command begins at the number
/// 0.
///
/// Contracts see the limit, the number of the next packet's first chunk, the bytes of that packet
/// that came, the payload and the refusal. (MySQL: Client/Server Protocol, "Protocol Basics: MySQL
/// Packets", "Sending More Than 16Mb" and "Sequence ID".)
#[derive(Debug, Drop)]
pub struct PacketReader {
    codec: PacketCodec,
    header: PartialHeader,
    packet: Vec<u8>,
    // The number of the first chunk of the packet that comes next, or is begun.
    number: u8,
    // Whether bytes of a packet came that isn't whole; else `packet` is the payload that was handed out.
    begun: bool,
}

impl Model for PacketReader {
    ghost use Rattle.mysql_wire.specs.Incoming.{Incoming};

    ghost Value = { Incoming };

    ghost use Rattle.mysql_wire.specs.Kept.{incoming_of, IsKept};

    ghost view = { incoming_of };

    ghost invariant = { IsKept };
}

// Hands out the next payload of the piece, where no byte of a header is kept, and leaves what
// follows it in the piece; where none stands whole, the piece is used up.
fn decode_straight(
    codec: &mut PacketCodec,
    header: &mut PartialHeader,
    packet: &mut Vec<u8>,
    piece: &mut &[u8],
) -> Result<bool, Refusal>
    requires none { header.old ≡ [] }
    requires stands { codec.old.refused ≡ None →
        Stands codec.old header.old packet.old.items (packet_number codec.old packet.old.items)
        (held codec.old header.old packet.old.items) }
    ensures ok { IfOk result (λ whole. Decodes codec.old (header.old ++
        piece.old.now) packet.old.items whole codec.new (header.new ++
        piece.new.now) packet.new.items) }
    ensures whole { result ≡ Ok true → (header.new ≡ []) × (length piece.new.now < length piece.old.now) }
    ensures used { result ≡ Ok false → piece.new.now ≡ [] }
    ensures moved { result ≡ Ok false → codec.new.begun ≢ None → header.new ≡ [] }
    ensures refused { IfErr result
        (λ refusal. RefusesBy codec.old (header.old ++ piece.old.now) packet.old.items codec.new
        (error_of refusal)) }
    ensures stays { IfSome codec.old.refused (λ refusal. (result ≡ Err refusal) × (codec.new ≡ codec.old)) }
    ensures err { OnErr result (piece.new ≡ piece.old) }
{
    let all = *piece;
    let filled = packet.len();
    let mut src = all;
    if codec.decode_onto(&mut src, packet, filled)? {
        *piece = src;
        return Ok(true);
    }
    *header = PartialHeader::rest_of(&mut src);
    *piece = &all[all.len()..];
    Ok(false)
}

// Reads a piece behind the bytes of a header that are kept.
fn decode_behind(
    codec: &mut PacketCodec,
    header: &mut PartialHeader,
    packet: &mut Vec<u8>,
    piece: &mut &[u8],
) -> Result<bool, Refusal>
    requires { codec.old.refused ≡ None →
        Stands codec.old header.old packet.old.items (packet_number codec.old packet.old.items)
        (held codec.old header.old packet.old.items) }
    ensures ok { IfOk result (λ whole. Decodes codec.old (header.old ++
        piece.old.now) packet.old.items whole codec.new (header.new ++
        piece.new.now) packet.new.items) }
    ensures whole { result ≡ Ok true → (header.new ≡ []) × (length piece.new.now < length piece.old.now) }
    ensures used { result ≡ Ok false → piece.new.now ≡ [] }
    ensures moved { result ≡ Ok false → codec.new.begun ≢ None → header.new ≡ [] }
    ensures refused { IfErr result
        (λ refusal. RefusesBy codec.old (header.old ++ piece.old.now) packet.old.items codec.new
        (error_of refusal)) }
    ensures stays { IfSome codec.old.refused (λ refusal. (result ≡ Err refusal) × (codec.new ≡ codec.old)) }
    ensures err { OnErr result (piece.new ≡ piece.old) }
{
    let all = *piece;
    let filled = packet.len();
    let mut src = header.followed_by(all);
    if codec.decode_onto(&mut src, packet, filled)? {
        *piece = &all[all.len() - src.remaining()..];
        *header = PartialHeader::new();
        return Ok(true);
    }
    *header = PartialHeader::rest_of(&mut src);
    *piece = &all[all.len()..];
    Ok(false)
}

// Hands out the next payload of the header's bytes followed by the piece, and leaves what follows
// it in the piece; where none stands whole, the piece is used up.
fn decode_piece(
    codec: &mut PacketCodec,
    header: &mut PartialHeader,
    packet: &mut Vec<u8>,
    piece: &mut &[u8],
) -> Result<bool, Refusal>
    requires { codec.old.refused ≡ None →
        Stands codec.old header.old packet.old.items (packet_number codec.old packet.old.items)
        (held codec.old header.old packet.old.items) }
    ensures ok { IfOk result (λ whole. Decodes codec.old (header.old ++
        piece.old.now) packet.old.items whole codec.new (header.new ++
        piece.new.now) packet.new.items) }
    ensures whole { result ≡ Ok true → (header.new ≡ []) × (length piece.new.now < length piece.old.now) }
    ensures used { result ≡ Ok false → piece.new.now ≡ [] }
    ensures moved { result ≡ Ok false → codec.new.begun ≢ None → header.new ≡ [] }
    ensures refused { IfErr result
        (λ refusal. RefusesBy codec.old (header.old ++ piece.old.now) packet.old.items codec.new
        (error_of refusal)) }
    ensures stays { IfSome codec.old.refused (λ refusal. (result ≡ Err refusal) × (codec.new ≡ codec.old)) }
    ensures err { OnErr result (piece.new ≡ piece.old) }
{
    if header.is_empty() {
        decode_straight(codec, header, packet, piece)
    } else {
        decode_behind(codec, header, packet, piece)
    }
}

// Empties the packet where it was handed out.
fn keep_unfinished(begun: bool, packet: &mut Vec<u8>)
    ensures { packet.new.items ≡ unfinished begun packet.old.items }
{
    if !begun {
        packet.clear();
    }
}

impl PacketReader {
    ghost use Rattle.mysql_wire.specs.contracts.codec.reader.PacketReader.{the_row};

    /// A reader of a stream of which nothing came.
    ///
    /// `number` is that of the first chunk, and `max_allowed_packet` the most payload bytes of one
    /// packet.
    pub fn new(alloc: Global, number: u8, max_allowed_packet: usize) -> Self
        ensures { result ≡ incoming_at number max_allowed_packet }
    {
        PacketReader {
            codec: PacketCodec::at(number, max_allowed_packet),
            header: PartialHeader::new(),
            packet: Vec::new(alloc),
            number,
            begun: false,
        }
    }

    // Takes a piece that ends within the chunk that was begun, and answers whether it is one; else nothing changes.
    #[inline(always)]
    fn take_bytes(&mut self, piece: &[u8]) -> bool
        ensures waits { OnTrue result (ReadsOn self.old piece.now false self.new []) }
        ensures used { OnTrue result (self.new ≡
            record self.old { bytes = self.old.bytes ++ piece.now; payload = [] }) }
        ensures fine { OnTrue result (self.old.refused ≡ None) }
        ensures kept { OnFalse result (self.new ≡ self.old) }
    {
        if !self.begun || !self.codec.decode_within(piece, &mut self.packet) {
            return false;
        }
        true
    }

    // Takes a piece that ends within a chunk's header, and answers whether it does; else nothing changes.
    #[inline(never)]
    fn take_header(&mut self, piece: &[u8]) -> bool
        ensures waits { OnTrue result (ReadsOn self.old piece.now false self.new []) }
        ensures used { OnTrue result (self.new ≡
            record self.old { bytes = self.old.bytes ++ piece.now; payload = [] }) }
        ensures fine { OnTrue result (self.old.refused ≡ None) }
        ensures kept { OnFalse result (self.new ≡ self.old) }
    {
        if !self.codec.awaits_header() || !self.header.append(piece) {
            return false;
        }
        keep_unfinished(self.begun, &mut self.packet);
        self.begun |= !piece.is_empty();
        true
    }

    /// Takes a piece that ends within a chunk's header or within the chunk, and answers whether it
    /// did. After `true` the piece is used up, and no payload stands whole in the bytes that came.
    /// After `false` nothing changed, and [`PacketReader::advance`], which takes any piece, reads
    /// on. It is the quick way where few bytes come at a time.
    ///
    /// Promise: a piece is taken as `advance` takes it, or nothing changes; when it is left isn't
    /// promised (`ReadsOn`).
    ///
    /// (MySQL: Client/Server Protocol, "Protocol Basics: MySQL Packets".)
    #[inline(always)]
    pub fn take_within(&mut self, piece: &[u8]) -> bool
        ensures waits { OnTrue result (ReadsOn self.old piece.now false self.new []) }
        ensures used { OnTrue result (self.new ≡
            record self.old { bytes = self.old.bytes ++ piece.now; payload = [] }) }
        ensures fine { OnTrue result (self.old.refused ≡ None) }
        ensures kept { OnFalse result (self.new ≡ self.old) }
    {
        if self.take_bytes(piece) {
            return true;
        }
        piece.len() < 4 && self.take_header(piece)
    }

    // `advance`, whatever the piece.
    #[inline(never)]
    fn read_on(&mut self, piece: &mut &[u8]) -> Result<bool, PacketCodecError>
        ensures ok { IfOk result (λ whole. ReadsOn self.old piece.old.now whole self.new piece.new.now) }
        ensures whole { result ≡ Ok true → (self.new.bytes ≡ []) × (length piece.new.now < length piece.old.now) }
        ensures waits { result ≡ Ok false → (piece.new.now ≡ [])
            × (self.new ≡ record self.old { bytes = self.old.bytes ++ piece.old.now; payload = [] }) }
        ensures refused { IfErr result (RefusesOn self.old piece.old.now self.new) }
        ensures err { OnErr result
            ((self.new ≡ record self.old { bytes = []; payload = []; refused = self.new.refused })
            × (piece.new ≡ piece.old)) }
        ensures stays { IfSome self.old.refused (λ refusal. (result ≡ Err (error_of refusal)) × (self.new ≡ self.old)) }
    {
        let came = !piece.is_empty();
        keep_unfinished(self.begun, &mut self.packet);
        match decode_piece(&mut self.codec, &mut self.header, &mut self.packet, piece) {
            Ok(true) => {
                self.number = self.codec.seq_id();
                self.begun = false;
                Ok(true)
            }
            Ok(false) => {
                self.begun |= came;
                Ok(false)
            }
            Err(refusal) => {
                self.packet.clear();
                self.begun = false;
                Err(refusal.error())
            }
        }
    }

    /// Reads on to the end of the next packet, and answers whether its payload stands whole.
    ///
    /// The bytes that were used are taken from the front of `piece`. After `true`
    /// [`PacketReader::payload`] has the payload until more is read, and the number goes on. After
    /// `false` the piece is used up, and no payload stands whole in the bytes that came.
    ///
    /// Promise: in pieces of any size the answers are those of one codec over all bytes that came.
    /// What is held after each call is stated whole (`ReadsOn`, `RefusesOn`).
    ///
    /// # Errors
    /// - `PacketTooLarge` once a chunk's header stands with which the packet would pass the limit.
    /// - `Memory` where a growth was refused.
    /// - `PacketsOutOfSync` once a chunk stands whole that hasn't the number due.
    ///
    /// The piece is as it was after an error, and each further call answers that error and changes
    /// nothing.
    ///
    /// (MySQL: Client/Server Protocol, "Protocol Basics: MySQL Packets", "Sending More Than 16Mb"
    /// and "Sequence ID".)
    pub fn advance(&mut self, piece: &mut &[u8]) -> Result<bool, PacketCodecError>
        ensures ok { IfOk result (λ whole. ReadsOn self.old piece.old.now whole self.new piece.new.now) }
        ensures whole { result ≡ Ok true → (self.new.bytes ≡ []) × (length piece.new.now < length piece.old.now) }
        ensures waits { result ≡ Ok false → (piece.new.now ≡ [])
            × (self.new ≡ record self.old { bytes = self.old.bytes ++ piece.old.now; payload = [] }) }
        ensures refused { IfErr result (RefusesOn self.old piece.old.now self.new) }
        ensures err { OnErr result
            ((self.new ≡ record self.old { bytes = []; payload = []; refused = self.new.refused })
            × (piece.new ≡ piece.old)) }
        ensures stays { IfSome self.old.refused (λ refusal. (result ≡ Err (error_of refusal)) × (self.new ≡ self.old)) }
    {
        let all = *piece;
        if self.take_bytes(all) {
            *piece = &all[all.len()..];
            return Ok(false);
        }
        self.read_on(piece)
    }

    // A packet of one chunk was read that came behind no other bytes: the number goes on.
    fn pass_one(&mut self)
        requires between { self.old.bytes ≡ [] }
        requires open { self.old.refused ≡ None }
        ensures { self.new ≡ record self.old { number = (self.old.number + 1) % 256; payload = [] } }
    {
        self.packet.clear();
        self.number = self.number.wrapping_add(1);
        self.codec.set_seq_id(self.number);
    }

    /// The payload of the next packet, read in place where its one chunk stands whole in the piece.
    ///
    /// Nothing of the packet came before. Its bytes are taken from the front of `piece`, and the
    /// number goes on; no payload is kept. Else the answer is `None`, nothing changes, and
    /// [`PacketReader::advance`] reads on.
    ///
    ///     while let Some(payload) = reader.read_in_place(&mut rest) { .. }
    ///
    /// Promise: the payload is the one that `advance` would hand out, without a copy. It is None
    /// only where no such chunk stands there, bytes of a packet came before, or the reader has
    /// refused (`LacksFrontChunk`).
    ///
    /// (MySQL: Client/Server Protocol, "Protocol Basics: MySQL Packets" and "Sequence ID".)
    pub fn read_in_place<'a>(&mut self, piece: &mut &'a [u8]) -> Option<&'a [u8]>
        ensures found { IfSome result
            (λ payload. ReadsOn self.old piece.old.now true
            (record self.new { payload = payload.now }) piece.new.now) }
        ensures between { IfSome result (λ _. (self.new.bytes ≡ []) × (self.new.payload ≡ []) ×
            (length piece.new.now < length piece.old.now)) }
        ensures waits { result ≡ None → (self.new ≡ self.old) × (piece.new ≡ piece.old) }
        // It is left to `advance` only where it has to be.
        ensures lacks { result ≡ None → self.old.refused ≡ None → self.old.bytes ≡ [] →
            LacksFrontChunk self.old.limit self.old.number piece.old.now }
    {
        if self.begun || !self.codec.is_open() {
            return None;
        }
        let all = *piece;
        let Some(count) = whole_chunk(all, self.number, self.codec.limit()) else {
            return None;
        };
        self.pass_one();
        *piece = &all[4 + count..];
        Some(&all[4..4 + count])
    }

    /// The payload of the next packet that stands whole, or `None` where the piece is used up.
    ///
    /// [`PacketReader::advance`] finds it.
    ///
    /// Promise: the payload is the one that `advance` hands out. Each takes bytes of the piece, so
    /// that a loop over a piece ends (`Reads`).
    ///
    /// # Errors
    /// - Those of [`PacketReader::advance`].
    ///
    /// (MySQL: Client/Server Protocol, "Protocol Basics: MySQL Packets", "Sending More Than 16Mb"
    /// and "Sequence ID".)
    pub fn read(&mut self, piece: &mut &[u8]) -> Result<Option<&[u8]>, PacketCodecError>
        ensures* after { sem 𝓛 (Rests the_row self.entry
            (λ after. Reads self.old piece.old.now result after piece.new.now)) }
        ensures uses { IfOk result
            (λ found. MatchOption found (piece.new.now ≡
            []) (λ _. length piece.new.now < length piece.old.now)) }
    {
        if self.advance(piece)? {
            return Ok(Some(self.payload()));
        }
        Ok(None)
    }

    /// How many bytes are held of the packet that isn't whole.
    ///
    /// They are those that came, but for the headers of its chunks, of which only one that doesn't
    /// stand whole is held.
    ///
    /// Promise: the count is stated in closed form: all that came of the packet but the headers of
    /// chunks that stand whole (`bytes_kept`).
    pub fn kept(&self) -> usize
        ensures { result ≡ bytes_kept (length self.now.bytes) }
    {
        if self.begun {
            return self.header.as_slice().len() + self.packet.len();
        }
        0
    }

    /// The payload that was handed out, until more is read.
    pub fn payload(&self) -> &[u8]
        ensures { result.now ≡ self.now.payload }
    {
        if self.begun {
            return &[];
        }
        self.packet.as_slice()
    }

    /// Takes the payload that was handed out, without a copy; then none is.
    ///
    /// # Errors
    /// - `AllocError` for want of memory. All is then as it was.
    pub fn take_payload(&mut self) -> Result<Vec<u8>, AllocError>
        ensures ok { IfOk result (λ payload. payload.items ≡ self.old.payload) }
        ensures taken { OnOk result (self.new ≡ record self.old { payload = [] }) }
        ensures err { OnErr result (self.new ≡ self.old) }
    {
        let alloc = *self.packet.allocator();
        if self.begun {
            return Ok(Vec::new(alloc));
        }
        Ok(mem::replace(&mut self.packet, Vec::new(alloc)))
    }

    /// Whether bytes of a packet that isn't whole came.
    pub fn is_begun(&self) -> bool
        ensures { result ≡ not (length self.now.bytes == 0) }
    {
        self.begun
    }

    /// The next packet begins at the number 0, as the first one of each command does. No byte of it
    /// may have come, which [`PacketReader::is_begun`] tells; after a payload none has. (MySQL:
    /// Client/Server Protocol, "Sequence ID".)
    pub fn reset_seq_id(&mut self)
        requires { self.old.bytes ≡ [] }
        ensures { self.new ≡ record self.old { number = 0 } }
    {
        self.codec.reset_seq_id();
        self.number = 0;
    }

    /// The packet that comes next, or is begun, begins at this number. It is told before a chunk of
    /// the packet stands whole. The answer is whether it was in time; else nothing changes.
    ///
    /// A reader of a login or of the last words of a server looks at the number that comes
    /// ([`PacketReader::header_due`]). Then it says whether that number is the one due. (MySQL:
    /// Client/Server Protocol, "Sequence ID".)
    pub fn set_seq_id(&mut self, number: u8) -> bool
        ensures set { OnTrue result ((length self.old.bytes < full_chunk) ×
            (self.new ≡ record self.old { number = number })) }
        ensures late { OnFalse result ((full_chunk ≤ length self.old.bytes) × (self.new ≡ self.old)) }
    {
        if self.kept() >= MAX_PAYLOAD_LEN {
            return false;
        }
        self.codec.set_seq_id(number);
        self.number = number;
        true
    }

    /// The header of the chunk that comes next or is begun; None while its four bytes aren't there.
    /// They stand in what came and a piece behind it, whether or not the chunk stands whole. The
    /// piece is looked at alone, and may be empty.
    ///
    /// So the number and the length of what comes are known before [`PacketReader::advance`]
    /// reads it, which refuses another number than the one due.
    ///
    /// Promise: the header stands behind the full chunks of the packet's bytes that came
    /// (`header_due`).
    ///
    /// (MySQL: Client/Server Protocol, "Protocol Basics: MySQL Packets" and "Sequence ID".)
    pub fn header_due(&self, piece: &[u8]) -> Option<ChunkHeader>
        ensures { result ≡ header_due self.now.bytes piece.now }
    {
        if !self.begun {
            return PartialHeader::new().with_piece(piece);
        }
        let begun = self.codec.begun_header(self.packet.len());
        if begun.is_some() {
            return begun;
        }
        self.header.with_piece(piece)
    }
}
