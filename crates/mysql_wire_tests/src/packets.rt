//! The calls by which streams are cut into packets and payloads are made packets.

ghost use Rattle.mysql_wire.specs.Codec.{CanGoOn};

use crate::support::Asserting;
use bytes::BytesMut;
use mysql_wire::{
    ChunkDecoder, ChunkHeader, ChunkInfo, PacketCodec, PacketCodecError, PacketReader,
    PartialHeader, feed_all,
};
use std::alloc::Global;
use std::test::*;
use tests_support::{Assert, assert_answer, assert_bytes, assert_equal, once_more};

/// `SELECT 1` as a command: a header with the length 9 and the number 0, and its payload.
const SELECT_1: [u8; 13] = [
    9, 0, 0, 0, 3, 0x53, 0x45, 0x4c, 0x45, 0x43, 0x54, 0x20, 0x31,
];

// Whether an answer is the error of a packet past the limit.
fn is_too_large<T: Drop>(answer: Result<T, PacketCodecError>) -> bool {
    matches!(&answer, Err(PacketCodecError::PacketTooLarge))
}

// Reads the rest of the command, behind the front of a header that was left.
fn reads_rest(
    codec: &mut PacketCodec,
    header: PartialHeader,
    back: &[u8],
    dst: &mut BytesMut,
) -> bool
    requires { CanGoOn codec.old dst.old.items }
{
    let mut src = header.followed_by(back);
    codec.decode(&mut src, dst).ok() == Some(true)
}

// Reads the command by a piece and the next one: whether memory sufficed.
fn reads_in_two(alloc: Global, cut: usize) -> bool {
    let (front, back) = SELECT_1.split_at(cut.min(SELECT_1.len()));
    let mut codec = PacketCodec::default();
    let mut dst = BytesMut::new(alloc);
    let mut src = front;
    match codec.decode(&mut src, &mut dst) {
        Ok(true) => back.is_empty() & (dst.as_slice() == &SELECT_1[4..]),
        Ok(false) => {
            let header = PartialHeader::rest_of(&mut src);
            let is_read = reads_rest(&mut codec, header, back, &mut dst);
            is_read & (dst.as_slice() == &SELECT_1[4..])
        }
        Err(_) => false,
    }
}

#[test]
fn packets_of_streams(rt: HostRuntime) {
    let assert = Asserting(&rt);
    let alloc = rt.alloc();
    for cut in 0..14 {
        assert.holds(reads_in_two(alloc, cut) || reads_in_two(alloc, cut));
    }
    // All packets at once: those that stand in front of one for which memory is refused.
    let first = feed_all(alloc, PacketCodec::at(0, 9), &[SELECT_1.as_slice()]);
    let second = feed_all(alloc, PacketCodec::at(0, 9), &[SELECT_1.as_slice()]);
    let counts = (first.packets.len(), second.packets.len());
    assert.holds(
        (counts.0 == 1) & first.fault.is_none() | (counts.1 == 1) & second.fault.is_none(),
    );
    drop(first);
    drop(second);
}

// Numbers go on, and begin again. A payload past the limit is refused, and nothing is written.
#[test]
fn payloads_written(rt: HostRuntime) {
    let assert = Asserting(&rt);
    let payloads: [&[u8]; 3] = [&[1, 2], &[3], &[]];
    let mut codec = PacketCodec::at(0, 4);
    let mut out = BytesMut::new(rt.alloc());
    for payload in payloads {
        if payload.is_empty() {
            codec.reset_seq_id();
            codec.sync_seq_id();
        }
        // Where memory was refused nothing was written.
        let first = codec.encode(payload, &mut out).ok();
        assert.holds(first.is_some() || codec.encode(payload, &mut out).ok().is_some());
        assert.holds(is_too_large(codec.encode(&[1, 2, 3, 4, 5], &mut out)));
    }
    let wanted = [2, 0, 0, 0, 1, 2, 1, 0, 0, 1, 3, 0, 0, 0, 0];
    assert_bytes(&assert, out.as_slice(), &wanted);
    drop(out);
}

#[test]
fn chunks_taken(rt: HostRuntime) {
    let assert = Asserting(&rt);
    let alloc = rt.alloc();
    // There is room for all that it is handed.
    let first = BytesMut::with_capacity(alloc, 13);
    let mut src = once_more(&assert, first, BytesMut::with_capacity(alloc, 13));
    let mut dst = BytesMut::new(alloc);
    // It waits for the whole chunk.
    let mut decoder = ChunkDecoder::Idle;
    assert.holds(src.extend_from_slice(&SELECT_1[..12]).is_ok());
    assert.holds(decoder.decode(&mut src, &mut dst, 1000).ok() == Some(None));
    assert_equal(&assert, decoder, ChunkDecoder::Chunk { needed: 9 });
    assert.holds(src.extend_from_slice(&SELECT_1[12..]).is_ok());
    // One that awaits a chunk of another length, and one whose limit the chunk passes.
    let mut other = ChunkDecoder::Chunk { needed: 2 };
    assert.holds(is_too_large(other.decode(&mut src, &mut dst, 1000)));
    let mut other = ChunkDecoder::Idle;
    assert.holds(is_too_large(other.decode(&mut src, &mut dst, 8)));
    assert_bytes(&assert, src.as_slice(), &SELECT_1);
    // Behind the chunk nothing is left. Where memory was refused it is taken then.
    let first = decoder.decode(&mut src, &mut dst, 1000).ok();
    let second = decoder.decode(&mut src, &mut dst, 1000).ok();
    let taken = Some(Some(ChunkInfo::Last(0)));
    assert_answer(&assert, first, second, None, taken);
    assert_bytes(&assert, dst.as_slice(), &SELECT_1[4..]);
    assert.holds(src.is_empty());
    drop(src);
    drop(dst);
}

#[test]
fn packets_read_in_place(rt: HostRuntime) {
    let assert = Asserting(&rt);
    // A command, an empty payload, and three bytes of a header, which don't stand whole.
    let stream: [u8; 20] = [
        9, 0, 0, 0, 3, 0x53, 0x45, 0x4c, 0x45, 0x43, 0x54, 0x20, 0x31, 0, 0, 0, 1, 1, 0, 0,
    ];
    let mut reader = PacketReader::new(rt.alloc(), 5, 9);
    // Between packets a number is handed in for the next one.
    assert.holds(reader.set_seq_id(0));
    let mut rest: &[u8] = &stream;
    assert.holds(reader.read_in_place(&mut rest) == Some(&SELECT_1[4..]));
    assert.holds(reader.read_in_place(&mut rest) == Some(&[]));
    assert.holds(reader.read_in_place(&mut rest).is_none());
    assert.holds(reader.payload().is_empty() & !reader.is_begun());
    assert_equal(&assert, rest.len(), 3);
    // A refusal stays.
    reader.reset_seq_id();
    let mut rest: &[u8] = &[10, 0, 0, 0];
    assert.holds(is_too_large(reader.advance(&mut rest)));
    let mut rest: &[u8] = &SELECT_1;
    assert.holds(is_too_large(reader.advance(&mut rest)));
    assert_equal(&assert, rest.len(), 13);
    drop(reader);
}

// Reads `SELECT 1`, whose number isn't the one due, in three pieces: its number is told in the
// second, and is then the one due. The payload is taken.
fn renumbered(assert: &impl Assert, alloc: Global) -> Result<Vec<u8>, PacketCodecError> {
    let told = Some(ChunkHeader { number: 0, len: 9 });
    let mut reader = PacketReader::new(alloc, 5, 1000);
    assert_equal(assert, reader.header_due(&SELECT_1[..3]), None);
    assert_equal(assert, reader.header_due(&SELECT_1), told);
    let mut piece: &[u8] = &SELECT_1[..2];
    let _is_whole = reader.advance(&mut piece)?;
    assert_equal(assert, reader.header_due(&[]), None);
    assert_equal(assert, reader.header_due(&SELECT_1[2..]), told);
    piece = &SELECT_1[2..7];
    let _is_whole = reader.advance(&mut piece)?;
    assert_equal(assert, reader.header_due(&[]), told);
    assert.holds(reader.set_seq_id(0));
    piece = &SELECT_1[7..];
    let _is_whole = reader.advance(&mut piece)?;
    match reader.take_payload() {
        Ok(payload) => Ok(payload),
        Err(_) => Err(PacketCodecError::Memory),
    }
}

#[test]
fn packets_read_on(rt: HostRuntime) {
    let assert = Asserting(&rt);
    let (first, second) = (
        renumbered(&assert, rt.alloc()),
        renumbered(&assert, rt.alloc()),
    );
    let payload = once_more(&assert, first, second);
    assert_bytes(&assert, payload.as_slice(), &SELECT_1[4..]);
}
