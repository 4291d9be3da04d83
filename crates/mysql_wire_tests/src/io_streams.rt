//! Numbers and texts in streams.

use crate::support::Asserting;
use mysql_buf::{ParseBuf, ReadMysqlExt, WriteMysqlExt};
use std::alloc::{AllocError, Global};
use std::io;
use std::io::{ErrorKind, Read, Write};
use std::test::*;
use tests_support::{Assert, assert_answer, once_more};

/// Gives `fc` so many times, and is refused from then on.
#[derive(Drop)]
struct Broken {
    left: u8,
}

impl Read for Broken {
    fn read(&mut self, into: &mut [u8]) -> io::Result<usize> {
        if self.left == 0 {
            return Err(io::Error::from(ErrorKind::ConnectionReset));
        }
        if into.is_empty() {
            return Ok(0);
        }
        self.left -= 1;
        into[0] = 0xfc;
        Ok(1)
    }
}

// The number that comes first, through the bound, or the kind of the error.
fn number_in<R: Read>(reader: &mut R) -> Result<u64, ErrorKind> {
    match reader.read_lenenc_int() {
        Ok(number) => Ok(number),
        Err(error) => Err(error.kind()),
    }
}

// Streams, and the number that comes first or the kind of the error.
const NUMBERS: [(&[u8], Result<u64, ErrorKind>); 11] = [
    (&[0xfa, 1], Ok(250)),
    (&[0xfc, 5, 0], Ok(5)),
    (&[0xfd, 0, 0, 1], Ok(65536)),
    (&[0xfe, 0, 0, 0, 1, 0, 0, 0, 0], Ok(16777216)),
    // These bytes begin no number.
    (&[0xfb], Err(ErrorKind::InvalidData)),
    (&[0xfb, 1, 2], Err(ErrorKind::InvalidData)),
    (&[0xfb, 1, 2, 3, 4, 5, 6, 7, 8], Err(ErrorKind::InvalidData)),
    (&[0xff, 1, 2], Err(ErrorKind::InvalidData)),
    (&[0xff, 1, 2, 3, 4, 5, 6, 7, 8], Err(ErrorKind::InvalidData)),
    (&[0xfe, 1, 2], Err(ErrorKind::UnexpectedEof)),
    (&[], Err(ErrorKind::UnexpectedEof)),
];

#[test]
fn numbers_from_streams(rt: HostRuntime) {
    let assert = Asserting(&rt);
    for (bytes, wanted) in &NUMBERS {
        let mut source = *bytes;
        assert.holds(number_in(&mut source) == *wanted);
        assert.holds(number_in(&mut ParseBuf(bytes)) == *wanted);
    }
    let found = number_in(&mut Broken { left: 2 });
    assert.holds(found == Err(ErrorKind::ConnectionReset));
}

// Whether a stream begins with this text, or with none for this cause.
fn begins_with(alloc: Global, mut source: &[u8], wanted: Result<&[u8], ErrorKind>) -> bool {
    match source.read_lenenc_str(alloc) {
        Ok(text) => wanted == Ok(text.as_slice()),
        Err(error) => wanted == Err(error.kind()),
    }
}

// Streams, and the text that comes first or the kind of the error.
const TEXTS: [(&[u8], Result<&[u8], ErrorKind>); 9] = [
    (b"\x03abc", Ok(b"abc")),
    (b"\x01a", Ok(b"a")),
    (b"\x00a", Ok(b"")),
    (&[0xfb, 1, 2], Err(ErrorKind::InvalidData)),
    (&[0xff], Err(ErrorKind::InvalidData)),
    (&[0xff, 1, 2], Err(ErrorKind::InvalidData)),
    (
        &[0xfe, 255, 255, 255, 255, 255, 255, 255, 255, 1, 2],
        Err(ErrorKind::UnexpectedEof),
    ),
    (&[2, b'a'], Err(ErrorKind::UnexpectedEof)),
    (&[0xfc, 1], Err(ErrorKind::UnexpectedEof)),
];

// These bytes, and `abcdefg` so many times.
fn long(alloc: Global, front: &[u8], times: usize) -> Result<Vec<u8>, AllocError> {
    let mut bytes = Vec::from_slice(alloc, front)?;
    for _ in 0..times {
        bytes.extend_from_slice(b"abcdefg")?;
    }
    Ok(bytes)
}

#[test]
fn texts_from_streams(rt: HostRuntime) {
    let assert = Asserting(&rt);
    let alloc = rt.alloc();
    for (source, wanted) in TEXTS {
        assert.holds(begins_with(alloc, source, wanted) || begins_with(alloc, source, wanted));
    }
    // A text is read in pieces of 4096 bytes; the second one's bytes end within the second piece.
    let front: &[u8] = &[0xfc, 0x04, 0x29];
    let source = once_more(&assert, long(alloc, front, 1500), long(alloc, front, 1500));
    let (source, text) = (
        source.as_slice(),
        Ok(source.as_slice().get(3..).unwrap_or(&[])),
    );
    assert.holds(begins_with(alloc, source, text) || begins_with(alloc, source, text));
    let front: &[u8] = &[0xfc, 0x69, 0x10];
    let source = once_more(&assert, long(alloc, front, 600), long(alloc, front, 600));
    let (source, cut) = (source.as_slice(), Err(ErrorKind::UnexpectedEof));
    assert.holds(begins_with(alloc, source, cut) || begins_with(alloc, source, cut));
}

// Numbers, the bytes that they are written as, with zeros behind, and how many of them count.
const WRITTEN: [(u64, [u8; 9], u64); 5] = [
    (250, [0xfa, 0, 0, 0, 0, 0, 0, 0, 0], 1),
    (251, [0xfc, 0xfb, 0, 0, 0, 0, 0, 0, 0], 3),
    (65535, [0xfc, 0xff, 0xff, 0, 0, 0, 0, 0, 0], 3),
    (65536, [0xfd, 0, 0, 1, 0, 0, 0, 0, 0], 4),
    (16777216, [0xfe, 0, 0, 0, 1, 0, 0, 0, 0], 9),
];

#[test]
fn numbers_and_texts_written_to_streams(rt: HostRuntime) {
    let assert = Asserting(&rt);
    for (number, bytes, count) in &WRITTEN {
        let mut space = [0u8; 9];
        let mut out: &mut [u8] = &mut space;
        assert.holds(out.write_lenenc_int(*number).ok() == Some(*count));
        assert.holds(space == *bytes);
    }
    let mut space = [0u8; 8];
    let mut out: &mut [u8] = &mut space;
    assert.holds(out.write_lenenc_str(b"abc").ok() == Some(4));
    assert.holds(out.write_lenenc_int(65536).ok() == Some(4));
    assert.holds(out.write_lenenc_int(1).ok().is_none());
    assert.holds(space == [3, b'a', b'b', b'c', 0xfd, 0, 0, 1]);
    // Memory is refused to the writer: a part may be written.
    let mut out = Vec::new(rt.alloc());
    let first = out.write_lenenc_str(b"abc").ok();
    out.clear();
    let second = out.write_lenenc_str(b"abc").ok();
    assert_answer(&assert, first, second, None, Some(4));
    drop(out);
}
