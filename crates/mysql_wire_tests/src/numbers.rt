//! Numbers in their representations, and numbers of the lengths that they take.

use crate::support::Asserting;
use bytes::BytesMut;
use mysql_buf::{
    BufMutExt, ParseBuf, lenenc_int_len, read_varlen_uint, varlen_uint_size, write_varlen_uint,
};
use mysql_fields::{
    IntRepr, LeI16, LeI24, LeI32, LeI56, LeI64, LeU48, LeU56, ParseExt, RawInt, WireError,
};
use std::alloc::Global;
use std::fmt::Debug;
use std::test::*;
use tests_support::{
    Assert, assert_bytes, assert_equal, assert_same, assert_written, once_more, whole,
};

// Asserts that a number in a representation, through its bound, is written as these bytes, and that
// they are read as it.
fn assert_number<T: IntRepr<Primitive = P>, P: Copy + PartialEq + Debug + Drop>(
    assert: &impl Assert,
    alloc: Global,
    number: P,
    bytes: &[u8],
) {
    let value: RawInt<T> = RawInt::new(number);
    assert_written(assert, alloc, &value, bytes);
    assert_same(
        assert,
        &whole::<RawInt<T>, ()>(assert, alloc, (), bytes).0,
        &number,
    );
}

/// Bytes that count up.
const UP: [u8; 7] = [1, 2, 3, 4, 5, 6, 7];

/// The number -2.
const LESS: [u8; 8] = [0xfe, 0xff, 0xff, 0xff, 0xff, 0xff, 0xff, 0xff];

// Numbers of widths that no packet has. The others stand in packets of rows.
#[test]
fn numbers_read_back(rt: HostRuntime) {
    let assert = Asserting(&rt);
    let alloc = rt.alloc();
    assert_number::<LeU48, u64>(&assert, alloc, 0x0605_0403_0201, &UP[..6]);
    assert_number::<LeU56, u64>(&assert, alloc, 0x07_0605_0403_0201, &UP);
    assert_number::<i8, i8>(&assert, alloc, -2, &LESS[..1]);
    assert_number::<LeI16, i16>(&assert, alloc, -2, &LESS[..2]);
    assert_number::<LeI24, i32>(&assert, alloc, -2, &LESS[..3]);
    assert_number::<LeI32, i32>(&assert, alloc, -2, &LESS[..4]);
    assert_number::<LeI56, i64>(&assert, alloc, -2, &LESS[..7]);
    assert_number::<LeI64, i64>(&assert, alloc, -2, &LESS);
    let mut buf = ParseBuf(&[7, 8]);
    let first = buf.parse_unchecked::<RawInt<u8>>(alloc, ());
    // A number asks for no memory.
    assert_same(
        &assert,
        &once_more(&assert, first, Err(WireError::Memory)).0,
        &7,
    );
    assert_equal(&assert, buf.len(), 1);
}

/// Bytes, the length-encoded number that stands first, and how many are left.
const LENENC: [(&[u8], Option<u64>, usize); 10] = [
    (&[0xfa, 1], Some(250), 1),
    // More bytes than are needed.
    (&[0xfc, 5, 0], Some(5), 0),
    (&[0xfd, 0, 0, 1], Some(65536), 0),
    (&[0xfe, 0, 0, 0, 1, 0, 0, 0, 0], Some(16777216), 0),
    // These bytes begin no number, and are taken as 0.
    (&[0xfb], Some(0), 0),
    (&[0xff], Some(0), 0),
    (&[0xfb, 1], Some(0), 1),
    (&[0xff, 1], Some(0), 1),
    (&[0xfc, 5], None, 2),
    (&[0xfe, 1, 2, 3, 4, 5, 6, 7], None, 8),
];

/// The same of numbers of variable length.
const VARLEN: [(&[u8], Option<u64>, usize); 6] = [
    (&[0xfe, 9], Some(127), 1),
    (&[1, 2], Some(128), 0),
    (&[0x7f, 0, 0, 0, 0, 0, 0, 1], Some(1 << 48), 0),
    (&[0xff, 0, 0, 0, 0, 0, 0, 0, 1], Some(1 << 56), 0),
    (&[3, 0], None, 2),
    (&[], None, 0),
];

#[test]
fn numbers_at_a_front(rt: HostRuntime) {
    let assert = Asserting(&rt);
    for (bytes, number, left) in LENENC {
        let mut buf = ParseBuf(bytes);
        assert.holds(buf.checked_eat_lenenc_int() == number);
        assert_equal(&assert, buf.len(), left);
    }
    for (bytes, number, left) in VARLEN {
        let mut buf = ParseBuf(bytes);
        assert.holds(read_varlen_uint(&mut buf) == number);
        assert_equal(&assert, buf.len(), left);
    }
}

/// Numbers, and the bytes that they are length-encoded.
const LENENC_PUT: [(u64, &[u8]); 5] = [
    (250, &[0xfa]),
    (251, &[0xfc, 0xfb, 0]),
    (65535, &[0xfc, 0xff, 0xff]),
    (65536, &[0xfd, 0, 0, 1]),
    (16777216, &[0xfe, 0, 0, 0, 1, 0, 0, 0, 0]),
];

/// The same of variable length.
const VARLEN_PUT: [(u64, &[u8]); 5] = [
    (127, &[0xfe]),
    (128, &[1, 2]),
    (16383, &[0xfd, 0xff]),
    (16384, &[3, 0, 2]),
    (1 << 56, &[0xff, 0, 0, 0, 0, 0, 0, 0, 1]),
];

// A number is put once more where memory was refused.
#[test]
fn numbers_put(rt: HostRuntime) {
    let assert = Asserting(&rt);
    for (number, bytes) in LENENC_PUT {
        let mut out = BytesMut::new(rt.alloc());
        assert.holds(out.put_lenenc_int(number).is_ok() || out.put_lenenc_int(number).is_ok());
        assert_equal(&assert, lenenc_int_len(number), bytes.len() as u64);
        assert_bytes(&assert, out.as_slice(), bytes);
        drop(out);
    }
    for (number, bytes) in VARLEN_PUT {
        let mut out = Vec::new(rt.alloc());
        let is_put = write_varlen_uint(&mut out, number).is_ok();
        assert.holds(is_put || write_varlen_uint(&mut out, number).is_ok());
        assert_equal(&assert, varlen_uint_size(number), bytes.len());
        assert_bytes(&assert, out.as_slice(), bytes);
        drop(out);
    }
}
