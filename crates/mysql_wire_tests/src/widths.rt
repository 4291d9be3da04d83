//! Whole numbers of every sign, width and order of bytes, at the front of a buffer. Each is taken by
//! the call that takes it unchecked, once its bytes are counted.

use crate::support::Asserting;
use mysql_buf::ParseBuf;
use std::test::*;
use tests_support::Assert;

// Bytes whose highest bits all stand, so that each signed number is negative.
const BYTES: [u8; 16] = [
    0x81, 0x82, 0x83, 0x84, 0x85, 0x86, 0x87, 0x88, 0x89, 0x8a, 0x8b, 0x8c, 0x8d, 0x8e, 0x8f, 0x90,
];

// How many bytes a number takes, and the number that stands first in `BYTES`: lowest byte first up
// to the row of 16 bytes, and highest byte first behind it.
const UNSIGNED: [(usize, u128); 17] = [
    (1, 0x81),
    (2, 0x8281),
    (3, 0x838281),
    (4, 0x84838281),
    (5, 0x8584838281),
    (6, 0x868584838281),
    (7, 0x87868584838281),
    (8, 0x8887868584838281),
    (16, 0x908f8e8d8c8b8a898887868584838281),
    (2, 0x8182),
    (3, 0x818283),
    (4, 0x81828384),
    (5, 0x8182838485),
    (6, 0x818283848586),
    (7, 0x81828384858687),
    (8, 0x8182838485868788),
    (16, 0x8182838485868788898a8b8c8d8e8f90),
];

// The signed number of the same bytes.
const SIGNED: [i128; 17] = [
    -0x7f,
    -0x7d7f,
    -0x7c7d7f,
    -0x7b7c7d7f,
    -0x7a7b7c7d7f,
    -0x797a7b7c7d7f,
    -0x78797a7b7c7d7f,
    -0x7778797a7b7c7d7f,
    -0x6f707172737475767778797a7b7c7d7f,
    -0x7e7e,
    -0x7e7d7d,
    -0x7e7d7c7c,
    -0x7e7d7c7b7b,
    -0x7e7d7c7b7a7a,
    -0x7e7d7c7b7a7979,
    -0x7e7d7c7b7a797878,
    -0x7e7d7c7b7a7978777675747372717070,
];

// What was read, as a number of the widest type.
fn widest<Number: Into<Widest>, Widest>(read: Option<Number>) -> Option<Widest> {
    match read {
        Some(number) => Some(number.into()),
        None => None,
    }
}

// The unsigned number of a row, where it is there.
fn unsigned(mut buf: ParseBuf<'_>, row: usize) -> Option<u128> {
    match row {
        0 => widest(buf.checked_eat_u8()),
        1 => widest(buf.checked_eat_u16_le()),
        2 => widest(buf.checked_eat_u24_le()),
        3 => widest(buf.checked_eat_u32_le()),
        4 => widest(buf.checked_eat_u40_le()),
        5 => widest(buf.checked_eat_u48_le()),
        6 => widest(buf.checked_eat_u56_le()),
        7 => widest(buf.checked_eat_u64_le()),
        8 => buf.checked_eat_u128_le(),
        9 => widest(buf.checked_eat_u16_be()),
        10 => widest(buf.checked_eat_u24_be()),
        11 => widest(buf.checked_eat_u32_be()),
        12 => widest(buf.checked_eat_u40_be()),
        13 => widest(buf.checked_eat_u48_be()),
        14 => widest(buf.checked_eat_u56_be()),
        15 => widest(buf.checked_eat_u64_be()),
        _ => buf.checked_eat_u128_be(),
    }
}

// The signed number of a row, where it is there.
fn signed(mut buf: ParseBuf<'_>, row: usize) -> Option<i128> {
    match row {
        0 => widest(buf.checked_eat_i8()),
        1 => widest(buf.checked_eat_i16_le()),
        2 => widest(buf.checked_eat_i24_le()),
        3 => widest(buf.checked_eat_i32_le()),
        4 => widest(buf.checked_eat_i40_le()),
        5 => widest(buf.checked_eat_i48_le()),
        6 => widest(buf.checked_eat_i56_le()),
        7 => widest(buf.checked_eat_i64_le()),
        8 => buf.checked_eat_i128_le(),
        9 => widest(buf.checked_eat_i16_be()),
        10 => widest(buf.checked_eat_i24_be()),
        11 => widest(buf.checked_eat_i32_be()),
        12 => widest(buf.checked_eat_i40_be()),
        13 => widest(buf.checked_eat_i48_be()),
        14 => widest(buf.checked_eat_i56_be()),
        15 => widest(buf.checked_eat_i64_be()),
        _ => buf.checked_eat_i128_be(),
    }
}

// Each number stands whole in as many bytes as it takes and in more, and is cut off in fewer.
#[test]
fn numbers_whole_and_cut_off(rt: HostRuntime) {
    let assert = Asserting(&rt);
    for row in 0..17 {
        for len in 0..17 {
            let bytes = ParseBuf(&BYTES[..len]);
            let is_whole = UNSIGNED[row].0 <= len;
            assert.holds(unsigned(bytes, row) == is_whole.then_some(UNSIGNED[row].1));
            let bytes = ParseBuf(&BYTES[..len]);
            assert.holds(signed(bytes, row) == is_whole.then_some(SIGNED[row]));
        }
    }
}
