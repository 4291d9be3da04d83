//! Parts of buffers: slices and texts that are taken and put.

use crate::support::Asserting;
use mysql_buf::{BufMutExt, ParseBuf, front_of, lenenc_str_len};
use std::test::*;
use tests_support::{Assert, assert_bytes, assert_equal, once_more};

/// Lengths that say more than there is, each from some byte on.
const PAST: [u8; 19] = [
    0xfe, 255, 255, 255, 255, 255, 255, 255, 255, 1, 2, 3, 0xfe, 255, 255, 255, 255, 255, 255,
];

// Whether parts are taken that are there, and no more than there is.
fn parts_are_taken() -> bool {
    let bytes: &[u8] = &[0xfa, 1, b'a', b'b', 0, b'c', b'd'];
    let mut buf = ParseBuf(bytes);
    buf.skip(2);
    (ParseBuf(bytes).eat_lenenc_int() == 250)
        & (ParseBuf(bytes).eat(2) == [0xfa, 1].as_slice())
        & (ParseBuf(bytes).eat_buf(1).0 == [0xfa].as_slice())
        & (buf.eat_null_str() == b"ab".as_slice())
        & !buf.checked_skip(3)
        & buf.checked_skip(1)
        & buf.checked_eat_buf(2).is_none()
        & buf.checked_eat(2).is_none()
        & (buf.eat_null_str() == b"d".as_slice())
        & buf.is_empty()
}

// Whether texts are taken after their lengths, and then all that is left.
#[tactic(auto, unfolding(mysql_buf::specs::Reading::first))]
fn texts_are_taken() -> bool {
    let text: &[u8] = &[2, b'a', b'b', b'c'];
    let long: &[u8] = &[1, 0, 0, 0, b'd', b'e'];
    let mut buf = ParseBuf(text);
    (ParseBuf(text).eat_lenenc_str() == b"ab".as_slice())
        & (ParseBuf(text).eat_u8_str() == b"ab".as_slice())
        & (ParseBuf(long).eat_u32_str() == b"d".as_slice())
        & (buf.checked_eat_u8_str() == Some(b"ab".as_slice()))
        & (buf.eat_all() == b"c".as_slice())
}

#[test]
fn parts_taken(rt: HostRuntime) {
    let assert = Asserting(&rt);
    for len in 9..20 {
        let mut buf = ParseBuf(&PAST[..len]);
        let is_none = buf.checked_eat_lenenc_str().is_none()
            & buf.checked_eat_u32_str().is_none()
            & buf.checked_eat_u8_str().is_none();
        assert.holds(is_none & (buf.len() == len));
    }
    assert.holds(parts_are_taken() & texts_are_taken());
}

// What they are, one after another.
const PARTS: [u8; 35] = [
    1, 2, 3, 1, 2, 3, 4, 5, 6, 1, 2, 3, 4, 5, 6, 7, 0xfe, 0xff, 0xff, 0xfe, 0xff, 0xff, 0xff, 0xff,
    0xff, 0xff, 2, b'a', b'b', 1, b'c', 0, 0, 0, 0,
];

#[test]
fn parts_put(rt: HostRuntime) {
    let assert = Asserting(&rt);
    // In a buffer with room for all nothing is refused.
    let first = Vec::with_capacity(rt.alloc(), 35);
    let mut out = once_more(&assert, first, Vec::with_capacity(rt.alloc(), 35));
    let is_put = out.put_u24_le(0x0403_0201).is_ok()
        & out.put_u48_le(0x0807_0605_0403_0201).is_ok()
        & out.put_u56_le(0x0807_0605_0403_0201).is_ok()
        & out.put_i24_le(-2).is_ok()
        & out.put_i56_le(-2).is_ok()
        & out.put_lenenc_str(b"ab").is_ok()
        & out.put_u8_str(b"c").is_ok()
        & out.put_u32_str(b"").is_ok();
    assert.holds(is_put);
    assert_bytes(&assert, out.as_slice(), &PARTS);
    assert_equal(&assert, lenenc_str_len(b"ab"), 3);
    assert_bytes(&assert, front_of(b"abc", 2), b"ab");
    assert_bytes(&assert, front_of(b"ab", 2), b"ab");
    assert_bytes(&assert, front_of(b"", 2), b"");
}
