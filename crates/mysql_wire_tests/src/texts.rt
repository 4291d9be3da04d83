//! Texts in their representations.

use crate::support::Asserting;
use mysql_buf::ParseBuf;
use mysql_fields::{
    BareBytes, BareU8Bytes, BareU16Bytes, BytesRepr, FixedLengthText, LenEnc, NullBytes, RawBytes,
    U8Bytes, WireError,
};
use std::alloc::Global;
use std::test::*;
use tests_support::{
    Assert, assert_bytes, assert_copied, assert_equal, assert_reads_back, assert_refused,
    assert_same, assert_written, first_of, once_more,
};

// Asserts that a text in a representation, through its bound, is written as these bytes.
fn assert_text<T: BytesRepr>(assert: &impl Assert, alloc: Global, text: &[u8], bytes: &[u8]) {
    let value: RawBytes<T> = RawBytes::from(text);
    assert_written(assert, alloc, &value, bytes);
}

/// A text of 256 bytes.
const LONG: [u8; 256] = [b'a'; 256];

// Forms that no packet has, and texts that are longer than their forms. The others stand in packets of rows.
#[test]
fn texts_written_and_shown(rt: HostRuntime) {
    let assert = Asserting(&rt);
    let alloc = rt.alloc();
    assert_text::<NullBytes>(&assert, alloc, b"a\x00b", b"a\x00");
    assert_text::<BareBytes<3>>(&assert, alloc, b"abcd", b"abc");
    assert_text::<FixedLengthText<4>>(&assert, alloc, b"ab", b"ab\x00\x00");
    assert_text::<FixedLengthText<1>>(&assert, alloc, b"ab", b"a");
    assert_text::<BareU8Bytes>(&assert, alloc, b"ab", b"ab");
    assert_text::<BareU16Bytes>(&assert, alloc, b"cd", b"cd");
    // Of 256 bytes behind a length of one byte the first 255 count and are written.
    let mut cut = LONG;
    cut[0] = 255;
    assert_text::<U8Bytes>(&assert, alloc, &LONG, &cut);
    let long: &[u8] = &LONG;
    let text: RawBytes<U8Bytes> = RawBytes::from(long);
    assert_bytes(&assert, text.as_bytes(), &LONG[..255]);
    drop(text);
    // A text may not have so many bytes, be they there or not.
    let cause = WireError::TooManyBytes;
    assert_refused::<RawBytes<BareBytes<3>>, usize>(&assert, alloc, 4, b"abcd", cause);
    assert_refused::<RawBytes<BareU8Bytes>, usize>(&assert, alloc, 256, b"abcd", cause);
    assert_refused::<RawBytes<BareU16Bytes>, usize>(&assert, alloc, 65536, b"abcd", cause);
}

#[test]
fn texts_read(rt: HostRuntime) {
    let assert = Asserting(&rt);
    let alloc = rt.alloc();
    let mut buf = ParseBuf(b"fghijkabcde");
    let text = first_of::<RawBytes<BareU8Bytes>, usize>(&assert, alloc, 2, &mut buf);
    assert_bytes(&assert, text.as_bytes(), b"fg");
    drop(text);
    let text = first_of::<RawBytes<BareU16Bytes>, usize>(&assert, alloc, 2, &mut buf);
    assert_bytes(&assert, text.as_bytes(), b"hi");
    drop(text);
    let text = first_of::<RawBytes<FixedLengthText<2>>, ()>(&assert, alloc, (), &mut buf);
    assert_bytes(&assert, text.as_bytes(), b"jk");
    drop(text);
    // Bytes as they stand.
    let slice = first_of::<&[u8], usize>(&assert, alloc, 2, &mut buf);
    assert_bytes(&assert, slice, b"ab");
    let part = first_of::<ParseBuf, usize>(&assert, alloc, 2, &mut buf);
    assert_bytes(&assert, part.0, b"cd");
    assert_bytes(&assert, buf.0, b"e");
    assert_reads_back::<[u8; 3], ()>(&assert, alloc, (), &[1, 2, 3]);
}

// What the bytes that count are as characters: those that are no UTF-8 are replaced.
const SHOWN: [(&[u8], &str); 4] = [
    (b"ab", "ab"),
    (b"\xc3\xa9a", "\u{e9}"),
    (b"a\xc3\xa9", "a\u{fffd}"),
    (b"\xffbcd", "\u{fffd}b"),
];

#[test]
fn texts_owned_and_copied(rt: HostRuntime) {
    let assert = Asserting(&rt);
    let alloc = rt.alloc();
    for (bytes, wanted) in SHOWN {
        let text: RawBytes<BareBytes<2>> = RawBytes::from(bytes);
        let shown = once_more(&assert, text.as_str(alloc), text.as_str(alloc));
        assert_bytes(&assert, shown.as_str().as_bytes(), wanted.as_bytes());
        drop(shown);
        drop(text);
    }
    let ab: &[u8] = b"ab";
    let (text, again): (RawBytes<LenEnc>, RawBytes<LenEnc>) = (
        RawBytes::from(ab),
        RawBytes::from(ab),
    );
    let owned = once_more(&assert, text.into_owned(alloc), again.into_owned(alloc));
    assert.holds((owned.len() == 2) & !owned.is_empty());
    let text: RawBytes<LenEnc> = RawBytes::from(ab);
    assert_same(&assert, &owned, &text);
    assert_copied(&assert, &text, text.clone(alloc), text.clone(alloc));
    drop(owned);
    let bytes = once_more(
        &assert,
        Vec::from_slice(alloc, ab),
        Vec::from_slice(alloc, ab),
    );
    assert_equal(&assert, RawBytes::from(bytes), text);
    let (none, other): (RawBytes<LenEnc>, RawBytes<LenEnc>) = (
        RawBytes::default(),
        RawBytes::from(ab),
    );
    assert.holds((none.len() == 0) & (none != other));
    drop(none);
    drop(other);
}
