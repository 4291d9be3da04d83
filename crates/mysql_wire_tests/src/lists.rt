//! Lists of values.

use crate::support::Asserting;
use mysql_buf::ParseBuf;
use mysql_field_lists::{RawSeq, Seq, Unknown};
use mysql_fields::{LeU16, LenEnc, RawBytes, RawInt, WireError};
use std::alloc::{AllocError, Global};
use std::borrow::CowSlice;
use std::test::*;
use tests_support::{
    Assert, assert_bytes, assert_copied, assert_equal, assert_reads_back, assert_refused,
    assert_same, assert_written, first_of, once_more,
};

#[test]
fn lists_read(rt: HostRuntime) {
    let assert = Asserting(&rt);
    let alloc = rt.alloc();
    assert_reads_back::<Seq<RawBytes<LenEnc>, u8>, ()>(&assert, alloc, (), b"\x02\x01a\x02bc");
    // Without a count in the bytes, what follows is left.
    let mut buf = ParseBuf(&[1, 0, 2, 0, 3]);
    let list = first_of::<Seq<RawInt<LeU16>, Unknown>, usize>(&assert, alloc, 2, &mut buf);
    assert_written(&assert, alloc, &list, &[1, 0, 2, 0]);
    drop(list);
    assert_equal(&assert, buf.len(), 1);
    // A huge count.
    let bytes = &[0xfe, 255, 255, 255, 255, 255, 255, 255, 255, 1];
    let cut = WireError::UnexpectedEof;
    assert_refused::<Seq<RawInt<LeU16>, LenEnc>, ()>(&assert, alloc, (), bytes, cut);
    // Numbers.
    let mut buf = ParseBuf(&[2, 5, 0, 2, 1, 9]);
    let list = first_of::<RawSeq<LeU16, u8>, ()>(&assert, alloc, (), &mut buf);
    assert_equal(&assert, buf.len(), 1);
    assert_same(&assert, &list.0.as_slice(), &[5, 0x0102].as_slice());
    assert_equal(&assert, (list.len(), list.get(1)), (2, Some(0x0102)));
    assert_equal(&assert, list.get(2), None);
    assert_written(&assert, alloc, &list, &[2, 5, 0, 2, 1]);
    drop(list);
}

// Appends an element to a counted list; where memory was refused, the list stands and takes it then.
fn push(assert: &impl Assert, alloc: Global, list: &mut Seq<'_, u8, u8>, element: u8) {
    assert.holds(list.push(alloc, element).is_ok() || list.push(alloc, element).is_ok());
}

#[test]
fn lists_made(rt: HostRuntime) {
    let assert = Asserting(&rt);
    let alloc = rt.alloc();
    let mut list: Seq<u8, u8> = Seq::empty();
    assert.holds(list.is_empty());
    push(&assert, alloc, &mut list, 7);
    push(&assert, alloc, &mut list, 8);
    assert_bytes(&assert, list.0.as_slice(), &[7, 8]);
    drop(list);
    // The borrowed elements are cloned.
    let mut list: Seq<u8, u8> = Seq::new(CowSlice::Borrowed(&[1, 2]));
    assert_copied(&assert, &list, list.clone(alloc), list.clone(alloc));
    push(&assert, alloc, &mut list, 3);
    assert_equal(&assert, list.len(), 3);
    assert_bytes(&assert, list.as_slice(), &[1, 2, 3]);
    // What is owned is given on without memory.
    let owned = once_more(&assert, list.into_owned(alloc), Err(AllocError));
    assert_bytes(&assert, owned.0.as_slice(), &[1, 2, 3]);
    drop(owned);
}

#[test]
fn lists_owned(rt: HostRuntime) {
    let assert = Asserting(&rt);
    let alloc = rt.alloc();
    let bytes: &[u8] = &[1, 2];
    let (list, again): (Seq<u8, u8>, Seq<u8, u8>) = (
        Seq::new(CowSlice::Borrowed(bytes)),
        Seq::new(CowSlice::Borrowed(bytes)),
    );
    let owned = once_more(&assert, list.into_owned(alloc), again.into_owned(alloc));
    assert_bytes(&assert, owned.0.as_slice(), bytes);
    drop(owned);
    let numbers: &[u16] = &[5, 0x0102];
    let (list, again): (RawSeq<LeU16, u8>, RawSeq<LeU16, u8>) = (
        RawSeq::new(CowSlice::Borrowed(numbers)),
        RawSeq::new(CowSlice::Borrowed(numbers)),
    );
    assert_copied(&assert, &list, list.clone(alloc), list.clone(alloc));
    let owned = once_more(&assert, list.into_owned(alloc), again.into_owned(alloc));
    assert_same(&assert, &owned.0.as_slice(), &numbers);
    drop(owned);
}
