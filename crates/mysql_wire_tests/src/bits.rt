//! Bitmaps of columns that are NULL.

use crate::support::Asserting;
use mysql_field_lists::{ClientSide, NullBitmap, NullBits, ServerSide};
use mysql_wire::{ParseBuf, WireError};
use std::borrow::CowSlice;
use std::test::*;
use tests_support::{
    Assert, assert_bytes, assert_cut_off, assert_refused, assert_same, first_of, once_more,
};

/// A client's bitmap of nine columns: the first, the third and the ninth are NULL.
const NINE: [bool; 9] = [true, false, true, false, false, false, false, false, true];

/// A client's bitmap whose bytes are lent.
type Lent<'a> = NullBitmap<ClientSide, CowSlice<'a, u8>>;

// Asserts which columns are NULL, one after another, and that no more follow.
fn assert_nulls(assert: &impl Assert, bits: NullBits, wanted: &[bool]) {
    let mut bits = bits;
    for is_null in wanted {
        assert.holds(bits.next() == Some(*is_null));
    }
    assert.holds(bits.next().is_none());
}

#[test]
fn bits_of_columns(rt: HostRuntime) {
    let assert = Asserting(&rt);
    let client = NullBitmap::<ClientSide, [u8; 2]>::from_bytes([5, 1]);
    assert_nulls(&assert, client.iter(9), &NINE);
    assert.holds(client.is_null(8) && !client.is_null(7));
    let copy = once_more(&assert, client.clone(), client.clone());
    assert_same(&assert, &copy, &client);
    let bits = once_more(&assert, client.iter(9).clone(), client.iter(9).clone());
    assert_nulls(&assert, bits, &NINE);
    let server = NullBitmap::<ServerSide, [u8; 1]>::from_bytes([4]);
    assert_nulls(&assert, server.iter(1), &[true]);
}

// The bitmap of nine columns is made, and read from a front and as a field; no more columns wrap its length.
#[test]
fn bitmaps_made_and_read(rt: HostRuntime) {
    let assert = Asserting(&rt);
    let alloc = rt.alloc();
    let mut bitmap = once_more(
        &assert,
        NullBitmap::<ClientSide>::new(alloc, 9),
        NullBitmap::<ClientSide>::new(alloc, 9),
    );
    assert_bytes(&assert, bitmap.as_slice(), &[0, 0]);
    if bitmap.as_slice().len() == 2 {
        bitmap.set(8, true);
        bitmap.set(2, true);
        bitmap.set(0, true);
        bitmap.set(2, false);
    }
    assert_bytes(&assert, bitmap.as_slice(), &[1, 1]);
    let mut input: &[u8] = &[5, 1, 7];
    let mut again: &[u8] = &[5, 1, 7];
    let first = NullBitmap::<ClientSide>::read(alloc, &mut input, 9);
    let bitmap = once_more(&assert, first, NullBitmap::read(alloc, &mut again, 9));
    assert_bytes(&assert, bitmap.as_slice(), &[5, 1]);
    assert.holds(input == [7].as_slice() || again == [7].as_slice());
    let mut buf = ParseBuf(&[5, 1, 7]);
    let bitmap = first_of::<Lent, usize>(&assert, alloc, 9, &mut buf);
    assert_bytes(&assert, bitmap.as_slice(), &[5, 1]);
    assert_bytes(&assert, buf.0, &[7]);
    assert_cut_off::<Lent, usize>(&assert, alloc, 9, &[5, 1], 0, 2);
    let cause = WireError::UnexpectedEof;
    assert_refused::<Lent, usize>(&assert, alloc, usize::MAX, &[5, 1], cause);
}
