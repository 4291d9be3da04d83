//! Fields and packets, written and read.

use crate::assert::{Assert, assert_bytes, assert_same, once_more};
use mysql_buf::ParseBuf;
use mysql_fields::{MyDeserialize, MySerialize, ParseExt, Readable, WireError};
use std::alloc::{AllocError, Global};
use std::fmt::Debug;

/// The bytes of a value.
pub fn written<T: MySerialize>(assert: &impl Assert, alloc: Global, value: &T) -> Vec<u8> {
    let mut out = Vec::new(alloc);
    if value.serialize(&mut out).is_err() {
        // Memory was refused: nothing was written.
        assert.holds(out.is_empty());
        assert.holds(value.serialize(&mut out).is_ok());
    }
    out
}

/// Asserts that a value is written as these bytes.
pub fn assert_written<T: MySerialize>(
    assert: &impl Assert,
    alloc: Global,
    value: &T,
    bytes: &[u8],
) {
    assert_bytes(assert, written(assert, alloc, value).as_slice(), bytes);
}

/// The value that stands first. It is read once more where memory was refused.
pub fn first_of<'a, T: MyDeserialize<'a> + Readable<Ctx = C> + Drop, C: Copy + Drop>(
    assert: &impl Assert,
    alloc: Global,
    ctx: C,
    buf: &mut ParseBuf<'a>,
) -> T {
    match buf.parse::<T>(alloc, ctx) {
        Ok(value) => value,
        Err(error) => {
            assert_same(assert, &error, &WireError::Memory);
            let again = buf.parse::<T>(alloc, ctx);
            once_more(assert, again, Err(WireError::Memory))
        }
    }
}

/// The value that these bytes are, with none left. It is read once more where memory was refused.
pub fn whole<'a, T: MyDeserialize<'a> + Readable<Ctx = C> + Drop, C: Copy + Drop>(
    assert: &impl Assert,
    alloc: Global,
    ctx: C,
    bytes: &'a [u8],
) -> T {
    let mut buf = ParseBuf(bytes);
    let value = first_of::<T, C>(assert, alloc, ctx, &mut buf);
    assert.holds(buf.is_empty());
    value
}

/// Why these bytes are refused, which are all left; None where they are not refused.
fn refusal<'a, T: MyDeserialize<'a> + Readable<Ctx = C> + Drop, C: Drop>(
    assert: &impl Assert,
    alloc: Global,
    ctx: C,
    bytes: &'a [u8],
) -> Option<WireError> {
    let mut buf = ParseBuf(bytes);
    let refused = buf.parse::<T>(alloc, ctx).err();
    if refused.is_some() {
        assert_bytes(assert, buf.0, bytes);
    }
    refused
}

/// Asserts that these bytes are refused for this cause, and that all are left. They are read once more where memory was
/// refused.
pub fn assert_refused<'a, T: MyDeserialize<'a> + Readable<Ctx = C> + Drop, C: Copy + Drop>(
    assert: &impl Assert,
    alloc: Global,
    ctx: C,
    bytes: &'a [u8],
    cause: WireError,
) {
    let mut found = refusal::<T, C>(assert, alloc, ctx, bytes);
    if found == Some(WireError::Memory) {
        found = refusal::<T, C>(assert, alloc, ctx, bytes);
    }
    assert_same(assert, &found, &Some(cause));
}

/// Asserts that each prefix of these bytes that has at least `from` and less than `to` is cut off.
pub fn assert_cut_off<'a, T: MyDeserialize<'a> + Readable<Ctx = C> + Drop, C: Copy + Drop>(
    assert: &impl Assert,
    alloc: Global,
    ctx: C,
    bytes: &'a [u8],
    from: usize,
    to: usize,
) {
    for len in from..to {
        match bytes.get(..len) {
            Some(front) => {
                assert_refused::<T, C>(assert, alloc, ctx, front, WireError::UnexpectedEof)
            }
            None => assert.holds(false),
        }
    }
}

/// Asserts that these bytes are a value, with none left, which is written as the same bytes.
pub fn assert_reads_back<
    'a,
    T: MySerialize + MyDeserialize<'a> + Readable<Ctx = C> + Drop,
    C: Copy + Drop,
>(assert: &impl Assert, alloc: Global, ctx: C, bytes: &'a [u8]) {
    let value = whole::<T, C>(assert, alloc, ctx, bytes);
    assert_written(assert, alloc, &value, bytes);
}

/// Asserts that what a call made, or the same call once more, is written as these bytes.
pub fn assert_made<T: MySerialize + Drop, E: Drop>(
    assert: &impl Assert,
    alloc: Global,
    first: Result<T, E>,
    second: Result<T, E>,
    bytes: &[u8],
) {
    let made = once_more(assert, first, second);
    assert_written(assert, alloc, &made, bytes);
}

/// Asserts that a copy, or the same copy once more, is the value that was copied.
pub fn assert_copied<T: PartialEq + Debug + Drop>(
    assert: &impl Assert,
    value: &T,
    first: Result<T, AllocError>,
    second: Result<T, AllocError>,
) {
    let copy = once_more(assert, first, second);
    assert_same(assert, &copy, value);
}
