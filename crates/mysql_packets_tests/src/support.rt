//! What the tests share.

ghost use Rattle.std.specs.Prelude.{◌≡◌, true};

use mysql_fields::{MyDeserialize, MySerialize, Readable, WireError};
use std::alloc::Global;
use std::fmt::Debug;
use std::process::Abort;
use tests_support::{Assert, again, assert_cut_off, assert_refused, whole};

/// Ends a test by an assertion.
#[derive(Drop)]
pub struct Asserting<'a, R>(pub &'a R);

impl<R: Abort> Assert for Asserting<'_, R> {
    fn holds(&self, is_so: bool)
        ensures { is_so ≡ true }
    {
        assert!(self.0; is_so);
    }
}

/// Bytes that have to stay before what is appended.
pub fn front(assert: &impl Assert, alloc: Global) -> Vec<u8> {
    again!(assert, Vec::from_slice(alloc, b"front"))
}

/// Asserts what is behind `front` after two equal calls. It is these bytes for each call that was
/// answered, and one was at least.
pub fn assert_behind(assert: &impl Assert, out: &[u8], first: bool, second: bool, bytes: &[u8]) {
    assert.holds(first | second);
    let (head, last) = out.split_at(out.len().saturating_sub(bytes.len()));
    assert.holds(last == bytes);
    let before: &[u8] = if first & second { bytes } else { b"" };
    assert.holds(head.strip_prefix(b"front") == Some(before));
}

/// Asserts that a value is written as these bytes behind `front`, which stands alone where memory is
/// refused.
pub fn assert_appended<T: MySerialize>(
    assert: &impl Assert,
    alloc: Global,
    value: &T,
    bytes: &[u8],
) {
    let mut out = front(assert, alloc);
    let first = value.serialize(&mut out).is_ok();
    let second = value.serialize(&mut out).is_ok();
    assert_behind(assert, &out, first, second, bytes);
}

/// Asserts that bytes are read as a packet and written again, and that others are refused.
///
/// Each front shorter than `len` is cut off, and each of the other bytes is refused for its cause.
pub fn assert_field<
    'a,
    T: MySerialize + MyDeserialize<'a> + Readable<Ctx = C> + Drop,
    C: Copy + Drop,
>(
    assert: &impl Assert,
    alloc: Global,
    ctx: C,
    bytes: &'a [u8],
    len: usize,
    refused: &[(&'a [u8], WireError)],
) {
    let value = whole::<T, C>(assert, alloc, ctx, bytes);
    assert_appended(assert, alloc, &value, bytes);
    drop(value);
    assert_cut_off::<T, C>(assert, alloc, ctx, bytes, 0, len);
    for (bytes, cause) in refused {
        assert_refused::<T, C>(assert, alloc, ctx, *bytes, *cause);
    }
}

/// Asserts what `Debug` writes of an answer, unless that is want of memory: whether memory sufficed.
pub fn is_shown<T: Debug + Drop>(
    assert: &impl Assert,
    alloc: Global,
    answer: T,
    wanted: &str,
) -> bool {
    let text = again!(assert, format!(in alloc; "{answer:?}"));
    let is_refused = text.as_str().contains("Memory") | text.as_str().contains("AllocError");
    assert.holds(is_refused | (text.as_str() == wanted));
    !is_refused
}

/// Asserts what `Debug` writes of an answer, or of the same call's second one.
pub fn assert_shown<T: Debug + Drop>(
    assert: &impl Assert,
    alloc: Global,
    first: T,
    second: T,
    wanted: &str,
) {
    let first = is_shown(assert, alloc, first, wanted);
    let second = is_shown(assert, alloc, second, wanted);
    assert.holds(first | second);
}

/// Asserts which bytes a made value is written as, or what `Debug` writes of the error. Answers
/// whether memory sufficed; if not, nothing is asserted.
pub fn is_made<T: MySerialize + Drop, E: Debug + Drop>(
    assert: &impl Assert,
    alloc: Global,
    answer: Result<T, E>,
    wanted: Result<&[u8], &str>,
) -> bool {
    match answer {
        Ok(value) => {
            assert.holds(wanted.is_ok());
            assert_appended(assert, alloc, &value, wanted.unwrap_or(b""));
            true
        }
        Err(error) => is_shown(assert, alloc, error, wanted.err().unwrap_or("")),
    }
}

/// The value of a cell that converts.
pub fn converted<T: Drop, E: Drop>(found: Option<Result<T, E>>) -> Option<T> {
    match found {
        Some(Ok(value)) => Some(value),
        _ => None,
    }
}
