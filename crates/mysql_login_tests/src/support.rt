//! What the tests share.
//!
//! A test hands each packet to a generic function that takes it, be it `drop`.

ghost use Rattle.std.specs.Prelude.{◌≡◌, true};

use indexmap::IndexMap;
use mysql_fields::{MyDeserialize, MySerialize, Readable, WireError};
use mysql_login::{GnoInterval, Sid, Tag};
use std::alloc::{AllocError, Global};
use std::borrow::{CowSlice, CowStr};
use std::fmt::{Debug, Display};
use std::process::Abort;
use tests_support::{
    Assert, assert_bytes, assert_cut_off, assert_reads_back, assert_refused, assert_same, once_more,
};

/// Ends a test by an assertion.
#[derive(Drop)]
pub struct Asserting<'a, R>(pub &'a R);

impl<R: Abort> Assert for Asserting<'_, R> {
    fn holds(&self, is_so: bool)
        ensures { is_so ≡ true }
    {
        assert!(self.0; is_so);
    }
}

/// These bytes, borrowed.
pub fn lent(bytes: &[u8]) -> CowSlice<'_, u8> {
    CowSlice::Borrowed(bytes)
}

/// Asserts that a text, or the same text asked for once more, is the wanted one.
pub fn assert_text<E: Drop>(
    assert: &impl Assert,
    first: Result<CowStr<'_>, E>,
    second: Result<CowStr<'_>, E>,
    wanted: &str,
) {
    let text = once_more(assert, first, second);
    assert_bytes(assert, text.as_str().as_bytes(), wanted.as_bytes());
}

/// Asserts what text a value is printed as.
pub fn assert_prints<T: Display + Drop>(
    assert: &impl Assert,
    alloc: Global,
    value: T,
    wanted: &str,
) {
    let text = once_more(assert, value.to_string(alloc), value.to_string(alloc));
    drop(value);
    assert_bytes(assert, text.as_str().as_bytes(), wanted.as_bytes());
}

/// Asserts that what a call made, or the same call once more, is the value that it was made of.
pub fn assert_makes<T: PartialEq + Debug + Drop, E: Drop>(
    assert: &impl Assert,
    first: Result<T, E>,
    second: Result<T, E>,
    value: T,
) {
    let made = once_more(assert, first, second);
    assert_same(assert, &made, &value);
}

//// What stands before a value is written.
const FRONT: &[u8] = b"front";

/// Asserts that a value is written as these bytes behind what stands, which stays where memory is refused too.
pub fn assert_writes<T: MySerialize + Drop>(
    assert: &impl Assert,
    alloc: Global,
    value: T,
    bytes: &[u8],
) {
    let mut out = once_more(
        assert,
        Vec::from_slice(alloc, FRONT),
        Vec::from_slice(alloc, FRONT),
    );
    if value.serialize(&mut out).is_err() {
        assert_bytes(assert, out.as_slice(), FRONT);
        assert.holds(value.serialize(&mut out).is_ok());
    }
    assert_bytes(assert, out.get(..FRONT.len()).unwrap_or(&[]), FRONT);
    assert_bytes(assert, out.get(FRONT.len()..).unwrap_or(&[]), bytes);
}

/// Asserts that bytes are read as a packet and written again. Each front shorter than `len` is cut
/// off, and each of the other bytes is refused for its cause.
pub fn assert_reads<'a, T: MySerialize + MyDeserialize<'a> + Readable<Ctx = ()> + Drop>(
    assert: &impl Assert,
    alloc: Global,
    bytes: &'a [u8],
    len: usize,
    refused: &[(&'a [u8], WireError)],
) {
    assert_reads_back::<T, ()>(assert, alloc, (), bytes);
    assert_cut_off::<T, ()>(assert, alloc, (), bytes, 0, len);
    for (bytes, cause) in refused {
        assert_refused::<T, ()>(assert, alloc, (), *bytes, *cause);
    }
}

/// A text as a tag, by either call.
pub fn tag<'a>(assert: &impl Assert, text: &'a str) -> Tag<'a> {
    once_more(
        assert,
        Tag::try_from(text),
        Tag::new(CowStr::Borrowed(text)),
    )
}

/// A set of this source, with the transactions from 1 on that are less than `end`.
pub fn set(assert: &impl Assert, alloc: Global, uuid: [u8; 16], end: u64) -> Sid<'static> {
    let interval = GnoInterval::new(1, end);
    once_more(
        assert,
        Sid::new(alloc, uuid).with_interval(interval),
        Sid::new(alloc, uuid).with_interval(interval),
    )
}

/// A set of the tag `app` with the transactions 1 to 99.
pub fn tagged_set(assert: &impl Assert, alloc: Global) -> Sid<'static> {
    set(assert, alloc, *b"aaaaaaaaaaaaaaaa", 100).with_tag(tag(assert, "app"))
}

fn one_text(alloc: Global) -> Result<IndexMap<String, String>, AllocError> {
    let key = String::from_str(alloc, "a")?;
    let value = String::from_str(alloc, "1")?;
    let mut texts = IndexMap::new(alloc);
    texts.insert(key, value)?;
    Ok(texts)
}

/// A pair of texts: `a` and `1`.
pub fn texts(assert: &impl Assert, alloc: Global) -> IndexMap<String, String> {
    once_more(assert, one_text(alloc), one_text(alloc))
}

/// Asserts which pairs of texts these are.
pub fn assert_texts(assert: &impl Assert, texts: Vec<(String, String)>, wanted: &[(&str, &str)]) {
    assert.holds(texts.len() == wanted.len());
    for (place, pair) in wanted.iter().enumerate() {
        match texts.get(place) {
            Some((key, value)) => {
                assert.holds((key.as_str() == pair.0) & (value.as_str() == pair.1))
            }
            None => assert.holds(false),
        }
    }
    drop(texts);
}
