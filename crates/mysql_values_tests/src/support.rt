//! How a test of this crate ends, and the values and sets of its tables.
//!
//! A test hands each value to a generic function that takes it, be it `drop`.

ghost use Rattle.std.specs.Prelude.{◌≡◌, true};

use mysql_convert::{IntoParams, ToValue};
use mysql_values::{ByteString, Params, Value};
use std::alloc::{AllocError, Global};
use std::process::Abort;
pub use tests_support::Given;
use tests_support::{Assert, assert_same, given_value, given_values, once_more};

/// Ends a test by an assertion.
#[derive(Drop)]
pub struct Asserting<'a, R>(pub &'a R);

impl<R: Abort> Assert for Asserting<'_, R> {
    fn holds(&self, is_so: bool)
        ensures { is_so ≡ true }
    {
        assert!(self.0; is_so);
    }
}

/// A list of these items.
pub fn copied<T: Copy + Drop>(assert: &impl Assert, alloc: Global, items: &[T]) -> Vec<T> {
    let first = Vec::from_slice(alloc, items);
    once_more(assert, first, Vec::from_slice(alloc, items))
}

/// This text, owned.
pub fn string(assert: &impl Assert, alloc: Global, text: &str) -> String {
    let first = String::from_str(alloc, text);
    once_more(assert, first, String::from_str(alloc, text))
}

/// These bytes, owned.
pub fn byte_string(assert: &impl Assert, alloc: Global, bytes: &[u8]) -> ByteString {
    let first = ByteString::copy(alloc, bytes);
    once_more(assert, first, ByteString::copy(alloc, bytes))
}

/// The value itself.
pub fn made(assert: &impl Assert, alloc: Global, given: Given) -> Value {
    once_more(assert, given_value(alloc, given), given_value(alloc, given))
}

/// Asserts that a value is this one of a table.
pub fn assert_value(assert: &impl Assert, alloc: Global, found: &Value, wanted: Given) {
    let wanted = made(assert, alloc, wanted);
    assert_same(assert, found, &wanted);
    drop(wanted);
}

/// Asserts the value that something converts to.
pub fn assert_gives<T: ToValue + Drop>(assert: &impl Assert, alloc: Global, x: T, wanted: Given) {
    let value = once_more(assert, x.to_value(alloc), x.to_value(alloc));
    drop(x);
    assert_value(assert, alloc, &value, wanted);
    drop(value);
}

/// A set of a table.
#[derive(Clone, Copy)]
pub enum Set {
    Empty,
    List(&'static [Given]),
    /// Names, and numbers that they have.
    Named(&'static [(&'static str, i64)]),
}

fn params(alloc: Global, set: Set) -> Result<Params, AllocError> {
    match set {
        Set::Empty => Ok(Params::Empty),
        Set::List(given) => Ok(Params::Positional(given_values(alloc, given)?)),
        Set::Named(given) => match Vec::from_slice(alloc, given)?.into_params(alloc) {
            Ok(made) => Ok(made),
            Err(_) => Err(AllocError),
        },
    }
}

/// The set itself.
pub fn made_set(assert: &impl Assert, alloc: Global, set: Set) -> Params {
    once_more(assert, params(alloc, set), params(alloc, set))
}
