//! Parameter sets made of lists, pairs, tuples and boxed objects.

ghost use Rattle.std.specs.Prelude.{Some};
ghost use Rattle.mysql_values.specs.Value.TheVariants.{UInt};

use crate::support::{Asserting, Given, Set, byte_string, copied, made_set};
use mysql_convert::{IntoParams, SetError, ToValue, ToValueError};
use mysql_values::Value;
use std::alloc::Global;
use std::time::Duration;
use tests_support::{Assert, assert_answer, once_more};

/// Asserts the set that is made, by reference and by value.
fn assert_makes<P: IntoParams>(assert: &impl Assert, alloc: Global, from: P, wanted: Set) {
    let first = (&from).into_params(alloc).ok();
    let second = from.into_params(alloc).ok();
    let wanted = Some(made_set(assert, alloc, wanted));
    assert_answer(assert, first, second, None, wanted);
}

const TWO: Set = Set::List(&[Given::Int(1), Given::Int(2)]);

const THREE: Set = Set::List(&[Given::Int(1), Given::Int(2), Given::Int(3)]);

const TWELVE: Set = Set::List(&[
    Given::Int(1),
    Given::Int(2),
    Given::Int(3),
    Given::Int(4),
    Given::Int(5),
    Given::Int(6),
    Given::Int(7),
    Given::Int(8),
    Given::Int(9),
    Given::Int(10),
    Given::Int(11),
    Given::Int(12),
]);

const MIXED: Set = Set::List(&[Given::Int(1), Given::Bytes(b"x"), Given::Null]);

/// Those of other lengths are the same by their contracts.
#[test]
fn tuples(rt: HostRuntime) {
    let a = Asserting(&rt);
    let alloc = rt.alloc();
    assert_makes(&a, alloc, (), Set::Empty);
    assert_makes(&a, alloc, (1u8, 2i8), TWO);
    assert_makes(&a, alloc, (1i64, "x", Option::<u8>::None), MIXED);
    let twelve = (
        1u8, 2u8, 3u8, 4u8, 5u8, 6u8, 7i8, 8i8, 9i8, 10i8, 11i8, 12i8,
    );
    assert_makes(&a, alloc, twelve, TWELVE);
}

const BOOLEANS: Set = Set::List(&[Given::Int(1), Given::Int(0)]);

const NAMED: Set = Set::Named(&[("a", 1), ("b", 2)]);

const NO_NAMES: Set = Set::Named(&[]);

const OBJECTS: Set = Set::List(&[Given::UInt(7), Given::Bytes(b"x"), Given::Null]);

/// A type of this crate that converts to a number.
#[derive(Drop)]
struct Id(u64);

impl ToValue for Id {
    ghost as_value = { λ id. Some (UInt id.0) };

    fn to_value(&self, _alloc: Global) -> Result<Value, ToValueError> {
        Ok(Value::UInt(self.0))
    }
}

#[test]
fn lists_names_and_objects(rt: HostRuntime) {
    let a = Asserting(&rt);
    let alloc = rt.alloc();
    assert_makes(&a, alloc, [true, false].as_slice(), BOOLEANS);
    let none: [bool; 0] = [];
    assert_makes(&a, alloc, none.as_slice(), Set::Empty);
    assert_makes(&a, alloc, copied(&a, alloc, &[1u8, 2, 3]), THREE);
    assert_makes(&a, alloc, copied::<u8>(&a, alloc, &[]), Set::Empty);
    let from = copied(&a, alloc, &[("b", 2u8), ("a", 1)]);
    assert_makes(&a, alloc, from, NAMED);
    let from = copied::<(&'static str, u8)>(&a, alloc, &[]);
    assert_makes(&a, alloc, from, NO_NAMES);
    let id = once_more(&a, Box::new(alloc, Id(7)), Box::new(alloc, Id(7)));
    let (first, second) = (copied(&a, alloc, b"x"), copied(&a, alloc, b"x"));
    let bytes = once_more(&a, Box::new(alloc, first), Box::new(alloc, second));
    let (first, second) = (Option::<i8>::None, Option::<i8>::None);
    let none = once_more(&a, Box::new(alloc, first), Box::new(alloc, second));
    let objects: [Box<dyn ToValue + Drop>; 3] = [id, bytes, none];
    assert_makes(&a, alloc, objects.as_slice(), OBJECTS);
    drop(objects);
}

/// Asserts why no set is made.
fn assert_makes_none<P: IntoParams>(
    assert: &impl Assert,
    alloc: Global,
    from: P,
    wanted: SetError,
) {
    let first = from.to_params(alloc).err();
    let second = from.into_params(alloc).err();
    assert_answer(assert, first, second, Some(SetError::Memory), Some(wanted));
}

/// The first name that an earlier pair has, also where a name behind it comes twice. Durations
/// without a value come by the least place, but a name given twice comes first.
#[test]
fn no_sets(rt: HostRuntime) {
    let a = Asserting(&rt);
    let alloc = rt.alloc();
    let from = copied(&a, alloc, &[("a", 1u8), ("a", 2)]);
    let wanted = SetError::Redefined(byte_string(&a, alloc, b"a"));
    assert_makes_none(&a, alloc, from, wanted);
    let from = copied(&a, alloc, &[("a", 1u8), ("b", 2), ("b", 3), ("a", 4)]);
    let wanted = SetError::Redefined(byte_string(&a, alloc, b"b"));
    assert_makes_none(&a, alloc, from, wanted);
    let short = Duration::new(1, 0);
    let long = Duration::new(u64::MAX, 0);
    assert_makes_none(
        &a,
        alloc,
        [short, long, long].as_slice(),
        SetError::TooLong(1),
    );
    assert_makes_none(&a, alloc, (1u8, "x", long, long), SetError::TooLong(2));
    let behind = (1u8, 2u8, 3u8, 4u8, 5u8, 6u8, 7u8, Some(long));
    assert_makes_none(&a, alloc, behind, SetError::TooLong(7));
    let from = copied(&a, alloc, &[("a", short), ("b", long), ("c", long)]);
    assert_makes_none(&a, alloc, from, SetError::TooLong(1));
    let from = copied(&a, alloc, &[("a", short), ("b", long), ("a", long)]);
    let wanted = SetError::Redefined(byte_string(&a, alloc, b"a"));
    assert_makes_none(&a, alloc, from, wanted);
}
