//! What values convert to, what converts to them, and what a conversion that is undone gives.

ghost use Rattle.std.specs.Prelude.{Bool, Some};
ghost use Rattle.mysql_values.specs.Values.{is_null};

use crate::support::{
    Asserting, Given, assert_gives, assert_value, byte_string, copied, made, string,
};
use mysql_convert::{
    FromValue, FromValueError, Intermediate, ParseIr, ToValue, ToValueError, from_value,
    from_value_opt, get_intermediate,
};
use mysql_values::{Content, Value};
use std::alloc::Global;
use std::borrow::{CowSlice, CowStr};
use std::time::Duration;
use tests_support::{Assert, assert_equal, once_more};

/// Asserts what was found in a value; where nothing is, that the value came back.
fn assert_found<T: PartialEq + Drop>(
    assert: &impl Assert,
    alloc: Global,
    found: Result<T, FromValueError>,
    given: Given,
    wanted: Option<&T>,
) {
    match found {
        Ok(x) => match wanted {
            Some(wanted) => assert.holds(x == *wanted),
            None => assert.holds(false),
        },
        Err(error) => {
            assert.holds(wanted.is_none());
            assert_value(assert, alloc, &error.0, given);
            drop(error);
        }
    }
}

/// Asserts what a value converts to.
fn assert_converts<T: FromValue + PartialEq + Drop>(
    assert: &impl Assert,
    alloc: Global,
    given: Given,
    wanted: Option<&T>,
) {
    let found = from_value_opt::<T>(made(assert, alloc, given));
    assert_found(assert, alloc, found, given, wanted);
}

/// Asserts that a value converts to nothing of a type, and comes back.
fn assert_refuses<T: FromValue + Drop>(assert: &impl Assert, alloc: Global, given: Given) {
    let error = from_value_opt::<T>(made(assert, alloc, given)).err();
    match &error {
        Some(error) => assert_value(assert, alloc, &error.0, given),
        None => assert.holds(false),
    }
    drop(error);
}

/// The value that undoing the conversion of a value gives.
fn rolled_back<T: FromValue>(alloc: Global, value: Value) -> Result<Value, ToValueError> {
    match get_intermediate::<T>(value) {
        Ok(step) => step.rollback(alloc),
        Err(error) => {
            drop(error);
            Err(ToValueError::TooLong)
        }
    }
}

/// Asserts what a value converts to, in each way, and that it does once more where the conversion is undone.
fn assert_converts_again<T: FromValue + PartialEq + Drop>(
    assert: &impl Assert,
    alloc: Global,
    given: Given,
    wanted: &T,
) {
    assert_converts(assert, alloc, given, Some(wanted));
    let value = made(assert, alloc, given);
    let first = T::from_value_ref_opt(alloc, &value);
    let second = T::from_value_ref_opt(alloc, &value);
    drop(value);
    let found = once_more(assert, first, second);
    assert_found(assert, alloc, found, given, Some(wanted));
    let first = rolled_back::<T>(alloc, made(assert, alloc, given));
    let second = rolled_back::<T>(alloc, made(assert, alloc, given));
    let again = once_more(assert, first, second);
    assert_found(
        assert,
        alloc,
        from_value_opt::<T>(again),
        given,
        Some(wanted),
    );
}

/// A type of a caller: whether a value is `NULL`.
#[derive(Clone, Copy, PartialEq)]
struct IsNull(bool);

impl FromValue for IsNull {
    type Intermediate = ParseIr<IsNull>;

    ghost Shown = { Bool };

    ghost shown = { λ x. x.0 };

    ghost converted = { λ value. Some (is_null value) };

    fn get_intermediate(value: Value) -> Result<ParseIr<IsNull>, FromValueError> {
        match value {
            Value::NULL => Ok(ParseIr(IsNull(true), Value::NULL)),
            value => Ok(ParseIr(IsNull(false), value)),
        }
    }
}

/// Values that hold no number.
const NO_NUMBERS: [Given; 13] = [
    Given::Null,
    Given::Float(0),
    Given::Double(0),
    Given::Date(7, 0, 0, 0, 0, 0, 0),
    Given::Bytes(b""),
    Given::Bytes(b"-"),
    Given::Bytes(b"+"),
    Given::Bytes(b"--7"),
    Given::Bytes(b"- 7"),
    Given::Bytes(b" 7"),
    Given::Bytes(b"7 "),
    Given::Bytes(b"7a"),
    Given::Bytes(b"9999999999999999999999999999999999999999"),
];

/// Values that hold the number 7.
const SEVENS: [Given; 6] = [
    Given::Int(7),
    Given::UInt(7),
    Given::Bytes(b"7"),
    Given::Bytes(b"+7"),
    Given::Bytes(b"007"),
    Given::Bytes(b"0000000000000000000000000000000000000007"),
];

/// Asserts what the integers of a type are read from, and their values: its least and its greatest, and the numbers
/// past them.
fn assert_range<T: FromValue + ToValue + PartialEq + Copy + Drop>(
    assert: &impl Assert,
    alloc: Global,
    seven: T,
    least: (T, &'static [u8], Given),
    most: (T, &'static [u8], Given),
    past: [&'static [u8]; 2],
) {
    assert_converts(assert, alloc, Given::Bytes(least.1), Some(&least.0));
    assert_gives(assert, alloc, least.0, least.2);
    assert_converts(assert, alloc, Given::Bytes(most.1), Some(&most.0));
    assert_gives(assert, alloc, most.0, most.2);
    for text in past {
        assert_refuses::<T>(assert, alloc, Given::Bytes(text));
    }
    for given in SEVENS {
        assert_converts(assert, alloc, given, Some(&seven));
    }
    for given in NO_NUMBERS {
        assert_refuses::<T>(assert, alloc, given);
    }
    assert_converts_again(assert, alloc, Given::Bytes(b"+7"), &seven);
    assert_converts_again(assert, alloc, Given::Int(7), &seven);
}

#[test]
fn integers(rt: HostRuntime) {
    let a = Asserting(&rt);
    let alloc = rt.alloc();
    assert_range(
        &a,
        alloc,
        7i8,
        (-128, b"-128", Given::Int(-128)),
        (127, b"127", Given::Int(127)),
        [b"-129", b"128"],
    );
    assert_range(
        &a,
        alloc,
        7i16,
        (-32768, b"-32768", Given::Int(-32768)),
        (32767, b"32767", Given::Int(32767)),
        [b"-32769", b"32768"],
    );
    assert_range(
        &a,
        alloc,
        7i32,
        (-2147483648, b"-2147483648", Given::Int(-2147483648)),
        (2147483647, b"2147483647", Given::Int(2147483647)),
        [b"-2147483649", b"2147483648"],
    );
    assert_range(
        &a,
        alloc,
        7isize,
        (isize::MIN, b"-9223372036854775808", Given::Int(i64::MIN)),
        (isize::MAX, b"9223372036854775807", Given::Int(i64::MAX)),
        [b"-9223372036854775809", b"9223372036854775808"],
    );
    assert_range(
        &a,
        alloc,
        7i64,
        (i64::MIN, b"-9223372036854775808", Given::Int(i64::MIN)),
        (i64::MAX, b"9223372036854775807", Given::Int(i64::MAX)),
        [b"-9223372036854775809", b"9223372036854775808"],
    );
    assert_range(
        &a,
        alloc,
        7i128,
        (
            i128::MIN,
            b"-170141183460469231731687303715884105728",
            Given::Bytes(b"-170141183460469231731687303715884105728"),
        ),
        (
            i128::MAX,
            b"170141183460469231731687303715884105727",
            Given::Bytes(b"170141183460469231731687303715884105727"),
        ),
        [
            b"-170141183460469231731687303715884105729",
            b"170141183460469231731687303715884105728",
        ],
    );
}

#[test]
fn unsigned_integers(rt: HostRuntime) {
    let a = Asserting(&rt);
    let alloc = rt.alloc();
    assert_range(
        &a,
        alloc,
        7u8,
        (0, b"-0", Given::Int(0)),
        (255, b"255", Given::Int(255)),
        [b"-1", b"256"],
    );
    assert_range(
        &a,
        alloc,
        7u16,
        (0, b"0", Given::Int(0)),
        (65535, b"65535", Given::Int(65535)),
        [b"-1", b"65536"],
    );
    assert_range(
        &a,
        alloc,
        7u32,
        (0, b"0", Given::Int(0)),
        (4294967295, b"4294967295", Given::Int(4294967295)),
        [b"-1", b"4294967296"],
    );
    assert_range(
        &a,
        alloc,
        7usize,
        (0, b"0", Given::UInt(0)),
        (usize::MAX, b"18446744073709551615", Given::UInt(u64::MAX)),
        [b"-1", b"18446744073709551616"],
    );
    assert_range(
        &a,
        alloc,
        7u64,
        (0, b"0", Given::UInt(0)),
        (u64::MAX, b"18446744073709551615", Given::UInt(u64::MAX)),
        [b"-1", b"18446744073709551616"],
    );
    assert_range(
        &a,
        alloc,
        7u128,
        (0, b"0", Given::Int(0)),
        (
            u128::MAX,
            b"340282366920938463463374607431768211455",
            Given::Bytes(b"340282366920938463463374607431768211455"),
        ),
        [b"-1", b"340282366920938463463374607431768211456"],
    );
}

const BOOLEANS: [(Given, Option<bool>); 9] = [
    (Given::Int(0), Some(false)),
    (Given::UInt(1), Some(true)),
    (Given::Bytes(b"0"), Some(false)),
    (Given::Bytes(b"1"), Some(true)),
    (Given::Int(-1), None),
    (Given::UInt(2), None),
    (Given::Bytes(b""), None),
    (Given::Bytes(b"01"), None),
    (Given::Null, None),
];

/// Values, and the nanoseconds of their durations.
const DURATIONS: [(Given, u64); 12] = [
    (Given::Bytes(b"838:59:59.500000"), 3020399_500000000),
    (Given::Bytes(b"00:00:00"), 0),
    (Given::Bytes(b"012:34:56"), 45296_000000000),
    (Given::Bytes(b"899:59:59"), 3239999_000000000),
    (Given::Bytes(b"99:59:59.1"), 359999_100000000),
    (Given::Bytes(b"00:00:01.02"), 1_020000000),
    (Given::Bytes(b"00:00:01.003"), 1_003000000),
    (Given::Bytes(b"00:00:01.0004"), 1_000400000),
    (Given::Bytes(b"00:00:01.00005"), 1_000050000),
    (Given::Bytes(b"00:00:01.000006"), 1_000006000),
    (Given::Time(false, 0, 0, 0, 0, 0), 0),
    (
        Given::Time(false, 34, 22, 59, 59, 999999),
        3020399_999999000,
    ),
];

/// Values that are no duration.
const NO_DURATIONS: [Given; 14] = [
    Given::Bytes(b"900:00:00"),
    Given::Bytes(b"00:00:01.0000070"),
    Given::Bytes(b"00:00:01."),
    Given::Bytes(b"00:00:01,5"),
    Given::Bytes(b"-01:00:00"),
    Given::Bytes(b"1:00:00"),
    Given::Bytes(b"12:60:00"),
    Given::Bytes(b"12:00:60"),
    Given::Bytes(b"12:34"),
    Given::Bytes(b"12:"),
    Given::Bytes(b""),
    Given::Time(true, 0, 0, 0, 1, 0),
    Given::Time(true, 0, 0, 0, 0, 0),
    Given::Int(5),
];

/// Numbers that a type can't hold, or can; a caller's type; options, arrays, booleans and durations.
#[test]
fn values_converted(rt: HostRuntime) {
    let a = Asserting(&rt);
    let alloc = rt.alloc();
    assert_converts::<u8>(&a, alloc, Given::Int(256), None);
    assert_converts::<u64>(&a, alloc, Given::Int(-1), None);
    assert_converts::<usize>(&a, alloc, Given::Int(-1), None);
    assert_converts::<u16>(&a, alloc, Given::UInt(65536), None);
    assert_converts::<u32>(&a, alloc, Given::Int(4294967296), None);
    assert_converts::<i16>(&a, alloc, Given::Int(-32769), None);
    assert_converts::<i32>(&a, alloc, Given::UInt(2147483648), None);
    assert_converts::<isize>(&a, alloc, Given::UInt(9223372036854775808), None);
    assert_converts::<i64>(&a, alloc, Given::UInt(9223372036854775808), None);
    assert_converts(&a, alloc, Given::UInt(u64::MAX), Some(&u64::MAX));
    assert_converts(&a, alloc, Given::Int(i64::MIN), Some(&i64::MIN));
    for (given, wanted) in BOOLEANS {
        assert_converts(&a, alloc, given, wanted.as_ref());
    }
    for (given, nanos) in DURATIONS {
        assert_converts(&a, alloc, given, Some(&Duration::from_nanos(nanos)));
    }
    for given in NO_DURATIONS {
        assert_converts::<Duration>(&a, alloc, given, None);
    }
}

#[test]
fn options_and_arrays(rt: HostRuntime) {
    let a = Asserting(&rt);
    let alloc = rt.alloc();
    assert_converts_again(&a, alloc, Given::Null, &IsNull(true));
    assert_converts(&a, alloc, Given::Bytes(b"5"), Some(&IsNull(false)));
    assert_converts(&a, alloc, Given::Int(5), Some(&Some(IsNull(false))));
    assert_converts(&a, alloc, Given::Null, Some(&Option::<i64>::None));
    assert_converts_again(&a, alloc, Given::Bytes(b"5"), &Some(5i64));
    assert_converts::<Option<i64>>(&a, alloc, Given::Bytes(b"x"), None);
    assert_converts_again(&a, alloc, Given::Bytes(b"ab"), &[97u8, 98]);
    for given in [Given::Bytes(b"a"), Given::Bytes(b"abc"), Given::Null] {
        assert_converts::<[u8; 2]>(&a, alloc, given, None);
    }
    assert_converts_again(&a, alloc, Given::Int(0), &false);
}

type CowText = CowStr<'static, Global>;

type CowBytes = CowSlice<'static, u8, Global>;

/// Values, and the bytes and the text that they hold.
const TEXTS: [(Given, Option<&[u8]>, Option<&str>); 6] = [
    (
        Given::Bytes(b"h\xc3\xa9"),
        Some(b"h\xc3\xa9"),
        Some("h\u{e9}"),
    ),
    (Given::Bytes(b""), Some(b""), Some("")),
    (Given::Bytes(b"\xff"), Some(b"\xff"), None),
    (Given::Bytes(b"a\xff"), Some(b"a\xff"), None),
    (Given::Int(5), None, None),
    (Given::Null, None, None),
];

// The prover's borrow checker doesn't cover `assert_converts` at a type with a lifetime. So `CowBytes` and
// `CowText` are compared by themselves.
#[test]
fn texts_that_values_hold(rt: HostRuntime) {
    let a = Asserting(&rt);
    let alloc = rt.alloc();
    for (given, bytes, text) in TEXTS {
        let found = from_value_opt::<CowBytes>(made(&a, alloc, given)).ok();
        let held = match &found {
            Some(held) => Some(held.as_slice()),
            None => None,
        };
        a.holds(held == bytes);
        drop(found);
        let found = from_value_opt::<CowText>(made(&a, alloc, given)).ok();
        let held = match &found {
            Some(held) => Some(held.as_str()),
            None => None,
        };
        a.holds(held == text);
        drop(found);
        let owned = copied(&a, alloc, bytes.unwrap_or(&[]));
        assert_converts(&a, alloc, given, bytes.is_some().then_some(&owned));
        drop(owned);
        let owned = string(&a, alloc, text.unwrap_or(""));
        assert_converts(&a, alloc, given, text.is_some().then_some(&owned));
        drop(owned);
    }
    let owned = copied(&a, alloc, b"ab");
    assert_converts_again(&a, alloc, Given::Bytes(b"ab"), &owned);
    drop(owned);
    let owned = string(&a, alloc, "ab");
    assert_converts_again(&a, alloc, Given::Bytes(b"ab"), &owned);
    drop(owned);
}

#[test]
fn values_and_long_times(rt: HostRuntime) {
    let a = Asserting(&rt);
    let alloc = rt.alloc();
    // Any value is a value.
    for given in [Given::Null, Given::Bytes(b"x"), Given::Float(1)] {
        let wanted = made(&a, alloc, given);
        assert_converts_again(&a, alloc, given, &wanted);
        let found = from_value::<Value>(wanted);
        assert_value(&a, alloc, &found, given);
        drop(found);
    }
    // No field of a time is checked. This one's duration has no value of its own, and undoing the conversion gives the
    // time.
    let longest = Given::Time(false, 4294967295, 255, 255, 255, 4294967295);
    let wanted = Duration::new(371085175225849, 967295000);
    assert_converts_again(&a, alloc, longest, &wanted);
    let first = rolled_back::<Duration>(alloc, made(&a, alloc, longest));
    let second = rolled_back::<Duration>(alloc, made(&a, alloc, longest));
    let again = once_more(&a, first, second);
    assert_value(&a, alloc, &again, longest);
    drop(again);
    assert_equal(&a, wanted.to_value(alloc), Err(ToValueError::TooLong));
}

/// Numbers of 128 bits, and their values.
const WIDE: [(i128, Given); 5] = [
    (9223372036854775807, Given::Int(i64::MAX)),
    (9223372036854775808, Given::UInt(9223372036854775808)),
    (18446744073709551616, Given::Bytes(b"18446744073709551616")),
    (-9223372036854775808, Given::Int(i64::MIN)),
    (-9223372036854775809, Given::Bytes(b"-9223372036854775809")),
];

/// Numbers that a command carries, and the values that are sent for them.
const CARRIED: [(i128, Given); 5] = [
    (-9223372036854775808, Given::Int(i64::MIN)),
    (-1, Given::Int(-1)),
    (9223372036854775807, Given::Int(i64::MAX)),
    (9223372036854775808, Given::UInt(9223372036854775808)),
    (18446744073709551615, Given::UInt(u64::MAX)),
];

/// Nanoseconds, and the time of that duration.
const TIMES: [(u64, Given); 4] = [
    (0, Given::Time(false, 0, 0, 0, 0, 0)),
    (1_000000500, Given::Time(false, 0, 0, 0, 1, 1)),
    (1_000000499, Given::Time(false, 0, 0, 0, 1, 0)),
    (3020399_999999500, Given::Time(false, 34, 23, 0, 0, 0)),
];

#[test]
fn values_of_numbers(rt: HostRuntime) {
    let a = Asserting(&rt);
    let alloc = rt.alloc();
    assert_gives(&a, alloc, true, Given::Int(1));
    assert_gives(&a, alloc, false, Given::Int(0));
    for (number, wanted) in WIDE {
        assert_gives(&a, alloc, number, wanted);
    }
    assert_gives(&a, alloc, 1u128 << 63, Given::UInt(1 << 63));
    assert_gives(&a, alloc, Content::Null, Given::Null);
    for (number, wanted) in CARRIED {
        assert_gives(&a, alloc, Content::Number(number), wanted);
    }
    for (nanos, time) in TIMES {
        assert_gives(&a, alloc, Duration::from_nanos(nanos), time);
    }
    // 2^32 days but 501 nanoseconds, and but 500, which round to another microsecond.
    let longest = Given::Time(false, 4294967295, 23, 59, 59, 999999);
    let short = Duration::new(371085174374399, 999999499);
    assert_gives(&a, alloc, short, longest);
    for long in [
        Duration::new(371085174374399, 999999500),
        Duration::new(u64::MAX, 999999999),
    ] {
        assert_equal(&a, long.to_value(alloc), Err(ToValueError::TooLong));
    }
}

#[test]
fn values_of_texts(rt: HostRuntime) {
    let a = Asserting(&rt);
    let alloc = rt.alloc();
    let ab = Given::Bytes(b"ab");
    assert_gives(&a, alloc, "ab", ab);
    assert_gives(&a, alloc, b"ab".as_slice(), ab);
    assert_gives(&a, alloc, [97u8, 98], ab);
    assert_gives(&a, alloc, CowText::Borrowed("ab"), ab);
    assert_gives(&a, alloc, CowBytes::Borrowed(b"ab"), ab);
    assert_gives(&a, alloc, &[97u8, 98], ab);
    assert_gives(&a, alloc, Some("ab"), ab);
    assert_gives(&a, alloc, Option::<u8>::None, Given::Null);
    assert_gives(&a, alloc, Value::UInt(5), Given::UInt(5));
    assert_gives(&a, alloc, string(&a, alloc, "ab"), ab);
    assert_gives(&a, alloc, copied(&a, alloc, b"ab"), ab);
    let bytes = byte_string(&a, alloc, b"ab");
    assert_gives(&a, alloc, Content::Bytes(bytes), ab);
}
