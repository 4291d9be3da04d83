//! SQL texts of values, and what values mean.

use crate::support::{Asserting, Given, assert_gives, made};
use mysql_values::{AsSql, Content};
use tests_support::{Assert, assert_bytes, assert_copied, once_more};

/// Values, their texts with backslash escapes and without, and the values of their contents.
const VALUES: [(Given, &str, &str, Given); 8] = [
    (
        Given::Bytes(b"a'b\\"),
        "'a\\'b\\\\'",
        "'a''b\\'",
        Given::Bytes(b"a'b\\"),
    ),
    (
        Given::Bytes(b"\xfe\x01"),
        "0xFE01",
        "0xFE01",
        Given::Bytes(b"\xfe\x01"),
    ),
    // In a text the sign of an all-zero time stays; it means the positive one.
    (
        Given::Time(true, 0, 0, 0, 0, 0),
        "'-000:00:00'",
        "'-000:00:00'",
        Given::Bytes(b"000:00:00"),
    ),
    (
        Given::Time(true, 1, 2, 3, 4, 5),
        "'-026:03:04.000005'",
        "'-026:03:04.000005'",
        Given::Bytes(b"-026:03:04.000005"),
    ),
    (
        Given::Date(2024, 2, 29, 1, 2, 3, 4),
        "'2024-02-29 01:02:03.000004'",
        "'2024-02-29 01:02:03.000004'",
        Given::Bytes(b"2024-02-29 01:02:03.000004"),
    ),
    (Given::Null, "NULL", "NULL", Given::Null),
    (Given::Int(-1), "-1", "-1", Given::Int(-1)),
    (Given::UInt(1), "1", "1", Given::Int(1)),
];

#[test]
fn texts(rt: HostRuntime) {
    let assert = Asserting(&rt);
    let alloc = rt.alloc();
    for (given, escaped, doubled, _) in VALUES {
        let value = made(&assert, alloc, given);
        let (first, second) = (value.as_sql(alloc, false), value.as_sql(alloc, false));
        let text = once_more(&assert, first, second);
        assert_bytes(&assert, text.as_str().as_bytes(), escaped.as_bytes());
        drop(text);
        let (first, second) = (value.as_sql(alloc, true), value.as_sql(alloc, true));
        let text = once_more(&assert, first, second);
        assert_bytes(&assert, text.as_str().as_bytes(), doubled.as_bytes());
        drop(text);
        assert_copied(&assert, &value, value.clone(alloc), value.clone(alloc));
        drop(value);
    }
}

#[test]
fn contents(rt: HostRuntime) {
    let assert = Asserting(&rt);
    let alloc = rt.alloc();
    for (given, _, _, meant) in VALUES {
        let first = made(&assert, alloc, given).into_content(alloc);
        let second = made(&assert, alloc, given).into_content(alloc);
        let content = once_more(&assert, first, second);
        assert.holds(content.is_some());
        assert_gives(&assert, alloc, content.unwrap_or(Content::Null), meant);
    }
    // A float has no content.
    let float = made(&assert, alloc, Given::Float(0)).into_content(alloc);
    let float = once_more(&assert, float, Ok(None));
    assert.holds(float.is_none());
    drop(float);
}
