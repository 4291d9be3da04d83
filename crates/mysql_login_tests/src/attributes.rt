//! Attributes of a connection.

use crate::support::{Asserting, assert_reads, assert_texts, assert_writes, texts};
use mysql_fields::WireError;
use mysql_login::ConnectAttributes;
use tests_support::{Assert, assert_copied, assert_made, once_more, whole};

const ATTRIBUTE: &[u8] = b"\x04\x01a\x011";

const REPEATED: &[u8] = b"\x0c\x01a\x011\x01b\x012\x01a\x013";

// Attributes, and their texts: all of them, those of a repeated key and those of the same lossy
// text too, which is U+FFFD.
const READ: [(&[u8], &[(&str, &str)]); 2] = [
    (REPEATED, &[("a", "1"), ("b", "2"), ("a", "3")]),
    (
        b"\x08\x01\xff\x011\x01\xfe\x012",
        &[("\u{fffd}", "1"), ("\u{fffd}", "2")],
    ),
];

// A key, and the last value of it in the attributes of a repeated key.
const NAMED: [(&[u8], Option<&[u8]>); 4] = [
    (b"a", Some(b"3")),
    (b"b", Some(b"2")),
    (b"c", None),
    (b"", None),
];

// The first total ends within a value, the second past the bytes, the third is the largest.
const OTHER_TOTALS: [(&[u8], WireError); 3] = [
    (b"\x03\x01a\x011", WireError::UnexpectedEof),
    (b"\x05\x01a\x011", WireError::UnexpectedEof),
    (
        b"\xfe\xff\xff\xff\xff\xff\xff\xff\xff\x01a\x011",
        WireError::UnexpectedEof,
    ),
];

#[test]
fn attributes(rt: HostRuntime) {
    let assert = Asserting(&rt);
    let alloc = rt.alloc();
    for (bytes, wanted) in READ {
        let all = whole::<ConnectAttributes, ()>(&assert, alloc, (), bytes);
        let texts = once_more(&assert, all.texts(alloc), all.texts(alloc));
        drop(all);
        assert_texts(&assert, texts, wanted);
    }
    let all = whole::<ConnectAttributes, ()>(&assert, alloc, (), REPEATED);
    for (key, wanted) in NAMED {
        assert.holds(all.get(key) == wanted);
    }
    let (first, second) = (all.clone(alloc), all.clone(alloc));
    assert_copied(&assert, &all, first, second);
    assert_writes(&assert, alloc, all, REPEATED);
    let first = ConnectAttributes::from_texts(alloc, texts(&assert, alloc));
    let second = ConnectAttributes::from_texts(alloc, texts(&assert, alloc));
    assert_made(&assert, alloc, first, second, ATTRIBUTE);
    assert_reads::<ConnectAttributes>(&assert, alloc, ATTRIBUTE, 0, &OTHER_TOTALS);
}
