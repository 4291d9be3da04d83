//! Literals at the front of a text.

use crate::support::{Asserting, copied};
use mysql_values::{Literal, Mode, Spelling, read_literal, read_literal_in};
use std::alloc::{AllocError, Global};
use tests_support::{Assert, assert_bytes, assert_equal};

/// Texts, the literal that stands first with what follows it, and the bytes that are then in the buffer.
const LITERALS: [(&[u8], Option<(Literal, &[u8])>, &[u8]); 17] = [
    (b"null)", Some((Literal::Null, b")")), b""),
    (b"nUlL", Some((Literal::Null, b"")), b""),
    (b"007", Some((Literal::Number(7), b"")), b""),
    (
        b"18446744073709551615",
        Some((Literal::Number(18446744073709551615), b"")),
        b"",
    ),
    (
        b"-9223372036854775808",
        Some((Literal::Number(-9223372036854775808), b"")),
        b"",
    ),
    (b"'a'b", Some((Literal::Bytes, b"b")), b"a"),
    (b"'a''b\\x'", Some((Literal::Bytes, b"")), b"a'bx"),
    (
        b"'\\%\\_\\n\\0'",
        Some((Literal::Bytes, b"")),
        b"\\%\\_\n\0",
    ),
    (b"0x4a6B,", Some((Literal::Bytes, b",")), b"Jk"),
    // What begins with no literal leaves an empty buffer.
    (b"0x4", None, b""),
    (b"0xg", None, b""),
    (b"-", None, b""),
    (b"+5", None, b""),
    (b"-9223372036854775809", None, b""),
    (b"18446744073709551616", None, b""),
    (b"\"a\"", None, b""),
    (b"", None, b""),
];

/// Texts that are read in hexadecimal spelling, and by quotes are none. Of the last ones neither is a
/// literal.
const INTRODUCED: [(&[u8], Option<(Literal, &[u8])>, &[u8]); 8] = [
    (b"_utf8mb4 0x4a6B,", Some((Literal::Bytes, b",")), b"Jk"),
    (b"_binary 0xFF00)", Some((Literal::Bytes, b")")), b"\xff\0"),
    (b"_utf8mb4 0x", None, b""),
    (b"_utf8mb4 0x4", None, b""),
    (b"_utf8mb4  0x41", None, b""),
    (b"_UTF8MB4 0x41", None, b""),
    (b"_binary '4'", None, b""),
    (b"_latin1 0x41", None, b""),
];

/// The literal that stands first and what follows it. It is read once more where memory was refused.
fn literal_of<'a>(
    text: &'a [u8],
    buf: &mut Vec<u8>,
) -> Result<Option<(Literal, &'a [u8])>, AllocError> {
    let answer = read_literal(text, buf);
    if answer.is_err() {
        return read_literal(text, buf);
    }
    answer
}

/// The literal that comes first by a spelling, else as [`literal_of`] has it.
fn literal_by<'a>(
    text: &'a [u8],
    spelling: Spelling,
    buf: &mut Vec<u8>,
) -> Result<Option<(Literal, &'a [u8])>, AllocError> {
    let answer = read_literal_in(text, Mode::default(), spelling, buf);
    if answer.is_err() {
        return read_literal_in(text, Mode::default(), spelling, buf);
    }
    answer
}

fn assert_read(
    assert: &impl Assert,
    alloc: Global,
    text: &[u8],
    wanted: Option<(Literal, &[u8])>,
    bytes: &[u8],
) {
    let mut buf = copied(assert, alloc, b"before");
    let found = literal_of(text, &mut buf);
    assert.holds(found == Ok(wanted));
    assert_bytes(assert, buf.as_slice(), bytes);
}

#[test]
fn literals(rt: HostRuntime) {
    let assert = Asserting(&rt);
    for (text, wanted, bytes) in LITERALS {
        assert_read(&assert, rt.alloc(), text, wanted, bytes);
    }
    // A string that nothing closes.
    let mut buf = copied(&assert, rt.alloc(), b"before");
    assert_equal(&assert, literal_of(b"'open", &mut buf), Ok(None));
}

#[test]
fn introducers(rt: HostRuntime) {
    let assert = Asserting(&rt);
    for (text, wanted, bytes) in INTRODUCED {
        let mut buf = copied(&assert, rt.alloc(), b"before");
        let found = literal_by(text, Spelling::Hexadecimal, &mut buf);
        assert.holds(found == Ok(wanted));
        assert_bytes(&assert, buf.as_slice(), bytes);
        assert.holds(literal_by(text, Spelling::Quoted, &mut buf) == Ok(None));
        assert_bytes(&assert, buf.as_slice(), b"");
    }
    // The others are read in hexadecimal spelling as by quotes.
    for (text, wanted, bytes) in LITERALS {
        let mut buf = copied(&assert, rt.alloc(), b"before");
        let found = literal_by(text, Spelling::Hexadecimal, &mut buf);
        assert.holds(found == Ok(wanted));
        assert_bytes(&assert, buf.as_slice(), bytes);
    }
}
