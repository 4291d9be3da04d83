//! What the program prints to outputs that take a byte at a time, that take nothing, and that can't be
//! flushed.

use crate::output::{Asserting, Limits, Output};
use mysql_command_line::Status::{Done, Failed, Refused};
use mysql_command_line::{Status, Texts, run};
use std::alloc::{AllocError, Global};
use std::io::ErrorKind;
use tests_support::{Assert, once_more};

/// The words, the input, what is printed, and the status.
type Row = (
    &'static [&'static str],
    &'static [u8],
    &'static [u8],
    Status,
);

const ONE_BY_TEXT: &[u8] = b"\x09\0\0\0\x03SELECT 1";

const RUNS: &[Row] = &[
    (
        &[],
        b"",
        b"09 00 00 00 03 53 45 4c 45 43 54 20 31\nset 0: 1\nend: whole\n",
        Done,
    ),
    (
        &["encode", "text", "1", "1000", "SELECT :a"],
        b"[{\"a\":1}]",
        ONE_BY_TEXT,
        Done,
    ),
    (
        &["audit", "1", "1000", "SELECT :a"],
        b"\x09\0\0\0\x03SELECT 1\x0d\0\0\0\x03SELECT 'xyz'",
        b"set 0: 1\nset 1: x78797a\nend: whole\n",
        Done,
    ),
    (
        &["follow", "1", "1000", "SELECT :a"],
        b"\x09\0\0\0\x03SELECT 1\x09\0\0\0\x03SELECT 2",
        b"set 0: 1\nset 1: 2\nend: whole\n",
        Done,
    ),
    (
        &["recode", "1", "1000", "SELECT 1"],
        ONE_BY_TEXT,
        b"\x09\0\0\0\x16SELECT 1\x0a\0\0\0\x17\x01\0\0\0\0\x01\0\0\0",
        Done,
    ),
    (
        &["encode", "bulk", "1", "1000", "SELECT 1"],
        b"[]",
        b"refused: NoPlaces\n",
        Refused,
    ),
    (&["Help"], b"", b"usage\n", Failed),
    (
        &["audit", "1", "3", "SELECT 1"],
        b"",
        b"bad limit\n",
        Failed,
    ),
    (
        &["encode", "text", "1", "1000", "SELECT 1"],
        b"",
        b"bad json\n",
        Failed,
    ),
];

fn owned(alloc: Global, words: &[&str]) -> Result<Vec<String>, AllocError> {
    let mut all = Vec::new(alloc);
    for word in words {
        all.push(String::from_str(alloc, word)?)?;
    }
    Ok(all)
}

/// How many bytes an output takes, whether it can be flushed, and whether the run prints all that is
/// wanted; else it fails.
type Way = (Limits, bool, bool);

/// An output that takes a byte at a time, one that takes nothing, and one that can't be flushed.
const WAYS: [Way; 3] = [
    ((1, usize::MAX, usize::MAX), true, true),
    ((1, usize::MAX, 0), true, false),
    ((usize::MAX, usize::MAX, usize::MAX), false, false),
];

/// Whether a run ends as it should over such an output. Else memory was refused.
fn ends_so(alloc: Global, words: &[String], row: Row, way: Way) -> bool {
    let (_, mut input, wanted, status) = row;
    let (limits, flushes, is_whole) = way;
    let mut output = Output::new(wanted, limits, ErrorKind::WriteZero, flushes);
    let found = run(alloc, words, Texts::Hexadecimal, &mut input, &mut output);
    if is_whole {
        found == status && output.is_wanted && output.wanted.is_empty()
    } else {
        found == Failed
    }
}

/// Asserts that a run ends as it should over each of the outputs.
fn assert_ends(assert: &impl Assert, alloc: Global, words: &[String], row: Row) {
    for way in &WAYS {
        let first = ends_so(alloc, words, row, *way);
        assert.holds(first || ends_so(alloc, words, row, *way));
    }
}

#[test]
fn outputs_of_the_program(rt: HostRuntime) {
    let assert = Asserting(&rt);
    let alloc = rt.alloc();
    for row in RUNS {
        let (words, _, _, _) = *row;
        let words = once_more(&assert, owned(alloc, words), owned(alloc, words));
        assert_ends(&assert, alloc, words.as_slice(), *row);
    }
}
