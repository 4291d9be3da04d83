//! Sets of global transaction identifiers, as bytes and as texts, and tags of texts.

use crate::support::{Asserting, assert_prints, assert_reads, assert_writes, set, tag, tagged_set};
use mysql_fields::WireError;
use mysql_login::{GnoInterval, InvalidTag, Sid, SidBlock, SidError, Tag, UUID_LEN};
use std::borrow::{CowSlice, CowStr};
use std::cmp::Ordering;
use tests_support::{
    Assert, assert_answer, assert_copied, assert_equal, assert_same, once_more, whole,
};

// A set with the transactions 1 to 99.
const SET: &[u8] =
    b"aaaaaaaaaaaaaaaa\x01\x00\x00\x00\x00\x00\x00\x00\x01\x00\x00\x00\x00\x00\x00\x00\x64\x00\x00\x00\x00\x00\x00\x00";

// More intervals than there are bytes.
const MANY_INTERVALS: [(&[u8], WireError); 1] = [(
    b"aaaaaaaaaaaaaaaa\xff\xff\xff\xff\xff\xff\xff\xff",
    WireError::UnexpectedEof,
)];

// A block of two sets.
const BLOCK: &[u8] =
    b"\x00\x02\x00\x00\x00\x00\x00\x01aaaaaaaaaaaaaaaa\x06app\x01\x00\x00\x00\x00\x00\x00\x00\x01\
    \x00\x00\x00\x00\x00\x00\x00\x64\x00\x00\x00\x00\x00\x00\x00bbbbbbbbbbbbbbbb\x00\x01\x00\x00\
    \x00\x00\x00\x00\x00\x01\x00\x00\x00\x00\x00\x00\x00\x32\x00\x00\x00\x00\x00\x00\x00";

// A set is written without its tag; a block of sets has the length that it tells.
#[test]
fn sets_and_blocks(rt: HostRuntime) {
    let assert = Asserting(&rt);
    let alloc = rt.alloc();
    assert_reads::<Sid>(&assert, alloc, SET, SET.len(), &MANY_INTERVALS);
    let read = whole::<Sid, ()>(&assert, alloc, (), SET);
    let first = set(&assert, alloc, *b"aaaaaaaaaaaaaaaa", 100);
    assert_equal(&assert, read, first);
    assert_writes(&assert, alloc, tagged_set(&assert, alloc), SET);
    assert_reads::<SidBlock>(&assert, alloc, BLOCK, BLOCK.len(), &[]);
    let second = set(&assert, alloc, *b"bbbbbbbbbbbbbbbb", 50);
    let sids = [tagged_set(&assert, alloc), second];
    let block = SidBlock(CowSlice::Borrowed(&sids));
    assert_equal(&assert, block.byte_len() as usize, BLOCK.len());
    assert_writes(&assert, alloc, block, BLOCK);
    drop(sids);
}

// Ends that are no interval's. Of two causes the start that isn't below the end is told first.
const NO_INTERVALS: [(u64, u64, SidError); 3] = [
    (5, 5, SidError::StartNotBelowEnd),
    (0, 0, SidError::StartNotBelowEnd),
    (0, 1, SidError::ZeroGno),
];

// A tag makes a set another one.
#[test]
fn parts_of_sets(rt: HostRuntime) {
    let assert = Asserting(&rt);
    let alloc = rt.alloc();
    let interval = whole::<GnoInterval, ()>(&assert, alloc, (), &SET[24..]);
    assert_equal(&assert, (interval.start(), interval.end()), (1, 100));
    assert_writes(&assert, alloc, interval, &SET[24..]);
    assert_equal(&assert, GnoInterval::check_and_new(1, 100), Ok(interval));
    for (start, end, cause) in NO_INTERVALS {
        assert_equal(&assert, GnoInterval::check_and_new(start, end), Err(cause));
    }
    let plain = set(&assert, alloc, *b"aaaaaaaaaaaaaaaa", 100);
    let tagged = tagged_set(&assert, alloc);
    assert.holds((plain != tagged) & plain.tag().is_none());
    assert_equal(&assert, plain.uuid(), *b"aaaaaaaaaaaaaaaa");
    assert_equal(&assert, tagged.tag().map(|tag| tag.as_str()), Some("app"));
    assert_copied(&assert, &tagged, tagged.clone(alloc), tagged.clone(alloc));
    drop(plain);
    drop(tagged);
}

// ---- Texts ----

// The source is printed in lower case, and each interval in its shortest form. The last three are
// printed as they are. A number that doesn't stand first may have a plus.
const PRINTED: [(&str, &str); 9] = [
    (
        "3E11FA47-71CA-11E1-9E33-C80AA9429562:1-5:10-15",
        "3e11fa47-71ca-11e1-9e33-c80aa9429562:1-5:10-15",
    ),
    (
        "3E11FA47-71CA-11E1-9E33-C80AA9429562:domain_a:1-5:10-20",
        "3e11fa47-71ca-11e1-9e33-c80aa9429562:domain_a:1-5:10-20",
    ),
    (
        "3E11FA47-71CA-11E1-9E33-C80AA9429562:app:7",
        "3e11fa47-71ca-11e1-9e33-c80aa9429562:app:7",
    ),
    (
        "3E11FA47-71CA-11E1-9E33-C80AA9429562:4-4:007",
        "3e11fa47-71ca-11e1-9e33-c80aa9429562:4:7",
    ),
    (
        "3e11fa47-71ca-11e1-9e33-c80aa9429562:1-+5:+7-+8",
        "3e11fa47-71ca-11e1-9e33-c80aa9429562:1-5:7-8",
    ),
    (
        "3e11fa47-71ca-11e1-9e33-c80aa9429562:app:+7",
        "3e11fa47-71ca-11e1-9e33-c80aa9429562:app:7",
    ),
    (
        "3e11fa47-71ca-11e1-9e33-c80aa9429562:domain_a:1-5:10-20",
        "3e11fa47-71ca-11e1-9e33-c80aa9429562:domain_a:1-5:10-20",
    ),
    (
        "3e11fa47-71ca-11e1-9e33-c80aa9429562:42",
        "3e11fa47-71ca-11e1-9e33-c80aa9429562:42",
    ),
    (
        "3e11fa47-71ca-11e1-9e33-c80aa9429562:app:7",
        "3e11fa47-71ca-11e1-9e33-c80aa9429562:app:7",
    ),
];

// Texts that are refused. Of two faults the leftmost is told, and of an interval in its order.
const FAULTS: [(&str, SidError); 26] = [
    ("3E11FA47-71CA-11E1-9E33-C80AA9429562", SidError::NoColon),
    ("3E11FA47-71CA-11E1-9E33-C80AA94295620:1", SidError::BadUuid),
    ("3E11FA47-71CA-11E1-9E33-C80AA9429562:", SidError::Empty),
    (
        "3E11FA47-71CA-11E1-9E33-C80AA9429562:Tag:23",
        SidError::BadTag,
    ),
    (
        "3E11FA47-71CA-11E1-9E33-C80AA9429562:Tag",
        SidError::NoIntervals,
    ),
    (
        "3E11FA47-71CA-11E1-9E33-C80AA9429562:app",
        SidError::NoIntervals,
    ),
    (
        "3E11FA47-71CA-11E1-9E33-C80AA9429562:0-3",
        SidError::ZeroGno,
    ),
    (
        "3E11FA47-71CA-11E1-9E33-C80AA9429562:4-3",
        SidError::StartNotBelowEnd,
    ),
    (
        "3E11FA47-71CA-11E1-9E33-C80AA9429562:20-",
        SidError::BadInterval,
    ),
    (
        "3E11FA47-71CA-11E1-9E33-C80AA9429562:18446744073709551615",
        SidError::Overflow,
    ),
    ("xyz", SidError::NoColon),
    ("xyz:", SidError::BadUuid),
    (
        "3E11FA47-71CA-11E1-9E33-C80AA9429562:+5",
        SidError::NoIntervals,
    ),
    (
        "3E11FA47-71CA-11E1-9E33-C80AA9429562:+5:6",
        SidError::BadTag,
    ),
    ("3E11FA47-71CA-11E1-9E33-C80AA9429562::5", SidError::BadTag),
    (
        "3E11FA47-71CA-11E1-9E33-C80AA9429562:Tag:20-",
        SidError::BadTag,
    ),
    (
        "3E11FA47-71CA-11E1-9E33-C80AA9429562:app:",
        SidError::BadInterval,
    ),
    (
        "3E11FA47-71CA-11E1-9E33-C80AA9429562:1:",
        SidError::BadInterval,
    ),
    (
        "3E11FA47-71CA-11E1-9E33-C80AA9429562:0-3:20-",
        SidError::ZeroGno,
    ),
    (
        "3E11FA47-71CA-11E1-9E33-C80AA9429562:20-:0-3",
        SidError::BadInterval,
    ),
    (
        "3E11FA47-71CA-11E1-9E33-C80AA9429562:4-3:18446744073709551615",
        SidError::StartNotBelowEnd,
    ),
    (
        "3E11FA47-71CA-11E1-9E33-C80AA9429562:18446744073709551615:4-3",
        SidError::Overflow,
    ),
    (
        "3E11FA47-71CA-11E1-9E33-C80AA9429562:0-18446744073709551615",
        SidError::Overflow,
    ),
    (
        "3E11FA47-71CA-11E1-9E33-C80AA9429562:x-18446744073709551615",
        SidError::NoIntervals,
    ),
    (
        "3E11FA47-71CA-11E1-9E33-C80AA9429562:1:x-18446744073709551615",
        SidError::BadInterval,
    ),
    (
        "3E11FA47-71CA-11E1-9E33-C80AA9429562:1-18446744073709551616",
        SidError::BadInterval,
    ),
];

#[test]
fn texts_of_sets(rt: HostRuntime) {
    let assert = Asserting(&rt);
    let alloc = rt.alloc();
    for (text, wanted) in PRINTED {
        let sid = once_more(&assert, Sid::parse(alloc, text), Sid::parse(alloc, text));
        assert_prints(&assert, alloc, sid, wanted);
    }
    for (text, cause) in FAULTS {
        assert_answer(
            &assert,
            Sid::parse(alloc, text).err(),
            Sid::parse(alloc, text).err(),
            Some(SidError::Memory),
            Some(cause),
        );
    }
}

// Intervals that hold no number are printed too: an end of 0 as 0.
#[test]
fn sets_of_any_intervals(rt: HostRuntime) {
    let assert = Asserting(&rt);
    let alloc = rt.alloc();
    let text = "3E11FA47-71CA-11E1-9E33-C80AA9429562:1-5:10-15";
    let sid = once_more(&assert, Sid::parse(alloc, text), Sid::parse(alloc, text));
    let wanted = [GnoInterval::new(1, 6), GnoInterval::new(10, 16)];
    assert_same(&assert, &sid.intervals(), &wanted.as_slice());
    let intervals = [
        GnoInterval::new(5, 0),
        GnoInterval::new(0, 0),
        GnoInterval::new(7, 7),
        GnoInterval::new(3, 9),
    ];
    let first = Vec::from_slice(alloc, &intervals);
    let others = once_more(&assert, first, Vec::from_slice(alloc, &intervals));
    let sid = sid.with_intervals(others);
    assert_same(&assert, &sid.intervals(), &intervals.as_slice());
    let wanted = "3e11fa47-71ca-11e1-9e33-c80aa9429562:5-0:0-0:7-6:3-8";
    assert_prints(&assert, alloc, sid, wanted);
}

// ---- Tags ----

// Texts of tags in their order, which is that of their bytes.
const IN_ORDER: [&str; 8] = [
    "_",
    "a",
    "a1",
    "a_",
    "aa",
    "abcdefghijklmnopqrstuvwxyz123456",
    "b",
    "domain_1",
];

// Texts that are no tags.
const NO_TAGS: [(&str, InvalidTag); 5] = [
    ("", InvalidTag::Empty),
    ("abcdefghijklmnopqrstuvwxyzabcdefg", InvalidTag::TooLong(33)),
    ("1tag", InvalidTag::InvalidFirstChar('1')),
    ("tAg", InvalidTag::InvalidChar('A')),
    ("t\u{e9}g", InvalidTag::InvalidChar('\u{e9}')),
];

// Asserts how two texts are ordered as tags.
fn assert_order(assert: &impl Assert, texts: (&str, &str), wanted: Ordering) {
    let (one, other) = (tag(assert, texts.0), tag(assert, texts.1));
    assert.holds((one.as_str() == texts.0) & (other.as_str() == texts.1));
    let found = (one.cmp(&other), one.partial_cmp(&other));
    drop(one);
    drop(other);
    assert_equal(assert, found, (wanted, Some(wanted)));
}

#[test]
fn tags(rt: HostRuntime) {
    let assert = Asserting(&rt);
    assert_equal(&assert, (Tag::MAX_LEN, UUID_LEN), (32, 16));
    for at in 1..8 {
        let (one, other) = (IN_ORDER[at - 1], IN_ORDER[at]);
        assert_order(&assert, (one, other), Ordering::Less);
        assert_order(&assert, (other, one), Ordering::Greater);
        assert_order(&assert, (one, one), Ordering::Equal);
    }
    for (text, fault) in NO_TAGS {
        assert_equal(&assert, Tag::try_from(text).err(), Some(fault));
        let found = Tag::new(CowStr::Borrowed(text)).err();
        assert_equal(&assert, found, Some(fault));
    }
}
