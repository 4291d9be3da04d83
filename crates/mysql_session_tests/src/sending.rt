//! Sets that are written to a writer that takes them in pieces, and to one that fails.
//!
//! The streams are in bindings/testing/rows/sessions, with what their prefixes say. What is written
//! of sets of which one is refused is in rows of `conformance`.

use crate::output::{Asserting, Limits, Output};
use mysql_session::{Params, Query, Refusal, Road, SendToError, send};
use std::alloc::{AllocError, Global};
use std::io::ErrorKind;
use tests_support::{Assert, Given, given_value, once_more};

/// The query of all sets.
const QUERY: &[u8] = b"SELECT ?";

/// A set of one value.
fn set_of(alloc: Global, given: Given) -> Result<Params, AllocError> {
    let mut values = Vec::new(alloc);
    values.push(given_value(alloc, given)?)?;
    Ok(Params::Positional(values))
}

/// Sets that are given.
fn sets_of(alloc: Global, given: &[Given]) -> Result<Vec<Params>, AllocError> {
    let mut sets = Vec::new(alloc);
    for one in given {
        sets.push(set_of(alloc, *one)?)?;
    }
    Ok(sets)
}

/// The stream of sets.
fn stream_of(alloc: Global, sets: &[Params], road: Road) -> Result<Vec<u8>, Refusal> {
    let mut out = Vec::new(alloc);
    match send(alloc, QUERY, sets, road, 1, 30000, &mut out) {
        Ok(()) => Ok(out),
        Err(refusal) => Err(refusal),
    }
}

/// What is sent, by which method; how many of the sets can be; to which writer; how it fails, and
/// how many bytes it took.
type Row = (
    Road,
    &'static [Given],
    usize,
    Limits,
    Option<ErrorKind>,
    usize,
);

/// Sends sets to a writer by a query that is kept, with the id 1.
fn sent_to(
    alloc: Global,
    sets: &[Params],
    road: Road,
    to: &mut Output<'_>,
) -> Result<(), SendToError> {
    match Query::new(alloc, QUERY, 1) {
        Ok(query) => query.send_to(alloc, sets, road, 30000, to),
        Err(refusal) => Err(SendToError::Refused(refusal, 0)),
    }
}

/// Sends sets to a writer; once more, to the same one as it was before, where memory was refused.
fn sent_to_at_last(
    assert: &impl Assert,
    alloc: Global,
    sets: &[Params],
    road: Road,
    to: &mut Output<'_>,
) -> Result<(), SendToError> {
    let before = *to;
    match sent_to(alloc, sets, road, to) {
        Err(SendToError::Refused(Refusal::Memory, _)) => {
            // What it was given is a front of what is sent.
            assert.holds(to.is_wanted);
            *to = before;
            sent_to(alloc, sets, road, to)
        }
        answer => answer,
    }
}

/// Whether a call answers that the writer failed so; None where it didn't fail.
fn is_answer(answer: Result<(), SendToError>, wanted: Option<ErrorKind>) -> bool {
    match answer {
        Ok(()) => wanted.is_none(),
        Err(SendToError::Io(error)) => Some(error.kind()) == wanted,
        Err(SendToError::Refused(_, _)) => false,
    }
}

/// Asserts what sending to a writer answers, and that what it took is a prefix of the stream, of so
/// many bytes.
fn assert_taken(assert: &impl Assert, alloc: Global, sets: &[Params], stream: &[u8], row: Row) {
    let (road, _, _, limits, failure, taken) = row;
    let kind = failure.unwrap_or(ErrorKind::Other);
    let mut to = Output::new(stream, limits, kind, true);
    let answer = sent_to_at_last(assert, alloc, sets, road, &mut to);
    assert.holds(is_answer(answer, failure));
    assert.holds(to.is_wanted && !to.is_flushed);
    assert.holds(stream.get(taken..) == Some(to.wanted));
}

/// Asserts what sending to a writer answers.
fn assert_sent_to(assert: &impl Assert, alloc: Global, row: Row) {
    let (road, given, count, _, _, _) = row;
    let sets = once_more(assert, sets_of(alloc, given), sets_of(alloc, given));
    let (first, _) = sets.split_at(count.min(sets.len()));
    let stream = once_more(
        assert,
        stream_of(alloc, first, road),
        stream_of(alloc, first, road),
    );
    assert_taken(assert, alloc, &sets, &stream, row);
}

const ANY: usize = usize::MAX;

const X: Given = Given::Filled(1);

/// By text packets of 15, 20014, 16, 5014, 5014 and 15 bytes. By execute one of 13, and behind it
/// of 20, 20021, 18, 5021, 5021 and 20. Each of both gathers two of them or three, then three, and
/// then one. By bulk packets of 13, 25025 and 5018 bytes.
const SETS: &[Given] = &[
    X,
    Given::Filled(20000),
    Given::Null,
    Given::Filled(5000),
    Given::Filled(5000),
    X,
];

const RESET: Option<ErrorKind> = Some(ErrorKind::ConnectionReset);

const FULL: Option<ErrorKind> = Some(ErrorKind::WriteZero);

/// Bytes that are taken one by one, by sevens, and in as few writes as there are lots.
///
/// Then writers that fail behind so many bytes: in a lot, between two, and behind a packet within
/// one. Then writers that fail behind one write: a lot has 8192 bytes at least. By text a packet
/// has 14 bytes more than its `x`. By execute the prepare has 13, and an execution 18 more, or 20
/// where their number takes three.
const ROWS: [Row; 27] = [
    (Road::Text, SETS, 6, (1, ANY, ANY), None, 30088),
    (Road::Text, SETS, 6, (7, ANY, ANY), None, 30088),
    (Road::Text, SETS, 6, (ANY, 3, ANY), None, 30088),
    (Road::Execute, SETS, 6, (1, ANY, ANY), None, 30134),
    (Road::Execute, SETS, 6, (7, ANY, ANY), None, 30134),
    (Road::Execute, SETS, 6, (ANY, 3, ANY), None, 30134),
    (Road::Bulk, SETS, 6, (1, ANY, ANY), None, 30056),
    (Road::Bulk, SETS, 6, (7, ANY, ANY), None, 30056),
    (Road::Bulk, SETS, 6, (ANY, 1, ANY), None, 30056),
    // Without sets nothing is written by text.
    (Road::Text, &[], 0, (ANY, 0, ANY), None, 0),
    (Road::Execute, &[], 0, (1, ANY, 13), None, 13),
    (Road::Text, SETS, 6, (ANY, ANY, 0), RESET, 0),
    (Road::Text, SETS, 6, (ANY, ANY, 10000), RESET, 10000),
    (Road::Text, SETS, 6, (ANY, ANY, 20029), RESET, 20029),
    (Road::Text, SETS, 6, (ANY, ANY, 20045), FULL, 20045),
    (Road::Execute, SETS, 6, (ANY, ANY, 5), FULL, 5),
    (Road::Execute, SETS, 6, (ANY, ANY, 13), RESET, 13),
    (Road::Execute, SETS, 6, (ANY, ANY, 20054), FULL, 20054),
    (Road::Execute, SETS, 6, (7, ANY, 20060), RESET, 20060),
    (Road::Execute, SETS, 6, (ANY, ANY, 30113), RESET, 30113),
    (Road::Bulk, SETS, 6, (7, ANY, 25038), FULL, 25038),
    (Road::Bulk, SETS, 6, (ANY, ANY, 30055), RESET, 30055),
    // The writer fails at what stands before a set that is refused.
    (
        Road::Text,
        &[X, Given::Null, Given::Float(0)],
        2,
        (ANY, ANY, 20),
        RESET,
        20,
    ),
    (
        Road::Text,
        &[Given::Filled(8178), X],
        2,
        (ANY, 1, ANY),
        RESET,
        8192,
    ),
    (
        Road::Text,
        &[Given::Filled(8177), X, X],
        3,
        (ANY, 1, ANY),
        RESET,
        8206,
    ),
    (
        Road::Execute,
        &[Given::Filled(8158), X],
        2,
        (ANY, 1, ANY),
        RESET,
        8192,
    ),
    (
        Road::Execute,
        &[Given::Filled(8157), X, X],
        3,
        (ANY, 1, ANY),
        RESET,
        8211,
    ),
];

#[test]
fn sets_to_writers(rt: HostRuntime) {
    for row in &ROWS {
        assert_sent_to(&Asserting(&rt), rt.alloc(), *row);
    }
}
