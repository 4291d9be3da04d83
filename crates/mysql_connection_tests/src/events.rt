//! Events that are put: those of a connection that was read give its bytes again.

use crate::connection::{Asserting, CONNECTION, Turn, answer_of, are_said, begin, feed_turns};
use mysql_connection::{
    Capabilities, CapabilityFlags, Connection, Event, Fault, MariadbCapabilities, PutRefusal,
    ReplyEvent, Side,
};
use std::alloc::Global;
use tests_support::Assert;

// What is said again, how many events that is, and where it begins; behind a login, rows are put as such.
type Told = (&'static [Turn], usize, Option<Capabilities>);

// A query, and a result of three rows: 1, 2 and NULL.
const ROWS: &[Turn] = &[
    (Side::Client, b"\x09\0\0\0\x03SELECT 1"),
    (
        Side::Server,
        b"\x01\0\0\x01\x01\
        \x17\0\0\x02\x03def\0\0\0\x011\0\x0c\x3f\0\0\0\0\0\xfd\x80\0\0\0\0\
        \x05\0\0\x03\xfe\0\0\x02\0\
        \x02\0\0\x04\x011\
        \x02\0\0\x05\x012\
        \x01\0\0\x06\xfb\
        \x05\0\0\x07\xfe\0\0\x02\0",
    ),
];

// The protocol of 4.1 with EOF packets.
const IN_FORCE: Capabilities = Capabilities {
    protocol: CapabilityFlags::CLIENT_PROTOCOL_41,
    mariadb: MariadbCapabilities(0),
};

const ALL: [Told; 2] = [(CONNECTION, 16, None), (ROWS, 8, Some(IN_FORCE))];

// Puts an event; a row as such where rows are.
fn put_once(
    connection: &mut Connection,
    rows_as_such: bool,
    event: &Event,
    out: &mut Vec<u8>,
) -> Result<(), PutRefusal> {
    if rows_as_such
        && let Event::Reply(said) = event
        && let ReplyEvent::Row(row) = &**said
    {
        return connection.put_row(row, out);
    }
    connection.put(event, out)
}

// Puts an event, for want of memory once more.
fn put(
    connection: &mut Connection,
    rows_as_such: bool,
    event: &Event,
    out: &mut Vec<u8>,
) -> Result<(), Fault> {
    let put = match put_once(connection, rows_as_such, event, out) {
        Err(PutRefusal::Memory) => put_once(connection, rows_as_such, event, out),
        answer => answer,
    };
    match put {
        Ok(()) => Ok(()),
        Err(_) => Err(Fault::Unasked),
    }
}

// Puts each event that stands on the connection that says them again. Answers how many there were.
fn say_events(
    source: &mut Connection,
    speaker: &mut Connection,
    rows_as_such: bool,
    out: &mut Vec<u8>,
) -> Result<usize, Fault> {
    let mut count: usize = 0;
    for _ in 0..20 {
        match source.next_event() {
            Ok(Some(event)) => put(speaker, rows_as_such, &event, out)?,
            Ok(None) => break,
            Err(failure) => return Err(failure.fault),
        }
        count = count.wrapping_add(1);
    }
    Ok(count)
}

// Reads what both sides say by one connection, and says it again by another.
fn read_and_say(
    source: &mut Connection,
    speaker: &mut Connection,
    told: Told,
    out: &mut Vec<u8>,
) -> Result<usize, Fault> {
    let (turns, _, in_force) = told;
    feed_turns(source, turns)?;
    say_events(source, speaker, in_force.is_some(), out)
}

// Says it again: whether all is as it was.
fn says(alloc: Global, told: Told) -> Result<bool, Fault> {
    let (turns, events, in_force) = told;
    let mut source = begin(alloc, in_force);
    let mut speaker = begin(alloc, in_force);
    let mut out = Vec::new(alloc);
    match read_and_say(&mut source, &mut speaker, told, &mut out) {
        Ok(count) => Ok(count == events && are_said(out.as_slice(), turns)),
        Err(fault) => Err(fault),
    }
}

#[test]
fn both_streams_again(rt: HostRuntime) {
    let assert = Asserting(&rt);
    for told in &ALL {
        let is_said = answer_of(&assert, says(rt.alloc(), *told), says(rt.alloc(), *told));
        assert.holds(is_said);
    }
}
