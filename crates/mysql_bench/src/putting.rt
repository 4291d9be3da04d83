//! Events that are put on a connection: commands, executions of values and rows.

use crate::cells::rows_of;
use crate::connections::{LIMITS, feed};
use crate::rows::{CAPABILITIES, kind_of};
use crate::sets::sets_of;
use crate::{LIMIT, STATEMENT};
use mysql_connection::{Capabilities, Connection, Event, MariadbCapabilities, Side};
use mysql_session::{Params, Row, read_reply};
use std::alloc::{AllocError, Global};

/// A connection behind its login, of the protocol of 4.1 with EOF packets.
fn logged_in(alloc: Global) -> Connection {
    let capabilities = Capabilities {
        protocol: CAPABILITIES,
        mariadb: MariadbCapabilities(0),
    };
    Connection::after_login(alloc, LIMITS, capabilities)
}

/// What comes next, where it can be read.
fn next_of(connection: &mut Connection) -> Option<Event> {
    connection.next_event().ok().flatten()
}

/// Feeds a reply, and takes its events, of which there are fewer than bytes.
fn read_answer(connection: &mut Connection, reply: &[u8]) {
    if feed(connection, Side::Server, reply) {
        for _ in reply {
            if next_of(connection).is_none() {
                return;
            }
        }
    }
}

/// The next command, where one is among so many events.
fn next_command(connection: &mut Connection, most: usize) -> Option<Event> {
    for _ in 0..most {
        let event = next_of(connection)?;
        if event.side() == Side::Client {
            return Some(event);
        }
    }
    None
}

/// The commands of a stream that a connection reads, where the first has this reply and each other
/// that.
fn commands_on(
    alloc: Global,
    connection: &mut Connection,
    commands: &[u8],
    first: &[u8],
    reply: &[u8],
) -> Result<Vec<Event>, AllocError> {
    let mut found = Vec::new(alloc);
    let mut said = first;
    // There are fewer events of a reply than bytes.
    let most = first.len().max(reply.len()).saturating_add(1);
    if feed(connection, Side::Client, commands) {
        for _ in commands {
            match next_command(connection, most) {
                Some(event) => found.push(event)?,
                None => return Ok(found),
            }
            let _fed = feed(connection, Side::Server, said);
            said = reply;
        }
    }
    Ok(found)
}

/// The commands of a stream, where the first has this reply and each other that.
fn commands_of(
    alloc: Global,
    commands: &[u8],
    first: &[u8],
    reply: &[u8],
) -> Result<Vec<Event>, AllocError> {
    let mut connection = logged_in(alloc);
    commands_on(alloc, &mut connection, commands, first, reply)
}

/// Puts an event. Answers the bytes.
#[inline(never)]
fn put_one(connection: &mut Connection, event: &Event, out: &mut Vec<u8>) -> usize {
    match connection.put(event, out) {
        Ok(()) => out.len(),
        Err(_) => 0,
    }
}

/// Puts commands, each into a buffer that is emptied before, and reads the reply to each. Answers the
/// bytes.
fn put_commands(
    connection: &mut Connection,
    commands: &[Event],
    first: &[u8],
    reply: &[u8],
    out: &mut Vec<u8>,
) -> usize {
    let mut written: usize = 0;
    let mut said = first;
    for command in commands {
        out.clear();
        written = written.wrapping_add(put_one(connection, command, out));
        read_answer(connection, said);
        said = reply;
    }
    written
}

/// Puts the commands of a stream on a connection, and feeds and reads the reply to each.
///
/// The first has one reply and each other another. All of them are put so many times, each time on
/// a new connection. Answers the bytes of one time.
#[unsafe(no_mangle)]
pub extern "C" fn mysql_bench_put_commands(
    alloc: Global,
    commands: &[u8],
    first: &[u8],
    reply: &[u8],
    times: usize,
) -> usize {
    let Ok(events) = commands_of(alloc, commands, first, reply) else {
        return 0;
    };
    let mut out = Vec::new(alloc);
    let mut written: usize = 0;
    for _ in 0..times {
        let mut connection = logged_in(alloc);
        written = put_commands(&mut connection, &events, first, reply, &mut out);
    }
    written
}

/// Puts an execution of a set. Answers the bytes.
#[inline(never)]
fn put_set(connection: &mut Connection, set: &Params, out: &mut Vec<u8>) -> usize {
    match set {
        Params::Positional(list) if connection.put_execution(STATEMENT, list, out).is_ok() => {
            out.len()
        }
        _ => 0,
    }
}

/// Puts executions of sets, each into a buffer that is emptied before, and reads the reply to each.
/// Answers the bytes.
fn put_sets(
    connection: &mut Connection,
    sets: &[Params],
    reply: &[u8],
    out: &mut Vec<u8>,
) -> usize {
    let mut written: usize = 0;
    for set in sets {
        out.clear();
        written = written.wrapping_add(put_set(connection, set, out));
        read_answer(connection, reply);
    }
    written
}

/// Puts executions of the sets that the bytes hold on a connection, and feeds and reads the reply to
/// each.
///
/// The first commands of a stream are put before: a prepare, and executions by which the types of all
/// sets are in force. All sets are put so many times. Answers the bytes of one time.
#[unsafe(no_mangle)]
pub extern "C" fn mysql_bench_put_sets(
    alloc: Global,
    commands: &[u8],
    first: &[u8],
    bytes: &[u8],
    count: usize,
    width: usize,
    reply: &[u8],
    times: usize,
) -> usize {
    let Ok(sets) = sets_of(alloc, bytes, count, width) else {
        return 0;
    };
    let Ok(events) = commands_of(alloc, commands, first, reply) else {
        return 0;
    };
    let mut connection = logged_in(alloc);
    let mut out = Vec::new(alloc);
    let front = &events[..events.len().min(3)];
    let mut written = put_commands(&mut connection, front, first, reply, &mut out);
    for _ in 0..times {
        written = put_sets(&mut connection, &sets, reply, &mut out);
    }
    written
}

/// Puts packets of a side. Answers whether they were put.
fn put_all(connection: &mut Connection, side: Side, packets: &[u8], out: &mut Vec<u8>) -> bool {
    connection.put_packets(side, packets, out).is_ok()
}

/// Puts rows by their cells. Answers whether all were put.
fn put_cells(connection: &mut Connection, rows: &[Row], out: &mut Vec<u8>) -> bool {
    for row in rows {
        if connection.put_row(row, out).is_err() {
            return false;
        }
    }
    true
}

/// Puts events. Answers whether all were put.
fn put_events(connection: &mut Connection, events: &[Event], out: &mut Vec<u8>) -> bool {
    for event in events {
        if connection.put(event, out).is_err() {
            return false;
        }
    }
    true
}

/// A prepare and its reply, a command, the packets before its reply's rows, and those behind them.
type Parts<'a> = [&'a [u8]; 5];

/// Puts a prepare and its reply. Answers whether they were put.
fn put_prepare(connection: &mut Connection, parts: Parts<'_>, out: &mut Vec<u8>) -> bool {
    let [prepare, prepared, _, _, _] = parts;
    put_all(connection, Side::Client, prepare, out)
        && put_all(connection, Side::Server, prepared, out)
}

/// Puts a command and the packets before its reply's rows. Answers whether they were put.
fn put_before(connection: &mut Connection, parts: Parts<'_>, out: &mut Vec<u8>) -> bool {
    let [_, _, command, before, _] = parts;
    put_all(connection, Side::Client, command, out)
        && put_all(connection, Side::Server, before, out)
}

/// Puts a command, and its reply with rows by their cells and as events, so many times, into a buffer
/// that is emptied before each. Answers the bytes of the last time.
fn put_replies(
    connection: &mut Connection,
    parts: Parts<'_>,
    cells: &[Row],
    events: &[Event],
    times: usize,
    out: &mut Vec<u8>,
) -> usize {
    let [_, _, _, _, behind] = parts;
    let mut are_put = put_prepare(connection, parts, out);
    for _ in 0..times {
        out.clear();
        are_put = are_put
            && put_before(connection, parts, out)
            && put_cells(connection, cells, out)
            && put_events(connection, events, out)
            && put_all(connection, Side::Server, behind, out);
    }
    if are_put { out.len() } else { 0 }
}

/// The events of rows behind what comes before them, of which there are fewer than bytes.
fn events_of(alloc: Global, parts: Parts<'_>, rows: &[u8]) -> Result<Vec<Event>, AllocError> {
    let mut connection = logged_in(alloc);
    let mut out = Vec::new(alloc);
    let mut found = Vec::new(alloc);
    if put_prepare(&mut connection, parts, &mut out)
        && put_before(&mut connection, parts, &mut out)
        && feed(&mut connection, Side::Server, rows)
    {
        for _ in rows {
            match next_of(&mut connection) {
                Some(event) => found.push(event)?,
                None => return Ok(found),
            }
        }
    }
    Ok(found)
}

/// Puts a command and its reply on one connection so many times, rows by cells or as events.
///
/// The buffer is emptied before each time. The rows are in the reply's stream from one position to
/// another. A prepare and its reply are put before, where there are any. Answers the bytes of one
/// time.
#[unsafe(no_mangle)]
pub extern "C" fn mysql_bench_put_rows(
    alloc: Global,
    prepare: &[u8],
    prepared: &[u8],
    command: &[u8],
    stream: &[u8],
    from: usize,
    to: usize,
    binary: bool,
    by_event: bool,
    times: usize,
) -> usize {
    let (before, rest) = stream.split_at(from.min(stream.len()));
    let (rows, behind) = rest.split_at(to.saturating_sub(from).min(rest.len()));
    let parts = [prepare, prepared, command, before, behind];
    let mut connection = logged_in(alloc);
    let mut out = Vec::new(alloc);
    if by_event {
        let Ok(events) = events_of(alloc, parts, rows) else {
            return 0;
        };
        return put_replies(&mut connection, parts, &[], &events, times, &mut out);
    }
    let reply = read_reply(alloc, kind_of(binary), CAPABILITIES, 1, LIMIT, &[stream]);
    put_replies(
        &mut connection,
        parts,
        rows_of(&reply),
        &[],
        times,
        &mut out,
    )
}
