//! The calls of a connection, each with what it has to answer.

use crate::troubles::Trouble;
use mysql_connection_lines::{Secrets, write_end, write_event, write_lent_row};
use mysql_connection_machine::{Connection, ConnectionFault, End, FeedRefusal, LentEvent};
use mysql_connection_rules::{Fault, Limits, Reason, Side};
use mysql_connection_state::{Event, Phase};
use mysql_const::Capabilities;
use std::alloc::Global;

/// What comes next.
#[derive(Clone, Copy)]
pub enum Next {
    Line,
    Nothing,
    Failed,
}

/// A connection at its greeting, or behind a login.
pub fn begin(alloc: Global, limits: Limits, in_force: Option<Capabilities>) -> Connection {
    match in_force {
        Some(capabilities) => Connection::after_login(alloc, limits, capabilities),
        None => Connection::new(alloc, limits),
    }
}

/// Feeds as much of a piece as there is room for, once more where memory is refused, and returns how
/// much. A longer one has to be refused, and to change nothing.
pub fn feed(connection: &mut Connection, side: Side, piece: &[u8]) -> Result<usize, Trouble> {
    let front = piece.get(..connection.room(side)).unwrap_or(piece);
    let is_cut = front.len() < piece.len();
    if is_cut && !matches!(connection.feed(side, piece), Err(FeedRefusal::Held)) {
        return Err(Trouble::Feed);
    }
    let fed = match connection.feed(side, front) {
        Err(FeedRefusal::Memory) => connection.feed(side, front),
        answer => answer,
    };
    match fed {
        Ok(()) => Ok(front.len()),
        Err(FeedRefusal::Memory) => Err(Trouble::Memory),
        Err(_) => Err(Trouble::Feed),
    }
}

/// Closes both streams, of which no more is taken then.
pub fn close(connection: &mut Connection) -> Result<(), Trouble> {
    connection.close(Side::Client);
    connection.close(Side::Server);
    match connection.feed(Side::Client, b"more") {
        Err(FeedRefusal::Closed) => Ok(()),
        _ => Err(Trouble::Feed),
    }
}

/// Appends an event's line, with all bytes.
pub fn put_event(event: &Event, text: &mut Vec<u8>) -> Result<(), Trouble> {
    write_event(text, event, Secrets::Shown)?;
    text.extend_from_slice(b"\n")?;
    Ok(())
}

/// Appends the line of the row that is lent.
fn put_row(connection: &Connection, text: &mut Vec<u8>) -> Result<Next, Trouble> {
    let Some(row) = connection.row() else {
        return Err(Trouble::Row);
    };
    write_lent_row(text, &row)?;
    text.extend_from_slice(b"\n")?;
    Ok(Next::Line)
}

/// Takes what comes next, of which a row is lent or is an event as any other.
fn take_next(
    connection: &mut Connection,
    lent: bool,
) -> Result<Option<LentEvent>, ConnectionFault> {
    if lent {
        return connection.next_event_lent();
    }
    match connection.next_event() {
        Ok(Some(event)) => Ok(Some(LentEvent::Event(event))),
        Ok(None) => Ok(None),
        Err(failure) => Err(failure),
    }
}

/// Appends the line of what comes next, of which a row is lent or is an event as any other.
pub fn put_next(
    connection: &mut Connection,
    lent: bool,
    text: &mut Vec<u8>,
) -> Result<Next, Trouble> {
    match take_next(connection, lent) {
        Ok(Some(LentEvent::Row)) => put_row(connection, text),
        Ok(Some(LentEvent::Event(event))) => match put_event(&event, text) {
            Ok(()) if connection.row().is_some() => Err(Trouble::Row),
            Ok(()) => Ok(Next::Line),
            Err(trouble) => Err(trouble),
        },
        Ok(None) => Ok(Next::Nothing),
        Err(failure) if matches!(failure.fault, Fault::Memory) => Err(Trouble::Memory),
        Err(_) => Ok(Next::Failed),
    }
}

/// Appends the lines of all events that come.
pub fn put_lines(connection: &mut Connection, text: &mut Vec<u8>) -> Result<(), Trouble> {
    for _ in 0..u64::MAX {
        if !matches!(put_next(connection, false, text)?, Next::Line) {
            break;
        }
    }
    Ok(())
}

/// Appends the line of an end.
pub fn put_end(end: End, text: &mut Vec<u8>) -> Result<(), Trouble> {
    write_end(text, end)?;
    text.extend_from_slice(b"\n")?;
    Ok(())
}

/// Whether a connection that waits for more or is over is as an end says, by what else it tells.
pub fn is_told(end: End, connection: &Connection) -> bool {
    let client = connection.rest(Side::Client);
    let server = connection.rest(Side::Server);
    let is_read = client.is_empty() && server.is_empty();
    let told = match (connection.turn(), connection.phase()) {
        (Some(_), Phase::Command) if is_read => End::Whole,
        (Some(side), _) => End::Unfinished(side),
        (None, Phase::Over(Reason::Quit)) if !client.is_empty() => End::Unread,
        (None, Phase::Over(reason)) => End::Over(reason),
        (None, _) => End::Unread,
    };
    match end {
        End::Unread => false,
        End::Fault(_) => true,
        end => end == told,
    }
}
