//! A whole connection, read with its rows lent. That it is read in pieces too is shown by conversations.

use crate::connection::{Asserting, CONNECTION, answer_of, begin, feed_turns};
use mysql_connection::{Connection, End, Fault, LentEvent, Reason};
use mysql_row_refs::{RowRef, ValueRef};
use std::alloc::Global;
use tests_support::assert_equal;

// How many events there were, and how many rows of one cell, 1, were lent.
type Counts = (usize, usize);

// Whether a row is lent whose one cell is 1.
fn is_one(row: Option<RowRef>) -> bool {
    let Some(row) = row else {
        return false;
    };
    match row.as_ref(0) {
        Some(ValueRef::Bytes(bytes)) => row.len() == 1 && bytes == b"1".as_slice(),
        _ => false,
    }
}

// Takes the next event, if one stands: how many rows of one cell, 1, were lent.
fn take_next(connection: &mut Connection) -> Result<Option<usize>, Fault> {
    match connection.next_event_lent() {
        Ok(Some(LentEvent::Event(_event))) => Ok(Some(0)),
        Ok(Some(LentEvent::Row)) => Ok(Some(usize::from(is_one(connection.row())))),
        Ok(None) => Ok(None),
        Err(failure) => Err(failure.fault),
    }
}

// Reads both streams.
fn read_all(connection: &mut Connection) -> Result<Counts, Fault> {
    feed_turns(connection, CONNECTION)?;
    let (mut count, mut rows) = (0usize, 0usize);
    for _ in 0..20 {
        match take_next(connection)? {
            Some(more) => {
                count = count.wrapping_add(1);
                rows = rows.wrapping_add(more);
            }
            None => break,
        }
    }
    Ok((count, rows))
}

// Reads the connection. Answers what was counted, and how it ends.
fn read(alloc: Global) -> Result<(Counts, End), Fault> {
    let mut connection = begin(alloc, None);
    match read_all(&mut connection) {
        Ok(counts) => Ok((counts, connection.finish())),
        Err(fault) => Err(fault),
    }
}

#[test]
fn rows_are_lent(rt: HostRuntime) {
    let assert = Asserting(&rt);
    let found = answer_of(&assert, read(rt.alloc()), read(rt.alloc()));
    assert_equal(&assert, found, ((16, 1), End::Over(Reason::Quit)));
}
