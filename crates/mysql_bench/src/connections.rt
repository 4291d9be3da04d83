//! Rows of a whole connection, lent and looked at.

ghost use Rattle.std.specs.Prelude.{◌<◌};

use crate::LIMIT;
use crate::rows::sum_of;
use mysql_connection::{Connection, ConnectionFault, LentEvent, Limits, Side};
use std::alloc::Global;

/// Packets of each side as large as elsewhere here, and as much for what is kept.
pub const LIMITS: Limits = Limits {
    client: LIMIT,
    server: LIMIT,
    held: 201326592,
};

/// What the cells of the row that is lent come to, and 1 for the row.
fn sum_of_lent(connection: &Connection) -> usize {
    match connection.row() {
        Some(row) => sum_of(&row),
        None => 0,
    }
}

/// Takes the events that are there, at most so many, and looks at each row where it lies. Answers
/// what the rows come to, and 1 for each other event.
fn lent_events(connection: &mut Connection, most: usize) -> Result<usize, ConnectionFault> {
    let mut sum: usize = 0;
    for _ in 0..most {
        let more = match connection.next_event_lent()? {
            Some(LentEvent::Row) => sum_of_lent(connection),
            Some(LentEvent::Event(_)) => 1,
            None => return Ok(sum),
        };
        sum = sum.wrapping_add(more);
    }
    Ok(sum)
}

/// Feeds bytes of a side: whether they were taken. Only this calls `feed`, whose promise is long.
pub fn feed(connection: &mut Connection, side: Side, bytes: &[u8]) -> bool {
    connection.feed(side, bytes).is_ok()
}

/// Reads a connection on by a piece of a side. Answers what the events come to.
fn sum_of_piece(connection: &mut Connection, side: Side, piece: &[u8]) -> usize {
    if !feed(connection, side, piece) {
        return 0;
    }
    // There are fewer events than bytes, but for a byte of the other side.
    lent_events(connection, piece.len().saturating_add(1)).unwrap_or(0)
}

/// Reads a connection, and looks at each row where it lies.
///
/// The client's bytes come first, and then the server's in pieces of a size. Answers what the rows
/// come to, and 1 for each other event.
#[unsafe(no_mangle)]
pub extern "C" fn mysql_bench_read_connection_lent(
    alloc: Global,
    client: &[u8],
    server: &[u8],
    size: usize,
) -> usize
    requires { 0 < size }
{
    let mut connection = Connection::new(alloc, LIMITS);
    let mut sum = sum_of_piece(&mut connection, Side::Client, client);
    for piece in server.chunks(size) {
        sum = sum.wrapping_add(sum_of_piece(&mut connection, Side::Server, piece));
    }
    sum
}
