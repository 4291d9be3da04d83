//! Parameter sets sent to a writer by a query that is kept.

use crate::sets::sets_of;
use crate::{LIMIT, STATEMENT, road_of};
use mysql_session::Query;
use std::alloc::Global;
use std::io;
use std::io::Write;

/// A writer that counts the bytes and keeps none.
#[derive(Clone, Copy)]
struct Counted {
    written: usize,
}

impl Write for Counted {
    fn write(&mut self, buf: &[u8]) -> io::Result<usize> {
        self.written = self.written.wrapping_add(buf.len());
        Ok(buf.len())
    }

    fn flush(&mut self) -> io::Result<()> {
        Ok(())
    }
}

/// Sends all sets that the bytes hold by one call to a writer, and so many times. Answers the bytes of one time.
#[unsafe(no_mangle)]
pub extern "C" fn mysql_bench_send_to(
    alloc: Global,
    query: &[u8],
    bytes: &[u8],
    count: usize,
    width: usize,
    road: u8,
    times: usize,
) -> usize {
    let Ok(sets) = sets_of(alloc, bytes, count, width) else {
        return 0;
    };
    let Ok(query) = Query::new(alloc, query, STATEMENT) else {
        return 0;
    };
    let mut counted = Counted { written: 0 };
    for _ in 0..times {
        counted.written = 0;
        if query
            .send_to(alloc, &sets, road_of(road), LIMIT, &mut counted)
            .is_err()
        {
            return 0;
        }
    }
    counted.written
}
