//! Parameter sets sent by a query that is kept.

use crate::sets::sets_of;
use crate::{LIMIT, STATEMENT, road_of};
use mysql_session::{Params, Query, Refusal, Road};
use std::alloc::Global;
use std::slice;

/// Sends a set: by one command, or as an execution of a statement that was prepared before.
fn send_one(
    alloc: Global,
    query: &Query<'_>,
    set: &Params,
    road: Road,
    is_prepared: bool,
    out: &mut Vec<u8>,
) -> Result<(), Refusal> {
    match set {
        Params::Positional(list) if is_prepared => {
            query.send_more(alloc, 0, slice::from_ref(list), LIMIT, out)
        }
        set => query.send(alloc, slice::from_ref(set), road, LIMIT, out),
    }
}

/// Sends the sets, each by a call, into a buffer that is emptied before. Answers the bytes.
fn sent(
    alloc: Global,
    query: &Query<'_>,
    sets: &[Params],
    road: Road,
    is_prepared: bool,
    out: &mut Vec<u8>,
) -> usize {
    let mut written: usize = 0;
    for set in sets {
        out.clear();
        if send_one(alloc, query, set, road, is_prepared, out).is_err() {
            return 0;
        }
        written = written.wrapping_add(out.len());
    }
    written
}

/// Sends the sets that the bytes hold by one query, or as executions of its statement, which was
/// prepared before.
///
/// Each goes by a call, and all of them so many times. Answers the bytes of one time.
#[unsafe(no_mangle)]
pub extern "C" fn mysql_bench_send_kept(
    alloc: Global,
    query: &[u8],
    bytes: &[u8],
    count: usize,
    width: usize,
    road: u8,
    is_prepared: bool,
    times: usize,
) -> usize {
    let Ok(sets) = sets_of(alloc, bytes, count, width) else {
        return 0;
    };
    let Ok(query) = Query::new(alloc, query, STATEMENT) else {
        return 0;
    };
    let mut out = Vec::new(alloc);
    let mut written: usize = 0;
    for _ in 0..times {
        written = sent(alloc, &query, &sets, road_of(road), is_prepared, &mut out);
    }
    written
}
