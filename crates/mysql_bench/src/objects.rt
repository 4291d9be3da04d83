//! Lists of objects sent.

use crate::sets::values_of;
use crate::{LIMIT, STATEMENT, road_of};
use mysql_session::{Road, ToValue, send_values};
use mysql_wire::{ParseBuf, WireError};
use std::alloc::Global;

/// Sends the lists so many times, into a buffer that is emptied before each. Answers the bytes of the last time.
fn sent(
    alloc: Global,
    query: &[u8],
    lists: &[Vec<Box<dyn ToValue + Drop>>],
    road: Road,
    times: usize,
) -> usize {
    let mut out = Vec::new(alloc);
    for _ in 0..times {
        out.clear();
        if send_values(alloc, query, lists, road, STATEMENT, LIMIT, &mut out).is_err() {
            return 0;
        }
    }
    out.len()
}

/// Makes so many lists of so many objects, and sends them.
fn made_and_sent(
    alloc: Global,
    query: &[u8],
    bytes: &[u8],
    count: usize,
    width: usize,
    road: Road,
    times: usize,
) -> Result<usize, WireError> {
    let mut buf = ParseBuf(bytes);
    let mut lists = Vec::new(alloc);
    for _ in 0..count {
        let mut objects: Vec<Box<dyn ToValue + Drop>> = Vec::new(alloc);
        for value in values_of(alloc, &mut buf, width)? {
            objects.push(Box::new(alloc, value)?)?;
        }
        lists.push(objects)?;
    }
    Ok(sent(alloc, query, &lists, road, times))
}

/// Sends lists of objects with the values that the bytes hold, all by one call.
#[unsafe(no_mangle)]
pub extern "C" fn mysql_bench_send_values(
    alloc: Global,
    query: &[u8],
    bytes: &[u8],
    count: usize,
    width: usize,
    road: u8,
    times: usize,
) -> usize {
    made_and_sent(alloc, query, bytes, count, width, road_of(road), times).unwrap_or(0)
}
