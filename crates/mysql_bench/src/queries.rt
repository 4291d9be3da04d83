//! Placeholders of queries.

use mysql_values::places;
use std::alloc::Global;

/// Finds the placeholders of a query, so many times. Answers how many there are.
#[unsafe(no_mangle)]
pub extern "C" fn mysql_bench_places(alloc: Global, query: &[u8], times: usize) -> usize {
    let mut count: usize = 0;
    for _ in 0..times {
        match places(alloc, query) {
            Ok(found) => count = found.len(),
            Err(_) => return 0,
        }
    }
    count
}
