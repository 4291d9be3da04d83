//! Values converted.

use crate::sets::values_of;
use mysql_session::{Value, from_value_opt};
use mysql_wire::ParseBuf;
use std::alloc::Global;

/// The sum of the whole numbers that copies of values convert to.
fn sum_of(alloc: Global, values: &[Value]) -> i64 {
    let mut sum: i64 = 0;
    for value in values {
        if let Ok(copy) = value.clone(alloc) {
            sum = sum.wrapping_add(from_value_opt::<i64>(copy).unwrap_or(0));
        }
    }
    sum
}

/// Converts copies of the values that the bytes hold to whole numbers, so many times. Answers their sum.
#[unsafe(no_mangle)]
pub extern "C" fn mysql_bench_convert(
    alloc: Global,
    bytes: &[u8],
    count: usize,
    times: usize,
) -> i64 {
    let Ok(values) = values_of(alloc, &mut ParseBuf(bytes), count) else {
        return 0;
    };
    let mut sum = 0;
    for _ in 0..times {
        sum = sum_of(alloc, &values);
    }
    sum
}
