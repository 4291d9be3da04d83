//! Cells of rows, by number and by name; and results written.

use crate::LIMIT;
use crate::rows::{CAPABILITIES, kind_of};
use mysql_session::{
    ColumnIndex, Reply, ReplyEnd, ReplyResult, Row, RowExt, read_reply, write_reply,
};
use std::alloc::Global;

/// The rows of the first result, where the reply is whole.
pub fn rows_of(reply: &Reply) -> &[Row] {
    match (reply.end, reply.results.first()) {
        (
            ReplyEnd::Whole,
            Some(
                ReplyResult::Rows {
                    columns: _,
                    rows,
                    terminator: _,
                },
            ),
        ) => rows,
        _ => &[],
    }
}

/// How many bytes a copy of a cell has.
fn text_len<I: ColumnIndex>(alloc: Global, row: &Row, index: I) -> usize {
    match row.get_opt::<Vec<u8>, I>(alloc, index) {
        Ok(Some(Ok(bytes))) => bytes.len(),
        _ => 0,
    }
}

/// The number in a cell, or 0.
fn number<I: ColumnIndex>(alloc: Global, row: &Row, index: I) -> usize {
    match row.get_opt::<Option<u64>, I>(alloc, index) {
        Ok(Some(Ok(Some(number)))) => number as usize,
        _ => 0,
    }
}

/// What the four cells of all rows come to: two numbers and two texts.
fn sum_of<I: ColumnIndex + Copy>(alloc: Global, rows: &[Row], places: [I; 4]) -> usize {
    let [id, name, note, age] = places;
    let mut sum: usize = 0;
    for row in rows {
        sum = sum
            .wrapping_add(number(alloc, row, id))
            .wrapping_add(text_len(alloc, row, name))
            .wrapping_add(text_len(alloc, row, note))
            .wrapping_add(number(alloc, row, age));
    }
    sum
}

/// Reads a reply, and then the four cells of each row so many times, by number or by name. Answers what they come to.
#[unsafe(no_mangle)]
pub extern "C" fn mysql_bench_cells(
    alloc: Global,
    stream: &[u8],
    binary: bool,
    by_name: bool,
    times: usize,
) -> usize {
    let reply = read_reply(alloc, kind_of(binary), CAPABILITIES, 1, LIMIT, &[stream]);
    let mut sum = 0;
    for _ in 0..times {
        let rows = rows_of(&reply);
        sum = if by_name {
            sum_of(alloc, rows, ["id", "name", "note", "age"])
        } else {
            sum_of(alloc, rows, [0usize, 1, 2, 3])
        };
    }
    sum
}

/// Reads a reply with its rows in binary or as text, and writes its results so many times.
///
/// The rows are written in binary or as text, into a buffer that is emptied before each. Answers
/// the bytes of one time.
#[unsafe(no_mangle)]
pub extern "C" fn mysql_bench_write_reply(
    alloc: Global,
    stream: &[u8],
    read_binary: bool,
    binary: bool,
    times: usize,
) -> usize {
    let reply = read_reply(
        alloc,
        kind_of(read_binary),
        CAPABILITIES,
        1,
        LIMIT,
        &[stream],
    );
    let kind = kind_of(binary);
    let mut out = Vec::new(alloc);
    for _ in 0..times {
        out.clear();
        if write_reply(
            alloc,
            kind,
            CAPABILITIES,
            1,
            LIMIT,
            &reply.results,
            &[],
            &mut out,
        )
        .is_err()
        {
            return 0;
        }
    }
    out.len()
}
