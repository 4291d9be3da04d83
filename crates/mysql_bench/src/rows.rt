//! Rows of replies that are lent, looked at where they lie, or kept in lists that all of them share.

ghost use Rattle.std.specs.Prelude.{◌<◌};

use crate::LIMIT;
use mysql_session::{
    CapabilityFlags, ReplyEnd, ReplyFault, ReplyKind, ReplyReader, RowRef, StoredRows, ValueRef,
};
use std::alloc::{AllocError, Global};

/// The protocol of 4.1, with EOF packets.
pub const CAPABILITIES: CapabilityFlags = CapabilityFlags::CLIENT_PROTOCOL_41;

/// The kind of a reply with its rows in binary or as text.
pub fn kind_of(binary: bool) -> ReplyKind {
    if binary {
        ReplyKind::Binary
    } else {
        ReplyKind::Text
    }
}

/// What a cell comes to: of bytes how many, else the number itself.
#[inline(always)]
fn amount_of(cell: Option<ValueRef<'_>>) -> usize {
    match cell {
        Some(ValueRef::Bytes(bytes)) => bytes.len(),
        Some(ValueRef::Int(number)) => usize::try_from(number).unwrap_or(0),
        _ => 0,
    }
}

/// What the cells of a row come to, and 1 for the row.
#[inline(always)]
pub fn sum_of(row: &RowRef<'_, '_>) -> usize {
    let mut sum: usize = 1;
    for index in 0..row.len() {
        sum = sum.wrapping_add(amount_of(row.as_ref(index)));
    }
    sum
}

/// Keeps a row behind the others, under the columns of the first one.
fn keep(
    alloc: Global,
    row: &RowRef<'_, '_>,
    stored: &mut Option<StoredRows>,
) -> Result<(), AllocError> {
    if stored.is_none() {
        *stored = Some(StoredRows::new(alloc, row.columns()?));
    }
    match stored {
        Some(rows) if rows.columns_ref().len() == row.len() => rows.push(row),
        _ => Ok(()),
    }
}

/// What a row comes to that is let go. One that is kept comes to nothing yet.
#[inline(always)]
fn take(
    alloc: Global,
    row: &RowRef<'_, '_>,
    keeps: bool,
    stored: &mut Option<StoredRows>,
) -> Result<usize, ReplyFault> {
    if !keeps {
        return Ok(sum_of(row));
    }
    match keep(alloc, row, stored) {
        Ok(()) => Ok(0),
        Err(_) => Err(ReplyFault::Memory),
    }
}

/// Takes the rows of a piece. Answers what they come to.
fn take_piece(
    alloc: Global,
    reader: &mut ReplyReader,
    piece: &[u8],
    keeps: bool,
    stored: &mut Option<StoredRows>,
) -> Result<usize, ReplyFault> {
    let mut rest = piece;
    let mut sum: usize = 0;
    // There are fewer rows than bytes.
    for _ in piece {
        match reader.next_row(&mut rest)? {
            Some(row) => sum = sum.wrapping_add(take(alloc, &row, keeps, stored)?),
            None => return Ok(sum),
        }
    }
    Ok(sum)
}

/// What the cells of all rows come to, and 1 for each row.
fn sum_of_rows(stored: &StoredRows) -> usize {
    let mut sum: usize = 0;
    for row in stored.iter() {
        sum = sum.wrapping_add(sum_of(&row));
    }
    sum
}

/// Reads a reply that comes in pieces of a size. Answers what its rows come to.
///
/// Each row is lent, looked at and let go; or all of them are kept, and looked at in the end.
#[unsafe(no_mangle)]
pub extern "C" fn mysql_bench_read_rows(
    alloc: Global,
    stream: &[u8],
    size: usize,
    binary: bool,
    keeps: bool,
) -> usize
    requires { 0 < size }
{
    let mut reader = ReplyReader::new(alloc, kind_of(binary), CAPABILITIES, 1, LIMIT);
    let mut stored = None;
    let mut sum: usize = 0;
    for piece in stream.chunks(size) {
        match take_piece(alloc, &mut reader, piece, keeps, &mut stored) {
            Ok(more) => sum = sum.wrapping_add(more),
            Err(_) => return 0,
        }
    }
    match (reader.finish().end, &stored) {
        (ReplyEnd::Whole, Some(rows)) => sum_of_rows(rows),
        (ReplyEnd::Whole, None) => sum,
        _ => 0,
    }
}
