//! Parameter sets of the inputs: a value is the number of its type, and its cell.

use mysql_session::{Params, Value};
use mysql_values::read_cell;
use mysql_wire::{ParseBuf, WireError};
use std::alloc::Global;

/// The next value.
fn value_of(alloc: Global, buf: &mut ParseBuf) -> Result<Value, WireError> {
    let number = buf.checked_eat_u8().ok_or(WireError::UnexpectedEof)?;
    read_cell(alloc, number, false, buf)
}

/// The next values, so many.
pub fn values_of(alloc: Global, buf: &mut ParseBuf, width: usize) -> Result<Vec<Value>, WireError> {
    let mut values = Vec::new(alloc);
    for _ in 0..width {
        values.push(value_of(alloc, buf)?)?;
    }
    Ok(values)
}

/// So many sets of so many values.
pub fn sets_of(
    alloc: Global,
    bytes: &[u8],
    count: usize,
    width: usize,
) -> Result<Vec<Params>, WireError> {
    let mut buf = ParseBuf(bytes);
    let mut sets = Vec::new(alloc);
    for _ in 0..count {
        sets.push(Params::Positional(values_of(alloc, &mut buf, width)?))?;
    }
    Ok(sets)
}
