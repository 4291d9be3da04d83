//! Values, rows, columns and sets that tests give.

use mysql_cells::Value;
use mysql_const::{ColumnFlags, ColumnType};
use mysql_packets::Column;
use mysql_values::Params;
use std::alloc::{AllocError, Global};
use std::collections::HashMap;
use std::rc::RcSlice;
pub use tests_support::Given;
use tests_support::given_values;

/// The values of a row.
pub type Cells = &'static [Given];

pub const ONE: Cells = &[Given::Int(1)];

pub const TWO: Cells = &[Given::Int(2)];

pub const NULL: Cells = &[Given::Null];

pub const SHORT: Cells = &[Given::Filled(1)];

pub const TWO_VALUES: Cells = &[Given::Int(2), Given::Int(3)];

/// Rows of these values.
pub fn rows(alloc: Global, all: &[Cells]) -> Result<Vec<Vec<Value>>, AllocError> {
    let mut rows = Vec::new(alloc);
    for cells in all {
        rows.push(given_values(alloc, *cells)?)?;
    }
    Ok(rows)
}

/// The name, type and flags of a column.
pub type Kind = (&'static [u8], ColumnType, ColumnFlags);

pub const NO_FLAG: ColumnFlags = ColumnFlags(0);

/// Columns of these names, types and flags.
pub fn columns_of(alloc: Global, kinds: &[Kind]) -> Result<RcSlice<Column>, AllocError> {
    let mut columns = Vec::new(alloc);
    for (name, column_type, flags) in kinds {
        let column = Column::new(alloc, *column_type).with_flags(*flags);
        columns.push(column.with_name(*name)?)?;
    }
    RcSlice::from_vec(columns)
}

/// A set that gives a name a number.
pub fn named(alloc: Global, name: &[u8], number: i64) -> Result<Params, AllocError> {
    let name = Vec::from_slice(alloc, name)?;
    let mut values = HashMap::new(alloc);
    let answer = values.insert(name, Value::Int(number));
    let is_in = answer.is_ok();
    drop(answer);
    if is_in {
        Ok(Params::Named(values))
    } else {
        Err(AllocError)
    }
}
