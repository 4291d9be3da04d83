//! The first value of each column of rows.

ghost use Rattle.std.specs.Prelude.{◌≡◌, ◌<◌, ◌++◌, All, IfOk, List, [], length, slice_index_or, true};
ghost use Rattle.mysql_cells.specs.declared.value.Value.TheVariants.{NULL};
ghost use Rattle.mysql_bulk_builder.specs.Cut.{Row};
ghost use Rattle.mysql_bulk_builder.specs.ValueTypes.{first_in_column, first_values, is_null};
ghost use Rattle.mysql_bulk_builder.specs.RowLists.{row_in, rows_in};

use mysql_cells::Value;
use std::alloc::{AllocError, Global};

/// The first values of no rows: NULL in each column.
pub fn no_first_values<'a>(
    alloc: Global,
    null: &'a Value,
    columns: usize,
) -> Result<Vec<&'a Value>, AllocError>
    requires { null.now ≡ NULL }
    ensures { IfOk result (λ firsts. row_in firsts.items ≡ first_values columns []) }
{
    let mut firsts = Vec::new(alloc);
    for _column in 0..columns {
        firsts.push(null)?;
    }
    Ok(firsts)
}

/// The value of a row in a column.
fn value_in<'a>(row: &[&'a Value], column: usize) -> &'a Value
    requires { column < length row.now }
    ensures { result.now ≡ slice_index_or (row_in row.now) column NULL }
{
    row[column]
}

/// The first value of a column in these rows, and the NULL handed in where there is none.
fn first_in_column<'a>(rows: &[&[&'a Value]], column: usize, null: &'a Value) -> &'a Value
    requires null { is_null null.now ≡ true }
    requires within { All (λ row. column < length row.now) rows.now }
    ensures { result.now ≡ first_in_column column (rows_in rows.now) }
{
    for row in rows {
        let value = value_in(*row, column);
        if !value.is_null() {
            return value;
        }
    }
    null
}

/// The first values of more rows: each NULL gives way to the column's first value in them.
pub fn put_first_values<'a>(firsts: &mut [&'a Value], rows: &[&[&'a Value]])
    requires { All (λ row. length row.now ≡ length firsts.old) rows.now }
    ensures { (before : List Row) → row_in firsts.old ≡ first_values (length firsts.old) before →
        row_in firsts.new ≡ first_values (length firsts.old) (before ++ rows_in rows.now) }
{
    for column in 0..firsts.len() {
        if firsts[column].is_null() {
            firsts[column] = first_in_column(rows, column, firsts[column]);
        }
    }
}
