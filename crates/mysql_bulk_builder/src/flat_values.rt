//! Rows in one flat list, and the types of their columns.

ghost use Rattle.std.specs.Prelude.{◌≡◌, ◌<◌, ◌*◌, IfErr, IfOk, None, Some, length, map};
ghost use Rattle.mysql_bulk_builder.specs.Bulk.{all_values, bulk_cause, column_type_of as type_of_column};
ghost use Rattle.mysql_bulk_builder.specs.Bulk.{column_types_of};
ghost use Rattle.mysql_bulk_builder.specs.Bulk.{first_length, param_value_of};

use crate::param_type::StmtBulkExecuteParamType;
use crate::param_value::{StmtBulkExecuteParamValue, push_row};
use crate::request_error::BulkExecuteRequestError;
use mysql_cells::Value;
use std::alloc::{AllocError, Global};

// The type of one column.
#[tactic(auto, using(crate::proofs::Columns::no_rows))]
fn column_type_of(
    values: &[StmtBulkExecuteParamValue],
    arity: usize,
    count: usize,
    column: usize,
) -> StmtBulkExecuteParamType
    requires inside { column < arity }
    requires whole { length values.now ≡ count * arity }
    ensures { result ≡ type_of_column arity count (map (λ value. value.value) values.now) column }
{
    let mut found = StmtBulkExecuteParamType::from_value(&Value::NULL);
    for row in 0..count {
        found = found.merged(values[row * arity + column].value());
    }
    found
}

// The type of each column.
pub(crate) fn column_types(
    alloc: Global,
    values: &[StmtBulkExecuteParamValue],
    arity: usize,
    count: usize,
) -> Result<Vec<StmtBulkExecuteParamType>, AllocError>
    requires { length values.now ≡ count * arity }
    ensures { IfOk result (λ types. types.items ≡ column_types_of arity count (map (λ value. value.value) values.now)) }
{
    let mut types = Vec::new(alloc);
    for column in 0..arity {
        types.push(column_type_of(values, arity, count, column))?;
    }
    Ok(types)
}

// How many values each row has. Refuses NoParams, then MixedArity.
pub(crate) fn arity_of(rows: &[Vec<Value>]) -> Result<usize, BulkExecuteRequestError>
    ensures ok { IfOk result (λ arity. (bulk_cause (map (λ row. row.items) rows.now) ≡ None) ×
        (arity ≡ first_length (map (λ row. row.items) rows.now))) }
    ensures err { IfErr result (λ e. bulk_cause (map (λ row. row.items) rows.now) ≡ Some e) }
{
    if rows.is_empty() {
        return Err(BulkExecuteRequestError::NoParams);
    }
    let arity = rows[0].len();
    for row in rows {
        if row.len() != arity {
            return Err(BulkExecuteRequestError::MixedArity);
        }
    }
    Ok(arity)
}

// The values of all rows, one row after another.
pub(crate) fn flat(
    alloc: Global,
    rows: Vec<Vec<Value>>,
) -> Result<Vec<StmtBulkExecuteParamValue>, AllocError>
    ensures { IfOk result (λ values. values.items ≡
        map param_value_of (all_values (map (λ row. row.items) rows.items))) }
{
    let mut values = Vec::new(alloc);
    for row in rows {
        push_row(row, &mut values)?;
    }
    Ok(values)
}
