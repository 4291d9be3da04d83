//! Rows appended to one flat list.

ghost use Rattle.std.specs.Prelude.{◌≡◌, ◌++◌, IfOk, OnErr, OnOk, map};
ghost use Rattle.mysql_bulk_builder.specs.Bulk.{param_value_of};

use crate::StmtBulkExecuteParamValue;
use mysql_cells::Value;
use std::alloc::{AllocError, Global};

/// Appends the values of a row, each as it is sent: all of them, or none where memory is refused.
pub(crate) fn append_row(
    values: &mut Vec<StmtBulkExecuteParamValue>,
    row: Vec<Value>,
) -> Result<(), AllocError>
    ensures ok { OnOk result (values.new.items ≡ values.old.items ++ map param_value_of row.items) }
    ensures err { OnErr result (values.new.items ≡ values.old.items) }
{
    // The list grows first, so that each value then has room.
    values.reserve(row.len())?;
    for value in row {
        values.push(StmtBulkExecuteParamValue::new(value)).unwrap();
    }
    Ok(())
}

/// Copies of the values, in order.
pub(crate) fn copies_of(
    alloc: Global,
    values: &[StmtBulkExecuteParamValue],
) -> Result<Vec<StmtBulkExecuteParamValue>, AllocError>
    ensures { IfOk result (λ copies. copies.items ≡ values.now) }
{
    let mut copies = Vec::new(alloc);
    for value in values {
        copies.push(value.clone(alloc)?)?;
    }
    Ok(copies)
}
