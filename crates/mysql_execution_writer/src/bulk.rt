//! Bulk executions as they are written.

ghost use Rattle.std.specs.Prelude.{◌≡◌, ◌++◌, ◌+◌, ◌<◌, ◌==◌, ◌&&◌, [], OnOk, is_some, true};
ghost use Rattle.std.specs.Prelude.{unwrap_or};
ghost use Rattle.std.specs.List.{flat_map, list_all};
ghost use Rattle.mysql_executions.specs.Views.{bulk_of, rows_of, types_by, types_of};
ghost use Rattle.mysql_execution_writer.specs.Answers.{PutsIf};
ghost use Rattle.mysql_execution_writer.specs.Bulks.{bulk_bytes, bulk_flags, bulk_value_bytes, can_have_bulk_types};
ghost use Rattle.mysql_execution_writer.specs.Bulks.{can_put_bulk, indicator_bytes, is_row, row_bytes, told_cell};
ghost use Rattle.mysql_execution_writer.specs.Cells.{parameter_cell};

use crate::cells::{fit_names, has_cell, put_types, put_value, type_at};
use crate::refusal::PutRefusal;
use mysql_cells::Value;
use mysql_const::{Capabilities, MariadbBulkIndicator};
use mysql_executions::bulk_reading::{begins_row, has_bulk_operations};
use mysql_executions::{BoundType, BulkExecution, BulkValue, ParameterType, StatementParameters};
use mysql_fields::{IntRepr, LeU16, LeU32};
use std::alloc::{AllocError, Global};

/// The flag of a bulk that asks for a result for each row.
const SEND_UNIT_RESULTS: u16 = 0x40;

/// The flag of a bulk that carries types.
const SEND_TYPES_TO_SERVER: u16 = 0x80;

/// Whether what a parameter holds in a row can be written.
fn fits_bulk_value(kind: ParameterType, value: &BulkValue) -> bool
    ensures { result ≡ is_some (bulk_value_bytes kind value.now) }
{
    match value {
        BulkValue::Value(Value::NULL) | BulkValue::Default | BulkValue::Ignore => true,
        BulkValue::Value(value) => has_cell(kind, value),
    }
}

/// Appends an indicator. After a refusal what is there isn't said, here and below.
fn put_indicator(indicator: MariadbBulkIndicator, out: &mut Vec<u8>) -> Result<(), AllocError>
    ensures { OnOk result (out.new.items ≡ out.old.items ++ indicator_bytes indicator) }
{
    u8::serialize(u8::from(indicator), out)
}

/// Appends a value's indicator and its cell, where it has one.
fn put_told(kind: ParameterType, value: &Value, out: &mut Vec<u8>) -> Result<(), AllocError>
    ensures { OnOk result (out.new.items ≡ out.old.items ++ unwrap_or (told_cell (parameter_cell kind value.now)) []) }
{
    if !has_cell(kind, value) {
        return Ok(());
    }
    put_indicator(MariadbBulkIndicator::BULK_INDICATOR_NONE, out)?;
    put_value(kind, value, out)
}

/// Appends what a parameter holds in a row, where it can be written.
fn put_bulk_value(
    kind: ParameterType,
    value: &BulkValue,
    out: &mut Vec<u8>,
) -> Result<(), AllocError>
    ensures { OnOk result (out.new.items ≡ out.old.items ++ unwrap_or (bulk_value_bytes kind value.now) []) }
{
    match value {
        BulkValue::Value(Value::NULL) => {
            put_indicator(MariadbBulkIndicator::BULK_INDICATOR_NULL, out)
        }
        BulkValue::Value(value) => put_told(kind, value, out),
        BulkValue::Default => put_indicator(MariadbBulkIndicator::BULK_INDICATOR_DEFAULT, out),
        BulkValue::Ignore => put_indicator(MariadbBulkIndicator::BULK_INDICATOR_IGNORE, out),
    }
}

/// Whether a row is one for each type, and each can be written.
fn fits_row(own: &Option<Vec<BoundType>>, s: &StatementParameters, row: &[BulkValue]) -> bool
    ensures { result ≡ is_row (types_by (types_of own.now) s.now.types) row.now }
{
    for (place, value) in row.iter().enumerate() {
        match type_at(own, s, place) {
            Some(kind) => {
                if !fits_bulk_value(kind, value) {
                    return false;
                }
            }
            None => return false,
        }
    }
    type_at(own, s, row.len()).is_none()
}

/// Appends a row, which can be written.
fn put_row(
    own: &Option<Vec<BoundType>>,
    s: &StatementParameters,
    row: &[BulkValue],
    out: &mut Vec<u8>,
) -> Result<(), AllocError>
    ensures { OnOk result (out.new.items ≡ out.old.items ++
        row_bytes (types_by (types_of own.now) s.now.types) row.now) }
{
    for (place, value) in row.iter().enumerate() {
        match type_at(own, s, place) {
            Some(kind) => put_bulk_value(kind, value, out)?,
            None => return Ok(()),
        }
    }
    Ok(())
}

/// Whether each row can be written.
fn fit_rows(own: &Option<Vec<BoundType>>, s: &StatementParameters, rows: &[Vec<BulkValue>]) -> bool
    ensures { result ≡ list_all (is_row (types_by (types_of own.now) s.now.types)) (rows_of rows.now) }
{
    for row in rows {
        if !fits_row(own, s, row) {
            return false;
        }
    }
    true
}

/// Appends rows.
fn put_rows(
    own: &Option<Vec<BoundType>>,
    s: &StatementParameters,
    rows: &[Vec<BulkValue>],
    out: &mut Vec<u8>,
) -> Result<(), AllocError>
    ensures { OnOk result (out.new.items ≡
        out.old.items ++ flat_map (row_bytes (types_by (types_of own.now) s.now.types)) (rows_of rows.now)) }
{
    for row in rows {
        put_row(own, s, row, out)?;
    }
    Ok(())
}

/// The flags of a bulk execution.
fn flags(e: &BulkExecution) -> u16
    ensures { result ≡ bulk_flags (bulk_of e.now) }
{
    let unit_results = if e.unit_results { SEND_UNIT_RESULTS } else { 0 };
    let types = if e.types.is_some() {
        SEND_TYPES_TO_SERVER
    } else {
        0
    };
    unit_results + types
}

/// The types that a bulk execution carries.
fn own_types(e: &BulkExecution) -> &[BoundType]
    ensures { result.now ≡ unwrap_or (types_of e.now.types) [] }
{
    match &e.types {
        Some(own) => own.as_slice(),
        None => &[],
    }
}

/// Whether a bulk execution can have its types, or none.
fn fits_types(s: &StatementParameters, e: &BulkExecution) -> bool
    ensures { result ≡ can_have_bulk_types s.now (types_of e.now.types) }
{
    match &e.types {
        Some(own) => own.len() == usize::from(s.count()),
        None => s.types().len() == usize::from(s.count()),
    }
}

/// Whether a bulk execution can be written.
#[tactic(auto, unfolding(crate::specs::Bulks::can_put_bulk))]
fn can_put(capabilities: Capabilities, s: &StatementParameters, e: &BulkExecution) -> bool
    ensures { result ≡ can_put_bulk capabilities s.now (bulk_of e.now) }
{
    has_bulk_operations(capabilities)
        && !s.is_broken()
        && !s.is_waiting()
        && s.count() > 0
        && fits_types(s, e)
        && fit_names(false, own_types(e))
        && !e.rows.is_empty()
        && fit_rows(&e.types, s, &e.rows)
        && !begins_row(&e.types, s.types(), e.rest.as_slice())
}

/// Appends a bulk execution.
#[tactic(auto, unfolding(crate::specs::Bulks::bulk_bytes))]
fn put_body(s: &StatementParameters, e: &BulkExecution, out: &mut Vec<u8>) -> Result<(), AllocError>
    ensures { OnOk result (out.new.items ≡ out.old.items ++ bulk_bytes s.now (bulk_of e.now)) }
{
    // COM_STMT_BULK_EXECUTE, behind its first byte:
    //   int<4>  statement_id
    //   int<2>  bulk_flags: SEND_UNIT_RESULTS, SEND_TYPES_TO_SERVER
    //   (int<1> type, int<1> flag) for each parameter, where types are sent
    //   ..      rows: an indicator and a value for each parameter; and what stands behind them
    LeU32::serialize(e.statement, out)?;
    LeU16::serialize(flags(e), out)?;
    put_types(false, own_types(e), out)?;
    put_rows(&e.types, s, &e.rows, out)?;
    out.extend_from_slice(e.rest.as_slice())
}

/// Appends the body of a bulk execution, behind the command's first byte, by what is in force.
///
/// Promise: exactly where it can be (`can_put_bulk`), and the bytes are read as the bulk execution
/// (`BulksReadBack`).
///
/// # Errors
/// - `Unreadable` where no body is read as this bulk execution. So it is where MariaDB's bulk
///   executions aren't in force, the statement has no parameters or is broken, or long data waits.
///   So it is of types of another number than the parameters, or none where none are in force, and
///   of a type with a name. So it is of no row, of a row of another number of values, and of a
///   value without a cell by its type. So it is where the bytes behind the rows begin with a row.
/// - `Memory`.
///
/// Nothing is changed then.
///
/// Follows "COM_STMT_BULK_EXECUTE" of MariaDB's client/server protocol documentation.
pub fn put_bulk_execution(
    alloc: Global,
    capabilities: Capabilities,
    parameters: &StatementParameters,
    execution: &BulkExecution,
    out: &mut Vec<u8>,
) -> Result<(), PutRefusal>
    ensures { PutsIf (can_put_bulk capabilities parameters.now (bulk_of execution.now))
        (bulk_bytes parameters.now (bulk_of execution.now))
        out.old.items out.new.items result }
{
    if !can_put(capabilities, parameters, execution) {
        return Err(PutRefusal::Unreadable);
    }
    let mut body = Vec::new(alloc);
    put_body(parameters, execution, &mut body)?;
    out.extend_from_slice(&body)?;
    Ok(())
}
