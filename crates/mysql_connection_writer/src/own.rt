//! Whether a command's values are read as themselves, and what their types hold.

ghost use Rattle.std.specs.Prelude.{◌≡◌, ◌+◌, ◌<◌, ◌^◌, [], IfOk, unwrap_or};
ghost use Rattle.std.specs.List.{AllByRecursion, list_all};
ghost use Rattle.mysql_commands.specs.Views.{command_view};
ghost use Rattle.mysql_execution_writer.specs.Laws.{FitsAttributes, FitsBulk, FitsBulkValue, FitsExecution};
ghost use Rattle.mysql_execution_writer.specs.Laws.{HaveLengths};
ghost use Rattle.mysql_executions.specs.Views.{bulk_of, execution_of, types_of};
ghost use Rattle.mysql_connection_writer.specs.Commands.{are_own_attributes, is_own, is_own_command};
ghost use Rattle.mysql_connection_writer.specs.Commands.{is_own_in_bulk};
ghost use Rattle.mysql_connection_writer.specs.Fits.{FitsAttribute, ValuesFit};

use mysql_cells::Value;
use mysql_cells::laws::{all_fields_fit, fields_fit};
use mysql_commands::Command;
use mysql_executions::{Attribute, BoundType, BulkExecution, BulkValue, Execution};
use std::alloc::AllocError;

// No unsigned number that fits a signed one.
fn is_own(value: &Value) -> bool
    ensures { result ≡ is_own value.now }
{
    match value {
        Value::UInt(number) => *number >= 1 << 63,
        _ => true,
    }
}

fn are_own(values: &[Value]) -> bool
    ensures { result ≡ list_all is_own values.now }
{
    values.iter().all(|value| is_own(value))
}

fn are_own_attributes(attributes: &[Attribute]) -> bool
    ensures { result ≡ are_own_attributes attributes.now }
{
    attributes.iter().all(|attribute| is_own(&attribute.value))
}

fn is_own_in_bulk(value: &BulkValue) -> bool
    ensures { result ≡ is_own_in_bulk value.now }
{
    match value {
        BulkValue::Value(value) => is_own(value),
        _ => true,
    }
}

fn is_own_row(row: &[BulkValue]) -> bool
    ensures { result ≡ list_all is_own_in_bulk row.now }
{
    row.iter().all(|value| is_own_in_bulk(value))
}

fn are_own_rows(rows: &[Vec<BulkValue>]) -> bool
    ensures { result ≡ list_all (λ row. list_all is_own_in_bulk row.items) rows.now }
{
    rows.iter().all(|row| is_own_row(row.as_slice()))
}

/// Whether each value of a command is read as itself.
#[tactic(auto, using(crate::proofs::OwnValues::all_rows))]
pub fn is_own_command(command: &Command) -> bool
    ensures { result ≡ is_own_command (command_view command.now) }
{
    match command {
        Command::Query { attributes, sql: _ } => are_own_attributes(attributes.as_slice()),
        Command::Execute(execution) => {
            are_own(execution.parameters.as_slice())
                && are_own_attributes(execution.attributes.as_slice())
        }
        Command::BulkExecute(execution) => are_own_rows(execution.rows.as_slice()),
        _ => true,
    }
}

// For the proof alone: what the types of values hold. Compiled with optimizations, nothing is left
// of the functions from here on but a sum of two counts.

fn names_fit(types: &[BoundType])
    ensures { HaveLengths types.now }
{
    for kind in types {
        let _len = kind.name.as_slice().len();
    }
}

fn attributes_fit(attributes: &[Attribute])
    ensures { AllByRecursion (λ attribute. FitsAttribute attribute) attributes.now }
{
    for attribute in attributes {
        fields_fit(&attribute.value);
        let _len = attribute.bound_type.name.as_slice().len();
    }
}

fn query_fits(attributes: &[Attribute])
    ensures { FitsAttributes attributes.now }
{
    attributes_fit(attributes);
    let _len = attributes.len();
}

fn own_names_fit(types: &Option<Vec<BoundType>>)
    ensures { HaveLengths (unwrap_or (types_of types.now) []) }
{
    if let Some(types) = types {
        names_fit(types.as_slice());
    }
}

/// The id of an execution's statement.
pub fn id_of(execution: &Execution) -> u32
    ensures { result ≡ execution.now.statement }
{
    execution.statement
}

// The iteration count of an execution.
fn iterations_of(execution: &Execution) -> u32
    ensures { result ≡ execution.now.iterations }
{
    execution.iterations
}

// The flags of an execution that have no name.
fn nameless_flags_of(execution: &Execution) -> u8
    ensures { result ≡ execution.now.nameless_flags }
{
    execution.nameless_flags
}

/// The id of a bulk execution's statement.
pub fn id_of_bulk(execution: &BulkExecution) -> u32
    ensures { result ≡ execution.now.statement }
{
    execution.statement
}

// How many values there are is a number of 64 bits; no memory has room for more.
fn counts_fit(parameters: usize, attributes: usize) -> Result<(), AllocError>
    ensures { IfOk result (λ _. parameters + attributes < 2 ^ 64) }
{
    match parameters.checked_add(attributes) {
        Some(_) => Ok(()),
        None => Err(AllocError),
    }
}

fn execution_fits(execution: &Execution) -> Result<(), AllocError>
    ensures { IfOk result (λ _. FitsExecution (execution_of execution.now)) }
{
    counts_fit(execution.parameters.len(), execution.attributes.len())?;
    let _id = id_of(execution);
    let _iterations = iterations_of(execution);
    let _flags = nameless_flags_of(execution);
    own_names_fit(&execution.types);
    all_fields_fit(execution.parameters.as_slice());
    attributes_fit(execution.attributes.as_slice());
    Ok(())
}

fn in_bulk_fits(value: &BulkValue)
    ensures { FitsBulkValue value.now }
{
    if let BulkValue::Value(value) = value {
        fields_fit(value);
    }
}

fn row_fits(row: &[BulkValue])
    ensures { AllByRecursion (λ value. FitsBulkValue value) row.now }
{
    for value in row {
        in_bulk_fits(value);
    }
}

fn rows_fit(rows: &[Vec<BulkValue>])
    ensures { AllByRecursion (λ row. AllByRecursion (λ value. FitsBulkValue value) row.items) rows.now }
{
    for row in rows {
        row_fits(row.as_slice());
    }
}

fn bulk_fits(execution: &BulkExecution)
    ensures { FitsBulk (bulk_of execution.now) }
{
    let _id = id_of_bulk(execution);
    own_names_fit(&execution.types);
    rows_fit(execution.rows.as_slice());
}

/// What the types of a command's values hold.
pub fn values_fit(command: &Command) -> Result<(), AllocError>
    ensures { IfOk result (λ _. ValuesFit (command_view command.now)) }
{
    match command {
        Command::Query { attributes, sql: _ } => {
            query_fits(attributes.as_slice());
            Ok(())
        }
        Command::Execute(execution) => execution_fits(execution),
        Command::BulkExecute(execution) => {
            bulk_fits(execution);
            Ok(())
        }
        _ => Ok(()),
    }
}
