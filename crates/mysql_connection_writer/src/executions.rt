//! Executions of values: with types where those in force won't do.

ghost use Rattle.std.specs.Prelude.{◌≡◌, IfOk, length, map};
ghost use Rattle.std.specs.Option.{option_copied};
ghost use Rattle.mysql_command_writer.specs.Refusals.{can_execute};
ghost use Rattle.mysql_connection_rules.specs.Standing as phases;
ghost use Rattle.mysql_connection_state.specs.Views.{event_view};
ghost use Rattle.mysql_connection_statements.specs.Settled.{IsSettledAt};
ghost use Rattle.mysql_connection_writer.specs.Executions.{WritesExecution, bound_to, execution_by};
ghost use Rattle.mysql_connection_writer.specs.Executions.{execution_said, own_type};
ghost use Rattle.mysql_execution_writer.specs.Cells.{as_read};
ghost use Rattle.mysql_executions.specs.Views.{execution_of};

use mysql_bytes::ByteString;
use mysql_cells::Value;
use mysql_cells::laws::all_fields_fit;
use mysql_commands::Command;
use mysql_connection_state::{Event, State};
use mysql_connection_statements::Statement;
use mysql_const::{Capabilities, CursorType};
use mysql_execution_writer::laws::executions_read_back;
use mysql_execution_writer::{can_put, put_in_force};
use mysql_executions::laws::read_types_are_carried;
use mysql_executions::{BoundType, Execution, ParameterType, StatementParameters, UnclearValues};
use std::alloc::{AllocError, Global};

// The type that a value has itself.
fn own_type(value: &Value) -> ParameterType
    ensures { result ≡ own_type value.now }
{
    ParameterType {
        column_type: value.column_type(),
        unsigned: value.is_unsigned(),
    }
}

// That type, of a parameter without a name.
fn bound_to(alloc: Global, value: &Value) -> BoundType
    ensures { result ≡ bound_to value.now }
{
    BoundType {
        parameter_type: own_type(value),
        name: ByteString::from_vec(Vec::new(alloc)),
    }
}

// The types that values have themselves.
fn own_types(alloc: Global, values: &[Value]) -> Result<Vec<BoundType>, AllocError>
    ensures { IfOk result (λ types. types.items ≡ map bound_to values.now) }
{
    let mut types = Vec::with_capacity(alloc, values.len())?;
    for value in values {
        types.push(bound_to(alloc, value))?;
    }
    Ok(types)
}

// A value as it is read.
fn as_read(alloc: Global, value: &Value) -> Result<Value, AllocError>
    ensures { IfOk result (λ read. read ≡ as_read value.now) }
{
    match value {
        Value::UInt(number) if *number < 1 << 63 => Ok(Value::Int(*number as i64)),
        _ => value.clone(alloc),
    }
}

// Values as they are read.
fn all_as_read(alloc: Global, values: &[Value]) -> Result<Vec<Value>, AllocError>
    ensures { IfOk result (λ read. read.items ≡ map as_read values.now) }
{
    let mut read = Vec::with_capacity(alloc, values.len())?;
    for value in values {
        read.push(as_read(alloc, value)?)?;
    }
    Ok(read)
}

// Whether an execution can be written, where its statement is known.
fn can_execute(
    capabilities: Capabilities,
    parameters: Option<&StatementParameters>,
    execution: &Execution,
) -> bool
    ensures { result ≡ can_execute capabilities (option_copied parameters.entry)
        (execution_of execution.now) }
{
    match parameters {
        Some(parameters) => can_put(capabilities, parameters, execution),
        None => false,
    }
}

// The execution of values.
fn execution_by(
    alloc: Global,
    capabilities: Capabilities,
    parameters: Option<&StatementParameters>,
    id: u32,
    values: &[Value],
) -> Result<Execution, AllocError>
    ensures { IfOk result (λ execution. execution_of execution ≡
        execution_by capabilities (option_copied parameters.entry) id values.now) }
{
    let mut execution = Execution {
        statement: id,
        cursor: CursorType::CURSOR_TYPE_NO_CURSOR,
        count_available: false,
        nameless_flags: 0,
        iterations: 1,
        types: None,
        parameters: all_as_read(alloc, values)?,
        attributes: Vec::new(alloc),
        rest: ByteString::from_vec(Vec::new(alloc)),
        unclear: UnclearValues::none(alloc),
    };
    if !can_execute(capabilities, parameters, &execution) {
        execution.types = Some(own_types(alloc, values)?);
    }
    Ok(execution)
}

/// The event of an execution of the statement of this id with these values.
///
/// It carries no types where each value has a cell by those in force; else those that the values have
/// themselves. An unsigned number below 2^63 is one with a sign, as it is read.
///
/// Promise: exactly this event (`execution_said`).
///
/// # Errors
/// - `AllocError` when memory runs out.
///
/// MySQL: Client/Server Protocol, "COM_STMT_EXECUTE".
pub fn execution_event(
    alloc: Global,
    state: &State,
    id: u32,
    values: &[Value],
) -> Result<Event, AllocError>
    ensures { IfOk result (λ event. event_view event ≡
        execution_said state.now.standing id values.now) }
{
    let parameters = state.parameters_for(id);
    let execution = execution_by(alloc, state.capabilities(), parameters, id, values)?;
    Event::command(alloc, Command::Execute(execution))
}

// How many values there are.
fn count(values: &[Value]) -> usize
    ensures { result ≡ length values.now }
{
    values.len()
}

/// Appends the payload of an execution of this statement with these values, not framed.
///
/// It does where each value is read as itself and has a cell by the types in force, which it
/// doesn't carry. Query attributes aren't in force then.
///
/// `false` says nothing of the values: [`execution_event`] and [`write_event`](crate::write_event)
/// write them then, where they have a payload. After it, and after an error, what stood before stands
/// in front.
///
/// Promise: what was appended says the execution, behind which all stands as it did, but that its reply
/// is due (`WritesExecution`).
///
/// # Errors
/// - `AllocError` when memory runs out.
///
/// MySQL: Client/Server Protocol, "COM_STMT_EXECUTE" (new_params_bind_flag).
#[inline(always)]
pub fn write_execution(
    state: &State,
    statement: &Statement,
    id: u32,
    values: &[Value],
    out: &mut Vec<u8>,
) -> Result<bool, AllocError>
    requires phase { state.now.standing.phase ≡ phases.Command }
    requires settled { IsSettledAt state.now.standing.statements id statement.now }
    ensures { WritesExecution state.now.standing statement.now id values.now out.old.items
        out.new.items result }
{
    executions_read_back();
    read_types_are_carried();
    all_fields_fit(values);
    // For the proof alone: they are fewer than 2^64.
    let _count = count(values);
    put_in_force(
        state.capabilities(),
        statement.parameters(),
        id,
        values,
        out,
    )
}
