//! The payload of an execution with the values of a set, floats among them.

ghost use Rattle.std.specs.Prelude.{◌≡◌};
ghost use Rattle.mysql_c_handles.specs.Codes.{code_number};
ghost use Rattle.mysql_c_commands.specs.Executing.{PutsExecution, PutsExecutionFrom, PutsExecutionTo};

use mysql_c_handles::{Code, Handle, Object};
use mysql_stmt::put_execution;
use mysql_values::Value;
use std::alloc::Global;

/// Appends an execution of these values to bytes.
fn put_values(statement: u32, values: &[Value], out: &mut Vec<u8>) -> Code
    ensures { PutsExecution statement values.now out.old.items (code_number result) out.new.items }
{
    if values.len() > 65535 {
        return Code::TooManyPlaces;
    }
    match put_execution(statement, values, false, out) {
        Ok(()) => Code::Done,
        Err(_) => Code::Memory,
    }
}

/// Appends an execution of these values to the bytes that an object is.
fn put_values_to(statement: u32, values: &[Value], object: &mut Object) -> Code
    ensures { PutsExecutionTo statement values.now object.old (code_number result) object.new }
{
    match object {
        Object::Bytes(out) => put_values(statement, values, out),
        Object::Empty => Code::EmptyHandle,
        _ => Code::OtherKind,
    }
}

/// Appends an execution of these values to the bytes of a handle.
fn put_values_onto(alloc: Global, statement: u32, values: &[Value], out: &mut Handle) -> Code
    ensures { PutsExecutionTo statement values.now out.old.object (code_number result) out.new.object }
{
    let Some(mut object) = out.take(alloc) else {
        return Code::EmptyHandle;
    };
    let code = put_values_to(statement, values, &mut object);
    out.put(object);
    code
}

/// Appends an execution of the values of a set to the bytes of a handle.
fn put_set_from(alloc: Global, held: &Object, set: usize, statement: u32, out: &mut Handle) -> Code
    ensures { PutsExecutionFrom statement held.now set out.old.object (code_number result) out.new.object }
{
    match held.values_at(set) {
        Ok(values) => put_values_onto(alloc, statement, values, out),
        Err(code) => code,
    }
}

/// Appends the payload of an execution of a statement to the bytes of another handle.
///
/// Its values are those of the set of this number, each with its own type. Floats are among them.
///
/// Promise: exactly the execution of the set's values is appended, or the bytes stay
/// (`PutsExecutionFrom`).
pub fn execution_put(
    alloc: Global,
    sets: &mut Handle,
    set: usize,
    statement: u32,
    out: &mut Handle,
) -> u32
    ensures kept { sets.new.object ≡ sets.old.object }
    ensures put { PutsExecutionFrom statement sets.old.object set out.old.object result out.new.object }
{
    let Some(given) = sets.take(alloc) else {
        return Code::EmptyHandle.number();
    };
    let code = put_set_from(alloc, &given, set, statement, out);
    sets.put(given);
    code.number()
}
