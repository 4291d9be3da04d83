//! Executions that carry no types: those in force count.

ghost use Rattle.std.specs.Prelude.{◌≡◌, ◌++◌, ◌∷◌, ◌+◌, ◌<◌, ◌≤◌, [], IsTrue, OnOk, drop, false};
ghost use Rattle.std.specs.Prelude.{length, map, take};
ghost use Rattle.std.specs.Prelude.{true, vec_capacity, vec_len};
ghost use Rattle.mysql_execution_writer.specs.Cells.{are_parameters, as_read, parameters_bytes};
ghost use Rattle.mysql_execution_writer.specs.InForce.{FitsTypes, PutsInForce, head_bytes};
ghost use Rattle.mysql_execution_writer.specs.Written.{binding_bytes};

use crate::cells::append_own_value;
use crate::refusal::PutRefusal;
use mysql_cells::Value;
use mysql_const::Capabilities;
use mysql_executions::execution_reading::has_query_attributes;
use mysql_executions::{ParameterType, StatementParameters};
use mysql_stmt::put_null_bitmap;
use std::alloc::AllocError;
use std::mem::replace;

/// Whether values are as many as the types in force, of a statement that isn't broken, for which no
/// long data waits.
fn fits_types(parameters: &StatementParameters, values: &[Value]) -> bool
    ensures { IsTrue result → FitsTypes parameters.now values.now }
{
    let count = usize::from(parameters.count());
    parameters.is_clear() && parameters.types().len() == count && values.len() == count
}

/// Appends the bitmap, and that no types follow; nothing where there are no values.
#[inline(always)]
fn put_binding(values: &[Value], out: &mut Vec<u8>) -> Result<(), AllocError>
    requires { length values.now ≤ 65535 }
    ensures ok { OnOk result (out.new.items ≡ out.old.items ++ binding_bytes values.now false) }
    ensures kept { take (length out.old.items) out.new.items ≡ out.old.items }
{
    if values.is_empty() {
        return Ok(());
    }
    put_null_bitmap(values, out)?;
    out.push(0)?;
    Ok(())
}

/// The type at a place.
#[inline(always)]
fn type_at(types: &[ParameterType], place: usize) -> ParameterType
    requires { place < length types.now }
    ensures { drop place types.now ≡ result ∷ drop (place + 1) types.now }
{
    types[place]
}

/// Appends the cells of values by these types, as many, where each has one.
#[inline(always)]
fn put_cells(types: &[ParameterType], values: &[Value], out: &mut Vec<u8>) -> Result<(), PutRefusal>
    requires { length types.now ≡ length values.now }
    ensures fits { OnOk result (are_parameters [] 0 types.now values.now ≡ true) }
    ensures own { OnOk result (map as_read values.now ≡ values.now) }
    ensures ok { OnOk result (out.new.items ≡
        out.old.items ++ parameters_bytes [] 0 types.now values.now) }
    ensures kept { take (length out.old.items) out.new.items ≡ out.old.items }
{
    for (place, value) in values.iter().enumerate() {
        let kind = type_at(types, place);
        append_own_value(kind, value, out)?;
    }
    Ok(())
}

/// Appends the number of the command, the statement's id, no flags and one iteration.
#[inline(always)]
fn put_head(id: u32, out: &mut Vec<u8>)
    requires { vec_len out.old + 10 ≤ vec_capacity out.old }
    ensures { out.new.items ≡ out.old.items ++ head_bytes id }
{
    let [a, b, c, d] = id.to_le_bytes();
    out.push_reserved(0x17);
    out.push_reserved(a);
    out.push_reserved(b);
    out.push_reserved(c);
    out.push_reserved(d);
    out.push_reserved(0);
    out.push_reserved(1);
    out.push_reserved(0);
    out.push_reserved(0);
    out.push_reserved(0);
}

/// Appends an execution of values by these types, as many.
#[inline(always)]
fn put_parts(
    types: &[ParameterType],
    id: u32,
    values: &[Value],
    out: &mut Vec<u8>,
) -> Result<(), PutRefusal>
    requires few { length values.now ≤ 65535 }
    requires same { length types.now ≡ length values.now }
    ensures fits { OnOk result (are_parameters [] 0 types.now values.now ≡ true) }
    ensures own { OnOk result (map as_read values.now ≡ values.now) }
    ensures ok { OnOk result (out.new.items ≡ out.old.items ++ (head_bytes id ++
        (binding_bytes values.now false ++ parameters_bytes [] 0 types.now values.now))) }
    ensures kept { take (length out.old.items) out.new.items ≡ out.old.items }
{
    out.reserve(values.len().saturating_mul(12).saturating_add(32))?;
    put_head(id, out);
    put_binding(values, out)?;
    put_cells(types, values, out)
}

/// Appends an execution of values by the types in force, which it doesn't carry, with the command's
/// number.
///
/// `false` says nothing of the values: [`put_execution`](crate::put_execution) puts them then,
/// where it can. So it is of values that aren't read as themselves, and with query attributes. So
/// it is of a statement that is broken or for which long data waits. After it, and after an error,
/// what stood before stands in front.
///
/// Promise: what was appended is read as these values (`PutsInForce`).
///
/// # Errors
/// - `AllocError` for want of memory.
///
/// Follows "COM_STMT_EXECUTE" (new_params_bind_flag) of the client/server protocol documentation.
#[inline(always)]
pub fn put_in_force(
    capabilities: Capabilities,
    parameters: &StatementParameters,
    id: u32,
    values: &[Value],
    out: &mut Vec<u8>,
) -> Result<bool, AllocError>
    ensures { PutsInForce capabilities parameters.now id values.now out.old.items out.new.items
        result }
{
    if has_query_attributes(capabilities) || !fits_types(parameters, values) {
        return Ok(false);
    }
    // For the proof alone: the number of values has two bytes.
    let _count = parameters.count();
    let mut whole = replace(out, Vec::new(*out.allocator()));
    let put = put_parts(parameters.types(), id, values, &mut whole);
    *out = whole;
    match put {
        Ok(()) => Ok(true),
        Err(PutRefusal::Unreadable) => Ok(false),
        Err(PutRefusal::Memory) => Err(AllocError),
    }
}
