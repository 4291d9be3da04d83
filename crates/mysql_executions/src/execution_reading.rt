//! Executions as they are read.

ghost use Rattle.std.specs.Prelude.{◌≡◌, ◌==◌, ◌||◌, ◌<◌, ◌-◌, IfOk, IfSome, Some};
ghost use Rattle.std.specs.Option.{option_map};
ghost use Rattle.mysql_executions.specs.Executions.{binding_at, count_at, execution_at};
ghost use Rattle.mysql_executions.specs.Executions.{execution_head, gives_count, named_flags, readable_head};
ghost use Rattle.mysql_executions.specs.InForce.{types_that_count};
ghost use Rattle.mysql_executions.specs.Types.{has_query_attributes as has_attributes, own_types_at, types_at};
ghost use Rattle.mysql_executions.specs.Unclear.{unclear_at};
ghost use Rattle.mysql_executions.specs.Views.{Gives, Holds, binding_of, execution_of, head_of, types_by, types_of};
ghost use Rattle.mysql_executions.specs.Views.{unclear_of};

use crate::fields::{read_bytes, read_lenenc_int, read_u8, read_u32};
use crate::not_read::NotRead;
use crate::statement::StatementParameters;
use crate::type_reading::{read_all_types, read_own_types};
use crate::types::{BoundType, Execution};
use crate::unclear::read_unclear;
use crate::value_reading::{read_attributes, read_parameters};
use bitflags::Flags;
use mysql_bytes::ByteString;
use mysql_const::{Capabilities, CapabilityFlags, CursorType};
use std::alloc::{AllocError, Global};

/// The flag of an execution that says that the number of parameters is given.
const PARAMETER_COUNT_AVAILABLE: u8 = 8;

/// Goes on where a test holds.
pub fn must(holds: bool) -> Result<(), NotRead>
    ensures { Holds result holds }
{
    if holds { Ok(()) } else { Err(NotRead::Other) }
}

/// Whether query attributes are in force.
pub fn has_query_attributes(capabilities: Capabilities) -> bool
    ensures { result ≡ has_attributes capabilities }
{
    capabilities
        .protocol
        .contains(CapabilityFlags::CLIENT_QUERY_ATTRIBUTES)
}

/// The bitmap, whether types follow, and what follows.
#[derive(Drop)]
pub struct Binding<'a> {
    pub nulls: &'a [u8],
    pub bound: bool,
    pub rest: &'a [u8],
}

/// Reads what stands before the types of so many parameters.
#[tactic(auto, unfolding(crate::specs::Executions::binding_at))]
pub fn read_binding(count: u64, bytes: &[u8]) -> Result<Binding<'_>, NotRead>
    ensures { Gives binding_of result (binding_at count bytes.now) }
{
    // binary<var>  null_bitmap, a bit for each parameter
    // int<1>       new_params_bind_flag
    if count == 0 {
        return Ok(Binding {
            nulls: &[],
            bound: false,
            rest: bytes,
        });
    }
    let (nulls, rest) = read_bytes(count.div_ceil(8) as usize, bytes)?;
    let (bound, rest) = read_u8(rest)?;
    must(bound <= 1)?;
    Ok(Binding {
        nulls,
        bound: bound == 1,
        rest,
    })
}

/// Whether the number of parameters stands in an execution of a statement that has so many.
pub fn gives_count(capabilities: Capabilities, flags: u8, count: u16) -> bool
    ensures { result ≡ gives_count capabilities flags count }
{
    has_query_attributes(capabilities)
        && (flags & PARAMETER_COUNT_AVAILABLE == PARAMETER_COUNT_AVAILABLE || count > 0)
}

/// Reads how many parameters an execution has.
fn read_count(
    capabilities: Capabilities,
    flags: u8,
    count: u16,
    bytes: &[u8],
) -> Result<(u64, &[u8]), NotRead>
    ensures { Gives (λ x. (x.0, x.1.now)) result (count_at capabilities flags count bytes.now) }
{
    if gives_count(capabilities, flags, count) {
        read_lenenc_int(bytes)
    } else {
        Ok((u64::from(count), bytes))
    }
}

/// What stands before an execution's types.
#[derive(Drop)]
pub struct ExecutionHead<'a> {
    pub statement: u32,
    pub flags: u8,
    pub iterations: u32,
    pub count: u64,
    pub binding: Binding<'a>,
}

/// Reads what stands before an execution's types, of a statement that has so many parameters.
#[tactic(auto, unfolding(crate::specs::Executions::execution_head))]
pub fn read_execution_head(
    capabilities: Capabilities,
    count: u16,
    body: &[u8],
) -> Result<ExecutionHead<'_>, NotRead>
    ensures { Gives head_of result (execution_head capabilities count body.now) }
{
    // COM_STMT_EXECUTE, behind its first byte:
    //   int<4>       statement_id
    //   int<1>       flags
    //   int<4>       iteration_count
    //   int<lenenc>  parameter_count, with query attributes (`gives_count`)
    //   ..           null_bitmap and new_params_bind_flag (`read_binding`)
    let (statement, rest) = read_u32(body)?;
    let (flags, rest) = read_u8(rest)?;
    let (iterations, rest) = read_u32(rest)?;
    let (given, rest) = read_count(capabilities, flags, count, rest)?;
    must(u64::from(count) <= given)?;
    let binding = read_binding(given, rest)?;
    Ok(ExecutionHead {
        statement,
        flags,
        iterations,
        count: given,
        binding,
    })
}

/// The flags of an execution that have a name.
pub fn named_flags(capabilities: Capabilities, flags: u8) -> u8
    ensures { result ≡ named_flags capabilities flags }
{
    if has_query_attributes(capabilities) {
        flags % 16
    } else {
        flags % 8
    }
}

/// Whether each parameter of the statement has a type: the command's own, else that in force.
pub fn check_types(s: &StatementParameters, own: &Option<Vec<BoundType>>) -> Result<(), NotRead>
    ensures { Gives (λ _. types_by (types_of own.now) s.now.types) result
        (types_that_count s.now (types_of own.now)) }
{
    must(own.is_some() || s.types().len() == usize::from(s.count()))
}

/// Whether no parameters stand there beyond those of a statement that has so many, or types do.
pub fn needs_no_types(binding: &Binding<'_>, given: u64, count: u16) -> bool
    ensures { result ≡ (binding.now.bound || (given == count)) }
{
    binding.bound || given == u64::from(count)
}

/// Reads the types of a statement's parameters, of which there are so many, where they stand there.
fn read_head_types<'a>(
    alloc: Global,
    capabilities: Capabilities,
    count: u16,
    binding: &Binding<'a>,
) -> Result<(Option<Vec<BoundType>>, &'a [u8]), NotRead>
    ensures { Gives (λ x. (types_of x.0, x.1.now)) result
        (own_types_at binding.now.bound (has_attributes capabilities) count binding.now.rest.now) }
{
    read_own_types(
        alloc,
        binding.bound,
        has_query_attributes(capabilities),
        usize::from(count),
        binding.rest,
    )
}

/// Reads the types of those that are given beyond a statement's parameters, of which there are so many.
fn read_further_types(
    alloc: Global,
    capabilities: Capabilities,
    count: u16,
    given: u64,
    bytes: &[u8],
) -> Result<(Vec<BoundType>, &[u8]), NotRead>
    ensures { Gives (λ x. (x.0.items, x.1.now)) result
        (types_at (has_attributes capabilities) (given - count) bytes.now) }
{
    let further = (given as usize).saturating_sub(usize::from(count));
    read_all_types(alloc, has_query_attributes(capabilities), further, bytes)
}

/// Reads what stands before the types of an execution that can be read.
#[tactic(auto, unfolding(crate::specs::Executions::readable_head))]
fn read_readable_head<'a>(
    capabilities: Capabilities,
    s: &StatementParameters,
    body: &'a [u8],
) -> Result<ExecutionHead<'a>, NotRead>
    ensures { Gives head_of result (readable_head capabilities s.now body.now) }
{
    must(!s.is_broken())?;
    let head = read_execution_head(capabilities, s.count(), body)?;
    must(needs_no_types(&head.binding, head.count, s.count()))?;
    Ok(head)
}

/// Reads an execution.
#[tactic(auto, unfolding(crate::specs::Executions::execution_at, crate::specs::Unclear::unclear_at))]
fn read_body(
    alloc: Global,
    capabilities: Capabilities,
    s: &StatementParameters,
    body: &[u8],
) -> Result<Execution, NotRead>
    ensures reads { Gives execution_of result (execution_at capabilities s.now body.now) }
    ensures unclear { IfOk result (λ e. unclear_at capabilities s.now body.now ≡ Some (unclear_of e.unclear)) }
{
    let head = read_readable_head(capabilities, s, body)?;
    let (own, rest) = read_head_types(alloc, capabilities, s.count(), &head.binding)?;
    check_types(s, &own)?;
    let (further, rest) = read_further_types(alloc, capabilities, s.count(), head.count, rest)?;
    let unclear = read_unclear(alloc, s, &own, head.binding.nulls, &further, rest)?;
    let (parameters, rest) = read_parameters(alloc, s, &own, head.binding.nulls, rest)?;
    let (attributes, rest) = read_attributes(
        alloc,
        head.binding.nulls,
        usize::from(s.count()),
        further,
        rest,
    )?;
    let named = named_flags(capabilities, head.flags);
    Ok(Execution {
        statement: head.statement,
        cursor: CursorType(head.flags % 8),
        count_available: named >= PARAMETER_COUNT_AVAILABLE,
        nameless_flags: head.flags - named,
        iterations: head.iterations,
        types: own,
        parameters,
        attributes,
        rest: ByteString::copy(alloc, rest)?,
        unclear,
    })
}

/// Reads the body of an execution, behind the command's first byte, by what is in force.
///
/// It is read as servers do: flags without a name, an iteration count other than 1 and bytes behind the
/// last value are told.
///
/// None where it can't be: fewer parameters than the statement has, attributes or a parameter without
/// a type, a type without cells, too few bytes. None also where the statement is broken.
///
/// Promise: exactly the execution that stands there (`execution_at`). Exactly those of its values are
/// unclear that are so by their cells and by what was in force (`unclear_at`).
///
/// # Errors
/// For want of memory.
///
/// Follows "COM_STMT_EXECUTE" of the client/server protocol documentation.
pub fn read_execution(
    alloc: Global,
    capabilities: Capabilities,
    parameters: &StatementParameters,
    body: &[u8],
) -> Result<Option<Execution>, AllocError>
    ensures reads { IfOk result (λ found. option_map execution_of found ≡
        execution_at capabilities parameters.now body.now) }
    ensures unclear { IfOk result (λ found. IfSome found (λ e.
        unclear_at capabilities parameters.now body.now ≡ Some (unclear_of e.unclear))) }
{
    match read_body(alloc, capabilities, parameters, body) {
        Ok(execution) => Ok(Some(execution)),
        Err(NotRead::Other) => Ok(None),
        Err(NotRead::Memory) => Err(AllocError),
    }
}
