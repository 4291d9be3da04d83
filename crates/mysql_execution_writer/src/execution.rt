//! Executions as they are written.

ghost use Rattle.std.specs.Prelude.{◌≡◌, ◌++◌, ◌+◌, ◌<◌, ◌==◌, ◌||◌, ◌&&◌, [], IsTrue, OnOk, length, take};
ghost use Rattle.std.specs.Prelude.{unwrap_or};
ghost use Rattle.std.specs.Prelude.{if◌then◌else◌};
ghost use Rattle.mysql_buf.specs.Writing.{lenenc_int};
ghost use Rattle.mysql_executions.specs.Executions.{gives_count as has_count};
ghost use Rattle.mysql_executions.specs.Views.{execution_of, types_by, types_of};
ghost use Rattle.mysql_fields.specs.Wire.{Appends};
ghost use Rattle.mysql_execution_writer.specs.Cells.{attributes_bytes};
ghost use Rattle.byteorder.specs.Endian.{little_bytes};
ghost use Rattle.mysql_execution_writer.specs.Answers.{FitsIf, PutsIf};
ghost use Rattle.mysql_execution_writer.specs.Cells.{are_parameters};
ghost use Rattle.mysql_execution_writer.specs.declared.refusal.PutRefusal.TheVariants.{Unreadable};
ghost use Rattle.mysql_execution_writer.specs.Written.{all_values, can_be_put, can_have_attributes, can_have_flags};
ghost use Rattle.mysql_execution_writer.specs.Written.{can_have_types, execution_bytes, flags_of};

use crate::bitmap::put_binding;
use crate::cells::{
    append_parameters, fit_attributes, fit_names, fit_parameters, put_attribute_types,
    put_attributes, put_types,
};
use crate::refusal::PutRefusal;
use mysql_buf::BufMutExt;
use mysql_const::Capabilities;
use mysql_executions::execution_reading::{gives_count, has_query_attributes, named_flags};
use mysql_executions::{BoundType, Execution, StatementParameters};
use std::alloc::AllocError;

/// The flag of an execution that says that the number of parameters is given.
const PARAMETER_COUNT_AVAILABLE: u8 = 8;

/// Whether an execution can have its flags, which are a byte then.
fn fits_flags(capabilities: Capabilities, e: &Execution) -> bool
    ensures fits { result ≡ can_have_flags capabilities (execution_of e.now) }
    ensures byte { IsTrue result → flags_of (execution_of e.now) < 256 }
{
    e.cursor.0 < 8
        && (has_query_attributes(capabilities) || !e.count_available)
        && named_flags(capabilities, e.nameless_flags) == 0
}

/// The byte of an execution's flags.
fn flags(e: &Execution) -> u8
    requires { flags_of (execution_of e.now) < 256 }
    ensures { result ≡ flags_of (execution_of e.now) }
{
    if e.count_available {
        e.cursor.0 + PARAMETER_COUNT_AVAILABLE + e.nameless_flags
    } else {
        e.cursor.0 + e.nameless_flags
    }
}

/// How many values an execution has, of parameters and of attributes.
fn count(e: &Execution) -> usize
    ensures { result ≡ length (all_values (execution_of e.now)) }
{
    e.parameters.len() + e.attributes.len()
}

/// Whether an execution can have its types, or none.
fn fits_types(s: &StatementParameters, e: &Execution) -> bool
    ensures { result ≡ can_have_types s.now (execution_of e.now) (types_of e.now.types) }
{
    match &e.types {
        Some(own) => own.len() == usize::from(s.count()) && count(e) > 0,
        None => s.types().len() == usize::from(s.count()) && e.attributes.is_empty(),
    }
}

/// Whether an execution whose flags can be had can have its attributes.
fn has_room(capabilities: Capabilities, s: &StatementParameters, e: &Execution) -> bool
    requires { flags_of (execution_of e.now) < 256 }
    ensures { result ≡ can_have_attributes capabilities s.now (execution_of e.now) }
{
    gives_count(capabilities, flags(e), s.count()) || e.attributes.is_empty()
}

/// The types that an execution carries.
fn own_types(e: &Execution) -> &[BoundType]
    ensures { result.now ≡ unwrap_or (types_of e.now.types) [] }
{
    match &e.types {
        Some(own) => own.as_slice(),
        None => &[],
    }
}

/// Whether an execution can be written, where its parameters can.
#[tactic(auto, unfolding(crate::specs::Written::can_be_put))]
fn fits_around(capabilities: Capabilities, s: &StatementParameters, e: &Execution) -> bool
    ensures fits { (result && are_parameters s.now.long_data 0 (types_by (types_of e.now.types) s.now.types)
        e.now.parameters.items) ≡ can_be_put capabilities s.now (execution_of e.now) }
    ensures flags { IsTrue result → flags_of (execution_of e.now) < 256 }
{
    !s.is_broken()
        && fits_flags(capabilities, e)
        && e.parameters.len() == usize::from(s.count())
        && fits_types(s, e)
        && has_room(capabilities, s, e)
        && fit_names(has_query_attributes(capabilities), own_types(e))
        && fit_attributes(has_query_attributes(capabilities), &e.attributes)
}

/// Whether an execution can be written by what is in force.
///
/// Promise: exactly where [`put_execution`] has no cause against it (`can_be_put`).
///
/// Follows "COM_STMT_EXECUTE" of the client/server protocol documentation.
pub fn can_put(
    capabilities: Capabilities,
    parameters: &StatementParameters,
    execution: &Execution,
) -> bool
    ensures { result ≡ can_be_put capabilities parameters.now (execution_of execution.now) }
{
    fits_around(capabilities, parameters, execution)
        && fit_parameters(parameters, &execution.types, &execution.parameters)
}

/// Appends what stands before the number of parameters.
fn put_head(e: &Execution, out: &mut Vec<u8>) -> Result<(), AllocError>
    requires { flags_of (execution_of e.now) < 256 }
    ensures { Appends result out.old.items out.new.items (little_bytes 4 e.now.statement ++
        (little_bytes 1 (flags_of (execution_of e.now)) ++ little_bytes 4 e.now.iterations)) }
{
    let [a, b, c, d] = e.statement.to_le_bytes();
    let [flags] = flags(e).to_le_bytes();
    let [i, j, k, l] = e.iterations.to_le_bytes();
    out.extend_from_slice(&[a, b, c, d, flags, i, j, k, l])
}

/// Appends the number of parameters, where it is given.
fn put_count(
    capabilities: Capabilities,
    s: &StatementParameters,
    e: &Execution,
    out: &mut Vec<u8>,
) -> Result<(), AllocError>
    requires { flags_of (execution_of e.now) < 256 }
    ensures { Appends result out.old.items out.new.items
        (if has_count capabilities (flags_of (execution_of e.now)) s.now.count
        then lenenc_int (length (all_values (execution_of e.now))) else []) }
{
    if gives_count(capabilities, flags(e), s.count()) {
        out.put_lenenc_int(count(e) as u64)
    } else {
        Ok(())
    }
}

/// Appends the attributes' values, and what stands behind the last value.
fn put_end(e: &Execution, out: &mut Vec<u8>) -> Result<(), AllocError>
    ensures { Appends result out.old.items out.new.items
        (attributes_bytes (execution_of e.now).attributes ++ (execution_of e.now).rest) }
{
    let len = out.len();
    put_attributes(&e.attributes, out)?;
    if let Err(e) = out.extend_from_slice(e.rest.as_slice()) {
        out.truncate(len);
        return Err(e);
    }
    Ok(())
}

/// Appends an execution whose flags can be had, where its parameters can be written.
#[tactic(auto, unfolding(crate::specs::Written::execution_bytes))]
fn put_body(
    capabilities: Capabilities,
    s: &StatementParameters,
    e: &Execution,
    out: &mut Vec<u8>,
) -> Result<(), PutRefusal>
    requires { flags_of (execution_of e.now) < 256 }
    ensures fits { FitsIf (are_parameters s.now.long_data 0 (types_by (types_of e.now.types) s.now.types)
        e.now.parameters.items) result }
    ensures ok { OnOk result (out.new.items ≡
        out.old.items ++ execution_bytes capabilities s.now (execution_of e.now)) }
    ensures kept { take (length out.old.items) out.new.items ≡ out.old.items }
{
    // COM_STMT_EXECUTE, behind its first byte:
    //   int<4>       statement_id
    //   int<1>       flags
    //   int<4>       iteration_count
    //   int<lenenc>  parameter_count, with query attributes (`gives_count`)
    //   ..           null_bitmap and new_params_bind_flag (`put_binding`)
    //   (int<2> type and flag, string<lenenc> name with query attributes) for each, where bound
    //   ..           parameter values, and what stands behind them
    let named = has_query_attributes(capabilities);
    out.reserve(likely_size(e))?;
    put_head(e, out)?;
    put_count(capabilities, s, e, out)?;
    put_binding(&e.parameters, &e.attributes, e.types.is_some(), out)?;
    put_types(named, own_types(e), out)?;
    put_attribute_types(named, &e.attributes, out)?;
    append_parameters(s, &e.types, &e.parameters, out)?;
    put_end(e, out)?;
    Ok(())
}

// About as many bytes as the body takes beside texts, so that it seldom grows: nothing rests on it.
fn likely_size(e: &Execution) -> usize {
    e.parameters.len().saturating_mul(12).saturating_add(32)
}

/// Why an execution isn't written: for want of memory only where it could be.
fn refusal_of(refusal: PutRefusal, s: &StatementParameters, e: &Execution) -> PutRefusal
    ensures { result ≡ (if are_parameters s.now.long_data 0 (types_by (types_of e.now.types) s.now.types)
        e.now.parameters.items then refusal else Unreadable) }
{
    if fit_parameters(s, &e.types, &e.parameters) {
        refusal
    } else {
        PutRefusal::Unreadable
    }
}

/// Appends the body of an execution, behind the command's first byte, by what is in force.
///
/// Promise: exactly where it can be (`can_be_put`), and the bytes are read as the execution
/// (`ExecutionsReadBack`).
///
/// # Errors
/// - `Unreadable` where the cursor has unnamed bits, or the unnamed flags have named ones. So it is
///   where no body is read as this execution. The statement is broken, or has another number of
///   parameters. Types are of another number, or there are none where none are in force or
///   attributes are, or there are some without values. Names, attributes or the flag of the
///   parameters' number stand there without query attributes. A parameter is other than the long
///   data that waits for it, or a value has no cell by its type.
/// - `Memory`.
///
/// Nothing is changed then.
///
/// Follows "COM_STMT_EXECUTE" of the client/server protocol documentation.
pub fn put_execution(
    capabilities: Capabilities,
    parameters: &StatementParameters,
    execution: &Execution,
    out: &mut Vec<u8>,
) -> Result<(), PutRefusal>
    ensures { PutsIf (can_be_put capabilities parameters.now (execution_of execution.now))
        (execution_bytes capabilities parameters.now (execution_of execution.now))
        out.old.items out.new.items result }
{
    if !fits_around(capabilities, parameters, execution) {
        return Err(PutRefusal::Unreadable);
    }
    let len = out.len();
    match put_body(capabilities, parameters, execution, out) {
        Ok(()) => Ok(()),
        Err(refusal) => {
            out.truncate(len);
            Err(refusal_of(refusal, parameters, execution))
        }
    }
}
