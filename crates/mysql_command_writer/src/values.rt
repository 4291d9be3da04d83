//! Commands with values: queries with their attributes, and executions.

ghost use Rattle.std.specs.Prelude.{◌≡◌};
ghost use Rattle.std.specs.Option.{option_copied};
ghost use Rattle.mysql_commands.specs.Commands as said;
ghost use Rattle.mysql_executions.specs.Views.{bulk_of, execution_of, rows_of};
ghost use Rattle.mysql_command_writer.specs.Plain.{PutsAttributed};
ghost use Rattle.mysql_command_writer.specs.Refusals.{Puts, have_count};

use crate::refusal::CommandRefusal;
use crate::writing::append_text;
use mysql_commands::{
    Attribute, BulkExecution, BulkValue, Capabilities, Execution, StatementParameters,
};
use mysql_execution_writer::laws::{attributes_read_back, bulks_read_back, executions_read_back};
use mysql_execution_writer::{put_bulk_execution, put_execution, put_query_attributes};
use mysql_executions::execution_reading::has_query_attributes;
use std::alloc::Global;

/// Puts an execution, by what is in force of its statement's parameters.
#[tactic(auto, using(crate::proofs::Counts::other_count))]
pub(crate) fn put_execute(
    capabilities: Capabilities,
    parameters: Option<&StatementParameters>,
    execution: &Execution,
    out: &mut Vec<u8>,
) -> Result<(), CommandRefusal>
    ensures { Puts capabilities (option_copied parameters.entry) (said.Execute (execution_of execution.now))
        out.old.items out.new.items result }
{
    let Some(parameters) = parameters else {
        return Err(CommandRefusal::UnknownStatement);
    };
    if execution.parameters.len() != parameters.count() as usize {
        return Err(CommandRefusal::WrongCount);
    }
    executions_read_back();
    let len = out.len();
    out.extend_from_slice(&[0x17])?;
    if let Err(refusal) = put_execution(capabilities, parameters, execution, out) {
        out.truncate(len);
        return Err(CommandRefusal::from(refusal));
    }
    Ok(())
}

/// Whether each row has so many values.
fn have_count(count: u16, rows: &[Vec<BulkValue>]) -> bool
    ensures { result ≡ have_count count (rows_of rows.now) }
{
    for row in rows {
        if row.len() != count as usize {
            return false;
        }
    }
    true
}

/// Puts a bulk execution, by what is in force of its statement's parameters.
#[tactic(auto, using(crate::proofs::Counts::other_row_count))]
pub(crate) fn put_bulk(
    alloc: Global,
    capabilities: Capabilities,
    parameters: Option<&StatementParameters>,
    execution: &BulkExecution,
    out: &mut Vec<u8>,
) -> Result<(), CommandRefusal>
    ensures { Puts capabilities (option_copied parameters.entry) (said.BulkExecute (bulk_of execution.now))
        out.old.items out.new.items result }
{
    let Some(parameters) = parameters else {
        return Err(CommandRefusal::UnknownStatement);
    };
    if !have_count(parameters.count(), &execution.rows) {
        return Err(CommandRefusal::WrongCount);
    }
    bulks_read_back();
    let len = out.len();
    out.extend_from_slice(&[0xfa])?;
    if let Err(refusal) = put_bulk_execution(alloc, capabilities, parameters, execution, out) {
        out.truncate(len);
        return Err(CommandRefusal::from(refusal));
    }
    Ok(())
}

/// Puts a query behind its attributes.
fn put_attributed(
    alloc: Global,
    attributes: &[Attribute],
    sql: &[u8],
    out: &mut Vec<u8>,
) -> Result<(), CommandRefusal>
    ensures { PutsAttributed attributes.now sql.now out.old.items out.new.items result }
{
    let len = out.len();
    out.extend_from_slice(&[0x03])?;
    if let Err(refusal) = put_query_attributes(alloc, attributes, out) {
        out.truncate(len);
        return Err(CommandRefusal::from(refusal));
    }
    if out.extend_from_slice(sql).is_err() {
        out.truncate(len);
        return Err(CommandRefusal::Memory);
    }
    Ok(())
}

/// Puts a query, behind its attributes where they are in force.
pub(crate) fn put_query(
    alloc: Global,
    capabilities: Capabilities,
    parameters: Option<&StatementParameters>,
    attributes: &[Attribute],
    sql: &[u8],
    out: &mut Vec<u8>,
) -> Result<(), CommandRefusal>
    ensures { Puts capabilities (option_copied parameters.entry) (said.Query attributes.now sql.now)
        out.old.items out.new.items result }
{
    if has_query_attributes(capabilities) {
        attributes_read_back();
        return put_attributed(alloc, attributes, sql, out);
    }
    if !attributes.is_empty() {
        return Err(CommandRefusal::NotAgreed);
    }
    append_text(0x03, sql, out)?;
    Ok(())
}
