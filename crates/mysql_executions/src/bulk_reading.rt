//! Bulk executions as they are read.

ghost use Rattle.std.specs.Prelude.{◌≡◌, ◌<◌, ◌+◌, ◌-◌, IfOk, IfSome, is_some, length};
ghost use Rattle.std.specs.Option.{option_map};
ghost use Rattle.mysql_const.specs.BulkIndicators.{bulk_indicator_named};
ghost use Rattle.mysql_executions.specs.Bulks.{are_bulk_flags as are_flags, bulk_execution_at, bulk_head};
ghost use Rattle.mysql_executions.specs.Bulks.{bulk_value_at, indicated_at, row_at, rows_at, send_types_to_server};
ghost use Rattle.mysql_const.specs.FlagSets.{contains};
ghost use Rattle.mysql_executions.specs.Types.{has_bulk_operations as has_bulks};
ghost use Rattle.mysql_executions.specs.Views.{Gives, IfRead, bulk_head_of, bulk_of, rows_read_of, types_by};
ghost use Rattle.mysql_executions.specs.Unclear.{unclear_bulk_at};
ghost use Rattle.mysql_executions.specs.Views.{cells_of, types_of};

use crate::bulk::{BulkExecution, BulkValue};
use crate::execution_reading::{check_types, must};
use crate::fields::{read_u8, read_u16, read_u32};
use crate::not_read::NotRead;
use crate::skipping::skip_typed_value;
use crate::statement::StatementParameters;
use crate::type_reading::read_own_types;
use crate::types::{BoundType, ParameterType};
use crate::unclear::read_unclear_rows;
use crate::value_reading::{count_of, read_typed_value, type_of};
use bitflags::Flags;
use mysql_buf::ParseBuf;
use mysql_bytes::ByteString;
use mysql_cells::Value;
use mysql_const::{Capabilities, MariadbBulkIndicator, MariadbCapabilities};
use std::alloc::{AllocError, Global};

/// The flag of a bulk that asks for a result for each row.
const SEND_UNIT_RESULTS: u16 = 0x40;

/// The flag of a bulk that carries types.
const SEND_TYPES_TO_SERVER: u16 = 0x80;

/// Whether MariaDB's bulk executions are in force.
pub fn has_bulk_operations(capabilities: Capabilities) -> bool
    ensures { result ≡ has_bulks capabilities }
{
    capabilities
        .mariadb
        .contains(MariadbCapabilities::MARIADB_CLIENT_STMT_BULK_OPERATIONS)
}

/// Whether a bulk can have these flags: none, either or both of the two.
fn are_bulk_flags(flags: u16) -> bool
    ensures { result ≡ are_flags flags }
{
    flags == 0
        || flags == SEND_UNIT_RESULTS
        || flags == SEND_TYPES_TO_SERVER
        || flags == SEND_UNIT_RESULTS + SEND_TYPES_TO_SERVER
}

/// Whether a bulk of these flags carries types.
pub fn carries_types(flags: u16) -> bool
    ensures { result ≡ contains flags send_types_to_server }
{
    flags & SEND_TYPES_TO_SERVER == SEND_TYPES_TO_SERVER
}

/// What stands before a bulk's types.
#[derive(Drop)]
pub struct BulkHead<'a> {
    pub statement: u32,
    pub flags: u16,
    pub rest: &'a [u8],
}

/// Reads what stands before a bulk's types.
#[tactic(auto, unfolding(crate::specs::Bulks::bulk_head))]
pub fn read_bulk_head(body: &[u8]) -> Result<BulkHead<'_>, NotRead>
    ensures { Gives bulk_head_of result (bulk_head body.now) }
{
    // COM_STMT_BULK_EXECUTE, behind its first byte:
    //   int<4>  statement_id
    //   int<2>  bulk_flags: SEND_UNIT_RESULTS, SEND_TYPES_TO_SERVER
    //   (int<1> type, int<1> flag) for each parameter, where types are sent
    //   ..      rows: an indicator and a value for each parameter
    let (statement, rest) = read_u32(body)?;
    let (flags, rest) = read_u16(rest)?;
    Ok(BulkHead {
        statement,
        flags,
        rest,
    })
}

/// The indicator of a number.
fn indicator_of(number: u8) -> Result<MariadbBulkIndicator, NotRead>
    ensures { Gives (λ x. x) result (bulk_indicator_named number) }
{
    match MariadbBulkIndicator::try_from(number) {
        Ok(indicator) => Ok(indicator),
        Err(_) => Err(NotRead::Other),
    }
}

/// Reads what an indicator says of a parameter.
fn read_indicated(
    alloc: Global,
    indicator: MariadbBulkIndicator,
    kind: ParameterType,
    bytes: &[u8],
) -> Result<(BulkValue, &[u8]), NotRead>
    ensures { Gives (λ x. (x.0, x.1.now)) result (indicated_at indicator kind bytes.now) }
{
    match indicator {
        MariadbBulkIndicator::BULK_INDICATOR_NONE => {
            let (value, rest) = read_typed_value(alloc, kind, bytes)?;
            Ok((BulkValue::Value(value), rest))
        }
        MariadbBulkIndicator::BULK_INDICATOR_NULL => Ok((BulkValue::Value(Value::NULL), bytes)),
        MariadbBulkIndicator::BULK_INDICATOR_DEFAULT => Ok((BulkValue::Default, bytes)),
        MariadbBulkIndicator::BULK_INDICATOR_IGNORE => Ok((BulkValue::Ignore, bytes)),
    }
}

/// Reads a parameter in a row.
#[tactic(auto, unfolding(crate::specs::Bulks::bulk_value_at))]
fn read_bulk_value(
    alloc: Global,
    kind: ParameterType,
    bytes: &[u8],
) -> Result<(BulkValue, &[u8]), NotRead>
    ensures { Gives (λ x. (x.0, x.1.now)) result (bulk_value_at kind bytes.now) }
{
    let (number, rest) = read_u8(bytes)?;
    let indicator = indicator_of(number)?;
    read_indicated(alloc, indicator, kind, rest)
}

/// Reads a row.
fn read_row<'a>(
    alloc: Global,
    own: &Option<Vec<BoundType>>,
    in_force: &[ParameterType],
    bytes: &'a [u8],
) -> Result<(Vec<BulkValue>, &'a [u8]), NotRead>
    ensures { Gives (λ x. (x.0.items, x.1.now)) result
        (row_at (types_by (types_of own.now) in_force.now) bytes.now) }
{
    // Each value takes a byte or more.
    let count = count_of(own, in_force);
    let mut values = Vec::with_capacity(alloc, count.min(bytes.len()))?;
    let mut rest = bytes;
    for place in 0..count {
        let kind = type_of(own, in_force, place);
        let (next, after) = read_bulk_value(alloc, kind, rest)?;
        values.push(next)?;
        rest = after;
    }
    Ok((values, rest))
}

/// Rows up to the first that can't be read, and the bytes from that one on.
#[derive(Drop)]
pub struct RowsRead<'a> {
    pub found: Vec<Vec<BulkValue>>,
    pub rest: &'a [u8],
}

/// Reads rows up to the first that can't be read. Each takes a byte or more, so there are no more than
/// bytes. Only memory is refused.
fn read_rows<'a>(
    alloc: Global,
    own: &Option<Vec<BoundType>>,
    in_force: &[ParameterType],
    bytes: &'a [u8],
) -> Result<RowsRead<'a>, NotRead>
    ensures { IfRead result (λ rows. rows_read_of rows ≡
        rows_at (length bytes.now) (types_by (types_of own.now) in_force.now) bytes.now) }
{
    let mut found = Vec::new(alloc);
    let mut rest = bytes;
    for _ in 0..bytes.len() {
        match read_row(alloc, own, in_force, rest) {
            Ok((row, after)) => {
                found.push(row)?;
                rest = after;
            }
            Err(NotRead::Other) => return Ok(RowsRead { found, rest }),
            Err(NotRead::Memory) => return Err(NotRead::Memory),
        }
    }
    Ok(RowsRead { found, rest })
}

/// What follows a parameter in a row, which can be read.
#[tactic(auto, unfolding(crate::specs::Bulks::bulk_value_at))]
fn skip_bulk_value(kind: ParameterType, bytes: &[u8]) -> Option<&[u8]>
    ensures { option_map (λ rest. rest.now) result ≡ option_map (λ x. x.1) (bulk_value_at kind bytes.now) }
{
    let mut rest = ParseBuf(bytes);
    let number = rest.checked_eat_u8()?;
    match MariadbBulkIndicator::try_from(number) {
        Ok(MariadbBulkIndicator::BULK_INDICATOR_NONE) => skip_typed_value(kind, rest.0),
        Ok(
            MariadbBulkIndicator::BULK_INDICATOR_NULL
            | MariadbBulkIndicator::BULK_INDICATOR_DEFAULT
            | MariadbBulkIndicator::BULK_INDICATOR_IGNORE,
        ) => Some(rest.0),
        Err(_) => None,
    }
}

/// Whether a row comes first that can be read.
pub fn begins_row(own: &Option<Vec<BoundType>>, in_force: &[ParameterType], bytes: &[u8]) -> bool
    ensures { result ≡ is_some (row_at (types_by (types_of own.now) in_force.now) bytes.now) }
{
    let mut rest = bytes;
    for place in 0..count_of(own, in_force) {
        let kind = type_of(own, in_force, place);
        match skip_bulk_value(kind, rest) {
            Some(after) => rest = after,
            None => return false,
        }
    }
    true
}

/// Reads a bulk execution.
#[tactic(auto, unfolding(crate::specs::Bulks::bulk_execution_at, crate::specs::Unclear::unclear_bulk_at))]
fn read_body(
    alloc: Global,
    capabilities: Capabilities,
    s: &StatementParameters,
    body: &[u8],
) -> Result<BulkExecution, NotRead>
    ensures reads { Gives bulk_of result (bulk_execution_at capabilities s.now body.now) }
    ensures unclear { IfOk result (λ e. unclear_bulk_at s.now body.now ≡ cells_of e.unclear) }
{
    must(has_bulk_operations(capabilities))?;
    must(!s.is_broken())?;
    must(!s.is_waiting())?;
    must(s.count() > 0)?;
    let head = read_bulk_head(body)?;
    must(are_bulk_flags(head.flags))?;
    let (own, rest) = read_own_types(
        alloc,
        carries_types(head.flags),
        false,
        usize::from(s.count()),
        head.rest,
    )?;
    check_types(s, &own)?;
    let RowsRead {
        found: rows,
        rest: behind,
    } = read_rows(alloc, &own, s.types(), rest)?;
    must(!rows.is_empty())?;
    let unclear = read_unclear_rows(alloc, &own, s.types(), &rows, rest)?;
    let behind = ByteString::copy(alloc, behind)?;
    Ok(BulkExecution {
        statement: head.statement,
        unit_results: head.flags & SEND_UNIT_RESULTS == SEND_UNIT_RESULTS,
        types: own,
        rows,
        rest: behind,
        unclear,
    })
}

/// Reads the body of a bulk execution, behind the command's first byte, by what is in force.
///
/// It is read as servers execute it: rows up to the first that can't be read, and the bytes from that
/// one on.
///
/// None where it can't be: flags that a bulk can't have, a parameter without a type, or no readable
/// row. A row isn't readable for a type without cells, an indicator without a name, or too few bytes.
/// None also where MariaDB's bulk executions aren't in force, the statement has no parameters or is
/// broken, or long data waits.
///
/// Promise: exactly the bulk execution that stands there (`bulk_execution_at`), and exactly those of
/// its cells are unclear that are so (`unclear_bulk_at`).
///
/// # Errors
/// For want of memory.
///
/// Follows "COM_STMT_BULK_EXECUTE" of MariaDB's client/server protocol documentation.
pub fn read_bulk_execution(
    alloc: Global,
    capabilities: Capabilities,
    parameters: &StatementParameters,
    body: &[u8],
) -> Result<Option<BulkExecution>, AllocError>
    ensures reads { IfOk result (λ found. option_map bulk_of found ≡
        bulk_execution_at capabilities parameters.now body.now) }
    ensures unclear { IfOk result (λ found. IfSome found (λ e.
        unclear_bulk_at parameters.now body.now ≡ cells_of e.unclear)) }
{
    match read_body(alloc, capabilities, parameters, body) {
        Ok(execution) => Ok(Some(execution)),
        Err(NotRead::Other) => Ok(None),
        Err(NotRead::Memory) => Err(AllocError),
    }
}
