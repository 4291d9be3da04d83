//! Reads bulk executions, by their own types or by those that are in force.
//!
//!     let request: ComStmtBulkExecuteRequest = ParseBuf(payload).parse(alloc, columns)?;

ghost use Rattle.std.specs.Prelude.{◌≡◌, IfOk, None, map, true};
ghost use Rattle.mysql_fields.specs.Laws.{unsized};
ghost use Rattle.mysql_fields.specs.Wire.{GivesPart, TellsPart};
ghost use Rattle.mysql_field_lists.specs.Lists.{elements_at};
ghost use Rattle.mysql_bulk_builder.specs.Bulk.{BulkExecution};
ghost use Rattle.mysql_bulk_builder.specs.Reading.{bulk_execution_at, bulk_flags_named, bulk_head_at};
ghost use Rattle.mysql_bulk_builder.specs.Reading.{column_by as column_of};
ghost use Rattle.mysql_bulk_builder.specs.Reading.{columns_by as columns_of, param_type_at, sent_types_at};
ghost use Rattle.mysql_bulk_builder.specs.Views.{bulk_view};

use crate::headers::ComStmtBulkExecuteHeader;
use crate::param_type::StmtBulkExecuteParamType;
use crate::param_value::StmtBulkExecuteParamValues;
use crate::reading::values_of;
use crate::request::{ComStmtBulkExecuteRequest, sends};
use bitflags::Flags;
use mysql_buf::ParseBuf;
use mysql_const::{ColumnFlags, ColumnType, StmtBulkExecuteFlags, StmtExecuteParamFlags};
use mysql_fields::{MyDeserialize, ParseExt, Readable, WireError};
use std::alloc::{AllocError, Global};

// The flags of these bits, where they all have names.
fn bulk_flags(bits: u16) -> Option<StmtBulkExecuteFlags>
    ensures { result ≡ bulk_flags_named bits }
{
    StmtBulkExecuteFlags::from_bits(bits)
}

// What stands before the types: the statement's id and the flags.
#[tactic(auto, unfolding(crate::specs::Reading::bulk_head_at))]
fn head_of(alloc: Global, rest: &mut ParseBuf) -> Result<(u32, StmtBulkExecuteFlags), WireError>
    ensures { TellsPart (λ head. head) rest.new.0.now result (bulk_head_at rest.old.0.now) }
{
    let _header: ComStmtBulkExecuteHeader = rest.parse(alloc, ())?;
    let id = rest.checked_eat_u32_le().ok_or(WireError::UnexpectedEof)?;
    let bits = rest.checked_eat_u16_le().ok_or(WireError::UnexpectedEof)?;
    match bulk_flags(bits) {
        Some(flags) => Ok((id, flags)),
        None => Err(WireError::UnknownValue),
    }
}

// So many types.
fn many_types(
    alloc: Global,
    count: usize,
    rest: &mut ParseBuf,
) -> Result<Vec<StmtBulkExecuteParamType>, WireError>
    ensures { GivesPart (λ types. types.items) rest.new.0.now result (elements_at param_type_at count rest.old.0.now) }
{
    let mut types = Vec::new(alloc);
    for _ in 0..count {
        let one: StmtBulkExecuteParamType = rest.parse(alloc, ())?;
        types.push(one)?;
    }
    Ok(types)
}

// As many types as there are columns, where they are sent.
fn types_of(
    alloc: Global,
    flags: StmtBulkExecuteFlags,
    count: usize,
    rest: &mut ParseBuf,
) -> Result<Vec<StmtBulkExecuteParamType>, WireError>
    ensures { GivesPart (λ types. types.items) rest.new.0.now result (sent_types_at flags.0 count rest.old.0.now) }
{
    if !sends(flags) {
        return Ok(Vec::new(alloc));
    }
    many_types(alloc, count, rest)
}

// The type and the flags of a column by the type that was sent for it.
fn column_by(sent: &StmtBulkExecuteParamType) -> (ColumnType, ColumnFlags)
    ensures { result ≡ column_of sent.now }
{
    let flags = if sent.flags().contains(StmtExecuteParamFlags::UNSIGNED) {
        ColumnFlags(0x20)
    } else {
        ColumnFlags(0)
    };
    (sent.column_type(), flags)
}

// The columns of the types that were sent.
fn columns_by(
    alloc: Global,
    types: &[StmtBulkExecuteParamType],
) -> Result<Vec<(ColumnType, ColumnFlags)>, AllocError>
    ensures { IfOk result (λ columns. columns.items ≡ map column_of types.now) }
{
    let mut columns = Vec::new(alloc);
    for sent in types {
        columns.push(column_by(sent))?;
    }
    Ok(columns)
}

// The columns by which rows are read: those of the types that were sent, else those that are known.
fn columns_in_force(
    alloc: Global,
    flags: StmtBulkExecuteFlags,
    types: &[StmtBulkExecuteParamType],
    known: Vec<(ColumnType, ColumnFlags)>,
) -> Result<Vec<(ColumnType, ColumnFlags)>, AllocError>
    ensures { IfOk result (λ columns. columns.items ≡ columns_of flags.0 types.now known.items) }
{
    if sends(flags) {
        columns_by(alloc, types)
    } else {
        Ok(known)
    }
}

impl Readable for ComStmtBulkExecuteRequest {
    type Ctx = Vec<(ColumnType, ColumnFlags)>;

    ghost AsksForMemory = { true };

    ghost Shown = { BulkExecution };

    ghost shown = { bulk_view };

    ghost kept = { bulk_view };

    ghost read_at = { λ columns bytes. bulk_execution_at columns.items bytes };

    ghost sized = { λ columns. unsized (bulk_execution_at columns.items) };

    fn size() -> Option<usize>
        ensures { result ≡ None }
    {
        None
    }
}

#[tactic(auto, unfolding(crate::specs::Reading::bulk_execution_at))]
fn request_of(
    alloc: Global,
    columns: Vec<(ColumnType, ColumnFlags)>,
    rest: &mut ParseBuf,
) -> Result<ComStmtBulkExecuteRequest, WireError>
    ensures { GivesPart bulk_view rest.new.0.now result (bulk_execution_at columns.items rest.old.0.now) }
{
    let (stmt_id, bulk_flags) = head_of(alloc, rest)?;
    let types = types_of(alloc, bulk_flags, columns.len(), rest)?;
    let columns = columns_in_force(alloc, bulk_flags, &types, columns)?;
    let values = values_of(alloc, &columns, rest)?;
    Ok(ComStmtBulkExecuteRequest {
        stmt_id,
        bulk_flags,
        types,
        values: StmtBulkExecuteParamValues { values },
    })
}

/// Reads a bulk execution and its first row, and leaves the rest. The context gives the type and
/// flags of each column; types that are sent take their place. Refused by UnexpectedEof where it is
/// cut off, and by BadConstant for another first byte. Refused by UnknownValue for flags, types or
/// indicators without names, and by UnsupportedType for a cell of a type that has none. Of these it
/// is whichever stands first, then Memory.
///
/// MariaDB: Client/Server Protocol, "COM_STMT_BULK_EXECUTE".
impl<'de> MyDeserialize<'de> for ComStmtBulkExecuteRequest {
    // COM_STMT_BULK_EXECUTE:
    //   int<1>  header fa
    //   int<4>  statement id
    //   int<2>  bulk flags: 0x80 where types are sent
    //   where types are sent, for each parameter:
    //     int<1>  field type
    //     int<1>  parameter flag
    //   then, to the end, for each row and each parameter:
    //     int<1>  indicator
    //     byte<n> cell, behind the indicator 0
    fn deserialize(
        alloc: Global,
        columns: Vec<(ColumnType, ColumnFlags)>,
        buf: &mut ParseBuf<'de>,
    ) -> Result<ComStmtBulkExecuteRequest, WireError> {
        let mut rest = *buf;
        let request = request_of(alloc, columns, &mut rest)?;
        *buf = rest;
        Ok(request)
    }
}
