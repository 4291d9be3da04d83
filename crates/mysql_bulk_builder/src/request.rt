//! Bulk executions of a prepared statement: one request with many rows of parameters.
//!
//!     let request = ComStmtBulkExecuteRequest::new(alloc, stmt_id, flags, rows)?;
//!     request.serialize(&mut payload)?;

ghost use Rattle.std.specs.Prelude.{◌≡◌, ◌⊎◌, ◌*◌, IfErr, IfOk, None, OnErr, Some, [], length, map, if◌then◌else◌};
ghost use Rattle.std.specs.List.{flat_map};
ghost use Rattle.mysql_fields.specs.Wire.{Appends};
ghost use Rattle.mysql_bulk_builder.specs.Bulk.{all_values, bulk_cause, bulk_cause_with_types, bulk_execution};
ghost use Rattle.mysql_bulk_builder.specs.Bulk.{column_types_of};
ghost use Rattle.mysql_bulk_builder.specs.Bulk.{first_length, param_type_bytes, param_value_of, sends_types};
ghost use Rattle.mysql_bulk_builder.specs.Views.{bulk_view};
ghost use Rattle.mysql_bulk_builder.specs.declared.request_error.BulkExecuteRequestError.TheVariants as errors;

use crate::flat_values::{arity_of, column_types, flat};
use crate::headers::ComStmtBulkExecuteHeader;
use crate::param_type::StmtBulkExecuteParamType;
use crate::param_value::{StmtBulkExecuteParamValue, StmtBulkExecuteParamValues};
use crate::request_error::BulkExecuteRequestError;
use bitflags::Flags;
use mysql_cells::Value;
use mysql_const::StmtBulkExecuteFlags;
use mysql_fields::{LeU16, LeU32, MySerialize, RawInt, in_order};
use std::alloc::{AllocError, Global};
use std::mem;

/// An execution of a prepared statement with many rows of parameters at once.
///
/// MariaDB: Client/Server Protocol, "COM_STMT_BULK_EXECUTE".
#[derive(Debug, PartialEq, Drop)]
pub struct ComStmtBulkExecuteRequest {
    pub(crate) stmt_id: u32,
    pub(crate) bulk_flags: StmtBulkExecuteFlags,
    pub(crate) types: Vec<StmtBulkExecuteParamType>,
    pub(crate) values: StmtBulkExecuteParamValues,
}

// Whether types are sent.
pub(crate) fn sends(flags: StmtBulkExecuteFlags) -> bool
    ensures { result ≡ sends_types flags.0 }
{
    flags.contains(StmtBulkExecuteFlags::SEND_TYPES_TO_SERVER)
}

impl ComStmtBulkExecuteRequest {
    /// The execution with these rows, by the types of their values.
    ///
    /// The types are sent where the flags say so. A column has the type of its first value that
    /// isn't NULL, and NULL where there is no such value. The type is without a sign also where a
    /// later value of that type has none.
    ///
    /// Promise: the types are those of each column's first value that isn't NULL. A type is without
    /// a sign also where a later value of that type has none. It never refuses `RowTooLarge`
    /// (`column_types_of`).
    ///
    /// # Errors
    /// - `NoParams` where there are no rows.
    /// - `MixedArity` where not all have as many values as the first.
    /// - `Memory`.
    ///
    /// MariaDB: Client/Server Protocol, "COM_STMT_BULK_EXECUTE".
    pub fn new(
        alloc: Global,
        stmt_id: u32,
        bulk_flags: StmtBulkExecuteFlags,
        rows: Vec<Vec<Value>>,
    ) -> Result<ComStmtBulkExecuteRequest, BulkExecuteRequestError>
        ensures none { let rows = map (λ row. row.items) rows.items in IfOk result (λ _. bulk_cause rows ≡ None) }
        ensures ok { let rows = map (λ row. row.items) rows.items in
            IfOk result (λ r. bulk_view r ≡
            record {
              stmt_id = stmt_id;
              flags = bulk_flags.0;
              types =
                  if sends_types bulk_flags.0 then column_types_of (first_length rows) (length rows)
                  (all_values rows) else [];
              values = map param_value_of (all_values rows);
            }) }
        ensures err { let rows = map (λ row. row.items) rows.items in
            IfErr result (λ e. (e ≡ errors.Memory) ⊎ (bulk_cause rows ≡ Some e)) }
    {
        let arity = arity_of(&rows)?;
        let count = rows.len();
        let mut values = flat(alloc, rows)?;
        let made = ComStmtBulkExecuteRequest::from_flat(
            alloc,
            stmt_id,
            bulk_flags,
            arity,
            count,
            &mut values,
        )?;
        Ok(made)
    }

    /// The execution with these rows, one after another in one list.
    ///
    /// The list has `count` times `arity` values, with types as in [`new`](Self::new). It takes the
    /// values; refused for want of memory it leaves them.
    pub fn from_flat(
        alloc: Global,
        stmt_id: u32,
        bulk_flags: StmtBulkExecuteFlags,
        arity: usize,
        count: usize,
        values: &mut Vec<StmtBulkExecuteParamValue>,
    ) -> Result<ComStmtBulkExecuteRequest, AllocError>
        requires { length values.old.items ≡ count * arity }
        ensures ok { IfOk result (λ r. bulk_view r ≡
            record {
              stmt_id = stmt_id;
              flags = bulk_flags.0;
              types =
                  if sends_types bulk_flags.0 then column_types_of arity count
                  (map (λ value. value.value) values.old.items) else [];
              values = values.old.items;
            }) }
        ensures taken { IfOk result (λ _. values.new.items ≡ []) }
        ensures kept { OnErr result (values.new.items ≡ values.old.items) }
    {
        let types = if sends(bulk_flags) {
            column_types(alloc, values, arity, count)?
        } else {
            Vec::new(alloc)
        };
        let values = mem::replace(values, Vec::new(alloc));
        Ok(ComStmtBulkExecuteRequest {
            stmt_id,
            bulk_flags,
            types,
            values: StmtBulkExecuteParamValues { values },
        })
    }

    /// The execution with these rows, by these types of their columns.
    ///
    /// The types are ignored where the flags don't say that types are sent.
    ///
    /// # Errors
    /// - `NoParams` where there are no rows.
    /// - `MixedArity` where not all have as many values as the first, or where types are sent and
    ///   aren't as many.
    /// - `Memory`.
    ///
    /// MariaDB: Client/Server Protocol, "COM_STMT_BULK_EXECUTE".
    pub fn with_types(
        alloc: Global,
        stmt_id: u32,
        bulk_flags: StmtBulkExecuteFlags,
        types: Vec<StmtBulkExecuteParamType>,
        rows: Vec<Vec<Value>>,
    ) -> Result<ComStmtBulkExecuteRequest, BulkExecuteRequestError>
        ensures none { let rows = map (λ row. row.items) rows.items in
            IfOk result (λ _. bulk_cause_with_types bulk_flags.0 (length types.items) rows ≡ None) }
        ensures ok { let rows = map (λ row. row.items) rows.items in
            IfOk result (λ r. bulk_view r ≡
            record {
              stmt_id = stmt_id;
              flags = bulk_flags.0;
              types =
                  if sends_types bulk_flags.0 then types.items else [];
              values =
                  map param_value_of (all_values rows);
            }) }
        ensures err { let rows = map (λ row. row.items) rows.items in
            IfErr result (λ e. (e ≡ errors.Memory) ⊎
            (bulk_cause_with_types bulk_flags.0 (length types.items) rows ≡ Some e)) }
    {
        let arity = arity_of(&rows)?;
        let types = if sends(bulk_flags) {
            if types.len() != arity {
                return Err(BulkExecuteRequestError::MixedArity);
            }
            types
        } else {
            Vec::new(alloc)
        };
        let values = flat(alloc, rows)?;
        Ok(ComStmtBulkExecuteRequest {
            stmt_id,
            bulk_flags,
            types,
            values: StmtBulkExecuteParamValues { values },
        })
    }

    /// A copy.
    ///
    /// # Errors
    /// - `AllocError` for want of memory.
    pub fn clone(&self, alloc: Global) -> Result<ComStmtBulkExecuteRequest, AllocError>
        ensures { IfOk result (λ copy. bulk_view copy ≡ bulk_view self.now) }
    {
        let types = Vec::from_slice(alloc, &self.types)?;
        let values = self.values.clone(alloc)?;
        Ok(ComStmtBulkExecuteRequest {
            stmt_id: self.stmt_id,
            bulk_flags: self.bulk_flags,
            types,
            values,
        })
    }

    /// The statement's id.
    pub fn stmt_id(&self) -> u32
        ensures { result ≡ (bulk_view self.now).stmt_id }
    {
        self.stmt_id
    }

    /// Whether types are sent, and whether each row is answered.
    pub fn bulk_flags(&self) -> StmtBulkExecuteFlags
        ensures { result.0 ≡ (bulk_view self.now).flags }
    {
        self.bulk_flags
    }

    /// The types of the columns, none where they aren't sent.
    pub fn types(&self) -> &[StmtBulkExecuteParamType]
        ensures { result.now ≡ (bulk_view self.now).types }
    {
        &self.types
    }

    /// The values of all rows, one row after another.
    pub fn values(&self) -> &StmtBulkExecuteParamValues
        ensures { result.now.values.items ≡ (bulk_view self.now).values }
    {
        &self.values
    }
}

// Appends all types or none.
fn put_types(all: &[StmtBulkExecuteParamType], buf: &mut Vec<u8>) -> Result<(), AllocError>
    ensures { Appends result buf.old.items buf.new.items (flat_map param_type_bytes all.now) }
{
    let len = buf.len();
    for one in all {
        if let Err(e) = one.serialize(buf) {
            buf.truncate(len);
            return Err(e);
        }
    }
    Ok(())
}

// The types, where they are sent.
#[derive(Clone, Copy)]
struct SentTypes<'a> {
    sent: bool,
    types: &'a [StmtBulkExecuteParamType],
}

impl<'a> MySerialize for SentTypes<'a> {
    ghost written = { λ all. if all.sent then flat_map param_type_bytes all.types.now else [] };

    fn serialize(&self, buf: &mut Vec<u8>) -> Result<(), AllocError> {
        if !self.sent {
            return Ok(());
        }
        put_types(self.types, buf)
    }
}

#[tactic(auto, unfolding(crate::specs::Bulk::bulk_execution))]
impl MySerialize for ComStmtBulkExecuteRequest {
    ghost written = { λ r. bulk_execution (bulk_view r) };

    fn serialize(&self, buf: &mut Vec<u8>) -> Result<(), AllocError> {
        let id: RawInt<LeU32> = RawInt::new(self.stmt_id);
        let flags: RawInt<LeU16> = RawInt::new(self.bulk_flags.0);
        let types = SentTypes {
            sent: sends(self.bulk_flags),
            types: &self.types,
        };
        in_order!(
            ComStmtBulkExecuteHeader::new(),
            id,
            flags,
            types,
            self.values
        )
        .serialize(buf)
    }
}
