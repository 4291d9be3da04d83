//! Rows of a bulk execution, as they are read.

ghost use Rattle.std.specs.Prelude.{◌≡◌, List, None, true};
ghost use Rattle.mysql_fields.specs.Laws.{unsized};
ghost use Rattle.mysql_fields.specs.Wire.{Gives, GivesPart};
ghost use Rattle.mysql_bulk_builder.specs.Reading.{bulk_row_at, bulk_value_at, held_at, param_value_at};
ghost use Rattle.mysql_bulk_builder.specs.Reading.{param_values_at};
ghost use Rattle.mysql_bulk_builder.specs.declared.param_value.StmtBulkExecuteParamValue.{
  StmtBulkExecuteParamValue as ParamValue,
};

use crate::param_value::{StmtBulkExecuteParamValue, StmtBulkExecuteParamValues};
use mysql_buf::ParseBuf;
use mysql_cells::{BinValue, Value, ValueDeserializer};
use mysql_const::{ColumnFlags, ColumnType, MariadbBulkIndicator};
use mysql_field_constants::Const;
use mysql_fields::{MyDeserialize, ParseExt, Readable, WireError};
use std::alloc::Global;

// What an indicator holds: the cell where there is a value, else NULL.
fn held(
    alloc: Global,
    column: (ColumnType, ColumnFlags),
    indicator: MariadbBulkIndicator,
    rest: &mut ParseBuf,
) -> Result<Value, WireError>
    ensures { GivesPart (λ value. value) rest.new.0.now result (held_at column indicator rest.old.0.now) }
{
    match indicator {
        MariadbBulkIndicator::BULK_INDICATOR_NONE => {
            let cell: ValueDeserializer<BinValue> = rest.parse(alloc, column)?;
            Ok(cell.0)
        }
        MariadbBulkIndicator::BULK_INDICATOR_NULL => Ok(Value::NULL),
        MariadbBulkIndicator::BULK_INDICATOR_DEFAULT => Ok(Value::NULL),
        MariadbBulkIndicator::BULK_INDICATOR_IGNORE => Ok(Value::NULL),
    }
}

impl Readable for StmtBulkExecuteParamValue {
    type Ctx = (ColumnType, ColumnFlags);

    ghost AsksForMemory = { true };

    ghost Shown = { ParamValue };

    ghost shown = { λ p. p };

    ghost kept = { λ p. p };

    ghost read_at = { λ column bytes. param_value_at column bytes };

    ghost sized = { λ column. unsized (param_value_at column) };

    fn size() -> Option<usize>
        ensures { result ≡ None }
    {
        None
    }
}

/// Reads a value by its column's type and flags. A cell follows the indicator 0. After 1 (NULL), 2
/// (DEFAULT) and 3 (IGNORE) the value is NULL, without a cell. Refused by UnexpectedEof where it is
/// cut off, UnknownValue for another indicator, UnsupportedType for a cell of a type that has none,
/// Memory.
///
/// MariaDB: Client/Server Protocol, "COM_STMT_BULK_EXECUTE".
#[tactic(auto, unfolding(crate::specs::Reading::param_value_at))]
impl<'de> MyDeserialize<'de> for StmtBulkExecuteParamValue {
    // A parameter of a row:
    //   int<1>  indicator: 0 none, 1 NULL, 2 DEFAULT, 3 IGNORE
    //   byte<n> cell in the binary format, behind the indicator 0
    fn deserialize(
        alloc: Global,
        column: (ColumnType, ColumnFlags),
        buf: &mut ParseBuf<'de>,
    ) -> Result<StmtBulkExecuteParamValue, WireError> {
        let mut rest = *buf;
        let indicator: Const<MariadbBulkIndicator, u8> = rest.parse(alloc, ())?;
        let value = held(alloc, column, indicator.get(), &mut rest)?;
        *buf = rest;
        Ok(StmtBulkExecuteParamValue {
            indicator: indicator.get(),
            value,
        })
    }
}

// A value for each column.
pub(crate) fn values_of(
    alloc: Global,
    columns: &[(ColumnType, ColumnFlags)],
    rest: &mut ParseBuf,
) -> Result<Vec<StmtBulkExecuteParamValue>, WireError>
    ensures { GivesPart (λ values. values.items) rest.new.0.now result (param_values_at columns.now rest.old.0.now) }
{
    let mut values = Vec::new(alloc);
    for column in columns {
        let value: StmtBulkExecuteParamValue = rest.parse(alloc, *column)?;
        values.push(value)?;
    }
    Ok(values)
}

impl Readable for StmtBulkExecuteParamValues {
    type Ctx = Vec<(ColumnType, ColumnFlags)>;

    ghost AsksForMemory = { true };

    ghost Shown = { List ParamValue };

    ghost shown = { λ row. row.values.items };

    ghost kept = { λ row. row.values.items };

    ghost read_at = { λ columns bytes. param_values_at columns.items bytes };

    ghost sized = { λ columns. unsized (param_values_at columns.items) };

    fn size() -> Option<usize>
        ensures { result ≡ None }
    {
        None
    }
}

/// Reads the values of one row by the types and flags of its columns. Refused as its first value that is.
///
/// MariaDB: Client/Server Protocol, "COM_STMT_BULK_EXECUTE".
impl<'de> MyDeserialize<'de> for StmtBulkExecuteParamValues {
    fn deserialize(
        alloc: Global,
        columns: Vec<(ColumnType, ColumnFlags)>,
        buf: &mut ParseBuf<'de>,
    ) -> Result<StmtBulkExecuteParamValues, WireError> {
        let mut rest = *buf;
        let values = values_of(alloc, &columns, &mut rest)?;
        *buf = rest;
        Ok(StmtBulkExecuteParamValues { values })
    }
}

// The value that stands first, without its indicator.
fn value_of(
    alloc: Global,
    column: &(ColumnType, ColumnFlags),
    rest: &mut ParseBuf,
) -> Result<Value, WireError>
    ensures { GivesPart (λ value. value) rest.new.0.now result (bulk_value_at column.now rest.old.0.now) }
{
    let found: StmtBulkExecuteParamValue = rest.parse(alloc, *column)?;
    Ok(found.value)
}

// The values of a row.
fn row_of(
    alloc: Global,
    columns: &[(ColumnType, ColumnFlags)],
    rest: &mut ParseBuf,
) -> Result<Vec<Value>, WireError>
    ensures { GivesPart (λ row. row.items) rest.new.0.now result (bulk_row_at columns.now rest.old.0.now) }
{
    let mut row = Vec::new(alloc);
    for column in columns {
        let value = value_of(alloc, column, rest)?;
        row.push(value)?;
    }
    Ok(row)
}

/// Reads one row of a bulk execution by the types and flags of its columns.
///
/// What follows the row is left. Behind the indicator 0 stands a cell; 1 (NULL), 2 (DEFAULT) and 3
/// (IGNORE) have none, and are NULL.
///
/// Promise: exactly the row that stands first is read, or the refusal of its first value that
/// fails, which leaves all bytes (`bulk_row_at`).
///
/// # Errors
/// At the first value that fails:
/// - `UnexpectedEof` where it is cut off.
/// - `UnknownValue` for another indicator.
/// - `UnsupportedType` for a cell of a type that has none.
/// - `Memory`.
///
/// All bytes are left after an error.
///
/// MariaDB: Client/Server Protocol, "COM_STMT_BULK_EXECUTE".
pub fn read_bulk_row(
    alloc: Global,
    types: &[(ColumnType, ColumnFlags)],
    buf: &mut ParseBuf,
) -> Result<Vec<Value>, WireError>
    ensures { Gives (λ row. row.items) buf.old.0.now buf.new.0.now result (bulk_row_at types.now buf.old.0.now) }
{
    let mut rest = *buf;
    let row = row_of(alloc, types, &mut rest)?;
    *buf = rest;
    Ok(row)
}
