//! Values of a bulk execution.

ghost use Rattle.std.specs.Prelude.{◌≡◌, ◌++◌, IfOk, OnOk, flat_map, map};
ghost use Rattle.mysql_fields.specs.Wire.{Appends};
ghost use Rattle.mysql_bulk_builder.specs.Bulk.{param_value_bytes, param_value_of};

use mysql_cells::Value;
use mysql_const::MariadbBulkIndicator;
use mysql_fields::{MySerialize, in_order};
use std::alloc::{AllocError, Global};

/// A value with what stands before it: that it is NULL, or that its cell follows.
///
/// MariaDB: Client/Server Protocol, "COM_STMT_BULK_EXECUTE".
#[derive(Debug, PartialEq, Drop)]
pub struct StmtBulkExecuteParamValue {
    pub(crate) indicator: MariadbBulkIndicator,
    pub(crate) value: Value,
}

impl StmtBulkExecuteParamValue {
    /// This value, by the indicator that it is sent with.
    pub fn new(value: Value) -> StmtBulkExecuteParamValue
        ensures { result ≡ param_value_of value }
    {
        let indicator = match value {
            Value::NULL => MariadbBulkIndicator::BULK_INDICATOR_NULL,
            _ => MariadbBulkIndicator::BULK_INDICATOR_NONE,
        };
        StmtBulkExecuteParamValue { indicator, value }
    }

    /// What stands before it.
    pub fn indicator(&self) -> MariadbBulkIndicator
        ensures { result ≡ self.now.indicator }
    {
        self.indicator
    }

    /// The value.
    pub fn value(&self) -> &Value
        ensures { result.now ≡ self.now.value }
    {
        &self.value
    }

    /// A copy.
    ///
    /// # Errors
    /// - `AllocError` for want of memory.
    pub fn clone(&self, alloc: Global) -> Result<StmtBulkExecuteParamValue, AllocError>
        ensures { IfOk result (λ copy. copy ≡ self.now) }
    {
        let value = self.value.clone(alloc)?;
        Ok(StmtBulkExecuteParamValue {
            indicator: self.indicator,
            value,
        })
    }
}

impl MySerialize for StmtBulkExecuteParamValue {
    ghost written = { param_value_bytes };

    fn serialize(&self, buf: &mut Vec<u8>) -> Result<(), AllocError> {
        in_order!([u8::from(self.indicator)], self.value).serialize(buf)
    }
}

/// The values of all rows of a bulk execution, one row after another.
///
/// MariaDB: Client/Server Protocol, "COM_STMT_BULK_EXECUTE".
#[derive(Debug, PartialEq, Drop)]
pub struct StmtBulkExecuteParamValues {
    pub(crate) values: Vec<StmtBulkExecuteParamValue>,
}

impl StmtBulkExecuteParamValues {
    /// These values, each by the indicator that it is sent with.
    ///
    /// # Errors
    /// - `AllocError` for want of memory.
    pub fn new(alloc: Global, values: Vec<Value>) -> Result<StmtBulkExecuteParamValues, AllocError>
        ensures { IfOk result (λ made. made.values.items ≡ map param_value_of values.items) }
    {
        let mut made = Vec::new(alloc);
        push_row(values, &mut made)?;
        Ok(StmtBulkExecuteParamValues { values: made })
    }

    /// A copy.
    ///
    /// # Errors
    /// - `AllocError` for want of memory.
    pub fn clone(&self, alloc: Global) -> Result<StmtBulkExecuteParamValues, AllocError>
        ensures { IfOk result (λ copy. copy.values.items ≡ self.now.values.items) }
    {
        let values = copies_of(alloc, &self.values)?;
        Ok(StmtBulkExecuteParamValues { values })
    }

    /// The values.
    pub fn as_slice(&self) -> &[StmtBulkExecuteParamValue]
        ensures { result.now ≡ self.now.values.items }
    {
        &self.values
    }
}

// Appends the values of a row, each by its indicator.
pub(crate) fn push_row(
    row: Vec<Value>,
    all: &mut Vec<StmtBulkExecuteParamValue>,
) -> Result<(), AllocError>
    ensures { OnOk result (all.new.items ≡ all.old.items ++ map param_value_of row.items) }
{
    for value in row {
        all.push(StmtBulkExecuteParamValue::new(value))?;
    }
    Ok(())
}

// Copies of values.
fn copies_of(
    alloc: Global,
    values: &[StmtBulkExecuteParamValue],
) -> Result<Vec<StmtBulkExecuteParamValue>, AllocError>
    ensures { IfOk result (λ copies. copies.items ≡ values.now) }
{
    let mut copies = Vec::new(alloc);
    for value in values {
        copies.push(value.clone(alloc)?)?;
    }
    Ok(copies)
}

// Appends all values or none.
fn put_values(all: &[StmtBulkExecuteParamValue], buf: &mut Vec<u8>) -> Result<(), AllocError>
    ensures { Appends result buf.old.items buf.new.items (flat_map param_value_bytes all.now) }
{
    let len = buf.len();
    for value in all {
        if let Err(e) = value.serialize(buf) {
            buf.truncate(len);
            return Err(e);
        }
    }
    Ok(())
}

impl MySerialize for StmtBulkExecuteParamValues {
    ghost written = { λ all. flat_map param_value_bytes all.values.items };

    fn serialize(&self, buf: &mut Vec<u8>) -> Result<(), AllocError> {
        put_values(&self.values, buf)
    }
}
