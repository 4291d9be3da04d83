//! Why a bulk execution can't be made.

ghost use Rattle.std.specs.Prelude.{◌≡◌, IfOk};
ghost use Rattle.mysql_bulk_builder.specs.RequestErrors.{refusal_parts};
ghost use Rattle.mysql_bulk_builder.specs.declared.request_error.BulkExecuteRequestError.TheVariants as errors;

use mysql_cells::Value;
use std::alloc::{AllocError, AllocFailed, Global};
use thiserror::Error;

/// Why a bulk execution can't be made.
///
/// MariaDB: Client/Server Protocol, "COM_STMT_BULK_EXECUTE".
#[derive(Debug, PartialEq, Drop, Error)]
pub enum BulkExecuteRequestError {
    /// There are no rows.
    #[error("No parameters values given for the bulk operation")]
    NoParams,
    /// Rows have different numbers of values.
    #[error("Mixed statement arity")]
    MixedArity,
    /// This row alone exceeds the most bytes of a payload.
    #[error("Got row bigger than max payload length")]
    RowTooLarge(Vec<Value>),
    /// Memory was refused.
    #[error("out of memory")]
    Memory,
}

impl BulkExecuteRequestError {
    /// A copy.
    ///
    /// # Errors
    /// - `AllocError` for want of memory.
    pub fn clone(&self, alloc: Global) -> Result<BulkExecuteRequestError, AllocError>
        ensures { IfOk result (λ copy. refusal_parts copy ≡ refusal_parts self.now) }
    {
        match self {
            BulkExecuteRequestError::NoParams => Ok(BulkExecuteRequestError::NoParams),
            BulkExecuteRequestError::MixedArity => Ok(BulkExecuteRequestError::MixedArity),
            BulkExecuteRequestError::RowTooLarge(row) => {
                let row = row_copy(alloc, row)?;
                Ok(BulkExecuteRequestError::RowTooLarge(row))
            }
            BulkExecuteRequestError::Memory => Ok(BulkExecuteRequestError::Memory),
        }
    }
}

// Copies of the values of a row.
fn row_copy(alloc: Global, row: &[Value]) -> Result<Vec<Value>, AllocError>
    ensures { IfOk result (λ copy. copy.items ≡ row.now) }
{
    let mut copy = Vec::new(alloc);
    for value in row {
        copy.push(value.clone(alloc)?)?;
    }
    Ok(copy)
}

impl From<AllocError> for BulkExecuteRequestError {
    ghost from_gives = { λ _ e. e ≡ errors.Memory };

    fn from(_error: AllocError) -> BulkExecuteRequestError {
        BulkExecuteRequestError::Memory
    }
}

impl<T: Drop> From<AllocFailed<T>> for BulkExecuteRequestError {
    ghost from_gives = { λ _ e. e ≡ errors.Memory };

    fn from(_error: AllocFailed<T>) -> BulkExecuteRequestError {
        BulkExecuteRequestError::Memory
    }
}
