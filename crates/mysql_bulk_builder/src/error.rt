//! Why a row is not taken, and why no request is built.

ghost use Rattle.std.specs.Prelude.{◌≡◌, IfOk};
ghost use Rattle.mysql_bulk_builder.specs.declared.error.BulkExecuteRequestBuilderError.TheVariants as builder_error;
ghost use Rattle.mysql_bulk_builder.specs.Errors.{IsSameError, error_of_params, error_of_request};

use crate::BulkExecuteRequestError;
use mysql_values::ParamsError;
use std::alloc::{AllocError, Global};
use thiserror::Error;

/// Why a builder does not take a row, or builds no request.
#[derive(Debug, PartialEq, Drop, Error)]
pub enum BulkExecuteRequestBuilderError {
    #[error(transparent)]
    Request(BulkExecuteRequestError),
    #[error(transparent)]
    Params(ParamsError),
    #[error("out of memory")]
    Memory,
}

impl BulkExecuteRequestBuilderError {
    /// A copy.
    ///
    /// # Errors
    /// - `AllocError` for want of memory.
    pub fn clone(&self, alloc: Global) -> Result<BulkExecuteRequestBuilderError, AllocError>
        ensures { IfOk result (λ copy. IsSameError copy self.now) }
    {
        match self {
            BulkExecuteRequestBuilderError::Request(error) => {
                Ok(BulkExecuteRequestBuilderError::Request(error.clone(alloc)?))
            }
            BulkExecuteRequestBuilderError::Params(error) => {
                Ok(BulkExecuteRequestBuilderError::Params(error.clone(alloc)?))
            }
            BulkExecuteRequestBuilderError::Memory => Ok(BulkExecuteRequestBuilderError::Memory),
        }
    }
}

impl From<AllocError> for BulkExecuteRequestBuilderError {
    ghost from_gives = { λ _ e. e ≡ builder_error.Memory };

    fn from(_e: AllocError) -> BulkExecuteRequestBuilderError {
        BulkExecuteRequestBuilderError::Memory
    }
}

/// Want of memory is that of the whole.
impl From<ParamsError> for BulkExecuteRequestBuilderError {
    ghost from_gives = { λ inner outer. outer ≡ error_of_params inner };

    fn from(error: ParamsError) -> BulkExecuteRequestBuilderError {
        match error {
            ParamsError::Memory => BulkExecuteRequestBuilderError::Memory,
            other => BulkExecuteRequestBuilderError::Params(other),
        }
    }
}

impl From<BulkExecuteRequestError> for BulkExecuteRequestBuilderError {
    ghost from_gives = { λ inner outer. outer ≡ error_of_request inner };

    fn from(error: BulkExecuteRequestError) -> BulkExecuteRequestBuilderError {
        match error {
            BulkExecuteRequestError::Memory => BulkExecuteRequestBuilderError::Memory,
            other => BulkExecuteRequestBuilderError::Request(other),
        }
    }
}
