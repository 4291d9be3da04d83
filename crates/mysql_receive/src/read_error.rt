//! Why a payload is not read.

ghost use Rattle.std.specs.Prelude.{◌≡◌};
ghost use Rattle.mysql_receive.specs.declared.read_error.ReadError.TheVariants.{Memory};

use crate::fault::StreamFault;
use std::alloc::{AllocError, AllocFailed};

/// Why a payload was not read: memory ran out, or its first fault.
#[derive(Debug, Drop)]
pub enum ReadError {
    Memory,
    Fault(StreamFault),
}

impl From<AllocError> for ReadError {
    ghost from_gives = { λ _ e. e ≡ Memory };

    fn from(_e: AllocError) -> ReadError {
        ReadError::Memory
    }
}

impl<T: Drop> From<AllocFailed<T>> for ReadError {
    ghost from_gives = { λ _ e. e ≡ Memory };

    fn from(_e: AllocFailed<T>) -> ReadError {
        ReadError::Memory
    }
}
