//! Why a value of Rust has no value of the protocol.
//!
//!     let value = match duration.to_value(alloc) {
//!         Ok(value) => value,
//!         Err(ToValueError::TooLong) => Value::NULL,
//!         Err(ToValueError::Memory) => return Err(ToValueError::Memory),
//!     };

ghost use Rattle.std.specs.Prelude.{◌≡◌};
ghost use Rattle.mysql_convert.specs.declared.to_value_error.ToValueError.TheVariants as to_value_error;

use std::alloc::{AllocError, AllocFailed};
use thiserror::Error;

/// Why a value of Rust has no [`Value`].
#[derive(Clone, Copy, Debug, PartialEq, Eq, Hash, Error)]
pub enum ToValueError {
    /// A duration of more than 2^32-1 days.
    #[error("too long for a value: a time has at most 4294967295 days")]
    TooLong,
    #[error("out of memory")]
    Memory,
}

impl From<AllocError> for ToValueError {
    ghost from_gives = { λ _ e. e ≡ to_value_error.Memory };

    fn from(_e: AllocError) -> ToValueError {
        ToValueError::Memory
    }
}

impl<T: Drop> From<AllocFailed<T>> for ToValueError {
    ghost from_gives = { λ _ e. e ≡ to_value_error.Memory };

    fn from(_e: AllocFailed<T>) -> ToValueError {
        ToValueError::Memory
    }
}
