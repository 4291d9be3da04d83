//! Why a row does not pass.

use std::alloc::{AllocError, AllocFailed};
use thiserror::Error;

/// Why a row does not pass, or a field stands for nothing.
#[derive(Clone, Copy, Debug, Error)]
pub enum Trouble {
    #[error("Memory")]
    Memory,
    #[error("{0}")]
    Malformed(&'static str),
}

impl From<AllocError> for Trouble {
    fn from(_e: AllocError) -> Trouble {
        Trouble::Memory
    }
}

impl<T: Drop> From<AllocFailed<T>> for Trouble {
    fn from(_e: AllocFailed<T>) -> Trouble {
        Trouble::Memory
    }
}
