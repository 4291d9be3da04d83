//! Why nothing was read.

ghost use Rattle.std.specs.Prelude.{◌≡◌};
ghost use Rattle.mysql_executions.specs.declared.not_read.NotRead.TheVariants.{Memory};

use std::alloc::{AllocError, AllocFailed};

/// Why nothing was read: it isn't laid out so, or memory ran out.
#[derive(Clone, Copy, Debug, PartialEq, Eq)]
pub enum NotRead {
    Other,
    Memory,
}

impl From<AllocError> for NotRead {
    ghost from_gives = { λ _ e. e ≡ Memory };

    fn from(_e: AllocError) -> NotRead {
        NotRead::Memory
    }
}

impl<T: Drop> From<AllocFailed<T>> for NotRead {
    ghost from_gives = { λ _ e. e ≡ Memory };

    fn from(_e: AllocFailed<T>) -> NotRead {
        NotRead::Memory
    }
}
