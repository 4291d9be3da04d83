//! Why something isn't written.

ghost use Rattle.std.specs.Prelude.{◌≡◌};
ghost use Rattle.mysql_execution_writer.specs.declared.refusal.PutRefusal.TheVariants.{Memory};

use std::alloc::AllocError;
use thiserror::Error;

/// Why an execution or attributes aren't written.
#[derive(Clone, Copy, Debug, PartialEq, Eq, Error)]
pub enum PutRefusal {
    /// No bytes are read as it, by what is in force.
    #[error("no payload is read as this")]
    Unreadable,
    /// A growth of memory was refused.
    #[error("out of memory")]
    Memory,
}

impl From<AllocError> for PutRefusal {
    ghost from_gives = { λ _ e. e ≡ Memory };

    fn from(_e: AllocError) -> PutRefusal {
        PutRefusal::Memory
    }
}
