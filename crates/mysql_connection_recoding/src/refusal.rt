//! Why a command isn't recoded.

ghost use Rattle.std.specs.Prelude.{◌≡◌};
ghost use Rattle.mysql_connection_recoding.specs.declared.refusal.RecodingRefusal.TheVariants.{Memory};

use std::alloc::{AllocError, AllocFailed};
use thiserror::Error;

/// Why a command isn't recoded, in the order in which the causes are looked for.
#[derive(Clone, Copy, Debug, PartialEq, Eq, Error)]
pub enum RecodingRefusal {
    /// The payload is laid out as no command, so nobody knows which statement it is about.
    #[error("the payload is laid out as no command")]
    OtherPayload,
    /// The statement of this id isn't known on the other connection.
    #[error("statement {0} isn't known on the other connection: prepare it there first")]
    UnknownStatement(u32),
    /// The types that an execution lacks want memory.
    #[error("out of memory")]
    Memory,
}

impl From<AllocError> for RecodingRefusal {
    ghost from_gives = { λ _ e. e ≡ Memory };

    fn from(_e: AllocError) -> RecodingRefusal {
        RecodingRefusal::Memory
    }
}

impl<T: Drop> From<AllocFailed<T>> for RecodingRefusal {
    ghost from_gives = { λ _ e. e ≡ Memory };

    fn from(_e: AllocFailed<T>) -> RecodingRefusal {
        RecodingRefusal::Memory
    }
}
