//! Why a row isn't written.

ghost use Rattle.std.specs.Prelude.{◌≡◌};
ghost use Rattle.mysql_rows.specs.declared.refusal.RowRefusal.TheVariants as refusal;

use std::alloc::AllocError;
use thiserror::Error;

/// Why a row isn't written, in the order in which the causes are looked for.
#[derive(Clone, Copy, Debug, PartialEq, Eq, Error)]
pub enum RowRefusal {
    /// The value of this cell, the least one, was taken or has no form in such a row.
    #[error("the cell {0} has no form in the row")]
    NoForm(usize),
    #[error("out of memory")]
    Memory,
}

impl From<AllocError> for RowRefusal {
    ghost from_gives = { λ _ e. e ≡ refusal.Memory };

    fn from(_e: AllocError) -> RowRefusal {
        RowRefusal::Memory
    }
}
