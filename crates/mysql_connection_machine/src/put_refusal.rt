//! Why an event isn't put.

use mysql_connection_writer::BadEvent;
use std::alloc::AllocError;
use thiserror::Error;

/// Why an event isn't put on a connection.
///
/// MySQL: Client/Server Protocol, "Connection Lifecycle".
#[derive(Clone, Copy, Debug, PartialEq, Eq, Error)]
pub enum PutRefusal {
    /// It isn't its side's turn, or the side's stream has ended or has bytes that come first.
    #[error("it is not the turn of the event's side")]
    NotDue,
    /// No packet says it here, for this cause.
    #[error("no packet says the event here: {0}")]
    BadEvent(BadEvent),
    /// Its payload is longer than the limit of its side.
    #[error("its payload is longer than the limit")]
    TooLarge,
    /// More would be kept behind it than has room.
    #[error("more would be kept than the limit has room for")]
    Held,
    /// Memory ran out.
    #[error("out of memory")]
    Memory,
}

impl From<AllocError> for PutRefusal {
    ghost use Rattle.std.specs.Prelude.{◌≡◌};
    ghost use Rattle.mysql_connection_machine.specs.declared.put_refusal.PutRefusal.TheVariants.{Memory};

    ghost from_gives = { λ _ refusal. refusal ≡ Memory };

    fn from(_: AllocError) -> PutRefusal {
        PutRefusal::Memory
    }
}
