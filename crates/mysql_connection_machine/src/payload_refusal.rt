//! Why a payload isn't put.

use mysql_connection_rules::Fault;
use std::alloc::AllocError;
use thiserror::Error;

/// Why a payload isn't put on a connection.
///
/// MySQL: Client/Server Protocol, "Connection Lifecycle" and "MySQL Packets".
#[derive(Clone, Copy, Debug, PartialEq, Eq, Error)]
pub enum PayloadRefusal {
    /// It isn't its side's turn, or the side's stream has ended or has bytes that come first.
    #[error("it is not the turn of the payload's side")]
    NotDue,
    /// It is longer than the limit of its side.
    #[error("the payload is longer than the limit")]
    TooLarge,
    /// It can't be read at this turn.
    #[error("the payload can't be read here: {0}")]
    BadPayload(Fault),
    /// More would be kept behind it than has room.
    #[error("more would be kept than the limit has room for")]
    Held,
    /// Memory ran out.
    #[error("out of memory")]
    Memory,
}

impl From<AllocError> for PayloadRefusal {
    ghost use Rattle.std.specs.Prelude.{◌≡◌};
    ghost use Rattle.mysql_connection_machine.specs.declared.payload_refusal.PayloadRefusal.TheVariants.{Memory};

    ghost from_gives = { λ _ refusal. refusal ≡ Memory };

    fn from(_: AllocError) -> PayloadRefusal {
        PayloadRefusal::Memory
    }
}
