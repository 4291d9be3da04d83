//! Why an event isn't written.

ghost use Rattle.std.specs.Prelude.{◌≡◌};
ghost use Rattle.mysql_connection_writer.specs.declared.refusal.EventRefusal.TheVariants.{Memory};

use mysql_authentication::LoginRefusal;
use mysql_command_writer::CommandRefusal;
use std::alloc::AllocError;
use thiserror::Error;

/// Why no payload says an event where it stands.
///
/// MySQL: Client/Server Protocol, "Connection Phase" and "Command Phase".
#[derive(Clone, Copy, Debug, PartialEq, Eq, Error)]
pub enum BadEvent {
    /// A packet of logging in, or an error: the first cause against it.
    #[error("{0}")]
    Login(LoginRefusal),
    /// A command: the cause against it.
    #[error("{0}")]
    Command(CommandRefusal),
    /// An event of another phase, or one whose payload would be read as another there.
    #[error("the event would not be read as it is")]
    ReadsOtherwise,
}

/// Why an event isn't written.
#[derive(Clone, Copy, Debug, PartialEq, Eq, Error)]
pub enum EventRefusal {
    /// No payload says it where it stands.
    #[error("{0}")]
    BadEvent(BadEvent),
    /// Memory ran out.
    #[error("out of memory")]
    Memory,
}

impl From<AllocError> for EventRefusal {
    ghost from_gives = { λ _ refusal. refusal ≡ Memory };

    fn from(_: AllocError) -> EventRefusal {
        EventRefusal::Memory
    }
}
