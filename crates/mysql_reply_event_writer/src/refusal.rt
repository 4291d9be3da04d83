//! Why an event is not written.

ghost use Rattle.std.specs.Prelude.{◌≡◌};
ghost use Rattle.mysql_reply_event_writer.specs.declared.refusal.ReplyPutRefusal.TheVariants as refusal;

use std::alloc::AllocError;
use thiserror::Error;

/// Why an event is not written.
///
/// MySQL: Client/Server Protocol, "COM_QUERY Response".
#[derive(Clone, Copy, Debug, PartialEq, Eq, Error)]
pub enum ReplyPutRefusal {
    /// No payload of the server is due.
    #[error("no payload of the server is due")]
    NotDue,
    /// The event would not be read as it is: it has no place there, or no payload tells it.
    #[error("the event would not be read as it is")]
    BadEvent,
    /// Memory ran out.
    #[error("out of memory")]
    Memory,
}

impl From<AllocError> for ReplyPutRefusal {
    ghost from_gives = { λ _ e. e ≡ refusal.Memory };

    fn from(_e: AllocError) -> ReplyPutRefusal {
        ReplyPutRefusal::Memory
    }
}
