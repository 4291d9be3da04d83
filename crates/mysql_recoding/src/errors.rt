//! Why a stream is not recoded.

ghost use Rattle.std.specs.Prelude.{◌≡◌, ◌⊎◌, IfNone, IfSome, Some};
ghost use Rattle.mysql_receive.specs.declared.audit.End.TheVariants as ends;
ghost use Rattle.mysql_receive.specs.Receiving.{IsMemory};
ghost use Rattle.mysql_recoding.specs.Causes.{ending_cause};
ghost use Rattle.mysql_receive.specs.declared.receiver.ReceiverError.TheVariants as receiver_error;
ghost use Rattle.mysql_recoding.specs.declared.errors.RecodeError.TheVariants as recode_error;

use mysql_receive::{End, ReceiverError, StreamFault};
use std::alloc::{AllocError, AllocFailed};
use thiserror::Error;

/// Why a stream of commands is not recoded, in the order in which the causes are looked for.
/// Payloads and sets are counted from 0.
#[derive(Clone, Copy, Debug, PartialEq, Eq, Error)]
pub enum RecodeError {
    /// The query has both names and question marks.
    #[error("the query has both named and positional parameters: use one kind")]
    Mixed,
    /// The payload of this number is refused, or the bytes behind the payloads are.
    #[error("payload {0}: {1}")]
    Stream(u64, StreamFault),
    /// The stream ends before it is whole: where long data waits, or inside a packet.
    #[error("{0}: give the rest of the stream too")]
    Unfinished(End),
    /// The query has more than 65535 placeholders.
    #[error("the query has more than 65535 placeholders: split it")]
    TooManyPlaces,
    /// The prepare is longer than a payload within the limit.
    #[error("the prepare is larger than max_allowed_packet: raise it, or shorten the query")]
    PrepareTooLarge,
    /// The execution of a set, with all its byte strings in it, is longer than a payload within the limit.
    #[error("set {0}: its execution is larger than max_allowed_packet: raise it")]
    PacketTooLarge(usize),
    #[error("out of memory")]
    Memory,
}

impl RecodeError {
    /// Why a stream that ends so is not recoded; None where it is whole. For who reads a stream by
    /// a `Receiver`, before its contents are sent by [`send_contents`](crate::send_contents).
    pub fn of_end(end: End) -> Option<RecodeError>
        ensures none { IfNone result (end ≡ ends.Whole) }
        ensures some { IfSome result (λ error. ((error ≡ recode_error.Memory) × IsMemory end) ⊎
            ((ending_cause end ≡ Some error) × (IsMemory end → ⊥))) }
    {
        match end {
            End::Fault(_, StreamFault::Memory) => Some(RecodeError::Memory),
            End::Fault(payload, fault) => Some(RecodeError::Stream(payload, fault)),
            End::WaitingPieces | End::UnfinishedPacket => Some(RecodeError::Unfinished(end)),
            End::Whole => None,
        }
    }
}

impl From<AllocError> for RecodeError {
    ghost from_gives = { λ _ e. e ≡ recode_error.Memory };

    fn from(_e: AllocError) -> RecodeError {
        RecodeError::Memory
    }
}

impl<T: Drop> From<AllocFailed<T>> for RecodeError {
    ghost from_gives = { λ _ e. e ≡ recode_error.Memory };

    fn from(_e: AllocFailed<T>) -> RecodeError {
        RecodeError::Memory
    }
}

// A stream is refused before it is read for the query or for want of memory.
impl From<ReceiverError> for RecodeError {
    ghost from_gives = { λ error e. ((error ≡ receiver_error.Mixed) × (e ≡ recode_error.Mixed)) ⊎
        ((error ≡ receiver_error.Memory) × (e ≡ recode_error.Memory)) };

    fn from(error: ReceiverError) -> RecodeError {
        match error {
            ReceiverError::Mixed => RecodeError::Mixed,
            ReceiverError::Memory => RecodeError::Memory,
        }
    }
}
