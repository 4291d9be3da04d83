//! Why a run stops before its end, and what is printed then.

ghost use Rattle.std.specs.Prelude.{◌≡◌};
ghost use Rattle.mysql_command_line.specs.declared.stop.Stop.TheVariants as stop;

use crate::position::BadTranscript;
use mysql_session::{ReceiverError, RecodeError, Refusal};
use std::alloc::{AllocError, AllocFailed};
use std::io;

/// Why a run stops before its end.
#[derive(Drop)]
pub(crate) enum Stop {
    /// The words are none that the program knows.
    Usage,
    /// The limit is no whole number from 4 on that a `usize` holds.
    BadLimit,
    /// The input could not be read to its end.
    BadInput,
    /// The input is no list of parameter sets in JSON.
    BadJson,
    /// The input is no list of records.
    BadTranscript,
    /// The sets are not sent.
    Sending(Refusal),
    /// The stream is not received.
    Receiving(ReceiverError),
    /// The stream is not recoded.
    Recoding(RecodeError),
    /// A side of a connection is ahead of the other one by more than is held.
    Held,
    /// A growth of memory was refused.
    Memory,
    /// The output could not be written.
    Writing,
}

impl From<AllocError> for Stop {
    ghost from_gives = { λ _ s. s ≡ stop.Memory };

    fn from(_e: AllocError) -> Stop {
        Stop::Memory
    }
}

impl<T: Drop> From<AllocFailed<T>> for Stop {
    ghost from_gives = { λ _ s. s ≡ stop.Memory };

    fn from(_e: AllocFailed<T>) -> Stop {
        Stop::Memory
    }
}

impl From<BadTranscript> for Stop {
    fn from(_e: BadTranscript) -> Stop {
        Stop::BadTranscript
    }
}

impl From<io::Error> for Stop {
    // An event's line is printed into memory first. Any other error is the output's.
    fn from(error: io::Error) -> Stop {
        match error.kind() {
            io::ErrorKind::OutOfMemory => Stop::Memory,
            _ => Stop::Writing,
        }
    }
}

impl From<Refusal> for Stop {
    ghost from_gives = { λ refusal s. s ≡ stop.Sending refusal };

    fn from(refusal: Refusal) -> Stop {
        Stop::Sending(refusal)
    }
}

impl From<ReceiverError> for Stop {
    ghost from_gives = { λ error s. s ≡ stop.Receiving error };

    fn from(error: ReceiverError) -> Stop {
        Stop::Receiving(error)
    }
}

impl From<RecodeError> for Stop {
    ghost from_gives = { λ error s. s ≡ stop.Recoding error };

    fn from(error: RecodeError) -> Stop {
        Stop::Recoding(error)
    }
}

/// What is printed where a run stops.
#[derive(Clone, Copy)]
pub(crate) enum Answer {
    /// A separate line.
    Line(&'static str),
    /// A line that names a refusal.
    Refused(&'static str),
    /// Nothing, since the output can't be written.
    Nothing,
}

impl Stop {
    /// What is printed.
    pub(crate) fn answer(&self) -> Answer {
        match self {
            Stop::Usage => Answer::Line("usage"),
            Stop::BadLimit => Answer::Line("bad limit"),
            Stop::BadInput => Answer::Line("bad input"),
            Stop::BadJson => Answer::Line("bad json"),
            Stop::BadTranscript => Answer::Line("bad transcript"),
            Stop::Sending(refusal) => Answer::Refused(refusal_name(refusal)),
            Stop::Receiving(error) => Answer::Refused(receiver_error_name(*error)),
            Stop::Recoding(error) => Answer::Refused(recode_error_name(*error)),
            Stop::Held => Answer::Refused("Held"),
            Stop::Memory => Answer::Refused("Memory"),
            Stop::Writing => Answer::Nothing,
        }
    }
}

/// The name that a refusal of sets is printed by.
fn refusal_name(refusal: &Refusal) -> &'static str {
    match refusal {
        Refusal::Mixed => "Mixed",
        Refusal::NotAlone(_) => "NotAlone",
        Refusal::TooManyPlaces => "TooManyPlaces",
        Refusal::PrepareTooLarge => "PrepareTooLarge",
        Refusal::NoPlaces => "NoPlaces",
        Refusal::Params(_, _) => "Params",
        Refusal::WrongCount(_) => "WrongCount",
        Refusal::Float(_, _) => "Float",
        Refusal::PacketTooLarge(_) => "PacketTooLarge",
        Refusal::MixedKinds(_, _) => "MixedKinds",
        Refusal::RowTooLarge(_) => "RowTooLarge",
        Refusal::Memory => "Memory",
    }
}

/// The name that is printed where a stream can't be received.
fn receiver_error_name(error: ReceiverError) -> &'static str {
    match error {
        ReceiverError::Mixed => "Mixed",
        ReceiverError::Memory => "Memory",
    }
}

/// The name that is printed where a stream isn't recoded.
fn recode_error_name(error: RecodeError) -> &'static str {
    match error {
        RecodeError::Mixed => "Mixed",
        RecodeError::Stream(_, _) => "Stream",
        RecodeError::Unfinished(_) => "Unfinished",
        RecodeError::TooManyPlaces => "TooManyPlaces",
        RecodeError::PrepareTooLarge => "PrepareTooLarge",
        RecodeError::PacketTooLarge(_) => "PacketTooLarge",
        RecodeError::Memory => "Memory",
    }
}
