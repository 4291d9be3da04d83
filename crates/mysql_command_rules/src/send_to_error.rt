//! Why sets are not written.

ghost use Rattle.std.specs.Prelude.{◌≡◌};
ghost use Rattle.mysql_command_rules.specs.declared.send_to_error.SendToError.TheVariants as errors;

use crate::refusal::Refusal;
use std::io;
use thiserror::Error;

/// Why not all sets were written.
#[derive(Debug, Drop, Error)]
pub enum SendToError {
    /// Why the sets are refused, and how many of them were written before, each whole.
    #[error("{0} (sets written before it: {1}; go on behind them)")]
    Refused(Refusal, usize),
    /// The writer failed: it took a front of what carries the sets, and not all of it.
    #[error("{0}: what was written may end inside a packet, close the connection")]
    Io(io::Error),
}

impl From<io::Error> for SendToError {
    ghost from_gives = { λ error e. e ≡ errors.Io error };

    fn from(error: io::Error) -> SendToError {
        SendToError::Io(error)
    }
}
