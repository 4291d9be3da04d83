//! Why a command isn't put.

ghost use Rattle.std.specs.Prelude.{◌≡◌};
ghost use Rattle.mysql_command_writer.specs.Causes.{cause_of};
ghost use Rattle.mysql_command_writer.specs.declared.refusal.CommandRefusal.TheVariants.{Memory};

use mysql_execution_writer::PutRefusal;
use std::alloc::AllocError;
use thiserror::Error;

/// Why a command isn't put: its payload would read as another one.
///
/// MySQL: Client/Server Protocol, "Command Phase".
#[derive(Clone, Copy, Debug, PartialEq, Eq, Error)]
pub enum CommandRefusal {
    /// A zero in a name that ends at its first zero.
    #[error("a zero in a name that ends at its first zero")]
    ZeroByte,
    /// A text that is longer than its length can say.
    #[error("a text that is longer than its length can say")]
    TooLong,
    /// Flags that have no name.
    #[error("flags that have no name")]
    NamelessFlags,
    /// What isn't in force: attributes of a query.
    #[error("what the capabilities in force don't have")]
    NotAgreed,
    /// An execution of a statement that isn't known.
    #[error("an execution of a statement that is not known")]
    UnknownStatement,
    /// An execution, or a row of a bulk one, has another number of values than parameters.
    /// The server counted these as it prepared the statement.
    #[error("another number of values than the statement has parameters")]
    WrongCount,
    /// Bytes that say nothing known, but are laid out as a command.
    #[error("bytes of another command that are laid out as one that is known")]
    ReadsAsCommand,
    /// A payload that would read otherwise. Of a change of user it has fields that the capabilities
    /// in force don't have, or a zero in a name. Or its plugin isn't the one that its name says. Of
    /// an execution or of attributes it has values without a cell by their types, or types, names
    /// or flags that it can't have.
    #[error("the payload would read otherwise")]
    ReadsOtherwise,
    /// A growth of a buffer was refused.
    #[error("out of memory")]
    Memory,
}

/// Why an execution or attributes aren't put, as a command's.
impl From<PutRefusal> for CommandRefusal {
    ghost from_gives = { λ refusal cause. cause ≡ cause_of refusal };

    fn from(refusal: PutRefusal) -> CommandRefusal {
        match refusal {
            PutRefusal::Unreadable => CommandRefusal::ReadsOtherwise,
            PutRefusal::Memory => CommandRefusal::Memory,
        }
    }
}

impl From<AllocError> for CommandRefusal {
    ghost from_gives = { λ _ refusal. refusal ≡ Memory };

    fn from(_: AllocError) -> CommandRefusal {
        CommandRefusal::Memory
    }
}
