//! Why a stream of commands is refused.

use std::error::Error;
use std::fmt;

/// Why a stream of commands is refused: the first field, from the left, that has no allowed value.
///
/// Follows the MySQL Client/Server Protocol, "Command Phase", and MariaDB's "COM_STMT_BULK_EXECUTE".
#[derive(Clone, Copy, Debug, PartialEq, Eq)]
pub enum StreamFault {
    /// A chunk's header takes its packet past the limit.
    TooLarge,
    /// A chunk stands whole whose number isn't the one that is due.
    OutOfSync,
    /// A payload has no byte.
    EmptyCommand,
    /// The first byte is no command that is read here.
    OtherCommand,
    /// A text isn't the query's pieces with literals between them.
    TextMismatch,
    /// A text comes where some placeholder of the query doesn't stand alone.
    NotAlone,
    /// A prepare isn't the query with a question mark for each placeholder.
    PrepareMismatch,
    /// A prepare comes where the query has more than 65535 placeholders.
    TooManyPlaces,
    /// Long data, an execute or a bulk comes before a prepare.
    NotPrepared,
    /// Another statement's id.
    WrongId,
    /// An execute has a cursor, another count than 1, a bound flag above 1, or a wrong length.
    ///
    /// That is too few bytes, or bytes left over.
    BadExecute,
    /// An execute or a bulk has no types, and none are kept.
    NoTypes,
    /// A type has no name or no cells, or its flags aren't 0 or 128.
    BadType,
    /// The cell of a float would have to be read.
    Float,
    /// Long data is for no placeholder of the query.
    BadPlace,
    /// A bulk has other flags than 64 and 128, or too few bytes, or the query has no placeholders.
    BadBulk,
    /// A bulk's indicator is above 1.
    Indicator,
    /// A bulk has no row.
    NoRows,
    /// Long data waits where a bulk comes.
    PiecesBeforeBulk,
    /// A growth of memory was refused.
    Memory,
}

impl StreamFault {
    // What is printed.
    fn text(self) -> &'static str {
        match self {
            StreamFault::TooLarge => "the packet is larger than max_allowed_packet",
            StreamFault::OutOfSync => "a chunk has another number than the one that is due",
            StreamFault::EmptyCommand => "the payload is empty",
            StreamFault::OtherCommand => "the command is none that is read here",
            StreamFault::TextMismatch => "the text is not the query with literals in place",
            StreamFault::NotAlone => "some placeholder of the query does not stand alone",
            StreamFault::PrepareMismatch => "the prepare is not that of the query",
            StreamFault::TooManyPlaces => "the query has more than 65535 placeholders",
            StreamFault::NotPrepared => "the statement is not prepared",
            StreamFault::WrongId => "the id is another statement's",
            StreamFault::BadExecute => "the execution is malformed",
            StreamFault::NoTypes => "there are no types for the values",
            StreamFault::BadType => "a type is not one of a parameter",
            StreamFault::Float => "a value is a float",
            StreamFault::BadPlace => "the long data is for no placeholder",
            StreamFault::BadBulk => "the bulk execution is malformed",
            StreamFault::Indicator => "an indicator is neither none nor NULL",
            StreamFault::NoRows => "the bulk execution has no row",
            StreamFault::PiecesBeforeBulk => "long data waits before a bulk execution",
            StreamFault::Memory => "out of memory",
        }
    }
}

impl fmt::Display for StreamFault {
    fn fmt<W: fmt::Write>(&self, f: &mut fmt::Formatter<W>) -> fmt::Result {
        f.write_str(self.text())
    }
}

impl Error for StreamFault {}
