//! Why a payload has no place in a reply.

use std::error::Error;
use std::fmt;

/// Why a payload has no place in a reply.
///
/// MySQL: Client/Server Protocol, "COM_QUERY Response".
#[derive(Clone, Copy, Debug, PartialEq, Eq)]
pub enum ReplyFault {
    /// A first payload is empty, or begins with no byte that its command allows.
    BadHeader,
    /// A count of columns isn't from 1 to 65535, or bytes follow it. Or a byte that says whether
    /// columns follow is neither 0 nor 1. Or columns don't follow, and none of that number are
    /// known.
    BadCount,
    /// A column packet can't be read.
    BadColumn,
    /// An OK packet can't be read.
    BadOk,
    /// An error packet or a progress report can't be read.
    BadError,
    /// A row can't be read, or bytes follow it, or its columns aren't known.
    BadRow,
    /// What ends columns or rows can't be read.
    BadTerminator,
    /// A statement packet can't be read.
    BadPrepare,
    /// No payload of that side is due.
    NotDue,
    /// Memory ran out.
    Memory,
}

impl ReplyFault {
    // What is printed.
    fn text(self) -> &'static str {
        match self {
            ReplyFault::BadHeader => "the first byte is none that the command allows",
            ReplyFault::BadCount => "the count of columns can't be read",
            ReplyFault::BadColumn => "a column can't be read",
            ReplyFault::BadOk => "an OK packet can't be read",
            ReplyFault::BadError => "an error or a progress report can't be read",
            ReplyFault::BadRow => "a row can't be read",
            ReplyFault::BadTerminator => "what ends columns or rows can't be read",
            ReplyFault::BadPrepare => "the answer to a prepare can't be read",
            ReplyFault::NotDue => "no payload of that side is due",
            ReplyFault::Memory => "out of memory",
        }
    }
}

impl fmt::Display for ReplyFault {
    fn fmt<W: fmt::Write>(&self, f: &mut fmt::Formatter<W>) -> fmt::Result {
        f.write_str(self.text())
    }
}

impl Error for ReplyFault {}
