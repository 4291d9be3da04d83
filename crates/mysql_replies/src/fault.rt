//! What is wrong with a reply.

ghost use Rattle.std.specs.Prelude.{◌≡◌};
ghost use Rattle.mysql_replies.specs.Reply as reply;

use mysql_reply_events::ReplyFault as EventFault;
use std::error::Error;
use std::fmt;

/// Why a payload, or the bytes after the payloads, have no place in a reply.
///
/// MySQL: Client/Server Protocol, "COM_QUERY Response".
#[derive(Clone, Copy, Debug, PartialEq, Eq)]
pub enum ReplyFault {
    /// A packet takes more bytes than the limit, or is the payload of number 2^64 - 1.
    TooLarge,
    /// A chunk has a wrong number.
    OutOfSync,
    /// A first payload is empty, or begins with no byte that its command allows.
    BadHeader,
    /// A count of columns is not from 1 to 65535, or bytes follow it. Or a byte that says whether
    /// columns follow is neither 0 nor 1.
    BadCount,
    /// A column packet can't be read.
    BadColumn,
    /// An OK packet can't be read.
    BadOk,
    /// An error packet or a progress report can't be read.
    BadError,
    /// A row can't be read, or bytes follow it, or its columns aren't known.
    BadRow,
    /// What ends columns or rows can't be read.
    BadTerminator,
    /// A statement packet can't be read.
    BadPrepare,
    /// Bytes follow the last result.
    AfterEnd,
    /// Memory ran out.
    Memory,
}

impl ReplyFault {
    // What is printed.
    fn text(self) -> &'static str {
        match self {
            ReplyFault::TooLarge => "the packet is larger than max_allowed_packet",
            ReplyFault::OutOfSync => "a chunk has another number than the one that is due",
            ReplyFault::BadHeader => "the first byte is none that the command allows",
            ReplyFault::BadCount => "the count of columns can't be read",
            ReplyFault::BadColumn => "a column can't be read",
            ReplyFault::BadOk => "an OK packet can't be read",
            ReplyFault::BadError => "an error or a progress report can't be read",
            ReplyFault::BadRow => "a row can't be read",
            ReplyFault::BadTerminator => "what ends columns or rows can't be read",
            ReplyFault::BadPrepare => "the answer to a prepare can't be read",
            ReplyFault::AfterEnd => "bytes follow the last result",
            ReplyFault::Memory => "out of memory",
        }
    }
}

impl fmt::Display for ReplyFault {
    fn fmt<W: fmt::Write>(&self, f: &mut fmt::Formatter<W>) -> fmt::Result {
        f.write_str(self.text())
    }
}

impl Error for ReplyFault {}

/// The fault of a payload, by the name that it has here.
pub fn fault_of(fault: EventFault) -> ReplyFault
    ensures { result ≡ reply.fault_of fault }
{
    match fault {
        EventFault::BadHeader => ReplyFault::BadHeader,
        EventFault::BadCount => ReplyFault::BadCount,
        EventFault::BadColumn => ReplyFault::BadColumn,
        EventFault::BadOk => ReplyFault::BadOk,
        EventFault::BadError => ReplyFault::BadError,
        EventFault::BadRow => ReplyFault::BadRow,
        EventFault::BadTerminator => ReplyFault::BadTerminator,
        EventFault::BadPrepare => ReplyFault::BadPrepare,
        EventFault::NotDue => ReplyFault::AfterEnd,
        EventFault::Memory => ReplyFault::Memory,
    }
}
