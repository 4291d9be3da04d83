//! Why a connection is read no further, and why bytes of it are refused.

use mysql_connection_rules::{Fault, Side};
use std::error::Error;
use std::fmt;

/// Why a connection can't be read further, and where.
///
/// MySQL: Client/Server Protocol, "MySQL Packets".
#[derive(Clone, Copy, Debug, PartialEq, Eq)]
pub struct ConnectionFault {
    /// The side whose packet it is.
    pub side: Side,
    /// The byte of its stream that the packet begins with, counted from 0.
    pub byte: u64,
    /// What is wrong with it.
    pub fault: Fault,
}

/// Why a connection takes no more bytes of a side.
#[derive(Clone, Copy, Debug, PartialEq, Eq)]
pub enum FeedRefusal {
    /// The side's stream has ended.
    Closed,
    /// More of the side would wait unread than the longest packet. Events are taken first.
    Held,
    /// Memory ran out.
    Memory,
}

/// The name of a side: `client` or `server`.
pub fn side_name(side: Side) -> &'static str {
    match side {
        Side::Client => "client",
        Side::Server => "server",
    }
}

impl fmt::Display for ConnectionFault {
    fn fmt<W: fmt::Write>(&self, f: &mut fmt::Formatter<W>) -> fmt::Result {
        write!(
            f,
            "{}, byte {}: {}",
            side_name(self.side),
            self.byte,
            self.fault
        )
    }
}

impl Error for ConnectionFault {}

impl fmt::Display for FeedRefusal {
    fn fmt<W: fmt::Write>(&self, f: &mut fmt::Formatter<W>) -> fmt::Result {
        f.write_str(match self {
            FeedRefusal::Closed => "the stream has ended",
            FeedRefusal::Held => "more bytes would wait unread than the limit",
            FeedRefusal::Memory => "out of memory",
        })
    }
}

impl Error for FeedRefusal {}
