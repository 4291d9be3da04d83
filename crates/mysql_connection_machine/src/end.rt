//! The state of a connection once both of its streams have ended.

use crate::fault::ConnectionFault;
use mysql_connection_rules::{Reason, Side};

/// The state of a connection once both of its streams have ended.
///
/// MySQL: Client/Server Protocol, "Connection Lifecycle".
#[derive(Clone, Copy, Debug, PartialEq, Eq)]
pub enum End {
    /// It is over: what follows isn't read here.
    Over(Reason),
    /// A command was due, and all bytes were read.
    Whole,
    /// A packet of this side comes next, and isn't whole.
    Unfinished(Side),
    /// It has a fault.
    Fault(ConnectionFault),
    /// `next_event` still has an answer.
    Unread,
}
