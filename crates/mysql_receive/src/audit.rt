//! What a stream of commands says.

use crate::fault::StreamFault;
use mysql_values::Content;
use std::fmt;

/// How a stream of commands ends.
#[derive(Clone, Copy, Debug, PartialEq, Eq)]
pub enum End {
    /// The payload of this number is refused, or the bytes behind the payloads are.
    Fault(u64, StreamFault),
    /// Long data waits for an execution.
    WaitingPieces,
    /// The last packet isn't whole.
    UnfinishedPacket,
    /// The bytes are whole packets.
    Whole,
}

impl fmt::Display for End {
    fn fmt<W: fmt::Write>(&self, f: &mut fmt::Formatter<W>) -> fmt::Result {
        match self {
            End::Fault(payload, fault) => write!(f, "payload {payload}: {fault}"),
            End::WaitingPieces => f.write_str("long data waits for an execution"),
            End::UnfinishedPacket => f.write_str("the last packet is not whole"),
            End::Whole => f.write_str("whole"),
        }
    }
}

/// What a stream of commands says: the parameter sets before its end, and the end.
///
/// The sets are those of all payloads before the end, place by place.
#[derive(Debug, Drop)]
pub struct Audit {
    pub sets: Vec<Vec<Content>>,
    pub end: End,
}
