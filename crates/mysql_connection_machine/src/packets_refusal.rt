//! Why packets aren't put.

use crate::payload_refusal::PayloadRefusal;
use thiserror::Error;

/// Why the payload of one of the packets isn't put on a connection. Those before it were put.
///
/// MySQL: Client/Server Protocol, "MySQL Packets" and "Sequence ID".
#[derive(Clone, Copy, Debug, PartialEq, Eq, Error)]
#[error("the packet that begins at byte {used} is not put: {cause}")]
pub struct PacketsRefusal {
    /// How many bytes the packets before it take.
    pub used: usize,
    /// Why it isn't put.
    pub cause: PayloadRefusal,
}
