//! The server's first packet, the versions that it names, and the capabilities in force.
//!
//! The crates of logging in use it. A user names its items by `mysql_login`.
//!
//!     let greeting: HandshakePacket = ParseBuf(payload).parse(alloc, ())?;
//!     let version = greeting.server_version_parsed();           // Some((8, 0, 36))
//!     let scramble = greeting.nonce(alloc)?;
//!     let both = in_force(greeting.offered(), client);          // what both sides have
#![tactic(auto)]

mod both_sides;
mod handshake;
mod versions;

pub use crate::both_sides::{in_force, offered_by};
pub use crate::handshake::HandshakePacket;
