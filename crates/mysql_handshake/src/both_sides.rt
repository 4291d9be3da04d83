//! The capabilities in force on a connection.
//!
//!     let both = in_force(greeting.offered(), response.offered());

ghost use Rattle.std.specs.Prelude.{◌≡◌};
ghost use Rattle.mysql_handshake.specs.Capabilities.{in_force, offered};

use bitflags::Flags;
use mysql_const::{Capabilities, CapabilityFlags, MariadbCapabilities};

/// What a side can do that says so by these two words. Those of MariaDB's own count where
/// `CLIENT_LONG_PASSWORD`, which MariaDB calls `CLIENT_MYSQL`, isn't set.
/// (MariaDB: "Connecting", 'Capabilities'.)
pub fn offered_by(protocol: CapabilityFlags, mariadb: MariadbCapabilities) -> Capabilities
    ensures { result ≡ offered protocol.0 mariadb.0 }
{
    if protocol.contains(CapabilityFlags::CLIENT_LONG_PASSWORD) {
        Capabilities {
            protocol,
            mariadb: MariadbCapabilities(0),
        }
    } else {
        Capabilities { protocol, mariadb }
    }
}

/// The capabilities in force: those that both the server and the client have, by both words.
/// (MySQL: Client/Server Protocol, "Capabilities Flags"; MariaDB: "Connecting", 'Capabilities'.)
///
/// Promise: of each word exactly the bits that both sides have (`in_force`).
#[tactic(auto, unfolding(bitflags::proofs::OnLiterals::bitflags_on_literals))]
pub fn in_force(server: Capabilities, client: Capabilities) -> Capabilities
    ensures { result ≡ in_force server client }
{
    Capabilities {
        protocol: CapabilityFlags(server.protocol.0 & client.protocol.0),
        mariadb: MariadbCapabilities(server.mariadb.0 & client.mariadb.0),
    }
}
