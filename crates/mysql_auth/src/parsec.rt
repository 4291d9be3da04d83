//! The salt of MariaDB's plugin `parsec`.

ghost use Rattle.std.specs.Prelude.{◌≡◌, MatchOption, None, Some};
ghost use Rattle.mysql_auth.specs.Plugins.{parsec_salt};

/// The number of iterations and the salt that a server's packet names.
///
/// The packet has 20 bytes: the first is `P`, and the second is a factor of at most 20. The
/// iterations are 1024 times two to the factor. None of other bytes. (MariaDB: "Authentication
/// Plugin - PARSEC".)
///
/// Promise: exactly the iterations and the salt of such a packet are answered, and None of any
/// other (`parsec_salt`).
pub fn parse_parsec_salt(packet: &[u8]) -> Option<(u32, &[u8; 18])>
    ensures { MatchOption result (parsec_salt packet.now ≡ None) (λ found. parsec_salt packet.now ≡
        Some (found.0, found.1.now)) }
{
    if packet.len() != 20 {
        return None;
    }
    if packet[0] != b'P' || packet[1] > 20 {
        return None;
    }
    match packet.split_last_chunk::<18>() {
        Some((_, salt)) => Some((1024 << packet[1], salt)),
        None => None,
    }
}
