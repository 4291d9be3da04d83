//! How much of a connection is held.

ghost use Rattle.std.specs.Prelude.{◌≡◌, ◌*◌};
ghost use Rattle.mysql_wire.specs.FirstPacket.{most_chunks};
ghost use Rattle.mysql_connection_rules.specs.Streams.{limit_of, room, room_to_keep};

use mysql_connection_rules::{Limits, Side};
use mysql_const::MAX_PAYLOAD_LEN;

/// The longest payload of a side.
pub fn limit_of(side: Side, limits: Limits) -> usize
    ensures { result ≡ limit_of side limits }
{
    match side {
        Side::Client => limits.client,
        Side::Server => limits.server,
    }
}

// The headers of the longest payload.
fn headers(limit: usize) -> usize
    ensures { result ≡ 4 * most_chunks limit }
{
    4 * (limit / MAX_PAYLOAD_LEN + 1)
}

/// How many bytes of a side may wait unread.
pub fn room(side: Side, limits: Limits) -> u128
    ensures { result ≡ room side limits }
{
    let limit = limit_of(side, limits);
    limit as u128 + headers(limit) as u128
}

/// What the limit leaves for what is kept.
pub fn room_to_keep(limits: Limits) -> usize
    ensures { result ≡ room_to_keep limits }
{
    let Limits {
        client,
        server,
        held,
    } = limits;
    let behind_client = held.saturating_sub(client).saturating_sub(headers(client));
    behind_client
        .saturating_sub(server)
        .saturating_sub(headers(server))
}
