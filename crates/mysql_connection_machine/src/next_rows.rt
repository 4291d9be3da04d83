//! A row behind another one, taken where it lies: as most payloads of a long result are, it changes
//! next to nothing.

ghost use Rattle.std.specs.Prelude.{◌≤◌};
ghost use Rattle.mysql_connection_machine.specs.NextRows.{TakesRowBy};
ghost use Rattle.mysql_connection_rules.specs.Standing.{kept};
ghost use Rattle.mysql_connection_rules.specs.Streams.{room_to_keep};

use crate::stream_buffer::StreamBuffer;
use mysql_connection_rules::{Limits, Side};
use mysql_connection_state::State;
use mysql_wire::one_chunk;

/// A row of the server's behind another one, whose packet has one chunk, is lent. `false` says
/// nothing of the next payload.
pub fn take_row(limits: Limits, state: &mut State, server: &mut StreamBuffer) -> bool
    requires { kept state.old.standing ≤ room_to_keep limits }
    ensures { TakesRowBy limits state.old.standing server.old.stream result state.new server.new }
{
    let number = state.number();
    let Some(payload) = one_chunk(limits.server, number, server.as_slice()) else {
        return false;
    };
    let used = 4 + payload.len();
    if !server.can_advance(used) {
        return false;
    }
    if state.take_row(payload) {
        state.set_number(Side::Server, number.wrapping_add(1));
        server.lend(used);
        true
    } else {
        false
    }
}
