//! Where the server's last words are: an error that answers nothing.

ghost use Rattle.std.specs.Prelude.{◌≡◌, slice_index_or};
ghost use Rattle.mysql_connection_rules.specs.Streams.{has_number, is_early};

use mysql_connection_state::State;

/// Whether the first packet has this number.
pub fn has_number(number: u8, bytes: &[u8]) -> bool
    ensures { result ≡ has_number number bytes.now }
{
    match bytes {
        [_, _, _, first, ..] => *first == number,
        _ => false,
    }
}

/// Whether the first packet is an error with a number below the expected one.
pub fn is_early(state: &State, bytes: &[u8]) -> bool
    ensures { result ≡ is_early state.now.standing bytes.now }
{
    match bytes {
        [0, 0, 0, ..] => false,
        [_, _, _, number, 255, ..] => state.answers() && *number < state.number(),
        _ => false,
    }
}

/// The number of the first packet.
pub fn number_of(bytes: &[u8]) -> u8
    ensures { result ≡ slice_index_or bytes.now 3 0 }
{
    match bytes {
        [_, _, _, number, ..] => *number,
        _ => 0,
    }
}
