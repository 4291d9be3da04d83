//! What codes of connections say in English.

ghost use Rattle.std.specs.Prelude.{◌≡◌, ◌-◌, ℕ, List, IsTrue, length};
ghost use Rattle.mysql_c_handles.specs.Texts.{ends_at_nul};

use mysql_c_handles::{code_text, start_of};

/// Shows the text of a code, that of a connection too.
///
/// Its length is without the NUL byte behind it.
pub fn connection_code_text(number: u32, text: &mut *const u8, len: &mut usize)
    ensures { (shown : List ℕ) × IsTrue (ends_at_nul shown) × (len.new ≡ length shown - 1) }
{
    if number / 100 != 5 {
        return code_text(number, text, len);
    }
    let shown = text_of(number);
    *text = start_of(shown);
    *len = shown.len().saturating_sub(1);
}

/// The text of a code of a connection.
fn text_of(number: u32) -> &'static [u8]
    ensures { IsTrue (ends_at_nul result.now) }
{
    match number {
        500 => b"the side's stream has ended\0",
        501 => b"more of the side would wait unread than its longest payload takes\0",
        510 => b"connection: a payload is longer than the limit of its side\0",
        511 => b"connection: a packet has another number than the one that is due\0",
        512 => b"connection: the protocol is an old one\0",
        513 => b"connection: the greeting can't be read\0",
        514 => b"connection: the login is cut off\0",
        515 => b"connection: the request for a plugin can't be read\0",
        516 => b"connection: the server says what nothing asked for\0",
        517 => b"connection: more would be kept than the limit leaves\0",
        518 => b"connection: the client says more behind a quit\0",
        519 => b"connection: no payload of that side of a reply is due\0",
        520 => b"connection: it is not the turn of this side's payload\0",
        521 => b"connection: the statement whose sets are put is not known\0",
        522 =>
            b"connection: the server counted another number of parameters than the query has placeholders\0",
        _ => b"no such code\0",
    }
}
