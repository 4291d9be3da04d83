//! What stands in a row's place.

ghost use Rattle.std.specs.Prelude.{◌≡◌};
ghost use Rattle.mysql_row_refs.specs.Lines.{begins_with, is_row as is_row_by_first, terminator_limit};

use mysql_const::MAX_PAYLOAD_LEN;

/// Whether a payload begins with a byte.
#[inline(always)]
pub fn starts_with(payload: &[u8], byte: u8) -> bool
    ensures { result ≡ begins_with byte payload.now }
{
    match payload {
        [] => false,
        [first, ..] => *first == byte,
    }
}

/// The length from which on a payload that begins with fe is a row.
///
/// With `CLIENT_DEPRECATE_EOF`, as `deprecates_eof` tells, that is the longest payload, else 9.
///
/// MySQL: Client/Server Protocol, "EOF_Packet" and "OK_Packet".
#[inline(always)]
pub fn limit_of_terminators(deprecates_eof: bool) -> usize
    ensures { result ≡ terminator_limit deprecates_eof }
{
    if deprecates_eof { MAX_PAYLOAD_LEN } else { 9 }
}

/// Whether a payload in a row's place is a row.
///
/// Then it is no error, which begins with ff, and no terminator, which begins with fe. With
/// `CLIENT_DEPRECATE_EOF`, as `deprecates_eof` tells, that is an OK packet, which is shorter than
/// the longest payload. Else it is an EOF packet of less than 9 bytes.
///
/// MySQL: Client/Server Protocol, "Text Resultset" and "Binary Protocol Resultset", "EOF_Packet"
/// and "OK_Packet".
#[inline(always)]
pub fn is_row(payload: &[u8], deprecates_eof: bool) -> bool
    ensures { result ≡ is_row_by_first deprecates_eof payload.now }
{
    if starts_with(payload, 255) {
        false
    } else if starts_with(payload, 254) && payload.len() < limit_of_terminators(deprecates_eof) {
        false
    } else {
        true
    }
}
