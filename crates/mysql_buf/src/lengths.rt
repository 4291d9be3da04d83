//! How many bytes length-encoded numbers and texts take.

ghost use Rattle.std.specs.Prelude.{◌≡◌, ◌≤◌, length};
ghost use Rattle.mysql_buf.specs.Writing.{front, lenenc_int, lenenc_str};

/// How many bytes the shortest spelling of a length-encoded number takes: 1, 3, 4 or 9.
/// (MySQL: Client/Server Protocol, "Protocol::LengthEncodedInteger".)
pub fn lenenc_int_len(number: u64) -> u64
    ensures { result ≡ length (lenenc_int number) }
{
    match number {
        0..=250 => 1,
        251..=0xffff => 3,
        0x1_0000..=0xff_ffff => 4,
        _ => 9,
    }
}

/// How many bytes a length-encoded text takes: those of its length, and its own.
/// (MySQL: Client/Server Protocol, "Protocol::LengthEncodedString".)
pub fn lenenc_str_len(text: &[u8]) -> u64
    ensures { result ≡ length (lenenc_str text.now) }
{
    let count = text.len() as u64;
    lenenc_int_len(count) + count
}

/// The first `most` bytes of a text, or all of it where it is shorter.
#[tactic(auto, unfolding(crate::specs::Writing::front))]
pub fn front_of(text: &[u8], most: usize) -> &[u8]
    ensures value { result.now ≡ front text.now most }
    ensures bound { length result.now ≤ most }
{
    if text.len() <= most {
        return text;
    }
    &text[..most]
}
