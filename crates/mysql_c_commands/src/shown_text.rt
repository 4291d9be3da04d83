//! Texts as C sees them.

ghost use Rattle.std.specs.Prelude.{◌≡◌, length, option_map};
ghost use Rattle.std.specs.Cow.{cow_slice_items};
ghost use Rattle.mysql_handshake_response.specs.Parts.{or_empty};
ghost use Rattle.mysql_c_commands.specs.LoginTexts.{given, has_zero};

use mysql_c_handles::start_of;
use std::borrow::CowSlice;

/// Bytes as C sees them: where they begin, and how many they are.
#[repr(C)]
#[derive(Clone, Copy)]
pub struct ShownText {
    pub at: *const u8,
    pub len: usize,
}

/// These bytes, which stay where they are.
pub(crate) fn shown(bytes: &[u8]) -> ShownText
    ensures { result.len ≡ length bytes.now }
{
    ShownText {
        at: start_of(bytes),
        len: bytes.len(),
    }
}

/// A text, or no bytes where there is none.
pub(crate) fn or_no_bytes(text: Option<&[u8]>) -> &[u8]
    ensures { result.now ≡ or_empty (option_map (λ bytes. bytes.now) text.entry) }
{
    match text {
        Some(bytes) => bytes,
        None => &[],
    }
}

/// A text that C gives: none where it has no bytes.
pub(crate) fn given(text: &[u8]) -> Option<&[u8]>
    ensures { option_map (λ bytes. bytes.now) result ≡ given text.now }
{
    if text.is_empty() {
        return None;
    }
    Some(text)
}

/// A text that may be none, borrowed.
pub(crate) fn lent(text: Option<&[u8]>) -> Option<CowSlice<'_, u8>>
    ensures { option_map cow_slice_items result ≡ option_map (λ bytes. bytes.now) text.entry }
{
    match text {
        Some(bytes) => Some(CowSlice::Borrowed(bytes)),
        None => None,
    }
}

/// Whether a zero byte is in a text.
pub(crate) fn has_zero(text: &[u8]) -> bool
    ensures { result ≡ has_zero text.now }
{
    text.iter().any(|byte| *byte == 0)
}
