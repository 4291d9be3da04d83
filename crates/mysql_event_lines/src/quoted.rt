//! Bytes as people read them in a line: a text in double quotes, with escapes, and bytes that are no
//! text as `x` and hexadecimal.
//!
//!     push_readable(&mut line, "It's 5\" wide\n".as_bytes())?;   // "It's 5\" wide\n"
//!     push_readable(&mut line, &[0xff, 0x00])?;                   // xff00

ghost use Rattle.std.specs.Prelude.{◌≡◌, ◌++◌, ◌<◌, ◌∷◌, OnOk};
ghost use Rattle.std.specs.Str.{is_utf8};
ghost use Rattle.mysql_event_lines.specs.Laws.{QuotedIsRead, ReadableHasNoControls};
ghost use Rattle.mysql_event_lines.specs.Quoted.{digit_of, digits_of, escaped, has_no_wide_control};
ghost use Rattle.mysql_event_lines.specs.Quoted.{in_digits, is_control, quoted, readable, scan_byte};

use std::alloc::AllocError;

/// A hexadecimal digit in lower case.
fn digit_of(number: u8) -> u8
    requires { number < 16 }
    ensures { result ≡ digit_of number }
{
    if number < 10 {
        number + b'0'
    } else {
        number + (b'a' - 10)
    }
}

/// Appends a byte in two digits.
fn push_digits(out: &mut Vec<u8>, byte: u8) -> Result<(), AllocError>
    ensures { OnOk result (out.new.items ≡ out.old.items ++ digits_of byte) }
{
    out.extend_from_slice(&[digit_of(byte / 16), digit_of(byte % 16)])
}

/// Whether a byte is a control character of ASCII.
fn is_control(byte: u8) -> bool
    ensures { result ≡ is_control byte }
{
    byte < 0x20 || byte == 0x7f
}

/// Appends a control character that has no letter.
fn push_control(out: &mut Vec<u8>, byte: u8) -> Result<(), AllocError>
    ensures { OnOk result (out.new.items ≡ out.old.items ++ 0x5c ∷ 0x78 ∷ digits_of byte) }
{
    out.extend_from_slice(b"\\x")?;
    push_digits(out, byte)
}

/// Appends a byte of a text in quotes.
fn push_escaped(out: &mut Vec<u8>, byte: u8) -> Result<(), AllocError>
    ensures { OnOk result (out.new.items ≡ out.old.items ++ escaped byte) }
{
    match byte {
        b'"' => out.extend_from_slice(b"\\\""),
        b'\\' => out.extend_from_slice(b"\\\\"),
        b'\n' => out.extend_from_slice(b"\\n"),
        b'\r' => out.extend_from_slice(b"\\r"),
        b'\t' => out.extend_from_slice(b"\\t"),
        byte => {
            if is_control(byte) {
                push_control(out, byte)
            } else {
                out.extend_from_slice(&[byte])
            }
        }
    }
}

/// Appends a text in quotes.
fn push_quoted(out: &mut Vec<u8>, text: &[u8]) -> Result<(), AllocError>
    ensures { OnOk result (out.new.items ≡ out.old.items ++ quoted text.now) }
{
    out.extend_from_slice(b"\"")?;
    for byte in text {
        push_escaped(out, *byte)?;
    }
    out.extend_from_slice(b"\"")
}

/// Appends `x`, and two digits for each byte.
fn push_in_digits(out: &mut Vec<u8>, bytes: &[u8]) -> Result<(), AllocError>
    ensures { OnOk result (out.new.items ≡ out.old.items ++ in_digits bytes.now) }
{
    out.extend_from_slice(b"x")?;
    for byte in bytes {
        push_digits(out, *byte)?;
    }
    Ok(())
}

/// How far a reader has come that looks for control characters of two bytes.
#[derive(Clone, Copy)]
pub(crate) enum Scan {
    /// None is begun.
    Between,
    /// The first byte of one may be.
    Begun,
    /// There was one.
    Found,
}

/// The reader behind one more byte.
fn scan_byte(scan: Scan, byte: u8) -> Scan
    ensures { result ≡ scan_byte scan byte }
{
    match scan {
        Scan::Between if byte == 0xc2 => Scan::Begun,
        Scan::Begun if byte < 0xa0 => Scan::Found,
        Scan::Found => Scan::Found,
        _ => Scan::Between,
    }
}

/// Whether no control character of two bytes stands in bytes, and none is begun at their end.
fn has_no_wide_control(bytes: &[u8]) -> bool
    ensures { result ≡ has_no_wide_control bytes.now }
{
    let mut scan = Scan::Between;
    for byte in bytes {
        scan = scan_byte(scan, *byte);
    }
    matches!(scan, Scan::Between)
}

/// Whether bytes are UTF-8.
#[tactic(auto, using(crate::proofs::Quoting::is_text, crate::proofs::Quoting::is_no_text))]
fn is_text(bytes: &[u8]) -> bool
    ensures { result ≡ is_utf8 bytes.now }
{
    match std::str::from_utf8(bytes) {
        Ok(_) => true,
        Err(_) => false,
    }
}

/// Appends bytes as people read them: in quotes where they are UTF-8, and else in digits.
///
/// Bytes with a control character of two bytes, U+0080 to U+009F, are in digits too: terminals obey them.
///
/// # Errors
/// - `AllocError` where memory is refused. A part of what is appended may remain then.
///
/// MySQL Reference Manual, "String Literals" and "Hexadecimal Literals".
pub fn push_readable(out: &mut Vec<u8>, bytes: &[u8]) -> Result<(), AllocError>
    ensures { OnOk result (out.new.items ≡ out.old.items ++ readable bytes.now) }
{
    if is_text(bytes) && has_no_wide_control(bytes) {
        push_quoted(out, bytes)
    } else {
        push_in_digits(out, bytes)
    }
}

/// A text in quotes is read back, and what is written of bytes has no control character.
pub fn readable_bytes()
    ensures read { QuotedIsRead }
    ensures no_controls { ReadableHasNoControls }
{}
