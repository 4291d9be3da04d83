//! Bytes as literals: between quotes, or in hexadecimal, also behind an introducer.
#![tactic(auto, using(mysql_cells::proofs::Appended::what_is_kept))]

ghost use Rattle.mysql_cells.specs.Values.{Puts};
ghost use Rattle.mysql_literals.specs.Literals.{bytes_sql, hexadecimal_sql, in_quotes, quoted_sql};
ghost use Rattle.mysql_queries.specs.Written.{hex_digit, in_hexadecimal, introduced, written_byte};
ghost use Rattle.std.specs.List.{flat_map};
ghost use Rattle.std.specs.Str.{is_utf8};
ghost use Rattle.std.specs.Prelude.{◌<◌, ◌≡◌, ◌∷◌, [], Bool, IfNone, IfSome, false, true};

use mysql_bytes::Spelling;
use std::alloc::AllocError;
use std::mem::replace;
use std::str::from_utf8;

/// How many bytes are tested at a time for bytes that are escaped.
const BLOCK: usize = 32;

/// The two bytes that stand for a byte between quotes; None where it stands for itself.
fn escape(no_backslash_escape: bool, byte: u8) -> Option<(u8, u8)>
    ensures some { IfSome result (λ pair. written_byte no_backslash_escape byte ≡ pair.0 ∷ pair.1 ∷ []) }
    ensures none { IfNone result (written_byte no_backslash_escape byte ≡ byte ∷ []) }
{
    if no_backslash_escape {
        return if byte == b'\'' {
            Some((b'\'', b'\''))
        } else {
            None
        };
    }
    match byte {
        0 => Some((b'\\', b'0')),
        b'\n' => Some((b'\\', b'n')),
        b'\r' => Some((b'\\', b'r')),
        0x1a => Some((b'\\', b'Z')),
        b'\\' | b'\'' | b'"' => Some((b'\\', byte)),
        _ => None,
    }
}

/// Whether a byte is one of those that are escaped in either mode.
fn is_special(byte: u8) -> bool
    ensures { result ≡ false → (mode : Bool) → written_byte mode byte ≡ byte ∷ [] }
{
    matches!(byte, 0 | b'\n' | b'\r' | 0x1a | b'\\' | b'\'' | b'"')
}

/// Whether each byte stands for itself in each mode. There is no way out of the loop, so that many
/// bytes are compared at a time.
fn is_plain(bytes: &[u8]) -> bool
    ensures { result ≡ true → (mode : Bool) → flat_map (written_byte mode) bytes.now ≡ bytes.now }
{
    let mut special = false;
    for byte in bytes {
        special |= is_special(*byte);
    }
    !special
}

/// Appends bytes as they stand between quotes, one by one, into room that is made for all.
fn put_each(out: &mut Vec<u8>, bytes: &[u8], no_backslash_escape: bool) -> Result<(), AllocError>
    ensures { Puts (flat_map (written_byte no_backslash_escape) bytes.now) out.old.items out.new.items result }
{
    out.reserve(2 * bytes.len())?;
    // The length of what no reference leads to isn't written back for each byte.
    let mut text = replace(out, Vec::new(*out.allocator()));
    for byte in bytes {
        if let Some(pair) = escape(no_backslash_escape, *byte) {
            text.push_reserved(pair.0);
            text.push_reserved(pair.1);
        } else {
            text.push_reserved(*byte);
        }
    }
    *out = text;
    Ok(())
}

/// Appends bytes as they stand between quotes, all at once where none is escaped; the test isn't
/// worth its time for a few.
fn put_block(out: &mut Vec<u8>, bytes: &[u8], no_backslash_escape: bool) -> Result<(), AllocError>
    ensures { Puts (flat_map (written_byte no_backslash_escape) bytes.now) out.old.items out.new.items result }
{
    if bytes.len() >= BLOCK / 2 && is_plain(bytes) {
        out.extend_from_slice(bytes)
    } else {
        put_each(out, bytes, no_backslash_escape)
    }
}

/// Appends bytes as they stand between quotes.
// In a function of their own the loops over the bytes are compiled better than within the long ones that call it.
#[inline(never)]
fn put_escaped(out: &mut Vec<u8>, bytes: &[u8], no_backslash_escape: bool) -> Result<(), AllocError>
    ensures { Puts (flat_map (written_byte no_backslash_escape) bytes.now) out.old.items out.new.items result }
{
    let mut rest = bytes;
    while !rest.is_empty() {
        let (block, others) = rest.split_at(rest.len().min(BLOCK));
        put_block(out, block, no_backslash_escape)?;
        rest = others;
    }
    Ok(())
}

/// Appends bytes between single quotes.
#[inline(always)]
fn put_quoted(out: &mut Vec<u8>, bytes: &[u8], no_backslash_escape: bool) -> Result<(), AllocError>
    ensures { Puts (in_quotes (flat_map (written_byte no_backslash_escape) bytes.now))
        out.old.items out.new.items result }
{
    out.reserve(bytes.len() + 2)?;
    out.push(b'\'')?;
    put_escaped(out, bytes, no_backslash_escape)?;
    out.push(b'\'')?;
    Ok(())
}

/// The hexadecimal digit of a number below 16, in upper case.
fn digit(n: u8) -> u8
    requires { n < 16 }
    ensures { result ≡ hex_digit n }
{
    if n < 10 { b'0' + n } else { b'A' + (n - 10) }
}

/// Appends `0x` and two digits for each byte.
#[inline(never)]
fn put_hexadecimal(out: &mut Vec<u8>, bytes: &[u8]) -> Result<(), AllocError>
    ensures { Puts (in_hexadecimal bytes.now) out.old.items out.new.items result }
{
    out.extend_from_slice(b"0x")?;
    out.reserve(2 * bytes.len())?;
    // The length of what no reference leads to isn't written back for each digit.
    let mut text = replace(out, Vec::new(*out.allocator()));
    for byte in bytes {
        text.push_reserved(digit(*byte / 16));
        text.push_reserved(digit(*byte % 16));
    }
    *out = text;
    Ok(())
}

/// Whether the bytes are UTF-8.
fn is_text(bytes: &[u8]) -> bool
    ensures { result ≡ is_utf8 bytes.now }
{
    from_utf8(bytes).is_ok()
}

/// Appends bytes between quotes where they are UTF-8, else in hexadecimal.
fn put_by_quotes(
    out: &mut Vec<u8>,
    bytes: &[u8],
    no_backslash_escape: bool,
) -> Result<(), AllocError>
    ensures { Puts (quoted_sql no_backslash_escape bytes.now) out.old.items out.new.items result }
{
    if is_text(bytes) {
        put_quoted(out, bytes, no_backslash_escape)?;
    } else {
        put_hexadecimal(out, bytes)?;
    }
    Ok(())
}

/// Appends bytes in hexadecimal behind an introducer.
fn put_introduced(out: &mut Vec<u8>, bytes: &[u8]) -> Result<(), AllocError>
    ensures { Puts (introduced bytes.now) out.old.items out.new.items result }
{
    if is_text(bytes) {
        out.extend_from_slice(b"_utf8mb4 ")?;
    } else {
        out.extend_from_slice(b"_binary ")?;
    }
    put_hexadecimal(out, bytes)?;
    Ok(())
}

/// Appends bytes in hexadecimal behind an introducer, and none between quotes.
fn put_by_digits(out: &mut Vec<u8>, bytes: &[u8]) -> Result<(), AllocError>
    ensures { Puts (hexadecimal_sql bytes.now) out.old.items out.new.items result }
{
    if bytes.is_empty() {
        out.extend_from_slice(b"''")?;
    } else {
        put_introduced(out, bytes)?;
    }
    Ok(())
}

/// Appends a literal of bytes by its spelling.
pub fn put_bytes(
    out: &mut Vec<u8>,
    bytes: &[u8],
    no_backslash_escape: bool,
    spelling: Spelling,
) -> Result<(), AllocError>
    ensures { Puts (bytes_sql no_backslash_escape spelling bytes.now) out.old.items out.new.items result }
{
    match spelling {
        Spelling::Quoted => put_by_quotes(out, bytes, no_backslash_escape),
        Spelling::Hexadecimal => put_by_digits(out, bytes),
    }
}
