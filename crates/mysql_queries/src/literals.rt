//! Literals at the front of a text: NULL, numbers, and bytes in hexadecimal or in single quotes.
//!
//!     let mut bytes = Vec::new(alloc);
//!     if let Some((literal, rest)) = read_literal(text, &mut bytes)? {
//!         let is_null = literal == Literal::Null;
//!     }

ghost use Rattle.mysql_queries.specs.LiteralRuns.{IsLiteralRun};
ghost use Rattle.mysql_queries.specs.LiteralViews.{IsHeld, IsNoLiteral, ReadsLiteral, literal_content};
ghost use Rattle.mysql_queries.specs.Literals.{IsLiteral, lower};
ghost use Rattle.mysql_queries.specs.Sql.{default_mode};
ghost use Rattle.std.specs.Prelude.{
  ◌<◌,
  OnErr,
  vec_capacity,
  ◌≡◌,
  ◌≤◌,
  ◌↔◌,
  [],
  IfNone,
  IfOk,
  IfSome,
  IsTrue,
  codes,
  drop,
  length,
  map,
  take,
};

use crate::hexadecimal::{hex_first, read_hex, read_introduced};
use crate::numbers::read_number;
use crate::strings::read_string;
use mysql_bytes::{Mode, Spelling};
use std::alloc::AllocError;

/// A literal that was read. Bytes lie in the buffer that was lent.
#[derive(Clone, Copy, Debug, PartialEq, Eq)]
pub enum Literal {
    Null,
    Number(i128),
    Bytes,
}

fn lower_of(b: u8) -> u8
    ensures { result ≡ lower b }
{
    if b'A' <= b && b <= b'Z' { b + 32 } else { b }
}

/// Whether the four letters of NULL come first.
fn null_first(text: &[u8]) -> bool
    ensures { IsTrue result ↔ ((4 ≤ length text.now) × (map lower (take 4 text.now) ≡ codes "null")) }
{
    match text {
        [a, b, c, d, ..] => {
            lower_of(*a) == b'n'
                && lower_of(*b) == b'u'
                && lower_of(*c) == b'l'
                && lower_of(*d) == b'l'
        }
        _ => false,
    }
}

/// The literal at the front of a text, and how many bytes it takes.
fn literal_len(
    text: &[u8],
    mode: Mode,
    spelling: Spelling,
    buf: &mut Vec<u8>,
) -> Result<Option<(Literal, usize)>, AllocError>
    ensures in_range { IfOk result (λ found. IfSome found (λ x. x.1 ≤ length text.now)) }
    ensures run { IfOk result
        (λ found. IfSome found (λ x. IsLiteralRun mode spelling (take x.1 text.now)
        (drop x.1 text.now))) }
    ensures content { IfOk result
        (λ found. IfSome found (λ x. IsLiteral mode spelling (take x.1 text.now)
        (literal_content x.0 buf.new.items))) }
    ensures none { IfOk result (λ found. IfNone found (IsNoLiteral mode spelling text.now)) }
    ensures full { OnErr result (vec_capacity buf.old < length text.now) }
{
    if null_first(text) {
        return Ok(Some((Literal::Null, 4)));
    }
    if !text.is_empty() && text[0] == b'\'' {
        return match read_string(text, !mode.no_backslash_escapes, buf)? {
            Some(len) => Ok(Some((Literal::Bytes, len))),
            None => Ok(None),
        };
    }
    if hex_first(text) {
        return match read_hex(text, buf)? {
            Some(len) => Ok(Some((Literal::Bytes, len))),
            None => Ok(None),
        };
    }
    if matches!(spelling, Spelling::Hexadecimal) {
        if let Some(len) = read_introduced(text, buf)? {
            return Ok(Some((Literal::Bytes, len)));
        }
    }
    match read_number(text) {
        Some((n, len)) => Ok(Some((Literal::Number(n), len))),
        None => Ok(None),
    }
}

/// Reads the literal at the front of a text, and gives what follows it.
///
/// What the buffer held goes, and a literal's bytes are put into it. All that stands there of the
/// literal's form is read. That is all digits, `0x` with all hexadecimal digits, or a body in
/// single quotes to its closing quote. None where that is no literal.
///
/// **Read as** by a server in the default mode, without introducers: [`read_literal_in`] takes the
/// mode and the spelling.
///
/// Promise: the longest run of a literal's form is taken and its content answered, or that this run
/// is no literal (`IsLiteralRun`, `IsNoLiteral`).
///
/// # Errors
/// - `AllocError`, only where the buffer has no room for as many bytes as the text.
pub fn read_literal<'a>(
    text: &'a [u8],
    buf: &mut Vec<u8>,
) -> Result<Option<(Literal, &'a [u8])>, AllocError>
    // What is read is all of its form that stands there, and spells the content.
    ensures found { IfOk result (λ found. IfSome found
        (λ x. ReadsLiteral default_mode Spelling.Quoted text.entry.now x.0 buf.new.items x.1.now)) }
    // Nothing is read only where that is no literal.
    ensures none { IfOk result (λ found. IfNone found (IsNoLiteral default_mode Spelling.Quoted text.entry.now)) }
    // The buffer holds the bytes of a literal of bytes, else nothing.
    ensures held { IfOk result (λ found. IfSome found (λ x. IsHeld x.0 buf.new.items)) }
    ensures empty { IfOk result (λ found. IfNone found (buf.new.items ≡ [])) }
    ensures refused { OnErr result (buf.new.items ≡ []) }
    ensures full { OnErr result (vec_capacity buf.old < length text.entry.now) }
{
    read_literal_in(text, Mode::default(), Spelling::Quoted, buf)
}

/// Reads the literal at the front of a text for a server in this mode, and gives what follows it.
///
/// What the buffer held goes, and a literal's bytes are put into it. All that stands there of the
/// literal's form is read. That is all digits, `0x` with all hexadecimal digits, or a body in
/// single quotes to its closing quote. By `Spelling::Hexadecimal` `0x` and its digits are also read
/// behind `_utf8mb4 ` and `_binary `, written so. None where that is no literal.
///
/// Whether bytes behind `_utf8mb4 ` are UTF-8 isn't looked at: a server refuses a statement in which
/// they aren't.
///
/// Promise: the longest run of a literal's form is taken and its content answered, or that this run
/// is no literal (`IsLiteralRun`, `IsNoLiteral`).
///
/// # Errors
/// - `AllocError`, only where the buffer has no room for as many bytes as the text.
///
/// (MySQL Reference Manual, "Literal Values", "Character Set Introducers", "Server SQL Modes"
/// (NO_BACKSLASH_ESCAPES).)
pub fn read_literal_in<'a>(
    text: &'a [u8],
    mode: Mode,
    spelling: Spelling,
    buf: &mut Vec<u8>,
) -> Result<Option<(Literal, &'a [u8])>, AllocError>
    // What is read is all of its form that stands there, and spells the content.
    ensures found { IfOk result (λ found. IfSome found
        (λ x. ReadsLiteral mode spelling text.entry.now x.0 buf.new.items x.1.now)) }
    // Nothing is read only where that is no literal.
    ensures none { IfOk result (λ found. IfNone found (IsNoLiteral mode spelling text.entry.now)) }
    // The buffer holds the bytes of a literal of bytes, else nothing.
    ensures held { IfOk result (λ found. IfSome found (λ x. IsHeld x.0 buf.new.items)) }
    ensures empty { IfOk result (λ found. IfNone found (buf.new.items ≡ [])) }
    ensures refused { OnErr result (buf.new.items ≡ []) }
    ensures full { OnErr result (vec_capacity buf.old < length text.entry.now) }
{
    let found = literal_len(text, mode, spelling, buf);
    if !matches!(found, Ok(Some((Literal::Bytes, _)))) {
        buf.clear();
    }
    match found? {
        Some((literal, len)) => Ok(Some((literal, &text[len..]))),
        None => Ok(None),
    }
}
