//! Literals in hexadecimal, also behind an introducer.

ghost use Rattle.mysql_queries.specs.LiteralRuns.{IsHexRun, IsIntroducedRun, begins_hex};
ghost use Rattle.mysql_queries.specs.Literals.{IsHexLiteral, IsIntroduced, IsIntroducer, hex_value, is_hex};
ghost use Rattle.mysql_bytes.specs.declared.spelling.Spelling.TheVariants.{Hexadecimal};
ghost use Rattle.std.specs.Prelude.{
  OnErr,
  vec_capacity,
  ◌++◌,
  ◌<◌,
  ◌≡◌,
  ◌≤◌,
  IfNone,
  IfOk,
  IfSome,
  List,
  drop,
  length,
  take,
  true,
  ℕ,
};

use crate::numbers::digit;
use std::alloc::AllocError;

fn hex(b: u8) -> bool
    ensures { result ≡ is_hex b }
{
    digit(b) || (b'A' <= b && b <= b'F') || (b'a' <= b && b <= b'f')
}

fn value_of(b: u8) -> u8
    requires { is_hex b ≡ true }
    ensures value { result ≡ hex_value b }
    ensures small { result < 16 }
{
    if digit(b) {
        b - b'0'
    } else if b <= b'F' {
        b - b'A' + 10
    } else {
        b - b'a' + 10
    }
}

/// Whether `0x` comes first.
pub fn hex_first(text: &[u8]) -> bool
    ensures { result ≡ begins_hex text.now }
{
    match text {
        [a, b, ..] => *a == b'0' && *b == b'x',
        [_] => false,
        [] => false,
    }
}

/// Reads a literal that begins with `0x`, and puts its content into the buffer.
///
/// The answer is how many bytes it takes, or None where its digits are none or odd in number.
pub fn read_hex(text: &[u8], buf: &mut Vec<u8>) -> Result<Option<usize>, AllocError>
    requires { begins_hex text.now ≡ true }
    ensures in_range { IfOk result (λ found. IfSome found (λ n. n ≤ length text.now)) }
    ensures run { IfOk result (λ found. IfSome found (λ n. IsHexRun (take n text.now) (drop n text.now))) }
    ensures content { IfOk result (λ found. IfSome found (λ n. IsHexLiteral (take n text.now) buf.new.items)) }
    ensures none { IfOk result
        (λ found. IfNone found ((run rest bytes : List ℕ) → text.now ≡ run ++ rest →
        IsHexRun run rest → IsHexLiteral run bytes → ⊥)) }
    ensures full { OnErr result (vec_capacity buf.old < length text.now) }
{
    buf.clear();
    let mut i = 2;
    while i + 1 < text.len() && hex(text[i]) && hex(text[i + 1]) {
        buf.push(value_of(text[i]) * 16 + value_of(text[i + 1]))?;
        i += 2;
    }
    if i < text.len() && hex(text[i]) {
        Ok(None)
    } else if i == 2 {
        Ok(None)
    } else {
        Ok(Some(i))
    }
}

/// What follows the introducer that a text begins with; None where it begins with none.
fn behind_introducer(text: &[u8]) -> Option<&[u8]>
    ensures found { IfSome result (λ rest. (introducer : List ℕ) × IsIntroducer introducer ×
        (text.entry.now ≡ introducer ++ rest.now)) }
    ensures none { IfNone result ((introducer rest : List ℕ) → IsIntroducer introducer →
        text.entry.now ≡ introducer ++ rest → ⊥) }
{
    match text.strip_prefix(b"_utf8mb4 ") {
        Some(rest) => Some(rest),
        None => text.strip_prefix(b"_binary "),
    }
}

/// Reads an introducer and a literal in hexadecimal behind it, and puts its content into the buffer.
///
/// The answer is how many bytes both take, or None where they aren't there.
pub fn read_introduced(text: &[u8], buf: &mut Vec<u8>) -> Result<Option<usize>, AllocError>
    ensures in_range { IfOk result (λ found. IfSome found (λ n. n ≤ length text.now)) }
    ensures run { IfOk result
        (λ found. IfSome found (λ n. IsIntroducedRun Hexadecimal (take n text.now) (drop n text.now))) }
    ensures content { IfOk result
        (λ found. IfSome found (λ n. IsIntroduced Hexadecimal (take n text.now) buf.new.items)) }
    ensures none { IfOk result
        (λ found. IfNone found ((run rest bytes : List ℕ) → text.now ≡ run ++ rest →
        IsIntroducedRun Hexadecimal run rest → IsIntroduced Hexadecimal run bytes → ⊥)) }
    ensures full { OnErr result (vec_capacity buf.old < length text.now) }
{
    let Some(literal) = behind_introducer(text) else {
        return Ok(None);
    };
    if !hex_first(literal) {
        return Ok(None);
    }
    match read_hex(literal, buf)? {
        Some(len) => Ok(Some(text.len() - literal.len() + len)),
        None => Ok(None),
    }
}
