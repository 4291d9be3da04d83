//! Literals in single quotes.

ghost use Rattle.mysql_queries.specs.Literals.{IsString, escaped, inside_content};
ghost use Rattle.mysql_queries.specs.Scanning.{ClosesAt, IsPartAt, IsRun, part_view};
ghost use Rattle.mysql_queries.specs.Tokens.{IsQuoted, inside_bytes, single_quote};
ghost use Rattle.std.specs.Prelude.{
  OnErr,
  vec_capacity,
  vec_len,
  ◌+◌,
  ◌++◌,
  ◌<◌,
  ◌≡◌,
  ◌≤◌,
  ◌==◌,
  ◌||◌,
  ◌∷◌,
  [],
  false,
  IfNone,
  IfOk,
  IfSome,
  List,
  OnOk,
  drop,
  length,
  slice_index,
  take,
  ℕ,
};

use memchr::{memchr, memchr2};
use std::alloc::AllocError;

/// What stands between single quotes: a byte for itself, a backslash with the byte after it, the quote doubled.
#[derive(Clone, Copy, Debug, PartialEq, Eq)]
pub enum Part {
    Byte(u8),
    Escape(u8),
    Doubled,
}

/// How many bytes it takes.
fn part_len(part: Part) -> usize
    ensures { result ≡ length (inside_bytes single_quote (part_view part)) }
{
    match part {
        Part::Byte(_) => 1,
        Part::Escape(_) => 2,
        Part::Doubled => 2,
    }
}

/// The part at a place; None where the literal closes there.
fn part_at(text: &[u8], at: usize, escapes: bool) -> Option<Part>
    requires { at < length text.now }
    ensures part { IfSome result (λ part. IsPartAt escapes text.now at (part_view part)) }
    ensures closed { IfNone result (ClosesAt escapes single_quote text.now at) }
{
    let b = text[at];
    if b == b'\'' {
        if at + 1 < text.len() && text[at + 1] == b'\'' {
            Some(Part::Doubled)
        } else {
            None
        }
    } else if b == b'\\' && escapes {
        if at + 1 < text.len() {
            Some(Part::Escape(text[at + 1]))
        } else {
            None
        }
    } else {
        Some(Part::Byte(b))
    }
}

/// Whether the backslash before this byte stays, as `\%` and `\_` are read in patterns.
fn keeps_backslash(b: u8) -> bool
    ensures { result ≡ ((b == 0x25) || (b == 0x5f)) }
{
    b == b'%' || b == b'_'
}

/// The byte that a backslash makes of the one after it, where the backslash goes.
fn escaped_byte(b: u8) -> u8
    ensures { ((b == 0x25) || (b == 0x5f)) ≡ false → escaped b ≡ result ∷ [] }
{
    match b {
        b'0' => 0,
        b'b' => 8,
        b'n' => b'\n',
        b'r' => b'\r',
        b't' => b'\t',
        b'Z' => 26,
        _ => b,
    }
}

/// Appends what a backslash makes of the byte after it.
fn push_escaped(out: &mut Vec<u8>, b: u8) -> Result<(), AllocError>
    ensures ok { OnOk result (out.new.items ≡ out.old.items ++ escaped b) }
    ensures len { OnOk result (vec_len out.new ≤ vec_len out.old + 2) }
    ensures capacity { vec_capacity out.old ≤ vec_capacity out.new }
    ensures full { OnErr result (vec_capacity out.old < vec_len out.old + 2) }
{
    if keeps_backslash(b) {
        out.extend_from_slice(&[b'\\', b])?;
    } else {
        out.push(escaped_byte(b))?;
    }
    Ok(())
}

/// Appends what a part is read as.
fn push_content(out: &mut Vec<u8>, part: Part) -> Result<(), AllocError>
    ensures ok { OnOk result (out.new.items ≡ out.old.items ++ inside_content (part_view part)) }
    ensures len { OnOk result
        (vec_len out.new ≤ vec_len out.old + length (inside_bytes single_quote (part_view part))) }
    ensures capacity { vec_capacity out.old ≤ vec_capacity out.new }
    ensures full { OnErr result
        (vec_capacity out.old < vec_len out.old + length
        (inside_bytes single_quote (part_view part))) }
{
    match part {
        Part::Byte(b) => out.push(b)?,
        Part::Escape(b) => push_escaped(out, b)?,
        Part::Doubled => out.push(b'\'')?,
    }
    Ok(())
}

/// How many bytes stand before the first quote or, where there are escapes, the first backslash.
fn run_len(text: &[u8], escapes: bool) -> usize
    ensures in_range { result ≤ length text.now }
    ensures run { IsRun escapes (take result text.now) }
{
    if escapes {
        memchr2(b'\'', b'\\', text).unwrap_or(text.len())
    } else {
        memchr(b'\'', text).unwrap_or(text.len())
    }
}

/// Appends the bytes before the first quote or, where there are escapes, the first backslash; how
/// many they are.
fn push_run(out: &mut Vec<u8>, text: &[u8], escapes: bool) -> Result<usize, AllocError>
    ensures in_range { IfOk result (λ n. n ≤ length text.now) }
    ensures run { IfOk result (λ n. IsRun escapes (take n text.now)) }
    ensures ok { IfOk result (λ n. out.new.items ≡ out.old.items ++ take n text.now) }
    ensures len { IfOk result (λ n. vec_len out.new ≤ vec_len out.old + n) }
    ensures capacity { vec_capacity out.old ≤ vec_capacity out.new }
    ensures full { OnErr result (vec_capacity out.old < vec_len out.old + length text.now) }
{
    let run = run_len(text, escapes);
    out.extend_from_slice(&text[..run])?;
    Ok(run)
}

/// Reads a literal that begins with a single quote, and puts its content into the buffer.
///
/// The answer is how many bytes it takes, or None where nothing closes it.
pub fn read_string(
    text: &[u8],
    escapes: bool,
    buf: &mut Vec<u8>,
) -> Result<Option<usize>, AllocError>
    requires some { 0 < length text.now }
    requires begins { slice_index text.now 0 ≡ single_quote }
    ensures in_range { IfOk result (λ found. IfSome found (λ n. n ≤ length text.now)) }
    ensures run { IfOk result
        (λ found. IfSome found (λ n. IsQuoted escapes single_quote (take n text.now) (drop n text.now))) }
    ensures content { IfOk result (λ found. IfSome found (λ n. IsString escapes (take n text.now) buf.new.items)) }
    ensures none { IfOk result
        (λ found. IfNone found ((run rest bytes : List ℕ) → text.now ≡ run ++ rest →
        IsQuoted escapes single_quote run rest → IsString escapes run bytes → ⊥)) }
    ensures full { OnErr result (vec_capacity buf.old < length text.now) }
{
    buf.clear();
    let mut i = 1 + push_run(buf, &text[1..], escapes)?;
    while i < text.len() {
        match part_at(text, i, escapes) {
            Some(part) => {
                push_content(buf, part)?;
                i += part_len(part);
                i += push_run(buf, &text[i..], escapes)?;
            }
            None => {
                if text[i] == b'\'' {
                    return Ok(Some(i + 1));
                }
                return Ok(None);
            }
        }
    }
    Ok(None)
}
