//! What a text begins with: a value, a word, an operator, a quoted identifier, or a gap.

ghost use Rattle.mysql_digests.specs.Digest.{is_blank, is_operator_byte, is_word_byte};
ghost use Rattle.mysql_digests.specs.Lexemes.{BeginsWith, EndsWord, begins_disputed, lexeme_view};
ghost use Rattle.mysql_queries.specs.Alone.{begins_dollar_quote};
ghost use Rattle.mysql_queries.specs.LiteralRuns.{EndsBefore};
ghost use Rattle.mysql_queries.specs.Tokens.{quotes_identifier};
ghost use Rattle.std.specs.List.{AllByRecursion};
ghost use Rattle.std.specs.Prelude.{◌<◌, ◌≡◌, ◌≤◌, ◌-◌, drop, false, length, slice_index, take, true, ℕ};

use mysql_bytes::Mode;
use mysql_queries::alone::{dollar_first, is_opening, read_otherwise};
use mysql_queries::tokens::{TokenKind, kind_at, token_end};

/// What a text was found to begin with.
#[derive(Clone, Copy, Debug, PartialEq, Eq)]
pub enum Found {
    /// A blank or a comment.
    Gap,
    /// A string, or a parameter marker.
    Value,
    /// A word or a number.
    Word,
    /// An operator of one or several bytes.
    Operator,
    /// A quoted identifier.
    Identifier,
    /// Another byte.
    Byte(u8),
}

// A `1` at each byte of a word. Comparisons in its place would branch on the kind of each byte.
static WORD: [u8; 256] = *b"\
    00000000000000000000000000000000\
    00001000000000101111111111000000\
    11111111111111111111111111101001\
    01111111111111111111111111100000\
    11111111111111111111111111111111\
    11111111111111111111111111111111\
    11111111111111111111111111111111\
    11111111111111111111111111111111";

pub fn word_byte(b: u8) -> bool
    ensures { result ≡ is_word_byte b }
{
    WORD[usize::from(b)] == b'1'
}

fn operator_byte(b: u8) -> bool
    ensures { result ≡ is_operator_byte b }
{
    b == b'<' || b == b'=' || b == b'>' || b == b'!' || b == b'|' || b == b'&'
}

fn blank(b: u8) -> bool
    ensures { result ≡ is_blank b }
{
    (b'\t' <= b && b <= b'\r') || b == b' '
}

/// Whether servers disagree about what begins a text, behind a byte.
pub fn disputed(last: u8, text: &[u8]) -> bool
    requires { 0 < length text.now }
    ensures { result ≡ begins_disputed last text.now }
{
    read_otherwise(last, text) || is_opening(kind_at(text))
}

/// Where a word ends, which servers take for one: no dollar quote begins in it.
fn word_end(text: &[u8]) -> usize
    requires some { 0 < length text.now }
    requires begins { is_word_byte (slice_index text.now 0) ≡ true }
    ensures some { 0 < result }
    ensures in_range { result ≤ length text.now }
    ensures run { AllByRecursion (λ b. is_word_byte b ≡ true) (take result text.now) }
    ensures calm { (k : ℕ) → 0 < k → k < result →
        begins_dollar_quote (slice_index text.now (k - 1)) (drop k text.now) ≡ false }
    ensures ends { EndsWord (slice_index text.now (result - 1)) (drop result text.now) }
{
    let mut i = 1;
    while i < text.len() && word_byte(text[i]) {
        if dollar_first(text[i - 1], &text[i..]) {
            return i;
        }
        i += 1;
    }
    i
}

/// Where an operator ends.
fn operator_end(text: &[u8]) -> usize
    requires some { 0 < length text.now }
    requires begins { is_operator_byte (slice_index text.now 0) ≡ true }
    ensures some { 0 < result }
    ensures in_range { result ≤ length text.now }
    ensures run { AllByRecursion (λ b. is_operator_byte b ≡ true) (take result text.now) }
    ensures ends { EndsBefore is_operator_byte (drop result text.now) }
{
    let mut i = 1;
    while i < text.len() && operator_byte(text[i]) {
        i += 1;
    }
    i
}

pub fn is_identifier(mode: Mode, quote: u8) -> bool
    ensures { result ≡ quotes_identifier mode quote }
{
    quote == b'`' || (quote == b'"' && mode.ansi_quotes)
}

/// What a text begins with, about which servers agree, and how many bytes it takes.
pub fn lexeme_at(text: &[u8], mode: Mode) -> (Found, usize)
    requires { 0 < length text.now }
    ensures some { 0 < result.1 }
    ensures in_range { result.1 ≤ length text.now }
    ensures lexeme { (last : ℕ) → begins_disputed last text.now ≡ false →
        BeginsWith mode last text.now (lexeme_view result.0 (take result.1 text.now))
        (slice_index text.now (result.1 - 1)) (drop result.1 text.now) }
{
    let b = text[0];
    if word_byte(b) {
        return (Found::Word, word_end(text));
    }
    if operator_byte(b) {
        return (Found::Operator, operator_end(text));
    }
    if blank(b) {
        return (Found::Gap, 1);
    }
    token_at(text, mode)
}

/// The first token of a text that begins with no word, no operator and no blank.
fn token_at(text: &[u8], mode: Mode) -> (Found, usize)
    requires some { 0 < length text.now }
    requires no_word { is_word_byte (slice_index text.now 0) ≡ false }
    requires no_operator { is_operator_byte (slice_index text.now 0) ≡ false }
    requires no_blank { is_blank (slice_index text.now 0) ≡ false }
    ensures some { 0 < result.1 }
    ensures in_range { result.1 ≤ length text.now }
    ensures lexeme { (last : ℕ) → begins_disputed last text.now ≡ false →
        BeginsWith mode last text.now (lexeme_view result.0 (take result.1 text.now))
        (slice_index text.now (result.1 - 1)) (drop result.1 text.now) }
{
    let kind = kind_at(text);
    let end = token_end(text, kind, mode);
    match kind {
        TokenKind::Quoted(quote) => {
            if is_identifier(mode, quote) {
                (Found::Identifier, end)
            } else {
                (Found::Value, end)
            }
        }
        TokenKind::LineComment => (Found::Gap, end),
        TokenKind::BlockComment => (Found::Gap, end),
        TokenKind::Opening => (Found::Gap, end),
        TokenKind::Closing => (Found::Gap, end),
        TokenKind::Name => (Found::Value, end),
        TokenKind::Mark => (Found::Value, end),
        TokenKind::Plain => (Found::Byte(text[0]), end),
    }
}
