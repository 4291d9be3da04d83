//! What stands beside a placeholder, and whether servers agree about a query.

ghost use Rattle.mysql_queries.specs.Alone.{
  agree_at,
  begins,
  begins_dollar_quote,
  begins_for_mariadb,
  is_blank,
  is_closing_kind,
  is_left_out_kind,
  is_opening_kind,
  is_read_otherwise,
  is_run,
  is_run_token,
  is_string_kind,
  is_tag_byte,
  meets_string,
};
ghost use Rattle.mysql_queries.specs.PlaceKinds.{is_place_kind};
ghost use Rattle.mysql_queries.specs.Scanning.{is_quiet};
ghost use Rattle.mysql_queries.specs.TokenKinds.{kind_view};
ghost use Rattle.mysql_queries.specs.Tokens.{HasTokens, IsToken, bracket, is_digit, kind_of, question};
ghost use Rattle.std.specs.List.{list_all, prefix_len};
ghost use Rattle.std.specs.Prelude.{
  ◌+◌,
  ◌<◌,
  ◌≡◌,
  ◌≤◌,
  ◌==◌,
  ◌&&◌,
  ◌-◌,
  List,
  drop,
  false,
  if◌then◌else◌,
  length,
  not,
  slice_index,
  take,
  true,
  ℕ,
};

use crate::tokens::{TokenKind, is_simple_one, kind_at, token_end};
use mysql_bytes::Mode;

fn blank(b: u8) -> bool
    ensures { result ≡ is_blank b }
{
    (b'\t' <= b && b <= b'\r') || b == b' '
}

fn tag_byte(b: u8) -> bool
    ensures { result ≡ is_tag_byte b }
{
    (b'0' <= b && b <= b'9')
        || (b'A' <= b && b <= b'Z')
        || (b'a' <= b && b <= b'z')
        || b == b'_'
        || b >= 0x80
}

/// Whether a token of this kind is left out: a comment, what begins or ends one, or a blank.
fn left_out(kind: TokenKind, text: &[u8]) -> bool
    requires { 0 < length text.now }
    ensures { (len : ℕ) → 0 < len → result ≡ is_left_out_kind (kind_view kind) (take len text.now) }
{
    match kind {
        TokenKind::LineComment => true,
        TokenKind::BlockComment => true,
        TokenKind::Opening => true,
        TokenKind::Closing => true,
        TokenKind::Plain => blank(text[0]),
        TokenKind::Quoted(_) => false,
        TokenKind::Name => false,
        TokenKind::Mark => false,
    }
}

/// Whether a token of this kind is `/*!`, whose inside is read.
pub fn is_opening(kind: TokenKind) -> bool
    ensures { result ≡ is_opening_kind (kind_view kind) }
{
    matches!(kind, TokenKind::Opening)
}

fn is_closing(kind: TokenKind) -> bool
    ensures { result ≡ is_closing_kind (kind_view kind) }
{
    matches!(kind, TokenKind::Closing)
}

fn is_placeholder(kind: TokenKind) -> bool
    ensures { result ≡ is_place_kind (kind_view kind) }
{
    matches!(kind, TokenKind::Name) || matches!(kind, TokenKind::Mark)
}

/// Whether a token of this kind is a string.
fn string_of(kind: TokenKind, mode: Mode) -> bool
    ensures { result ≡ is_string_kind mode (kind_view kind) }
{
    match kind {
        TokenKind::Quoted(quote) => !(quote == b'`' || (quote == b'"' && mode.ansi_quotes)),
        _ => false,
    }
}

// A `1` at each byte that is a token by itself, stands for something, and is no string.
static STANDING: [u8; 256] = *b"\
    11111111100000111111111111111111\
    01000110110110101111111111011110\
    11111111111111111111111111101111\
    01111111111111111111111111111111\
    11111111111111111111111111111111\
    11111111111111111111111111111111\
    11111111111111111111111111111111\
    11111111111111111111111111111111";

/// Whether a byte is a token by itself, which stands for something and is no string.
fn standing(b: u8) -> bool
    ensures { result ≡ (is_quiet b && not (is_blank b)) }
{
    STANDING[usize::from(b)] == b'1'
}

/// Whether the first token of a text that isn't left out is a string.
fn string_met(text: &[u8], mode: Mode) -> bool
    ensures { (tokens : List (List ℕ)) → HasTokens mode text.now tokens → result ≡ meets_string mode tokens }
{
    let mut at = 0;
    while at < text.len() {
        let rest = &text[at..];
        let kind = kind_at(rest);
        if !left_out(kind, rest) {
            return string_of(kind, mode);
        }
        at += token_end(rest, kind, mode);
    }
    false
}

/// Whether the first token of a text that isn't left out is a string.
///
/// Most texts begin with a byte that tells.
#[inline(always)]
pub fn string_first(text: &[u8], mode: Mode) -> bool
    ensures { (tokens : List (List ℕ)) → HasTokens mode text.now tokens → result ≡ meets_string mode tokens }
{
    match text {
        [] => false,
        [b, ..] => !standing(*b) && string_met(text, mode),
    }
}

/// How many bytes of a dollar quote's name come first.
fn tag_len(text: &[u8]) -> usize
    ensures in_range { result ≤ length text.now }
    ensures len { result ≡ prefix_len is_tag_byte text.now }
{
    let mut at = 0;
    while at < text.len() && tag_byte(text[at]) {
        at += 1;
    }
    at
}

/// Whether a dollar quote begins a text, behind a byte.
///
/// The bytes that are looked at begin no other one: a text is looked at once.
pub fn dollar_first(last: u8, text: &[u8]) -> bool
    ensures { result ≡ begins_dollar_quote last text.now }
{
    match text {
        [] => false,
        [b, ..] => {
            *b == b'$'
                && !(tag_byte(last) || last == b'$')
                && {
                    let after = &text[1..];
                    let len = tag_len(after);
                    len < after.len() && after[len] == b'$'
                }
        }
    }
}

/// Where the placeholders and the simple bytes end that come first.
fn run_end(text: &[u8], mode: Mode) -> usize
    ensures in_range { result ≤ length text.now }
    ensures run { (tokens : List (List ℕ)) → HasTokens mode text.now tokens →
        HasTokens mode (drop result text.now) (drop (prefix_len is_run_token tokens) tokens) }
{
    let mut at = 0;
    while at < text.len() {
        let rest = &text[at..];
        let kind = kind_at(rest);
        if !is_simple_one(text[at]) && !is_placeholder(kind) {
            return at;
        }
        at += token_end(rest, kind, mode);
    }
    at
}

fn digit_first(text: &[u8]) -> bool
    ensures { result ≡ begins is_digit text.now }
{
    match text {
        [] => false,
        [b, ..] => b'0' <= *b && *b <= b'9',
    }
}

/// Whether what follows `/*!` is a comment without a version, which every server runs up to one end.
///
/// No `/*!` is among the bytes that are looked at: a query is looked at once.
fn run_first(text: &[u8], mode: Mode) -> bool
    ensures { (tokens : List (List ℕ)) → HasTokens mode text.now tokens → result ≡ is_run tokens }
{
    if digit_first(text) {
        return false;
    }
    let rest = &text[run_end(text, mode)..];
    !rest.is_empty() && is_closing(kind_at(rest))
}

fn bracket_first(text: &[u8]) -> bool
    ensures { result ≡ begins (λ b. b == bracket) text.now }
{
    match text {
        [] => false,
        [b, ..] => *b == b'[',
    }
}

/// Whether `/*M!` comes first.
fn mariadb_first(text: &[u8]) -> bool
    ensures { result ≡ begins_for_mariadb text.now }
{
    match text {
        [a, b, c, d, ..] => *a == b'/' && *b == b'*' && *c == b'M' && *d == b'!',
        _ => false,
    }
}

/// Whether some servers read otherwise what a text begins with, behind a byte.
pub fn read_otherwise(last: u8, text: &[u8]) -> bool
    ensures { result ≡ is_read_otherwise last text.now }
{
    bracket_first(text) || dollar_first(last, text) || mariadb_first(text)
}

/// Whether servers agree about the first token of a text, behind a byte.
fn agrees(last: u8, text: &[u8], kind: TokenKind, len: usize, mode: Mode) -> bool
    requires some { 0 < len }
    requires in_range { len ≤ length text.now }
    requires kind { kind_view kind ≡ kind_of text.now }
    requires token { IsToken mode (take len text.now) (drop len text.now) }
    ensures { (behind : List (List ℕ)) → HasTokens mode (drop len text.now) behind →
        result ≡ agree_at last (take len text.now) behind }
{
    !read_otherwise(last, text) && (!is_opening(kind) || run_first(&text[len..], mode))
}

fn all_blank(bytes: &[u8]) -> bool
    ensures { result ≡ list_all is_blank bytes.now }
{
    bytes.iter().all(|b| blank(*b))
}

/// What was read of a query so far.
#[derive(Clone, Copy, Debug, PartialEq, Eq)]
pub struct SoFar {
    /// The last byte, or 0 before the first.
    pub last: u8,
    /// The last token is `/*!`, whose inside is read.
    pub opening: bool,
    /// The last token that isn't left out is a string.
    pub string: bool,
    /// Servers agree about all of it.
    pub agree: bool,
}

impl SoFar {
    /// Before a query.
    pub fn new() -> SoFar
        ensures last { result.last ≡ 0 }
        ensures opening { result.opening ≡ false }
        ensures string { result.string ≡ false }
        ensures agree { result.agree ≡ true }
    {
        SoFar {
            last: 0,
            opening: false,
            string: false,
            agree: true,
        }
    }

    /// Behind the first token of a text, of this kind and so many bytes.
    pub fn behind(self, text: &[u8], kind: TokenKind, len: usize, mode: Mode) -> SoFar
        requires some { 0 < len }
        requires in_range { len ≤ length text.now }
        requires kind { kind_view kind ≡ kind_of text.now }
        requires token { IsToken mode (take len text.now) (drop len text.now) }
        ensures last { result.last ≡ slice_index text.now (len - 1) }
        ensures opening { result.opening ≡ is_opening_kind (kind_view kind) }
        ensures string { result.string ≡
            (if is_left_out_kind (kind_view kind) (take len text.now) then self.string
            else is_string_kind mode (kind_view kind)) }
        ensures agree { (behind : List (List ℕ)) → HasTokens mode (drop len text.now) behind →
            result.agree ≡ (self.agree && agree_at self.last (take len text.now) behind) }
    {
        SoFar {
            last: text[len - 1],
            opening: is_opening(kind),
            string: if left_out(kind, text) {
                self.string
            } else {
                string_of(kind, mode)
            },
            agree: self.agree && agrees(self.last, text, kind, len, mode),
        }
    }

    /// Behind a question mark, which each server reads alike.
    #[inline(always)]
    pub(crate) fn behind_mark(self) -> SoFar
        ensures last { result.last ≡ question }
        ensures opening { result.opening ≡ false }
        ensures string { result.string ≡ false }
        ensures agree { result.agree ≡ self.agree }
    {
        SoFar {
            last: b'?',
            opening: false,
            string: false,
            agree: self.agree,
        }
    }

    /// Behind bytes that are tokens by themselves and at which servers agree.
    #[inline(always)]
    pub fn behind_quiet(self, bytes: &[u8]) -> SoFar
        ensures none { length bytes.now ≡ 0 → result ≡ self }
        ensures last { 0 < length bytes.now → result.last ≡ slice_index bytes.now (length bytes.now - 1) }
        ensures opening { 0 < length bytes.now → result.opening ≡ false }
        ensures string { result.string ≡ (self.string && list_all is_blank bytes.now) }
        ensures agree { result.agree ≡ self.agree }
    {
        if bytes.is_empty() {
            return self;
        }
        SoFar {
            last: bytes[bytes.len() - 1],
            opening: false,
            string: self.string && all_blank(bytes),
            agree: self.agree,
        }
    }
}
