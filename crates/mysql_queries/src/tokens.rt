//! The tokens of a SQL text.

ghost use Rattle.mysql_queries.specs.Scanning.{ClosesAt, PartAt, is_quiet as is_quiet_byte};
ghost use Rattle.mysql_queries.specs.Tokens.{
  AtLineEnd,
  IsBlockComment,
  IsName,
  IsQuoted,
  IsToken,
  begins_end,
  goes_on_as_block,
  goes_on_as_closing,
  goes_on_as_dashes,
  goes_on_as_name,
  goes_on_as_opening,
  has_escapes,
  is_digit,
  is_name_byte,
  is_name_start,
  is_simple as begins_simple,
  is_simple_byte,
  kind_of,
  line_feed,
  colon,
  slash,
  star,
};
ghost use Rattle.mysql_queries.specs.TokenKinds.{kind_view};
ghost use Rattle.std.specs.List.{AllByRecursion, prefix_len};
ghost use Rattle.std.specs.Prelude.{
  ◌+◌,
  ◌<◌,
  ◌≡◌,
  ◌≢◌,
  ◌≤◌,
  IfNone,
  IfSome,
  false,
  true,
  ℕ,
  drop,
  length,
  slice_index,
  take,
};

use mysql_bytes::Mode;

fn name_start(b: u8) -> bool
    ensures { result ≡ is_name_start b }
{
    (b'a' <= b && b <= b'z') || b == b'_'
}

fn name_byte(b: u8) -> bool
    ensures { result ≡ is_name_byte b }
{
    name_start(b) || (b'0' <= b && b <= b'9')
}

/// Whether a backslash escapes the byte behind it in a token with this quote.
fn escapes_in(mode: Mode, quote: u8) -> bool
    ensures { result ≡ has_escapes mode quote }
{
    let identifier = quote == b'`' || (quote == b'"' && mode.ansi_quotes);
    !identifier && !mode.no_backslash_escapes
}

/// How many bytes of a part stand between quotes at a place; None where the token closes there.
fn part_len(text: &[u8], at: usize, quote: u8, escapes: bool) -> Option<usize>
    requires { at < length text.now }
    ensures part { IfSome result (λ n. PartAt escapes quote text.now at n) }
    ensures closed { IfNone result (ClosesAt escapes quote text.now at) }
{
    let b = text[at];
    if b == quote {
        if at + 1 < text.len() && text[at + 1] == quote {
            Some(2)
        } else {
            None
        }
    } else if b == b'\\' && escapes {
        if at + 1 < text.len() { Some(2) } else { None }
    } else {
        Some(1)
    }
}

/// Where a string or a quoted identifier ends.
fn quoted_end(text: &[u8], quote: u8, escapes: bool) -> usize
    requires some { 0 < length text.now }
    requires begins { slice_index text.now 0 ≡ quote }
    ensures in_range { result ≤ length text.now }
    ensures shape { IsQuoted escapes quote (take result text.now) (drop result text.now) }
{
    let mut i = 1;
    while i < text.len() {
        match part_len(text, i, quote, escapes) {
            Some(n) => i += n,
            None => return i + 1,
        }
    }
    i
}

/// Where the line ends.
fn line_end(text: &[u8]) -> usize
    ensures in_range { result ≤ length text.now }
    ensures run { AllByRecursion (λ b. b ≢ line_feed) (take result text.now) }
    ensures end { AtLineEnd (drop result text.now) }
{
    let mut i = 0;
    while i < text.len() && text[i] != b'\n' {
        i += 1;
    }
    i
}

/// Where a name ends, which begins with a colon.
fn name_end(text: &[u8]) -> usize
    requires some { 0 < length text.now }
    requires begins { slice_index text.now 0 ≡ colon }
    ensures in_range { result ≤ length text.now }
    ensures shape { IsName (take result text.now) (drop result text.now) }
{
    let mut i = 1;
    while i < text.len() && name_byte(text[i]) {
        i += 1;
    }
    i
}

/// Where a comment ends, which begins with `/*`.
fn block_end(text: &[u8]) -> usize
    requires some { 2 ≤ length text.now }
    requires first { slice_index text.now 0 ≡ slash }
    requires second { slice_index text.now 1 ≡ star }
    ensures in_range { result ≤ length text.now }
    ensures shape { IsBlockComment (take result text.now) (drop result text.now) }
{
    let mut i = 2;
    while i + 1 < text.len() {
        if text[i] == b'*' && text[i + 1] == b'/' {
            return i + 2;
        }
        i += 1;
    }
    text.len()
}

fn dashes_follow(after: &[u8]) -> bool
    ensures { result ≡ goes_on_as_dashes after.now }
{
    match after {
        [] => false,
        [b] => *b == b'-',
        [b, c, ..] => *b == b'-' && (*c <= 0x20 || *c == 0x7f),
    }
}

// A `1` at each byte that a simple version comment may hold behind its first digit.
static SIMPLE: [u8; 256] = *b"\
    01111111111111111111111111111111\
    11000110110110101111111111011110\
    11111111111111111111111111100111\
    01111111111111111111111111111111\
    00000000000000000000000000000000\
    00000000000000000000000000000000\
    00000000000000000000000000000000\
    00000000000000000000000000000000";

/// Whether a simple version comment may hold a byte.
pub fn is_simple_one(b: u8) -> bool
    ensures { result ≡ is_simple_byte b }
{
    SIMPLE[usize::from(b)] == b'1'
}

/// How many simple bytes come first.
fn simple_len(text: &[u8]) -> usize
    ensures in_range { result ≤ length text.now }
    ensures len { result ≡ prefix_len is_simple_byte text.now }
{
    let mut at = 0;
    while at < text.len() && is_simple_one(text[at]) {
        at += 1;
    }
    at
}

fn end_follows(after: &[u8]) -> bool
    ensures { result ≡ begins_end after.now }
{
    match after {
        [a, b, ..] => *a == b'*' && *b == b'/',
        _ => false,
    }
}

/// Whether what follows `/*!` is a simple version comment.
///
/// No byte is looked at but those of the comment and one more. None of them begins another one, so a
/// text is looked at once, also where no such comment ends.
fn is_simple(after: &[u8]) -> bool
    ensures { result ≡ begins_simple after.now }
{
    match after {
        [] => false,
        [b, ..] => {
            b'0' <= *b
                && *b <= b'9'
                && {
                    let inside = &after[1..];
                    end_follows(&inside[simple_len(inside)..])
                }
        }
    }
}

fn block_follows(after: &[u8]) -> bool
    ensures { result ≡ goes_on_as_block after.now }
{
    match after {
        [] => false,
        [b] => *b == b'*',
        [b, c, ..] => *b == b'*' && (*c != b'!' || is_simple(&after[2..])),
    }
}

fn opening_follows(after: &[u8]) -> bool
    ensures { result ≡ goes_on_as_opening after.now }
{
    match after {
        [b, c, ..] => *b == b'*' && *c == b'!',
        _ => false,
    }
}

fn closing_follows(after: &[u8]) -> bool
    ensures { result ≡ goes_on_as_closing after.now }
{
    match after {
        [] => false,
        [b] => *b == b'/',
        [b, c, ..] => *b == b'/' && *c != b'*',
    }
}

fn name_follows(after: &[u8]) -> bool
    ensures { result ≡ goes_on_as_name after.now }
{
    match after {
        [] => false,
        [b, ..] => name_start(*b),
    }
}

/// The kind of a token. A string or a quoted identifier is known by its quote.
///
/// A version comment that is a simple one, and a hint, is a comment. The inside of another one is
/// read: what begins it and what ends it are tokens, `/*!` and `*/`.
#[derive(Clone, Copy, Debug, PartialEq, Eq)]
pub enum TokenKind {
    Quoted(u8),
    LineComment,
    BlockComment,
    Opening,
    Closing,
    Name,
    Mark,
    Plain,
}

/// The kind of the token that a text begins with.
#[inline(always)]
pub fn kind_at(text: &[u8]) -> TokenKind
    requires { 0 < length text.now }
    ensures { kind_view result ≡ kind_of text.now }
{
    let b = text[0];
    let after = &text[1..];
    if b == b'\'' || b == b'"' || b == b'`' {
        TokenKind::Quoted(b)
    } else if b == b'#' || (b == b'-' && dashes_follow(after)) {
        TokenKind::LineComment
    } else if b == b'/' && block_follows(after) {
        TokenKind::BlockComment
    } else if b == b'/' && opening_follows(after) {
        TokenKind::Opening
    } else if b == b'*' && closing_follows(after) {
        TokenKind::Closing
    } else if b == b':' && name_follows(after) {
        TokenKind::Name
    } else if b == b'?' {
        TokenKind::Mark
    } else {
        TokenKind::Plain
    }
}

/// Where the first token of a text ends, which is of this kind, for a server in this mode.
pub fn token_end(text: &[u8], kind: TokenKind, mode: Mode) -> usize
    requires some { 0 < length text.now }
    requires kind { kind_view kind ≡ kind_of text.now }
    ensures some { 0 < result }
    ensures in_range { result ≤ length text.now }
    ensures token { IsToken mode (take result text.now) (drop result text.now) }
{
    match kind {
        TokenKind::Quoted(quote) => quoted_end(text, quote, escapes_in(mode, quote)),
        TokenKind::LineComment => line_end(text),
        TokenKind::BlockComment => block_end(text),
        TokenKind::Opening => 3,
        TokenKind::Closing => 2,
        TokenKind::Name => name_end(text),
        TokenKind::Mark => 1,
        TokenKind::Plain => 1,
    }
}

// A `1` at each byte that is a token by itself, and at which no server reads otherwise. Comparisons
// in its place would branch on the kind of each byte, which is hard to predict.
static QUIET: [u8; 256] = *b"\
    11111111111111111111111111111111\
    11000110110110101111111111011110\
    11111111111111111111111111101111\
    01111111111111111111111111111111\
    11111111111111111111111111111111\
    11111111111111111111111111111111\
    11111111111111111111111111111111\
    11111111111111111111111111111111";

/// Whether a byte is a token by itself, and no server reads otherwise, whatever follows it.
fn is_quiet(b: u8) -> bool
    ensures { result ≡ is_quiet_byte b }
{
    QUIET[usize::from(b)] == b'1'
}

/// Where the bytes from a place on end that are tokens by themselves, whatever follows them.
pub fn quiet_end(text: &[u8], start: usize) -> usize
    requires { start ≤ length text.now }
    ensures from { start ≤ result }
    ensures in_range { result ≤ length text.now }
    ensures run { (k : ℕ) → start ≤ k → k < result → is_quiet_byte (slice_index text.now k) ≡ true }
    ensures stops { result < length text.now → is_quiet_byte (slice_index text.now result) ≡ false }
{
    let mut at = start;
    while at < text.len() && is_quiet(text[at]) {
        at += 1;
    }
    at
}
