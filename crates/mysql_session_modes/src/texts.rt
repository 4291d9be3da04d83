//! What a text tells of what it may change: its first word, and whether it is one statement.

ghost use Rattle.std.specs.Prelude.{◌≡◌, ◌≤◌, ◌<◌, ◌==◌, List, drop, length, not, ℕ};
ghost use Rattle.std.specs.List.{prefix_len};
ghost use Rattle.mysql_queries.specs.Alone.{is_blank};
ghost use Rattle.mysql_queries.specs.TokenKinds.{kind_view};
ghost use Rattle.mysql_queries.specs.Tokens.{HasTokens};
ghost use Rattle.mysql_session_modes.specs.Texts as texts;
ghost use Rattle.mysql_session_modes.specs.Texts.{behind_skipped, is_doubtful_kind, is_semicolon_kind};
ghost use Rattle.mysql_session_modes.specs.Texts.{is_skipped_kind, semicolon, some_run};

use crate::words::is_word_at;
use memchr::memchr;
use mysql_bytes::Mode;
use mysql_queries::tokens::{TokenKind, kind_at, token_end};

fn blank(b: u8) -> bool
    ensures { result ≡ is_blank b }
{
    (b'\t' <= b && b <= b'\r') || b == b' '
}

fn word_byte(b: u8) -> bool
    ensures { result ≡ texts.is_word_byte b }
{
    (b'0' <= b && b <= b'9')
        || (b'A' <= b && b <= b'Z')
        || (b'a' <= b && b <= b'z')
        || b == b'_'
        || b >= 0x80
        || b == b'$'
}

// Some servers run what stands in a comment.
fn some_run(comment: &[u8]) -> bool
    ensures { result ≡ some_run comment.now }
{
    is_word_at(b"/*!", comment) || is_word_at(b"/*m!", comment)
}

// Each server leaves out a token of this kind, with which a text begins.
fn skipped(kind: TokenKind, token: &[u8]) -> bool
    requires { 0 < length token.now }
    ensures { result ≡ is_skipped_kind (kind_view kind) token.now }
{
    match kind {
        TokenKind::LineComment => true,
        TokenKind::BlockComment => !some_run(token),
        TokenKind::Plain => blank(token[0]),
        _ => false,
    }
}

// A token of this kind ends a statement.
fn semicolon(kind: TokenKind, token: &[u8]) -> bool
    requires { 0 < length token.now }
    ensures { result ≡ is_semicolon_kind (kind_view kind) token.now }
{
    match kind {
        TokenKind::Plain => token[0] == b';',
        _ => false,
    }
}

// Servers may disagree about what follows a token of this kind.
fn doubtful(kind: TokenKind, token: &[u8]) -> bool
    requires { 0 < length token.now }
    ensures { result ≡ is_doubtful_kind (kind_view kind) token.now }
{
    match kind {
        TokenKind::Opening => true,
        TokenKind::BlockComment => some_run(token),
        TokenKind::Plain => token[0] == b'$',
        _ => false,
    }
}

// Where the first token begins that stands for something.
fn skipped_end(text: &[u8], mode: Mode) -> usize
    ensures in_range { result ≤ length text.now }
    ensures rest { (tokens : List (List ℕ)) → HasTokens mode text.now tokens →
        HasTokens mode (drop result text.now) (behind_skipped tokens) }
{
    let mut at = 0;
    while at < text.len() {
        let rest = &text[at..];
        let kind = kind_at(rest);
        let len = token_end(rest, kind, mode);
        if !skipped(kind, &rest[..len]) {
            return at;
        }
        at += len;
    }
    at
}

// How many bytes of a word come first.
fn word_len(text: &[u8]) -> usize
    ensures in_range { result ≤ length text.now }
    ensures len { result ≡ prefix_len texts.is_word_byte text.now }
{
    let mut at = 0;
    while at < text.len() && word_byte(text[at]) {
        at += 1;
    }
    at
}

/// The word that a text begins with, behind what is left out.
pub fn first_word(text: &[u8], mode: Mode) -> &[u8]
    ensures { (tokens : List (List ℕ)) → HasTokens mode text.now tokens →
        result.now ≡ texts.first_word tokens }
{
    let rest = &text[skipped_end(text, mode)..];
    &rest[..word_len(rest)]
}

// Where the first `;` stands, or the end.
fn first_semicolon(text: &[u8]) -> usize
    ensures in_range { result ≤ length text.now }
    ensures len { result ≡ prefix_len (λ b. not (b == semicolon)) text.now }
{
    match memchr(b';', text) {
        Some(at) => at,
        None => text.len(),
    }
}

/// The first `;` of a text is its last byte, or there is none.
pub fn ends_at_semicolon(text: &[u8]) -> bool
    ensures { result ≡ texts.ends_at_semicolon text.now }
{
    text.len() - first_semicolon(text) <= 1
}

// Nothing stands in a text but what is left out.
fn is_all_skipped(text: &[u8], mode: Mode) -> bool
    ensures { (tokens : List (List ℕ)) → HasTokens mode text.now tokens →
        result ≡ (length (behind_skipped tokens) == 0) }
{
    skipped_end(text, mode) == text.len()
}

/// The tokens of a text are those of one statement.
pub fn is_one_statement(text: &[u8], mode: Mode) -> bool
    ensures { (tokens : List (List ℕ)) → HasTokens mode text.now tokens →
        result ≡ texts.is_one_statement tokens }
{
    let mut at = 0;
    while at < text.len() {
        let rest = &text[at..];
        let kind = kind_at(rest);
        let len = token_end(rest, kind, mode);
        let token = &rest[..len];
        if semicolon(kind, token) {
            return is_all_skipped(&rest[len..], mode);
        }
        if doubtful(kind, token) {
            return false;
        }
        at += len;
    }
    true
}
