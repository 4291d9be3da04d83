//! What is part of a value beside it, and left out.

ghost use Rattle.mysql_digests.specs.Digest.{Byte, agreed, awaits_exponent, before_next, digit_follows};
ghost use Rattle.mysql_digests.specs.Digest.{ends_in_e, is_exponent, is_left_out, is_power};
ghost use Rattle.mysql_digests.specs.Digest.{is_string_prefix, lexemes_of, may_sign};
ghost use Rattle.mysql_digests.specs.Lexemes.{first_is_digit, first_is_value, lexeme_view};
ghost use Rattle.mysql_digests.specs.declared.left_out.Before.TheVariants.{Apart, Power};
ghost use Rattle.mysql_queries.specs.Queries.{is_joining};
ghost use Rattle.mysql_queries.specs.Tokens.{HasTokens, dash};
ghost use Rattle.mysql_bytes.specs.declared.mode.Mode.{Mode};
ghost use Rattle.std.specs.Prelude.{◌≡◌, ◌==◌, ◌&&◌, if◌then◌else◌, ℕ, List};

use crate::lexemes::{Found, is_identifier, word_byte};
use crate::pieces::{digit, number_first};
use mysql_bytes::Mode;
use mysql_queries::tokens::{TokenKind, kind_at};

/// What is right before, as far as the next word or byte is read by it.
#[derive(Clone, Copy, Debug, PartialEq, Eq)]
pub enum Before {
    /// Nothing that could run together with what follows.
    Apart,
    /// What could run together with what follows.
    Joined,
    /// A number up to the sign of its exponent.
    Exponent,
    /// That sign.
    Power,
}

/// Whether a byte could run together with what follows.
fn joining(b: u8) -> bool
    ensures { result ≡ is_joining b }
{
    word_byte(b) || b == b':' || b == b'?' || b == b'\'' || b == b'"' || b == b'`'
}

/// Whether a digit comes first.
fn digit_first(text: &[u8]) -> bool
    ensures { result ≡ first_is_digit text.now }
{
    match text {
        [] => false,
        [b, ..] => digit(*b),
    }
}

/// Whether a value comes first that is no word.
fn value_first(text: &[u8], mode: Mode) -> bool
    ensures { result ≡ first_is_value mode text.now }
{
    if text.is_empty() {
        return false;
    }
    match kind_at(text) {
        TokenKind::Quoted(quote) => !is_identifier(mode, quote),
        TokenKind::LineComment => false,
        TokenKind::BlockComment => false,
        TokenKind::Opening => false,
        TokenKind::Closing => false,
        TokenKind::Name => true,
        TokenKind::Mark => true,
        TokenKind::Plain => false,
    }
}

/// Whether a string may begin with a word.
fn string_prefix(word: &[u8]) -> bool
    ensures { result ≡ is_string_prefix word.now }
{
    match word {
        [] => false,
        [b] => *b == b'x' || *b == b'X' || *b == b'b' || *b == b'B' || *b == b'n' || *b == b'N',
        [_, _, ..] => false,
    }
}

/// Whether a word is digits and dots, and an `e` behind them.
fn e_last(word: &[u8]) -> bool
    ensures { result ≡ ends_in_e word.now }
{
    let mut i = 0;
    while i + 1 < word.len() {
        if !(digit(word[i]) || word[i] == b'.') {
            return false;
        }
        i += 1;
    }
    i < word.len() && (word[i] == b'e' || word[i] == b'E')
}

/// Whether a word is a number up to the sign of its exponent.
fn exponent_awaited(word: &[u8]) -> bool
    ensures { result ≡ awaits_exponent word.now }
{
    number_first(word) && e_last(word)
}

/// What comes behind the sign of an exponent, if it is one.
fn behind_sign(after: &[u8]) -> Before
    ensures { (mode : Mode) (last : ℕ) (tokens : List (List ℕ)) → HasTokens mode after.now tokens →
        result ≡ (if digit_follows (lexemes_of mode (agreed last tokens)) then Power else Apart) }
{
    if digit_first(after) {
        Before::Power
    } else {
        Before::Apart
    }
}

impl Before {
    fn allows_sign(self) -> bool
        ensures { result ≡ may_sign self }
    {
        match self {
            Before::Apart => true,
            Before::Joined => false,
            Before::Exponent => true,
            Before::Power => false,
        }
    }

    fn at_exponent(self) -> bool
        ensures { result ≡ is_exponent self }
    {
        matches!(self, Before::Exponent)
    }

    /// Whether a byte is a sign here if a digit follows it.
    fn signs(self, b: u8) -> bool
        ensures { result ≡ may_sign self && (b == dash) }
    {
        self.allows_sign() && b == b'-'
    }

    /// Whether a byte is the sign of an exponent if a digit follows it.
    fn signs_exponent(self, b: u8) -> bool
        ensures { result ≡ is_exponent self && (b == dash) }
    {
        self.at_exponent() && b == b'-'
    }

    fn at_power(self) -> bool
        ensures { result ≡ is_power self }
    {
        matches!(self, Before::Power)
    }

    /// Whether what was found is left out, with its bytes and what comes after it.
    pub fn leaves_out(self, found: Found, bytes: &[u8], after: &[u8], mode: Mode) -> bool
        ensures { (last : ℕ) (tokens : List (List ℕ)) → HasTokens mode after.now tokens →
            result ≡ is_left_out self (lexeme_view found bytes.now) (lexemes_of mode (agreed last tokens)) }
    {
        match found {
            Found::Word => self.at_power() || (string_prefix(bytes) && value_first(after, mode)),
            Found::Byte(b) => self.signs(b) && digit_first(after),
            Found::Gap => false,
            Found::Value => false,
            Found::Operator => false,
            Found::Identifier => false,
        }
    }

    /// What the next one has before it.
    pub fn next(self, found: Found, bytes: &[u8], after: &[u8], mode: Mode) -> Before
        ensures { (last : ℕ) (tokens : List (List ℕ)) → HasTokens mode after.now tokens →
            result ≡ before_next self (lexeme_view found bytes.now) (lexemes_of mode (agreed last tokens)) }
    {
        match found {
            Found::Gap => Before::Apart,
            Found::Value => Before::Joined,
            Found::Word => {
                if exponent_awaited(bytes) {
                    Before::Exponent
                } else {
                    Before::Joined
                }
            }
            Found::Operator => Before::Apart,
            Found::Identifier => Before::Joined,
            Found::Byte(b) => self.behind_byte(b, after),
        }
    }

    /// What the next one has before it, behind a byte.
    fn behind_byte(self, b: u8, after: &[u8]) -> Before
        ensures { (mode : Mode) (last : ℕ) (tokens : List (List ℕ)) → HasTokens mode after.now tokens →
            result ≡ before_next self (Byte b) (lexemes_of mode (agreed last tokens)) }
    {
        if self.signs_exponent(b) {
            return behind_sign(after);
        }
        if joining(b) {
            Before::Joined
        } else {
            Before::Apart
        }
    }
}
