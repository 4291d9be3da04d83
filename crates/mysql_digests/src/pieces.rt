//! The pieces of a digest, of which values and rows of values fold as they come.

ghost use Rattle.mysql_digests.specs.Digest.{Piece, Text, begins_number, is_introducer, is_value};
ghost use Rattle.mysql_digests.specs.Digest.{text_of, with_close, with_lexeme, with_mark, with_row};
ghost use Rattle.mysql_digests.specs.Digest.{with_rest, with_spaces, with_value, with_word, without_last};
ghost use Rattle.mysql_digests.specs.Held.{Holds, is_comma, is_open, mark_of, piece_kind, rows_of};
ghost use Rattle.mysql_digests.specs.Held.{rows_before, values_before, values_of, values_opened};
ghost use Rattle.mysql_digests.specs.Lexemes.{lexeme_view};
ghost use Rattle.mysql_queries.specs.Literals.{is_digit};
ghost use Rattle.std.specs.Char.{to_ascii_lowercase};
ghost use Rattle.std.specs.Prelude.{◌≡◌, ◌∷◌, [], List, OnOk, map, true};

use crate::lexemes::Found;
use std::alloc::{AllocError, Global};

/// The kind of a piece. Values are one or many, and a row and rows are of one value or of many.
#[derive(Clone, Copy, Debug, PartialEq, Eq)]
pub enum PieceKind {
    Text,
    Comma,
    Open,
    Close,
    Values(bool),
    Row(bool),
    Rows(bool),
}

/// The text of a piece of a kind that keeps none.
fn mark(kind: PieceKind) -> &'static [u8]
    ensures { result.now ≡ mark_of kind }
{
    match kind {
        PieceKind::Text => b"",
        PieceKind::Comma => b",",
        PieceKind::Open => b"(",
        PieceKind::Close => b")",
        PieceKind::Values(false) => b"?",
        PieceKind::Values(true) => b"?, ...",
        PieceKind::Row(false) => b"(?)",
        PieceKind::Row(true) => b"(...)",
        PieceKind::Rows(false) => b"(?) /* , ... */",
        PieceKind::Rows(true) => b"(...) /* , ... */",
    }
}

fn comma(kind: PieceKind) -> bool
    ensures { result ≡ is_comma kind }
{
    matches!(kind, PieceKind::Comma)
}

fn open(kind: PieceKind) -> bool
    ensures { result ≡ is_open kind }
{
    matches!(kind, PieceKind::Open)
}

/// Of values, whether they are many.
fn values(kind: PieceKind) -> Option<bool>
    ensures { result ≡ values_of kind }
{
    match kind {
        PieceKind::Values(many) => Some(many),
        PieceKind::Text => None,
        PieceKind::Comma => None,
        PieceKind::Open => None,
        PieceKind::Close => None,
        PieceKind::Row(_) => None,
        PieceKind::Rows(_) => None,
    }
}

/// Of a row or rows, whether they are of many values.
fn rows(kind: PieceKind) -> Option<bool>
    ensures { result ≡ rows_of kind }
{
    match kind {
        PieceKind::Row(of_many) => Some(of_many),
        PieceKind::Rows(of_many) => Some(of_many),
        PieceKind::Text => None,
        PieceKind::Comma => None,
        PieceKind::Open => None,
        PieceKind::Close => None,
        PieceKind::Values(_) => None,
    }
}

pub fn digit(b: u8) -> bool
    ensures { result ≡ is_digit b }
{
    b'0' <= b && b <= b'9'
}

/// Whether a word begins as a number.
pub fn number_first(word: &[u8]) -> bool
    ensures { result ≡ begins_number word.now }
{
    match word {
        [] => false,
        [a] => digit(*a),
        [a, b, ..] => digit(*a) || (*a == b'.' && digit(*b)),
    }
}

/// Whether a word is a value.
fn value_word(word: &[u8]) -> bool
    ensures { result ≡ is_value word.now }
{
    number_first(word)
        || word.eq_ignore_ascii_case(b"null")
        || word.eq_ignore_ascii_case(b"true")
        || word.eq_ignore_ascii_case(b"false")
}

/// Whether a word says how the value behind it is read.
fn introducer(word: &[u8]) -> bool
    ensures { result ≡ is_introducer word.now }
{
    word.eq_ignore_ascii_case(b"_utf8mb4") || word.eq_ignore_ascii_case(b"_binary")
}

/// Pieces: the kind of each, and their texts in a row, with a space behind each.
#[derive(Debug, Drop)]
pub struct Pieces {
    kinds: Vec<PieceKind>,
    bytes: Vec<u8>,
}

impl Pieces {
    pub fn new(alloc: Global) -> Pieces
        ensures { Holds [] result }
    {
        Pieces {
            kinds: Vec::new(alloc),
            bytes: Vec::new(alloc),
        }
    }

    /// Appends a piece of a kind with its text.
    fn push(&mut self, kind: PieceKind, text: &[u8]) -> Result<(), AllocError>
        ensures { OnOk result ((pieces : List Piece) (piece : Piece) → Holds pieces self.old →
            piece_kind piece ≡ kind → text_of piece ≡ text.now → Holds (piece ∷ pieces) self.new) }
    {
        self.kinds.push(kind)?;
        self.bytes.extend_from_slice(text)?;
        self.bytes.push(b' ')?;
        Ok(())
    }

    fn push_mark(&mut self, kind: PieceKind) -> Result<(), AllocError>
        ensures { OnOk result ((pieces : List Piece) (piece : Piece) → Holds pieces self.old →
            piece_kind piece ≡ kind → text_of piece ≡ mark_of kind →
            Holds (piece ∷ pieces) self.new) }
    {
        self.push(kind, mark(kind))?;
        Ok(())
    }

    /// Takes the last piece off, whose text is that of its kind.
    fn cut(&mut self)
        ensures { (pieces : List Piece) (piece : Piece) → Holds (piece ∷ pieces) self.old →
            text_of piece ≡ mark_of (piece_kind piece) → Holds pieces self.new }
    {
        let Some(kind) = self.kinds.pop() else {
            return;
        };
        let kept = self.bytes.len().saturating_sub(mark(kind).len());
        self.bytes.truncate(kept.saturating_sub(1));
    }

    /// Takes the last two pieces off, whose texts are those of their kinds.
    fn cut_two(&mut self)
        ensures { (pieces : List Piece) (first second : Piece) →
            Holds (first ∷ second ∷ pieces) self.old →
            text_of first ≡ mark_of (piece_kind first) →
            text_of second ≡ mark_of (piece_kind second) → Holds pieces self.new }
    {
        self.cut();
        self.cut();
    }

    /// Makes one piece of the last two, all of them with the texts of their kinds.
    fn fold(&mut self, kind: PieceKind) -> Result<(), AllocError>
        ensures { OnOk result ((pieces : List Piece) (first second piece : Piece) →
            Holds (first ∷ second ∷ pieces) self.old → text_of first ≡ mark_of (piece_kind first) →
            text_of second ≡ mark_of (piece_kind second) → piece_kind piece ≡ kind →
            text_of piece ≡ mark_of kind → Holds (piece ∷ pieces) self.new) }
    {
        self.cut_two();
        self.push_mark(kind)
    }

    /// Of the values before a last comma, whether they are many.
    fn values_before(&self) -> Option<bool>
        ensures { (pieces : List Piece) → Holds pieces self.now → result ≡ values_before pieces }
    {
        let len = self.kinds.len();
        if len < 2 {
            return None;
        }
        if !comma(self.kinds[len - 1]) {
            return None;
        }
        values(self.kinds[len - 2])
    }

    /// Of the row or rows before a last comma, whether they are of many values.
    fn rows_before(&self) -> Option<bool>
        ensures { (pieces : List Piece) → Holds pieces self.now → result ≡ rows_before pieces }
    {
        let len = self.kinds.len();
        if len < 2 {
            return None;
        }
        if !comma(self.kinds[len - 1]) {
            return None;
        }
        rows(self.kinds[len - 2])
    }

    /// Of the values behind a last opening parenthesis, whether they are many.
    fn values_opened(&self) -> Option<bool>
        ensures { (pieces : List Piece) → Holds pieces self.now → result ≡ values_opened pieces }
    {
        let len = self.kinds.len();
        if len < 2 {
            return None;
        }
        if !open(self.kinds[len - 2]) {
            return None;
        }
        values(self.kinds[len - 1])
    }

    /// Appends text that is kept.
    fn add_text(&mut self, text: &[u8]) -> Result<(), AllocError>
        ensures { OnOk result ((pieces : List Piece) → Holds pieces self.old →
            Holds (Text text.now ∷ pieces) self.new) }
    {
        self.push(PieceKind::Text, text)?;
        Ok(())
    }

    fn add_value(&mut self) -> Result<(), AllocError>
        ensures { OnOk result ((pieces : List Piece) → Holds pieces self.old →
            Holds (with_value pieces) self.new) }
    {
        match self.values_before() {
            Some(_many) => self.fold(PieceKind::Values(true)),
            None => self.push_mark(PieceKind::Values(false)),
        }
    }

    fn add_row(&mut self, of_many: bool) -> Result<(), AllocError>
        ensures { OnOk result ((pieces : List Piece) → Holds pieces self.old →
            Holds (with_row of_many pieces) self.new) }
    {
        match self.rows_before() {
            Some(others) => self.fold(PieceKind::Rows(others)),
            None => self.push_mark(PieceKind::Row(of_many)),
        }
    }

    fn add_close(&mut self) -> Result<(), AllocError>
        ensures { OnOk result ((pieces : List Piece) → Holds pieces self.old →
            Holds (with_close pieces) self.new) }
    {
        match self.values_opened() {
            Some(many) => {
                self.cut_two();
                self.add_row(many)
            }
            None => self.push_mark(PieceKind::Close),
        }
    }

    /// Appends a word in lower case.
    fn add_name(&mut self, word: &[u8]) -> Result<(), AllocError>
        ensures { OnOk result ((pieces : List Piece) → Holds pieces self.old →
            Holds (Text (map to_ascii_lowercase word.now) ∷ pieces) self.new) }
    {
        let start = self.bytes.len();
        self.bytes.extend_from_slice(word)?;
        self.bytes[start..].make_ascii_lowercase();
        self.kinds.push(PieceKind::Text)?;
        self.bytes.push(b' ')?;
        Ok(())
    }

    fn add_word(&mut self, word: &[u8]) -> Result<(), AllocError>
        ensures { OnOk result ((pieces : List Piece) → Holds pieces self.old →
            Holds (with_word word.now pieces) self.new) }
    {
        if value_word(word) {
            return self.add_value();
        }
        if introducer(word) {
            return Ok(());
        }
        self.add_name(word)
    }

    fn add_byte(&mut self, b: u8) -> Result<(), AllocError>
        ensures { OnOk result ((pieces : List Piece) → Holds pieces self.old →
            Holds (with_mark b pieces) self.new) }
    {
        if b == b',' {
            return self.push_mark(PieceKind::Comma);
        }
        if b == b'(' {
            return self.push_mark(PieceKind::Open);
        }
        if b == b')' {
            return self.add_close();
        }
        self.add_text(&[b])
    }

    /// Appends the mark that stands for all that follows.
    pub fn add_rest(&mut self) -> Result<(), AllocError>
        ensures { OnOk result ((pieces : List Piece) → Holds pieces self.old →
            Holds (with_rest true pieces) self.new) }
    {
        self.add_text(b"/* ... */")
    }

    /// Appends what was found, with its bytes.
    pub fn add(&mut self, found: Found, bytes: &[u8]) -> Result<(), AllocError>
        ensures { OnOk result ((pieces : List Piece) → Holds pieces self.old →
            Holds (with_lexeme (lexeme_view found bytes.now) pieces) self.new) }
    {
        match found {
            Found::Gap => Ok(()),
            Found::Value => self.add_value(),
            Found::Word => self.add_word(bytes),
            Found::Operator => self.add_text(bytes),
            Found::Identifier => self.add_text(bytes),
            Found::Byte(b) => self.add_byte(b),
        }
    }

    /// Their texts, with a space between each two.
    pub fn into_text(self) -> Vec<u8>
        ensures { (pieces : List Piece) → Holds pieces self →
            result.items ≡ without_last (with_spaces pieces) }
    {
        let Pieces {
            kinds: _,
            mut bytes,
        } = self;
        let _ = bytes.pop();
        bytes
    }
}
