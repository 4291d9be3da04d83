//! Tags of global transaction identifiers: at most 32 letters, digits and underscores.
//!
//!     let tag = Tag::try_from("nightly")?;

ghost use Rattle.std.specs.Prelude.{◌≡◌, IfOk, IfErr, MatchResult, Some, None, nat_eq, not, refl};
ghost use Rattle.std.specs.Hash as fed;
ghost use Rattle.std.specs.Ordering.{nat_cmp};
ghost use Rattle.std.specs.Cmp.Lexicographic.{pointwise, slice_cmp, nat_list_eq_equiv, nat_list_cmp_total, texts_po};
ghost use Rattle.std.specs.Cmp.Lexicographic.{texts_ties};
ghost use Rattle.std.specs.Cmp.{partial_equiv_from_equiv};
ghost use Rattle.std.specs.Cmp.Rules.{hashing};
ghost use Rattle.std.proofs.Common.{rules};
ghost use Rattle.std.specs.Cow.{cow_str_bytes};
ghost use Rattle.std.specs.List.{find};
ghost use Rattle.std.specs.Str.{chars};
ghost use Rattle.mysql_replication.specs.Tags.{begins_tag, goes_on_tag, tag_fault};

use std::alloc::{AllocError, Global};
use std::borrow::CowStr;
use std::cmp::Ordering;
use std::error::Error;
use std::fmt;
use std::hash::{Hash, Hasher};
use std::marker::Model;

/// Why a text is no tag.
#[derive(Clone, Copy, Debug, PartialEq, Eq, Hash)]
pub enum InvalidTag {
    /// The text is empty.
    Empty,
    /// The text has more than 32 bytes; it has this many.
    TooLong(usize),
    /// The first character is this one, which is neither a letter from a to z nor an underscore.
    InvalidFirstChar(char),
    /// A later character is this one: neither a letter from a to z, an underscore nor a digit.
    InvalidChar(char),
}

// Writes why a tag can't hold a character where it does.
fn write_char_fault<W: fmt::Write>(f: &mut fmt::Formatter<W>, text: &str, c: char) -> fmt::Result {
    write!(f, "a tag can't {text} {c:?}")
}

impl fmt::Display for InvalidTag {
    fn fmt<W: fmt::Write>(&self, f: &mut fmt::Formatter<W>) -> fmt::Result {
        match self {
            InvalidTag::Empty => f.write_str("a tag can't be empty"),
            InvalidTag::TooLong(len) => write!(f, "a tag has at most 32 bytes, not {len}"),
            InvalidTag::InvalidFirstChar(c) => write_char_fault(f, "begin with", *c),
            InvalidTag::InvalidChar(c) => write_char_fault(f, "hold", *c),
        }
    }
}

impl Error for InvalidTag {}

/// Whether a tag may begin with a character.
fn is_first_char(c: char) -> bool
    ensures { result ≡ begins_tag c }
{
    matches!(c, 'a'..='z' | '_')
}

/// Whether a character may stand behind a tag's first.
fn is_later_char(c: char) -> bool
    ensures { result ≡ goes_on_tag c }
{
    matches!(c, 'a'..='z' | '_' | '0'..='9')
}

/// The leftmost character that may not stand behind a tag's first.
fn bad_later_char(text: &str) -> Option<char>
    ensures { result ≡ find (λ c. not (goes_on_tag c)) (chars text.now) }
{
    text.chars().find(|c| !is_later_char(*c))
}

/// Refuses a text that is no tag.
fn check(text: &str) -> Result<(), InvalidTag>
    ensures { MatchResult result (λ _. tag_fault text.now ≡ None) (λ fault. tag_fault text.now ≡ Some fault) }
{
    if text.len() > Tag::MAX_LEN {
        return Err(InvalidTag::TooLong(text.len()));
    }
    let mut chars = text.chars();
    let Some(first) = chars.next() else {
        return Err(InvalidTag::Empty);
    };
    if !is_first_char(first) {
        return Err(InvalidTag::InvalidFirstChar(first));
    }
    match bad_later_char(chars.as_str()) {
        None => Ok(()),
        Some(c) => Err(InvalidTag::InvalidChar(c)),
    }
}

/// A tag of global transaction identifiers.
///
/// It is a letter from a to z or an underscore, then letters, underscores and digits, at most 32
/// bytes in all. Tags are ordered by their bytes.
///
/// MySQL Reference Manual, "GTID Format and Storage".
#[derive(Drop)]
pub struct Tag<'a> {
    text: CowStr<'a>,
}

impl<'a> Model for Tag<'a> {
    ghost use Rattle.std.specs.Prelude.{List, ℕ, ◌≡◌, None};
    ghost use Rattle.std.specs.Cow.{cow_str_bytes};
    ghost use Rattle.mysql_replication.specs.Tags.{tag_fault};

    ghost Value = { List ℕ };

    ghost view = { λ tag. cow_str_bytes tag.text };

    ghost invariant = { λ tag. tag_fault (cow_str_bytes tag.text) ≡ None };
}

impl<'a> Tag<'a> {
    /// The most bytes that a tag has.
    pub const MAX_LEN: usize = 32;

    /// A tag of a text, which is moved and not copied.
    ///
    /// Promise: exactly the tags are taken, and each other text is refused by the first cause
    /// (`tag_fault`).
    ///
    /// # Errors
    /// - `Empty`.
    /// - `TooLong` with the number of bytes.
    /// - `InvalidFirstChar`.
    /// - `InvalidChar` with the leftmost such character.
    ///
    /// MySQL Reference Manual, "GTID Format and Storage".
    pub fn new(text: CowStr<'a>) -> Result<Tag<'a>, InvalidTag>
        ensures ok { IfOk result (λ tag. (tag ≡ cow_str_bytes text.entry) × (tag_fault tag ≡ None)) }
        ensures err { IfErr result (λ fault. tag_fault (cow_str_bytes text.entry) ≡ Some fault) }
    {
        check(text.as_str())?;
        Ok(Tag { text })
    }

    /// The tag's text.
    pub fn as_str(&self) -> &str
        ensures text { result.now ≡ self.now }
        ensures valid { tag_fault self.now ≡ None }
    {
        self.text.as_str()
    }

    /// The tag in bytes of its own: it borrows nothing.
    pub fn into_owned(self, alloc: Global) -> Result<Tag<'static>, AllocError>
        ensures { IfOk result (λ tag. tag ≡ self.entry) }
    {
        Ok(Tag {
            text: CowStr::Owned(self.text.into_owned(alloc)?),
        })
    }

    /// A copy of the tag, which borrows nothing.
    pub fn clone(&self, alloc: Global) -> Result<Tag<'static>, AllocError>
        ensures { IfOk result (λ tag. tag ≡ self.now) }
    {
        Ok(Tag {
            text: CowStr::Owned(String::from_str(alloc, self.text.as_str())?),
        })
    }
}

impl<'a> TryFrom<&'a str> for Tag<'a> {
    ghost try_from_gives = { λ text result. IfOk result (λ tag. (tag ≡ text.now) ×
        (tag_fault tag ≡ None)) × IfErr result (λ fault. tag_fault text.now ≡ Some fault) };

    type Error = InvalidTag;

    fn try_from(text: &'a str) -> Result<Tag<'a>, InvalidTag> {
        Tag::new(CowStr::Borrowed(text))
    }
}

impl<'a> PartialEq for Tag<'a> {
    ghost eq = { pointwise nat_eq };

    ghost laws = { partial_equiv_from_equiv nat_list_eq_equiv };

    fn eq(&self, other: &Tag<'a>) -> bool {
        self.as_str() == other.as_str()
    }
}

impl<'a> Eq for Tag<'a> {
    ghost laws = { nat_list_eq_equiv };
}

impl<'a> PartialOrd for Tag<'a> {
    ghost partial_cmp = { λ tag other. Some (slice_cmp nat_cmp tag other) };

    ghost laws = { texts_po };

    fn partial_cmp(&self, other: &Tag<'a>) -> Option<Ordering> {
        Some(self.cmp(other))
    }
}

impl<'a> Ord for Tag<'a> {
    ghost cmp = { slice_cmp nat_cmp };

    ghost total = { nat_list_cmp_total };

    ghost matches_partial_cmp = { λ tag other. refl };

    ghost matches_eq = { texts_ties };

    fn cmp(&self, other: &Tag<'a>) -> Ordering {
        self.as_str().cmp(other.as_str())
    }
}

impl<'a> Hash for Tag<'a> {
    ghost hash_input = { fed.str };

    ghost respects_eq = { Prim.search (hashing, rules) };

    fn hash<H: Hasher>(&self, state: &mut H) {
        self.as_str().hash(state);
    }
}

impl<'a> fmt::Display for Tag<'a> {
    ghost output = { λ tag. Some tag };

    fn fmt<W: fmt::Write>(&self, f: &mut fmt::Formatter<W>) -> fmt::Result {
        f.write_str(self.as_str())
    }
}

impl<'a> fmt::Debug for Tag<'a> {
    fn fmt<W: fmt::Write>(&self, f: &mut fmt::Formatter<W>) -> fmt::Result {
        f.debug_tuple("Tag").field(&self.as_str()).finish()
    }
}
