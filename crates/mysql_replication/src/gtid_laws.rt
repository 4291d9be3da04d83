//! Laws of texts of sets. Functions without a result do nothing: their contracts are the laws.

ghost use Rattle.std.specs.Prelude.{◌≡◌, ◌↔◌, IsTrue};
ghost use Rattle.std.specs.Ordering.{nat_cmp};
ghost use Rattle.std.specs.Cmp.Lexicographic.{slice_cmp};
ghost use Rattle.mysql_replication.specs.Sids.{sid_view};
ghost use Rattle.mysql_replication.specs.Laws.{ParsedEqualByText, ParsedReadsBack};

use crate::sid::Sid;
use crate::tag::Tag;
use std::cmp::Ordering;

/// A set that a text writes is read from its own text.
#[tactic(auto, using(crate::proofs::ReadBack::parsed_reads_back))]
pub fn parsed_sets_read_back()
    ensures { ParsedReadsBack }
{}

/// Two sets that texts write are equal exactly where their own texts are.
#[tactic(auto, using(crate::proofs::ReadBack::parsed_equal_by_text))]
pub fn parsed_sets_are_equal_by_their_texts()
    ensures { ParsedEqualByText }
{}

/// Tags are equal exactly where their texts are.
pub fn tags_are_equal_by_their_texts(a: &Tag<'_>, b: &Tag<'_>) -> bool
    ensures { IsTrue result ↔ (a.now ≡ b.now) }
{
    a == b
}

/// Tags are ordered as the bytes of their texts.
pub fn tags_are_ordered_by_their_bytes(a: &Tag<'_>, b: &Tag<'_>) -> Ordering
    ensures { result ≡ slice_cmp nat_cmp a.now b.now }
{
    a.cmp(b)
}

/// Sets are equal exactly where their UUIDs, their tags and their intervals are.
pub fn sets_are_equal_by_their_parts(a: &Sid<'_>, b: &Sid<'_>) -> bool
    ensures { IsTrue result ↔ (sid_view a.now ≡ sid_view b.now) }
{
    a == b
}
