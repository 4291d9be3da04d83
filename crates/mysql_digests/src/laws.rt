//! Theorems about digests. The functions change nothing: their contracts are the theorems.

ghost use Rattle.mysql_digests.specs.Laws.{
  InsidesAreNotTold,
  OneDigest,
  RestIsNotTold,
  SomeDigest,
  TextHasItsQuerysDigest,
  TextsHaveOneDigest,
  WorkedDigests,
};

use mysql_queries::laws::{one_reading, tokens_of_a_text};

/// Each text has one digest.
pub fn a_text_has_one_digest()
    ensures some { SomeDigest }
    ensures one { OneDigest }
{
    tokens_of_a_text();
}

/// Two texts over one query have one digest, which is that of the query.
///
/// Nothing may run together with a placeholder of the query.
pub fn texts_over_one_query_have_one_digest()
    ensures query { TextHasItsQuerysDigest }
    ensures texts { TextsHaveOneDigest }
{
    tokens_of_a_text();
    one_reading();
}

/// A digest tells nothing inside a string or a comment, nor what follows where servers disagree.
pub fn digests_have_no_inside()
    ensures insides { InsidesAreNotTold }
    ensures rest { RestIsNotTold }
{
    tokens_of_a_text();
}

/// Digests of small texts, which other definitions would give another digest.
pub fn digests_of_small_texts()
    ensures { WorkedDigests }
{}
