//! As many values as the server counted parameters.

ghost use Rattle.mysql_witnesses.specs.Counts.{AnotherCountIsTold, RowsOfAnotherCountAreNamed};
ghost use Rattle.mysql_witnesses.specs.Counts.{SetsOfAnotherCountAreNotPut, ValuesOfAnotherCountAreNamed};

use mysql_queries::laws::tokens_of_a_text;

/// Sets of another count than the server's aren't put, and the cause says so.
#[tactic(auto, using(crate::proofs::AboutCounts::sets_are_not_put))]
pub fn sets_of_another_count_are_not_put()
    ensures { SetsOfAnotherCountAreNotPut }
{}

/// Values of another count than the server's are refused by that name.
#[tactic(auto, using(crate::proofs::AboutCounts::values_are_named, crate::proofs::AboutCounts::rows_are_named))]
pub fn values_of_another_count_are_named()
    ensures values { ValuesOfAnotherCountAreNamed }
    ensures rows { RowsOfAnotherCountAreNamed }
{}

/// A query says where the server counted another number of parameters.
#[tactic(auto, using(crate::proofs::AboutCounts::another_count_is_told))]
pub fn another_count_is_told()
    ensures { AnotherCountIsTold }
{
    tokens_of_a_text();
}
