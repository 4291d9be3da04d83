//! What events show of prepared statements: texts and executions.

ghost use Rattle.mysql_witnesses.specs.Shown.{ChangesOfUserAreShown, ClosesAreShown};
ghost use Rattle.mysql_witnesses.specs.Shown.{ExecutionsOfTheLastAreShown, PreparesShowTheirTexts};
ghost use Rattle.mysql_witnesses.specs.Shown.{ResetsAreShown};

/// A statement has the text by which it was prepared.
#[tactic(auto, using(crate::proofs::AboutShown::prepares_show_their_texts))]
pub fn prepares_show_their_texts()
    ensures { PreparesShowTheirTexts }
{}

/// A statement that is closed has no text, however it is closed.
#[tactic(auto, using(crate::proofs::AboutShown::closes_are_shown))]
pub fn closes_are_shown()
    ensures { ClosesAreShown }
{}

/// Behind a change of user no statement has a text.
#[tactic(auto, using(crate::proofs::AboutShown::changes_of_user_are_shown))]
pub fn changes_of_user_are_shown()
    ensures { ChangesOfUserAreShown }
{}

/// Behind a reset of the connection that is answered by OK no statement has a text.
#[tactic(auto, using(crate::proofs::AboutShown::resets_are_shown))]
pub fn resets_are_shown()
    ensures { ResetsAreShown }
{}

/// An execution of ffffffff is one of the statement that was prepared last.
#[tactic(auto, using(crate::proofs::AboutShown::executions_of_the_last_are_shown))]
pub fn executions_of_the_last_are_shown()
    ensures { ExecutionsOfTheLastAreShown }
{}
