//! The mode and the character set that a connection knows of its session.

ghost use Rattle.mysql_witnesses.specs.Modes.{BackslashesHideNothing, BeginningsTellNothing};
ghost use Rattle.mysql_witnesses.specs.Modes.{PingsLeaveBoth, SetStatementsCountForNothing};
ghost use Rattle.mysql_witnesses.specs.Modes.{SetsForget, StatusesTellNothing, TextsKeep, ToldInVain};
ghost use Rattle.mysql_witnesses.specs.Modes.{TwoAreTwo, UnsafeSets};

/// Neither a status nor a login tells the mode, and a reset leaves none.
#[tactic(auto, using(crate::proofs::AboutModes::statuses_tell_nothing, crate::proofs::AboutModes::beginnings_tell_nothing))]
pub fn statuses_tell_nothing()
    ensures nothing { StatusesTellNothing }
    ensures beginnings { BeginningsTellNothing }
{}

/// A SET leaves unknown what it names, whether it is told or refused.
#[tactic(auto, using(crate::proofs::AboutModes::sets_forget))]
pub fn sets_forget()
    ensures { SetsForget }
{}

/// What is told in vain isn't known: of a `SET STATEMENT`, before further results, or unreadable.
#[tactic(auto, using(crate::proofs::AboutModes::set_statements_count_for_nothing, crate::proofs::AboutModes::told_in_vain))]
pub fn told_in_vain()
    ensures statements { SetStatementsCountForNothing }
    ensures told { ToldInVain }
{}

/// Two statements are two.
///
/// Excluded: a `;` that is overlooked in a comment that a server runs, or behind a backslash. So is one
/// in a string whose quote stands in a comment that servers skip.
#[tactic(auto, using(crate::proofs::AboutModes::two_are_two, crate::proofs::AboutModes::backslashes_hide_nothing))]
pub fn two_are_two()
    ensures two { TwoAreTwo }
    ensures backslashes { BackslashesHideNothing }
{}

/// Quotes are safe in the listed character sets alone.
#[tactic(auto, using(crate::proofs::AboutModes::unsafe_sets))]
pub fn unsafe_sets()
    ensures { UnsafeSets }
{}

/// A command that runs no statement leaves both.
#[tactic(auto, using(crate::proofs::AboutModes::pings_leave_both))]
pub fn pings_leave_both()
    ensures { PingsLeaveBoth }
{}

/// An ordinary text leaves both.
#[tactic(auto, using(crate::proofs::AboutModes::texts_keep))]
pub fn texts_keep()
    ensures { TextsKeep }
{}
