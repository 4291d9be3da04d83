//! Wrong bodies of a connection's calls that readers tried. Each is excluded by name.

ghost use Rattle.mysql_witnesses.specs.WrongBodies.{AnswersAreNoLastWords, BadEventsAreDue};
ghost use Rattle.mysql_witnesses.specs.WrongBodies.{BulksCarryTheirTypes, FaultsForgetNothing};
ghost use Rattle.mysql_witnesses.specs.WrongBodies.{FetchesAreReadByTheirStatement};
ghost use Rattle.mysql_witnesses.specs.WrongBodies.{LastWordsMayBePut, PacketsAreWaitedFor};
ghost use Rattle.mysql_witnesses.specs.WrongBodies.{ReportsAnswerNothing, ShortRowsAreLent};
ghost use Rattle.mysql_witnesses.specs.WrongBodies.{TypesInForceWillDo};

/// Behind a fault the state is the one before it.
#[tactic(auto, using(crate::proofs::AboutWrongBodies::faults_forget_nothing))]
pub fn faults_forget_nothing()
    ensures { FaultsForgetNothing }
{}

/// A packet that isn't whole is waited for.
#[tactic(auto, using(crate::proofs::AboutWrongBodies::packets_are_waited_for))]
pub fn packets_are_waited_for()
    ensures { PacketsAreWaitedFor }
{}

/// An error with the next number answers.
#[tactic(auto, using(crate::proofs::AboutWrongBodies::answers_are_no_last_words))]
pub fn answers_are_no_last_words()
    ensures { AnswersAreNoLastWords }
{}

/// Behind a command of one packet the server may say its last words.
#[tactic(auto, using(crate::proofs::AboutWrongBodies::last_words_may_be_put))]
pub fn last_words_may_be_put()
    ensures { LastWordsMayBePut }
{}

/// An event is refused as a bad one only where it is its turn.
#[tactic(auto, using(crate::proofs::AboutWrongBodies::bad_events_are_due))]
pub fn bad_events_are_due()
    ensures { BadEventsAreDue }
{}

/// An execution of values carries no types where those in force will do.
#[tactic(auto, using(crate::proofs::AboutWrongBodies::types_in_force_will_do))]
pub fn types_in_force_will_do()
    ensures { TypesInForceWillDo }
{}

/// A bulk execution leaves in force the types that it carries.
///
/// Excluded: follows_a_bulk_as_an_execution.
pub fn bulks_carry_their_types()
    ensures { BulksCarryTheirTypes }
{}

/// A fetch is read by the columns of the statement that it names.
pub fn fetches_are_read_by_their_statement()
    ensures { FetchesAreReadByTheirStatement }
{}

/// A report of progress answers no execution.
#[tactic(auto, using(crate::proofs::AboutWrongBodies::reports_answer_nothing))]
pub fn reports_answer_nothing()
    ensures { ReportsAnswerNothing }
{}

/// A row of one chunk is lent.
#[tactic(auto, using(crate::proofs::AboutWrongBodies::short_rows_are_lent))]
pub fn short_rows_are_lent()
    ensures { ShortRowsAreLent }
{}
