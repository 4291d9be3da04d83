//! Events, payloads and packets that are put.

ghost use Rattle.mysql_witnesses.specs.Puts.{AnswersAreNumberedOn, CommandsAreNumberedAnew};
ghost use Rattle.mysql_witnesses.specs.Puts.{ExecutionsAreWrittenByTheirStatement, HasThatPayload};
ghost use Rattle.mysql_witnesses.specs.Puts.{NumbersAreNotPutAsOthers, PacketsWaitForTheirTurn};
ghost use Rattle.mysql_witnesses.specs.Puts.{PayloadsAreOfTheirSide, RefusedEventsChangeNothing};
ghost use Rattle.mysql_witnesses.specs.Puts.{RefusedPayloadsChangeNothing, RowsAreDueBehindColumns};
ghost use Rattle.mysql_witnesses.specs.Puts.{RowsAreNotPutUnderOtherColumns};
ghost use Rattle.mysql_witnesses.specs.Puts.{ValuesMakeNoOddExecution, WhatIsHeldBackIsNotPut};
ghost use Rattle.mysql_witnesses.specs.Puts.{WhatWaitsComesFirst};

/// Nothing is put before bytes that wait.
pub fn what_waits_comes_first()
    ensures { WhatWaitsComesFirst }
{}

/// It is one side's turn.
pub fn payloads_are_of_their_side()
    ensures { PayloadsAreOfTheirSide }
{}

/// What is put has the next number.
#[tactic(auto, unfolding(mysql_wire::specs::Framing::framing, mysql_wire::specs::Framing::chunks))]
pub fn what_is_put_has_the_number_due()
    ensures answers { AnswersAreNumberedOn }
    ensures commands { CommandsAreNumberedAnew }
{}

/// A refusal changes nothing, by any cause.
///
/// Excluded: a number, columns or statements that have gone on where memory or room was wanting.
#[tactic(auto, using(crate::proofs::AboutPuts::refused_events_change_nothing, crate::proofs::AboutPuts::refused_payloads_change_nothing))]
pub fn refusals_change_nothing()
    ensures events { RefusedEventsChangeNothing }
    ensures payloads { RefusedPayloadsChangeNothing }
{}

/// A payload that is held back isn't put.
#[tactic(auto, using(crate::proofs::AboutPuts::what_is_held_back_is_not_put))]
pub fn what_is_held_back_is_not_put()
    ensures { WhatIsHeldBackIsNotPut }
{}

/// An execution that is made of values is no odd one.
pub fn values_make_no_odd_execution()
    ensures { ValuesMakeNoOddExecution }
{}

/// An execution is written by what is in force of the statement that it names.
pub fn executions_are_written_by_their_statement()
    ensures { ExecutionsAreWrittenByTheirStatement }
{}

/// A number isn't put that is read as another value.
///
/// Excluded: an unsigned number below 2^63, which is read as one with a sign.
#[tactic(auto, using(crate::proofs::AboutPuts::has_that_payload, crate::proofs::AboutPuts::numbers_are_not_put_as_others))]
pub fn numbers_are_not_put_as_others()
    ensures payload { HasThatPayload }
    ensures reading { NumbersAreNotPutAsOthers }
{}

/// A row comes behind its columns alone.
#[tactic(auto, using(crate::proofs::AboutPuts::rows_are_due_behind_columns))]
pub fn rows_are_due_behind_columns()
    ensures { RowsAreDueBehindColumns }
{}

/// A row isn't put under other columns than its own.
pub fn rows_are_not_put_under_other_columns()
    ensures { RowsAreNotPutUnderOtherColumns }
{}

/// Packets past the turn of their side are left.
pub fn packets_wait_for_their_turn()
    ensures { PacketsWaitForTheirTurn }
{}
