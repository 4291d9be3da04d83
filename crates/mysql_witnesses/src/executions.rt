//! Executions of a prepared statement, what they leave in force, and commands.

ghost use Rattle.mysql_witnesses.specs.Executions.{AttributesStandWithTypes, BulksAreAboutAStatement};
ghost use Rattle.mysql_witnesses.specs.Executions.{BulksBeginWithFa, BytesBehindAChangeOfUserDontCount};
ghost use Rattle.mysql_witnesses.specs.Executions.{CommandsAreNotPutAsOthers, OddLengthsAreUnclear};
ghost use Rattle.mysql_witnesses.specs.Executions.{TheFirstUnclearCellIsFound};
ghost use Rattle.mysql_witnesses.specs.Executions.{FetchesNameTheirStatementFirst, LaterTypesStay};
ghost use Rattle.mysql_witnesses.specs.Executions.{NamesWithZerosAreNotPut, NoByteIsLeftBehindACommand};
ghost use Rattle.mysql_witnesses.specs.Executions.{NothingElseIsPutForWaitingData};
ghost use Rattle.mysql_witnesses.specs.Executions.{UnknownBulksLeaveTheTypes};
ghost use Rattle.mysql_witnesses.specs.Executions.{UnreadExecutionsLeaveAll, WaitingDataIsNotRepeated};

/// Types that an execution carries leave those of the parameters behind them.
pub fn later_types_stay()
    ensures { LaterTypesStay }
{}

/// A command that a server didn't read leaves what was in force before it.
pub fn unread_commands_leave_what_was_in_force()
    ensures executions { UnreadExecutionsLeaveAll }
    ensures bulks { UnknownBulksLeaveTheTypes }
{}

/// Long data that waits isn't written once more.
#[tactic(auto, unfolding(crate::proofs::OnLiterals::executions_on_literals))]
pub fn waiting_data_is_not_repeated()
    ensures { WaitingDataIsNotRepeated }
{}

/// Where long data waits no other value is put.
pub fn nothing_else_is_put_for_waiting_data()
    ensures { NothingElseIsPutForWaitingData }
{}

/// Attributes are in an execution with types alone.
#[tactic(auto, unfolding(crate::proofs::OnLiterals::executions_on_literals))]
pub fn attributes_stand_with_types()
    ensures { AttributesStandWithTypes }
{}

/// Cells that servers read each their way are told from others, and the first of them is found.
#[tactic(auto, unfolding(crate::proofs::OnLiterals::cells_on_literals))]
pub fn odd_lengths_are_unclear()
    ensures lengths { OddLengthsAreUnclear }
    ensures first { TheFirstUnclearCellIsFound }
{}

/// Bytes behind the last field of a change of user don't count.
#[tactic(auto, unfolding(crate::proofs::OnLiterals::changes_of_user_on_literals))]
pub fn bytes_behind_a_change_of_user_dont_count()
    ensures { BytesBehindAChangeOfUserDontCount }
{}

/// A bulk execution is about the statement of the id behind its number, fa.
#[tactic(auto, unfolding(mysql_buf::specs::Reading::first))]
pub fn bulks_are_about_a_statement()
    ensures read { BulksAreAboutAStatement }
    ensures written { BulksBeginWithFa }
{}

/// The fields of a command are in their order, with no byte behind them.
#[tactic(auto, unfolding(mysql_buf::specs::Reading::first))]
pub fn commands_are_read_to_the_end()
    ensures order { FetchesNameTheirStatementFirst }
    ensures end { NoByteIsLeftBehindACommand }
{}

/// A command isn't put whose payload reads as another one.
#[tactic(auto, using(crate::proofs::AboutExecutions::names_with_zeros_are_not_put, crate::proofs::AboutExecutions::commands_are_not_put_as_others))]
pub fn payloads_that_read_otherwise_are_not_put()
    ensures names { NamesWithZerosAreNotPut }
    ensures others { CommandsAreNotPutAsOthers }
{}
