//! Prepared statements of a connection, and what is kept of them.

ghost use Rattle.std.specs.Prelude.{◌≡◌, OnErr};
ghost use Rattle.mysql_witnesses.specs.Statements.{ClosedStatementsAreNotTheLast, LongDataIsNotPadded};
ghost use Rattle.mysql_witnesses.specs.Statements.{TakenDataCountsNothing, WaitingDataIsTakenBack};

use mysql_connection_statements::{Pending, Statements};
use mysql_executions::{BoundType, Refused};
use std::alloc::AllocError;

/// Behind an execution nothing is kept of long data.
pub fn taken_data_counts_nothing()
    ensures { TakenDataCountsNothing }
{}

/// Long data that waited for an execution is taken back by its refusal, also where the execution has no
/// types.
#[tactic(auto, unfolding(mysql_connection_statements::specs::Statements::has_nothing))]
pub fn waiting_data_is_taken_back()
    ensures { WaitingDataIsTakenBack }
{}

/// What is kept of long data for a parameter is at most what is counted for it.
#[tactic(auto, using(crate::proofs::AboutStatements::long_data_is_not_padded))]
pub fn long_data_is_not_padded()
    ensures { LongDataIsNotPadded }
{}

/// A statement that was closed isn't the one that was prepared last.
pub fn closed_statements_are_not_the_last()
    ensures { ClosedStatementsAreNotTheLast }
{}

/// An execution that memory refuses changes nothing of the statements.
///
/// Excluded: a sum that counts it.
pub fn refused_executions_count_nothing(
    statements: &mut Statements,
    id: u32,
    refused: Refused,
    types: &[BoundType],
) -> Result<Option<Pending>, AllocError>
    ensures { OnErr result (statements.new ≡ statements.old) }
{
    statements.execute(id, refused, types)
}
