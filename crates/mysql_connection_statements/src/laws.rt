//! What holds of the statements. The functions change nothing: their contracts are the laws.

ghost use Rattle.mysql_connection_statements.specs.Laws.{AllIsCounted, BeginsCounted, BeginsSummed};
ghost use Rattle.mysql_connection_statements.specs.Laws.{ColumnsAreCounted, ExecutedAreCounted};
ghost use Rattle.mysql_connection_statements.specs.Laws.{ListsAreCounted, LongDataIsCounted};
ghost use Rattle.mysql_connection_statements.specs.Laws.{PendingAreCounted, PreparedAreCounted};
ghost use Rattle.mysql_connection_statements.specs.Laws.{ResetsAreCounted, StaysCountedAtAChange};
ghost use Rattle.mysql_connection_statements.specs.Laws.{StaysCountedAtAClose, StaysCountedAtAPrepare};
ghost use Rattle.mysql_connection_statements.specs.Laws.{StaysSummedAtAChange, StaysSummedAtAClose};
ghost use Rattle.mysql_connection_statements.specs.Laws.{StaysSummedAtAPrepare, TakenBackAreCounted};

/// What is kept for all statements is the sum of what is kept for each, whatever commands came.
///
/// Their ids ascend.
pub fn stored_is_the_sum()
    ensures begins { BeginsSummed }
    ensures prepare { StaysSummedAtAPrepare }
    ensures change { StaysSummedAtAChange }
    ensures close { StaysSummedAtAClose }
{}

/// The lists that are kept of statements have at most as many elements as bytes are counted for them.
///
/// So no few bytes make a long list. It holds behind a prepare, and behind each change, under two
/// premises. A payload counts at least what is kept of it. And no long data comes between an
/// execution and the error that answers it.
pub fn kept_lists_are_counted()
    ensures prepare { PreparedAreCounted }
    ensures execution { ExecutedAreCounted }
    ensures long_data { LongDataIsCounted }
    ensures reset { ResetsAreCounted }
    ensures columns { ColumnsAreCounted }
    ensures pending { PendingAreCounted }
    ensures refusal { TakenBackAreCounted }
    ensures lists { ListsAreCounted }
    ensures begins { BeginsCounted }
    ensures put { StaysCountedAtAPrepare }
    ensures change { StaysCountedAtAChange }
    ensures close { StaysCountedAtAClose }
    ensures all { AllIsCounted }
{}
