//! The law of executions that are appended behind sets that were sent. A function without a result
//! does nothing: its contract is the law.

ghost use Rattle.mysql_send.specs.Laws.{FurtherSetsAreSent};

/// Executions of sets that are numbered on from sets sent by execute are sent with them.
///
/// They are appended behind those.
pub fn further_sets_are_sent()
    ensures { FurtherSetsAreSent }
{}
