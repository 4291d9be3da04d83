//! Commands for another connection.

ghost use Rattle.mysql_witnesses.specs.Recoding.{ClosedIdsAreForgotten, ExecutionsGoWithIdAndTypes};

/// An execution goes to another connection with its statement's id there, and with types.
pub fn executions_go_with_id_and_types()
    ensures { ExecutionsGoWithIdAndTypes }
{}

/// A statement's id is forgotten at its close.
pub fn closed_ids_are_forgotten()
    ensures { ClosedIdsAreForgotten }
{}
