//! What holds of what was read. The functions change nothing: their contracts are the laws.

ghost use Rattle.mysql_executions.specs.Laws.{ReadBulkTypesAreCarried, ReadTypesAreCarried};

/// The types of an execution that was read are those that its body carries.
///
/// So what is in force behind it is decided by the execution alone.
pub fn read_types_are_carried()
    ensures { ReadTypesAreCarried }
{}

/// The types of a bulk execution that was read are those that its body carries.
pub fn read_bulk_types_are_carried()
    ensures { ReadBulkTypesAreCarried }
{}
