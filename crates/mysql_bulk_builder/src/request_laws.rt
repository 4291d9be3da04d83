//! Laws of bulk executions. Functions without a result do nothing: their contracts are the laws.

ghost use Rattle.mysql_bulk_builder.specs.Laws.{ColumnsAreThoseOfRows};

/// A column of rows of the same length holds the value of each row at its place.
///
/// The rows are joined to one list.
#[tactic(auto, using(crate::proofs::ColumnsOfRows::columns_are_those_of_rows))]
pub fn columns_are_those_of_rows()
    ensures { ColumnsAreThoseOfRows }
{}
