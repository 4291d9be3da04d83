//! Laws of the packets. Functions without a result do nothing: their contracts are the laws.

ghost use Rattle.mysql_columns.specs.Statements.{ColumnsReadBack, ExtendedColumnsReadBack, ListedColumnsReadBack};
ghost use Rattle.mysql_columns.specs.Statements.{PlainColumnsAreColumns, ValuesAreFound};

/// A column that was written is read again, whatever follows it.
#[tactic(auto, using(crate::proofs::Back::columns_read_back))]
pub fn columns_read_back()
    ensures { ColumnsReadBack }
{}

/// A column with metadata is read again by the capabilities that it is written for. So is a listed
/// one with its default, whatever follows. Without metadata a column is read as [`Column`] is.
///
/// [`Column`]: crate::Column
#[tactic(auto, using(crate::proofs::Back::extended_read_back))]
pub fn extended_columns_read_back()
    ensures extended { ExtendedColumnsReadBack }
    ensures listed { ListedColumnsReadBack }
    ensures plain { PlainColumnsAreColumns }
{}

/// Of values that were written one after another as metadata the first of a kind is found.
#[tactic(auto, using(crate::proofs::Back::values_are_found))]
pub fn metadata_values_are_found()
    ensures { ValuesAreFound }
{}
