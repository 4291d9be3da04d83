//! Laws of the commands. Functions without a result do nothing: their contracts are the laws.

ghost use Rattle.mysql_stmt.specs.Statements.{BitmapsSayWhichAreNull, ClosesReadBack, ExecutionsHaveSizes};
ghost use Rattle.mysql_stmt.specs.Statements.{ResetsReadBack};

use mysql_cells::laws::cells_have_lengths;

/// A request to end a statement that was written is read again, whatever follows it.
#[tactic(auto, using(crate::proofs::Back::closes_read_back))]
pub fn closes_read_back()
    ensures { ClosesReadBack }
{}

/// A request to reset a statement that was written is read again, whatever follows it.
#[tactic(auto, using(crate::proofs::Back::resets_read_back))]
pub fn resets_read_back()
    ensures { ResetsReadBack }
{}

/// The bitmap of an execution has a byte for each eight values.
///
/// A value's bit says whether it is NULL.
#[tactic(auto, using(crate::proofs::Back::bitmaps_say_which_are_null))]
pub fn bitmaps_say_which_are_null()
    ensures { BitmapsSayWhichAreNull }
{}

/// An execution with the cells of all its values has the bytes that `size_within` counts.
///
/// One without values has 10.
pub fn executions_have_sizes()
    ensures { ExecutionsHaveSizes }
{
    cells_have_lengths();
}
