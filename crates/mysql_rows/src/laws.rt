//! What holds of rows.

ghost use Rattle.mysql_rows.specs.WrittenLaws.{BinaryRowsBegin, BinaryRowsReadBack, ReadBinaryRowsAreWritten};
ghost use Rattle.mysql_rows.specs.WrittenLaws.{ReadTextRowsAreWritten, TextRowsBegin, TextRowsReadBack};
ghost use Rattle.mysql_rows.specs.RowLaws.{CellIsTakenOnce, NamedColumnIsFirst, OtherCellsStay, PlacedValueStands};

use mysql_cells::laws::{read_cells_are_written, typed_cells_read_back};

/// A value is taken out of a cell once.
#[tactic(auto, using(crate::specs::RowLaws::cell_is_taken_once))]
pub fn cell_is_taken_once()
    ensures { CellIsTakenOnce }
{}

/// A value that was put into a cell stands there.
#[tactic(auto, using(crate::specs::RowLaws::placed_value_stands))]
pub fn placed_value_stands()
    ensures { PlacedValueStands }
{}

/// Where a cell is taken or filled, the other cells keep their values.
#[tactic(auto, using(crate::specs::RowLaws::other_cells_stay))]
pub fn other_cells_stay()
    ensures { OtherCellsStay }
{}

/// A name names the first column that has it.
#[tactic(auto, using(crate::specs::RowLaws::named_column_is_first))]
pub fn named_column_is_first()
    ensures { NamedColumnIsFirst }
{}

/// A text row of values that all have a text cell is read again, each value as its text.
///
/// That holds whatever follows it.
#[tactic(auto, using(crate::proofs::TextBack::text_rows_read_back))]
pub fn text_rows_read_back()
    ensures { TextRowsReadBack }
{}

/// The values of a text row that was read have text cells, and are read again as they are.
#[tactic(auto, using(crate::proofs::TextBack::read_text_rows_are_written))]
pub fn read_text_rows_are_written()
    ensures { ReadTextRowsAreWritten }
{}

/// A text row begins with ff never, and with fe only where it has 2^24 bytes or more.
///
/// An error begins with ff, and the end of rows with fe.
#[tactic(auto, using(crate::proofs::TextBack::text_rows_begin))]
pub fn text_rows_begin()
    ensures { TextRowsBegin }
{}

/// A binary row of values that all have a cell by their columns is read again.
///
/// That holds whatever follows it: each value is read as itself, but an unsigned number below 2^63
/// as `Int`, and an all-zero time as positive.
pub fn binary_rows_read_back()
    ensures { BinaryRowsReadBack }
{
    typed_cells_read_back();
}

/// A binary row begins with a zero.
#[tactic(auto, using(crate::proofs::BinaryBack::binary_rows_begin))]
pub fn binary_rows_begin()
    ensures { BinaryRowsBegin }
{}

/// The values of a binary row that was read are read again as they are, once written.
///
/// They have cells by their columns; an all-zero time is read as positive.
pub fn read_binary_rows_are_written()
    ensures { ReadBinaryRowsAreWritten }
{
    read_cells_are_written();
}
