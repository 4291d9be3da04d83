//! What holds of what is written. The functions change nothing: their contracts are the laws.

ghost use Rattle.mysql_execution_writer.specs.Laws.{AttributesReadBack, BulksReadBack, ExecutionsReadBack};
ghost use Rattle.mysql_execution_writer.specs.Laws.{ReadAttributesAreWritten, ReadBulksAreWritten};
ghost use Rattle.mysql_execution_writer.specs.Laws.{ReadExecutionsAreWritten};

use mysql_cells::laws::{read_cells_are_written, typed_cells_read_back};
use mysql_stmt::laws::bitmaps_say_which_are_null;

/// An execution that can be written is read again by what was in force.
///
/// Each value is read as itself, but an unsigned number below 2^63 as `Int`.
pub fn executions_read_back()
    ensures { ExecutionsReadBack }
{
    typed_cells_read_back();
    bitmaps_say_which_are_null();
}

/// Attributes that all have a cell by their types are read again, whatever text follows.
///
/// Each value is read as itself, but an unsigned number below 2^63 as `Int`.
pub fn attributes_read_back()
    ensures { AttributesReadBack }
{
    typed_cells_read_back();
    bitmaps_say_which_are_null();
}

/// A bulk execution that can be written is read again by what was in force.
///
/// Each value is read as itself, but an unsigned number below 2^63 as `Int`.
pub fn bulks_read_back()
    ensures { BulksReadBack }
{
    typed_cells_read_back();
}

/// An execution that was read can be written by what was in force, and is read again as it is.
pub fn read_executions_are_written()
    ensures { ReadExecutionsAreWritten }
{
    read_cells_are_written();
}

/// Attributes that were read can be written, and are read again as they are.
pub fn read_attributes_are_written()
    ensures { ReadAttributesAreWritten }
{
    read_cells_are_written();
}

/// A bulk execution that was read can be written by what was in force. It is read again as it is.
pub fn read_bulks_are_written()
    ensures { ReadBulksAreWritten }
{
    read_cells_are_written();
}
