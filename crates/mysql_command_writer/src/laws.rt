//! What holds of commands that were read. The functions change nothing: their contracts are the laws.

ghost use Rattle.mysql_command_writer.specs.Laws.{PutValuesAreCounted, ReadCommandsArePut};

use mysql_execution_writer::laws::{
    read_attributes_are_written, read_bulks_are_written, read_executions_are_written,
};
use mysql_login::laws::changed_users_read_again;

/// A command that was read may be put, and is read again as it is.
///
/// By the same capabilities and parameters, what [`put_command`](crate::put_command) appends of it
/// reads as it.
pub fn read_commands_are_put()
    ensures { ReadCommandsArePut }
{
    read_attributes_are_written();
    read_executions_are_written();
    read_bulks_are_written();
    changed_users_read_again();
}

/// An execution that may be put has as many values as the server counted parameters of its
/// statement. So has each row of a bulk one.
#[tactic(auto, using(crate::proofs::Counts::values_are_counted))]
pub fn put_values_are_counted()
    ensures { PutValuesAreCounted }
{}
