//! What two readings of a prepared statement's commands have in common. The functions change
//! nothing: their contracts are the laws.

ghost use Rattle.mysql_connection_recoding.specs.Agreement.{EachIsRead, PreparedAgree};
ghost use Rattle.mysql_connection_recoding.specs.Agreement.{ReceivedAreRead};

use mysql_const::laws::names_are_read_back;

/// Behind a prepare `receive` has in force what is in force of the statement's parameters.
pub fn prepared_statements_agree()
    ensures { PreparedAgree }
{}

/// What `receive` reads of a command about a prepared statement's parameters, the command says.
///
/// The command is read by what is in force of them, and an execution has the same contents. It is
/// an execution, a bulk execution where MariaDB's bulk executions are in force, long data or a
/// reset. The connection has no query attributes, which `receive` doesn't read. Behind it the same
/// is in force on both sides.
///
/// MySQL: Client/Server Protocol, "COM_STMT_EXECUTE", "COM_STMT_SEND_LONG_DATA", "COM_STMT_RESET";
/// MariaDB: "COM_STMT_BULK_EXECUTE".
pub fn received_commands_are_read()
    ensures { EachIsRead }
{
    names_are_read_back();
}

/// What `receive` reads of a stream of such commands, they say.
///
/// They have the same contents, in the same order, and nothing between.
pub fn received_executions_are_read()
    ensures { ReceivedAreRead }
{
    names_are_read_back();
}
