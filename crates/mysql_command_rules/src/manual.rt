//! Laws of the commands in the manual's words. Each function is its law alone.

ghost use Rattle.mysql_command_rules.specs.ManualLaws.{EachFilledQueryReads, EachFramedStreamIsWhole};
ghost use Rattle.mysql_command_rules.specs.ManualLaws.{EachLaidOutCommandReads, OnlyFilledQueriesRead};
ghost use Rattle.mysql_command_rules.specs.ManualLaws.{OnlyFramedStreamsAreWhole, OnlyLaidOutCommandsRead};

use mysql_const::laws::names_are_read_back;
use mysql_values::laws::{one_reading, pieces_of_a_query, tokens_of_a_text};
use mysql_wire::laws::reader_laws;

/// A payload reads as sets exactly where the manual lays it out as a command with them.
///
/// That is by what is in force, of a statement of a query; and what the payload leaves in force is
/// what that command does.
///
/// Follows the MySQL Client/Server Protocol, "Command Phase", and MariaDB's
/// "COM_STMT_BULK_EXECUTE".
pub fn commands_are_laid_out()
    ensures some { EachLaidOutCommandReads }
    ensures only { OnlyLaidOutCommandsRead }
{
    names_are_read_back();
    one_reading();
    pieces_of_a_query();
    tokens_of_a_text();
}

/// A COM_QUERY reads as a set exactly where its text is the query's pieces with the set's literals.
///
/// The pieces go from placeholder to placeholder, and a literal of each of the set's contents
/// stands between two of them.
///
/// Follows the MySQL Client/Server Protocol, "COM_QUERY".
pub fn texts_are_filled_queries()
    ensures some { EachFilledQueryReads }
    ensures only { OnlyFilledQueriesRead }
{
    one_reading();
    pieces_of_a_query();
    tokens_of_a_text();
}

/// A stream audits as whole with sets exactly where it is the framings of commands with them.
///
/// The manual lays out these commands one after another, each by what those before it leave in
/// force. No data waits at the end.
///
/// Follows the MySQL Client/Server Protocol, "MySQL Packets" and "Command Phase".
pub fn whole_streams_are_framed_commands()
    ensures some { EachFramedStreamIsWhole }
    ensures only { OnlyFramedStreamsAreWhole }
{
    reader_laws();
    names_are_read_back();
    one_reading();
    pieces_of_a_query();
    tokens_of_a_text();
}
