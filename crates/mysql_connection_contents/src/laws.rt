//! What a connection's events say of one prepared statement. The functions change nothing: their
//! contracts are the theorems.

ghost use Rattle.mysql_connection_contents.specs.Contents.{BothBeginWithNone};
ghost use Rattle.mysql_connection_contents.specs.Contents.{ConnectionExecutionsAreReceived};
ghost use Rattle.mysql_connection_contents.specs.Contents.{HeardIsSpoken, IdsBeginOwn, IdsStayOwn};
ghost use Rattle.mysql_connection_contents.specs.Contents.{PreparedStatementsStand, RunsAreHeard};
ghost use Rattle.mysql_connection_contents.specs.Contents.{StreamsAreReceived};
ghost use Rattle.mysql_connection_contents.specs.Shown.{ExecutionsAreShown, QueriesAreShown, TextsAreShown};

use mysql_connection_recoding::content_laws::{
    prepared_statements_agree, received_commands_are_read,
};
use mysql_connection_rules::laws::last_words_are_last;

/// What `receive` reads of commands about one prepared statement, a connection's events say.
///
/// Of payloads that were read one after another, take those that are executions, bulk executions,
/// long data and resets of one statement. Where `receive` reads these, the events of the executions
/// have the contents that it reads, in the same order, and there is nothing between. What else is
/// said on the connection doesn't matter, as long as
///
/// - the statement is prepared, and what is in force of its parameters is what `receive` has in force, as
///   it is behind a prepare;
/// - it stays prepared: it isn't closed, the user isn't changed, the session doesn't begin anew,
///   and no other statement gets its id;
/// - an execution of it that is refused was read by the server, whose error is neither 1835 nor
///   1295;
/// - the types that are in force are ones that all servers take;
/// - query attributes aren't in force, and bulk executions are, where there are any.
///
/// A command that names the statement as the one that was prepared last counts as one about it.
/// `receive` reads only those that name it by its id.
///
/// MySQL: Client/Server Protocol, "Prepared Statements"; MariaDB: Client/Server Protocol,
/// "3 - Binary Protocol (Prepared Statements)".
pub fn connection_executions_are_received()
    ensures { ConnectionExecutionsAreReceived }
{
    received_commands_are_read();
}

/// Behind the server's answer to a prepare the statement is known, with no types in force.
pub fn prepared_statements_stand()
    ensures { PreparedStatementsStand }
{}

/// The ids of a connection's statements ascend, at first and behind each event.
///
/// So no two statements have the same id. At the greeting, and behind a login, there is none.
pub fn statements_keep_own_ids()
    ensures none { BothBeginWithNone }
    ensures begins { IdsBeginOwn }
    ensures stays { IdsStayOwn }
{}

/// The events of a run over two streams are those of payloads that were read one after another.
///
/// Each is the first packet of the stream whose turn it was; behind them are last words of the
/// server at most.
pub fn runs_are_heard()
    ensures heard { RunsAreHeard }
    ensures spoken { HeardIsSpoken }
{
    last_words_are_last();
}

/// From a connection's beginning on, what `receive` reads of commands about a prepared statement, the
/// events say.
///
/// It begins at the greeting, or behind a login. They have the same contents, in the same order,
/// and nothing between. The statement has the id that the server's answer to its prepare gave, and
/// as many parameters as the query has placeholders. As for the rest it is as
/// `connection_executions_are_received` has it.
///
/// MySQL: Client/Server Protocol, "Connection Lifecycle" and "Prepared Statements".
pub fn streams_are_received()
    ensures { StreamsAreReceived }
{
    received_commands_are_read();
    prepared_statements_agree();
}

/// Each prepared statement that a connection has has the text that its events show, and they show no other.
///
/// It begins at the greeting, or behind a login. The text is that of the prepare that the server answered
/// with the statement's id. Behind a close of it, a change of user or a reset of the connection there is
/// none. So it is at each moment, of any bytes of both sides.
///
/// MySQL: Client/Server Protocol, "Prepared Statements", "COM_CHANGE_USER" and "COM_RESET_CONNECTION".
pub fn texts_are_shown()
    ensures { TextsAreShown }
{}

/// What a connection's payloads say of a statement's executions is what its events show.
///
/// That is the sets of each execution, in order, and of each row of a bulk execution. Events name the
/// statement by its id, or as the one that was prepared last.
///
/// MySQL: Client/Server Protocol, "COM_STMT_EXECUTE"; MariaDB: "COM_STMT_EXECUTE" ('Statement id') and
/// "COM_STMT_BULK_EXECUTE".
pub fn executions_are_shown()
    ensures { ExecutionsAreShown }
{}

/// What a client asks by text is the query of that text.
///
/// That is so where a command is due and query attributes aren't in force. With them a text begins with
/// attributes.
///
/// MySQL: Client/Server Protocol, "COM_QUERY".
pub fn queries_are_shown()
    ensures { QueriesAreShown }
{}
