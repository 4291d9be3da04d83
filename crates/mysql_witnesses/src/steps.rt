//! The table of steps: logging in, commands, replies.

ghost use Rattle.mysql_witnesses.specs.Steps.{ChangesOfUserCloseStatements, ChangesOfUserGoOn};
ghost use Rattle.mysql_witnesses.specs.Steps.{ColumnsCount, OddExecutionsAreRead};
ghost use Rattle.mysql_witnesses.specs.Steps.{UnagreedBulksChangeNothing};
ghost use Rattle.mysql_witnesses.specs.Steps.{ExecutionsAreReadByTheirStatement};
ghost use Rattle.mysql_witnesses.specs.Steps.{ExecutionsHaveBinaryReplies, IdsAreTheServers};
ghost use Rattle.mysql_witnesses.specs.Steps.{KnownExecutionsAreRead, NewGreetingsAreNoData};
ghost use Rattle.mysql_witnesses.specs.Steps.{RefusedDumpsGoOn, TheFastPathIsOfOnePlugin};

/// The fast path is of the plugin that caches SHA-256 alone.
pub fn the_fast_path_is_of_one_plugin()
    ensures { TheFastPathIsOfOnePlugin }
{}

/// A new greeting behind a bare change of user is no plugin's data.
pub fn new_greetings_are_no_data()
    ensures { NewGreetingsAreNoData }
{}

/// A change of user closes all statements.
pub fn changes_of_user_close_statements()
    ensures { ChangesOfUserCloseStatements }
{}

/// Behind the OK of a change of user a connection goes on.
pub fn changes_of_user_go_on()
    ensures { ChangesOfUserGoOn }
{}

/// A bulk execution that isn't in force changes nothing.
#[tactic(auto, unfolding(bitflags::proofs::OnLiterals::bitflags_on_literals))]
pub fn unagreed_bulks_change_nothing()
    ensures { UnagreedBulksChangeNothing }
{}

/// An execution with what no client library sends is one.
#[tactic(auto, using(crate::proofs::AboutSteps::odd_executions_are_read))]
pub fn odd_executions_are_read()
    ensures { OddExecutionsAreRead }
{}

/// An execution is read by what is in force of the statement that it names.
#[tactic(auto, using(crate::proofs::AboutSteps::executions_are_read_by_their_statement, crate::proofs::AboutSteps::known_executions_are_read))]
pub fn executions_are_read_by_their_statement()
    ensures types { ExecutionsAreReadByTheirStatement }
    ensures known { KnownExecutionsAreRead }
{}

/// The reply to an execution is read as binary.
#[tactic(auto, unfolding(mysql_buf::specs::Reading::first))]
pub fn executions_have_binary_replies()
    ensures { ExecutionsHaveBinaryReplies }
{}

/// A statement has the id that the server gives it.
pub fn ids_are_the_servers()
    ensures { IdsAreTheServers }
{}

/// Behind a dump that is refused a command comes next.
pub fn refused_dumps_go_on()
    ensures { RefusedDumpsGoOn }
{}

/// A column of a result counts as much as its payload.
pub fn columns_count()
    ensures { ColumnsCount }
{}
