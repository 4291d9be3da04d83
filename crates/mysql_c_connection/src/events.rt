//! What C sees of an event.

ghost use Rattle.std.specs.Prelude.{◌≡◌};
ghost use Rattle.mysql_commands.specs.Views.{command_view};
ghost use Rattle.mysql_connection_state.specs.Views.{event_view};
ghost use Rattle.mysql_c_connection.specs.Events.{event_shown, prepared_text, text_executed};

use mysql_c_connection_events::{
    ShownEvent, telling_authentication, telling_command, telling_error, telling_greeting,
    telling_reply, telling_response_event, with_data,
};
use mysql_commands::Command;
use mysql_connection_machine::Connection;
use mysql_connection_state::Event;

/// The text of the prepared statement that an id of a command refers to, or no bytes.
fn prepared_text(connection: &Connection, id: u32) -> &[u8]
    ensures { result.now ≡ prepared_text connection.now.world.standing.statements id }
{
    match connection.statement(id) {
        Some(statement) => statement.text(),
        None => &[],
    }
}

/// The text of the statement that a command executes, or no bytes.
fn text_executed<'a>(connection: &'a Connection, command: &Command<'_>) -> &'a [u8]
    ensures { result.now ≡
        text_executed connection.now.world.standing.statements (command_view command.now) }
{
    match command {
        Command::Execute(execution) => prepared_text(connection, execution.statement),
        Command::BulkExecute(execution) => prepared_text(connection, execution.statement),
        _ => &[],
    }
}

/// What a payload of a connection says. The texts stay where they are.
pub(crate) fn telling_event(connection: &Connection, event: &Event) -> ShownEvent
    ensures { result ≡
        event_shown connection.now.world.standing.statements (event_view event.now) result }
{
    match event {
        Event::Greeting(said) => telling_greeting(said),
        Event::Response(said) => telling_response_event(said),
        Event::Authentication(said) => telling_authentication(said),
        Event::Answer(bytes) => with_data(13, 0, bytes.as_slice()),
        Event::Command(command) => telling_command(command, text_executed(connection, command)),
        Event::Reply(said) => telling_reply(said),
        Event::FileData(bytes) => with_data(33, 0, bytes.as_slice()),
        Event::Farewell(error) => telling_error(34, error),
    }
}
