//! What is known of the session's mode and character set behind an event.

ghost use Rattle.std.specs.Prelude.{◌≡◌, option_copied, option_map, true};
ghost use Rattle.mysql_commands.specs.Views.{command_view};
ghost use Rattle.mysql_connection_modes.specs.Modes as modes;
ghost use Rattle.mysql_connection_modes.specs.Modes.{BehindCommand, BehindExecution, BehindStatement};
ghost use Rattle.mysql_connection_modes.specs.Modes.{ModeBehind, is_plain};
ghost use Rattle.mysql_connection_modes.specs.Views.{effect_view};
ghost use Rattle.mysql_connection_rules.specs.Standing.{Standing};
ghost use Rattle.mysql_connection_state.specs.Follows.{command_said};
ghost use Rattle.mysql_connection_state.specs.Views.{event_view};
ghost use Rattle.mysql_reply_events.specs.Views.{event_view as reply_view};

use mysql_commands::Command;
use mysql_connection_state::{Event, State};
use mysql_connection_statements::Statement;
use mysql_executions::execution_reading::has_query_attributes;
use mysql_reply_events::ReplyEvent;
use mysql_session_modes::SessionMode;

// What a command may change of the session, beside a query's.
#[derive(Clone, Copy)]
enum Effect {
    Nothing,
    ByText,
    ByStatement,
    Anything,
}

// By a command's number.
fn effect_by(number: u8) -> Effect
    ensures { effect_view result ≡ modes.effect_by number }
{
    match number {
        0x01 | 0x02 | 0x04 | 0x09 | 0x0e | 0x16 | 0x18 | 0x19 | 0x1a | 0x1b | 0x1c => {
            Effect::Nothing
        }
        0x03 => Effect::ByText,
        0x17 | 0xfa => Effect::ByStatement,
        _ => Effect::Anything,
    }
}

// Of a payload that is laid out as no command.
fn effect_of_other(payload: &[u8]) -> Effect
    ensures { effect_view result ≡ modes.effect_of_other payload.now }
{
    match payload {
        [] => Effect::Anything,
        [0x03, ..] => Effect::Anything,
        [number, ..] => effect_by(*number),
    }
}

fn effect_of(command: &Command) -> Effect
    ensures { effect_view result ≡ modes.effect_of (command_view command.now) }
{
    match command {
        Command::Query {
            attributes: _,
            sql: _,
        } => Effect::ByText,
        Command::Execute(_) | Command::BulkExecute(_) => Effect::ByStatement,
        Command::Quit
        | Command::InitDb(_)
        | Command::FieldList {
            table: _,
            wildcard: _,
        }
        | Command::Statistics
        | Command::Ping
        | Command::Prepare(_)
        | Command::LongData {
            stmt_id: _,
            place: _,
            bytes: _,
        }
        | Command::Close(_)
        | Command::ResetStatement(_)
        | Command::SetOption(_)
        | Command::Fetch {
            stmt_id: _,
            rows: _,
        } => Effect::Nothing,
        Command::Other(payload) => effect_of_other(payload.as_slice()),
        _ => Effect::Anything,
    }
}

fn text_of<'c>(command: &'c Command) -> &'c [u8]
    ensures { result.now ≡ modes.text_of (command_view command.now) }
{
    match command {
        Command::Query { attributes: _, sql } => sql.as_slice(),
        _ => &[],
    }
}

// Texts up to this length are read again behind each execution, which may have few bytes.
const MOST_READ_AGAIN: usize = 1024;

// Behind the execution of a statement, where it is known.
fn behind_statement(session: SessionMode, statement: Option<&Statement>) -> SessionMode
    ensures { BehindStatement (option_map (λ statement. statement.text) (option_copied statement.entry))
        session result }
{
    match statement {
        Some(statement) => {
            let text = statement.text();
            if text.len() <= MOST_READ_AGAIN {
                session.behind_text(text)
            } else {
                SessionMode::unknown()
            }
        }
        None => SessionMode::unknown(),
    }
}

/// What is known behind an execution, whose reply is due.
///
/// Promise: it is as behind the text of its statement, where that has at most 1024 bytes. Else nothing
/// is known (`BehindExecution`).
///
/// MySQL: Client/Server Protocol, "COM_STMT_EXECUTE".
pub fn mode_executed(session: SessionMode, state: &State) -> SessionMode
    ensures { BehindExecution state.now.standing session result }
{
    behind_statement(session, state.statement_due())
}

// Behind a command with this effect and text.
fn behind_effect(session: SessionMode, state: &State, effect: Effect, text: &[u8]) -> SessionMode
    ensures { modes.BehindEffect state.now.standing (effect_view effect) text.now session result }
{
    match effect {
        Effect::Nothing => session,
        Effect::ByText => session.behind_text(text),
        Effect::ByStatement => mode_executed(session, state),
        Effect::Anything => SessionMode::unknown(),
    }
}

// Behind what the server replies.
fn mode_replied(session: SessionMode, said: &ReplyEvent) -> SessionMode
    ensures { result ≡ modes.mode_replied (reply_view said.now) session }
{
    match said {
        ReplyEvent::Ok(ok) => session.behind_ok(ok),
        ReplyEvent::ColumnsEnd(ok) => session.behind_ok(ok),
        ReplyEvent::RowsEnd(ok) => session.behind_ok(ok),
        _ => session,
    }
}

// Behind a command.
fn mode_asked(session: SessionMode, state: &State, command: &Command) -> SessionMode
    ensures { BehindCommand state.now.standing (command_view command.now) session result }
{
    behind_effect(session, state, effect_of(command), text_of(command))
}

/// What is known behind an event, behind which this stands.
///
/// Promise: it is as a text, an execution or an OK packet leaves it. A change of user and a reset leave
/// nothing known, and other events leave all (`ModeBehind`).
///
/// MySQL: Client/Server Protocol, "Command Phase" and "OK_Packet".
pub fn mode_behind(session: SessionMode, state: &State, event: &Event) -> SessionMode
    ensures { ModeBehind state.now.standing (event_view event.now) session result }
{
    match event {
        Event::Command(command) => mode_asked(session, state, command),
        Event::Reply(said) => mode_replied(session, said),
        _ => session,
    }
}

/// A payload holds no query that may have attributes: its text stands behind its number.
///
/// MySQL: Client/Server Protocol, "COM_QUERY" (CLIENT_QUERY_ATTRIBUTES).
pub fn is_plain(state: &State, payload: &[u8]) -> bool
    ensures { result ≡ modes.is_plain state.now.standing payload.now }
{
    match payload {
        [] => true,
        [number, ..] => *number != 0x03 || !has_query_attributes(state.capabilities()),
    }
}

// The bytes behind a command's number.
fn body_of(payload: &[u8]) -> &[u8]
    ensures { result.now ≡ modes.body_of payload.now }
{
    match payload {
        [] => payload,
        [_, body @ ..] => body,
    }
}

// By a payload's number.
fn effect_of_payload(payload: &[u8]) -> Effect
    ensures { effect_view result ≡ modes.effect_of_payload payload.now }
{
    match payload {
        [] => Effect::Anything,
        [number, ..] => effect_by(*number),
    }
}

/// What is known behind a command by its payload, which isn't read, behind which this stands.
///
/// Promise: what is known behind the command that it says, but of a query that may have attributes
/// (`is_plain`, `BehindCommand`).
///
/// MySQL: Client/Server Protocol, "Command Phase".
pub fn mode_behind_payload(session: SessionMode, state: &State, payload: &[u8]) -> SessionMode
    ensures { (before : Standing) → is_plain before payload.now ≡ true →
        BehindCommand state.now.standing (command_said before payload.now) session result }
{
    behind_effect(session, state, effect_of_payload(payload), body_of(payload))
}
