//! Which phase is due.

ghost use Rattle.std.specs.Prelude.{◌≡◌};
ghost use Rattle.mysql_connection_writer.specs.Phases.{awaits_answer, awaits_command, awaits_file};
ghost use Rattle.mysql_connection_writer.specs.Phases.{awaits_greeting, awaits_response};

use mysql_connection_state::{Phase, State};

/// The server's first payload is due.
pub fn awaits_greeting(state: &State) -> bool
    ensures { result ≡ awaits_greeting state.now.standing.phase }
{
    match state.phase() {
        Phase::Greeting => true,
        _ => false,
    }
}

/// The client's first payload is due.
pub fn awaits_response(state: &State) -> bool
    ensures { result ≡ awaits_response state.now.standing.phase }
{
    match state.phase() {
        Phase::Response => true,
        _ => false,
    }
}

/// The client's answer is due while a user is logged in or changed.
pub fn awaits_answer(state: &State) -> bool
    ensures { result ≡ awaits_answer state.now.standing.phase }
{
    match state.phase() {
        Phase::Answer => true,
        _ => false,
    }
}

/// A command is due.
pub fn awaits_command(state: &State) -> bool
    ensures { result ≡ awaits_command state.now.standing.phase }
{
    match state.phase() {
        Phase::Command => true,
        _ => false,
    }
}

/// Bytes of the client's file are due.
pub fn awaits_file(state: &State) -> bool
    ensures { result ≡ awaits_file state.now.standing.phase }
{
    match state.phase() {
        Phase::FileData => true,
        _ => false,
    }
}
