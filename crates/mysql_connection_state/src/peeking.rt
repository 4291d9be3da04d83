//! The payload that is due, whatever it is.

ghost use Rattle.std.specs.Prelude.{IfOk, Ok};
ghost use Rattle.mysql_connection_rules.specs.Events as events;
ghost use Rattle.mysql_connection_rules.specs.Steps.{step};
ghost use Rattle.mysql_connection_state.specs.Reads.{Gives};
ghost use Rattle.mysql_connection_state.specs.Views.{EventHasUnclear, event_view};
ghost use Rattle.mysql_connection_state.specs.Peeks.{IsPlain, Peeks};

use crate::command::peek_command;
use crate::login_peek::{peek_authentication, peek_greeting, peek_response};
use crate::reply::peek_in_reply;
use crate::{Event, Phase, State};
use mysql_bytes::ByteString;
use mysql_connection_rules::Fault;
use std::alloc::Global;

// What the client answers while a user is logged in or changed: these bytes.
fn peek_answer(alloc: Global, payload: &[u8]) -> Result<Event, Fault>
    ensures { Gives event_view result (Ok (events.Answer payload.now)) }
{
    Ok(Event::Answer(ByteString::copy(alloc, payload)?))
}

// What the payload that is due says, where no exchange is due, nor a reply.
fn peek_plain(alloc: Global, state: &State, payload: &[u8]) -> Result<Event, Fault>
    requires { IsPlain state.now.standing.phase }
    ensures peeks { Peeks (step state.now.standing payload.now) result }
    ensures unclear { IfOk result (λ event. EventHasUnclear state.now.standing payload.now event) }
{
    match state.phase() {
        Phase::Greeting => peek_greeting(alloc, payload),
        Phase::Response => peek_response(alloc, state.offered().protocol, payload),
        Phase::Answer => peek_answer(alloc, payload),
        Phase::Command => peek_command(alloc, state, payload),
        Phase::Over(_) => Err(Fault::Unasked),
        Phase::Authentication | Phase::Reply | Phase::FileData => unreachable!(),
    }
}

/// What the payload that is due says, of the side whose turn it is. The state doesn't change.
///
/// Promise: exactly the event of the table of steps, or its fault, for any bytes (`Peeks`, `step`).
/// Exactly those values of an execution are unclear that are so by its bytes and by what is in force
/// (`EventHasUnclear`).
///
/// # Errors
/// - `OldProtocol`, `BadGreeting`, `BadLogin`, `BadSwitch`, `BadReply`, each named by what can't be
///   read.
/// - `Unasked` where nothing is due.
/// - `Memory`.
///
/// MySQL: Client/Server Protocol, "Connection Phase" and "Command Phase"; MariaDB: Client/Server
/// Protocol, "Connecting", "2 - Text Protocol" and "3 - Binary Protocol (Prepared Statements)".
pub fn peek_event(alloc: Global, state: &State, payload: &[u8]) -> Result<Event, Fault>
    ensures peeks { Peeks (step state.now.standing payload.now) result }
    ensures unclear { IfOk result (λ event. EventHasUnclear state.now.standing payload.now event) }
{
    if let Some(exchange) = state.exchange() {
        return peek_authentication(alloc, exchange, state.capabilities().protocol, payload);
    }
    if let Some(reader) = state.reply_reader() {
        return peek_in_reply(alloc, reader, payload);
    }
    peek_plain(alloc, state, payload)
}
