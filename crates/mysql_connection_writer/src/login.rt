//! The first payload of each side.

ghost use Rattle.std.specs.Prelude.{◌≡◌, ◌↔◌, IfOk, IsTrue, Ok};
ghost use Rattle.mysql_authentication.specs.Readings.{greeting_at, response_at};
ghost use Rattle.mysql_authentication.specs.Statements.{HoldsError, HoldsGreeting, HoldsHandshake};
ghost use Rattle.mysql_authentication.specs.Views.{greeting_view, response_event_view};
ghost use Rattle.mysql_authentication.specs.Written.{greeting_bytes, greeting_cause};
ghost use Rattle.mysql_authentication.specs.Written.{response_bytes, response_cause};
ghost use Rattle.mysql_handshake.specs.HandshakeViews.{handshake_view};
ghost use Rattle.mysql_server_packets.specs.Views.{server_error_view};
ghost use Rattle.mysql_connection_rules.specs.Events as events;
ghost use Rattle.mysql_connection_writer.specs.Payloads.{login_cause, unless_cause};
ghost use Rattle.mysql_connection_writer.specs.Refusals.{refusal_of_login};
ghost use Rattle.mysql_connection_writer.specs.Writes.{Writes, WritesEvent};

use crate::phases::{awaits_greeting, awaits_response};
use crate::refusal::{BadEvent, EventRefusal};
use crate::same::same_response;
use mysql_authentication::laws::greetings_read_back;
use mysql_authentication::{
    GreetingEvent, LoginFault, LoginRefusal, ResponseEvent, put_greeting, put_response,
    read_response,
};
use mysql_connection_state::State;
use mysql_const::CapabilityFlags;
use mysql_handshake::HandshakePacket;
use mysql_server_packets::ServerError;
use std::alloc::{AllocError, Global};

/// The refusal of a packet of logging in.
pub fn refusal_of_login(refusal: LoginRefusal) -> EventRefusal
    ensures { result ≡ refusal_of_login refusal }
{
    match refusal {
        LoginRefusal::Memory => EventRefusal::Memory,
        cause => EventRefusal::BadEvent(BadEvent::Login(cause)),
    }
}

/// For the proof alone: what an error's types hold.
pub fn error_holds(error: &ServerError)
    ensures { HoldsError (server_error_view error.now) }
{
    let _code = error.error_code();
    if let Some(state) = error.sql_state_ref() {
        let _state = state.as_bytes();
    }
}

// For the proof alone: what a greeting's types hold, which is known of a value that is handed over.
fn handshake_holds(packet: HandshakePacket<'static>)
    ensures { HoldsHandshake (handshake_view packet.entry) }
{
    let _packet = packet;
}

// For the proof alone: what a server's first payload holds.
fn greeting_holds(alloc: Global, said: &GreetingEvent) -> Result<(), AllocError>
    ensures { IfOk result (λ _. HoldsGreeting (greeting_view said.now)) }
{
    match said {
        GreetingEvent::Rejected(error) => error_holds(error),
        GreetingEvent::Greeting(packet) => handshake_holds(packet.clone(alloc)?),
    }
    Ok(())
}

/// Puts a server's first payload.
pub fn put_first(said: &GreetingEvent, out: &mut Vec<u8>) -> Result<(), EventRefusal>
    ensures { Writes (λ payload. greeting_at payload ≡ Ok (greeting_view said.now))
        (unless_cause (greeting_cause (greeting_view said.now)) (greeting_bytes (greeting_view said.now)))
        (login_cause (greeting_cause (greeting_view said.now))) out.old.items out.new.items result }
{
    greetings_read_back();
    greeting_holds(*out.allocator(), said)?;
    match put_greeting(said, out) {
        Ok(()) => Ok(()),
        Err(refusal) => Err(refusal_of_login(refusal)),
    }
}

/// Writes a server's first payload.
pub fn write_greeting(
    state: &State,
    said: &GreetingEvent,
    out: &mut Vec<u8>,
) -> Result<(), EventRefusal>
    ensures { WritesEvent state.now.standing (events.Greeting (greeting_view said.now)) out.old.items
        out.new.items result }
{
    if awaits_greeting(state) {
        put_first(said, out)
    } else {
        Err(EventRefusal::BadEvent(BadEvent::ReadsOtherwise))
    }
}

// Whether a payload is read as this answer of a client.
fn reads_as_response(
    alloc: Global,
    server: CapabilityFlags,
    said: &ResponseEvent,
    payload: &[u8],
) -> Result<bool, AllocError>
    ensures { IfOk result (λ same. IsTrue same ↔
        (response_at server.0 payload.now ≡ Ok (response_event_view said.now))) }
{
    match read_response(alloc, server, payload) {
        Ok(found) => Ok(same_response(&found, said)),
        Err(LoginFault::Memory) => Err(AllocError),
        Err(_) => Ok(false),
    }
}

// Puts a client's first payload, to a server of these capabilities.
fn put_answer(
    server: CapabilityFlags,
    said: &ResponseEvent,
    out: &mut Vec<u8>,
) -> Result<(), EventRefusal>
    ensures { Writes (λ payload. response_at server.0 payload ≡ Ok (response_event_view said.now))
        (unless_cause (response_cause server.0 (response_event_view said.now))
        (response_bytes server.0 (response_event_view said.now)))
        (login_cause (response_cause server.0 (response_event_view said.now))) out.old.items out.new.items
        result }
{
    let len = out.len();
    if let Err(refusal) = put_response(server, said, out) {
        return Err(refusal_of_login(refusal));
    }
    match reads_as_response(*out.allocator(), server, said, &out[len..]) {
        Ok(true) => Ok(()),
        Ok(false) => {
            out.truncate(len);
            Err(EventRefusal::BadEvent(BadEvent::ReadsOtherwise))
        }
        Err(_) => {
            out.truncate(len);
            Err(EventRefusal::Memory)
        }
    }
}

/// Writes a client's first payload.
pub fn write_response(
    state: &State,
    said: &ResponseEvent,
    out: &mut Vec<u8>,
) -> Result<(), EventRefusal>
    ensures { WritesEvent state.now.standing (events.Response (response_event_view said.now)) out.old.items
        out.new.items result }
{
    if awaits_response(state) {
        put_answer(state.offered().protocol, said, out)
    } else {
        Err(EventRefusal::BadEvent(BadEvent::ReadsOtherwise))
    }
}
