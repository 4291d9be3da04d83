//! Putting the payloads of logging in.
//!
//!     put_greeting(&GreetingEvent::Greeting(greeting), &mut payload)?;

ghost use Rattle.mysql_authentication.specs.Views.{authentication_view, greeting_view, response_event_view};
ghost use Rattle.mysql_authentication.specs.Written.{Puts, authentication_bytes, authentication_cause, greeting_bytes};
ghost use Rattle.mysql_authentication.specs.Written.{greeting_cause, response_bytes, response_cause};
ghost use Rattle.mysql_fields.specs.Wire.{Appends};
ghost use Rattle.mysql_ok_packets.specs.Views.{ok_packet_view};
ghost use Rattle.mysql_ok_packets.specs.Written.{ok_packet_bytes};
ghost use Rattle.mysql_server_packets.specs.Packets.{Error, err_packet};
ghost use Rattle.mysql_server_packets.specs.Views.{server_error_view};

use crate::causes::{authentication_cause, greeting_cause, response_cause};
use crate::events::{AuthenticationEvent, GreetingEvent, LoginResponse, ResponseEvent};
use crate::refusal::LoginRefusal;
use mysql_const::CapabilityFlags;
use mysql_fields::{LeU16, MySerialize, RawInt, in_order};
use mysql_ok_packets::{CommonOkPacket, OkPacket};
use mysql_server_packets::{ErrPacketHeader, ServerError};
use std::alloc::AllocError;

// Appends an error.
#[tactic(auto, unfolding(mysql_server_packets::specs::Packets::server_error))]
fn write_error(error: &ServerError, out: &mut Vec<u8>) -> Result<(), AllocError>
    ensures { Appends result out.old.items out.new.items (err_packet (Error (server_error_view error.now))) }
{
    let header = ErrPacketHeader::new();
    let code: RawInt<LeU16> = RawInt::new(error.error_code());
    in_order!(header, code, error).serialize(out)
}

// Appends an OK packet.
#[tactic(auto, unfolding(mysql_ok_packets::specs::Written::ok_packet_bytes))]
fn write_ok(
    capabilities: CapabilityFlags,
    packet: &OkPacket,
    out: &mut Vec<u8>,
) -> Result<(), AllocError>
    ensures { Appends result out.old.items out.new.items
        (ok_packet_bytes 0 capabilities.0 (ok_packet_view packet.now)) }
{
    packet.serialize_as::<CommonOkPacket>(capabilities, packet.status_flags(), out)
}

// Appends a server's first payload.
fn write_greeting(event: &GreetingEvent, out: &mut Vec<u8>) -> Result<(), AllocError>
    ensures { Appends result out.old.items out.new.items (greeting_bytes (greeting_view event.now)) }
{
    match event {
        GreetingEvent::Rejected(error) => write_error(error, out),
        GreetingEvent::Greeting(packet) => packet.put_as_held(out),
    }
}

/// Appends a server's first payload: one that is read as this event.
///
/// Promise: exactly its bytes are appended where it would be read as it is, and else nothing, for the
/// first cause (`greeting_bytes`, `greeting_cause`).
///
/// By the laws such a payload is read as the event, and each event that was read is put.
///
/// # Errors
/// - `ReadsOtherwise` for another version than 10, and for a refusal without an SQL state whose text
///   begins with `#`.
/// - `ZeroByte` inside the server's version.
/// - `NamelessFlags` in its status or among MariaDB's capabilities.
/// - `NotAgreed` where the capabilities don't say whether there is a second scramble, or a plugin.
/// - `ReadsOtherwise` where the second scramble has another length than is read of it.
/// - `Memory`.
///
/// `out` is as it was after an error.
///
/// MySQL: Client/Server Protocol, "Protocol::HandshakeV10" and "ERR_Packet".
pub fn put_greeting(event: &GreetingEvent, out: &mut Vec<u8>) -> Result<(), LoginRefusal>
    ensures { Puts (greeting_cause (greeting_view event.now)) (greeting_bytes (greeting_view event.now))
        out.old.items out.new.items result }
{
    greeting_cause(event)?;
    match write_greeting(event, out) {
        Ok(()) => Ok(()),
        Err(_) => Err(LoginRefusal::Memory),
    }
}

// Appends a client's first payload.
fn write_response(
    server: CapabilityFlags,
    event: &ResponseEvent,
    out: &mut Vec<u8>,
) -> Result<(), AllocError>
    ensures { Appends result out.old.items out.new.items (response_bytes server.0 (response_event_view event.now)) }
{
    match event {
        ResponseEvent::SecureRequest(request) => request.serialize(out),
        ResponseEvent::Login(LoginResponse::CutOff(request)) => request.serialize(out),
        ResponseEvent::Login(LoginResponse::Whole(response)) => response.put_to(server, out),
    }
}

/// Appends a client's first payload, to a server of these capabilities: one that is read as this event.
///
/// Promise: exactly its bytes are appended where it would be read as it is, and else nothing, for the
/// first cause (`response_bytes`, `response_cause`).
///
/// # Errors
/// - `NotAgreed` where not both have `CLIENT_PROTOCOL_41`. Also for a request to go on by TLS where
///   not both have `CLIENT_SSL`, and for a login where both have it.
/// - `NamelessFlags` among MariaDB's capabilities.
/// - Of a login's fields, in their order, one of these. `ZeroByte` inside the user's name, the
///   answer or the database, where they end at a zero. `TooLong` for an answer of more than 255
///   bytes after a length of one. `NotAgreed` where those that are held are not those that both
///   sides' capabilities name. `ReadsOtherwise` for a plugin by another's name.
/// - `Memory`.
///
/// `out` is as it was after an error.
///
/// MySQL: Client/Server Protocol, "Protocol::HandshakeResponse41", "Protocol::SSLRequest".
pub fn put_response(
    server: CapabilityFlags,
    event: &ResponseEvent,
    out: &mut Vec<u8>,
) -> Result<(), LoginRefusal>
    ensures { Puts (response_cause server.0 (response_event_view event.now))
        (response_bytes server.0 (response_event_view event.now)) out.old.items out.new.items result }
{
    response_cause(server, event)?;
    match write_response(server, event, out) {
        Ok(()) => Ok(()),
        Err(_) => Err(LoginRefusal::Memory),
    }
}

// Appends a server's payload of an authentication.
fn write_authentication(
    capabilities: CapabilityFlags,
    event: &AuthenticationEvent,
    out: &mut Vec<u8>,
) -> Result<(), AllocError>
    ensures { Appends result out.old.items out.new.items
        (authentication_bytes capabilities.0 (authentication_view event.now)) }
{
    match event {
        AuthenticationEvent::Accepted(packet) => write_ok(capabilities, packet, out),
        AuthenticationEvent::Denied(error) => write_error(error, out),
        AuthenticationEvent::AuthSwitch(request) => request.serialize(out),
        AuthenticationEvent::OldAuthSwitch(request) => request.serialize(out),
        AuthenticationEvent::AuthMore(more) => more.serialize(out),
        AuthenticationEvent::NextFactor(request) => request.serialize(out),
        AuthenticationEvent::PluginData(bytes) => out.extend_from_slice(bytes.as_slice()),
    }
}

/// Appends a server's payload of an authentication, by the capabilities in force: one that is read as
/// this event.
///
/// Promise: exactly its bytes are appended where it would be read as it is, and else nothing, for the
/// first cause (`authentication_bytes`, `authentication_cause`).
///
/// # Errors
/// - Of an OK packet `NamelessFlags` in its status, and `NotAgreed` for a session state that it
///   can't tell. Also `ReadsOtherwise` for an id of 0 or an empty text that should be none.
/// - Of an error `NotAgreed` where it has an SQL state and `CLIENT_PROTOCOL_41` is not in force, or has
///   none and it is.
/// - Of a request for one more plugin `NotAgreed` without `MULTI_FACTOR_AUTHENTICATION`.
/// - `ZeroByte` inside a plugin's name.
/// - Of a plugin's data without 01 before it `ReadsOtherwise` where there is no byte, or one of another
///   meaning stands first.
/// - `Memory`.
///
/// `out` is as it was after an error.
///
/// MySQL: Client/Server Protocol, "Connection Phase".
pub fn put_authentication(
    capabilities: CapabilityFlags,
    event: &AuthenticationEvent,
    out: &mut Vec<u8>,
) -> Result<(), LoginRefusal>
    ensures { Puts (authentication_cause capabilities.0 (authentication_view event.now))
        (authentication_bytes capabilities.0 (authentication_view event.now)) out.old.items out.new.items result }
{
    authentication_cause(capabilities, event)?;
    match write_authentication(capabilities, event, out) {
        Ok(()) => Ok(()),
        Err(_) => Err(LoginRefusal::Memory),
    }
}
