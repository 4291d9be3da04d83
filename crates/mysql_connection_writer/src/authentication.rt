//! A server's payloads while a user is logged in or changed.

ghost use Rattle.std.specs.Prelude.{◌≡◌, Ok};
ghost use Rattle.mysql_authentication.specs.Readings.{authentication_at};
ghost use Rattle.mysql_authentication.specs.Statements.{HoldsAuthentication, HoldsOk};
ghost use Rattle.mysql_authentication.specs.Views.{authentication_view};
ghost use Rattle.mysql_authentication.specs.Written.{authentication_bytes, authentication_cause};
ghost use Rattle.mysql_ok_packets.specs.Views.{ok_packet_view};
ghost use Rattle.mysql_connection_rules.specs.Events as events;
ghost use Rattle.mysql_connection_writer.specs.Exchanges.{ReadsInExchange};
ghost use Rattle.mysql_connection_writer.specs.Payloads.{login_cause, unless_cause};
ghost use Rattle.mysql_connection_writer.specs.Writes.{Writes, WritesEvent};

use crate::login::{error_holds, refusal_of_login};
use crate::refusal::{BadEvent, EventRefusal};
use mysql_authentication::laws::authentications_read_back;
use mysql_authentication::{AuthenticationEvent, put_authentication};
use mysql_connection_rules::Exchange;
use mysql_connection_state::{State, greets_anew};
use mysql_const::CapabilityFlags;
use mysql_ok_packets::OkPacket;

// For the proof alone: the length of bytes that may be there.
fn length_holds(bytes: Option<&[u8]>) {
    if let Some(bytes) = bytes {
        let _length = bytes.len();
    }
}

// For the proof alone: what an OK packet's types hold.
fn ok_holds(packet: &OkPacket)
    ensures { HoldsOk (ok_packet_view packet.now) }
{
    let _affected_rows = packet.affected_rows();
    if let Some(id) = packet.last_insert_id() {
        let _id = id;
    }
    let _status = packet.status_flags().0;
    let _warnings = packet.warnings();
    length_holds(packet.info_ref());
    length_holds(packet.session_state_info_ref());
}

// For the proof alone: what an event's types hold.
fn authentication_holds(said: &AuthenticationEvent)
    ensures { HoldsAuthentication (authentication_view said.now) }
{
    match said {
        AuthenticationEvent::Accepted(packet) => ok_holds(packet),
        AuthenticationEvent::Denied(error) => error_holds(error),
        _ => {}
    }
}

// Puts a server's payload by which a user is logged in or changed.
fn put_read(
    capabilities: CapabilityFlags,
    said: &AuthenticationEvent,
    out: &mut Vec<u8>,
) -> Result<(), EventRefusal>
    ensures { Writes (λ payload. authentication_at capabilities.0 payload ≡ Ok (authentication_view said.now))
        (unless_cause (authentication_cause capabilities.0 (authentication_view said.now))
        (authentication_bytes capabilities.0 (authentication_view said.now)))
        (login_cause (authentication_cause capabilities.0 (authentication_view said.now))) out.old.items
        out.new.items result }
{
    authentications_read_back();
    authentication_holds(said);
    match put_authentication(capabilities, said, out) {
        Ok(()) => Ok(()),
        Err(refusal) => Err(refusal_of_login(refusal)),
    }
}

// Puts it in an exchange, where it would not be read as a new greeting.
fn put_in_exchange(
    exchange: Exchange,
    capabilities: CapabilityFlags,
    said: &AuthenticationEvent,
    out: &mut Vec<u8>,
) -> Result<(), EventRefusal>
    ensures { Writes (ReadsInExchange exchange capabilities.0 (authentication_view said.now))
        (unless_cause (authentication_cause capabilities.0 (authentication_view said.now))
        (authentication_bytes capabilities.0 (authentication_view said.now)))
        (login_cause (authentication_cause capabilities.0 (authentication_view said.now))) out.old.items
        out.new.items result }
{
    let len = out.len();
    put_read(capabilities, said, out)?;
    if greets_anew(exchange, &out[len..]) {
        out.truncate(len);
        return Err(EventRefusal::BadEvent(BadEvent::ReadsOtherwise));
    }
    Ok(())
}

/// Writes a server's payload by which a user is logged in or changed.
pub fn write_authentication(
    state: &State,
    said: &AuthenticationEvent,
    out: &mut Vec<u8>,
) -> Result<(), EventRefusal>
    ensures { WritesEvent state.now.standing (events.Authentication (authentication_view said.now))
        out.old.items out.new.items result }
{
    match state.exchange() {
        Some(exchange) => put_in_exchange(exchange, state.capabilities().protocol, said, out),
        None => Err(EventRefusal::BadEvent(BadEvent::ReadsOtherwise)),
    }
}
