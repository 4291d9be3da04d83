//! A client's first payload, by the server's capabilities.
//!
//!     let offered = greeting.offered();
//!     match read_response(alloc, offered.protocol, payload)? {
//!         ResponseEvent::SecureRequest(request) => start_tls(request),
//!         ResponseEvent::Login(login) => log_in(capabilities_in_force(&greeting, login.request())),
//!     }

ghost use Rattle.std.specs.Prelude.{◌≡◌, Ok};
ghost use Rattle.std.specs.Int.RustNames.{bit_and};
ghost use Rattle.mysql_authentication.specs.Readings.{AnswersOrMemory, agrees_41, by_request, login_of, response_at};
ghost use Rattle.mysql_authentication.specs.Readings.{response_of};
ghost use Rattle.mysql_authentication.specs.Views.{login_view, response_event_view};
ghost use Rattle.mysql_field_constants.specs.Flags.{contains};
ghost use Rattle.mysql_fields.specs.Forms.{fixed_number_at};
ghost use Rattle.mysql_handshake.specs.Capabilities.{in_force, offered};
ghost use Rattle.mysql_handshake.specs.HandshakeViews.{handshake_view};
ghost use Rattle.mysql_handshake_response.specs.Responses.{response_to_at};
ghost use Rattle.mysql_handshake_response.specs.SslRequestViews.{ssl_request_view};

use crate::events::{LoginResponse, ResponseEvent};
use crate::fault::LoginFault;
use bitflags::Flags;
use mysql_buf::ParseBuf;
use mysql_const::{Capabilities, CapabilityFlags};
use mysql_fields::{ParseExt, WireError};
use mysql_handshake::{HandshakePacket, in_force};
use mysql_handshake_response::{HandshakeResponse, SslRequest};
use std::alloc::Global;

/// The capabilities in force on a connection: those that its greeting and its client's answer both
/// have, by both words.
///
/// Promise: of each word exactly the bits that both have, where a side that sets
/// `CLIENT_LONG_PASSWORD` has none of MariaDB's own (`in_force`, `offered`).
///
/// MySQL: Client/Server Protocol, "Capabilities Flags"; MariaDB: Client/Server Protocol, "Connecting",
/// 'Capabilities'.
pub fn capabilities_in_force(greeting: &HandshakePacket, request: &SslRequest) -> Capabilities
    ensures { result ≡ in_force
        (offered (handshake_view greeting.now).capabilities (handshake_view greeting.now).mariadb_ext_capabilities)
        (offered (ssl_request_view request.now).capabilities (ssl_request_view request.now).mariadb_capabilities) }
{
    in_force(greeting.offered(), request.offered())
}

// Whether this flag is among the capabilities that both have.
#[tactic(auto, unfolding(bitflags::proofs::OnLiterals::bitflags_on_literals))]
fn both_have(server: CapabilityFlags, client: CapabilityFlags, flag: CapabilityFlags) -> bool
    ensures { result ≡ contains (bit_and server.0 client.0) flag.0 }
{
    CapabilityFlags(server.0 & client.0).contains(flag)
}

// Whether both have the protocol of version 4.1, which the first two bytes say of the client.
fn has_41(server: CapabilityFlags, payload: &[u8]) -> bool
    ensures { result ≡ agrees_41 server.0 (fixed_number_at 2 payload.now) }
{
    let mut front = ParseBuf(payload);
    match front.checked_eat_u16_le() {
        Some(word) => both_have(
            server,
            CapabilityFlags(u32::from(word)),
            CapabilityFlags::CLIENT_PROTOCOL_41,
        ),
        None => false,
    }
}

// All fields, or the first 32 bytes alone.
fn login<'a>(
    alloc: Global,
    server: CapabilityFlags,
    request: SslRequest,
    payload: &'a [u8],
) -> Result<LoginResponse<'a>, LoginFault>
    ensures { AnswersOrMemory login_view result
        (Ok (login_of (ssl_request_view request) (response_to_at server.0 payload.now))) }
{
    let mut rest = ParseBuf(payload);
    match HandshakeResponse::read_to(alloc, server, &mut rest) {
        Ok(response) => Ok(LoginResponse::Whole(response)),
        Err(WireError::Memory) => Err(LoginFault::Memory),
        Err(_) => Ok(LoginResponse::CutOff(request)),
    }
}

// What the answer says behind its first 32 bytes.
fn by_request<'a>(
    alloc: Global,
    server: CapabilityFlags,
    request: SslRequest,
    payload: &'a [u8],
) -> Result<ResponseEvent<'a>, LoginFault>
    ensures { AnswersOrMemory response_event_view result
        (Ok (response_of server.0 (ssl_request_view request) payload.now)) }
{
    if both_have(server, request.capabilities(), CapabilityFlags::CLIENT_SSL) {
        return Ok(ResponseEvent::SecureRequest(request));
    }
    let login = login(alloc, server, request, payload)?;
    Ok(ResponseEvent::Login(login))
}

/// Reads a client's first payload, by the capabilities of the server that it answers. It is a
/// request to go on by TLS where both have `CLIENT_SSL`, whatever stands behind its 32 bytes. Else
/// it is a login, laid out by the capabilities that both have. Of a login whose fields can't be
/// read there are the first 32 bytes. Bytes behind its fields are passed over.
///
/// Promise: what is answered is a function of the payload and of the server's capabilities
/// (`response_at`).
///
/// # Errors
/// - `OldProtocol` where not both have `CLIENT_PROTOCOL_41`, below two bytes too.
/// - `BadLogin` below 32 bytes.
/// - `Memory`.
///
/// MySQL: Client/Server Protocol, "Protocol::HandshakeResponse41", "Protocol::SSLRequest"; MariaDB:
/// Client/Server Protocol, "Connecting", 'Handshake Response Packet'.
#[tactic(auto, unfolding(crate::specs::Readings::response_at))]
pub fn read_response(
    alloc: Global,
    server: CapabilityFlags,
    payload: &[u8],
) -> Result<ResponseEvent<'_>, LoginFault>
    ensures { AnswersOrMemory response_event_view result (response_at server.0 payload.now) }
{
    if !has_41(server, payload) {
        return Err(LoginFault::OldProtocol);
    }
    let mut rest = ParseBuf(payload);
    match rest.parse::<SslRequest>(alloc, ()) {
        Ok(request) => by_request(alloc, server, request, payload),
        Err(_) => Err(LoginFault::BadLogin),
    }
}
