//! The causes against putting an event, in their order.

ghost use Rattle.std.specs.Prelude.{◌≡◌, ◌==◌, not, length, option_map};
ghost use Rattle.std.specs.Int.RustNames.{bit_and};
ghost use Rattle.mysql_auth.specs.Plugins.{Other};
ghost use Rattle.mysql_auth.specs.Views.{next_factor_view, plugin_view};
ghost use Rattle.mysql_authentication.specs.Events.{LoggedIn, NextFactor, Rejected, Whole};
ghost use Rattle.mysql_authentication.specs.Views.{authentication_view, greeting_view, response_event_view};
ghost use Rattle.mysql_authentication.specs.Written.{IsCause, accepted_cause, authentication_cause, fields_cause};
ghost use Rattle.mysql_authentication.specs.Written.{greeted_cause, greeting_cause, has_no_zero, if_some, is_bare};
ghost use Rattle.mysql_authentication.specs.Written.{is_normal, is_other, names_itself, request_cause, response_cause};
ghost use Rattle.mysql_authentication.specs.Written.{same, scramble_cause, unless};
ghost use Rattle.mysql_const.specs.MariadbCapabilities.{mariadb_capabilities};
ghost use Rattle.mysql_field_constants.specs.Flags.{are_named, contains};
ghost use Rattle.mysql_handshake.specs.HandshakeViews.{handshake_view};
ghost use Rattle.mysql_handshake_response.specs.ResponseViews.{response_view};
ghost use Rattle.mysql_handshake_response.specs.SslRequestViews.{ssl_request_view};
ghost use Rattle.mysql_ok_packets.specs.Views.{ok_packet_view};
ghost use Rattle.mysql_ok_packets.specs.Written.{tells_state};
ghost use Rattle.mysql_server_packets.specs.Views.{server_error_view};

use crate::authentication::has_factors;
use crate::events::{AuthenticationEvent, GreetingEvent, LoginResponse, ResponseEvent};
use crate::refusal::LoginRefusal;
use bitflags::Flags;
use mysql_auth::{AuthNextFactor, AuthPlugin};
use mysql_buf::ParseBuf;
use mysql_const::{CapabilityFlags, MariadbCapabilities, StatusFlags};
use mysql_handshake::HandshakePacket;
use mysql_handshake_response::{HandshakeResponse, SslRequest};
use mysql_ok_packets::{OkPacket, has_named_status};
use mysql_server_packets::ServerError;

const NO_SALT: [u8; 18] = [0; 18];

// Whether a text that ends at its first zero has none inside.
fn has_no_zero(text: &[u8]) -> bool
    ensures { result ≡ has_no_zero text.now }
{
    let front = ParseBuf(text).eat_null_str();
    front.len() == text.len()
}

// Whether each bit of these capabilities has a name.
#[tactic(auto, unfolding(bitflags::proofs::OnLiterals::bitflags_on_literals))]
fn are_named(capabilities: MariadbCapabilities) -> bool
    ensures { result ≡ are_named mariadb_capabilities capabilities.0 }
{
    capabilities.0 & 0x3f == capabilities.0
}

fn has(capabilities: CapabilityFlags, flag: CapabilityFlags) -> bool
    ensures { result ≡ contains capabilities.0 flag.0 }
{
    capabilities.contains(flag)
}

// This cause, unless the test holds.
fn unless(holds: bool, cause: LoginRefusal) -> Result<(), LoginRefusal>
    ensures { IsCause (unless holds cause) result }
{
    if holds { Ok(()) } else { Err(cause) }
}

// Both tests say the same.
fn same(first: bool, second: bool) -> bool
    ensures { result ≡ same first second }
{
    if first { second } else { !second }
}

// A greeting is of version 10, and has exactly the parts that its capabilities name.
fn greeted(packet: &HandshakePacket) -> Result<(), LoginRefusal>
    ensures { IsCause (greeted_cause (handshake_view packet.now)) result }
{
    let capabilities = packet.capabilities();
    let is_ten = packet.protocol_version() == 10;
    unless(is_ten, LoginRefusal::ReadsOtherwise)?;
    unless(
        has_no_zero(packet.server_version_ref()),
        LoginRefusal::ZeroByte,
    )?;
    unless(
        has_named_status(packet.status_flags()),
        LoginRefusal::NamelessFlags,
    )?;
    unless(
        are_named(packet.mariadb_ext_capabilities()),
        LoginRefusal::NamelessFlags,
    )?;
    let with_scramble = has(capabilities, CapabilityFlags::CLIENT_SECURE_CONNECTION);
    unless(
        same(packet.scramble_2_ref().is_some(), with_scramble),
        LoginRefusal::NotAgreed,
    )?;
    let with_name = has(capabilities, CapabilityFlags::CLIENT_PLUGIN_AUTH);
    unless(
        same(packet.auth_plugin_name_ref().is_some(), with_name),
        LoginRefusal::NotAgreed,
    )?;
    unless(packet.has_whole_scramble(), LoginRefusal::ReadsOtherwise)
}

// The text of an error without an SQL state doesn't begin with `#`.
fn rejected(error: &ServerError) -> Result<(), LoginRefusal>
    ensures { IsCause (greeting_cause (Rejected (server_error_view error.now))) result }
{
    let message = error.message_ref();
    let is_marked = !message.is_empty() && message[0] == b'#';
    let reads = error.sql_state_ref().is_some() || !is_marked;
    unless(reads, LoginRefusal::ReadsOtherwise)
}

// The cause against a server's first payload.
pub(crate) fn greeting_cause(event: &GreetingEvent) -> Result<(), LoginRefusal>
    ensures { IsCause (greeting_cause (greeting_view event.now)) result }
{
    match event {
        GreetingEvent::Rejected(error) => rejected(error),
        GreetingEvent::Greeting(packet) => greeted(packet),
    }
}

// The capabilities that both have.
#[tactic(auto, unfolding(bitflags::proofs::OnLiterals::bitflags_on_literals))]
fn both(server: CapabilityFlags, client: CapabilityFlags) -> CapabilityFlags
    ensures { result.0 ≡ bit_and server.0 client.0 }
{
    CapabilityFlags(server.0 & client.0)
}

// Both sides have PROTOCOL_41, and SSL exactly where it is asked for.
fn request_cause(
    server: CapabilityFlags,
    asks: bool,
    request: &SslRequest,
) -> Result<(), LoginRefusal>
    ensures { IsCause (request_cause server.0 asks (ssl_request_view request.now)) result }
{
    let capabilities = both(server, request.capabilities());
    let with_41 = has(capabilities, CapabilityFlags::CLIENT_PROTOCOL_41);
    unless(with_41, LoginRefusal::NotAgreed)?;
    let with_ssl = has(capabilities, CapabilityFlags::CLIENT_SSL);
    unless(same(with_ssl, asks), LoginRefusal::NotAgreed)?;
    unless(
        are_named(request.mariadb_capabilities()),
        LoginRefusal::NamelessFlags,
    )
}

// The answer to a scramble fits its form.
fn scramble_cause(capabilities: CapabilityFlags, text: &[u8]) -> Result<(), LoginRefusal>
    ensures { IsCause (scramble_cause capabilities.0 text.now) result }
{
    if has(
        capabilities,
        CapabilityFlags::CLIENT_PLUGIN_AUTH_LENENC_CLIENT_DATA,
    ) {
        return Ok(());
    }
    if has(capabilities, CapabilityFlags::CLIENT_SECURE_CONNECTION) {
        let is_short = text.len() <= 255;
        return unless(is_short, LoginRefusal::TooLong);
    }
    unless(has_no_zero(text), LoginRefusal::ZeroByte)
}

// Whether it is none of the plugins that have names of their own.
fn is_other(plugin: &AuthPlugin) -> bool
    ensures { result ≡ is_other (plugin_view plugin.now) }
{
    match plugin {
        AuthPlugin::Other(_) => true,
        _ => false,
    }
}

// Whether a name is read as a plugin that is known by its name alone.
fn names_other(name: &[u8]) -> bool
    ensures { result ≡ names_itself (Other name.now) }
{
    has_no_zero(name) && is_other(&AuthPlugin::from_bytes(name))
}

// Whether a plugin is the one that its name is read as.
fn names_itself(plugin: &AuthPlugin) -> bool
    ensures { result ≡ names_itself (plugin_view plugin.now) }
{
    match plugin {
        AuthPlugin::MariadbParsec {
            iterations,
            ext_salt,
        } => *iterations == 0 && ext_salt.as_slice() == NO_SALT.as_slice(),
        AuthPlugin::Other(name) => names_other(name.as_slice()),
        _ => true,
    }
}

// The same of a plugin that may not be held.
fn names_itself_if_some(plugin: Option<&AuthPlugin>) -> bool
    ensures { result ≡ if_some names_itself (option_map (λ plugin. plugin_view plugin.now) plugin.entry) }
{
    match plugin {
        Some(plugin) => names_itself(plugin),
        None => true,
    }
}

// The test of a text that may not be held.
fn has_no_zero_if_some(text: Option<&[u8]>) -> bool
    ensures { result ≡ if_some has_no_zero (option_map (λ text. text.now) text.entry) }
{
    match text {
        Some(text) => has_no_zero(text),
        None => true,
    }
}

// The fields fit their forms, and exactly those are held that the capabilities in force name.
fn fields_cause(
    capabilities: CapabilityFlags,
    response: &HandshakeResponse,
) -> Result<(), LoginRefusal>
    ensures { IsCause (fields_cause capabilities.0 (response_view response.now)) result }
{
    unless(has_no_zero(response.user()), LoginRefusal::ZeroByte)?;
    scramble_cause(capabilities, response.scramble_ref())?;
    let with_database = has(capabilities, CapabilityFlags::CLIENT_CONNECT_WITH_DB);
    unless(
        same(response.db_name().is_some(), with_database),
        LoginRefusal::NotAgreed,
    )?;
    unless(
        has_no_zero_if_some(response.db_name()),
        LoginRefusal::ZeroByte,
    )?;
    let with_plugin = has(capabilities, CapabilityFlags::CLIENT_PLUGIN_AUTH);
    unless(
        same(response.auth_plugin().is_some(), with_plugin),
        LoginRefusal::NotAgreed,
    )?;
    unless(
        names_itself_if_some(response.auth_plugin()),
        LoginRefusal::ReadsOtherwise,
    )?;
    let with_attributes = has(capabilities, CapabilityFlags::CLIENT_CONNECT_ATTRS);
    unless(
        same(response.attributes().is_some(), with_attributes),
        LoginRefusal::NotAgreed,
    )
}

// The cause against a login with all its fields.
fn whole_cause(server: CapabilityFlags, response: &HandshakeResponse) -> Result<(), LoginRefusal>
    ensures { IsCause (response_cause server.0 (LoggedIn (Whole (response_view response.now)))) result }
{
    request_cause(server, false, response.request())?;
    fields_cause(both(server, response.capabilities()), response)
}

// The cause against a client's first payload.
pub(crate) fn response_cause(
    server: CapabilityFlags,
    event: &ResponseEvent,
) -> Result<(), LoginRefusal>
    ensures { IsCause (response_cause server.0 (response_event_view event.now)) result }
{
    match event {
        ResponseEvent::SecureRequest(request) => request_cause(server, true, request),
        ResponseEvent::Login(LoginResponse::CutOff(request)) => {
            request_cause(server, false, request)
        }
        ResponseEvent::Login(LoginResponse::Whole(response)) => whole_cause(server, response),
    }
}

// Whether an id isn't 0, where there is one.
fn is_id(id: Option<u64>) -> bool
    ensures { result ≡ if_some (λ id. not (id == 0)) id }
{
    match id {
        Some(id) => id != 0,
        None => true,
    }
}

// Whether a text isn't empty, where there is one.
fn is_text(text: Option<&[u8]>) -> bool
    ensures { result ≡ if_some (λ text. not (length text == 0)) (option_map (λ text. text.now) text.entry) }
{
    match text {
        Some(text) => !text.is_empty(),
        None => true,
    }
}

// Whether an id of 0, an empty info and an empty session state are none.
fn is_normal(packet: &OkPacket) -> bool
    ensures { result ≡ is_normal (ok_packet_view packet.now) }
{
    is_id(packet.last_insert_id())
        && is_text(packet.info_ref())
        && is_text(packet.session_state_info_ref())
}

// Whether a session state stands in a packet of this status.
fn tells_state(capabilities: CapabilityFlags, status: StatusFlags) -> bool
    ensures { result ≡ tells_state capabilities.0 status.0 }
{
    capabilities.contains(CapabilityFlags::CLIENT_SESSION_TRACK)
        && status.contains(StatusFlags::SERVER_SESSION_STATE_CHANGED)
}

// The cause against an OK packet.
fn accepted_cause(capabilities: CapabilityFlags, packet: &OkPacket) -> Result<(), LoginRefusal>
    ensures { IsCause (accepted_cause capabilities.0 (ok_packet_view packet.now)) result }
{
    let status = packet.status_flags();
    unless(has_named_status(status), LoginRefusal::NamelessFlags)?;
    let is_told = packet.session_state_info_ref().is_none() || tells_state(capabilities, status);
    unless(is_told, LoginRefusal::NotAgreed)?;
    unless(is_normal(packet), LoginRefusal::ReadsOtherwise)
}

// Whether a plugin's data begins with no byte that has another meaning.
fn is_bare(capabilities: CapabilityFlags, bytes: &[u8]) -> bool
    ensures { result ≡ is_bare capabilities.0 bytes.now }
{
    match bytes.first() {
        None => false,
        Some(0 | 1 | 0xfe | 0xff) => false,
        Some(2) => !has_factors(capabilities),
        Some(_) => true,
    }
}

// The cause against a request for one more plugin.
fn factor_cause(capabilities: CapabilityFlags, request: &AuthNextFactor) -> Result<(), LoginRefusal>
    ensures { IsCause (authentication_cause capabilities.0 (NextFactor (next_factor_view request.now))) result }
{
    unless(has_factors(capabilities), LoginRefusal::NotAgreed)?;
    unless(
        has_no_zero(request.auth_plugin_ref()),
        LoginRefusal::ZeroByte,
    )
}

// The cause against a server's payload of an authentication.
pub(crate) fn authentication_cause(
    capabilities: CapabilityFlags,
    event: &AuthenticationEvent,
) -> Result<(), LoginRefusal>
    ensures { IsCause (authentication_cause capabilities.0 (authentication_view event.now)) result }
{
    match event {
        AuthenticationEvent::Accepted(packet) => accepted_cause(capabilities, packet),
        AuthenticationEvent::Denied(error) => {
            let with_41 = has(capabilities, CapabilityFlags::CLIENT_PROTOCOL_41);
            unless(
                same(error.sql_state_ref().is_some(), with_41),
                LoginRefusal::NotAgreed,
            )
        }
        AuthenticationEvent::AuthSwitch(request) => {
            unless(
                has_no_zero(request.auth_plugin_ref()),
                LoginRefusal::ZeroByte,
            )
        }
        AuthenticationEvent::OldAuthSwitch(_) => Ok(()),
        AuthenticationEvent::AuthMore(_) => Ok(()),
        AuthenticationEvent::NextFactor(request) => factor_cause(capabilities, request),
        AuthenticationEvent::PluginData(bytes) => {
            unless(
                is_bare(capabilities, bytes.as_slice()),
                LoginRefusal::ReadsOtherwise,
            )
        }
    }
}
