//! The table of events, logins: what one payload of logging in says.

use crate::fields::{Field, Held, Said, bytes, bytes_or, entry, field_of, number, secret};
use crate::form::{Form, write_said};
use crate::lists::List;
use crate::replies::{error_said, ok_said};
use crate::secrets::Secrets;
use mysql_auth::AuthPlugin;
use mysql_authentication::{AuthenticationEvent, GreetingEvent, LoginResponse, ResponseEvent};
use mysql_handshake::HandshakePacket;
use mysql_handshake_response::{ConnectAttributes, HandshakeResponse, SslRequest};
use std::io;
use std::io::Write;

/// The plugin of old passwords, of which its request doesn't have the name.
const OLD_PLUGIN: &[u8] = b"mysql_old_password";

/// The name of a plugin, where there is one.
pub(crate) fn plugin_if<'e>(plugin: Option<&'e AuthPlugin<'_>>) -> Field<'e> {
    match plugin {
        Some(plugin) => bytes("plugin", plugin.as_bytes()),
        None => field_of("plugin", Held::Absent),
    }
}

/// The attributes of a connection, where there are some.
pub(crate) fn pairs_if<'e>(attributes: Option<&'e ConnectAttributes<'e>>) -> Field<'e> {
    match attributes {
        Some(attributes) => field_of("attributes", Held::List(List::Pairs(attributes))),
        None => field_of("attributes", Held::Absent),
    }
}

fn handshake_said<'e>(greeting: &'e HandshakePacket<'_>) -> Said<'e> {
    entry("Greeting").with(&[
        number("protocol", u64::from(greeting.protocol_version())).long(),
        bytes("version", greeting.server_version_ref()),
        number("thread", u64::from(greeting.connection_id())),
        bytes("scramble_1", greeting.scramble_1_ref()).long(),
        number("collation", u64::from(greeting.default_collation())).long(),
        number("status", u64::from(greeting.status_flags().0)).long(),
        number("capabilities", u64::from(greeting.capabilities().0)).long(),
        number("extended", u64::from(greeting.mariadb_ext_capabilities().0)).long(),
        bytes_or("scramble_2", Held::Absent, greeting.scramble_2_ref()).long(),
        bytes_or("plugin", Held::Absent, greeting.auth_plugin_name_ref()).long(),
    ])
}

/// What a server's first payload says.
pub fn greeting_said<'e>(event: &'e GreetingEvent<'_>) -> Said<'e> {
    match event {
        GreetingEvent::Rejected(error) => error_said("Rejected", error),
        GreetingEvent::Greeting(greeting) => handshake_said(greeting),
    }
}

/// The fields that stand first in a client's answer.
fn request_fields<'e>(request: &SslRequest) -> [Field<'e>; 4] {
    [
        number("capabilities", u64::from(request.capabilities().0)).long(),
        number("max_packet", u64::from(request.max_packet_size())).long(),
        number("collation", u64::from(request.character_set())).long(),
        number("extended", u64::from(request.offered().mariadb.0)).long(),
    ]
}

fn request_said<'e>(name: &'static str, request: &SslRequest) -> Said<'e> {
    entry(name).with(&request_fields(request))
}

fn login_said<'e>(response: &'e HandshakeResponse<'e>) -> Said<'e> {
    let [capabilities, max_packet, collation, extended] = request_fields(response.request());
    entry("Login").with(&[
        capabilities,
        max_packet,
        collation,
        extended,
        bytes("user", response.user()).named(),
        secret("answer", response.scramble_buf()).long(),
        bytes_or("database", Held::Absent, response.db_name()).named(),
        plugin_if(response.auth_plugin()).named(),
        pairs_if(response.attributes()).long(),
    ])
}

fn login_response_said<'e>(event: &'e LoginResponse<'e>) -> Said<'e> {
    match event {
        LoginResponse::CutOff(request) => request_said("Login", request),
        LoginResponse::Whole(response) => login_said(response),
    }
}

/// What a client's first payload says.
pub fn response_said<'e>(event: &'e ResponseEvent<'e>) -> Said<'e> {
    match event {
        ResponseEvent::SecureRequest(request) => request_said("SecureRequest", request),
        ResponseEvent::Login(login) => login_response_said(login),
    }
}

fn plugin_said<'e>(name: &'static str, plugin: &'e [u8], data: &'e [u8]) -> Said<'e> {
    entry(name).with(&[bytes("plugin", plugin), secret("data", data).long()])
}

/// Data of an authentication.
fn data_said<'e>(name: &'static str, data: &'e [u8]) -> Said<'e> {
    entry(name).with(&[secret("data", data)])
}

/// What a client's answer to a payload of an authentication says.
pub fn answer_said(data: &[u8]) -> Said<'_> {
    data_said("AuthAnswer", data)
}

/// What a server's payload of an authentication says.
pub fn authentication_said<'e>(event: &'e AuthenticationEvent<'_>) -> Said<'e> {
    match event {
        AuthenticationEvent::Accepted(ok) => ok_said("Accepted", ok),
        AuthenticationEvent::Denied(error) => error_said("Denied", error),
        AuthenticationEvent::AuthSwitch(request) => {
            plugin_said(
                "AuthSwitch",
                request.auth_plugin_ref(),
                request.plugin_data_ref(),
            )
        }
        AuthenticationEvent::OldAuthSwitch(_) => plugin_said("AuthSwitch", OLD_PLUGIN, &[]),
        AuthenticationEvent::AuthMore(more) => data_said("AuthMore", more.data()),
        AuthenticationEvent::NextFactor(request) => {
            plugin_said(
                "NextFactor",
                request.auth_plugin_ref(),
                request.plugin_data_ref(),
            )
        }
        AuthenticationEvent::PluginData(data) => data_said("PluginData", data.as_slice()),
    }
}

/// Writes what a server's first payload says, as a line without its end.
///
/// # Errors
/// - Those of the output.
pub fn write_greeting_event<W: Write>(output: &mut W, event: &GreetingEvent) -> io::Result<()> {
    write_said(output, Form::Long(Secrets::Hidden), &greeting_said(event))
}

/// Writes what a client's first payload says, as a line without its end.
///
/// # Errors
/// - Those of the output.
pub fn write_response_event<W: Write>(
    output: &mut W,
    event: &ResponseEvent,
    secrets: Secrets,
) -> io::Result<()> {
    write_said(output, Form::Long(secrets), &response_said(event))
}

/// Writes what a server's payload of an authentication says, as a line without its end.
///
/// # Errors
/// - Those of the output.
pub fn write_authentication_event<W: Write>(
    output: &mut W,
    event: &AuthenticationEvent,
    secrets: Secrets,
) -> io::Result<()> {
    write_said(output, Form::Long(secrets), &authentication_said(event))
}
