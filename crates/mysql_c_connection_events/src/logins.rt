//! What C sees of logging in.

ghost use Rattle.std.specs.Prelude.{◌≡◌, option_map};
ghost use Rattle.mysql_auth.specs.Views.{plugin_view};
ghost use Rattle.mysql_authentication.specs.Views.{authentication_view, greeting_view, response_event_view};
ghost use Rattle.mysql_handshake.specs.HandshakeViews.{handshake_view};
ghost use Rattle.mysql_handshake_response.specs.ResponseViews.{response_view};
ghost use Rattle.mysql_handshake_response.specs.SslRequestViews.{ssl_request_view};
ghost use Rattle.mysql_login.specs.ChangedUserViews.{change_user_view};
ghost use Rattle.mysql_c_connection_events.specs.Logins.{asking_shown, authentication_shown, change_shown};
ghost use Rattle.mysql_c_connection_events.specs.Logins.{greeting_shown, handshake_shown, name_of, request_shown};
ghost use Rattle.mysql_c_connection_events.specs.Logins.{response_event_shown, response_shown};

use crate::packets::{telling_error, telling_packet};
use crate::shown::{ShownEvent, blank, with_data, with_text};
use mysql_auth::AuthPlugin;
use mysql_authentication::{AuthenticationEvent, GreetingEvent, LoginResponse, ResponseEvent};
use mysql_c_handles::start_of;
use mysql_handshake::HandshakePacket;
use mysql_handshake_response::{HandshakeResponse, SslRequest};
use mysql_login::ComChangeUser;

/// A greeting.
fn telling_handshake(packet: &HandshakePacket<'_>) -> ShownEvent
    ensures { result ≡ handshake_shown (handshake_view packet.now) result }
{
    let plugin = packet.auth_plugin_name_ref().unwrap_or(&[]);
    let mut shown = with_text(2, 1, packet.server_version_ref());
    shown.number = packet.connection_id();
    shown.capabilities = packet.capabilities().0;
    shown.mariadb_capabilities = packet.mariadb_ext_capabilities().0;
    shown.charset = packet.default_collation() as u16;
    shown.status = packet.status_flags().0;
    shown.plugin = start_of(plugin);
    shown.plugin_len = plugin.len();
    shown
}

/// A server's first payload.
pub fn telling_greeting(said: &GreetingEvent<'_>) -> ShownEvent
    ensures { result ≡ greeting_shown (greeting_view said.now) result }
{
    match said {
        GreetingEvent::Rejected(error) => telling_error(1, error),
        GreetingEvent::Greeting(packet) => telling_handshake(packet),
    }
}

/// The first fields of a client's answer to the greeting.
fn telling_request(kind: u32, request: &SslRequest) -> ShownEvent
    ensures { result ≡ request_shown kind (ssl_request_view request.now) result }
{
    let mut shown = blank(kind, 0);
    shown.capabilities = request.capabilities().0;
    shown.mariadb_capabilities = request.offered().mariadb.0;
    shown.number = request.max_packet_size();
    shown.charset = request.character_set() as u16;
    shown
}

/// A plugin's name, where there is one.
fn name_of<'a>(plugin: Option<&'a AuthPlugin<'_>>) -> &'a [u8]
    ensures { result.now ≡ name_of (option_map (λ held. plugin_view held.now) plugin.entry) }
{
    match plugin {
        Some(plugin) => plugin.as_bytes(),
        None => &[],
    }
}

/// What a client logs in with.
fn telling_response(response: &HandshakeResponse<'_>) -> ShownEvent
    ensures { result ≡ response_shown (response_view response.now) result }
{
    let database = response.db_name().unwrap_or(&[]);
    let plugin = name_of(response.auth_plugin());
    let mut shown = telling_request(4, response.request());
    shown.user = start_of(response.user());
    shown.user_len = response.user().len();
    shown.database = start_of(database);
    shown.database_len = database.len();
    shown.plugin = start_of(plugin);
    shown.plugin_len = plugin.len();
    shown.data = start_of(response.scramble_ref());
    shown.data_len = response.scramble_ref().len();
    if let Some(attributes) = response.attributes() {
        shown.attributes = attributes.len();
    }
    shown
}

/// A client's answer to the greeting.
pub fn telling_response_event(said: &ResponseEvent<'_>) -> ShownEvent
    ensures { result ≡ response_event_shown (response_event_view said.now) result }
{
    match said {
        ResponseEvent::SecureRequest(request) => telling_request(3, request),
        ResponseEvent::Login(LoginResponse::Whole(response)) => telling_response(response),
        ResponseEvent::Login(LoginResponse::CutOff(request)) => telling_request(5, request),
    }
}

/// A request for a plugin with its data.
fn telling_plugin(kind: u32, plugin: &[u8], bytes: &[u8]) -> ShownEvent
    ensures { result ≡ asking_shown kind plugin.now bytes.now result }
{
    let mut shown = with_data(kind, 1, bytes);
    shown.plugin = start_of(plugin);
    shown.plugin_len = plugin.len();
    shown
}

/// A server's payload of an authentication.
pub fn telling_authentication(said: &AuthenticationEvent<'_>) -> ShownEvent
    ensures { result ≡ authentication_shown (authentication_view said.now) result }
{
    match said {
        AuthenticationEvent::Accepted(ok) => telling_packet(6, ok),
        AuthenticationEvent::Denied(error) => telling_error(7, error),
        AuthenticationEvent::AuthSwitch(request) => {
            telling_plugin(8, request.auth_plugin_ref(), request.plugin_data_ref())
        }
        AuthenticationEvent::OldAuthSwitch(_) => blank(9, 1),
        AuthenticationEvent::AuthMore(more) => with_data(10, 1, more.data()),
        AuthenticationEvent::NextFactor(request) => {
            telling_plugin(11, request.auth_plugin_ref(), request.plugin_data_ref())
        }
        AuthenticationEvent::PluginData(bytes) => with_data(12, 1, bytes.as_slice()),
    }
}

/// A change of user.
pub fn telling_change(login: &ComChangeUser<'_>) -> ShownEvent
    ensures { result ≡ change_shown (change_user_view login.now) result }
{
    let mut shown = with_data(0x111, 0, login.auth_plugin_data());
    shown.user = start_of(login.user());
    shown.user_len = login.user().len();
    shown.database = start_of(login.database());
    shown.database_len = login.database().len();
    if let Some(more) = login.more_data() {
        let plugin = name_of(more.auth_plugin());
        shown.charset = more.character_set();
        shown.plugin = start_of(plugin);
        shown.plugin_len = plugin.len();
        if let Some(attributes) = more.attributes() {
            shown.attributes = attributes.len();
        }
    }
    shown
}
