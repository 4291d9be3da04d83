//! Whether two answers of a client say the same.

ghost use Rattle.std.specs.Prelude.{◌≡◌, ◌↔◌, IsTrue, option_map};
ghost use Rattle.mysql_authentication.specs.Views.{login_view, response_event_view};
ghost use Rattle.mysql_handshake_response.specs.ResponseViews.{response_view};
ghost use Rattle.mysql_handshake_response.specs.SslRequestViews.{ssl_request_view};

use mysql_authentication::{LoginResponse, ResponseEvent};
use mysql_command_writer::same::{same_all, same_plugins};
use mysql_handshake_response::{HandshakeResponse, SslRequest};

// The same 32 bytes.
fn same_request(one: &SslRequest, other: &SslRequest) -> bool
    ensures { IsTrue result ↔ (ssl_request_view one.now ≡ ssl_request_view other.now) }
{
    one.capabilities().0 == other.capabilities().0
        && one.max_packet_size() == other.max_packet_size()
        && one.character_set() == other.character_set()
        && one.mariadb_capabilities().0 == other.mariadb_capabilities().0
}

// The same name, or none of both.
fn same_name(one: Option<&[u8]>, other: Option<&[u8]>) -> bool
    ensures { IsTrue result ↔ (option_map (λ name. name.now) one.entry ≡ option_map (λ name. name.now) other.entry) }
{
    match (one, other) {
        (Some(one), Some(other)) => one == other,
        (None, None) => true,
        _ => false,
    }
}

// The same fields.
fn same_fields(one: &HandshakeResponse, other: &HandshakeResponse) -> bool
    ensures { IsTrue result ↔ (response_view one.now ≡ response_view other.now) }
{
    same_request(one.request(), other.request())
        && one.user() == other.user()
        && one.scramble_ref() == other.scramble_ref()
        && same_name(one.db_name(), other.db_name())
        && same_plugins(one.auth_plugin(), other.auth_plugin())
        && same_all(one.attributes(), other.attributes())
}

// The same login.
fn same_login(one: &LoginResponse, other: &LoginResponse) -> bool
    ensures { IsTrue result ↔ (login_view one.now ≡ login_view other.now) }
{
    match (one, other) {
        (LoginResponse::Whole(one), LoginResponse::Whole(other)) => same_fields(one, other),
        (LoginResponse::CutOff(one), LoginResponse::CutOff(other)) => same_request(one, other),
        _ => false,
    }
}

/// Whether two answers of a client say the same.
pub fn same_response(one: &ResponseEvent, other: &ResponseEvent) -> bool
    ensures { IsTrue result ↔ (response_event_view one.now ≡ response_event_view other.now) }
{
    match (one, other) {
        (ResponseEvent::SecureRequest(one), ResponseEvent::SecureRequest(other)) => {
            same_request(one, other)
        }
        (ResponseEvent::Login(one), ResponseEvent::Login(other)) => same_login(one, other),
        _ => false,
    }
}
