//! What the payloads of logging in say, phase by phase.

ghost use Rattle.std.specs.Prelude.{◌≡◌, option_map};
ghost use Rattle.mysql_auth.specs.Views.{plugin_view};
ghost use Rattle.mysql_authentication.specs.Events.{first_fields, login_plugin};
ghost use Rattle.mysql_authentication.specs.Views.{login_view};
ghost use Rattle.mysql_handshake_response.specs.SslRequestViews.{ssl_request_view};

use mysql_auth::{
    AuthMoreData, AuthNextFactor, AuthPlugin, AuthSwitchRequest, OldAuthSwitchRequest,
};
use mysql_handshake::HandshakePacket;
use mysql_handshake_response::{HandshakeResponse, SslRequest};
use mysql_ok_packets::OkPacket;
use mysql_server_packets::ServerError;
use std::borrow::CowSlice;

/// What a server's first payload says.
///
/// MySQL: Client/Server Protocol, "Connection Phase".
#[derive(Debug, PartialEq, Drop)]
pub enum GreetingEvent<'a> {
    /// The server refuses the connection.
    Rejected(ServerError<'a>),
    /// The server greets, by the protocol of version 10.
    Greeting(HandshakePacket<'a>),
}

/// What a client logs in with.
///
/// MySQL: Client/Server Protocol, "Protocol::HandshakeResponse41".
#[derive(Debug, PartialEq, Drop)]
pub enum LoginResponse<'a> {
    /// All its fields.
    Whole(HandshakeResponse<'a>),
    /// The 32 bytes that stand first, behind which no fields can be read.
    CutOff(SslRequest),
}

impl<'a> LoginResponse<'a> {
    /// The 32 bytes that stand first: what the client can do.
    pub fn request(&self) -> &SslRequest
        ensures { ssl_request_view result.now ≡ first_fields (login_view self.now) }
    {
        match self {
            LoginResponse::Whole(response) => response.request(),
            LoginResponse::CutOff(request) => request,
        }
    }

    /// The plugin that the client answers by, where it names one.
    pub fn auth_plugin(&self) -> Option<&AuthPlugin<'a>>
        ensures { option_map (λ plugin. plugin_view plugin.now) result ≡ login_plugin (login_view self.now) }
    {
        match self {
            LoginResponse::Whole(response) => response.auth_plugin(),
            LoginResponse::CutOff(_) => None,
        }
    }
}

/// What a client's first payload says.
///
/// MySQL: Client/Server Protocol, "Connection Phase".
#[derive(Debug, PartialEq, Drop)]
pub enum ResponseEvent<'a> {
    /// The client goes on by TLS, since both sides have `CLIENT_SSL`.
    SecureRequest(SslRequest),
    /// The client logs in.
    Login(LoginResponse<'a>),
}

/// What a server's payload says while a user is logged in, or changed.
///
/// MySQL: Client/Server Protocol, "Connection Phase", 'Authentication Phase'.
#[derive(Debug, PartialEq, Drop)]
pub enum AuthenticationEvent<'a> {
    /// The user is logged in.
    Accepted(OkPacket<'a>),
    /// The user isn't.
    Denied(ServerError<'a>),
    /// The server goes on with this plugin.
    AuthSwitch(AuthSwitchRequest<'a>),
    /// The server goes on with the plugin of old passwords.
    OldAuthSwitch(OldAuthSwitchRequest),
    /// Data of the plugin, behind 01.
    AuthMore(AuthMoreData<'a>),
    /// The plugin was content, and the server goes on with one more.
    NextFactor(AuthNextFactor<'a>),
    /// Data of the plugin that has no 01 before it: the whole payload.
    PluginData(CowSlice<'a, u8>),
}
