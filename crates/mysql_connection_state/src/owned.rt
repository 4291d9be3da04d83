//! What the payloads of logging in say, in bytes of their own.

ghost use Rattle.std.specs.Prelude.{◌≡◌, IfOk};
ghost use Rattle.mysql_authentication.specs.Views.{authentication_view, greeting_view, login_view};
ghost use Rattle.mysql_authentication.specs.Views.{response_event_view};

use mysql_auth::OldAuthSwitchRequest;
use mysql_authentication::{AuthenticationEvent, GreetingEvent, LoginResponse, ResponseEvent};
use mysql_fields::own_bytes;
use std::alloc::{AllocError, Global};

/// A server's first payload.
pub fn owned_greeting(
    alloc: Global,
    said: GreetingEvent,
) -> Result<GreetingEvent<'static>, AllocError>
    ensures { IfOk result (λ owned. greeting_view owned ≡ greeting_view said.entry) }
{
    match said {
        GreetingEvent::Rejected(error) => Ok(GreetingEvent::Rejected(error.into_owned(alloc)?)),
        GreetingEvent::Greeting(packet) => Ok(GreetingEvent::Greeting(packet.into_owned(alloc)?)),
    }
}

// What a client logs in with.
fn owned_login(alloc: Global, login: LoginResponse) -> Result<LoginResponse<'static>, AllocError>
    ensures { IfOk result (λ owned. login_view owned ≡ login_view login.entry) }
{
    match login {
        LoginResponse::Whole(response) => Ok(LoginResponse::Whole(response.clone(alloc)?)),
        LoginResponse::CutOff(request) => Ok(LoginResponse::CutOff(request)),
    }
}

/// A client's first payload.
pub fn owned_response(
    alloc: Global,
    said: ResponseEvent,
) -> Result<ResponseEvent<'static>, AllocError>
    ensures { IfOk result (λ owned. response_event_view owned ≡ response_event_view said.entry) }
{
    match said {
        ResponseEvent::SecureRequest(request) => Ok(ResponseEvent::SecureRequest(request)),
        ResponseEvent::Login(login) => Ok(ResponseEvent::Login(owned_login(alloc, login)?)),
    }
}

/// A server's payload of an authentication.
pub fn owned_authentication(
    alloc: Global,
    said: AuthenticationEvent,
) -> Result<AuthenticationEvent<'static>, AllocError>
    ensures { IfOk result (λ owned. authentication_view owned ≡ authentication_view said.entry) }
{
    match said {
        AuthenticationEvent::Accepted(packet) => {
            Ok(AuthenticationEvent::Accepted(packet.into_owned(alloc)?))
        }
        AuthenticationEvent::Denied(error) => {
            Ok(AuthenticationEvent::Denied(error.into_owned(alloc)?))
        }
        AuthenticationEvent::AuthSwitch(request) => {
            Ok(AuthenticationEvent::AuthSwitch(request.into_owned(alloc)?))
        }
        AuthenticationEvent::OldAuthSwitch(_) => {
            Ok(AuthenticationEvent::OldAuthSwitch(OldAuthSwitchRequest))
        }
        AuthenticationEvent::AuthMore(more) => {
            Ok(AuthenticationEvent::AuthMore(more.into_owned(alloc)?))
        }
        AuthenticationEvent::NextFactor(request) => {
            Ok(AuthenticationEvent::NextFactor(request.into_owned(alloc)?))
        }
        AuthenticationEvent::PluginData(bytes) => {
            Ok(AuthenticationEvent::PluginData(own_bytes(alloc, bytes)?))
        }
    }
}
