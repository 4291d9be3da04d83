//! Payloads by which a user is logged in or changed.

ghost use Rattle.std.specs.Prelude.{◌≡◌};
ghost use Rattle.mysql_authentication.specs.Readings.{authentication_at, greeting_at, response_at};
ghost use Rattle.mysql_authentication.specs.Views.{authentication_view, greeting_view};
ghost use Rattle.mysql_authentication.specs.Views.{response_event_view};
ghost use Rattle.mysql_connection_rules.specs.Events as events;
ghost use Rattle.mysql_connection_rules.specs.Steps.{greets_anew, login_fault as login_fault_of};
ghost use Rattle.mysql_connection_rules.specs.Steps.{of_login};
ghost use Rattle.mysql_connection_state.specs.Reads.{Gives};
ghost use Rattle.mysql_connection_state.specs.Views.{event_view};
ghost use Rattle.mysql_connection_state.specs.Peeks.{said_in_exchange, saying};

use crate::Event;
use crate::owned::{owned_authentication, owned_greeting, owned_response};
use mysql_authentication::{
    AuthenticationEvent, GreetingEvent, LoginFault, ResponseEvent, read_authentication,
    read_greeting, read_response,
};
use mysql_connection_rules::{Exchange, Fault};
use mysql_const::CapabilityFlags;
use mysql_reply_events::ReplyFault;
use std::alloc::Global;

// The fault of a payload of logging in.
fn login_fault(fault: LoginFault) -> Fault
    ensures { result ≡ login_fault_of fault }
{
    match fault {
        LoginFault::OldProtocol => Fault::OldProtocol,
        LoginFault::BadGreeting => Fault::BadGreeting,
        LoginFault::BadLogin => Fault::BadLogin,
        LoginFault::BadSwitch => Fault::BadSwitch,
        LoginFault::BadHeader => Fault::BadReply(ReplyFault::BadHeader),
        LoginFault::BadOk => Fault::BadReply(ReplyFault::BadOk),
        LoginFault::BadError => Fault::BadReply(ReplyFault::BadError),
        LoginFault::Memory => Fault::Memory,
    }
}

// The server's first payload, in bytes of its own.
fn greeting(alloc: Global, payload: &[u8]) -> Result<GreetingEvent<'static>, Fault>
    ensures { Gives greeting_view result (of_login (greeting_at payload.now)) }
{
    match read_greeting(alloc, payload) {
        Ok(said) => match owned_greeting(alloc, said) {
            Ok(owned) => Ok(owned),
            Err(_) => Err(Fault::Memory),
        },
        Err(fault) => Err(login_fault(fault)),
    }
}

/// What the server's first payload says.
pub fn peek_greeting(alloc: Global, payload: &[u8]) -> Result<Event, Fault>
    ensures { Gives event_view result (saying events.Greeting (of_login (greeting_at payload.now))) }
{
    let said = greeting(alloc, payload)?;
    Ok(Event::greeting(alloc, said)?)
}

// The client's first payload, in bytes of its own.
fn response(
    alloc: Global,
    server: CapabilityFlags,
    payload: &[u8],
) -> Result<ResponseEvent<'static>, Fault>
    ensures { Gives response_event_view result (of_login (response_at server.0 payload.now)) }
{
    match read_response(alloc, server, payload) {
        Ok(said) => match owned_response(alloc, said) {
            Ok(owned) => Ok(owned),
            Err(_) => Err(Fault::Memory),
        },
        Err(fault) => Err(login_fault(fault)),
    }
}

/// What the client's first payload says, to a server of these capabilities.
pub fn peek_response(alloc: Global, server: CapabilityFlags, payload: &[u8]) -> Result<Event, Fault>
    ensures { Gives event_view result
        (saying events.Response (of_login (response_at server.0 payload.now))) }
{
    let said = response(alloc, server, payload)?;
    Ok(Event::response(alloc, said)?)
}

// A server's payload while a user is logged in or changed, in bytes of its own.
fn authentication(
    alloc: Global,
    capabilities: CapabilityFlags,
    payload: &[u8],
) -> Result<AuthenticationEvent<'static>, Fault>
    ensures { Gives authentication_view result
        (of_login (authentication_at capabilities.0 payload.now)) }
{
    match read_authentication(alloc, capabilities, payload) {
        Ok(said) => match owned_authentication(alloc, said) {
            Ok(owned) => Ok(owned),
            Err(_) => Err(Fault::Memory),
        },
        Err(fault) => Err(login_fault(fault)),
    }
}

/// Whether a payload begins a greeting, by which MariaDB answers a change of user that is its number
/// alone.
///
/// MySQL: Client/Server Protocol, "Protocol::HandshakeV10".
pub fn greets_anew(exchange: Exchange, payload: &[u8]) -> bool
    ensures { result ≡ greets_anew exchange payload.now }
{
    match exchange {
        Exchange::BareChange => match payload {
            [10, ..] => true,
            _ => false,
        },
        _ => false,
    }
}

/// What a server's payload says in an exchange by which a user is logged in or changed.
pub fn peek_authentication(
    alloc: Global,
    exchange: Exchange,
    capabilities: CapabilityFlags,
    payload: &[u8],
) -> Result<Event, Fault>
    ensures { Gives event_view result (said_in_exchange exchange capabilities.0 payload.now) }
{
    if greets_anew(exchange, payload) {
        return Err(Fault::BadGreeting);
    }
    let said = authentication(alloc, capabilities, payload)?;
    Ok(Event::authentication(alloc, said)?)
}
