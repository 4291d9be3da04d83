//! What one payload of a connection says.

ghost use Rattle.std.specs.Prelude.{◌≡◌, IfOk, IfSome, List, option_map, ℕ};
ghost use Rattle.mysql_authentication.specs.Views.{authentication_view, greeting_view};
ghost use Rattle.mysql_authentication.specs.Views.{response_event_view};
ghost use Rattle.mysql_commands.specs.Views.{HasUnclear, command_view};
ghost use Rattle.mysql_connection_rules.specs.Events.Event.{Asked, Authentication, Greeting};
ghost use Rattle.mysql_connection_rules.specs.Events.Event.{Replied, Response};
ghost use Rattle.mysql_connection_rules.specs.Events.{side_of};
ghost use Rattle.mysql_connection_rules.specs.Standing.{Standing};
ghost use Rattle.mysql_connection_rules.specs.Steps.{parameters_in_question};
ghost use Rattle.mysql_reply_events.specs.Views.{event_view as reply_view};
ghost use Rattle.mysql_connection_state.specs.Reads.{asked, replied};
ghost use Rattle.mysql_connection_state.specs.Views.{EventHasUnclear, event_view};

use mysql_authentication::{AuthenticationEvent, GreetingEvent, ResponseEvent};
use mysql_bytes::ByteString;
use mysql_commands::Command;
use mysql_connection_rules::Side;
use mysql_reply_events::ReplyEvent;
use mysql_server_packets::ServerError;
use std::alloc::{AllocError, Global};

/// What one payload of a connection says. It borrows nothing; large kinds are in a box, so that an
/// event is moved at little cost.
///
/// Its drop is written out, so that it is one step of a caller's proof. So a `match` borrows what
/// an event holds, and [`Event::into_reply`] and [`Event::into_command`] take it out.
///
/// MySQL: Client/Server Protocol, "Connection Lifecycle", "Connection Phase" and "Command Phase".
pub enum Event {
    /// The server greets, or refuses the connection.
    Greeting(Box<GreetingEvent<'static>>),
    /// The client logs in, or asks for TLS.
    Response(Box<ResponseEvent<'static>>),
    /// A payload of the server's while a user is logged in or changed.
    Authentication(Box<AuthenticationEvent<'static>>),
    /// The client's answer to such a one.
    Answer(ByteString),
    /// What the client asks for.
    Command(Box<Command<'static>>),
    /// What the server replies.
    Reply(Box<ReplyEvent>),
    /// Bytes of a file of the client's that the server asked for. No bytes end the file.
    FileData(ByteString),
    /// The server's last words: an error that answers nothing.
    Farewell(ServerError<'static>),
}

impl Drop for Event {
    fn drop(self) {
        match self {
            Event::Greeting(_said) => {}
            Event::Response(_said) => {}
            Event::Authentication(_said) => {}
            Event::Answer(_bytes) => {}
            Event::Command(_command) => {}
            Event::Reply(_said) => {}
            Event::FileData(_bytes) => {}
            Event::Farewell(_error) => {}
        }
    }
}

impl Event {
    /// The server greets, or refuses the connection.
    ///
    /// # Errors
    /// - `AllocError` when memory runs out.
    pub fn greeting(alloc: Global, said: GreetingEvent<'static>) -> Result<Event, AllocError>
        ensures { IfOk result (λ event. event_view event ≡ Greeting (greeting_view said.entry)) }
    {
        Ok(Event::Greeting(Box::new(alloc, said)?))
    }

    /// The client logs in, or asks for TLS.
    ///
    /// # Errors
    /// - `AllocError` when memory runs out.
    pub fn response(alloc: Global, said: ResponseEvent<'static>) -> Result<Event, AllocError>
        ensures { IfOk result (λ event. event_view event ≡ Response (response_event_view said.entry)) }
    {
        Ok(Event::Response(Box::new(alloc, said)?))
    }

    /// A payload of the server's while a user is logged in or changed.
    ///
    /// # Errors
    /// - `AllocError` when memory runs out.
    pub fn authentication(
        alloc: Global,
        said: AuthenticationEvent<'static>,
    ) -> Result<Event, AllocError>
        ensures { IfOk result (λ event. event_view event ≡
            Authentication (authentication_view said.entry)) }
    {
        Ok(Event::Authentication(Box::new(alloc, said)?))
    }

    /// What the client asks for.
    ///
    /// # Errors
    /// - `AllocError` when memory runs out.
    pub fn command(alloc: Global, command: Command<'static>) -> Result<Event, AllocError>
        ensures same { IfOk result (λ event. event_view event ≡ Asked (command_view command.entry)) }
        ensures unclear { (s : Standing) (payload : List ℕ) →
            HasUnclear s.capabilities (parameters_in_question s.statements payload) payload command.entry →
            IfOk result (λ event. EventHasUnclear s payload event) }
    {
        Ok(Event::Command(Box::new(alloc, command)?))
    }

    /// What the server replies.
    ///
    /// # Errors
    /// - `AllocError` when memory runs out.
    pub fn reply(alloc: Global, said: ReplyEvent) -> Result<Event, AllocError>
        ensures { IfOk result (λ event. event_view event ≡ Replied (reply_view said)) }
    {
        Ok(Event::Reply(Box::new(alloc, said)?))
    }

    /// The side that says it.
    pub fn side(&self) -> Side
        ensures { result ≡ side_of (event_view self.now) }
    {
        match self {
            Event::Greeting(_) => Side::Server,
            Event::Response(_) => Side::Client,
            Event::Authentication(_) => Side::Server,
            Event::Answer(_) => Side::Client,
            Event::Command(_) => Side::Client,
            Event::Reply(_) => Side::Server,
            Event::FileData(_) => Side::Client,
            Event::Farewell(_) => Side::Server,
        }
    }

    /// What the server replies, where it is that.
    pub fn into_reply(self) -> Option<Box<ReplyEvent>>
        ensures { option_map (λ said. reply_view said.value) result ≡ replied (event_view self) }
    {
        match self {
            Event::Reply(said) => Some(said),
            _ => None,
        }
    }

    /// What the client asks for, where it is that.
    pub fn into_command(self) -> Option<Box<Command<'static>>>
        ensures same { option_map (λ command. command_view command.value) result ≡
            asked (event_view self) }
        ensures unclear { (s : Standing) (payload : List ℕ) → EventHasUnclear s payload self →
            IfSome result (λ command. HasUnclear s.capabilities
            (parameters_in_question s.statements payload) payload command.value) }
    {
        match self {
            Event::Command(command) => Some(command),
            _ => None,
        }
    }
}
