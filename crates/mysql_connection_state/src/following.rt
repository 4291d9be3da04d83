//! What stands behind an event that a payload says, read or put: all or nothing.

ghost use Rattle.std.specs.Prelude.{◌≡◌, OnErr};
ghost use Rattle.mysql_authentication.specs.Views.{authentication_view, greeting_view};
ghost use Rattle.mysql_authentication.specs.Views.{response_event_view};
ghost use Rattle.mysql_connection_rules.specs.Standing as phases;
ghost use Rattle.mysql_connection_rules.specs.Standing.{phase_size};
ghost use Rattle.mysql_connection_rules.specs.Steps.{after_authentication, after_greeting};
ghost use Rattle.mysql_connection_rules.specs.Steps.{after_response, in_phase};
ghost use Rattle.mysql_connection_rules.specs.declared.exchange.Exchange.{Exchange as ExchangeOf};
ghost use Rattle.mysql_connection_state.specs.Follows.{FollowsEvent, Goes, HasRoom};
ghost use Rattle.mysql_connection_state.specs.Follows.{exchange_due};
ghost use Rattle.mysql_connection_state.specs.Views.{Fits, event_view, phase_view};
ghost use Rattle.mysql_connection_state.specs.declared.following.FollowRefusal.TheVariants.{Memory};

use crate::due::Due;
use crate::event::Event;
use crate::state::State;
use mysql_authentication::{AuthenticationEvent, GreetingEvent, ResponseEvent};
use mysql_connection_rules::{Exchange, Reason};
use std::alloc::AllocError;
use thiserror::Error;

/// Why a state doesn't go on behind an event.
///
/// MySQL: Client/Server Protocol, "Connection Lifecycle" and "Prepared Statements".
#[derive(Clone, Copy, Debug, PartialEq, Eq, Error)]
pub enum FollowRefusal {
    /// More would be kept than there is room for.
    #[error("more would be kept than there is room for")]
    Held,
    /// Memory ran out.
    #[error("out of memory")]
    Memory,
}

impl From<AllocError> for FollowRefusal {
    ghost from_gives = { λ _ refusal. refusal ≡ Memory };

    fn from(_: AllocError) -> FollowRefusal {
        FollowRefusal::Memory
    }
}

/// What would be kept is within the room.
pub(crate) fn fit(size: u128, room: u128) -> Result<(), FollowRefusal>
    ensures { HasRoom size room result }
{
    if size <= room {
        Ok(())
    } else {
        Err(FollowRefusal::Held)
    }
}

impl State {
    // The server greeted, or refused the connection.
    fn pass_greeting(&mut self, said: &GreetingEvent, room: u128) -> Result<(), FollowRefusal>
        ensures { Goes self.old (after_greeting self.old.standing (greeting_view said.now)) room
            result self.new }
    {
        fit(self.statements.stored() as u128, room)?;
        self.greeted(said);
        Ok(())
    }

    // The client logged in, or asked for TLS.
    fn pass_response(&mut self, said: &ResponseEvent, room: u128) -> Result<(), FollowRefusal>
        ensures { Goes self.old (after_response self.old.standing (response_event_view said.now))
            room result self.new }
    {
        fit(self.statements.stored() as u128, room)?;
        self.responded(said)?;
        Ok(())
    }

    // The server spoke while a user is logged in or changed.
    fn pass_authentication(
        &mut self,
        exchange: Exchange,
        said: &AuthenticationEvent,
        room: u128,
    ) -> Result<(), FollowRefusal>
        ensures { Goes self.old (after_authentication exchange self.old.standing
            (authentication_view said.now)) room result self.new }
    {
        fit(self.statements.stored() as u128, room)?;
        self.follow_authentication(exchange, said)?;
        Ok(())
    }

    // This phase is due, behind which nothing is kept beside statements.
    fn pass_to(&mut self, due: Due, room: u128) -> Result<(), FollowRefusal>
        requires fits { Fits self.old.standing.capabilities due }
        requires quiet { phase_size self.old.standing.statements (phase_view due) ≡ 0 }
        ensures { Goes self.old (in_phase (phase_view due) self.old.standing) room result self.new }
    {
        fit(self.statements.stored() as u128, room)?;
        self.set_due(due);
        Ok(())
    }

    /// Goes on behind the event that this payload says, read or put.
    ///
    /// So much room there is for what is kept.
    ///
    /// The number of the next packet stays as it is: [`State::set_number`] comes behind. Of a payload
    /// that doesn't say this event where it stands nothing is promised, but that a refusal changes
    /// nothing.
    ///
    /// Promise: where the payload says the event, exactly that stands to which the table of steps
    /// leads, or nothing changes (`FollowsEvent`).
    ///
    /// # Errors
    /// - `Held` where more would be kept than there is room for.
    /// - `Memory`.
    ///
    /// After an error the state is as it was.
    ///
    /// MySQL: Client/Server Protocol, "Connection Phase" and "Command Phase".
    pub fn follow(&mut self, event: &Event, payload: &[u8], room: u128) -> Result<(), FollowRefusal>
        ensures { FollowsEvent self.old (event_view event.now) payload.now room result self.new }
    {
        match event {
            Event::Greeting(said) => self.pass_greeting(said, room),
            Event::Response(said) => self.pass_response(said, room),
            Event::Authentication(said) => match self.exchange() {
                Some(exchange) => self.pass_authentication(exchange, said, room),
                None => Ok(()),
            },
            Event::Answer(_) => self.pass_answer(room),
            Event::Command(command) => self.pass_command(command, payload, room),
            Event::Reply(said) => self.pass_reply(said, payload, room),
            Event::FileData(_) => self.pass_file_data(payload, room),
            Event::Farewell(_) => self.pass_to(Due::Over(Reason::Farewell), room),
        }
    }

    // The client answered while a user is logged in or changed.
    fn pass_answer(&mut self, room: u128) -> Result<(), FollowRefusal>
        ensures goes { (exchange : ExchangeOf) → self.old.standing.phase ≡ phases.Answer exchange →
            Goes self.old (in_phase (phases.Authentication exchange) self.old.standing) room result
            self.new }
        ensures err { OnErr result (self.new ≡ self.old) }
    {
        match &self.due {
            Due::Answer(exchange) => {
                let exchange = *exchange;
                self.pass_to(Due::Authentication(exchange), room)
            }
            _ => Ok(()),
        }
    }

    /// What the authentication is for, a payload of which the server is due to send.
    ///
    /// MySQL: Client/Server Protocol, "Authentication Phase" and "COM_CHANGE_USER".
    pub fn exchange(&self) -> Option<Exchange>
        ensures { result ≡ exchange_due self.now.standing.phase }
    {
        match &self.due {
            Due::Authentication(exchange) => Some(*exchange),
            _ => None,
        }
    }
}
