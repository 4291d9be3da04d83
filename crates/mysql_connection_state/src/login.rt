//! The first payload of each side.

ghost use Rattle.std.specs.Prelude.{◌≡◌, IfOk, OnErr, OnOk, option_map};
ghost use Rattle.mysql_auth.specs.Views.{plugin_view};
ghost use Rattle.mysql_authentication.specs.Events.{login_plugin};
ghost use Rattle.mysql_authentication.specs.Views.{greeting_view, login_view, response_event_view};
ghost use Rattle.mysql_connection_rules.specs.Standing as standing;
ghost use Rattle.mysql_connection_rules.specs.Steps.{after_greeting, after_login, after_response};
ghost use Rattle.mysql_connection_rules.specs.declared.exchange.Exchange.TheVariants as exchanges;

use crate::due::Due;
use crate::state::State;
use mysql_auth::AuthPlugin;
use mysql_authentication::{GreetingEvent, LoginResponse, ResponseEvent};
use mysql_connection_rules::{Exchange, Reason};
use mysql_const::Capabilities;
use mysql_handshake::in_force;
use std::alloc::{AllocError, Global};

// The plugin that a login names.
fn login_plugin(
    alloc: Global,
    login: &LoginResponse,
) -> Result<Option<AuthPlugin<'static>>, AllocError>
    ensures { IfOk result (λ plugin. option_map plugin_view plugin ≡
        login_plugin (login_view login.now)) }
{
    match login.auth_plugin() {
        Some(plugin) => Ok(Some(plugin.clone(alloc)?)),
        None => Ok(None),
    }
}

impl State {
    /// The server greeted, or refused the connection.
    pub(crate) fn greeted(&mut self, said: &GreetingEvent)
        ensures { self.new.standing ≡ after_greeting self.old.standing (greeting_view said.now) }
    {
        match said {
            GreetingEvent::Rejected(_) => self.set_due(Due::Over(Reason::Rejected)),
            GreetingEvent::Greeting(packet) => {
                self.offered = packet.offered();
                self.set_due(Due::Response);
            }
        }
    }

    // The capabilities of both are in force now, and the server answers a login.
    fn agree(&mut self, capabilities: Capabilities)
        ensures { self.new.standing ≡ record self.old.standing {
          phase = standing.Authentication exchanges.Login;
          capabilities = capabilities;
        } }
    {
        self.capabilities = capabilities;
        self.due = Due::Authentication(Exchange::Login);
    }

    // The client logged in.
    fn logged_in(&mut self, login: &LoginResponse) -> Result<(), AllocError>
        ensures ok { OnOk result (self.new.standing ≡ after_login self.old.standing (login_view login.now)) }
        ensures err { OnErr result (self.new ≡ self.old) }
    {
        self.plugin = login_plugin(self.alloc, login)?;
        self.agree(in_force(self.offered, login.request().offered()));
        Ok(())
    }

    /// The client logged in, or asked for TLS.
    pub(crate) fn responded(&mut self, said: &ResponseEvent) -> Result<(), AllocError>
        ensures ok { OnOk result (self.new.standing ≡
            after_response self.old.standing (response_event_view said.now)) }
        ensures err { OnErr result (self.new ≡ self.old) }
    {
        match said {
            ResponseEvent::SecureRequest(_) => {
                self.set_due(Due::Over(Reason::Secure));
                Ok(())
            }
            ResponseEvent::Login(login) => self.logged_in(login),
        }
    }
}
