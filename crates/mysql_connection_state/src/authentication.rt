//! Payloads by which a user is logged in or changed.

ghost use Rattle.std.specs.Prelude.{◌≡◌, OnErr, OnOk, Some, if◌then◌else◌, option_map};
ghost use Rattle.mysql_auth.specs.Views.{plugin_view};
ghost use Rattle.mysql_authentication.specs.Views.{authentication_view};
ghost use Rattle.mysql_connection_rules.specs.Standing as phases;
ghost use Rattle.mysql_connection_rules.specs.Steps.{after_acceptance, after_authentication, after_denial};
ghost use Rattle.mysql_connection_rules.specs.Steps.{answered as answered_by};
ghost use Rattle.mysql_connection_rules.specs.Steps.{in_phase};
ghost use Rattle.mysql_connection_rules.specs.Steps.{is_compressed};
ghost use Rattle.mysql_connection_rules.specs.Steps.{is_fast, with_plugin};

use crate::due::Due;
use crate::state::State;
use bitflags::Flags;
use mysql_auth::AuthPlugin;
use mysql_authentication::AuthenticationEvent;
use mysql_connection_rules::{Exchange, Reason};
use mysql_const::{Capabilities, CapabilityFlags};
use std::alloc::AllocError;

// What follows a login is compressed.
fn is_compressed(capabilities: Capabilities) -> bool
    ensures { result ≡ is_compressed capabilities }
{
    capabilities
        .protocol
        .contains(CapabilityFlags::CLIENT_COMPRESS)
        || capabilities
            .protocol
            .contains(CapabilityFlags::CLIENT_ZSTD_COMPRESSION_ALGORITHM)
}

// The server has answered: a change of user that was its number alone is as any other then.
fn answered(exchange: Exchange) -> Exchange
    ensures { result ≡ answered_by exchange }
{
    match exchange {
        Exchange::Login => Exchange::Login,
        Exchange::ChangeUser | Exchange::BareChange => Exchange::ChangeUser,
    }
}

// The plugin that caches SHA-256 was content with what it had: the server speaks once more.
fn is_fast(plugin: &Option<AuthPlugin>, bytes: &[u8]) -> bool
    ensures { result ≡ is_fast (option_map plugin_view plugin.now) bytes.now }
{
    match plugin {
        Some(AuthPlugin::CachingSha2Password) => bytes == [3].as_slice(),
        _ => false,
    }
}

impl State {
    // The user is logged in, or changed.
    fn accepted(&mut self, exchange: Exchange)
        ensures { self.new.standing ≡ after_acceptance exchange self.old.standing }
    {
        match exchange {
            Exchange::Login => {
                if is_compressed(self.capabilities) {
                    self.set_due(Due::Over(Reason::Compressed));
                } else {
                    self.set_due(Due::Command);
                }
            }
            Exchange::ChangeUser | Exchange::BareChange => self.set_due(Due::Command),
        }
    }

    // The user isn't: behind a change of user the connection goes on.
    fn denied(&mut self, exchange: Exchange)
        ensures { self.new.standing ≡ after_denial exchange self.old.standing }
    {
        match exchange {
            Exchange::Login => self.set_due(Due::Over(Reason::Denied)),
            Exchange::ChangeUser | Exchange::BareChange => self.set_due(Due::Command),
        }
    }

    // The server goes on with this plugin.
    fn switched(&mut self, exchange: Exchange, plugin: AuthPlugin<'static>)
        ensures { self.new.standing ≡ with_plugin exchange (Some (plugin_view plugin.entry)) self.old.standing }
    {
        self.plugin = Some(plugin);
        self.set_due(Due::Answer(answered(exchange)));
    }

    // The plugin stays, whose data came.
    fn went_on(&mut self, exchange: Exchange)
        ensures { self.new.standing ≡ with_plugin exchange self.old.standing.plugin self.old.standing }
    {
        self.set_due(Due::Answer(answered(exchange)));
    }

    // Data of the plugin came, behind 01.
    fn more_came(&mut self, exchange: Exchange, bytes: &[u8])
        ensures { self.new.standing ≡ (if is_fast self.old.standing.plugin bytes.now
            then in_phase (phases.Authentication (answered_by exchange)) self.old.standing
            else with_plugin exchange self.old.standing.plugin self.old.standing) }
    {
        if is_fast(&self.plugin, bytes) {
            self.set_due(Due::Authentication(answered(exchange)));
        } else {
            self.went_on(exchange);
        }
    }

    /// What stands behind a server's payload.
    pub(crate) fn follow_authentication(
        &mut self,
        exchange: Exchange,
        said: &AuthenticationEvent,
    ) -> Result<(), AllocError>
        ensures ok { OnOk result (self.new.standing ≡
            after_authentication exchange self.old.standing (authentication_view said.now)) }
        ensures err { OnErr result (self.new ≡ self.old) }
    {
        match said {
            AuthenticationEvent::Accepted(_) => {
                self.accepted(exchange);
                Ok(())
            }
            AuthenticationEvent::Denied(_) => {
                self.denied(exchange);
                Ok(())
            }
            AuthenticationEvent::AuthSwitch(request) => {
                let plugin = request.auth_plugin().into_owned(self.alloc)?;
                self.switched(exchange, plugin);
                Ok(())
            }
            AuthenticationEvent::OldAuthSwitch(request) => {
                self.switched(exchange, request.auth_plugin());
                Ok(())
            }
            AuthenticationEvent::AuthMore(more) => {
                self.more_came(exchange, more.data());
                Ok(())
            }
            AuthenticationEvent::NextFactor(request) => {
                let plugin = request.auth_plugin().into_owned(self.alloc)?;
                self.switched(exchange, plugin);
                Ok(())
            }
            AuthenticationEvent::PluginData(_) => {
                self.went_on(exchange);
                Ok(())
            }
        }
    }
}
