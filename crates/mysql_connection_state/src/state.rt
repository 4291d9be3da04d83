//! What stands of a connection between two payloads.

ghost use Rattle.std.specs.Prelude.{◌≡◌, option_map};
ghost use Rattle.std.specs.Option.{option_and_then, option_copied};
ghost use Rattle.mysql_auth.specs.Views.{plugin_view};
ghost use Rattle.mysql_connection_statements.specs.Statements.{resolved, statement_at};
ghost use Rattle.mysql_connection_rules.specs.Standing.{about_size, at_first, kept, logged_in, phase_size};
ghost use Rattle.mysql_connection_rules.specs.Steps.{in_phase, turn};
ghost use Rattle.mysql_connection_rules.specs.Streams.{is_client, number_in, numbered};
ghost use Rattle.mysql_connection_state.specs.Reads.{IsCount};
ghost use Rattle.mysql_connection_state.specs.Views.{Fits, about_view, phase_view, plain_phase};

use crate::due::{About, Due};
use crate::phase::Phase;
use mysql_auth::AuthPlugin;
use mysql_connection_rules::Side;
use mysql_connection_statements::Statements;
use mysql_const::{Capabilities, CapabilityFlags, MariadbCapabilities};
use mysql_executions::StatementParameters;
use std::alloc::Global;
use std::marker::Model;

/// What stands of a connection between two payloads.
///
/// That is what is due, the number that is due, and the prepared statements. With them stand the
/// capabilities that the server offers, those in force, and the plugin in force.
///
/// Contracts see it as a `ConnectionState`: a `Standing`, and what reads rows where they lie.
///
/// MySQL: Client/Server Protocol, "Connection Phase", "Prepared Statements" and "Sequence ID".
pub struct State {
    pub(crate) alloc: Global,
    pub(crate) due: Due,
    number: u8,
    answers: bool,
    pub(crate) offered: Capabilities,
    pub(crate) capabilities: Capabilities,
    pub(crate) plugin: Option<AuthPlugin<'static>>,
    pub(crate) statements: Statements,
}

impl Model for State {
    ghost use Rattle.mysql_connection_state.specs.Views.{ConnectionState};

    ghost Value = { ConnectionState };

    ghost use Rattle.std.specs.Prelude.{option_map};
    ghost use Rattle.mysql_auth.specs.Views.{plugin_view};
    ghost use Rattle.mysql_connection_state.specs.Views.{Fits, phase_view, rows_of};

    ghost view = { λ s. record {
      standing = record {
        phase = phase_view s.due;
        number = s.number;
        answers = s.answers;
        offered = s.offered;
        capabilities = s.capabilities;
        plugin = option_map plugin_view s.plugin;
        statements = s.statements;
      };
      rows = rows_of s.due;
    } };

    ghost invariant = { λ s. Fits s.capabilities s.due };
}

// Written out, so that who owns a state lets it go in one step.
impl Drop for State {
    fn drop(self) {
        let State {
            alloc: _,
            due: _due,
            number: _,
            answers: _,
            offered: _,
            capabilities: _,
            plugin: _plugin,
            statements: _statements,
        } = self;
    }
}

/// The capabilities of a side that none are known of.
fn no_capabilities() -> Capabilities
    ensures { result ≡ at_first.offered }
{
    Capabilities {
        protocol: CapabilityFlags(0),
        mariadb: MariadbCapabilities(0),
    }
}

// A command's packets are numbered from 0.
fn number_in(due: &Due, number: u8) -> u8
    ensures { result ≡ number_in (phase_view due.now) number }
{
    match due {
        Due::Command => 0,
        _ => number,
    }
}

// What is kept for what a reply is about, beside its statement. None where it is more than a
// `usize` holds.
fn about_size(statements: &Statements, about: &About) -> Option<usize>
    ensures { IsCount (about_size statements.now (about_view about.now)) result }
{
    match about {
        About::Preparing { text: _, size } => Some(*size),
        About::Executing(pending) => statements.pending_size(pending),
        _ => Some(0),
    }
}

fn is_client(side: Side) -> bool
    ensures { result ≡ is_client side }
{
    match side {
        Side::Client => true,
        Side::Server => false,
    }
}

impl State {
    /// A connection of which no byte came: the server's greeting is due.
    pub fn new(alloc: Global) -> State
        ensures { result.standing ≡ at_first }
    {
        State {
            alloc,
            due: Due::Greeting,
            number: 0,
            answers: false,
            offered: no_capabilities(),
            capabilities: no_capabilities(),
            plugin: None,
            statements: Statements::new(alloc),
        }
    }

    /// A connection behind a login that was made elsewhere: by these capabilities, which both sides
    /// have, a command is due.
    pub fn after_login(alloc: Global, capabilities: Capabilities) -> State
        ensures { result.standing ≡ logged_in capabilities }
    {
        State {
            alloc,
            due: Due::Command,
            number: 0,
            answers: false,
            offered: capabilities,
            capabilities,
            plugin: None,
            statements: Statements::new(alloc),
        }
    }

    /// This is due now.
    pub(crate) fn set_due(&mut self, due: Due)
        requires { Fits self.old.standing.capabilities due }
        ensures { self.new.standing ≡ in_phase (phase_view due) self.old.standing }
    {
        self.due = due;
    }

    /// A packet of a side was read, behind which this number is due. A command begins anew at 0.
    pub fn set_number(&mut self, side: Side, next: u8)
        ensures standing { self.new.standing ≡ numbered side next self.old.standing }
        ensures rows { self.new.rows ≡ self.old.rows }
    {
        self.number = number_in(&self.due, next);
        self.answers = is_client(side);
    }

    /// Whose payload is due: nobody's where the connection is over.
    pub fn turn(&self) -> Option<Side>
        ensures { result ≡ turn self.now.standing.phase }
    {
        match &self.due {
            Due::Greeting | Due::Authentication(_) => Some(Side::Server),
            Due::Response | Due::Answer(_) | Due::Command => Some(Side::Client),
            Due::Reply(reply) => Some(reply.side()),
            Due::Over(_) => None,
        }
    }

    /// What is due.
    pub fn phase(&self) -> Phase
        ensures { result ≡ plain_phase self.now.standing.phase }
    {
        match &self.due {
            Due::Greeting => Phase::Greeting,
            Due::Response => Phase::Response,
            Due::Authentication(_) => Phase::Authentication,
            Due::Answer(_) => Phase::Answer,
            Due::Command => Phase::Command,
            Due::Reply(reply) => reply.plain_phase(),
            Due::Over(reason) => Phase::Over(*reason),
        }
    }

    /// The number that is due of the next packet.
    pub fn number(&self) -> u8
        ensures { result ≡ self.now.standing.number }
    {
        self.number
    }

    /// Whether the payload that came last is the client's, so that the server answers.
    pub fn answers(&self) -> bool
        ensures { result ≡ self.now.standing.answers }
    {
        self.answers
    }

    /// The capabilities that the server offers: none before its greeting.
    pub fn offered(&self) -> Capabilities
        ensures { result ≡ self.now.standing.offered }
    {
        self.offered
    }

    /// The capabilities in force: none before the client's response.
    pub fn capabilities(&self) -> Capabilities
        ensures { result ≡ self.now.standing.capabilities }
    {
        self.capabilities
    }

    /// The plugin in force.
    pub fn plugin(&self) -> Option<&AuthPlugin<'static>>
        ensures { option_map (λ plugin. plugin_view plugin.now) result ≡ self.now.standing.plugin }
    {
        self.plugin.as_ref()
    }

    /// The prepared statements.
    pub fn statements(&self) -> &Statements
        ensures { result.now ≡ self.now.standing.statements }
    {
        &self.statements
    }

    /// What is in force of the parameters of the statement that an id stands for.
    ///
    /// 0xffffffff stands for the statement that was prepared last.
    ///
    /// MariaDB: Client/Server Protocol, "COM_STMT_EXECUTE".
    pub fn parameters_for(&self, id: u32) -> Option<&StatementParameters>
        ensures { option_copied result ≡ option_map (λ statement. statement.parameters)
            (option_and_then (statement_at self.now.standing.statements)
            (resolved self.now.standing.statements id)) }
    {
        match self.statements.get(self.statements.resolve(id)?) {
            Some(statement) => Some(statement.parameters()),
            None => None,
        }
    }

    // What is kept for the reply that is due.
    fn due_size(&self) -> Option<usize>
        ensures { IsCount (phase_size self.now.standing.statements self.now.standing.phase) result }
    {
        let Due::Reply(reply) = &self.due else {
            return Some(0);
        };
        let about = about_size(&self.statements, &reply.about)?;
        let coming = reply.coming.checked_add(about)?;
        reply.earlier.checked_add(coming)
    }

    /// How many bytes are kept, of statements, columns, types and long data. None where they are
    /// more than a `usize` holds.
    ///
    /// Promise: exactly the sum (`kept`).
    pub fn kept(&self) -> Option<usize>
        ensures { IsCount (kept self.now.standing) result }
    {
        let due = self.due_size()?;
        self.statements.stored().checked_add(due)
    }
}
