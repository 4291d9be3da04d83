//! Commands.

ghost use Rattle.std.specs.Prelude.{◌≡◌, IfOk, Ok};
ghost use Rattle.std.specs.Option.{option_copied};
ghost use Rattle.mysql_commands.specs.Commands.{command_at};
ghost use Rattle.mysql_commands.specs.Views.{HasUnclear, command_view};
ghost use Rattle.mysql_connection_rules.specs.Events as events;
ghost use Rattle.mysql_connection_rules.specs.Steps as steps;
ghost use Rattle.mysql_connection_state.specs.Reads.{Gives};
ghost use Rattle.mysql_connection_state.specs.Views.{EventHasUnclear, event_view};

use crate::{Event, State};
use mysql_commands::Command;
use mysql_connection_rules::Fault;
use mysql_executions::StatementParameters;
use std::alloc::{AllocError, Global};

impl State {
    // What is in force of the parameters of the statement that a command is about.
    fn parameters_in_question(&self, payload: &[u8]) -> Option<&StatementParameters>
        ensures { option_copied result ≡
            steps.parameters_in_question self.now.standing.statements payload.now }
    {
        match Command::statement_id(payload) {
            Some(id) => self.parameters_for(id),
            None => None,
        }
    }

    /// What a command says, as it lies in its payload.
    pub(crate) fn command_in<'p>(&self, payload: &'p [u8]) -> Result<Command<'p>, AllocError>
        ensures reads { IfOk result (λ command. command_view command ≡
            command_at self.now.standing.capabilities
            (steps.parameters_in_question self.now.standing.statements payload.now) payload.now) }
        ensures unclear { IfOk result (λ command. HasUnclear self.now.standing.capabilities
            (steps.parameters_in_question self.now.standing.statements payload.now) payload.now
            command) }
    {
        let parameters = self.parameters_in_question(payload);
        Command::read(self.alloc, self.capabilities(), parameters, payload)
    }

    /// That, in a box: its drop is one step of a caller's proof.
    pub(crate) fn boxed_command<'p>(
        &self,
        payload: &'p [u8],
    ) -> Result<Box<Command<'p>>, AllocError>
        ensures { IfOk result (λ command. command_view command.value ≡
            command_at self.now.standing.capabilities
            (steps.parameters_in_question self.now.standing.statements payload.now) payload.now) }
    {
        let command = self.command_in(payload)?;
        Ok(Box::new(self.alloc, command)?)
    }
}

/// What a command says, by what is in force of the statement that it is about.
pub fn peek_command(alloc: Global, state: &State, payload: &[u8]) -> Result<Event, Fault>
    ensures reads { Gives event_view result (Ok (events.Asked (command_at
        state.now.standing.capabilities
        (steps.parameters_in_question state.now.standing.statements payload.now) payload.now))) }
    ensures unclear { IfOk result (λ event. EventHasUnclear state.now.standing payload.now event) }
{
    let command = state.command_in(payload)?.into_owned(alloc)?;
    Ok(Event::command(alloc, command)?)
}
