//! Commands.

ghost use Rattle.std.specs.Prelude.{◌≡◌, OnOk};
ghost use Rattle.std.specs.Option.{option_copied};
ghost use Rattle.mysql_buf.specs.Bytes.{AreBytes};
ghost use Rattle.mysql_commands.specs.Commands.{command_at};
ghost use Rattle.mysql_commands.specs.Views.{command_view};
ghost use Rattle.mysql_command_writer.specs.Refusals.{Puts, cause_against};
ghost use Rattle.mysql_command_writer.specs.Written.{command_bytes};
ghost use Rattle.mysql_connection_rules.specs.Events as events;
ghost use Rattle.mysql_connection_writer.specs.Commands.{command_payload, parameters_named, statement_named};
ghost use Rattle.mysql_connection_writer.specs.Fits.{IdFits};
ghost use Rattle.mysql_connection_writer.specs.Refusals.{refusal_of_command};
ghost use Rattle.mysql_connection_writer.specs.Writes.{Writes, WritesEvent};
ghost use Rattle.mysql_connection_writer.specs.declared.refusal.BadEvent.TheVariants as bad;

use crate::own::{id_of, id_of_bulk, is_own_command, values_fit};
use crate::phases::awaits_command;
use crate::refusal::{BadEvent, EventRefusal};
use mysql_buf::laws::are_bytes;
use mysql_command_writer::laws::{put_values_are_counted, read_commands_are_put};
use mysql_command_writer::{CommandRefusal, put_command};
use mysql_commands::Command;
use mysql_connection_state::State;
use mysql_const::Capabilities;
use mysql_executions::StatementParameters;

// The refusal of a command.
fn refusal_of_command(refusal: CommandRefusal) -> EventRefusal
    ensures { result ≡ refusal_of_command refusal }
{
    match refusal {
        CommandRefusal::Memory => EventRefusal::Memory,
        cause => EventRefusal::BadEvent(BadEvent::Command(cause)),
    }
}

// The id of the statement that a command is about.
fn statement_named(command: &Command) -> Option<u32>
    ensures named { result ≡ statement_named (command_view command.now) }
    ensures fits { IdFits (command_view command.now) }
{
    match command {
        Command::Execute(execution) => Some(id_of(execution)),
        Command::BulkExecute(execution) => Some(id_of_bulk(execution)),
        Command::LongData { stmt_id, .. } => Some(*stmt_id),
        Command::Close(id) | Command::ResetStatement(id) => Some(*id),
        Command::Fetch { stmt_id, .. } => Some(*stmt_id),
        Command::Other(payload) => Command::statement_id(payload.as_slice()),
        _ => None,
    }
}

// Puts a command: what was put are bytes.
fn put_bytes(
    capabilities: Capabilities,
    parameters: Option<&StatementParameters>,
    command: &Command,
    out: &mut Vec<u8>,
) -> Result<(), CommandRefusal>
    ensures puts { Puts capabilities (option_copied parameters.entry) (command_view command.now) out.old.items
        out.new.items result }
    ensures bytes { OnOk result (AreBytes
        (command_bytes capabilities (option_copied parameters.entry) (command_view command.now))) }
{
    let len = out.len();
    put_command(*out.allocator(), capabilities, parameters, command, out)?;
    are_bytes(&out[len..]);
    Ok(())
}

// Puts a command that is read as it is, by what is in force of its statement's parameters.
fn put_own(
    capabilities: Capabilities,
    parameters: Option<&StatementParameters>,
    command: &Command,
    out: &mut Vec<u8>,
) -> Result<(), EventRefusal>
    ensures { Writes (λ payload. command_at capabilities (option_copied parameters.entry) payload ≡
        command_view command.now)
        (command_payload capabilities (option_copied parameters.entry) (command_view command.now))
        (bad.Command (cause_against capabilities (option_copied parameters.entry) (command_view command.now)))
        out.old.items out.new.items result }
{
    read_commands_are_put();
    put_values_are_counted();
    values_fit(command)?;
    let len = out.len();
    if let Err(refusal) = put_bytes(capabilities, parameters, command, out) {
        return Err(refusal_of_command(refusal));
    }
    if is_own_command(command) {
        return Ok(());
    }
    out.truncate(len);
    Err(EventRefusal::BadEvent(BadEvent::Command(CommandRefusal::ReadsOtherwise)))
}

// What is in force of the parameters of the statement that a command is about.
fn parameters_named<'s>(state: &'s State, command: &Command) -> Option<&'s StatementParameters>
    ensures named { option_copied result ≡
        parameters_named state.now.standing.statements (command_view command.now) }
    ensures fits { IdFits (command_view command.now) }
{
    match statement_named(command) {
        Some(id) => state.parameters_for(id),
        None => None,
    }
}

/// Writes a command.
pub fn write_command(
    state: &State,
    command: &Command,
    out: &mut Vec<u8>,
) -> Result<(), EventRefusal>
    ensures { WritesEvent state.now.standing (events.Asked (command_view command.now)) out.old.items
        out.new.items result }
{
    if awaits_command(state) {
        let parameters = parameters_named(state, command);
        put_own(state.capabilities(), parameters, command, out)
    } else {
        Err(EventRefusal::BadEvent(BadEvent::ReadsOtherwise))
    }
}
