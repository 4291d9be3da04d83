//! The values of the event that was told last that servers read each their way.

ghost use Rattle.std.specs.Prelude.{◌≡◌, [], MatchOption, unwrap_or};
ghost use Rattle.std.specs.Option.{option_map};
ghost use Rattle.mysql_executions.specs.Unclear.{is_unclear_at};
ghost use Rattle.mysql_executions.specs.Views.{cells_of, rows_of};
ghost use Rattle.mysql_c_connection_events.specs.Commands.{width_of};
ghost use Rattle.mysql_c_connection.specs.Codes.{code_number};
ghost use Rattle.mysql_c_connection.specs.Unclear.{ShowsUnclear, number_in, read_event, unclear_bytes};
ghost use Rattle.mysql_c_connection.specs.Unclear.{unclear_in};
ghost use Rattle.mysql_c_connection.specs.Values.{unheld_code};

use crate::code::ConnectionCode;
use crate::handle::Handle;
use crate::object::Object;
use mysql_c_handles::start_of;
use mysql_commands::{BulkExecution, Command};
use mysql_connection_state::Event;
use mysql_executions::UnclearCells;
use std::alloc::Global;

/// How many values a row of a bulk execution has.
fn width_of(execution: &BulkExecution) -> usize
    ensures { result ≡ width_of (rows_of execution.now.rows.items) }
{
    match execution.rows.get(0) {
        Some(row) => row.len(),
        None => 0,
    }
}

/// Whether the value of this number in a row of a command is unclear.
fn is_unclear(command: &Command<'_>, row: usize, place: usize) -> bool
    ensures { result ≡ is_unclear_at (unclear_in command.now) (number_in command.now row place) }
{
    match command {
        Command::Execute(execution) => execution.unclear.is_at(place),
        Command::BulkExecute(execution) => match &execution.unclear {
            Some(cells) => {
                let before = row.saturating_mul(width_of(execution));
                cells.first <= before.saturating_add(place)
            }
            None => false,
        },
        _ => false,
    }
}

/// The bytes from a cell on.
fn bytes_of(cells: &Option<UnclearCells>) -> &[u8]
    ensures { result.now ≡ unwrap_or (option_map (λ first. first.1) (cells_of cells.now)) [] }
{
    match cells {
        Some(cells) => cells.bytes.as_slice(),
        None => &[],
    }
}

/// The bytes from the first unclear cell of a command on.
fn unclear_cells<'a>(command: &'a Command<'_>) -> &'a [u8]
    ensures { result.now ≡ unclear_bytes (unclear_in command.now) }
{
    match command {
        Command::Execute(execution) => bytes_of(&execution.unclear.cells),
        Command::BulkExecute(execution) => bytes_of(&execution.unclear),
        _ => &[],
    }
}

/// Tells whether a value of an event is unclear.
fn tell(
    event: &Event,
    row: usize,
    place: usize,
    unclear: &mut bool,
    cells: &mut *const u8,
    len: &mut usize,
)
    ensures { ShowsUnclear event.now row place unclear.new len.new }
{
    let (is_so, bytes): (bool, &[u8]) = match event {
        Event::Command(command) => (is_unclear(command, row, place), unclear_cells(command)),
        _ => (false, &[]),
    };
    *unclear = is_so;
    *cells = start_of(bytes);
    *len = bytes.len();
}

/// Tells whether servers read a value of the event that was told last each their way.
///
/// It is one of an execution or of a row of a bulk execution; attributes are counted behind the
/// parameters. The bytes are those of the command from the first such cell on.
///
/// Promise: exactly the values that are unclear in the event that is held (`ShowsUnclear`).
pub fn connection_unclear(
    alloc: Global,
    handle: &mut Handle,
    row: usize,
    place: usize,
    unclear: &mut bool,
    cells: &mut *const u8,
    len: &mut usize,
) -> u32
    ensures kept { handle.new.object ≡ handle.old.object }
    ensures shown { MatchOption (read_event handle.old.object)
        (result ≡ code_number (unheld_code handle.old.object))
        (λ event. (result ≡ 0) × ShowsUnclear event row place unclear.new len.new) }
{
    let Some(object) = handle.take(alloc) else {
        return ConnectionCode::EmptyHandle.number();
    };
    let code = match &*object {
        Object::Open(open) => match &open.event {
            Some(event) => {
                tell(event, row, place, unclear, cells, len);
                ConnectionCode::Done
            }
            None => ConnectionCode::OutOfRange,
        },
        Object::Empty => ConnectionCode::EmptyHandle,
    };
    handle.put(object);
    code.number()
}
