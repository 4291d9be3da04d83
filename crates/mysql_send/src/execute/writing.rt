//! Parameter sets written as executions.

ghost use Rattle.std.specs.Prelude.{◌≤◌, IfErr, OnOk};
ghost use Rattle.mysql_command_rules.specs.Sets.{all_given};
ghost use Rattle.mysql_command_rules.specs.Writing.{Stops, Writes};
ghost use Rattle.mysql_command_rules.specs.declared.road.Road.TheVariants as roads;

use crate::execute::executions::put_set;
use crate::execute::statement::{Statement, put_prepare};
use mysql_command_rules::in_turn::{sent_in_turn, written_in_turn};
use mysql_command_rules::{SendToError, flush, flush_set};
use mysql_values::Params;
use std::alloc::Global;
use std::io::Write;

/// Writes the executions that [`put_executions`](crate::put_executions) appends, some at a time.
///
/// Promise: the writer is given exactly the bytes that are appended else. Where not all are, it is
/// given all sets before the refused one, each whole, or a prefix (`Writes`, `Stops`).
///
/// # Errors
/// - `Refused` with the first cause that holds, in the order of
///   [`Refusal`](mysql_command_rules::Refusal). `TooManyPlaces` and `PrepareTooLarge` come before
///   anything is written. Set by set come `Params`, `WrongCount`, `Float`, `PacketTooLarge`, and
///   `Memory` where a growth was refused. The prepare and all sets before that one are written then.
/// - `Io` where the writer fails: it has taken a front of what carries the first sets, and not all
///   of it.
///
/// MySQL: Client/Server Protocol, "COM_STMT_PREPARE", "COM_STMT_SEND_LONG_DATA",
/// "COM_STMT_EXECUTE".
pub fn write_executions<W: Write>(
    alloc: Global,
    statement: &Statement<'_>,
    sets: &[Params],
    limit: usize,
    to: &mut W,
) -> Result<(), SendToError>
    requires { 4 ≤ limit }
    ensures ok { OnOk result
        (Writes roads.Execute statement.now.sql (all_given sets.now) statement.now.id limit
        (W.contents to.old) (W.contents to.new)) }
    ensures err { IfErr result
        (Stops roads.Execute statement.now.sql sets.now statement.now.id limit
        (W.contents to.old) (W.contents to.new)) }
{
    sent_in_turn();
    written_in_turn();
    let (mut buffer, mut values, mut command) = (Vec::new(alloc), Vec::new(alloc), Vec::new(alloc));
    if let Err(refusal) = put_prepare(alloc, statement, limit - 4, &mut buffer) {
        return Err(SendToError::Refused(refusal, 0));
    }
    'sets: for (set, params) in sets.iter().enumerate() {
        let start = buffer.len();
        let put = put_set(
            statement,
            set,
            params,
            limit,
            &mut values,
            &mut command,
            &mut buffer,
        );
        flush_set(put, set, start, &mut buffer, to)?;
    }
    flush(&mut buffer, to)?;
    Ok(())
}
