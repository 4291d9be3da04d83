//! Parameter sets that are made when their turn comes, as executions.

ghost use Rattle.std.specs.Prelude.{◌≡◌, ◌-◌, ◌≤◌, IfErr, OnOk, length, take};
ghost use Rattle.mysql_command_rules.specs.MadeSets.{AllMade};
ghost use Rattle.mysql_command_rules.specs.Reading.{SentReadable};
ghost use Rattle.mysql_command_rules.specs.Sending.{RefusesGiven};
ghost use Rattle.mysql_command_rules.specs.declared.road.Road.TheVariants as roads;

use crate::execute::executions::put_set;
use crate::execute::statement::{Statement, put_prepare};
use mysql_command_rules::in_turn::{made_in_turn, sent_in_turn};
use mysql_command_rules::{Refusal, SetMaker, made_set};
use std::alloc::Global;

/// Appends what [`put_executions`](crate::put_executions) appends, each set made when its turn
/// comes.
///
/// A set is dropped when its execution is appended.
///
/// # Errors
/// The first cause that holds, in the order of [`Refusal`]:
/// - `TooManyPlaces`.
/// - `PrepareTooLarge`.
/// - Set by set `Params`, `WrongCount`, `Float`, `PacketTooLarge`.
/// - `Memory` where a growth was refused.
///
/// MySQL: Client/Server Protocol, "COM_STMT_PREPARE", "COM_STMT_SEND_LONG_DATA",
/// "COM_STMT_EXECUTE".
pub fn put_made_executions<S: SetMaker>(
    alloc: Global,
    statement: &Statement<'_>,
    sets: &S,
    limit: usize,
    out: &mut Vec<u8>,
) -> Result<(), Refusal>
    requires { 4 ≤ limit }
    ensures ok { OnOk result
        (SentReadable roads.Execute statement.now.sql (S.given sets.now) statement.now.id limit
        out.old.items out.new.items) }
    ensures made { OnOk result (AllMade (S.given sets.now)) }
    ensures err { IfErr result
        (RefusesGiven roads.Execute statement.now.sql (S.given sets.now) statement.now.id limit) }
    ensures kept { take (length out.old.items) out.new.items ≡ out.old.items }
{
    sent_in_turn();
    made_in_turn();
    put_prepare(alloc, statement, limit - 4, out)?;
    let mut command = Vec::new(alloc);
    for number in 0..sets.len() {
        let params = made_set(alloc, sets, number)?;
        let mut values = Vec::new(alloc);
        put_set(
            statement,
            number,
            &params,
            limit,
            &mut values,
            &mut command,
            out,
        )?;
    }
    Ok(())
}
