//! Parameter sets written as text queries.

ghost use Rattle.std.specs.Prelude.{◌≤◌, ℕ, IfErr, OnOk};
ghost use Rattle.mysql_command_rules.specs.Sets.{all_given};
ghost use Rattle.mysql_command_rules.specs.Writing.{Stops, Writes};
ghost use Rattle.mysql_command_rules.specs.declared.road.Road.TheVariants as roads;

use crate::text::text_queries::{check_places, put_query};
use mysql_command_rules::in_turn::{sent_in_turn, written_in_turn};
use mysql_command_rules::{SendToError, flush, flush_set};
use mysql_queries::ParsedQuery;
use mysql_values::Params;
use std::alloc::Global;
use std::io::Write;

/// Writes the text queries that [`put_queries`](crate::put_queries) appends, some at a time.
///
/// Safe for a server in the query's mode, as `mysql_values::bind_text_in` says.
///
/// Promise: the writer is given exactly the bytes that are appended else. Where not all are, it is
/// given all sets before the refused one, each whole, or a prefix (`Writes`, `Stops`).
///
/// # Errors
/// - `Refused` with the first cause that holds, in the order of
///   [`Refusal`](mysql_command_rules::Refusal). `Mixed` and `NotAlone` come before anything is
///   written. Set by set come `Params`, `WrongCount`, `Float`, `PacketTooLarge`, and `Memory` where
///   a growth was refused. All sets before that one are written then.
/// - `Io` where the writer fails: it has taken a front of what carries the first sets, and not all
///   of it.
///
/// MySQL: Client/Server Protocol, "COM_QUERY".
pub fn write_queries<W: Write>(
    alloc: Global,
    query: &ParsedQuery<'_>,
    sets: &[Params],
    limit: usize,
    to: &mut W,
) -> Result<(), SendToError>
    requires { 4 ≤ limit }
    // A text query carries no id: this holds of each.
    ensures ok { OnOk result ((id : ℕ) →
        Writes roads.Text query.now.sql (all_given sets.now) id limit (W.contents to.old)
        (W.contents to.new)) }
    ensures err { IfErr result (λ e. (id : ℕ) →
        Stops roads.Text query.now.sql sets.now id limit (W.contents to.old) (W.contents to.new) e) }
{
    written_in_turn();
    if let Err(refusal) = check_places(query) {
        return Err(SendToError::Refused(refusal, 0));
    }
    let (mut buffer, mut values, mut spare) = (Vec::new(alloc), Vec::new(alloc), Vec::new(alloc));
    'sets: for (set, params) in sets.iter().enumerate() {
        let start = buffer.len();
        let put = put_query(
            query,
            set,
            params,
            limit,
            &mut values,
            &mut spare,
            &mut buffer,
        );
        flush_set(put, set, start, &mut buffer, to)?;
    }
    flush(&mut buffer, to)?;
    Ok(())
}
