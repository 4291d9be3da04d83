//! Parameter sets as commands.

ghost use Rattle.std.specs.Prelude.{◌≡◌, ◌≤◌, IfErr, OnErr, OnOk};
ghost use Rattle.mysql_session.specs.Delivery.{Delivers};
ghost use Rattle.mysql_command_rules.specs.Sending.{RefusesGiven};
ghost use Rattle.mysql_command_rules.specs.Sets.{all_given};
ghost use Rattle.mysql_values.specs.Sql.{read_by_default};

use crate::laws::readable_sets_are_delivered;
use mysql_buf::laws::are_bytes;
use mysql_command_rules::{Refusal, Road};
use mysql_send::{Statement, put_executions, put_queries, put_requests};
use mysql_values::Params;
use mysql_values::bind::ParsedQuery;
use std::alloc::Global;

/// Appends to `out` the commands that carry parameter sets of a query to a server.
///
/// They are framed packets, each numbered from 0. By `Road::Text` there is a query for each set,
/// its values as literals in the places of the placeholders. By `Road::Execute` there is one
/// prepare, also where there are no sets, and an execution of the statement `stmt_id` for each set.
/// Where an execution would exceed 16777215 bytes, its byte strings come before it as long data. By
/// `Road::Bulk` there is one prepare, and the fewest bulk executions that there can be. Sets and
/// placeholders count from 0. `receive` with the same query, id and limit reads the sets back. Of
/// each prefix of what was appended it reads the sets whose last command is whole in it.
///
/// A placeholder is a question mark, or a colon and a name. A name is of `a` to `z`, `0` to `9` and
/// `_`, and begins with no digit. A set gives its value by the name without the colon. `:aB` is the
/// placeholder `a` before a `B`; `:Name` is none, so that a set that names values is refused by
/// `Params` over `SELECT :Name`.
///
/// What is appended behind another stream of the same query, id and limit, in any way, also by
/// [`send_values`](crate::send_values), reads behind its sets. The theorem is
/// `laws::sent_streams_join`.
///
/// `limit` is the `max_allowed_packet` of the server, at least 4. Calls that write count 4 bytes
/// for a packet's header in it: a payload has at most `limit - 4` bytes. Calls that read take the
/// `max_allowed_packet` of their own side and count the payload alone. So with the same limit each
/// payload that is appended here is within it.
///
/// Commands are laid out for a connection on which CLIENT_QUERY_ATTRIBUTES isn't in force, and bulk
/// executions for one on which MARIADB_CLIENT_STMT_BULK_OPERATIONS is.
///
/// By execute and bulk **safe for** any server. By text for one whose SQL mode has neither
/// NO_BACKSLASH_ESCAPES nor ANSI_QUOTES over a connection in UTF-8, as `mysql_values::bind_text`
/// is. For any other a value may end its literal, and what is behind the quote is read as SQL.
/// [`Query::new_in`](crate::Query::new_in) takes the mode, and [`Query::send`](crate::Query::send)
/// sends for it.
///
/// Promise: the first cause is answered, with `out` as it was; else what is appended delivers the
/// sets (`RefusesGiven`, `Delivers`).
///
/// # Errors
/// The first cause that holds, in the order of [`Refusal`]:
/// - `Mixed`.
/// - By text `NotAlone`.
/// - By execute and bulk `TooManyPlaces`, `PrepareTooLarge`.
/// - By bulk `NoPlaces`.
/// - Set by set `Params`, `WrongCount`, `Float`, and but by bulk `PacketTooLarge`.
/// - By bulk over all sets `MixedKinds`, `RowTooLarge`.
/// - `Memory` where a growth was refused.
///
/// `out` is as it was after an error.
///
/// (MySQL: Client/Server Protocol, "COM_QUERY", "COM_STMT_PREPARE", "COM_STMT_SEND_LONG_DATA",
/// "COM_STMT_EXECUTE"; MariaDB: Client/Server Protocol, "COM_STMT_BULK_EXECUTE".)
pub fn send(
    alloc: Global,
    query: &[u8],
    sets: &[Params],
    road: Road,
    stmt_id: u32,
    limit: usize,
    out: &mut Vec<u8>,
) -> Result<(), Refusal>
    requires { 4 ≤ limit }
    ensures refused { IfErr result
        (RefusesGiven road (read_by_default query.now)
        (all_given sets.now) stmt_id limit) }
    ensures kept { OnErr result (out.new.items ≡ out.old.items) }
    ensures delivered { OnOk result
        (Delivers road (read_by_default query.now) (all_given sets.now) stmt_id limit
        out.old.items out.new.items) }
{
    readable_sets_are_delivered();
    let start = out.len();
    let sent = match road {
        Road::Text => {
            let query = ParsedQuery::new(alloc, query)?;
            put_queries(alloc, &query, sets, limit, out)
        }
        Road::Execute => {
            let statement = Statement::new(alloc, query, stmt_id)?;
            put_executions(alloc, &statement, sets, limit, out)
        }
        Road::Bulk => {
            let statement = Statement::new(alloc, query, stmt_id)?;
            put_requests(alloc, &statement, sets, None, limit, out)
        }
    };
    are_bytes(out.as_slice());
    if sent.is_err() {
        out.truncate(start);
    }
    sent
}
