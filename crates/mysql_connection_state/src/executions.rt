//! Executions of a prepared statement: what they carry, and what they change.

ghost use Rattle.std.specs.Prelude.{◌≡◌, IfOk, OnErr, OnOk, Some, option_map, unwrap_or};
ghost use Rattle.std.specs.Option.{option_and_then, option_copied};
ghost use Rattle.mysql_executions.specs.Bulks.{bulk_head};
ghost use Rattle.mysql_rows.specs.Views.{shared_columns};
ghost use Rattle.mysql_connection_rules.specs.Standing.{id_about, id_due, statement_due};
ghost use Rattle.mysql_connection_rules.specs.Steps.{about_execution, after_executing};
ghost use Rattle.mysql_connection_rules.specs.Steps.{carried_types};
ghost use Rattle.mysql_connection_rules.specs.Steps.{id_in_question, is_unagreed_bulk, refused_as};
ghost use Rattle.mysql_connection_statements.specs.Statements.{statement_at};
ghost use Rattle.mysql_connection_state.specs.Follows.{after_settled};
ghost use Rattle.mysql_connection_state.specs.Views.{about_view};

use crate::due::{About, Due};
use crate::state::State;
use mysql_buf::ParseBuf;
use mysql_columns::Column;
use mysql_commands::Command;
use mysql_connection_statements::{Pending, Statement, Statements};
use mysql_const::Capabilities;
use mysql_executions::bulk_reading::has_bulk_operations;
use mysql_executions::{BoundType, Refused, read_bulk_types, read_execution_types};
use mysql_reply_events::ReplyKind;
use std::alloc::{AllocError, Global};
use std::rc::RcSlice;

// The number of MariaDB's bulk execution.
const BULK_EXECUTE: u8 = 0xfa;

/// The id of the statement that a command is about: 0xffffffff is the one that was prepared last.
pub fn id_in_question(statements: &Statements, payload: &[u8]) -> Option<u32>
    ensures { result ≡ id_in_question statements.now payload.now }
{
    match Command::statement_id(payload) {
        Some(id) => statements.resolve(id),
        None => None,
    }
}

/// The statement that a command is about, where it is known.
pub fn statement_of(statements: &Statements, id: Option<u32>) -> Option<&Statement>
    ensures { option_copied result ≡ option_and_then (statement_at statements.now) id }
{
    match id {
        Some(id) => statements.get(id),
        None => None,
    }
}

/// The columns that a statement last had, shared.
///
/// # Errors
/// - `AllocError` for want of memory.
///
/// MySQL: Client/Server Protocol, "Prepared Statements".
pub fn shared_columns_of(statement: &Statement) -> Result<Option<RcSlice<Column>>, AllocError>
    ensures { IfOk result (λ columns. option_map shared_columns columns ≡ statement.now.columns) }
{
    match statement.columns() {
        Some(columns) => Ok(Some(columns.clone()?)),
        None => Ok(None),
    }
}

/// A bulk execution where MariaDB's aren't in force: it is about no statement.
pub fn is_unagreed_bulk(capabilities: Capabilities, number: u8) -> bool
    ensures { result ≡ is_unagreed_bulk capabilities number }
{
    number == BULK_EXECUTE && !has_bulk_operations(capabilities)
}

/// The types that an execution carries, by its number and what stands behind it.
pub fn carried_types(
    alloc: Global,
    capabilities: Capabilities,
    number: u8,
    count: u16,
    body: &[u8],
) -> Result<Vec<BoundType>, AllocError>
    ensures { IfOk result (λ types. types.items ≡
        carried_types capabilities number count body.now) }
{
    if number == BULK_EXECUTE {
        read_bulk_types(alloc, count, body)
    } else {
        read_execution_types(alloc, capabilities, count, body)
    }
}

// The flags of a bulk execution, as they were sent.
#[tactic(auto, unfolding(mysql_executions::specs::Bulks::bulk_head))]
fn bulk_flags(body: &[u8]) -> u16
    ensures { result ≡ unwrap_or (option_map (λ head. head.flags) (bulk_head body.now)) 0 }
{
    // COM_STMT_BULK_EXECUTE, behind its first byte:
    //   int<4>  statement_id
    //   int<2>  bulk_flags
    let mut rest = ParseBuf(body);
    if rest.checked_eat_u32_le().is_none() {
        return 0;
    }
    match rest.checked_eat_u16_le() {
        Some(flags) => flags,
        None => 0,
    }
}

/// How a refusal takes an execution back.
pub fn refused_as(number: u8, body: &[u8]) -> Refused
    ensures { result ≡ refused_as number body.now }
{
    if number == BULK_EXECUTE {
        Refused::Bulk(bulk_flags(body))
    } else {
        Refused::Execution
    }
}

// What the reply to an execution is about: until it comes, what was in force before is kept.
fn about_execution(id: u32, pending: Option<Pending>) -> About
    ensures { about_view result ≡ about_execution id pending }
{
    match pending {
        Some(pending) => About::Executing(pending),
        None => About::OfStatement(id),
    }
}

// The statement that a reply is about.
fn id_about(about: &About) -> Option<u32>
    ensures { result ≡ id_about (about_view about.now) }
{
    match about {
        About::OfStatement(id) => Some(*id),
        About::Executing(pending) => Some(pending.id),
        _ => None,
    }
}

impl State {
    // The statement that the reply is about that is due.
    fn id_due(&self) -> Option<u32>
        ensures { result ≡ id_due self.now.standing.phase }
    {
        match &self.due {
            Due::Reply(reply) => id_about(&reply.about),
            _ => None,
        }
    }

    /// The statement that the reply is about that is due, where it is known.
    ///
    /// MySQL: Client/Server Protocol, "COM_STMT_EXECUTE Response".
    pub fn statement_due(&self) -> Option<&Statement>
        ensures { option_copied result ≡ statement_due self.now.standing }
    {
        let id = self.id_due()?;
        self.statements.get(id)
    }

    /// An execution of the statement of this id came, which is known and last had these columns.
    pub(crate) fn executing(
        &mut self,
        id: u32,
        columns: Option<RcSlice<Column>>,
        refused: Refused,
        types: &[BoundType],
    ) -> Result<(), AllocError>
        ensures ok { OnOk result ((statement : Statement) →
            statement_at self.old.standing.statements id ≡ Some statement →
            option_map shared_columns columns ≡ statement.columns →
            self.new.standing ≡ after_executing id statement refused types.now self.old.standing) }
        ensures err { OnErr result (self.new ≡ self.old) }
    {
        let pending = self.statements.execute(id, refused, types)?;
        self.await_reply(ReplyKind::Binary, columns, about_execution(id, pending));
        Ok(())
    }

    /// An execution was put that leaves all as it is.
    ///
    /// It is of the statement of this id, which last had these columns. Only its reply is due.
    ///
    /// MySQL: Client/Server Protocol, "COM_STMT_EXECUTE".
    pub fn execute_settled(&mut self, id: u32, columns: Option<RcSlice<Column>>)
        ensures { self.new.standing ≡
            after_settled id (option_map shared_columns columns) self.old.standing }
    {
        self.await_reply(ReplyKind::Binary, columns, About::OfStatement(id));
    }
}
