//! The ids of a connection's statements on another connection.

ghost use Rattle.std.specs.Prelude.{◌≡◌, IfErr, IfOk, Ok, OnErr, OnOk, true};
ghost use Rattle.std.specs.Option.{ok_or};
ghost use Rattle.mysql_commands.specs.Commands as commands;
ghost use Rattle.mysql_commands.specs.Views.{command_view};
ghost use Rattle.mysql_connection_recoding.specs.Known.{known};
ghost use Rattle.mysql_connection_recoding.specs.Recoding.{Refuses, bulk_there, execution_there};
ghost use Rattle.mysql_connection_recoding.specs.Recoding.{id_there, ids_behind, lacks_types};
ghost use Rattle.mysql_connection_recoding.specs.Recoding.{no_ids, recoded, with_id};
ghost use Rattle.mysql_connection_recoding.specs.declared.refusal.RecodingRefusal.TheVariants as refusals;
ghost use Rattle.mysql_executions.specs.Views.{bulk_of, execution_of, types_of};

use crate::refusal::RecodingRefusal;
use crate::types::types_there;
use mysql_commands::{BulkExecution, Command, Execution, ParameterType};
use std::alloc::{AllocError, Global};
use std::collections::BTreeMap;

/// The id that means the statement that was prepared last.
const LAST_PREPARED: u32 = 0xffff_ffff;

/// The ids that a connection's statements have on another connection.
///
/// A server gives each statement its id, so the commands of a client that one server had name no
/// statement of another. Who prepares each statement on both connections, and tells the two ids,
/// recodes commands by them. Such are a proxy that goes over to another server, and a replay of a
/// recording.
///
/// Contracts see the other id of each id (`known`). Each call takes time that grows with the
/// logarithm of their number, beside what it copies.
///
/// MySQL: Client/Server Protocol, "Prepared Statements" ("COM_STMT_PREPARE Response", statement_id).
#[derive(Drop)]
pub struct StatementIds {
    alloc: Global,
    by_id: BTreeMap<u32, u32>,
}

impl StatementIds {
    /// No statement is known.
    pub fn new(alloc: Global) -> StatementIds
        ensures { known result ≡ no_ids }
    {
        StatementIds {
            alloc,
            by_id: BTreeMap::new(alloc),
        }
    }

    /// A statement was prepared on both connections: it has this id here and that one there.
    ///
    /// Another statement that had the id here is known no more.
    ///
    /// # Errors
    /// - `AllocError` where memory runs out; nothing changes then.
    pub fn prepared(&mut self, own: u32, other: u32) -> Result<(), AllocError>
        ensures ok { OnOk result (known self.new ≡ with_id own other (known self.old)) }
        ensures err { OnErr result (known self.new ≡ known self.old) }
    {
        self.by_id.insert(own, other)?;
        Ok(())
    }

    /// The id there of the statement of this id here; 0xffffffff is the same there.
    pub fn id_there(&self, id: u32) -> Option<u32>
        ensures { result ≡ id_there (known self.now) id }
    {
        if id == LAST_PREPARED {
            return Some(id);
        }
        self.by_id.get(&id).copied()
    }

    /// No statement is known any more, as behind a reset of the connection.
    pub fn clear(&mut self)
        ensures { known self.new ≡ no_ids }
    {
        self.by_id.clear();
    }

    /// The id there, or the refusal.
    fn id_or_refusal(&self, id: u32) -> Result<u32, RecodingRefusal>
        ensures { result ≡ ok_or (id_there (known self.now) id) (refusals.UnknownStatement id) }
    {
        match self.id_there(id) {
            Some(other) => Ok(other),
            None => Err(RecodingRefusal::UnknownStatement(id)),
        }
    }

    /// An execution there, by this id.
    fn execution_there(
        &self,
        in_force: &[ParameterType],
        execution: Execution,
        id: u32,
    ) -> Result<Execution, AllocError>
        ensures ok { IfOk result (λ there. commands.Execute (execution_of there) ≡
            execution_there in_force.now (execution_of execution) id) }
        ensures err { IfErr result (λ e. lacks_types in_force.now (types_of execution.types) ≡ true) }
    {
        Ok(Execution {
            statement: id,
            types: types_there(self.alloc, in_force, execution.types)?,
            ..execution
        })
    }

    /// A bulk execution there, by this id.
    fn bulk_there(
        &self,
        in_force: &[ParameterType],
        bulk: BulkExecution,
        id: u32,
    ) -> Result<BulkExecution, AllocError>
        ensures ok { IfOk result (λ there. commands.BulkExecute (bulk_of there) ≡
            bulk_there in_force.now (bulk_of bulk) id) }
        ensures err { IfErr result (λ e. lacks_types in_force.now (types_of bulk.types) ≡ true) }
    {
        Ok(BulkExecution {
            statement: id,
            types: types_there(self.alloc, in_force, bulk.types)?,
            ..bulk
        })
    }

    /// The command for the other connection, where its statement has another id.
    ///
    /// An execution, a bulk execution, long data, a close, a reset or a fetch names its statement
    /// by the id there. An execution that carries no types gets those that are in force of its
    /// statement here, since none may be there. All else is as it was, and no value is copied. A
    /// statement that is closed by its id is known no more, and none is behind a change of user.
    /// 0xffffffff stays: it names the statement that was prepared last, which is the same one where
    /// the statements are prepared there in the same order.
    ///
    /// `in_force` are the types of the statement's parameters here, as
    /// `Connection::statement` has them; a command that is no execution takes none.
    ///
    /// Promise: exactly that command (`recoded`), whose sets are the same: the theorem
    /// [`recoded_commands_say_the_same`](crate::laws::recoded_commands_say_the_same).
    ///
    /// # Errors
    /// - `OtherPayload` of a payload that is laid out as no command.
    /// - `UnknownStatement` with the id, where the statement isn't known there.
    /// - `Memory` where an execution lacks types, and neither of the others holds.
    ///
    /// Nothing changes then, and the command is gone.
    pub fn recode<'a>(
        &mut self,
        command: Command<'a>,
        in_force: &[ParameterType],
    ) -> Result<Command<'a>, RecodingRefusal>
        ensures ok { IfOk result (λ there. recoded in_force.now (known self.old)
            (command_view command.entry) ≡ Ok (command_view there)) }
        ensures behind { OnOk result (known self.new ≡
            ids_behind (command_view command.entry) (known self.old)) }
        ensures err { IfErr result
            (Refuses in_force.now (known self.old) (command_view command.entry)) }
        ensures kept { OnErr result (known self.new ≡ known self.old) }
    {
        match command {
            Command::Execute(execution) => {
                let id = self.id_or_refusal(execution.statement)?;
                Ok(Command::Execute(self.execution_there(in_force, execution, id)?))
            }
            Command::BulkExecute(bulk) => {
                let id = self.id_or_refusal(bulk.statement)?;
                Ok(Command::BulkExecute(self.bulk_there(in_force, bulk, id)?))
            }
            Command::LongData {
                stmt_id,
                place,
                bytes,
            } => Ok(Command::LongData {
                stmt_id: self.id_or_refusal(stmt_id)?,
                place,
                bytes,
            }),
            Command::Close(id) => {
                let other = self.id_or_refusal(id)?;
                self.by_id.remove(&id);
                Ok(Command::Close(other))
            }
            Command::ResetStatement(id) => { Ok(Command::ResetStatement(self.id_or_refusal(id)?)) }
            Command::Fetch { stmt_id, rows } => Ok(Command::Fetch {
                stmt_id: self.id_or_refusal(stmt_id)?,
                rows,
            }),
            Command::ChangeUser(login) => {
                self.by_id.clear();
                Ok(Command::ChangeUser(login))
            }
            Command::Other(_) => Err(RecodingRefusal::OtherPayload),
            command => Ok(command),
        }
    }
}
