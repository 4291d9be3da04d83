//! Commands that borrow nothing.
//!
//!     let command = Command::read(alloc, capabilities, parameters, payload)?.into_owned(alloc)?;

ghost use Rattle.std.specs.Prelude.{◌≡◌, IfOk, List, Option, ℕ};
ghost use Rattle.mysql_commands.specs.Views.{HasUnclear, command_view};
ghost use Rattle.mysql_const.specs.declared.capabilities.Capabilities.{Capabilities};
ghost use Rattle.mysql_executions.specs.InForce.{InForce};

use crate::command::Command;
use mysql_fields::own_bytes;
use std::alloc::{AllocError, Global};

impl<'a> Command<'a> {
    /// The command in bytes of its own: it borrows nothing.
    ///
    /// # Errors
    /// - `AllocError` for want of memory.
    pub fn into_owned(self, alloc: Global) -> Result<Command<'static>, AllocError>
        ensures same { IfOk result (λ owned. command_view owned ≡ command_view self.entry) }
        ensures unclear { (capabilities : Capabilities) (parameters : Option InForce) (payload : List ℕ) →
            HasUnclear capabilities parameters payload self.entry →
            IfOk result (λ owned. HasUnclear capabilities parameters payload owned) }
    {
        match self {
            Command::Quit => Ok(Command::Quit),
            Command::InitDb(schema) => Ok(Command::InitDb(own_bytes(alloc, schema)?)),
            Command::Query { attributes, sql } => Ok(Command::Query {
                attributes,
                sql: own_bytes(alloc, sql)?,
            }),
            Command::FieldList { table, wildcard } => Ok(Command::FieldList {
                table: own_bytes(alloc, table)?,
                wildcard: own_bytes(alloc, wildcard)?,
            }),
            Command::CreateDb(schema) => Ok(Command::CreateDb(own_bytes(alloc, schema)?)),
            Command::DropDb(schema) => Ok(Command::DropDb(own_bytes(alloc, schema)?)),
            Command::Refresh(flags) => Ok(Command::Refresh(flags)),
            Command::Shutdown(level) => Ok(Command::Shutdown(level)),
            Command::Statistics => Ok(Command::Statistics),
            Command::ProcessInfo => Ok(Command::ProcessInfo),
            Command::ProcessKill(id) => Ok(Command::ProcessKill(id)),
            Command::Debug => Ok(Command::Debug),
            Command::Ping => Ok(Command::Ping),
            Command::ChangeUser(login) => Ok(Command::ChangeUser(login.into_owned(alloc)?)),
            Command::BinlogDump(request) => Ok(Command::BinlogDump(request.clone(alloc)?)),
            Command::TableDump(request) => Ok(Command::TableDump(request.clone(alloc)?)),
            Command::RegisterSlave(replica) => Ok(Command::RegisterSlave(replica.clone(alloc)?)),
            Command::Prepare(sql) => Ok(Command::Prepare(own_bytes(alloc, sql)?)),
            Command::Execute(execution) => Ok(Command::Execute(execution)),
            Command::LongData {
                stmt_id,
                place,
                bytes,
            } => Ok(Command::LongData {
                stmt_id,
                place,
                bytes: own_bytes(alloc, bytes)?,
            }),
            Command::Close(id) => Ok(Command::Close(id)),
            Command::ResetStatement(id) => Ok(Command::ResetStatement(id)),
            Command::SetOption(option) => Ok(Command::SetOption(option)),
            Command::Fetch { stmt_id, rows } => Ok(Command::Fetch { stmt_id, rows }),
            Command::BinlogDumpGtid(request) => Ok(Command::BinlogDumpGtid(request.clone(alloc)?)),
            Command::ResetConnection => Ok(Command::ResetConnection),
            Command::Clone(arguments) => Ok(Command::Clone(own_bytes(alloc, arguments)?)),
            Command::BulkExecute(execution) => Ok(Command::BulkExecute(execution)),
            Command::Other(payload) => Ok(Command::Other(own_bytes(alloc, payload)?)),
        }
    }
}
