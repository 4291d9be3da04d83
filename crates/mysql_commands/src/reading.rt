//! What a payload says.

ghost use Rattle.std.specs.Prelude.{◌≡◌, ◌≢◌, ◌∷◌, IfOk, IfSome, Ok, Option, is_some, option_map};
ghost use Rattle.std.specs.Option.{option_copied};
ghost use Rattle.mysql_executions.specs.Bulks.{bulk_execution_at};
ghost use Rattle.mysql_executions.specs.Executions.{execution_at};
ghost use Rattle.mysql_executions.specs.InForce.{InForce};
ghost use Rattle.mysql_login.specs.ChangedUsers.{change_in_force_at};
ghost use Rattle.mysql_replication.specs.Packets.{binlog_dump_at, binlog_dump_gtid_at, register_slave_at};
ghost use Rattle.mysql_replication.specs.Packets.{table_dump_at};
ghost use Rattle.mysql_fields.specs.Forms.{fixed_number_at};
ghost use Rattle.mysql_commands.specs.Commands.{alone, all_of, command_at, fetch_at, field_list_at, fields};
ghost use Rattle.mysql_commands.specs.Commands.{by_statement, first_of, laid_out, level_at, long_data_at, query_at};
ghost use Rattle.mysql_commands.specs.Commands.{said};
ghost use Rattle.mysql_commands.specs.Commands as said;
ghost use Rattle.mysql_commands.specs.Views.{HasUnclear, command_view};

use crate::command::Command;
use mysql_buf::ParseBuf;
use mysql_const::Capabilities;
use mysql_executions::execution_reading::has_query_attributes;
use mysql_executions::{
    StatementParameters, read_bulk_execution, read_execution, read_query_attributes,
};
use mysql_fields::{MyDeserialize, ParseExt, WireError};
use mysql_login::ComChangeUser;
use std::alloc::{AllocError, Global};
use std::borrow::CowSlice;

/// What is read of the fields, where no byte is left behind them.
fn if_all<T: Drop>(value: T, rest: &ParseBuf) -> Option<T>
    ensures { all_of (Ok (value, rest.now.0.now)) ≡ result }
{
    if rest.is_empty() { Some(value) } else { None }
}

/// A command that has no fields.
fn alone<'a>(command: Command<'a>, bytes: &[u8]) -> Option<Command<'a>>
    ensures { option_map command_view result ≡ alone (command_view command.entry) bytes.now }
{
    if_all(command, &ParseBuf(bytes))
}

/// A number of one byte.
fn u8_of(bytes: &[u8]) -> Option<u8>
    ensures { result ≡ all_of (fixed_number_at 1 bytes.now) }
{
    let mut rest = ParseBuf(bytes);
    let number = rest.checked_eat_u8()?;
    if_all(number, &rest)
}

/// A number of two bytes.
fn u16_of(bytes: &[u8]) -> Option<u16>
    ensures { result ≡ all_of (fixed_number_at 2 bytes.now) }
{
    let mut rest = ParseBuf(bytes);
    let number = rest.checked_eat_u16_le()?;
    if_all(number, &rest)
}

/// A number of four bytes.
fn u32_of(bytes: &[u8]) -> Option<u32>
    ensures { result ≡ all_of (fixed_number_at 4 bytes.now) }
{
    let mut rest = ParseBuf(bytes);
    let number = rest.checked_eat_u32_le()?;
    if_all(number, &rest)
}

/// Shutting down: a level, or none.
fn shutdown<'a>(bytes: &[u8]) -> Option<Command<'a>>
    ensures { option_map command_view result ≡ fields said.Shutdown level_at bytes.now }
{
    match bytes {
        [] => Some(Command::Shutdown(None)),
        [level] => Some(Command::Shutdown(Some(*level))),
        _ => None,
    }
}

/// A table's name to a zero, and a pattern to the end.
fn field_list(bytes: &[u8]) -> Option<Command<'_>>
    ensures { option_map command_view result ≡ fields (λ c. c) field_list_at bytes.now }
{
    let mut rest = ParseBuf(bytes);
    let table = rest.eat_null_str();
    if table.len() == bytes.len() {
        return None;
    }
    Some(Command::FieldList {
        table: CowSlice::Borrowed(table),
        wildcard: CowSlice::Borrowed(rest.0),
    })
}

/// A piece of a parameter.
fn long_data(bytes: &[u8]) -> Option<Command<'_>>
    ensures { option_map command_view result ≡ fields (λ c. c) long_data_at bytes.now }
{
    let mut rest = ParseBuf(bytes);
    let stmt_id = rest.checked_eat_u32_le()?;
    let place = rest.checked_eat_u16_le()?;
    Some(Command::LongData {
        stmt_id,
        place,
        bytes: CowSlice::Borrowed(rest.0),
    })
}

/// Rows of an open cursor.
fn fetch<'a>(bytes: &[u8]) -> Option<Command<'a>>
    ensures { option_map command_view result ≡ fields (λ c. c) fetch_at bytes.now }
{
    let mut rest = ParseBuf(bytes);
    let stmt_id = rest.checked_eat_u32_le()?;
    let rows = rest.checked_eat_u32_le()?;
    if_all(Command::Fetch { stmt_id, rows }, &rest)
}

/// Logs and caches begin anew: flags.
fn refresh<'a>(bytes: &[u8]) -> Option<Command<'a>>
    ensures { option_map command_view result ≡ fields said.Refresh (fixed_number_at 1) bytes.now }
{
    Some(Command::Refresh(u8_of(bytes)?))
}

/// A connection ends: its id.
fn process_kill<'a>(bytes: &[u8]) -> Option<Command<'a>>
    ensures { option_map command_view result ≡ fields said.ProcessKill (fixed_number_at 4) bytes.now }
{
    Some(Command::ProcessKill(u32_of(bytes)?))
}

/// A statement goes: its id.
fn close<'a>(bytes: &[u8]) -> Option<Command<'a>>
    ensures { option_map command_view result ≡ fields said.Close (fixed_number_at 4) bytes.now }
{
    Some(Command::Close(u32_of(bytes)?))
}

/// A statement is reset: its id.
fn reset_statement<'a>(bytes: &[u8]) -> Option<Command<'a>>
    ensures { option_map command_view result ≡ fields said.ResetStatement (fixed_number_at 4) bytes.now }
{
    Some(Command::ResetStatement(u32_of(bytes)?))
}

/// An option of the connection: its number.
fn set_option<'a>(bytes: &[u8]) -> Option<Command<'a>>
    ensures { option_map command_view result ≡ fields said.SetOption (fixed_number_at 2) bytes.now }
{
    Some(Command::SetOption(u16_of(bytes)?))
}

/// A packet that is read from its first byte on, where no byte is left behind it.
fn packet_of<'de, T: MyDeserialize<'de> + Drop>(
    alloc: Global,
    ctx: T::Ctx,
    payload: &'de [u8],
) -> Result<Option<T>, AllocError>
    ensures { IfOk result (λ part. option_map T.shown part ≡ all_of (T.read_at ctx payload.now)) }
{
    let mut rest = ParseBuf(payload);
    match rest.parse(alloc, ctx) {
        Ok(packet) => Ok(if_all(packet, &rest)),
        Err(WireError::Memory) => Err(AllocError),
        Err(_) => Ok(None),
    }
}

/// A query, behind its attributes where they are in force.
fn query<'a>(
    alloc: Global,
    capabilities: Capabilities,
    bytes: &'a [u8],
) -> Result<Option<Command<'a>>, AllocError>
    ensures { IfOk result (λ command. option_map command_view command ≡ query_at capabilities bytes.now) }
{
    if !has_query_attributes(capabilities) {
        return Ok(Some(Command::Query {
            attributes: Vec::new(alloc),
            sql: CowSlice::Borrowed(bytes),
        }));
    }
    match read_query_attributes(alloc, bytes)? {
        Some((attributes, sql)) => Ok(Some(Command::Query {
            attributes,
            sql: CowSlice::Borrowed(sql),
        })),
        None => Ok(None),
    }
}

/// An execution of a statement that is known.
fn execute<'a>(
    alloc: Global,
    capabilities: Capabilities,
    parameters: Option<&StatementParameters>,
    bytes: &[u8],
) -> Result<Option<Command<'a>>, AllocError>
    ensures reads { IfOk result (λ command. option_map command_view command ≡
        by_statement said.Execute (execution_at capabilities) (option_copied parameters.entry) bytes.now) }
    ensures unclear { IfOk result (λ found. IfSome found (λ command.
        HasUnclear capabilities (option_copied parameters.entry) (0x17 ∷ bytes.now) command)) }
{
    let Some(parameters) = parameters else {
        return Ok(None);
    };
    match read_execution(alloc, capabilities, parameters, bytes)? {
        Some(execution) => Ok(Some(Command::Execute(execution))),
        None => Ok(None),
    }
}

/// A bulk execution of a statement that is known.
fn bulk_execute<'a>(
    alloc: Global,
    capabilities: Capabilities,
    parameters: Option<&StatementParameters>,
    bytes: &[u8],
) -> Result<Option<Command<'a>>, AllocError>
    ensures reads { IfOk result (λ command. option_map command_view command ≡
        by_statement said.BulkExecute (bulk_execution_at capabilities) (option_copied parameters.entry) bytes.now) }
    ensures unclear { IfOk result (λ found. IfSome found (λ command.
        HasUnclear capabilities (option_copied parameters.entry) (0xfa ∷ bytes.now) command)) }
{
    let Some(parameters) = parameters else {
        return Ok(None);
    };
    match read_bulk_execution(alloc, capabilities, parameters, bytes)? {
        Some(execution) => Ok(Some(Command::BulkExecute(execution))),
        None => Ok(None),
    }
}

/// Another user logs in; bytes behind the last field don't count, as behind that of a login.
fn change_user<'a>(
    alloc: Global,
    capabilities: Capabilities,
    payload: &'a [u8],
) -> Result<Option<Command<'a>>, AllocError>
    ensures { IfOk result (λ command. option_map command_view command ≡
        option_map said.ChangeUser (first_of (change_in_force_at capabilities.protocol.0 payload.now))) }
{
    let mut rest = ParseBuf(payload);
    match ComChangeUser::read_in_force(alloc, capabilities.protocol, &mut rest) {
        Ok(login) => Ok(Some(Command::ChangeUser(login))),
        Err(WireError::Memory) => Err(AllocError),
        Err(_) => Ok(None),
    }
}

/// The binary log from a place.
fn binlog_dump<'a>(alloc: Global, payload: &'a [u8]) -> Result<Option<Command<'a>>, AllocError>
    ensures { IfOk result (λ command. option_map command_view command ≡
        fields said.BinlogDump binlog_dump_at payload.now) }
{
    match packet_of(alloc, (), payload)? {
        Some(request) => Ok(Some(Command::BinlogDump(request))),
        None => Ok(None),
    }
}

/// A table's bytes.
fn table_dump<'a>(alloc: Global, payload: &'a [u8]) -> Result<Option<Command<'a>>, AllocError>
    ensures { IfOk result (λ command. option_map command_view command ≡
        fields said.TableDump table_dump_at payload.now) }
{
    match packet_of(alloc, (), payload)? {
        Some(request) => Ok(Some(Command::TableDump(request))),
        None => Ok(None),
    }
}

/// What a replica says of itself.
fn register_slave<'a>(alloc: Global, payload: &'a [u8]) -> Result<Option<Command<'a>>, AllocError>
    ensures { IfOk result (λ command. option_map command_view command ≡
        fields said.RegisterSlave register_slave_at payload.now) }
{
    match packet_of(alloc, (), payload)? {
        Some(replica) => Ok(Some(Command::RegisterSlave(replica))),
        None => Ok(None),
    }
}

/// The binary log without what is known.
fn binlog_dump_gtid<'a>(alloc: Global, payload: &'a [u8]) -> Result<Option<Command<'a>>, AllocError>
    ensures { IfOk result (λ command. option_map command_view command ≡
        fields said.BinlogDumpGtid binlog_dump_gtid_at payload.now) }
{
    match packet_of(alloc, (), payload)? {
        Some(request) => Ok(Some(Command::BinlogDumpGtid(request))),
        None => Ok(None),
    }
}

/// The command with this number, where the bytes behind it are laid out as its row says. It is no
/// execution.
fn laid_out<'a>(
    alloc: Global,
    capabilities: Capabilities,
    number: u8,
    bytes: &'a [u8],
    payload: &'a [u8],
) -> Result<Option<Command<'a>>, AllocError>
    requires payload { payload.now ≡ number ∷ bytes.now }
    requires no_execution { number ≢ 0x17 }
    requires no_bulk { number ≢ 0xfa }
    ensures { (parameters : Option InForce) → IfOk result (λ command. option_map command_view command ≡
        laid_out capabilities parameters number bytes.now) }
{
    match number {
        0x01 => Ok(alone(Command::Quit, bytes)),
        0x02 => Ok(Some(Command::InitDb(CowSlice::Borrowed(bytes)))),
        0x03 => query(alloc, capabilities, bytes),
        0x04 => Ok(field_list(bytes)),
        0x05 => Ok(Some(Command::CreateDb(CowSlice::Borrowed(bytes)))),
        0x06 => Ok(Some(Command::DropDb(CowSlice::Borrowed(bytes)))),
        0x07 => Ok(refresh(bytes)),
        0x08 => Ok(shutdown(bytes)),
        0x09 => Ok(alone(Command::Statistics, bytes)),
        0x0a => Ok(alone(Command::ProcessInfo, bytes)),
        0x0c => Ok(process_kill(bytes)),
        0x0d => Ok(alone(Command::Debug, bytes)),
        0x0e => Ok(alone(Command::Ping, bytes)),
        0x11 => change_user(alloc, capabilities, payload),
        0x12 => binlog_dump(alloc, payload),
        0x13 => table_dump(alloc, payload),
        0x15 => register_slave(alloc, payload),
        0x16 => Ok(Some(Command::Prepare(CowSlice::Borrowed(bytes)))),
        0x18 => Ok(long_data(bytes)),
        0x19 => Ok(close(bytes)),
        0x1a => Ok(reset_statement(bytes)),
        0x1b => Ok(set_option(bytes)),
        0x1c => Ok(fetch(bytes)),
        0x1e => binlog_dump_gtid(alloc, payload),
        0x1f => Ok(alone(Command::ResetConnection, bytes)),
        0x20 => Ok(Some(Command::Clone(CowSlice::Borrowed(bytes)))),
        _ => Ok(None),
    }
}

/// A command that is no execution, of which no value is unclear.
fn no_execution<'a>(
    alloc: Global,
    capabilities: Capabilities,
    number: u8,
    bytes: &'a [u8],
    payload: &'a [u8],
) -> Result<Option<Command<'a>>, AllocError>
    requires payload { payload.now ≡ number ∷ bytes.now }
    requires no_execution { number ≢ 0x17 }
    requires no_bulk { number ≢ 0xfa }
    ensures reads { (parameters : Option InForce) → IfOk result (λ command. option_map command_view command ≡
        laid_out capabilities parameters number bytes.now) }
    ensures unclear { (parameters : Option InForce) → IfOk result (λ found. IfSome found (λ command.
        HasUnclear capabilities parameters (number ∷ bytes.now) command)) }
{
    laid_out(alloc, capabilities, number, bytes, payload)
}

/// The command with this number, where the bytes behind it are laid out as its row says.
fn numbered<'a>(
    alloc: Global,
    capabilities: Capabilities,
    parameters: Option<&StatementParameters>,
    number: u8,
    bytes: &'a [u8],
    payload: &'a [u8],
) -> Result<Option<Command<'a>>, AllocError>
    requires { payload.now ≡ number ∷ bytes.now }
    ensures reads { IfOk result (λ command. option_map command_view command ≡
        laid_out capabilities (option_copied parameters.entry) number bytes.now) }
    ensures unclear { IfOk result (λ found. IfSome found (λ command.
        HasUnclear capabilities (option_copied parameters.entry) (number ∷ bytes.now) command)) }
{
    match number {
        0x17 => execute(alloc, capabilities, parameters, bytes),
        0xfa => bulk_execute(alloc, capabilities, parameters, bytes),
        _ => no_execution(alloc, capabilities, number, bytes, payload),
    }
}

/// What a payload says, where it is laid out as a command.
fn said<'a>(
    alloc: Global,
    capabilities: Capabilities,
    parameters: Option<&StatementParameters>,
    payload: &'a [u8],
) -> Result<Option<Command<'a>>, AllocError>
    ensures reads { IfOk result (λ command. option_map command_view command ≡
        said capabilities (option_copied parameters.entry) payload.now) }
    ensures unclear { IfOk result (λ found. IfSome found (λ command.
        HasUnclear capabilities (option_copied parameters.entry) payload.now command)) }
{
    match payload {
        [] => Ok(None),
        [number, bytes @ ..] => numbered(alloc, capabilities, parameters, *number, bytes, payload),
    }
}

impl<'a> Command<'a> {
    /// Reads a payload by the capabilities in force, an execution also by its statement's
    /// parameters. Those are handed in where the statement is known ([`Command::statement_id`]
    /// tells which it is). No payload is refused. One that isn't laid out as its number says, or
    /// whose number has no row, is [`Command::Other`]. So is an execution of a statement that isn't
    /// known.
    ///
    /// Promise: any bytes are read exactly as the table of commands says (`command_at`). Exactly those
    /// values of an execution are unclear that are so by its bytes and by what is in force
    /// (`HasUnclear`).
    ///
    /// # Errors
    /// - `AllocError` for want of memory.
    ///
    /// MySQL: Client/Server Protocol, "Command Phase".
    pub fn read(
        alloc: Global,
        capabilities: Capabilities,
        parameters: Option<&StatementParameters>,
        payload: &'a [u8],
    ) -> Result<Command<'a>, AllocError>
        ensures reads { IfOk result (λ command. command_view command ≡
            command_at capabilities (option_copied parameters.entry) payload.now) }
        ensures unclear { IfOk result (λ command.
            HasUnclear capabilities (option_copied parameters.entry) payload.now command) }
    {
        match said(alloc, capabilities, parameters, payload)? {
            Some(command) => Ok(command),
            None => Ok(Command::Other(CowSlice::Borrowed(payload))),
        }
    }
    /// Whether a payload is laid out as a command that has a row, so that it isn't read as
    /// [`Command::Other`].
    ///
    /// # Errors
    /// - `AllocError` for want of memory.
    ///
    /// MySQL: Client/Server Protocol, "Command Phase".
    pub fn is_laid_out(
        alloc: Global,
        capabilities: Capabilities,
        parameters: Option<&StatementParameters>,
        payload: &[u8],
    ) -> Result<bool, AllocError>
        ensures { IfOk result (λ yes. yes ≡
            is_some (said capabilities (option_copied parameters.entry) payload.now)) }
    {
        let command = said(alloc, capabilities, parameters, payload)?;
        let is = command.is_some();
        // One step of the proof, in place of one for each part of a variant.
        drop(command);
        Ok(is)
    }
}
