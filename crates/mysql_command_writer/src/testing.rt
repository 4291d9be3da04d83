//! Whether a command's payload reads as it.

ghost use Rattle.std.specs.Prelude.{◌≡◌, ◌^◌, ◌↔◌, IfOk, IsTrue, Ok, Some, length, nat_lt};
ghost use Rattle.std.specs.List.{position_or_len};
ghost use Rattle.std.specs.Option.{option_copied};
ghost use Rattle.mysql_buf.specs.Reading.{is_zero};
ghost use Rattle.mysql_const.specs.BinlogDumpFlags.{binlog_dump_flags};
ghost use Rattle.mysql_field_constants.specs.Flags.{are_named};
ghost use Rattle.mysql_replication.specs.Blocks.{block_bytes};
ghost use Rattle.mysql_login.specs.ChangedUserViews.{change_user_view};
ghost use Rattle.mysql_login.specs.ChangedUsers.{change_in_force_at};
ghost use Rattle.mysql_replication.specs.Views.{binlog_dump_gtid_view, binlog_dump_view, register_slave_view};
ghost use Rattle.mysql_replication.specs.Views.{table_dump_view};
ghost use Rattle.mysql_commands.specs.Commands.{first_of};
ghost use Rattle.mysql_commands.specs.Commands as said;
ghost use Rattle.mysql_command_writer.specs.Plain.{IsPlain};
ghost use Rattle.mysql_command_writer.specs.Refusals.{ReadsBack, Tests};
ghost use Rattle.mysql_commands.specs.Views.{command_view};

use crate::refusal::CommandRefusal;
use crate::same::same_login;
use crate::sids::sids_are;
use bitflags::Flags;
use mysql_buf::ParseBuf;
use mysql_commands::{Capabilities, Command, StatementParameters};
use mysql_const::BinlogDumpFlags;
use mysql_fields::{MySerialize, WireError};
use mysql_login::ComChangeUser;
use mysql_replication::{
    ComBinlogDump, ComBinlogDumpGtid, ComRegisterSlave, ComTableDump, SidBlock,
};
use std::alloc::{AllocError, Global};
use std::borrow::CowSlice;

/// A zero stands in a text.
fn has_zero(text: &[u8]) -> bool
    ensures { result ≡ nat_lt (position_or_len is_zero text.now) (length text.now) }
{
    let mut rest = ParseBuf(text);
    rest.eat_null_str().len() < text.len()
}

/// Flags are read again.
fn refresh_reads(capabilities: Capabilities, parameters: Option<&StatementParameters>, flags: u8)
    ensures { ReadsBack capabilities (option_copied parameters.entry) (said.Refresh flags) }
{}

/// A level is read again.
fn shutdown_reads(capabilities: Capabilities, parameters: Option<&StatementParameters>, level: u8)
    ensures { ReadsBack capabilities (option_copied parameters.entry) (said.Shutdown (Some level)) }
{}

/// An id is read again.
fn id_reads(capabilities: Capabilities, parameters: Option<&StatementParameters>, id: u32)
    ensures kill { ReadsBack capabilities (option_copied parameters.entry) (said.ProcessKill id) }
    ensures close { ReadsBack capabilities (option_copied parameters.entry) (said.Close id) }
    ensures reset { ReadsBack capabilities (option_copied parameters.entry) (said.ResetStatement id) }
{}

/// An option is read again.
fn option_reads(capabilities: Capabilities, parameters: Option<&StatementParameters>, option: u16)
    ensures { ReadsBack capabilities (option_copied parameters.entry) (said.SetOption option) }
{}

/// A piece is read again.
fn long_data_reads(
    capabilities: Capabilities,
    parameters: Option<&StatementParameters>,
    id: u32,
    place: u16,
    bytes: &[u8],
)
    ensures { ReadsBack capabilities (option_copied parameters.entry) (said.LongData id place bytes.now) }
{}

/// An id and a number of rows are read again.
fn fetch_reads(
    capabilities: Capabilities,
    parameters: Option<&StatementParameters>,
    id: u32,
    rows: u32,
)
    ensures { ReadsBack capabilities (option_copied parameters.entry) (said.Fetch id rows) }
{}

/// A table's name has no zero.
#[tactic(auto, using(crate::proofs::FieldLists::cut_lists))]
fn test_field_list(
    capabilities: Capabilities,
    parameters: Option<&StatementParameters>,
    table: &[u8],
    wildcard: &[u8],
) -> Result<(), CommandRefusal>
    ensures { Tests capabilities (option_copied parameters.entry) (said.FieldList table.now wildcard.now) result }
{
    if has_zero(table) {
        return Err(CommandRefusal::ZeroByte);
    }
    Ok(())
}

/// Whether a payload reads as a change of user.
fn reads_as_login(
    alloc: Global,
    capabilities: Capabilities,
    login: &ComChangeUser,
    payload: &[u8],
) -> Result<bool, AllocError>
    ensures { IfOk result (λ same. IsTrue same ↔
        (first_of (change_in_force_at capabilities.protocol.0 payload.now) ≡ Some (change_user_view login.now))) }
{
    let mut rest = ParseBuf(payload);
    match ComChangeUser::read_in_force(alloc, capabilities.protocol, &mut rest) {
        Ok(read) => Ok(same_login(&read, login)),
        Err(WireError::Memory) => Err(AllocError),
        Err(_) => Ok(false),
    }
}

/// A change of user is read again from its payload.
#[tactic(auto, using(crate::proofs::Logins::logins_read, crate::proofs::Logins::logins_are_read))]
fn test_change_user(
    alloc: Global,
    capabilities: Capabilities,
    parameters: Option<&StatementParameters>,
    login: &ComChangeUser,
) -> Result<(), CommandRefusal>
    ensures { Tests capabilities (option_copied parameters.entry)
        (said.ChangeUser (change_user_view login.now)) result }
{
    let mut payload = Vec::new(alloc);
    login.put_in_force(capabilities.protocol, &mut payload)?;
    if reads_as_login(alloc, capabilities, login, payload.as_slice())? {
        return Ok(());
    }
    Err(CommandRefusal::ReadsOtherwise)
}

/// All flags of a request for the binary log have names.
fn have_names(flags: BinlogDumpFlags) -> bool
    ensures { result ≡ are_named binlog_dump_flags flags.0 }
{
    BinlogDumpFlags::from_bits(flags.0).is_some()
}

/// A request for the binary log has flags with names.
fn test_binlog_dump(
    capabilities: Capabilities,
    parameters: Option<&StatementParameters>,
    request: &ComBinlogDump,
) -> Result<(), CommandRefusal>
    ensures { Tests capabilities (option_copied parameters.entry)
        (said.BinlogDump (binlog_dump_view request.now)) result }
{
    // For the proof alone: these numbers fit their fields.
    let _pos = request.pos();
    let _server_id = request.server_id();
    if have_names(request.flags()) {
        Ok(())
    } else {
        Err(CommandRefusal::NamelessFlags)
    }
}

/// A request for a table has names that fit their lengths.
fn test_table_dump(
    capabilities: Capabilities,
    parameters: Option<&StatementParameters>,
    request: &ComTableDump,
) -> Result<(), CommandRefusal>
    ensures { Tests capabilities (option_copied parameters.entry)
        (said.TableDump (table_dump_view request.now)) result }
{
    if request.is_whole() {
        Ok(())
    } else {
        Err(CommandRefusal::TooLong)
    }
}

/// What a replica says of itself has names that fit their lengths.
fn test_register_slave(
    capabilities: Capabilities,
    parameters: Option<&StatementParameters>,
    replica: &ComRegisterSlave,
) -> Result<(), CommandRefusal>
    ensures { Tests capabilities (option_copied parameters.entry)
        (said.RegisterSlave (register_slave_view replica.now)) result }
{
    // For the proof alone: these numbers fit their fields.
    let _server_id = replica.server_id();
    let _port = replica.port();
    let _replication_rank = replica.replication_rank();
    let _master_id = replica.master_id();
    if replica.is_whole() {
        Ok(())
    } else {
        Err(CommandRefusal::TooLong)
    }
}

/// Whether the sets' block fits its length. That it is as long as its length can say at most tells
/// only the block itself.
fn has_short_block(alloc: Global, request: &ComBinlogDumpGtid) -> Result<bool, AllocError>
    ensures { IfOk result (λ short. short ≡
        nat_lt (length (block_bytes (binlog_dump_gtid_view request.now).sids)) (2 ^ 32)) }
{
    let block = SidBlock(CowSlice::Borrowed(request.sids()));
    if block.byte_len() < u32::MAX {
        return Ok(true);
    }
    let mut bytes = Vec::new(alloc);
    block.serialize(&mut bytes)?;
    Ok(bytes.len() <= u32::MAX as usize)
}

/// A request for the binary log has flags with names, and a name and sets that fit their lengths.
fn test_binlog_dump_gtid(
    alloc: Global,
    capabilities: Capabilities,
    parameters: Option<&StatementParameters>,
    request: &ComBinlogDumpGtid,
) -> Result<(), CommandRefusal>
    ensures { Tests capabilities (option_copied parameters.entry)
        (said.BinlogDumpGtid (binlog_dump_gtid_view request.now)) result }
{
    // For the proof alone: these numbers fit their fields.
    let _server_id = request.server_id();
    let _pos = request.pos();
    sids_are(request.sids());
    if !have_names(request.flags()) {
        return Err(CommandRefusal::NamelessFlags);
    }
    if !has_short_block(alloc, request)? {
        return Err(CommandRefusal::TooLong);
    }
    if !request.is_whole() {
        return Err(CommandRefusal::TooLong);
    }
    Ok(())
}

/// A payload that says no known command.
fn test_other(
    alloc: Global,
    capabilities: Capabilities,
    parameters: Option<&StatementParameters>,
    payload: &[u8],
) -> Result<(), CommandRefusal>
    ensures { Tests capabilities (option_copied parameters.entry) (said.Other payload.now) result }
{
    if Command::is_laid_out(alloc, capabilities, parameters, payload)? {
        return Err(CommandRefusal::ReadsAsCommand);
    }
    Ok(())
}

/// Whether a command's payload reads as it, or the cause why it doesn't.
pub(crate) fn test(
    alloc: Global,
    capabilities: Capabilities,
    parameters: Option<&StatementParameters>,
    command: &Command,
) -> Result<(), CommandRefusal>
    requires { IsPlain (command_view command.now) }
    ensures { Tests capabilities (option_copied parameters.entry) (command_view command.now) result }
{
    match command {
        Command::FieldList { table, wildcard } => {
            test_field_list(
                capabilities,
                parameters,
                table.as_slice(),
                wildcard.as_slice(),
            )
        }
        Command::BinlogDump(request) => test_binlog_dump(capabilities, parameters, request),
        Command::TableDump(request) => test_table_dump(capabilities, parameters, request),
        Command::RegisterSlave(replica) => test_register_slave(capabilities, parameters, replica),
        Command::BinlogDumpGtid(request) => test_binlog_dump_gtid(
            alloc,
            capabilities,
            parameters,
            request,
        ),
        Command::ChangeUser(login) => test_change_user(alloc, capabilities, parameters, login),
        Command::Query { .. } | Command::Execute(_) | Command::BulkExecute(_) => unreachable!(),
        Command::Other(payload) => test_other(alloc, capabilities, parameters, payload.as_slice()),
        Command::Refresh(flags) => {
            refresh_reads(capabilities, parameters, *flags);
            Ok(())
        }
        Command::Shutdown(Some(level)) => {
            shutdown_reads(capabilities, parameters, *level);
            Ok(())
        }
        Command::ProcessKill(id) | Command::Close(id) | Command::ResetStatement(id) => {
            id_reads(capabilities, parameters, *id);
            Ok(())
        }
        Command::SetOption(option) => {
            option_reads(capabilities, parameters, *option);
            Ok(())
        }
        Command::LongData {
            stmt_id,
            place,
            bytes,
        } => {
            long_data_reads(capabilities, parameters, *stmt_id, *place, bytes.as_slice());
            Ok(())
        }
        Command::Fetch { stmt_id, rows } => {
            fetch_reads(capabilities, parameters, *stmt_id, *rows);
            Ok(())
        }
        Command::Quit
        | Command::InitDb(_)
        | Command::CreateDb(_)
        | Command::DropDb(_)
        | Command::Shutdown(None)
        | Command::Statistics
        | Command::ProcessInfo
        | Command::Debug
        | Command::Ping
        | Command::Prepare(_)
        | Command::ResetConnection
        | Command::Clone(_) => Ok(()),
    }
}
