//! A command's payload.
//!
//!     put_command(alloc, capabilities, parameters, &Command::Ping, &mut payload)?;

ghost use Rattle.std.specs.Prelude.{◌∷◌};
ghost use Rattle.std.specs.Option.{option_copied};
ghost use Rattle.byteorder.specs.Endian.{little_bytes};
ghost use Rattle.mysql_fields.specs.Wire.{Appends};
ghost use Rattle.mysql_command_writer.specs.Plain.{IsPlain};
ghost use Rattle.mysql_command_writer.specs.Refusals.{Puts};
ghost use Rattle.mysql_command_writer.specs.Written.{command_bytes};
ghost use Rattle.mysql_commands.specs.Views.{command_view};

use crate::refusal::CommandRefusal;
use crate::testing::test;
use crate::values::{put_bulk, put_execute, put_query};
use mysql_commands::{Capabilities, Command, StatementParameters};
use mysql_fields::{EofBytes, LeU16, LeU32, MySerialize, NullBytes, RawBytes, RawInt, in_order};
use std::alloc::{AllocError, Global};

/// A number and the fields behind it.
fn append<T: MySerialize>(number: u8, fields: &T, out: &mut Vec<u8>) -> Result<(), AllocError>
    ensures { Appends result out.old.items out.new.items (number ∷ T.written fields.now) }
{
    in_order!([number], *fields).serialize(out)
}

/// A number and a text behind it.
pub(crate) fn append_text(number: u8, text: &[u8], out: &mut Vec<u8>) -> Result<(), AllocError>
    ensures { Appends result out.old.items out.new.items (number ∷ text.now) }
{
    let text: RawBytes<EofBytes> = RawBytes::from(text);
    append(number, &text, out)
}

/// A number and an id behind it.
fn append_id(number: u8, id: u32, out: &mut Vec<u8>) -> Result<(), AllocError>
    ensures { Appends result out.old.items out.new.items (number ∷ little_bytes 4 id) }
{
    let id: RawInt<LeU32> = RawInt::new(id);
    append(number, &id, out)
}

/// A command's payload.
fn append_command(
    capabilities: Capabilities,
    parameters: Option<&StatementParameters>,
    command: &Command,
    out: &mut Vec<u8>,
) -> Result<(), AllocError>
    requires { IsPlain (command_view command.now) }
    ensures { Appends result out.old.items out.new.items
        (command_bytes capabilities (option_copied parameters.entry) (command_view command.now)) }
{
    match command {
        Command::Quit => append(0x01, &(), out),
        Command::InitDb(schema) => append_text(0x02, schema.as_slice(), out),
        Command::FieldList { table, wildcard } => {
            let table: RawBytes<NullBytes> = RawBytes::from(table.as_slice());
            let wildcard: RawBytes<EofBytes> = RawBytes::from(wildcard.as_slice());
            append(0x04, &(table, wildcard), out)
        }
        Command::CreateDb(schema) => append_text(0x05, schema.as_slice(), out),
        Command::DropDb(schema) => append_text(0x06, schema.as_slice(), out),
        Command::Refresh(flags) => append(0x07, &RawInt::<u8>::new(*flags), out),
        Command::Shutdown(None) => append(0x08, &(), out),
        Command::Shutdown(Some(level)) => append(0x08, &RawInt::<u8>::new(*level), out),
        Command::Statistics => append(0x09, &(), out),
        Command::ProcessInfo => append(0x0a, &(), out),
        Command::ProcessKill(id) => append_id(0x0c, *id, out),
        Command::Debug => append(0x0d, &(), out),
        Command::Ping => append(0x0e, &(), out),
        Command::ChangeUser(login) => login.put_in_force(capabilities.protocol, out),
        Command::BinlogDump(request) => request.serialize(out),
        Command::TableDump(request) => request.serialize(out),
        Command::RegisterSlave(replica) => replica.serialize(out),
        Command::Prepare(sql) => append_text(0x16, sql.as_slice(), out),
        Command::LongData {
            stmt_id,
            place,
            bytes,
        } => {
            let stmt_id: RawInt<LeU32> = RawInt::new(*stmt_id);
            let place: RawInt<LeU16> = RawInt::new(*place);
            let bytes: RawBytes<EofBytes> = RawBytes::from(bytes.as_slice());
            append(0x18, &(stmt_id, (place, bytes)), out)
        }
        Command::Close(id) => append_id(0x19, *id, out),
        Command::ResetStatement(id) => append_id(0x1a, *id, out),
        Command::SetOption(option) => append(0x1b, &RawInt::<LeU16>::new(*option), out),
        Command::Fetch { stmt_id, rows } => {
            let stmt_id: RawInt<LeU32> = RawInt::new(*stmt_id);
            let rows: RawInt<LeU32> = RawInt::new(*rows);
            append(0x1c, &(stmt_id, rows), out)
        }
        Command::BinlogDumpGtid(request) => request.serialize(out),
        Command::ResetConnection => append(0x1f, &(), out),
        Command::Clone(arguments) => append_text(0x20, arguments.as_slice(), out),
        Command::Query { .. } | Command::Execute(_) | Command::BulkExecute(_) => unreachable!(),
        Command::Other(payload) => out.extend_from_slice(payload.as_slice()),
    }
}

/// Puts a command without values.
fn put_plain(
    alloc: Global,
    capabilities: Capabilities,
    parameters: Option<&StatementParameters>,
    command: &Command,
    out: &mut Vec<u8>,
) -> Result<(), CommandRefusal>
    requires { IsPlain (command_view command.now) }
    ensures { Puts capabilities (option_copied parameters.entry) (command_view command.now) out.old.items
        out.new.items result }
{
    test(alloc, capabilities, parameters, command)?;
    append_command(capabilities, parameters, command, out)?;
    Ok(())
}

/// Appends a command's payload, by the capabilities in force; by the same it reads as the command.
/// An execution is written by what is in force of its statement's parameters too.
///
/// Promise: exactly the command's bytes are appended, and they are read as the command, an unsigned
/// number below 2^63 as `Int`. Or nothing is appended, and the cause is told. For values that is
/// exactly where their types, cells or flags can't be written. Else it is exactly where the bytes
/// would be read otherwise (`Puts`, `command_bytes`, `cause_against`).
///
/// # Errors
/// - `NotAgreed` for attributes of a query where they aren't in force.
/// - `ZeroByte` inside the table's name of a list of its columns.
/// - `NamelessFlags` in a dump of the binary log.
/// - `TooLong` for a name in a request of a replica that is longer than its length can say.
/// - `UnknownStatement` for an execution of which no parameters are handed in.
/// - `ReadsAsCommand` for other bytes that are laid out as a command.
/// - `ReadsOtherwise` for values, types or flags of an execution, a bulk one or of attributes that
///   can't be written. It is also for a change of user that would be read as another one.
/// - `Memory`.
///
/// Nothing is appended then.
///
/// MySQL: Client/Server Protocol, "Command Phase".
pub fn put_command(
    alloc: Global,
    capabilities: Capabilities,
    parameters: Option<&StatementParameters>,
    command: &Command,
    out: &mut Vec<u8>,
) -> Result<(), CommandRefusal>
    ensures { Puts capabilities (option_copied parameters.entry) (command_view command.now) out.old.items
        out.new.items result }
{
    match command {
        Command::Query { attributes, sql } => put_query(
            alloc,
            capabilities,
            parameters,
            attributes.as_slice(),
            sql.as_slice(),
            out,
        ),
        Command::Execute(execution) => put_execute(capabilities, parameters, execution, out),
        Command::BulkExecute(execution) => put_bulk(
            alloc,
            capabilities,
            parameters,
            execution,
            out,
        ),
        Command::Quit
        | Command::InitDb(_)
        | Command::FieldList { .. }
        | Command::CreateDb(_)
        | Command::DropDb(_)
        | Command::Refresh(_)
        | Command::Shutdown(_)
        | Command::Statistics
        | Command::ProcessInfo
        | Command::ProcessKill(_)
        | Command::Debug
        | Command::Ping
        | Command::ChangeUser(_)
        | Command::BinlogDump(_)
        | Command::TableDump(_)
        | Command::RegisterSlave(_)
        | Command::Prepare(_)
        | Command::LongData { .. }
        | Command::Close(_)
        | Command::ResetStatement(_)
        | Command::SetOption(_)
        | Command::Fetch { .. }
        | Command::BinlogDumpGtid(_)
        | Command::ResetConnection
        | Command::Clone(_)
        | Command::Other(_) => put_plain(alloc, capabilities, parameters, command, out),
    }
}
