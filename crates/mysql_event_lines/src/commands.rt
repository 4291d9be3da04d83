//! The table of events, commands: what a client asks for.

use crate::fields::{
    Field, Held, Said, bytes, bytes_entry, bytes_or, entry, field_of, number, number_entry, secret,
};
use crate::form::{Form, write_said};
use crate::lists::List;
use crate::logins::{pairs_if, plugin_if};
use crate::secrets::Secrets;
use mysql_commands::Command;
use mysql_executions::{Attribute, BulkExecution, Execution, UnclearCells};
use mysql_login::ComChangeUser;
use mysql_replication::{ComBinlogDump, ComBinlogDumpGtid, ComRegisterSlave, ComTableDump};
use std::io;
use std::io::Write;

/// The first bytes of the commands that have an answer of an authentication, or a password.
const CHANGE_USER: u8 = 0x11;

const REGISTER_SLAVE: u8 = 0x15;

fn change_said<'e>(change: &'e ComChangeUser<'_>) -> Said<'e> {
    let absent = Held::Absent;
    let (charset, plugin, pairs) = match change.more_data() {
        Some(more) => (
            Held::Number(u64::from(more.character_set())),
            plugin_if(more.auth_plugin()),
            pairs_if(more.attributes()),
        ),
        None => (
            absent,
            field_of("plugin", absent),
            field_of("attributes", absent),
        ),
    };
    entry("ChangeUser").with(&[
        bytes("user", change.user()).named(),
        secret("answer", change.auth_plugin_data()).long(),
        bytes("database", change.database()).named(),
        field_of("charset", charset).long(),
        plugin.named(),
        pairs.long(),
    ])
}

fn dump_said<'e>(dump: &'e ComBinlogDump<'_>) -> Said<'e> {
    entry("BinlogDump").with(&[
        number("position", u64::from(dump.pos())).named(),
        number("flags", u64::from(dump.flags().0)).long(),
        number("server", u64::from(dump.server_id())).long(),
        bytes("file", dump.filename_raw()).named(),
    ])
}

fn gtid_dump_said<'e>(dump: &'e ComBinlogDumpGtid<'_>) -> Said<'e> {
    entry("BinlogDumpGtid").with(&[
        number("flags", u64::from(dump.flags().0)).long(),
        number("server", u64::from(dump.server_id())).long(),
        bytes("file", dump.filename_raw()).named(),
        number("position", dump.pos()).named(),
        number("sets", dump.sids().len() as u64).long(),
    ])
}

fn registration_said<'e>(replica: &'e ComRegisterSlave<'_>) -> Said<'e> {
    entry("RegisterSlave").with(&[
        number("server", u64::from(replica.server_id())),
        bytes("host", replica.hostname_raw()).long(),
        bytes("user", replica.user_raw()).long(),
        secret("password", replica.password_raw()).long(),
        number("port", u64::from(replica.port())).long(),
        number("rank", u64::from(replica.replication_rank())).long(),
        number("master", u64::from(replica.master_id())).long(),
    ])
}

fn table_dump_said<'e>(dump: &'e ComTableDump<'_>) -> Said<'e> {
    entry("TableDump").with(&[
        bytes("database", dump.database_raw()),
        bytes("table", dump.table_raw()),
    ])
}

/// Attributes of a query, or those of this execution.
fn attributes<'e>(attributes: &'e [Attribute], execution: Option<&'e Execution>) -> Field<'e> {
    field_of(
        "attributes",
        Held::List(List::Attributes(attributes, execution)),
    )
    .named()
}

/// The bytes that are left over, where there are some.
fn rest_if(rest: &[u8]) -> Field<'_> {
    let rest = if rest.is_empty() { None } else { Some(rest) };
    bytes_or("rest", Held::Usual, rest).named()
}

/// The bytes of cells that servers read each their way, where there are some.
fn unclear_if(unclear: &Option<UnclearCells>) -> Field<'_> {
    match unclear {
        Some(cells) => bytes("unclear", cells.bytes.as_slice()).named(),
        None => field_of("unclear", Held::Usual),
    }
}

fn execution_said(execution: &Execution) -> Said<'_> {
    let counts = if execution.count_available { 8 } else { 0 };
    let flags = execution.cursor.0 | counts | execution.nameless_flags;
    let flags = number("flags", u64::from(flags));
    let iterations = match execution.iterations {
        1 => Held::Usual,
        iterations => Held::Number(u64::from(iterations)),
    };
    entry("Execute").with(&[
        number("id", u64::from(execution.statement)),
        if execution.nameless_flags == 0 {
            flags.long()
        } else {
            flags.named()
        },
        field_of("iterations", iterations).named(),
        field_of("parameters", Held::List(List::Parameters(execution))),
        attributes(execution.attributes.as_slice(), Some(execution)),
        rest_if(execution.rest.as_slice()),
        unclear_if(&execution.unclear.cells),
    ])
}

fn bulk_said(bulk: &BulkExecution) -> Said<'_> {
    let units = if bulk.unit_results { 0x40 } else { 0 };
    let types = if bulk.types.is_some() { 0x80 } else { 0 };
    entry("BulkExecute").with(&[
        number("id", u64::from(bulk.statement)),
        number("flags", units | types).long(),
        field_of("sets", Held::List(List::Sets(bulk))),
        rest_if(bulk.rest.as_slice()),
        unclear_if(&bulk.unclear),
    ])
}

/// A payload that is laid out as no command that is known: its first byte, and those behind it. One
/// that begins as a change of user or a replica's registration may have a password.
fn other_said(payload: &[u8]) -> Said<'_> {
    let (byte, data) = match payload {
        [] => (Held::Absent, payload),
        [byte, data @ ..] => (Held::Number(u64::from(*byte)), data),
    };
    let data = match payload {
        [CHANGE_USER | REGISTER_SLAVE, ..] => secret("data", data),
        _ => bytes("data", data),
    };
    entry("Other").with(&[field_of("byte", byte), data])
}

fn long_data_said(statement: u32, place: u16, piece: &[u8]) -> Said<'_> {
    entry("LongData").with(&[
        number("id", u64::from(statement)),
        number("place", u64::from(place)),
        bytes("data", piece),
    ])
}

fn fetch_said<'e>(statement: u32, rows: u32) -> Said<'e> {
    entry("Fetch").with(&[
        number("id", u64::from(statement)),
        number("rows", u64::from(rows)),
    ])
}

fn query_said<'e>(given: &'e [Attribute], sql: &'e [u8]) -> Said<'e> {
    entry("Query").with(&[attributes(given, None), bytes("text", sql)])
}

fn field_list_said<'e>(table: &'e [u8], wildcard: &'e [u8]) -> Said<'e> {
    entry("FieldList").with(&[bytes("table", table), bytes("wildcard", wildcard)])
}

fn shutdown_said<'e>(level: Option<u8>) -> Said<'e> {
    let level = match level {
        Some(level) => Held::Number(u64::from(level)),
        None => Held::Absent,
    };
    entry("Shutdown").with(&[field_of("level", level)])
}

/// What a command of these names says.
fn further_said<'e>(command: &'e Command<'_>) -> Said<'e> {
    match command {
        Command::ChangeUser(change) => change_said(change),
        Command::BinlogDump(dump) => dump_said(dump),
        Command::BinlogDumpGtid(dump) => gtid_dump_said(dump),
        Command::TableDump(dump) => table_dump_said(dump),
        Command::RegisterSlave(replica) => registration_said(replica),
        Command::Prepare(sql) => bytes_entry("Prepare", "text", sql.as_slice()),
        Command::Execute(execution) => execution_said(execution),
        Command::BulkExecute(bulk) => bulk_said(bulk),
        Command::LongData {
            stmt_id,
            place,
            bytes: piece,
        } => long_data_said(*stmt_id, *place, piece.as_slice()),
        Command::Close(id) => number_entry("Close", "id", u64::from(*id)),
        Command::ResetStatement(id) => number_entry("ResetStatement", "id", u64::from(*id)),
        Command::Fetch { stmt_id, rows } => fetch_said(*stmt_id, *rows),
        Command::Other(payload) => other_said(payload.as_slice()),
        _ => entry(""),
    }
}

/// What a client's command says.
///
/// MySQL: Client/Server Protocol, "Command Phase".
pub fn command_said<'e>(command: &'e Command<'_>) -> Said<'e> {
    match command {
        Command::Quit => entry("Quit"),
        Command::InitDb(schema) => bytes_entry("InitDb", "schema", schema.as_slice()),
        Command::Query {
            attributes: given,
            sql,
        } => query_said(given.as_slice(), sql.as_slice()),
        Command::FieldList { table, wildcard } => {
            field_list_said(table.as_slice(), wildcard.as_slice())
        }
        Command::CreateDb(schema) => bytes_entry("CreateDb", "schema", schema.as_slice()),
        Command::DropDb(schema) => bytes_entry("DropDb", "schema", schema.as_slice()),
        Command::Refresh(what) => number_entry("Refresh", "what", u64::from(*what)),
        Command::Shutdown(level) => shutdown_said(*level),
        Command::Statistics => entry("Statistics"),
        Command::ProcessInfo => entry("ProcessInfo"),
        Command::ProcessKill(id) => number_entry("ProcessKill", "id", u64::from(*id)),
        Command::Debug => entry("Debug"),
        Command::Ping => entry("Ping"),
        Command::SetOption(option) => number_entry("SetOption", "option", u64::from(*option)),
        Command::ResetConnection => entry("ResetConnection"),
        Command::Clone(data) => bytes_entry("Clone", "data", data.as_slice()),
        _ => further_said(command),
    }
}

/// Writes what a client asks for, as a line without its end. Texts of statements are written as
/// they came, with passwords in them.
///
/// # Errors
/// - Those of the output.
pub fn write_command<W: Write>(
    output: &mut W,
    command: &Command,
    secrets: Secrets,
) -> io::Result<()> {
    write_said(output, Form::Long(secrets), &command_said(command))
}
