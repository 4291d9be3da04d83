//! What C sees of commands.

ghost use Rattle.std.specs.Prelude.{◌≡◌};
ghost use Rattle.mysql_commands.specs.Views.{command_view};
ghost use Rattle.mysql_executions.specs.Views.{bulk_of, execution_of};
ghost use Rattle.mysql_replication.specs.Views.{binlog_dump_gtid_view, binlog_dump_view};
ghost use Rattle.mysql_replication.specs.Views.{register_slave_view, table_dump_view};
ghost use Rattle.mysql_c_connection_events.specs.Commands.{bulk_shown, command_shown, dump_shown, execution_shown};
ghost use Rattle.mysql_c_connection_events.specs.Commands.{fetch_shown, gtid_dump_shown, list_shown, long_data_shown};
ghost use Rattle.mysql_c_connection_events.specs.Commands.{other_shown, query_shown, replica_shown};
ghost use Rattle.mysql_c_connection_events.specs.Commands.{table_shown};

use crate::logins::telling_change;
use crate::shown::{ShownEvent, blank, with_data, with_number, with_statement, with_text};
use mysql_c_handles::start_of;
use mysql_commands::{BulkExecution, Command, Execution};
use mysql_replication::{ComBinlogDump, ComBinlogDumpGtid, ComRegisterSlave, ComTableDump};

/// A query with so many attributes.
fn telling_query(attributes: usize, sql: &[u8]) -> ShownEvent
    ensures { result ≡ query_shown attributes sql.now result }
{
    let mut shown = with_text(0x103, 0, sql);
    shown.attributes = attributes;
    shown
}

/// An execution of a statement of this text.
fn telling_execution(execution: &Execution, text: &[u8]) -> ShownEvent
    ensures { result ≡ execution_shown (execution_of execution.now) text.now result }
{
    let mut shown = with_text(0x117, 0, text);
    shown.statement = execution.statement;
    shown.flags = execution.cursor.0 as u32 + execution.nameless_flags as u32;
    shown.number = execution.iterations;
    shown.params = execution.parameters.len();
    shown.attributes = execution.attributes.len();
    shown.data = start_of(execution.rest.as_slice());
    shown.data_len = execution.rest.as_slice().len();
    shown
}

/// A bulk execution of a statement of this text.
fn telling_bulk(execution: &BulkExecution, text: &[u8]) -> ShownEvent
    ensures { result ≡ bulk_shown (bulk_of execution.now) text.now result }
{
    let mut shown = with_text(0x1fa, 0, text);
    shown.statement = execution.statement;
    shown.rows = execution.rows.len();
    if let Some(row) = execution.rows.get(0) {
        shown.params = row.len();
    }
    shown.data = start_of(execution.rest.as_slice());
    shown.data_len = execution.rest.as_slice().len();
    shown
}

/// A piece of a parameter.
fn telling_long_data(statement: u32, place: u16, bytes: &[u8]) -> ShownEvent
    ensures { result ≡ long_data_shown statement place bytes.now result }
{
    let mut shown = with_data(0x118, 0, bytes);
    shown.statement = statement;
    shown.number = place as u32;
    shown
}

/// A request for a binary log from a position.
fn telling_dump(request: &ComBinlogDump<'_>) -> ShownEvent
    ensures { result ≡ dump_shown (binlog_dump_view request.now) result }
{
    let mut shown = with_text(0x112, 0, request.filename_raw());
    shown.number = request.server_id();
    shown.position = request.pos() as u64;
    shown.flags = request.flags().0 as u32;
    shown
}

/// A request for a binary log without what is known.
fn telling_gtid_dump(request: &ComBinlogDumpGtid<'_>) -> ShownEvent
    ensures { result ≡ gtid_dump_shown (binlog_dump_gtid_view request.now) result }
{
    let mut shown = with_text(0x11e, 0, request.filename_raw());
    shown.number = request.server_id();
    shown.position = request.pos();
    shown.flags = request.flags().0 as u32;
    shown
}

/// A request for a table.
fn telling_table(request: &ComTableDump<'_>) -> ShownEvent
    ensures { result ≡ table_shown (table_dump_view request.now) result }
{
    let mut shown = with_text(0x113, 0, request.table_raw());
    shown.database = start_of(request.database_raw());
    shown.database_len = request.database_raw().len();
    shown
}

/// What a replica says of itself.
fn telling_replica(replica: &ComRegisterSlave<'_>) -> ShownEvent
    ensures { result ≡ replica_shown (register_slave_view replica.now) result }
{
    let mut shown = with_text(0x115, 0, replica.hostname_raw());
    shown.number = replica.server_id();
    shown.user = start_of(replica.user_raw());
    shown.user_len = replica.user_raw().len();
    shown
}

/// The columns of a table.
fn telling_list(table: &[u8], wildcard: &[u8]) -> ShownEvent
    ensures { result ≡ list_shown table.now wildcard.now result }
{
    let mut shown = with_text(0x104, 0, table);
    shown.data = start_of(wildcard);
    shown.data_len = wildcard.len();
    shown
}

/// Rows of an open cursor.
fn telling_fetch(statement: u32, rows: u32) -> ShownEvent
    ensures { result ≡ fetch_shown statement rows result }
{
    let mut shown = with_statement(0x11c, 0, statement);
    shown.rows = rows as usize;
    shown
}

/// A payload that is laid out as no command.
fn telling_other(payload: &[u8]) -> ShownEvent
    ensures { result ≡ other_shown payload.now result }
{
    let mut shown = with_data(0x200, 0, payload);
    if let Some(first) = payload.get(0) {
        shown.number = *first as u32;
    }
    shown
}

/// What the client asks for. The text is that of the statement that it executes, if it does.
///
/// Promise: each field but the addresses of its texts is the command's (`command_shown`).
///
/// MySQL: Client/Server Protocol, "Command Phase".
pub fn telling_command(command: &Command<'_>, text: &[u8]) -> ShownEvent
    ensures { result ≡ command_shown text.now (command_view command.now) result }
{
    match command {
        Command::Quit => blank(0x101, 0),
        Command::InitDb(schema) => with_text(0x102, 0, schema.as_slice()),
        Command::Query { attributes, sql } => telling_query(attributes.len(), sql.as_slice()),
        Command::FieldList { table, wildcard } => {
            telling_list(table.as_slice(), wildcard.as_slice())
        }
        Command::CreateDb(schema) => with_text(0x105, 0, schema.as_slice()),
        Command::DropDb(schema) => with_text(0x106, 0, schema.as_slice()),
        Command::Refresh(flags) => with_number(0x107, 0, *flags as u32),
        Command::Shutdown(level) => with_number(0x108, 0, level.unwrap_or(0) as u32),
        Command::Statistics => blank(0x109, 0),
        Command::ProcessInfo => blank(0x10a, 0),
        Command::ProcessKill(id) => with_number(0x10c, 0, *id),
        Command::Debug => blank(0x10d, 0),
        Command::Ping => blank(0x10e, 0),
        Command::ChangeUser(login) => telling_change(login),
        Command::BinlogDump(request) => telling_dump(request),
        Command::TableDump(request) => telling_table(request),
        Command::RegisterSlave(replica) => telling_replica(replica),
        Command::Prepare(sql) => with_text(0x116, 0, sql.as_slice()),
        Command::Execute(execution) => telling_execution(execution, text),
        Command::LongData {
            stmt_id,
            place,
            bytes,
        } => telling_long_data(*stmt_id, *place, bytes.as_slice()),
        Command::Close(id) => with_statement(0x119, 0, *id),
        Command::ResetStatement(id) => with_statement(0x11a, 0, *id),
        Command::SetOption(option) => with_number(0x11b, 0, *option as u32),
        Command::Fetch { stmt_id, rows } => telling_fetch(*stmt_id, *rows),
        Command::BinlogDumpGtid(request) => telling_gtid_dump(request),
        Command::ResetConnection => blank(0x11f, 0),
        Command::Clone(arguments) => with_data(0x120, 0, arguments.as_slice()),
        Command::BulkExecute(execution) => telling_bulk(execution, text),
        Command::Other(payload) => telling_other(payload.as_slice()),
    }
}
