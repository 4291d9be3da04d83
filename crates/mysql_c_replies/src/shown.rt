//! What C sees of the results of a reply, of values, columns and changes of the session's state,
//! and of the reply's end.

ghost use Rattle.std.specs.Prelude.{◌≡◌, IfSome, false, length, option_map};
ghost use Rattle.mysql_columns.specs.Views.{column_view};
ghost use Rattle.mysql_ok_packets.specs.OkPackets.{all_states_at};
ghost use Rattle.mysql_ok_packets.specs.Views.{ok_packet_view};
ghost use Rattle.mysql_ok_packets.specs.Written.{or_empty};
ghost use Rattle.mysql_server_packets.specs.Views.{prepare_ok_view, server_error_view};
ghost use Rattle.mysql_replies.specs.Together.{ErrorResult};
ghost use Rattle.mysql_replies.specs.Views.{outcome_view};
ghost use Rattle.mysql_c_handles.specs.Codes.{code_number};
ghost use Rattle.mysql_c_replies.specs.Shown.{CountsChanges, ShowsColumn, ShowsOutcome, ShowsValue, UnlessMemory};
ghost use Rattle.mysql_c_replies.specs.Shown.{nothing_shown, packet_shown, reply_end_shown, terminator_shown};
ghost use Rattle.mysql_c_replies.specs.States.{ShowsChangeAt};

use mysql_buf::ParseBuf;
use mysql_c_handles::{Code, ShownEnd, number_of_reply_fault, start_of};
use mysql_cells::Value;
use mysql_columns::Column;
use mysql_fields::{ParseExt, WireError};
use mysql_ok_packets::{OkPacket, SessionStateInfo};
use mysql_replies::{ReplyEnd, ReplyResult};
use mysql_server_packets::{ServerError, StmtPacket};
use std::alloc::Global;

/// A result: its kind, and what that kind has.
///
/// The kinds are 0 OK, 1 rows, 2 a prepared statement, 3 an error, 4 a request for a file. 5 is rows
/// whose columns aren't known, 6 columns of a table, 7 a line. The text is what an OK packet tells,
/// an error's message, a file's name or the line. The changes of the session are those that an OK
/// packet tells, as it has them, `states` of them. `ended` is false of rows and of columns of a table
/// alone, where the packet that ends them didn't come.
#[repr(C)]
#[derive(Clone, Copy)]
pub struct ShownResult {
    pub kind: u32,
    pub status: u16,
    pub warnings: u16,
    pub error_code: u16,
    pub statement: u32,
    pub affected_rows: u64,
    pub last_insert_id: u64,
    pub columns: usize,
    pub rows: usize,
    pub params: usize,
    pub states: usize,
    pub text: *const u8,
    pub len: usize,
    pub changes: *const u8,
    pub changes_len: usize,
    pub state: [u8; 5],
    pub state_len: usize,
    pub ended: bool,
}

/// A value: its kind, and what that kind has.
///
/// The kinds are 0 NULL, 1 a number with a sign, 2 one without, 3 bytes. 4 is a float by its bits,
/// 5 a double by its bits, 6 a date, 7 a duration.
#[repr(C)]
#[derive(Clone, Copy)]
pub struct ShownValue {
    pub kind: u32,
    pub negative: bool,
    pub month: u8,
    pub day: u8,
    pub hour: u8,
    pub minute: u8,
    pub second: u8,
    pub year: u16,
    pub days: u32,
    pub micros: u32,
    pub int: i64,
    pub uint: u64,
    pub bytes: *const u8,
    pub len: usize,
}

/// A column: its numbers, and its names where they are.
#[repr(C)]
#[derive(Clone, Copy)]
pub struct ShownColumn {
    pub column_type: u8,
    pub decimals: u8,
    pub flags: u16,
    pub charset: u16,
    pub length: u32,
    pub schema: *const u8,
    pub schema_len: usize,
    pub table: *const u8,
    pub table_len: usize,
    pub org_table: *const u8,
    pub org_table_len: usize,
    pub name: *const u8,
    pub name_len: usize,
    pub org_name: *const u8,
    pub org_name_len: usize,
}

/// What C sees of a reply's end.
pub(crate) fn shown_reply_end(end: ReplyEnd) -> ShownEnd
    ensures { result ≡ reply_end_shown end }
{
    match end {
        ReplyEnd::Whole => ShownEnd {
            kind: 0,
            fault: 0,
            payload: 0,
        },
        ReplyEnd::Unfinished => ShownEnd {
            kind: 1,
            fault: 0,
            payload: 0,
        },
        ReplyEnd::Fault(payload, fault) => ShownEnd {
            kind: 3,
            fault: number_of_reply_fault(fault),
            payload,
        },
    }
}

/// A result of this kind with this text, which tells nothing else.
fn telling(kind: u32, text: &[u8]) -> ShownResult
    ensures { result ≡ record (nothing_shown result) { kind = kind; len = length text.now } }
{
    ShownResult {
        kind,
        status: 0,
        warnings: 0,
        error_code: 0,
        statement: 0,
        affected_rows: 0,
        last_insert_id: 0,
        columns: 0,
        rows: 0,
        params: 0,
        states: 0,
        text: start_of(text),
        len: text.len(),
        changes: start_of(&[]),
        changes_len: 0,
        state: [0; 5],
        state_len: 0,
        ended: true,
    }
}

/// Counts the changes of the session's state that a packet tells; none where they can't be read.
/// Nothing is counted where memory is refused.
fn count_changes(alloc: Global, ok: &OkPacket<'_>) -> Option<usize>
    ensures { CountsChanges (all_states_at (ok_packet_view ok.now).session_state_info) result }
{
    match ok.session_state_info(alloc) {
        Ok(changes) => Some(changes.len()),
        Err(WireError::Memory) => None,
        Err(_) => Some(0),
    }
}

/// A result of this kind that tells what an OK packet does. Nothing is told where memory is
/// refused.
fn telling_packet(alloc: Global, kind: u32, ok: &OkPacket<'_>) -> Option<ShownResult>
    ensures { IfSome result (λ shown. shown ≡
        record (packet_shown (ok_packet_view ok.now) (nothing_shown shown)) { kind = kind }) }
{
    let states = count_changes(alloc, ok)?;
    let changes = states_in(ok);
    let mut shown = telling(kind, ok.info_ref().unwrap_or(&[]));
    shown.affected_rows = ok.affected_rows();
    shown.last_insert_id = ok.last_insert_id().unwrap_or(0);
    shown.status = ok.status_flags().0;
    shown.warnings = ok.warnings();
    shown.states = states;
    shown.changes = start_of(changes);
    shown.changes_len = changes.len();
    Some(shown)
}

/// Rows of this kind, so many under so many columns, and what the packet tells that ended them,
/// where it came. Nothing is told where memory is refused.
fn telling_rows(
    alloc: Global,
    kind: u32,
    columns: usize,
    rows: usize,
    terminator: &Option<OkPacket<'static>>,
) -> Option<ShownResult>
    ensures { IfSome result (λ shown. shown ≡
        record (terminator_shown (option_map ok_packet_view terminator.now)
        (nothing_shown shown)) { kind = kind; columns = columns; rows = rows }) }
{
    let mut shown = match terminator {
        Some(ok) => telling_packet(alloc, kind, ok)?,
        None => telling_open_rows(kind),
    };
    shown.columns = columns;
    shown.rows = rows;
    Some(shown)
}

/// Rows of this kind that go on.
fn telling_open_rows(kind: u32) -> ShownResult
    ensures { result ≡ record (nothing_shown result) { kind = kind; ended = false } }
{
    let mut shown = telling(kind, &[]);
    shown.ended = false;
    shown
}

/// A prepared statement with so many parameters and columns.
fn telling_prepared(stmt: &StmtPacket, params: usize, columns: usize) -> ShownResult
    ensures { result ≡ record (nothing_shown result) {
      kind = 2;
      statement =
          (prepare_ok_view stmt.now).statement_id;
      params = params;
      columns = columns;
      warnings =
          (prepare_ok_view stmt.now).warning_count;
    } }
{
    let mut shown = telling(2, &[]);
    shown.statement = stmt.statement_id();
    shown.params = params;
    shown.columns = columns;
    shown.warnings = stmt.warning_count();
    shown
}

/// An error.
fn telling_error(error: &ServerError<'static>) -> ShownResult
    ensures { ShowsOutcome (ErrorResult (server_error_view error.now)) result }
{
    let mut shown = telling(3, error.message_ref());
    shown.error_code = error.error_code();
    if let Some(state) = error.sql_state_ref() {
        shown.state = state.as_bytes();
        shown.state_len = 5;
    }
    shown
}

/// What C sees of a result. Nothing is told where memory is refused.
fn telling_result(alloc: Global, found: &ReplyResult) -> Option<ShownResult>
    ensures { IfSome result (ShowsOutcome (outcome_view found.now)) }
{
    match found {
        ReplyResult::Ok(ok) => telling_packet(alloc, 0, ok),
        ReplyResult::Rows {
            columns,
            rows,
            terminator,
        } => telling_rows(alloc, 1, columns.as_slice().len(), rows.len(), terminator),
        ReplyResult::Prepared {
            stmt,
            params,
            columns,
        } => Some(telling_prepared(stmt, params.len(), columns.len())),
        ReplyResult::Error(error) => Some(telling_error(error)),
        ReplyResult::File(file) => Some(telling(4, file.file_name_ref())),
        ReplyResult::RawRows { rows, terminator } => {
            telling_rows(alloc, 5, 0, rows.len(), terminator)
        }
        ReplyResult::Fields { fields, terminator } => {
            telling_rows(alloc, 6, fields.len(), 0, terminator)
        }
        ReplyResult::Line(bytes) => Some(telling(7, bytes.as_slice())),
    }
}

/// Shows a result, in place of all that was shown before.
pub(crate) fn show_result(alloc: Global, found: &ReplyResult, shown: &mut ShownResult) -> Code
    ensures { UnlessMemory (code_number result) (ShowsOutcome (outcome_view found.now) shown.new) }
{
    match telling_result(alloc, found) {
        Some(told) => {
            *shown = told;
            Code::Done
        }
        None => Code::Memory,
    }
}

/// The changes of the session's state that a packet tells, as bytes.
fn states_in<'a>(ok: &'a OkPacket<'_>) -> &'a [u8]
    ensures { result.now ≡ or_empty (ok_packet_view ok.now).session_state_info }
{
    match ok.session_state_info_ref() {
        Some(states) => states,
        None => &[],
    }
}

/// Shows the change of the session's state at a position of those that a packet tells, and moves
/// the position behind it. Its bytes are in the packet.
pub(crate) fn show_state(
    alloc: Global,
    ok: &OkPacket<'_>,
    position: &mut usize,
    kind: &mut u8,
    data: &mut *const u8,
    len: &mut usize,
) -> Code
    ensures { ShowsChangeAt (ok_packet_view ok.now).session_state_info position.old
        (code_number result) position.new kind.new len.new }
{
    let bytes = states_in(ok);
    if *position >= bytes.len() {
        return Code::OutOfRange;
    }
    let mut rest = ParseBuf(&bytes[*position..]);
    let read: Result<SessionStateInfo<'_>, WireError> = rest.parse(alloc, ());
    let Ok(change) = read else {
        return Code::BadPacket;
    };
    *kind = u8::from(change.data_type());
    *data = start_of(change.data_ref());
    *len = change.data_ref().len();
    *position = bytes.len() - rest.0.len();
    Code::Done
}

/// Shows a column. Its names stay where they are.
pub fn show_column(column: &Column, shown: &mut ShownColumn)
    ensures { ShowsColumn (column_view column.now) shown.new }
{
    shown.column_type = u8::from(column.column_type());
    shown.decimals = column.decimals();
    shown.flags = column.flags().0;
    shown.charset = column.character_set();
    shown.length = column.column_length();
    shown.schema = start_of(column.schema_ref());
    shown.schema_len = column.schema_ref().len();
    shown.table = start_of(column.table_ref());
    shown.table_len = column.table_ref().len();
    shown.org_table = start_of(column.org_table_ref());
    shown.org_table_len = column.org_table_ref().len();
    shown.name = start_of(column.name_ref());
    shown.name_len = column.name_ref().len();
    shown.org_name = start_of(column.org_name_ref());
    shown.org_name_len = column.org_name_ref().len();
}

/// Shows a value. Bytes stay where they are.
pub fn show_value(value: &Value, shown: &mut ShownValue)
    ensures { ShowsValue value.now shown.new }
{
    match value {
        Value::NULL => shown.kind = 0,
        Value::Int(number) => {
            shown.kind = 1;
            shown.int = *number;
        }
        Value::UInt(number) => {
            shown.kind = 2;
            shown.uint = *number;
        }
        Value::Bytes(bytes) => {
            let bytes = bytes.as_slice();
            shown.kind = 3;
            shown.bytes = start_of(bytes);
            shown.len = bytes.len();
        }
        Value::Float(bits) => {
            shown.kind = 4;
            shown.uint = *bits as u64;
        }
        Value::Double(bits) => {
            shown.kind = 5;
            shown.uint = *bits;
        }
        Value::Date(year, month, day, hour, minute, second, micros) => {
            shown.kind = 6;
            shown.year = *year;
            shown.month = *month;
            shown.day = *day;
            shown.hour = *hour;
            shown.minute = *minute;
            shown.second = *second;
            shown.micros = *micros;
        }
        Value::Time(negative, days, hours, minutes, seconds, micros) => {
            shown.kind = 7;
            shown.negative = *negative;
            shown.days = *days;
            shown.hour = *hours;
            shown.minute = *minutes;
            shown.second = *seconds;
            shown.micros = *micros;
        }
    }
}
