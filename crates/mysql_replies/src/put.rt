//! The event of a payload, put into what there is of a result.

ghost use Rattle.std.specs.Prelude.{◌≡◌, ◌++◌, ◌∷◌, [], IfOk};
ghost use Rattle.mysql_columns.specs.Views.{column_view, listed_view};
ghost use Rattle.mysql_ok_packets.specs.Views.{ok_packet_view};
ghost use Rattle.mysql_rows.specs.Views.{column_views, row_view, shared_columns};
ghost use Rattle.mysql_server_packets.specs.Views.{prepare_ok_view, server_error_view};
ghost use Rattle.mysql_reply_events.specs.Views.{due_view, event_view};
ghost use Rattle.mysql_replies.specs.Together as together;
ghost use Rattle.mysql_replies.specs.Together.{ErrorResult, NoPart, leaves_open, listed};
ghost use Rattle.mysql_replies.specs.Putting.{IsPut, awaits_rows, outcome_list};
ghost use Rattle.mysql_replies.specs.Views.{outcome_view, part_view};

use crate::open_rows::OpenRows;
use crate::part::{Listed, Part, Stepped};
use crate::results::ReplyResult;
use mysql_columns::{Column, ListedColumn};
use mysql_ok_packets::OkPacket;
use mysql_reply_events::{Due, EventReader, ReplyEvent};
use mysql_rows::Row;
use mysql_server_packets::{ServerError, StmtPacket};
use std::alloc::{AllocError, Global};
use std::rc::RcSlice;

/// Rows are due.
fn is_rows(due: Due) -> bool
    ensures { result ≡ awaits_rows (due_view due) }
{
    match due {
        Due::Rows { known: _ } => true,
        _ => false,
    }
}

/// Rows are read by columns that are known, where they or what stands before them is due.
fn are_known(due: Due) -> bool
    ensures { result ≡ together.are_known (due_view due) }
{
    match due {
        Due::Rows { known } => known,
        Due::ColumnsEnd { group: _, known } => known,
        _ => true,
    }
}

/// The columns that stand; none where none do.
fn columns_in(alloc: Global, events: &EventReader) -> Result<RcSlice<Column>, AllocError>
    ensures { IfOk result (λ columns. shared_columns columns ≡ together.columns_in events.now.so_far) }
{
    match events.share_columns()? {
        Some(columns) => Ok(columns),
        None => Ok(RcSlice::from_vec(Vec::new(alloc))?),
    }
}

/// Rows are due.
fn rows_due(alloc: Global, events: &EventReader, known: bool) -> Stepped
    ensures { IsPut [] (leaves_open (together.rows_due known (together.columns_in events.now.so_far))) result }
{
    if !known {
        return Stepped::Moved(Listed::None, Part::RawRows(Vec::new(alloc)));
    }
    match columns_in(alloc, events) {
        Ok(columns) => Stepped::Moved(Listed::None, Part::Rows(OpenRows::new(alloc, columns))),
        Err(_) => Stepped::Failed(Part::Nothing),
    }
}

/// What there is of a result set behind its count or a column.
fn set_at(alloc: Global, events: &EventReader, known: bool) -> Stepped
    ensures { IsPut [] (leaves_open (together.set_at known (together.columns_in events.now.so_far)
        events.now.so_far.awaited)) result }
{
    if is_rows(events.due()) {
        rows_due(alloc, events, known)
    } else {
        Stepped::Moved(Listed::None, Part::Set { known })
    }
}

/// Rows, or what else this packet ends.
fn ended(part: Part, ok: OkPacket<'static>) -> ReplyResult
    ensures { outcome_view result ≡ together.ended (part_view part) (ok_packet_view ok.entry) }
{
    let terminator = match part {
        Part::Rows(open_rows) => return open_rows.into_result(Some(ok)),
        Part::RawRows(rows) => {
            return ReplyResult::RawRows {
                rows,
                terminator: Some(ok),
            };
        }
        Part::Fields(fields) => {
            return ReplyResult::Fields {
                fields,
                terminator: Some(ok),
            };
        }
        Part::Statement {
            stmt: _,
            params: _params,
            columns: _columns,
        } => ok,
        Part::Set { known: _ } => ok,
        Part::Nothing => ok,
    };
    ReplyResult::Ok(terminator)
}

/// What there is of a result set behind the EOF of its columns. It is whole where a cursor was opened.
fn set_behind(alloc: Global, events: &EventReader, known: bool, ok: OkPacket<'static>) -> Stepped
    ensures { IsPut [] (together.set_behind known (together.columns_in events.now.so_far)
        (ok_packet_view ok.entry)
        events.now.so_far.awaited) result }
{
    match rows_due(alloc, events, known) {
        Stepped::Moved(listed, part) => {
            // Each `drop` is one step of the proof, in place of one for each part of a variant.
            if is_rows(events.due()) {
                drop(ok);
                Stepped::Moved(listed, part)
            } else {
                drop(listed);
                Stepped::Moved(Listed::One(ended(part, ok)), Part::Nothing)
            }
        }
        Stepped::Failed(part) => {
            drop(ok);
            Stepped::Failed(part)
        }
    }
}

/// A statement is whole where nothing more is due.
fn statement_at(
    events: &EventReader,
    stmt: StmtPacket,
    params: Vec<Column>,
    columns: Vec<Column>,
) -> Stepped
    ensures { IsPut [] (together.statement_at (prepare_ok_view stmt) (column_views params.items)
        (column_views columns.items) events.now.so_far.awaited) result }
{
    match events.due() {
        Due::Nothing => {
            let whole = ReplyResult::Prepared {
                stmt,
                params,
                columns,
            };
            Stepped::Moved(Listed::One(whole), Part::Nothing)
        }
        _ => {
            let part = Part::Statement {
                stmt,
                params,
                columns,
            };
            Stepped::Moved(Listed::None, part)
        }
    }
}

/// Puts a column of a statement: of its parameters, until there are as many as it says.
fn statement_with(
    events: &EventReader,
    stmt: StmtPacket,
    mut params: Vec<Column>,
    mut columns: Vec<Column>,
    column: Column,
) -> Stepped
    ensures { IsPut [] (together.statement_with (prepare_ok_view stmt) (column_views params.items)
        (column_views columns.items) (column_view column) events.now.so_far.awaited) result }
{
    if params.len() < stmt.num_params() as usize {
        if params.push(column).is_err() {
            return Stepped::Failed(Part::Nothing);
        }
        return statement_at(events, stmt, params, columns);
    }
    if columns.push(column).is_err() {
        return Stepped::Failed(Part::Nothing);
    }
    statement_at(events, stmt, params, columns)
}

/// Puts a column.
fn put_column(alloc: Global, events: &EventReader, part: Part, column: Column) -> Stepped
    ensures { IsPut (listed (part_view part)) (together.put_column (part_view part) (column_view column)
        events.now.so_far) result }
{
    match part {
        Part::Set { known } => set_at(alloc, events, known),
        Part::Statement {
            stmt,
            params,
            columns,
        } => statement_with(events, stmt, params, columns, column),
        other => Stepped::Moved(Listed::None, other),
    }
}

/// Puts the EOF behind columns.
fn put_columns_end(
    alloc: Global,
    events: &EventReader,
    part: Part,
    ok: OkPacket<'static>,
) -> Stepped
    ensures { IsPut (listed (part_view part)) (together.put_columns_end (part_view part) (ok_packet_view ok.entry)
        events.now.so_far) result }
{
    match part {
        Part::Set { known } => set_behind(alloc, events, known, ok),
        Part::Statement {
            stmt,
            params,
            columns,
        } => {
            drop(ok);
            statement_at(events, stmt, params, columns)
        }
        other => {
            drop(ok);
            Stepped::Moved(Listed::None, other)
        }
    }
}

/// Puts a row.
fn put_row(part: Part, row: Row) -> Stepped
    ensures { IsPut (listed (part_view part)) (leaves_open (together.with_row (part_view part) (row_view row)))
        result }
{
    match part {
        Part::Rows(mut open_rows) => {
            if open_rows.push(row).is_err() {
                return Stepped::Failed(Part::Rows(open_rows));
            }
            Stepped::Moved(Listed::None, Part::Rows(open_rows))
        }
        other => Stepped::Moved(Listed::None, other),
    }
}

/// Puts a row as it came.
fn put_raw_row(part: Part, bytes: Vec<u8>) -> Stepped
    ensures { IsPut (listed (part_view part)) (leaves_open (together.with_raw_row (part_view part) bytes.items))
        result }
{
    match part {
        Part::RawRows(mut rows) => {
            if rows.push(bytes).is_err() {
                return Stepped::Failed(Part::RawRows(rows));
            }
            Stepped::Moved(Listed::None, Part::RawRows(rows))
        }
        other => Stepped::Moved(Listed::None, other),
    }
}

/// Puts a column of a table.
fn put_field(part: Part, field: ListedColumn) -> Stepped
    ensures { IsPut (listed (part_view part)) (leaves_open (together.with_field (part_view part) (listed_view field)))
        result }
{
    match part {
        Part::Fields(mut fields) => {
            if fields.push(field).is_err() {
                return Stepped::Failed(Part::Fields(fields));
            }
            Stepped::Moved(Listed::None, Part::Fields(fields))
        }
        other => Stepped::Moved(Listed::None, other),
    }
}

/// What is listed of a result that isn't whole, if anything is.
pub fn listed_of(part: Part) -> Option<ReplyResult>
    ensures { outcome_list result ≡ listed (part_view part) }
{
    match part {
        Part::Rows(open_rows) => Some(open_rows.into_result(None)),
        Part::RawRows(rows) => {
            if rows.is_empty() {
                return None;
            }
            Some(ReplyResult::RawRows {
                rows,
                terminator: None,
            })
        }
        Part::Fields(fields) => {
            if fields.is_empty() {
                return None;
            }
            Some(ReplyResult::Fields {
                fields,
                terminator: None,
            })
        }
        Part::Statement {
            stmt: _,
            params: _params,
            columns: _columns,
        } => None,
        Part::Set { known: _ } => None,
        Part::Nothing => None,
    }
}

/// Puts an error behind what is listed.
fn put_error(part: Part, error: ServerError<'static>) -> Stepped
    ensures { IsPut (listed (part_view part))
        (record {
          results = listed (part_view part) ++ ErrorResult (server_error_view error.entry) ∷ [];
          part = NoPart;
        }) result }
{
    let last = ReplyResult::Error(error);
    match listed_of(part) {
        Some(first) => Stepped::Moved(Listed::Two(first, last), Part::Nothing),
        None => Stepped::Moved(Listed::One(last), Part::Nothing),
    }
}

/// Puts a result that one event makes whole, where nothing came of another one.
fn put_whole(part: Part, found: ReplyResult) -> Stepped
    ensures { IsPut (listed (part_view part)) (together.put_whole (part_view part) (outcome_view found)) result }
{
    match part {
        Part::Nothing => Stepped::Moved(Listed::One(found), Part::Nothing),
        other => {
            drop(found);
            Stepped::Moved(Listed::None, other)
        }
    }
}

/// Puts a count of columns, where nothing came of another result.
fn put_count(alloc: Global, events: &EventReader, part: Part) -> Stepped
    ensures { IsPut (listed (part_view part)) (together.put_count (part_view part) events.now.so_far) result }
{
    match part {
        Part::Nothing => set_at(alloc, events, are_known(events.due())),
        other => Stepped::Moved(Listed::None, other),
    }
}

/// Puts a statement packet, where nothing came of another result.
fn put_statement(alloc: Global, events: &EventReader, part: Part, stmt: StmtPacket) -> Stepped
    ensures { IsPut (listed (part_view part)) (together.put_statement (part_view part) (prepare_ok_view stmt)
        events.now.so_far) result }
{
    match part {
        Part::Nothing => statement_at(events, stmt, Vec::new(alloc), Vec::new(alloc)),
        other => Stepped::Moved(Listed::None, other),
    }
}

/// Puts an event into what there is of a result, where the reader is behind that event. A progress
/// report leaves it as it is.
pub fn put(alloc: Global, events: &EventReader, part: Part, event: ReplyEvent) -> Stepped
    ensures { IsPut (listed (part_view part)) (together.put (part_view part) (event_view event) events.now.so_far)
        result }
{
    match event {
        ReplyEvent::Ok(ok) => put_whole(part, ReplyResult::Ok(ok)),
        ReplyEvent::Error(error) => put_error(part, error),
        ReplyEvent::Progress(_report) => Stepped::Moved(Listed::None, part),
        ReplyEvent::ColumnCount {
            count: _,
            columns_follow: _,
        } => put_count(alloc, events, part),
        ReplyEvent::Column(found) => put_column(alloc, events, part, found.into_column()),
        ReplyEvent::Field(field) => put_field(part, field),
        ReplyEvent::ColumnsEnd(ok) => put_columns_end(alloc, events, part, ok),
        ReplyEvent::Row(row) => put_row(part, row),
        ReplyEvent::RawRow(bytes) => put_raw_row(part, bytes),
        ReplyEvent::RowsEnd(ok) => Stepped::Moved(Listed::One(ended(part, ok)), Part::Nothing),
        ReplyEvent::FileRequest(file) => put_whole(part, ReplyResult::File(file)),
        ReplyEvent::Prepared {
            statement,
            columns_follow: _,
        } => put_statement(alloc, events, part, statement),
        ReplyEvent::Line(bytes) => put_whole(part, ReplyResult::Line(bytes)),
    }
}
