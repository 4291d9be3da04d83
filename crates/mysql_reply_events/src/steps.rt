//! What each payload says, and what is awaited behind it.
//!
//!     00 ..         OK: affected rows, last insert id, status, warnings, info
//!     ff ..         ERR: code, state, message
//!     fb ..         LOCAL INFILE: the file's name
//!     count ..      a result set: a packet for each column, the EOF,
//!                   rows, and what ends them: an OK packet with fe, an EOF or an ERR
//!
//! MySQL: Client/Server Protocol, "COM_QUERY Response", "Text Resultset" and "COM_STMT_PREPARE
//! Response".

ghost use Rattle.std.specs.Prelude.{◌≡◌, Bool, IfOk, IsOkUnless, List, Ok, OnErr, OnOk, ℕ};
ghost use Rattle.mysql_columns.specs.Columns.{ColumnDefinition};
ghost use Rattle.mysql_columns.specs.Views.{column_view};
ghost use Rattle.mysql_ok_packets.specs.Views.{ok_packet_view};
ghost use Rattle.mysql_rows.specs.Views.{column_views};
ghost use Rattle.mysql_reply_events.specs.declared.fault.ReplyFault.TheVariants.{Memory};
ghost use Rattle.mysql_reply_events.specs.Behind as behind;
ghost use Rattle.mysql_reply_events.specs.Events.{Group, ReplySoFar};
ghost use Rattle.mysql_reply_events.specs.Events.Event.{LineEvent};
ghost use Rattle.mysql_reply_events.specs.Standing.{columns_of};
ghost use Rattle.mysql_reply_events.specs.Table as table;
ghost use Rattle.mysql_reply_events.specs.Due.{column_due};
ghost use Rattle.mysql_reply_events.specs.Views.{Gives, Tells, awaited_view, due_view, event_view, group_view};
ghost use Rattle.mysql_reply_events.specs.States.{Says, so_far};

use crate::awaited::{Awaited, ColumnGroup, Due};
use crate::context::{Context, ReplyKind};
use crate::counts::{count_packet, prepared_packet};
use crate::event::ReplyEvent;
use crate::fault::ReplyFault;
use crate::forms::{begins_ok, begins_terminator};
use crate::packets::{
    bytes_of, column_packet, eof_packet, error_packet, field_packet, file_packet, ok_packet,
    terminator_packet,
};
use crate::rows::row_packet;
use crate::standing::StandingColumns;
use crate::state::ReplyState;
use bitflags::Flags;
use mysql_columns::Column;
use mysql_const::StatusFlags;
use mysql_ok_packets::OkPacket;
use mysql_ok_packets::ok_packet::has_more_results;
use mysql_row_refs::starts_with;
use std::alloc::{AllocError, Global};
use std::mem;
use std::rc::RcSlice;

/// Behind a result of this kind another one may follow.
fn has_results(kind: ReplyKind) -> bool
    ensures { result ≡ table.has_results kind }
{
    match kind {
        ReplyKind::Text | ReplyKind::Binary => true,
        _ => false,
    }
}

/// What is awaited behind a result.
pub fn after_result(context: Context, ok: &OkPacket) -> Awaited
    ensures { awaited_view result ≡ table.after_result context (ok_packet_view ok.now) }
{
    if has_results(context.kind) && has_more_results(ok.status_flags()) {
        Awaited::First
    } else {
        Awaited::Nothing
    }
}

/// The command is an execution.
fn is_execution(kind: ReplyKind) -> bool
    ensures { result ≡ table.is_execution kind }
{
    match kind {
        ReplyKind::Binary => true,
        _ => false,
    }
}

/// A cursor was opened.
#[tactic(auto, unfolding(bitflags::proofs::OnLiterals::bitflags_on_literals))]
fn cursor_exists(ok: &OkPacket) -> bool
    ensures { result ≡ table.cursor_exists (ok_packet_view ok.now) }
{
    ok.status_flags()
        .contains(StatusFlags::SERVER_STATUS_CURSOR_EXISTS)
}

/// What is awaited of the columns of a prepared statement.
fn statement_columns(alloc: Global, context: Context, columns: u16, follow: bool) -> Awaited
    ensures { awaited_view result ≡ table.statement_columns context columns follow }
{
    if columns == 0 {
        Awaited::Nothing
    } else if follow {
        Awaited::Columns {
            group: ColumnGroup::Statement,
            left: columns - 1,
            columns: Vec::new(alloc),
        }
    } else if context.deprecates_eof() {
        Awaited::Nothing
    } else {
        Awaited::ColumnsEnd {
            group: ColumnGroup::Statement,
            known: false,
        }
    }
}

/// What is awaited behind a group and its EOF.
fn after_group(alloc: Global, context: Context, group: ColumnGroup, known: bool) -> Awaited
    ensures { awaited_view result ≡ table.after_group context (group_view group) known }
{
    match group {
        ColumnGroup::ResultSet => Awaited::Rows { known },
        ColumnGroup::Parameters { columns, follow } => {
            statement_columns(alloc, context, columns, follow)
        }
        ColumnGroup::Statement => Awaited::Nothing,
    }
}

/// What is awaited behind the last column of a group.
pub fn after_columns(alloc: Global, context: Context, group: ColumnGroup, known: bool) -> Awaited
    ensures { awaited_view result ≡ table.after_columns context (group_view group) known }
{
    if context.deprecates_eof() {
        after_group(alloc, context, group, known)
    } else {
        Awaited::ColumnsEnd { group, known }
    }
}

/// What is awaited behind the EOF of columns.
pub fn after_columns_end(
    alloc: Global,
    context: Context,
    group: ColumnGroup,
    known: bool,
    ok: &OkPacket,
) -> Awaited
    ensures { awaited_view result ≡
        table.after_columns_end context (group_view group) known (ok_packet_view ok.now) }
{
    match group {
        ColumnGroup::ResultSet => {
            if is_execution(context.kind) && cursor_exists(ok) {
                after_result(context, ok)
            } else {
                Awaited::Rows { known }
            }
        }
        _ => after_group(alloc, context, group, known),
    }
}

/// Reads an error, which ends the reply.
fn error_event(alloc: Global, context: Context, payload: &[u8]) -> Result<ReplyEvent, ReplyFault>
    ensures { (s : ReplySoFar) → Says (table.error_step context s payload.now) result }
{
    let error = error_packet(alloc, context, payload)?;
    Ok(ReplyEvent::Error(error))
}

/// Reads what ends rows and columns of a table, and stands in an OK packet's place.
fn end_event(alloc: Global, context: Context, payload: &[u8]) -> Result<ReplyEvent, ReplyFault>
    ensures { (s : ReplySoFar) → Says (table.in_end context s payload.now) result }
{
    let ok = terminator_packet(alloc, context, payload)?;
    Ok(ReplyEvent::RowsEnd(ok))
}

/// Reads an OK packet, which is a result.
fn ok_event(alloc: Global, context: Context, payload: &[u8]) -> Result<ReplyEvent, ReplyFault>
    ensures { (s : ReplySoFar) → Says (table.ok_step context s payload.now) result }
{
    let ok = ok_packet(alloc, context, payload)?;
    Ok(ReplyEvent::Ok(ok))
}

/// Reads a count of columns.
fn count_event(
    alloc: Global,
    context: Context,
    state: &ReplyState,
    payload: &[u8],
) -> Result<ReplyEvent, ReplyFault>
    ensures { Says (table.count_step context (so_far state.now) payload.now) result }
{
    let (count, columns_follow) = count_packet(context, payload)?;
    after_count(alloc, context, &state.standing, count, columns_follow)?;
    Ok(ReplyEvent::ColumnCount {
        count,
        columns_follow,
    })
}

/// What is awaited behind a count of columns that has its place.
pub fn behind_count(
    alloc: Global,
    context: Context,
    standing: &StandingColumns,
    count: u16,
    columns_follow: bool,
) -> Awaited
    ensures { awaited_view result ≡ behind.behind_count context standing.now.columns count columns_follow }
{
    if columns_follow {
        Awaited::Columns {
            group: ColumnGroup::ResultSet,
            left: count.saturating_sub(1),
            columns: Vec::new(alloc),
        }
    } else {
        let known = is_execution(context.kind) && standing.are_so_many(count);
        after_columns(alloc, context, ColumnGroup::ResultSet, known)
    }
}

/// What is awaited behind a count of columns. It has no place where they neither follow nor stand.
fn after_count(
    alloc: Global,
    context: Context,
    standing: &StandingColumns,
    count: u16,
    columns_follow: bool,
) -> Result<Awaited, ReplyFault>
    ensures { Tells awaited_view result (table.after_count context standing.now.columns (count, columns_follow)) }
{
    let stand = is_execution(context.kind) && standing.are_so_many(count);
    if columns_follow || stand || context.has_optional_metadata() {
        Ok(behind_count(alloc, context, standing, count, columns_follow))
    } else {
        Err(ReplyFault::BadCount)
    }
}

/// Reads the first payload of a result that is no error.
fn result_event(
    alloc: Global,
    context: Context,
    state: &ReplyState,
    payload: &[u8],
) -> Result<ReplyEvent, ReplyFault>
    ensures { Says (table.first_of_result context (so_far state.now) payload.now) result }
{
    if begins_ok(context, payload) {
        ok_event(alloc, context, payload)
    } else if starts_with(payload, 251) {
        let file = file_packet(alloc, payload)?;
        Ok(ReplyEvent::FileRequest(file))
    } else if payload.is_empty() {
        Err(ReplyFault::BadHeader)
    } else {
        count_event(alloc, context, state, payload)
    }
}

/// What is awaited behind a statement packet.
pub fn after_statement(
    alloc: Global,
    context: Context,
    parameters: u16,
    columns: u16,
    follow: bool,
) -> Awaited
    ensures { awaited_view result ≡ table.after_statement context parameters columns follow }
{
    let group = ColumnGroup::Parameters { columns, follow };
    if parameters == 0 {
        statement_columns(alloc, context, columns, follow)
    } else if follow {
        Awaited::Columns {
            group,
            left: parameters - 1,
            columns: Vec::new(alloc),
        }
    } else {
        after_columns(alloc, context, group, false)
    }
}

/// Reads the first payload of the answer to a prepare that is no error.
fn statement_event(
    alloc: Global,
    context: Context,
    payload: &[u8],
) -> Result<ReplyEvent, ReplyFault>
    ensures { (s : ReplySoFar) → Says (table.first_of_statement context s payload.now) result }
{
    if !starts_with(payload, 0) {
        return Err(ReplyFault::BadHeader);
    }
    let (statement, columns_follow) = prepared_packet(alloc, context, payload)?;
    Ok(ReplyEvent::Prepared {
        statement,
        columns_follow,
    })
}

/// Reads the answer to a command without a result that is no error.
fn plain_event(alloc: Global, context: Context, payload: &[u8]) -> Result<ReplyEvent, ReplyFault>
    ensures { (s : ReplySoFar) → Says (table.plain context s payload.now) result }
{
    if starts_with(payload, 0) {
        ok_event(alloc, context, payload)
    } else if begins_terminator(context, payload) {
        end_event(alloc, context, payload)
    } else {
        Err(ReplyFault::BadHeader)
    }
}

/// Reads a text, or the first payload of what goes on in a form of its own.
fn line_event(alloc: Global, payload: &[u8]) -> Result<ReplyEvent, ReplyFault>
    ensures { Gives event_view result (Ok (LineEvent payload.now)) }
{
    let bytes = bytes_of(alloc, payload)?;
    Ok(ReplyEvent::Line(bytes))
}

/// Reads a row or a terminator.
fn rows_event(
    alloc: Global,
    context: Context,
    state: &ReplyState,
    known: bool,
    payload: &[u8],
) -> Result<ReplyEvent, ReplyFault>
    ensures { Says (table.in_rows context (so_far state.now) known payload.now) result }
{
    if begins_terminator(context, payload) {
        return end_event(alloc, context, payload);
    }
    match state.standing.columns() {
        Some(columns) if known => {
            let row = row_packet(alloc, context, columns, payload)?;
            Ok(ReplyEvent::Row(row))
        }
        _ => {
            if context.has_optional_metadata() {
                let bytes = bytes_of(alloc, payload)?;
                Ok(ReplyEvent::RawRow(bytes))
            } else {
                Err(ReplyFault::BadRow)
            }
        }
    }
}

/// Reads a column of a table or what ends them.
fn fields_event(alloc: Global, context: Context, payload: &[u8]) -> Result<ReplyEvent, ReplyFault>
    ensures { (s : ReplySoFar) → Says (table.in_fields context s payload.now) result }
{
    if begins_terminator(context, payload) {
        end_event(alloc, context, payload)
    } else {
        let field = field_packet(alloc, context, payload)?;
        Ok(ReplyEvent::Field(field))
    }
}

/// Reads the EOF behind columns.
fn columns_end_event(
    alloc: Global,
    context: Context,
    payload: &[u8],
) -> Result<ReplyEvent, ReplyFault>
    ensures { (s : ReplySoFar) (group : Group) (known : Bool) →
        Says (table.in_columns_end context s group known payload.now) result }
{
    let ok = eof_packet(alloc, context, payload)?;
    Ok(ReplyEvent::ColumnsEnd(ok))
}

/// What is due behind a column of a group, of which so many more are left.
pub fn behind_column(alloc: Global, context: Context, group: ColumnGroup, left: u16) -> Due
    ensures { due_view result ≡ column_due context (group_view group) left }
{
    if left > 0 {
        Due::Column {
            group,
            left: left - 1,
        }
    } else {
        after_columns(alloc, context, group, true).due()
    }
}

/// Keeps a copy of a column of a group with those before it. Parameters aren't kept.
pub fn keep_column(
    alloc: Global,
    group: ColumnGroup,
    columns: &mut Vec<Column>,
    column: &Column,
) -> Result<(), AllocError>
    ensures kept { OnOk result (column_views columns.new.items ≡
        table.with_column (group_view group) (column_views columns.old.items) (column_view column.now)) }
    ensures unchanged { OnErr result (columns.new.items ≡ columns.old.items) }
{
    match group {
        ColumnGroup::Parameters {
            columns: _,
            follow: _,
        } => Ok(()),
        _ => {
            let copy = column.clone(alloc)?;
            columns.push(copy)?;
            Ok(())
        }
    }
}

/// The columns of a group stand, once it is whole, but for parameters. Answers those that stand.
pub fn stand(
    group: ColumnGroup,
    standing: &mut StandingColumns,
    columns: Vec<Column>,
) -> Result<Option<RcSlice<Column>>, AllocError>
    ensures stand { OnOk result (standing.new.columns ≡
        table.standing (group_view group) (column_views columns.items) standing.old.columns) }
    ensures shared { IfOk result (λ shared. columns_of shared ≡ standing.new.columns) }
    ensures format { standing.new.format ≡ standing.old.format }
    ensures unchanged { OnErr result (standing.new ≡ standing.old) }
{
    match group {
        ColumnGroup::Parameters {
            columns: _,
            follow: _,
        } => standing.share_columns(),
        _ => {
            let columns = RcSlice::from_vec(columns)?;
            let shared = columns.clone()?;
            standing.replace(columns);
            Ok(Some(shared))
        }
    }
}

/// A column of a group came, and so many more are left.
fn column_came(
    alloc: Global,
    context: Context,
    state: &mut ReplyState,
    group: ColumnGroup,
    left: u16,
    columns: Vec<Column>,
) -> Result<(), ReplyFault>
    ensures came { OnOk result (so_far state.new ≡
        table.column_came context (so_far state.old) (group_view group) left (column_views columns.items)) }
    ensures memory { IsOkUnless result Memory }
    ensures kept { OnErr result (state.new.standing ≡ state.old.standing) }
    ensures format { state.new.standing.format ≡ state.old.standing.format }
{
    if left > 0 {
        state.awaited = Awaited::Columns {
            group,
            left: left - 1,
            columns,
        };
        return Ok(());
    }
    if stand(group, &mut state.standing, columns).is_err() {
        return Err(ReplyFault::Memory);
    }
    state.awaited = after_columns(alloc, context, group, true);
    Ok(())
}

/// Keeps a column that was read with those of its group. After an `Err` nothing is awaited.
pub fn take_column(
    alloc: Global,
    context: Context,
    state: &mut ReplyState,
    column: &Column,
) -> Result<(), ReplyFault>
    ensures taken { OnOk result (so_far state.new ≡ behind.behind_column context (so_far state.old)
        (so_far state.old).awaited (column_view column.now)) }
    ensures memory { IsOkUnless result Memory }
    ensures kept { OnErr result (state.new.standing ≡ state.old.standing) }
    ensures format { state.new.standing.format ≡ state.old.standing.format }
{
    match mem::replace(&mut state.awaited, Awaited::Nothing) {
        Awaited::Columns {
            group,
            left,
            mut columns,
        } => {
            if keep_column(alloc, group, &mut columns, column).is_err() {
                return Err(ReplyFault::Memory);
            }
            column_came(alloc, context, state, group, left, columns)
        }
        awaited => {
            state.awaited = awaited;
            Ok(())
        }
    }
}

/// Reads a column of a group.
fn column_event(alloc: Global, context: Context, payload: &[u8]) -> Result<ReplyEvent, ReplyFault>
    ensures { (s : ReplySoFar) (group : Group) (left : ℕ) (earlier : List ColumnDefinition) →
        Says (table.in_columns context s group left earlier payload.now) result }
{
    let column = column_packet(alloc, context, payload)?;
    Ok(ReplyEvent::Column(column))
}

/// Reads the first payload of a reply or of a further result that is no error, by the kind of the
/// command.
fn first_event(
    alloc: Global,
    context: Context,
    state: &ReplyState,
    payload: &[u8],
) -> Result<ReplyEvent, ReplyFault>
    ensures { Says (table.first context (so_far state.now) context.kind payload.now) result }
{
    match context.kind {
        ReplyKind::Text | ReplyKind::Binary => result_event(alloc, context, state, payload),
        ReplyKind::Prepare => statement_event(alloc, context, payload),
        ReplyKind::Plain => plain_event(alloc, context, payload),
        ReplyKind::Line => line_event(alloc, payload),
        ReplyKind::FieldList => fields_event(alloc, context, payload),
        ReplyKind::Fetch => rows_event(alloc, context, state, true, payload),
    }
}

/// Reads a payload that is no progress report, by what is awaited.
pub fn place_event(
    alloc: Global,
    context: Context,
    state: &ReplyState,
    payload: &[u8],
) -> Result<ReplyEvent, ReplyFault>
    ensures { Says (table.in_place context (so_far state.now) (so_far state.now).awaited payload.now) result }
{
    match &state.awaited {
        Awaited::First => {
            if starts_with(payload, 255) {
                error_event(alloc, context, payload)
            } else {
                first_event(alloc, context, state, payload)
            }
        }
        Awaited::Columns {
            group: _,
            left: _,
            columns: _,
        } => column_event(alloc, context, payload),
        Awaited::ColumnsEnd { group: _, known: _ } => columns_end_event(alloc, context, payload),
        Awaited::Rows { known } => {
            if starts_with(payload, 255) {
                error_event(alloc, context, payload)
            } else {
                rows_event(alloc, context, state, *known, payload)
            }
        }
        Awaited::Fields => {
            if starts_with(payload, 255) {
                error_event(alloc, context, payload)
            } else {
                fields_event(alloc, context, payload)
            }
        }
        Awaited::FileData | Awaited::Nothing => Err(ReplyFault::NotDue),
    }
}
