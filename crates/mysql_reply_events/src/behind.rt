//! What an event leads to that was put, and isn't read.

ghost use Rattle.std.specs.Prelude.{◌≡◌, IfOk, OnErr, OnOk, false};
ghost use Rattle.mysql_columns.specs.Columns.{ColumnDefinition};
ghost use Rattle.mysql_columns.specs.Views.{column_view};
ghost use Rattle.mysql_ok_packets.specs.Views.{ok_packet_view};
ghost use Rattle.mysql_rows.specs.Views.{column_views};
ghost use Rattle.mysql_reply_events.specs.Behind as behind;
ghost use Rattle.mysql_reply_events.specs.Standing.{columns_of};
ghost use Rattle.mysql_reply_events.specs.States.{so_far};
ghost use Rattle.mysql_reply_events.specs.Table as table;
ghost use Rattle.mysql_reply_events.specs.Views.{awaited_view, event_view, group_view, turn_of};

use crate::awaited::{Awaited, ColumnGroup, Turn};
use crate::context::Context;
use crate::event::ReplyEvent;
use crate::standing::StandingColumns;
use crate::state::ReplyState;
use crate::steps::{
    after_columns, after_columns_end, after_result, after_statement, behind_count, keep_column,
    stand,
};
use mysql_columns::Column;
use mysql_ok_packets::OkPacket;
use std::alloc::{AllocError, Global};
use std::rc::RcSlice;

// Goes on behind the EOF of columns.
fn pass_columns_end(alloc: Global, context: Context, awaited: &mut Awaited, ok: &OkPacket)
    ensures { awaited_view awaited.new ≡
        behind.behind_columns_end context (awaited_view awaited.old) (ok_packet_view ok.now) }
{
    match awaited {
        Awaited::ColumnsEnd { group, known } => {
            *awaited = after_columns_end(alloc, context, *group, *known, ok);
        }
        _ => {}
    }
}

// Goes on behind a row that came as it is.
fn pass_raw_row(awaited: &mut Awaited)
    ensures { awaited_view awaited.new ≡ behind.behind_raw_row (awaited_view awaited.old) }
{
    match awaited {
        Awaited::First => *awaited = Awaited::Rows { known: true },
        _ => {}
    }
}

/// The reply goes on behind an event: any but a column.
#[inline(always)]
pub fn pass(alloc: Global, context: Context, state: &mut ReplyState, event: &ReplyEvent)
    requires { behind.is_column (event_view event.now) ≡ false }
    ensures behind { so_far state.new ≡ behind.behind context (so_far state.old) (event_view event.now) }
    ensures standing { state.new.standing ≡ state.old.standing }
{
    match event {
        ReplyEvent::Ok(ok) => state.awaited = after_result(context, ok),
        ReplyEvent::Error(_) => state.awaited = Awaited::Nothing,
        ReplyEvent::Progress(_) | ReplyEvent::Column(_) => {}
        ReplyEvent::ColumnCount {
            count,
            columns_follow,
        } => {
            state.awaited = behind_count(alloc, context, &state.standing, *count, *columns_follow);
        }
        ReplyEvent::Field(_) => state.awaited = Awaited::Fields,
        ReplyEvent::ColumnsEnd(ok) => pass_columns_end(alloc, context, &mut state.awaited, ok),
        ReplyEvent::Row(_) => state.awaited = Awaited::Rows { known: true },
        ReplyEvent::RawRow(_) => pass_raw_row(&mut state.awaited),
        ReplyEvent::RowsEnd(ok) => state.awaited = after_result(context, ok),
        ReplyEvent::FileRequest(_) => state.awaited = Awaited::FileData,
        ReplyEvent::Prepared {
            statement,
            columns_follow,
        } => {
            let parameters = statement.num_params();
            let columns = statement.num_columns();
            state.awaited = after_statement(alloc, context, parameters, columns, *columns_follow);
        }
        ReplyEvent::Line(_) => state.awaited = Awaited::Nothing,
    }
}

// Copies of columns.
fn copies_of(alloc: Global, columns: &[Column]) -> Result<Vec<Column>, AllocError>
    ensures { IfOk result (λ copies. column_views copies.items ≡ column_views columns.now) }
{
    let mut copies = Vec::new(alloc);
    for column in columns {
        copies.push(column.clone(alloc)?)?;
    }
    Ok(copies)
}

// The columns of a group stand, this one behind those before it, but for parameters. All or nothing.
fn end_group(
    alloc: Global,
    group: ColumnGroup,
    standing: &mut StandingColumns,
    earlier: &[Column],
    column: &Column,
) -> Result<Option<RcSlice<Column>>, AllocError>
    ensures stand { OnOk result (standing.new.columns ≡ table.standing (group_view group)
        (table.with_column (group_view group) (column_views earlier.now) (column_view column.now))
        standing.old.columns) }
    ensures shared { IfOk result (λ shared. columns_of shared ≡ standing.new.columns) }
    ensures format { standing.new.format ≡ standing.old.format }
    ensures unchanged { OnErr result (standing.new ≡ standing.old) }
{
    let mut columns = copies_of(alloc, earlier)?;
    keep_column(alloc, group, &mut columns, column)?;
    stand(group, standing, columns)
}

/// The reply goes on behind a column, or nothing changes. Answers the columns that stand then.
pub fn pass_column(
    alloc: Global,
    context: Context,
    state: &mut ReplyState,
    column: &Column,
) -> Result<Option<RcSlice<Column>>, AllocError>
    ensures behind { OnOk result (so_far state.new ≡ behind.behind_column context (so_far state.old)
        (so_far state.old).awaited (column_view column.now)) }
    ensures shared { IfOk result (λ shared. columns_of shared ≡ state.new.standing.columns) }
    ensures format { state.new.standing.format ≡ state.old.standing.format }
    ensures unchanged { OnErr result (so_far state.new ≡ so_far state.old) }
    ensures kept { OnErr result (state.new.standing ≡ state.old.standing) }
{
    match &mut state.awaited {
        Awaited::Columns {
            group,
            left,
            columns,
        } => {
            let group = *group;
            if *left > 0 {
                let shared = state.standing.share_columns()?;
                keep_column(alloc, group, columns, column)?;
                *left -= 1;
                return Ok(shared);
            }
            let shared = end_group(alloc, group, &mut state.standing, columns, column)?;
            state.awaited = after_columns(alloc, context, group, true);
            Ok(shared)
        }
        _ => state.standing.share_columns(),
    }
}

// Whose payload is due behind a column, whatever it says.
fn turn_behind_column(alloc: Global, context: Context, state: &ReplyState) -> Turn
    ensures { (column : ColumnDefinition) → result ≡ turn_of (behind.behind_column context
        (so_far state.now) (so_far state.now).awaited column).awaited }
{
    match &state.awaited {
        Awaited::Columns {
            group,
            left: 0,
            columns: _,
        } => after_columns(alloc, context, *group, true).turn(),
        awaited => awaited.turn(),
    }
}

// Whose payload is due behind the EOF of columns.
fn turn_behind_columns_end(
    alloc: Global,
    context: Context,
    awaited: &Awaited,
    ok: &OkPacket,
) -> Turn
    ensures { result ≡ turn_of
        (behind.behind_columns_end context (awaited_view awaited.now) (ok_packet_view ok.now)) }
{
    match awaited {
        Awaited::ColumnsEnd { group, known } => {
            after_columns_end(alloc, context, *group, *known, ok).turn()
        }
        awaited => awaited.turn(),
    }
}

// Whose payload is due behind a row that came as it is.
fn turn_behind_raw_row(awaited: &Awaited) -> Turn
    ensures { result ≡ turn_of (behind.behind_raw_row (awaited_view awaited.now)) }
{
    match awaited {
        Awaited::First => Turn::Server,
        awaited => awaited.turn(),
    }
}

/// Whose payload is due behind an event.
pub fn turn_behind(alloc: Global, context: Context, state: &ReplyState, event: &ReplyEvent) -> Turn
    ensures { result ≡
        turn_of (behind.behind context (so_far state.now) (event_view event.now)).awaited }
{
    match event {
        ReplyEvent::Ok(ok) => after_result(context, ok).turn(),
        ReplyEvent::RowsEnd(ok) => after_result(context, ok).turn(),
        ReplyEvent::Error(_) | ReplyEvent::Line(_) => Turn::Nobody,
        ReplyEvent::FileRequest(_) => Turn::Client,
        ReplyEvent::Progress(_) => state.awaited.turn(),
        ReplyEvent::ColumnCount {
            count,
            columns_follow,
        } => behind_count(alloc, context, &state.standing, *count, *columns_follow).turn(),
        ReplyEvent::Column(_) => turn_behind_column(alloc, context, state),
        ReplyEvent::Field(_) | ReplyEvent::Row(_) => Turn::Server,
        ReplyEvent::ColumnsEnd(ok) => turn_behind_columns_end(alloc, context, &state.awaited, ok),
        ReplyEvent::RawRow(_) => turn_behind_raw_row(&state.awaited),
        ReplyEvent::Prepared {
            statement,
            columns_follow,
        } => {
            let parameters = statement.num_params();
            let columns = statement.num_columns();
            after_statement(alloc, context, parameters, columns, *columns_follow).turn()
        }
    }
}
