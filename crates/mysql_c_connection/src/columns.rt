//! The columns of the event that was told last.

ghost use Rattle.std.specs.Prelude.{◌≡◌, MatchOption, option_map};
ghost use Rattle.mysql_columns.specs.Views.{column_view};
ghost use Rattle.mysql_reply_events.specs.Events.Event.{RowEvent};
ghost use Rattle.mysql_reply_events.specs.Views.{event_view as reply_view};
ghost use Rattle.mysql_row_refs.specs.RowRefs.{row_ref_view};
ghost use Rattle.mysql_c_connection.specs.Codes.{code_number};
ghost use Rattle.mysql_c_connection.specs.Columns.{column_held, reply_column};
ghost use Rattle.mysql_c_connection.specs.Values.{unheld_code};
ghost use Rattle.mysql_c_connection.specs.declared.code.ConnectionCode.TheVariants as code;
ghost use Rattle.mysql_c_replies.specs.Shown.{ShowsColumn};

use crate::code::ConnectionCode;
use crate::handle::Handle;
use crate::object::Object;
use crate::values::{Told, event_of};
use mysql_c_replies::{ShownColumn, show_column};
use mysql_columns::Column;
use mysql_connection_state::Event;
use mysql_reply_events::ReplyEvent;
use mysql_row_refs::RowRef;
use std::alloc::Global;

/// A column of a reply's payload.
fn column_in(said: &ReplyEvent, number: usize) -> Option<&Column>
    ensures { option_map (λ column. column_view column.now) result ≡ reply_column (reply_view said.now) number }
{
    match said {
        ReplyEvent::Column(column) if number == 0 => Some(column.column()),
        ReplyEvent::Field(field) if number == 0 => Some(field.column().column()),
        ReplyEvent::Row(row) => row.columns_ref().get(number),
        _ => None,
    }
}

/// Shows a column, where it is there.
fn show_one(column: Option<&Column>, shown: &mut ShownColumn) -> ConnectionCode
    ensures { MatchOption (option_map (λ held. column_view held.now) column.entry) (result ≡ code.OutOfRange)
        (λ found. (result ≡ code.Done) × ShowsColumn found shown.new) }
{
    match column {
        Some(column) => {
            show_column(column, shown);
            ConnectionCode::Done
        }
        None => ConnectionCode::OutOfRange,
    }
}

/// A column of a row that is lent.
fn lent_column<'a>(row: RowRef<'a, '_>, number: usize) -> Option<&'a Column>
    ensures { option_map (λ column. column_view column.now) result ≡
        reply_column (RowEvent (row_ref_view row.entry)) number }
{
    row.columns_ref().get(number)
}

/// Shows a column of the event that was told last of an object.
fn column_of(object: &Object, number: usize, shown: &mut ShownColumn) -> ConnectionCode
    ensures { MatchOption (column_held object.now number) (result ≡ unheld_code object.now)
        (λ column. (result ≡ code.Done) × ShowsColumn column shown.new) }
{
    match event_of(object) {
        Ok(Told::Event(Event::Reply(said))) => show_one(column_in(said, number), shown),
        Ok(Told::Row(row)) => show_one(lent_column(row, number), shown),
        Ok(_) => ConnectionCode::OutOfRange,
        Err(code) => code,
    }
}

/// Shows a column of the event that was told last.
///
/// It is the column that the event is, or that of a row's cell.
pub fn connection_column(
    alloc: Global,
    handle: &mut Handle,
    number: usize,
    shown: &mut ShownColumn,
) -> u32
    ensures kept { handle.new.object ≡ handle.old.object }
    ensures shown { MatchOption (column_held handle.old.object number)
        (result ≡ code_number (unheld_code handle.old.object))
        (λ column. (result ≡ 0) × ShowsColumn column shown.new) }
{
    let Some(object) = handle.take(alloc) else {
        return ConnectionCode::EmptyHandle.number();
    };
    let code = column_of(&object, number, shown);
    handle.put(object);
    code.number()
}
