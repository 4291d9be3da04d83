//! Rows that are lent: they stay in the connection, and are shown where they lie.

ghost use Rattle.std.specs.Prelude.{◌≡◌, ◌<◌, IfSome, MatchOption, None, length, option_map};
ghost use Rattle.std.specs.Option.{option_copied};
ghost use Rattle.mysql_connection_state.specs.Views.{event_view};
ghost use Rattle.mysql_reply_events.specs.Views.{event_view as reply_view};
ghost use Rattle.mysql_row_refs.specs.Places.{value_of};
ghost use Rattle.mysql_row_refs.specs.RowRefs.{row_ref_view};
ghost use Rattle.mysql_rows.specs.Views.{row_view};
ghost use Rattle.mysql_c_connection.specs.Codes.{code_number};
ghost use Rattle.mysql_c_connection.specs.Lent.{ShowsAt, ShowsCells, ShowsLent, ShowsReplyCells, ShowsRow};
ghost use Rattle.mysql_c_connection.specs.Lent.{TellsLent, event_told};
ghost use Rattle.mysql_c_connection.specs.Opened.{IsOpen, OfOpen};
ghost use Rattle.mysql_c_connection.specs.declared.code.ConnectionCode.TheVariants as code;
ghost use Rattle.mysql_c_replies.specs.Shown.{ShowsValue};

use crate::code::ConnectionCode;
use crate::events::telling_event;
use crate::handle::Handle;
use crate::object::{Object, OpenConnection};
use mysql_c_connection_events::{ShownEvent, blank, telling_row};
use mysql_c_handles::start_of;
use mysql_c_replies::{ShownValue, show_value};
use mysql_cells::Value;
use mysql_connection_machine::{Connection, LentEvent};
use mysql_connection_state::Event;
use mysql_reply_events::ReplyEvent;
use mysql_row_refs::{RowRef, ValueRef};
use mysql_rows::Row;
use std::alloc::Global;

/// Shows a value that is borrowed. Bytes stay where they are.
fn show_ref(value: ValueRef<'_>, shown: &mut ShownValue)
    ensures { ShowsValue (value_of value.entry) shown.new }
{
    match value {
        ValueRef::NULL => shown.kind = 0,
        ValueRef::Int(number) => {
            shown.kind = 1;
            shown.int = number;
        }
        ValueRef::UInt(number) => {
            shown.kind = 2;
            shown.uint = number;
        }
        ValueRef::Bytes(bytes) => {
            shown.kind = 3;
            shown.bytes = start_of(bytes);
            shown.len = bytes.len();
        }
        ValueRef::Float(bits) => {
            shown.kind = 4;
            shown.uint = bits as u64;
        }
        ValueRef::Double(bits) => {
            shown.kind = 5;
            shown.uint = bits;
        }
        ValueRef::Date(year, month, day, hour, minute, second, micros) => {
            shown.kind = 6;
            shown.year = year;
            shown.month = month;
            shown.day = day;
            shown.hour = hour;
            shown.minute = minute;
            shown.second = second;
            shown.micros = micros;
        }
        ValueRef::Time(negative, days, hours, minutes, seconds, micros) => {
            shown.kind = 7;
            shown.negative = negative;
            shown.days = days;
            shown.hour = hours;
            shown.minute = minutes;
            shown.second = seconds;
            shown.micros = micros;
        }
    }
}

/// Shows a value that is borrowed, where it is there.
pub(crate) fn show_one_ref(value: Option<ValueRef<'_>>, shown: &mut ShownValue) -> ConnectionCode
    ensures { MatchOption (option_map value_of value.entry) (result ≡ code.OutOfRange)
        (λ found. (result ≡ code.Done) × ShowsValue found shown.new) }
{
    match value {
        Some(value) => {
            show_ref(value, shown);
            ConnectionCode::Done
        }
        None => ConnectionCode::OutOfRange,
    }
}

/// Shows a borrowed value in the struct of its number, where it is there.
#[tactic(auto, using(crate::proofs::Cells::sets_shown))]
fn show_ref_at(value: Option<ValueRef<'_>>, place: usize, cells: &mut [ShownValue])
    requires { place < length cells.old }
    ensures { ShowsAt (option_map value_of value.entry) place cells.old cells.new }
{
    match value {
        Some(value) => show_ref(value, &mut cells[place]),
        None => {}
    }
}

/// Shows the first cells of a row that is lent, each by its number.
#[tactic(auto, using(crate::proofs::Cells::start, crate::proofs::Cells::more, crate::proofs::Cells::whole))]
fn show_lent_row(row: RowRef<'_, '_>, cells: &mut [ShownValue])
    ensures { ShowsRow (row_ref_view row.entry) cells.old cells.new }
{
    let count = row.len().min(cells.len());
    for place in 0..count {
        show_ref_at(row.as_ref(place), place, cells);
    }
}

/// Shows a value that is held in the struct of its number, where it is there.
#[tactic(auto, using(crate::proofs::Cells::sets_shown))]
fn show_value_at(value: Option<&Value>, place: usize, cells: &mut [ShownValue])
    requires { place < length cells.old }
    ensures { ShowsAt (option_copied value.entry) place cells.old cells.new }
{
    match value {
        Some(value) => show_value(value, &mut cells[place]),
        None => {}
    }
}

/// Shows the first cells of a row that is held, each by its number.
#[tactic(auto, using(crate::proofs::Cells::start, crate::proofs::Cells::more, crate::proofs::Cells::whole))]
fn show_held_row(row: &Row, cells: &mut [ShownValue])
    ensures { ShowsRow (row_view row.now) cells.old cells.new }
{
    let count = row.len().min(cells.len());
    for place in 0..count {
        show_value_at(row.as_ref(place), place, cells);
    }
}

/// Shows the first cells of a reply's payload that is a row.
fn show_reply_cells(said: &ReplyEvent, cells: &mut [ShownValue])
    ensures { ShowsReplyCells (reply_view said.now) cells.old cells.new }
{
    match said {
        ReplyEvent::Row(row) => show_held_row(row, cells),
        _ => {}
    }
}

/// Shows the first cells of an event that is a row.
fn show_cells(event: &Event, cells: &mut [ShownValue])
    ensures { ShowsCells (event_view event.now) cells.old cells.new }
{
    match event {
        Event::Reply(said) => show_reply_cells(said, cells),
        _ => {}
    }
}

/// Shows the row that is lent, where there is one.
#[tactic(auto, using(crate::proofs::Cells::some_told, crate::proofs::Cells::none_told))]
fn show_lent(connection: &Connection, cells: &mut [ShownValue], shown: &mut ShownEvent)
    ensures { IfSome (event_told None connection.now.row)
        (λ told. ShowsLent connection.now told cells.old cells.new shown.new) }
{
    match connection.row() {
        Some(row) => {
            show_lent_row(row, cells);
            *shown = telling_row(row.len());
        }
        None => {}
    }
}

/// Shows an event that is held.
fn show_told(
    connection: &Connection,
    event: &Event,
    cells: &mut [ShownValue],
    shown: &mut ShownEvent,
)
    ensures { ShowsLent connection.now (event_view event.now) cells.old cells.new shown.new }
{
    show_cells(event, cells);
    *shown = telling_event(connection, event);
}

impl OpenConnection {
    /// Takes the next event, and shows it; a row stays where it lies.
    fn next_lent(&mut self, cells: &mut [ShownValue], shown: &mut ShownEvent) -> ConnectionCode
        ensures { TellsLent (code_number result) self.old self.new cells.old cells.new shown.new }
    {
        self.lines.clear();
        self.end = None;
        self.event = None;
        match self.connection.next_event_lent() {
            Ok(Some(LentEvent::Row)) => {
                show_lent(&self.connection, cells, shown);
                ConnectionCode::Done
            }
            Ok(Some(LentEvent::Event(event))) => {
                show_told(&self.connection, &event, cells, shown);
                self.event = Some(event);
                ConnectionCode::Done
            }
            Ok(None) => {
                *shown = blank(0, 2);
                ConnectionCode::Done
            }
            Err(fault) => ConnectionCode::Fault(fault.fault),
        }
    }
}

/// Takes the next event of the connection that an object is, and shows it; a row is lent.
fn next_lent_in(
    object: &mut Object,
    cells: &mut [ShownValue],
    shown: &mut ShownEvent,
) -> ConnectionCode
    ensures { OfOpen object.old (code_number result) object.new
        (λ old. IsOpen object.new
        (λ new. TellsLent (code_number result) old new cells.old cells.new shown.new)) }
{
    match object {
        Object::Open(open) => open.next_lent(cells, shown),
        Object::Empty => ConnectionCode::EmptyHandle,
    }
}

/// Takes the next event, and shows it, as [`connection_next`](crate::connection_next) does.
///
/// A row stays where it lies, and its first cells are shown, each by its number.
/// Cells behind the row's, and all cells where the event is no row, stay as they were.
///
/// Promise: exactly what comes next of the two streams is shown, or its fault told. Of a row, held or
/// lent, each cell for which there is room is shown (`TellsLent`).
///
/// MySQL: Client/Server Protocol, "Text Resultset Row" and "Binary Protocol Resultset Row"; C API,
/// "mysql_use_result()".
pub fn connection_next_lent(
    alloc: Global,
    handle: &mut Handle,
    cells: &mut [ShownValue],
    shown: &mut ShownEvent,
) -> u32
    ensures { OfOpen handle.old.object result handle.new.object
        (λ old. IsOpen handle.new.object
        (λ new. TellsLent result old new cells.old cells.new shown.new)) }
{
    let Some(mut object) = handle.take(alloc) else {
        return ConnectionCode::EmptyHandle.number();
    };
    let code = next_lent_in(&mut object, cells, shown);
    handle.put(object);
    code.number()
}
