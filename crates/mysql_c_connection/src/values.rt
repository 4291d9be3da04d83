//! The values and the attributes of the event that was told last.

ghost use Rattle.std.specs.Prelude.{◌≡◌, MatchOption, MatchResult, None, Some, option_map, slice_get};
ghost use Rattle.std.specs.Option.{option_and_then, option_copied};
ghost use Rattle.mysql_commands.specs.Views.{command_view};
ghost use Rattle.mysql_handshake_response.specs.AttributeViews.{attributes_view};
ghost use Rattle.mysql_connection_state.specs.Views.{event_view};
ghost use Rattle.mysql_executions.specs.Views.{bulk_of};
ghost use Rattle.mysql_reply_events.specs.Events.Event.{RowEvent};
ghost use Rattle.mysql_reply_events.specs.Views.{event_view as reply_view};
ghost use Rattle.mysql_row_refs.specs.RowRefs.{row_ref_view};
ghost use Rattle.mysql_c_connection.specs.Codes.{code_number};
ghost use Rattle.mysql_c_connection.specs.Lent.{event_told, told_view};
ghost use Rattle.mysql_c_connection.specs.Values.{ShowsBulk, ShowsNamed, attribute_held, attribute_in};
ghost use Rattle.mysql_c_connection.specs.Values.{attribute_named, cell_in, command_attribute, event_held};
ghost use Rattle.mysql_c_connection.specs.Values.{named_view, pair_at, parameter_in, unheld_code, value_held};
ghost use Rattle.mysql_c_connection.specs.declared.code.ConnectionCode.TheVariants as code;
ghost use Rattle.mysql_c_replies.specs.Shown.{ShowsValue};

use crate::code::ConnectionCode;
use crate::handle::Handle;
use crate::lent::show_one_ref;
use crate::object::Object;
use mysql_authentication::{LoginResponse, ResponseEvent};
use mysql_c_handles::start_of;
use mysql_c_replies::{ShownValue, show_value};
use mysql_cells::Value;
use mysql_commands::{Attribute, BulkExecution, BulkValue, Command};
use mysql_connection_machine::Connection;
use mysql_connection_state::Event;
use mysql_handshake_response::ConnectAttributes;
use mysql_reply_events::ReplyEvent;
use mysql_row_refs::RowRef;
use std::alloc::Global;

/// The event that was told last, where it lies: it is held, or a row that the connection lends.
#[derive(Clone, Copy)]
pub enum Told<'a> {
    Event(&'a Event),
    Row(RowRef<'a, 'a>),
}

/// The event that was told last of a connection: the one that is held, else a row that is lent.
pub(crate) fn told_of<'a>(event: &'a Option<Event>, connection: &'a Connection) -> Option<Told<'a>>
    ensures { option_map told_view result ≡ event_told event.now connection.now.row }
{
    match event {
        Some(event) => Some(Told::Event(event)),
        None => match connection.row() {
            Some(row) => Some(Told::Row(row)),
            None => None,
        },
    }
}

/// The event that was told last of an object.
pub(crate) fn event_of(object: &Object) -> Result<Told<'_>, ConnectionCode>
    ensures { MatchResult result
        (λ event. (event_held object.now ≡ Some (told_view event)) × (unheld_code object.now ≡ code.OutOfRange))
        (λ e. (event_held object.now ≡ None) × (e ≡ unheld_code object.now)) }
{
    match object {
        Object::Open(open) => match told_of(&open.event, &open.connection) {
            Some(event) => Ok(event),
            None => Err(ConnectionCode::OutOfRange),
        },
        Object::Empty => Err(ConnectionCode::EmptyHandle),
    }
}

/// Shows a value, where it is there.
fn show_one(value: Option<&Value>, shown: &mut ShownValue) -> ConnectionCode
    ensures { MatchOption (option_copied value.entry) (result ≡ code.OutOfRange)
        (λ found. (result ≡ code.Done) × ShowsValue found shown.new) }
{
    match value {
        Some(value) => {
            show_value(value, shown);
            ConnectionCode::Done
        }
        None => ConnectionCode::OutOfRange,
    }
}

/// What a parameter holds in a row of a bulk execution.
fn bulk_value_of(execution: &BulkExecution, row: usize, place: usize) -> Option<&BulkValue>
    ensures { option_copied result ≡
        option_and_then (λ values. slice_get values place) (slice_get (bulk_of execution.now).rows row) }
{
    match execution.rows.get(row) {
        Some(values) => values.get(place),
        None => None,
    }
}

/// Shows what a parameter holds in a row of a bulk execution.
fn show_bulk(value: Option<&BulkValue>, shown: &mut ShownValue) -> ConnectionCode
    ensures { MatchOption (option_copied value.entry) (result ≡ code.OutOfRange)
        (λ found. (result ≡ code.Done) × ShowsBulk found shown.new) }
{
    match value {
        Some(BulkValue::Value(value)) => show_value(value, shown),
        Some(BulkValue::Default) => shown.kind = 8,
        Some(BulkValue::Ignore) => shown.kind = 9,
        None => return ConnectionCode::OutOfRange,
    }
    ConnectionCode::Done
}

/// Shows a parameter of a command.
fn show_parameter(
    command: &Command<'_>,
    row: usize,
    place: usize,
    shown: &mut ShownValue,
) -> ConnectionCode
    ensures { MatchOption (parameter_in (command_view command.now) row place) (result ≡ code.OutOfRange)
        (λ found. (result ≡ code.Done) × ShowsBulk found shown.new) }
{
    match command {
        Command::Execute(execution) if row == 0 => {
            show_one(execution.parameters.get(place), shown)
        }
        Command::BulkExecute(execution) => show_bulk(bulk_value_of(execution, row, place), shown),
        _ => ConnectionCode::OutOfRange,
    }
}

/// Shows a cell of a reply's row.
fn show_cell(said: &ReplyEvent, row: usize, place: usize, shown: &mut ShownValue) -> ConnectionCode
    ensures { MatchOption (cell_in (reply_view said.now) row place) (result ≡ code.OutOfRange)
        (λ found. (result ≡ code.Done) × ShowsBulk found shown.new) }
{
    match said {
        ReplyEvent::Row(cells) if row == 0 => show_one(cells.as_ref(place), shown),
        _ => ConnectionCode::OutOfRange,
    }
}

/// Shows a cell of a row that is lent.
fn show_lent_cell(
    cells: RowRef<'_, '_>,
    row: usize,
    place: usize,
    shown: &mut ShownValue,
) -> ConnectionCode
    ensures { MatchOption (cell_in (RowEvent (row_ref_view cells.entry)) row place) (result ≡ code.OutOfRange)
        (λ found. (result ≡ code.Done) × ShowsBulk found shown.new) }
{
    if row == 0 {
        show_one_ref(cells.as_ref(place), shown)
    } else {
        ConnectionCode::OutOfRange
    }
}

/// Shows a value of the event that was told last of an object.
fn value_of(object: &Object, row: usize, place: usize, shown: &mut ShownValue) -> ConnectionCode
    ensures { MatchOption (value_held object.now row place) (result ≡ unheld_code object.now)
        (λ found. (result ≡ code.Done) × ShowsBulk found shown.new) }
{
    match event_of(object) {
        Ok(Told::Event(Event::Command(command))) => show_parameter(command, row, place, shown),
        Ok(Told::Event(Event::Reply(said))) => show_cell(said, row, place, shown),
        Ok(Told::Row(cells)) => show_lent_cell(cells, row, place, shown),
        Ok(_) => ConnectionCode::OutOfRange,
        Err(code) => code,
    }
}

/// Shows a value of the event that was told last.
///
/// It is a cell of a row, or a parameter of an execution or of a row of a bulk execution.
///
/// Promise: the value is that of the event that is held, and there is none exactly where it has none
/// (`value_held`, `ShowsBulk`).
pub fn connection_value(
    alloc: Global,
    handle: &mut Handle,
    row: usize,
    place: usize,
    shown: &mut ShownValue,
) -> u32
    ensures kept { handle.new.object ≡ handle.old.object }
    ensures shown { MatchOption (value_held handle.old.object row place)
        (result ≡ code_number (unheld_code handle.old.object)) (λ found. (result ≡ 0) × ShowsBulk found shown.new) }
{
    let Some(object) = handle.take(alloc) else {
        return ConnectionCode::EmptyHandle.number();
    };
    let code = value_of(&object, row, place, shown);
    handle.put(object);
    code.number()
}

/// An attribute: its name, and its value or the bytes that are that.
#[derive(Clone, Copy)]
enum NamedValue<'a> {
    Value(&'a [u8], &'a Value),
    Bytes(&'a [u8], &'a [u8]),
}

/// An attribute of a query or an execution.
fn attribute_at(attributes: &[Attribute], number: usize) -> Option<NamedValue<'_>>
    ensures { option_map named_view result ≡ option_map attribute_named (slice_get attributes.now number) }
{
    match attributes.get(number) {
        Some(attribute) => Some(NamedValue::Value(
            attribute.bound_type.name.as_slice(),
            &attribute.value,
        )),
        None => None,
    }
}

/// An attribute of a login.
fn pair_at<'a>(
    attributes: Option<&'a ConnectAttributes<'_>>,
    number: usize,
) -> Option<NamedValue<'a>>
    ensures { option_map named_view result ≡
        pair_at (option_map (λ all. attributes_view all.now) attributes.entry) number }
{
    match attributes {
        Some(attributes) => match attributes.pair(number) {
            Some((name, value)) => Some(NamedValue::Bytes(name, value)),
            None => None,
        },
        None => None,
    }
}

/// An attribute of a command.
fn of_command<'a>(command: &'a Command<'_>, number: usize) -> Option<NamedValue<'a>>
    ensures { option_map named_view result ≡ command_attribute (command_view command.now) number }
{
    match command {
        Command::Query { attributes, sql: _ } => attribute_at(attributes, number),
        Command::Execute(execution) => attribute_at(&execution.attributes, number),
        Command::ChangeUser(login) => match login.more_data() {
            Some(more) => pair_at(more.attributes(), number),
            None => None,
        },
        _ => None,
    }
}

/// An attribute of an event.
fn of_event(event: &Event, number: usize) -> Option<NamedValue<'_>>
    ensures { option_map named_view result ≡ attribute_in (event_view event.now) number }
{
    match event {
        Event::Command(command) => of_command(command, number),
        Event::Response(said) => match &**said {
            ResponseEvent::Login(LoginResponse::Whole(response)) => {
                pair_at(response.attributes(), number)
            }
            _ => None,
        },
        _ => None,
    }
}

/// Shows an attribute.
fn show_named(
    found: Option<NamedValue<'_>>,
    name: &mut *const u8,
    len: &mut usize,
    shown: &mut ShownValue,
) -> ConnectionCode
    ensures { MatchOption (option_map named_view found.entry) (result ≡ code.OutOfRange)
        (λ named. (result ≡ code.Done) × ShowsNamed named len.new shown.new) }
{
    let named = match found {
        Some(NamedValue::Value(named, value)) => {
            show_value(value, shown);
            named
        }
        Some(NamedValue::Bytes(named, bytes)) => {
            shown.kind = 3;
            shown.bytes = start_of(bytes);
            shown.len = bytes.len();
            named
        }
        None => return ConnectionCode::OutOfRange,
    };
    *name = start_of(named);
    *len = named.len();
    ConnectionCode::Done
}

/// Shows an attribute of the event that was told last of an object.
fn attribute_of(
    object: &Object,
    number: usize,
    name: &mut *const u8,
    len: &mut usize,
    shown: &mut ShownValue,
) -> ConnectionCode
    ensures { MatchOption (attribute_held object.now number) (result ≡ unheld_code object.now)
        (λ named. (result ≡ code.Done) × ShowsNamed named len.new shown.new) }
{
    match event_of(object) {
        Ok(Told::Event(event)) => show_named(of_event(event, number), name, len, shown),
        Ok(Told::Row(_)) => ConnectionCode::OutOfRange,
        Err(code) => code,
    }
}

/// Shows an attribute of the event that was told last, by its number.
///
/// It is one of a login, a change of user, a query or an execution.
pub fn connection_attribute(
    alloc: Global,
    handle: &mut Handle,
    number: usize,
    name: &mut *const u8,
    len: &mut usize,
    shown: &mut ShownValue,
) -> u32
    ensures kept { handle.new.object ≡ handle.old.object }
    ensures shown { MatchOption (attribute_held handle.old.object number)
        (result ≡ code_number (unheld_code handle.old.object))
        (λ named. (result ≡ 0) × ShowsNamed named len.new shown.new) }
{
    let Some(object) = handle.take(alloc) else {
        return ConnectionCode::EmptyHandle.number();
    };
    let code = attribute_of(&object, number, name, len, shown);
    handle.put(object);
    code.number()
}
