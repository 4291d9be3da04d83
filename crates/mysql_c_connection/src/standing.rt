//! The state of a connection.

ghost use Rattle.std.specs.Prelude.{◌≡◌};
ghost use Rattle.mysql_c_connection.specs.Codes.{code_number, side_numbered};
ghost use Rattle.mysql_c_connection.specs.Standing.{RestIn, RestOf, ShowsStanding, StandingIn, StatementIn};
ghost use Rattle.mysql_c_connection.specs.Standing.{over_number, phase_number, session_in, turn_number};

use crate::code::{ConnectionCode, number_of_fault, number_of_reason, number_of_side, side_of};
use crate::handle::Handle;
use crate::object::Object;
use crate::shown::ShownStanding;
use mysql_c_handles::start_of;
use mysql_connection_machine::Connection;
use mysql_connection_rules::Side;
use mysql_connection_state::Phase;
use mysql_session_modes::SessionMode;
use std::alloc::Global;

/// The number of whose turn it is: 2 where it is nobody's.
fn number_of_turn(turn: Option<Side>) -> u32
    ensures { result ≡ turn_number turn }
{
    match turn {
        Some(side) => number_of_side(side),
        None => 2,
    }
}

/// The number of what comes next.
fn number_of_phase(phase: Phase) -> u32
    ensures { result ≡ phase_number phase }
{
    match phase {
        Phase::Greeting => 0,
        Phase::Response => 1,
        Phase::Authentication => 2,
        Phase::Answer => 3,
        Phase::Command => 4,
        Phase::Reply => 5,
        Phase::FileData => 6,
        Phase::Over(_) => 7,
    }
}

/// The number of why nothing comes any more, or 0.
fn reason_in(phase: Phase) -> u32
    ensures { result ≡ over_number phase }
{
    match phase {
        Phase::Over(reason) => number_of_reason(reason),
        _ => 0,
    }
}

/// What C sees of the state of a connection.
fn telling(connection: &Connection) -> ShownStanding
    ensures { ShowsStanding connection.now result }
{
    let capabilities = connection.capabilities();
    let mut shown = ShownStanding {
        turn: number_of_turn(connection.turn()),
        phase: number_of_phase(connection.phase()),
        reason: reason_in(connection.phase()),
        capabilities: capabilities.protocol.0,
        mariadb_capabilities: capabilities.mariadb.0,
        fault: 0,
        fault_side: 0,
        fault_byte: 0,
        client_room: connection.room(Side::Client),
        server_room: connection.room(Side::Server),
        held: connection.held(),
    };
    if let Some(fault) = connection.fault() {
        shown.fault = number_of_fault(fault.fault);
        shown.fault_side = number_of_side(fault.side);
        shown.fault_byte = fault.byte;
    }
    shown
}

/// Shows the state of the connection that an object is.
fn standing_of(object: &Object, shown: &mut ShownStanding) -> ConnectionCode
    ensures { StandingIn object.now (code_number result) shown.new }
{
    match object {
        Object::Open(open) => {
            *shown = telling(&open.connection);
            ConnectionCode::Done
        }
        Object::Empty => ConnectionCode::EmptyHandle,
    }
}

/// Shows the state of a connection.
pub fn connection_standing(alloc: Global, handle: &mut Handle, shown: &mut ShownStanding) -> u32
    ensures kept { handle.new.object ≡ handle.old.object }
    ensures shown { StandingIn handle.old.object result shown.new }
{
    let Some(object) = handle.take(alloc) else {
        return ConnectionCode::EmptyHandle.number();
    };
    let code = standing_of(&object, shown);
    handle.put(object);
    code.number()
}

/// What is known of the session of the connection that an object is.
fn session_of(object: &Object) -> SessionMode
    ensures { result ≡ session_in object.now }
{
    match object {
        Object::Open(open) => open.connection.session_mode(),
        Object::Empty => SessionMode::unknown(),
    }
}

/// What is known of the mode and the character set of a connection's session.
pub fn connection_session(alloc: Global, handle: &mut Handle) -> SessionMode
    ensures kept { handle.new.object ≡ handle.old.object }
    ensures session { result ≡ session_in handle.old.object }
{
    let Some(object) = handle.take(alloc) else {
        return SessionMode::unknown();
    };
    let session = session_of(&object);
    handle.put(object);
    session
}

/// Shows the statement of this id of the connection that an object is.
fn statement_of(
    object: &Object,
    id: u32,
    text: &mut *const u8,
    len: &mut usize,
    params: &mut u16,
) -> ConnectionCode
    ensures { StatementIn object.now id (code_number result) len.new params.new }
{
    match object {
        Object::Open(open) => match open.connection.statement(id) {
            Some(statement) => {
                *text = start_of(statement.text());
                *len = statement.text().len();
                *params = statement.parameters().count();
                ConnectionCode::Done
            }
            None => ConnectionCode::OutOfRange,
        },
        Object::Empty => ConnectionCode::EmptyHandle,
    }
}

/// Shows the prepared statement that an id of a command refers to: its text, and how many
/// parameters it has.
pub fn connection_statement(
    alloc: Global,
    handle: &mut Handle,
    id: u32,
    text: &mut *const u8,
    len: &mut usize,
    params: &mut u16,
) -> u32
    ensures kept { handle.new.object ≡ handle.old.object }
    ensures shown { StatementIn handle.old.object id result len.new params.new }
{
    let Some(object) = handle.take(alloc) else {
        return ConnectionCode::EmptyHandle.number();
    };
    let code = statement_of(&object, id, text, len, params);
    handle.put(object);
    code.number()
}

/// Shows what of a side's stream is unread of the connection that an object is.
fn rest_of(object: &Object, side: Side, data: &mut *const u8, len: &mut usize) -> ConnectionCode
    ensures { RestIn object.now side (code_number result) len.new }
{
    match object {
        Object::Open(open) => {
            let rest = open.connection.rest(side);
            *data = start_of(rest);
            *len = rest.len();
            ConnectionCode::Done
        }
        Object::Empty => ConnectionCode::EmptyHandle,
    }
}

/// Shows what of a side's stream is unread.
pub fn connection_rest(
    alloc: Global,
    handle: &mut Handle,
    side: u32,
    data: &mut *const u8,
    len: &mut usize,
) -> u32
    ensures kept { handle.new.object ≡ handle.old.object }
    ensures shown { RestOf (side_numbered side) handle.old.object result len.new }
{
    let Some(side) = side_of(side) else {
        return ConnectionCode::NoSuchSide.number();
    };
    let Some(object) = handle.take(alloc) else {
        return ConnectionCode::EmptyHandle.number();
    };
    let code = rest_of(&object, side, data, len);
    handle.put(object);
    code.number()
}
