//! Whole connections, as exports.

ghost use Rattle.std.specs.Prelude.{◌≡◌, ◌≢◌, MatchOption};
ghost use Rattle.std.specs.Option.{option_map};
ghost use Rattle.mysql_c_commands.specs.Known.{session_shown};
ghost use Rattle.mysql_c_commands.specs.Modes.{flagged};
ghost use Rattle.mysql_c_connection.specs.Codes.{code_number, side_numbered};
ghost use Rattle.mysql_c_connection.specs.Columns.{column_held};
ghost use Rattle.mysql_c_connection.specs.Lent.{TellsLent};
ghost use Rattle.mysql_connection_rules.specs.Streams.{from_login};
ghost use Rattle.mysql_session_modes.specs.SessionModes.{spelling_in};
ghost use Rattle.mysql_c_connection.specs.Opened.{Closes, Finishes, IsFed, IsNew, IsNewFrom, IsOpen, Lines};
ghost use Rattle.mysql_c_connection.specs.Opened.{OfOpen, OfSide};
ghost use Rattle.mysql_c_connection.specs.Putting.{ArePutIn, IsPutIn, OfBoth, OfSideAndBytes, SetsArePutIn};
ghost use Rattle.mysql_c_connection.specs.Opened.{Tells};
ghost use Rattle.mysql_c_connection.specs.Standing.{RestOf, StandingIn, StatementIn, session_in};
ghost use Rattle.mysql_c_connection.specs.Unclear.{ShowsUnclear, read_event};
ghost use Rattle.mysql_c_connection.specs.Values.{ShowsBulk, ShowsNamed, attribute_held, unheld_code, value_held};
ghost use Rattle.mysql_c_connection.specs.declared.object.Object.TheVariants.{Empty};
ghost use Rattle.mysql_c_replies.specs.Shown.{ShowsColumn};

use mysql_c_commands::{ShownSession, shown_session};
use mysql_c_connection::{Form, Handle, Secrets, ShownConnectionEnd, ShownStanding};
use mysql_c_connection_events::ShownEvent;
use mysql_c_handles::Handle as BytesHandle;
use mysql_c_replies::{ShownColumn, ShownValue};
use mysql_const::{Capabilities, CapabilityFlags, MariadbCapabilities};
use std::alloc::Global;
use std::mem::replace;

/// Makes the handle refer to a connection of which no byte came.
#[unsafe(no_mangle)]
pub extern "C" fn mysql_session_connection_new(
    alloc: Global,
    handle: &mut Handle,
    client: usize,
    server: usize,
    held: usize,
) -> u32
    ensures made { result ≡ 0 → IsOpen handle.new.object
        (IsNew (record { client = client; server = server; held = held })) }
    ensures kept { result ≢ 0 → (result ≡ 1) × (handle.new.object ≡ handle.old.object) }
{
    mysql_c_connection::connection_new(alloc, handle, client, server, held)
}

/// Makes the handle refer to a connection behind a login that was made elsewhere.
#[unsafe(no_mangle)]
pub extern "C" fn mysql_session_connection_after_login(
    alloc: Global,
    handle: &mut Handle,
    capabilities: u32,
    mariadb: u32,
    client: usize,
    server: usize,
    held: usize,
) -> u32
    ensures made { result ≡ 0 → IsOpen handle.new.object (IsNewFrom (from_login
        (record { client = client; server = server; held = held })
        (record { protocol = record { 0 = capabilities }; mariadb = record { 0 = mariadb } }))) }
    ensures kept { result ≢ 0 → (result ≡ 1) × (handle.new.object ≡ handle.old.object) }
{
    let capabilities = Capabilities {
        protocol: CapabilityFlags(capabilities),
        mariadb: MariadbCapabilities(mariadb),
    };
    mysql_c_connection::connection_after_login(alloc, handle, capabilities, client, server, held)
}

/// Frees the connection that the handle refers to. It refers to nothing then.
#[unsafe(no_mangle)]
pub extern "C" fn mysql_session_connection_free(alloc: Global, handle: &mut Handle)
    ensures { handle.new.object ≡ Empty }
{
    drop(replace(handle, Handle::empty(alloc)));
}

/// Takes a piece of a side's stream, whole; nothing of it is read yet. Or it is refused.
#[unsafe(no_mangle)]
pub extern "C" fn mysql_session_connection_feed(
    alloc: Global,
    handle: &mut Handle,
    side: u32,
    piece: &[u8],
) -> u32
    ensures { OfSide (side_numbered side) handle.old.object result handle.new.object
        (λ which old. IsOpen handle.new.object (IsFed which piece.now result old)) }
{
    mysql_c_connection::connection_feed(alloc, handle, side, piece)
}

/// Ends a side's stream: no more comes of it.
#[unsafe(no_mangle)]
pub extern "C" fn mysql_session_connection_close(
    alloc: Global,
    handle: &mut Handle,
    side: u32,
) -> u32
    ensures { OfSide (side_numbered side) handle.old.object result handle.new.object
        (λ which old. IsOpen handle.new.object (Closes which result old)) }
{
    mysql_c_connection::connection_close(alloc, handle, side)
}

/// Takes the next event, and shows it.
///
/// It is one of kind 0 where the next payload isn't there whole, or the connection is over.
#[unsafe(no_mangle)]
pub extern "C" fn mysql_session_connection_next(
    alloc: Global,
    handle: &mut Handle,
    shown: &mut ShownEvent,
) -> u32
    ensures { OfOpen handle.old.object result handle.new.object
        (λ old. IsOpen handle.new.object (λ new. Tells result old new shown.new)) }
{
    mysql_c_connection::connection_next(alloc, handle, shown)
}

/// Takes the next event, and shows it, as `mysql_session_connection_next` does.
///
/// A row stays where it lies, and its first cells are shown, each by its number.
#[unsafe(no_mangle)]
pub extern "C" fn mysql_session_connection_next_lent(
    alloc: Global,
    handle: &mut Handle,
    cells: &mut [ShownValue],
    shown: &mut ShownEvent,
) -> u32
    ensures { OfOpen handle.old.object result handle.new.object
        (λ old. IsOpen handle.new.object
        (λ new. TellsLent result old new cells.old cells.new shown.new)) }
{
    mysql_c_connection::connection_next_lent(alloc, handle, cells, shown)
}

/// Puts a payload of a side at its turn.
///
/// Its packets are appended to the bytes that a handle refers to, and the event that it says is
/// shown.
#[unsafe(no_mangle)]
pub extern "C" fn mysql_session_connection_put(
    alloc: Global,
    handle: &mut Handle,
    side: u32,
    payload: &[u8],
    out: &mut BytesHandle,
    shown: &mut ShownEvent,
) -> u32
    ensures { OfSideAndBytes (side_numbered side) handle.old.object out.old.object result
        handle.new.object out.new.object
        (λ which. IsPutIn which payload.now result handle.new.object out.new.object shown.new) }
{
    mysql_c_connection::connection_put(alloc, handle, side, payload, out, shown)
}

/// Puts the payloads of packets of a side, one after another, as long as it is its turn.
#[unsafe(no_mangle)]
pub extern "C" fn mysql_session_connection_put_packets(
    alloc: Global,
    handle: &mut Handle,
    side: u32,
    packets: &[u8],
    out: &mut BytesHandle,
    used: &mut usize,
) -> u32
    ensures { OfSideAndBytes (side_numbered side) handle.old.object out.old.object result
        handle.new.object out.new.object
        (λ which. ArePutIn which packets.now result handle.new.object out.new.object used.new) }
{
    mysql_c_connection::connection_put_packets(alloc, handle, side, packets, out, used)
}

/// Puts packets of a query's sets, if the statement has as many parameters as the query placeholders.
#[unsafe(no_mangle)]
pub extern "C" fn mysql_session_connection_put_sets(
    alloc: Global,
    handle: &mut Handle,
    statement: u32,
    places: usize,
    packets: &[u8],
    out: &mut BytesHandle,
    used: &mut usize,
) -> u32
    ensures { OfBoth handle.old.object out.old.object result handle.new.object out.new.object
        (SetsArePutIn statement places packets.now result handle.new.object out.new.object
        used.new) }
{
    mysql_c_connection::connection_put_sets(alloc, handle, statement, places, packets, out, used)
}

/// Shows a value of the event that was told last.
///
/// It is a cell of a row, or a parameter of an execution or of a row of a bulk execution.
#[unsafe(no_mangle)]
pub extern "C" fn mysql_session_connection_value(
    alloc: Global,
    handle: &mut Handle,
    row: usize,
    place: usize,
    shown: &mut ShownValue,
) -> u32
    ensures kept { handle.new.object ≡ handle.old.object }
    ensures shown { MatchOption (value_held handle.old.object row place)
        (result ≡ code_number (unheld_code handle.old.object)) (λ found. (result ≡ 0) × ShowsBulk found shown.new) }
{
    mysql_c_connection::connection_value(alloc, handle, row, place, shown)
}

/// Tells whether servers read a value of the event that was told last each their way.
///
/// It is one of an execution or of a row of a bulk execution; attributes are counted behind the
/// parameters. The bytes are those of the command from the first such cell on.
#[unsafe(no_mangle)]
pub extern "C" fn mysql_session_connection_unclear(
    alloc: Global,
    handle: &mut Handle,
    row: usize,
    place: usize,
    unclear: &mut bool,
    cells: &mut *const u8,
    len: &mut usize,
) -> u32
    ensures kept { handle.new.object ≡ handle.old.object }
    ensures shown { MatchOption (read_event handle.old.object)
        (result ≡ code_number (unheld_code handle.old.object))
        (λ event. (result ≡ 0) × ShowsUnclear event row place unclear.new len.new) }
{
    mysql_c_connection::connection_unclear(alloc, handle, row, place, unclear, cells, len)
}

/// Shows an attribute of the event that was told last, by its number.
///
/// It is one of a login, a change of user, a query or an execution.
#[unsafe(no_mangle)]
pub extern "C" fn mysql_session_connection_attribute(
    alloc: Global,
    handle: &mut Handle,
    number: usize,
    name: &mut *const u8,
    len: &mut usize,
    shown: &mut ShownValue,
) -> u32
    ensures kept { handle.new.object ≡ handle.old.object }
    ensures shown { MatchOption (attribute_held handle.old.object number)
        (result ≡ code_number (unheld_code handle.old.object))
        (λ named. (result ≡ 0) × ShowsNamed named len.new shown.new) }
{
    mysql_c_connection::connection_attribute(alloc, handle, number, name, len, shown)
}

/// Shows a column of the event that was told last.
///
/// It is the column that the event is, or that of a row's cell.
#[unsafe(no_mangle)]
pub extern "C" fn mysql_session_connection_column(
    alloc: Global,
    handle: &mut Handle,
    number: usize,
    shown: &mut ShownColumn,
) -> u32
    ensures kept { handle.new.object ≡ handle.old.object }
    ensures shown { MatchOption (column_held handle.old.object number)
        (result ≡ code_number (unheld_code handle.old.object))
        (λ column. (result ≡ 0) × ShowsColumn column shown.new) }
{
    mysql_c_connection::connection_column(alloc, handle, number, shown)
}

/// Shows the event that was told last as a line, or how the connection ended.
///
/// Of an authentication's bytes the line has the length alone.
#[unsafe(no_mangle)]
pub extern "C" fn mysql_session_connection_line(
    alloc: Global,
    handle: &mut Handle,
    text: &mut *const u8,
    len: &mut usize,
) -> u32
    ensures { OfOpen handle.old.object result handle.new.object
        (λ old. IsOpen handle.new.object (Lines old)) }
{
    mysql_c_connection::connection_line(alloc, handle, Form::Long(Secrets::Hidden), text, len)
}

/// Shows the same line with the bytes of an authentication, as passwords and their scrambles.
#[unsafe(no_mangle)]
pub extern "C" fn mysql_session_connection_line_with_secrets(
    alloc: Global,
    handle: &mut Handle,
    text: &mut *const u8,
    len: &mut usize,
) -> u32
    ensures { OfOpen handle.old.object result handle.new.object
        (λ old. IsOpen handle.new.object (Lines old)) }
{
    mysql_c_connection::connection_line(alloc, handle, Form::Long(Secrets::Shown), text, len)
}

/// Shows the line with texts in quotes, and with values as the server's own client shows them.
///
/// It has the bytes of an authentication where `secrets` is true.
#[unsafe(no_mangle)]
pub extern "C" fn mysql_session_connection_line_with_texts(
    alloc: Global,
    handle: &mut Handle,
    secrets: bool,
    text: &mut *const u8,
    len: &mut usize,
) -> u32
    ensures { OfOpen handle.old.object result handle.new.object
        (λ old. IsOpen handle.new.object (Lines old)) }
{
    let secrets = if secrets {
        Secrets::Shown
    } else {
        Secrets::Hidden
    };
    let form = Form::LongWithTexts(secrets, alloc);
    mysql_c_connection::connection_line(alloc, handle, form, text, len)
}

/// Shows the state of a connection.
#[unsafe(no_mangle)]
pub extern "C" fn mysql_session_connection_standing(
    alloc: Global,
    handle: &mut Handle,
    shown: &mut ShownStanding,
) -> u32
    ensures kept { handle.new.object ≡ handle.old.object }
    ensures shown { StandingIn handle.old.object result shown.new }
{
    mysql_c_connection::connection_standing(alloc, handle, shown)
}

/// Shows what is known of a connection's session: of a handle that refers to nothing, nothing.
#[unsafe(no_mangle)]
pub extern "C" fn mysql_session_connection_known(
    alloc: Global,
    handle: &mut Handle,
    known: &mut ShownSession,
)
    ensures kept { handle.new.object ≡ handle.old.object }
    ensures shown { known.new ≡ session_shown (session_in handle.old.object) }
    ensures told { flagged known.new.flags ≡ option_map
        (λ mode. (mode, spelling_in (session_in handle.old.object)))
        (session_in handle.old.object).mode }
{
    *known = shown_session(mysql_c_connection::connection_session(alloc, handle));
}

/// Shows the prepared statement that an id of a command refers to: its text, and how many
/// parameters it has.
#[unsafe(no_mangle)]
pub extern "C" fn mysql_session_connection_statement(
    alloc: Global,
    handle: &mut Handle,
    id: u32,
    text: &mut *const u8,
    len: &mut usize,
    params: &mut u16,
) -> u32
    ensures kept { handle.new.object ≡ handle.old.object }
    ensures shown { StatementIn handle.old.object id result len.new params.new }
{
    mysql_c_connection::connection_statement(alloc, handle, id, text, len, params)
}

/// Shows what of a side's stream is unread.
#[unsafe(no_mangle)]
pub extern "C" fn mysql_session_connection_rest(
    alloc: Global,
    handle: &mut Handle,
    side: u32,
    data: &mut *const u8,
    len: &mut usize,
) -> u32
    ensures kept { handle.new.object ≡ handle.old.object }
    ensures shown { RestOf (side_numbered side) handle.old.object result len.new }
{
    mysql_c_connection::connection_rest(alloc, handle, side, data, len)
}

/// Ends both streams, and shows the state of the connection.
#[unsafe(no_mangle)]
pub extern "C" fn mysql_session_connection_finish(
    alloc: Global,
    handle: &mut Handle,
    shown: &mut ShownConnectionEnd,
) -> u32
    ensures { OfOpen handle.old.object result handle.new.object
        (λ old. IsOpen handle.new.object (λ new. (result ≡ 0) × Finishes old new shown.new)) }
{
    mysql_c_connection::connection_finish(alloc, handle, shown)
}
