//! Commands: bytes that were written, modes, receivers, parameter sets, sending, texts and recoders.

ghost use Rattle.mysql_c_commands.specs.Adding.{AddsSetIn};
ghost use Rattle.mysql_c_commands.specs.Digests.{PutsDigestTo};
ghost use Rattle.mysql_c_commands.specs.Counting.{CountsPlaces};
ghost use Rattle.mysql_c_commands.specs.Executing.{PutsExecutionFrom};
ghost use Rattle.mysql_c_commands.specs.Known.{IsBehindText, ok_telling, session_known, session_shown};
ghost use Rattle.mysql_c_commands.specs.Modes.{InMode, flagged, unknown_mode};
ghost use Rattle.mysql_c_commands.specs.Receivers.{EndsAs, IsFedBy, LetsGo, MakesReceiver, OfReceiver, content_at};
ghost use Rattle.mysql_c_commands.specs.Receivers.{missing_code, reading_code, sets_held};
ghost use Rattle.mysql_c_commands.specs.Recoding.{MakesRecoder, RecoderEnds, RecodesFrom};
ghost use Rattle.mysql_c_commands.specs.Sending.{SendsFrom};
ghost use Rattle.mysql_c_commands.specs.Sets.{CountsSets, EndsSetIn, HasNone, LosesAll, TakesValueIn};
ghost use Rattle.mysql_c_commands.specs.Shown.{Shows};
ghost use Rattle.mysql_c_commands.specs.Texts.{BindsTextFrom, PutsLiteralFrom};
ghost use Rattle.mysql_c_handles.specs.Bytes.{HasLength, IsBytes, IsCleared, OfBytes};
ghost use Rattle.mysql_c_handles.specs.Codes.{code_number};
ghost use Rattle.mysql_c_handles.specs.Sets.{IsSets, OfSets};
ghost use Rattle.mysql_session_modes.specs.Told.{mode_behind_ok};
ghost use Rattle.mysql_values.specs.Modes.{is_safe_to_quote as is_safe, mode_of_sql_mode as told_by_variable};
ghost use Rattle.mysql_values.specs.Modes.{mode_of_status as told_by_status};
ghost use Rattle.mysql_values.specs.Spelling.TheVariants.{Quoted};
ghost use Rattle.mysql_values.specs.Sql.{read_by};
ghost use Rattle.std.specs.Option.{option_map};
ghost use Rattle.std.specs.Prelude.{MatchOption, None, Some, [], false, length, slice_get, true, ◌≡◌, ◌≢◌};
ghost use Rattle.mysql_cells.specs.declared.value.Value.TheVariants as value;

use mysql_c_commands::{
    Parameter, ShownContent, ShownPlace, ShownSession, ShownStop, bind_text, digest_put,
    execution_put, is_safe_to_quote, mode_of_sql_mode, mode_of_status, place_count, receiver_clear,
    receiver_content, receiver_end, receiver_feed, receiver_new, receiver_sets, receiver_width,
    recoder_end, recoder_feed, recoder_new, send, session_behind_ok, session_behind_text, sets_add,
    sets_clear, sets_count, sets_end_set, sets_new, sets_push_bytes, sets_push_date,
    sets_push_double, sets_push_float, sets_push_int, sets_push_null, sets_push_time,
    sets_push_uint, value_text,
};
use mysql_c_handles::{Handle, ShownEnd, bytes_clear, bytes_data, bytes_new};
use std::alloc::Global;

/// Makes the handle refer to no bytes.
#[unsafe(no_mangle)]
pub extern "C" fn mysql_session_bytes_new(alloc: Global, handle: &mut Handle) -> u32
    ensures made { result ≡ 0 → IsBytes handle.new.object (λ bytes. bytes ≡ []) }
    ensures kept { result ≢ 0 → (result ≡ 1) × (handle.new.object ≡ handle.old.object) }
{
    bytes_new(alloc, handle)
}

/// Shows bytes. They stay where they are until the next call on the handle.
#[unsafe(no_mangle)]
pub extern "C" fn mysql_session_bytes_data(
    alloc: Global,
    handle: &mut Handle,
    data: &mut *const u8,
    len: &mut usize,
) -> u32
    ensures { OfBytes handle.old.object result handle.new.object (HasLength result handle.new.object len.new) }
{
    bytes_data(alloc, handle, data, len)
}

/// Empties bytes.
#[unsafe(no_mangle)]
pub extern "C" fn mysql_session_bytes_clear(alloc: Global, handle: &mut Handle) -> u32
    ensures { OfBytes handle.old.object result handle.new.object (IsCleared result handle.new.object) }
{
    bytes_clear(alloc, handle)
}

/// The flags that tell the mode of a server by its status, as its OK packets have it.
#[unsafe(no_mangle)]
pub extern "C" fn mysql_session_mode_of_status(status: u16) -> u32
    ensures { flagged result ≡ Some (told_by_status status, Quoted) }
{
    mode_of_status(status)
}

/// The flags that tell the mode of a server by the value of its variable `sql_mode`.
///
/// They are 8 where the mode isn't known.
#[unsafe(no_mangle)]
pub extern "C" fn mysql_session_mode_of_sql_mode(value: &[u8]) -> u32
    ensures told { flagged result ≡ option_map (λ mode. (mode, Quoted)) (told_by_variable value.now) }
    ensures unknown { told_by_variable value.now ≡ None → result ≡ unknown_mode }
{
    mode_of_sql_mode(value)
}

/// 1 where literals in quotes are safe in a text that a server reads in this collation, else 0.
#[unsafe(no_mangle)]
pub extern "C" fn mysql_session_is_safe_to_quote(collation: u16) -> u32
    ensures safe { is_safe collation ≡ true → result ≡ 1 }
    ensures hidden { is_safe collation ≡ false → result ≡ 0 }
{
    is_safe_to_quote(collation)
}

/// Goes on with what is known of a session behind a statement of this text.
#[unsafe(no_mangle)]
pub extern "C" fn mysql_session_known_behind_text(known: &mut ShownSession, text: &[u8])
    ensures { IsBehindText text.now known.old known.new }
{
    session_behind_text(known, text)
}

/// Goes on with what is known of a session behind an OK packet of the reply.
#[unsafe(no_mangle)]
pub extern "C" fn mysql_session_known_behind_ok(
    known: &mut ShownSession,
    status: u16,
    changes: &[u8],
)
    ensures { known.new ≡
        session_shown (mode_behind_ok (session_known known.old) (ok_telling status changes.now)) }
{
    session_behind_ok(known, status, changes)
}

/// Makes the handle refer to a receiver of a stream of commands about this query.
///
/// `id` is that of the query's statement. The flags tell the mode of the server that the stream was
/// sent to, and how its texts spell byte strings.
#[unsafe(no_mangle)]
pub extern "C" fn mysql_session_receiver_new(
    alloc: Global,
    handle: &mut Handle,
    query: &[u8],
    id: u32,
    limit: usize,
    flags: u32,
) -> u32
    ensures { InMode flags result handle.old.object handle.new.object
        (λ mode spelling. MakesReceiver (read_by mode spelling query.now) id limit handle.old.object
        result handle.new.object) }
{
    receiver_new(alloc, handle, query, id, limit, flags)
}

/// Feeds a receiver with the next piece of its stream.
#[unsafe(no_mangle)]
pub extern "C" fn mysql_session_receiver_feed(
    alloc: Global,
    handle: &mut Handle,
    piece: &[u8],
) -> u32
    ensures { OfReceiver handle.old.object result handle.new.object (IsFedBy piece.now result handle.new.object) }
{
    receiver_feed(alloc, handle, piece)
}

/// Ends a receiver, and shows how the stream ends.
///
/// The handle refers to the audit of what was fed, and holds the sets that weren't let go. Of an
/// audit it shows the same again.
#[unsafe(no_mangle)]
pub extern "C" fn mysql_session_receiver_end(
    alloc: Global,
    handle: &mut Handle,
    end: &mut ShownEnd,
) -> u32
    ensures { EndsAs handle.old.object result handle.new.object end.new }
{
    receiver_end(alloc, handle, end)
}

/// Tells how many sets were read and not let go.
#[unsafe(no_mangle)]
pub extern "C" fn mysql_session_receiver_sets(
    alloc: Global,
    handle: &mut Handle,
    count: &mut usize,
) -> u32
    ensures kept { handle.new.object ≡ handle.old.object }
    ensures code { result ≡ code_number (reading_code handle.old.object) }
    ensures count { result ≡ 0 → count.new ≡ length (sets_held handle.old.object) }
{
    receiver_sets(alloc, handle, count)
}

/// Tells how many contents the set of this number has.
#[unsafe(no_mangle)]
pub extern "C" fn mysql_session_receiver_width(
    alloc: Global,
    handle: &mut Handle,
    set: usize,
    width: &mut usize,
) -> u32
    ensures kept { handle.new.object ≡ handle.old.object }
    ensures width { MatchOption (slice_get (sets_held handle.old.object) set) (result ≡
        code_number (missing_code handle.old.object)) (λ contents. (result ≡ 0) ×
        (width.new ≡ length contents)) }
{
    receiver_width(alloc, handle, set, width)
}

/// Shows the content at a place of the set of this number.
#[unsafe(no_mangle)]
pub extern "C" fn mysql_session_receiver_content(
    alloc: Global,
    handle: &mut Handle,
    set: usize,
    place: usize,
    content: &mut ShownContent,
) -> u32
    ensures kept { handle.new.object ≡ handle.old.object }
    ensures shown { MatchOption (content_at handle.old.object set place) (result ≡
        code_number (missing_code handle.old.object)) (λ c. Shows c result content.new) }
{
    receiver_content(alloc, handle, set, place, content)
}

/// Lets go of the sets that were read.
#[unsafe(no_mangle)]
pub extern "C" fn mysql_session_receiver_clear(alloc: Global, handle: &mut Handle) -> u32
    ensures { OfReceiver handle.old.object result handle.new.object (LetsGo result handle.new.object) }
{
    receiver_clear(alloc, handle)
}

/// Makes the handle refer to parameter sets, of which there are none yet.
#[unsafe(no_mangle)]
pub extern "C" fn mysql_session_sets_new(alloc: Global, handle: &mut Handle) -> u32
    ensures made { result ≡ 0 → IsSets handle.new.object HasNone }
    ensures kept { result ≢ 0 → (result ≡ 1) × (handle.new.object ≡ handle.old.object) }
{
    sets_new(alloc, handle)
}

/// Gives the next set NULL.
#[unsafe(no_mangle)]
pub extern "C" fn mysql_session_sets_push_null(alloc: Global, handle: &mut Handle) -> u32
    ensures { OfSets handle.old.object result handle.new.object (TakesValueIn value.NULL result handle.new.object) }
{
    sets_push_null(alloc, handle)
}

/// Gives the next set a whole number with a sign.
#[unsafe(no_mangle)]
pub extern "C" fn mysql_session_sets_push_int(
    alloc: Global,
    handle: &mut Handle,
    number: i64,
) -> u32
    ensures { OfSets handle.old.object result handle.new.object
        (TakesValueIn (value.Int number) result handle.new.object) }
{
    sets_push_int(alloc, handle, number)
}

/// Gives the next set a whole number without a sign.
#[unsafe(no_mangle)]
pub extern "C" fn mysql_session_sets_push_uint(
    alloc: Global,
    handle: &mut Handle,
    number: u64,
) -> u32
    ensures { OfSets handle.old.object result handle.new.object
        (TakesValueIn (value.UInt number) result handle.new.object) }
{
    sets_push_uint(alloc, handle, number)
}

/// Gives the next set a float, by its bits.
#[unsafe(no_mangle)]
pub extern "C" fn mysql_session_sets_push_float(
    alloc: Global,
    handle: &mut Handle,
    bits: u32,
) -> u32
    ensures { OfSets handle.old.object result handle.new.object
        (TakesValueIn (value.Float bits) result handle.new.object) }
{
    sets_push_float(alloc, handle, bits)
}

/// Gives the next set a double, by its bits.
#[unsafe(no_mangle)]
pub extern "C" fn mysql_session_sets_push_double(
    alloc: Global,
    handle: &mut Handle,
    bits: u64,
) -> u32
    ensures { OfSets handle.old.object result handle.new.object
        (TakesValueIn (value.Double bits) result handle.new.object) }
{
    sets_push_double(alloc, handle, bits)
}

/// Gives the next set a copy of bytes.
#[unsafe(no_mangle)]
pub extern "C" fn mysql_session_sets_push_bytes(
    alloc: Global,
    handle: &mut Handle,
    bytes: &[u8],
) -> u32
    ensures { OfSets handle.old.object result handle.new.object
        (TakesValueIn (value.Bytes bytes.now) result handle.new.object) }
{
    sets_push_bytes(alloc, handle, bytes)
}

/// Gives the next set a date with its time of day. No field is checked: a date may have month 13.
#[unsafe(no_mangle)]
pub extern "C" fn mysql_session_sets_push_date(
    alloc: Global,
    handle: &mut Handle,
    year: u16,
    month: u8,
    day: u8,
    hour: u8,
    minute: u8,
    second: u8,
    micros: u32,
) -> u32
    ensures { OfSets handle.old.object result handle.new.object
        (TakesValueIn (value.Date year month day hour minute second micros) result
        handle.new.object) }
{
    sets_push_date(
        alloc, handle, year, month, day, hour, minute, second, micros,
    )
}

/// Gives the next set a duration. No field is checked.
#[unsafe(no_mangle)]
pub extern "C" fn mysql_session_sets_push_time(
    alloc: Global,
    handle: &mut Handle,
    negative: bool,
    days: u32,
    hours: u8,
    minutes: u8,
    seconds: u8,
    micros: u32,
) -> u32
    ensures { OfSets handle.old.object result handle.new.object
        (TakesValueIn (value.Time negative days hours minutes seconds micros) result
        handle.new.object) }
{
    sets_push_time(
        alloc, handle, negative, days, hours, minutes, seconds, micros,
    )
}

/// Ends the next set.
#[unsafe(no_mangle)]
pub extern "C" fn mysql_session_sets_end_set(alloc: Global, handle: &mut Handle) -> u32
    ensures { OfSets handle.old.object result handle.new.object (EndsSetIn result handle.new.object) }
{
    sets_end_set(alloc, handle)
}

/// Puts one more set behind the whole ones: the values that an array describes, whose bytes lie in
/// `bytes`. The values of the next set stay.
#[unsafe(no_mangle)]
pub extern "C" fn mysql_session_sets_add(
    alloc: Global,
    handle: &mut Handle,
    parameters: &[Parameter],
    bytes: &[u8],
) -> u32
    ensures { OfSets handle.old.object result handle.new.object
        (AddsSetIn bytes.now parameters.now result handle.new.object) }
{
    sets_add(alloc, handle, parameters, bytes)
}

/// Tells how many sets are whole.
#[unsafe(no_mangle)]
pub extern "C" fn mysql_session_sets_count(
    alloc: Global,
    handle: &mut Handle,
    count: &mut usize,
) -> u32
    ensures kept { handle.new.object ≡ handle.old.object }
    ensures counted { CountsSets handle.old.object result count.new }
{
    sets_count(alloc, handle, count)
}

/// Lets go of all sets, and of the values of the next one.
#[unsafe(no_mangle)]
pub extern "C" fn mysql_session_sets_clear(alloc: Global, handle: &mut Handle) -> u32
    ensures { OfSets handle.old.object result handle.new.object (LosesAll result handle.new.object) }
{
    sets_clear(alloc, handle)
}

/// Tells how many placeholders a query has, for a server in the mode that the flags tell.
#[unsafe(no_mangle)]
pub extern "C" fn mysql_session_place_count(
    alloc: Global,
    query: &[u8],
    flags: u32,
    count: &mut usize,
) -> u32
    ensures { CountsPlaces flags query.now count.old result count.new }
{
    place_count(alloc, query, flags, count)
}

/// Appends the whole parameter sets of one handle, as commands, to the bytes of another.
///
/// The number of the method is 0 for text, 1 for execute, 2 for bulk. Where the sets aren't sent it
/// shows the set and the placeholder that are refused, and the bytes stay.
#[unsafe(no_mangle)]
pub extern "C" fn mysql_session_send(
    alloc: Global,
    sets: &mut Handle,
    query: &[u8],
    road: u32,
    id: u32,
    limit: usize,
    flags: u32,
    out: &mut Handle,
    place: &mut ShownPlace,
) -> u32
    ensures kept { sets.new.object ≡ sets.old.object }
    ensures sent { SendsFrom road flags query.now id limit sets.old.object out.old.object result
        place.new out.new.object }
{
    send(alloc, sets, query, road, id, limit, flags, out, place)
}

/// Appends the payload of an execution of a statement to the bytes of another handle.
///
/// Its values are those of the set of this number, each with its own type. Floats are among them.
#[unsafe(no_mangle)]
pub extern "C" fn mysql_session_execution_put(
    alloc: Global,
    sets: &mut Handle,
    set: usize,
    statement: u32,
    out: &mut Handle,
) -> u32
    ensures kept { sets.new.object ≡ sets.old.object }
    ensures put { PutsExecutionFrom statement sets.old.object set out.old.object result out.new.object }
{
    execution_put(alloc, sets, set, statement, out)
}

/// Appends the text of the set of this number over a query to the bytes of another handle. Where
/// there is none it shows the set and the placeholder that are refused, and the bytes stay.
///
/// The flags tell the mode of the server that the text is for, and how byte strings are spelled.
#[unsafe(no_mangle)]
pub extern "C" fn mysql_session_bind_text(
    alloc: Global,
    sets: &mut Handle,
    set: usize,
    query: &[u8],
    flags: u32,
    out: &mut Handle,
    place: &mut ShownPlace,
) -> u32
    ensures kept { sets.new.object ≡ sets.old.object }
    ensures bound { InMode flags result out.old.object out.new.object
        (λ mode spelling. BindsTextFrom (read_by mode spelling query.now) sets.old.object set
        out.old.object result place.new out.new.object) }
{
    bind_text(alloc, sets, set, query, flags, out, place)
}

/// Appends the literal of a value to the bytes of another handle.
///
/// The value is at a place of the set of this number. The flags tell the mode of the server that
/// the literal is for, and how byte strings are spelled.
#[unsafe(no_mangle)]
pub extern "C" fn mysql_session_value_text(
    alloc: Global,
    sets: &mut Handle,
    set: usize,
    place: usize,
    flags: u32,
    out: &mut Handle,
) -> u32
    ensures kept { sets.new.object ≡ sets.old.object }
    ensures put { InMode flags result out.old.object out.new.object
        (λ mode spelling. PutsLiteralFrom mode spelling sets.old.object set place out.old.object
        result out.new.object) }
{
    value_text(alloc, sets, set, place, flags, out)
}

/// Appends the digest of a statement's text to the bytes of a handle.
///
/// It is the text with the values taken out. The flags tell the mode of the server that reads the
/// text. How byte strings are spelled says nothing here.
#[unsafe(no_mangle)]
pub extern "C" fn mysql_session_digest(
    alloc: Global,
    text: &[u8],
    flags: u32,
    out: &mut Handle,
) -> u32
    ensures { InMode flags result out.old.object out.new.object
        (λ mode spelling. PutsDigestTo mode text.now out.old.object result out.new.object) }
{
    digest_put(alloc, text, flags, out)
}

/// Makes the handle refer to a recoder of a stream of commands about this query.
///
/// `id` is that of the query's statement. The flags tell the mode of the server that the stream was
/// sent to, and how its texts spell byte strings.
#[unsafe(no_mangle)]
pub extern "C" fn mysql_session_recoder_new(
    alloc: Global,
    handle: &mut Handle,
    query: &[u8],
    id: u32,
    limit: usize,
    flags: u32,
) -> u32
    ensures { InMode flags result handle.old.object handle.new.object
        (λ mode spelling. MakesRecoder (read_by mode spelling query.now) id limit handle.old.object
        result handle.new.object) }
{
    recoder_new(alloc, handle, query, id, limit, flags)
}

/// Feeds a recoder with the next piece of its stream, and appends the executions it makes.
///
/// They are those of the sets that are whole with the piece. The prepare comes before the first of
/// all. They go to the bytes of another handle. Where it is refused it shows where, and the bytes
/// stay.
#[unsafe(no_mangle)]
pub extern "C" fn mysql_session_recoder_feed(
    alloc: Global,
    handle: &mut Handle,
    piece: &[u8],
    out: &mut Handle,
    stop: &mut ShownStop,
) -> u32
    ensures { RecodesFrom piece.now handle.old.object out.old.object result stop.new handle.new.object out.new.object }
{
    recoder_feed(alloc, handle, piece, out, stop)
}

/// Ends a recoder: where its stream carried no set the prepare is appended to the bytes of another
/// handle. The handle refers to nothing then, also where the end is refused.
#[unsafe(no_mangle)]
pub extern "C" fn mysql_session_recoder_end(
    alloc: Global,
    handle: &mut Handle,
    out: &mut Handle,
    stop: &mut ShownStop,
) -> u32
    ensures { RecoderEnds handle.old.object out.old.object result stop.new handle.new.object out.new.object }
{
    recoder_end(alloc, handle, out, stop)
}
