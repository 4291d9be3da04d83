//! Replies read and written, as exports.

ghost use Rattle.std.specs.Prelude.{MatchOption, None, [], drop, false, length, slice_get, take, true, ◌≡◌, ◌≢◌, ◌⊎◌};
ghost use Rattle.mysql_c_handles.specs.Codes.{code_number};
ghost use Rattle.mysql_c_handles.specs.declared.code.Code.TheVariants as code;
ghost use Rattle.mysql_c_replies.specs.Replies.{IsNewReply, IsReply, IsReplyFedBy, OfReply, OutcomesAreTaken};
ghost use Rattle.mysql_c_replies.specs.Replies.{RepliesEnd, kind_numbered};
ghost use Rattle.mysql_c_replies.specs.Finding.{ShowsChangeIn, cell_in, column_in, listing_code, outcomes_held};
ghost use Rattle.mysql_c_replies.specs.Finding.{param_in, unlisted_code};
ghost use Rattle.mysql_c_replies.specs.Shown.{ShowsColumn, ShowsOutcome, ShowsValue, UnlessMemory};
ghost use Rattle.mysql_const.specs.ColumnTypes.{column_type_named};
ghost use Rattle.mysql_reply_writer.specs.Written.{ColumnsStep, EndStep, ErrorStep, OkStep, PreparedStep};
ghost use Rattle.mysql_c_handles.specs.Sets.{unheld_code, values_held};
ghost use Rattle.mysql_c_replies.specs.Steps.{IsWriter, WritesFrom, columns_given, lacks_columns};
ghost use Rattle.mysql_c_replies.specs.Writing.{BothStay, EndsWriting, GivesColumn, HasNoSuchType, IsNewWriter};
ghost use Rattle.mysql_c_replies.specs.Writing.{WritesRowOf, column_said, error_said, packet_said, state_said};
ghost use Rattle.mysql_c_replies.specs.Writing.{statement_said};

use mysql_c_handles::{Handle, ShownEnd};
use mysql_c_replies::{ShownColumn, ShownResult, ShownSpot, ShownValue};
use std::alloc::Global;

/// Makes the handle refer to a reader of the reply to a command of this kind.
///
/// The kinds are 0 a query, 1 an execution, 2 a prepare. The reply's first chunk has the number
/// `first`.
#[unsafe(no_mangle)]
pub extern "C" fn mysql_session_reply_new(
    alloc: Global,
    handle: &mut Handle,
    kind: u32,
    capabilities: u32,
    first: u8,
    limit: usize,
) -> u32
    ensures made { result ≡ 0 → IsReply handle.new.object (IsNewReply kind capabilities first limit) }
    ensures kept { result ≢ 0 → handle.new.object ≡ handle.old.object }
    ensures cause { (result ≡ 0) ⊎ (result ≡ code_number code.Memory) ⊎
        ((result ≡ code_number code.NoSuchKind) × (kind_numbered kind ≡ None)) }
{
    mysql_c_replies::reply_new(alloc, handle, kind, capabilities, first, limit)
}

/// Feeds a reader of a reply with the next bytes.
#[unsafe(no_mangle)]
pub extern "C" fn mysql_session_reply_feed(alloc: Global, handle: &mut Handle, piece: &[u8]) -> u32
    ensures { OfReply handle.old.object result handle.new.object (IsReplyFedBy piece.now result handle.new.object) }
{
    mysql_c_replies::reply_feed(alloc, handle, piece)
}

/// Takes the results that are whole, and the rows so far of a result set that goes on.
///
/// Those that were taken before are let go, and so are the progress reports that came.
#[unsafe(no_mangle)]
pub extern "C" fn mysql_session_reply_take(alloc: Global, handle: &mut Handle) -> u32
    ensures { OfReply handle.old.object result handle.new.object (OutcomesAreTaken result handle.new.object) }
{
    mysql_c_replies::reply_take(alloc, handle)
}

/// Ends a reply: the handle refers to what was read and not taken. Shows how the reply ends. Of an
/// ended one it shows the same again.
#[unsafe(no_mangle)]
pub extern "C" fn mysql_session_reply_end(
    alloc: Global,
    handle: &mut Handle,
    shown: &mut ShownEnd,
) -> u32
    ensures { RepliesEnd handle.old.object result handle.new.object shown.new }
{
    mysql_c_replies::reply_end(alloc, handle, shown)
}

/// Tells how many results were taken last, or are those of the end.
#[unsafe(no_mangle)]
pub extern "C" fn mysql_session_reply_results(
    alloc: Global,
    handle: &mut Handle,
    count: &mut usize,
) -> u32
    ensures kept { handle.new.object ≡ handle.old.object }
    ensures code { result ≡ code_number (listing_code handle.old.object) }
    ensures count { result ≡ 0 → count.new ≡ length (outcomes_held handle.old.object) }
{
    mysql_c_replies::reply_results(alloc, handle, count)
}

/// Shows the result of this number. Its changes of the session's state are counted, which takes memory.
#[unsafe(no_mangle)]
pub extern "C" fn mysql_session_reply_result(
    alloc: Global,
    handle: &mut Handle,
    number: usize,
    shown: &mut ShownResult,
) -> u32
    ensures kept { handle.new.object ≡ handle.old.object }
    ensures shown { MatchOption (slice_get (outcomes_held handle.old.object) number) (result ≡
        code_number (unlisted_code handle.old.object))
        (λ outcome. UnlessMemory result (ShowsOutcome outcome shown.new)) }
{
    mysql_c_replies::reply_result(alloc, handle, number, shown)
}

/// Shows a change of the session's state that an OK packet tells: its type and its bytes.
///
/// The change is named by the number of its result and the position where it begins. The position
/// is 0 for the first change, and is moved on to the next one.
#[unsafe(no_mangle)]
pub extern "C" fn mysql_session_reply_state(
    alloc: Global,
    handle: &mut Handle,
    number: usize,
    position: &mut usize,
    kind: &mut u8,
    data: &mut *const u8,
    len: &mut usize,
) -> u32
    ensures kept { handle.new.object ≡ handle.old.object }
    ensures shown { ShowsChangeIn handle.old.object number position.old result position.new kind.new len.new }
{
    mysql_c_replies::reply_state(alloc, handle, number, position, kind, data, len)
}

/// Shows the value in a cell, by the numbers of its result, its row and its column.
#[unsafe(no_mangle)]
pub extern "C" fn mysql_session_reply_cell(
    alloc: Global,
    handle: &mut Handle,
    number: usize,
    row: usize,
    column: usize,
    shown: &mut ShownValue,
) -> u32
    ensures kept { handle.new.object ≡ handle.old.object }
    ensures shown { MatchOption (cell_in (outcomes_held handle.old.object) number row column)
        (result ≡ code_number (unlisted_code handle.old.object)) (λ value. (result ≡ 0) ×
        ShowsValue value shown.new) }
{
    mysql_c_replies::reply_cell(alloc, handle, number, row, column, shown)
}

/// Shows a column of rows or of a prepared statement, by the numbers of its result and its own.
#[unsafe(no_mangle)]
pub extern "C" fn mysql_session_reply_column(
    alloc: Global,
    handle: &mut Handle,
    number: usize,
    column: usize,
    shown: &mut ShownColumn,
) -> u32
    ensures kept { handle.new.object ≡ handle.old.object }
    ensures shown { MatchOption (column_in (outcomes_held handle.old.object) number column)
        (result ≡ code_number (unlisted_code handle.old.object)) (λ found. (result ≡ 0) ×
        ShowsColumn found shown.new) }
{
    mysql_c_replies::reply_column(alloc, handle, number, column, shown)
}

/// Shows a parameter of a prepared statement, by the numbers of its result and its own.
#[unsafe(no_mangle)]
pub extern "C" fn mysql_session_reply_param(
    alloc: Global,
    handle: &mut Handle,
    number: usize,
    param: usize,
    shown: &mut ShownColumn,
) -> u32
    ensures kept { handle.new.object ≡ handle.old.object }
    ensures shown { MatchOption (param_in (outcomes_held handle.old.object) number param) (result ≡
        code_number (unlisted_code handle.old.object)) (λ found. (result ≡ 0) ×
        ShowsColumn found shown.new) }
{
    mysql_c_replies::reply_param(alloc, handle, number, param, shown)
}

/// Makes the handle refer to a writer of the reply to a command of this kind.
///
/// The kinds are 0 a query, 1 an execution, 2 a prepare. The reply's first chunk has the number
/// `first`, and a payload has at most `limit` bytes.
#[unsafe(no_mangle)]
pub extern "C" fn mysql_session_writer_new(
    alloc: Global,
    handle: &mut Handle,
    kind: u32,
    capabilities: u32,
    first: u8,
    limit: usize,
) -> u32
    ensures made { result ≡ 0 → IsWriter handle.new.object (IsNewWriter kind capabilities first limit) }
    ensures kept { result ≢ 0 → handle.new.object ≡ handle.old.object }
    ensures cause { (result ≡ 0) ⊎ (result ≡ code_number code.Memory) ⊎
        ((result ≡ code_number code.NoSuchKind) × (kind_numbered kind ≡ None)) }
{
    mysql_c_replies::writer_new(alloc, handle, kind, capabilities, first, limit)
}

/// Writes an OK packet, and whether another result follows it. An id of 0 is none.
#[unsafe(no_mangle)]
pub extern "C" fn mysql_session_writer_ok(
    alloc: Global,
    handle: &mut Handle,
    affected_rows: u64,
    last_insert_id: u64,
    status: u16,
    warnings: u16,
    info: &[u8],
    more: bool,
    out: &mut Handle,
    spot: &mut ShownSpot,
) -> u32
    ensures { WritesFrom (λ _. OkStep more
        (packet_said affected_rows last_insert_id status warnings info.now)) handle.old.object
        out.old.object result spot.new handle.new.object out.new.object }
{
    mysql_c_replies::writer_ok(
        alloc,
        handle,
        affected_rows,
        last_insert_id,
        status,
        warnings,
        info,
        more,
        out,
        spot,
    )
}

/// Writes an error, as a result or as the end of rows. Its SQL state has five bytes, or none.
#[unsafe(no_mangle)]
pub extern "C" fn mysql_session_writer_error(
    alloc: Global,
    handle: &mut Handle,
    number: u16,
    state: &[u8],
    message: &[u8],
    out: &mut Handle,
    spot: &mut ShownSpot,
) -> u32
    ensures { MatchOption (state_said state.now)
        (BothStay code.BadPacket handle.old.object out.old.object result handle.new.object
        out.new.object) (λ said. WritesFrom (λ _. ErrorStep (error_said number message.now said))
        handle.old.object out.old.object result spot.new handle.new.object out.new.object) }
{
    mysql_c_replies::writer_error(alloc, handle, number, state, message, out, spot)
}

/// Gives a writer one more column for the next rows or the next prepared statement. Its name is copied.
#[unsafe(no_mangle)]
pub extern "C" fn mysql_session_writer_column(
    alloc: Global,
    handle: &mut Handle,
    column_type: u8,
    name: &[u8],
    flags: u16,
    charset: u16,
    length: u32,
    decimals: u8,
) -> u32
    ensures { MatchOption (column_type_named column_type)
        (HasNoSuchType handle.old.object result handle.new.object)
        (λ known. GivesColumn (column_said known name.now flags charset length decimals)
        handle.old.object result handle.new.object) }
{
    mysql_c_replies::writer_column(
        alloc,
        handle,
        column_type,
        name,
        flags,
        charset,
        length,
        decimals,
    )
}

/// Begins rows under the columns that were given, and uses these up.
#[unsafe(no_mangle)]
pub extern "C" fn mysql_session_writer_rows(
    alloc: Global,
    handle: &mut Handle,
    out: &mut Handle,
    spot: &mut ShownSpot,
) -> u32
    ensures { WritesFrom (λ reply. ColumnsStep (columns_given reply)) handle.old.object
        out.old.object result spot.new handle.new.object out.new.object }
{
    mysql_c_replies::writer_rows(alloc, handle, out, spot)
}

/// Writes a row: copies of the values of a set, by its number.
#[unsafe(no_mangle)]
pub extern "C" fn mysql_session_writer_row(
    alloc: Global,
    handle: &mut Handle,
    sets: &mut Handle,
    set: usize,
    out: &mut Handle,
    spot: &mut ShownSpot,
) -> u32
    ensures kept { sets.new.object ≡ sets.old.object }
    ensures row { MatchOption (values_held sets.old.object set)
        (BothStay (unheld_code sets.old.object) handle.old.object out.old.object result
        handle.new.object out.new.object)
        (λ values. WritesRowOf values handle.old.object out.old.object result spot.new
        handle.new.object out.new.object) }
{
    mysql_c_replies::writer_row(alloc, handle, sets, set, out, spot)
}

/// Writes what ends rows, and whether another result follows them.
#[unsafe(no_mangle)]
pub extern "C" fn mysql_session_writer_end_rows(
    alloc: Global,
    handle: &mut Handle,
    status: u16,
    warnings: u16,
    more: bool,
    out: &mut Handle,
    spot: &mut ShownSpot,
) -> u32
    ensures { WritesFrom (λ _. EndStep more (packet_said 0 0 status warnings [])) handle.old.object
        out.old.object result spot.new handle.new.object out.new.object }
{
    mysql_c_replies::writer_end_rows(alloc, handle, status, warnings, more, out, spot)
}

/// Writes a prepared statement, and uses up the columns that were given: so many of them are its parameters.
#[unsafe(no_mangle)]
pub extern "C" fn mysql_session_writer_prepared(
    alloc: Global,
    handle: &mut Handle,
    statement: u32,
    params: usize,
    warnings: u16,
    out: &mut Handle,
    spot: &mut ShownSpot,
) -> u32
    ensures fewer { lacks_columns handle.old.object params ≡ true →
        BothStay code.OutOfRange handle.old.object out.old.object result handle.new.object
        out.new.object }
    ensures enough { lacks_columns handle.old.object params ≡ false →
        WritesFrom (λ reply. PreparedStep (statement_said statement warnings)
        (take params (columns_given reply)) (drop params (columns_given reply))) handle.old.object
        out.old.object result spot.new handle.new.object out.new.object }
{
    mysql_c_replies::writer_prepared(alloc, handle, statement, params, warnings, out, spot)
}

/// Tells whether the reply that a writer wrote is whole, and else why not.
#[unsafe(no_mangle)]
pub extern "C" fn mysql_session_writer_end(
    alloc: Global,
    handle: &mut Handle,
    spot: &mut ShownSpot,
) -> u32
    ensures kept { handle.new.object ≡ handle.old.object }
    ensures whole { EndsWriting handle.old.object result spot.new }
{
    mysql_c_replies::writer_end(alloc, handle, spot)
}
