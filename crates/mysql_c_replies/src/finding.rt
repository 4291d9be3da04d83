//! The results that were read, and their parts, by their numbers.

ghost use Rattle.std.specs.Prelude.{◌≡◌, ◌≢◌, IfOk, MatchOption, MatchResult, length, slice_get};
ghost use Rattle.std.specs.Option.{option_copied, option_map};
ghost use Rattle.mysql_columns.specs.Views.{column_view};
ghost use Rattle.mysql_ok_packets.specs.Views.{ok_packet_view};
ghost use Rattle.mysql_replies.specs.Views.{outcome_views};
ghost use Rattle.mysql_c_handles.specs.Codes.{code_number};
ghost use Rattle.mysql_c_handles.specs.declared.code.Code.TheVariants as code;
ghost use Rattle.mysql_c_replies.specs.Finding.{ShowsChangeIn, cell_in, column_in, listing_code, outcomes_held};
ghost use Rattle.mysql_c_replies.specs.Finding.{packet_in, param_in, unlisted_code};
ghost use Rattle.mysql_c_replies.specs.Shown.{ShowsColumn, ShowsOutcome, ShowsValue, UnlessMemory};

use crate::shown::{
    ShownColumn, ShownResult, ShownValue, show_column, show_result, show_state, show_value,
};
use mysql_c_handles::{Code, Handle, Object};
use mysql_cells::Value;
use mysql_columns::Column;
use mysql_ok_packets::OkPacket;
use mysql_replies::ReplyResult;
use std::alloc::Global;

/// The value in a cell, by the numbers of its result, its row and its column.
fn value_in(results: &[ReplyResult], number: usize, row: usize, column: usize) -> Option<&Value>
    ensures { option_copied result ≡ cell_in (outcome_views results.now) number row column }
{
    match results.get(number) {
        Some(
            ReplyResult::Rows {
                columns: _,
                rows,
                terminator: _,
            },
        ) => match rows.get(row) {
            Some(found) => found.as_ref(column),
            None => None,
        },
        _ => None,
    }
}

/// A column of rows or of a prepared statement, by the numbers of its result and its own.
fn column_of(results: &[ReplyResult], number: usize, column: usize) -> Option<&Column>
    ensures { option_map (λ found. column_view found.now) result ≡ column_in (outcome_views results.now) number column }
{
    match results.get(number) {
        Some(
            ReplyResult::Rows {
                columns,
                rows: _,
                terminator: _,
            },
        ) => columns.as_slice().get(column),
        Some(
            ReplyResult::Prepared {
                stmt: _,
                params: _,
                columns,
            },
        ) => columns.get(column),
        _ => None,
    }
}

/// A parameter of a prepared statement, by the numbers of its result and its own.
fn param_of(results: &[ReplyResult], number: usize, param: usize) -> Option<&Column>
    ensures { option_map (λ found. column_view found.now) result ≡ param_in (outcome_views results.now) number param }
{
    match results.get(number) {
        Some(
            ReplyResult::Prepared {
                stmt: _,
                params,
                columns: _,
            },
        ) => params.get(param),
        _ => None,
    }
}

/// The OK packet that a result is, or that ended its rows.
fn packet_of(results: &[ReplyResult], number: usize) -> Option<&OkPacket<'static>>
    ensures { option_map (λ ok. ok_packet_view ok.now) result ≡ packet_in (outcome_views results.now) number }
{
    match results.get(number) {
        Some(ReplyResult::Ok(ok)) => Some(ok),
        Some(
            ReplyResult::Rows {
                columns: _,
                rows: _,
                terminator: Some(ok),
            },
        ) => Some(ok),
        Some(
            ReplyResult::RawRows {
                rows: _,
                terminator: Some(ok),
            },
        ) => Some(ok),
        Some(
            ReplyResult::Fields {
                fields: _,
                terminator: Some(ok),
            },
        ) => Some(ok),
        _ => None,
    }
}

/// The results that were taken last, or those of the end.
fn results_of(object: &Object) -> Result<&[ReplyResult], Code>
    ensures held { IfOk result (λ results. outcome_views results.now ≡ outcomes_held object.now) }
    ensures code { MatchResult result (λ _. (listing_code object.now ≡ code.Done) ×
        (unlisted_code object.now ≡ code.OutOfRange)) (λ e. (e ≡ listing_code object.now) ×
        (e ≡ unlisted_code object.now) × (e ≢ code.Done)) }
{
    match object {
        Object::Reply(reply) => Ok(&reply.taken),
        Object::Answer(reply) => Ok(&reply.results),
        Object::Empty => Err(Code::EmptyHandle),
        _ => Err(Code::OtherKind),
    }
}

/// Counts the results.
fn count_results(object: &Object, count: &mut usize) -> Code
    ensures code { result ≡ listing_code object.now }
    ensures count { result ≡ code.Done → count.new ≡ length (outcomes_held object.now) }
{
    match results_of(object) {
        Ok(results) => {
            *count = results.len();
            Code::Done
        }
        Err(code) => code,
    }
}

/// Shows a result.
fn result_of(alloc: Global, object: &Object, number: usize, shown: &mut ShownResult) -> Code
    ensures { MatchOption (slice_get (outcomes_held object.now) number) (result ≡
        unlisted_code object.now)
        (λ outcome. UnlessMemory (code_number result) (ShowsOutcome outcome shown.new)) }
{
    match results_of(object) {
        Ok(results) => match results.get(number) {
            Some(found) => show_result(alloc, found, shown),
            None => Code::OutOfRange,
        },
        Err(code) => code,
    }
}

/// Shows the change of the session's state at a position.
fn state_of(
    alloc: Global,
    object: &Object,
    number: usize,
    position: &mut usize,
    kind: &mut u8,
    data: &mut *const u8,
    len: &mut usize,
) -> Code
    ensures { ShowsChangeIn object.now number position.old (code_number result) position.new kind.new len.new }
{
    match results_of(object) {
        Ok(results) => match packet_of(results, number) {
            Some(ok) => show_state(alloc, ok, position, kind, data, len),
            None => Code::OutOfRange,
        },
        Err(code) => code,
    }
}

/// Shows the value in a cell.
fn cell_of(
    object: &Object,
    number: usize,
    row: usize,
    column: usize,
    shown: &mut ShownValue,
) -> Code
    ensures { MatchOption (cell_in (outcomes_held object.now) number row column) (result ≡
        unlisted_code object.now) (λ value. (result ≡ code.Done) × ShowsValue value shown.new) }
{
    match results_of(object) {
        Ok(results) => match value_in(results, number, row, column) {
            Some(value) => {
                show_value(value, shown);
                Code::Done
            }
            None => Code::OutOfRange,
        },
        Err(code) => code,
    }
}

/// Shows a column, where it is there.
fn shown_column(found: Option<&Column>, shown: &mut ShownColumn) -> Code
    ensures { MatchOption (option_map (λ column. column_view column.now) found.entry) (result ≡
        code.OutOfRange) (λ column. (result ≡ code.Done) × ShowsColumn column shown.new) }
{
    match found {
        Some(column) => {
            show_column(column, shown);
            Code::Done
        }
        None => Code::OutOfRange,
    }
}

/// Shows a column of rows or of a prepared statement.
fn column_at(object: &Object, number: usize, column: usize, shown: &mut ShownColumn) -> Code
    ensures { MatchOption (column_in (outcomes_held object.now) number column) (result ≡
        unlisted_code object.now) (λ found. (result ≡ code.Done) × ShowsColumn found shown.new) }
{
    match results_of(object) {
        Ok(results) => shown_column(column_of(results, number, column), shown),
        Err(code) => code,
    }
}

/// Shows a parameter of a prepared statement.
fn param_at(object: &Object, number: usize, param: usize, shown: &mut ShownColumn) -> Code
    ensures { MatchOption (param_in (outcomes_held object.now) number param) (result ≡
        unlisted_code object.now) (λ found. (result ≡ code.Done) × ShowsColumn found shown.new) }
{
    match results_of(object) {
        Ok(results) => shown_column(param_of(results, number, param), shown),
        Err(code) => code,
    }
}

/// Tells how many results were taken last, or are those of the end.
pub fn reply_results(alloc: Global, handle: &mut Handle, count: &mut usize) -> u32
    ensures kept { handle.new.object ≡ handle.old.object }
    ensures code { result ≡ code_number (listing_code handle.old.object) }
    ensures count { result ≡ 0 → count.new ≡ length (outcomes_held handle.old.object) }
{
    let Some(object) = handle.take(alloc) else {
        return Code::EmptyHandle.number();
    };
    let code = count_results(&object, count);
    handle.put(object);
    code.number()
}

/// Shows the result of this number. Its changes of the session's state are counted, which takes memory.
///
/// Promise: what is shown is the result's, and its struct holds nothing of what it held before
/// (`ShowsOutcome`).
pub fn reply_result(
    alloc: Global,
    handle: &mut Handle,
    number: usize,
    shown: &mut ShownResult,
) -> u32
    ensures kept { handle.new.object ≡ handle.old.object }
    ensures shown { MatchOption (slice_get (outcomes_held handle.old.object) number) (result ≡
        code_number (unlisted_code handle.old.object))
        (λ outcome. UnlessMemory result (ShowsOutcome outcome shown.new)) }
{
    let Some(object) = handle.take(alloc) else {
        return Code::EmptyHandle.number();
    };
    let code = result_of(alloc, &object, number, shown);
    handle.put(object);
    code.number()
}

/// Shows a change of the session's state that an OK packet tells: its type and its bytes.
///
/// The change is named by the number of its result and the position where it begins. The position
/// is 0 for the first change, and is moved on to the next one. Behind the last, and where the bytes
/// there are no change, it stays.
///
/// Promise: one change is shown and the position moved behind it. From 0 on they are those that are
/// read all at once, in their order (`ShowsChangeIn`).
pub fn reply_state(
    alloc: Global,
    handle: &mut Handle,
    number: usize,
    position: &mut usize,
    kind: &mut u8,
    data: &mut *const u8,
    len: &mut usize,
) -> u32
    ensures kept { handle.new.object ≡ handle.old.object }
    ensures shown { ShowsChangeIn handle.old.object number position.old result position.new kind.new len.new }
{
    let Some(object) = handle.take(alloc) else {
        return Code::EmptyHandle.number();
    };
    let code = state_of(alloc, &object, number, position, kind, data, len);
    handle.put(object);
    code.number()
}

/// Shows the value in a cell, by the numbers of its result, its row and its column.
///
/// Promise: the value is that of the cell (`ShowsValue`).
pub fn reply_cell(
    alloc: Global,
    handle: &mut Handle,
    number: usize,
    row: usize,
    column: usize,
    shown: &mut ShownValue,
) -> u32
    ensures kept { handle.new.object ≡ handle.old.object }
    ensures shown { MatchOption (cell_in (outcomes_held handle.old.object) number row column)
        (result ≡ code_number (unlisted_code handle.old.object)) (λ value. (result ≡ 0) ×
        ShowsValue value shown.new) }
{
    let Some(object) = handle.take(alloc) else {
        return Code::EmptyHandle.number();
    };
    let code = cell_of(&object, number, row, column, shown);
    handle.put(object);
    code.number()
}

/// Shows a column of rows or of a prepared statement, by the numbers of its result and its own.
pub fn reply_column(
    alloc: Global,
    handle: &mut Handle,
    number: usize,
    column: usize,
    shown: &mut ShownColumn,
) -> u32
    ensures kept { handle.new.object ≡ handle.old.object }
    ensures shown { MatchOption (column_in (outcomes_held handle.old.object) number column)
        (result ≡ code_number (unlisted_code handle.old.object)) (λ found. (result ≡ 0) ×
        ShowsColumn found shown.new) }
{
    let Some(object) = handle.take(alloc) else {
        return Code::EmptyHandle.number();
    };
    let code = column_at(&object, number, column, shown);
    handle.put(object);
    code.number()
}

/// Shows a parameter of a prepared statement, by the numbers of its result and its own.
pub fn reply_param(
    alloc: Global,
    handle: &mut Handle,
    number: usize,
    param: usize,
    shown: &mut ShownColumn,
) -> u32
    ensures kept { handle.new.object ≡ handle.old.object }
    ensures shown { MatchOption (param_in (outcomes_held handle.old.object) number param) (result ≡
        code_number (unlisted_code handle.old.object)) (λ found. (result ≡ 0) ×
        ShowsColumn found shown.new) }
{
    let Some(object) = handle.take(alloc) else {
        return Code::EmptyHandle.number();
    };
    let code = param_at(&object, number, param, shown);
    handle.put(object);
    code.number()
}
