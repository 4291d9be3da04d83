//! What one payload reads as.

ghost use Rattle.std.specs.Prelude.{◌≡◌, ◌*◌, ◌<◌, ◌≤◌, [], Some, None, Ok, IfOk, drop};
ghost use Rattle.std.specs.Prelude.{false, get_or, length, is_some};
ghost use Rattle.mysql_field_lists.specs.NullBits.{bits_left};
ghost use Rattle.mysql_receive.specs.InForce.{is_waiting, execute_types, bulk_types};
ghost use Rattle.mysql_receive.specs.Reading.{types_in_force, parameter_at, set_at, execute_at, column_at, columns_at};
ghost use Rattle.mysql_receive.specs.Reading.{row_at, RowsAt, FaultyRow, BulkReadsAs, BulkFaulty};
ghost use Rattle.mysql_receive.specs.Views.{Gives, Finds, sets_of, types_carried, types_kept, data_waiting};
ghost use Rattle.mysql_receive.specs.Views.{statement_view, state_of};

use crate::cells::read_content;
use crate::fault::StreamFault;
use crate::fields::read_u8;
use crate::layout::{BulkHead, ExecuteHead, read_bulk_head, read_execute_head};
use crate::param_type::{OwnTypes, ParamType};
use crate::read_error::ReadError;
use crate::statement::{Statement, StatementState};
use mysql_field_lists::{ClientSide, NullBitmap, NullBits};
use mysql_values::{ByteString, Content};
use std::alloc::Global;

/// The types that count: the command's own, else those in force.
fn find_types<'a>(
    statement: &Statement,
    state: &'a StatementState,
    own: &'a OwnTypes,
) -> Result<&'a [ParamType], ReadError>
    ensures { Gives (λ x. x.now) result
        (types_in_force (statement_view statement.now) (state_of state.now)
        (types_carried (types_kept state.now.types) own.now)) }
{
    if statement.places.len() == 0 {
        return Ok(&[]);
    }
    match own {
        OwnTypes::Anew(types) => Ok(types.as_slice()),
        OwnTypes::Kept | OwnTypes::Without => match &state.types {
            Some(types) => Ok(types.as_slice()),
            None => Err(ReadError::Fault(StreamFault::NoTypes)),
        },
    }
}

/// Reads what a place of an execute holds.
#[tactic(auto, unfolding(crate::specs::Reading::content_at))]
#[inline(always)]
fn read_parameter<'a>(
    alloc: Global,
    state: &StatementState,
    place: usize,
    is_null: bool,
    kind: ParamType,
    bytes: &'a [u8],
) -> Result<(Content, &'a [u8]), ReadError>
    ensures { Gives (λ x. (x.0, x.1.now)) result
        (parameter_at (data_waiting state.now.long_data.items place) is_null kind bytes.now) }
{
    if let Some(Some(data)) = state.long_data.get(place) {
        return Ok((Content::Bytes(ByteString::copy(alloc, data)?), bytes));
    }
    if is_null {
        return Ok((Content::Null, bytes));
    }
    read_content(alloc, StreamFault::BadExecute, kind, bytes)
}

/// How many of so many places have a bit in the bitmap.
fn bit_count(nulls: &[u8], places: usize) -> usize
    ensures few { result ≤ places }
    ensures inside { result ≤ 8 * length nulls.now }
    ensures all { result < places → result ≡ 8 * length nulls.now }
{
    places.min(nulls.len().saturating_mul(8))
}

/// The next bit; where none is left, nothing is null.
fn next_bit(bits: &mut NullBits<'_>) -> bool
    ensures bit { result ≡ get_or (bits_left bits.old) 0 false }
    ensures left { bits_left bits.new ≡ drop 1 (bits_left bits.old) }
{
    bits.next().unwrap_or(false)
}

/// Reads what all places of an execute hold.
fn read_set(
    alloc: Global,
    state: &StatementState,
    nulls: &[u8],
    types: &[ParamType],
    cells: &[u8],
) -> Result<Vec<Content>, ReadError>
    ensures { Gives (λ x. x.items) result
        (set_at (data_waiting state.now.long_data.items) nulls.now 0 types.now cells.now) }
{
    let mut set = Vec::with_capacity(alloc, types.len())?;
    let mut rest = cells;
    let bitmap = NullBitmap::<ClientSide, &[u8]>::from_bytes(nulls);
    let mut bits = bitmap.iter(bit_count(nulls, types.len()));
    for (place, kind) in types.iter().enumerate() {
        let is_null = next_bit(&mut bits);
        let (next, after) = read_parameter(alloc, state, place, is_null, *kind, rest)?;
        set.push_reserved(next);
        rest = after;
    }
    if !rest.is_empty() {
        return Err(ReadError::Fault(StreamFault::BadExecute));
    }
    Ok(set)
}

/// Reads the columns of a row, one after another.
fn read_columns<'a>(
    alloc: Global,
    types: &[ParamType],
    bytes: &'a [u8],
) -> Result<(Vec<Content>, &'a [u8]), ReadError>
    ensures { Gives (λ x. (x.0.items, x.1.now)) result (columns_at types.now bytes.now) }
{
    let mut set = Vec::with_capacity(alloc, types.len())?;
    let mut rest = bytes;
    for kind in types {
        let (next, after) = read_column(alloc, *kind, rest)?;
        set.push_reserved(next);
        rest = after;
    }
    Ok((set, rest))
}

/// Reads a column of a row: an indicator, and a cell or nothing.
fn read_column<'a>(
    alloc: Global,
    kind: ParamType,
    bytes: &'a [u8],
) -> Result<(Content, &'a [u8]), ReadError>
    ensures { Gives (λ x. (x.0, x.1.now)) result (column_at kind bytes.now) }
{
    let (indicator, rest) = read_u8(StreamFault::BadBulk, bytes)?;
    match indicator {
        0 => read_content(alloc, StreamFault::BadBulk, kind, rest),
        1 => Ok((Content::Null, rest)),
        _ => Err(ReadError::Fault(StreamFault::Indicator)),
    }
}

/// Reads a row of a bulk: a column for each type, at least one.
fn read_row<'a>(
    alloc: Global,
    types: &[ParamType],
    bytes: &'a [u8],
) -> Result<(Vec<Content>, &'a [u8]), ReadError>
    ensures { Gives (λ x. (x.0.items, x.1.now)) result (row_at types.now bytes.now) }
{
    match types {
        [] => Err(ReadError::Fault(StreamFault::BadBulk)),
        [_, ..] => read_columns(alloc, types, bytes),
    }
}

/// Reads rows to the end of the bytes.
fn read_rows(
    alloc: Global,
    types: &[ParamType],
    bytes: &[u8],
) -> Result<Vec<Vec<Content>>, ReadError>
    ensures { Finds (λ x. sets_of x.items) result (λ sets. RowsAt types.now bytes.now sets [])
        (FaultyRow types.now bytes.now) }
{
    let mut sets = Vec::new(alloc);
    let mut rest = bytes;
    while !rest.is_empty() {
        let (set, after) = read_row(alloc, types, rest)?;
        sets.push(set)?;
        rest = after;
    }
    Ok(sets)
}

/// Reads an execute, as one set.
#[tactic(auto, unfolding(crate::specs::Reading::execute_at))]
pub fn read_execute(
    alloc: Global,
    statement: &Statement,
    state: &StatementState,
    body: &[u8],
) -> Result<(Vec<Content>, OwnTypes), ReadError>
    ensures set { Gives (λ x. x.0.items) result
        (execute_at (statement_view statement.now) (state_of state.now) body.now) }
    ensures own { IfOk result (λ x. types_carried (types_kept state.now.types) x.1 ≡
        execute_types (statement_view statement.now) body.now) }
{
    if !state.prepared {
        return Err(ReadError::Fault(StreamFault::NotPrepared));
    }
    let head = read_execute_head(alloc, statement, &state.types, body)?;
    let types = find_types(statement, state, &head.own)?;
    let set = read_set(alloc, state, head.nulls, types, head.cells)?;
    let ExecuteHead {
        nulls: _,
        own,
        cells: _,
    } = head;
    Ok((set, own))
}

/// Reads a bulk, as its rows.
#[tactic(auto, unfolding(crate::specs::Reading::bulk_rows))]
pub fn read_bulk(
    alloc: Global,
    statement: &Statement,
    state: &StatementState,
    body: &[u8],
) -> Result<(Vec<Vec<Content>>, OwnTypes), ReadError>
    ensures sets { Finds (λ x. sets_of x.0.items) result
        (BulkReadsAs (statement_view statement.now) (state_of state.now) body.now)
        (BulkFaulty (statement_view statement.now) (state_of state.now) body.now) }
    ensures own { IfOk result (λ x. types_carried (types_kept state.now.types) x.1 ≡
        bulk_types (statement_view statement.now) body.now) }
{
    if !state.prepared {
        return Err(ReadError::Fault(StreamFault::NotPrepared));
    }
    if has_waiting_data(statement, state) {
        return Err(ReadError::Fault(StreamFault::PiecesBeforeBulk));
    }
    if statement.places.len() == 0 {
        return Err(ReadError::Fault(StreamFault::BadBulk));
    }
    let head = read_bulk_head(alloc, statement, &state.types, body)?;
    let types = find_types(statement, state, &head.own)?;
    if head.rows.is_empty() {
        return Err(ReadError::Fault(StreamFault::NoRows));
    }
    let sets = read_rows(alloc, types, head.rows)?;
    let BulkHead { own, rows: _ } = head;
    Ok((sets, own))
}

/// Whether long data waits for any place.
pub fn has_waiting_data(statement: &Statement, state: &StatementState) -> bool
    ensures { result ≡ is_waiting (statement_view statement.now) (state_of state.now) }
{
    for place in 0..statement.places.len() {
        if has_data_for(state, place) {
            return true;
        }
    }
    false
}

/// Whether long data waits for the place.
fn has_data_for(state: &StatementState, place: usize) -> bool
    ensures { result ≡ is_some (data_waiting state.now.long_data.items place) }
{
    match state.long_data.get(place) {
        Some(data) => data.is_some(),
        None => false,
    }
}
