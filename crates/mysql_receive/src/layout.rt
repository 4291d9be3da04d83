//! What commands say by their own bytes.

ghost use Rattle.std.specs.Prelude.{◌≡◌, ◌+◌, ◌/◌, ◌<◌, Option, Some, None, IfSome, Ok};
ghost use Rattle.std.specs.Prelude.{length};
ghost use Rattle.mysql_receive.specs.Layout.{type_at, types_at, id_at, place_data_at, binding_at, execute_head};
ghost use Rattle.mysql_receive.specs.Layout.{bulk_head};
ghost use Rattle.mysql_receive.specs.Layout.{are_bulk_flags as are_flags};
ghost use Rattle.mysql_receive.specs.declared.fault.StreamFault.{StreamFault};
ghost use Rattle.mysql_receive.specs.Views.{Gives, statement_view, execute_head_of, bulk_head_of, place_data_of};
ghost use Rattle.mysql_receive.specs.Views.{types_carried, types_kept, some_types};

use crate::fault::StreamFault;
use crate::fields::{is_type_number, read_bytes, read_u8, read_u16, read_u32};
use crate::param_type::{OwnTypes, ParamType};
use crate::read_error::ReadError;
use crate::statement::Statement;
use mysql_wire::ParseBuf;
use std::alloc::Global;

/// The flag of a type whose numbers have no sign.
const UNSIGNED: u8 = 0x80;

/// The flags of an execute that opens no cursor.
const NO_CURSOR: u8 = 0;

/// The flag of a bulk that asks for a result for each row.
const SEND_UNIT_RESULTS: u16 = 0x40;

/// The flag of a bulk that carries types.
const SEND_TYPES_TO_SERVER: u16 = 0x80;

/// What stands before an execute's cells.
#[derive(Drop)]
pub struct ExecuteHead<'a> {
    pub nulls: &'a [u8],
    pub own: OwnTypes,
    pub cells: &'a [u8],
}

/// What stands before a bulk's rows.
#[derive(Drop)]
pub struct BulkHead<'a> {
    pub own: OwnTypes,
    pub rows: &'a [u8],
}

/// Long data for a place.
#[derive(Drop)]
pub struct PlaceData<'a> {
    pub place: u16,
    pub bytes: &'a [u8],
}

/// Reads a type and its flag.
pub fn read_type(short: StreamFault, bytes: &[u8]) -> Result<(ParamType, &[u8]), ReadError>
    ensures { Gives (λ x. (x.0, x.1.now)) result (type_at short bytes.now) }
{
    let (number, rest) = read_u8(short, bytes)?;
    if !is_type_number(number) {
        return Err(ReadError::Fault(StreamFault::BadType));
    }
    let (flags, rest) = read_u8(short, rest)?;
    let unsigned = flags == UNSIGNED;
    if unsigned || flags == 0 {
        Ok((ParamType { number, unsigned }, rest))
    } else {
        Err(ReadError::Fault(StreamFault::BadType))
    }
}

/// Reads so many types, one after another.
pub fn read_types(
    alloc: Global,
    short: StreamFault,
    count: usize,
    bytes: &[u8],
) -> Result<(Vec<ParamType>, &[u8]), ReadError>
    ensures { Gives (λ x. (x.0.items, x.1.now)) result (types_at short count bytes.now) }
{
    let mut types = Vec::new(alloc);
    let mut rest = bytes;
    for _ in 0..count {
        let (next, after) = read_type(short, rest)?;
        types.push(next)?;
        rest = after;
    }
    Ok((types, rest))
}

/// What follows a type in force, where the bytes begin with it.
#[inline(always)]
fn skip_kept_type(kept: ParamType, bytes: &[u8]) -> Option<&[u8]>
    ensures { IfSome result (λ rest. (short : StreamFault) → type_at short bytes.now ≡ Ok (kept, rest.now)) }
{
    let mut buf = ParseBuf(bytes);
    let number = buf.checked_eat_u8()?;
    let flags = buf.checked_eat_u8()?;
    let unsigned = flags == UNSIGNED;
    let kind = ParamType { number, unsigned };
    if kind == kept && (unsigned || flags == 0) && is_type_number(number) {
        Some(buf.0)
    } else {
        None
    }
}

/// What follows the types in force, where the bytes begin with them.
fn skip_kept_types<'a>(kept: &[ParamType], bytes: &'a [u8]) -> Option<&'a [u8]>
    ensures { IfSome result (λ rest. (short : StreamFault) →
        types_at short (length kept.now) bytes.now ≡ Ok (kept.now, rest.now)) }
{
    let mut rest = bytes;
    for kind in kept {
        rest = skip_kept_type(*kind, rest)?;
    }
    Some(rest)
}

/// Reads the types of a command; no list is made of them where they are those in force.
fn read_own_types<'a>(
    alloc: Global,
    short: StreamFault,
    count: usize,
    kept: &Option<Vec<ParamType>>,
    bytes: &'a [u8],
) -> Result<(OwnTypes, &'a [u8]), ReadError>
    ensures { Gives (λ x. (types_carried (types_kept kept.now) x.0, x.1.now)) result
        (some_types (types_at short count bytes.now)) }
{
    if let Some(kept) = kept {
        if kept.len() == count {
            if let Some(rest) = skip_kept_types(kept, bytes) {
                return Ok((OwnTypes::Kept, rest));
            }
        }
    }
    let (anew, rest) = read_types(alloc, short, count, bytes)?;
    Ok((OwnTypes::Anew(anew), rest))
}

/// Reads the statement's id, and answers the bytes behind it.
pub fn check_id<'a>(statement: &Statement, bytes: &'a [u8]) -> Result<&'a [u8], ReadError>
    ensures { Gives (λ x. x.now) result (id_at (statement_view statement.now) bytes.now) }
{
    let (id, rest) = read_u32(StreamFault::WrongId, bytes)?;
    if id == statement.id {
        Ok(rest)
    } else {
        Err(ReadError::Fault(StreamFault::WrongId))
    }
}

/// Reads the body of a long data command.
pub fn read_long_data<'a>(statement: &Statement, body: &'a [u8]) -> Result<PlaceData<'a>, ReadError>
    ensures { Gives place_data_of result (place_data_at (statement_view statement.now) body.now) }
{
    // COM_STMT_SEND_LONG_DATA:
    //   int<4>       statement_id
    //   int<2>       param_id, the place
    //   string<EOF>  data
    let rest = check_id(statement, body)?;
    let (place, bytes) = read_u16(StreamFault::BadPlace, rest)?;
    if (place as usize) < statement.places.len() {
        Ok(PlaceData { place, bytes })
    } else {
        Err(ReadError::Fault(StreamFault::BadPlace))
    }
}

// How many bytes hold a bit for each place.
fn bitmap_len(places: usize) -> usize
    ensures { result ≡ (places + 7) / 8 }
{
    places.div_ceil(8)
}

/// Reads the NULL bitmap and the types of an execute.
#[tactic(auto, unfolding(crate::specs::Layout::binding_at))]
fn read_binding<'a>(
    alloc: Global,
    places: usize,
    kept: &Option<Vec<ParamType>>,
    bytes: &'a [u8],
) -> Result<ExecuteHead<'a>, ReadError>
    ensures { Gives (execute_head_of (types_kept kept.now)) result (binding_at places bytes.now) }
{
    // binary<var>  null_bitmap, a bit for each parameter
    // int<1>       new_params_bind_flag
    // (int<1> type, int<1> flag) for each parameter, behind a flag of 1
    let (nulls, rest) = read_bytes(StreamFault::BadExecute, bitmap_len(places), bytes)?;
    let (bound, rest) = read_u8(StreamFault::BadExecute, rest)?;
    if bound > 1 {
        return Err(ReadError::Fault(StreamFault::BadExecute));
    }
    if bound == 0 {
        return Ok(ExecuteHead {
            nulls,
            own: OwnTypes::Without,
            cells: rest,
        });
    }
    let (own, cells) = read_own_types(alloc, StreamFault::BadExecute, places, kept, rest)?;
    Ok(ExecuteHead { nulls, own, cells })
}

/// Reads what stands before an execute's cells.
#[tactic(auto, unfolding(crate::specs::Layout::execute_head))]
pub fn read_execute_head<'a>(
    alloc: Global,
    statement: &Statement,
    kept: &Option<Vec<ParamType>>,
    body: &'a [u8],
) -> Result<ExecuteHead<'a>, ReadError>
    ensures { Gives (execute_head_of (types_kept kept.now)) result
        (execute_head (statement_view statement.now) body.now) }
{
    // COM_STMT_EXECUTE:
    //   int<4>  statement_id
    //   int<1>  flags: CURSOR_TYPE_NO_CURSOR
    //   int<4>  iteration_count: 1
    //   ..      null_bitmap and types, where there are parameters (`read_binding`)
    //   ..      parameter values
    let rest = check_id(statement, body)?;
    let (cursor, rest) = read_u8(StreamFault::BadExecute, rest)?;
    if cursor != NO_CURSOR {
        return Err(ReadError::Fault(StreamFault::BadExecute));
    }
    let (count, rest) = read_u32(StreamFault::BadExecute, rest)?;
    if count != 1 {
        return Err(ReadError::Fault(StreamFault::BadExecute));
    }
    let places = statement.places.len();
    if places == 0 {
        return Ok(ExecuteHead {
            nulls: &[],
            own: OwnTypes::Without,
            cells: rest,
        });
    }
    read_binding(alloc, places, kept, rest)
}

/// Whether a bulk has these flags: none, either or both of the two.
fn are_bulk_flags(flags: u16) -> bool
    ensures { result ≡ are_flags flags }
{
    flags == 0
        || flags == SEND_UNIT_RESULTS
        || flags == SEND_TYPES_TO_SERVER
        || flags == SEND_UNIT_RESULTS + SEND_TYPES_TO_SERVER
}

/// Reads what stands before a bulk's rows.
#[tactic(auto, unfolding(crate::specs::Layout::bulk_head))]
pub fn read_bulk_head<'a>(
    alloc: Global,
    statement: &Statement,
    kept: &Option<Vec<ParamType>>,
    body: &'a [u8],
) -> Result<BulkHead<'a>, ReadError>
    ensures { Gives (bulk_head_of (types_kept kept.now)) result (bulk_head (statement_view statement.now) body.now) }
{
    // COM_STMT_BULK_EXECUTE:
    //   int<4>       statement_id
    //   int<2>       bulk_flags: SEND_UNIT_RESULTS, SEND_TYPES_TO_SERVER
    //   (int<1> type, int<1> flag) for each parameter, where types are sent
    //   ..           rows: an indicator and a value for each parameter
    let rest = check_id(statement, body)?;
    let (flags, rest) = read_u16(StreamFault::BadBulk, rest)?;
    if !are_bulk_flags(flags) {
        return Err(ReadError::Fault(StreamFault::BadBulk));
    }
    if flags & SEND_TYPES_TO_SERVER != SEND_TYPES_TO_SERVER {
        return Ok(BulkHead {
            own: OwnTypes::Without,
            rows: rest,
        });
    }
    let (own, rows) = read_own_types(
        alloc,
        StreamFault::BadBulk,
        statement.places.len(),
        kept,
        rest,
    )?;
    Ok(BulkHead { own, rows })
}
