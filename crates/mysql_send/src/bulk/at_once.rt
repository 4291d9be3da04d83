//! Parameter sets as one bulk request, whose rows are written while they are looked at. Sets that
//! need more requests, and sets that are refused, are left to the general way.

ghost use Rattle.std.specs.Prelude.{◌≡◌, ◌+◌, ◌*◌, ◌<◌, ◌≤◌, ◌++◌, IfErr, IfOk, IfSome, None, OnErr, OnOk, [], drop};
ghost use Rattle.std.specs.Prelude.{false};
ghost use Rattle.std.specs.Cow.{cow_slice_items};
ghost use Rattle.std.specs.Prelude.{length, map, replicate, take, true};
ghost use Rattle.std.specs.Prelude.{Ok as Gives};
ghost use Rattle.std.specs.List.{AllByRecursion};
ghost use Rattle.mysql_values.specs.Values.{FitsFields};
ghost use Rattle.mysql_values.specs.Binding.{values_cause};
ghost use Rattle.mysql_values.specs.Params.{values_over};
ghost use Rattle.mysql_wire.specs.Framing.{framing};
ghost use Rattle.mysql_bulk_builder.specs.RowLists.{row_in};
ghost use Rattle.mysql_bulk_builder.specs.ValueTypes.{first_values};
ghost use Rattle.mysql_command_rules.specs.Sets.{given_by, given_up_to};
ghost use Rattle.mysql_command_rules.specs.declared.refusal.Refusal.TheVariants as refusals;
ghost use Rattle.mysql_send.specs.BulkSets.{AppendsAll, AppendsRow, AppendsRows, GivesRow, front_bytes};

use crate::bulk::command::{put_front, put_row};
use crate::bulk::list_rows::put_given_list;
use crate::bulk::target::Target;
use crate::execute::set_values::{check_values, values_fit};
use mysql_bulk_builder::laws::{one_more_mixes_none, whole_is_tight};
use mysql_bulk_builder::{no_first_values, place_of_other};
use mysql_command_rules::Refusal;
use mysql_command_rules::laws::requests_have_their_size;
use mysql_values::params::list_values_over_names;
use mysql_values::{Params, ParamsError, SetError, Value};
use mysql_wire::frame_in_place;
use std::alloc::{AllocError, Global};
use std::borrow::CowSlice;

/// What a request has up to its types, with the header of its packet: the header, the command's
/// number, the statement's id, the flags.
const FRONT_LEN: usize = 4 + 1 + 4 + 2;

/// Lists the values that a set gives the statement, in place of what the list holds, and says whether it gives any.
fn gives_values<'a>(
    statement: &Target<'_>,
    params: &'a Params,
    values: &mut Vec<&'a Value>,
) -> Result<bool, Refusal>
    ensures ok { IfOk result (λ gives. gives ≡ true →
        values_over (map cow_slice_items statement.now.names.now) params.entry.now ≡ Gives (row_in values.new.items)) }
    ensures err { IfErr result (λ refusal. refusal ≡ refusals.Memory) }
{
    match list_values_over_names(params, statement.names, values) {
        Ok(()) => Ok(true),
        Err(ParamsError::Memory) => Err(Refusal::Memory),
        Err(_) => Ok(false),
    }
}

/// Whether values are as many as the placeholders, and none is a float.
fn are_good(values: &[&Value], places: usize, set: usize) -> bool
    ensures cause { result ≡ true →
        values_cause (refusals.WrongCount set) (λ place. refusals.Float set place) places
        (row_in values.now) ≡ None }
    ensures fit { result ≡ true → AllByRecursion (λ value. FitsFields value) (row_in values.now) }
{
    values_fit(values);
    match check_values(values, places, set) {
        Ok(()) => true,
        Err(_) => false,
    }
}

/// Lists the values of the row that a set gives the statement, in place of what the list holds. It
/// says whether nothing speaks against it.
fn gives_row<'a>(
    statement: &Target<'_>,
    set: usize,
    params: &'a Params,
    room: usize,
    values: &mut Vec<&'a Value>,
) -> Result<bool, Refusal>
    ensures ok { IfOk result (λ gives. gives ≡ true →
        GivesRow (record { places = statement.now.places; bytes = room }) set
        (given_by (map cow_slice_items statement.now.names.now) params.entry.now) (row_in values.new.items)) }
    ensures wide { IfOk result (λ gives. gives ≡ true → length (row_in values.new.items) ≡ statement.now.places) }
    ensures err { IfErr result (λ refusal. refusal ≡ refusals.Memory) }
{
    let gives = gives_values(statement, params, values)?;
    if !gives {
        return Ok(false);
    }
    let row = values.as_slice();
    let good = are_good(row, statement.places, set);
    Ok(good)
}

/// Appends the row that a set gives the statement whose values are looked up. It says whether
/// nothing speaks against it, and each value is of the kind of its column's first value in the rows
/// before. The first values are then those with this row.
#[inline(never)]
fn put_row_looked_up<'a>(
    statement: &Target<'_>,
    set: usize,
    params: &'a Params,
    room: usize,
    values: &mut Vec<&'a Value>,
    firsts: &mut [&'a Value],
    out: &mut Vec<u8>,
) -> Result<bool, Refusal>
    requires { length firsts.old ≡ statement.now.places }
    ensures ok { IfOk result (λ put. put ≡ true →
        AppendsRow (record { places = statement.now.places; bytes = room }) set
        (given_by (map cow_slice_items statement.now.names.now) params.entry.now) (row_in firsts.old)
        (row_in firsts.new) out.old.items out.new.items) }
    ensures err { IfErr result (λ refusal. refusal ≡ refusals.Memory) }
    ensures kept { take (length out.old.items) out.new.items ≡ out.old.items }
{
    let gives = gives_row(statement, set, params, room, values)?;
    if !gives {
        return Ok(false);
    }
    let row = values.as_slice();
    let other = place_of_other(firsts, row);
    if other.is_some() {
        return Ok(false);
    }
    put_row(row, out)?;
    Ok(true)
}

/// The values of a set that is a list, where the statement has no names.
///
/// They lie in the order of its placeholders.
#[inline(always)]
fn values_in_order<'a>(names: &[CowSlice<'_, u8>], params: &'a Params) -> Option<&'a [Value]>
    ensures { IfSome result (λ values. values_over (map cow_slice_items names.now)
        params.entry.now ≡ Gives values.now) }
{
    match params {
        Params::Positional(values) if names.is_empty() => Some(values.as_slice()),
        _ => None,
    }
}

/// Appends the row that a set gives the statement. It says whether nothing speaks against it, and
/// each value is of the kind of its column's first value in the rows before. The first values are
/// then those with this row.
#[inline(always)]
fn put_row_of_set<'a>(
    statement: &Target<'_>,
    set: usize,
    params: &'a Params,
    room: usize,
    values: &mut Vec<&'a Value>,
    firsts: &mut [&'a Value],
    out: &mut Vec<u8>,
) -> Result<bool, Refusal>
    requires { length firsts.old ≡ statement.now.places }
    ensures ok { IfOk result (λ put. put ≡ true →
        AppendsRow (record { places = statement.now.places; bytes = room }) set
        (given_by (map cow_slice_items statement.now.names.now) params.entry.now) (row_in firsts.old)
        (row_in firsts.new) out.old.items out.new.items) }
    ensures err { IfErr result (λ refusal. refusal ≡ refusals.Memory) }
    ensures kept { take (length out.old.items) out.new.items ≡ out.old.items }
{
    match values_in_order(statement.names, params) {
        Some(list) => {
            let put = put_given_list(list, firsts, out)?;
            Ok(put)
        }
        None => put_row_looked_up(statement, set, params, room, values, firsts, out),
    }
}

/// Appends the rows that the sets give the statement, and says whether nothing speaks against any
/// and no column mixes kinds. It is given up as soon as `out` has more than `most` bytes.
fn put_rows_of_sets<'a>(
    alloc: Global,
    statement: &Target<'_>,
    sets: &'a [Params],
    room: usize,
    most: usize,
    firsts: &mut [&'a Value],
    out: &mut Vec<u8>,
) -> Result<bool, Refusal>
    requires { row_in firsts.old ≡ first_values statement.now.places [] }
    ensures ok { IfOk result (λ put. put ≡ true →
        AppendsRows (record { places = statement.now.places; bytes = room })
        (given_up_to sets.entry.now None (map cow_slice_items statement.now.names.now)) (row_in firsts.new)
        out.old.items out.new.items) }
    ensures err { IfErr result (λ refusal. refusal ≡ refusals.Memory) }
    ensures kept { take (length out.old.items) out.new.items ≡ out.old.items }
{
    one_more_mixes_none();
    let mut values = Vec::new(alloc);
    'sets: for (set, params) in sets.iter().enumerate() {
        let put = put_row_of_set(statement, set, params, room, &mut values, firsts, out)?;
        if !put {
            return Ok(false);
        }
        if out.len() > most {
            return Ok(false);
        }
    }
    Ok(true)
}

/// About what the row takes that a set of values in the query's order gives, and nothing of other sets.
fn likely_row(params: &Params) -> usize {
    let mut size: usize = 0;
    if let Params::Positional(values) = params {
        for value in values {
            size = size
                .saturating_add(value.bin_len() as usize)
                .saturating_add(1);
        }
    }
    size
}

/// About what the rows of sets take that are like the first one, at most so many bytes.
fn likely_size(sets: &[Params], room: usize) -> usize {
    match sets.first() {
        Some(params) => {
            let row = likely_row(params);
            room.min(row.saturating_add(row / 4).saturating_mul(sets.len()))
        }
        None => 0,
    }
}

/// Appends zeros for what is written last, so many, and has room behind them for so many bytes more
/// where there is memory.
fn leave_room(size: usize, behind: usize, out: &mut Vec<u8>) -> Result<(), AllocError>
    ensures ok { OnOk result (out.new.items ≡ out.old.items ++ replicate size 0) }
    ensures kept { OnErr result (out.new.items ≡ out.old.items) }
{
    if out.reserve(size.saturating_add(behind)).is_err() {
        out.reserve(size)?;
    }
    let end = out.len() + size;
    out.resize(end, 0)
}

/// Writes bytes over those from a place on.
fn write_over(start: usize, bytes: &[u8], out: &mut Vec<u8>)
    requires { start + length bytes.now ≤ length out.old.items }
    ensures { out.new.items ≡ take start out.old.items ++ (bytes.now ++ drop (start + length bytes.now) out.old.items) }
{
    out[start..start + bytes.len()].copy_from_slice(bytes);
}

/// Writes what stands before the rows over the bytes from a place on, with the types of the columns' first values.
fn write_front(
    alloc: Global,
    id: u32,
    firsts: &[&Value],
    start: usize,
    out: &mut Vec<u8>,
) -> Result<(), AllocError>
    requires { start + (7 + 2 * length firsts.now) ≤ length out.old.items }
    ensures ok { OnOk result (out.new.items ≡ take start out.old.items ++
        (front_bytes id true (row_in firsts.now) ++
        drop (start + (7 + 2 * length firsts.now)) out.old.items)) }
    ensures kept { OnErr result (out.new.items ≡ out.old.items) }
{
    let mut front = Vec::new(alloc);
    put_front(id, true, firsts, &mut front)?;
    write_over(start, &front, out);
    Ok(())
}

/// Finishes a request whose rows stand behind the room left from a place on, framed, and says
/// whether it has at most so many bytes. What stands before stays in any case.
fn finish(
    alloc: Global,
    id: u32,
    firsts: &[&Value],
    room: usize,
    start: usize,
    out: &mut Vec<u8>,
) -> Result<bool, Refusal>
    requires { start + (11 + 2 * length firsts.now) ≤ length out.old.items }
    ensures fits { IfOk result (λ put. put ≡ true → length out.old.items ≤ start + 4 + room) }
    ensures ok { IfOk result (λ put. put ≡ true → out.new.items ≡ take start out.old.items ++
        framing (front_bytes id true (row_in firsts.now) ++
        drop (start + (11 + 2 * length firsts.now)) out.old.items) 0) }
    ensures err { IfErr result (λ refusal. refusal ≡ refusals.Memory) }
    ensures kept { take start out.new.items ≡ take start out.old.items }
{
    if out.len() - start - 4 > room {
        return Ok(false);
    }
    write_front(alloc, id, firsts, start + 4, out)?;
    frame_in_place(0, start, &mut Vec::new(alloc), out)?;
    Ok(true)
}

/// Appends one request that carries all sets, framed, and says whether it is so. Nothing speaks
/// against any or against all of them then, and the request has at most so many bytes. What stood
/// before stands in front in any case.
fn put_whole(
    alloc: Global,
    statement: &Target<'_>,
    sets: &[Params],
    room: usize,
    out: &mut Vec<u8>,
) -> Result<bool, Refusal>
    requires { 0 < length sets.now }
    ensures ok { IfOk result (λ put. put ≡ true →
        AppendsAll statement.now.id (record { places = statement.now.places; bytes = room })
        (given_up_to sets.now None (map cow_slice_items statement.now.names.now)) out.old.items out.new.items) }
    ensures err { IfErr result (λ refusal. refusal ≡ refusals.Memory) }
    ensures kept { take (length out.old.items) out.new.items ≡ out.old.items }
{
    requests_have_their_size();
    whole_is_tight();
    let null = Value::NULL;
    let mut firsts = no_first_values(alloc, &null, statement.places)?;
    let start = out.len();
    leave_room(FRONT_LEN + 2 * firsts.len(), likely_size(sets, room), out)?;
    let most = start.saturating_add(4).saturating_add(room);
    let whole = put_rows_of_sets(alloc, statement, sets, room, most, &mut firsts, out)?;
    if !whole {
        return Ok(false);
    }
    finish(alloc, statement.id, &firsts, room, start, out)
}

/// Appends one request that carries all sets, framed, and says whether it is so. There are sets
/// then, nothing speaks against any or against all of them, and the request has at most so many
/// bytes. Else nothing is appended.
pub(crate) fn put_at_once(
    alloc: Global,
    statement: &Target<'_>,
    sets: &[Params],
    stop: &Option<SetError>,
    room: usize,
    out: &mut Vec<u8>,
) -> Result<bool, Refusal>
    ensures ok { IfOk result (λ put. put ≡ true →
        AppendsAll statement.now.id (record { places = statement.now.places; bytes = room })
        (given_up_to sets.now stop.now (map cow_slice_items statement.now.names.now)) out.old.items out.new.items) }
    ensures not { IfOk result (λ put. put ≡ false → out.new.items ≡ out.old.items) }
    ensures err { IfErr result (λ refusal. refusal ≡ refusals.Memory) }
    ensures kept { OnErr result (out.new.items ≡ out.old.items) }
{
    if stop.is_some() {
        return Ok(false);
    }
    if sets.is_empty() {
        return Ok(false);
    }
    let start = out.len();
    match put_whole(alloc, statement, sets, room, out) {
        Ok(true) => Ok(true),
        Ok(false) => {
            out.truncate(start);
            Ok(false)
        }
        Err(refusal) => {
            out.truncate(start);
            Err(refusal)
        }
    }
}
