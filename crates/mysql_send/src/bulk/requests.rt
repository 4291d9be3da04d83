//! Parameter sets as bulk requests.

ghost use Rattle.std.specs.Prelude.{◌≡◌, ◌⊎◌, ◌+◌, ◌<◌, ◌≤◌, ◌++◌, ℕ, All, IfErr, IfOk, IfSome, None, OnErr};
ghost use Rattle.std.specs.Cow.{cow_slice_items};
ghost use Rattle.std.specs.Prelude.{OnOk, Some, false, length, map, sum_by, take};
ghost use Rattle.mysql_wire.specs.Framing.{framing};
ghost use Rattle.mysql_wire.specs.Stream.{framings};
ghost use Rattle.mysql_wire.specs.Stream.Numbering.{EachFromZero};
ghost use Rattle.mysql_bulk_builder.specs.Causes.{mixed_kinds as mixed_at, row_too_large};
ghost use Rattle.mysql_bulk_builder.specs.RowLists.{row_in, rows_in};
ghost use Rattle.mysql_bulk_builder.specs.TypedCut.{IsTightTyped};
ghost use Rattle.mysql_bulk_builder.specs.TypedRequests.{typing_of, view_parts};
ghost use Rattle.mysql_bulk_builder.specs.ValueTypes.{first_values};
ghost use Rattle.mysql_command_rules.specs.Commands.{bulk_request};
ghost use Rattle.mysql_command_rules.specs.Reading.{SentReadable};
ghost use Rattle.mysql_command_rules.specs.Sending.{RefusesGiven};
ghost use Rattle.mysql_command_rules.specs.Sets.{given_up_to};
ghost use Rattle.mysql_command_rules.specs.declared.refusal.Refusal.TheVariants as refusals;
ghost use Rattle.mysql_command_rules.specs.declared.road.Road.TheVariants as roads;
ghost use Rattle.mysql_command_rules.specs.MadeSets.{is_want_of_memory};
ghost use Rattle.mysql_send.specs.BulkSets.{AppendsAll, AppendsRequests, RefusesAll, RefusesRows, requests_from};

use crate::bulk::at_once::put_at_once;
use crate::bulk::command::put_request;
use crate::bulk::rows::{lent_rows, values_of_sets};
use crate::bulk::target::Target;
use crate::execute::{Statement, put_prepare};
use mysql_bulk_builder::{
    BulkCutError, BulkPart, bulk_cut, mixed_kinds, no_first_values, put_first_values,
};
use mysql_command_rules::Refusal;
use mysql_values::laws::tokens_of_a_text;
use mysql_values::{Params, SetError, Value};
use mysql_wire::packet_to_chunks;
use std::alloc::{AllocError, Global};

/// Refuses `MixedKinds`.
fn check_kinds(alloc: Global, rows: &[&[&Value]], columns: usize) -> Result<(), Refusal>
    requires { All (λ row. length row.now ≡ columns) rows.now }
    ensures ok { OnOk result (mixed_at (rows_in rows.now) ≡ None) }
    ensures err { IfErr result (λ refusal. (refusal ≡ refusals.Memory) ⊎
        ((at : ℕ × ℕ) × (mixed_at (rows_in rows.now) ≡ Some at) ×
        (refusal ≡ refusals.MixedKinds at.0 at.1))) }
{
    match mixed_kinds(alloc, rows, columns)? {
        Some((set, place)) => Err(Refusal::MixedKinds(set, place)),
        None => Ok(()),
    }
}

/// The tight cut of the rows. Refuses `RowTooLarge`.
fn cut_of(
    alloc: Global,
    rows: &[&[&Value]],
    columns: usize,
    room: usize,
) -> Result<Vec<BulkPart>, Refusal>
    requires { All (λ row. length row.now ≡ columns) rows.now }
    ensures tight { IfOk result (λ cut. IsTightTyped room columns (rows_in rows.now) (view_parts cut.items)) }
    ensures none { IfOk result (λ _. row_too_large room columns (rows_in rows.now) ≡ None) }
    ensures err { IfErr result (λ refusal. (refusal ≡ refusals.Memory) ⊎
        ((set : ℕ) × (row_too_large room columns (rows_in rows.now) ≡ Some set) ×
        (refusal ≡ refusals.RowTooLarge set))) }
{
    match bulk_cut(alloc, rows, columns, room) {
        Ok(cut) => Ok(cut),
        Err(BulkCutError::RowTooLarge(set)) => Err(Refusal::RowTooLarge(set)),
        Err(BulkCutError::Memory) => Err(Refusal::Memory),
    }
}

/// Appends the request of a part of the rows, framed. `firsts` are the columns' first values in the
/// rows before the part, and then in those up to its end.
fn put_part<'a, 'b: 'a>(
    id: u32,
    rows: &[&[&'b Value]],
    start: usize,
    part: BulkPart,
    firsts: &mut [&'a Value],
    command: &mut Vec<u8>,
    out: &mut Vec<u8>,
) -> Result<(), AllocError>
    requires within { start + part.count ≤ length rows.now }
    requires arity { All (λ row. length row.now ≡ length firsts.old) rows.now }
    requires firsts { row_in firsts.old ≡ first_values (length firsts.old) (take start (rows_in rows.now)) }
    ensures firsts { row_in firsts.new ≡
        first_values (length firsts.old) (take (start + part.count) (rows_in rows.now)) }
    ensures ok { OnOk result (out.new.items ≡ out.old.items ++
        framing (bulk_request id (length firsts.old) (rows_in rows.now) start (typing_of part.typed)
        part.count) 0) }
    ensures kept { OnErr result (out.new.items ≡ out.old.items) }
{
    let end = start + part.count;
    put_first_values(firsts, &rows[start..end]);
    command.clear();
    put_request(id, part.typed, firsts, &rows[start..end], command)?;
    packet_to_chunks(0, command, out)?;
    Ok(())
}

/// Appends the requests of a cut of the rows. After a refusal what stood before stands in front.
fn put_parts(
    alloc: Global,
    id: u32,
    columns: usize,
    rows: &[&[&Value]],
    cut: &[BulkPart],
    out: &mut Vec<u8>,
) -> Result<(), AllocError>
    requires arity { All (λ row. length row.now ≡ columns) rows.now }
    requires whole { sum_by (λ part. part.count) (view_parts cut.now) ≡ length rows.now }
    ensures ok { OnOk result (out.new.items ≡ out.old.items ++
        framings (requests_from id columns (rows_in rows.now) 0 (view_parts cut.now)) EachFromZero) }
    ensures kept { take (length out.old.items) out.new.items ≡ out.old.items }
{
    let null = Value::NULL;
    let mut firsts = no_first_values(alloc, &null, columns)?;
    let mut command = Vec::new(alloc);
    let mut start = 0;
    'parts: for part in cut {
        put_part(id, rows, start, *part, &mut firsts, &mut command, out)?;
        start += part.count;
    }
    Ok(())
}

/// Appends the requests of the rows, as few as there can be. After a refusal what stood before stands in front.
fn put_rows(
    alloc: Global,
    id: u32,
    columns: usize,
    rows: &[&[&Value]],
    room: usize,
    out: &mut Vec<u8>,
) -> Result<(), Refusal>
    requires { All (λ row. length row.now ≡ columns) rows.now }
    ensures ok { OnOk result (AppendsRequests id columns room (rows_in rows.now) out.old.items out.new.items) }
    ensures err { IfErr result (RefusesRows columns room (rows_in rows.now)) }
    ensures kept { take (length out.old.items) out.new.items ≡ out.old.items }
{
    check_kinds(alloc, rows, columns)?;
    let cut = cut_of(alloc, rows, columns, room)?;
    put_parts(alloc, id, columns, rows, &cut, out)?;
    Ok(())
}

/// Appends the requests of the sets, whose rows are looked at one kind of cause after another
/// before they are written. After a refusal what stood before stands in front.
fn put_checked_sets(
    alloc: Global,
    statement: &Target<'_>,
    sets: &[Params],
    stop: Option<SetError>,
    room: usize,
    out: &mut Vec<u8>,
) -> Result<(), Refusal>
    requires { 0 < statement.now.places }
    ensures ok { OnOk result (AppendsAll statement.now.id
        (record { places = statement.now.places; bytes = room })
        (given_up_to sets.now stop (map cow_slice_items statement.now.names.now)) out.old.items out.new.items) }
    ensures err { IfErr result
        (RefusesAll (record { places = statement.now.places; bytes = room })
        (given_up_to sets.now stop (map cow_slice_items statement.now.names.now))) }
    ensures kept { take (length out.old.items) out.new.items ≡ out.old.items }
{
    let values = values_of_sets(alloc, statement, sets, stop, room)?;
    let rows = lent_rows(alloc, &values, statement.places)?;
    put_rows(alloc, statement.id, statement.places, &rows, room, out)
}

/// Appends the requests of the sets: one where it holds all of them and nothing speaks against any,
/// else as few as there can be. After a refusal what stood before stands in front.
fn put_sets(
    alloc: Global,
    statement: &Target<'_>,
    sets: &[Params],
    stop: Option<SetError>,
    room: usize,
    out: &mut Vec<u8>,
) -> Result<(), Refusal>
    requires { 0 < statement.now.places }
    ensures ok { OnOk result (AppendsAll statement.now.id
        (record { places = statement.now.places; bytes = room })
        (given_up_to sets.now stop (map cow_slice_items statement.now.names.now)) out.old.items out.new.items) }
    ensures err { IfErr result
        (RefusesAll (record { places = statement.now.places; bytes = room })
        (given_up_to sets.now stop (map cow_slice_items statement.now.names.now))) }
    ensures kept { take (length out.old.items) out.new.items ≡ out.old.items }
{
    let whole = put_at_once(alloc, statement, sets, &stop, room, out)?;
    if whole {
        return Ok(());
    }
    put_checked_sets(alloc, statement, sets, stop, room, out)
}

/// Appends the commands that carry parameter sets of a query to a server as bulk requests.
///
/// Each is framed as packets that are numbered from 0: one prepare, and as few requests as there
/// can be. Each request has as many sets as it has room for, with types where it has to bring them.
/// Sets and places count from 0; a payload has at most `limit - 4` bytes, as the limit counts a
/// packet with its header. `stop` says why one more set behind the given ones gives no values,
/// where there is one. It is never want of memory, which is the caller's to answer. After a refusal
/// what stood before stands in front of `out`.
///
/// Promise: exactly what is stated for the road is appended, in a form that reads back, or the
/// first cause is answered (`SentReadable`, `RefusesGiven`).
///
/// # Errors
/// The first cause that holds, in the order of [`Refusal`]:
/// - `TooManyPlaces`.
/// - `PrepareTooLarge`.
/// - `NoPlaces`.
/// - Set by set `Params`, `WrongCount`, `Float`; `Params` for the set that stops.
/// - Over all sets `MixedKinds`, `RowTooLarge`.
/// - `Memory` where a growth was refused.
///
/// MariaDB: Client/Server Protocol, "COM_STMT_BULK_EXECUTE"; MySQL: Client/Server Protocol,
/// "COM_STMT_PREPARE".
pub fn put_requests(
    alloc: Global,
    statement: &Statement<'_>,
    sets: &[Params],
    stop: Option<SetError>,
    limit: usize,
    out: &mut Vec<u8>,
) -> Result<(), Refusal>
    requires limit { 4 ≤ limit }
    requires stop { IfSome stop (λ error. is_want_of_memory error ≡ false) }
    ensures ok { OnOk result
        (SentReadable roads.Bulk statement.now.sql (given_up_to sets.now stop) statement.now.id
        limit out.old.items out.new.items) }
    ensures err { IfErr result
        (RefusesGiven roads.Bulk statement.now.sql (given_up_to sets.now stop) statement.now.id limit) }
    ensures kept { take (length out.old.items) out.new.items ≡ out.old.items }
{
    tokens_of_a_text();
    put_prepare(alloc, statement, limit - 4, out)?;
    let target = Target {
        names: statement.names(),
        places: statement.place_count(),
        id: statement.id(),
    };
    if target.places == 0 {
        return Err(Refusal::NoPlaces);
    }
    put_sets(alloc, &target, sets, stop, limit - 4, out)
}
