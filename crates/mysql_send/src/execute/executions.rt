//! Parameter sets as executions of a prepared statement.

ghost use Rattle.std.specs.Prelude.{◌≡◌, ◌+◌, ◌-◌, ◌^◌, ◌++◌, ◌<◌, ◌≤◌, ℕ, IfErr, IfOk, IfSome, None};
ghost use Rattle.std.specs.Prelude.{Ok, OnErr, OnOk, Some, is_none, length, map, nat_lt, take};
ghost use Rattle.mysql_stmt.specs.Executions.{execute_command};
ghost use Rattle.mysql_wire.specs.Framing.{framing};
ghost use Rattle.mysql_wire.specs.Stream.{framings};
ghost use Rattle.mysql_wire.specs.Stream.Numbering.{EachFromZero};
ghost use Rattle.mysql_command_rules.specs.Cause.{set_cause};
ghost use Rattle.mysql_command_rules.specs.Commands.{piece_of, pieces_from};
ghost use Rattle.mysql_command_rules.specs.OneSet.{AppendsOne, RefusesOne};
ghost use Rattle.mysql_command_rules.specs.Reading.{SentReadable};
ghost use Rattle.mysql_command_rules.specs.Sending.{RefusesGiven};
ghost use Rattle.mysql_command_rules.specs.Sets.{all_given, all_given_in_places, given_by};
ghost use Rattle.mysql_command_rules.specs.declared.refusal.Refusal.TheVariants as refusals;
ghost use Rattle.mysql_command_rules.specs.declared.road.Road.TheVariants as roads;
ghost use Rattle.mysql_send.specs.Executions.{AppendsExecution, AppendsMore, RefusesExecution};
ghost use Rattle.mysql_send.specs.Executions.{RefusesMore, execution_payloads, whole_execution};

use crate::execute::laws::further_sets_are_sent;
use crate::execute::set_values::{check_values, refused, values_fit};
use crate::execute::statement::{Statement, put_prepare};
use mysql_command_rules::Refusal;
use mysql_command_rules::in_turn::sent_in_turn;
use mysql_const::MAX_PAYLOAD_LEN;
use mysql_fields::MySerialize;
use mysql_stmt::laws::executions_have_sizes;
use mysql_stmt::{ComStmtSendLongData, HasValue, put_execution, size_within, size_without_floats};
use mysql_values::laws::tokens_of_a_text;
use mysql_values::params::list_values_over_names;
use mysql_values::{Params, Value};
use mysql_wire::{packet_header, packet_to_chunks};
use std::alloc::{AllocError, Global};
use std::borrow::CowSlice;

/// Appends a payload, which is made in a buffer of its own.
fn put_payload<P: MySerialize>(
    payload: &P,
    command: &mut Vec<u8>,
    out: &mut Vec<u8>,
) -> Result<(), Refusal>
    ensures ok { OnOk result (out.new.items ≡ out.old.items ++ framing (P.written payload.now) 0) }
    ensures err { IfErr result (λ refusal. refusal ≡ refusals.Memory) }
    ensures kept { OnErr result (out.new.items ≡ out.old.items) }
{
    command.clear();
    payload.serialize(command)?;
    packet_to_chunks(0, command, out)?;
    Ok(())
}

/// Appends the byte string at a place as long data, in one piece. Other values are not sent like this.
fn put_piece(
    id: u32,
    place: u16,
    value: &Value,
    command: &mut Vec<u8>,
    out: &mut Vec<u8>,
) -> Result<(), Refusal>
    ensures ok { OnOk result (out.new.items ≡ out.old.items ++ framings (piece_of id place value.now) EachFromZero) }
    ensures err { IfErr result (λ refusal. refusal ≡ refusals.Memory) }
    ensures kept { OnErr result (out.new.items ≡ out.old.items) }
{
    match value {
        Value::Bytes(bytes) => {
            let piece = ComStmtSendLongData::new(id, place, CowSlice::Borrowed(bytes.as_slice()));
            put_payload(&piece, command, out)
        }
        _ => Ok(()),
    }
}

/// Appends each byte string among values as long data, also an empty one.
fn put_pieces<V: HasValue>(
    id: u32,
    values: &[V],
    command: &mut Vec<u8>,
    out: &mut Vec<u8>,
) -> Result<(), Refusal>
    requires { length values.now ≤ 65535 }
    ensures ok { OnOk result (out.new.items ≡ out.old.items ++
        framings (pieces_from id 0 (map V.value values.now)) EachFromZero) }
    ensures err { IfErr result (λ refusal. refusal ≡ refusals.Memory) }
    ensures kept { take (length out.old.items) out.new.items ≡ out.old.items }
{
    'values: for (place, value) in values.iter().enumerate() {
        put_piece(id, place as u16, value.value(), command, out)?;
    }
    Ok(())
}

/// Appends an execution, which is made in a buffer of its own.
fn put_buffered<V: HasValue>(
    id: u32,
    values: &[V],
    apart: bool,
    command: &mut Vec<u8>,
    out: &mut Vec<u8>,
) -> Result<(), Refusal>
    requires { length values.now ≤ 65535 }
    ensures ok { OnOk result (out.new.items ≡ out.old.items ++
        framing (execute_command id (map V.value values.now) apart) 0) }
    ensures err { IfErr result (λ refusal. refusal ≡ refusals.Memory) }
    ensures kept { OnErr result (out.new.items ≡ out.old.items) }
{
    command.clear();
    put_execution(id, values, apart, command)?;
    packet_to_chunks(0, command, out)?;
    Ok(())
}

/// Appends an execution of so many bytes, and before it, where it would be too long for one packet, its byte strings.
#[inline(never)]
fn put_long<V: HasValue>(
    id: u32,
    values: &[V],
    size: usize,
    command: &mut Vec<u8>,
    out: &mut Vec<u8>,
) -> Result<(), Refusal>
    requires count { length values.now ≤ 65535 }
    requires size { length (whole_execution id (map V.value values.now)) ≡ size }
    ensures ok { OnOk result (out.new.items ≡ out.old.items ++
        framings (execution_payloads id (map V.value values.now)) EachFromZero) }
    ensures err { IfErr result (λ refusal. refusal ≡ refusals.Memory) }
    ensures kept { take (length out.old.items) out.new.items ≡ out.old.items }
{
    executions_have_sizes();
    let apart = size > MAX_PAYLOAD_LEN;
    if apart {
        put_pieces(id, values, command, out)?;
    }
    put_buffered(id, values, apart, command, out)
}

/// Appends an execution of so many bytes that one packet holds it. Refused for want of memory.
fn put_short<V: HasValue>(
    id: u32,
    values: &[V],
    size: usize,
    out: &mut Vec<u8>,
) -> Result<(), AllocError>
    requires count { length values.now ≤ 65535 }
    requires size { length (whole_execution id (map V.value values.now)) ≡ size }
    requires short { size < 16777215 }
    ensures ok { OnOk result (out.new.items ≡ out.old.items ++
        framings (execution_payloads id (map V.value values.now)) EachFromZero) }
    ensures kept { take (length out.old.items) out.new.items ≡ out.old.items }
{
    executions_have_sizes();
    out.reserve(size + 4)?;
    out.extend_from_slice(&packet_header(0, size as u32))?;
    put_execution(id, values, false, out)
}

/// Appends what is sent of an execution of so many bytes.
fn put_sized<V: HasValue>(
    id: u32,
    values: &[V],
    size: usize,
    command: &mut Vec<u8>,
    out: &mut Vec<u8>,
) -> Result<(), Refusal>
    requires count { length values.now ≤ 65535 }
    requires size { length (whole_execution id (map V.value values.now)) ≡ size }
    ensures ok { OnOk result (out.new.items ≡ out.old.items ++
        framings (execution_payloads id (map V.value values.now)) EachFromZero) }
    ensures err { IfErr result (λ refusal. refusal ≡ refusals.Memory) }
    ensures kept { take (length out.old.items) out.new.items ≡ out.old.items }
{
    if size < MAX_PAYLOAD_LEN {
        Ok(put_short(id, values, size, out)?)
    } else {
        put_long(id, values, size, command, out)
    }
}

/// The bytes of an execution that holds all cells, where they are at most so many.
fn size_in<V: HasValue>(values: &[V], room: usize) -> Option<usize>
    requires { length values.now ≤ 65535 }
    ensures some { IfSome result (λ size. (id : ℕ) → length (whole_execution id (map V.value values.now)) ≡ size) }
    ensures none { (id : ℕ) → nat_lt room (length (whole_execution id (map V.value values.now))) ≡ is_none result }
{
    executions_have_sizes();
    if values.is_empty() {
        return if room < 10 { None } else { Some(10) };
    }
    size_within(values, room)
}

/// The bytes of a set's execution, checked for one cause after another.
#[inline(never)]
fn size_or_cause<V: HasValue>(
    values: &[V],
    places: usize,
    room: usize,
    set: usize,
) -> Result<usize, Refusal>
    requires { places ≤ 65535 }
    ensures count { OnOk result (length values.now ≤ 65535) }
    ensures size { IfOk result (λ size. (id : ℕ) → length (whole_execution id (map V.value values.now)) ≡ size) }
    ensures ok { OnOk result ((id : ℕ) →
        set_cause (whole_execution id) places room set (Ok (map V.value values.now)) ≡ None) }
    ensures err { IfErr result (λ refusal. (id : ℕ) →
        set_cause (whole_execution id) places room set (Ok (map V.value values.now)) ≡
        Some refusal) }
{
    check_values(values, places, set)?;
    match size_in(values, room) {
        Some(size) => Ok(size),
        None => Err(Refusal::PacketTooLarge(set)),
    }
}

/// Appends the execution of a statement of this id and so many placeholders with these values,
/// which are checked for one cause after another.
#[inline(never)]
fn put_checked<V: HasValue>(
    id: u32,
    places: usize,
    set: usize,
    values: &[V],
    room: usize,
    command: &mut Vec<u8>,
    out: &mut Vec<u8>,
) -> Result<(), Refusal>
    requires { places ≤ 65535 }
    ensures ok { OnOk result (AppendsExecution id (record { places = places; bytes = room }) set
        (map V.value values.now) out.old.items out.new.items) }
    ensures err { IfErr result
        (RefusesExecution id (record { places = places; bytes = room }) set
        (map V.value values.now)) }
    ensures kept { take (length out.old.items) out.new.items ≡ out.old.items }
{
    let size = size_or_cause(values, places, room, set)?;
    values_fit(values);
    put_sized(id, values, size, command, out)
}

/// Appends the execution of a statement of this id and so many placeholders with these values.
#[inline(always)]
fn put_values<V: HasValue>(
    id: u32,
    places: usize,
    set: usize,
    values: &[V],
    room: usize,
    command: &mut Vec<u8>,
    out: &mut Vec<u8>,
) -> Result<(), Refusal>
    requires { places ≤ 65535 }
    ensures ok { OnOk result (AppendsExecution id (record { places = places; bytes = room }) set
        (map V.value values.now) out.old.items out.new.items) }
    ensures err { IfErr result
        (RefusesExecution id (record { places = places; bytes = room }) set
        (map V.value values.now)) }
    ensures kept { take (length out.old.items) out.new.items ≡ out.old.items }
{
    executions_have_sizes();
    if values.len() == places && !values.is_empty() {
        // Found in one pass over values that nothing speaks against, where one packet holds them.
        if let Some(size) = size_without_floats(values, room.min(MAX_PAYLOAD_LEN - 1)) {
            values_fit(values);
            return Ok(put_short(id, values, size, out)?);
        }
    }
    put_checked(id, places, set, values, room, command, out)
}

/// Appends the execution of the set of this number, framed and numbered from 0, to what stands. A
/// list is taken as it lies. Any other set's values are listed in place of what `values` holds. A
/// payload has at most `limit - 4` bytes. The lists `values` and `command` keep their room from set
/// to set. After a refusal what stood before stands in front of `out`.
///
/// # Errors
/// `Params`, `WrongCount`, `Float`, `PacketTooLarge`; `Memory` where a growth was refused.
///
/// MySQL: Client/Server Protocol, "COM_STMT_SEND_LONG_DATA", "COM_STMT_EXECUTE".
#[inline(always)]
pub(crate) fn put_set<'a>(
    statement: &Statement<'_>,
    set: usize,
    params: &'a Params,
    limit: usize,
    values: &mut Vec<&'a Value>,
    command: &mut Vec<u8>,
    out: &mut Vec<u8>,
) -> Result<(), Refusal>
    requires limit { 4 ≤ limit }
    requires few { statement.now.places ≤ 65535 }
    ensures ok { OnOk result
        (AppendsOne roads.Execute statement.now.sql statement.now.id limit set
        (λ names. given_by names params.entry.now) out.old.items out.new.items) }
    ensures err { IfErr result
        (RefusesOne roads.Execute statement.now.sql statement.now.id limit set
        (λ names. given_by names params.entry.now)) }
    ensures kept { take (length out.old.items) out.new.items ≡ out.old.items }
{
    let (id, places, names) = (statement.id(), statement.place_count(), statement.names());
    match params {
        Params::Positional(list) if names.is_empty() => {
            put_values(id, places, set, list.as_slice(), limit - 4, command, out)
        }
        _ => {
            if let Err(error) = list_values_over_names(params, names, values) {
                return Err(refused(set, error));
            }
            put_values(id, places, set, values.as_slice(), limit - 4, command, out)
        }
    }
}

/// Appends the execution of each set of values, of which the first has the number `first`.
fn put_value_sets(
    alloc: Global,
    id: u32,
    places: usize,
    first: usize,
    sets: &[Vec<Value>],
    room: usize,
    out: &mut Vec<u8>,
) -> Result<(), Refusal>
    requires places { places ≤ 65535 }
    requires numbers { first + length sets.now < 2 ^ 64 }
    ensures ok { OnOk result (AppendsMore id (record { places = places; bytes = room }) first
        (map (λ set. set.items) sets.now) out.old.items out.new.items) }
    ensures err { IfErr result
        (RefusesMore id (record { places = places; bytes = room }) first
        (map (λ set. set.items) sets.now)) }
    ensures kept { take (length out.old.items) out.new.items ≡ out.old.items }
{
    let mut command = Vec::new(alloc);
    'sets: for (index, values) in sets.iter().enumerate() {
        let set = first + index;
        put_values(id, places, set, values.as_slice(), room, &mut command, out)?;
    }
    Ok(())
}

/// Appends the commands that carry parameter sets of a query as executions of a prepared statement.
///
/// Each is framed as packets that are numbered from 0. There is one prepare, also where there are
/// no sets, and an execution of the statement for each set. An execution of more than 16777215
/// bytes is sent without its byte strings, each of which goes before it as long data in one piece.
/// Sets and places count from 0. A payload has at most `limit - 4` bytes, as the limit counts a
/// packet with its header. So has an execution with all its values, also where they are sent apart.
/// After a refusal what stood before stands in front of `out`.
///
/// Promise: exactly what is stated for the road is appended, in a form that reads back, or the
/// first cause is answered (`SentReadable`, `RefusesGiven`).
///
/// # Errors
/// The first cause that holds, in the order of [`Refusal`]:
/// - `TooManyPlaces`.
/// - `PrepareTooLarge`.
/// - Set by set `Params`, `WrongCount`, `Float`, `PacketTooLarge`.
/// - `Memory` where a growth was refused.
///
/// MySQL: Client/Server Protocol, "COM_STMT_PREPARE", "COM_STMT_SEND_LONG_DATA",
/// "COM_STMT_EXECUTE".
pub fn put_executions(
    alloc: Global,
    statement: &Statement<'_>,
    sets: &[Params],
    limit: usize,
    out: &mut Vec<u8>,
) -> Result<(), Refusal>
    requires { 4 ≤ limit }
    ensures ok { OnOk result
        (SentReadable roads.Execute statement.now.sql (all_given sets.now) statement.now.id limit
        out.old.items out.new.items) }
    ensures err { IfErr result
        (RefusesGiven roads.Execute statement.now.sql (all_given sets.now) statement.now.id limit) }
    ensures kept { take (length out.old.items) out.new.items ≡ out.old.items }
{
    sent_in_turn();
    put_prepare(alloc, statement, limit - 4, out)?;
    let (mut values, mut command) = (Vec::new(alloc), Vec::new(alloc));
    'sets: for (set, params) in sets.iter().enumerate() {
        put_set(
            statement,
            set,
            params,
            limit,
            &mut values,
            &mut command,
            out,
        )?;
    }
    Ok(())
}

/// Appends what [`put_executions`] appends of sets of values that stand in the order of the
/// statement's placeholders.
///
/// # Errors
/// The first cause that holds, in the order of [`Refusal`]: `TooManyPlaces`, `PrepareTooLarge`; set
/// by set `WrongCount`, `Float`, `PacketTooLarge`; `Memory` where a growth was refused.
///
/// MySQL: Client/Server Protocol, "COM_STMT_PREPARE", "COM_STMT_SEND_LONG_DATA", "COM_STMT_EXECUTE".
pub fn put_executions_of_values(
    alloc: Global,
    statement: &Statement<'_>,
    sets: &[Vec<Value>],
    limit: usize,
    out: &mut Vec<u8>,
) -> Result<(), Refusal>
    requires { 4 ≤ limit }
    ensures ok { OnOk result
        (SentReadable roads.Execute statement.now.sql
        (all_given_in_places (map (λ set. set.items) sets.now)) statement.now.id limit
        out.old.items out.new.items) }
    ensures err { IfErr result
        (RefusesGiven roads.Execute statement.now.sql
        (all_given_in_places (map (λ set. set.items) sets.now)) statement.now.id limit) }
    ensures kept { take (length out.old.items) out.new.items ≡ out.old.items }
{
    sent_in_turn();
    further_sets_are_sent();
    tokens_of_a_text();
    put_prepare(alloc, statement, limit - 4, out)?;
    put_value_sets(
        alloc,
        statement.id(),
        statement.place_count(),
        0,
        sets,
        limit - 4,
        out,
    )
}

/// Appends the executions of further sets of values of a statement that was prepared.
///
/// The statement `stmt_id` has so many placeholders; the executions are those that
/// [`put_executions_of_values`] appends behind its prepare. Sets are numbered on from `first`, the
/// number of those that were appended before; they stand in the order of the placeholders. A
/// payload has at most `limit - 4` bytes, and so has an execution with all its values. After a
/// refusal what stood before stands in front of `out`.
///
/// Promise: the executions of further sets are appended without a prepare, numbered on, or the
/// first cause against one of them is answered (`AppendsMore`, `RefusesMore`).
///
/// # Errors
/// The first cause that holds:
/// - Set by set `WrongCount`, `Float`, `PacketTooLarge`.
/// - `Memory` where a growth was refused.
///
/// MySQL: Client/Server Protocol, "COM_STMT_SEND_LONG_DATA", "COM_STMT_EXECUTE".
pub fn put_more_executions(
    alloc: Global,
    stmt_id: u32,
    places: usize,
    first: usize,
    sets: &[Vec<Value>],
    limit: usize,
    out: &mut Vec<u8>,
) -> Result<(), Refusal>
    requires limit { 4 ≤ limit }
    requires places { places ≤ 65535 }
    requires numbers { first + length sets.now < 2 ^ 64 }
    ensures ok { OnOk result (AppendsMore stmt_id (record { places = places; bytes = limit - 4 })
        first (map (λ set. set.items) sets.now) out.old.items out.new.items) }
    ensures err { IfErr result
        (RefusesMore stmt_id (record { places = places; bytes = limit - 4 }) first
        (map (λ set. set.items) sets.now)) }
    ensures kept { take (length out.old.items) out.new.items ≡ out.old.items }
{
    put_value_sets(alloc, stmt_id, places, first, sets, limit - 4, out)
}
