//! Parameter sets sent.

ghost use Rattle.std.specs.Prelude.{◌≡◌, ◌≢◌, ◌≤◌, IfErr, OnErr, OnOk};
ghost use Rattle.mysql_values.specs.Sql.{read_by};
ghost use Rattle.mysql_command_rules.specs.Sending.{RefusesGiven};
ghost use Rattle.mysql_command_rules.specs.Sets.{all_given};
ghost use Rattle.mysql_session.specs.Delivery.{Delivers};
ghost use Rattle.mysql_c_handles.specs.Codes.{code_number};
ghost use Rattle.mysql_c_commands.specs.Sending.{AppendsTo, Sends, SendsFrom, ShowsRefusal, refusal_code};
ghost use Rattle.mysql_c_commands.specs.Sending.{refusal_place, road_numbered};

use crate::modes::mode_of;
use crate::shown::ShownPlace;
use mysql_c_handles::{Code, Handle, Object};
use mysql_session::{Params, Query, Refusal, Road};
use mysql_values::{Mode, Spelling};
use std::alloc::Global;

/// The method of a number.
fn road_of(number: u32) -> Option<Road>
    ensures { result ≡ road_numbered number }
{
    match number {
        0 => Some(Road::Text),
        1 => Some(Road::Execute),
        2 => Some(Road::Bulk),
        _ => None,
    }
}

/// The code of a refusal.
fn code_of(refusal: &Refusal) -> Code
    ensures code { result ≡ refusal_code refusal.now }
    ensures failed { code_number result ≢ 0 }
{
    match refusal {
        Refusal::Memory => Code::Memory,
        Refusal::Mixed => Code::Mixed,
        Refusal::NotAlone(_) => Code::NotAlone,
        Refusal::TooManyPlaces => Code::TooManyPlaces,
        Refusal::PrepareTooLarge => Code::PrepareTooLarge,
        Refusal::NoPlaces => Code::NoPlaces,
        Refusal::Params(_, _) => Code::Params,
        Refusal::WrongCount(_) => Code::WrongCount,
        Refusal::Float(_, _) => Code::Float,
        Refusal::PacketTooLarge(_) => Code::PacketTooLarge,
        Refusal::MixedKinds(_, _) => Code::MixedKinds,
        Refusal::RowTooLarge(_) => Code::RowTooLarge,
    }
}

/// The set and the place of a refusal.
fn place_of(refusal: &Refusal) -> ShownPlace
    ensures { result ≡ refusal_place refusal.now }
{
    match refusal {
        Refusal::NotAlone(at) => ShownPlace { set: 0, place: *at },
        Refusal::Params(set, _)
        | Refusal::WrongCount(set)
        | Refusal::PacketTooLarge(set)
        | Refusal::RowTooLarge(set) => ShownPlace {
            set: *set,
            place: 0,
        },
        Refusal::Float(set, at) | Refusal::MixedKinds(set, at) => ShownPlace {
            set: *set,
            place: *at,
        },
        Refusal::Memory
        | Refusal::Mixed
        | Refusal::TooManyPlaces
        | Refusal::PrepareTooLarge
        | Refusal::NoPlaces => ShownPlace { set: 0, place: 0 },
    }
}

/// Shows a refusal.
fn show_refusal(refusal: &Refusal, place: &mut ShownPlace) -> Code
    ensures shows { ShowsRefusal refusal.now (code_number result) place.new }
    ensures failed { code_number result ≢ 0 }
{
    *place = place_of(refusal);
    code_of(refusal)
}

/// Appends sets to bytes, for a server in a mode. Where they aren't sent the bytes stay.
fn sent_in(
    alloc: Global,
    query: &[u8],
    sets: &[Params],
    road: Road,
    id: u32,
    limit: usize,
    mode: Mode,
    spelling: Spelling,
    out: &mut Vec<u8>,
) -> Result<(), Refusal>
    requires { 4 ≤ limit }
    ensures refused { IfErr result
        (RefusesGiven road (read_by mode spelling query.now) (all_given sets.now) id limit) }
    ensures kept { OnErr result (out.new.items ≡ out.old.items) }
    ensures delivered { OnOk result
        (Delivers road (read_by mode spelling query.now) (all_given sets.now) id limit
        out.old.items out.new.items) }
{
    let query = Query::new_in(alloc, query, id, mode, spelling)?;
    query.send(alloc, sets, road, limit, out)
}

/// Appends sets to bytes. Where they aren't sent the bytes stay.
fn sent(
    alloc: Global,
    query: &[u8],
    sets: &[Params],
    road: u32,
    id: u32,
    limit: usize,
    flags: u32,
    out: &mut Vec<u8>,
    place: &mut ShownPlace,
) -> Code
    ensures { Sends road flags query.now sets.now id limit out.old.items (code_number result) place.new out.new.items }
{
    let Some(road) = road_of(road) else {
        return Code::NoSuchRoad;
    };
    let Some((mode, spelling)) = mode_of(flags) else {
        return Code::NoSuchMode;
    };
    if limit < 4 {
        return Code::LimitTooSmall;
    }
    match sent_in(alloc, query, sets, road, id, limit, mode, spelling, out) {
        Ok(()) => Code::Done,
        Err(refusal) => show_refusal(&refusal, place),
    }
}

/// Appends sets to bytes.
fn append_to(
    object: &mut Object,
    alloc: Global,
    query: &[u8],
    sets: &[Params],
    road: u32,
    id: u32,
    limit: usize,
    flags: u32,
    place: &mut ShownPlace,
) -> Code
    ensures { AppendsTo road flags query.now sets.now id limit object.old (code_number result) place.new object.new }
{
    match object {
        Object::Bytes(out) => sent(alloc, query, sets, road, id, limit, flags, out, place),
        Object::Empty => Code::EmptyHandle,
        _ => Code::OtherKind,
    }
}

/// Appends parameter sets to the bytes that a handle refers to.
fn send_to(
    object: &Object,
    alloc: Global,
    query: &[u8],
    road: u32,
    id: u32,
    limit: usize,
    flags: u32,
    out: &mut Handle,
    place: &mut ShownPlace,
) -> Code
    ensures { SendsFrom road flags query.now id limit object.now out.old.object (code_number result)
        place.new out.new.object }
{
    match object {
        Object::Sets(sets) => append_sets(
            alloc, query, &sets.sets, road, id, limit, flags, out, place,
        ),
        Object::Empty => Code::EmptyHandle,
        _ => Code::OtherKind,
    }
}

/// Appends sets to the bytes that a handle refers to.
fn append_sets(
    alloc: Global,
    query: &[u8],
    sets: &[Params],
    road: u32,
    id: u32,
    limit: usize,
    flags: u32,
    out: &mut Handle,
    place: &mut ShownPlace,
) -> Code
    ensures { AppendsTo road flags query.now sets.now id limit out.old.object (code_number result)
        place.new out.new.object }
{
    let Some(mut object) = out.take(alloc) else {
        return Code::EmptyHandle;
    };
    let code = append_to(
        &mut object,
        alloc,
        query,
        sets,
        road,
        id,
        limit,
        flags,
        place,
    );
    out.put(object);
    code
}

/// Appends the whole parameter sets of one handle, as commands, to the bytes of another.
///
/// The number of the method is 0 for text, 1 for execute, 2 for bulk. The flags tell the mode of
/// the server and, by text, how byte strings are spelled. Where the sets aren't sent it shows the
/// set and the placeholder that are refused, and the bytes stay.
///
/// Promise: what is appended delivers the sets to a server in this mode. Or nothing is appended,
/// and the code, the set and the placeholder are those of the first cause (`SendsFrom`).
pub fn send(
    alloc: Global,
    sets: &mut Handle,
    query: &[u8],
    road: u32,
    id: u32,
    limit: usize,
    flags: u32,
    out: &mut Handle,
    place: &mut ShownPlace,
) -> u32
    ensures kept { sets.new.object ≡ sets.old.object }
    ensures sent { SendsFrom road flags query.now id limit sets.old.object out.old.object result
        place.new out.new.object }
{
    let Some(given) = sets.take(alloc) else {
        return Code::EmptyHandle.number();
    };
    let code = send_to(&given, alloc, query, road, id, limit, flags, out, place);
    sets.put(given);
    code.number()
}
