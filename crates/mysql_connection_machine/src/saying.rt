//! What a payload says, where what is kept then has room.

ghost use Rattle.std.specs.Prelude.{◌≡◌, ◌≤◌, IfOk, OnErr, false};
ghost use Rattle.std.specs.Cow.{cow_slice_items};
ghost use Rattle.mysql_connection_machine.specs.Machines.{is_row};
ghost use Rattle.mysql_connection_machine.specs.Takes.{GoesOnBy, SaysBy, SaysInPlaceBy};
ghost use Rattle.mysql_connection_state.specs.Peeks.{Peeks, words_step};
ghost use Rattle.mysql_connection_rules.specs.Standing.{kept};
ghost use Rattle.mysql_connection_rules.specs.Steps.{step};
ghost use Rattle.mysql_connection_rules.specs.Streams.{room_to_keep};
ghost use Rattle.mysql_connection_rules.specs.declared.side.Side.TheVariants.{Server};
ghost use Rattle.mysql_connection_state.specs.Views.{EventHasUnclear, event_view};

use crate::room::room_to_keep;
use mysql_connection_rules::{Fault, Limits, Side};
use mysql_connection_state::laws::payloads_are_in_turn;
use mysql_connection_state::{Event, FollowRefusal, State, peek_event, peek_farewell};
use mysql_reply_events::ReplyEvent;
use std::alloc::Global;
use std::borrow::CowSlice;

/// Whether an event is a row of a reply.
pub fn is_row(event: &Event) -> bool
    ensures { result ≡ is_row (event_view event.now) }
{
    match event {
        Event::Reply(said) => matches!(**said, ReplyEvent::Row(_)),
        _ => false,
    }
}

// Goes on behind the payload of an event, behind which this number is due. It does where what is kept
// then has room, else nothing changes.
fn go_on(
    limits: Limits,
    side: Side,
    next: u8,
    state: &mut State,
    event: &Event,
    payload: &[u8],
) -> Result<(), Fault>
    ensures { GoesOnBy limits side next state.old (event_view event.now) payload.now result
        state.new }
{
    match state.follow(event, payload, room_to_keep(limits) as u128) {
        Ok(()) => {
            state.set_number(side, next);
            Ok(())
        }
        Err(FollowRefusal::Held) => Err(Fault::Held),
        Err(FollowRefusal::Memory) => Err(Fault::Memory),
    }
}

/// What the next payload says, and the state behind it, with this number. After an error the state
/// is as it was.
#[inline(always)]
pub fn say_bytes(
    alloc: Global,
    limits: Limits,
    side: Side,
    next: u8,
    state: &mut State,
    payload: &[u8],
) -> Result<Event, Fault>
    ensures says { SaysBy limits side next (step state.old.standing payload.now) result state.new.standing }
    ensures unclear { IfOk result (λ event. EventHasUnclear state.old.standing payload.now event) }
    ensures err { OnErr result (state.new ≡ state.old) }
{
    payloads_are_in_turn();
    let event = peek_event(alloc, state, payload)?;
    match go_on(limits, side, next, state, &event, payload) {
        Ok(()) => Ok(event),
        Err(fault) => Err(fault),
    }
}

// What the server's last words say. After an error the state is as it was.
fn bid_bytes(
    alloc: Global,
    limits: Limits,
    next: u8,
    state: &mut State,
    payload: &[u8],
) -> Result<Event, Fault>
    ensures says { SaysBy limits Server next (words_step state.old.standing payload.now) result
        state.new.standing }
    ensures err { OnErr result (state.new ≡ state.old) }
{
    let event = peek_farewell(alloc, payload)?;
    match go_on(limits, Side::Server, next, state, &event, payload) {
        Ok(()) => Ok(event),
        Err(fault) => Err(fault),
    }
}

// What the next payload says, but no row: one that wasn't lent lacked memory.
fn peek_other(alloc: Global, state: &State, payload: &[u8]) -> Result<Event, Fault>
    ensures peeks { Peeks (step state.now.standing payload.now) result }
    ensures row { IfOk result (λ event. is_row (event_view event) ≡ false) }
{
    let event = peek_event(alloc, state, payload)?;
    if is_row(&event) {
        Err(Fault::Memory)
    } else {
        Ok(event)
    }
}

// The same as `say_bytes` of a payload that is no row. One that is lacks memory.
fn say_other(
    alloc: Global,
    limits: Limits,
    side: Side,
    next: u8,
    state: &mut State,
    payload: &[u8],
) -> Result<Event, Fault>
    ensures says { SaysBy limits side next (step state.old.standing payload.now) result state.new.standing }
    ensures row { IfOk result (λ event. is_row (event_view event) ≡ false) }
    ensures err { OnErr result (state.new ≡ state.old) }
{
    payloads_are_in_turn();
    let event = peek_other(alloc, state, payload)?;
    match go_on(limits, side, next, state, &event, payload) {
        Ok(()) => Ok(event),
        Err(fault) => Err(fault),
    }
}

/// The same, but a row is read where it lies: `None`. It is never an event.
pub fn say_in_place(
    alloc: Global,
    limits: Limits,
    side: Side,
    next: u8,
    state: &mut State,
    payload: &[u8],
) -> Result<Option<Event>, Fault>
    requires { kept state.old.standing ≤ room_to_keep limits }
    ensures says { SaysInPlaceBy limits side next (step state.old.standing payload.now) payload.now
        result state.new }
    ensures err { OnErr result (state.new.standing ≡ state.old.standing) }
{
    if state.lend_row(payload) {
        state.set_number(side, next);
        Ok(None)
    } else {
        let event = say_other(alloc, limits, side, next, state, payload)?;
        Ok(Some(event))
    }
}

/// What a payload says that is lent or joined.
pub fn say(
    alloc: Global,
    limits: Limits,
    side: Side,
    next: u8,
    state: &mut State,
    payload: CowSlice<'_, u8>,
) -> Result<Event, Fault>
    ensures says { SaysBy limits side next (step state.old.standing (cow_slice_items payload.entry))
        result state.new.standing }
    ensures unclear { IfOk result (λ event.
        EventHasUnclear state.old.standing (cow_slice_items payload.entry) event) }
    ensures err { OnErr result (state.new ≡ state.old) }
{
    say_bytes(alloc, limits, side, next, state, payload.as_slice())
}

/// What the server's last words say, behind which this number comes next.
#[inline(never)]
pub fn bid(
    alloc: Global,
    limits: Limits,
    next: u8,
    state: &mut State,
    payload: CowSlice<'_, u8>,
) -> Result<Event, Fault>
    ensures says { SaysBy limits Server next (words_step state.old.standing (cow_slice_items payload.entry))
        result state.new.standing }
    ensures err { OnErr result (state.new ≡ state.old) }
{
    bid_bytes(alloc, limits, next, state, payload.as_slice())
}
