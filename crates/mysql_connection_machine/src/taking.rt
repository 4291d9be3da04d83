//! The first payload of a stream, taken from it.

ghost use Rattle.std.specs.Prelude.{◌≡◌, ◌+◌, ◌≤◌, IfOk, IfSome, OnErr};
ghost use Rattle.mysql_wire.specs.FirstPacket.{first_packet};
ghost use Rattle.mysql_connection_machine.specs.Machines.{FoundHasUnclear};
ghost use Rattle.mysql_connection_machine.specs.Takes.{FindsIn, IsLentFrom, IsLentWhereOne};
ghost use Rattle.mysql_connection_machine.specs.Takes.{TakesBy, TakesLentBy};
ghost use Rattle.mysql_connection_state.specs.Peeks.{words_step};
ghost use Rattle.mysql_connection_rules.specs.Standing.{kept};
ghost use Rattle.mysql_connection_rules.specs.Steps.{step};
ghost use Rattle.mysql_connection_rules.specs.Streams.{limit_of, room_to_keep};
ghost use Rattle.mysql_connection_rules.specs.declared.side.Side.TheVariants.{Server};

use crate::lent_event::LentEvent;
use crate::room::limit_of;
use crate::saying::{bid, say, say_bytes, say_in_place};
use crate::stream_buffer::StreamBuffer;
use mysql_connection_rules::{Fault, Limits, Side};
use mysql_connection_state::{Event, State};
use mysql_wire::{FirstPacket, first_packet, one_chunk};
use std::alloc::Global;
use std::borrow::CowSlice;

/// The first packet of a stream.
#[derive(Drop)]
pub struct Packet<'a> {
    payload: CowSlice<'a, u8>,
    next: u8,
    used: usize,
}

// The first packet, where it is whole. Most have one chunk, and pay for nothing else.
#[tactic(auto, using(crate::proofs::Lending::joined_of_many))]
fn find_packet(
    alloc: Global,
    limit: usize,
    number: u8,
    bytes: &[u8],
) -> Result<Option<Packet<'_>>, Fault>
    ensures found { FindsIn limit number bytes.now result }
    ensures lent { IsLentFrom bytes.now result }
    ensures one { IsLentWhereOne (first_packet limit number bytes.now) result }
{
    match one_chunk(limit, number, bytes) {
        Some(payload) => Ok(Some(Packet {
            payload: CowSlice::Borrowed(payload),
            next: number.wrapping_add(1),
            used: 4 + payload.len(),
        })),
        None => find_chunks(alloc, limit, number, bytes),
    }
}

// The first packet, whatever chunks it has.
#[inline(never)]
fn find_chunks(
    alloc: Global,
    limit: usize,
    number: u8,
    bytes: &[u8],
) -> Result<Option<Packet<'_>>, Fault>
    ensures found { FindsIn limit number bytes.now result }
    ensures lent { IsLentFrom bytes.now result }
{
    match first_packet(alloc, limit, number, bytes)? {
        FirstPacket::Short => Ok(None),
        FirstPacket::TooLarge => Err(Fault::TooLarge),
        FirstPacket::OutOfSync(number) => Err(Fault::OutOfSync(number)),
        FirstPacket::Whole {
            payload,
            next,
            used,
        } => Ok(Some(Packet {
            payload,
            next,
            used,
        })),
    }
}

// The first packet of a stream, where it is whole and 64 bits tell the place behind it.
#[inline]
fn first_of(
    alloc: Global,
    limit: usize,
    number: u8,
    stream: &StreamBuffer,
) -> Result<Option<Packet<'_>>, Fault>
    ensures found { FindsIn limit number stream.now.stream.bytes result }
    ensures lent { IsLentFrom stream.now.stream.bytes result }
    ensures one { IsLentWhereOne (first_packet limit number stream.now.stream.bytes) result }
    ensures place { IfOk result (λ found. IfSome found (λ packet.
        stream.now.stream.read + packet.used ≤ u64.MAX)) }
{
    let found = find_packet(alloc, limit, number, stream.as_slice())?;
    match &found {
        Some(packet) if !stream.can_advance(packet.used) => Err(Fault::Memory),
        _ => Ok(found),
    }
}

/// The payload of a side whose turn it is.
pub fn take_packet(
    alloc: Global,
    limits: Limits,
    side: Side,
    state: &mut State,
    stream: &mut StreamBuffer,
) -> Result<Option<Event>, Fault>
    ensures taken { TakesBy limits side (step state.old.standing)
        (first_packet (limit_of side limits) state.old.standing.number stream.old.stream.bytes)
        state.old.standing stream.old.stream result state.new.standing stream.new.stream }
    ensures unclear { IfOk result (λ found. IfSome found (λ event. FoundHasUnclear
        (first_packet (limit_of side limits) state.old.standing.number stream.old.stream.bytes)
        state.old.standing event)) }
    ensures err { OnErr result (state.new ≡ state.old) }
    ensures stream { OnErr result (stream.new.stream ≡ stream.old.stream) }
{
    let limit = limit_of(side, limits);
    let number = state.number();
    let Some(packet) = first_of(alloc, limit, number, stream)? else {
        return Ok(None);
    };
    let Packet {
        payload,
        next,
        used,
    } = packet;
    match say(alloc, limits, side, next, state, payload) {
        Ok(event) => {
            stream.advance(used);
            Ok(Some(event))
        }
        Err(fault) => Err(fault),
    }
}

/// The payload of a side whose turn it is; each row of one chunk is lent.
#[tactic(auto, using(crate::proofs::Lending::no_row_lent))]
pub fn take_lent(
    alloc: Global,
    limits: Limits,
    side: Side,
    state: &mut State,
    stream: &mut StreamBuffer,
) -> Result<Option<LentEvent>, Fault>
    requires { kept state.old.standing ≤ room_to_keep limits }
    ensures taken { TakesLentBy limits side (step state.old.standing)
        (first_packet (limit_of side limits) state.old.standing.number stream.old.stream.bytes)
        state.old.standing stream.old.stream result state.new stream.new }
    ensures err { OnErr result (state.new.standing ≡ state.old.standing) }
    ensures stream { OnErr result (stream.new.stream ≡ stream.old.stream) }
{
    let limit = limit_of(side, limits);
    let number = state.number();
    let Some(packet) = first_of(alloc, limit, number, stream)? else {
        return Ok(None);
    };
    let Packet {
        payload,
        next,
        used,
    } = packet;
    match payload {
        CowSlice::Owned(joined) => {
            match say_bytes(alloc, limits, side, next, state, joined.as_slice()) {
                Ok(event) => {
                    stream.advance(used);
                    Ok(Some(LentEvent::Event(event)))
                }
                Err(fault) => Err(fault),
            }
        }
        CowSlice::Borrowed(lent) => {
            let said = match say_in_place(alloc, limits, side, next, state, lent) {
                Ok(said) => said,
                Err(fault) => return Err(fault),
            };
            match said {
                None => {
                    stream.lend(used);
                    Ok(Some(LentEvent::Row))
                }
                Some(event) => {
                    stream.advance(used);
                    Ok(Some(LentEvent::Event(event)))
                }
            }
        }
    }
}

/// The server's last words, in a packet with this number.
#[inline(never)]
pub fn take_words(
    alloc: Global,
    limits: Limits,
    number: u8,
    state: &mut State,
    server: &mut StreamBuffer,
) -> Result<Option<Event>, Fault>
    ensures taken { TakesBy limits Server (words_step state.old.standing)
        (first_packet limits.server number server.old.stream.bytes)
        state.old.standing server.old.stream result state.new.standing server.new.stream }
    ensures err { OnErr result (state.new ≡ state.old) }
    ensures stream { OnErr result (server.new.stream ≡ server.old.stream) }
{
    let Some(packet) = first_of(alloc, limits.server, number, server)? else {
        return Ok(None);
    };
    let Packet {
        payload,
        next,
        used,
    } = packet;
    match bid(alloc, limits, next, state, payload) {
        Ok(event) => {
            server.advance(used);
            Ok(Some(event))
        }
        Err(fault) => Err(fault),
    }
}
