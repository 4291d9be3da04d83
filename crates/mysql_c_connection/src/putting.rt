//! Payloads and packets that are put on a connection, behind the bytes that another handle refers
//! to.

ghost use Rattle.std.specs.Prelude.{◌≡◌, ◌≢◌, Err};
ghost use Rattle.mysql_connection_rules.specs.Streams.{from_login};
ghost use Rattle.mysql_c_connection.specs.Codes.{code_number, payload_refusal_number, side_numbered};
ghost use Rattle.mysql_c_connection.specs.Codes.{sets_refusal_number};
ghost use Rattle.mysql_c_connection.specs.Opened.{IsNewFrom, IsOpen};
ghost use Rattle.mysql_c_connection.specs.Putting.{ArePut, ArePutIn, IsPut, IsPutIn, OfBoth, OfSideAndBytes};
ghost use Rattle.mysql_c_connection.specs.Putting.{SetsArePut, SetsArePutIn, used_of_sets};

use crate::code::{ConnectionCode, side_of};
use crate::events::telling_event;
use crate::handle::Handle;
use crate::object::{Object, OpenConnection, WrittenLines};
use mysql_c_connection_events::ShownEvent;
use mysql_c_handles::{Handle as BytesHandle, Object as BytesObject};
use mysql_connection_machine::{Connection, PayloadRefusal, SetsRefusal};
use mysql_connection_rules::{Fault, Limits, Side};
use mysql_const::Capabilities;
use std::alloc::Global;

/// Makes the handle refer to a connection behind a login that was made elsewhere.
pub fn connection_after_login(
    alloc: Global,
    handle: &mut Handle,
    capabilities: Capabilities,
    client: usize,
    server: usize,
    held: usize,
) -> u32
    ensures made { result ≡ 0 → IsOpen handle.new.object (IsNewFrom (from_login
        (record { client = client; server = server; held = held }) capabilities)) }
    ensures kept { result ≢ 0 → (result ≡ 1) × (handle.new.object ≡ handle.old.object) }
{
    let limits = Limits {
        client,
        server,
        held,
    };
    let open = OpenConnection {
        connection: Connection::after_login(alloc, limits, capabilities),
        event: None,
        end: None,
        lines: WrittenLines::new(alloc),
    };
    match handle.set(alloc, Object::Open(open)) {
        Ok(()) => ConnectionCode::Done.number(),
        Err(_) => ConnectionCode::Memory.number(),
    }
}

/// The code of why a payload isn't put.
fn code_of(refusal: PayloadRefusal) -> ConnectionCode
    ensures { code_number result ≡ payload_refusal_number refusal }
{
    match refusal {
        PayloadRefusal::NotDue => ConnectionCode::NotDue,
        PayloadRefusal::TooLarge => ConnectionCode::Fault(Fault::TooLarge),
        PayloadRefusal::BadPayload(fault) => ConnectionCode::Fault(fault),
        PayloadRefusal::Held => ConnectionCode::Fault(Fault::Held),
        PayloadRefusal::Memory => ConnectionCode::Memory,
    }
}

/// The code of why sets aren't put.
fn code_of_sets(refusal: SetsRefusal) -> ConnectionCode
    ensures { code_number result ≡ sets_refusal_number refusal }
{
    match refusal {
        SetsRefusal::UnknownStatement => ConnectionCode::UnknownStatement,
        SetsRefusal::WrongCount(_) => ConnectionCode::WrongCount,
        SetsRefusal::Packets(refusal) => code_of(refusal.cause),
    }
}

/// How many bytes of the packets were taken before a refusal.
fn used_before(refusal: SetsRefusal) -> usize
    ensures { result ≡ used_of_sets (Err refusal) }
{
    match refusal {
        SetsRefusal::Packets(refusal) => refusal.used,
        _ => 0,
    }
}

impl OpenConnection {
    /// Puts a payload, and shows the event that it says.
    fn put(
        &mut self,
        side: Side,
        payload: &[u8],
        out: &mut Vec<u8>,
        shown: &mut ShownEvent,
    ) -> ConnectionCode
        ensures { IsPut side payload.now (code_number result) self.old out.old.items self.new
            out.new.items shown.new }
    {
        match self.connection.put_payload(side, payload, out) {
            Ok(event) => {
                *shown = telling_event(&self.connection, &event);
                self.lines.clear();
                self.end = None;
                self.event = Some(event);
                ConnectionCode::Done
            }
            Err(refusal) => code_of(refusal),
        }
    }

    /// Puts the payloads of packets, and tells how many bytes of the packets were taken.
    fn put_packets(
        &mut self,
        side: Side,
        packets: &[u8],
        out: &mut Vec<u8>,
        used: &mut usize,
    ) -> ConnectionCode
        ensures { ArePut side packets.now (code_number result) self.old out.old.items self.new
            out.new.items used.new }
    {
        match self.connection.put_packets(side, packets, out) {
            Ok(taken) => {
                *used = taken;
                ConnectionCode::Done
            }
            Err(refusal) => {
                *used = refusal.used;
                code_of(refusal.cause)
            }
        }
    }

    /// Puts packets of a query's sets, and tells how many bytes of the packets were taken.
    fn put_sets(
        &mut self,
        id: u32,
        places: usize,
        packets: &[u8],
        out: &mut Vec<u8>,
        used: &mut usize,
    ) -> ConnectionCode
        ensures { SetsArePut id places packets.now (code_number result) self.old out.old.items
            self.new out.new.items used.new }
    {
        match self.connection.put_sets(id, places, packets, out) {
            Ok(taken) => {
                *used = taken;
                ConnectionCode::Done
            }
            Err(refusal) => {
                *used = used_before(refusal);
                code_of_sets(refusal)
            }
        }
    }
}

/// Puts a payload on the connection that an object is, behind the bytes that another one is.
fn put_in(
    object: &mut Object,
    side: Side,
    payload: &[u8],
    out: &mut BytesObject,
    shown: &mut ShownEvent,
) -> ConnectionCode
    ensures { OfBoth object.old out.old (code_number result) object.new out.new
        (IsPutIn side payload.now (code_number result) object.new out.new shown.new) }
{
    let Object::Open(open) = object else {
        return ConnectionCode::EmptyHandle;
    };
    match out {
        BytesObject::Bytes(bytes) => open.put(side, payload, bytes, shown),
        BytesObject::Empty => ConnectionCode::EmptyHandle,
        _ => ConnectionCode::OtherKind,
    }
}

/// Puts a payload of a side at its turn.
///
/// Its packets are appended to the bytes that a handle refers to, and the event that it says is
/// shown.
///
/// Promise: this payload is put, and its event held and shown; or it is refused, and nothing has
/// changed (`IsPut`).
pub fn connection_put(
    alloc: Global,
    handle: &mut Handle,
    side: u32,
    payload: &[u8],
    out: &mut BytesHandle,
    shown: &mut ShownEvent,
) -> u32
    ensures { OfSideAndBytes (side_numbered side) handle.old.object out.old.object result
        handle.new.object out.new.object
        (λ which. IsPutIn which payload.now result handle.new.object out.new.object shown.new) }
{
    let Some(side) = side_of(side) else {
        return ConnectionCode::NoSuchSide.number();
    };
    let Some(mut object) = handle.take(alloc) else {
        return ConnectionCode::EmptyHandle.number();
    };
    let Some(mut bytes) = out.take(alloc) else {
        handle.put(object);
        return ConnectionCode::EmptyHandle.number();
    };
    let code = put_in(&mut object, side, payload, &mut bytes, shown);
    handle.put(object);
    out.put(bytes);
    code.number()
}

/// Puts the payloads of packets on the connection that an object is, behind the bytes that another one
/// is.
fn put_packets_in(
    object: &mut Object,
    side: Side,
    packets: &[u8],
    out: &mut BytesObject,
    used: &mut usize,
) -> ConnectionCode
    ensures { OfBoth object.old out.old (code_number result) object.new out.new
        (ArePutIn side packets.now (code_number result) object.new out.new used.new) }
{
    let Object::Open(open) = object else {
        return ConnectionCode::EmptyHandle;
    };
    match out {
        BytesObject::Bytes(bytes) => open.put_packets(side, packets, bytes, used),
        BytesObject::Empty => ConnectionCode::EmptyHandle,
        _ => ConnectionCode::OtherKind,
    }
}

/// Puts the payloads of packets of a side, one after another, as long as it is its turn.
///
/// Promise: they are put as the machine puts them. It is told how many bytes of the packets were
/// taken, also where one is refused. The event that was told last stays (`ArePut`).
pub fn connection_put_packets(
    alloc: Global,
    handle: &mut Handle,
    side: u32,
    packets: &[u8],
    out: &mut BytesHandle,
    used: &mut usize,
) -> u32
    ensures { OfSideAndBytes (side_numbered side) handle.old.object out.old.object result
        handle.new.object out.new.object
        (λ which. ArePutIn which packets.now result handle.new.object out.new.object used.new) }
{
    let Some(side) = side_of(side) else {
        return ConnectionCode::NoSuchSide.number();
    };
    let Some(mut object) = handle.take(alloc) else {
        return ConnectionCode::EmptyHandle.number();
    };
    let Some(mut bytes) = out.take(alloc) else {
        handle.put(object);
        return ConnectionCode::EmptyHandle.number();
    };
    let code = put_packets_in(&mut object, side, packets, &mut bytes, used);
    handle.put(object);
    out.put(bytes);
    code.number()
}

/// Puts packets of a query's sets on the connection that an object is, behind the bytes that another
/// one is.
fn put_sets_in(
    object: &mut Object,
    id: u32,
    places: usize,
    packets: &[u8],
    out: &mut BytesObject,
    used: &mut usize,
) -> ConnectionCode
    ensures { OfBoth object.old out.old (code_number result) object.new out.new
        (SetsArePutIn id places packets.now (code_number result) object.new out.new used.new) }
{
    let Object::Open(open) = object else {
        return ConnectionCode::EmptyHandle;
    };
    match out {
        BytesObject::Bytes(bytes) => open.put_sets(id, places, packets, bytes, used),
        BytesObject::Empty => ConnectionCode::EmptyHandle,
        _ => ConnectionCode::OtherKind,
    }
}

/// Puts packets of a query's sets, if the statement has as many parameters as the query placeholders.
///
/// Promise: they are put as the machine puts them, or refused for another count. It is told how
/// many bytes of the packets were taken, also where one is refused. The event that was told last
/// stays (`SetsArePut`).
pub fn connection_put_sets(
    alloc: Global,
    handle: &mut Handle,
    id: u32,
    places: usize,
    packets: &[u8],
    out: &mut BytesHandle,
    used: &mut usize,
) -> u32
    ensures { OfBoth handle.old.object out.old.object result handle.new.object out.new.object
        (SetsArePutIn id places packets.now result handle.new.object out.new.object used.new) }
{
    let Some(mut object) = handle.take(alloc) else {
        return ConnectionCode::EmptyHandle.number();
    };
    let Some(mut bytes) = out.take(alloc) else {
        handle.put(object);
        return ConnectionCode::EmptyHandle.number();
    };
    let code = put_sets_in(&mut object, id, places, packets, &mut bytes, used);
    handle.put(object);
    out.put(bytes);
    code.number()
}
