//! Packets and executions that are put. Packets of a connection give its bytes again. Executions have
//! types where those in force won't do, also those of packets that were put before.

use crate::connection::{Asserting, CONNECTION, begin};
use mysql_connection::{
    BadEvent, Capabilities, CapabilityFlags, CommandRefusal, Connection, MariadbCapabilities,
    PayloadRefusal, PutRefusal, SetsRefusal, Side,
};
use mysql_session::Value;
use std::alloc::Global;
use tests_support::{Assert, Given, assert_bytes, given_values, once_more};

// Puts all of some packets, for want of memory once more from there on: whether they were put.
fn put_packets(connection: &mut Connection, side: Side, packets: &[u8], out: &mut Vec<u8>) -> bool {
    match connection.put_packets(side, packets, out) {
        Ok(used) => used == packets.len(),
        Err(refusal) if refusal.cause == PayloadRefusal::Memory => {
            let rest = &packets[refusal.used.min(packets.len())..];
            connection.put_packets(side, rest, out) == Ok(rest.len())
        }
        Err(_) => false,
    }
}

#[test]
fn packets_of_both_sides(rt: HostRuntime) {
    let assert = Asserting(&rt);
    let mut connection = begin(rt.alloc(), None);
    let mut out = Vec::new(rt.alloc());
    for (side, packets) in CONNECTION {
        out.clear();
        assert.holds(put_packets(&mut connection, *side, packets, &mut out));
        assert_bytes(&assert, out.as_slice(), packets);
    }
}

// What is put: packets of a side, or an execution of a statement.
#[derive(Clone, Copy)]
enum Call {
    Packets(Side, &'static [u8]),
    Execution(u32, &'static [Given]),
}

// Puts an execution of values, for want of memory once more. Answers why it isn't put.
fn put_values(
    connection: &mut Connection,
    id: u32,
    values: &[Value],
    out: &mut Vec<u8>,
) -> Option<PutRefusal> {
    let put = match connection.put_execution(id, values, out) {
        Err(PutRefusal::Memory) => connection.put_execution(id, values, out),
        answer => answer,
    };
    put.err()
}

// Makes a call. Answers why it is refused.
fn refusal_of(
    assert: &impl Assert,
    alloc: Global,
    connection: &mut Connection,
    call: Call,
    out: &mut Vec<u8>,
) -> Option<PutRefusal> {
    match call {
        Call::Packets(side, packets) => {
            assert.holds(put_packets(connection, side, packets, out));
            None
        }
        Call::Execution(id, given) => {
            let values = once_more(
                assert,
                given_values(alloc, given),
                given_values(alloc, given),
            );
            put_values(connection, id, &values, out)
        }
    }
}

// A call, why it is refused, and what is appended.
type Step = (Call, Option<PutRefusal>, &'static [u8]);

const PREPARE: &[u8] = b"\x0c\0\0\0\x16SELECT ?, ?";

// The answer to the prepare: a statement with two parameters.
const PREPARED: &[u8] = b"\x0c\0\0\x01\0\x01\0\0\0\0\0\x02\0\0\0\0\
    \x17\0\0\x02\x03def\0\0\0\x01\x3f\0\x0c\x3f\0\0\0\0\0\xfd\x80\0\0\0\0\
    \x17\0\0\x03\x03def\0\0\0\x01\x3f\0\x0c\x3f\0\0\0\0\0\xfd\x80\0\0\0\0\
    \x05\0\0\x04\xfe\0\0\x02\0";

const OK: &[u8] = b"\x07\0\0\x01\0\0\0\x02\0\0\0";

// What the server says to each.
const ANSWER: Step = (Call::Packets(Side::Server, OK), None, OK);

// An execution of 7 and ab: with types.
const FIRST: &[u8] =
    b"\x1b\0\0\0\x17\x01\0\0\0\0\x01\0\0\0\0\x01\x08\0\xfd\0\x07\0\0\0\0\0\0\0\x02ab";

// A bulk execution of NULL and c, which carries types.
const BULK: &[u8] = b"\x0f\0\0\0\xfa\x01\0\0\0\x80\0\xfd\0\xfd\0\x01\0\x01c";

const PING: &[u8] = b"\x01\0\0\0\x0e";

const C: Given = Given::Bytes(b"c");

const STEPS: [Step; 24] = [
    (Call::Packets(Side::Client, PREPARE), None, PREPARE),
    (Call::Packets(Side::Server, PREPARED), None, PREPARED),
    (
        Call::Execution(1, &[Given::Int(7), Given::Bytes(b"ab")]),
        None,
        FIRST,
    ),
    ANSWER,
    // NULL and c, by the types of the first.
    (
        Call::Execution(1, &[Given::Null, C]),
        None,
        b"\x0e\0\0\0\x17\x01\0\0\0\0\x01\0\0\0\x01\0\x01c",
    ),
    ANSWER,
    // x and c: a text in the place of a number.
    (
        Call::Execution(1, &[Given::Bytes(b"x"), C]),
        None,
        b"\x14\0\0\0\x17\x01\0\0\0\0\x01\0\0\0\0\x01\xfd\0\xfd\0\x01x\x01c",
    ),
    ANSWER,
    // 5 without a sign, and c.
    (
        Call::Execution(1, &[Given::UInt(5), C]),
        None,
        b"\x1a\0\0\0\x17\x01\0\0\0\0\x01\0\0\0\0\x01\x08\x80\xfd\0\x05\0\0\0\0\0\0\0\x01c",
    ),
    ANSWER,
    // 6 without a sign, and c, by the types before.
    (
        Call::Execution(1, &[Given::UInt(6), C]),
        None,
        b"\x16\0\0\0\x17\x01\0\0\0\0\x01\0\0\0\0\0\x06\0\0\0\0\0\0\0\x01c",
    ),
    ANSWER,
    // A query numbered as none is due, an execution, and a bulk execution; then one by its types.
    (
        Call::Packets(Side::Client, b"\x09\0\0\x07\x03SELECT 1"),
        None,
        b"\x09\0\0\0\x03SELECT 1",
    ),
    ANSWER,
    (Call::Packets(Side::Client, FIRST), None, FIRST),
    ANSWER,
    (Call::Packets(Side::Client, BULK), None, BULK),
    ANSWER,
    (
        Call::Execution(1, &[Given::Bytes(b"x"), C]),
        None,
        b"\x10\0\0\0\x17\x01\0\0\0\0\x01\0\0\0\0\0\x01x\x01c",
    ),
    ANSWER,
    // Refused: of no statement, of too few values, and while an answer is due.
    (
        Call::Execution(9, &[Given::Int(1)]),
        Some(PutRefusal::BadEvent(BadEvent::Command(CommandRefusal::UnknownStatement))),
        b"",
    ),
    (
        Call::Execution(1, &[Given::Int(1)]),
        Some(PutRefusal::BadEvent(BadEvent::Command(CommandRefusal::WrongCount))),
        b"",
    ),
    (Call::Packets(Side::Client, PING), None, PING),
    (
        Call::Execution(1, &[Given::Int(1)]),
        Some(PutRefusal::NotDue),
        b"",
    ),
];

// The protocol of 4.1 with EOF packets, and MariaDB's bulk executions.
const IN_FORCE: Capabilities = Capabilities {
    protocol: CapabilityFlags::CLIENT_PROTOCOL_41,
    mariadb: MariadbCapabilities::MARIADB_CLIENT_STMT_BULK_OPERATIONS,
};

#[test]
fn executions(rt: HostRuntime) {
    let assert = Asserting(&rt);
    let mut connection = begin(rt.alloc(), Some(IN_FORCE));
    let mut out = Vec::new(rt.alloc());
    for (call, refused, bytes) in &STEPS {
        out.clear();
        let found = refusal_of(&assert, rt.alloc(), &mut connection, *call, &mut out);
        assert.holds(found == *refused);
        assert_bytes(&assert, out.as_slice(), bytes);
    }
}

// Puts sets of a statement, for want of memory once more.
fn put_sets(
    connection: &mut Connection,
    id: u32,
    places: usize,
    packets: &[u8],
    out: &mut Vec<u8>,
) -> Result<usize, SetsRefusal> {
    match connection.put_sets(id, places, packets, out) {
        Err(SetsRefusal::Packets(refusal)) if refusal.cause == PayloadRefusal::Memory => {
            connection.put_sets(id, places, packets, out)
        }
        answer => answer,
    }
}

// Two executions of 7 and ab.
const BOTH: &[u8] =
    b"\x1b\0\0\0\x17\x01\0\0\0\0\x01\0\0\0\0\x01\x08\0\xfd\0\x07\0\0\0\0\0\0\0\x02ab\
    \x1b\0\0\0\x17\x01\0\0\0\0\x01\0\0\0\0\x01\x08\0\xfd\0\x07\0\0\0\0\0\0\0\x02ab";

// An execution of a text of 12 bytes, which two parameters read to its end as abcde and a date.
const ONE_OR_TWO: &[u8] =
    b"\x1b\0\0\0\x17\x01\0\0\0\0\x01\0\0\0\0\x01\xfd\0\x0c\0\x05abcde\x04\xe8\x07\x02\x1d";

const CLOSE: &[u8] = b"\x05\0\0\0\x19\x01\0\0\0";

// The packets of a side that come before, the placeholders of the query whose sets are put, their
// packets, and what the call answers.
type SetsStep = (
    Option<(Side, &'static [u8])>,
    usize,
    &'static [u8],
    Result<usize, SetsRefusal>,
);

const SETS: [SetsStep; 9] = [
    (None, 2, FIRST, Err(SetsRefusal::UnknownStatement)),
    (
        Some((Side::Client, PREPARE)),
        2,
        FIRST,
        Err(SetsRefusal::UnknownStatement),
    ),
    (
        Some((Side::Server, PREPARED)),
        1,
        ONE_OR_TWO,
        Err(SetsRefusal::WrongCount(2)),
    ),
    (None, 3, FIRST, Err(SetsRefusal::WrongCount(2))),
    // The second waits for the answer to the first.
    (None, 2, BOTH, Ok(31)),
    (None, 2, FIRST, Ok(0)),
    (None, 1, FIRST, Err(SetsRefusal::WrongCount(2))),
    (Some((Side::Server, OK)), 2, BULK, Ok(19)),
    (Some((Side::Server, OK)), 2, b"", Ok(0)),
];

#[test]
fn sets(rt: HostRuntime) {
    let assert = Asserting(&rt);
    let mut connection = begin(rt.alloc(), Some(IN_FORCE));
    let mut out = Vec::new(rt.alloc());
    for (before, places, packets, wanted) in &SETS {
        if let Some((side, packets)) = before {
            assert.holds(put_packets(&mut connection, *side, packets, &mut out));
        }
        out.clear();
        let found = put_sets(&mut connection, 1, *places, packets, &mut out);
        assert.holds(found == *wanted);
        let taken = wanted.unwrap_or(0);
        assert_bytes(&assert, out.as_slice(), &packets[..taken]);
    }
    assert.holds(put_packets(&mut connection, Side::Client, CLOSE, &mut out));
    let closed = put_sets(&mut connection, 1, 2, FIRST, &mut out);
    assert.holds(closed == Err(SetsRefusal::UnknownStatement));
}
