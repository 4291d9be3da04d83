//! Payloads by themselves: commands and events of a reply, each read and put again; and what is in
//! force of a statement.

use crate::connection::{Asserting, Turn, are_said};
use mysql_connection::{
    Capabilities, CapabilityFlags, Command, CommandRefusal, EventReader, MariadbCapabilities,
    ReplyEvent, ReplyFault, ReplyKind, ReplyPutRefusal, Side, StatementParameters, put_command,
    put_event,
};
use std::alloc::Global;
use tests_support::{Assert, once_more};

// Those of a login with query attributes, EOF packets deprecated, and MariaDB's bulk executions.
const IN_FORCE: Capabilities = Capabilities {
    protocol: CapabilityFlags(0x09000200),
    mariadb: MariadbCapabilities(0x4),
};

// A query with an attribute, a prepare, an execution, long data, a bulk execution, a change of user and a payload of no
// command.
const COMMANDS: &[Turn] = &[
    (Side::Client, b"\x03\x01\x01\0\x01\xfd\0\x01n\x01xSELECT 1"),
    (Side::Client, b"\x16SELECT ?"),
    (
        Side::Client,
        b"\x17\x01\0\0\0\0\x01\0\0\0\x01\0\x01\xfd\0\0\x03abc",
    ),
    (Side::Client, b"\x18\x01\0\0\0\0\0abc"),
    (Side::Client, b"\xfa\x01\0\0\0\x80\0\xfd\0\0\x03abc\x02"),
    (Side::Client, b"\x11user\0answer\0shop\0"),
    (Side::Client, b"\x2bwhat"),
];

// Puts a command, for want of memory once more: whether it was put.
fn is_put(
    alloc: Global,
    parameters: &StatementParameters,
    command: &Command,
    out: &mut Vec<u8>,
) -> bool {
    match put_command(alloc, IN_FORCE, Some(parameters), command, out) {
        Err(CommandRefusal::Memory) => {
            put_command(alloc, IN_FORCE, Some(parameters), command, out).is_ok()
        }
        put => put.is_ok(),
    }
}

// Reads a command, for want of memory once more, and puts it.
fn assert_put(
    assert: &impl Assert,
    alloc: Global,
    parameters: &StatementParameters,
    payload: &[u8],
    out: &mut Vec<u8>,
) {
    let command = once_more(
        assert,
        Command::read(alloc, IN_FORCE, Some(parameters), payload),
        Command::read(alloc, IN_FORCE, Some(parameters), payload),
    );
    assert.holds(is_put(alloc, parameters, &command, out));
}

#[test]
fn commands(rt: HostRuntime) {
    let assert = Asserting(&rt);
    let alloc = rt.alloc();
    let mut parameters = StatementParameters::new(alloc, 1);
    let mut out = Vec::new(alloc);
    for (_, payload) in COMMANDS {
        assert_put(&assert, alloc, &parameters, payload, &mut out);
    }
    assert.holds(are_said(out.as_slice(), COMMANDS));
    // Each is done twice, as the first of them may be refused.
    let first = parameters.add_long_data(alloc, 0, b"abc").is_ok();
    let second = parameters.add_long_data(alloc, 0, b"abc").is_ok();
    assert.holds((first | second) & parameters.is_waiting());
    let first = parameters.execute(alloc, &[]).is_ok();
    let second = parameters.execute(alloc, &[]).is_ok();
    assert.holds((first | second) & !parameters.is_waiting());
}

// A count of columns, a column, a row and what ends rows.
const REPLY: &[Turn] = &[
    (Side::Server, b"\x01"),
    (
        Side::Server,
        b"\x03def\0\0\0\x01a\0\x0c\x3f\0\x01\0\0\0\xfd\0\0\0\0\0",
    ),
    (Side::Server, b"\x04text"),
    (Side::Server, b"\xfe\0\0\x02\0\0\0"),
];

// Puts an event, once more where memory ran out, as the writer is as it was then: whether it was put.
fn is_event_put(writer: &mut EventReader, event: &ReplyEvent, out: &mut Vec<u8>) -> bool {
    match put_event(writer, event, out) {
        Err(ReplyPutRefusal::Memory) => put_event(writer, event, out).is_ok(),
        put => put.is_ok(),
    }
}

// Reads all payloads, and puts each event again: whether all are put, and the last one ends rows.
fn read_and_put(
    reader: &mut EventReader,
    writer: &mut EventReader,
    out: &mut Vec<u8>,
) -> Result<bool, ReplyFault> {
    let (mut are_put, mut is_ended) = (true, false);
    for (_, payload) in REPLY {
        let event = reader.read(payload)?;
        is_ended = matches!(event, ReplyEvent::RowsEnd(_));
        are_put = is_event_put(writer, &event, out) && are_put;
    }
    Ok(are_put && is_ended)
}

// The same by new readers: whether the payloads are put as they were.
fn is_put_again(alloc: Global) -> Result<bool, ReplyFault> {
    let mut reader = EventReader::new(alloc, ReplyKind::Text, IN_FORCE, None);
    let mut writer = EventReader::new(alloc, ReplyKind::Text, IN_FORCE, None);
    let mut out = Vec::new(alloc);
    match read_and_put(&mut reader, &mut writer, &mut out) {
        Ok(is_well) => Ok(is_well && are_said(out.as_slice(), REPLY)),
        Err(fault) => Err(fault),
    }
}

#[test]
fn events(rt: HostRuntime) {
    let mut read = is_put_again(rt.alloc());
    if read == Err(ReplyFault::Memory) {
        read = is_put_again(rt.alloc());
    }
    Asserting(&rt).holds(read == Ok(true));
}
