//! OK and EOF packets, read and written as those of their kinds.

use crate::session_states::assert_put;
use crate::support::{Asserting, assert_behind, assert_shown, front};
use mysql_buf::ParseBuf;
use mysql_const::{CapabilityFlags, MariadbStatusFlags, StatusFlags};
use mysql_fields::WireError;
use mysql_ok_packets::{
    CommonOkPacket, NetworkStreamTerminator, OkPacket, OkPacketDeserializer, OkPacketKind,
    OldEofPacket, ResultSetTerminator, has_mysql_status, has_named_status,
};
use std::alloc::Global;
use std::borrow::CowSlice;
use tests_support::{
    Assert, again, assert_copied, assert_cut_off, assert_equal, assert_refused, first_of, whole,
};

const NONE: CapabilityFlags = CapabilityFlags::CLIENT_PROTOCOL_41;

const TRACKED: CapabilityFlags = CapabilityFlags(0x80_0200);

const AUTOCOMMIT: StatusFlags = StatusFlags(2);

const CHANGED: StatusFlags = StatusFlags(0x4002);

/// MariaDB's status where double quotes are of names.
const ANSI_QUOTES: StatusFlags = StatusFlags(0x8002);

/// What a packet says: rows, id, status, warnings, info and session state.
type Says = (
    u64,
    Option<u64>,
    StatusFlags,
    u16,
    Option<&'static [u8]>,
    Option<&'static [u8]>,
);

/// That a row was changed, and nothing else.
const ROW: Says = (1, None, AUTOCOMMIT, 0, None, None);

const NOTHING: Says = (0, None, AUTOCOMMIT, 0, None, None);

fn assert_says(assert: &impl Assert, packet: &OkPacket<'_>, says: &Says) {
    assert_equal(assert, packet.affected_rows(), says.0);
    assert_equal(assert, packet.last_insert_id(), says.1);
    assert_equal(assert, packet.status_flags(), says.2);
    assert_equal(assert, packet.warnings(), says.3);
    assert.holds(packet.info_ref() == says.4);
    assert.holds(packet.session_state_info_ref() == says.5);
}

/// Asserts that a packet is written as one of the kind `T` with this status in place of its own.
fn assert_written_as<T: OkPacketKind>(
    assert: &impl Assert,
    alloc: Global,
    (capabilities, status): (CapabilityFlags, StatusFlags),
    packet: &OkPacket<'_>,
    bytes: &[u8],
) {
    let mut out = front(assert, alloc);
    let first = packet.serialize_as::<T>(capabilities, status, &mut out);
    let second = packet.serialize_as::<T>(capabilities, status, &mut out);
    assert_behind(assert, &out, first.is_ok(), second.is_ok(), bytes);
}

/// The client's capabilities, bytes, and what the packet says that stands first in them. Then come
/// how many bytes are left behind it, and how it is written again.
type Read = (CapabilityFlags, &'static [u8], Says, usize, &'static [u8]);

/// Asserts what bytes are read as: whole, and behind the header alone.
fn assert_read<T: OkPacketKind>(
    assert: &impl Assert,
    alloc: Global,
    (capabilities, bytes, says, left, put): &Read,
) {
    let mut buf = ParseBuf(*bytes);
    let read = first_of::<OkPacketDeserializer<T>, CapabilityFlags>(
        assert,
        alloc,
        *capabilities,
        &mut buf,
    );
    assert_equal(assert, buf.len(), *left);
    assert_copied(assert, &read, read.clone(alloc), read.clone(alloc));
    let packet = read.into_inner();
    assert_says(assert, &packet, says);
    assert_written_as::<T>(assert, alloc, (*capabilities, says.2), &packet, *put);
    let (_, body) = bytes.split_at(bytes.len().min(1));
    let mut buf = ParseBuf(body);
    let mut again = ParseBuf(body);
    let first = T::parse_body(alloc, *capabilities, &mut buf);
    let second = T::parse_body(alloc, *capabilities, &mut again);
    let body = tests_support::once_more(assert, first, second);
    let same = tests_support::once_more(assert, OkPacket::try_from(body), Err(WireError::Memory));
    assert_equal(assert, buf.len().min(again.len()), *left);
    assert_equal(assert, packet, same);
}

const DONE: &[u8] = b"\x00\x01\x00\x02\x00\x00\x00";

const WITH_INFO: &[u8] = b"\x00\x01\x00\x02\x00\x00\x00\x02ok";

const STATE: &[u8] = b"\x00\x0f\x0aautocommit\x03OFF";

/// An OK packet with a session state.
const WITH_STATE: &[u8] = b"\x00\x00\x00\x02\x40\x00\x00\x00\x11\x00\x0f\x0aautocommit\x03OFF";

const INFO: Says = (1, None, AUTOCOMMIT, 0, Some(b"ok"), None);

/// Where no session states are sent a zero in the place of the info's length is left.
const COMMON: [Read; 9] = [
    (
        NONE,
        b"\x00\x01\x00\x02\x80\x00\x00",
        (1, None, ANSI_QUOTES, 0, None, None),
        0,
        b"\x00\x01\x00\x02\x80\x00\x00",
    ),
    (NONE, DONE, ROW, 0, DONE),
    (TRACKED, DONE, ROW, 0, DONE),
    (NONE, WITH_INFO, INFO, 0, WITH_INFO),
    (TRACKED, WITH_INFO, INFO, 0, WITH_INFO),
    (
        TRACKED,
        WITH_STATE,
        (0, None, CHANGED, 0, None, Some(STATE)),
        0,
        WITH_STATE,
    ),
    (NONE, b"\x00\x01\x00\x02\x00\x00\x00\x00", ROW, 1, DONE),
    (
        NONE,
        b"\x00\x01\x00\x02\x00\x00\x00\x00\x02ok",
        ROW,
        4,
        DONE,
    ),
    (
        NONE,
        b"\x00\x01\x05\x02\x00\x03\x00\x02ok!",
        (1, Some(5), AUTOCOMMIT, 3, Some(b"ok"), None),
        1,
        b"\x00\x01\x05\x02\x00\x03\x00\x02ok",
    ),
];

/// A terminator's info follows its numbers, of which the two first are passed over.
const TERMINATORS: [Read; 3] = [
    (
        TRACKED,
        b"\xfe\x00\x00\x00\x00\x00\x00\x02ok",
        (0, None, StatusFlags(0), 0, Some(b"ok"), None),
        0,
        b"\xfe\x00\x00\x00\x00\x00\x00\x02ok",
    ),
    (
        NONE,
        b"\xfe\x05\xfc\x2c\x01\x02\x00\x03\x00",
        (0, None, AUTOCOMMIT, 3, None, None),
        0,
        b"\xfe\x00\x00\x02\x00\x03\x00",
    ),
    (
        NONE,
        b"\xfe\x01\x01\x02\x00\x00\x00\x02ok",
        (0, None, AUTOCOMMIT, 0, Some(b"ok"), None),
        0,
        b"\xfe\x00\x00\x02\x00\x00\x00\x02ok",
    ),
];

const EOFS: [Read; 2] = [
    (
        NONE,
        b"\xfe\x00\x00\x02\x00",
        NOTHING,
        0,
        b"\xfe\x00\x00\x02\x00",
    ),
    (
        NONE,
        b"\xfe\x01\x00\x02\x00!",
        (0, None, AUTOCOMMIT, 1, None, None),
        1,
        b"\xfe\x01\x00\x02\x00",
    ),
];

/// Read as a terminator, a common OK packet is refused. The terminator of a binlog stream is read in
/// the same way as one of rows. Behind the warnings nothing has to follow.
#[test]
fn kinds(rt: HostRuntime) {
    let a = Asserting(&rt);
    let alloc = rt.alloc();
    for row in &COMMON {
        assert_read::<CommonOkPacket>(&a, alloc, row);
    }
    for row in &TERMINATORS {
        assert_read::<ResultSetTerminator>(&a, alloc, row);
    }
    for row in &EOFS {
        assert_read::<OldEofPacket>(&a, alloc, row);
        assert_read::<NetworkStreamTerminator>(&a, alloc, row);
    }
    for (from, to) in [(0, 7), (8, WITH_STATE.len())] {
        assert_cut_off::<OkPacketDeserializer<CommonOkPacket>, CapabilityFlags>(
            &a, alloc, TRACKED, WITH_STATE, from, to,
        );
    }
    let cause = WireError::BadConstant;
    assert_refused::<OkPacketDeserializer<ResultSetTerminator>, CapabilityFlags>(
        &a, alloc, NONE, DONE, cause,
    );
}

fn borrowed(bytes: Option<&'static [u8]>) -> Option<CowSlice<'static, u8>> {
    match bytes {
        Some(bytes) => Some(CowSlice::Borrowed(bytes)),
        None => None,
    }
}

/// The packet of these rows, id, status, warnings, info and session state.
fn made((rows, id, status, warnings, info, state): Says) -> OkPacket<'static> {
    OkPacket::new(rows, id, status, warnings, borrowed(info), borrowed(state))
}

const WITH_ONE: Says = (0, None, CHANGED, 0, None, Some(STATE));

/// A packet's fields, the client's capabilities, the status in place of its own, and how it is written.
const MADE: [(Says, CapabilityFlags, StatusFlags, &[u8]); 6] = [
    (NOTHING, NONE, AUTOCOMMIT, b"\x00\x00\x00\x02\x00\x00\x00"),
    (
        (0, Some(0), AUTOCOMMIT, 0, Some(b""), Some(b"")),
        TRACKED,
        AUTOCOMMIT,
        b"\x00\x00\x00\x02\x00\x00\x00",
    ),
    // Another result follows.
    (
        (1, Some(300), AUTOCOMMIT, 1, Some(b"ok"), None),
        NONE,
        StatusFlags(0xa),
        b"\x00\x01\xfc\x2c\x01\x0a\x00\x01\x00\x02ok",
    ),
    (WITH_ONE, TRACKED, CHANGED, WITH_STATE),
    // The same for a client to which states aren't sent, and where the status says that none changed.
    (WITH_ONE, NONE, CHANGED, b"\x00\x00\x00\x02\x40\x00\x00"),
    (
        WITH_ONE,
        TRACKED,
        AUTOCOMMIT,
        b"\x00\x00\x00\x02\x00\x00\x00",
    ),
];

#[test]
fn made_and_written(rt: HostRuntime) {
    let a = Asserting(&rt);
    let alloc = rt.alloc();
    for (says, capabilities, status, bytes) in &MADE {
        let packet = made(*says);
        assert_written_as::<CommonOkPacket>(&a, alloc, (*capabilities, *status), &packet, *bytes);
        assert_copied(&a, &packet, packet.clone(alloc), packet.clone(alloc));
        let first = made(*says).into_owned(alloc);
        assert_copied(&a, &packet, first, made(*says).into_owned(alloc));
        drop(packet);
    }
    // An empty text is none, and the id 0 neither.
    assert_equal(&a, made(MADE[1].0), made(NOTHING));
    let is_named = has_named_status(AUTOCOMMIT) & has_named_status(ANSI_QUOTES);
    a.holds(is_named & !has_named_status(StatusFlags(4)));
    a.holds(has_mysql_status(AUTOCOMMIT) & !has_mysql_status(ANSI_QUOTES));
    let of_mariadb = made((0, None, ANSI_QUOTES, 0, None, None));
    let quotes = MariadbStatusFlags::SERVER_STATUS_ANSI_QUOTES;
    assert_equal(&a, of_mariadb.mariadb_status_flags(), quotes);
    drop(of_mariadb);
}

/// Asserts which states a packet has, or why there are none.
fn assert_states(
    assert: &impl Assert,
    alloc: Global,
    packet: &OkPacket<'_>,
    wanted: Result<&[u8], &str>,
) {
    match wanted {
        Ok(bytes) => {
            let states = again!(assert, packet.session_state_info(alloc));
            assert_put(assert, alloc, &states, bytes);
            drop(states);
        }
        Err(refusal) => {
            let first = packet.session_state_info(alloc);
            assert_shown(
                assert,
                alloc,
                first,
                packet.session_state_info(alloc),
                refusal,
            );
        }
    }
}

/// Packets, the text of their info, and their states or why there are none.
const WITH_STATES: [(&[u8], &str, Result<&[u8], &str>); 8] = [
    (DONE, "Ok(None)", Ok(b"")),
    (WITH_INFO, "Ok(Some(\"ok\"))", Ok(b"")),
    (WITH_STATE, "Ok(None)", Ok(STATE)),
    (
        b"\x00\x00\x00\x02\x40\x00\x00\x00\x07\x01\x05\x04test",
        "Ok(None)",
        Ok(b"\x01\x05\x04test"),
    ),
    (
        b"\x00\x00\x00\x02\x40\x00\x00\x00\x04\x02\x02\x011",
        "Ok(None)",
        Ok(b"\x02\x02\x011"),
    ),
    (
        b"\x00\x00\x00\x02\x40\x00\x00\x00\x09\x02\x02\x011\x01\x03\x02db",
        "Ok(None)",
        Ok(b"\x02\x02\x011\x01\x03\x02db"),
    ),
    // As MariaDB writes it, which leaves the inner length out.
    (
        b"\x00\x00\x00\x02\x40\x00\x00\x00\x03\x02\x011",
        "Ok(None)",
        Ok(b"\x02\x011"),
    ),
    // A state of a type without a name: the packet is read, and its states aren't.
    (
        b"\x00\x00\x00\x02\x40\x00\x00\x00\x02\x06\x00",
        "Ok(None)",
        Err("Err(UnknownValue)"),
    ),
];

/// What the states are decoded to stands in session_states.rt.
#[test]
fn texts_and_states(rt: HostRuntime) {
    let a = Asserting(&rt);
    let alloc = rt.alloc();
    for (bytes, info, states) in &WITH_STATES {
        let read = whole::<OkPacketDeserializer<CommonOkPacket>, CapabilityFlags>(
            &a, alloc, TRACKED, *bytes,
        );
        let packet = OkPacket::from(read);
        assert_shown(
            &a,
            alloc,
            packet.info_str(alloc),
            packet.info_str(alloc),
            *info,
        );
        assert_states(&a, alloc, &packet, *states);
        drop(packet);
    }
}
