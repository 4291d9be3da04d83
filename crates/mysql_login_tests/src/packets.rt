//! Packets by their own readers: read, written again, cut off at each place, and refused. What they
//! say stands in rows, but for what no connection reads.

use crate::support::{Asserting, assert_reads, assert_writes, lent, texts};
use indexmap::IndexMap;
use mysql_const::{CapabilityFlags, MariadbCapabilities};
use mysql_fields::WireError;
use mysql_login::{
    AuthMoreData, AuthPlugin, AuthSwitchRequest, ComBinlogDump, ComBinlogDumpGtid, ComChangeUser,
    ComChangeUserMoreData, ComRegisterSlave, ComTableDump, HandshakePacket, HandshakeResponse,
    OldAuthSwitchRequest, PublicKeyRequest, PublicKeyResponse, SemiSyncAckPacket, SslRequest,
};
use std::alloc::{AllocError, Global};
use tests_support::{
    assert_copied, assert_cut_off, assert_reads_back, assert_refused, once_more, whole,
};

/// A server's request for native passwords.
pub const SWITCH: &[u8] = b"\xfemysql_native_password\x00zQg4i6oNy6=rHN/>-b)A\x00";

/// The handshake of a MariaDB server.
const MARIADB: &[u8] =
    b"\x0a5.5.5-10.0.17-MariaDB-log\x00\x0b\x00\x00\x00dvH@I-CJ\x00\xff\xf7\x08\x02\x00\x00\x00\x00\
    \x00\x00\x00\x00\x00\x00\x00\x00\x00\x00*4d|cZwk4^]:\x00";

/// The handshake of a MySQL server. The name of a plugin may end anywhere, so that 58 bytes are one.
pub const MYSQL: &[u8] =
    b"\x0a5.6.4-m7-log\x00\x56\x0a\x00\x00RB3vz&Gr\x00\xff\xff\x08\x02\x00\x0f\xc0\x15\x00\x00\x00\
    \x00\x00\x00\x00\x00\x00\x00+yD&/ZZ305ZG\x00mysql_native_password\x00";

/// The same with one more zero behind the name, which is written without it.
const WITH_A_ZERO_MORE: &[u8] =
    b"\x0a5.6.4-m7-log\x00\x56\x0a\x00\x00RB3vz&Gr\x00\xff\xff\x08\x02\x00\x0f\xc0\x15\x00\x00\x00\
    \x00\x00\x00\x00\x00\x00\x00+yD&/ZZ305ZG\x00mysql_native_password\x00\x00";

pub const WITH_ATTRIBUTES: &[u8] =
    b"\x0d\xa2\xbe\x81\0\0\0\x01\x2d\0\0\0\0\0\0\0\0\0\0\0\0\0\0\0\0\0\0\0\0\0\0\0root\0\0mydb\0mys\
    ql_native_password\0\x04\x01a\x011";

const SECURE: &[u8] =
    b"\x05\xa2\xae\x81\x00\x00\x00\x01\x2d\0\0\0\0\0\0\0\0\0\0\0\0\0\0\0\0\0\0\0\x04\0\0\0";

/// Bytes that are refused by a reader that wants another first byte.
const OTHERS: [(&[u8], WireError); 1] = [(b"\x55", WireError::BadConstant)];

const NO_HANDSHAKE: [(&[u8], WireError); 1] = [(
    b"\x0a5.5.5-10.0.17-MariaDB-log\x00\x0b\x00\x00\x00dvH@I-CJ\x00\xff\xf7\x08\x04\x00\x00\x00\x00\
    \x00\x00\x00\x00\x00\x00\x00\x00\x00\x00*4d|cZwk4^]:\x00",
    WireError::UnknownValue,
)];

#[test]
fn of_logging_in(rt: HostRuntime) {
    let assert = Asserting(&rt);
    let alloc = rt.alloc();
    assert_reads::<HandshakePacket>(&assert, alloc, MARIADB, MARIADB.len(), &NO_HANDSHAKE);
    assert_reads::<HandshakePacket>(&assert, alloc, MYSQL, 58, &[]);
    let packet = whole::<HandshakePacket, ()>(&assert, alloc, (), WITH_A_ZERO_MORE);
    assert_writes(&assert, alloc, packet, MYSQL);
    assert_reads::<HandshakeResponse>(&assert, alloc, WITH_ATTRIBUTES, WITH_ATTRIBUTES.len(), &[]);
    assert_reads::<SslRequest>(&assert, alloc, SECURE, SECURE.len(), &[]);
    let request = SslRequest::new(
        CapabilityFlags(0x81aea205),
        16777216,
        45,
    ).with_mariadb_capabilities(MariadbCapabilities(4));
    assert_writes(&assert, alloc, request, SECURE);
    assert_reads::<AuthSwitchRequest>(&assert, alloc, SWITCH, 23, &OTHERS);
    assert_reads::<OldAuthSwitchRequest>(&assert, alloc, b"\xfe", 1, &OTHERS);
    assert_reads::<AuthMoreData>(&assert, alloc, &[1, 4], 1, &OTHERS);
    assert_reads::<PublicKeyResponse>(&assert, alloc, b"\x01test", 1, &OTHERS);
    assert_reads::<PublicKeyRequest>(&assert, alloc, &[2], 1, &OTHERS);
}

pub const TABLE: &[u8] = b"\x13\x02d\xff\x01t";

pub const REPLICA: &[u8] =
    b"\x15\x02\x01\x00\x00\x02h\xff\x01u\x01p\xea\x0c\x03\x00\x00\x00\x04\x00\x00\x00";

pub const ACKNOWLEDGED: &[u8] = b"\xef\x01\x02\x00\x00\x00\x00\x00\x00binlog.1";

const DUMP: &[u8] = b"\x12\x04\x00\x00\x00\x01\x00\x07\x00\x00\x00log.1";

/// A request with two sets: of the tag `app` the transactions 1 to 99, without a tag 1 to 49.
pub const GTID_DUMP: &[u8] =
    b"\x1e\x04\x00\x07\x00\x00\x00\x01\x00\x00\x00f\x04\x00\x00\x00\x00\x00\x00\x00\x5d\x00\x00\x00\
    \x00\x02\x00\x00\x00\x00\x00\x01aaaaaaaaaaaaaaaa\x06app\x01\x00\x00\x00\x00\x00\x00\x00\x01\x00\
    \x00\x00\x00\x00\x00\x00\x64\x00\x00\x00\x00\x00\x00\x00bbbbbbbbbbbbbbbb\x00\x01\x00\x00\x00\
    \x00\x00\x00\x00\x01\x00\x00\x00\x00\x00\x00\x00\x32\x00\x00\x00\x00\x00\x00\x00";

/// Of several causes the first is told: fields that are cut off before another first byte, and that
/// before a flag without a name.
const NO_DUMPS: [(&[u8], WireError); 3] = [
    (
        b"\x13\x04\x00\x00\x00\x08\x00\x07\x00\x00\x00",
        WireError::BadConstant,
    ),
    (
        b"\x12\x04\x00\x00\x00\x08\x00\x07\x00\x00\x00",
        WireError::UnknownValue,
    ),
    (
        b"\x12\x04\x00\x00\x00\x08\x00\x07\x00\x00",
        WireError::UnexpectedEof,
    ),
];

const NO_REPLICAS: [(&[u8], WireError); 2] = [
    (b"\x14\x01\x00\x00\x00", WireError::BadConstant),
    (b"\x14\x01\x00\x00", WireError::UnexpectedEof),
];

const NO_ACKNOWLEDGEMENTS: [(&[u8], WireError); 2] = [
    (
        b"\xee\x01\x00\x00\x00\x00\x00\x00\x00",
        WireError::BadConstant,
    ),
    (
        b"\xee\x01\x00\x00\x00\x00\x00\x00",
        WireError::UnexpectedEof,
    ),
];

/// The same of requests by transactions; and a tag that is none, and one that is no text.
const NO_GTID_DUMPS: [(&[u8], WireError); 5] = [
    (b"\x1f\x08\x00\x07\x00\x00\x00", WireError::BadConstant),
    (b"\x1e\x08\x00\x07\x00\x00\x00", WireError::UnknownValue),
    (b"\x1e\x08\x00\x07\x00\x00", WireError::UnexpectedEof),
    (
        b"\x1e\x04\x00\x07\x00\x00\x00\x01\x00\x00\x00f\x04\x00\x00\x00\x00\x00\x00\x00\x22\x00\x00\
        \x00\x00\x01\x00\x00\x00\x00\x00\x01bbbbbbbbbbbbbbbb\x02A\x00\x00\x00\x00\x00\x00\x00\x00",
        WireError::UnknownValue,
    ),
    (
        b"\x1e\x04\x00\x07\x00\x00\x00\x01\x00\x00\x00f\x04\x00\x00\x00\x00\x00\x00\x00\x22\x00\x00\
        \x00\x00\x01\x00\x00\x00\x00\x00\x01bbbbbbbbbbbbbbbb\x02\xff\x00\x00\x00\x00\x00\x00\x00\x00",
        WireError::UnknownValue,
    ),
];

#[test]
fn of_replication(rt: HostRuntime) {
    let assert = Asserting(&rt);
    let alloc = rt.alloc();
    assert_reads::<ComTableDump>(&assert, alloc, TABLE, TABLE.len(), &OTHERS);
    assert_reads::<ComRegisterSlave>(&assert, alloc, REPLICA, REPLICA.len(), &NO_REPLICAS);
    assert_reads::<SemiSyncAckPacket>(&assert, alloc, ACKNOWLEDGED, 9, &NO_ACKNOWLEDGEMENTS);
    assert_reads::<ComBinlogDump>(&assert, alloc, DUMP, 11, &NO_DUMPS);
    assert_reads::<ComBinlogDumpGtid>(&assert, alloc, GTID_DUMP, GTID_DUMP.len(), &NO_GTID_DUMPS);
}

// ---- The command that logs another user in ----

pub const CHANGE: &[u8] = b"\x11root\0\x02abdb\0\x2d\0mysql_native_password\0\x04\x01a\x011";

const MORE: &[u8] = b"\x2d\0dialog\0\x04\x01a\x011";

pub const FLAGS: CapabilityFlags = CapabilityFlags(0x180000);

/// Capabilities, commands, and the same commands as they are written: attributes always stand where
/// anything follows the database. First all, then a plugin alone, then attributes alone, then a
/// character set alone, then nothing.
const COMMANDS: [(u32, &[u8], &[u8]); 5] = [
    (0x180000, CHANGE, CHANGE),
    (
        0x80000,
        b"\x11root\0\x02abdb\0\x2d\0mysql_native_password\0",
        b"\x11root\0\x02abdb\0\x2d\0mysql_native_password\0\0",
    ),
    (
        0x100000,
        b"\x11root\0\x02abdb\0\x2d\0\x04\x01a\x011",
        b"\x11root\0\x02abdb\0\x2d\0\x04\x01a\x011",
    ),
    (
        0,
        b"\x11root\0\x02abdb\0\x2d\0",
        b"\x11root\0\x02abdb\0\x2d\0\0",
    ),
    (0x180000, b"\x11root\0\x02abdb\0", b"\x11root\0\x02abdb\0"),
];

// Parts behind the database.
fn more_data(
    alloc: Global,
    texts: IndexMap<String, String>,
) -> Result<ComChangeUserMoreData<'static>, AllocError> {
    ComChangeUserMoreData::new(45)
        .with_auth_plugin(Some(AuthPlugin::MysqlNativePassword))
        .with_connect_attributes(alloc, Some(texts))
}

#[test]
fn of_a_change_of_user(rt: HostRuntime) {
    let assert = Asserting(&rt);
    let alloc = rt.alloc();
    let first = more_data(alloc, texts(&assert, alloc));
    let second = more_data(alloc, texts(&assert, alloc));
    let more = once_more(&assert, first, second);
    let command = ComChangeUser::new()
        .with_user(Some(lent(b"root")))
        .with_auth_plugin_data(Some(lent(b"ab")))
        .with_database(Some(lent(b"db")))
        .with_more_data(Some(more));
    assert_copied(
        &assert,
        &command,
        command.clone(alloc),
        command.clone(alloc),
    );
    assert_writes(&assert, alloc, command, CHANGE);
    for (capabilities, bytes, again) in COMMANDS {
        let flags = CapabilityFlags(capabilities);
        let command = whole::<ComChangeUser, CapabilityFlags>(&assert, alloc, flags, bytes);
        assert_writes(&assert, alloc, command, again);
    }
    assert_reads_back::<ComChangeUserMoreData, CapabilityFlags>(&assert, alloc, FLAGS, MORE);
    let cause = WireError::BadConstant;
    assert_refused::<ComChangeUser, CapabilityFlags>(&assert, alloc, FLAGS, b"\x12\0\0\0", cause);
    // The command may end behind the database.
    assert_cut_off::<ComChangeUser, CapabilityFlags>(&assert, alloc, FLAGS, CHANGE, 0, 12);
    let len = CHANGE.len();
    assert_cut_off::<ComChangeUser, CapabilityFlags>(&assert, alloc, FLAGS, CHANGE, 13, len);
}
