//! Packets made by their parts, and parts of packets that the library for C doesn't show.

use crate::packets::{ACKNOWLEDGED, GTID_DUMP, REPLICA, SWITCH, TABLE};
use crate::support::{Asserting, assert_text, assert_writes, lent, set, tagged_set};
use mysql_login::{
    AuthMoreData, AuthPlugin, AuthSwitchRequest, BinlogDumpFlags, BinlogRequest, ComBinlogDump,
    ComBinlogDumpGtid, ComChangeUser, ComRegisterSlave, ComTableDump, OldAuthSwitchRequest,
    PublicKeyRequest, PublicKeyResponse, SemiSyncAckPacket, Sid,
};
use std::borrow::CowSlice;
use tests_support::{assert_bytes, assert_copied, assert_equal, once_more, whole};

#[test]
fn of_authentication(rt: HostRuntime) {
    let assert = Asserting(&rt);
    let alloc = rt.alloc();
    let key = PublicKeyResponse::new(lent(b"test"));
    assert_text(&assert, key.rsa_key(alloc), key.rsa_key(alloc), "test");
    assert_copied(&assert, &key, key.clone(alloc), key.clone(alloc));
    assert_writes(&assert, alloc, key, b"\x01test");
    let request = PublicKeyRequest::default();
    assert_equal(&assert, PublicKeyRequest::new(), request);
    assert_writes(&assert, alloc, AuthMoreData::new(lent(&[4])), &[1, 4]);
    let old = OldAuthSwitchRequest::new();
    assert_equal(&assert, old.auth_plugin(), AuthPlugin::MysqlOldPassword);
    // The zero that stands behind the data of most plugins is no part of them.
    let packet = whole::<AuthSwitchRequest, ()>(&assert, alloc, (), SWITCH);
    let plugin = AuthPlugin::MysqlNativePassword;
    assert_equal(&assert, packet.auth_plugin(), plugin);
    assert_bytes(&assert, packet.plugin_data(), b"zQg4i6oNy6=rHN/>-b)A");
    drop(packet);
    let bare: ComChangeUser = Default::default();
    assert_writes(&assert, alloc, bare, b"\x11\0\0\0");
}

#[test]
fn names_of_a_table_and_a_replica(rt: HostRuntime) {
    let assert = Asserting(&rt);
    let alloc = rt.alloc();
    let table = ComTableDump::new(lent(b"d\xff"), lent(b"t"));
    let (first, second) = (table.database(alloc), table.database(alloc));
    assert_text(&assert, first, second, "d\u{fffd}");
    assert_text(&assert, table.table(alloc), table.table(alloc), "t");
    assert_copied(&assert, &table, table.clone(alloc), table.clone(alloc));
    assert_writes(&assert, alloc, table, TABLE);
    let replica = ComRegisterSlave::new(0x102)
        .with_hostname(lent(b"h\xff"))
        .with_user(lent(b"u"))
        .with_password(lent(b"p"))
        .with_port(3306)
        .with_replication_rank(3)
        .with_master_id(4);
    let (first, second) = (replica.hostname(alloc), replica.hostname(alloc));
    assert_text(&assert, first, second, "h\u{fffd}");
    assert_text(&assert, replica.user(alloc), replica.user(alloc), "u");
    let (first, second) = (replica.password(alloc), replica.password(alloc));
    assert_text(&assert, first, second, "p");
    assert_copied(
        &assert,
        &replica,
        replica.clone(alloc),
        replica.clone(alloc),
    );
    assert_writes(&assert, alloc, replica, REPLICA);
}

/// The packet names a place; `filename` is its text.
#[test]
fn places_in_a_log(rt: HostRuntime) {
    let assert = Asserting(&rt);
    let alloc = rt.alloc();
    let packet = SemiSyncAckPacket::new(0, lent(b""))
        .with_position(0x201)
        .with_filename(lent(b"binlog.1"));
    assert_equal(&assert, packet.position(), 0x201);
    assert_bytes(&assert, packet.filename_raw(), b"binlog.1");
    let (first, second) = (packet.filename(alloc), packet.filename(alloc));
    assert_text(&assert, first, second, "binlog.1");
    assert_writes(&assert, alloc, packet, ACKNOWLEDGED);
    let dump = ComBinlogDump::new(7)
        .with_filename(lent(b"f"))
        .with_pos(4)
        .with_flags(BinlogDumpFlags::BINLOG_DUMP_NON_BLOCK);
    assert_text(&assert, dump.filename(alloc), dump.filename(alloc), "f");
    assert_copied(&assert, &dump, dump.clone(alloc), dump.clone(alloc));
    assert_writes(&assert, alloc, dump, b"\x12\x04\0\0\0\x01\0\x07\0\0\0f");
}

/// A request from the place 4 of the file `f`, with these sets.
fn dump<'a>(sids: &'a [Sid<'static>]) -> ComBinlogDumpGtid<'a> {
    ComBinlogDumpGtid::new(0)
        .with_server_id(7)
        .with_filename(lent(b"f"))
        .with_pos(4)
        .with_sids(CowSlice::Borrowed(sids))
}

/// The flags say whether there are sets, also where others are given.
#[test]
fn dumps_by_transactions(rt: HostRuntime) {
    let assert = Asserting(&rt);
    let alloc = rt.alloc();
    let packet = dump(&[]).with_flags(BinlogDumpFlags::BINLOG_THROUGH_GTID);
    assert_equal(&assert, packet.flags().0, 0);
    drop(packet);
    let sids = [tagged_set(&assert, alloc)];
    let more = set(&assert, alloc, *b"bbbbbbbbbbbbbbbb", 50);
    let first = dump(&sids).with_sid(alloc, more);
    let more = set(&assert, alloc, *b"bbbbbbbbbbbbbbbb", 50);
    let second = dump(&sids).with_sid(alloc, more);
    let packet = once_more(&assert, first, second);
    assert_text(&assert, packet.filename(alloc), packet.filename(alloc), "f");
    assert_equal(&assert, packet.flags().0, 4);
    assert_copied(&assert, &packet, packet.clone(alloc), packet.clone(alloc));
    assert_writes(&assert, alloc, packet, GTID_DUMP);
    drop(sids);
}

/// Whether a request is by transactions or from a place, and the packet that carries it.
const CARRIED: [(bool, &[u8]); 2] = [
    (false, b"\x12\x05\x00\x00\x00\x01\x00\x07\x00\x00\x00f"),
    (
        true,
        b"\x1e\x07\x00\x07\x00\x00\x00\x01\x00\x00\x00f\x05\x00\x00\x00\x01\x00\x00\x00\x30\x00\x00\
        \x00\x01\x00\x00\x00\x00\x00\x00\x00bbbbbbbbbbbbbbbb\x01\x00\x00\x00\x00\x00\x00\x00\x01\
        \x00\x00\x00\x00\x00\x00\x00\x32\x00\x00\x00\x00\x00\x00\x00",
    ),
];

#[test]
fn requests_that_one_of_two_packets_carries(rt: HostRuntime) {
    let assert = Asserting(&rt);
    let alloc = rt.alloc();
    for (use_gtid, bytes) in CARRIED {
        let first = Vec::from_array(alloc, [set(&assert, alloc, *b"bbbbbbbbbbbbbbbb", 50)]);
        let second = Vec::from_array(alloc, [set(&assert, alloc, *b"bbbbbbbbbbbbbbbb", 50)]);
        let sids = once_more(&assert, first, second);
        let request = BinlogRequest::new(alloc, 0)
            .with_filename(lent(b"f"))
            .with_sids(sids);
        let numbers = (request.server_id(), request.flags().0, request.pos());
        assert_equal(&assert, numbers, (0, 0, 4));
        assert_equal(&assert, request.use_gtid(), false);
        let source = request.sids().first().map(|sid| sid.uuid());
        assert_equal(&assert, source, Some(*b"bbbbbbbbbbbbbbbb"));
        assert_bytes(&assert, request.filename_raw(), b"f");
        let (first, second) = (request.filename(alloc), request.filename(alloc));
        assert_text(&assert, first, second, "f");
        let request = request
            .with_server_id(7)
            .with_flags(BinlogDumpFlags(3))
            .with_pos(0x1_0000_0005)
            .with_use_gtid(use_gtid);
        assert_copied(
            &assert,
            &request,
            request.clone(alloc),
            request.clone(alloc),
        );
        assert_writes(&assert, alloc, request.as_cmd(), bytes);
        drop(request);
    }
}
