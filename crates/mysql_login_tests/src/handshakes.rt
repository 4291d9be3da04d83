//! Initial handshake packets: what of them the library for C doesn't show.

use crate::packets::MYSQL;
use crate::support::{Asserting, assert_text, lent};
use mysql_const::{CapabilityFlags, StatusFlags};
use mysql_login::{AuthPlugin, HandshakePacket};
use std::borrow::CowStr;
use tests_support::{assert_bytes, assert_equal, once_more, whole};

type Version = (u16, u16, u16);

// A handshake with this version and no second scramble.
fn with_version<'a>(version: &'a [u8]) -> HandshakePacket<'a> {
    HandshakePacket::new(
        10,
        lent(version),
        7,
        *b"abcdefgh",
        None,
        CapabilityFlags::CLIENT_PROTOCOL_41,
        33,
        StatusFlags::SERVER_STATUS_AUTOCOMMIT,
        None,
    )
}

// Texts, and the versions of a server and of a MariaDB server that they are.
const VERSIONS: [(&[u8], Option<Version>, Option<Version>); 9] = [
    (b"4.1", None, None),
    (b"8.0.1234", Some((8, 0, 123)), None),
    (b"100.0.1", None, None),
    (b"5.5.5-MariaDB", Some((5, 5, 5)), Some((5, 5, 5))),
    (b"11.4.2-MariaDB", Some((11, 4, 2)), Some((11, 4, 2))),
    (b"5x5x5-10.0.17-MariaDB", None, None),
    (b"5.5.5-10.0.17", Some((5, 5, 5)), None),
    (
        b"5.5.5-10.0.17-MariaDB-log",
        Some((5, 5, 5)),
        Some((10, 0, 17)),
    ),
    (b"5.6.4-m7-log", Some((5, 6, 4)), None),
];

#[test]
fn versions(rt: HostRuntime) {
    let assert = Asserting(&rt);
    for (text, version, mariadb) in VERSIONS {
        let packet = with_version(text);
        let found = (
            packet.server_version_parsed(),
            packet.maria_db_server_version_parsed(),
        );
        drop(packet);
        assert_equal(&assert, found, (version, mariadb));
    }
}

// The nonce of a handshake with no second scramble.
const SHORT_NONCE: &[u8] = b"abcdefgh\x00\x00\x00\x00\x00\x00\x00\x00\x00\x00\x00\x00";

#[test]
fn texts_and_nonces(rt: HostRuntime) {
    let assert = Asserting(&rt);
    let alloc = rt.alloc();
    let short = with_version(b"4.1");
    let nonce = once_more(&assert, short.nonce(alloc), short.nonce(alloc));
    assert_bytes(&assert, nonce.as_slice(), SHORT_NONCE);
    assert_equal(&assert, short.auth_plugin(), None);
    drop(short);
    let packet = whole::<HandshakePacket, ()>(&assert, alloc, (), MYSQL);
    let nonce = once_more(&assert, packet.nonce(alloc), packet.nonce(alloc));
    assert_bytes(&assert, nonce.as_slice(), b"RB3vz&Gr+yD&/ZZ305ZG");
    assert_text(
        &assert,
        packet.server_version_str(alloc),
        packet.server_version_str(alloc),
        "5.6.4-m7-log",
    );
    let name = once_more(
        &assert,
        packet.auth_plugin_name_str(alloc),
        packet.auth_plugin_name_str(alloc),
    );
    let wanted = Some(CowStr::Borrowed("mysql_native_password"));
    assert_equal(&assert, name, wanted);
    let plugin = Some(AuthPlugin::MysqlNativePassword);
    assert_equal(&assert, packet.auth_plugin(), plugin);
    drop(packet);
}
