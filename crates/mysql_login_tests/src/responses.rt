//! Answers to the handshake: made by their parts, and written again.

use crate::packets::WITH_ATTRIBUTES;
use crate::support::{Asserting, assert_texts, assert_writes, lent, texts};
use indexmap::IndexMap;
use mysql_const::CapabilityFlags;
use mysql_login::{AuthPlugin, HandshakeResponse};
use std::alloc::{AllocError, Global};
use tests_support::{assert_copied, assert_equal, once_more, whole};

type Version = (u16, u16, u16);

// The answer of root, with a database and attributes, to a server of this version. Those without
// them are rows.
fn response_of_root(
    alloc: Global,
    version: Version,
    texts: IndexMap<String, String>,
) -> Result<HandshakeResponse<'static>, AllocError> {
    HandshakeResponse::new(
        alloc,
        Some(lent(&[])),
        version,
        Some(lent(b"root")),
        Some(lent(b"mydb")),
        Some(AuthPlugin::MysqlNativePassword),
        CapabilityFlags(0x81aea205),
        Some(texts),
        16777216,
    )
}

// Versions, and the collation that an answer to them has.
const COLLATIONS: [(Version, u8); 6] = [
    ((5, 5, 2), 33),
    ((4, 99, 99), 33),
    ((5, 4, 99), 33),
    ((8, 0, 0), 45),
    ((5, 6, 0), 45),
    ((5, 5, 3), 45),
];

#[test]
fn answers_made(rt: HostRuntime) {
    let assert = Asserting(&rt);
    let alloc = rt.alloc();
    for (version, collation) in COLLATIONS {
        let first = response_of_root(alloc, version, texts(&assert, alloc));
        let second = response_of_root(alloc, version, texts(&assert, alloc));
        let response = once_more(&assert, first, second);
        assert_equal(&assert, response.collation(), collation);
        drop(response);
    }
    let first = response_of_root(alloc, (5, 5, 5), texts(&assert, alloc));
    let second = response_of_root(alloc, (5, 5, 5), texts(&assert, alloc));
    let response = once_more(&assert, first, second);
    let (first, second) = (response.clone(alloc), response.clone(alloc));
    assert_copied(&assert, &response, first, second);
    assert_writes(&assert, alloc, response, WITH_ATTRIBUTES);
    let response = whole::<HandshakeResponse, ()>(&assert, alloc, (), WITH_ATTRIBUTES);
    let (first, second) = (
        response.connect_attributes(alloc),
        response.connect_attributes(alloc),
    );
    drop(response);
    let texts = once_more(&assert, first, second);
    assert_texts(&assert, texts.unwrap_or(Vec::new(alloc)), &[("a", "1")]);
}

// Answers as they are read, and as they are written again.
const READ: [(&[u8], &[u8]); 7] = [
    // A length of one byte.
    (
        b"\x00\x82\x00\x00\x00\x00\x00\x01\x2d\0\0\0\0\0\0\0\0\0\0\0\0\0\0\0\0\0\0\0\x00\x00\x00\x00root\0\x02ab",
        b"\x00\x82\x00\x00\x00\x00\x00\x01\x2d\0\0\0\0\0\0\0\0\0\0\0\0\0\0\0\0\0\0\0\x00\x00\x00\x00root\0\x02ab",
    ),
    // A zero behind it, and a database.
    (
        b"\x08\x02\x00\x00\x00\x00\x00\x01\x2d\0\0\0\0\0\0\0\0\0\0\0\0\0\0\0\0\0\0\0\x00\x00\x00\x00root\0ab\0mydb\0",
        b"\x08\x02\x00\x00\x00\x00\x00\x01\x2d\0\0\0\0\0\0\0\0\0\0\0\0\0\0\0\0\0\0\0\x00\x00\x00\x00root\0ab\0mydb\0",
    ),
    // A length-encoded number, overlong.
    (
        b"\x00\x82\x20\x00\x00\x00\x00\x01\x2d\0\0\0\0\0\0\0\0\0\0\0\0\0\0\0\0\0\0\0\x00\x00\x00\
        \x00root\0\xfc\x02\x00ab",
        b"\x00\x82\x20\x00\x00\x00\x00\x01\x2d\0\0\0\0\0\0\0\0\0\0\0\0\0\0\0\0\0\0\0\x00\x00\x00\x00root\0\x02ab",
    ),
    // A plugin that ends with the bytes, which is written with a zero.
    (
        b"\x08\x82\x08\x00\x00\x00\x00\x01\x2d\0\0\0\0\0\0\0\0\0\0\0\0\0\0\0\0\0\0\0\x00\x00\x00\
        \x00root\0\x02abmydb\0mysql_native_password",
        b"\x08\x82\x08\x00\x00\x00\x00\x01\x2d\0\0\0\0\0\0\0\0\0\0\0\0\0\0\0\0\0\0\0\x00\x00\x00\
        \x00root\0\x02abmydb\0mysql_native_password\0",
    ),
    // No plugin, though one may stand there.
    (
        b"\x00\x82\x08\x00\x00\x00\x00\x01\x2d\0\0\0\0\0\0\0\0\0\0\0\0\0\0\0\0\0\0\0\x00\x00\x00\x00root\0\0",
        b"\x00\x82\x08\x00\x00\x00\x00\x01\x2d\0\0\0\0\0\0\0\0\0\0\0\0\0\0\0\0\0\0\0\x00\x00\x00\x00root\0\0\0",
    ),
    // Attributes without a plugin.
    (
        b"\x00\x82\x10\x00\x00\x00\x00\x01\x2d\0\0\0\0\0\0\0\0\0\0\0\0\0\0\0\0\0\0\0\x00\x00\x00\
        \x00root\0\0\x04\x01a\x011",
        b"\x00\x82\x10\x00\x00\x00\x00\x01\x2d\0\0\0\0\0\0\0\0\0\0\0\0\0\0\0\0\0\0\0\x00\x00\x00\
        \x00root\0\0\x04\x01a\x011",
    ),
    // Of MariaDB's capabilities those without a name are dropped.
    (
        b"\x00\x82\x00\x00\x00\x00\x00\x01\x2d\0\0\0\0\0\0\0\0\0\0\0\0\0\0\0\0\0\0\0\x44\x00\x00\x80root\0\0",
        b"\x00\x82\x00\x00\x00\x00\x00\x01\x2d\0\0\0\0\0\0\0\0\0\0\0\0\0\0\0\0\0\0\0\x04\x00\x00\x00root\0\0",
    ),
];

#[test]
fn answers_written_again(rt: HostRuntime) {
    let assert = Asserting(&rt);
    for (bytes, again) in READ {
        let response = whole::<HandshakeResponse, ()>(&assert, rt.alloc(), (), bytes);
        assert_writes(&assert, rt.alloc(), response, again);
    }
}
