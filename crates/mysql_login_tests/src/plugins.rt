//! Plugins and what they send.

use crate::support::{Asserting, lent};
use mysql_auth::without_zero;
use mysql_login::{AuthPlugin, AuthPluginData, parse_parsec_salt};
use std::alloc::Global;
use tests_support::{Assert, assert_bytes, assert_equal, assert_same, assert_written, whole};

/// PARSEC's salt before one was read.
const NO_SALT: [u8; 18] = [0; 18];

// PARSEC, with iterations and a salt.
fn parsec(iterations: u32, salt: &[u8; 18]) -> AuthPlugin<'static> {
    AuthPlugin::MariadbParsec {
        iterations,
        ext_salt: *salt,
    }
}

// Asserts that a name, with and without a zero behind it, is this plugin's, and that the plugin is written by it.
fn assert_named(assert: &impl Assert, alloc: Global, with_zero: &[u8], plugin: &AuthPlugin<'_>) {
    let name = without_zero(with_zero);
    assert_equal(assert, AuthPlugin::from_bytes(name), plugin.borrow());
    assert_equal(assert, AuthPlugin::from_bytes(with_zero), plugin.borrow());
    assert_bytes(assert, plugin.as_bytes(), name);
    assert_written(assert, alloc, plugin, with_zero);
    let read = whole::<AuthPlugin, ()>(assert, alloc, (), with_zero);
    assert_equal(assert, read, plugin.borrow());
}

#[test]
fn named_plugins(rt: HostRuntime) {
    let assert = Asserting(&rt);
    let rows: [(&[u8], AuthPlugin<'_>); 7] = [
        (b"mysql_old_password\x00", AuthPlugin::MysqlOldPassword),
        (
            b"mysql_native_password\x00",
            AuthPlugin::MysqlNativePassword,
        ),
        (b"mysql_clear_password\x00", AuthPlugin::MysqlClearPassword),
        (
            b"caching_sha2_password\x00",
            AuthPlugin::CachingSha2Password,
        ),
        (b"client_ed25519\x00", AuthPlugin::Ed25519),
        (b"parsec\x00", parsec(0, &NO_SALT)),
        (b"dialog\x00", AuthPlugin::Other(lent(b"dialog"))),
    ];
    for (with_zero, plugin) in &rows {
        assert_named(&assert, rt.alloc(), *with_zero, plugin);
    }
    drop(rows);
    // One zero is taken off.
    let two_zeros = AuthPlugin::from_bytes(b"parsec\x00\x00");
    assert_bytes(&assert, two_zeros.as_bytes(), b"parsec\x00");
    drop(two_zeros);
}

// Packets of PARSEC's salt, and the iterations and the salt that they hold.
const SALTS: [(&[u8], Option<(u32, &[u8; 18])>); 7] = [
    (
        b"P\x03abcdefghijklmnopqr",
        Some((8192, b"abcdefghijklmnopqr")),
    ),
    (
        b"P\x14abcdefghijklmnopqr",
        Some((0x4000_0000, b"abcdefghijklmnopqr")),
    ),
    (b"P\x15abcdefghijklmnopqr", None),
    (b"Q\x03abcdefghijklmnopqr", None),
    (b"P\x03abcdefghijklmnopq", None),
    (b"P\x03abcdefghijklmnopqrs", None),
    (b"P", None),
];

// The plugin takes the packet or stays as it is; another plugin takes none.
#[test]
fn salts(rt: HostRuntime) {
    let assert = Asserting(&rt);
    for (packet, wanted) in SALTS {
        assert_same(&assert, &parse_parsec_salt(packet), &wanted);
        let mut plugin = AuthPlugin::from_bytes(b"parsec");
        assert.holds(plugin.read_add_data(packet).is_some() == wanted.is_some());
        let (iterations, salt) = wanted.unwrap_or((0, &NO_SALT));
        assert_equal(&assert, plugin, parsec(iterations, salt));
        let mut other = AuthPlugin::MysqlNativePassword;
        assert.holds(other.read_add_data(packet).is_none());
        assert_equal(&assert, other, AuthPlugin::MysqlNativePassword);
    }
}

// Data, and the bytes that it is written as: a zero stands behind those of two kinds.
#[test]
fn data_sent(rt: HostRuntime) {
    let assert = Asserting(&rt);
    let rows: [(AuthPluginData<'_>, &[u8]); 6] = [
        (AuthPluginData::Old(*b"abcdefgh"), b"abcdefgh\x00"),
        (AuthPluginData::Clear(lent(b"secret")), b"secret\x00"),
        (AuthPluginData::Native([7; 20]), &[7; 20]),
        (AuthPluginData::Sha2([8; 32]), &[8; 32]),
        (AuthPluginData::Ed25519([9; 64]), &[9; 64]),
        (AuthPluginData::Parsec([10; 96]), &[10; 96]),
    ];
    for (sent, bytes) in &rows {
        assert_written(&assert, rt.alloc(), sent, *bytes);
        assert_bytes(&assert, sent.as_bytes(), without_zero(*bytes));
    }
    drop(rows);
}
