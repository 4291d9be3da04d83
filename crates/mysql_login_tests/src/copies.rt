//! What owns its bytes, and gives them on without memory.

use crate::packets::{CHANGE, FLAGS, MYSQL, SWITCH};
use crate::support::{Asserting, assert_makes, lent, tag};
use mysql_const::CapabilityFlags;
use mysql_login::{
    AuthMoreData, AuthPluginData, AuthSwitchRequest, ComChangeUser, HandshakePacket,
};
use std::alloc::AllocError;
use tests_support::{once_more, whole};

/// Asserts that a value that is made to own its bytes is the same one.
macro_rules! assert_owned {
    ($assert:expr, $alloc:expr, $value:expr) => {
        assert_makes($assert, $value.into_owned($alloc), $value.into_owned($alloc), $value)
    };
}

/// Asserts that a copy that owns its bytes gives them on without memory.
macro_rules! assert_given_on {
    ($assert:expr, $alloc:expr, $value:expr) => {
        {
            let value = $value;
            let copy = once_more($assert, value.clone($alloc), value.clone($alloc));
            assert_makes($assert, copy.into_owned($alloc), Err(AllocError), value)
        }
    };
}

#[test]
fn owned(rt: HostRuntime) {
    let assert = Asserting(&rt);
    let alloc = rt.alloc();
    assert_owned!(
        &assert,
        alloc,
        whole::<ComChangeUser, CapabilityFlags>(&assert, alloc, FLAGS, CHANGE)
    );
    assert_owned!(
        &assert,
        alloc,
        whole::<AuthSwitchRequest, ()>(&assert, alloc, (), SWITCH)
    );
    assert_owned!(&assert, alloc, AuthMoreData::new(lent(&[4])));
    assert_owned!(&assert, alloc, AuthPluginData::Clear(lent(b"secret")));
    assert_owned!(&assert, alloc, tag(&assert, "app"));
}

#[test]
fn given_on(rt: HostRuntime) {
    let assert = Asserting(&rt);
    let alloc = rt.alloc();
    assert_given_on!(
        &assert,
        alloc,
        whole::<HandshakePacket, ()>(&assert, alloc, (), MYSQL)
    );
    assert_given_on!(
        &assert,
        alloc,
        whole::<AuthSwitchRequest, ()>(&assert, alloc, (), SWITCH)
    );
    assert_given_on!(&assert, alloc, AuthMoreData::new(lent(&[4])));
    assert_given_on!(&assert, alloc, AuthPluginData::Clear(lent(b"secret")));
}
