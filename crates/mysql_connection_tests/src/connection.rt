//! How a test of this crate ends, and what tests share: a whole connection, and how it is fed.

ghost use Rattle.std.specs.Prelude.{◌≡◌, true};

use mysql_connection::{Capabilities, Connection, Fault, FeedRefusal, Limits, Side};
use std::alloc::Global;
use std::process::Abort;
use tests_support::{Assert, once_more};

/// Ends a test by an assertion.
#[derive(Drop)]
pub struct Asserting<'a, R>(pub &'a R);

impl<R: Abort> Assert for Asserting<'_, R> {
    fn holds(&self, is_so: bool)
        ensures { is_so ≡ true }
    {
        assert!(self.0; is_so);
    }
}

/// What a run answers, or the same run once more where memory was refused.
pub fn answer_of<T: Drop>(
    assert: &impl Assert,
    first: Result<T, Fault>,
    second: Result<T, Fault>,
) -> T {
    if let Err(fault) = &first {
        assert.holds(*fault == Fault::Memory);
    }
    once_more(assert, first, second)
}

const LIMITS: Limits = Limits {
    client: 1000,
    server: 1000,
    held: 4000,
};

/// What a side says, up to where it is the other's turn.
pub type Turn = (Side, &'static [u8]);

/// A login, a query, a prepare, an execution and a quit. 16 payloads.
pub const CONNECTION: &[Turn] = &[
    // A greeting, the login, and an OK packet.
    (
        Side::Server,
        b"\x33\0\0\0\x0a5.5.5\0\x01\0\0\x0012345678\0\0\x82\x21\x02\0\0\0\x15\
        \0\0\0\0\0\0\0\0\0\0123456789012\0",
    ),
    (
        Side::Client,
        b"\x23\0\0\x01\0\x82\0\0\0\0\0\x01\x21\
        \0\0\0\0\0\0\0\0\0\0\0\0\0\0\0\0\0\0\0\0\0\0\0u\0\0",
    ),
    (Side::Server, b"\x07\0\0\x02\0\0\0\x02\0\0\0"),
    // A result of one row.
    (Side::Client, b"\x09\0\0\0\x03SELECT 1"),
    (
        Side::Server,
        b"\x01\0\0\x01\x01\
        \x17\0\0\x02\x03def\0\0\0\x011\0\x0c\x3f\0\0\0\0\0\xfd\x80\0\0\0\0\
        \x05\0\0\x03\xfe\0\0\x02\0\
        \x02\0\0\x04\x011\
        \x05\0\0\x05\xfe\0\0\x02\0",
    ),
    // A statement with one parameter.
    (Side::Client, b"\x09\0\0\0\x16SELECT ?"),
    (
        Side::Server,
        b"\x0c\0\0\x01\0\x01\0\0\0\0\0\x01\0\0\0\0\
        \x17\0\0\x02\x03def\0\0\0\x01\x3f\0\x0c\x3f\0\0\0\0\0\xfd\x80\0\0\0\0\
        \x05\0\0\x03\xfe\0\0\x02\0",
    ),
    (
        Side::Client,
        b"\x12\0\0\0\x17\x01\0\0\0\0\x01\0\0\0\0\x01\xfd\0\x03abc",
    ),
    (Side::Server, b"\x07\0\0\x01\0\0\0\x02\0\0\0"),
    (Side::Client, b"\x01\0\0\0\x01"),
];

/// A connection at its greeting, or behind a login.
pub fn begin(alloc: Global, in_force: Option<Capabilities>) -> Connection {
    match in_force {
        Some(capabilities) => Connection::after_login(alloc, LIMITS, capabilities),
        None => Connection::new(alloc, LIMITS),
    }
}

// Feeds a piece. What `feed` promises is long, so it is called here alone.
fn feed_once(connection: &mut Connection, side: Side, piece: &[u8]) -> Result<(), FeedRefusal> {
    connection.feed(side, piece)
}

// Feeds a piece, which has room; for want of memory once more.
fn feed(connection: &mut Connection, side: Side, piece: &[u8]) -> Result<(), Fault> {
    let fed = match feed_once(connection, side, piece) {
        Err(FeedRefusal::Memory) => feed_once(connection, side, piece),
        answer => answer,
    };
    match fed {
        Ok(()) => Ok(()),
        Err(_) => Err(Fault::Held),
    }
}

/// Feeds all that both sides say.
pub fn feed_turns(connection: &mut Connection, turns: &[Turn]) -> Result<(), Fault> {
    for (side, bytes) in turns {
        feed(connection, *side, bytes)?;
    }
    Ok(())
}

/// Whether bytes are what both sides say, turn by turn.
pub fn are_said(bytes: &[u8], turns: &[Turn]) -> bool {
    let mut rest = bytes;
    for (_, said) in turns {
        match rest.strip_prefix(*said) {
            Some(behind) => rest = behind,
            None => return false,
        }
    }
    rest.is_empty()
}
