//! Changes of a session's state.

use crate::support::{
    Asserting, assert_appended, assert_behind, assert_field, assert_shown, front,
};
use mysql_const::SessionStateType;
use mysql_ok_packets::{SessionStateChange, SessionStateInfo, Unsupported, put_states, states_of};
use std::alloc::Global;
use std::borrow::CowSlice;
use tests_support::{Assert, again, assert_copied, assert_equal, whole};

/// What a state is decoded to.
enum Told {
    /// Texts, and the state that is made of the change again.
    ///
    /// A change of the schema, of identifiers or of the transaction has one text. System variables
    /// have a name and a value in turn. That changes are tracked or not is `1` or `0`.
    Texts(&'static [&'static [u8]], &'static [u8]),
    /// Why it isn't decoded.
    Refused(&'static str),
}

/// The text of a change in this place.
fn text_told<'a, 'b>(change: &'a SessionStateChange<'b>, place: usize) -> Option<&'a [u8]> {
    if let SessionStateChange::SystemVariables(all) = change {
        let variable = all.get(place / 2)?;
        let texts = [variable.name_bytes(), variable.value_bytes()];
        return Some(texts[place % 2]);
    }
    if place > 0 {
        return None;
    }
    match change {
        SessionStateChange::IsTracked(true) => Some(b"1"),
        SessionStateChange::IsTracked(false) => Some(b"0"),
        SessionStateChange::Schema(schema) => Some(schema.as_bytes()),
        SessionStateChange::Gtids(set) => Some(set.as_bytes()),
        SessionStateChange::TransactionCharacteristics(text) => Some(text.as_bytes()),
        SessionStateChange::TransactionState(text) => Some(text.as_bytes()),
        SessionStateChange::Unsupported(other) => Some(other.as_bytes()),
        SessionStateChange::SystemVariables(_) => None,
    }
}

/// Asserts that states are written as these bytes.
pub fn assert_put(
    assert: &impl Assert,
    alloc: Global,
    states: &[SessionStateInfo<'_>],
    bytes: &[u8],
) {
    let mut out = front(assert, alloc);
    let first = put_states(states, &mut out).is_ok();
    let second = put_states(states, &mut out).is_ok();
    assert_behind(assert, &out, first, second, bytes);
}

/// Asserts the texts of a change, and the state that is made of it, none where there are no bytes.
/// It asserts too that copies of it are equal.
fn assert_change(
    assert: &impl Assert,
    alloc: Global,
    change: SessionStateChange<'_>,
    texts: &[&[u8]],
    bytes: &[u8],
) {
    for (place, text) in texts.iter().enumerate() {
        assert.holds(text_told(&change, place) == Some(*text));
    }
    assert.holds(text_told(&change, texts.len()).is_none());
    let made = again!(assert, SessionStateInfo::of_change(alloc, &change));
    match &made {
        Some(state) => assert_appended(assert, alloc, state, bytes),
        None => assert.holds(bytes.is_empty()),
    }
    drop(made);
    assert_copied(assert, &change, change.clone(alloc), change.clone(alloc));
    let first = again!(assert, change.clone(alloc)).into_owned(alloc);
    let second = again!(assert, change.clone(alloc)).into_owned(alloc);
    assert_copied(assert, &change, first, second);
    drop(change);
}

/// A state, its type, and what it is decoded to.
type State = (&'static [u8], SessionStateType, Told);

/// Asserts it. A state is read where it stands whole.
fn assert_state(assert: &impl Assert, alloc: Global, (bytes, kind, told): &State) {
    assert_field::<SessionStateInfo, ()>(assert, alloc, (), *bytes, bytes.len(), &[]);
    let state = whole::<SessionStateInfo, ()>(assert, alloc, (), *bytes);
    assert_equal(assert, state.data_type(), *kind);
    assert_equal(assert, bytes.get(2..), Some(state.data_ref()));
    match told {
        Told::Texts(texts, made) => {
            let change = again!(assert, state.decode(alloc));
            assert_change(assert, alloc, change, *texts, *made);
        }
        Told::Refused(cause) => {
            assert_shown(
                assert,
                alloc,
                state.decode(alloc),
                state.decode(alloc),
                *cause,
            )
        }
    }
    assert_copied(assert, &state, state.clone(alloc), state.clone(alloc));
    drop(state);
}

const STATES: [State; 18] = [
    (
        b"\x00\x0f\x0aautocommit\x03OFF",
        SessionStateType::SESSION_TRACK_SYSTEM_VARIABLES,
        Told::Texts(&[b"autocommit", b"OFF"], b"\x00\x0f\x0aautocommit\x03OFF"),
    ),
    // Two variables, of which the second has an empty value; none; and one whose value is lacking.
    (
        b"\x00\x19\x0aautocommit\x03OFF\x08sql_mode\x00",
        SessionStateType::SESSION_TRACK_SYSTEM_VARIABLES,
        Told::Texts(
            &[b"autocommit", b"OFF", b"sql_mode", b""],
            b"\x00\x19\x0aautocommit\x03OFF\x08sql_mode\x00",
        ),
    ),
    (
        b"\x00\x00",
        SessionStateType::SESSION_TRACK_SYSTEM_VARIABLES,
        Told::Texts(&[], b"\x00\x00"),
    ),
    (
        b"\x00\x0b\x0aautocommit",
        SessionStateType::SESSION_TRACK_SYSTEM_VARIABLES,
        Told::Refused("Err(UnexpectedEof)"),
    ),
    (
        b"\x01\x05\x04test",
        SessionStateType::SESSION_TRACK_SCHEMA,
        Told::Texts(&[b"test"], b"\x01\x05\x04test"),
    ),
    (
        b"\x02\x02\x011",
        SessionStateType::SESSION_TRACK_STATE_CHANGE,
        Told::Texts(&[b"1"], b"\x02\x02\x011"),
    ),
    (
        b"\x02\x02\x010",
        SessionStateType::SESSION_TRACK_STATE_CHANGE,
        Told::Texts(&[b"0"], b"\x02\x02\x010"),
    ),
    (
        b"\x03\x04\x00a:1",
        SessionStateType::SESSION_TRACK_GTIDS,
        Told::Texts(&[b"\x00a:1"], b"\x03\x04\x00a:1"),
    ),
    (
        b"\x04\x04\x03abc",
        SessionStateType::SESSION_TRACK_TRANSACTION_CHARACTERISTICS,
        Told::Texts(&[b"abc"], b"\x04\x04\x03abc"),
    ),
    (
        b"\x05\x04\x03abc",
        SessionStateType::SESSION_TRACK_TRANSACTION_STATE,
        Told::Texts(&[b"abc"], b"\x05\x04\x03abc"),
    ),
    // An inner length past the bytes.
    (
        b"\x01\x05\x05test",
        SessionStateType::SESSION_TRACK_SCHEMA,
        Told::Refused("Err(UnexpectedEof)"),
    ),
    // MariaDB's digit without a length, which is written with one.
    (
        b"\x02\x011",
        SessionStateType::SESSION_TRACK_STATE_CHANGE,
        Told::Texts(&[b"1"], b"\x02\x02\x011"),
    ),
    (
        b"\x02\x010",
        SessionStateType::SESSION_TRACK_STATE_CHANGE,
        Told::Texts(&[b"0"], b"\x02\x02\x010"),
    ),
    // Bytes behind a text are passed over, so that the state that is made of the change is shorter.
    (
        b"\x01\x06\x04test!",
        SessionStateType::SESSION_TRACK_SCHEMA,
        Told::Texts(&[b"test"], b"\x01\x05\x04test"),
    ),
    (
        b"\x02\x03\x011!",
        SessionStateType::SESSION_TRACK_STATE_CHANGE,
        Told::Texts(&[b"1"], b"\x02\x02\x011"),
    ),
    (
        b"\x02\x04\x0211!",
        SessionStateType::SESSION_TRACK_STATE_CHANGE,
        Told::Texts(&[b"0"], b"\x02\x02\x010"),
    ),
    (
        b"\x04\x06\x03abc\x03!",
        SessionStateType::SESSION_TRACK_TRANSACTION_CHARACTERISTICS,
        Told::Texts(&[b"abc"], b"\x04\x04\x03abc"),
    ),
    (
        b"\x05\x06\x03abc\x03!",
        SessionStateType::SESSION_TRACK_TRANSACTION_STATE,
        Told::Texts(&[b"abc"], b"\x05\x04\x03abc"),
    ),
];

/// A schema and a tracked change, one after another.
const TWO: &[u8] = b"\x01\x05\x04test\x02\x02\x011";

/// Of a change of another kind no state is made.
#[test]
fn states(rt: HostRuntime) {
    let a = Asserting(&rt);
    let alloc = rt.alloc();
    for state in &STATES {
        assert_state(&a, alloc, state);
    }
    let states = again!(&a, states_of(alloc, TWO));
    assert_put(&a, alloc, &states, TWO);
    drop(states);
    let other = Unsupported::new(CowSlice::Borrowed(b"abc"));
    let other = SessionStateChange::Unsupported(other);
    assert_change(&a, alloc, other, &[b"abc"], b"");
}
