//! Changes of a session's state: what an entry of an OK packet tells of the session.
//!
//!     let state = SessionStateType::try_from(number)?;
//!     let is_schema = state == SessionStateType::SESSION_TRACK_SCHEMA;

ghost use Rattle.std.specs.Prelude.{◌≡◌};
ghost use Rattle.mysql_const.specs.Tables.{ReadsAs};
ghost use Rattle.mysql_const.specs.SessionStates.{session_state_number, session_state_named};

use crate::unknown::write_unknown_number;
use std::error::Error;
use std::fmt;
use std::fmt::{Display, Formatter, Write};

/// What of a session changed, as an OK packet tells it.
///
/// MySQL: Client/Server Protocol, "OK_Packet", 'Session State Information' (enum_session_state_type).
#[allow(non_camel_case_types)]
#[derive(Clone, Copy, PartialEq, Eq, Hash, Debug)]
pub enum SessionStateType {
    SESSION_TRACK_SYSTEM_VARIABLES = 0,
    SESSION_TRACK_SCHEMA = 1,
    SESSION_TRACK_STATE_CHANGE = 2,
    SESSION_TRACK_GTIDS = 3,
    SESSION_TRACK_TRANSACTION_CHARACTERISTICS = 4,
    SESSION_TRACK_TRANSACTION_STATE = 5,
}

/// A number that no [`SessionStateType`] has.
#[derive(Clone, Copy, PartialEq, Eq, Debug)]
pub struct UnknownSessionStateType(pub u8);

impl Error for UnknownSessionStateType {}

impl Display for UnknownSessionStateType {
    fn fmt<W: Write>(&self, f: &mut Formatter<W>) -> fmt::Result {
        write_unknown_number(f, "session state type", i32::from(self.0))
    }
}

/// The number of a [`SessionStateType`].
impl From<SessionStateType> for u8 {
    ghost from_gives = { λ state number. number ≡ session_state_number state };

    fn from(state: SessionStateType) -> u8 {
        state as u8
    }
}

/// The [`SessionStateType`] of a number. A number without a name is refused, and the refusal carries it.
impl TryFrom<u8> for SessionStateType {
    type Error = UnknownSessionStateType;

    ghost try_from_gives = { λ number answer. ReadsAs (session_state_named number)
        (λ unknown. unknown.0) number answer };

    fn try_from(number: u8) -> Result<SessionStateType, UnknownSessionStateType> {
        match number {
            0 => Ok(SessionStateType::SESSION_TRACK_SYSTEM_VARIABLES),
            1 => Ok(SessionStateType::SESSION_TRACK_SCHEMA),
            2 => Ok(SessionStateType::SESSION_TRACK_STATE_CHANGE),
            3 => Ok(SessionStateType::SESSION_TRACK_GTIDS),
            4 => Ok(SessionStateType::SESSION_TRACK_TRANSACTION_CHARACTERISTICS),
            5 => Ok(SessionStateType::SESSION_TRACK_TRANSACTION_STATE),
            _ => Err(UnknownSessionStateType(number)),
        }
    }
}
