//! The states of a session, as they stand in an OK packet: each a type and the data of its change.
//!
//!     for state in states_of(alloc, bytes)?.iter() {
//!         let change = state.decode(alloc)?;
//!     }

ghost use Rattle.std.specs.Prelude.{◌≡◌, IfOk, None, [], map, option_map};
ghost use Rattle.std.specs.Cow.{cow_slice_items};
ghost use Rattle.std.specs.List.{flat_map};
ghost use Rattle.mysql_fields.specs.Laws.{unsized};
ghost use Rattle.mysql_fields.specs.Wire.{Appends, GivesPart};
ghost use Rattle.mysql_ok_packets.specs.Reading.{GivesValue, value_at};
ghost use Rattle.mysql_ok_packets.specs.SessionStates.{IsState, State, change_at, state, state_at, state_of};
ghost use Rattle.mysql_ok_packets.specs.SessionStates.{states_at, type_of};
ghost use Rattle.mysql_ok_packets.specs.StateLaws.{state_at-back};
ghost use Rattle.mysql_ok_packets.specs.SessionStateViews.{change_view, state_view};

use crate::change::SessionStateChange;
use crate::to_end::{parse_to_end, put_all};
use mysql_buf::ParseBuf;
use mysql_const::SessionStateType;
use mysql_field_constants::Const;
use mysql_fields::{
    LenEnc, MyDeserialize, MySerialize, ParseExt, RawBytes, Readable, ReadsBack, WireError,
    copy_bytes, own_bytes, read_lenenc_text,
};
use std::alloc::{AllocError, Global};
use std::borrow::CowSlice;

/// The type of a change of a session's state, and the bytes that tell it.
///
/// Promise: its bytes are a function of its type and data, and any bytes are read exactly as its
/// layout says (`state`, `state_at`).
///
/// MySQL: Client/Server Protocol, "OK_Packet", 'Session State Information'.
#[derive(Debug, PartialEq, Eq, Drop)]
pub struct SessionStateInfo<'a> {
    data_type: SessionStateType,
    data: CowSlice<'a, u8>,
}

impl<'a> SessionStateInfo<'a> {
    /// A state of this type, which these bytes tell.
    pub fn new(data_type: SessionStateType, bytes: CowSlice<'a, u8>) -> SessionStateInfo<'a>
        ensures { state_view result ≡ record { data_type = data_type; content = cow_slice_items bytes.entry } }
    {
        SessionStateInfo {
            data_type,
            data: bytes,
        }
    }

    /// The state that tells this change: of its type, with the bytes that it is written as. An
    /// unsupported change has no type, and no state.
    ///
    /// # Errors
    /// - `AllocError` for want of memory.
    pub fn of_change(
        alloc: Global,
        change: &SessionStateChange<'_>,
    ) -> Result<Option<SessionStateInfo<'static>>, AllocError>
        ensures { IfOk result (λ made. option_map state_view made ≡
            option_map (state_of (change_view change.now)) (type_of (change_view change.now))) }
    {
        let Some(data_type) = change.data_type() else {
            return Ok(None);
        };
        let mut data = Vec::new(alloc);
        change.serialize(&mut data)?;
        Ok(Some(SessionStateInfo::new(data_type, CowSlice::Owned(data))))
    }

    /// The type of the change.
    pub fn data_type(&self) -> SessionStateType
        ensures { result ≡ (state_view self.now).data_type }
    {
        self.data_type
    }

    /// The bytes that tell the change.
    pub fn data_ref(&self) -> &[u8]
        ensures { result.now ≡ (state_view self.now).content }
    {
        self.data.as_slice()
    }

    /// The change that the bytes tell; bytes that are left behind it are ignored.
    ///
    /// Promise: exactly the change is answered that the data tell by their type, whatever bytes are
    /// left behind it (`change_at`).
    ///
    /// # Errors
    /// - `UnexpectedEof` where a text is cut off.
    /// - `Memory`.
    pub fn decode(&self, alloc: Global) -> Result<SessionStateChange<'_>, WireError>
        ensures { GivesValue change_view result
            (value_at (change_at (state_view self.now).data_type (state_view self.now).content)) }
    {
        ParseBuf(self.data.as_slice()).parse(alloc, self.data_type)
    }

    /// The state in bytes of its own: it borrows nothing.
    ///
    /// # Errors
    /// - `AllocError` for want of memory.
    pub fn into_owned(self, alloc: Global) -> Result<SessionStateInfo<'static>, AllocError>
        ensures { IfOk result (λ same. state_view same ≡ state_view self.entry) }
    {
        Ok(SessionStateInfo {
            data_type: self.data_type,
            data: own_bytes(alloc, self.data)?,
        })
    }

    /// A copy of the state, which borrows nothing.
    ///
    /// # Errors
    /// - `AllocError` for want of memory.
    pub fn clone(&self, alloc: Global) -> Result<SessionStateInfo<'static>, AllocError>
        ensures { IfOk result (λ copy. state_view copy ≡ state_view self.now) }
    {
        Ok(SessionStateInfo {
            data_type: self.data_type,
            data: copy_bytes(alloc, self.data.as_slice())?,
        })
    }
}

/// The type in one byte, and the bytes that tell the change after their length.
#[tactic(auto, unfolding(crate::specs::SessionStates::state))]
impl<'a> MySerialize for SessionStateInfo<'a> {
    ghost written = { λ info. state (state_view info) };

    fn serialize(&self, buf: &mut Vec<u8>) -> Result<(), AllocError> {
        let data_type: Const<SessionStateType, u8> = Const::new(self.data_type);
        let data: RawBytes<LenEnc> = RawBytes::from(self.data.as_slice());
        (data_type, data).serialize(buf)
    }
}

impl<'a> Readable for SessionStateInfo<'a> {
    type Ctx = ();

    ghost Shown = { State };

    ghost shown = { state_view };

    ghost kept = { state_view };

    ghost read_at = { λ _ bytes. state_at bytes };

    ghost IsReadBack = { λ _ info _. IsState (state_view info) };

    ghost sized = { λ _. unsized state_at };

    fn size() -> Option<usize>
        ensures { result ≡ None }
    {
        None
    }
}

impl<'a> ReadsBack for SessionStateInfo<'a> {
    ghost reads_back = { λ _ info. state_at-back (state_view info) };
}

/// Refused by `UnexpectedEof` where there is no byte, then by `UnknownValue` for a type without a
/// name. Then it is refused by `UnexpectedEof` where the data are cut off.
///
/// MySQL: Client/Server Protocol, "OK_Packet", 'Session State Information'.
#[tactic(auto, unfolding(crate::specs::SessionStates::state_at))]
impl<'de> MyDeserialize<'de> for SessionStateInfo<'de> {
    // Session State Information:
    //   int<1>          type
    //   string<lenenc>  data
    fn deserialize(
        alloc: Global,
        _ctx: (),
        buf: &mut ParseBuf<'de>,
    ) -> Result<SessionStateInfo<'de>, WireError> {
        let mut rest = *buf;
        let data_type: Const<SessionStateType, u8> = rest.parse(alloc, ())?;
        let data = CowSlice::Borrowed(read_lenenc_text(&mut rest)?);
        *buf = rest;
        Ok(SessionStateInfo {
            data_type: data_type.0,
            data,
        })
    }
}

/// The states that stand one after another in these bytes, to their end.
///
/// Promise: exactly the states that stand one after another to the end are answered, or the refusal
/// of the first that doesn't read.
///
/// # Errors
/// - That of the first state that is refused.
/// - `Memory`.
///
/// MySQL: Client/Server Protocol, "OK_Packet", 'Session State Information'.
#[tactic(auto, using(crate::proofs::SessionStatesBack::states_eat))]
pub fn states_of(alloc: Global, bytes: &[u8]) -> Result<Vec<SessionStateInfo<'_>>, WireError>
    ensures { GivesPart (λ all. map state_view all.items) [] result (states_at bytes.now) }
{
    parse_to_end(alloc, ParseBuf(bytes))
}

/// Appends these states one after another, as an OK packet has them: what `OkPacket::new` takes.
/// Where memory is refused nothing is appended.
///
/// MySQL: Client/Server Protocol, "OK_Packet", 'Session State Information'.
pub fn put_states(states: &[SessionStateInfo<'_>], buf: &mut Vec<u8>) -> Result<(), AllocError>
    ensures { Appends result buf.old.items buf.new.items (flat_map state (map state_view states.now)) }
{
    put_all(states, buf)
}
