//! Changes of a session's state, by the type that a state names.
//!
//!     match state.decode(alloc)? {
//!         SessionStateChange::Schema(schema) => ..,
//!         _ => ..,
//!     }

ghost use Rattle.std.specs.Prelude.{◌≡◌, IfOk, None, map, true};
ghost use Rattle.std.specs.List.{flat_map};
ghost use Rattle.mysql_fields.specs.Laws.{unsized};
ghost use Rattle.mysql_fields.specs.Wire.{Appends, Tells};
ghost use Rattle.mysql_ok_packets.specs.SessionStates.{Change, IsReadBy, change, change_at, tracking_at, type_of};
ghost use Rattle.mysql_ok_packets.specs.SessionStates.{variable};
ghost use Rattle.mysql_ok_packets.specs.StateLaws.{change_at-back};
ghost use Rattle.mysql_ok_packets.specs.SessionStateViews.{change_view, variable_view};

use crate::members::{Gtids, Schema, TransactionCharacteristics, TransactionState, Unsupported};
use crate::to_end::{parse_to_end, put_all};
use crate::variable::SystemVariable;
use mysql_buf::{BufMutExt, ParseBuf};
use mysql_const::SessionStateType;
use mysql_field_lists::{Seq, Unknown};
use mysql_fields::{
    MyDeserialize, MySerialize, ParseExt, Readable, ReadsBack, WireError, read_lenenc_text,
};
use std::alloc::{AllocError, Global};
use std::borrow::CowSlice;

/// A change of a session's state.
///
/// MySQL: Client/Server Protocol, "OK_Packet", 'Session State Information'.
#[derive(Debug, PartialEq, Eq, Drop)]
pub enum SessionStateChange<'a> {
    /// Whether changes of the state are tracked.
    IsTracked(bool),
    /// The schema that became the default.
    Schema(Schema<'a>),
    /// The system variables that got values.
    SystemVariables(Vec<SystemVariable<'a>>),
    /// The GTIDs of a transaction that was committed.
    Gtids(Gtids<'a>),
    /// How the next transaction is to be begun.
    TransactionCharacteristics(TransactionCharacteristics<'a>),
    /// The state of the transaction.
    TransactionState(TransactionState<'a>),
    /// A change of a type without a name. It is written, and no type reads it.
    Unsupported(Unsupported<'a>),
}

// The same variables, which borrow nothing.
fn owned_variables<'b>(
    alloc: Global,
    all: Vec<SystemVariable<'_>>,
) -> Result<Vec<SystemVariable<'b>>, AllocError>
    ensures { IfOk result (λ same. map variable_view same.items ≡ map variable_view all.entry.items) }
{
    let mut same = Vec::new(alloc);
    for one in all {
        same.push(one.into_owned(alloc)?)?;
    }
    Ok(same)
}

// Copies of variables, which borrow nothing.
fn copied_variables<'b>(
    alloc: Global,
    all: &[SystemVariable<'_>],
) -> Result<Vec<SystemVariable<'b>>, AllocError>
    ensures { IfOk result (λ copies. map variable_view copies.items ≡ map variable_view all.now) }
{
    let mut copies = Vec::new(alloc);
    for one in all {
        copies.push(one.clone(alloc)?)?;
    }
    Ok(copies)
}

impl<'a> SessionStateChange<'a> {
    /// The type that a state which tells this change has; an unsupported change has none.
    pub fn data_type(&self) -> Option<SessionStateType>
        ensures { result ≡ type_of (change_view self.now) }
    {
        match self {
            SessionStateChange::IsTracked(_) => Some(SessionStateType::SESSION_TRACK_STATE_CHANGE),
            SessionStateChange::Schema(_) => Some(SessionStateType::SESSION_TRACK_SCHEMA),
            SessionStateChange::SystemVariables(_) => {
                Some(SessionStateType::SESSION_TRACK_SYSTEM_VARIABLES)
            }
            SessionStateChange::Gtids(_) => Some(SessionStateType::SESSION_TRACK_GTIDS),
            SessionStateChange::TransactionCharacteristics(_) => {
                Some(SessionStateType::SESSION_TRACK_TRANSACTION_CHARACTERISTICS)
            }
            SessionStateChange::TransactionState(_) => {
                Some(SessionStateType::SESSION_TRACK_TRANSACTION_STATE)
            }
            SessionStateChange::Unsupported(_) => None,
        }
    }

    /// The change in bytes of its own: it borrows nothing.
    ///
    /// # Errors
    /// - `AllocError` for want of memory.
    pub fn into_owned(self, alloc: Global) -> Result<SessionStateChange<'static>, AllocError>
        ensures { IfOk result (λ same. change_view same ≡ change_view self.entry) }
    {
        Ok(match self {
            SessionStateChange::IsTracked(tracked) => SessionStateChange::IsTracked(tracked),
            SessionStateChange::Schema(x) => SessionStateChange::Schema(x.into_owned(alloc)?),
            SessionStateChange::SystemVariables(all) => {
                SessionStateChange::SystemVariables(owned_variables(alloc, all)?)
            }
            SessionStateChange::Gtids(x) => SessionStateChange::Gtids(x.into_owned(alloc)?),
            SessionStateChange::TransactionCharacteristics(x) => {
                SessionStateChange::TransactionCharacteristics(x.into_owned(alloc)?)
            }
            SessionStateChange::TransactionState(x) => {
                SessionStateChange::TransactionState(x.into_owned(alloc)?)
            }
            SessionStateChange::Unsupported(x) => {
                SessionStateChange::Unsupported(x.into_owned(alloc)?)
            }
        })
    }

    /// A copy of the change, which borrows nothing.
    ///
    /// # Errors
    /// - `AllocError` for want of memory.
    pub fn clone(&self, alloc: Global) -> Result<SessionStateChange<'static>, AllocError>
        ensures { IfOk result (λ copy. change_view copy ≡ change_view self.now) }
    {
        Ok(match self {
            SessionStateChange::IsTracked(tracked) => SessionStateChange::IsTracked(*tracked),
            SessionStateChange::Schema(x) => SessionStateChange::Schema(x.clone(alloc)?),
            SessionStateChange::SystemVariables(all) => {
                SessionStateChange::SystemVariables(copied_variables(alloc, all.as_slice())?)
            }
            SessionStateChange::Gtids(x) => SessionStateChange::Gtids(x.clone(alloc)?),
            SessionStateChange::TransactionCharacteristics(x) => {
                SessionStateChange::TransactionCharacteristics(x.clone(alloc)?)
            }
            SessionStateChange::TransactionState(x) => {
                SessionStateChange::TransactionState(x.clone(alloc)?)
            }
            SessionStateChange::Unsupported(x) => SessionStateChange::Unsupported(x.clone(alloc)?),
        })
    }
}

// Appends all variables or none.
fn put_variables(all: &[SystemVariable], buf: &mut Vec<u8>) -> Result<(), AllocError>
    ensures { Appends result buf.old.items buf.new.items (flat_map variable (map variable_view all.now)) }
{
    put_all(all, buf)
}

/// Whether changes are tracked is written as the text `1` or `0` after its length. Variables are
/// written one after another. Each other member is written as its own type writes it.
#[tactic(auto, unfolding(crate::specs::SessionStates::change))]
impl<'a> MySerialize for SessionStateChange<'a> {
    ghost written = { λ c. change (change_view c) };

    fn serialize(&self, buf: &mut Vec<u8>) -> Result<(), AllocError> {
        match self {
            SessionStateChange::IsTracked(true) => buf.put_lenenc_str(b"1"),
            SessionStateChange::IsTracked(false) => buf.put_lenenc_str(b"0"),
            SessionStateChange::Schema(x) => x.serialize(buf),
            SessionStateChange::SystemVariables(all) => put_variables(all.as_slice(), buf),
            SessionStateChange::Gtids(x) => x.serialize(buf),
            SessionStateChange::TransactionCharacteristics(x) => x.serialize(buf),
            SessionStateChange::TransactionState(x) => x.serialize(buf),
            SessionStateChange::Unsupported(x) => x.serialize(buf),
        }
    }
}

impl<'a> Readable for SessionStateChange<'a> {
    type Ctx = SessionStateType;

    ghost AsksForMemory = { true };

    ghost Shown = { Change };

    ghost shown = { change_view };

    ghost kept = { change_view };

    ghost read_at = { change_at };

    ghost IsReadBack = { λ type c rest. IsReadBy type (change_view c) rest };

    ghost sized = { λ type. unsized (change_at type) };

    fn size() -> Option<usize>
        ensures { result ≡ None }
    {
        None
    }
}

impl<'a> ReadsBack for SessionStateChange<'a> {
    ghost reads_back = { λ type c. change_at-back type (change_view c) };
}

// Whether changes are tracked: the digit after its length, or alone, as MariaDB writes it.
fn read_tracking(buf: &mut ParseBuf<'_>) -> Result<bool, WireError>
    ensures { Tells (λ tracked. tracked) buf.old.0.now buf.new.0.now result (tracking_at buf.old.0.now) }
{
    let all = buf.0;
    if all == b"1".as_slice() || all == b"0".as_slice() {
        *buf = ParseBuf(&[]);
        return Ok(all == b"1".as_slice());
    }
    let text = read_lenenc_text(buf)?;
    Ok(text == b"1".as_slice())
}

/// The change of this type. Refused by `UnexpectedEof` where a text is cut off, and by `Memory`.
/// Bytes behind a text are left; variables and GTIDs stand to the end. Of MariaDB a change of the
/// tracking is read too, whose data is the digit `0` or `1` alone, without a length.
///
/// MySQL: Client/Server Protocol, "OK_Packet", 'Session State Information'; MariaDB: Client/Server
/// Protocol, "OK_Packet", 'Session State Info'.
#[tactic(auto, using(crate::proofs::SessionStatesBack::variables_eat), unfolding(crate::specs::SessionStates::change_at))]
impl<'de> MyDeserialize<'de> for SessionStateChange<'de> {
    // The data of a change, by its type:
    //   SESSION_TRACK_SYSTEM_VARIABLES             pairs of string<lenenc> name and string<lenenc> value, to the end
    //   SESSION_TRACK_SCHEMA                       string<lenenc> name of the schema
    //   SESSION_TRACK_STATE_CHANGE                 string<lenenc> "1" or "0"; MariaDB: the digit alone
    //   SESSION_TRACK_GTIDS                        string<EOF>
    //   SESSION_TRACK_TRANSACTION_CHARACTERISTICS  string<lenenc> statements
    //   SESSION_TRACK_TRANSACTION_STATE            string<lenenc> eight letters
    fn deserialize(
        alloc: Global,
        data_type: SessionStateType,
        buf: &mut ParseBuf<'de>,
    ) -> Result<SessionStateChange<'de>, WireError> {
        Ok(match data_type {
            SessionStateType::SESSION_TRACK_SYSTEM_VARIABLES => {
                let all = parse_to_end(alloc, *buf)?;
                *buf = ParseBuf(&[]);
                SessionStateChange::SystemVariables(all)
            }
            SessionStateType::SESSION_TRACK_SCHEMA => {
                SessionStateChange::Schema(buf.parse(alloc, ())?)
            }
            SessionStateType::SESSION_TRACK_STATE_CHANGE => {
                SessionStateChange::IsTracked(read_tracking(buf)?)
            }
            SessionStateType::SESSION_TRACK_GTIDS => {
                SessionStateChange::Gtids(buf.parse(alloc, ())?)
            }
            SessionStateType::SESSION_TRACK_TRANSACTION_CHARACTERISTICS => {
                SessionStateChange::TransactionCharacteristics(buf.parse(alloc, ())?)
            }
            SessionStateType::SESSION_TRACK_TRANSACTION_STATE => {
                SessionStateChange::TransactionState(buf.parse(alloc, ())?)
            }
        })
    }
}
