//! Errors that a server reports: a code, an SQL state and a message.
//!
//!     let state = Some(SqlState::new(*b"42S02"));
//!     let error = ServerError::new(1146, state, CowSlice::Borrowed(b"no such table"));

ghost use Rattle.std.specs.Prelude.{◌≡◌, [], IfOk, IsOkUnless, List, None, Some, length, option_map, ℕ};
ghost use Rattle.std.specs.Cow.{cow_slice_items, cow_str_bytes};
ghost use Rattle.mysql_fields.specs.Laws.{unsized};
ghost use Rattle.mysql_fields.specs.Wire.{TellsPart};
ghost use Rattle.mysql_fields.specs.declared.error.WireError.TheVariants as wire;
ghost use Rattle.mysql_server_packets.specs.PacketLaws.{server_error_at-back, sql_state_at-back, sql_state_at-sized};
ghost use Rattle.mysql_server_packets.specs.Packets.{IsServerError, ServerError as ServerErrorFields, server_error};
ghost use Rattle.mysql_server_packets.specs.Packets.{server_error_at, sql_state, sql_state_at, sql_state_fields_at};
ghost use Rattle.mysql_server_packets.specs.Packets.{state_part, state_part_at};
ghost use Rattle.mysql_fields.specs.Texts.{lossy_text};
ghost use Rattle.mysql_server_packets.specs.Texts.{server_error_text};
ghost use Rattle.mysql_server_packets.specs.Views.{server_error_view, sql_state_view};

use crate::headers::SqlStateMarker;
use bstr::BStr;
use mysql_buf::ParseBuf;
use mysql_fields::{
    EofBytes, MyDeserialize, MySerialize, ParseExt, RawBytes, Readable, ReadsBack, WireError,
    copy_bytes, in_order, lossy_text, own_bytes,
};
use std::alloc::{AllocError, Global};
use std::borrow::{CowSlice, CowStr};
use std::fmt;

/// The SQL state of an error: five bytes, usually digits and capital letters.
///
/// MySQL: Client/Server Protocol, "ERR_Packet".
#[derive(Clone, Copy, Debug, PartialEq, Eq, Hash)]
pub struct SqlState {
    state: [u8; 5],
}

impl SqlState {
    /// The state of these bytes.
    pub fn new(state: [u8; 5]) -> SqlState
        ensures { sql_state_view result ≡ state }
    {
        SqlState { state }
    }

    /// Its bytes.
    pub fn as_bytes(&self) -> [u8; 5]
        ensures { result ≡ sql_state_view self.now }
    {
        self.state
    }

    /// Its bytes as text, where those that aren't UTF-8 are replaced.
    ///
    /// # Errors
    /// - `Memory`.
    pub fn as_str(&self, alloc: Global) -> Result<CowStr<'_>, WireError>
        ensures memory { IsOkUnless result wire.Memory }
        ensures value { IfOk result (λ text. cow_str_bytes text ≡ lossy_text (sql_state_view self.now)) }
    {
        lossy_text(alloc, self.state.as_slice())
    }
}

/// `#` and the bytes.
#[tactic(auto, unfolding(crate::specs::Packets::sql_state))]
impl MySerialize for SqlState {
    ghost written = { λ s. sql_state (sql_state_view s) };

    fn serialize(&self, buf: &mut Vec<u8>) -> Result<(), AllocError> {
        in_order!(SqlStateMarker::new(), self.state).serialize(buf)
    }
}

impl Readable for SqlState {
    type Ctx = ();

    ghost SIZE = { Some 6 };

    ghost Shown = { List ℕ };

    ghost shown = { sql_state_view };

    ghost kept = { sql_state_view };

    ghost read_at = { λ _ bytes. sql_state_at bytes };

    ghost IsReadBack = { λ _ s _. length (sql_state_view s) ≡ 5 };

    ghost sized = { λ _. sql_state_at-sized };

    fn size() -> Option<usize>
        ensures { result ≡ Some 6 }
    {
        Some(6)
    }
}

impl ReadsBack for SqlState {
    ghost reads_back = { λ _ s. sql_state_at-back (sql_state_view s) };
}

#[tactic(auto, unfolding(crate::specs::Packets::sql_state_fields_at))]
fn sql_state_of(alloc: Global, rest: &mut ParseBuf) -> Result<SqlState, WireError>
    ensures { TellsPart sql_state_view rest.new.0.now result (sql_state_fields_at rest.old.0.now) }
{
    let _marker: SqlStateMarker = rest.parse(alloc, ())?;
    let state: [u8; 5] = rest.parse(alloc, ())?;
    Ok(SqlState { state })
}

/// Reads a state. Refused by BadConstant for another first byte than `#`.
///
/// MySQL: Client/Server Protocol, "ERR_Packet".
#[tactic(auto, using(crate::proofs::Rules::sizes))]
impl<'de> MyDeserialize<'de> for SqlState {
    // ERR_Packet, with CLIENT_PROTOCOL_41:
    //   string<1>  sql_state_marker "#"
    //   string<5>  sql_state
    fn deserialize(
        alloc: Global,
        _ctx: (),
        buf: &mut ParseBuf<'de>,
    ) -> Result<SqlState, WireError> {
        let mut rest = *buf;
        let state = sql_state_of(alloc, &mut rest)?;
        *buf = rest;
        Ok(state)
    }
}

/// An error that the server reports. Its own bytes begin behind its code.
///
/// Promise: it is written as its state, where it has one, and its message. It is read by its code
/// and whether the protocol has states. Its shown text is stated (`server_error_at`).
///
/// MySQL: Client/Server Protocol, "ERR_Packet".
#[derive(Debug, PartialEq, Drop)]
pub struct ServerError<'a> {
    code: u16,
    state: Option<SqlState>,
    message: CowSlice<'a, u8>,
}

impl<'a> ServerError<'a> {
    /// An error of this code, with this state and this message.
    pub fn new(code: u16, state: Option<SqlState>, message: CowSlice<'a, u8>) -> ServerError<'a>
        ensures { server_error_view result ≡
            record {
              error_code = code;
              sql_state = option_map sql_state_view state;
              error_message =
                  cow_slice_items message.entry;
            } }
    {
        ServerError {
            code,
            state,
            message,
        }
    }

    /// The error's number.
    pub fn error_code(&self) -> u16
        ensures { result ≡ (server_error_view self.now).error_code }
    {
        self.code
    }

    /// Its SQL state, where it has one.
    pub fn sql_state_ref(&self) -> Option<&SqlState>
        ensures { option_map (λ state. sql_state_view state.now) result ≡ (server_error_view self.now).sql_state }
    {
        match &self.state {
            Some(state) => Some(state),
            None => None,
        }
    }

    /// Its text, as bytes.
    pub fn message_ref(&self) -> &[u8]
        ensures { result.now ≡ (server_error_view self.now).error_message }
    {
        self.message.as_slice()
    }

    /// Its text, where bytes that aren't UTF-8 are replaced.
    ///
    /// # Errors
    /// - `Memory`.
    pub fn message_str(&self, alloc: Global) -> Result<CowStr<'_>, WireError>
        ensures memory { IsOkUnless result wire.Memory }
        ensures value { IfOk result (λ text. cow_str_bytes text ≡
            lossy_text (server_error_view self.now).error_message) }
    {
        lossy_text(alloc, self.message_ref())
    }

    /// The error in bytes of its own: it borrows nothing.
    ///
    /// # Errors
    /// - `AllocError` for want of memory.
    pub fn into_owned(self, alloc: Global) -> Result<ServerError<'static>, AllocError>
        ensures { IfOk result (λ owned. server_error_view owned ≡ server_error_view self.entry) }
    {
        Ok(ServerError {
            code: self.code,
            state: self.state,
            message: own_bytes(alloc, self.message)?,
        })
    }

    /// A copy, which borrows nothing.
    ///
    /// # Errors
    /// - `AllocError` for want of memory.
    pub fn clone(&self, alloc: Global) -> Result<ServerError<'static>, AllocError>
        ensures { IfOk result (λ copy. server_error_view copy ≡ server_error_view self.now) }
    {
        Ok(ServerError {
            code: self.code,
            state: self.state,
            message: copy_bytes(alloc, self.message.as_slice())?,
        })
    }
}

// A state, where there is one.
#[derive(Clone, Copy)]
struct StatePart(Option<SqlState>);

impl MySerialize for StatePart {
    ghost written = { λ part. state_part (option_map sql_state_view part.0) };

    fn serialize(&self, buf: &mut Vec<u8>) -> Result<(), AllocError> {
        match self.0 {
            Some(state) => state.serialize(buf),
            None => Ok(()),
        }
    }
}

/// The state, where there is one, and the message.
#[tactic(auto, unfolding(crate::specs::Packets::server_error))]
impl<'a> MySerialize for ServerError<'a> {
    ghost written = { λ p. server_error (server_error_view p) };

    fn serialize(&self, buf: &mut Vec<u8>) -> Result<(), AllocError> {
        let message: RawBytes<EofBytes> = RawBytes::new(CowSlice::Borrowed(self.message_ref()));
        in_order!(StatePart(self.state), message).serialize(buf)
    }
}

/// What has to be known of an error: its code, and whether the server speaks the protocol of version 4.1.
impl<'a> Readable for ServerError<'a> {
    type Ctx = (u16, bool);

    ghost Shown = { ServerErrorFields };

    ghost shown = { server_error_view };

    ghost kept = { server_error_view };

    ghost read_at = { λ ctx bytes. server_error_at ctx.1 ctx.0 bytes };

    ghost IsReadBack = { λ ctx p rest. IsServerError ctx.1 ctx.0 (server_error_view p) × (rest ≡ []) };

    ghost sized = { λ ctx. unsized (server_error_at ctx.1 ctx.0) };

    fn size() -> Option<usize>
        ensures { result ≡ None }
    {
        None
    }
}

impl<'a> ReadsBack for ServerError<'a> {
    ghost reads_back = { λ ctx p rest h. server_error_at-back ctx.1 ctx.0 (server_error_view p) rest h.0 h.1 };
}

// The state, where the protocol has one.
fn state_of(
    alloc: Global,
    protocol_41: bool,
    rest: &mut ParseBuf,
) -> Result<Option<SqlState>, WireError>
    ensures { TellsPart (option_map sql_state_view) rest.new.0.now result (state_part_at protocol_41 rest.old.0.now) }
{
    if protocol_41 {
        let state: SqlState = rest.parse(alloc, ())?;
        Ok(Some(state))
    } else {
        Ok(None)
    }
}

/// Reads an error of this code. Where the server speaks the protocol of version 4.1, `#` and five
/// bytes of state come first. The message is all that is left. Refused by UnexpectedEof below six
/// bytes of state, then by BadConstant for another first byte.
///
/// MySQL: Client/Server Protocol, "ERR_Packet".
#[tactic(auto, unfolding(crate::specs::Packets::server_error_at))]
impl<'de> MyDeserialize<'de> for ServerError<'de> {
    // ERR_Packet, behind its code:
    //   string<1>    sql_state_marker "#", with CLIENT_PROTOCOL_41
    //   string<5>    sql_state, with CLIENT_PROTOCOL_41
    //   string<EOF>  error_message
    fn deserialize(
        alloc: Global,
        ctx: (u16, bool),
        buf: &mut ParseBuf<'de>,
    ) -> Result<ServerError<'de>, WireError> {
        let mut rest = *buf;
        let state = state_of(alloc, ctx.1, &mut rest)?;
        let message = CowSlice::Borrowed(rest.eat_all());
        *buf = rest;
        Ok(ServerError {
            code: ctx.0,
            state,
            message,
        })
    }
}

/// Shown as `ERROR 1096 (HY000): No tables used`, or as `ERROR 1096: No tables used` without a state.
impl<'a> fmt::Display for ServerError<'a> {
    ghost output = { λ p. Some (server_error_text (server_error_view p)) };

    fn fmt<W: fmt::Write>(&self, f: &mut fmt::Formatter<W>) -> fmt::Result {
        let message = BStr::new(self.message.as_slice());
        match &self.state {
            Some(state) => {
                let state = BStr::new(&state.state);
                write!(f, "ERROR {} ({state}): {message}", self.code)
            }
            None => write!(f, "ERROR {}: {message}", self.code),
        }
    }
}
