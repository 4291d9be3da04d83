//! OK packets: how many rows a command changed, the last id, the server's state, and what it tells.
//!
//!     let packet = OkPacket::new(1, Some(7), status, 0, None, None);
//!     packet.serialize_as::<CommonOkPacket>(capabilities, status, &mut payload)?;

ghost use Rattle.std.specs.Prelude.{◌≡◌, IfOk, IsOkUnless, [], map, option_map};
ghost use Rattle.std.specs.Cow.{cow_str_bytes};
ghost use Rattle.mysql_fields.specs.Wire.{GivesPart};
ghost use Rattle.mysql_fields.specs.declared.error.WireError.TheVariants as wire;
ghost use Rattle.mysql_ok_packets.specs.SessionStateViews.{state_view};
ghost use Rattle.mysql_ok_packets.specs.OkPackets.{all_states_at, more_results_exist, unless_empty};
ghost use Rattle.mysql_fields.specs.Texts.{lossy_text};
ghost use Rattle.mysql_ok_packets.specs.OkPackets.{unless_zero};
ghost use Rattle.mysql_ok_packets.specs.Views.{IsPacketOf, body_view, bytes_view, ok_packet_view};
ghost use Rattle.mysql_ok_packets.specs.Written.{is_mysql_status, is_named_status, or_empty, or_zero};
ghost use Rattle.std.specs.Int.RustNames.{bit_and};

use crate::body::OkPacketBody;
use crate::{SessionStateInfo, states_of};
use bitflags::Flags;
use mysql_const::{MariadbStatusFlags, StatusFlags};
use mysql_field_constants::ConstValue;
use mysql_fields::{WireError, copy_bytes, lossy_text, own_bytes};
use std::alloc::{AllocError, Global};
use std::borrow::{CowSlice, CowStr};

/// An OK packet: a server's answer to a command that gives no rows.
///
/// It also ends a result set where EOF packets are deprecated. [`OkPacket::serialize_as`] writes it
/// as one of the four kinds.
///
/// MySQL: Client/Server Protocol, "OK_Packet".
#[derive(Debug, PartialEq, Eq, Drop)]
pub struct OkPacket<'a> {
    affected_rows: u64,
    last_insert_id: Option<u64>,
    status_flags: StatusFlags,
    warnings: u16,
    info: Option<CowSlice<'a, u8>>,
    session_state_info: Option<CowSlice<'a, u8>>,
}

/// Another result follows.
pub fn has_more_results(status: StatusFlags) -> bool
    ensures { result ≡ more_results_exist status.0 }
{
    status.contains(StatusFlags::SERVER_MORE_RESULTS_EXISTS)
}

/// Each bit of the status has a name, at MySQL or at MariaDB, whose own is ANSI_QUOTES. A packet
/// with another bit (bit 2) is refused where it is read.
///
/// Promise: that is so exactly where reading takes the status (`is_named_status`).
pub fn has_named_status(status: StatusFlags) -> bool
    ensures { result ≡ is_named_status status.0 }
{
    StatusFlags::from_number(status.0).is_some()
}

/// Each bit of the status has a name at MySQL: MariaDB's bit of ANSI_QUOTES isn't set either.
///
/// A whole reply is read and written by these bits alone.
///
/// Promise: bits 2 and 15 aren't set (`is_mysql_status`).
pub fn has_mysql_status(status: StatusFlags) -> bool
    ensures { result ≡ is_mysql_status status.0 }
{
    StatusFlags::from_bits(status.0).is_some()
}

// The bytes, where there are any.
fn unless_empty_of(bytes: &[u8]) -> Option<CowSlice<'_, u8>>
    ensures { bytes_view result ≡ unless_empty bytes.now }
{
    match bytes {
        [] => None,
        [..] => Some(CowSlice::Borrowed(bytes)),
    }
}

// The same bytes, if there are any.
fn where_not_empty<'a>(bytes: Option<CowSlice<'a, u8>>) -> Option<CowSlice<'a, u8>>
    ensures { bytes_view result ≡ unless_empty (or_empty (bytes_view bytes.entry)) }
{
    match bytes {
        Some(some) => {
            if some.as_slice().is_empty() {
                None
            } else {
                Some(some)
            }
        }
        None => None,
    }
}

// The bytes, or none of them.
fn or_empty_of<'a>(bytes: &'a Option<CowSlice<'_, u8>>) -> &'a [u8]
    ensures { result.now ≡ or_empty (bytes_view bytes.now) }
{
    match bytes {
        Some(bytes) => bytes.as_slice(),
        None => &[],
    }
}

// The number, or 0 for none.
fn or_zero_of(number: Option<u64>) -> u64
    ensures { result ≡ or_zero number }
{
    match number {
        Some(number) => number,
        None => 0,
    }
}

// An id of 0 is none.
fn unless_zero_of(id: u64) -> Option<u64>
    ensures { result ≡ unless_zero id }
{
    if id == 0 { None } else { Some(id) }
}

// The same bytes, which borrow nothing.
fn owned<'b>(
    alloc: Global,
    bytes: Option<CowSlice<'_, u8>>,
) -> Result<Option<CowSlice<'b, u8>>, AllocError>
    ensures { IfOk result (λ same. bytes_view same ≡ bytes_view bytes.entry) }
{
    match bytes {
        Some(bytes) => Ok(Some(own_bytes(alloc, bytes)?)),
        None => Ok(None),
    }
}

// A copy of the bytes, which borrows nothing.
fn copy_of<'b>(
    alloc: Global,
    bytes: &Option<CowSlice<'_, u8>>,
) -> Result<Option<CowSlice<'b, u8>>, AllocError>
    ensures { IfOk result (λ copy. bytes_view copy ≡ bytes_view bytes.now) }
{
    match bytes {
        Some(bytes) => Ok(Some(copy_bytes(alloc, bytes.as_slice())?)),
        None => Ok(None),
    }
}

// The bytes, where there are any.
fn lent<'a>(bytes: &'a Option<CowSlice<'_, u8>>) -> Option<&'a [u8]>
    ensures { option_map (λ some. some.now) result ≡ bytes_view bytes.now }
{
    match bytes {
        Some(bytes) => Some(bytes.as_slice()),
        None => None,
    }
}

impl<'a> OkPacket<'a> {
    // The packet of this body.
    pub(crate) fn of_body(body: OkPacketBody<'a>) -> OkPacket<'a>
        ensures { ok_packet_view result ≡ body_view body.entry }
    {
        OkPacket {
            affected_rows: body.affected_rows,
            last_insert_id: unless_zero_of(body.last_insert_id),
            status_flags: body.status_flags,
            warnings: body.warnings,
            info: unless_empty_of(body.info),
            session_state_info: unless_empty_of(body.session_state_info),
        }
    }

    /// The packet that says this, as a server sends it. An id of 0 is none, and so are an empty
    /// info and an empty session state, as in a packet that was read.
    pub fn new(
        affected_rows: u64,
        last_insert_id: Option<u64>,
        status_flags: StatusFlags,
        warnings: u16,
        info: Option<CowSlice<'a, u8>>,
        session_state_info: Option<CowSlice<'a, u8>>,
    ) -> OkPacket<'a>
        ensures { ok_packet_view result ≡ record {
          affected_rows = affected_rows;
          last_insert_id = unless_zero (or_zero last_insert_id);
          status_flags = status_flags.0;
          warnings = warnings;
          info = unless_empty (or_empty (bytes_view info.entry));
          session_state_info = unless_empty (or_empty (bytes_view session_state_info.entry));
        } }
    {
        OkPacket {
            affected_rows,
            last_insert_id: unless_zero_of(or_zero_of(last_insert_id)),
            status_flags,
            warnings,
            info: where_not_empty(info),
            session_state_info: where_not_empty(session_state_info),
        }
    }

    // The id, or 0 for none.
    pub(crate) fn id_or_zero(&self) -> u64
        ensures { result ≡ or_zero (ok_packet_view self.now).last_insert_id }
    {
        or_zero_of(self.last_insert_id)
    }

    // The info, or no bytes.
    pub(crate) fn info_or_empty(&self) -> &[u8]
        ensures { result.now ≡ or_empty (ok_packet_view self.now).info }
    {
        or_empty_of(&self.info)
    }

    // The session state, or no bytes.
    pub(crate) fn session_state_or_empty(&self) -> &[u8]
        ensures { result.now ≡ or_empty (ok_packet_view self.now).session_state_info }
    {
        or_empty_of(&self.session_state_info)
    }

    /// The packet in bytes of its own: it borrows nothing.
    ///
    /// # Errors
    /// - `AllocError` for want of memory.
    pub fn into_owned(self, alloc: Global) -> Result<OkPacket<'static>, AllocError>
        ensures { IfOk result (λ same. ok_packet_view same ≡ ok_packet_view self.entry) }
    {
        let info = owned(alloc, self.info)?;
        let session_state_info = owned(alloc, self.session_state_info)?;
        Ok(OkPacket {
            affected_rows: self.affected_rows,
            last_insert_id: self.last_insert_id,
            status_flags: self.status_flags,
            warnings: self.warnings,
            info,
            session_state_info,
        })
    }

    /// A copy of the packet, which borrows nothing.
    ///
    /// # Errors
    /// - `AllocError` for want of memory.
    pub fn clone(&self, alloc: Global) -> Result<OkPacket<'static>, AllocError>
        ensures { IfOk result (λ copy. ok_packet_view copy ≡ ok_packet_view self.now) }
    {
        let info = copy_of(alloc, &self.info)?;
        let session_state_info = copy_of(alloc, &self.session_state_info)?;
        Ok(OkPacket {
            affected_rows: self.affected_rows,
            last_insert_id: self.last_insert_id,
            status_flags: self.status_flags,
            warnings: self.warnings,
            info,
            session_state_info,
        })
    }

    /// How many rows the command changed.
    pub fn affected_rows(&self) -> u64
        ensures { result ≡ (ok_packet_view self.now).affected_rows }
    {
        self.affected_rows
    }

    /// The id that the command gave last, where it gave one.
    pub fn last_insert_id(&self) -> Option<u64>
        ensures { result ≡ (ok_packet_view self.now).last_insert_id }
    {
        self.last_insert_id
    }

    /// The server's state after the command. MariaDB's bit of ANSI_QUOTES is kept in it, without a
    /// name; [`OkPacket::mariadb_status_flags`] tells it.
    pub fn status_flags(&self) -> StatusFlags
        ensures { result.0 ≡ (ok_packet_view self.now).status_flags }
    {
        self.status_flags
    }

    /// What only MariaDB tells of its state: whether double quotes are of names (ANSI_QUOTES).
    ///
    /// MariaDB: Client/Server Protocol, "OK_Packet", 'Server status flag'.
    pub fn mariadb_status_flags(&self) -> MariadbStatusFlags
        ensures { result.0 ≡ bit_and (ok_packet_view self.now).status_flags 0x8000 }
    {
        MariadbStatusFlags::of(self.status_flags)
    }

    /// How many warnings there are.
    pub fn warnings(&self) -> u16
        ensures { result ≡ (ok_packet_view self.now).warnings }
    {
        self.warnings
    }

    /// The server's text on the command as bytes, where it isn't empty.
    pub fn info_ref(&self) -> Option<&[u8]>
        ensures { option_map (λ info. info.now) result ≡ (ok_packet_view self.now).info }
    {
        lent(&self.info)
    }

    /// The server's text on the command as text, where it isn't empty; bytes that aren't UTF-8 are
    /// replaced.
    ///
    /// # Errors
    /// - `Memory`.
    pub fn info_str(&self, alloc: Global) -> Result<Option<CowStr<'_>>, WireError>
        ensures memory { IsOkUnless result wire.Memory }
        ensures value { IfOk result (λ text. option_map cow_str_bytes text ≡
            option_map lossy_text (ok_packet_view self.now).info) }
    {
        match &self.info {
            Some(info) => Ok(Some(lossy_text(alloc, info.as_slice())?)),
            None => Ok(None),
        }
    }

    /// The changes of the session's state as bytes, where there are any.
    pub fn session_state_info_ref(&self) -> Option<&[u8]>
        ensures { option_map (λ state. state.now) result ≡ (ok_packet_view self.now).session_state_info }
    {
        lent(&self.session_state_info)
    }

    /// The changes of the session's state, in their order; none where there are none.
    ///
    /// Promise: exactly the states that stand in the session state are answered, none where there
    /// is none.
    ///
    /// # Errors
    /// - `UnexpectedEof` where one is cut off, or `UnknownValue` for a type without a name,
    ///   whichever stands first.
    /// - `Memory`.
    ///
    /// MySQL: Client/Server Protocol, "OK_Packet", 'Session State Information'.
    pub fn session_state_info(&self, alloc: Global) -> Result<Vec<SessionStateInfo<'_>>, WireError>
        ensures { GivesPart (λ all. map state_view all.items) [] result
            (all_states_at (ok_packet_view self.now).session_state_info) }
    {
        match &self.session_state_info {
            Some(bytes) => states_of(alloc, bytes.as_slice()),
            None => Ok(Vec::new(alloc)),
        }
    }
}

/// The packet of a body: an id of 0 is none, and so are an empty info and an empty session state. Never refused.
///
/// MySQL: Client/Server Protocol, "OK_Packet".
impl<'a> TryFrom<OkPacketBody<'a>> for OkPacket<'a> {
    type Error = WireError;

    ghost try_from_gives = { λ body answer. IsPacketOf body answer };

    fn try_from(body: OkPacketBody<'a>) -> Result<OkPacket<'a>, WireError> {
        Ok(OkPacket::of_body(body))
    }
}
