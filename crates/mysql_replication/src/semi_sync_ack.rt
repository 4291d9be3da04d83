//! The acknowledgement of an event by a replica: a position in the binary log, and the file.
//!
//!     SemiSyncAckPacket::new(position, filename).serialize(&mut payload)?;

ghost use Rattle.std.specs.Prelude.{◌≡◌, [], None};
ghost use Rattle.std.specs.Cow.{cow_slice_items};
ghost use Rattle.mysql_fields.specs.Laws.{unsized};
ghost use Rattle.mysql_fields.specs.Wire.{TellsPart};
ghost use Rattle.mysql_replication.specs.PacketLaws.{semi_sync_ack_at-back};
ghost use Rattle.mysql_replication.specs.Packets.{IsSemiSyncAck, SemiSyncAck, semi_sync_ack, semi_sync_ack_at};
ghost use Rattle.mysql_replication.specs.Packets.{semi_sync_ack_fields_at};
ghost use Rattle.mysql_replication.specs.Views.{IsLossyText, semi_sync_ack_view};

use crate::headers::SemiSyncAckPacketPacketHeader;
use mysql_buf::ParseBuf;
use mysql_fields::{
    EofBytes, LeU64, MyDeserialize, MySerialize, ParseExt, RawBytes, RawInt, Readable, ReadsBack,
    WireError, in_order, lossy_text,
};
use std::alloc::{AllocError, Global};
use std::borrow::{CowSlice, CowStr};

/// A replica's acknowledgement of an event that asked for one.
///
/// It has the event's position in the binary log, and the file's name.
///
/// Promise: its bytes are a function of its fields. Any bytes are read exactly as its layout says,
/// with the first refusal from the left (`semi_sync_ack`, `semi_sync_ack_at`).
///
/// MySQL: Internals Manual, "Semi-Sync ACK packet".
#[derive(Drop)]
pub struct SemiSyncAckPacket<'a> {
    position: u64,
    filename: CowSlice<'a, u8>,
}

impl<'a> SemiSyncAckPacket<'a> {
    /// An acknowledgement of the event at this position of this file.
    pub fn new(position: u64, filename: CowSlice<'a, u8>) -> SemiSyncAckPacket<'a>
        ensures { semi_sync_ack_view result ≡
            record { position = position; filename = cow_slice_items filename.entry } }
    {
        SemiSyncAckPacket { position, filename }
    }

    /// The acknowledgement with this position.
    pub fn with_position(mut self, position: u64) -> SemiSyncAckPacket<'a>
        ensures { semi_sync_ack_view result ≡ record (semi_sync_ack_view self.entry) { position = position } }
    {
        self.position = position;
        self
    }

    /// The acknowledgement with this file's name.
    pub fn with_filename(mut self, filename: CowSlice<'a, u8>) -> SemiSyncAckPacket<'a>
        ensures { semi_sync_ack_view result ≡
            record (semi_sync_ack_view self.entry) { filename = cow_slice_items filename.entry } }
    {
        self.filename = filename;
        self
    }

    /// The event's position.
    pub fn position(&self) -> u64
        ensures { result ≡ (semi_sync_ack_view self.now).position }
    {
        self.position
    }

    /// The bytes of the file's name.
    pub fn filename_raw(&self) -> &[u8]
        ensures { result.now ≡ (semi_sync_ack_view self.now).filename }
    {
        self.filename.as_slice()
    }

    /// The file's name as text, where bytes that aren't UTF-8 are replaced.
    ///
    /// # Errors
    /// - `Memory`.
    pub fn filename(&self, alloc: Global) -> Result<CowStr<'_>, WireError>
        ensures { IsLossyText result (semi_sync_ack_view self.now).filename }
    {
        lossy_text(alloc, self.filename_raw())
    }
}

#[tactic(auto, unfolding(crate::specs::Packets::semi_sync_ack))]
impl<'a> MySerialize for SemiSyncAckPacket<'a> {
    ghost written = { λ p. semi_sync_ack (semi_sync_ack_view p) };

    fn serialize(&self, buf: &mut Vec<u8>) -> Result<(), AllocError> {
        let position: RawInt<LeU64> = RawInt::new(self.position);
        let filename: RawBytes<EofBytes> = RawBytes::from(self.filename_raw());
        in_order!(SemiSyncAckPacketPacketHeader::new(), position, filename).serialize(buf)
    }
}

impl<'a> Readable for SemiSyncAckPacket<'a> {
    type Ctx = ();

    ghost Shown = { SemiSyncAck };

    ghost shown = { semi_sync_ack_view };

    ghost kept = { semi_sync_ack_view };

    ghost read_at = { λ _ bytes. semi_sync_ack_at bytes };

    ghost IsReadBack = { λ _ p rest. IsSemiSyncAck (semi_sync_ack_view p) × (rest ≡ []) };

    ghost sized = { λ _. unsized semi_sync_ack_at };

    fn size() -> Option<usize>
        ensures { result ≡ None }
    {
        None
    }
}

impl<'a> ReadsBack for SemiSyncAckPacket<'a> {
    ghost reads_back = { λ _ p rest h. semi_sync_ack_at-back (semi_sync_ack_view p) rest h.0 h.1 };
}

#[tactic(auto, unfolding(crate::specs::Packets::semi_sync_ack_fields_at))]
fn fields_from<'de>(
    alloc: Global,
    rest: &mut ParseBuf<'de>,
) -> Result<SemiSyncAckPacket<'de>, WireError>
    ensures { TellsPart semi_sync_ack_view rest.new.0.now result (semi_sync_ack_fields_at rest.old.0.now) }
{
    let _header: SemiSyncAckPacketPacketHeader = rest.parse(alloc, ())?;
    let position = rest.checked_eat_u64_le().ok_or(WireError::UnexpectedEof)?;
    let filename = CowSlice::Borrowed(rest.eat_all());
    Ok(SemiSyncAckPacket::new(position, filename))
}

/// Reads an acknowledgement. Refused by UnexpectedEof where there are fewer than 9 bytes, then by
/// BadConstant for another first byte.
///
/// MySQL: Internals Manual, "Semi-Sync ACK packet".
#[tactic(auto, unfolding(crate::specs::Packets::semi_sync_ack_at))]
impl<'de> MyDeserialize<'de> for SemiSyncAckPacket<'de> {
    // Semi-Sync ACK packet:
    //   int<1>       magic number ef
    //   int<8>       binlog position
    //   string<EOF>  binlog filename
    fn deserialize(
        alloc: Global,
        _ctx: (),
        buf: &mut ParseBuf<'de>,
    ) -> Result<SemiSyncAckPacket<'de>, WireError> {
        if buf.0.len() < 9 {
            return Err(WireError::UnexpectedEof);
        }
        let mut rest = *buf;
        let packet = fields_from(alloc, &mut rest)?;
        *buf = rest;
        Ok(packet)
    }
}
