//! The request for the binary log without the transactions that are known.
//!
//!     let request = ComBinlogDumpGtid::new(server_id).with_sid(alloc, sid)?;
//!     request.serialize(&mut payload)?;

ghost use Rattle.std.specs.Prelude.{◌≡◌, ◌^◌, ◌-◌, ◌++◌, ◌∷◌, [], IfOk, None, map, true};
ghost use Rattle.std.specs.Cow.{cow_slice_items};
ghost use Rattle.mysql_buf.specs.Writing.{front};
ghost use Rattle.mysql_replication.specs.Sids.{sid_view};
ghost use Rattle.mysql_fields.specs.Laws.{unsized};
ghost use Rattle.mysql_fields.specs.Wire.{GivesPart, TellsPart};
ghost use Rattle.mysql_replication.specs.PacketLaws.{binlog_dump_gtid_at-back};
ghost use Rattle.mysql_replication.specs.Packets.{BinlogDumpGtid, IsBinlogDumpGtid, binlog_dump_gtid};
ghost use Rattle.mysql_replication.specs.Packets.{binlog_dump_gtid_at, binlog_dump_gtid_fields_at};
ghost use Rattle.mysql_replication.specs.Packets.{binlog_dump_gtid_front_at, binlog_dump_gtid_start_at, through_gtid};
ghost use Rattle.mysql_replication.specs.Packets.{whole_binlog_dump_gtid};
ghost use Rattle.mysql_replication.specs.Views.{IsLossyText, binlog_dump_gtid_view, start_view};

use crate::headers::ComBinlogDumpGtidHeader;
use crate::{Sid, SidBlock};
use bitflags::Flags;
use mysql_buf::{ParseBuf, front_of};
use mysql_const::BinlogDumpFlags;
use mysql_field_constants::Const;
use mysql_fields::{
    LeU16, LeU32, LeU64, MyDeserialize, MySerialize, ParseExt, RawBytes, RawInt, Readable,
    ReadsBack, U32Bytes, WireError, copy_bytes, in_order, lossy_text,
};
use std::alloc::{AllocError, Global};
use std::borrow::{CowSlice, CowStr};

/// The request for the binary log without the transactions that are known.
///
/// It has their sets, and a position of a file, of whose name at most 2^32 - 1 bytes are written.
/// `BINLOG_THROUGH_GTID` is set exactly where there are sets.
///
/// Promise: its bytes are a function of its fields. Any bytes are read exactly as its layout says,
/// with the first refusal from the left (`binlog_dump_gtid`, `binlog_dump_gtid_at`).
///
/// MySQL: Client/Server Protocol, "COM_BINLOG_DUMP_GTID".
#[derive(Debug, PartialEq, Eq, Hash, Drop)]
pub struct ComBinlogDumpGtid<'a> {
    flags: BinlogDumpFlags,
    server_id: u32,
    filename: CowSlice<'a, u8>,
    pos: u64,
    sids: CowSlice<'a, Sid<'a>>,
}

// The flags, with `BINLOG_THROUGH_GTID` exactly where there are sets.
fn through_gtid(sids: &[Sid<'_>], flags: BinlogDumpFlags) -> BinlogDumpFlags
    ensures { result.0 ≡ through_gtid (map sid_view sids.now) flags.0 }
{
    if sids.is_empty() {
        Flags::difference(flags, BinlogDumpFlags::BINLOG_THROUGH_GTID)
    } else {
        Flags::union(flags, BinlogDumpFlags::BINLOG_THROUGH_GTID)
    }
}

impl<'a> ComBinlogDumpGtid<'a> {
    /// The request of the replica with this id, from position 0, without flags and sets and with an empty name.
    pub fn new(server_id: u32) -> ComBinlogDumpGtid<'a>
        ensures { binlog_dump_gtid_view result ≡
            record { flags = 0; server_id = server_id; filename = []; pos = 0; sids = [] } }
    {
        ComBinlogDumpGtid {
            flags: BinlogDumpFlags(0),
            server_id,
            filename: CowSlice::Borrowed(&[]),
            pos: 0,
            sids: CowSlice::Borrowed(&[]),
        }
    }

    /// The request of the replica with this id.
    pub fn with_server_id(mut self, server_id: u32) -> ComBinlogDumpGtid<'a>
        ensures { binlog_dump_gtid_view result ≡ record (binlog_dump_gtid_view self.entry) { server_id = server_id } }
    {
        self.server_id = server_id;
        self
    }

    /// The request from this position.
    pub fn with_pos(mut self, pos: u64) -> ComBinlogDumpGtid<'a>
        ensures { binlog_dump_gtid_view result ≡ record (binlog_dump_gtid_view self.entry) { pos = pos } }
    {
        self.pos = pos;
        self
    }

    /// The request with this file's name.
    pub fn with_filename(mut self, filename: CowSlice<'a, u8>) -> ComBinlogDumpGtid<'a>
        ensures { binlog_dump_gtid_view result ≡
            record (binlog_dump_gtid_view self.entry) { filename = cow_slice_items filename.entry } }
    {
        self.filename = filename;
        self
    }

    /// The request with these flags, of which `BINLOG_THROUGH_GTID` is set where there are sets, and
    /// not where there are none.
    pub fn with_flags(mut self, flags: BinlogDumpFlags) -> ComBinlogDumpGtid<'a>
        ensures { binlog_dump_gtid_view result ≡
            record (binlog_dump_gtid_view self.entry) {
              flags =
                  through_gtid (binlog_dump_gtid_view self.entry).sids flags.0;
            } }
    {
        self.flags = through_gtid(self.sids.as_slice(), flags);
        self
    }

    /// The request with these sets in place of its own.
    pub fn with_sids(mut self, sids: CowSlice<'a, Sid<'a>>) -> ComBinlogDumpGtid<'a>
        ensures { binlog_dump_gtid_view result ≡
            record (binlog_dump_gtid_view self.entry) {
              flags =
                  through_gtid (map sid_view (cow_slice_items sids.entry))
                  (binlog_dump_gtid_view self.entry).flags;
              sids =
                  map sid_view (cow_slice_items sids.entry);
            } }
    {
        self.flags = through_gtid(sids.as_slice(), self.flags);
        self.sids = sids;
        self
    }

    /// The request with this set behind its others; borrowed ones are copied first.
    ///
    /// # Errors
    /// - `AllocError` for want of memory. The request is gone then.
    pub fn with_sid(self, alloc: Global, sid: Sid<'a>) -> Result<ComBinlogDumpGtid<'a>, AllocError>
        ensures { IfOk result (λ p. binlog_dump_gtid_view p ≡
            record (binlog_dump_gtid_view self.entry) {
              flags =
                  through_gtid (sid_view sid.entry ∷ []) (binlog_dump_gtid_view self.entry).flags;
              sids =
                  (binlog_dump_gtid_view self.entry).sids ++ sid_view sid.entry ∷ [];
            }) }
    {
        let flags = Flags::union(self.flags, BinlogDumpFlags::BINLOG_THROUGH_GTID);
        let sids = with_one_more(alloc, self.sids, sid)?;
        Ok(ComBinlogDumpGtid {
            flags,
            server_id: self.server_id,
            filename: self.filename,
            pos: self.pos,
            sids: CowSlice::Owned(sids),
        })
    }

    /// The replica's id.
    pub fn server_id(&self) -> u32
        ensures { result ≡ (binlog_dump_gtid_view self.now).server_id }
    {
        self.server_id
    }

    /// The flags.
    pub fn flags(&self) -> BinlogDumpFlags
        ensures { result.0 ≡ (binlog_dump_gtid_view self.now).flags }
    {
        self.flags
    }

    /// The bytes of the file's name: those that are written, at most 2^32 - 1.
    pub fn filename_raw(&self) -> &[u8]
        ensures { result.now ≡ front (binlog_dump_gtid_view self.now).filename (2 ^ 32 - 1) }
    {
        front_of(self.filename.as_slice(), u32::MAX as usize)
    }

    /// The file's name as text, where bytes that aren't UTF-8 are replaced.
    ///
    /// # Errors
    /// - `Memory`.
    pub fn filename(&self, alloc: Global) -> Result<CowStr<'_>, WireError>
        ensures { IsLossyText result (front (binlog_dump_gtid_view self.now).filename (2 ^ 32 - 1)) }
    {
        lossy_text(alloc, self.filename_raw())
    }

    /// The position.
    pub fn pos(&self) -> u64
        ensures { result ≡ (binlog_dump_gtid_view self.now).pos }
    {
        self.pos
    }

    /// The sets, in their order.
    pub fn sids(&self) -> &[Sid<'a>]
        ensures { map sid_view result.now ≡ (binlog_dump_gtid_view self.now).sids }
    {
        self.sids.as_slice()
    }

    /// Whether its file's name is written whole: it has less than 2^32 bytes.
    pub fn is_whole(&self) -> bool
        ensures { result ≡ whole_binlog_dump_gtid (binlog_dump_gtid_view self.now) }
    {
        self.filename.as_slice().len() <= u32::MAX as usize
    }

    /// A copy, which borrows nothing.
    ///
    /// # Errors
    /// - `AllocError` for want of memory.
    pub fn clone(&self, alloc: Global) -> Result<ComBinlogDumpGtid<'static>, AllocError>
        ensures { IfOk result (λ copy. binlog_dump_gtid_view copy ≡ binlog_dump_gtid_view self.now) }
    {
        let filename = copy_bytes(alloc, self.filename.as_slice())?;
        let sids = copies_of(alloc, self.sids.as_slice())?;
        Ok(ComBinlogDumpGtid {
            flags: self.flags,
            server_id: self.server_id,
            filename,
            pos: self.pos,
            sids: CowSlice::Owned(sids),
        })
    }
}

// The elements that are owned, and those that are borrowed.
fn owned_part<'a, T>(alloc: Global, all: CowSlice<'a, T>) -> (Vec<T>, &'a [T])
    ensures { result.0.items ++ result.1.now ≡ cow_slice_items all.entry }
{
    match all {
        CowSlice::Owned(own) => (own, &[]),
        CowSlice::Borrowed(others) => (Vec::new(alloc), others),
    }
}

// The sets, of which borrowed ones are copied, and this one behind them.
fn with_one_more<'a>(
    alloc: Global,
    sids: CowSlice<'a, Sid<'a>>,
    sid: Sid<'a>,
) -> Result<Vec<Sid<'a>>, AllocError>
    ensures { IfOk result (λ all. map sid_view all.items ≡
        map sid_view (cow_slice_items sids.entry) ++ sid_view sid.entry ∷ []) }
{
    let (mut all, others) = owned_part(alloc, sids);
    copy_into(alloc, &mut all, others)?;
    all.push(sid)?;
    Ok(all)
}

// Appends copies of sets, which borrow nothing.
fn copy_into(alloc: Global, copies: &mut Vec<Sid<'_>>, sids: &[Sid<'_>]) -> Result<(), AllocError>
    ensures { IfOk result (λ _. map sid_view copies.new.items ≡ map sid_view copies.old.items ++
        map sid_view sids.now) }
{
    for sid in sids {
        let copy = sid.clone(alloc)?;
        copies.push(copy)?;
    }
    Ok(())
}

// Copies of sets, which borrow nothing.
pub(crate) fn copies_of<'b>(alloc: Global, sids: &[Sid<'_>]) -> Result<Vec<Sid<'b>>, AllocError>
    ensures { IfOk result (λ copies. map sid_view copies.items ≡ map sid_view sids.now) }
{
    let mut copies = Vec::new(alloc);
    copy_into(alloc, &mut copies, sids)?;
    Ok(copies)
}

#[tactic(auto, unfolding(crate::specs::Packets::binlog_dump_gtid))]
impl<'a> MySerialize for ComBinlogDumpGtid<'a> {
    ghost written = { λ p. binlog_dump_gtid (binlog_dump_gtid_view p) };

    fn serialize(&self, buf: &mut Vec<u8>) -> Result<(), AllocError> {
        let header = ComBinlogDumpGtidHeader::new();
        let flags: RawInt<LeU16> = RawInt::new(self.flags.0);
        let server_id: RawInt<LeU32> = RawInt::new(self.server_id);
        let filename: RawBytes<U32Bytes> = RawBytes::from(self.filename.as_slice());
        let pos: RawInt<LeU64> = RawInt::new(self.pos);
        let block = SidBlock(CowSlice::Borrowed(self.sids.as_slice()));
        let block_len: RawInt<LeU32> = RawInt::new(block.byte_len());
        in_order!(header, flags, server_id, filename, pos, block_len, block).serialize(buf)
    }
}

impl<'a> Readable for ComBinlogDumpGtid<'a> {
    type Ctx = ();

    ghost AsksForMemory = { true };

    ghost Shown = { BinlogDumpGtid };

    ghost shown = { binlog_dump_gtid_view };

    ghost kept = { binlog_dump_gtid_view };

    ghost read_at = { λ _ bytes. binlog_dump_gtid_at bytes };

    ghost IsReadBack = { λ _ p _. IsBinlogDumpGtid (binlog_dump_gtid_view p) };

    ghost sized = { λ _. unsized binlog_dump_gtid_at };

    fn size() -> Option<usize>
        ensures { result ≡ None }
    {
        None
    }
}

impl<'a> ReadsBack for ComBinlogDumpGtid<'a> {
    ghost reads_back = { λ _ p. binlog_dump_gtid_at-back (binlog_dump_gtid_view p) };
}

// The flags and the replica's id.
#[tactic(auto, unfolding(crate::specs::Packets::binlog_dump_gtid_front_at))]
fn front_from(alloc: Global, rest: &mut ParseBuf) -> Result<(BinlogDumpFlags, u32), WireError>
    ensures { TellsPart (λ front. (front.0.0, front.1)) rest.new.0.now result
        (binlog_dump_gtid_front_at rest.old.0.now) }
{
    let _header: ComBinlogDumpGtidHeader = rest.parse(alloc, ())?;
    let flags: Const<BinlogDumpFlags, LeU16> = rest.parse(alloc, ())?;
    let server_id = rest.checked_eat_u32_le().ok_or(WireError::UnexpectedEof)?;
    Ok((flags.0, server_id))
}

// Where the log is to start.
#[derive(Clone, Copy)]
struct Start<'a> {
    filename: &'a [u8],
    pos: u64,
    block: &'a [u8],
}

#[tactic(auto, unfolding(crate::specs::Packets::binlog_dump_gtid_start_at))]
fn start_from<'de>(rest: &mut ParseBuf<'de>) -> Result<Start<'de>, WireError>
    ensures { TellsPart start_view rest.new.0.now result (binlog_dump_gtid_start_at rest.old.0.now) }
{
    let filename = rest.checked_eat_u32_str().ok_or(WireError::UnexpectedEof)?;
    let pos = rest.checked_eat_u64_le().ok_or(WireError::UnexpectedEof)?;
    let block = rest.checked_eat_u32_str().ok_or(WireError::UnexpectedEof)?;
    Ok(Start {
        filename,
        pos,
        block,
    })
}

// The fields in their order.
#[tactic(auto, unfolding(crate::specs::Packets::binlog_dump_gtid_fields_at))]
fn fields_from<'de>(
    alloc: Global,
    rest: &mut ParseBuf<'de>,
) -> Result<ComBinlogDumpGtid<'de>, WireError>
    ensures { GivesPart binlog_dump_gtid_view rest.new.0.now result (binlog_dump_gtid_fields_at rest.old.0.now) }
{
    let (flags, server_id) = front_from(alloc, rest)?;
    let start = start_from(rest)?;
    let sids: SidBlock = ParseBuf(start.block).parse(alloc, ())?;
    Ok(ComBinlogDumpGtid {
        flags,
        server_id,
        filename: CowSlice::Borrowed(start.filename),
        pos: start.pos,
        sids: sids.0,
    })
}

/// Reads a request. Refused by UnexpectedEof where there are fewer than 7 bytes, then by
/// BadConstant for another first byte. Then it is refused by UnknownValue for flags without a name.
/// Then it is refused by UnexpectedEof where the name, the position, the block or its sets are cut
/// off. Or it is refused by UnknownValue for a text that is no tag. Of these two it is whichever
/// stands first. Bytes behind the sets of the block are ignored.
///
/// MySQL: Client/Server Protocol, "COM_BINLOG_DUMP_GTID".
#[tactic(auto, unfolding(crate::specs::Packets::binlog_dump_gtid_at))]
impl<'de> MyDeserialize<'de> for ComBinlogDumpGtid<'de> {
    // COM_BINLOG_DUMP_GTID:
    //   int<1>       command 1e
    //   int<2>       flags
    //   int<4>       server-id
    //   int<4>       binlog-filename-len
    //   string<var>  binlog-filename
    //   int<8>       binlog-pos
    //   int<4>       data-size
    //   string<var>  data: a block of sets of identifiers
    fn deserialize(
        alloc: Global,
        _ctx: (),
        buf: &mut ParseBuf<'de>,
    ) -> Result<ComBinlogDumpGtid<'de>, WireError> {
        if buf.0.len() < 7 {
            return Err(WireError::UnexpectedEof);
        }
        let mut rest = *buf;
        let packet = fields_from(alloc, &mut rest)?;
        *buf = rest;
        Ok(packet)
    }
}
