//! A request for the binary log, whichever packet carries it.
//!
//!     let request = BinlogRequest::new(alloc, server_id).with_use_gtid(true).with_sids(sids);
//!     let packet = request.as_cmd();

ghost use Rattle.std.specs.Prelude.{◌≡◌, [], false, IfOk, map};
ghost use Rattle.std.specs.Cow.{cow_slice_items};
ghost use Rattle.mysql_replication.specs.Sids.{sid_view};
ghost use Rattle.mysql_field_constants.specs.Either.{either_shown};
ghost use Rattle.mysql_replication.specs.Packets.{packet_of};
ghost use Rattle.mysql_replication.specs.Views.{IsLossyText, binlog_dump_gtid_view, binlog_dump_view, request_view};

use crate::Sid;
use crate::binlog_dump::ComBinlogDump;
use crate::binlog_dump_gtid::{ComBinlogDumpGtid, copies_of};
use bitflags::Flags;
use mysql_const::BinlogDumpFlags;
use mysql_field_constants::Either;
use mysql_fields::{WireError, copy_bytes, lossy_text};
use std::alloc::{AllocError, Global};
use std::borrow::{CowSlice, CowStr};

/// A request for the binary log, which [`ComBinlogDump`] or [`ComBinlogDumpGtid`] carries.
///
/// MySQL: Client/Server Protocol, "COM_BINLOG_DUMP" and "COM_BINLOG_DUMP_GTID".
#[derive(Debug, PartialEq, Eq, Hash, Drop)]
pub struct BinlogRequest<'a> {
    server_id: u32,
    use_gtid: bool,
    flags: BinlogDumpFlags,
    filename: CowSlice<'a, u8>,
    pos: u64,
    sids: Vec<Sid<'a>>,
}

impl<'a> BinlogRequest<'a> {
    /// The request of the replica with this id, from position 4.
    ///
    /// It has no flags and no sets, an empty name, and goes not by transactions.
    pub fn new(alloc: Global, server_id: u32) -> BinlogRequest<'a>
        ensures { request_view result ≡
            record {
              server_id = server_id;
              use_gtid = false;
              flags = 0;
              filename = [];
              pos =
                  4;
              sids = [];
            } }
    {
        BinlogRequest {
            server_id,
            use_gtid: false,
            flags: BinlogDumpFlags(0),
            filename: CowSlice::Borrowed(&[]),
            pos: 4,
            sids: Vec::new(alloc),
        }
    }

    /// The request of the replica with this id.
    pub fn with_server_id(mut self, server_id: u32) -> BinlogRequest<'a>
        ensures { request_view result ≡ record (request_view self.entry) { server_id = server_id } }
    {
        self.server_id = server_id;
        self
    }

    /// The request by transactions or not.
    pub fn with_use_gtid(mut self, use_gtid: bool) -> BinlogRequest<'a>
        ensures { request_view result ≡ record (request_view self.entry) { use_gtid = use_gtid } }
    {
        self.use_gtid = use_gtid;
        self
    }

    /// The request with these flags.
    pub fn with_flags(mut self, flags: BinlogDumpFlags) -> BinlogRequest<'a>
        ensures { request_view result ≡ record (request_view self.entry) { flags = flags.0 } }
    {
        self.flags = flags;
        self
    }

    /// The request with this file's name.
    pub fn with_filename(mut self, filename: CowSlice<'a, u8>) -> BinlogRequest<'a>
        ensures { request_view result ≡ record (request_view self.entry) { filename = cow_slice_items filename.entry } }
    {
        self.filename = filename;
        self
    }

    /// The request from this position.
    pub fn with_pos(mut self, pos: u64) -> BinlogRequest<'a>
        ensures { request_view result ≡ record (request_view self.entry) { pos = pos } }
    {
        self.pos = pos;
        self
    }

    /// The request with these sets in place of its own.
    pub fn with_sids(mut self, sids: Vec<Sid<'a>>) -> BinlogRequest<'a>
        ensures { request_view result ≡ record (request_view self.entry) { sids = map sid_view sids.entry.items } }
    {
        self.sids = sids;
        self
    }

    /// The replica's id.
    pub fn server_id(&self) -> u32
        ensures { result ≡ (request_view self.now).server_id }
    {
        self.server_id
    }

    /// Whether it is by transactions.
    pub fn use_gtid(&self) -> bool
        ensures { result ≡ (request_view self.now).use_gtid }
    {
        self.use_gtid
    }

    /// The flags.
    pub fn flags(&self) -> BinlogDumpFlags
        ensures { result.0 ≡ (request_view self.now).flags }
    {
        self.flags
    }

    /// The bytes of the file's name.
    pub fn filename_raw(&self) -> &[u8]
        ensures { result.now ≡ (request_view self.now).filename }
    {
        self.filename.as_slice()
    }

    /// The file's name as text, where bytes that aren't UTF-8 are replaced.
    ///
    /// # Errors
    /// - `Memory`.
    pub fn filename(&self, alloc: Global) -> Result<CowStr<'_>, WireError>
        ensures { IsLossyText result (request_view self.now).filename }
    {
        lossy_text(alloc, self.filename_raw())
    }

    /// The position.
    pub fn pos(&self) -> u64
        ensures { result ≡ (request_view self.now).pos }
    {
        self.pos
    }

    /// The sets, in their order.
    pub fn sids(&self) -> &[Sid<'a>]
        ensures { map sid_view result.now ≡ (request_view self.now).sids }
    {
        self.sids.as_slice()
    }

    /// The packet that carries the request.
    ///
    /// By transactions it carries all of it, else the low 32 bits of the position, the name, and of
    /// the flags `BINLOG_DUMP_NON_BLOCK` alone.
    ///
    /// Promise: the packet is exactly the one that the fields say (`packet_of`).
    pub fn as_cmd(&self) -> Either<ComBinlogDump<'_>, ComBinlogDumpGtid<'_>>
        ensures { either_shown binlog_dump_view binlog_dump_gtid_view result ≡ packet_of (request_view self.now) }
    {
        let filename = CowSlice::Borrowed(self.filename.as_slice());
        if self.use_gtid {
            let packet = ComBinlogDumpGtid::new(self.server_id)
                .with_pos(self.pos)
                .with_filename(filename)
                .with_sids(CowSlice::Borrowed(self.sids.as_slice()))
                .with_flags(self.flags);
            return Either::Right(packet);
        }
        let flags = Flags::intersection(self.flags, BinlogDumpFlags::BINLOG_DUMP_NON_BLOCK);
        let packet = ComBinlogDump::new(self.server_id)
            .with_pos((self.pos & 0xffff_ffff) as u32)
            .with_filename(filename)
            .with_flags(flags);
        Either::Left(packet)
    }

    /// A copy, which borrows nothing.
    ///
    /// # Errors
    /// - `AllocError` for want of memory.
    pub fn clone(&self, alloc: Global) -> Result<BinlogRequest<'static>, AllocError>
        ensures { IfOk result (λ copy. request_view copy ≡ request_view self.now) }
    {
        let filename = copy_bytes(alloc, self.filename.as_slice())?;
        let sids = copies_of(alloc, self.sids.as_slice())?;
        Ok(BinlogRequest {
            server_id: self.server_id,
            use_gtid: self.use_gtid,
            flags: self.flags,
            filename,
            pos: self.pos,
            sids,
        })
    }
}
