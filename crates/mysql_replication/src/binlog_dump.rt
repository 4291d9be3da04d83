//! The request for the binary log from a place: a file, and a position in it.
//!
//!     let request = ComBinlogDump::new(server_id).with_pos(4).with_filename(name);
//!     request.serialize(&mut payload)?;

ghost use Rattle.std.specs.Prelude.{◌≡◌, [], IfOk, None};
ghost use Rattle.std.specs.Cow.{cow_slice_items};
ghost use Rattle.mysql_fields.specs.Laws.{unsized};
ghost use Rattle.mysql_fields.specs.Wire.{TellsPart};
ghost use Rattle.mysql_replication.specs.PacketLaws.{binlog_dump_at-back};
ghost use Rattle.mysql_replication.specs.Packets.{BinlogDump, IsBinlogDump, binlog_dump, binlog_dump_at};
ghost use Rattle.mysql_replication.specs.Packets.{binlog_dump_fields_at};
ghost use Rattle.mysql_replication.specs.Views.{IsLossyText, binlog_dump_view};

use crate::headers::ComBinlogDumpHeader;
use mysql_buf::ParseBuf;
use mysql_const::BinlogDumpFlags;
use mysql_field_constants::Const;
use mysql_fields::{
    EofBytes, LeU16, LeU32, MyDeserialize, MySerialize, ParseExt, RawBytes, RawInt, Readable,
    ReadsBack, WireError, copy_bytes, in_order, lossy_text,
};
use std::alloc::{AllocError, Global};
use std::borrow::{CowSlice, CowStr};

/// The request for the binary log from a position of a file; an empty name asks for the first file.
///
/// Promise: its bytes are a function of its fields. Any bytes are read exactly as its layout says,
/// with the first refusal from the left (`binlog_dump`, `binlog_dump_at`).
///
/// MySQL: Client/Server Protocol, "COM_BINLOG_DUMP".
#[derive(Debug, PartialEq, Eq, Hash, Drop)]
pub struct ComBinlogDump<'a> {
    pos: u32,
    flags: BinlogDumpFlags,
    server_id: u32,
    filename: CowSlice<'a, u8>,
}

impl<'a> ComBinlogDump<'a> {
    /// The request of the replica with this id, from position 0, without flags and with an empty name.
    pub fn new(server_id: u32) -> ComBinlogDump<'a>
        ensures { binlog_dump_view result ≡ record { pos = 0; flags = 0; server_id = server_id; filename = [] } }
    {
        ComBinlogDump {
            pos: 0,
            flags: BinlogDumpFlags(0),
            server_id,
            filename: CowSlice::Borrowed(&[]),
        }
    }

    /// The request from this position.
    pub fn with_pos(mut self, pos: u32) -> ComBinlogDump<'a>
        ensures { binlog_dump_view result ≡ record (binlog_dump_view self.entry) { pos = pos } }
    {
        self.pos = pos;
        self
    }

    /// The request with these flags.
    pub fn with_flags(mut self, flags: BinlogDumpFlags) -> ComBinlogDump<'a>
        ensures { binlog_dump_view result ≡ record (binlog_dump_view self.entry) { flags = flags.0 } }
    {
        self.flags = flags;
        self
    }

    /// The request with this file's name.
    pub fn with_filename(mut self, filename: CowSlice<'a, u8>) -> ComBinlogDump<'a>
        ensures { binlog_dump_view result ≡
            record (binlog_dump_view self.entry) { filename = cow_slice_items filename.entry } }
    {
        self.filename = filename;
        self
    }

    /// The position.
    pub fn pos(&self) -> u32
        ensures { result ≡ (binlog_dump_view self.now).pos }
    {
        self.pos
    }

    /// The flags.
    pub fn flags(&self) -> BinlogDumpFlags
        ensures { result.0 ≡ (binlog_dump_view self.now).flags }
    {
        self.flags
    }

    /// The replica's id.
    pub fn server_id(&self) -> u32
        ensures { result ≡ (binlog_dump_view self.now).server_id }
    {
        self.server_id
    }

    /// The bytes of the file's name.
    pub fn filename_raw(&self) -> &[u8]
        ensures { result.now ≡ (binlog_dump_view self.now).filename }
    {
        self.filename.as_slice()
    }

    /// The file's name as text, where bytes that aren't UTF-8 are replaced.
    ///
    /// # Errors
    /// - `Memory`.
    pub fn filename(&self, alloc: Global) -> Result<CowStr<'_>, WireError>
        ensures { IsLossyText result (binlog_dump_view self.now).filename }
    {
        lossy_text(alloc, self.filename_raw())
    }

    /// A copy, which borrows nothing.
    ///
    /// # Errors
    /// - `AllocError` for want of memory.
    pub fn clone(&self, alloc: Global) -> Result<ComBinlogDump<'static>, AllocError>
        ensures { IfOk result (λ copy. binlog_dump_view copy ≡ binlog_dump_view self.now) }
    {
        let filename = copy_bytes(alloc, self.filename.as_slice())?;
        Ok(ComBinlogDump {
            pos: self.pos,
            flags: self.flags,
            server_id: self.server_id,
            filename,
        })
    }
}

#[tactic(auto, unfolding(crate::specs::Packets::binlog_dump))]
impl<'a> MySerialize for ComBinlogDump<'a> {
    ghost written = { λ p. binlog_dump (binlog_dump_view p) };

    fn serialize(&self, buf: &mut Vec<u8>) -> Result<(), AllocError> {
        let header = ComBinlogDumpHeader::new();
        let pos: RawInt<LeU32> = RawInt::new(self.pos);
        let flags: RawInt<LeU16> = RawInt::new(self.flags.0);
        let server_id: RawInt<LeU32> = RawInt::new(self.server_id);
        let filename: RawBytes<EofBytes> = RawBytes::from(self.filename_raw());
        in_order!(header, pos, flags, server_id, filename).serialize(buf)
    }
}

impl<'a> Readable for ComBinlogDump<'a> {
    type Ctx = ();

    ghost Shown = { BinlogDump };

    ghost shown = { binlog_dump_view };

    ghost kept = { binlog_dump_view };

    ghost read_at = { λ _ bytes. binlog_dump_at bytes };

    ghost IsReadBack = { λ _ p rest. IsBinlogDump (binlog_dump_view p) × (rest ≡ []) };

    ghost sized = { λ _. unsized binlog_dump_at };

    fn size() -> Option<usize>
        ensures { result ≡ None }
    {
        None
    }
}

impl<'a> ReadsBack for ComBinlogDump<'a> {
    ghost reads_back = { λ _ p rest h. binlog_dump_at-back (binlog_dump_view p) rest h.0 h.1 };
}

#[tactic(auto, unfolding(crate::specs::Packets::binlog_dump_fields_at))]
fn fields_from<'de>(
    alloc: Global,
    rest: &mut ParseBuf<'de>,
) -> Result<ComBinlogDump<'de>, WireError>
    ensures { TellsPart binlog_dump_view rest.new.0.now result (binlog_dump_fields_at rest.old.0.now) }
{
    let _header: ComBinlogDumpHeader = rest.parse(alloc, ())?;
    let pos = rest.checked_eat_u32_le().ok_or(WireError::UnexpectedEof)?;
    let flags: Const<BinlogDumpFlags, LeU16> = rest.parse(alloc, ())?;
    let server_id = rest.checked_eat_u32_le().ok_or(WireError::UnexpectedEof)?;
    let filename = CowSlice::Borrowed(rest.eat_all());
    Ok(ComBinlogDump {
        pos,
        flags: flags.0,
        server_id,
        filename,
    })
}

/// Reads a request. Refused by UnexpectedEof where there are fewer than 11 bytes, then by
/// BadConstant for another first byte, then by UnknownValue for flags without a name.
///
/// MySQL: Client/Server Protocol, "COM_BINLOG_DUMP".
#[tactic(auto, unfolding(crate::specs::Packets::binlog_dump_at))]
impl<'de> MyDeserialize<'de> for ComBinlogDump<'de> {
    // COM_BINLOG_DUMP:
    //   int<1>       command 12
    //   int<4>       binlog-pos
    //   int<2>       flags
    //   int<4>       server-id
    //   string<EOF>  binlog-filename
    fn deserialize(
        alloc: Global,
        _ctx: (),
        buf: &mut ParseBuf<'de>,
    ) -> Result<ComBinlogDump<'de>, WireError> {
        if buf.0.len() < 11 {
            return Err(WireError::UnexpectedEof);
        }
        let mut rest = *buf;
        let packet = fields_from(alloc, &mut rest)?;
        *buf = rest;
        Ok(packet)
    }
}
