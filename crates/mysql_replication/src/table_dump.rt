//! The request for a table, as replicas of old made it.
//!
//!     ComTableDump::new(database, table).serialize(&mut payload)?;

ghost use Rattle.std.specs.Prelude.{◌≡◌, IfOk, None};
ghost use Rattle.std.specs.Cow.{cow_slice_items};
ghost use Rattle.mysql_buf.specs.Writing.{front};
ghost use Rattle.mysql_fields.specs.Laws.{unsized};
ghost use Rattle.mysql_replication.specs.PacketLaws.{table_dump_at-back};
ghost use Rattle.mysql_replication.specs.Packets.{IsTableDump, TableDump, table_dump, table_dump_at, whole_table_dump};
ghost use Rattle.mysql_replication.specs.Views.{IsLossyText, table_dump_view};

use crate::headers::ComTableDumpHeader;
use mysql_buf::{ParseBuf, front_of};
use mysql_fields::{
    MyDeserialize, MySerialize, ParseExt, RawBytes, Readable, ReadsBack, U8Bytes, WireError,
    copy_bytes, in_order, lossy_text,
};
use std::alloc::{AllocError, Global};
use std::borrow::{CowSlice, CowStr};

/// The request for a table: the names of its database and of the table. Of each at most 255 bytes are written.
///
/// Promise: its bytes are a function of its fields. Any bytes are read exactly as its layout says,
/// with the first refusal from the left (`table_dump`, `table_dump_at`).
///
/// MySQL: Client/Server Protocol, "COM_TABLE_DUMP".
#[derive(Debug, PartialEq, Eq, Hash, Drop)]
pub struct ComTableDump<'a> {
    database: CowSlice<'a, u8>,
    table: CowSlice<'a, u8>,
}

impl<'a> ComTableDump<'a> {
    /// The request for this table of this database.
    pub fn new(database: CowSlice<'a, u8>, table: CowSlice<'a, u8>) -> ComTableDump<'a>
        ensures { table_dump_view result ≡
            record {
              database = cow_slice_items database.entry;
              table =
                  cow_slice_items table.entry;
            } }
    {
        ComTableDump { database, table }
    }

    /// The bytes of the database's name: those that are written, at most 255.
    pub fn database_raw(&self) -> &[u8]
        ensures { result.now ≡ front (table_dump_view self.now).database 255 }
    {
        front_of(self.database.as_slice(), 255)
    }

    /// The database's name as text, where bytes that aren't UTF-8 are replaced.
    ///
    /// # Errors
    /// - `Memory`.
    pub fn database(&self, alloc: Global) -> Result<CowStr<'_>, WireError>
        ensures { IsLossyText result (front (table_dump_view self.now).database 255) }
    {
        lossy_text(alloc, self.database_raw())
    }

    /// The bytes of the table's name: those that are written, at most 255.
    pub fn table_raw(&self) -> &[u8]
        ensures { result.now ≡ front (table_dump_view self.now).table 255 }
    {
        front_of(self.table.as_slice(), 255)
    }

    /// The table's name as text, where bytes that aren't UTF-8 are replaced.
    ///
    /// # Errors
    /// - `Memory`.
    pub fn table(&self, alloc: Global) -> Result<CowStr<'_>, WireError>
        ensures { IsLossyText result (front (table_dump_view self.now).table 255) }
    {
        lossy_text(alloc, self.table_raw())
    }

    /// Whether its names are written whole: each has at most 255 bytes. It is then read as it was
    /// written.
    pub fn is_whole(&self) -> bool
        ensures { result ≡ whole_table_dump (table_dump_view self.now) }
    {
        self.database.as_slice().len() <= 255 && self.table.as_slice().len() <= 255
    }

    /// A copy, which borrows nothing.
    ///
    /// # Errors
    /// - `AllocError` for want of memory.
    pub fn clone(&self, alloc: Global) -> Result<ComTableDump<'static>, AllocError>
        ensures { IfOk result (λ copy. table_dump_view copy ≡ table_dump_view self.now) }
    {
        let database = copy_bytes(alloc, self.database.as_slice())?;
        let table = copy_bytes(alloc, self.table.as_slice())?;
        Ok(ComTableDump { database, table })
    }
}

#[tactic(auto, unfolding(crate::specs::Packets::table_dump))]
impl<'a> MySerialize for ComTableDump<'a> {
    ghost written = { λ p. table_dump (table_dump_view p) };

    fn serialize(&self, buf: &mut Vec<u8>) -> Result<(), AllocError> {
        let database: RawBytes<U8Bytes> = RawBytes::from(self.database.as_slice());
        let table: RawBytes<U8Bytes> = RawBytes::from(self.table.as_slice());
        in_order!(ComTableDumpHeader::new(), database, table).serialize(buf)
    }
}

impl<'a> Readable for ComTableDump<'a> {
    type Ctx = ();

    ghost Shown = { TableDump };

    ghost shown = { table_dump_view };

    ghost kept = { table_dump_view };

    ghost read_at = { λ _ bytes. table_dump_at bytes };

    ghost IsReadBack = { λ _ p _. IsTableDump (table_dump_view p) };

    ghost sized = { λ _. unsized table_dump_at };

    fn size() -> Option<usize>
        ensures { result ≡ None }
    {
        None
    }
}

impl<'a> ReadsBack for ComTableDump<'a> {
    ghost reads_back = { λ _ p. table_dump_at-back (table_dump_view p) };
}

/// Reads a request. Refused by UnexpectedEof where it is cut off, and by BadConstant for another
/// first byte, whichever stands first.
///
/// MySQL: Client/Server Protocol, "COM_TABLE_DUMP".
#[tactic(auto, unfolding(crate::specs::Packets::table_dump_at))]
impl<'de> MyDeserialize<'de> for ComTableDump<'de> {
    // COM_TABLE_DUMP:
    //   int<1>       command 13
    //   int<1>       database length
    //   string<var>  database
    //   int<1>       table length
    //   string<var>  table
    fn deserialize(
        alloc: Global,
        _ctx: (),
        buf: &mut ParseBuf<'de>,
    ) -> Result<ComTableDump<'de>, WireError> {
        let mut rest = *buf;
        let _header: ComTableDumpHeader = rest.parse(alloc, ())?;
        let database = rest.checked_eat_u8_str().ok_or(WireError::UnexpectedEof)?;
        let table = rest.checked_eat_u8_str().ok_or(WireError::UnexpectedEof)?;
        *buf = rest;
        Ok(ComTableDump::new(CowSlice::Borrowed(database), CowSlice::Borrowed(table)))
    }
}
