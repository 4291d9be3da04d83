//! Requests for files: the server asks a client for a file of its own.
//!
//!     let request: LocalInfilePacket = ParseBuf(payload).parse(alloc, ())?;
//!     let name = request.file_name_ref();

ghost use Rattle.std.specs.Prelude.{◌≡◌, [], IfOk, IsOkUnless, List, None, ℕ};
ghost use Rattle.std.specs.Cow.{cow_slice_items, cow_str_bytes};
ghost use Rattle.mysql_fields.specs.Laws.{unsized};
ghost use Rattle.mysql_fields.specs.declared.error.WireError.TheVariants as wire;
ghost use Rattle.mysql_server_packets.specs.PacketLaws.{local_infile_at-back};
ghost use Rattle.mysql_server_packets.specs.Packets.{local_infile, local_infile_at};
ghost use Rattle.mysql_fields.specs.Texts.{lossy_text};
ghost use Rattle.mysql_server_packets.specs.Views.{local_infile_view};

use crate::headers::LocalInfileHeader;
use mysql_buf::ParseBuf;
use mysql_fields::{
    EofBytes, MyDeserialize, MySerialize, ParseExt, RawBytes, Readable, ReadsBack, WireError,
    copy_bytes, in_order, lossy_text, own_bytes,
};
use std::alloc::{AllocError, Global};
use std::borrow::{CowSlice, CowStr};

/// The server's request for a file of the client.
///
/// Promise: its bytes are a function of its fields. Any bytes are read exactly as its layout says,
/// with the first refusal from the left (`local_infile`, `local_infile_at`).
///
/// MySQL: Client/Server Protocol, "LOCAL INFILE Request".
#[derive(Debug, PartialEq, Eq, Drop)]
pub struct LocalInfilePacket<'a> {
    file_name: CowSlice<'a, u8>,
}

impl<'a> LocalInfilePacket<'a> {
    /// The request for the file of this name.
    pub fn new(file_name: CowSlice<'a, u8>) -> LocalInfilePacket<'a>
        ensures { local_infile_view result ≡ cow_slice_items file_name.entry }
    {
        LocalInfilePacket { file_name }
    }

    /// The file's name, as bytes.
    pub fn file_name_ref(&self) -> &[u8]
        ensures { result.now ≡ local_infile_view self.now }
    {
        self.file_name.as_slice()
    }

    /// The file's name, where bytes that aren't UTF-8 are replaced.
    ///
    /// # Errors
    /// - `Memory`.
    pub fn file_name_str(&self, alloc: Global) -> Result<CowStr<'_>, WireError>
        ensures memory { IsOkUnless result wire.Memory }
        ensures value { IfOk result (λ text. cow_str_bytes text ≡ lossy_text (local_infile_view self.now)) }
    {
        lossy_text(alloc, self.file_name_ref())
    }

    /// The request in bytes of its own: it borrows nothing.
    ///
    /// # Errors
    /// - `AllocError` for want of memory.
    pub fn into_owned(self, alloc: Global) -> Result<LocalInfilePacket<'static>, AllocError>
        ensures { IfOk result (λ owned. local_infile_view owned ≡ local_infile_view self.entry) }
    {
        Ok(LocalInfilePacket {
            file_name: own_bytes(alloc, self.file_name)?,
        })
    }

    /// A copy, which borrows nothing.
    ///
    /// # Errors
    /// - `AllocError` for want of memory.
    pub fn clone(&self, alloc: Global) -> Result<LocalInfilePacket<'static>, AllocError>
        ensures { IfOk result (λ copy. local_infile_view copy ≡ local_infile_view self.now) }
    {
        Ok(LocalInfilePacket {
            file_name: copy_bytes(alloc, self.file_name.as_slice())?,
        })
    }
}

/// fb, and the name to the end.
#[tactic(auto, unfolding(crate::specs::Packets::local_infile))]
impl<'a> MySerialize for LocalInfilePacket<'a> {
    ghost written = { λ p. local_infile (local_infile_view p) };

    fn serialize(&self, buf: &mut Vec<u8>) -> Result<(), AllocError> {
        let name: RawBytes<EofBytes> = RawBytes::new(CowSlice::Borrowed(self.file_name_ref()));
        in_order!(LocalInfileHeader::new(), name).serialize(buf)
    }
}

impl<'a> Readable for LocalInfilePacket<'a> {
    type Ctx = ();

    ghost Shown = { List ℕ };

    ghost shown = { local_infile_view };

    ghost kept = { local_infile_view };

    ghost read_at = { λ _ bytes. local_infile_at bytes };

    ghost IsReadBack = { λ _ _ rest. rest ≡ [] };

    ghost sized = { λ _. unsized local_infile_at };

    fn size() -> Option<usize>
        ensures { result ≡ None }
    {
        None
    }
}

impl<'a> ReadsBack for LocalInfilePacket<'a> {
    ghost reads_back = { λ _ p. local_infile_at-back (local_infile_view p) };
}

/// Reads a request; the name is all that is left. Refused by UnexpectedEof where there is no byte,
/// then by BadConstant for another first byte than fb.
///
/// MySQL: Client/Server Protocol, "LOCAL INFILE Request".
#[tactic(auto, unfolding(crate::specs::Packets::local_infile_at))]
impl<'de> MyDeserialize<'de> for LocalInfilePacket<'de> {
    // LOCAL INFILE Request:
    //   int<1>       header fb
    //   string<EOF>  filename
    fn deserialize(
        alloc: Global,
        _ctx: (),
        buf: &mut ParseBuf<'de>,
    ) -> Result<LocalInfilePacket<'de>, WireError> {
        let mut rest = *buf;
        let _header: LocalInfileHeader = rest.parse(alloc, ())?;
        let file_name = CowSlice::Borrowed(rest.eat_all());
        *buf = rest;
        Ok(LocalInfilePacket { file_name })
    }
}
