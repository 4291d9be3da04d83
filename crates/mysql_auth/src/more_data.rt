//! What a server sends further while a client logs in: data of the plugin, or its public key.
//!
//!     let more: AuthMoreData = ParseBuf(payload).parse(alloc, ())?;
//!     let data = more.data();

ghost use Rattle.std.specs.Prelude.{◌≡◌, IfOk, List, None, [], ℕ, IsOkUnless};
ghost use Rattle.std.proofs.Common.{lit<};
ghost use Rattle.std.specs.Cow.{cow_slice_items, cow_str_bytes};
ghost use Rattle.mysql_fields.specs.Texts.{lossy_text};
ghost use Rattle.mysql_auth.specs.PacketLaws.{headed_at-back};
ghost use Rattle.mysql_auth.specs.Packets.{headed, headed_at};
ghost use Rattle.mysql_auth.specs.Views.{key_view, more_data_view};
ghost use Rattle.mysql_fields.specs.Laws.{unsized};
ghost use Rattle.mysql_fields.specs.declared.error.WireError.TheVariants as wire;

use crate::headers::{AuthMoreDataHeader, PublicKeyResponseHeader};
use mysql_buf::ParseBuf;
use mysql_fields::{
    EofBytes, MyDeserialize, MySerialize, ParseExt, RawBytes, Readable, ReadsBack, WireError,
    copy_bytes, in_order, lossy_text, own_bytes,
};
use std::alloc::{AllocError, Global};
use std::borrow::{CowSlice, CowStr};

/// What a server sends to a plugin beside its first data.
/// (MySQL: Client/Server Protocol, "Protocol::AuthMoreData".)
///
/// Promise: its bytes are a function of its data. Any bytes are read exactly as its layout says.
/// What was written is read back where nothing follows (`headed`, `headed_at`).
#[derive(Debug, PartialEq, Eq, Drop)]
pub struct AuthMoreData<'a> {
    data: CowSlice<'a, u8>,
}

impl<'a> AuthMoreData<'a> {
    /// A packet of this data.
    pub fn new(data: CowSlice<'a, u8>) -> AuthMoreData<'a>
        ensures { more_data_view result ≡ cow_slice_items «data».entry }
    {
        AuthMoreData { data }
    }

    /// The data.
    pub fn data(&self) -> &[u8]
        ensures { result.now ≡ more_data_view self.now }
    {
        self.data.as_slice()
    }

    /// The packet in bytes of its own: it borrows nothing.
    ///
    /// # Errors
    /// - `AllocError` for want of memory.
    pub fn into_owned(self, alloc: Global) -> Result<AuthMoreData<'static>, AllocError>
        ensures { IfOk result (λ owned. more_data_view owned ≡ more_data_view self.entry) }
    {
        Ok(AuthMoreData {
            data: own_bytes(alloc, self.data)?,
        })
    }

    /// A copy of the packet, which borrows nothing.
    ///
    /// # Errors
    /// - `AllocError` for want of memory.
    pub fn clone(&self, alloc: Global) -> Result<AuthMoreData<'static>, AllocError>
        ensures { IfOk result (λ copy. more_data_view copy ≡ more_data_view self.now) }
    {
        Ok(AuthMoreData {
            data: copy_bytes(alloc, self.data.as_slice())?,
        })
    }
}

/// 01, and the data to the end.
#[tactic(auto, unfolding(crate::specs::Packets::headed))]
impl<'a> MySerialize for AuthMoreData<'a> {
    ghost written = { λ packet. headed 1 (more_data_view packet) };

    fn serialize(&self, buf: &mut Vec<u8>) -> Result<(), AllocError> {
        let header: AuthMoreDataHeader = AuthMoreDataHeader::new();
        let data: RawBytes<EofBytes> = RawBytes::new(CowSlice::Borrowed(self.data.as_slice()));
        in_order!(header, data).serialize(buf)
    }
}

impl<'a> Readable for AuthMoreData<'a> {
    type Ctx = ();

    ghost Shown = { List ℕ };

    ghost shown = { more_data_view };

    ghost read_at = { λ _ bytes. headed_at 1 bytes };

    ghost kept = { more_data_view };

    ghost IsReadBack = { λ _ _ rest. rest ≡ [] };

    ghost sized = { λ _. unsized (headed_at 1) };

    fn size() -> Option<usize>
        ensures { result ≡ None }
    {
        None
    }
}

impl<'a> ReadsBack for AuthMoreData<'a> {
    ghost reads_back = { λ _ packet rest. headed_at-back 1 (more_data_view packet) rest (lit< tt) };
}

/// Refused by `UnexpectedEof` where there is no byte, then by `BadConstant`.
#[tactic(auto, unfolding(crate::specs::Packets::headed_at))]
impl<'de> MyDeserialize<'de> for AuthMoreData<'de> {
    // Protocol::AuthMoreData:
    //   int<1>       header 01
    //   string<EOF>  authentication method data
    fn deserialize(
        alloc: Global,
        _ctx: (),
        buf: &mut ParseBuf<'de>,
    ) -> Result<AuthMoreData<'de>, WireError> {
        let mut rest = *buf;
        let _header: AuthMoreDataHeader = rest.parse(alloc, ())?;
        let data: RawBytes<'de, EofBytes> = rest.parse(alloc, ())?;
        *buf = rest;
        Ok(AuthMoreData { data: data.0 })
    }
}

/// The server's public key, by which a password is hidden.
/// (MySQL: Client/Server Protocol, "Caching SHA-2 Authentication".)
///
/// Promise: its bytes are a function of its key. Any bytes are read exactly as its layout says.
/// What was written is read back where nothing follows (`headed`, `headed_at`).
#[derive(Debug, PartialEq, Eq, Drop)]
pub struct PublicKeyResponse<'a> {
    rsa_key: CowSlice<'a, u8>,
}

impl<'a> PublicKeyResponse<'a> {
    /// A packet of this key.
    pub fn new(rsa_key: CowSlice<'a, u8>) -> PublicKeyResponse<'a>
        ensures { key_view result ≡ cow_slice_items rsa_key.entry }
    {
        PublicKeyResponse { rsa_key }
    }

    /// The key as text, in PEM form; bytes that aren't UTF-8 are replaced.
    ///
    /// # Errors
    /// - `Memory`.
    pub fn rsa_key(&self, alloc: Global) -> Result<CowStr<'_>, WireError>
        ensures memory { IsOkUnless result wire.Memory }
        ensures value { IfOk result (λ text. cow_str_bytes text ≡ lossy_text (key_view self.now)) }
    {
        lossy_text(alloc, self.rsa_key.as_slice())
    }

    /// A copy of the packet, which borrows nothing.
    ///
    /// # Errors
    /// - `AllocError` for want of memory.
    pub fn clone(&self, alloc: Global) -> Result<PublicKeyResponse<'static>, AllocError>
        ensures { IfOk result (λ copy. key_view copy ≡ key_view self.now) }
    {
        Ok(PublicKeyResponse {
            rsa_key: copy_bytes(alloc, self.rsa_key.as_slice())?,
        })
    }
}

/// 01, and the key to the end.
#[tactic(auto, unfolding(crate::specs::Packets::headed))]
impl<'a> MySerialize for PublicKeyResponse<'a> {
    ghost written = { λ packet. headed 1 (key_view packet) };

    fn serialize(&self, buf: &mut Vec<u8>) -> Result<(), AllocError> {
        let header: PublicKeyResponseHeader = PublicKeyResponseHeader::new();
        let key: RawBytes<EofBytes> = RawBytes::new(CowSlice::Borrowed(self.rsa_key.as_slice()));
        in_order!(header, key).serialize(buf)
    }
}

impl<'a> Readable for PublicKeyResponse<'a> {
    type Ctx = ();

    ghost Shown = { List ℕ };

    ghost shown = { key_view };

    ghost read_at = { λ _ bytes. headed_at 1 bytes };

    ghost kept = { key_view };

    ghost IsReadBack = { λ _ _ rest. rest ≡ [] };

    ghost sized = { λ _. unsized (headed_at 1) };

    fn size() -> Option<usize>
        ensures { result ≡ None }
    {
        None
    }
}

impl<'a> ReadsBack for PublicKeyResponse<'a> {
    ghost reads_back = { λ _ packet rest. headed_at-back 1 (key_view packet) rest (lit< tt) };
}

/// Refused by `UnexpectedEof` where there is no byte, then by `BadConstant`.
#[tactic(auto, unfolding(crate::specs::Packets::headed_at))]
impl<'de> MyDeserialize<'de> for PublicKeyResponse<'de> {
    // Protocol::AuthMoreData with a key:
    //   int<1>       header 01
    //   string<EOF>  the server's public key
    fn deserialize(
        alloc: Global,
        _ctx: (),
        buf: &mut ParseBuf<'de>,
    ) -> Result<PublicKeyResponse<'de>, WireError> {
        let mut rest = *buf;
        let _header: PublicKeyResponseHeader = rest.parse(alloc, ())?;
        let key: RawBytes<'de, EofBytes> = rest.parse(alloc, ())?;
        *buf = rest;
        Ok(PublicKeyResponse { rsa_key: key.0 })
    }
}
