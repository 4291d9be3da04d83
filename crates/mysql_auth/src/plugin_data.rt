//! What plugins send.

ghost use Rattle.std.specs.Prelude.{◌≡◌, IfOk};
ghost use Rattle.mysql_auth.specs.PluginData.{data_bytes, data_written};
ghost use Rattle.mysql_auth.specs.Views.{data_view};

use crate::zero::put_with_zero;
use mysql_fields::{MySerialize, copy_bytes, own_bytes};
use std::alloc::{AllocError, Global};
use std::borrow::CowSlice;

/// What a client's plugin answers to a server's nonce.
/// (MySQL: Client/Server Protocol, "Authentication Methods"; MariaDB: "Pluggable Authentication".)
#[derive(Debug, PartialEq, Eq, Drop)]
pub enum AuthPluginData<'a> {
    /// Of old password authentication.
    Old([u8; 8]),
    /// Of native password authentication.
    Native([u8; 20]),
    /// Of SHA-2 authentication, cached or not.
    Sha2([u8; 32]),
    /// Of MariaDB's authentication by ed25519.
    Ed25519([u8; 64]),
    /// Of MariaDB's PARSEC.
    Parsec([u8; 96]),
    /// A password in clear text.
    Clear(CowSlice<'a, u8>),
}

impl<'a> AuthPluginData<'a> {
    /// The bytes, without a zero behind them.
    pub fn as_bytes(&self) -> &[u8]
        ensures { result.now ≡ data_bytes (data_view self.now) }
    {
        match self {
            AuthPluginData::Old(bytes) => bytes.as_slice(),
            AuthPluginData::Native(bytes) => bytes.as_slice(),
            AuthPluginData::Sha2(bytes) => bytes.as_slice(),
            AuthPluginData::Ed25519(bytes) => bytes.as_slice(),
            AuthPluginData::Parsec(bytes) => bytes.as_slice(),
            AuthPluginData::Clear(bytes) => bytes.as_slice(),
        }
    }

    /// The data in bytes of its own: it borrows nothing.
    ///
    /// # Errors
    /// - `AllocError` for want of memory.
    pub fn into_owned(self, alloc: Global) -> Result<AuthPluginData<'static>, AllocError>
        ensures { IfOk result (λ owned. data_view owned ≡ data_view self.entry) }
    {
        Ok(match self {
            AuthPluginData::Old(bytes) => AuthPluginData::Old(bytes),
            AuthPluginData::Native(bytes) => AuthPluginData::Native(bytes),
            AuthPluginData::Sha2(bytes) => AuthPluginData::Sha2(bytes),
            AuthPluginData::Ed25519(bytes) => AuthPluginData::Ed25519(bytes),
            AuthPluginData::Parsec(bytes) => AuthPluginData::Parsec(bytes),
            AuthPluginData::Clear(bytes) => { AuthPluginData::Clear(own_bytes(alloc, bytes)?) }
        })
    }

    /// A copy of the data, which borrows nothing.
    ///
    /// # Errors
    /// - `AllocError` for want of memory.
    pub fn clone(&self, alloc: Global) -> Result<AuthPluginData<'static>, AllocError>
        ensures { IfOk result (λ copy. data_view copy ≡ data_view self.now) }
    {
        Ok(match self {
            AuthPluginData::Old(bytes) => AuthPluginData::Old(*bytes),
            AuthPluginData::Native(bytes) => AuthPluginData::Native(*bytes),
            AuthPluginData::Sha2(bytes) => AuthPluginData::Sha2(*bytes),
            AuthPluginData::Ed25519(bytes) => AuthPluginData::Ed25519(*bytes),
            AuthPluginData::Parsec(bytes) => AuthPluginData::Parsec(*bytes),
            AuthPluginData::Clear(bytes) => AuthPluginData::Clear(copy_bytes(
                alloc,
                bytes.as_slice(),
            )?),
        })
    }
}

/// The bytes; behind the old plugin's and behind a password in clear text stands a zero.
impl<'a> MySerialize for AuthPluginData<'a> {
    ghost written = { λ sent. data_written (data_view sent) };

    fn serialize(&self, buf: &mut Vec<u8>) -> Result<(), AllocError> {
        match self {
            AuthPluginData::Old(bytes) => put_with_zero(bytes.as_slice(), buf),
            AuthPluginData::Clear(bytes) => put_with_zero(bytes.as_slice(), buf),
            AuthPluginData::Native(bytes) => buf.extend_from_slice(bytes.as_slice()),
            AuthPluginData::Sha2(bytes) => buf.extend_from_slice(bytes.as_slice()),
            AuthPluginData::Ed25519(bytes) => buf.extend_from_slice(bytes.as_slice()),
            AuthPluginData::Parsec(bytes) => buf.extend_from_slice(bytes.as_slice()),
        }
    }
}
