//! Packets of the plugin `caching_sha2_password`.

use crate::headers::PublicKeyRequestHeader;

/// A client's request for the server's public key: the byte 02 alone.
/// (MySQL: Client/Server Protocol, "Caching SHA-2 Authentication".)
pub type PublicKeyRequest = PublicKeyRequestHeader;
