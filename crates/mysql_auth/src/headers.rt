//! The bytes that begin the packets of an exchange.

use mysql_field_constants::ConstU8;
use thiserror::Error;

/// Another byte than 01 begins a packet of more data.
#[derive(Clone, Copy, Debug, Default, PartialEq, Eq, Hash, Error)]
#[error("Invalid AuthMoreData header")]
pub struct InvalidAuthMoreDataHeader;

/// The byte that begins [`AuthMoreData`](crate::AuthMoreData).
pub type AuthMoreDataHeader = ConstU8<InvalidAuthMoreDataHeader, 0x01>;

/// Another byte than 01 begins the answer to a request for a key.
#[derive(Clone, Copy, Debug, Default, PartialEq, Eq, Hash, Error)]
#[error("Invalid PublicKeyResponse header")]
pub struct InvalidPublicKeyResponse;

/// The byte that begins [`PublicKeyResponse`](crate::PublicKeyResponse).
pub type PublicKeyResponseHeader = ConstU8<InvalidPublicKeyResponse, 0x01>;

/// Another byte than 02 stands in place of a request for a key.
#[derive(Clone, Copy, Debug, Default, PartialEq, Eq, Hash, Error)]
#[error("Invalid PublicKeyRequest header")]
pub struct InvalidPublicKeyRequest;

/// The byte that is [`PublicKeyRequest`](crate::PublicKeyRequest).
pub type PublicKeyRequestHeader = ConstU8<InvalidPublicKeyRequest, 0x02>;

/// Another byte than fe begins a request for another plugin.
#[derive(Clone, Copy, Debug, Default, PartialEq, Eq, Hash, Error)]
#[error("Invalid auth switch request header")]
pub struct InvalidAuthSwitchRequestHeader;

/// The byte that begins [`AuthSwitchRequest`](crate::AuthSwitchRequest) and
/// [`OldAuthSwitchRequest`](crate::OldAuthSwitchRequest).
pub type AuthSwitchRequestHeader = ConstU8<InvalidAuthSwitchRequestHeader, 0xfe>;

/// Another byte than 02 begins a request for one more plugin.
#[derive(Clone, Copy, Debug, Default, PartialEq, Eq, Hash, Error)]
#[error("Invalid AuthNextFactor header")]
pub struct InvalidAuthNextFactorHeader;

/// The byte that begins [`AuthNextFactor`](crate::AuthNextFactor).
pub type AuthNextFactorHeader = ConstU8<InvalidAuthNextFactorHeader, 0x02>;
