//! Authentication: plugins, their data, and the packets of an exchange. It hashes no password.
//!
//! The crates of logging in use it. A user names its items by `mysql_login`.
//!
//! | packet of the exchange | from | type |
//! |---|---|---|
//! | switch to another plugin | the server | [`AuthSwitchRequest`], [`OldAuthSwitchRequest`] |
//! | more data of a plugin | the server | [`AuthMoreData`], [`PublicKeyResponse`] |
//! | one more factor | the server | [`AuthNextFactor`] |
//! | the key of `caching_sha2_password`, asked for | the client | [`PublicKeyRequest`] |
//!
//!     let plugin = AuthPlugin::from_bytes(b"caching_sha2_password");
//!     let switch: AuthSwitchRequest = ParseBuf(payload).parse(alloc, ())?;
//!     let scramble = switch.plugin_data();
#![tactic(auto)]

mod caching_sha2_password;
mod headers;
mod more_data;
mod next_factor;
mod parsec;
mod plugin;
mod plugin_data;
mod switch;
mod zero;

pub use crate::caching_sha2_password::PublicKeyRequest;
pub use crate::headers::{
    AuthMoreDataHeader, AuthNextFactorHeader, AuthSwitchRequestHeader, InvalidAuthMoreDataHeader,
    InvalidAuthNextFactorHeader, InvalidAuthSwitchRequestHeader, InvalidPublicKeyRequest,
    InvalidPublicKeyResponse, PublicKeyRequestHeader, PublicKeyResponseHeader,
};
pub use crate::more_data::{AuthMoreData, PublicKeyResponse};
pub use crate::next_factor::AuthNextFactor;
pub use crate::parsec::parse_parsec_salt;
pub use crate::plugin::AuthPlugin;
pub use crate::plugin_data::AuthPluginData;
pub use crate::switch::{AuthSwitchRequest, OldAuthSwitchRequest};
pub use crate::zero::{put_with_zero, without_zero};
