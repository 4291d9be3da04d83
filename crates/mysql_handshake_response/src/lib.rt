//! A client's answers to the handshake: the request for a secure connection and the answer that logs in.
//!
//! `HandshakeResponse` has the name, the data for the plugin, the schema, the plugin and the
//! `ConnectAttributes`. `SslRequest` has its first fields alone. The crates of logging in call these,
//! and a client that connects. `parts` has the fields that the change of user shares.
#![tactic(auto)]

mod handshake_response;
pub mod laws;
mod ssl_request;

pub use crate::handshake_response::HandshakeResponse;
pub use crate::ssl_request::SslRequest;

mod attribute_laws;
mod attributes;
mod parts;

pub use crate::attribute_laws::attributes_read_back;
pub use crate::attributes::{ConnectAttributes, copied_pair, owned_pair};
pub use crate::parts::{
    IfHeld, attributes_of_texts, copied_attributes, copied_plugin, has, or_no_bytes,
    owned_attributes, owned_plugin, parse_if, plugin_before_zero, plugin_to_zero,
};
