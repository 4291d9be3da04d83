//! What a user of each public crate can name, a module for each.
//! Written by `tools/faces` from the sources.
#![tactic(auto)]

mod buf_face;
mod connection_face;
mod convert_face;
mod digests_face;
mod login_face;
mod packets_face;
mod session_face;
mod values_face;
mod wire_face;
