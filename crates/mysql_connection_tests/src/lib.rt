//! Tests of `mysql_connection` from outside: each call that asks for memory, with ample memory and
//! with requests refused. Rows of data (`connection_conformance`, `bindings/testing`) and the tests in
//! C and Rust (`bindings`) say what payloads are and why they are refused.
//!
//! At most one allocation of a run is refused. So a call that answers that memory was refused is
//! made once more, and then has to answer.
#![tactic(auto)]

#[cfg(test)]
mod commands;
#[cfg(test)]
mod connection;
#[cfg(test)]
mod events;
#[cfg(test)]
mod lent;
#[cfg(test)]
mod packets;
