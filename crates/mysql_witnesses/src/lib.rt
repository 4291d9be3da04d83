//! Witnesses: theorems that a contract excludes a wrong answer, each at a smallest input.
//!
//! A contract says by definitions what a call answers. Each function here has no code: its contract
//! says that such a definition excludes an answer which a wrong body would give. So no later body
//! can give it, as long as the contract cites the definition. Which answer is excluded stands with
//! the definition, in `specs`. There is a module for what each is about: connections, streams of
//! commands, replies and the library for C. Nothing calls this crate; the gate proves it.
#![tactic(auto)]

pub mod c_replies;
pub mod commands;
pub mod connections;
pub mod counts;
pub mod executions;
pub mod logins;
pub mod modes;
pub mod puts;
pub mod queries;
pub mod receiving;
pub mod recoding;
pub mod replies;
pub mod rows;
pub mod sending;
pub mod session_replies;
pub mod shown;
pub mod statements;
pub mod steps;
pub mod streams;
pub mod values;
pub mod wire;
pub mod wrong_bodies;
