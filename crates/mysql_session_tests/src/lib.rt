//! Tests of what `mysql_session` sends to a writer and of what the program prints, over outputs that
//! no process has. They take a byte at a time, are interrupted, fail, and can't be flushed. Rows show
//! all else: `conformance`, `bindings/testing/rows`.
//!
//! At most one allocation of a run is refused. So what answers that memory was refused is made once
//! more, and then has to answer.
#![tactic(auto)]

#[cfg(test)]
mod output;
#[cfg(test)]
mod printing;
#[cfg(test)]
mod sending;
