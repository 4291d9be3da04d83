//! Tests of `mysql_login` and the crates below it from outside. They try what only Rattle has of
//! packets of logging in and of replication, and of sets of global transaction identifiers. What
//! such packets say, and which fronts of them are refused, stands in rows: bindings/testing/rows.
#![tactic(auto)]

#[cfg(test)]
mod attributes;
#[cfg(test)]
mod copies;
#[cfg(test)]
mod gtids;
#[cfg(test)]
mod handshakes;
#[cfg(test)]
mod headers;
#[cfg(test)]
mod made;
#[cfg(test)]
mod packets;
#[cfg(test)]
mod plugins;
#[cfg(test)]
mod responses;
#[cfg(test)]
mod support;
