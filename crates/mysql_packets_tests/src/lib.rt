//! Tests of `mysql_packets` and the crates below it from outside. They try what only Rattle has of
//! columns, OK and error packets, session states, and rows. So they do with commands of prepared
//! statements, and the builder of bulk requests. What such packets say in a reply, and which fronts
//! of them are refused, stands in rows: bindings/testing/rows.
//!
//! Values go to generic functions that take them, and answers are compared there.
#![tactic(auto)]

#[cfg(test)]
mod bulk;
#[cfg(test)]
mod copies;
#[cfg(test)]
mod fields;
#[cfg(test)]
mod given;
#[cfg(test)]
mod ok_packets;
#[cfg(test)]
mod rows;
#[cfg(test)]
mod session_states;
#[cfg(test)]
mod stored_rows;
#[cfg(test)]
mod support;
#[cfg(test)]
mod texts;
