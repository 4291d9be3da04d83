//! What the benchmark of `bench/` calls where the library for C has no such call. Each call does its
//! work and answers a count that shows that it was done, or 0.
//!
//! An `alloc` takes no bytes, so that C passes nothing for it; a slice is a pointer and a length.
#![tactic(auto)]

mod cells;
mod connections;
mod conversions;
mod kept;
mod objects;
mod putting;
mod queries;
mod rows;
mod sets;
mod to_writer;

use mysql_session::Road;

/// The limit of packets, as MySQL's servers have it by default: 64 MB.
pub const LIMIT: usize = 67108864;

/// The id of the statement.
pub const STATEMENT: u32 = 1;

/// The method of this number: 0 is text, 1 is execute, and any other is bulk.
pub fn road_of(number: u8) -> Road {
    match number {
        0 => Road::Text,
        1 => Road::Execute,
        _ => Road::Bulk,
    }
}
