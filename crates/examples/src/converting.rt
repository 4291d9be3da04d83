//! Rows of a reply as values of a type of one's own.

ghost use Rattle.std.specs.Prelude.{List, Option, ℕ};
ghost use Rattle.std.specs.Option.{option_map};
ghost use Rattle.std.specs.String.{string_bytes};

use crate::cents::Cents;
use mysql_session::{
    CapabilityFlags, FromRow, Reply, ReplyKind, ReplyResult, Row, RowConversionError, read_reply,
};
use std::alloc::Global;
use std::io;
use std::io::Write;

/// A row of goods.
#[derive(Drop)]
struct Good {
    name: String,
    price: Option<Cents>,
}

impl FromRow for Good {
    // What contracts compare of a good: the bytes of its name, and the number of cents if it has a price.
    ghost Shown = { List ℕ × Option ℕ };

    ghost shown = { λ good. (string_bytes good.name, option_map (λ cents. cents.0) good.price) };

    // What a row converts to, if it does: what the tuple below is made of.
    ghost converted = { ⟦<(String, Option<Cents>) as FromRow>⟧.converted };

    fn from_row_ref_opt(alloc: Global, row: &Row) -> Result<Good, RowConversionError> {
        let (name, price) = <(String, Option<Cents>)>::from_row_ref_opt(alloc, row)?;
        Ok(Good { name, price })
    }
}

/// Prints a good.
fn say_good<W: Write>(good: &Good, out: &mut W) -> io::Result<()> {
    match &good.price {
        Some(price) => writeln!(out, "{} for {price}", good.name),
        None => writeln!(out, "{} for nothing", good.name),
    }
}

/// Prints a row as a good.
fn say_row<W: Write>(alloc: Global, row: &Row, out: &mut W) -> io::Result<()> {
    match &Good::from_row_ref_opt(alloc, row) {
        Ok(good) => say_good(good, out),
        Err(_error) => writeln!(out, "no good"),
    }
}

/// Prints the rows of the first result, and how the reply ends.
fn say<W: Write>(alloc: Global, reply: &Reply, out: &mut W) -> io::Result<()> {
    if let Some(ReplyResult::Rows { rows, .. }) = reply.results.first() {
        for row in rows {
            say_row(alloc, row, out)?;
        }
    }
    writeln!(out, "{}", reply.end)
}

/// Prints the rows of a server's reply to `SELECT name, price FROM goods`.
pub fn run<W: Write>(alloc: Global, reply: &[u8], out: &mut W) -> io::Result<()> {
    let capabilities = CapabilityFlags::CLIENT_PROTOCOL_41;
    let reply = read_reply(alloc, ReplyKind::Text, capabilities, 1, 1 << 24, &[reply]);
    say(alloc, &reply, out)
}
