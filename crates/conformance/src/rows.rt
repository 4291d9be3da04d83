//! The rows, by their kinds. What a row gives is written as words, which are told where it differs.

use crate::calls::{Statement, run_call};
use crate::received::{run_held, run_query};
use crate::replies::{run_reply, run_write};
use std::alloc::Global;
use tests_support::rows::{Token, Trouble, bytes_of, number};

/// What a row is answered by whose kind or fields are none that the program knows.
pub const UNKNOWN: Trouble = Trouble::Malformed("no row that is known");

/// What a row is answered by that gives something else: the words say what.
pub const DIFFERS: Trouble = Trouble::Malformed("it gives");

/// The fields of a row behind its kind.
pub type Fields<'a, 'b> = &'a [&'a [Token<'b>]];

/// Runs a row about a query, the id of its statement and the limit of a packet.
fn run_statement(
    alloc: Global,
    kind: &[Token<'_>],
    fields: Fields<'_, '_>,
    words: &mut String,
) -> Result<(), Trouble> {
    let [query, id, limit, input, wanted @ ..] = fields else {
        return Err(UNKNOWN);
    };
    let (id, limit) = (number(id)?, number::<usize>(limit)?);
    let query = bytes_of(alloc, query)?;
    let statement: Statement<'_> = (query.as_slice(), id, limit);
    match kind {
        [Token::Word("held")] => run_held(alloc, statement, input, wanted, words),
        [Token::Word("query")] => run_query(alloc, statement, &[*input], words),
        _ => run_call(alloc, kind, statement, input, wanted, words),
    }
}

/// Runs a row.
pub fn run_row(alloc: Global, fields: Fields<'_, '_>, words: &mut String) -> Result<(), Trouble> {
    match fields {
        [[Token::Word("reply")], rest @ ..] => run_reply(alloc, rest, words),
        [[Token::Word("write")], read_kind, rest @ ..] => run_write(alloc, read_kind, rest, words),
        [kind, rest @ ..] => run_statement(alloc, kind, rest, words),
        [] => Err(UNKNOWN),
    }
}
