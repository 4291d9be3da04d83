//! Rows of replies.

use crate::calls::{FRONT, check};
use crate::lending::check_lent;
use crate::rows::{Fields, UNKNOWN};
use crate::writing::{Sides, check_again, reply_of, written};
use mysql_session::{CapabilityFlags, ReplyKind};
use std::alloc::Global;
use tests_support::rows::{Token, Trouble, bytes_of, number};

/// The kind of command that a reply answers.
fn kind_of(field: &[Token<'_>]) -> Result<ReplyKind, Trouble> {
    match field {
        [Token::Word("text")] => Ok(ReplyKind::Text),
        [Token::Word("binary")] => Ok(ReplyKind::Binary),
        [Token::Word("prepare")] => Ok(ReplyKind::Prepare),
        [Token::Word("plain")] => Ok(ReplyKind::Plain),
        [Token::Word("line")] => Ok(ReplyKind::Line),
        [Token::Word("field_list")] => Ok(ReplyKind::FieldList),
        [Token::Word("fetch")] => Ok(ReplyKind::Fetch),
        _ => Err(UNKNOWN),
    }
}

/// The capabilities of hexadecimal numbers, taken together.
fn capabilities_of(field: &[Token<'_>]) -> Result<CapabilityFlags, Trouble> {
    let mut bits = 0;
    for token in field {
        match token {
            Token::Word(word) if let Ok(more) = u32::from_str_radix(word, 16) => bits |= more,
            _ => return Err(UNKNOWN),
        }
    }
    Ok(CapabilityFlags(bits))
}

/// What a reply is read and written by.
fn sides_of(
    kind: &[Token<'_>],
    capabilities: &[Token<'_>],
    first_id: &[Token<'_>],
    limit: &[Token<'_>],
) -> Result<Sides, Trouble> {
    Ok((
        kind_of(kind)?,
        capabilities_of(capabilities)?,
        number(first_id)?,
        number(limit)?,
    ))
}

/// Reads a reply whose rows are lent, and writes it again.
pub fn run_reply(alloc: Global, fields: Fields<'_, '_>, words: &mut String) -> Result<(), Trouble> {
    let [kind, capabilities, first_id, limit, stream, lines @ ..] = fields else {
        return Err(UNKNOWN);
    };
    let sides = sides_of(kind, capabilities, first_id, limit)?;
    let stream = bytes_of(alloc, stream)?;
    match check_lent(alloc, sides, &stream, lines, words) {
        Ok(()) => check_again(alloc, sides, &stream, words),
        Err(trouble) => Err(trouble),
    }
}

/// Writes what a reply says, which was read as this kind with packets of up to 32 MB, and compares
/// the bytes or the refusal.
fn check_written(
    alloc: Global,
    read_kind: ReplyKind,
    sides: Sides,
    stream: &[Token<'_>],
    wanted: &[&[Token<'_>]],
    words: &mut String,
) -> Result<(), Trouble> {
    let (_, capabilities, first_id, _) = sides;
    let read_by = (read_kind, capabilities, first_id, 1 << 25);
    let mut out = Vec::from_slice(alloc, FRONT)?;
    let reply = reply_of(alloc, read_by, bytes_of(alloc, stream)?.as_slice())?;
    match written(alloc, sides, &reply, &mut out, words) {
        Ok(()) => check(alloc, &out, words, wanted),
        Err(trouble) => Err(trouble),
    }
}

/// Writes what a reply says as one of the same kind or of another.
pub fn run_write(
    alloc: Global,
    read_kind: &[Token<'_>],
    fields: Fields<'_, '_>,
    words: &mut String,
) -> Result<(), Trouble> {
    let [kind, capabilities, first_id, limit, stream, wanted @ ..] = fields else {
        return Err(UNKNOWN);
    };
    let sides = sides_of(kind, capabilities, first_id, limit)?;
    check_written(alloc, kind_of(read_kind)?, sides, stream, wanted, words)
}
