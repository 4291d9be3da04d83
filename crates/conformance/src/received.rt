//! What queries that are kept tell, and what waits of a packet that is received.

use crate::calls::Statement;
use crate::rows::{DIFFERS, UNKNOWN};
use crate::tokens::check_words;
use mysql_session::{Query, Receiver};
use std::alloc::Global;
use tests_support::rows::{Token, Trouble, bytes_of, number};

/// Compares how many placeholders a query has, or why none is made, with what is wanted.
pub fn run_query(
    alloc: Global,
    (text, id, _): Statement<'_>,
    wanted: &[&[Token<'_>]],
    words: &mut String,
) -> Result<(), Trouble> {
    let places = match Query::new(alloc, text, id) {
        Ok(query) if query.text() == text && query.stmt_id() == id => Ok(query.place_count()),
        Ok(_) => return Err(Trouble::Malformed("a query tells another text or id")),
        Err(refusal) => Err(refusal),
    };
    match places {
        Ok(count) => write!(words, " places {count} |")?,
        Err(refusal) => write!(words, " refused: {refusal:?} |")?,
    }
    check_words(alloc, words.as_str(), wanted)
}

/// How many bytes a receiver holds of a packet that comes in pieces of this size, behind an empty one.
fn held(
    alloc: Global,
    (query, id, limit): Statement<'_>,
    packet: &[u8],
    size: usize,
) -> Option<usize> {
    let Ok(mut receiver) = Receiver::new(alloc, query, id, limit.max(4)) else {
        return None;
    };
    let mut is_fed = receiver.feed(&[]).is_ok();
    for piece in packet.chunks(size.max(1)) {
        is_fed = receiver.feed(piece).is_ok();
    }
    if is_fed { Some(receiver.kept()) } else { None }
}

/// In so many pieces a packet comes at most; one of fewer bytes comes byte by byte.
const MOST_PIECES: usize = 4096;

/// Compares how many bytes a receiver holds of a packet: in one piece, and in many.
pub fn run_held(
    alloc: Global,
    statement: Statement<'_>,
    packet: &[Token<'_>],
    wanted: &[&[Token<'_>]],
    words: &mut String,
) -> Result<(), Trouble> {
    let [wanted] = wanted else {
        return Err(UNKNOWN);
    };
    let wanted = number(wanted)?;
    let packet = bytes_of(alloc, packet)?;
    let whole = held(alloc, statement, &packet, packet.len());
    let size = (packet.len() / MOST_PIECES).saturating_add(1);
    match (whole, held(alloc, statement, &packet, size)) {
        (Some(whole), Some(pieces)) if whole == wanted && pieces == wanted => Ok(()),
        (Some(whole), Some(pieces)) => {
            write!(words, " {whole} and {pieces} bytes are held")?;
            Err(DIFFERS)
        }
        _ => Err(Trouble::Memory),
    }
}
