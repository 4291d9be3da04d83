//! Calls that append commands, or refuse to.

use crate::rows::{DIFFERS, UNKNOWN};
use crate::sets::{Object, parts_of};
use crate::tokens::check_words;
use mysql_session::{
    Content, Params, Query, Road, SendToError, ToValue, Value, recode, send, send_contents,
    send_values,
};
use std::alloc::Global;
use std::fmt::Debug;
use tests_support::rows::{Token, Trouble, bytes_of, number};

/// What is there before something is appended.
pub const FRONT: &[u8] = b"front";

/// A query, the id of its statement and the limit of its packets.
pub type Statement<'a> = (&'a [u8], u32, usize);

/// Writes why a call refuses; nothing where it doesn't.
pub fn tell<E: Debug + Drop>(answer: Result<(), E>, words: &mut String) -> Result<(), Trouble> {
    match answer {
        Ok(()) => Ok(()),
        Err(refusal) => Ok(write!(words, " refused: {refusal:?} |")?),
    }
}

/// Whether these bytes were appended.
fn is_behind_front(alloc: Global, out: &[u8], bytes: &[Token<'_>]) -> Result<bool, Trouble> {
    Ok(out.strip_prefix(FRONT) == Some(bytes_of(alloc, bytes)?.as_slice()))
}

/// Compares what was appended, and a refusal, with what is wanted: bytes, a refusal, or both.
pub fn check(
    alloc: Global,
    out: &[u8],
    words: &mut String,
    wanted: &[&[Token<'_>]],
) -> Result<(), Trouble> {
    let (is_same, refusals) = match wanted {
        [[Token::Word("refused:"), ..], ..] => (out == FRONT, wanted),
        [bytes, refusals @ ..] => (is_behind_front(alloc, out, bytes)?, refusals),
        [] => return Err(UNKNOWN),
    };
    match check_words(alloc, words.as_str(), refusals) {
        Ok(()) if is_same => Ok(()),
        Err(Trouble::Memory) => Err(Trouble::Memory),
        _ => {
            write!(words, " {out:?}")?;
            Err(DIFFERS)
        }
    }
}

/// The method of this name.
fn road_of(token: &Token<'_>) -> Result<Road, Trouble> {
    match token {
        Token::Word("text") => Ok(Road::Text),
        Token::Word("execute") => Ok(Road::Execute),
        Token::Word("bulk") => Ok(Road::Bulk),
        _ => Err(UNKNOWN),
    }
}

/// Sends sets, to a writer by a query that is kept where `is_kept`.
fn call_send(
    alloc: Global,
    (road, is_kept): (Road, bool),
    (query, id, limit): Statement<'_>,
    input: &[Token<'_>],
    out: &mut Vec<u8>,
    words: &mut String,
) -> Result<(), Trouble> {
    let sets = parts_of::<Params>(alloc, input, "set")?;
    if !is_kept {
        return tell(
            send(alloc, query, &sets, road, id, limit.max(4), out),
            words,
        );
    }
    let sent = match Query::new(alloc, query, id) {
        Ok(query) => query.send_to(alloc, &sets, road, limit.max(4), out),
        Err(refusal) => Err(SendToError::Refused(refusal, 0)),
    };
    tell(sent, words)
}

/// Sends lists of objects, each in a box.
fn call_send_values(
    alloc: Global,
    road: Road,
    (query, id, limit): Statement<'_>,
    input: &[Token<'_>],
    out: &mut Vec<u8>,
    words: &mut String,
) -> Result<(), Trouble> {
    let mut boxed: Vec<Vec<Box<dyn ToValue + Drop>>> = Vec::new(alloc);
    let mut is_whole = true;
    for list in parts_of::<Vec<Object>>(alloc, input, "set")? {
        let mut objects: Vec<Box<dyn ToValue + Drop>> = Vec::new(alloc);
        for object in list {
            let is_put = match object {
                Object::Nothing => match Box::new(alloc, Option::<i8>::None) {
                    Ok(nothing) => objects.push(nothing).is_ok(),
                    Err(_) => false,
                },
                Object::Text(text) => match Box::new(alloc, text) {
                    Ok(text) => objects.push(text).is_ok(),
                    Err(_) => false,
                },
                Object::Unsigned(number) => match Box::new(alloc, number) {
                    Ok(number) => objects.push(number).is_ok(),
                    Err(_) => false,
                },
                Object::Signed(number) => match Box::new(alloc, number) {
                    Ok(number) => objects.push(number).is_ok(),
                    Err(_) => false,
                },
                Object::Time(time) => match Box::new(alloc, time) {
                    Ok(time) => objects.push(time).is_ok(),
                    Err(_) => false,
                },
            };
            is_whole = is_whole && is_put;
        }
        is_whole = boxed.push(objects).is_ok() && is_whole;
    }
    if !is_whole {
        return Err(Trouble::Memory);
    }
    let sent = send_values(alloc, query, &boxed, road, id, limit.max(4), out);
    tell(sent, words)
}

/// Sends further lists of values of a statement that was prepared, numbered on from this number.
fn call_send_more(
    alloc: Global,
    first: u16,
    (query, id, limit): Statement<'_>,
    input: &[Token<'_>],
    out: &mut Vec<u8>,
    words: &mut String,
) -> Result<(), Trouble> {
    let lists = parts_of::<Vec<Value>>(alloc, input, "set")?;
    if lists.len() > 65535 {
        return Err(UNKNOWN);
    }
    let sent = match Query::new(alloc, query, id) {
        Ok(query) => query.send_more(alloc, usize::from(first), &lists, limit.max(4), out),
        Err(refusal) => Err(refusal),
    };
    tell(sent, words)
}

/// Sends contents.
fn call_send_contents(
    alloc: Global,
    (query, id, limit): Statement<'_>,
    input: &[Token<'_>],
    out: &mut Vec<u8>,
    words: &mut String,
) -> Result<(), Trouble> {
    let sets = parts_of::<Vec<Content>>(alloc, input, "set")?;
    tell(
        send_contents(alloc, query, sets, id, limit.max(4), out),
        words,
    )
}

/// Recodes a stream that comes in two halves with an empty piece between them.
fn call_recode(
    alloc: Global,
    (query, id, limit): Statement<'_>,
    input: &[Token<'_>],
    out: &mut Vec<u8>,
    words: &mut String,
) -> Result<(), Trouble> {
    let stream = bytes_of(alloc, input)?;
    let (front, back) = stream.split_at(stream.len() / 2);
    let recoded = recode(alloc, query, id, limit.max(4), &[front, &[], back], out);
    tell(recoded, words)
}

/// Binds the one set of a field to the text of a query that is kept.
fn call_bind_text(
    alloc: Global,
    (query, id, _): Statement<'_>,
    input: &[Token<'_>],
    out: &mut Vec<u8>,
    words: &mut String,
) -> Result<(), Trouble> {
    let sets = parts_of::<Params>(alloc, input, "set")?;
    match (sets.first(), Query::new(alloc, query, id)) {
        (Some(set), Ok(query)) => tell(query.bind_text(alloc, set, out), words),
        (Some(_), Err(refusal)) => tell(Err(refusal), words),
        (None, _) => Err(UNKNOWN),
    }
}

/// Calls what a row names, and writes why it refuses.
fn call(
    alloc: Global,
    kind: &[Token<'_>],
    statement: Statement<'_>,
    input: &[Token<'_>],
    out: &mut Vec<u8>,
    words: &mut String,
) -> Result<(), Trouble> {
    match kind {
        [Token::Word("send"), road] => {
            call_send(alloc, (road_of(road)?, false), statement, input, out, words)
        }
        [Token::Word("to"), road] => {
            call_send(alloc, (road_of(road)?, true), statement, input, out, words)
        }
        [Token::Word("objects"), road] => {
            call_send_values(alloc, road_of(road)?, statement, input, out, words)
        }
        [Token::Word("more"), first @ ..] => {
            call_send_more(alloc, number(first)?, statement, input, out, words)
        }
        [Token::Word("contents")] => call_send_contents(alloc, statement, input, out, words),
        [Token::Word("recode")] => call_recode(alloc, statement, input, out, words),
        [Token::Word("bind")] => call_bind_text(alloc, statement, input, out, words),
        _ => Err(UNKNOWN),
    }
}

/// Compares what a call appends, or why it refuses, with what is wanted.
pub fn run_call(
    alloc: Global,
    kind: &[Token<'_>],
    statement: Statement<'_>,
    input: &[Token<'_>],
    wanted: &[&[Token<'_>]],
    words: &mut String,
) -> Result<(), Trouble> {
    let mut out = Vec::from_slice(alloc, FRONT)?;
    call(alloc, kind, statement, input, &mut out, words)?;
    check(alloc, &out, words, wanted)
}
