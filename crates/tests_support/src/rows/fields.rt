//! The fields of a row: bytes and numbers.

use crate::rows::{Token, Trouble};
use std::alloc::Global;
use std::str::FromStr;

/// Puts bytes so many times.
fn put_run(run: &[u8], times: usize, bytes: &mut Vec<u8>) -> Result<(), Trouble> {
    if let [byte] = run {
        bytes.resize(bytes.len().saturating_add(times), *byte)?;
        return Ok(());
    }
    for _ in 0..times {
        bytes.extend_from_slice(run)?;
    }
    Ok(())
}

/// Puts what a token stands for, so many times: two digits a byte, a text its bytes.
fn put_token(
    alloc: Global,
    token: Token<'_>,
    times: usize,
    bytes: &mut Vec<u8>,
) -> Result<(), Trouble> {
    let digits = match token {
        Token::Text(text) => return put_run(text.as_bytes(), times, bytes),
        Token::Word(word) => hex::decode(alloc, word),
    };
    match digits {
        Ok(digits) => put_run(digits.as_slice(), times, bytes),
        Err(hex::FromHexError::OutOfMemory) => Err(Trouble::Memory),
        Err(_) => Err(Trouble::Malformed("not bytes")),
    }
}

/// The number that a word is.
fn number_of<T: FromStr>(token: Option<&Token<'_>>) -> Result<T, Trouble>
where
    T::Err: Drop,
{
    if let Some(Token::Word(word)) = token {
        if let Ok(number) = word.parse::<T>() {
            return Ok(number);
        }
    }
    Err(Trouble::Malformed("not a number"))
}

/// The number that a field begins with.
pub fn number<T: FromStr>(field: &[Token<'_>]) -> Result<T, Trouble>
where
    T::Err: Drop,
{
    number_of(field.first())
}

fn is_star(token: Option<&Token<'_>>) -> bool {
    matches!(token, Some(Token::Word("*")))
}

/// Puts the bytes that tokens stand for, one after another; `N * TOKEN` is N times what the token stands for.
fn put_tokens(alloc: Global, tokens: &[Token<'_>], bytes: &mut Vec<u8>) -> Result<(), Trouble> {
    let mut times = 1;
    for (place, token) in tokens.iter().enumerate() {
        if is_star(tokens.get(place.saturating_add(1))) {
            times = number_of(Some(token))?;
        } else if !is_star(Some(token)) {
            put_token(alloc, *token, times, bytes)?;
            times = 1;
        }
    }
    Ok(())
}

/// The bytes that a field stands for; `first N of ..` is a front of them.
pub fn bytes_of(alloc: Global, field: &[Token<'_>]) -> Result<Vec<u8>, Trouble> {
    let (whole, most) = match field {
        [Token::Word("first"), count, Token::Word("of"), whole @ ..] => {
            (whole, number_of(Some(count))?)
        }
        _ => (field, usize::MAX),
    };
    let mut bytes = Vec::new(alloc);
    put_tokens(alloc, whole, &mut bytes)?;
    bytes.truncate(most);
    Ok(bytes)
}
