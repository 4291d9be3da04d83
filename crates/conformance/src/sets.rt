//! Parameter sets, contents and objects of a field: `set` before each set, commas between values.

use crate::rows::UNKNOWN;
use mysql_session::{ByteString, Content, Params, Value};
use std::alloc::Global;
use std::collections::HashMap;
use std::time::Duration;
use tests_support::rows::{Token, Trouble, bytes_of, number};

/// What a part of a field means.
pub trait Part: Drop + Sized {
    fn of(alloc: Global, tokens: &[Token<'_>]) -> Result<Self, Trouble>;
}

/// What the parts mean between which this word is. Before a first word there may be none.
pub fn parts_of<T: Part>(
    alloc: Global,
    tokens: &[Token<'_>],
    between: &str,
) -> Result<Vec<T>, Trouble> {
    let mut parts = Vec::new(alloc);
    let mut is_first = true;
    for part in tokens.split(|token| matches!(token, Token::Word(word) if *word == between)) {
        if !(is_first && part.is_empty()) {
            parts.push(T::of(alloc, part)?)?;
        }
        is_first = false;
    }
    Ok(parts)
}

/// Values between commas.
impl<T: Part> Part for Vec<T> {
    fn of(alloc: Global, tokens: &[Token<'_>]) -> Result<Vec<T>, Trouble> {
        parts_of(alloc, tokens, ",")
    }
}

/// `null`, `float`, `uint` with a number, a whole number, or bytes.
impl Part for Value {
    fn of(alloc: Global, tokens: &[Token<'_>]) -> Result<Value, Trouble> {
        match tokens {
            [Token::Word("null")] => Ok(Value::NULL),
            [Token::Word("float")] => Ok(Value::Float(0)),
            [Token::Word("uint"), rest @ ..] => Ok(Value::UInt(number(rest)?)),
            [Token::Word(word)] if let Ok(signed) = word.parse::<i64>() => Ok(Value::Int(signed)),
            [Token::Word(word)] if let Ok(unsigned) = word.parse::<u64>() => {
                Ok(Value::UInt(unsigned))
            }
            _ => Ok(Value::Bytes(ByteString::from_vec(bytes_of(alloc, tokens)?))),
        }
    }
}

/// A value that is no float.
impl Part for Content {
    fn of(alloc: Global, tokens: &[Token<'_>]) -> Result<Content, Trouble> {
        match Value::of(alloc, tokens)?.into_content(alloc)? {
            Some(content) => Ok(content),
            None => Err(UNKNOWN),
        }
    }
}

/// The set of values behind their names, each `:` and the name; of none where `:` is alone.
fn named_set(alloc: Global, set: &[Token<'_>]) -> Result<Params, Trouble> {
    let mut values = HashMap::new(alloc);
    for part in set.split(|token| matches!(token, Token::Word(","))) {
        if let [Token::Word(name), value @ ..] = part
            && let Some(name) = name.strip_prefix(':')
            && !value.is_empty()
        {
            let value = Value::of(alloc, value)?;
            let _earlier = values.insert(Vec::from_slice(alloc, name.as_bytes())?, value)?;
        }
    }
    Ok(Params::Named(values))
}

/// No values, values by names, or values in order.
impl Part for Params {
    fn of(alloc: Global, set: &[Token<'_>]) -> Result<Params, Trouble> {
        match set {
            [] => Ok(Params::Empty),
            [Token::Word(name), ..] if name.starts_with(':') => named_set(alloc, set),
            _ => Ok(Params::Positional(parts_of(alloc, set, ",")?)),
        }
    }
}

/// An object that is converted to a value.
#[derive(Drop)]
pub enum Object {
    Nothing,
    Text(String),
    Unsigned(u64),
    Signed(i64),
    Time(Duration),
}

/// `null`, a text, a number with a sign or behind `uint`, a duration behind `seconds` or `millis`.
impl Part for Object {
    fn of(alloc: Global, object: &[Token<'_>]) -> Result<Object, Trouble> {
        Ok(match object {
            [Token::Word("null")] => Object::Nothing,
            [Token::Text(text)] => Object::Text(String::from_str(alloc, text)?),
            [Token::Word("uint"), rest @ ..] => Object::Unsigned(number(rest)?),
            [Token::Word("seconds"), rest @ ..] => {
                Object::Time(Duration::from_secs(number(rest)?))
            }
            [Token::Word("millis"), rest @ ..] => {
                Object::Time(Duration::from_millis(number(rest)?))
            }
            _ => Object::Signed(number(object)?),
        })
    }
}
