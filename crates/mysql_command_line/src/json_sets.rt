//! Parameter sets in JSON.

use crate::stop::Stop;
use mysql_session::{ByteString, Params, Value};
use serde_json::{Map, Number, Value as Json};
use std::alloc::Global;
use std::collections::HashMap;

/// The value that a whole number is: signed where it fits.
fn value_of_number(number: &Number) -> Result<Value, Stop> {
    if let Some(signed) = number.as_i64() {
        return Ok(Value::Int(signed));
    }
    match number.as_u64() {
        Some(unsigned) => Ok(Value::UInt(unsigned)),
        None => Err(Stop::BadJson),
    }
}

/// The value that a member of a set is.
fn value_of(member: Json) -> Result<Value, Stop> {
    match member {
        Json::Null => Ok(Value::NULL),
        Json::Bool(is_true) => Ok(Value::Int(i64::from(is_true))),
        Json::Number(number) => value_of_number(&number),
        Json::String(text) => Ok(Value::Bytes(ByteString::from_vec(text.into_bytes()))),
        Json::Array(_) | Json::Object(_) => Err(Stop::BadJson),
    }
}

/// The set that an array is.
fn positional_set(alloc: Global, members: Vec<Json>) -> Result<Params, Stop> {
    if members.is_empty() {
        return Ok(Params::Empty);
    }
    let mut values = Vec::new(alloc);
    for member in members {
        values.push(value_of(member)?)?;
    }
    Ok(Params::Positional(values))
}

/// The set that an object is.
fn named_set(alloc: Global, members: Map<String, Json>) -> Result<Params, Stop> {
    let mut values = HashMap::new(alloc);
    for (name, member) in members {
        let _earlier = values.insert(name.into_bytes(), value_of(member)?)?;
    }
    Ok(Params::Named(values))
}

/// The set that an array or an object is.
fn set_of(alloc: Global, set: Json) -> Result<Params, Stop> {
    match set {
        Json::Array(members) => positional_set(alloc, members),
        Json::Object(members) => named_set(alloc, members),
        _ => Err(Stop::BadJson),
    }
}

/// What a text in JSON says.
fn json_of(alloc: Global, text: &[u8]) -> Result<Json, Stop> {
    match Json::from_slice(alloc, text) {
        Ok(json) => Ok(json),
        Err(error) => Err(if error.is_memory() {
            Stop::Memory
        } else {
            Stop::BadJson
        }),
    }
}

/// The parameter sets that a text in JSON lists: an array is a set of values in order, an object
/// one of values by names.
pub(crate) fn sets_of(alloc: Global, text: &[u8]) -> Result<Vec<Params>, Stop> {
    let Json::Array(list) = json_of(alloc, text)? else {
        return Err(Stop::BadJson);
    };
    let mut sets = Vec::new(alloc);
    for set in list {
        sets.push(set_of(alloc, set)?)?;
    }
    Ok(sets)
}
