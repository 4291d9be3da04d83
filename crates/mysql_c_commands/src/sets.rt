//! Parameter sets that are put together value by value.

ghost use Rattle.std.specs.Prelude.{◌≡◌, ◌≢◌};
ghost use Rattle.mysql_cells.specs.declared.value.Value.TheVariants as value;
ghost use Rattle.mysql_c_handles.specs.Codes.{code_number};
ghost use Rattle.mysql_c_handles.specs.Sets.{IsSets, OfSets};
ghost use Rattle.mysql_c_commands.specs.Adding.{AddsSet, AddsSetIn};
ghost use Rattle.mysql_c_commands.specs.Sets.{CountsSets, EndsSet, EndsSetIn, HasNone, HasValues, LosesAll, PutsSet};
ghost use Rattle.mysql_c_commands.specs.Sets.{TakesValue, TakesValueIn};

use crate::parameter::{self, Parameter};
use mysql_c_handles::{Code, Handle, Object, ParameterSets};
use mysql_values::{ByteString, Params, Value};
use std::alloc::{AllocFailed, Global};
use std::mem::replace;

/// The values of a set by their order.
fn values_of(alloc: Global, set: Params) -> Vec<Value>
    ensures { HasValues set result }
{
    match set {
        Params::Positional(values) => values,
        _other => Vec::new(alloc),
    }
}

/// Takes the next value.
fn take_value(sets: &mut ParameterSets, value: Value) -> Code
    ensures { TakesValue value (code_number result) sets.old sets.new }
{
    match sets.open.push(value) {
        Ok(()) => Code::Done,
        Err(_) => Code::Memory,
    }
}

/// Ends the next set.
fn end_set(alloc: Global, sets: &mut ParameterSets) -> Code
    ensures { EndsSet (code_number result) sets.old sets.new }
{
    let values = replace(&mut sets.open, Vec::new(alloc));
    match sets.sets.push(Params::Positional(values)) {
        Ok(()) => Code::Done,
        Err(AllocFailed { value }) => {
            sets.open = values_of(alloc, value);
            Code::Memory
        }
    }
}

/// Puts a set behind the whole ones.
fn put_set(sets: &mut ParameterSets, values: Vec<Value>) -> Code
    ensures { PutsSet values (code_number result) sets.old sets.new }
{
    match sets.sets.push(Params::Positional(values)) {
        Ok(()) => Code::Done,
        Err(_) => Code::Memory,
    }
}

/// Adds a set that comes as an array.
fn add_set(alloc: Global, sets: &mut ParameterSets, parameters: &[Parameter], bytes: &[u8]) -> Code
    ensures { AddsSet bytes.now parameters.now (code_number result) sets.old sets.new }
{
    match parameter::values_of(alloc, bytes, parameters) {
        Ok(values) => put_set(sets, values),
        Err(code) => code,
    }
}

/// Takes the next value of parameter sets.
fn take_value_in(object: &mut Object, value: Value) -> Code
    ensures { OfSets object.old (code_number result) object.new (TakesValueIn value (code_number result) object.new) }
{
    match object {
        Object::Sets(sets) => take_value(sets, value),
        Object::Empty => Code::EmptyHandle,
        _ => Code::OtherKind,
    }
}

/// Takes a copy of bytes as the next value.
fn take_bytes(alloc: Global, sets: &mut ParameterSets, bytes: &[u8]) -> Code
    ensures { TakesValue (value.Bytes bytes.now) (code_number result) sets.old sets.new }
{
    match ByteString::copy(alloc, bytes) {
        Ok(copy) => take_value(sets, Value::Bytes(copy)),
        Err(_) => Code::Memory,
    }
}

/// Takes a copy of bytes as the next value of parameter sets.
fn take_bytes_in(alloc: Global, object: &mut Object, bytes: &[u8]) -> Code
    ensures { OfSets object.old (code_number result) object.new
        (TakesValueIn (value.Bytes bytes.now) (code_number result) object.new) }
{
    match object {
        Object::Sets(sets) => take_bytes(alloc, sets, bytes),
        Object::Empty => Code::EmptyHandle,
        _ => Code::OtherKind,
    }
}

/// Ends the next of parameter sets.
fn end_set_in(alloc: Global, object: &mut Object) -> Code
    ensures { OfSets object.old (code_number result) object.new (EndsSetIn (code_number result) object.new) }
{
    match object {
        Object::Sets(sets) => end_set(alloc, sets),
        Object::Empty => Code::EmptyHandle,
        _ => Code::OtherKind,
    }
}

/// Adds a set to parameter sets.
fn add_set_in(alloc: Global, object: &mut Object, parameters: &[Parameter], bytes: &[u8]) -> Code
    ensures { OfSets object.old (code_number result) object.new
        (AddsSetIn bytes.now parameters.now (code_number result) object.new) }
{
    match object {
        Object::Sets(sets) => add_set(alloc, sets, parameters, bytes),
        Object::Empty => Code::EmptyHandle,
        _ => Code::OtherKind,
    }
}

/// Counts the whole ones of parameter sets.
fn count_in(object: &Object, count: &mut usize) -> Code
    ensures { CountsSets object.now (code_number result) count.new }
{
    match object {
        Object::Sets(sets) => {
            *count = sets.sets.len();
            Code::Done
        }
        Object::Empty => Code::EmptyHandle,
        _ => Code::OtherKind,
    }
}

/// Lets go of all of parameter sets.
fn clear_in(object: &mut Object) -> Code
    ensures { OfSets object.old (code_number result) object.new (LosesAll (code_number result) object.new) }
{
    match object {
        Object::Sets(sets) => {
            sets.sets.clear();
            sets.open.clear();
            Code::Done
        }
        Object::Empty => Code::EmptyHandle,
        _ => Code::OtherKind,
    }
}

/// Hands the next value to the sets that a handle refers to.
fn push(alloc: Global, handle: &mut Handle, value: Value) -> u32
    ensures { OfSets handle.old.object result handle.new.object (TakesValueIn value result handle.new.object) }
{
    let Some(mut object) = handle.take(alloc) else {
        return Code::EmptyHandle.number();
    };
    let code = take_value_in(&mut object, value);
    handle.put(object);
    code.number()
}

/// Makes the handle refer to parameter sets, of which there are none yet.
pub fn sets_new(alloc: Global, handle: &mut Handle) -> u32
    ensures made { result ≡ 0 → IsSets handle.new.object HasNone }
    ensures kept { result ≢ 0 → (result ≡ 1) × (handle.new.object ≡ handle.old.object) }
{
    let none = Object::Sets(ParameterSets {
        sets: Vec::new(alloc),
        open: Vec::new(alloc),
    });
    match handle.set(alloc, none) {
        Ok(()) => Code::Done.number(),
        Err(_) => Code::Memory.number(),
    }
}

/// Gives the next set NULL.
pub fn sets_push_null(alloc: Global, handle: &mut Handle) -> u32
    ensures { OfSets handle.old.object result handle.new.object (TakesValueIn value.NULL result handle.new.object) }
{
    push(alloc, handle, Value::NULL)
}

/// Gives the next set a whole number with a sign.
pub fn sets_push_int(alloc: Global, handle: &mut Handle, number: i64) -> u32
    ensures { OfSets handle.old.object result handle.new.object
        (TakesValueIn (value.Int number) result handle.new.object) }
{
    push(alloc, handle, Value::Int(number))
}

/// Gives the next set a whole number without a sign.
pub fn sets_push_uint(alloc: Global, handle: &mut Handle, number: u64) -> u32
    ensures { OfSets handle.old.object result handle.new.object
        (TakesValueIn (value.UInt number) result handle.new.object) }
{
    push(alloc, handle, Value::UInt(number))
}

/// Gives the next set a float, by its bits.
pub fn sets_push_float(alloc: Global, handle: &mut Handle, bits: u32) -> u32
    ensures { OfSets handle.old.object result handle.new.object
        (TakesValueIn (value.Float bits) result handle.new.object) }
{
    push(alloc, handle, Value::Float(bits))
}

/// Gives the next set a double, by its bits.
pub fn sets_push_double(alloc: Global, handle: &mut Handle, bits: u64) -> u32
    ensures { OfSets handle.old.object result handle.new.object
        (TakesValueIn (value.Double bits) result handle.new.object) }
{
    push(alloc, handle, Value::Double(bits))
}

/// Gives the next set a copy of bytes.
pub fn sets_push_bytes(alloc: Global, handle: &mut Handle, bytes: &[u8]) -> u32
    ensures { OfSets handle.old.object result handle.new.object
        (TakesValueIn (value.Bytes bytes.now) result handle.new.object) }
{
    let Some(mut object) = handle.take(alloc) else {
        return Code::EmptyHandle.number();
    };
    let code = take_bytes_in(alloc, &mut object, bytes);
    handle.put(object);
    code.number()
}

/// Gives the next set a date with its time of day. No field is checked: a date may have month 13.
pub fn sets_push_date(
    alloc: Global,
    handle: &mut Handle,
    year: u16,
    month: u8,
    day: u8,
    hour: u8,
    minute: u8,
    second: u8,
    micros: u32,
) -> u32
    ensures { OfSets handle.old.object result handle.new.object
        (TakesValueIn (value.Date year month day hour minute second micros) result
        handle.new.object) }
{
    push(
        alloc,
        handle,
        Value::Date(year, month, day, hour, minute, second, micros),
    )
}

/// Gives the next set a duration. No field is checked.
pub fn sets_push_time(
    alloc: Global,
    handle: &mut Handle,
    negative: bool,
    days: u32,
    hours: u8,
    minutes: u8,
    seconds: u8,
    micros: u32,
) -> u32
    ensures { OfSets handle.old.object result handle.new.object
        (TakesValueIn (value.Time negative days hours minutes seconds micros) result
        handle.new.object) }
{
    push(
        alloc,
        handle,
        Value::Time(negative, days, hours, minutes, seconds, micros),
    )
}

/// Ends the next set.
pub fn sets_end_set(alloc: Global, handle: &mut Handle) -> u32
    ensures { OfSets handle.old.object result handle.new.object (EndsSetIn result handle.new.object) }
{
    let Some(mut object) = handle.take(alloc) else {
        return Code::EmptyHandle.number();
    };
    let code = end_set_in(alloc, &mut object);
    handle.put(object);
    code.number()
}

/// Puts one more set behind the whole ones: the values that an array describes, whose bytes lie in
/// `bytes`. The values of the next set stay.
///
/// Promise: each parameter gives the value that its kind and its bytes describe, behind those
/// before it. Or nothing has changed, and the code is that of the first that describes none
/// (`AddsSetIn`).
pub fn sets_add(alloc: Global, handle: &mut Handle, parameters: &[Parameter], bytes: &[u8]) -> u32
    ensures { OfSets handle.old.object result handle.new.object
        (AddsSetIn bytes.now parameters.now result handle.new.object) }
{
    let Some(mut object) = handle.take(alloc) else {
        return Code::EmptyHandle.number();
    };
    let code = add_set_in(alloc, &mut object, parameters, bytes);
    handle.put(object);
    code.number()
}

/// Tells how many sets are whole.
pub fn sets_count(alloc: Global, handle: &mut Handle, count: &mut usize) -> u32
    ensures kept { handle.new.object ≡ handle.old.object }
    ensures counted { CountsSets handle.old.object result count.new }
{
    let Some(object) = handle.take(alloc) else {
        return Code::EmptyHandle.number();
    };
    let code = count_in(&object, count);
    handle.put(object);
    code.number()
}

/// Lets go of all sets, and of the values of the next one.
pub fn sets_clear(alloc: Global, handle: &mut Handle) -> u32
    ensures { OfSets handle.old.object result handle.new.object (LosesAll result handle.new.object) }
{
    let Some(mut object) = handle.take(alloc) else {
        return Code::EmptyHandle.number();
    };
    let code = clear_in(&mut object);
    handle.put(object);
    code.number()
}
