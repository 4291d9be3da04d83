//! The bitmap of parameters and attributes.

ghost use Rattle.std.specs.Prelude.{◌≡◌, ◌++◌, ◌+◌, ◌*◌, ◌-◌, ◌/◌, ◌<◌, ◌^◌, drop, if◌then◌else◌};
ghost use Rattle.mysql_stmt.specs.Executions.{null_bitmap, null_bits};
ghost use Rattle.mysql_fields.specs.Wire.{Appends};
ghost use Rattle.mysql_execution_writer.specs.Written.{binding_bytes, null_at, values_of};

use mysql_cells::Value;
use mysql_executions::Attribute;
use mysql_fields::IntRepr;
use std::alloc::AllocError;

/// Whether the value at a place is NULL, of parameters and of attributes behind them.
fn is_null_at(parameters: &[Value], attributes: &[Attribute], place: usize) -> bool
    ensures { result ≡ null_at (parameters.now ++ values_of attributes.now) place }
{
    if place < parameters.len() {
        return parameters[place].is_null();
    }
    let behind = place - parameters.len();
    if behind < attributes.len() {
        attributes[behind].value.is_null()
    } else {
        false
    }
}

/// A bit, 1 for NULL.
fn bit(null: bool) -> u16
    ensures { result ≡ (if null then 1 else 0) }
{
    if null { 1 } else { 0 }
}

/// Whether the value at a place is NULL; behind all values none is.
fn is_null_in(values: &[Value], place: usize) -> bool
    ensures { result ≡ null_at values.now place }
{
    if place < values.len() {
        values[place].is_null()
    } else {
        false
    }
}

/// The byte of eight values from a place on, the first one the lowest bit.
fn null_byte_of(values: &[Value], first: usize) -> u8
    requires { first < 2 ^ 63 }
    ensures { result ≡ null_bits 8 (drop first values.now) }
{
    let count = values.len().saturating_sub(first).min(8);
    let mut byte: u16 = 0;
    for done in 8 - count..8 {
        let place = first + (7 - done);
        byte = byte * 2 + bit(is_null_in(values, place));
    }
    byte as u8
}

/// That byte of parameters and of attributes behind them.
fn null_byte_of_both(parameters: &[Value], attributes: &[Attribute], first: usize) -> u8
    requires { first < 2 ^ 63 }
    ensures { result ≡ null_bits 8 (drop first (parameters.now ++ values_of attributes.now)) }
{
    let mut byte: u16 = 0;
    for done in 0..8 {
        let place = first + (7 - done);
        byte = byte * 2 + bit(is_null_at(parameters, attributes, place));
    }
    byte as u8
}

/// That byte, where most often there are no attributes.
fn null_byte(parameters: &[Value], attributes: &[Attribute], first: usize) -> u8
    requires { first < 2 ^ 63 }
    ensures { result ≡ null_bits 8 (drop first (parameters.now ++ values_of attributes.now)) }
{
    if attributes.is_empty() {
        null_byte_of(parameters, first)
    } else {
        null_byte_of_both(parameters, attributes, first)
    }
}

/// Appends the bitmap of parameters and of attributes behind them.
fn put_bitmap(
    parameters: &[Value],
    attributes: &[Attribute],
    out: &mut Vec<u8>,
) -> Result<(), AllocError>
    ensures { Appends result out.old.items out.new.items (null_bitmap (parameters.now ++ values_of attributes.now)) }
{
    let len = out.len();
    let count = parameters.len() + attributes.len();
    for k in 0..(count + 7) / 8 {
        if let Err(_refused) = out.push(null_byte(parameters, attributes, 8 * k)) {
            out.truncate(len);
            return Err(AllocError);
        }
    }
    Ok(())
}

/// Appends the bitmap, and whether types follow; nothing where there are no values.
pub fn put_binding(
    parameters: &[Value],
    attributes: &[Attribute],
    bound: bool,
    out: &mut Vec<u8>,
) -> Result<(), AllocError>
    ensures { Appends result out.old.items out.new.items
        (binding_bytes (parameters.now ++ values_of attributes.now) bound) }
{
    if parameters.is_empty() && attributes.is_empty() {
        return Ok(());
    }
    let len = out.len();
    put_bitmap(parameters, attributes, out)?;
    if let Err(e) = u8::serialize(u8::from(bound), out) {
        out.truncate(len);
        return Err(e);
    }
    Ok(())
}
