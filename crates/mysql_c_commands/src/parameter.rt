//! A set that comes as an array of values.

ghost use Rattle.std.specs.Prelude.{◌≡◌, ◌⊎◌, ◌∷◌, ◌++◌, [], IfErr, IfOk, OnOk, Ok, Err};
ghost use Rattle.mysql_cells.specs.declared.value.Value.TheVariants as value;
ghost use Rattle.mysql_c_handles.specs.declared.code.Code.TheVariants as code;
ghost use Rattle.mysql_c_commands.specs.Adding.{Describe, IsDescriptionCause, bytes_from};
ghost use Rattle.mysql_c_commands.specs.Adding.{float_from, parameter_value};

use mysql_c_handles::Code;
use mysql_values::{ByteString, Value};
use std::alloc::Global;

/// A value as C describes it: its kind, and what that kind has.
///
/// The kinds are 0 NULL, 1 a number with a sign, 2 one without, 3 bytes. And 4 is a float, 5 a
/// double, 6 a date, 7 a duration. A float and a double are their bits, in `uint`. Bytes lie in
/// those that are handed over beside the array, `len` of them from `start` on.
#[repr(C)]
#[derive(Clone, Copy)]
pub struct Parameter {
    pub kind: u32,
    pub negative: bool,
    pub month: u8,
    pub day: u8,
    pub hour: u8,
    pub minute: u8,
    pub second: u8,
    pub year: u16,
    pub days: u32,
    pub micros: u32,
    pub int: i64,
    pub uint: u64,
    pub start: usize,
    pub len: usize,
}

/// A copy of so many of the bytes from a position on.
fn copied(alloc: Global, bytes: &[u8], start: usize, len: usize) -> Result<Value, Code>
    ensures ok { IfOk result (λ made. bytes_from bytes.now start len ≡ Ok made) }
    ensures err { IfErr result (λ e. (e ≡ code.Memory) ⊎ (bytes_from bytes.now start len ≡ Err e)) }
{
    let Some(end) = start.checked_add(len) else {
        return Err(Code::OutOfRange);
    };
    let Some(part) = bytes.get(start..end) else {
        return Err(Code::OutOfRange);
    };
    match ByteString::copy(alloc, part) {
        Ok(copy) => Ok(Value::Bytes(copy)),
        Err(_) => Err(Code::Memory),
    }
}

/// The float of these bits, which 32 have to hold.
fn float_of(bits: u64) -> Result<Value, Code>
    ensures { result ≡ float_from bits }
{
    if bits < 1 << 32 {
        Ok(Value::Float(bits as u32))
    } else {
        Err(Code::OutOfRange)
    }
}

/// The value that a parameter describes.
fn value_of(alloc: Global, bytes: &[u8], parameter: &Parameter) -> Result<Value, Code>
    ensures ok { IfOk result (λ made. parameter_value bytes.now parameter.now ≡ Ok made) }
    ensures err { IfErr result (λ e. (e ≡ code.Memory) ⊎ (parameter_value bytes.now parameter.now ≡ Err e)) }
{
    let p = *parameter;
    match p.kind {
        0 => Ok(Value::NULL),
        1 => Ok(Value::Int(p.int)),
        2 => Ok(Value::UInt(p.uint)),
        3 => copied(alloc, bytes, p.start, p.len),
        4 => float_of(p.uint),
        5 => Ok(Value::Double(p.uint)),
        6 => Ok(Value::Date(p.year, p.month, p.day, p.hour, p.minute, p.second, p.micros)),
        7 => Ok(Value::Time(p.negative, p.days, p.hour, p.minute, p.second, p.micros)),
        _ => Err(Code::NoSuchKind),
    }
}

/// Puts a value behind others.
fn put(values: &mut Vec<Value>, value: Value) -> Result<(), Code>
    ensures put { OnOk result (values.new.items ≡ values.old.items ++ value ∷ []) }
    ensures refused { IfErr result (λ e. e ≡ code.Memory) }
{
    match values.push(value) {
        Ok(()) => Ok(()),
        Err(_) => Err(Code::Memory),
    }
}

/// The values that parameters describe, in order.
pub(crate) fn values_of(
    alloc: Global,
    bytes: &[u8],
    parameters: &[Parameter],
) -> Result<Vec<Value>, Code>
    ensures ok { IfOk result (λ values. Describe bytes.now parameters.now values.items) }
    ensures err { IfErr result (λ e. (e ≡ code.Memory) ⊎ IsDescriptionCause bytes.now parameters.now e) }
{
    let mut values = Vec::new(alloc);
    for parameter in parameters {
        match value_of(alloc, bytes, parameter) {
            Ok(value) => put(&mut values, value)?,
            Err(code) => return Err(code),
        }
    }
    Ok(values)
}
