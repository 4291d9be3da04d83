//! Values as they are read.

ghost use Rattle.std.specs.Prelude.{◌≡◌, ◌∷◌, ◌+◌, ◌<◌, drop, length};
ghost use Rattle.mysql_field_lists.specs.NullBitmap.{is_null_at};
ghost use Rattle.mysql_executions.specs.Executions.{attribute_at, attributes_at, parameter_at, parameters_at};
ghost use Rattle.mysql_executions.specs.Executions.{typed_value_at, value_at};
ghost use Rattle.mysql_executions.specs.InForce.{data_for};
ghost use Rattle.mysql_executions.specs.Views.{Gives, types_by, types_of};

use crate::not_read::NotRead;
use crate::statement::StatementParameters;
use crate::types::{Attribute, BoundType, ParameterType};
use mysql_buf::ParseBuf;
use mysql_bytes::ByteString;
use mysql_cells::{Value, read_cell};
use mysql_fields::WireError;
use std::alloc::Global;

/// Reads the value of the cell that stands first, by its type.
pub fn read_typed_value(
    alloc: Global,
    kind: ParameterType,
    bytes: &[u8],
) -> Result<(Value, &[u8]), NotRead>
    ensures { Gives (λ x. (x.0, x.1.now)) result (typed_value_at kind bytes.now) }
{
    let mut buf = ParseBuf(bytes);
    match read_cell(alloc, u8::from(kind.column_type), kind.unsigned, &mut buf) {
        Ok(value) => Ok((value, buf.0)),
        Err(WireError::Memory) => Err(NotRead::Memory),
        Err(_) => Err(NotRead::Other),
    }
}

/// Reads a value: NULL where its bit is set, else that of the cell that stands first.
fn read_value(
    alloc: Global,
    null: bool,
    kind: ParameterType,
    bytes: &[u8],
) -> Result<(Value, &[u8]), NotRead>
    ensures { Gives (λ x. (x.0, x.1.now)) result (value_at null kind bytes.now) }
{
    if null {
        return Ok((Value::NULL, bytes));
    }
    read_typed_value(alloc, kind, bytes)
}

/// Reads what a parameter holds, of which this long data waits.
fn read_parameter<'a>(
    alloc: Global,
    s: &StatementParameters,
    place: usize,
    null: bool,
    kind: ParameterType,
    bytes: &'a [u8],
) -> Result<(Value, &'a [u8]), NotRead>
    ensures { Gives (λ x. (x.0, x.1.now)) result (parameter_at (data_for s.now.long_data place) null kind bytes.now) }
{
    match s.long_data(place) {
        Some(sent) => Ok((Value::Bytes(ByteString::copy(alloc, sent)?), bytes)),
        None => read_value(alloc, null, kind, bytes),
    }
}

/// Whether the bit of a place is set.
pub fn is_null(nulls: &[u8], place: usize) -> bool
    ensures { result ≡ is_null_at 0 nulls.now place }
{
    match nulls.get(place / 8) {
        Some(byte) => (*byte >> (place % 8)) % 2 == 1,
        None => false,
    }
}

/// How many types count: the command's own, else those in force.
pub fn count_of(own: &Option<Vec<BoundType>>, in_force: &[ParameterType]) -> usize
    ensures { result ≡ length (types_by (types_of own.now) in_force.now) }
{
    match own {
        Some(types) => types.len(),
        None => in_force.len(),
    }
}

/// The type of a parameter: the command's own, else that in force.
pub fn type_of(
    own: &Option<Vec<BoundType>>,
    in_force: &[ParameterType],
    place: usize,
) -> ParameterType
    requires { place < length (types_by (types_of own.now) in_force.now) }
    ensures { drop place (types_by (types_of own.now) in_force.now) ≡
        result ∷ drop (place + 1) (types_by (types_of own.now) in_force.now) }
{
    match own {
        Some(types) => types[place].parameter_type,
        None => in_force[place],
    }
}

/// Reads what the statement's parameters hold.
pub fn read_parameters<'a>(
    alloc: Global,
    s: &StatementParameters,
    own: &Option<Vec<BoundType>>,
    nulls: &[u8],
    bytes: &'a [u8],
) -> Result<(Vec<Value>, &'a [u8]), NotRead>
    ensures { Gives (λ x. (x.0.items, x.1.now)) result
        (parameters_at s.now.long_data nulls.now (types_by (types_of own.now) s.now.types) bytes.now) }
{
    // The bitmap has a bit for each value.
    let count = count_of(own, s.types());
    let mut values = Vec::with_capacity(alloc, count.min(nulls.len().saturating_mul(8)))?;
    let mut rest = bytes;
    for place in 0..count {
        let kind = type_of(own, s.types(), place);
        let null = is_null(nulls, place);
        let (next, after) = read_parameter(alloc, s, place, null, kind, rest)?;
        values.push(next)?;
        rest = after;
    }
    Ok((values, rest))
}

/// Reads an attribute by its type.
fn read_attribute(
    alloc: Global,
    null: bool,
    bound_type: BoundType,
    bytes: &[u8],
) -> Result<(Attribute, &[u8]), NotRead>
    ensures { Gives (λ x. (x.0, x.1.now)) result (attribute_at null bound_type bytes.now) }
{
    let (value, rest) = read_value(alloc, null, bound_type.parameter_type, bytes)?;
    Ok((Attribute { bound_type, value }, rest))
}

/// Reads attributes by their types, of which the first stands at a place of the bitmap.
pub fn read_attributes<'a>(
    alloc: Global,
    nulls: &[u8],
    first: usize,
    types: Vec<BoundType>,
    bytes: &'a [u8],
) -> Result<(Vec<Attribute>, &'a [u8]), NotRead>
    requires { first < 65536 }
    ensures { Gives (λ x. (x.0.items, x.1.now)) result (attributes_at nulls.now first types.items bytes.now) }
{
    let mut attributes = Vec::with_capacity(alloc, types.len())?;
    let mut place = first;
    let mut rest = bytes;
    for bound_type in types {
        let null = is_null(nulls, place);
        let (next, after) = read_attribute(alloc, null, bound_type, rest)?;
        attributes.push(next)?;
        rest = after;
        place += 1;
    }
    Ok((attributes, rest))
}
