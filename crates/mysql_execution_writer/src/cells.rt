//! Types and values as they are written.

ghost use Rattle.std.specs.Prelude.{◌≡◌, ◌∷◌, ◌+◌, ◌<◌, ◌||◌, ◌==◌, [], IfNone, IfSome, OnOk, drop};
ghost use Rattle.std.specs.Prelude.{false, is_some};
ghost use Rattle.std.specs.Prelude.{map, true, unwrap_or};
ghost use Rattle.std.specs.Prelude.{if◌then◌else◌};
ghost use Rattle.mysql_cells.specs.TypedCells.{cell_bytes};
ghost use Rattle.mysql_cells.specs.declared.value.Value.TheVariants.{Bytes, Int};
ghost use Rattle.mysql_executions.specs.InForce.{data_for};
ghost use Rattle.mysql_executions.specs.Types.{unnamed};
ghost use Rattle.mysql_executions.specs.Views.{types_by, types_of};
ghost use Rattle.mysql_fields.specs.Wire.{Appends};
ghost use Rattle.mysql_execution_writer.specs.Answers.{FitsIf};
ghost use Rattle.mysql_execution_writer.specs.Cells.{are_attributes, are_parameters, as_read, attribute_cell};
ghost use Rattle.mysql_execution_writer.specs.Cells.{attributes_bytes};
ghost use Rattle.mysql_execution_writer.specs.Cells.{fits_name, is_negative_zero as is_zero_below, is_parameter};
ghost use Rattle.mysql_execution_writer.specs.Cells.{is_text, negative_zero_cell, parameter_bytes, parameter_cell};
ghost use Rattle.mysql_execution_writer.specs.Cells.{parameters_bytes};
ghost use Rattle.mysql_execution_writer.specs.Cells.{type_bytes, types_bytes};
ghost use Rattle.std.specs.List.{list_all};

use crate::refusal::PutRefusal;
use mysql_buf::BufMutExt;
use mysql_cells::cell_form::{CellForm, form_of_type};
use mysql_cells::typed_cell::in_eight;
use mysql_cells::{Cell, Value, cell_of, put_cell};
use mysql_executions::{Attribute, BoundType, ParameterType, StatementParameters};
use mysql_stmt::{put_number, put_text};
use std::alloc::AllocError;
use std::mem::replace;

/// The flag of a type whose whole numbers have no sign.
const UNSIGNED: u8 = 0x80;

/// The byte of a type's sign.
fn sign_byte(unsigned: bool) -> u8
    ensures { result ≡ (if unsigned then 0x80 else 0) }
{
    if unsigned { UNSIGNED } else { 0 }
}

/// A type and its sign.
#[inline(always)]
fn type_head(kind: &BoundType) -> [u8; 2]
    ensures { result ≡ type_bytes false kind.now }
{
    let ParameterType {
        column_type,
        unsigned,
    } = kind.parameter_type;
    let [number] = u8::from(column_type).to_le_bytes();
    let [sign] = sign_byte(unsigned).to_le_bytes();
    [number, sign]
}

/// Appends a type, its sign, and its name where types have names.
fn put_type(named: bool, kind: &BoundType, out: &mut Vec<u8>) -> Result<(), AllocError>
    ensures { Appends result out.old.items out.new.items (type_bytes named kind.now) }
{
    let len = out.len();
    out.extend_from_slice(&type_head(kind))?;
    if !named {
        return Ok(());
    }
    if let Err(e) = out.put_lenenc_str(kind.name.as_slice()) {
        out.truncate(len);
        return Err(e);
    }
    Ok(())
}

/// Appends types with their names.
fn put_named_types(types: &[BoundType], out: &mut Vec<u8>) -> Result<(), AllocError>
    ensures { Appends result out.old.items out.new.items (types_bytes true types.now) }
{
    let len = out.len();
    for kind in types {
        if let Err(e) = put_type(true, kind, out) {
            out.truncate(len);
            return Err(e);
        }
    }
    Ok(())
}

/// Appends types without names, into room that is made for all.
fn put_unnamed_types(types: &[BoundType], out: &mut Vec<u8>) -> Result<(), AllocError>
    ensures { Appends result out.old.items out.new.items (types_bytes false types.now) }
{
    let Some(room) = types.len().checked_mul(2) else {
        return Err(AllocError);
    };
    out.reserve(room)?;
    for kind in types {
        let [number, sign] = type_head(kind);
        out.push_reserved(number);
        out.push_reserved(sign);
    }
    Ok(())
}

/// Appends types.
pub fn put_types(named: bool, types: &[BoundType], out: &mut Vec<u8>) -> Result<(), AllocError>
    ensures { Appends result out.old.items out.new.items (types_bytes named types.now) }
{
    if named {
        put_named_types(types, out)
    } else {
        put_unnamed_types(types, out)
    }
}

/// Whether a type has no name where types have none.
fn fits_name_of(named: bool, kind: &BoundType) -> bool
    ensures { result ≡ fits_name named kind.now }
{
    named || kind.name.as_slice().is_empty()
}

/// Whether types have no names where they have none.
pub fn fit_names(named: bool, types: &[BoundType]) -> bool
    ensures { result ≡ list_all (fits_name named) types.now }
{
    types.iter().all(|kind| fits_name_of(named, kind))
}

/// Whether a value is a negative time of all zeros.
fn is_negative_zero(value: &Value) -> bool
    ensures { result ≡ is_zero_below value.now }
{
    matches!(value, Value::Time(true, 0, 0, 0, 0, 0))
}

/// Whether a value has a cell by a type.
pub fn has_cell(kind: ParameterType, value: &Value) -> bool
    ensures { result ≡ is_some (parameter_cell kind value.now) }
{
    cell_of(kind.column_type, kind.unsigned, value).is_some()
}

/// Appends a value's cell, but of a negative time of all zeros one that keeps its sign.
#[inline(always)]
fn put_own_cell(value: &Value, cell: Cell<'_>, out: &mut Vec<u8>) -> Result<(), AllocError>
    ensures { Appends result out.old.items out.new.items
        (if is_zero_below value.now then negative_zero_cell else cell_bytes cell.entry) }
{
    if is_negative_zero(value) {
        return out.extend_from_slice(&[8, 1, 0, 0, 0, 0, 0, 0, 0]);
    }
    put_cell(cell, out)
}

/// Appends the cell of a value by a type, where it has one.
pub fn put_value(kind: ParameterType, value: &Value, out: &mut Vec<u8>) -> Result<(), AllocError>
    ensures { Appends result out.old.items out.new.items (unwrap_or (parameter_cell kind value.now) []) }
{
    match cell_of(kind.column_type, kind.unsigned, value) {
        Some(cell) => put_own_cell(value, cell, out),
        None => Ok(()),
    }
}

/// Appends the cell of a value of any kind by a type, if it has one.
#[inline(never)]
fn append_any(kind: ParameterType, value: &Value, out: &mut Vec<u8>) -> Result<(), PutRefusal>
    ensures fits { FitsIf (is_some (parameter_cell kind value.now)) result }
    ensures written { Appends result out.old.items out.new.items (unwrap_or (parameter_cell kind value.now) []) }
{
    match cell_of(kind.column_type, kind.unsigned, value) {
        Some(cell) => {
            put_own_cell(value, cell, out)?;
            Ok(())
        }
        None => Err(PutRefusal::Unreadable),
    }
}

/// The same in another vector than the one at hand, so that no reference leads to that.
#[inline(always)]
fn append_other(kind: ParameterType, value: &Value, out: &mut Vec<u8>) -> Result<(), PutRefusal>
    ensures fits { FitsIf (is_some (parameter_cell kind value.now)) result }
    ensures written { Appends result out.old.items out.new.items (unwrap_or (parameter_cell kind value.now) []) }
{
    let mut whole = replace(out, Vec::new(*out.allocator()));
    let put = append_any(kind, value, &mut whole);
    *out = whole;
    put
}

/// Appends the cell of a number with a sign, which the value is, if it has one.
#[inline(always)]
fn append_int(
    kind: ParameterType,
    value: &Value,
    number: i64,
    out: &mut Vec<u8>,
) -> Result<(), PutRefusal>
    requires { value.now ≡ Int number }
    ensures fits { FitsIf (is_some (parameter_cell kind value.now)) result }
    ensures written { Appends result out.old.items out.new.items (unwrap_or (parameter_cell kind value.now) []) }
{
    match form_of_type(kind.column_type) {
        CellForm::Whole8 => match in_eight(kind.unsigned, i128::from(number)) {
            Some(number) => {
                put_number(number.to_le_bytes(), out)?;
                Ok(())
            }
            None => Err(PutRefusal::Unreadable),
        },
        _ => append_other(kind, value, out),
    }
}

/// Appends the cell of bytes, which the value is, if it has one.
#[inline(always)]
fn append_bytes(
    kind: ParameterType,
    value: &Value,
    bytes: &[u8],
    out: &mut Vec<u8>,
) -> Result<(), PutRefusal>
    requires { value.now ≡ Bytes bytes.now }
    ensures fits { FitsIf (is_some (parameter_cell kind value.now)) result }
    ensures written { Appends result out.old.items out.new.items (unwrap_or (parameter_cell kind value.now) []) }
{
    match form_of_type(kind.column_type) {
        CellForm::Counted => {
            put_text(bytes, out)?;
            Ok(())
        }
        _ => Err(PutRefusal::Unreadable),
    }
}

/// Appends the cell of a value by a type, if it has one. The kinds that most values have come first.
#[inline(always)]
fn append_value(kind: ParameterType, value: &Value, out: &mut Vec<u8>) -> Result<(), PutRefusal>
    ensures fits { FitsIf (is_some (parameter_cell kind value.now)) result }
    ensures written { Appends result out.old.items out.new.items (unwrap_or (parameter_cell kind value.now) []) }
{
    match value {
        Value::NULL => Ok(()),
        Value::Bytes(bytes) => append_bytes(kind, value, bytes.as_slice(), out),
        Value::Int(number) => append_int(kind, value, *number, out),
        Value::UInt(_) | Value::Float(_) | Value::Double(_) | Value::Date(..) | Value::Time(..) => {
            append_other(kind, value, out)
        }
    }
}

/// Appends the cell of a value that is read as itself, if it has one.
#[inline(always)]
pub fn append_own_value(
    kind: ParameterType,
    value: &Value,
    out: &mut Vec<u8>,
) -> Result<(), PutRefusal>
    ensures own { OnOk result (as_read value.now ≡ value.now) }
    ensures fits { OnOk result (is_some (parameter_cell kind value.now) ≡ true) }
    ensures written { Appends result out.old.items out.new.items (unwrap_or (parameter_cell kind value.now) []) }
{
    match value {
        Value::UInt(number) if *number < 1 << 63 => Err(PutRefusal::Unreadable),
        _ => append_value(kind, value, out),
    }
}

/// The type of a parameter among types; None where there is none.
fn own_type_at(types: &[BoundType], place: usize) -> Option<ParameterType>
    ensures some { IfSome result (λ kind. drop place (unnamed types.now) ≡ kind ∷
        drop (place + 1) (unnamed types.now)) }
    ensures none { IfNone result (drop place (unnamed types.now) ≡ []) }
{
    if place < types.len() {
        Some(types[place].parameter_type)
    } else {
        None
    }
}

/// The type in force of a parameter; None where there is none.
fn kept_type_at(s: &StatementParameters, place: usize) -> Option<ParameterType>
    ensures some { IfSome result (λ kind. drop place s.now.types ≡ kind ∷ drop (place + 1) s.now.types) }
    ensures none { IfNone result (drop place s.now.types ≡ []) }
{
    let types = s.types();
    if place < types.len() {
        Some(types[place])
    } else {
        None
    }
}

/// The type of a parameter: the command's own, else that in force; None where there is none.
pub fn type_at(
    own: &Option<Vec<BoundType>>,
    s: &StatementParameters,
    place: usize,
) -> Option<ParameterType>
    ensures some { IfSome result (λ kind. drop place (types_by (types_of own.now) s.now.types) ≡
        kind ∷ drop (place + 1) (types_by (types_of own.now) s.now.types)) }
    ensures none { IfNone result (drop place (types_by (types_of own.now) s.now.types) ≡ []) }
{
    match own {
        Some(types) => own_type_at(types, place),
        None => kept_type_at(s, place),
    }
}

/// Whether a value is these bytes.
fn is_text_of(sent: &[u8], value: &Value) -> bool
    ensures { result ≡ is_text sent.now value.now }
{
    match value {
        Value::Bytes(bytes) => bytes.as_slice() == sent,
        _ => false,
    }
}

/// Whether a parameter can be written: it is the long data that waits for it, or has a cell.
fn fits_parameter(s: &StatementParameters, place: usize, kind: ParameterType, value: &Value) -> bool
    ensures { result ≡ is_parameter (data_for s.now.long_data place) kind value.now }
{
    match s.long_data(place) {
        Some(sent) => is_text_of(sent, value),
        None => has_cell(kind, value),
    }
}

/// Whether the parameters are one for each type, and each can be written.
pub fn fit_parameters(
    s: &StatementParameters,
    own: &Option<Vec<BoundType>>,
    values: &[Value],
) -> bool
    ensures { result ≡ are_parameters s.now.long_data 0 (types_by (types_of own.now) s.now.types) values.now }
{
    for (place, value) in values.iter().enumerate() {
        match type_at(own, s, place) {
            Some(kind) => {
                if !fits_parameter(s, place, kind, value) {
                    return false;
                }
            }
            None => return false,
        }
    }
    type_at(own, s, values.len()).is_none()
}

/// Refuses a value that isn't the long data that was sent for it.
#[inline(always)]
fn as_sent(sent: &[u8], value: &Value) -> Result<(), PutRefusal>
    ensures { FitsIf (is_text sent.now value.now) result }
{
    if is_text_of(sent, value) {
        Ok(())
    } else {
        Err(PutRefusal::Unreadable)
    }
}

/// Appends a parameter, if it can be written: nothing where long data waits for it.
#[inline(always)]
fn append_parameter(
    s: &StatementParameters,
    place: usize,
    kind: ParameterType,
    value: &Value,
    out: &mut Vec<u8>,
) -> Result<(), PutRefusal>
    ensures fits { FitsIf (is_parameter (data_for s.now.long_data place) kind value.now) result }
    ensures written { Appends result out.old.items out.new.items
        (parameter_bytes (data_for s.now.long_data place) kind value.now) }
{
    match s.long_data(place) {
        Some(sent) => as_sent(sent, value),
        None => append_value(kind, value, out),
    }
}

/// Appends the parameters, where they are one for each type and each can be written.
pub fn append_parameters(
    s: &StatementParameters,
    own: &Option<Vec<BoundType>>,
    values: &[Value],
    out: &mut Vec<u8>,
) -> Result<(), PutRefusal>
    ensures fits { FitsIf (are_parameters s.now.long_data 0 (types_by (types_of own.now) s.now.types) values.now)
        result }
    ensures written { Appends result out.old.items out.new.items
        (parameters_bytes s.now.long_data 0 (types_by (types_of own.now) s.now.types) values.now) }
{
    // The length of what no reference leads to isn't written back for each byte.
    let mut whole = replace(out, Vec::new(*out.allocator()));
    let put = append_each(s, own, values, &mut whole);
    *out = whole;
    put
}

/// The same into a vector to which no reference leads.
#[inline(always)]
fn append_each(
    s: &StatementParameters,
    own: &Option<Vec<BoundType>>,
    values: &[Value],
    out: &mut Vec<u8>,
) -> Result<(), PutRefusal>
    ensures fits { FitsIf (are_parameters s.now.long_data 0 (types_by (types_of own.now) s.now.types) values.now)
        result }
    ensures written { Appends result out.old.items out.new.items
        (parameters_bytes s.now.long_data 0 (types_by (types_of own.now) s.now.types) values.now) }
{
    let len = out.len();
    for (place, value) in values.iter().enumerate() {
        let Some(kind) = type_at(own, s, place) else {
            out.truncate(len);
            return Err(PutRefusal::Unreadable);
        };
        if let Err(refusal) = append_parameter(s, place, kind, value, out) {
            out.truncate(len);
            return Err(refusal);
        }
    }
    if type_at(own, s, values.len()).is_some() {
        out.truncate(len);
        return Err(PutRefusal::Unreadable);
    }
    Ok(())
}

/// Whether an attribute has a cell by its type.
fn has_attribute_cell(attribute: &Attribute) -> bool
    ensures { result ≡ is_some (attribute_cell attribute.now) }
{
    has_cell(attribute.bound_type.parameter_type, &attribute.value)
}

/// Whether attributes have cells by their types, and no names where there are none.
pub fn fit_attributes(named: bool, attributes: &[Attribute]) -> bool
    ensures { result ≡ are_attributes named attributes.now }
{
    attributes.iter().all(|attribute| {
        fits_name_of(named, &attribute.bound_type) && has_attribute_cell(attribute)
    })
}

/// Appends the types of attributes.
pub fn put_attribute_types(
    named: bool,
    attributes: &[Attribute],
    out: &mut Vec<u8>,
) -> Result<(), AllocError>
    ensures { Appends result out.old.items out.new.items (types_bytes named (map (λ a. a.bound_type) attributes.now)) }
{
    let len = out.len();
    for attribute in attributes {
        if let Err(e) = put_type(named, &attribute.bound_type, out) {
            out.truncate(len);
            return Err(e);
        }
    }
    Ok(())
}

/// Appends the values of attributes.
pub fn put_attributes(attributes: &[Attribute], out: &mut Vec<u8>) -> Result<(), AllocError>
    ensures { Appends result out.old.items out.new.items (attributes_bytes attributes.now) }
{
    let len = out.len();
    for attribute in attributes {
        if let Err(e) = put_value(attribute.bound_type.parameter_type, &attribute.value, out) {
            out.truncate(len);
            return Err(e);
        }
    }
    Ok(())
}
