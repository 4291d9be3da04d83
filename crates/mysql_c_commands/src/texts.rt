//! The texts of sets and of values.

ghost use Rattle.std.specs.Prelude.{◌≡◌, ◌≢◌};
ghost use Rattle.mysql_c_handles.specs.Codes.{code_number};
ghost use Rattle.mysql_values.specs.Sql.{read_by};
ghost use Rattle.mysql_c_commands.specs.Modes.{InMode};
ghost use Rattle.mysql_c_commands.specs.Texts.{BindsText, BindsTextFrom, BindsTextTo, PutsLiteral, PutsLiteralFrom};
ghost use Rattle.mysql_c_commands.specs.Texts.{PutsLiteralTo, ShowsBindError, bind_code, bind_place};

use crate::modes::mode_of;
use crate::shown::ShownPlace;
use mysql_c_handles::{Code, Handle, Object};
use mysql_literals::as_sql::{AsSqlError, push_literal_in};
use mysql_values::{BindError, Mode, Params, Spelling, Value, bind_text_in};
use std::alloc::Global;

/// The code of an error of binding.
fn code_of(error: &BindError) -> Code
    ensures code { result ≡ bind_code error.now }
    ensures failed { code_number result ≢ 0 }
{
    match error {
        BindError::Mixed => Code::Mixed,
        BindError::NotAlone(_) => Code::NotAlone,
        BindError::Params(_) => Code::Params,
        BindError::WrongCount => Code::WrongCount,
        BindError::Float(_) => Code::Float,
        BindError::Memory => Code::Memory,
    }
}

/// The set, of this number, and the place of an error.
fn place_of(set: usize, error: &BindError) -> ShownPlace
    ensures { result ≡ bind_place set error.now }
{
    match error {
        BindError::NotAlone(at) => ShownPlace { set: 0, place: *at },
        BindError::Params(_) | BindError::WrongCount => ShownPlace { set, place: 0 },
        BindError::Float(at) => ShownPlace { set, place: *at },
        BindError::Mixed | BindError::Memory => ShownPlace { set: 0, place: 0 },
    }
}

/// Shows an error of binding the set of this number.
fn show_error(set: usize, error: &BindError, place: &mut ShownPlace) -> Code
    ensures shows { ShowsBindError set error.now (code_number result) place.new }
    ensures failed { code_number result ≢ 0 }
{
    *place = place_of(set, error);
    code_of(error)
}

/// Appends the text of the set of this number to bytes. Where there is none the bytes stay.
fn bound(
    alloc: Global,
    query: &[u8],
    params: &Params,
    set: usize,
    mode: Mode,
    spelling: Spelling,
    out: &mut Vec<u8>,
    place: &mut ShownPlace,
) -> Code
    ensures { BindsText (read_by mode spelling query.now) params.now set out.old.items (code_number result)
        place.new out.new.items }
{
    match bind_text_in(alloc, query, params, mode, spelling, out) {
        Ok(()) => Code::Done,
        Err(error) => show_error(set, &error, place),
    }
}

/// Appends the text of a set to bytes.
fn bind_to(
    alloc: Global,
    query: &[u8],
    params: &Params,
    set: usize,
    mode: Mode,
    spelling: Spelling,
    object: &mut Object,
    place: &mut ShownPlace,
) -> Code
    ensures { BindsTextTo (read_by mode spelling query.now) params.now set object.old (code_number result)
        place.new object.new }
{
    match object {
        Object::Bytes(out) => bound(alloc, query, params, set, mode, spelling, out, place),
        Object::Empty => Code::EmptyHandle,
        _ => Code::OtherKind,
    }
}

/// Appends the text of a set to the bytes that a handle refers to.
fn bind_onto(
    alloc: Global,
    query: &[u8],
    params: &Params,
    set: usize,
    mode: Mode,
    spelling: Spelling,
    out: &mut Handle,
    place: &mut ShownPlace,
) -> Code
    ensures { BindsTextTo (read_by mode spelling query.now) params.now set out.old.object (code_number result)
        place.new out.new.object }
{
    let Some(mut object) = out.take(alloc) else {
        return Code::EmptyHandle;
    };
    let code = bind_to(
        alloc,
        query,
        params,
        set,
        mode,
        spelling,
        &mut object,
        place,
    );
    out.put(object);
    code
}

/// Appends the text of the set of a number to the bytes that a handle refers to.
fn bind_from(
    alloc: Global,
    held: &Object,
    set: usize,
    query: &[u8],
    mode: Mode,
    spelling: Spelling,
    out: &mut Handle,
    place: &mut ShownPlace,
) -> Code
    ensures { BindsTextFrom (read_by mode spelling query.now) held.now set out.old.object (code_number result)
        place.new out.new.object }
{
    match held.set_at(set) {
        Ok(params) => bind_onto(alloc, query, params, set, mode, spelling, out, place),
        Err(code) => code,
    }
}

/// Appends the literal of a value to bytes. A float has none.
fn put_literal(value: &Value, mode: Mode, spelling: Spelling, out: &mut Vec<u8>) -> Code
    ensures { PutsLiteral mode spelling value.now out.old.items (code_number result) out.new.items }
{
    match push_literal_in(out, value, mode, spelling) {
        Ok(()) => Code::Done,
        Err(AsSqlError::Float) => Code::Float,
        Err(AsSqlError::Memory) => Code::Memory,
    }
}

/// Appends the literal of a value to bytes.
fn put_literal_to(value: &Value, mode: Mode, spelling: Spelling, object: &mut Object) -> Code
    ensures { PutsLiteralTo mode spelling value.now object.old (code_number result) object.new }
{
    match object {
        Object::Bytes(out) => put_literal(value, mode, spelling, out),
        Object::Empty => Code::EmptyHandle,
        _ => Code::OtherKind,
    }
}

/// Appends the literal of a value to the bytes that a handle refers to.
fn put_literal_onto(
    alloc: Global,
    value: &Value,
    mode: Mode,
    spelling: Spelling,
    out: &mut Handle,
) -> Code
    ensures { PutsLiteralTo mode spelling value.now out.old.object (code_number result) out.new.object }
{
    let Some(mut object) = out.take(alloc) else {
        return Code::EmptyHandle;
    };
    let code = put_literal_to(value, mode, spelling, &mut object);
    out.put(object);
    code
}

/// Appends the literal of the value at a position of a set to the bytes that a handle refers to.
fn put_literal_from(
    alloc: Global,
    held: &Object,
    set: usize,
    place: usize,
    mode: Mode,
    spelling: Spelling,
    out: &mut Handle,
) -> Code
    ensures { PutsLiteralFrom mode spelling held.now set place out.old.object (code_number result) out.new.object }
{
    match held.value_at(set, place) {
        Ok(value) => put_literal_onto(alloc, value, mode, spelling, out),
        Err(code) => code,
    }
}

/// Appends the text of the set of this number over a query to the bytes of another handle. Where
/// there is none it shows the set and the placeholder that are refused, and the bytes stay.
///
/// The flags tell the mode of the server that the text is for, and how byte strings are spelled.
///
/// Promise: the text of the set is one that reads back in this mode, or the bytes stay
/// (`BindsTextFrom`).
pub fn bind_text(
    alloc: Global,
    sets: &mut Handle,
    set: usize,
    query: &[u8],
    flags: u32,
    out: &mut Handle,
    place: &mut ShownPlace,
) -> u32
    ensures kept { sets.new.object ≡ sets.old.object }
    ensures bound { InMode flags result out.old.object out.new.object
        (λ mode spelling. BindsTextFrom (read_by mode spelling query.now) sets.old.object set
        out.old.object result place.new out.new.object) }
{
    let Some((mode, spelling)) = mode_of(flags) else {
        return Code::NoSuchMode.number();
    };
    let Some(given) = sets.take(alloc) else {
        return Code::EmptyHandle.number();
    };
    let code = bind_from(alloc, &given, set, query, mode, spelling, out, place);
    sets.put(given);
    code.number()
}

/// Appends the literal of a value to the bytes of another handle.
///
/// The value is at a place of the set of this number. The flags tell the mode of the server that
/// the literal is for, and how byte strings are spelled.
///
/// Promise: the literal is the value's in this mode, or the bytes stay (`PutsLiteralFrom`).
pub fn value_text(
    alloc: Global,
    sets: &mut Handle,
    set: usize,
    place: usize,
    flags: u32,
    out: &mut Handle,
) -> u32
    ensures kept { sets.new.object ≡ sets.old.object }
    ensures put { InMode flags result out.old.object out.new.object
        (λ mode spelling. PutsLiteralFrom mode spelling sets.old.object set place out.old.object
        result out.new.object) }
{
    let Some((mode, spelling)) = mode_of(flags) else {
        return Code::NoSuchMode.number();
    };
    let Some(given) = sets.take(alloc) else {
        return Code::EmptyHandle.number();
    };
    let code = put_literal_from(alloc, &given, set, place, mode, spelling, out);
    sets.put(given);
    code.number()
}
