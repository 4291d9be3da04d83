//! Recoders: streams of commands as executions, as their bytes come.

ghost use Rattle.std.specs.Prelude.{◌≡◌, ◌≢◌, ◌<◌, Err, IfErr, IfOk};
ghost use Rattle.mysql_values.specs.Sql.{read_by};
ghost use Rattle.mysql_recoding.specs.AsItComes.{IsNewRecoder, recoder_state};
ghost use Rattle.mysql_c_handles.specs.declared.code.Code.TheVariants as code;
ghost use Rattle.mysql_c_handles.specs.declared.object.Object.TheVariants as object;
ghost use Rattle.mysql_c_handles.specs.Codes.{code_number};
ghost use Rattle.mysql_c_commands.specs.Modes.{InMode};
ghost use Rattle.mysql_c_commands.specs.Recoding.{EndsBytes, EndsObject, EndsTo, IsRecoder, IsWhyNoRecoder};
ghost use Rattle.mysql_c_commands.specs.Recoding.{MakesRecoder, RecoderEnds, RecodesBytes, RecodesFrom, RecodesTo};
ghost use Rattle.mysql_c_commands.specs.Recoding.{ShowsStop, recode_code, stop_of};

use crate::modes::mode_of;
use crate::shown::{ShownStop, kind_of_end};
use mysql_c_handles::{Code, Handle, Object, number_of_fault};
use mysql_recoding::{RecodeError, Recoder};
use mysql_values::{Mode, Spelling};
use std::alloc::Global;
use std::mem::replace;

/// The code of an error.
fn code_of(error: RecodeError) -> Code
    ensures code { result ≡ recode_code error }
    ensures failed { code_number result ≢ 0 }
{
    match error {
        RecodeError::Mixed => Code::Mixed,
        RecodeError::Stream(_, fault) => Code::Stream(fault),
        RecodeError::Unfinished(_) => Code::Unfinished,
        RecodeError::TooManyPlaces => Code::TooManyPlaces,
        RecodeError::PrepareTooLarge => Code::PrepareTooLarge,
        RecodeError::PacketTooLarge(_) => Code::PacketTooLarge,
        RecodeError::Memory => Code::Memory,
    }
}

/// Where an error is.
fn place_of(error: RecodeError) -> ShownStop
    ensures { result ≡ stop_of error }
{
    match error {
        RecodeError::Stream(payload, fault) => ShownStop {
            end: 3,
            fault: number_of_fault(fault),
            payload,
            set: 0,
        },
        RecodeError::Unfinished(end) => ShownStop {
            end: kind_of_end(end),
            fault: 0,
            payload: 0,
            set: 0,
        },
        RecodeError::PacketTooLarge(set) => ShownStop {
            end: 0,
            fault: 0,
            payload: 0,
            set,
        },
        _ => ShownStop {
            end: 0,
            fault: 0,
            payload: 0,
            set: 0,
        },
    }
}

/// Shows an error.
fn show_stop(error: RecodeError, stop: &mut ShownStop) -> Code
    ensures shows { ShowsStop error (code_number result) stop.new }
    ensures failed { code_number result ≢ 0 }
{
    *stop = place_of(error);
    code_of(error)
}

/// A new recoder.
fn made(
    alloc: Global,
    query: &[u8],
    id: u32,
    limit: usize,
    mode: Mode,
    spelling: Spelling,
) -> Result<Object, Code>
    ensures made { IfOk result (λ object. IsRecoder object
        (λ r. IsNewRecoder (read_by mode spelling query.now) id limit (recoder_state r))) }
    ensures small { limit < 4 → result ≡ Err code.LimitTooSmall }
    ensures cause { IfErr result (λ e.
        IsWhyNoRecoder (read_by mode spelling query.now) id limit (code_number e) × (code_number e ≢ 0)) }
{
    if limit < 4 {
        return Err(Code::LimitTooSmall);
    }
    match Recoder::new_in(alloc, query, id, limit, mode, spelling) {
        Ok(recoder) => Ok(Object::Recoder(recoder)),
        Err(error) => Err(code_of(error)),
    }
}

/// Takes a piece, and appends what it is recoded as to bytes.
fn recoded(recoder: &mut Recoder, piece: &[u8], out: &mut Vec<u8>, stop: &mut ShownStop) -> Code
    ensures { RecodesBytes piece.now recoder.old out.old.items (code_number result) stop.new recoder.new out.new.items }
{
    match recoder.feed(piece, out) {
        Ok(()) => Code::Done,
        Err(error) => show_stop(error, stop),
    }
}

/// Takes a piece, and appends to bytes.
fn recode_to(recoder: &mut Recoder, piece: &[u8], object: &mut Object, stop: &mut ShownStop) -> Code
    ensures { RecodesTo piece.now recoder.old object.old (code_number result) stop.new recoder.new object.new }
{
    match object {
        Object::Bytes(out) => recoded(recoder, piece, out, stop),
        Object::Empty => Code::EmptyHandle,
        _ => Code::OtherKind,
    }
}

/// Takes a piece, and appends to the bytes that a handle refers to.
fn recode_onto(
    alloc: Global,
    recoder: &mut Recoder,
    piece: &[u8],
    out: &mut Handle,
    stop: &mut ShownStop,
) -> Code
    ensures { RecodesTo piece.now recoder.old out.old.object (code_number result) stop.new recoder.new out.new.object }
{
    let Some(mut object) = out.take(alloc) else {
        return Code::EmptyHandle;
    };
    let code = recode_to(recoder, piece, &mut object, stop);
    out.put(object);
    code
}

/// Feeds a recoder.
fn recode_from(
    alloc: Global,
    held: &mut Object,
    piece: &[u8],
    out: &mut Handle,
    stop: &mut ShownStop,
) -> Code
    ensures { RecodesFrom piece.now held.old out.old.object (code_number result) stop.new held.new out.new.object }
{
    match held {
        Object::Recoder(recoder) => recode_onto(alloc, recoder, piece, out, stop),
        Object::Empty => Code::EmptyHandle,
        _ => Code::OtherKind,
    }
}

/// Ends a recoder, and appends what it still has to bytes.
fn ended(recoder: Recoder, out: &mut Vec<u8>, stop: &mut ShownStop) -> Code
    ensures { EndsBytes recoder out.old.items (code_number result) stop.new out.new.items }
{
    match recoder.finish(out) {
        Ok(()) => Code::Done,
        Err(error) => show_stop(error, stop),
    }
}

/// Ends the recoder that an object is, and appends what it still has to bytes.
fn ended_object(held: Object, out: &mut Vec<u8>, stop: &mut ShownStop) -> Code
    ensures { EndsObject held out.old.items (code_number result) stop.new out.new.items }
{
    match held {
        Object::Recoder(recoder) => ended(recoder, out, stop),
        Object::Empty => Code::EmptyHandle,
        other => {
            // One step of the proof, in place of one for each part of a variant.
            drop(other);
            Code::OtherKind
        }
    }
}

/// Ends the recoder that an object is, which leaves it empty, and appends to bytes. Where these are none it stays.
fn end_to(held: &mut Object, object: &mut Object, stop: &mut ShownStop) -> Code
    ensures { EndsTo held.old object.old (code_number result) stop.new held.new object.new }
{
    match object {
        Object::Bytes(out) => ended_object(replace(held, Object::Empty), out, stop),
        Object::Empty => Code::EmptyHandle,
        _ => Code::OtherKind,
    }
}

/// Ends the recoder that an object is, and appends to the bytes that a handle refers to.
fn end_onto(alloc: Global, held: &mut Object, out: &mut Handle, stop: &mut ShownStop) -> Code
    ensures { EndsTo held.old out.old.object (code_number result) stop.new held.new out.new.object }
{
    let Some(mut object) = out.take(alloc) else {
        return Code::EmptyHandle;
    };
    let code = end_to(held, &mut object, stop);
    out.put(object);
    code
}

/// Ends a recoder, which leaves its object empty. Any other object stays.
fn end_from(alloc: Global, held: &mut Object, out: &mut Handle, stop: &mut ShownStop) -> Code
    ensures { RecoderEnds held.old out.old.object (code_number result) stop.new held.new out.new.object }
{
    match held {
        Object::Recoder(_) => end_onto(alloc, held, out, stop),
        Object::Empty => Code::EmptyHandle,
        _ => Code::OtherKind,
    }
}

/// Makes the handle refer to a recoder of a stream of commands about this query.
///
/// `id` is that of the query's statement. The flags tell the mode of the server that the stream was
/// sent to, and how its texts spell byte strings. In hexadecimal, literals behind an introducer are
/// read too.
///
/// Promise: the recoder is about the query in this mode and spelling, or nothing has changed and the
/// code is a cause (`MakesRecoder`).
pub fn recoder_new(
    alloc: Global,
    handle: &mut Handle,
    query: &[u8],
    id: u32,
    limit: usize,
    flags: u32,
) -> u32
    ensures { InMode flags result handle.old.object handle.new.object
        (λ mode spelling. MakesRecoder (read_by mode spelling query.now) id limit handle.old.object
        result handle.new.object) }
{
    let Some((mode, spelling)) = mode_of(flags) else {
        return Code::NoSuchMode.number();
    };
    match made(alloc, query, id, limit, mode, spelling) {
        Ok(object) => match handle.set(alloc, object) {
            Ok(()) => Code::Done.number(),
            Err(_) => Code::Memory.number(),
        },
        Err(code) => code.number(),
    }
}

/// Feeds a recoder with the next piece of its stream, and appends the executions it makes.
///
/// They are those of the sets that are whole with the piece. The prepare comes before the first of
/// all. They go to the bytes of another handle. Where it is refused it shows where, and the bytes
/// stay.
///
/// Promise: what is appended is what `Recoder::feed` appends, or the bytes stay (`RecodesFrom`).
pub fn recoder_feed(
    alloc: Global,
    handle: &mut Handle,
    piece: &[u8],
    out: &mut Handle,
    stop: &mut ShownStop,
) -> u32
    ensures { RecodesFrom piece.now handle.old.object out.old.object result stop.new handle.new.object out.new.object }
{
    let Some(mut object) = handle.take(alloc) else {
        return Code::EmptyHandle.number();
    };
    let code = recode_from(alloc, &mut object, piece, out, stop);
    handle.put(object);
    code.number()
}

/// Ends a recoder; the handle refers to nothing then, also where the end is refused.
///
/// Where its stream carried no set the prepare is appended to the bytes of another handle.
///
/// Promise: what is appended is what `Recoder::finish` appends, or the bytes stay (`RecoderEnds`).
pub fn recoder_end(
    alloc: Global,
    handle: &mut Handle,
    out: &mut Handle,
    stop: &mut ShownStop,
) -> u32
    ensures { RecoderEnds handle.old.object out.old.object result stop.new handle.new.object out.new.object }
{
    let Some(mut object) = handle.take(alloc) else {
        return Code::EmptyHandle.number();
    };
    let code = end_from(alloc, &mut object, out, stop);
    handle.put_unless_empty(alloc, object);
    code.number()
}
