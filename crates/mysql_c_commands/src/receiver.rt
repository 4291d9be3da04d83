//! Receivers of streams of commands.

ghost use Rattle.std.specs.Prelude.{◌≡◌, ◌≢◌, ◌<◌, ◌⊎◌, false, true, Err, IfErr, IfOk, MatchOption, MatchResult};
ghost use Rattle.std.specs.Prelude.{OnOk, length, slice_get};
ghost use Rattle.mysql_values.specs.Queries.{HasMixed};
ghost use Rattle.mysql_values.specs.Sql.{read_by};
ghost use Rattle.mysql_receive.specs.Views.{sets_of};
ghost use Rattle.mysql_c_handles.specs.Codes.{code_number, fault_code};
ghost use Rattle.mysql_c_handles.specs.declared.code.Code.TheVariants as code;
ghost use Rattle.mysql_c_commands.specs.Modes.{InMode};
ghost use Rattle.mysql_c_commands.specs.Receivers.{EndsAs, IsFed, IsFedBy, IsNew, IsReceiver, LetsGo};
ghost use Rattle.mysql_c_commands.specs.Receivers.{MakesReceiver, OfReceiver, content_at, missing_code};
ghost use Rattle.mysql_c_commands.specs.Receivers.{reading_code, sets_held};
ghost use Rattle.mysql_c_commands.specs.Shown.{Shows};

use crate::modes::mode_of;
use crate::shown::{ShownContent, show, shown_end};
use mysql_c_handles::{Code, Handle, Object, ShownEnd};
use mysql_receive::{Content, Receiver, ReceiverError};
use mysql_values::{Mode, Spelling};
use std::alloc::Global;
use std::mem::replace;

/// A new receiver.
fn made(
    alloc: Global,
    query: &[u8],
    id: u32,
    limit: usize,
    mode: Mode,
    spelling: Spelling,
) -> Result<Object, Code>
    ensures made { IfOk result (λ object. IsReceiver object (IsNew (read_by mode spelling query.now) id limit)) }
    ensures one_kind { OnOk result (HasMixed (read_by mode spelling query.now) false) }
    ensures small { limit < 4 → result ≡ Err code.LimitTooSmall }
    ensures cause { IfErr result (λ e. (e ≡ code.Memory) ⊎
        ((e ≡ code.LimitTooSmall) × (limit < 4)) ⊎
        ((e ≡ code.Mixed) × HasMixed (read_by mode spelling query.now) true)) }
{
    if limit < 4 {
        return Err(Code::LimitTooSmall);
    }
    match Receiver::new_in(alloc, query, id, limit, mode, spelling) {
        Ok(receiver) => Ok(Object::Receiver(receiver)),
        Err(ReceiverError::Mixed) => Err(Code::Mixed),
        Err(ReceiverError::Memory) => Err(Code::Memory),
    }
}

/// The answer of a feed.
fn fed(receiver: &mut Receiver, piece: &[u8]) -> Code
    ensures fed { IsFed receiver.old piece.now receiver.new }
    ensures answer { result ≡ fault_code receiver.new.fault }
{
    match receiver.feed(piece) {
        Ok(()) => Code::Done,
        Err(fault) => Code::Stream(fault),
    }
}

/// Feeds a receiver.
fn feed_object(object: &mut Object, piece: &[u8]) -> Code
    ensures { OfReceiver object.old (code_number result) object.new
        (IsFedBy piece.now (code_number result) object.new) }
{
    match object {
        Object::Receiver(receiver) => fed(receiver, piece),
        Object::Empty => Code::EmptyHandle,
        _ => Code::OtherKind,
    }
}

/// The sets that were read and not let go.
fn sets_in(object: &Object) -> Result<&[Vec<Content>], Code>
    ensures held { IfOk result (λ sets. sets_of sets.now ≡ sets_held object.now) }
    ensures code { MatchResult result (λ _. reading_code object.now ≡
        code.Done) (λ e. (e ≡ reading_code object.now) × (e ≡ missing_code object.now) ×
        (e ≢ code.Done)) }
{
    match object {
        Object::Receiver(receiver) => Ok(receiver.sets()),
        Object::Audit(audit) => Ok(&audit.sets),
        Object::Empty => Err(Code::EmptyHandle),
        _ => Err(Code::OtherKind),
    }
}

/// Puts an object in place of another one.
fn put_in_place(object: &mut Object, new: Object)
    ensures { object.new ≡ new }
{
    // One step of the proof, in place of one for each part of a variant.
    drop(replace(object, new));
}

/// Ends a receiver.
fn end_object(object: &mut Object, end: &mut ShownEnd) -> Code
    ensures { EndsAs object.old (code_number result) object.new end.new }
{
    match replace(object, Object::Empty) {
        Object::Receiver(receiver) => {
            let audit = receiver.finish();
            *end = shown_end(audit.end);
            put_in_place(object, Object::Audit(audit));
            Code::Done
        }
        Object::Audit(audit) => {
            *end = shown_end(audit.end);
            put_in_place(object, Object::Audit(audit));
            Code::Done
        }
        Object::Empty => Code::EmptyHandle,
        other => {
            put_in_place(object, other);
            Code::OtherKind
        }
    }
}

/// Counts the sets that were read and not let go.
fn count_sets(object: &Object, count: &mut usize) -> Code
    ensures code { result ≡ reading_code object.now }
    ensures count { result ≡ code.Done → count.new ≡ length (sets_held object.now) }
{
    match sets_in(object) {
        Ok(sets) => {
            *count = sets.len();
            Code::Done
        }
        Err(code) => code,
    }
}

/// Counts the contents of a set.
fn width_of(object: &Object, set: usize, width: &mut usize) -> Code
    ensures { MatchOption (slice_get (sets_held object.now) set) (result ≡ missing_code object.now)
        (λ contents. (result ≡ code.Done) × (width.new ≡ length contents)) }
{
    match sets_in(object) {
        Ok(sets) => match sets.get(set) {
            Some(contents) => {
                *width = contents.len();
                Code::Done
            }
            None => Code::OutOfRange,
        },
        Err(code) => code,
    }
}

/// Shows a content of a set.
fn show_content(object: &Object, set: usize, place: usize, shown: &mut ShownContent) -> Code
    ensures { MatchOption (content_at object.now set place) (result ≡ missing_code object.now)
        (λ c. Shows c (code_number result) shown.new) }
{
    match sets_in(object) {
        Ok(sets) => match sets.get(set) {
            Some(contents) => match contents.get(place) {
                Some(content) => show(content, shown),
                None => Code::OutOfRange,
            },
            None => Code::OutOfRange,
        },
        Err(code) => code,
    }
}

/// Lets go of the sets that were read.
fn clear_sets(object: &mut Object) -> Code
    ensures { OfReceiver object.old (code_number result) object.new (LetsGo (code_number result) object.new) }
{
    match object {
        Object::Receiver(receiver) => {
            drop(receiver.take_sets());
            Code::Done
        }
        Object::Empty => Code::EmptyHandle,
        _ => Code::OtherKind,
    }
}

/// Makes the handle refer to a receiver of a stream of commands about this query.
///
/// `id` is that of the query's statement. The flags tell the mode of the server that the stream was
/// sent to, and how its texts spell byte strings. In hexadecimal, literals behind an introducer are
/// read too.
///
/// Promise: the receiver is about the query in this mode and spelling, or nothing has changed and the
/// code is a cause (`MakesReceiver`).
pub fn receiver_new(
    alloc: Global,
    handle: &mut Handle,
    query: &[u8],
    id: u32,
    limit: usize,
    flags: u32,
) -> u32
    ensures { InMode flags result handle.old.object handle.new.object
        (λ mode spelling. MakesReceiver (read_by mode spelling query.now) id limit handle.old.object
        result handle.new.object) }
{
    let Some((mode, spelling)) = mode_of(flags) else {
        return Code::NoSuchMode.number();
    };
    match made(alloc, query, id, limit, mode, spelling) {
        Ok(object) => match handle.set(alloc, object) {
            Ok(()) => Code::Done.number(),
            Err(_) => Code::Memory.number(),
        },
        Err(code) => code.number(),
    }
}

/// Feeds a receiver with the next piece of its stream.
///
/// Promise: what is held decides, over the bytes to come, what was decided before over the piece
/// and them (`IsFedBy`).
pub fn receiver_feed(alloc: Global, handle: &mut Handle, piece: &[u8]) -> u32
    ensures { OfReceiver handle.old.object result handle.new.object (IsFedBy piece.now result handle.new.object) }
{
    let Some(mut object) = handle.take(alloc) else {
        return Code::EmptyHandle.number();
    };
    let code = feed_object(&mut object, piece);
    handle.put(object);
    code.number()
}

/// Ends a receiver, and shows how the stream ends.
///
/// The handle refers to the audit of what was fed, and holds the sets that weren't let go. Of an
/// audit it shows the same again.
///
/// Promise: the handle refers to the audit of what was fed, and its end is shown (`EndsAs`).
pub fn receiver_end(alloc: Global, handle: &mut Handle, end: &mut ShownEnd) -> u32
    ensures { EndsAs handle.old.object result handle.new.object end.new }
{
    let Some(mut object) = handle.take(alloc) else {
        return Code::EmptyHandle.number();
    };
    let code = end_object(&mut object, end);
    handle.put(object);
    code.number()
}

/// Tells how many sets were read and not let go.
pub fn receiver_sets(alloc: Global, handle: &mut Handle, count: &mut usize) -> u32
    ensures kept { handle.new.object ≡ handle.old.object }
    ensures code { result ≡ code_number (reading_code handle.old.object) }
    ensures count { result ≡ 0 → count.new ≡ length (sets_held handle.old.object) }
{
    let Some(object) = handle.take(alloc) else {
        return Code::EmptyHandle.number();
    };
    let code = count_sets(&object, count);
    handle.put(object);
    code.number()
}

/// Tells how many contents the set of this number has.
pub fn receiver_width(alloc: Global, handle: &mut Handle, set: usize, width: &mut usize) -> u32
    ensures kept { handle.new.object ≡ handle.old.object }
    ensures width { MatchOption (slice_get (sets_held handle.old.object) set) (result ≡
        code_number (missing_code handle.old.object)) (λ contents. (result ≡ 0) ×
        (width.new ≡ length contents)) }
{
    let Some(object) = handle.take(alloc) else {
        return Code::EmptyHandle.number();
    };
    let code = width_of(&object, set, width);
    handle.put(object);
    code.number()
}

/// Shows the content at a place of the set of this number.
///
/// Promise: a number is shown as itself, and is out of range only where it fits 64 bits neither
/// with a sign nor without (`Shows`).
pub fn receiver_content(
    alloc: Global,
    handle: &mut Handle,
    set: usize,
    place: usize,
    content: &mut ShownContent,
) -> u32
    ensures kept { handle.new.object ≡ handle.old.object }
    ensures shown { MatchOption (content_at handle.old.object set place) (result ≡
        code_number (missing_code handle.old.object)) (λ c. Shows c result content.new) }
{
    let Some(object) = handle.take(alloc) else {
        return Code::EmptyHandle.number();
    };
    let code = show_content(&object, set, place, content);
    handle.put(object);
    code.number()
}

/// Lets go of the sets that were read.
///
/// Promise: the sets that are let go leave what is to come as it was (`LetsGo`).
pub fn receiver_clear(alloc: Global, handle: &mut Handle) -> u32
    ensures { OfReceiver handle.old.object result handle.new.object (LetsGo result handle.new.object) }
{
    let Some(mut object) = handle.take(alloc) else {
        return Code::EmptyHandle.number();
    };
    let code = clear_sets(&mut object);
    handle.put(object);
    code.number()
}
