//! Replies of a server, read as they come.

ghost use Rattle.std.specs.Prelude.{◌≡◌, ◌≢◌, ◌⊎◌, None};
ghost use Rattle.mysql_replies.specs.Holding.{HasFoundNoFault, fault_of};
ghost use Rattle.mysql_replies.specs.Taking.{Feeds};
ghost use Rattle.mysql_c_handles.specs.Codes.{code_number};
ghost use Rattle.mysql_c_handles.specs.declared.code.Code.TheVariants as code;
ghost use Rattle.mysql_c_replies.specs.Replies.{IsNewReply, IsReply, IsReplyFedBy, OfReply, OutcomesAreTaken};
ghost use Rattle.mysql_c_replies.specs.Replies.{RepliesEnd, answer_of, kind_numbered, reply_code};

use crate::shown::shown_reply_end;
use mysql_c_handles::{Code, Handle, Object, ReplyInParts, ShownEnd};
use mysql_const::CapabilityFlags;
use mysql_replies::{ReplyKind, ReplyReader};
use std::alloc::Global;
use std::mem::replace;

/// The kind of a number.
pub(crate) fn kind_of(number: u32) -> Option<ReplyKind>
    ensures { result ≡ kind_numbered number }
{
    match number {
        0 => Some(ReplyKind::Text),
        1 => Some(ReplyKind::Binary),
        2 => Some(ReplyKind::Prepare),
        _ => None,
    }
}

/// The answer of a feed.
fn fed(reader: &mut ReplyReader, piece: &[u8]) -> Code
    ensures feeds { Feeds reader.old reader.new piece.now (answer_of (fault_of reader.new.so_far)) }
    ensures no_fault { fault_of reader.new.so_far ≡ None → HasFoundNoFault reader.new }
    ensures answer { result ≡ reply_code (fault_of reader.new.so_far) }
{
    match reader.feed(piece) {
        Ok(()) => Code::Done,
        Err(fault) => Code::Reply(fault),
    }
}

/// Feeds a reader of a reply.
fn feed(object: &mut Object, piece: &[u8]) -> Code
    ensures { OfReply object.old (code_number result) object.new
        (IsReplyFedBy piece.now (code_number result) object.new) }
{
    match object {
        Object::Reply(reply) => fed(&mut reply.reader, piece),
        Object::Empty => Code::EmptyHandle,
        _ => Code::OtherKind,
    }
}

/// Takes the results so far. The progress reports go, since C isn't shown them and a long reply may have many.
fn take_results(object: &mut Object) -> Code
    ensures { OfReply object.old (code_number result) object.new (OutcomesAreTaken (code_number result) object.new) }
{
    match object {
        Object::Reply(reply) => {
            let results = reply.reader.take_results();
            drop(reply.reader.take_progress());
            drop(replace(&mut reply.taken, results));
            Code::Done
        }
        Object::Empty => Code::EmptyHandle,
        _ => Code::OtherKind,
    }
}

/// Ends a reply.
fn end(object: &mut Object, end: &mut ShownEnd) -> Code
    ensures { RepliesEnd object.old (code_number result) object.new end.new }
{
    let (ended, code) = match replace(object, Object::Empty) {
        Object::Reply(reply) => (Object::Answer(reply.reader.finish()), Code::Done),
        Object::Answer(reply) => (Object::Answer(reply), Code::Done),
        Object::Empty => (Object::Empty, Code::EmptyHandle),
        other => (other, Code::OtherKind),
    };
    if let Object::Answer(reply) = &ended {
        *end = shown_reply_end(reply.end);
    }
    // One step of the proof, in place of one for each part of a variant.
    drop(replace(object, ended));
    code
}

/// Makes the handle refer to a reader of the reply to a command of this kind.
///
/// The kinds are 0 a query, 1 an execution, 2 a prepare. The reply's first chunk has the number
/// `first`.
///
/// Promise: a number that names no kind makes no reader (`IsNewReply`).
pub fn reply_new(
    alloc: Global,
    handle: &mut Handle,
    kind: u32,
    capabilities: u32,
    first: u8,
    limit: usize,
) -> u32
    ensures made { result ≡ 0 → IsReply handle.new.object (IsNewReply kind capabilities first limit) }
    ensures kept { result ≢ 0 → handle.new.object ≡ handle.old.object }
    ensures cause { (result ≡ 0) ⊎ (result ≡ code_number code.Memory) ⊎
        ((result ≡ code_number code.NoSuchKind) × (kind_numbered kind ≡ None)) }
{
    let Some(kind) = kind_of(kind) else {
        return Code::NoSuchKind.number();
    };
    let reader = ReplyReader::new(alloc, kind, CapabilityFlags(capabilities), first, limit);
    let taken = Vec::new(alloc);
    match handle.set(alloc, Object::Reply(ReplyInParts { reader, taken })) {
        Ok(()) => Code::Done.number(),
        Err(_) => Code::Memory.number(),
    }
}

/// Feeds a reader of a reply with the next bytes.
///
/// Promise: what is held decides, over the bytes to come, what was decided before over the piece
/// and them (`IsReplyFedBy`).
pub fn reply_feed(alloc: Global, handle: &mut Handle, piece: &[u8]) -> u32
    ensures { OfReply handle.old.object result handle.new.object (IsReplyFedBy piece.now result handle.new.object) }
{
    let Some(mut object) = handle.take(alloc) else {
        return Code::EmptyHandle.number();
    };
    let code = feed(&mut object, piece);
    handle.put(object);
    code.number()
}

/// Takes the results that are whole, and the rows so far of a result set that goes on.
///
/// Those that were taken before are let go, and so are the progress reports that came.
///
/// Promise: the results are those that `ReplyReader::take_results` returns (`OutcomesAreTaken`).
pub fn reply_take(alloc: Global, handle: &mut Handle) -> u32
    ensures { OfReply handle.old.object result handle.new.object (OutcomesAreTaken result handle.new.object) }
{
    let Some(mut object) = handle.take(alloc) else {
        return Code::EmptyHandle.number();
    };
    let code = take_results(&mut object);
    handle.put(object);
    code.number()
}

/// Ends a reply: the handle refers to what was read and not taken. Shows how the reply ends. Of an
/// ended one it shows the same again.
///
/// Promise: the handle refers to what was read and not taken, and how the reply ends is shown
/// (`RepliesEnd`).
pub fn reply_end(alloc: Global, handle: &mut Handle, shown: &mut ShownEnd) -> u32
    ensures { RepliesEnd handle.old.object result handle.new.object shown.new }
{
    let Some(mut object) = handle.take(alloc) else {
        return Code::EmptyHandle.number();
    };
    let code = end(&mut object, shown);
    handle.put(object);
    code.number()
}
