//! What C gives, written by the writer of one handle to the bytes of another.

ghost use Rattle.std.specs.Prelude.{◌≡◌, ◌∷◌, ◌≤◌, [], false, IfErr, OnErr, OnOk, length, take, drop};
ghost use Rattle.mysql_server_packets.specs.Views.{prepare_ok_view};
ghost use Rattle.mysql_reply_writer.specs.Written.{ColumnsStep, PreparedStep};
ghost use Rattle.mysql_reply_writer.specs.Writer.{Refuses, Wrote};
ghost use Rattle.mysql_c_handles.specs.Codes.{code_number};
ghost use Rattle.mysql_c_handles.specs.declared.object.Object.TheVariants as object;
ghost use Rattle.mysql_c_replies.specs.Steps.{HasEnough, Writes, WritesFrom, WritesTo, columns_given, columns_left};
ghost use Rattle.mysql_c_replies.specs.Steps.{lacks_columns, step_given};

use crate::given::Given;
use crate::spot::{ShownSpot, show_refusal};
use mysql_c_handles::{Code, Handle, Object, WrittenReply};
use mysql_reply_writer::ReplyRefusal;
use mysql_server_packets::StmtPacket;
use std::alloc::Global;
use std::mem::replace;
use std::rc::RcSlice;

/// Begins rows under the columns that were given. They are the writer's then, or gone where it refuses them.
fn begin_rows(
    alloc: Global,
    reply: &mut WrittenReply,
    out: &mut Vec<u8>,
) -> Result<(), ReplyRefusal>
    ensures ok { OnOk result (Wrote reply.old.writer (ColumnsStep (columns_given reply.old) ∷
        []) reply.new.writer out.old.items out.new.items) }
    ensures err { IfErr result (Refuses reply.old.writer (ColumnsStep (columns_given reply.old) ∷ [])) }
    ensures kept { OnErr result (out.new.items ≡ out.old.items) }
    ensures stays { OnErr result (reply.new.writer ≡ reply.old.writer) }
    ensures left { columns_given reply.new ≡ [] }
{
    let columns = replace(&mut reply.columns, Vec::new(alloc));
    let shared = RcSlice::from_vec(columns)?;
    reply.writer.columns(&shared, out)
}

/// Writes a prepared statement: so many of the columns that were given are its parameters, and none is left.
fn prepare(
    reply: &mut WrittenReply,
    statement: &StmtPacket,
    params: usize,
    out: &mut Vec<u8>,
) -> Result<(), ReplyRefusal>
    requires { params ≤ length reply.old.columns.items }
    ensures ok { OnOk result (Wrote reply.old.writer
        (PreparedStep (prepare_ok_view statement.now) (take params (columns_given reply.old))
        (drop params (columns_given reply.old)) ∷ []) reply.new.writer out.old.items out.new.items) }
    ensures err { IfErr result
        (Refuses reply.old.writer
        (PreparedStep (prepare_ok_view statement.now) (take params (columns_given reply.old))
        (drop params (columns_given reply.old)) ∷ [])) }
    ensures kept { OnErr result (out.new.items ≡ out.old.items) }
    ensures stays { OnErr result (reply.new.writer ≡ reply.old.writer) }
    ensures left { columns_given reply.new ≡ [] }
{
    let (parameters, columns) = reply.columns.as_slice().split_at(params);
    let answer = reply.writer.prepared(statement, parameters, columns, out);
    reply.columns.clear();
    answer
}

/// Writes what is given behind bytes.
fn write(
    alloc: Global,
    reply: &mut WrittenReply,
    given: &Given<'_>,
    out: &mut Vec<u8>,
) -> Result<(), ReplyRefusal>
    requires { HasEnough given.now (object.Writer reply.old) }
    ensures ok { OnOk result (Wrote reply.old.writer (step_given reply.old given.now ∷
        []) reply.new.writer out.old.items out.new.items) }
    ensures err { IfErr result (Refuses reply.old.writer (step_given reply.old given.now ∷ [])) }
    ensures kept { OnErr result (out.new.items ≡ out.old.items) }
    ensures stays { OnErr result (reply.new.writer ≡ reply.old.writer) }
    ensures left { columns_given reply.new ≡ columns_left (step_given reply.old given.now) (columns_given reply.old) }
{
    match given {
        Given::Ok(ok, more) => reply.writer.ok(ok, *more, out),
        Given::Error(error) => reply.writer.error(error, out),
        Given::Columns => begin_rows(alloc, reply, out),
        Given::Row(row) => reply.writer.row(row, out),
        Given::End(ok, more) => reply.writer.end_rows(ok, *more, out),
        Given::Prepared(statement, params) => prepare(reply, statement, *params, out),
    }
}

/// Writes what is given behind bytes, and answers a code, with the spot of a refusal.
fn written(
    alloc: Global,
    reply: &mut WrittenReply,
    given: &Given<'_>,
    out: &mut Vec<u8>,
    spot: &mut ShownSpot,
) -> Code
    requires { HasEnough given.now (object.Writer reply.old) }
    ensures { Writes (step_given reply.old given.now) reply.old out.old.items (code_number result)
        spot.new reply.new out.new.items }
{
    match write(alloc, reply, given, out) {
        Ok(()) => Code::Done,
        Err(refusal) => show_refusal(refusal, spot),
    }
}

/// Writes what is given behind the bytes of a handle's object.
fn write_behind(
    alloc: Global,
    reply: &mut WrittenReply,
    given: &Given<'_>,
    bytes: &mut Object,
    spot: &mut ShownSpot,
) -> Code
    requires { HasEnough given.now (object.Writer reply.old) }
    ensures { WritesTo (step_given reply.old given.now) reply.old bytes.old (code_number result)
        spot.new reply.new bytes.new }
{
    match bytes {
        Object::Bytes(out) => written(alloc, reply, given, out, spot),
        Object::Empty => Code::EmptyHandle,
        _ => Code::OtherKind,
    }
}

/// Writes what is given behind the bytes that a handle refers to.
fn write_to(
    alloc: Global,
    reply: &mut WrittenReply,
    given: &Given<'_>,
    out: &mut Handle,
    spot: &mut ShownSpot,
) -> Code
    requires { HasEnough given.now (object.Writer reply.old) }
    ensures { WritesTo (step_given reply.old given.now) reply.old out.old.object
        (code_number result) spot.new reply.new out.new.object }
{
    let Some(mut bytes) = out.take(alloc) else {
        return Code::EmptyHandle;
    };
    let code = write_behind(alloc, reply, given, &mut bytes, spot);
    out.put(bytes);
    code
}

/// Writes what is given by the writer that an object is.
fn write_by(
    alloc: Global,
    object: &mut Object,
    given: &Given<'_>,
    out: &mut Handle,
    spot: &mut ShownSpot,
) -> Code
    requires { HasEnough given.now object.old }
    ensures { WritesFrom (λ reply. step_given reply given.now) object.old out.old.object
        (code_number result) spot.new object.new out.new.object }
{
    match object {
        Object::Writer(reply) => write_to(alloc, reply, given, out, spot),
        Object::Empty => Code::EmptyHandle,
        _ => Code::OtherKind,
    }
}

/// Writes what is given by the writer that a handle refers to.
fn write_with(
    alloc: Global,
    handle: &mut Handle,
    given: &Given<'_>,
    out: &mut Handle,
    spot: &mut ShownSpot,
) -> u32
    requires { HasEnough given.now handle.old.object }
    ensures { WritesFrom (λ reply. step_given reply given.now) handle.old.object out.old.object
        result spot.new handle.new.object out.new.object }
{
    let Some(mut object) = handle.take(alloc) else {
        return Code::EmptyHandle.number();
    };
    let code = write_by(alloc, &mut object, given, out, spot);
    handle.put(object);
    code.number()
}

/// Writes what is given by the writer that one handle refers to, behind the bytes of another.
pub(crate) fn write_given(
    alloc: Global,
    handle: &mut Handle,
    given: Given<'_>,
    out: &mut Handle,
    spot: &mut ShownSpot,
) -> u32
    requires { HasEnough given handle.old.object }
    ensures { WritesFrom (λ reply. step_given reply given.entry) handle.old.object out.old.object
        result spot.new handle.new.object out.new.object }
{
    let number = write_with(alloc, handle, &given, out, spot);
    drop(given);
    number
}

/// Whether the handle refers to a writer to which fewer columns were given.
pub(crate) fn has_fewer_columns(alloc: Global, handle: &mut Handle, params: usize) -> bool
    ensures kept { handle.new.object ≡ handle.old.object }
    ensures fewer { result ≡ lacks_columns handle.old.object params }
{
    let Some(object) = handle.take(alloc) else {
        return false;
    };
    let fewer = are_fewer(&object, params);
    handle.put(object);
    fewer
}

/// Whether the object is a writer to which fewer columns were given.
fn are_fewer(object: &Object, params: usize) -> bool
    ensures { result ≡ lacks_columns object.now params }
{
    match object {
        Object::Writer(reply) => reply.columns.len() < params,
        _ => false,
    }
}
