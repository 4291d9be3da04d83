//! Whole streams of commands, and contents, as executions.

ghost use Rattle.std.specs.Prelude.{◌≡◌, ◌≤◌, IfErr, IfOk, OnErr, OnOk, Some, flat_map, map};
ghost use Rattle.mysql_wire.specs.Bytes.{AreBytes};
ghost use Rattle.mysql_values.specs.Contents.{content_value};
ghost use Rattle.mysql_receive.specs.declared.audit.End.TheVariants as ends;
ghost use Rattle.mysql_receive.specs.Audit.{AuditOf};
ghost use Rattle.mysql_receive.specs.Receiving.{audit_of};
ghost use Rattle.mysql_command_rules.specs.declared.refusal.Refusal.TheVariants as refusals;
ghost use Rattle.mysql_command_rules.specs.Reading.{SentReadable};
ghost use Rattle.mysql_command_rules.specs.Sending.{RefusesGiven};
ghost use Rattle.mysql_command_rules.specs.Sets.{all_given_in_places};
ghost use Rattle.mysql_command_rules.specs.declared.road.Road.TheVariants as roads;
ghost use Rattle.mysql_receive.specs.Views.{sets_of};
ghost use Rattle.mysql_values.specs.Sql.{read_by, read_by_default, read_in};
ghost use Rattle.mysql_recoding.specs.Causes.{error_for, values_of_sets};
ghost use Rattle.mysql_recoding.specs.Recoding.{Recodes, RefusesRecoding};

use crate::errors::RecodeError;
use mysql_buf::laws::are_bytes;
use mysql_command_rules::Refusal;
use mysql_command_rules::in_turn::sent_in_turn;
use mysql_convert::ToValue;
use mysql_receive::laws::stream_has_one_audit;
use mysql_receive::{Audit, Content, receive_in};
use mysql_send::{Statement, put_executions_of_values};
use mysql_values::{Mode, Spelling, Value};
use std::alloc::Global;

/// The value that a content is sent as. Its bytes are moved.
fn value_of(alloc: Global, content: Content) -> Result<Value, Refusal>
    ensures ok { IfOk result (λ value. value ≡ content_value content) }
    ensures err { IfErr result (λ refusal. refusal ≡ refusals.Memory) }
{
    match content {
        Content::Null => Ok(Value::NULL),
        Content::Number(number) => match number.to_value(alloc) {
            Ok(value) => Ok(value),
            Err(_) => Err(Refusal::Memory),
        },
        Content::Bytes(bytes) => Ok(Value::Bytes(bytes)),
    }
}

/// The values of a set of contents, place by place.
fn values_of_set(alloc: Global, set: Vec<Content>) -> Result<Vec<Value>, Refusal>
    ensures ok { IfOk result (λ values. values.items ≡ map content_value set.items) }
    ensures err { IfErr result (λ refusal. refusal ≡ refusals.Memory) }
{
    let mut values = Vec::new(alloc);
    'contents: for content in set {
        values.push(value_of(alloc, content)?)?;
    }
    Ok(values)
}

/// The values of all sets.
pub(crate) fn values_of_all(
    alloc: Global,
    sets: Vec<Vec<Content>>,
) -> Result<Vec<Vec<Value>>, Refusal>
    ensures ok { IfOk result (λ all. map (λ values. values.items) all.items ≡ values_of_sets (sets_of sets.items)) }
    ensures err { IfErr result (λ refusal. refusal ≡ refusals.Memory) }
{
    let mut all = Vec::new(alloc);
    'sets: for set in sets {
        all.push(values_of_set(alloc, set)?)?;
    }
    Ok(all)
}

/// Appends to `out` the commands that carry sets of contents of a query to a server.
///
/// [`send_contents_in`] for a server in the default mode. They are one prepare, also where there
/// are no sets, and an execution of the statement `stmt_id` for each set. Its contents stand in the
/// order of the placeholders, as `recode` has them. Nothing is NULL, a number is `Int` where it
/// fits and else `UInt`, and bytes are `Bytes`. No bytes are copied but into `out`.
///
/// `limit` is the `max_allowed_packet` of the server, at least 4: a payload has at most `limit - 4`
/// bytes.
///
/// Promise: what is appended is the same form of the sets as execute sends, or the first cause of
/// sending them is answered (`SentReadable`, `RefusesGiven`).
///
/// # Errors
/// The first cause that holds, in the order of [`Refusal`]:
/// - `Mixed`.
/// - `TooManyPlaces`.
/// - `PrepareTooLarge`.
/// - Set by set `WrongCount`, `PacketTooLarge`.
/// - `Memory` where a growth was refused.
///
/// `out` is as it was after an error.
///
/// (MySQL: Client/Server Protocol, "COM_STMT_PREPARE", "COM_STMT_SEND_LONG_DATA",
/// "COM_STMT_EXECUTE".)
pub fn send_contents(
    alloc: Global,
    query: &[u8],
    sets: Vec<Vec<Content>>,
    stmt_id: u32,
    limit: usize,
    out: &mut Vec<u8>,
) -> Result<(), Refusal>
    requires { 4 ≤ limit }
    ensures sent { OnOk result
        (SentReadable roads.Execute (read_by_default query.now)
        (all_given_in_places (values_of_sets (sets_of sets.items))) stmt_id limit out.old.items
        out.new.items) }
    ensures refused { IfErr result
        (RefusesGiven roads.Execute (read_by_default query.now)
        (all_given_in_places (values_of_sets (sets_of sets.items))) stmt_id limit) }
    ensures kept { OnErr result (out.new.items ≡ out.old.items) }
{
    send_contents_in(alloc, query, sets, stmt_id, limit, Mode::default(), out)
}

/// Appends what [`send_contents`] appends, where the query is for a server in this mode.
///
/// No value stands in a text: the mode tells where the query's placeholders are.
///
/// Promise: what is appended is the same form of the sets as execute sends, or the first cause of
/// sending them is answered (`SentReadable`, `RefusesGiven`).
///
/// # Errors
/// Those of [`send_contents`], in its order. `out` is as it was after an error.
///
/// (MySQL: Client/Server Protocol, "COM_STMT_EXECUTE"; MySQL Reference Manual, "Server SQL Modes".)
pub fn send_contents_in(
    alloc: Global,
    query: &[u8],
    sets: Vec<Vec<Content>>,
    stmt_id: u32,
    limit: usize,
    mode: Mode,
    out: &mut Vec<u8>,
) -> Result<(), Refusal>
    requires { 4 ≤ limit }
    ensures sent { OnOk result
        (SentReadable roads.Execute (read_in mode query.now)
        (all_given_in_places (values_of_sets (sets_of sets.items))) stmt_id limit out.old.items
        out.new.items) }
    ensures refused { IfErr result
        (RefusesGiven roads.Execute (read_in mode query.now)
        (all_given_in_places (values_of_sets (sets_of sets.items))) stmt_id limit) }
    ensures kept { OnErr result (out.new.items ≡ out.old.items) }
{
    put_contents(
        alloc,
        query,
        sets,
        stmt_id,
        limit,
        mode,
        Spelling::Quoted,
        out,
    )
}

/// Appends what [`send_contents_in`] appends, by any spelling of byte strings in texts.
fn put_contents(
    alloc: Global,
    query: &[u8],
    sets: Vec<Vec<Content>>,
    stmt_id: u32,
    limit: usize,
    mode: Mode,
    spelling: Spelling,
    out: &mut Vec<u8>,
) -> Result<(), Refusal>
    requires { 4 ≤ limit }
    ensures sent { OnOk result
        (SentReadable roads.Execute (read_by mode spelling query.now)
        (all_given_in_places (values_of_sets (sets_of sets.items))) stmt_id limit out.old.items
        out.new.items) }
    ensures refused { IfErr result
        (RefusesGiven roads.Execute (read_by mode spelling query.now)
        (all_given_in_places (values_of_sets (sets_of sets.items))) stmt_id limit) }
    ensures kept { OnErr result (out.new.items ≡ out.old.items) }
{
    sent_in_turn();
    let start = out.len();
    let values = values_of_all(alloc, sets)?;
    let statement = Statement::new_in(alloc, query, stmt_id, mode, spelling)?;
    match put_executions_of_values(alloc, &statement, &values, limit, out) {
        Ok(()) => Ok(()),
        Err(refusal) => {
            out.truncate(start);
            Err(refusal)
        }
    }
}

/// What pieces make one after another holds bytes: a fact that the proofs below use.
fn all_are_bytes(pieces: &[&[u8]])
    ensures { AreBytes (flat_map (λ piece. piece.now) pieces.now) }
{
    'pieces: for piece in pieces {
        are_bytes(piece);
    }
}

/// What a stream says, where it is whole.
fn whole_audit(
    alloc: Global,
    query: &[u8],
    stmt_id: u32,
    limit: usize,
    mode: Mode,
    spelling: Spelling,
    pieces: &[&[u8]],
) -> Result<Audit, RecodeError>
    requires { 4 ≤ limit }
    ensures says { IfOk result
        (λ audit. AuditOf (read_by mode spelling query.now) stmt_id limit (flat_map (λ piece. piece.now) pieces.now)
        (audit_of audit)) }
    ensures whole { IfOk result (λ audit. audit.end ≡ ends.Whole) }
    ensures refused { IfErr result
        (RefusesRecoding (read_by mode spelling query.now) stmt_id limit (flat_map (λ piece. piece.now) pieces.now)) }
{
    stream_has_one_audit();
    all_are_bytes(pieces);
    let audit = receive_in(alloc, query, stmt_id, limit, mode, spelling, pieces)?;
    match RecodeError::of_end(audit.end) {
        Some(error) => Err(error),
        None => Ok(audit),
    }
}

/// What a refusal of contents that a stream carries makes of the recoding. They are as many as the
/// placeholders and no floats, so that the other refusals never come.
pub(crate) fn refused(refusal: Refusal) -> RecodeError
    ensures { result ≡ error_for refusal }
{
    match refusal {
        Refusal::Mixed => RecodeError::Mixed,
        Refusal::TooManyPlaces => RecodeError::TooManyPlaces,
        Refusal::PrepareTooLarge => RecodeError::PrepareTooLarge,
        Refusal::PacketTooLarge(set) => RecodeError::PacketTooLarge(set),
        _ => RecodeError::Memory,
    }
}

/// Appends to `out` the canonical form of what a stream of commands carries, however it is cut.
///
/// The stream's bytes are those of the pieces, and it was sent to the statement `stmt_id`. The form
/// is one prepare, also where there are no sets, and an execution of the statement for each set.
/// Where an execution would exceed 16777215 bytes, its byte strings stand before it as long data.
/// Nothing is sent as NULL, a number as `Int` where it fits, else as `UInt`, bytes as `Bytes`.
/// Streams of one query, id and limit that carry the same sets are recoded to the same bytes. By
/// which commands and types they do so makes no difference. The laws stand in [`laws`].
///
/// `limit` is a `max_allowed_packet` of at least 4. A payload that is read has at most `limit`
/// bytes, and one that is appended at most `limit - 4`.
///
/// Promise: one prepare and an execution of each set that the stream carries are appended. Or the
/// first cause is answered and `out` is as it was (`Recodes`, `RefusesRecoding`).
///
/// # Errors
/// The first cause that holds:
/// - `Mixed`.
/// - `Stream` with the payload's number and its fault.
/// - `Unfinished`.
/// - `TooManyPlaces`.
/// - `PrepareTooLarge`.
/// - `PacketTooLarge` with the set.
/// - `Memory` where a growth was refused.
///
/// `out` is as it was after an error.
///
/// (MySQL: Client/Server Protocol, "COM_QUERY", "COM_STMT_PREPARE", "COM_STMT_SEND_LONG_DATA",
/// "COM_STMT_EXECUTE"; MariaDB: Client/Server Protocol, "COM_STMT_BULK_EXECUTE".)
pub fn recode(
    alloc: Global,
    query: &[u8],
    stmt_id: u32,
    limit: usize,
    pieces: &[&[u8]],
    out: &mut Vec<u8>,
) -> Result<(), RecodeError>
    requires { 4 ≤ limit }
    ensures recoded { OnOk result
        (Recodes (read_by_default query.now) stmt_id limit (flat_map (λ piece. piece.now) pieces.now)
        out.old.items out.new.items) }
    ensures refused { IfErr result
        (RefusesRecoding (read_by_default query.now) stmt_id limit (flat_map (λ piece. piece.now) pieces.now)) }
    ensures kept { OnErr result (out.new.items ≡ out.old.items) }
{
    recode_in(
        alloc,
        query,
        stmt_id,
        limit,
        Mode::default(),
        Spelling::Quoted,
        pieces,
        out,
    )
}

/// Appends what [`recode`] appends of a stream that was sent to a server in this mode.
///
/// The stream's texts have byte strings in this spelling, as `mysql_receive::receive_in` says.
///
/// What is appended carries no texts with values. So it is for a server in any mode in which the
/// query's own text is the same.
///
/// Promise: one prepare and an execution of each set that the stream carries in this mode and
/// spelling are appended. Or the first cause is answered and `out` is as it was (`Recodes`,
/// `RefusesRecoding`).
///
/// # Errors
/// Those of [`recode`], in its order. `out` is as it was after an error.
///
/// (MySQL Reference Manual, "Server SQL Modes".)
pub fn recode_in(
    alloc: Global,
    query: &[u8],
    stmt_id: u32,
    limit: usize,
    mode: Mode,
    spelling: Spelling,
    pieces: &[&[u8]],
    out: &mut Vec<u8>,
) -> Result<(), RecodeError>
    requires { 4 ≤ limit }
    ensures recoded { OnOk result
        (Recodes (read_by mode spelling query.now) stmt_id limit (flat_map (λ piece. piece.now) pieces.now)
        out.old.items out.new.items) }
    ensures refused { IfErr result
        (RefusesRecoding (read_by mode spelling query.now) stmt_id limit (flat_map (λ piece. piece.now) pieces.now)) }
    ensures kept { OnErr result (out.new.items ≡ out.old.items) }
{
    let audit = whole_audit(alloc, query, stmt_id, limit, mode, spelling, pieces)?;
    match put_contents(
        alloc, query, audit.sets, stmt_id, limit, mode, spelling, out,
    ) {
        Ok(()) => Ok(()),
        Err(refusal) => Err(refused(refusal)),
    }
}
