//! A whole stream of commands, in however many pieces.
//!
//!     let audit = receive(alloc, b"SELECT :a", stmt_id, limit, &[&first, &second])?;
//!     if audit.end == End::Whole { .. audit.sets .. }

ghost use Rattle.std.specs.Prelude.{◌≤◌, false, IfErr, IfOk, OnOk, map};
ghost use Rattle.mysql_values.specs.Queries.{HasMixed};
ghost use Rattle.mysql_values.specs.Sql.{read_by, read_by_default};
ghost use Rattle.mysql_receive.specs.Receiving.{IsReceived, audit_of};
ghost use Rattle.mysql_receive.specs.Making.{IsReceiverError};

use crate::audit::Audit;
use crate::receiver::{Receiver, ReceiverError};
use mysql_buf::laws::are_bytes;
use mysql_values::{Mode, Spelling};
use mysql_wire::laws::reader_laws;
use std::alloc::Global;

/// The audit of the stream of commands that these pieces are, however they are cut.
///
/// The server that they were sent to is in the default mode. Texts have byte strings in quotes:
/// [`receive_in`] takes the mode and the spelling.
///
/// The statement was given the id `stmt_id`. Where memory runs out over a piece, the audit's end is
/// a fault by that name. Its sets are those of the first payloads, as many as the end counts: at
/// least those that stand whole in the pieces before.
///
/// `limit` is the most bytes of a payload: the `max_allowed_packet` of this side, at least 4.
///
/// Promise: of any bytes in any pieces the answer is exactly the audit. It has the sets of all
/// payloads before the first faulty one, and the end (`AuditOf`, `OutOfMemoryIn`).
///
/// # Errors
/// - `Mixed` where both names and question marks occur in the query.
/// - `Memory`.
pub fn receive(
    alloc: Global,
    query: &[u8],
    stmt_id: u32,
    limit: usize,
    pieces: &[&[u8]],
) -> Result<Audit, ReceiverError>
    requires { 4 ≤ limit }
    ensures received { IfOk result
        (λ audit. IsReceived (read_by_default query.now) stmt_id limit
        (map (λ piece. piece.now) pieces.now) (audit_of audit)) }
    ensures one_kind { OnOk result (HasMixed (read_by_default query.now) false) }
    ensures mixed { IfErr result (IsReceiverError (read_by_default query.now)) }
{
    receive_in(
        alloc,
        query,
        stmt_id,
        limit,
        Mode::default(),
        Spelling::Quoted,
        pieces,
    )
}

/// The audit that [`receive`] answers, where the server that the commands were sent to is in this
/// mode.
///
/// Texts have byte strings in this spelling: by `Spelling::Hexadecimal` literals behind an introducer
/// are read too. `Mode::of_sql_mode` reads the mode from the variable `sql_mode`, as session tracking
/// tells it.
///
/// Promise: of any bytes in any pieces the answer is exactly the audit in this mode and spelling.
/// It has the sets of all payloads before the first faulty one, and the end (`AuditOf`,
/// `OutOfMemoryIn`).
///
/// # Errors
/// - `Mixed` where both names and question marks occur in the query.
/// - `Memory`.
///
/// (MySQL Reference Manual, "Server SQL Modes", "Character Set Introducers".)
pub fn receive_in(
    alloc: Global,
    query: &[u8],
    stmt_id: u32,
    limit: usize,
    mode: Mode,
    spelling: Spelling,
    pieces: &[&[u8]],
) -> Result<Audit, ReceiverError>
    requires { 4 ≤ limit }
    ensures received { IfOk result
        (λ audit. IsReceived (read_by mode spelling query.now) stmt_id limit
        (map (λ piece. piece.now) pieces.now) (audit_of audit)) }
    ensures one_kind { OnOk result (HasMixed (read_by mode spelling query.now) false) }
    ensures mixed { IfErr result (IsReceiverError (read_by mode spelling query.now)) }
{
    reader_laws();
    let mut receiver = Receiver::new_in(alloc, query, stmt_id, limit, mode, spelling)?;
    'pieces: for piece in pieces {
        are_bytes(piece);
        let _answer = receiver.feed(piece);
    }
    Ok(receiver.finish())
}
