//! Replies that are written, whole and part by part.

use crate::calls::tell;
use crate::rows::DIFFERS;
use mysql_session::{
    CapabilityFlags, Reply, ReplyEnd, ReplyFault, ReplyKind, ReplyRefusal, ReplyResult,
    ReplyWriter, read_reply, write_reply,
};
use std::alloc::{AllocError, Global};
use tests_support::rows::Trouble;

/// What a reply is read and written by.
///
/// That is the command's kind, the capabilities, the number of the first packet, and the limit of a
/// packet.
pub type Sides = (ReplyKind, CapabilityFlags, u8, usize);

/// The reply of these bytes.
pub fn reply_of(
    alloc: Global,
    (kind, capabilities, first_id, limit): Sides,
    stream: &[u8],
) -> Result<Reply, Trouble> {
    let reply = read_reply(alloc, kind, capabilities, first_id, limit, &[stream]);
    if matches!(reply.end, ReplyEnd::Fault(_, ReplyFault::Memory)) {
        return Err(Trouble::Memory);
    }
    Ok(reply)
}

/// What a reply says.
pub fn said(alloc: Global, reply: &Reply) -> Result<String, AllocError> {
    format!(in alloc; "{reply:?}")
}

/// Writes a result part by part.
fn put_result(
    writer: &mut ReplyWriter,
    (place, found): (usize, &ReplyResult),
    more: bool,
    out: &mut Vec<u8>,
) -> Result<(), ReplyRefusal> {
    match found {
        ReplyResult::Ok(packet) => writer.ok(packet, more, out),
        ReplyResult::Rows {
            columns,
            rows,
            terminator,
        } => {
            writer.columns(columns, out)?;
            for row in rows {
                writer.row(row, out)?;
            }
            match terminator {
                Some(packet) => writer.end_rows(packet, more, out),
                None => Ok(()),
            }
        }
        ReplyResult::Prepared {
            stmt,
            params,
            columns,
        } => writer.prepared(stmt, params, columns, out),
        ReplyResult::Error(error) => writer.error(error, out),
        ReplyResult::File(packet) => writer.file(packet, out),
        // They are read alone.
        ReplyResult::RawRows { .. } | ReplyResult::Fields { .. } | ReplyResult::Line(_) => {
            Err(ReplyRefusal::WrongKind(place))
        }
    }
}

/// Writes the reports and the results of a reply part by part.
fn put_parts(
    writer: &mut ReplyWriter,
    reply: &Reply,
    out: &mut Vec<u8>,
) -> Result<(), ReplyRefusal> {
    for report in &reply.progress {
        writer.report(report, out)?;
    }
    let last = reply.results.len().saturating_sub(1);
    for (place, found) in reply.results.iter().enumerate() {
        put_result(writer, (place, found), place < last, out)?;
    }
    Ok(())
}

/// Writes a reply part by part.
fn write_parts(
    alloc: Global,
    (kind, capabilities, first_id, limit): Sides,
    reply: &Reply,
    out: &mut Vec<u8>,
) -> Result<(), ReplyRefusal> {
    let mut writer = ReplyWriter::new(alloc, kind, capabilities, first_id, limit);
    put_parts(&mut writer, reply, out)?;
    writer.finish()
}

/// Writes a reply whole.
fn write_whole(
    alloc: Global,
    (kind, capabilities, first_id, limit): Sides,
    reply: &Reply,
    out: &mut Vec<u8>,
) -> Result<(), ReplyRefusal> {
    write_reply(
        alloc,
        kind,
        capabilities,
        first_id,
        limit,
        &reply.results,
        &reply.progress,
        out,
    )
}

/// Writes a reply whole, and why that is refused. Part by part it is written as the same bytes, or
/// refused for the same.
pub fn written(
    alloc: Global,
    sides: Sides,
    reply: &Reply,
    out: &mut Vec<u8>,
    words: &mut String,
) -> Result<(), Trouble> {
    let mut parts = Vec::from_slice(alloc, out)?;
    let mut other = String::new(alloc);
    tell(write_whole(alloc, sides, reply, out), words)?;
    tell(write_parts(alloc, sides, reply, &mut parts), &mut other)?;
    if words.contains("Memory") || other.contains("Memory") {
        Err(Trouble::Memory)
    } else if *words == other && (!words.is_empty() || parts == *out) {
        Ok(())
    } else {
        Err(DIFFERS)
    }
}

/// Whether two replies say the same.
fn is_same(alloc: Global, one: &Reply, other: &Reply) -> Result<bool, AllocError> {
    let one = said(alloc, one)?;
    Ok(said(alloc, other)? == one)
}

/// Reads what a reply was written as: it says the same, and is written as the same bytes.
fn check_bytes(
    alloc: Global,
    sides: Sides,
    reply: &Reply,
    bytes: &[u8],
    words: &mut String,
) -> Result<(), Trouble> {
    let mut out = Vec::new(alloc);
    let again = reply_of(alloc, sides, bytes)?;
    if !is_same(alloc, reply, &again)? {
        write!(words, " {again:?}")?;
        return Err(DIFFERS);
    }
    match written(alloc, sides, &again, &mut out, words) {
        Ok(()) if out.as_slice() == bytes => Ok(()),
        Ok(()) => Err(Trouble::Malformed("a reply that was written is written in another way")),
        Err(trouble) => Err(trouble),
    }
}

/// Writes a whole reply again: it reads as the same, and written once more it is the same bytes.
pub fn check_again(
    alloc: Global,
    sides: Sides,
    stream: &[u8],
    words: &mut String,
) -> Result<(), Trouble> {
    let reply = reply_of(alloc, sides, stream)?;
    if !matches!(reply.end, ReplyEnd::Whole) {
        return Ok(());
    }
    words.clear();
    let mut bytes = Vec::new(alloc);
    match written(alloc, sides, &reply, &mut bytes, words) {
        Ok(()) if words.is_empty() => check_bytes(alloc, sides, &reply, &bytes, words),
        Ok(()) => Err(DIFFERS),
        Err(trouble) => Err(trouble),
    }
}
