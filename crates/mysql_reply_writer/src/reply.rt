//! A whole reply, appended or refused.

ghost use Rattle.std.specs.Prelude.{◌≡◌, IfErr, OnErr, OnOk};
ghost use Rattle.mysql_replies.specs.Reply.{context_by};
ghost use Rattle.mysql_replies.specs.Views.{outcome_views, report_views};
ghost use Rattle.mysql_reply_writer.specs.Refusals.{refusal_of};
ghost use Rattle.mysql_reply_writer.specs.Puts.{IsCause};
ghost use Rattle.mysql_reply_writer.specs.Replies.{Replies};

use crate::fronts::byte_fronts_are_unfinished;
use crate::refusal::ReplyRefusal;
use crate::reply_laws::written_replies_are_whole;
use crate::whole::put_reply;
use crate::writer::ReplyWriter;
use mysql_const::CapabilityFlags;
use mysql_replies::laws::whole_bytes_are_framed_results;
use mysql_replies::{ReplyKind, ReplyResult};
use mysql_server_packets::ProgressReport;
use std::alloc::Global;

/// Appends a server's reply to a command of this kind.
///
/// These are the packets of the results one after another, before them the progress reports. The
/// first chunk has the number `first_id`. A payload has at most `limit` bytes, as calls that read
/// count them: without the headers of its chunks. Another result follows each but the last: of each
/// status the writer sets or clears SERVER_MORE_RESULTS_EXISTS itself. Progress reports go only to a
/// client that knows them, by the capability PROGRESS_OBSOLETE. Rows as they came, columns of a table
/// and lines are read alone: they are `WrongKind`. After a refusal `out` is as it was.
///
/// Promise: refused by the first cause in the order of the stream. Else the framings of a reply are
/// appended that reads as these results and reports, and so does each prefix (`refusal_of`,
/// `Replies`).
///
/// # Errors
/// - `NoResults` where there is no result;
/// - else the first cause in the order of the stream, each payload's `PacketTooLarge` behind the
///   other causes of what is written with it. A payload is of a progress report, a result that
///   isn't rows, the columns of rows, a row, or the end of rows;
/// - `Memory`, which may come in place of any answer.
///
/// MySQL: Client/Server Protocol, "COM_QUERY Response", "Text Resultset", "Binary Protocol Resultset" and
/// "COM_STMT_PREPARE Response"; MariaDB: 'Progress report' of "ERR_Packet".
pub fn write_reply(
    alloc: Global,
    kind: ReplyKind,
    capabilities: CapabilityFlags,
    first_id: u8,
    limit: usize,
    results: &[ReplyResult],
    progress: &[ProgressReport<'static>],
    out: &mut Vec<u8>,
) -> Result<(), ReplyRefusal>
    ensures refused { IfErr result
        (IsCause (refusal_of (context_by kind capabilities) limit
        (outcome_views results.now) (report_views progress.now))) }
    ensures kept { OnErr result (out.new.items ≡ out.old.items) }
    ensures delivered { OnOk result
        (Replies (context_by kind capabilities) first_id limit
        (outcome_views results.now) (report_views progress.now) out.old.items out.new.items) }
{
    written_replies_are_whole();
    whole_bytes_are_framed_results();
    byte_fronts_are_unfinished();
    if results.is_empty() {
        return Err(ReplyRefusal::NoResults);
    }
    let start = out.len();
    let mut writer = ReplyWriter::new(alloc, kind, capabilities, first_id, limit);
    match put_reply(&mut writer, results, progress, out) {
        Ok(()) => Ok(()),
        Err(refusal) => {
            out.truncate(start);
            Err(refusal)
        }
    }
}
