//! What is handed out of a reply before its end, and at it.

ghost use Rattle.std.specs.Prelude.{◌≡◌, ◌<◌, ◌++◌, [], length, vec_len, vec_capacity};
ghost use Rattle.mysql_wire.specs.Stream.Rest.{Empty};
ghost use Rattle.mysql_replies.specs.OpenRows.{rows_of};
ghost use Rattle.mysql_replies.specs.Reply.{end_behind, is_over};
ghost use Rattle.mysql_replies.specs.Together.{RowsPart, listed};
ghost use Rattle.mysql_replies.specs.Taking.{part_of, results_in, rows_awaited, without_results};
ghost use Rattle.mysql_replies.specs.Views.{answer_view, end_view, outcome_views, part_view};
ghost use Rattle.mysql_replies.specs.States.{HasRoom, HasSpare, IsReading, answer_of, reply_so_far};

use crate::open_rows::OpenRows;
use crate::part::Part;
use crate::put::listed_of;
use crate::results::{Reply, ReplyEnd, ReplyResult};
use crate::state::{ReplyState, push_in_room};
use mysql_rows::Row;
use mysql_server_packets::ProgressReport;
use std::alloc::Global;
use std::mem;

/// The results with the one that hasn't ended.
fn closed(mut results: Vec<ReplyResult>, part: Part) -> Vec<ReplyResult>
    requires { HasRoom (part_view part) results }
    ensures { outcome_views result.items ≡ outcome_views results.items ++ listed (part_view part) }
{
    match listed_of(part) {
        Some(open) => {
            push_in_room(&mut results, open);
            results
        }
        None => results,
    }
}

/// Hands out the results. The spare list takes their place.
fn take_whole(
    alloc: Global,
    results: &mut Vec<ReplyResult>,
    spare: &mut Vec<ReplyResult>,
) -> Vec<ReplyResult>
    requires { spare.old.items ≡ [] }
    ensures taken { result.items ≡ results.old.items }
    ensures none { results.new.items ≡ [] }
    ensures room { vec_len results.old < vec_capacity results.old →
        (0 < length results.old.items → vec_len spare.old < vec_capacity spare.old) →
        vec_len results.new < vec_capacity results.new }
    ensures empty { spare.new.items ≡ [] }
{
    if results.is_empty() {
        return Vec::new(alloc);
    }
    let left = mem::replace(spare, Vec::new(alloc));
    mem::replace(results, left)
}

/// Hands out the results and the rows so far of a result set that goes on, if there are any.
///
/// The spare list takes the results' place.
fn take_open(
    alloc: Global,
    results: &mut Vec<ReplyResult>,
    spare: &mut Vec<ReplyResult>,
    open_rows: &mut OpenRows,
) -> Vec<ReplyResult>
    requires room { vec_len results.old < vec_capacity results.old }
    requires spare { HasSpare (RowsPart open_rows.old.columns open_rows.old.rows) results.old spare.old }
    requires empty { spare.old.items ≡ [] }
    ensures taken { outcome_views result.items ≡ outcome_views results.old.items ++
        part_of (RowsPart open_rows.old.columns open_rows.old.rows) }
    ensures rest { open_rows.new ≡ record open_rows.old { rows = [] } }
    ensures none { results.new.items ≡ [] }
    ensures room { vec_len results.new < vec_capacity results.new }
    ensures empty { spare.new.items ≡ [] }
{
    if open_rows.is_empty() {
        return take_whole(alloc, results, spare);
    }
    let left = mem::replace(spare, Vec::new(alloc));
    let mut taken = mem::replace(results, left);
    push_in_room(&mut taken, open_rows.take(alloc));
    taken
}

impl ReplyState {
    /// Hands out what is listed. The rows of a result set that goes on are listed anew behind it.
    ///
    /// Where a fault was met, none are.
    pub fn take_results(&mut self, alloc: Global) -> Vec<ReplyResult>
        requires reading { IsReading self.old }
        ensures reading { IsReading self.new }
        ensures taken { outcome_views result.items ≡ results_in (reply_so_far self.old) }
        ensures left { reply_so_far self.new ≡ without_results (reply_so_far self.old) }
        ensures fault { self.new.fault ≡ self.old.fault }
        ensures events { self.new.events ≡ self.old.events }
    {
        if self.fault.is_some() {
            let part = mem::replace(&mut self.part, Part::Nothing);
            let results = mem::replace(&mut self.results, Vec::new(alloc));
            return closed(results, part);
        }
        match &mut self.part {
            Part::Rows(open_rows) => {
                take_open(alloc, &mut self.results, &mut self.spare, open_rows)
            },
            _ => take_whole(alloc, &mut self.results, &mut self.spare),
        }
    }

    /// Hands out the progress reports.
    pub fn take_progress(&mut self, alloc: Global) -> Vec<ProgressReport<'static>>
        ensures taken { result ≡ self.old.progress }
        ensures left { self.new ≡ record self.old { progress = self.new.progress } }
        ensures none { self.new.progress.items ≡ [] }
    {
        mem::replace(&mut self.progress, Vec::new(alloc))
    }

    /// The rows so far of a result set that goes on.
    pub fn rows(&self) -> &[Row]
        ensures { rows_of result.now ≡ rows_awaited (part_view self.now.part) }
    {
        match &self.part {
            Part::Rows(open_rows) => open_rows.rows(),
            _ => &[],
        }
    }

    /// The end of a reply where no fault was met and no more bytes come.
    fn end(&self) -> ReplyEnd
        ensures { end_view result ≡ end_behind (is_over self.now.events.so_far.awaited) self.now.count Empty }
    {
        if self.is_over() {
            ReplyEnd::Whole
        } else {
            ReplyEnd::Unfinished
        }
    }

    /// The answer where no more bytes come.
    pub fn finish(self) -> Reply
        requires reading { IsReading self }
        ensures { answer_view result ≡ answer_of self }
    {
        let end = match self.fault {
            Some(fault) => ReplyEnd::Fault(self.count, fault),
            None => self.end(),
        };
        let ReplyState {
            events: _,
            results,
            spare: _,
            progress,
            count: _,
            part,
            fault: _,
        } = self;
        let results = closed(results, part);
        Reply {
            results,
            progress,
            end,
        }
    }
}
