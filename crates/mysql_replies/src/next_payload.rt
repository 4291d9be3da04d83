//! A payload of a reply, read and kept.

ghost use Rattle.std.specs.Prelude.{◌≡◌, ◌≤◌, ◌<◌, ◌+◌, ◌^◌, ◌++◌, None, Some, OnOk, IfErr, vec_len, vec_capacity};
ghost use Rattle.mysql_reply_events.specs.Views.{event_view};
ghost use Rattle.mysql_replies.specs.Putting.{HasRoomFor, PutsEvent, ReadsEvent, TakesRow, listed_views};
ghost use Rattle.mysql_replies.specs.States.{IsAwaiting, IsReading, IsShortOf, NumberedStateGoesOn, OnMemory};
ghost use Rattle.mysql_replies.specs.States.{StateGoesOn, UnlessMemory};
ghost use Rattle.mysql_replies.specs.Views.{outcome_views};

use crate::fault::{ReplyFault, fault_of};
use crate::part::{Listed, Part, Stepped};
use crate::put::put;
use crate::state::{ReplyState, push_in_room};
use mysql_reply_events::ReplyEvent;
use std::alloc::Global;
use std::mem;

impl ReplyState {
    /// Adds results to the list.
    fn list(&mut self, listed: Listed)
        requires { vec_len self.old.results + 3 ≤ vec_capacity self.old.results }
        ensures results { outcome_views self.new.results.items ≡
            outcome_views self.old.results.items ++ listed_views listed }
        ensures rest { self.new ≡ record self.old { results = self.new.results } }
        ensures room { vec_len self.new.results < vec_capacity self.new.results }
    {
        match listed {
            Listed::None => {}
            Listed::One(first) => push_in_room(&mut self.results, first),
            Listed::Two(first, second) => {
                push_in_room(&mut self.results, first);
                push_in_room(&mut self.results, second);
            }
        }
    }

    /// Puts an event, behind which the reader of events is.
    pub fn put(&mut self, alloc: Global, event: ReplyEvent) -> Result<(), ReplyFault>
        requires room { HasRoomFor self.old }
        requires number { self.old.count + 1 < 2 ^ 64 }
        ensures { PutsEvent self.old (event_view event) result self.new }
    {
        let report = match event {
            ReplyEvent::Progress(report) => report,
            event => {
                let part = mem::replace(&mut self.part, Part::Nothing);
                return match put(alloc, &self.events, part, event) {
                    Stepped::Moved(listed, next) => {
                        self.part = next;
                        self.list(listed);
                        self.count += 1;
                        Ok(())
                    }
                    Stepped::Failed(same) => {
                        self.part = same;
                        Err(self.fail(ReplyFault::Memory))
                    }
                };
            }
        };
        if self.progress.push(report).is_err() {
            return Err(self.fail(ReplyFault::Memory));
        }
        self.count += 1;
        Ok(())
    }

    /// Reads any payload: its event, for which there is room. It isn't put yet.
    pub fn read_event(&mut self, payload: &[u8]) -> Result<ReplyEvent, ReplyFault>
        requires reading { IsReading self.old }
        requires going { self.old.fault ≡ None }
        ensures { ReadsEvent self.old payload.now result self.new }
    {
        if self.results.reserve(3).is_err() {
            return Err(self.fail(ReplyFault::Memory));
        }
        if self.spare.reserve(1).is_err() {
            return Err(self.fail(ReplyFault::Memory));
        }
        match self.events.read(payload) {
            Ok(event) => Ok(event),
            Err(fault) => Err(self.fail(fault_of(fault))),
        }
    }

    /// Reads any payload: its event, which is put.
    #[inline(never)]
    pub fn take_event(&mut self, alloc: Global, payload: &[u8]) -> Result<(), ReplyFault>
        requires reading { IsReading self.old }
        requires going { self.old.fault ≡ None }
        requires awaiting { IsAwaiting self.old }
        requires room { self.old.count + 1 < 2 ^ 64 }
        ensures reading { IsReading self.new }
        ensures ok { OnOk result ((self.new.fault ≡ None) × (self.new.count ≡ self.old.count + 1)) }
        ensures fault { IfErr result (λ fault. self.new.fault ≡ Some fault) }
        ensures goes_on { UnlessMemory result (StateGoesOn self.old payload.now self.new) }
        ensures short { OnMemory result (IsShortOf self.old self.new) }
    {
        let event = self.read_event(payload)?;
        self.put(alloc, event)
    }

    /// Reads the next payload. A row where rows are due is added to them in place.
    pub fn take(&mut self, alloc: Global, payload: &[u8]) -> Result<(), ReplyFault>
        requires reading { IsReading self.old }
        requires going { self.old.fault ≡ None }
        requires awaiting { IsAwaiting self.old }
        ensures reading { IsReading self.new }
        ensures ok { OnOk result ((self.new.fault ≡ None) × (self.new.count ≡ self.old.count + 1)) }
        ensures fault { IfErr result (λ fault. self.new.fault ≡ Some fault) }
        ensures goes_on { UnlessMemory result (NumberedStateGoesOn self.old payload.now self.new) }
        ensures short { OnMemory result (IsShortOf self.old self.new) }
    {
        if self.count == u64::MAX {
            return Err(self.fail(ReplyFault::TooLarge));
        }
        match self.take_row(payload) {
            Ok(true) => Ok(()),
            Ok(false) => self.take_event(alloc, payload),
            Err(fault) => Err(fault),
        }
    }

    /// Reads a row, if one comes next under columns that stand. Else nothing has changed.
    #[inline(always)]
    fn take_row(&mut self, payload: &[u8]) -> Result<bool, ReplyFault>
        requires reading { IsReading self.old }
        requires going { self.old.fault ≡ None }
        requires room { self.old.count + 1 < 2 ^ 64 }
        ensures { TakesRow self.old payload.now result self.new }
    {
        let Part::Rows(open_rows) = &mut self.part else {
            return Ok(false);
        };
        if self.spare.reserve(1).is_err() {
            return Err(self.fail(ReplyFault::Memory));
        }
        let row = match self.events.read_row(payload) {
            Ok(Some(row)) => row,
            Ok(None) => return Ok(false),
            Err(fault) => return Err(self.fail(fault_of(fault))),
        };
        if open_rows.push(row).is_err() {
            return Err(self.fail(ReplyFault::Memory));
        }
        self.count += 1;
        Ok(true)
    }
}
