//! A row of a reply that is borrowed from its payload, in place of kept.

ghost use Rattle.std.specs.Prelude.{◌≡◌, ◌+◌, ◌<◌, ◌^◌, None, Some, OnOk, IfErr};
ghost use Rattle.mysql_replies.specs.Borrowing.{rows_listed};
ghost use Rattle.mysql_replies.specs.RowSteps.{StateBorrowsNext};
ghost use Rattle.mysql_replies.specs.States.{IsAwaiting, IsReading, reply_so_far};

use crate::fault::ReplyFault;
use crate::state::ReplyState;
use mysql_reply_events::ReplyEvent;
use std::alloc::Global;

impl ReplyState {
    /// Reads the next payload. A row isn't kept: after `true` it can be borrowed from its payload.
    #[inline(always)]
    pub fn borrow(&mut self, alloc: Global, payload: &[u8]) -> Result<bool, ReplyFault>
        requires reading { IsReading self.old }
        requires going { self.old.fault ≡ None }
        requires awaiting { IsAwaiting self.old }
        ensures reading { IsReading self.new }
        ensures ok { OnOk result ((self.new.fault ≡ None) × (self.new.count ≡ self.old.count + 1)) }
        ensures fault { IfErr result (λ fault. self.new.fault ≡ Some fault) }
        ensures step { StateBorrowsNext self.old payload.now result self.new }
        ensures keeps_none { rows_listed (reply_so_far self.new) ≡ rows_listed (reply_so_far self.old) }
    {
        if self.count == u64::MAX {
            return Err(self.fail(ReplyFault::TooLarge));
        }
        if self.events.take_row(payload) {
            self.count += 1;
            return Ok(true);
        }
        self.lend(alloc, payload)
    }

    /// Reads a payload that wasn't read as a row behind another one. A first row can be borrowed.
    #[inline(never)]
    fn lend(&mut self, alloc: Global, payload: &[u8]) -> Result<bool, ReplyFault>
        requires reading { IsReading self.old }
        requires going { self.old.fault ≡ None }
        requires awaiting { IsAwaiting self.old }
        requires room { self.old.count + 1 < 2 ^ 64 }
        ensures reading { IsReading self.new }
        ensures ok { OnOk result ((self.new.fault ≡ None) × (self.new.count ≡ self.old.count + 1)) }
        ensures fault { IfErr result (λ fault. self.new.fault ≡ Some fault) }
        ensures step { StateBorrowsNext self.old payload.now result self.new }
        ensures keeps_none { rows_listed (reply_so_far self.new) ≡ rows_listed (reply_so_far self.old) }
    {
        if self.events.lend_row(payload) {
            self.count += 1;
            return Ok(true);
        }
        self.pass(alloc, payload)
    }

    /// Reads a payload where no row was lent: none can be borrowed.
    ///
    /// Where the payload is a row all the same, it wasn't lent for want of memory.
    #[inline(never)]
    fn pass(&mut self, alloc: Global, payload: &[u8]) -> Result<bool, ReplyFault>
        requires reading { IsReading self.old }
        requires going { self.old.fault ≡ None }
        requires awaiting { IsAwaiting self.old }
        requires room { self.old.count + 1 < 2 ^ 64 }
        ensures reading { IsReading self.new }
        ensures ok { OnOk result ((self.new.fault ≡ None) × (self.new.count ≡ self.old.count + 1)) }
        ensures fault { IfErr result (λ fault. self.new.fault ≡ Some fault) }
        ensures step { StateBorrowsNext self.old payload.now result self.new }
        ensures keeps_none { rows_listed (reply_so_far self.new) ≡ rows_listed (reply_so_far self.old) }
    {
        match self.read_event(payload)? {
            ReplyEvent::Row(_row) => Err(self.fail(ReplyFault::Memory)),
            event => {
                self.put(alloc, event)?;
                Ok(false)
            }
        }
    }
}
