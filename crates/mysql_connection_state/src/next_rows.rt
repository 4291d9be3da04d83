//! Rows that are read where they lie.

ghost use Rattle.std.specs.Prelude.{◌≡◌, None, ℕ};
ghost use Rattle.mysql_connection_rules.specs.Steps as steps;
ghost use Rattle.mysql_connection_state.specs.NextRows.{LendsRow, LendsRowOfReply, TakesRow};
ghost use Rattle.mysql_connection_state.specs.NextRows.{TakesRowOfReply};
ghost use Rattle.mysql_connection_state.specs.Views.{in_reply_view};
ghost use Rattle.mysql_reply_events.specs.Events.Event.{RowEvent};
ghost use Rattle.mysql_rows.specs.Rows.{Row};

use crate::due::{About, Due, InReply};
use crate::state::State;

impl InReply {
    /// A row came.
    pub fn row_came(&mut self)
        ensures reply { (size : ℕ) (row : Row) → in_reply_view self.new ≡ steps.reply_after
            (in_reply_view self.old) size (RowEvent row) self.old.reader.so_far }
        ensures reader { self.new.reader ≡ self.old.reader }
    {
        if let About::Executing(pending) = &self.about {
            self.about = About::OfStatement(pending.id);
        }
    }

    // Reads a row behind another one, and what it changes.
    fn take_row(&mut self, payload: &[u8]) -> bool
        requires { self.old.reader.fault ≡ None }
        ensures { TakesRowOfReply self.old payload.now result self.new }
    {
        if self.reader.take_row(payload) {
            self.row_came();
            true
        } else {
            false
        }
    }

    // Reads a row that is due, and what it changes.
    fn lend_row(&mut self, payload: &[u8]) -> bool
        requires { self.old.reader.fault ≡ None }
        ensures { LendsRowOfReply self.old payload.now result self.new }
    {
        if self.reader.lend_row(payload) {
            self.row_came();
            true
        } else {
            false
        }
    }
}

impl State {
    /// Reads a row that is due behind another one where it lies, as most payloads of a long result
    /// are. `false` says nothing of the payload: [`State::lend_row`] reads it then.
    ///
    /// Promise: where it is `true`, the row is the one that the table of steps says, and
    /// [`State::row_ref`] of this payload gives it. It is the server's turn, and no more is kept
    /// than before. Else nothing has changed but what `row_ref` gives (`TakesRow`).
    ///
    /// MySQL: Client/Server Protocol, "Text Resultset Row" and "Binary Protocol Resultset Row".
    pub fn take_row(&mut self, payload: &[u8]) -> bool
        ensures { TakesRow self.old payload.now result self.new }
    {
        let Due::Reply(reply) = &mut self.due else {
            return false;
        };
        reply.take_row(payload)
    }

    /// Reads a row that is due where it lies, a first one too. `false` says nothing of the payload.
    ///
    /// None of it is copied, and memory is asked for at the first row of a result alone; without it the
    /// answer is `false`.
    ///
    /// Promise: as of [`State::take_row`]. Where it is `false` nothing has changed but what
    /// [`State::row_ref`] gives (`LendsRow`).
    ///
    /// MySQL: Client/Server Protocol, "Text Resultset Row" and "Binary Protocol Resultset Row"; C
    /// API, "mysql_use_result()".
    pub fn lend_row(&mut self, payload: &[u8]) -> bool
        ensures { LendsRow self.old payload.now result self.new }
    {
        let Due::Reply(reply) = &mut self.due else {
            return false;
        };
        reply.lend_row(payload)
    }
}
