//! Rows that are put behind others, as most of a long result are: they are written where they go,
//! and the state stays.

ghost use Rattle.std.specs.Prelude.{◌≡◌, ◌≤◌, IfOk};
ghost use Rattle.mysql_connection_machine.specs.PuttingRows.{AppendsRow, PutsOrStays};
ghost use Rattle.mysql_connection_machine.specs.Writing.{PutsEvent};
ghost use Rattle.mysql_connection_rules.specs.Standing.{kept};
ghost use Rattle.mysql_connection_rules.specs.Streams.{room_to_keep};
ghost use Rattle.mysql_connection_state.specs.Views.{event_view};
ghost use Rattle.mysql_connection_writer.specs.NextRows.{IsAmongRows, row_due, row_said};
ghost use Rattle.mysql_rows.specs.Views.{row_view};

use crate::both_streams::BothStreams;
use crate::due::is_free;
use crate::put_refusal::PutRefusal;
use mysql_connection_rules::Side;
use mysql_connection_state::{Event, State};
use mysql_connection_writer::{has_columns_due, write_next_row};
use mysql_reply_events::ReplyEvent;
use mysql_rows::{Row, new_row_raw};
use mysql_wire::frame_in_place;
use std::alloc::{AllocError, Global};

// Appends the packets of a row that is due behind others, where it is within a limit and need not be
// read back. Answers the number that is due behind it.
#[inline(always)]
fn append_row(
    alloc: Global,
    state: &State,
    limit: usize,
    row: &Row,
    out: &mut Vec<u8>,
) -> Result<Option<u8>, AllocError>
    requires { IsAmongRows state.now.standing }
    ensures { AppendsRow state.now.standing limit (row_view row.now) out.old.items result
        out.new.items }
{
    let start = out.len();
    out.extend_from_slice(&[0, 0, 0, 0])?;
    if !write_next_row(state, row, out)? || out.len() - start - 4 > limit {
        return Ok(None);
    }
    let mut spare = Vec::new(alloc);
    let next = frame_in_place(state.number(), start, &mut spare, out)?;
    Ok(Some(next))
}

// The row under the columns of the reply that is due, where they are as many as its cells.
fn row_due(alloc: Global, state: &State, row: &Row) -> Result<Row, AllocError>
    ensures { IfOk result (λ due. row_view due ≡ row_due state.now.standing (row_view row.now)) }
{
    let own = row.clone(alloc)?;
    let Some(reader) = state.reply_reader() else {
        return Ok(own);
    };
    match reader.share_columns()? {
        Some(columns) if columns.len() == own.len() => Ok(new_row_raw(own.unwrap_raw(), columns)),
        _ => Ok(own),
    }
}

impl BothStreams {
    /// Puts a row's cells under the columns in force, behind another row. `false` says nothing of
    /// them, and nothing has changed.
    #[inline(always)]
    pub fn put_next_row(&mut self, row: &Row, out: &mut Vec<u8>) -> bool
        requires { kept self.old.world.standing ≤ room_to_keep self.old.world.limits }
        ensures { PutsOrStays self.old (row_said self.old.world.standing (row_view row.now))
            out.old.items result self.new out.new.items }
    {
        if !self.puts_rows || !is_free(&self.server) {
            return false;
        }
        let start = out.len();
        let limit = self.limits.server;
        if let Ok(Some(next)) = append_row(self.alloc, &self.state, limit, row, out) {
            let count = out.len() - start;
            if self.server.can_advance(count) {
                self.state.set_number(Side::Server, next);
                self.server.pass(count);
                self.lends = false;
                return true;
            }
        }
        out.truncate(start);
        false
    }

    /// Puts a row's cells under the columns in force, where they are as many.
    #[inline(always)]
    pub fn put_row(&mut self, row: &Row, out: &mut Vec<u8>) -> Result<(), PutRefusal>
        requires { kept self.old.world.standing ≤ room_to_keep self.old.world.limits }
        ensures { PutsEvent self.old (row_said self.old.world.standing (row_view row.now))
            out.old.items result self.new out.new.items }
    {
        if self.put_next_row(row, out) {
            return Ok(());
        }
        self.put_row_event(row, out)
    }

    // The same by way of its event: of a first row, and of one that is read otherwise.
    #[inline(never)]
    fn put_row_event(&mut self, row: &Row, out: &mut Vec<u8>) -> Result<(), PutRefusal>
        ensures { PutsEvent self.old (row_said self.old.world.standing (row_view row.now))
            out.old.items result self.new out.new.items }
    {
        let own = row_due(self.alloc, &self.state, row)?;
        let event = Event::reply(self.alloc, ReplyEvent::Row(own))?;
        self.put(&event, out)
    }

    /// Puts an event that is a row of the columns in force, behind another row. `false` says
    /// nothing of the event, and nothing has changed.
    pub fn put_among_rows(&mut self, event: &Event, out: &mut Vec<u8>) -> bool
        requires { kept self.old.world.standing ≤ room_to_keep self.old.world.limits }
        ensures { PutsOrStays self.old (event_view event.now) out.old.items result self.new
            out.new.items }
    {
        if !self.puts_rows {
            return false;
        }
        match event {
            Event::Reply(said) => match &**said {
                ReplyEvent::Row(row) if has_columns_due(&self.state, row) => {
                    self.put_next_row(row, out)
                }
                _ => false,
            },
            _ => false,
        }
    }
}
