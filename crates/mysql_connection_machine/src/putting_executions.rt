//! Executions of values that are put: where they leave all as it is, they are written where they go.

ghost use Rattle.std.specs.Prelude.{◌≡◌, ◌≤◌, IsTrue, true};
ghost use Rattle.mysql_connection_rules.specs.Puts.{is_free};
ghost use Rattle.mysql_connection_machine.specs.PuttingExecutions.{AppendsExecution};
ghost use Rattle.mysql_connection_machine.specs.PuttingRows.{PutsOrStays};
ghost use Rattle.mysql_connection_machine.specs.Writing.{PutsEvent};
ghost use Rattle.mysql_connection_rules.specs.Standing as phases;
ghost use Rattle.mysql_connection_rules.specs.Standing.{kept};
ghost use Rattle.mysql_connection_rules.specs.Streams.{room_to_keep};
ghost use Rattle.mysql_connection_writer.specs.Executions.{execution_said};

use crate::both_streams::BothStreams;
use crate::due::is_free;
use crate::put_refusal::PutRefusal;
use mysql_cells::Value;
use mysql_columns::Column;
use mysql_connection_rules::Side;
use mysql_connection_state::{Phase, State, shared_columns_of};
use mysql_connection_writer::{execution_event, write_execution};
use mysql_wire::frame_in_place;
use std::alloc::{AllocError, Global};
use std::rc::RcSlice;

/// What an execution leads to: the columns by which its reply is read, and the next number.
struct Executed {
    columns: Option<RcSlice<Column>>,
    next: u8,
}

// Appends the packets of an execution of values that leaves all as it is, where it is within a limit.
#[inline(always)]
fn append_execution(
    alloc: Global,
    state: &State,
    limit: usize,
    id: u32,
    values: &[Value],
    out: &mut Vec<u8>,
) -> Result<Option<Executed>, AllocError>
    requires { state.now.standing.phase ≡ phases.Command }
    ensures { AppendsExecution state.now.standing limit id values.now out.old.items result
        out.new.items }
{
    let Some(statement) = state.statements().get_settled(id) else {
        return Ok(None);
    };
    let columns = shared_columns_of(statement)?;
    let start = out.len();
    out.extend_from_slice(&[0, 0, 0, 0])?;
    if !write_execution(state, statement, id, values, out)? || out.len() - start - 4 > limit {
        return Ok(None);
    }
    let mut spare = Vec::new(alloc);
    let next = frame_in_place(state.number(), start, &mut spare, out)?;
    Ok(Some(Executed { columns, next }))
}

impl BothStreams {
    // A command of the client's is due, and nothing of its stream waits.
    #[tactic(auto, using(crate::proofs::Phases::command_due))]
    pub(crate) fn awaits_command(&self) -> bool
        ensures free { IsTrue result → is_free self.now.world.unread.client ≡ true }
        ensures phase { IsTrue result → self.now.world.standing.phase ≡ phases.Command }
    {
        is_free(&self.client) && matches!(self.state.phase(), Phase::Command)
    }

    // Puts an execution of values that leaves all as it is, but that its reply is due. `false` says
    // nothing of them, and nothing has changed.
    #[inline(always)]
    fn put_settled(&mut self, id: u32, values: &[Value], out: &mut Vec<u8>) -> bool
        requires { kept self.old.world.standing ≤ room_to_keep self.old.world.limits }
        ensures { PutsOrStays self.old (execution_said self.old.world.standing id values.now)
            out.old.items result self.new out.new.items }
    {
        if !self.awaits_command() {
            return false;
        }
        let start = out.len();
        let limit = self.limits.client;
        if let Ok(Some(executed)) = append_execution(
            self.alloc,
            &self.state,
            limit,
            id,
            values,
            out,
        ) {
            let Executed { columns, next } = executed;
            let count = out.len() - start;
            if self.client.can_advance(count) {
                self.state.execute_settled(id, columns);
                self.state.set_number(Side::Client, next);
                self.client.pass(count);
                self.lends = false;
                self.puts_rows = false;
                return true;
            }
        }
        out.truncate(start);
        false
    }

    /// Puts an execution of values.
    #[inline(always)]
    pub fn put_execution(
        &mut self,
        id: u32,
        values: &[Value],
        out: &mut Vec<u8>,
    ) -> Result<(), PutRefusal>
        requires { kept self.old.world.standing ≤ room_to_keep self.old.world.limits }
        ensures { PutsEvent self.old (execution_said self.old.world.standing id values.now)
            out.old.items result self.new out.new.items }
    {
        if self.put_settled(id, values, out) {
            return Ok(());
        }
        self.put_execution_event(id, values, out)
    }

    // The same by way of its event: of types that aren't in force yet, and of long data that waits.
    #[inline(never)]
    fn put_execution_event(
        &mut self,
        id: u32,
        values: &[Value],
        out: &mut Vec<u8>,
    ) -> Result<(), PutRefusal>
        ensures { PutsEvent self.old (execution_said self.old.world.standing id values.now)
            out.old.items result self.new out.new.items }
    {
        let event = execution_event(self.alloc, &self.state, id, values)?;
        self.put(&event, out)
    }
}
