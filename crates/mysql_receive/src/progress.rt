//! What a receiver has read.

ghost use Rattle.std.specs.Prelude.{◌≡◌, ◌+◌, ◌<◌, OnErr};
ghost use Rattle.mysql_receive.specs.Query.{IsQuery};
ghost use Rattle.mysql_receive.specs.Views.{statement_view, sets_of};

use crate::fault::StreamFault;
use crate::read_error::ReadError;
use crate::statement::{Statement, StatementState};
use crate::step::step;
use mysql_values::Content;
use std::alloc::Global;

/// What was read so far, and what is in force behind it.
#[derive(Drop)]
pub struct Progress {
    pub state: StatementState,
    pub sets: Vec<Vec<Content>>,
    pub count: u64,
}

impl Progress {
    ghost use Rattle.mysql_receive.specs.Steps.{OneBy};

    /// Reads the next payload. A refusal changes neither the sets nor the count.
    pub fn read_one(
        &mut self,
        alloc: Global,
        statement: &Statement,
        payload: &[u8],
    ) -> Result<(), ReadError>
        requires { IsQuery (statement_view statement.now).query }
        ensures by { OneBy (statement_view statement.now) self.old payload.now self.new result }
        ensures sets { OnErr result (sets_of self.new.sets.items ≡ sets_of self.old.sets.items) }
        ensures count { OnErr result (self.new.count ≡ self.old.count) }
    {
        if self.count == u64::MAX {
            return Err(ReadError::Fault(StreamFault::TooLarge));
        }
        let more = step(alloc, statement, &mut self.state, payload)?;
        more.append_to(&mut self.sets)?;
        self.count += 1;
        Ok(())
    }
}
