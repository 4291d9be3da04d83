//! Commands that were read or put: what is kept behind each, and what changes.

ghost use Rattle.std.specs.Prelude.{◌≡◌, ◌==◌, ◌||◌, ℕ, List, ◌∷◌, None, Some, false};
ghost use Rattle.std.specs.Option.{option_and_then, option_map};
ghost use Rattle.mysql_commands.specs.Views.{command_view};
ghost use Rattle.mysql_connection_rules.specs.Standing as standing;
ghost use Rattle.mysql_connection_rules.specs.Standing.{Standing, kept};
ghost use Rattle.mysql_connection_rules.specs.Steps as steps;
ghost use Rattle.mysql_connection_statements.specs.Statements.{Statement, is_reset};
ghost use Rattle.mysql_connection_statements.specs.Statements.{statement_at};
ghost use Rattle.mysql_rows.specs.Views.{shared_columns};
ghost use Rattle.mysql_connection_state.specs.Follows.{Goes, after_said};
ghost use Rattle.mysql_connection_state.specs.Views.{ConnectionState};
ghost use Rattle.mysql_reply_events.specs.declared.context.ReplyKind.TheVariants as kinds;

use crate::due::About;
use crate::executions::{
    carried_types, id_in_question, is_unagreed_bulk, refused_as, shared_columns_of,
};
use crate::following::{FollowRefusal, fit};
use crate::sizes::counted_size;
use crate::state::State;
use mysql_columns::Column;
use mysql_commands::Command;
use mysql_executions::{BoundType, Refused};
use mysql_reply_events::ReplyKind;
use std::rc::RcSlice;

impl State {
    // How much is kept for the statements behind long data.
    fn size_with_data(&self, id: Option<u32>, payload: &[u8], command: &Command) -> u128
        ensures { result ≡ (steps.after_data id payload.now (command_view command.now)
            self.now.standing).statements.stored }
    {
        let Some(id) = id else {
            return self.statements.stored() as u128;
        };
        match command {
            Command::LongData {
                stmt_id: _,
                place,
                bytes: _,
            } => self
                .statements
                .size_with_long_data(id, *place, counted_size(payload)),
            _ => self.statements.stored() as u128,
        }
    }

    // How much is kept for the statements once one of them is closed.
    fn size_closed(&self, id: Option<u32>) -> u128
        ensures { result ≡ (steps.closing id self.now.standing).statements.stored }
    {
        match id {
            Some(id) => self.statements.size_closed(id),
            None => self.statements.stored() as u128,
        }
    }

    // How much is kept for the statements once one of them is reset.
    fn size_reset(&self, id: Option<u32>) -> u128
        ensures { result ≡ (steps.changing is_reset id self.now.standing).statements.stored }
    {
        match id {
            Some(id) => self.statements.size_reset(id),
            None => self.statements.stored() as u128,
        }
    }

    // How much is kept behind a command that is no execution, by its number.
    fn size_behind(&self, number: u8, payload: &[u8], command: &Command) -> u128
        requires { ((number == 0x17) || (number == 0xfa)) ≡ false }
        ensures { (body : List ℕ) → result ≡ kept (steps.by_number number body
            (steps.id_in_question self.now.standing.statements payload.now)
            (steps.statement_in_question self.now.standing.statements payload.now)
            payload.now (command_view command.now) self.now.standing) }
    {
        let id = id_in_question(&self.statements, payload);
        let stored = self.statements.stored() as u128;
        match number {
            0x01 => stored,
            0x11 => 0,
            0x16 => stored + counted_size(payload) as u128,
            0x18 => self.size_with_data(id, payload, command),
            0x19 => self.size_closed(id),
            0x1a => self.size_reset(id),
            0x1c => stored,
            _ => stored,
        }
    }

    // Only a reply is due, behind an execution of a statement that isn't known, or a bulk one that isn't in
    // force.
    fn pass_unknown(&mut self, room: u128) -> Result<(), FollowRefusal>
        ensures { Goes self.old (steps.reply_due kinds.Binary None standing.Nothing
            self.old.standing) room result self.new }
    {
        fit(self.statements.stored() as u128, room)?;
        self.await_reply(ReplyKind::Binary, None, About::Nothing);
        Ok(())
    }

    // An execution of the statement of this id, which is known and last had these columns.
    #[tactic(auto, using(crate::proofs::Executing::kept_executing))]
    fn pass_executing(
        &mut self,
        id: u32,
        columns: Option<RcSlice<Column>>,
        refused: Refused,
        types: &[BoundType],
        room: u128,
    ) -> Result<(), FollowRefusal>
        ensures { (statement : Statement) →
            statement_at self.old.standing.statements id ≡ Some statement →
            option_map shared_columns columns ≡ statement.columns →
            Goes self.old (steps.after_executing id statement refused types.now self.old.standing)
            room result self.new }
    {
        fit(self.statements.size_executing(id, types), room)?;
        self.executing(id, columns, refused, types)?;
        Ok(())
    }

    // An execution.
    fn pass_execution(
        &mut self,
        number: u8,
        body: &[u8],
        id: Option<u32>,
        room: u128,
    ) -> Result<(), FollowRefusal>
        ensures { Goes self.old (steps.execution_of number body.now id
            (option_and_then (statement_at self.old.standing.statements) id) self.old.standing) room
            result self.new }
    {
        if is_unagreed_bulk(self.capabilities, number) {
            return self.pass_unknown(room);
        }
        let Some(id) = id else {
            return self.pass_unknown(room);
        };
        let Some(statement) = self.statements.get(id) else {
            return self.pass_unknown(room);
        };
        let count = statement.parameters().count();
        let columns = shared_columns_of(statement)?;
        let types = carried_types(self.alloc, self.capabilities, number, count, body)?;
        self.pass_executing(
            id,
            columns,
            refused_as(number, body),
            types.as_slice(),
            room,
        )
    }

    // A command, by its number.
    fn pass_by_number(
        &mut self,
        number: u8,
        body: &[u8],
        payload: &[u8],
        command: &Command,
        room: u128,
    ) -> Result<(), FollowRefusal>
        ensures { Goes self.old (steps.by_number number body.now
            (steps.id_in_question self.old.standing.statements payload.now)
            (steps.statement_in_question self.old.standing.statements payload.now)
            payload.now (command_view command.now) self.old.standing) room result self.new }
    {
        match number {
            0x17 | 0xfa => {
                let id = id_in_question(&self.statements, payload);
                self.pass_execution(number, body, id, room)
            }
            _ => {
                fit(self.size_behind(number, payload, command), room)?;
                self.by_number(number, payload, command)?;
                Ok(())
            }
        }
    }

    /// A command; an empty payload is one too.
    pub(crate) fn pass_command(
        &mut self,
        command: &Command,
        payload: &[u8],
        room: u128,
    ) -> Result<(), FollowRefusal>
        ensures { Goes self.old
            (steps.after_command self.old.standing payload.now (command_view command.now)) room
            result self.new }
    {
        match payload {
            [] => {
                fit(self.statements.stored() as u128, room)?;
                self.await_reply(ReplyKind::Plain, None, About::Nothing);
                Ok(())
            }
            [number, body @ ..] => self.pass_by_number(*number, body, payload, command, room),
        }
    }

    // A query, whatever it says: only its reply is due.
    fn pass_text(&mut self, room: u128) -> Result<(), FollowRefusal>
        ensures { Goes self.old (steps.reply_due kinds.Text None standing.Nothing
            self.old.standing) room result self.new }
    {
        fit(self.statements.stored() as u128, room)?;
        self.await_reply(ReplyKind::Text, None, About::Nothing);
        Ok(())
    }

    // A query.
    fn pass_query(&mut self, text: &[u8], payload: &[u8], room: u128) -> Result<(), FollowRefusal>
        ensures { payload.now ≡ 0x03 ∷ text.now →
            Goes self.old (after_said self.old.standing payload.now) room result self.new }
    {
        self.pass_text(room)
    }

    // An execution, by its number: what it says beside the fields in front changes nothing, so that its
    // values aren't read.
    fn pass_unread(
        &mut self,
        number: u8,
        body: &[u8],
        payload: &[u8],
        room: u128,
    ) -> Result<(), FollowRefusal>
        ensures { Goes self.old (steps.execution_of number body.now
            (steps.id_in_question self.old.standing.statements payload.now)
            (steps.statement_in_question self.old.standing.statements payload.now)
            self.old.standing) room result self.new }
    {
        let id = id_in_question(&self.statements, payload);
        self.pass_execution(number, body, id, room)
    }

    // An execution.
    fn pass_execute(&mut self, body: &[u8], payload: &[u8], room: u128) -> Result<(), FollowRefusal>
        ensures { payload.now ≡ 0x17 ∷ body.now →
            Goes self.old (after_said self.old.standing payload.now) room result self.new }
    {
        self.pass_unread(0x17, body, payload, room)
    }

    // A bulk execution.
    fn pass_bulk(&mut self, body: &[u8], payload: &[u8], room: u128) -> Result<(), FollowRefusal>
        ensures { payload.now ≡ 0xfa ∷ body.now →
            Goes self.old (after_said self.old.standing payload.now) room result self.new }
    {
        self.pass_unread(0xfa, body, payload, room)
    }

    // A command, which is read.
    #[inline(never)]
    fn pass_read(&mut self, payload: &[u8], room: u128) -> Result<(), FollowRefusal>
        ensures { Goes self.old (after_said self.old.standing payload.now) room result self.new }
    {
        let command = self.boxed_command(payload)?;
        let said: &Command = &command;
        self.pass_command(said, payload, room)
    }

    /// Goes on behind a command of this payload, whatever it says.
    ///
    /// So much room there is for what is kept. The number of the next packet stays as it is, as by
    /// [`State::follow`].
    ///
    /// Promise: exactly that stands which reading the command would leave, or nothing changes (`Goes`,
    /// `after_said`).
    ///
    /// # Errors
    /// - `Held` where more would be kept than there is room for.
    /// - `Memory`.
    ///
    /// After an error the state is as it was.
    ///
    /// MySQL: Client/Server Protocol, "Command Phase".
    pub fn follow_command(&mut self, payload: &[u8], room: u128) -> Result<(), FollowRefusal>
        ensures { Goes self.old (after_said self.old.standing payload.now) room result self.new }
    {
        match payload {
            [0x03, text @ ..] => self.pass_query(text, payload, room),
            [0x17, body @ ..] => self.pass_execute(body, payload, room),
            [0xfa, body @ ..] => self.pass_bulk(body, payload, room),
            _ => self.pass_read(payload, room),
        }
    }
}
