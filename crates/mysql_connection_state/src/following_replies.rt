//! Events of a reply that were read or put, and bytes of a file that it asks for.

ghost use Rattle.std.specs.Prelude.{◌≡◌, ◌<◌, ◌≤◌, ◌^◌, ℕ, IfOk, None, Ok, OnErr, OnOk, false, true};
ghost use Rattle.std.specs.Prelude.{if◌then◌else◌};
ghost use Rattle.std.specs.Option.{option_copied, option_map};
ghost use Rattle.mysql_columns.specs.Extended.{ExtendedDefinition};
ghost use Rattle.mysql_columns.specs.Views.{extended_view};
ghost use Rattle.mysql_reply_events.specs.Behind.{behind, is_column};
ghost use Rattle.mysql_reply_events.specs.Events.{ReplySoFar};
ghost use Rattle.mysql_reply_events.specs.Events.Event.{ColumnEvent, RowEvent};
ghost use Rattle.mysql_reply_events.specs.Reader.{GoesOn};
ghost use Rattle.mysql_reply_events.specs.Table.{event_at, file_data_at};
ghost use Rattle.mysql_reply_events.specs.Views.{event_view as reply_view};
ghost use Rattle.mysql_rows.specs.Rows.{Row};
ghost use Rattle.mysql_rows.specs.Views.{shared_columns};
ghost use Rattle.mysql_connection_rules.specs.Standing.{InReply as StandingReply};
ghost use Rattle.mysql_connection_rules.specs.Standing as phases;
ghost use Rattle.mysql_connection_rules.specs.Steps as steps;
ghost use Rattle.mysql_connection_rules.specs.declared.side.Side.TheVariants.{Client};
ghost use Rattle.mysql_connection_statements.specs.Statements.{change_at, counted, having_columns};
ghost use Rattle.mysql_connection_state.specs.Follows.{AreSizes, Goes, IsPassed};
ghost use Rattle.mysql_connection_state.specs.Follows.{IsReplyReader, Passes, Stays};
ghost use Rattle.mysql_connection_state.specs.Follows.{going_size as going_size_of, kept_behind};
ghost use Rattle.mysql_connection_state.specs.Follows.{next_of, or_of_statement, with_sizes};
ghost use Rattle.mysql_connection_state.specs.Reads.{IsExecuting, told};
ghost use Rattle.mysql_connection_state.specs.Views.{about_view, in_reply_view};

use crate::due::{About, Due, InReply};
use crate::following::{FollowRefusal, fit};
use crate::following_sizes::{going_size, whole_size};
use crate::sizes::{counted_size, sum};
use crate::state::State;
use mysql_bytes::ByteString;
use mysql_columns::{Column, ExtendedColumn};
use mysql_connection_rules::Side;
use mysql_connection_statements::{Pending, Statements};
use mysql_reply_events::laws::events_lead_on;
use mysql_reply_events::{EventReader, ReplyEvent, Turn};
use std::alloc::{AllocError, Global};
use std::mem;
use std::rc::RcSlice;

/// What the columns of a reply take, and how many parameters are still to come.
///
/// They are those of the result before this one, and of this one.
#[derive(Clone, Copy)]
pub struct ColumnSizes {
    pub earlier: usize,
    pub coming: usize,
    pub parameters: u16,
}

// A sum that a usize holds.
fn countable(size: u128) -> Result<(), AllocError>
    ensures { OnOk result (size < 2 ^ 64) }
{
    match usize::try_from(size) {
        Ok(_) => Ok(()),
        Err(_) => Err(AllocError),
    }
}

// A statement is prepared, and its id; a copy of its text is kept, so that all stays where memory
// runs out. Another event says nothing of it.
fn prepared(
    alloc: Global,
    text: &ByteString,
    size: usize,
    more: usize,
    event: &ReplyEvent,
    statements: &mut Statements,
) -> Result<Option<u32>, AllocError>
    ensures statements { OnOk result (statements.new ≡ steps.changed_by
        (phases.Preparing text.now size) more (reply_view event.now) statements.old) }
    ensures about { IfOk result (λ id. steps.about_after (phases.Preparing text.now size)
        (reply_view event.now) ≡ or_of_statement (phases.Preparing text.now size) id) }
    ensures err { OnErr result (statements.new ≡ statements.old) }
{
    match event {
        ReplyEvent::Prepared {
            statement,
            columns_follow: _,
        } => {
            let text = ByteString::copy(alloc, text.as_slice())?;
            let id = statement.statement_id();
            statements.prepared(id, text, statement.num_params(), sum(size, more)?)?;
            Ok(Some(id))
        }
        _ => Ok(None),
    }
}

// An execution is answered, by an error too; a report of progress is no answer.
fn executing(
    pending: Pending,
    event: &ReplyEvent,
    statements: &mut Statements,
) -> Result<About, AllocError>
    ensures statements { OnOk result (statements.new ≡
        steps.changed_by (phases.Executing pending) 0 (reply_view event.now) statements.old) }
    ensures about { IfOk result (λ after. about_view after ≡
        steps.about_after (phases.Executing pending) (reply_view event.now)) }
    ensures err { OnErr result (2 ^ 64 ≤
        (steps.changed_by (phases.Executing pending) 0 (reply_view event.now) statements.old).stored) }
{
    let id = pending.id;
    match event {
        ReplyEvent::Progress(_) => Ok(About::Executing(pending)),
        ReplyEvent::Error(error) => {
            statements.take_back(error.error_code(), pending)?;
            Ok(About::OfStatement(id))
        }
        _ => Ok(About::OfStatement(id)),
    }
}

// An execution is answered: the sum of what is kept then is known to fit.
fn answered(pending: Pending, event: &ReplyEvent, statements: &mut Statements) -> About
    requires { going_size_of (phases.Executing pending) 0 (reply_view event.now) statements.old <
        2 ^ 64 }
    ensures statements { (more : ℕ) → statements.new ≡ steps.changed_by (phases.Executing pending)
        more (reply_view event.now) statements.old }
    ensures about { about_view result ≡
        steps.about_after (phases.Executing pending) (reply_view event.now) }
{
    match executing(pending, event, statements) {
        Ok(about) => about,
        Err(_) => unreachable!(),
    }
}

// What a reply is about behind an event that answers an execution.
fn pass_executing(about: &mut About, event: &ReplyEvent, statements: &mut Statements)
    requires is { IsExecuting (about_view about.old) }
    requires fits { going_size_of (about_view about.old) 0 (reply_view event.now) statements.old <
        2 ^ 64 }
    ensures statements { (more : ℕ) → statements.new ≡ steps.changed_by (about_view about.old)
        more (reply_view event.now) statements.old }
    ensures about { about_view about.new ≡
        steps.about_after (about_view about.old) (reply_view event.now) }
{
    let About::Executing(pending) = mem::replace(about, About::Nothing) else {
        unreachable!()
    };
    *about = answered(pending, event, statements);
}

// The session begins anew.
fn pass_resetting(event: &ReplyEvent, statements: &mut Statements)
    ensures { (more : ℕ) → statements.new ≡
        steps.changed_by phases.Resetting more (reply_view event.now) statements.old }
{
    if let ReplyEvent::Ok(_) = event {
        statements.clear();
    }
}

// What an event changes of the statements and of what the reply is about, all or nothing. The sum of
// what is kept then is known to fit.
fn pass_change(
    alloc: Global,
    about: &mut About,
    more: usize,
    event: &ReplyEvent,
    statements: &mut Statements,
) -> Result<(), AllocError>
    requires { going_size_of (about_view about.old) more (reply_view event.now) statements.old <
        2 ^ 64 }
    ensures statements { OnOk result (statements.new ≡ steps.changed_by (about_view about.old) more
        (reply_view event.now) statements.old) }
    ensures about { OnOk result (about_view about.new ≡
        steps.about_after (about_view about.old) (reply_view event.now)) }
    ensures err { OnErr result ((about.new ≡ about.old) × (statements.new ≡ statements.old)) }
{
    match about {
        About::Preparing { text, size } => {
            if let Some(id) = prepared(alloc, text, *size, more, event, statements)? {
                *about = About::OfStatement(id);
            }
            Ok(())
        }
        About::Executing(_) => {
            pass_executing(about, event, statements);
            Ok(())
        }
        About::Resetting => {
            pass_resetting(event, statements);
            Ok(())
        }
        About::Nothing | About::OfStatement(_) | About::Streaming(_) => Ok(()),
    }
}

// What a reply is about behind a column.
fn pass_column_of(about: &mut About)
    ensures { (column : ExtendedDefinition) → about_view about.new ≡
        steps.about_after (about_view about.old) (ColumnEvent column) }
{
    if let About::Executing(pending) = &*about {
        *about = About::OfStatement(pending.id);
    }
}

// The columns of a statement came: the sum of what is kept then is known to fit.
fn set_columns(statements: &mut Statements, id: u32, columns: Option<RcSlice<Column>>, size: usize)
    requires { (change_at id (having_columns (option_map shared_columns columns) size)
        statements.old).stored < 2 ^ 64 }
    ensures { statements.new ≡
        change_at id (having_columns (option_map shared_columns columns) size) statements.old }
{
    match statements.set_columns(id, columns, size) {
        Ok(()) => {}
        Err(_) => unreachable!(),
    }
}

impl InReply {
    // What its columns take behind a column.
    fn sizes_behind_column(&self, size: usize) -> Result<ColumnSizes, AllocError>
        ensures { IfOk result (λ sizes. (column : ExtendedDefinition) →
            AreSizes sizes (in_reply_view self.now) size (ColumnEvent column)) }
    {
        if self.parameters == 0 {
            return Ok(ColumnSizes {
                earlier: self.earlier,
                coming: sum(self.coming, size)?,
                parameters: 0,
            });
        }
        Ok(ColumnSizes {
            earlier: self.earlier,
            coming: self.coming,
            parameters: self.parameters - 1,
        })
    }

    // What its columns take behind an event whose payload counts so much.
    fn sizes_behind(&self, event: &ReplyEvent, size: usize) -> Result<ColumnSizes, AllocError>
        ensures { IfOk result (λ sizes.
            AreSizes sizes (in_reply_view self.now) size (reply_view event.now)) }
    {
        match event {
            ReplyEvent::ColumnCount {
                count: _,
                columns_follow: true,
            } => Ok(ColumnSizes {
                earlier: self.coming,
                coming: 0,
                parameters: self.parameters,
            }),
            ReplyEvent::Prepared {
                statement,
                columns_follow,
            } => Ok(ColumnSizes {
                earlier: self.earlier,
                coming: self.coming,
                parameters: if *columns_follow {
                    statement.num_params()
                } else {
                    0
                },
            }),
            ReplyEvent::Column(_) => self.sizes_behind_column(size),
            _ => Ok(ColumnSizes {
                earlier: self.earlier,
                coming: self.coming,
                parameters: self.parameters,
            }),
        }
    }

    // Whether it is whole behind an event.
    fn is_whole_behind(&self, event: &ReplyEvent) -> bool
        ensures { result ≡ steps.is_whole (next_of self.now (reply_view event.now)).awaited }
    {
        match self.reader.turn_behind(event) {
            Turn::Nobody => true,
            Turn::Client | Turn::Server => false,
        }
    }

    // What is kept behind an event: the reply is whole then or not, and its columns take so much.
    fn total_behind(
        &self,
        event: &ReplyEvent,
        size: usize,
        statements: &Statements,
        sizes: ColumnSizes,
        whole: bool,
    ) -> u128
        requires sizes { AreSizes sizes (in_reply_view self.now) size (reply_view event.now) }
        requires whole { whole ≡ steps.is_whole (next_of self.now (reply_view event.now)).awaited }
        ensures { result ≡ kept_behind self.now size (reply_view event.now) statements.now }
    {
        if whole {
            return whole_size(statements, &self.about, size, sizes.coming, event);
        }
        let going = going_size(statements, &self.about, size, event);
        going + (sizes.earlier as u128 + sizes.coming as u128)
    }

    // It is behind an event which its reader and what it is about have passed; the sum of what is
    // kept then is known to fit.
    fn end_event(
        &mut self,
        sizes: ColumnSizes,
        columns: Option<RcSlice<Column>>,
        whole: bool,
        statements: &mut Statements,
    )
        requires fits { whole ≡ true → (steps.with_columns (with_sizes sizes (in_reply_view self.old))
            (about_view self.old.about) statements.old).stored < 2 ^ 64 }
        requires columns { whole ≡ true →
            option_map shared_columns columns ≡ self.old.reader.so_far.columns }
        ensures reply { in_reply_view self.new ≡ with_sizes sizes (in_reply_view self.old) }
        ensures reader { self.new.reader ≡ self.old.reader }
        ensures statements { statements.new ≡ (if whole
            then steps.with_columns (with_sizes sizes (in_reply_view self.old))
            (about_view self.old.about) statements.old else statements.old) }
    {
        self.earlier = sizes.earlier;
        self.coming = sizes.coming;
        self.parameters = sizes.parameters;
        if whole {
            if let About::OfStatement(id) = &self.about {
                set_columns(statements, *id, columns, sizes.coming);
            }
        }
    }

    // It goes on behind a column, all or nothing.
    fn write_column(
        &mut self,
        column: &ExtendedColumn,
        size: usize,
        sizes: ColumnSizes,
        whole: bool,
        statements: &mut Statements,
    ) -> Result<(), AllocError>
        requires going { self.old.reader.fault ≡ None }
        requires sizes { AreSizes sizes (in_reply_view self.old) size
            (ColumnEvent (extended_view column.now)) }
        requires whole { whole ≡
            steps.is_whole (next_of self.old (ColumnEvent (extended_view column.now))).awaited }
        requires fits { kept_behind self.old size (ColumnEvent (extended_view column.now))
            statements.old < 2 ^ 64 }
        ensures ok { OnOk result (IsPassed self.old statements.old size
            (ColumnEvent (extended_view column.now)) self.new statements.new) }
        ensures err { OnErr result (Stays self.old statements.old self.new statements.new) }
    {
        let columns = self.reader.pass_column(column)?;
        pass_column_of(&mut self.about);
        self.end_event(sizes, columns, whole, statements);
        Ok(())
    }

    // It goes on behind another event, all or nothing.
    fn write_other(
        &mut self,
        alloc: Global,
        event: &ReplyEvent,
        size: usize,
        sizes: ColumnSizes,
        whole: bool,
        statements: &mut Statements,
    ) -> Result<(), AllocError>
        requires going { self.old.reader.fault ≡ None }
        requires other { is_column (reply_view event.now) ≡ false }
        requires sizes { AreSizes sizes (in_reply_view self.old) size (reply_view event.now) }
        requires whole { whole ≡ steps.is_whole (next_of self.old (reply_view event.now)).awaited }
        requires fits { kept_behind self.old size (reply_view event.now) statements.old < 2 ^ 64 }
        requires change { going_size_of (about_view self.old.about) size (reply_view event.now)
            statements.old < 2 ^ 64 }
        ensures ok { OnOk result (IsPassed self.old statements.old size (reply_view event.now)
            self.new statements.new) }
        ensures err { OnErr result (Stays self.old statements.old self.new statements.new) }
    {
        let columns = self.columns_if(whole)?;
        pass_change(alloc, &mut self.about, size, event, statements)?;
        self.reader.pass(event);
        self.end_event(sizes, columns, whole, statements);
        Ok(())
    }

    // The columns that stand, where it will be whole.
    fn columns_if(&self, whole: bool) -> Result<Option<RcSlice<Column>>, AllocError>
        ensures { whole ≡ true → IfOk result (λ columns.
            option_map shared_columns columns ≡ self.now.reader.so_far.columns) }
    {
        if whole {
            self.reader.share_columns()
        } else {
            Ok(None)
        }
    }

    // It goes on behind a row, as behind most events of a long reply: next to nothing changes.
    fn pass_row(
        &mut self,
        event: &ReplyEvent,
        room: u128,
        statements: &Statements,
    ) -> Result<(), FollowRefusal>
        requires going { self.old.reader.fault ≡ None }
        requires row { (row : Row) × (reply_view event.now ≡ RowEvent row) }
        ensures { (size : ℕ) → Passes self.old statements.now size (reply_view event.now) room
            result self.new statements.now }
    {
        let going = going_size(statements, &self.about, 0, event);
        fit(going + (self.earlier as u128 + self.coming as u128), room)?;
        self.reader.pass(event);
        self.row_came();
        Ok(())
    }

    // It goes on behind an event whose payload counts so much, all or nothing.
    fn pass(
        &mut self,
        alloc: Global,
        event: &ReplyEvent,
        size: usize,
        room: u128,
        statements: &mut Statements,
    ) -> Result<(), FollowRefusal>
        requires { self.old.reader.fault ≡ None }
        ensures { Passes self.old statements.old size (reply_view event.now) room result self.new
            statements.new }
    {
        if let ReplyEvent::Row(_) = event {
            return self.pass_row(event, room, statements);
        }
        let sizes = self.sizes_behind(event, size)?;
        let whole = self.is_whole_behind(event);
        let total = self.total_behind(event, size, statements, sizes, whole);
        fit(total, room)?;
        countable(total)?;
        countable(going_size(statements, &self.about, size, event))?;
        match event {
            ReplyEvent::Column(column) => {
                self.write_column(column, size, sizes, whole, statements)?;
            }
            _ => self.write_other(alloc, event, size, sizes, whole, statements)?,
        }
        Ok(())
    }

    // Bytes of the client's file, or the end of it.
    fn pass_file(&mut self, payload: &[u8])
        requires going { self.old.reader.fault ≡ None }
        requires due { steps.turn_in_reply self.old.reader.so_far.awaited ≡ Client }
        ensures came { (next : ReplySoFar) → file_data_at self.old.reader.so_far
            self.old.reader.so_far.awaited payload.now ≡ Ok next →
            in_reply_view self.new ≡ record (in_reply_view self.old) { so_far = next } }
        ensures goes_on { GoesOn self.old.reader self.new.reader }
    {
        match self.reader.file_data(payload) {
            Ok(()) => {}
            Err(_) => unreachable!(),
        }
    }
}

impl State {
    // What is due once the reply is whole.
    fn end_if_whole(&mut self, event: &ReplyEvent)
        ensures { (r : StandingReply) → self.old.standing.phase ≡ phases.Reply r →
            self.new.standing ≡ told r (reply_view event.now) self.old.standing }
    {
        if self.has_whole_reply() {
            self.end_reply(event);
        }
    }

    // An event of the reply that is due, whose payload counts so much.
    fn pass_event(
        &mut self,
        event: &ReplyEvent,
        size: usize,
        room: u128,
    ) -> Result<(), FollowRefusal>
        ensures goes { (r : StandingReply) → self.old.standing.phase ≡ phases.Reply r →
            Goes self.old (steps.after_event r size (reply_view event.now)
            (behind (steps.context_of self.old.standing r) r.so_far (reply_view event.now))
            self.old.standing) room result self.new }
        ensures err { OnErr result (self.new ≡ self.old) }
    {
        let Due::Reply(reply) = &mut self.due else {
            return Ok(());
        };
        match reply.pass(self.alloc, event, size, room, &mut self.statements) {
            Ok(()) => {
                self.end_if_whole(event);
                Ok(())
            }
            Err(refusal) => Err(refusal),
        }
    }

    /// An event of the reply that is due.
    pub(crate) fn pass_reply(
        &mut self,
        event: &ReplyEvent,
        payload: &[u8],
        room: u128,
    ) -> Result<(), FollowRefusal>
        ensures goes { (r : StandingReply) (next : ReplySoFar) →
            self.old.standing.phase ≡ phases.Reply r →
            event_at (steps.context_of self.old.standing r) r.so_far payload.now ≡
            Ok (reply_view event.now, next) →
            Goes self.old (steps.after_event r (counted payload.now) (reply_view event.now) next
            self.old.standing) room result self.new }
        ensures err { OnErr result (self.new ≡ self.old) }
    {
        events_lead_on();
        self.pass_event(event, counted_size(payload), room)
    }

    // Bytes of the client's file where they are due.
    fn take_file_data(&mut self, payload: &[u8])
        ensures { (r : StandingReply) (next : ReplySoFar) →
            self.old.standing.phase ≡ phases.Reply r →
            file_data_at r.so_far r.so_far.awaited payload.now ≡ Ok next →
            self.new.standing ≡
            steps.in_phase (phases.Reply (record r { so_far = next })) self.old.standing }
    {
        if let Due::Reply(reply) = &mut self.due {
            if reply.side() == Side::Client {
                reply.pass_file(payload);
            }
        }
    }

    /// Bytes of the client's file, or the end of it.
    pub(crate) fn pass_file_data(&mut self, payload: &[u8], room: u128) -> Result<(), FollowRefusal>
        ensures goes { (r : StandingReply) (next : ReplySoFar) →
            self.old.standing.phase ≡ phases.Reply r →
            file_data_at r.so_far r.so_far.awaited payload.now ≡ Ok next →
            Goes self.old (steps.in_phase (phases.Reply (record r { so_far = next }))
            self.old.standing) room result self.new }
        ensures err { OnErr result (self.new ≡ self.old) }
    {
        let Some(size) = self.kept() else {
            return Err(FollowRefusal::Memory);
        };
        fit(size as u128, room)?;
        self.take_file_data(payload);
        Ok(())
    }

    /// The reader of the reply that is due, or of the one that asked for a file that is due.
    ///
    /// Promise: it reads by what stands, and has come as far (`IsReplyReader`).
    ///
    /// MySQL: Client/Server Protocol, "Command Phase".
    pub fn reply_reader(&self) -> Option<&EventReader>
        ensures { IsReplyReader self.now.standing (option_copied result) }
    {
        match &self.due {
            Due::Reply(reply) => Some(&reply.reader),
            _ => None,
        }
    }
}
