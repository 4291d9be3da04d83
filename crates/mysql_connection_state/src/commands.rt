//! Commands: what each says, changes, and what is due behind it.

ghost use Rattle.std.specs.Prelude.{◌≡◌, ◌==◌, ◌||◌, IfOk, List, None, OnErr, OnOk, false, option_map, ℕ};
ghost use Rattle.std.specs.Option.{option_and_then};
ghost use Rattle.mysql_auth.specs.Views.{plugin_view};
ghost use Rattle.mysql_commands.specs.Views.{command_view};
ghost use Rattle.mysql_rows.specs.Views.{shared_columns};
ghost use Rattle.mysql_connection_rules.specs.Standing as standing;
ghost use Rattle.mysql_connection_rules.specs.Steps as steps;
ghost use Rattle.mysql_connection_statements.specs.Statements.{is_reset, statement_at};
ghost use Rattle.mysql_connection_state.specs.Views.{about_view};
ghost use Rattle.mysql_reply_events.specs.declared.context.ReplyKind.TheVariants as kinds;

use crate::due::{About, Due, InReply};
use crate::executions::{id_in_question, shared_columns_of, statement_of};
use crate::sizes::counted_size;
use crate::state::State;
use mysql_auth::AuthPlugin;
use mysql_bytes::ByteString;
use mysql_columns::Column;
use mysql_commands::{Command, Reply};
use mysql_connection_rules::{Exchange, Reason};
use mysql_reply_events::{EventReader, ReplyKind};
use std::alloc::{AllocError, Global};
use std::rc::RcSlice;

// The plugin that a change of user names.
fn changed_plugin(
    alloc: Global,
    command: &Command,
) -> Result<Option<AuthPlugin<'static>>, AllocError>
    ensures { IfOk result (λ plugin. option_map plugin_view plugin ≡
        steps.changed_plugin (command_view command.now)) }
{
    let Command::ChangeUser(login) = command else {
        return Ok(None);
    };
    let Some(more) = login.more_data() else {
        return Ok(None);
    };
    match more.auth_plugin() {
        Some(plugin) => Ok(Some(plugin.clone(alloc)?)),
        None => Ok(None),
    }
}

// A change of user that is its number alone is another exchange: MariaDB greets anew behind it.
fn exchange_of(payload: &[u8]) -> Exchange
    ensures { result ≡ steps.exchange_of payload.now }
{
    match payload {
        [_] => Exchange::BareChange,
        _ => Exchange::ChangeUser,
    }
}

// The text that is prepared.
fn text_of(alloc: Global, command: &Command) -> Result<ByteString, AllocError>
    ensures { IfOk result (λ text. text ≡ steps.text_of (command_view command.now)) }
{
    match command {
        Command::Prepare(sql) => ByteString::copy(alloc, sql.as_slice()),
        _ => ByteString::copy(alloc, &[]),
    }
}

// The kind of the reply, where a command changes nothing before it.
fn kind_of(form: Reply) -> ReplyKind
    ensures { result ≡ steps.kind_of form }
{
    match form {
        Reply::Text => ReplyKind::Text,
        Reply::Binary => ReplyKind::Binary,
        Reply::Prepared => ReplyKind::Prepare,
        Reply::Line | Reply::First => ReplyKind::Line,
        Reply::Columns => ReplyKind::FieldList,
        Reply::Rows => ReplyKind::Fetch,
        Reply::Missing | Reply::Plain | Reply::Authentication => ReplyKind::Plain,
    }
}

// What the reply is about, where a command is about no statement.
fn about_by(number: u8) -> About
    ensures { about_view result ≡ steps.about_by number }
{
    if number == 0x1f {
        About::Resetting
    } else if number == 0x20 {
        About::Streaming(Reason::Clone)
    } else if number == 0x12 || number == 0x13 || number == 0x1e {
        About::Streaming(Reason::Dump)
    } else {
        About::Nothing
    }
}

impl State {
    /// A reply is due, of which no payload came.
    pub(crate) fn await_reply(
        &mut self,
        kind: ReplyKind,
        columns: Option<RcSlice<Column>>,
        about: About,
    )
        ensures { self.new.standing ≡ steps.reply_due kind (option_map shared_columns columns)
            (about_view about) self.old.standing }
    {
        let reader = EventReader::new(self.alloc, kind, self.capabilities, columns);
        self.set_due(Due::Reply(InReply {
            reader,
            about,
            earlier: 0,
            coming: 0,
            parameters: 0,
        }));
    }

    // Another user logs in: no statement stays, whatever the answer.
    fn change_user(&mut self, payload: &[u8], command: &Command) -> Result<(), AllocError>
        ensures ok { OnOk result (self.new.standing ≡
            steps.after_change payload.now (command_view command.now) self.old.standing) }
        ensures err { OnErr result (self.new ≡ self.old) }
    {
        self.plugin = changed_plugin(self.alloc, command)?;
        self.statements.clear();
        self.set_due(Due::Authentication(exchange_of(payload)));
        Ok(())
    }

    // A statement is prepared.
    fn prepare(&mut self, payload: &[u8], command: &Command) -> Result<(), AllocError>
        ensures ok { OnOk result (self.new.standing ≡
            steps.after_prepare payload.now (command_view command.now) self.old.standing) }
        ensures err { OnErr result (self.new ≡ self.old) }
    {
        let text = text_of(self.alloc, command)?;
        let size = counted_size(payload);
        self.statements.forget_last();
        self.await_reply(ReplyKind::Prepare, None, About::Preparing { text, size });
        Ok(())
    }

    // Long data for a parameter, which has no reply.
    fn long_data(
        &mut self,
        id: Option<u32>,
        payload: &[u8],
        command: &Command,
    ) -> Result<(), AllocError>
        ensures ok { OnOk result (self.new.standing ≡ steps.in_phase standing.Command
            (steps.after_data id payload.now (command_view command.now) self.old.standing)) }
        ensures err { OnErr result (self.new ≡ self.old) }
    {
        self.keep_data(id, payload, command)?;
        self.set_due(Due::Command);
        Ok(())
    }

    // Long data waits for the statement's next execution.
    fn keep_data(
        &mut self,
        id: Option<u32>,
        payload: &[u8],
        command: &Command,
    ) -> Result<(), AllocError>
        ensures ok { OnOk result (self.new.standing ≡
            steps.after_data id payload.now (command_view command.now) self.old.standing) }
        ensures err { OnErr result (self.new ≡ self.old) }
    {
        let Some(id) = id else {
            return Ok(());
        };
        let Command::LongData {
            stmt_id: _,
            place,
            bytes,
        } = command
        else {
            return Ok(());
        };
        let size = counted_size(payload);
        self.statements
            .add_long_data(id, *place, bytes.as_slice(), size)
    }

    // A statement goes, without a reply.
    fn close(&mut self, id: Option<u32>)
        ensures { self.new.standing ≡ steps.in_phase standing.Command (steps.closing id self.old.standing) }
    {
        self.set_due(Due::Command);
        if let Some(id) = id {
            self.statements.close(id);
        }
    }

    // A statement's long data go.
    fn reset(&mut self, id: Option<u32>) -> Result<(), AllocError>
        ensures ok { OnOk result (self.new.standing ≡ steps.reply_due kinds.Plain None
            standing.Nothing (steps.changing is_reset id self.old.standing)) }
        ensures err { OnErr result (self.new ≡ self.old) }
    {
        if let Some(id) = id {
            self.statements.reset(id)?;
        }
        self.await_reply(ReplyKind::Plain, None, About::Nothing);
        Ok(())
    }

    // Rows of an open cursor, under the columns that the statement last had.
    fn fetch(&mut self, id: Option<u32>) -> Result<(), AllocError>
        ensures ok { OnOk result (self.new.standing ≡ steps.reply_due kinds.Fetch
            (option_and_then (λ x. x.columns)
            (option_and_then (statement_at self.old.standing.statements) id))
            standing.Nothing self.old.standing) }
        ensures err { OnErr result (self.new ≡ self.old) }
    {
        let columns = match statement_of(&self.statements, id) {
            Some(statement) => shared_columns_of(statement)?,
            None => None,
        };
        self.await_reply(ReplyKind::Fetch, columns, About::Nothing);
        Ok(())
    }

    // A command that changes nothing before its reply.
    fn other(&mut self, number: u8, payload: &[u8])
        ensures { self.new.standing ≡ steps.after_other number payload.now self.old.standing }
    {
        let kind = kind_of(Command::reply(payload));
        self.await_reply(kind, None, about_by(number));
    }

    /// What a command that is no execution changes, and what is due behind it, by its number.
    pub(crate) fn by_number(
        &mut self,
        number: u8,
        payload: &[u8],
        command: &Command,
    ) -> Result<(), AllocError>
        requires { ((number == 0x17) || (number == 0xfa)) ≡ false }
        ensures ok { OnOk result ((body : List ℕ) → self.new.standing ≡ steps.by_number number body
            (steps.id_in_question self.old.standing.statements payload.now)
            (steps.statement_in_question self.old.standing.statements payload.now)
            payload.now (command_view command.now) self.old.standing) }
        ensures err { OnErr result (self.new ≡ self.old) }
    {
        let id = id_in_question(&self.statements, payload);
        match number {
            0x01 => {
                self.set_due(Due::Over(Reason::Quit));
                Ok(())
            }
            0x11 => self.change_user(payload, command),
            0x16 => self.prepare(payload, command),
            0x18 => self.long_data(id, payload, command),
            0x19 => {
                self.close(id);
                Ok(())
            }
            0x1a => self.reset(id),
            0x1c => self.fetch(id),
            _ => {
                self.other(number, payload);
                Ok(())
            }
        }
    }
}
