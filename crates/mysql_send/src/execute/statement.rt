//! A query as a statement, and its prepare.

ghost use Rattle.std.specs.Cow.{cow_slice_items};
ghost use Rattle.std.specs.Prelude.{◌≡◌, ◌≤◌, IfErr, IfOk, OnOk, length, map, take};
ghost use Rattle.mysql_values.specs.Sql.{read_by, read_by_default};
ghost use Rattle.mysql_send.specs.Making.{IsMade, IsNotMade};
ghost use Rattle.mysql_send.specs.Statement.{AppendsPrepare, IsStatement, RefusesPrepare};

use mysql_bytes::{Mode, Spelling};
use mysql_command_rules::Refusal;
use mysql_command_rules::in_turn::sent_in_turn;
use mysql_const::Command;
use mysql_queries::ParsedQuery;
use mysql_values::laws::tokens_of_a_text;
use mysql_wire::frame_in_place;
use std::alloc::Global;
use std::borrow::CowSlice;
use std::marker::Model;

/// A query as a statement that is sent: what is found of it once.
///
/// That is its text with a question mark for each placeholder, and the number that the server gives
/// it.
#[derive(Drop)]
pub struct Statement<'q> {
    query: ParsedQuery<'q>,
    marked: CowSlice<'q, u8>,
    id: u32,
}

impl<'q> Model for Statement<'q> {
    ghost use Rattle.mysql_send.specs.Statement.{SentStatement};

    ghost Value = { SentStatement };

    ghost use Rattle.mysql_send.specs.Inside.{IsFound, sent_statement};

    ghost view = { sent_statement };

    ghost invariant = { IsFound };
}

impl<'q> Statement<'q> {
    /// The query of this text, for a server in the default mode, as a statement with this id.
    ///
    /// It may be one that can't be prepared.
    ///
    /// # Errors
    /// `Mixed`; `Memory` where a growth was refused.
    ///
    /// MySQL: Client/Server Protocol, "COM_STMT_PREPARE".
    pub fn new(alloc: Global, text: &'q [u8], id: u32) -> Result<Statement<'q>, Refusal>
        ensures made { IfOk result (IsMade (read_by_default text.entry.now) id) }
        ensures refused { IfErr result (IsNotMade (read_by_default text.entry.now) id) }
    {
        Statement::new_in(alloc, text, id, Mode::default(), Spelling::Quoted)
    }

    /// The query of this text, for a server in this mode, as a statement with this id.
    ///
    /// Texts that are made of it have byte strings in this spelling. It may be one that can't be prepared.
    ///
    /// # Errors
    /// `Mixed`; `Memory` where a growth was refused.
    ///
    /// MySQL: Client/Server Protocol, "COM_STMT_PREPARE"; MySQL Reference Manual, "Server SQL Modes".
    pub fn new_in(
        alloc: Global,
        text: &'q [u8],
        id: u32,
        mode: Mode,
        spelling: Spelling,
    ) -> Result<Statement<'q>, Refusal>
        ensures made { IfOk result (IsMade (read_by mode spelling text.entry.now) id) }
        ensures refused { IfErr result (IsNotMade (read_by mode spelling text.entry.now) id) }
    {
        tokens_of_a_text();
        sent_in_turn();
        let query = ParsedQuery::new_in(alloc, text, mode, spelling)?;
        if query.is_mixed() {
            return Err(Refusal::Mixed);
        }
        // For the proof alone: the call tells what the names are.
        let _names = query.names();
        let marked = query.with_marks(alloc)?;
        Ok(Statement { query, marked, id })
    }

    /// What was found of its query.
    pub fn query(&self) -> &ParsedQuery<'q>
        ensures text { result.now.sql ≡ self.now.sql }
        ensures count { length result.now.places ≡ self.now.places }
    {
        &self.query
    }

    /// The text of its query, in which not both names and question marks occur.
    pub fn text(&self) -> &[u8]
        ensures text { result.now ≡ self.now.sql.text }
        ensures is { IsStatement self.now.sql self.now.parsed self.now.places }
    {
        self.query.text()
    }

    /// The text with a question mark for each placeholder.
    pub fn marked(&self) -> &[u8]
        ensures { result.now ≡ self.now.parsed.query }
    {
        self.marked.as_slice()
    }

    /// The names of its placeholders, in order.
    pub fn names(&self) -> &[CowSlice<'q, u8>]
        ensures { map cow_slice_items result.now ≡ self.now.parsed.names }
    {
        self.query.names()
    }

    /// How many placeholders it has.
    pub fn place_count(&self) -> usize
        ensures count { result ≡ self.now.places }
        ensures is { IsStatement self.now.sql self.now.parsed self.now.places }
    {
        self.query.places().len()
    }

    /// The number that the server gives it.
    pub fn id(&self) -> u32
        ensures { result ≡ self.now.id }
    {
        self.id
    }
}

/// Appends the prepare of a statement, framed and numbered from 0, of at most `room` bytes. After a
/// refusal what stood before stands in front of `out`.
///
/// # Errors
/// `TooManyPlaces`, `PrepareTooLarge`; `Memory` where a growth was refused.
///
/// MySQL: Client/Server Protocol, "COM_STMT_PREPARE".
pub fn put_prepare(
    alloc: Global,
    statement: &Statement<'_>,
    room: usize,
    out: &mut Vec<u8>,
) -> Result<(), Refusal>
    ensures few { OnOk result (statement.now.places ≤ 65535) }
    ensures ok { OnOk result (AppendsPrepare statement.now.sql statement.now.id room out.old.items out.new.items) }
    ensures err { IfErr result (RefusesPrepare statement.now.sql statement.now.id room) }
    ensures kept { take (length out.old.items) out.new.items ≡ out.old.items }
{
    let marked = statement.marked.as_slice();
    // The number of parameters has two bytes.
    if statement.place_count() > 65535 {
        return Err(Refusal::TooManyPlaces);
    }
    if marked.len() >= room {
        return Err(Refusal::PrepareTooLarge);
    }
    let start = out.len();
    out.reserve(marked.len() + 5)?;
    out.extend_from_slice(&[0, 0, 0, 0, Command::COM_STMT_PREPARE as u8])?;
    out.extend_from_slice(marked)?;
    frame_in_place(0, start, &mut Vec::new(alloc), out)?;
    Ok(())
}
