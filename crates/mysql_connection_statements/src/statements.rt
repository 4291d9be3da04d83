//! The prepared statements of a connection by their ids.

ghost use Rattle.std.specs.Prelude.{◌≡◌, ◌<◌, ◌≤◌, ◌^◌, Option, IfOk, IfSome, OnErr, OnOk};
ghost use Rattle.std.specs.Prelude.{if◌then◌else◌, Some, None, nat_lt};
ghost use Rattle.std.specs.Option.{option_and_then, option_copied, option_map};
ghost use Rattle.mysql_rows.specs.Views.{shared_columns};
ghost use Rattle.mysql_connection_statements.specs.Settled.{IsSettledAt};
ghost use Rattle.mysql_connection_statements.specs.Statements.{after_close, after_prepared};
ghost use Rattle.mysql_connection_statements.specs.Statements.{change_at, executed};
ghost use Rattle.mysql_connection_statements.specs.Statements.{forgetting_last, having_columns};
ghost use Rattle.mysql_connection_statements.specs.Statements.{is_reset, no_statements, pending_of};
ghost use Rattle.mysql_connection_statements.specs.Statements.{pending_size, prepared_as, resolved};
ghost use Rattle.mysql_connection_statements.specs.Statements.{statement_at, stored_size};
ghost use Rattle.mysql_connection_statements.specs.Statements.{unless_it as last_unless};
ghost use Rattle.mysql_connection_statements.specs.Statements.{taken_back, with_long_data};

use crate::pending::Pending;
use crate::sizes::{changed_sum, with_part};
use crate::statement::Statement;
use mysql_bytes::ByteString;
use mysql_columns::Column;
use mysql_executions::{BoundType, Refused};
use std::alloc::{AllocError, Global};
use std::collections::BTreeMap;
use std::marker::Model;
use std::rc::RcSlice;

/// The id that stands for the statement that was prepared last.
const LAST_PREPARED: u32 = 0xffff_ffff;

/// The prepared statements of a connection by their ids.
///
/// It also has which of them was prepared last, and how much is kept for all of them. Each call
/// takes time that grows with the logarithm of their number, beside what it copies. For long data it
/// also grows with the logarithm of how many parameters have some.
///
/// Contracts see the list of the ids with their statements, in the order of the ids, the last one's
/// id and the sum (`Statements`). Follows "Prepared Statements" of the client/server protocol documentation, and
/// "COM_STMT_EXECUTE" (statement id) of MariaDB's.
///
/// Where a call answers an error for want of memory, or since a sum is too large, nothing changes.
#[derive(Drop)]
pub struct Statements {
    alloc: Global,
    by_id: BTreeMap<u32, Statement>,
    last: Option<u32>,
    stored: usize,
}

impl Model for Statements {
    ghost use Rattle.mysql_connection_statements.specs.Statements as standing;

    ghost Value = { standing.Statements };

    ghost view = { λ s. record { by_id = s.by_id.entries; last = s.last; stored = s.stored } };
}

impl Statements {
    /// No statements.
    pub fn new(alloc: Global) -> Statements
        ensures { result ≡ no_statements }
    {
        Statements {
            alloc,
            by_id: BTreeMap::new(alloc),
            last: None,
            stored: 0,
        }
    }

    /// The statement of this id.
    pub fn get(&self, id: u32) -> Option<&Statement>
        ensures { option_copied result ≡ statement_at self.now id }
    {
        self.by_id.get(&id)
    }

    /// The statement of this id, where an execution of it that carries no types leaves all as it is.
    ///
    /// `None` says nothing of it.
    pub fn get_settled(&self, id: u32) -> Option<&Statement>
        ensures { IfSome result (λ statement. IsSettledAt self.now id statement.now) }
    {
        // The contract of the map's length says that its ids ascend.
        if id == LAST_PREPARED || self.by_id.len() == 0 {
            return None;
        }
        let statement = self.by_id.get(&id)?;
        if statement.is_settled() && statement.size() <= self.stored as u128 {
            Some(statement)
        } else {
            None
        }
    }

    /// The id that this one stands for: 0xffffffff for that of the statement prepared last, if one
    /// was.
    pub fn resolve(&self, id: u32) -> Option<u32>
        ensures { result ≡ resolved self.now id }
    {
        if id == LAST_PREPARED {
            self.last
        } else {
            Some(id)
        }
    }

    /// How much is kept for all statements.
    ///
    /// That is of each payload its length and 4, and 2 for each type in force.
    pub fn stored(&self) -> usize
        ensures { result ≡ self.now.stored }
    {
        self.stored
    }

    /// What is kept for the statement of this id.
    pub(crate) fn size_at(&self, id: u32) -> u128
        ensures size { result ≡ stored_size (statement_at self.now id) }
        ensures small { result < 2 ^ 67 }
    {
        match self.by_id.get(&id) {
            Some(statement) => statement.size(),
            None => 0,
        }
    }

    /// A prepare comes: no statement was prepared last until its reply.
    pub fn forget_last(&mut self)
        ensures { self.new ≡ forgetting_last self.old }
    {
        self.last = None;
    }

    /// A statement of this text was prepared: it has this id and so many parameters. So much is
    /// kept of the payloads.
    ///
    /// # Errors
    /// - `AllocError` for want of memory, and where the sum of what is kept is too large.
    pub fn prepared(
        &mut self,
        id: u32,
        text: ByteString,
        count: u16,
        size: usize,
    ) -> Result<(), AllocError>
        ensures ok { OnOk result (self.new ≡
            after_prepared id (prepared_as text count size) self.old) }
        ensures err { OnErr result (self.new ≡ self.old) }
    {
        let before = self.size_at(id);
        let statement = Statement::new(self.alloc, text, count, size);
        let stored = with_part(self.stored, before, statement.size())?;
        self.by_id.insert(id, statement)?;
        self.stored = stored;
        self.last = Some(id);
        Ok(())
    }

    /// The statement of this id is closed.
    pub fn close(&mut self, id: u32)
        ensures { self.new ≡ after_close id self.old }
    {
        let size = self.size_at(id);
        self.by_id.remove(&id);
        self.last = unless_it(id, self.last);
        self.stored = (self.stored as u128).saturating_sub(size) as usize;
    }

    /// All statements are closed, as by a reset of the connection or a change of user.
    pub fn clear(&mut self)
        ensures { self.new ≡ no_statements }
    {
        self.by_id.clear();
        self.last = None;
        self.stored = 0;
    }

    /// An execution of the statement of this id comes, which carries these types and is refused so.
    ///
    /// It answers what an error takes back; None of a statement that isn't known or is broken.
    ///
    /// # Errors
    /// - `AllocError` for want of memory, and where the sum of what is kept is too large.
    pub fn execute(
        &mut self,
        id: u32,
        refused: Refused,
        types: &[BoundType],
    ) -> Result<Option<Pending>, AllocError>
        ensures pending { IfOk result (λ pending. pending ≡
            option_and_then (pending_of id refused types.now) (statement_at self.old id)) }
        ensures ok { OnOk result (self.new ≡ change_at id (executed types.now) self.old) }
        ensures err { OnErr result (self.new ≡ self.old) }
    {
        let alloc = self.alloc;
        let Some(statement) = self.by_id.get_mut(&id) else {
            return Ok(None);
        };
        let after = statement.size_executed(types);
        let stored = with_part(self.stored, statement.size(), after)?;
        let pending = statement.execute(alloc, id, refused, types)?;
        self.stored = stored;
        Ok(pending)
    }

    /// Long data for a parameter of the statement of this id comes, in a payload of this size.
    ///
    /// # Errors
    /// - `AllocError` for want of memory, and where the sum of what is kept is too large.
    pub fn add_long_data(
        &mut self,
        id: u32,
        place: u16,
        bytes: &[u8],
        size: usize,
    ) -> Result<(), AllocError>
        ensures ok { OnOk result (self.new ≡
            change_at id (with_long_data place bytes.now size) self.old) }
        ensures err { OnErr result (self.new ≡ self.old) }
    {
        let alloc = self.alloc;
        let Some(statement) = self.by_id.get_mut(&id) else {
            return Ok(());
        };
        let after = statement.size_with_long_data(place, size);
        let stored = with_part(self.stored, statement.size(), after)?;
        statement.add_long_data(alloc, place, bytes, size)?;
        self.stored = stored;
        Ok(())
    }

    /// A reset of the statement of this id comes.
    ///
    /// # Errors
    /// - `AllocError` where the sum of what is kept is too large.
    pub fn reset(&mut self, id: u32) -> Result<(), AllocError>
        ensures ok { OnOk result (self.new ≡ change_at id is_reset self.old) }
        ensures err { OnErr result (2 ^ 64 ≤ (change_at id is_reset self.old).stored) }
        ensures unchanged { OnErr result (self.new ≡ self.old) }
    {
        let Some(statement) = self.by_id.get_mut(&id) else {
            return Ok(());
        };
        let stored = with_part(self.stored, statement.size(), statement.size_reset())?;
        statement.reset();
        self.stored = stored;
        Ok(())
    }

    /// An execution is answered by an error of this code, and what it changed is taken back.
    ///
    /// # Errors
    /// - `AllocError` where the sum of what is kept is too large.
    pub fn take_back(&mut self, code: u16, pending: Pending) -> Result<(), AllocError>
        ensures ok { OnOk result (self.new ≡
            change_at pending.id (taken_back code pending) self.old) }
        ensures err { OnErr result (2 ^ 64 ≤
            (change_at pending.id (taken_back code pending) self.old).stored) }
        ensures unchanged { OnErr result (self.new ≡ self.old) }
    {
        let id = pending.id;
        let Some(statement) = self.by_id.get_mut(&id) else {
            return Ok(());
        };
        let after = statement.size_taken_back(code, &pending);
        let stored = with_part(self.stored, statement.size(), after)?;
        statement.take_back(code, pending);
        self.stored = stored;
        Ok(())
    }

    /// The columns of the statement of this id came, in payloads of this size.
    ///
    /// # Errors
    /// - `AllocError` where the sum of what is kept is too large.
    pub fn set_columns(
        &mut self,
        id: u32,
        columns: Option<RcSlice<Column>>,
        size: usize,
    ) -> Result<(), AllocError>
        ensures ok { OnOk result (self.new ≡
            change_at id (having_columns (option_map shared_columns columns) size) self.old) }
        ensures err { OnErr result (2 ^ 64 ≤ (change_at id
            (having_columns (option_map shared_columns columns) size) self.old).stored) }
        ensures unchanged { OnErr result (self.new ≡ self.old) }
    {
        let Some(statement) = self.by_id.get_mut(&id) else {
            return Ok(());
        };
        let after = statement.size_with_columns(size);
        let stored = with_part(self.stored, statement.size(), after)?;
        statement.set_columns(columns, size);
        self.stored = stored;
        Ok(())
    }

    /// How much more is kept until an execution is answered; None where a usize doesn't hold it.
    pub fn pending_size(&self, pending: &Pending) -> Option<usize>
        ensures { result ≡ (let size = pending_size self.now pending.now in
            if nat_lt size (2 ^ 64) then Some size else None) }
    {
        usize::try_from(self.size_pending(pending)).ok()
    }
}

/// The id that was prepared last, where it isn't this one.
fn unless_it(id: u32, last: Option<u32>) -> Option<u32>
    ensures { result ≡ last_unless id last }
{
    match last {
        Some(last) if id != last => Some(last),
        _ => None,
    }
}
