//! How much would be kept for all statements behind each change, before it is made.

ghost use Rattle.std.specs.Prelude.{◌≡◌, ℕ, ◌+◌, ◌<◌, ◌^◌, List, Option};
ghost use Rattle.std.specs.Option.{option_and_then};
ghost use Rattle.mysql_columns.specs.Columns.{ColumnDefinition};
ghost use Rattle.mysql_executions.specs.declared.refused.Refused.{Refused as RefusedAs};
ghost use Rattle.mysql_connection_statements.specs.Statements.{after_close, after_prepared};
ghost use Rattle.mysql_connection_statements.specs.Statements.{change_at, executed};
ghost use Rattle.mysql_connection_statements.specs.Statements.{having_columns, is_reset, pending_of};
ghost use Rattle.mysql_connection_statements.specs.Statements.{pending_size, prepared_as};
ghost use Rattle.mysql_connection_statements.specs.Statements.{statement_at, taken_back};
ghost use Rattle.mysql_connection_statements.specs.Statements.{waiting_size, with_long_data};

use crate::pending::Pending;
use crate::sizes::changed_sum;
use crate::statements::Statements;
use mysql_executions::BoundType;

impl Statements {
    /// How much would be kept once a statement of this id was prepared, in payloads of this size.
    pub fn size_prepared(&self, id: u32, size: u128) -> u128
        requires { size < 2 ^ 66 }
        ensures size { (text : List ℕ) (count : ℕ) →
            result ≡ (after_prepared id (prepared_as text count size) self.now).stored }
        ensures small { result < 2 ^ 69 }
    {
        changed_sum(self.stored(), self.size_at(id), size)
    }

    /// How much would be kept once its columns came too, in payloads of that size.
    pub fn size_prepared_with_columns(&self, id: u32, size: u128, columns: usize) -> u128
        requires { size < 2 ^ 66 }
        ensures size { (text : List ℕ) (count : ℕ) (kept : Option (List ColumnDefinition)) →
            result ≡ (change_at id (having_columns kept columns)
            (after_prepared id (prepared_as text count size) self.now)).stored }
        ensures small { result < 2 ^ 69 }
    {
        changed_sum(self.stored(), self.size_at(id), size + columns as u128)
    }

    /// How much would be kept once the statement of this id was closed.
    pub fn size_closed(&self, id: u32) -> u128
        ensures size { result ≡ (after_close id self.now).stored }
        ensures small { result < 2 ^ 69 }
    {
        changed_sum(self.stored(), self.size_at(id), 0)
    }

    /// How much would be kept until an execution of the statement of this id was answered.
    pub fn size_executing(&self, id: u32, types: &[BoundType]) -> u128
        ensures size { (refused : RefusedAs) →
            result ≡ (change_at id (executed types.now) self.now).stored +
            waiting_size (change_at id (executed types.now) self.now)
            (option_and_then (pending_of id refused types.now) (statement_at self.now id)) }
        ensures small { result < 2 ^ 69 }
    {
        match self.get(id) {
            Some(statement) => {
                let after = statement.size_executing(types);
                changed_sum(self.stored(), statement.size(), after)
            }
            None => self.stored() as u128,
        }
    }

    /// How much would be kept behind long data, in a payload of this size.
    pub fn size_with_long_data(&self, id: u32, place: u16, size: usize) -> u128
        ensures size { (bytes : List ℕ) →
            result ≡ (change_at id (with_long_data place bytes size) self.now).stored }
        ensures small { result < 2 ^ 69 }
    {
        match self.get(id) {
            Some(statement) => {
                let after = statement.size_with_long_data(place, size);
                changed_sum(self.stored(), statement.size(), after)
            }
            None => self.stored() as u128,
        }
    }

    /// How much would be kept behind a reset of the statement of this id.
    pub fn size_reset(&self, id: u32) -> u128
        ensures size { result ≡ (change_at id is_reset self.now).stored }
        ensures small { result < 2 ^ 69 }
    {
        match self.get(id) {
            Some(statement) => {
                changed_sum(self.stored(), statement.size(), statement.size_reset())
            }
            None => self.stored() as u128,
        }
    }

    /// How much would be kept once the columns of this statement came, in payloads of this size.
    pub fn size_with_columns(&self, id: u32, size: usize) -> u128
        ensures size { (columns : Option (List ColumnDefinition)) →
            result ≡ (change_at id (having_columns columns size) self.now).stored }
        ensures small { result < 2 ^ 69 }
    {
        match self.get(id) {
            Some(statement) => {
                let after = statement.size_with_columns(size);
                changed_sum(self.stored(), statement.size(), after)
            }
            None => self.stored() as u128,
        }
    }

    /// How much would be kept once an execution was answered by an error of this code.
    pub fn size_taken_back(&self, code: u16, pending: &Pending) -> u128
        ensures size { result ≡
            (change_at pending.now.id (taken_back code pending.now) self.now).stored }
        ensures small { result < 2 ^ 69 }
    {
        match self.get(pending.id) {
            Some(statement) => {
                let after = statement.size_taken_back(code, pending);
                changed_sum(self.stored(), statement.size(), after)
            }
            None => self.stored() as u128,
        }
    }

    /// How much would be kept once columns came behind that error, in payloads of this size.
    pub fn size_taken_back_with_columns(&self, code: u16, pending: &Pending, size: usize) -> u128
        ensures size { (columns : Option (List ColumnDefinition)) →
            result ≡ (change_at pending.now.id (having_columns columns size)
            (change_at pending.now.id (taken_back code pending.now) self.now)).stored }
        ensures small { result < 2 ^ 69 }
    {
        match self.get(pending.id) {
            Some(statement) => {
                let after = statement.size_taken_back_with_columns(code, pending, size);
                changed_sum(self.stored(), statement.size(), after)
            }
            None => self.stored() as u128,
        }
    }

    /// How much more is kept until an execution is answered.
    pub fn size_pending(&self, pending: &Pending) -> u128
        ensures size { result ≡ pending_size self.now pending.now }
        ensures small { result < 2 ^ 66 }
    {
        match self.get(pending.id) {
            Some(statement) => statement.more_before(pending),
            None => 0,
        }
    }
}
