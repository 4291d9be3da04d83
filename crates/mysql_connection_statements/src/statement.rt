//! A prepared statement of a connection.

ghost use Rattle.std.specs.Prelude.{◌≡◌, ℕ, ◌+◌, ◌<◌, ◌^◌, IfOk, IsTrue, List, OnErr, OnOk, Option};
ghost use Rattle.std.specs.Prelude.{[], Some};
ghost use Rattle.std.specs.Option.{option_map};
ghost use Rattle.mysql_columns.specs.Columns.{ColumnDefinition};
ghost use Rattle.mysql_executions.specs.declared.refused.Refused.{Refused as RefusedAs};
ghost use Rattle.mysql_rows.specs.Views.{shared_columns};
ghost use Rattle.mysql_connection_statements.specs.Statements.{bound as bound_size};
ghost use Rattle.mysql_connection_statements.specs.Settled.{IsSettled};
ghost use Rattle.mysql_connection_statements.specs.Statements.{described_behind};
ghost use Rattle.mysql_connection_statements.specs.Statements.{executed, executing_size, has_nothing};
ghost use Rattle.mysql_connection_statements.specs.Statements.{having_columns, is_reset};
ghost use Rattle.mysql_connection_statements.specs.Statements.{more_before as more_before_it};
ghost use Rattle.mysql_connection_statements.specs.Statements.{pending_of, prepared_as};
ghost use Rattle.mysql_connection_statements.specs.Statements.{statement_size, taken_back};
ghost use Rattle.mysql_connection_statements.specs.Statements.{with_long_data};

use crate::pending::Pending;
use crate::sizes::bound;
use mysql_bytes::ByteString;
use mysql_columns::Column;
use mysql_executions::{BoundType, Refused, StatementParameters};
use std::alloc::{AllocError, Global};
use std::marker::Model;
use std::mem;
use std::rc::RcSlice;

/// A prepared statement of a connection.
///
/// It has its text, what is in force of its parameters, and the columns that it last had. It counts
/// the payloads that are kept for it. (MySQL: Client/Server Protocol, "Prepared Statements".)
#[derive(Drop)]
pub struct Statement {
    text: ByteString,
    parameters: StatementParameters,
    columns: Option<RcSlice<Column>>,
    // The size of the payloads by which it was prepared, of its columns, and of its long data.
    prepared: usize,
    described: usize,
    sent: usize,
}

impl Model for Statement {
    ghost use Rattle.std.specs.Option.{option_map};
    ghost use Rattle.mysql_rows.specs.Views.{shared_columns};
    ghost use Rattle.mysql_connection_statements.specs.Statements as standing;

    ghost Value = { standing.Statement };

    ghost view = { λ s. record {
      text = s.text;
      parameters = s.parameters;
      columns = option_map shared_columns s.columns;
      prepared = s.prepared;
      described = s.described;
      sent = s.sent;
    } };
}

impl Statement {
    /// A statement of this text with so many parameters, of whose prepare so much is kept.
    pub(crate) fn new(alloc: Global, text: ByteString, count: u16, size: usize) -> Statement
        ensures { result ≡ prepared_as text count size }
    {
        Statement {
            text,
            parameters: StatementParameters::new(alloc, count),
            columns: None,
            prepared: size,
            described: 0,
            sent: 0,
        }
    }

    /// The text by which it was prepared.
    pub fn text(&self) -> &[u8]
        ensures { result.now ≡ self.now.text }
    {
        self.text.as_slice()
    }

    /// What is in force of its parameters.
    pub fn parameters(&self) -> &StatementParameters
        ensures { result.now ≡ self.now.parameters }
    {
        &self.parameters
    }

    /// The columns that it last had: of its prepare, or of a result since.
    pub fn columns(&self) -> &Option<RcSlice<Column>>
        ensures { option_map shared_columns result.now ≡ self.now.columns }
    {
        &self.columns
    }

    /// What is kept for it.
    pub(crate) fn size(&self) -> u128
        ensures size { result ≡ statement_size self.now }
        ensures small { result < 2 ^ 67 }
    {
        self.size_with(bound(&self.parameters, self.sent))
    }

    // What is kept for it, with so much of its parameters.
    fn size_with(&self, bound: u128) -> u128
        requires { bound < 2 ^ 66 }
        ensures size { result ≡ self.now.prepared + (self.now.described + bound) }
        ensures small { result < 2 ^ 67 }
    {
        self.prepared as u128 + (self.described as u128 + bound)
    }

    // What is kept of its parameters behind an execution that carries these types.
    fn bound_executed(&self, types: &[BoundType]) -> u128
        ensures size { result ≡ (let behind = executed types.now self.now in
            bound_size behind.parameters behind.sent) }
        ensures small { result < 2 ^ 66 }
    {
        if self.parameters.is_broken() {
            return bound(&self.parameters, self.sent);
        }
        let count = self.parameters.types().len().max(types.len());
        2 * count as u128
    }

    /// What is kept for it behind an execution that carries these types.
    pub(crate) fn size_executed(&self, types: &[BoundType]) -> u128
        ensures size { result ≡ statement_size (executed types.now self.now) }
        ensures small { result < 2 ^ 67 }
    {
        self.size_with(self.bound_executed(types))
    }

    // Whether an execution that carries these types has nothing that an error takes back.
    #[tactic(auto, unfolding(crate::specs::Statements::has_nothing))]
    fn has_nothing(&self, types: &[BoundType]) -> bool
        ensures { result ≡ has_nothing types.now self.now }
    {
        self.parameters.is_broken() || (types.is_empty() && !self.parameters.is_waiting())
    }

    /// What is kept for it until that is answered.
    pub(crate) fn size_executing(&self, types: &[BoundType]) -> u128
        ensures size { (id : ℕ) (refused : RefusedAs) → result ≡ executing_size
            (pending_of id refused types.now self.now) (executed types.now self.now) }
        ensures small { result < 2 ^ 68 }
    {
        let behind = self.bound_executed(types);
        let more = if self.has_nothing(types) {
            0
        } else {
            bound(&self.parameters, self.sent).saturating_sub(behind)
        };
        self.size_with(behind) + more
    }

    /// What is kept for it behind long data for a parameter, in a payload of this size.
    pub(crate) fn size_with_long_data(&self, place: u16, size: usize) -> u128
        ensures size { (bytes : List ℕ) →
            result ≡ statement_size (with_long_data place bytes size self.now) }
        ensures small { result < 2 ^ 68 }
    {
        let more = if place < self.parameters.count() {
            size as u128
        } else {
            0
        };
        self.size() + more
    }

    /// What is kept for it behind a reset.
    pub(crate) fn size_reset(&self) -> u128
        ensures size { result ≡ statement_size (is_reset self.now) }
        ensures small { result < 2 ^ 67 }
    {
        self.size_with(bound(&self.parameters, 0))
    }

    /// What is kept for it once its columns came, in payloads of this size.
    pub(crate) fn size_with_columns(&self, size: usize) -> u128
        ensures size { (columns : Option (List ColumnDefinition)) →
            result ≡ statement_size (having_columns columns size self.now) }
        ensures small { result < 2 ^ 67 }
    {
        self.size_having(size, bound(&self.parameters, self.sent))
    }

    // What is kept for it with columns of this size and so much of its parameters.
    fn size_having(&self, size: usize, bound: u128) -> u128
        requires { bound < 2 ^ 66 }
        ensures size { result ≡ self.now.prepared + (described_behind size self.now + bound) }
        ensures small { result < 2 ^ 67 }
    {
        let described = if size == 0 { self.described } else { size };
        self.prepared as u128 + (described as u128 + bound)
    }

    // What is kept of its parameters once an execution is answered by an error of this code.
    fn bound_taken_back(&self, code: u16, pending: &Pending) -> u128
        ensures size { result ≡ (let behind = taken_back code pending.now self.now in
            bound_size behind.parameters behind.sent) }
        ensures small { result < 2 ^ 66 }
    {
        let Pending {
            id: _,
            refused,
            carried,
            before,
            sent,
        } = pending;
        let types = self
            .parameters
            .types_taken_back(code, *refused, *carried, before);
        let waiting = if self.parameters.waits_taken_back(code, *refused, before) {
            *sent
        } else {
            0
        };
        2 * types as u128 + waiting as u128
    }

    /// What is kept for it once an execution is answered by an error of this code.
    pub(crate) fn size_taken_back(&self, code: u16, pending: &Pending) -> u128
        ensures size { result ≡ statement_size (taken_back code pending.now self.now) }
        ensures small { result < 2 ^ 67 }
    {
        self.size_with(self.bound_taken_back(code, pending))
    }

    /// What is kept for it once its columns came behind that error, in payloads of this size.
    pub(crate) fn size_taken_back_with_columns(
        &self,
        code: u16,
        pending: &Pending,
        size: usize,
    ) -> u128
        ensures size { (columns : Option (List ColumnDefinition)) → result ≡ statement_size
            (having_columns columns size (taken_back code pending.now self.now)) }
        ensures small { result < 2 ^ 67 }
    {
        self.size_having(size, self.bound_taken_back(code, pending))
    }

    /// How much more an execution of it keeps that isn't answered.
    pub(crate) fn more_before(&self, pending: &Pending) -> u128
        ensures more { result ≡ more_before_it pending.now (Some self.now) }
        ensures small { result < 2 ^ 66 }
    {
        let before = bound(&pending.before, pending.sent);
        before.saturating_sub(bound(&self.parameters, self.sent))
    }

    // An execution comes by which nothing is kept that an error takes back.
    fn settle(&mut self)
        ensures { self.new ≡ executed [] self.old }
    {
        if !self.parameters.is_broken() {
            self.parameters.reset();
            self.sent = 0;
        }
    }

    /// Whether an execution of it that carries no types changes nothing.
    #[tactic(auto, unfolding(crate::specs::Statements::has_nothing))]
    pub(crate) fn is_settled(&self) -> bool
        ensures { IsTrue result → IsSettled self.now }
    {
        self.parameters.is_clear() && self.sent == 0
    }

    /// An execution comes, which carries these types; it answers what an error takes back.
    #[tactic(auto, unfolding(crate::specs::Statements::has_nothing))]
    pub(crate) fn execute(
        &mut self,
        alloc: Global,
        id: u32,
        refused: Refused,
        types: &[BoundType],
    ) -> Result<Option<Pending>, AllocError>
        ensures pending { IfOk result (λ pending. pending ≡
            pending_of id refused types.now self.old) }
        ensures ok { OnOk result (self.new ≡ executed types.now self.old) }
        ensures err { OnErr result (self.new ≡ self.old) }
    {
        if self.has_nothing(types) {
            self.settle();
            return Ok(None);
        }
        let Some(before) = self.parameters.execute(alloc, types)? else {
            return Ok(None);
        };
        Ok(Some(Pending {
            id,
            refused,
            carried: types.len(),
            before,
            sent: mem::replace(&mut self.sent, 0),
        }))
    }

    /// Long data comes for a parameter, in a payload of this size.
    pub(crate) fn add_long_data(
        &mut self,
        alloc: Global,
        place: u16,
        bytes: &[u8],
        size: usize,
    ) -> Result<(), AllocError>
        ensures ok { OnOk result (self.new ≡ with_long_data place bytes.now size self.old) }
        ensures err { OnErr result (self.new ≡ self.old) }
    {
        let more = if place < self.parameters.count() {
            size
        } else {
            0
        };
        let Some(sent) = self.sent.checked_add(more) else {
            return Err(AllocError);
        };
        self.parameters.add_long_data(alloc, place, bytes)?;
        self.sent = sent;
        Ok(())
    }

    /// A reset comes.
    pub(crate) fn reset(&mut self)
        ensures { self.new ≡ is_reset self.old }
    {
        self.parameters.reset();
        self.sent = 0;
    }

    /// Its columns came, in payloads of this size.
    pub(crate) fn set_columns(&mut self, columns: Option<RcSlice<Column>>, size: usize)
        ensures { self.new ≡ having_columns (option_map shared_columns columns) size self.old }
    {
        self.columns = columns;
        if size != 0 {
            self.described = size;
        }
    }

    /// An execution is answered by an error of this code.
    pub(crate) fn take_back(&mut self, code: u16, pending: Pending)
        ensures { self.new ≡ taken_back code pending self.old }
    {
        let Pending {
            id: _,
            refused,
            carried,
            before,
            sent,
        } = pending;
        self.parameters.take_back(code, refused, carried, before);
        self.sent = if self.parameters.is_waiting() {
            sent
        } else {
            0
        };
    }
}
