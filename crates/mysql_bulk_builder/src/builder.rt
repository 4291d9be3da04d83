//! Builds bulk executions: rows go in one by one, and requests of as many as fit come out.
//!
//!     let mut builder = ComStmtBulkExecuteRequestBuilder::new(alloc, stmt_id, max_allowed_packet);
//!     if let Some(row) = builder.add_row(row)? {
//!         let request = builder.build()?; // of the rows before, which leave no room for this one
//!         builder.add_row(row)?;
//!     }
//!     let last = builder.build()?;

ghost use Rattle.std.specs.Prelude.{◌≡◌, ◌+◌, ◌*◌, ◌<◌, ◌≤◌, if◌then◌else◌, length, map, nat_eq, option_copied, ◌&&◌};
ghost use Rattle.std.specs.Prelude.{MatchOption};
ghost use Rattle.std.specs.Cmp.Lexicographic.{pointwise};
ghost use Rattle.mysql_values.specs.Params.{names_given};
ghost use Rattle.mysql_bulk_builder.specs.Cut.{row_size};
ghost use Rattle.mysql_bulk_builder.specs.RequestView.{bulk_flags as flags_of};

use crate::error::BulkExecuteRequestBuilderError;
use crate::flat::{append_row, copies_of};
use crate::row_size::row_size_within;
use crate::{BulkExecuteRequestError, ComStmtBulkExecuteRequest, StmtBulkExecuteParamValue};
use mysql_cells::Value;
use mysql_const::StmtBulkExecuteFlags;
use mysql_values::{Params, ParamsError};
use std::alloc::{AllocError, Global};
use std::marker::Model;

/// Fills bulk execute requests row by row.
///
/// The first request built carries the types of its parameters, later ones don't. The rows are kept
/// one after another in one list.
///
/// Follows MariaDB's "COM_STMT_BULK_EXECUTE".
#[derive(Debug, Drop)]
pub struct ComStmtBulkExecuteRequestBuilder<'a> {
    alloc: Global,
    stmt_id: u32,
    // the most bytes of a request
    room: usize,
    named_params: Option<&'a [Vec<u8>]>,
    with_results: bool,
    with_types: bool,
    arity: Option<usize>,
    // the rows held: what they take, how many they are, and their values
    held: usize,
    count: usize,
    values: Vec<StmtBulkExecuteParamValue>,
}

impl<'a> Model for ComStmtBulkExecuteRequestBuilder<'a> {
    ghost use Rattle.mysql_bulk_builder.specs.Builder.{Builder};

    ghost Value = { Builder };

    ghost use Rattle.mysql_bulk_builder.specs.BuilderView.{builder_of, IsBuilder};

    ghost view = { builder_of };

    ghost invariant = { IsBuilder };
}

/// What a row takes in a request beside rows of `held` bytes, where it has room.
fn row_size_beside(row: &[Value], typed: bool, held: usize, room: usize) -> Option<usize>
    ensures { let rest = 7 + (if typed then 2 * length row.now else 0) + held in
        MatchOption result (room < rest + row_size row.now) (λ n. (n ≡ row_size row.now) × (rest + n ≤ room)) }
{
    if room < 7 {
        return None;
    }
    let mut left = room - 7;
    if typed {
        if left / 2 < row.len() {
            return None;
        }
        left -= 2 * row.len();
    }
    if left < held {
        return None;
    }
    row_size_within(row, left - held)
}

/// The names, where there are any.
fn names_of<'n>(names: Option<&'n [Vec<u8>]>) -> &'n [Vec<u8>]
    ensures { map (λ name. name.items) result.now ≡ names_given (option_copied names.entry) }
{
    match names {
        Some(names) => names,
        None => &[],
    }
}

/// Whether two lists of names are the same; none is an empty one.
fn same_names(names: Option<&[Vec<u8>]>, others: Option<&[Vec<u8>]>) -> bool
    ensures { result ≡ pointwise (pointwise nat_eq) (names_given (option_copied names.entry))
        (names_given (option_copied others.entry)) }
{
    names_of(names) == names_of(others)
}

/// The statement, the most bytes of a request, its flags, how many values a row has and how many rows are held.
type Settings = (u32, usize, bool, bool, Option<usize>, usize);

/// Whether builders have the same settings, names and values.
fn same_fields(
    settings: (Settings, Settings),
    names: Option<&[Vec<u8>]>,
    other_names: Option<&[Vec<u8>]>,
    values: &[StmtBulkExecuteParamValue],
    other_values: &[StmtBulkExecuteParamValue],
) -> bool
    ensures { result ≡ ((⟦<(u32, usize, bool, bool, Option<usize>, usize) as PartialEq>⟧.eq settings.0 settings.1
        && pointwise (pointwise nat_eq) (names_given (option_copied names.entry))
        (names_given (option_copied other_names.entry)))
        && pointwise ⟦<StmtBulkExecuteParamValue as PartialEq>⟧.eq values.entry.now other_values.entry.now) }
{
    settings.0 == settings.1 && same_names(names, other_names) && values == other_values
}

/// The flags of a request.
fn bulk_flags(with_results: bool, with_types: bool) -> StmtBulkExecuteFlags
    ensures { result.0 ≡ flags_of with_results with_types }
{
    match (with_results, with_types) {
        (false, false) => StmtBulkExecuteFlags(0),
        (false, true) => StmtBulkExecuteFlags::SEND_TYPES_TO_SERVER,
        (true, false) => StmtBulkExecuteFlags::SEND_UNIT_RESULTS,
        (true, true) => StmtBulkExecuteFlags(0xc0),
    }
}

impl<'a> ComStmtBulkExecuteRequestBuilder<'a> {
    ghost use Rattle.std.specs.Prelude.{◌≡◌, ◌≢◌, ◌↔◌, ◌<◌, ◌≤◌, ◌-◌, length, option_copied, IsTrue, IfOk, IfErr, OnOk};
    ghost use Rattle.std.specs.Prelude.{OnErr, None, true, false, []};
    ghost use Rattle.std.specs.Prelude.{◌⊎◌, Ok, Err};
    ghost use Rattle.mysql_values.specs.declared.params.ParamsError.TheVariants as params_error;
    ghost use Rattle.mysql_values.specs.Params.{names_given, values_over};
    ghost use Rattle.mysql_bulk_builder.specs.Builder.{after_build, request_of, HasOneMore, IsFilled};
    ghost use Rattle.mysql_bulk_builder.specs.RequestView.{execution_of};
    ghost use Rattle.mysql_bulk_builder.specs.Views.{bulk_view};
    ghost use Rattle.mysql_bulk_builder.specs.declared.request_error.BulkExecuteRequestError.TheVariants as refusals;
    ghost use Rattle.mysql_bulk_builder.specs.Adds.{Adds, AddsGiven, GivesBack};

    /// A builder of requests of at most `max_allowed_packet - 4` bytes for a prepared statement.
    pub fn new(
        alloc: Global,
        stmt_id: u32,
        max_allowed_packet: usize,
    ) -> ComStmtBulkExecuteRequestBuilder<'a>
        requires { 4 ≤ max_allowed_packet }
        ensures { result ≡ record {
          id = stmt_id;
          room = max_allowed_packet - 4;
          names =
              [];
          results = false;
          typed = true;
          arity = None;
          rows = [];
        } }
    {
        ComStmtBulkExecuteRequestBuilder {
            alloc,
            stmt_id,
            room: max_allowed_packet - 4,
            named_params: None,
            with_results: false,
            with_types: true,
            arity: None,
            held: 0,
            count: 0,
            values: Vec::new(alloc),
        }
    }

    /// The builder for sets over these names, in the order of the query's places. An empty list of
    /// names counts as none.
    pub fn with_named_params<'b>(
        self,
        named_params: Option<&'b [Vec<u8>]>,
    ) -> ComStmtBulkExecuteRequestBuilder<'b>
        ensures { result ≡ record self.entry { names = names_given (option_copied named_params.entry) } }
    {
        ComStmtBulkExecuteRequestBuilder {
            alloc: self.alloc,
            stmt_id: self.stmt_id,
            room: self.room,
            named_params,
            with_results: self.with_results,
            with_types: self.with_types,
            arity: self.arity,
            held: self.held,
            count: self.count,
            values: self.values,
        }
    }

    /// The builder of requests that ask for the result of each row (MariaDB 11.5.1,
    /// `MARIADB_CLIENT_BULK_UNIT_RESULTS`).
    pub fn with_results(self) -> ComStmtBulkExecuteRequestBuilder<'a>
        ensures { result ≡ record self.entry { results = true } }
    {
        let mut builder = self;
        builder.with_results = true;
        builder
    }

    /// A copy with the rows held, by this allocator.
    ///
    /// # Errors
    /// - `AllocError` for want of memory.
    pub fn clone(&self, alloc: Global) -> Result<ComStmtBulkExecuteRequestBuilder<'a>, AllocError>
        ensures { IfOk result (λ copy. copy ≡ self.now) }
    {
        let values = copies_of(alloc, &self.values)?;
        Ok(ComStmtBulkExecuteRequestBuilder {
            alloc,
            stmt_id: self.stmt_id,
            room: self.room,
            named_params: self.named_params,
            with_results: self.with_results,
            with_types: self.with_types,
            arity: self.arity,
            held: self.held,
            count: self.count,
            values,
        })
    }

    /// What the rows held and one more take together, and how many they are.
    ///
    /// None where the next request has no room for it.
    fn with_one_more(&self, row: &[Value]) -> Option<(usize, usize)>
        ensures { HasOneMore self.now row.now result }
    {
        if self.count == usize::MAX {
            return None;
        }
        let size = row_size_beside(row, self.with_types, self.held, self.room)?;
        Some((self.held + size, self.count + 1))
    }

    /// Adds a row.
    ///
    /// Answers None where the row was taken. Answers the row where the rows held leave no room for
    /// it, or where `usize::MAX` rows are held. Build their request then, and add the row again.
    /// The first row taken sets how many values each row has, over builds too.
    ///
    /// Promise: the row is taken exactly where it has the arity, fewer than `usize::MAX` rows are
    /// held and there is room. Where rows are held and there is no room, it is given back; else it
    /// is refused. A refused call changes nothing (`Adds`, `GivesBack`).
    ///
    /// # Errors
    /// - `MixedArity`.
    /// - `RowTooLarge` with the row where no rows are held and it fits no request.
    /// - `Memory`.
    ///
    /// Nothing changes after an error.
    pub fn add_row(
        &mut self,
        row: Vec<Value>,
    ) -> Result<Option<Vec<Value>>, BulkExecuteRequestBuilderError>
        ensures adds { Adds self.old row.items self.new result }
        ensures same { GivesBack row result }
    {
        if let Some(arity) = self.arity {
            if row.len() != arity {
                return Err(BulkExecuteRequestBuilderError::Request(
                    BulkExecuteRequestError::MixedArity,
                ));
            }
        }
        let Some((held, count)) = self.with_one_more(&row) else {
            if self.count > 0 {
                return Ok(Some(row));
            }
            return Err(BulkExecuteRequestBuilderError::Request(BulkExecuteRequestError::RowTooLarge(
                row,
            )));
        };
        let arity = row.len();
        append_row(&mut self.values, row)?;
        self.arity = Some(arity);
        self.held = held;
        self.count = count;
        Ok(None)
    }

    /// The values that a set gives over the builder's names.
    pub(crate) fn values_of(&self, params: Params) -> Result<Vec<Value>, ParamsError>
        ensures ok { IfOk result (λ values. values_over self.now.names params ≡ Ok values.items) }
        ensures err { IfErr result (λ e. (e ≡ params_error.Memory) ⊎ (values_over self.now.names params ≡ Err e)) }
    {
        params.into_values(self.alloc, self.named_params)
    }

    /// Adds the row of values that a set gives over the builder's names, as `add_row` does.
    ///
    /// Promise: what `add_row` promises, of the values that the set gives over the builder's names;
    /// `Params` where it gives none (`AddsGiven`).
    ///
    /// # Errors
    /// - `Params` where the set gives no values.
    /// - Those of `add_row`.
    ///
    /// Nothing changes after an error.
    pub fn add_params(
        &mut self,
        params: Params,
    ) -> Result<Option<Vec<Value>>, BulkExecuteRequestBuilderError>
        ensures { AddsGiven self.old (values_over self.old.names params) self.new result }
    {
        let row = self.values_of(params)?;
        self.add_row(row)
    }

    /// Whether rows are held.
    pub fn has_rows(&self) -> bool
        ensures { IsTrue result ↔ (0 < length self.now.rows) }
    {
        self.count > 0
    }

    /// Builds the request of the rows held, and lets them go.
    ///
    /// Promise: the request has the rows held, with the types of their columns where none was built
    /// before. The builder then holds none, and after a refusal it is as it was (`request_of`,
    /// `after_build`).
    ///
    /// # Errors
    /// - `NoParams` where no rows are held.
    /// - `Memory`.
    ///
    /// Nothing changes after an error.
    pub fn build(&mut self) -> Result<ComStmtBulkExecuteRequest, BulkExecuteRequestError>
        ensures built { IfOk result (λ request. bulk_view request ≡ execution_of (request_of self.old)) }
        ensures some { OnOk result (self.old.rows ≢ []) }
        ensures fits { OnOk result (IsFilled self.old) }
        ensures new { OnOk result (self.new ≡ after_build self.old) }
        ensures unchanged { OnErr result (self.new ≡ self.old) }
        ensures err { IfErr result (λ e. (e ≡ refusals.Memory) ⊎
            ((e ≡ refusals.NoParams) × (self.old.rows ≡ []))) }
    {
        if self.count == 0 {
            return Err(BulkExecuteRequestError::NoParams);
        }
        let request = ComStmtBulkExecuteRequest::from_flat(
            self.alloc,
            self.stmt_id,
            bulk_flags(self.with_results, self.with_types),
            self.arity.unwrap_or(0),
            self.count,
            &mut self.values,
        )?;
        self.with_types = false;
        self.held = 0;
        self.count = 0;
        Ok(request)
    }
}

/// Builders are equal where their statement, limit, names, flags and number of values in a row are,
/// and they hold the same rows.
impl<'a> PartialEq for ComStmtBulkExecuteRequestBuilder<'a> {
    ghost use Rattle.mysql_bulk_builder.specs.contracts.param_value.StmtBulkExecuteParamValuePartialEq.TheImpl.Laws.{
      laws-law as values_per,
    };
    ghost use Rattle.mysql_bulk_builder.specs.SameBuilder.{same_builder, same_builder_per};

    ghost eq = { same_builder ⟦<StmtBulkExecuteParamValue as PartialEq>⟧.eq };

    ghost laws = { same_builder_per ⟦<StmtBulkExecuteParamValue as PartialEq>⟧.eq values_per };

    fn eq(&self, other: &ComStmtBulkExecuteRequestBuilder<'a>) -> bool {
        let own = (
            self.stmt_id,
            self.room,
            self.with_results,
            self.with_types,
            self.arity,
            self.count,
        );
        let theirs = (
            other.stmt_id,
            other.room,
            other.with_results,
            other.with_types,
            other.arity,
            other.count,
        );
        same_fields(
            (own, theirs),
            self.named_params,
            other.named_params,
            &self.values,
            &other.values,
        )
    }
}
