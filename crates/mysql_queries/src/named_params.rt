//! A query with named placeholders, parsed: question marks in their places, and their names.
//!
//!     let query = ParsedNamedParams::parse(alloc, b"SELECT :a, :b")?;
//!     let text = query.query();
//!     let names = query.params();

ghost use Rattle.mysql_queries.specs.Parsed.{HasNames, names_at};
ghost use Rattle.mysql_queries.specs.Queries.{HasMixed, HasPlaces, InOrder, IsParsed, slices_between};
ghost use Rattle.mysql_queries.specs.Sql.{read_by_default};
ghost use Rattle.mysql_queries.specs.Tokens.{question};
ghost use Rattle.std.specs.Cow.{cow_slice_items};
ghost use Rattle.std.specs.List.{join_with_byte};
ghost use Rattle.std.specs.Prelude.{◌≡◌, ◌⊎◌, IfErr, IfOk, OnOk, false, map, true};
ghost use Rattle.mysql_queries.specs.declared.named_params.NamedParamsError.TheVariants as named_params_error;

use crate::placeholders::{Place, is_mixed, places};
use std::alloc::{AllocError, AllocFailed, Global};
use std::borrow::CowSlice;
use std::marker::Model;
use thiserror::Error;

/// A query has both names and question marks as placeholders.
#[derive(Clone, Copy, Debug, PartialEq, Eq, Hash, Error)]
#[error("the query has both named and positional parameters: use one kind")]
pub struct MixedParamsError;

/// Why a query is not parsed.
#[derive(Clone, Copy, Debug, PartialEq, Eq, Hash, Error)]
pub enum NamedParamsError {
    #[error("{0}")]
    Mixed(MixedParamsError),
    #[error("out of memory")]
    Memory,
}

impl From<AllocError> for NamedParamsError {
    ghost from_gives = { λ _ e. e ≡ named_params_error.Memory };

    fn from(_e: AllocError) -> NamedParamsError {
        NamedParamsError::Memory
    }
}

impl<T: Drop> From<AllocFailed<T>> for NamedParamsError {
    ghost from_gives = { λ _ e. e ≡ named_params_error.Memory };

    fn from(_e: AllocFailed<T>) -> NamedParamsError {
        NamedParamsError::Memory
    }
}

/// A query whose placeholders are names, with question marks in their places, and the names.
///
/// A query without names is parsed too: it stays as it is.
#[derive(Debug, Drop)]
pub struct ParsedNamedParams<'a> {
    query: CowSlice<'a, u8>,
    params: Vec<CowSlice<'a, u8>>,
}

impl<'a> Model for ParsedNamedParams<'a> {
    ghost use Rattle.std.specs.Cow.{cow_slice_items};
    ghost use Rattle.std.specs.Prelude.{map};
    ghost use Rattle.mysql_queries.specs.Parsed.{Parsed};

    ghost Value = { Parsed };

    ghost view = { λ it. record { query = cow_slice_items it.query; names = map cow_slice_items it.params.items } };
}

impl<'a> ParsedNamedParams<'a> {
    /// Parses a query as a server in the default mode reads it.
    ///
    /// [`ParsedQuery::new_in`](crate::ParsedQuery::new_in) takes the mode.
    ///
    /// Promise: the query has question marks for its names, which are listed in order; it is
    /// refused exactly where both kinds occur (`IsParsed`).
    ///
    /// # Errors
    /// - `Mixed` where both names and question marks occur.
    /// - `Memory`.
    pub fn parse(alloc: Global, query: &'a [u8]) -> Result<ParsedNamedParams<'a>, NamedParamsError>
        ensures query { IfOk result (λ parsed. IsParsed (read_by_default query.entry.now) parsed.query) }
        ensures names { IfOk result (λ parsed. HasNames (read_by_default query.entry.now) parsed.names) }
        ensures one_kind { OnOk result (HasMixed (read_by_default query.entry.now) false) }
        ensures mixed { IfErr result (λ e. (e ≡ named_params_error.Memory) ⊎
            ((e ≡ named_params_error.Mixed (record {})) × HasMixed (read_by_default query.entry.now) true)) }
    {
        let places = places(alloc, query)?;
        ParsedNamedParams::parse_at(alloc, query, &places)
    }

    /// Parses a query whose placeholders were found before.
    ///
    /// Promise: what [`parse`](Self::parse) promises, over places that are the query's
    /// (`IsParsed`).
    ///
    /// # Errors
    /// - `Mixed` where both names and question marks occur.
    /// - `Memory`.
    pub fn parse_at(
        alloc: Global,
        query: &'a [u8],
        places: &[Place],
    ) -> Result<ParsedNamedParams<'a>, NamedParamsError>
        requires { HasPlaces (read_by_default query.now) places.now }
        ensures query { IfOk result (λ parsed. IsParsed (read_by_default query.entry.now) parsed.query) }
        ensures names { IfOk result (λ parsed. HasNames (read_by_default query.entry.now) parsed.names) }
        ensures one_kind { OnOk result (HasMixed (read_by_default query.entry.now) false) }
        ensures mixed { IfErr result (λ e. (e ≡ named_params_error.Memory) ⊎
            ((e ≡ named_params_error.Mixed (record {})) × HasMixed (read_by_default query.entry.now) true)) }
    {
        if is_mixed(places) {
            return Err(NamedParamsError::Mixed(MixedParamsError));
        }
        let params = names_among(alloc, query, places)?;
        let parsed = if params.is_empty() {
            CowSlice::Borrowed(query)
        } else {
            CowSlice::Owned(with_marks(alloc, query, places)?)
        };
        Ok(ParsedNamedParams {
            query: parsed,
            params,
        })
    }

    /// The query with a question mark for each name.
    pub fn query(&self) -> &[u8]
        ensures { result.now ≡ self.now.query }
    {
        self.query.as_slice()
    }

    /// The names in order, one for each place, without their colons.
    pub fn params(&self) -> &[CowSlice<'a, u8>]
        ensures { map cow_slice_items result.now ≡ self.now.names }
    {
        self.params.as_slice()
    }

    /// A copy of the parsed query, which borrows nothing.
    ///
    /// # Errors
    /// - `AllocError` for want of memory.
    pub fn clone(&self, alloc: Global) -> Result<ParsedNamedParams<'static>, AllocError>
        ensures { IfOk result (λ copy. copy ≡ self.now) }
    {
        let query = Vec::from_slice(alloc, self.query.as_slice())?;
        let params = copied_names(alloc, self.params.as_slice())?;
        Ok(ParsedNamedParams {
            query: CowSlice::Owned(query),
            params,
        })
    }
}

/// Copies of the names, which borrow nothing.
pub(crate) fn copied_names(
    alloc: Global,
    names: &[CowSlice<'_, u8>],
) -> Result<Vec<CowSlice<'static, u8>>, AllocError>
    ensures { IfOk result (λ copies. map cow_slice_items copies.items ≡ map cow_slice_items names.now) }
{
    let mut copies = Vec::new(alloc);
    for name in names {
        let copy = Vec::from_slice(alloc, name.as_slice())?;
        copies.push(CowSlice::Owned(copy))?;
    }
    Ok(copies)
}

/// The names among the placeholders of a query, without their colons.
pub fn names_among<'a>(
    alloc: Global,
    query: &'a [u8],
    places: &[Place],
) -> Result<Vec<CowSlice<'a, u8>>, AllocError>
    requires { InOrder query.now 0 places.now }
    ensures { IfOk result (λ names. map cow_slice_items names.items ≡ names_at query.entry.now places.now) }
{
    let mut names = Vec::new(alloc);
    for place in places {
        if place.name {
            names.push(CowSlice::Borrowed(&query[place.start..place.end][1..]))?;
        }
    }
    Ok(names)
}

/// The query with a question mark for each placeholder.
pub(crate) fn with_marks(
    alloc: Global,
    query: &[u8],
    places: &[Place],
) -> Result<Vec<u8>, AllocError>
    requires { InOrder query.now 0 places.now }
    ensures { IfOk result (λ parsed. parsed.items ≡ join_with_byte question (slices_between query.now 0 places.now)) }
{
    let mut parsed = Vec::with_capacity(alloc, query.len())?;
    let mut at = 0;
    for place in places {
        parsed.extend_from_slice(&query[at..place.start])?;
        parsed.push(b'?')?;
        at = place.end;
    }
    parsed.extend_from_slice(&query[at..])?;
    Ok(parsed)
}
