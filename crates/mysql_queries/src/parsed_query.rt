//! A query with what one walk over its text finds: its placeholders and their names.
//!
//!     let query = ParsedQuery::new(alloc, b"SELECT :a")?;
//!     let count = query.places().len();
//!     let statement = query.with_marks(alloc)?;

ghost use Rattle.mysql_queries.specs.Parsed.{HasNames, names_at};
ghost use Rattle.mysql_queries.specs.Queries.{HasMixed, HasPlaces, IsParsed, first_not_alone as first_apart};
ghost use Rattle.mysql_queries.specs.Queries.{is_mixed as has_both_kinds};
ghost use Rattle.mysql_queries.specs.Sql.{read_by, read_by_default};
ghost use Rattle.std.specs.Cow.{cow_slice_items};
ghost use Rattle.std.specs.List.{AllByRecursion};
ghost use Rattle.std.specs.Prelude.{◌≡◌, IfNone, IfOk, map, true};

use crate::named_params::{copied_names, names_among, with_marks};
use crate::placeholders::{Place, first_not_alone, is_mixed, places_in};
use mysql_bytes::{Mode, Spelling};
use std::alloc::{AllocError, Global};
use std::borrow::CowSlice;
use std::marker::Model;

/// A query's text with its placeholders and what they say of the whole.
///
/// All of it is as a server in the query's mode reads it. Texts that are made of the query have byte
/// strings in its spelling. What they say is the names among them,
/// whether both kinds occur, and which is the first that doesn't stand alone. It is found once, and
/// serves each call that sends, binds or reads parameter sets of the query. Contracts see the text
/// and the placeholders.
#[derive(Drop)]
pub struct ParsedQuery<'q> {
    text: CowSlice<'q, u8>,
    mode: Mode,
    spelling: Spelling,
    places: Vec<Place>,
    names: Vec<CowSlice<'q, u8>>,
    mixed: bool,
    not_alone: Option<usize>,
}

impl<'q> Model for ParsedQuery<'q> {
    ghost use Rattle.mysql_queries.specs.Query.{Query};

    ghost Value = { Query };

    ghost use Rattle.mysql_queries.specs.ParsedQuery.{query_of, IsFound};

    ghost view = { query_of };

    ghost invariant = { IsFound };
}

impl<'q> ParsedQuery<'q> {
    /// Finds the placeholders of a query and what they say of it, for a server in the default mode.
    ///
    /// Byte strings are in quotes.
    ///
    /// Promise: the placeholders are exactly those of the text, which is kept as it is
    /// (`HasPlaces`).
    ///
    /// # Errors
    /// - `AllocError` for want of memory.
    ///
    /// (MySQL Reference Manual, "PREPARE Statement" (parameter markers).)
    pub fn new(alloc: Global, text: &'q [u8]) -> Result<ParsedQuery<'q>, AllocError>
        ensures text { IfOk result (λ query. query.sql ≡ read_by_default text.entry.now) }
        ensures places { IfOk result (λ query. HasPlaces (read_by_default text.entry.now) query.places) }
    {
        ParsedQuery::new_in(alloc, text, Mode::default(), Spelling::Quoted)
    }

    /// Finds the placeholders of a query and what they say of it, for a server in this mode.
    ///
    /// Byte strings are in this spelling.
    ///
    /// Promise: the placeholders are exactly those of the text, which is kept as it is
    /// (`HasPlaces`).
    ///
    /// # Errors
    /// - `AllocError` for want of memory.
    ///
    /// (MySQL Reference Manual, "PREPARE Statement" (parameter markers), "Server SQL Modes".)
    pub fn new_in(
        alloc: Global,
        text: &'q [u8],
        mode: Mode,
        spelling: Spelling,
    ) -> Result<ParsedQuery<'q>, AllocError>
        ensures text { IfOk result (λ query. query.sql ≡ read_by mode spelling text.entry.now) }
        ensures places { IfOk result (λ query. HasPlaces (read_by mode spelling text.entry.now) query.places) }
    {
        let places = places_in(alloc, text, mode)?;
        let names = names_among(alloc, text, &places)?;
        let mixed = is_mixed(&places);
        let not_alone = first_not_alone(&places);
        Ok(ParsedQuery {
            text: CowSlice::Borrowed(text),
            mode,
            spelling,
            places,
            names,
            mixed,
            not_alone,
        })
    }

    /// The text.
    pub fn text(&self) -> &[u8]
        ensures { result.now ≡ self.now.sql.text }
    {
        self.text.as_slice()
    }

    /// The mode of the server that it is for.
    pub fn mode(&self) -> Mode
        ensures { result ≡ self.now.sql.mode }
    {
        self.mode
    }

    /// The spelling of byte strings in texts that are made of it.
    pub fn spelling(&self) -> Spelling
        ensures { result ≡ self.now.sql.spelling }
    {
        self.spelling
    }

    /// The placeholders, in order.
    pub fn places(&self) -> &[Place]
        ensures places { result.now ≡ self.now.places }
        ensures of_text { HasPlaces self.now.sql self.now.places }
    {
        self.places.as_slice()
    }

    /// The names among the placeholders, in order, without their colons.
    pub fn names(&self) -> &[CowSlice<'q, u8>]
        ensures names { map cow_slice_items result.now ≡ names_at self.now.sql.text self.now.places }
        ensures of_text { HasNames self.now.sql (map cow_slice_items result.now) }
    {
        self.names.as_slice()
    }

    /// Whether both kinds of placeholder occur, names and question marks.
    pub fn is_mixed(&self) -> bool
        ensures mixed { result ≡ has_both_kinds self.now.places }
        ensures of_text { HasMixed self.now.sql result }
    {
        self.mixed
    }

    /// The first placeholder that doesn't stand alone, counted from 0.
    pub fn first_not_alone(&self) -> Option<usize>
        ensures first { result ≡ first_apart self.now.places }
        ensures none { IfNone result (AllByRecursion (λ place. place.alone ≡ true) self.now.places) }
    {
        self.not_alone
    }

    /// The text with a question mark for each placeholder, as a statement is prepared.
    ///
    /// It is borrowed where nothing has to change.
    ///
    /// Promise: the text is the query with a question mark for each name (`IsParsed`).
    ///
    /// # Errors
    /// - `AllocError` for want of memory.
    ///
    /// (MySQL Reference Manual, "PREPARE Statement" (parameter markers).)
    pub fn with_marks(&self, alloc: Global) -> Result<CowSlice<'q, u8>, AllocError>
        ensures { IfOk result (λ marked. IsParsed self.now.sql (cow_slice_items marked)) }
    {
        if self.names.is_empty() {
            if let CowSlice::Borrowed(text) = &self.text {
                return Ok(CowSlice::Borrowed(*text));
            }
        }
        Ok(CowSlice::Owned(with_marks(alloc, self.text.as_slice(), &self.places)?))
    }

    /// A copy, which borrows nothing.
    ///
    /// # Errors
    /// - `AllocError` for want of memory.
    pub fn clone(&self, alloc: Global) -> Result<ParsedQuery<'static>, AllocError>
        ensures { IfOk result (λ copy. copy ≡ self.now) }
    {
        Ok(ParsedQuery {
            text: CowSlice::Owned(Vec::from_slice(alloc, self.text.as_slice())?),
            mode: self.mode,
            spelling: self.spelling,
            places: Vec::from_slice(alloc, self.places.as_slice())?,
            names: copied_names(alloc, self.names.as_slice())?,
            mixed: self.mixed,
            not_alone: self.not_alone,
        })
    }
}
