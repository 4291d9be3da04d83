//! A query's text with literals in the places of its placeholders.
//!
//!     let params = Params::Positional(values);
//!     bind_text(alloc, b"SELECT ? + 1", &params, &mut out)?;

ghost use Rattle.mysql_values.specs.Binding.{Binds, RefusesBinding, bind_cause, bind_error_of};
ghost use Rattle.mysql_queries.specs.Parsed.{names_at};
ghost use Rattle.mysql_queries.specs.Queries.{HasPlaces, first_not_alone as first_apart};
ghost use Rattle.mysql_queries.specs.Queries.{is_mixed as has_both_kinds};
ghost use Rattle.mysql_queries.specs.Sql.{read_by, read_by_default, read_in};
ghost use Rattle.mysql_values.specs.declared.params.ParamsError.{ParamsError as ParamsErrorOf};
ghost use Rattle.mysql_cells.specs.declared.value.Value.{Value as ValueOf};
ghost use Rattle.std.specs.Cow.{cow_slice_items};
ghost use Rattle.std.specs.Prelude.{
  ◌≡◌,
  Err,
  IfErr,
  List,
  None,
  Ok,
  OnErr,
  OnOk,
  Result,
  Some,
  false,
  length,
  map,
  take,
};
ghost use Rattle.mysql_values.specs.declared.bind.BindError.TheVariants as bind_error;

use crate::params::{Params, ParamsError, list_values_over_names};
use mysql_bytes::{Mode, Spelling};
use mysql_cells::Value;
use mysql_literals::as_sql::{AsSqlError, put_sql};
use mysql_queries::laws::{filled_text_is_read, pieces_of_a_query};
pub use mysql_queries::named_params::names_among;
pub use mysql_queries::parsed_query::ParsedQuery;
use mysql_queries::{Place, first_not_alone, is_mixed};
use std::alloc::{AllocError, AllocFailed, Global};
use std::borrow::CowSlice;
use thiserror::Error;

/// Why no text is bound, in the order in which the causes are looked for.
#[derive(Debug, PartialEq, Eq, Hash, Drop, Error)]
pub enum BindError {
    /// The query has both kinds of placeholder.
    #[error("the query has both named and positional parameters: use one kind")]
    Mixed,
    /// The first placeholder that does not stand alone, counted from 0.
    #[error("placeholder {0} does not stand alone: a neighbour joins it, or servers read it differently")]
    NotAlone(usize),
    /// The set gives the query no values. This is never `Memory`.
    #[error(transparent)]
    Params(ParamsError),
    /// The values are not as many as the placeholders.
    #[error("the values are not as many as the placeholders: give one for each")]
    WrongCount,
    /// The first placeholder whose value is a float, counted from 0.
    #[error("the value of placeholder {0} is a float: give it as a text")]
    Float(usize),
    #[error("out of memory")]
    Memory,
}

impl From<AllocError> for BindError {
    ghost from_gives = { λ _ e. e ≡ bind_error.Memory };

    fn from(_e: AllocError) -> BindError {
        BindError::Memory
    }
}

impl<T: Drop> From<AllocFailed<T>> for BindError {
    ghost from_gives = { λ _ e. e ≡ bind_error.Memory };

    fn from(_e: AllocFailed<T>) -> BindError {
        BindError::Memory
    }
}

impl From<ParamsError> for BindError {
    ghost from_gives = { λ inner outer. outer ≡ bind_error_of inner };

    fn from(e: ParamsError) -> BindError {
        match e {
            ParamsError::Missing(name) => BindError::Params(ParamsError::Missing(name)),
            ParamsError::Confusion(confusion) => {
                BindError::Params(ParamsError::Confusion(confusion))
            }
            ParamsError::Memory => BindError::Memory,
        }
    }
}

/// Refuses `Mixed`, then `NotAlone`.
fn check_places(places: &[Place]) -> Result<(), BindError>
    ensures one_kind { OnOk result (has_both_kinds places.now ≡ false) }
    ensures alone { OnOk result (first_apart places.now ≡ None) }
    ensures err { IfErr result (λ e. (over : Result (List ValueOf) ParamsErrorOf) →
        bind_cause places.now over ≡ Some e) }
{
    if is_mixed(places) {
        return Err(BindError::Mixed);
    }
    match first_not_alone(places) {
        Some(place) => Err(BindError::NotAlone(place)),
        None => Ok(()),
    }
}

/// Appends the text of a set over a query, for a server in this mode. After a refusal what stood
/// before stands in front of `out`, and a part of the text may stand behind it.
///
/// # Errors
/// - `Params`.
/// - `WrongCount`.
/// - `Float` with the first such placeholder.
/// - `Memory`.
fn put_text<'a>(
    query: &[u8],
    mode: Mode,
    spelling: Spelling,
    places: &[Place],
    names: &[CowSlice<'_, u8>],
    params: &'a Params,
    values: &mut Vec<&'a Value>,
    out: &mut Vec<u8>,
) -> Result<(), BindError>
    requires places { HasPlaces (read_in mode query.now) places.now }
    requires one_kind { has_both_kinds places.now ≡ false }
    requires alone { first_apart places.now ≡ None }
    requires names { map cow_slice_items names.now ≡ names_at query.now places.now }
    ensures ok { OnOk result (Binds (read_by mode spelling query.now) params.entry.now out.old.items out.new.items) }
    ensures err { IfErr result (RefusesBinding (read_by mode spelling query.now) params.entry.now) }
    ensures kept { take (length out.old.items) out.new.items ≡ out.old.items }
{
    pieces_of_a_query();
    filled_text_is_read();
    list_values_over_names(params, names, values)?;
    if values.len() != places.len() {
        return Err(BindError::WrongCount);
    }
    let listed = values.as_slice();
    let mut at = 0;
    for i in 0..places.len() {
        let place = places[i];
        out.extend_from_slice(&query[at..place.start])?;
        match put_sql(out, listed[i], mode.no_backslash_escapes, spelling, false) {
            Ok(()) => at = place.end,
            Err(AsSqlError::Float) => return Err(BindError::Float(i)),
            Err(AsSqlError::Memory) => return Err(BindError::Memory),
        }
    }
    out.extend_from_slice(&query[at..])?;
    Ok(())
}

/// [`bind_query`] without cutting `out` back: a refusal may leave a part of the text behind.
///
/// # Errors
/// - `Params`.
/// - `WrongCount`.
/// - `Float` with the first such placeholder.
/// - `Memory`.
///
/// What stood before stands in front of `out`.
pub fn bind_query_onto<'a>(
    query: &ParsedQuery<'_>,
    params: &'a Params,
    values: &mut Vec<&'a Value>,
    out: &mut Vec<u8>,
) -> Result<(), BindError>
    requires one_kind { has_both_kinds query.now.places ≡ false }
    requires alone { first_apart query.now.places ≡ None }
    ensures ok { OnOk result (Binds query.now.sql params.entry.now out.old.items out.new.items) }
    ensures err { IfErr result (RefusesBinding query.now.sql params.entry.now) }
    ensures kept { take (length out.old.items) out.new.items ≡ out.old.items }
{
    put_text(
        query.text(),
        query.mode(),
        query.spelling(),
        query.places(),
        query.names(),
        params,
        values,
        out,
    )
}

/// Appends the text of one of many sets of a query, for a server in the query's mode.
///
/// Byte strings are in the query's spelling. What doesn't depend on the set was found once. The
/// placeholders are of one kind and stand alone. `values` keeps its room from set to set; what it
/// held leaves it, and what it then holds isn't said.
///
/// Promise: what [`bind_text_in`] promises, over a query that was parsed before (`Binds`,
/// `IsBindCause`).
///
/// # Errors
/// - `Params`.
/// - `WrongCount`.
/// - `Float` with the first such placeholder.
/// - `Memory`.
///
/// Nothing is appended then.
pub fn bind_query<'a>(
    query: &ParsedQuery<'_>,
    params: &'a Params,
    values: &mut Vec<&'a Value>,
    out: &mut Vec<u8>,
) -> Result<(), BindError>
    requires one_kind { has_both_kinds query.now.places ≡ false }
    requires alone { first_apart query.now.places ≡ None }
    ensures ok { OnOk result (Binds query.now.sql params.entry.now out.old.items out.new.items) }
    ensures err { IfErr result (RefusesBinding query.now.sql params.entry.now) }
    ensures kept { OnErr result (out.new.items ≡ out.old.items) }
{
    let start = out.len();
    let bound = bind_query_onto(query, params, values, out);
    if bound.is_err() {
        out.truncate(start);
    }
    bound
}

/// Appends the text of a set over a query as `put_text` does, for a server in the default mode.
///
/// # Errors
/// - `Params`.
/// - `WrongCount`.
/// - `Float` with the first such placeholder.
/// - `Memory`.
fn put_default_text<'a>(
    query: &[u8],
    places: &[Place],
    names: &[CowSlice<'_, u8>],
    params: &'a Params,
    values: &mut Vec<&'a Value>,
    out: &mut Vec<u8>,
) -> Result<(), BindError>
    requires places { HasPlaces (read_by_default query.now) places.now }
    requires one_kind { has_both_kinds places.now ≡ false }
    requires alone { first_apart places.now ≡ None }
    requires names { map cow_slice_items names.now ≡ names_at query.now places.now }
    ensures ok { OnOk result
        (Binds (read_by_default query.now) params.entry.now out.old.items out.new.items) }
    ensures err { IfErr result (RefusesBinding (read_by_default query.now) params.entry.now) }
    ensures kept { take (length out.old.items) out.new.items ≡ out.old.items }
{
    put_text(
        query,
        Mode::default(),
        Spelling::Quoted,
        places,
        names,
        params,
        values,
        out,
    )
}

/// Appends the text of a query whose placeholders were found before, as [`bind_text`] does.
///
/// `places` are those that [`places`](crate::places) lists, so that many sets need them found once.
/// Safe for the servers that [`bind_text`] names.
///
/// Promise: what [`bind_text`] promises, over places that are the query's (`Binds`,
/// `IsBindCause`).
///
/// # Errors
/// - Those of [`bind_text`], in its order; nothing is appended then.
pub fn bind_text_at(
    alloc: Global,
    query: &[u8],
    places: &[Place],
    params: &Params,
    out: &mut Vec<u8>,
) -> Result<(), BindError>
    requires { HasPlaces (read_by_default query.now) places.now }
    ensures ok { OnOk result
        (Binds (read_by_default query.now) params.now out.old.items out.new.items) }
    ensures err { IfErr result (RefusesBinding (read_by_default query.now) params.now) }
    ensures kept { OnErr result (out.new.items ≡ out.old.items) }
{
    pieces_of_a_query();
    check_places(places)?;
    let names = names_among(alloc, query, places)?;
    let mut values = Vec::new(alloc);
    let start = out.len();
    let bound = put_default_text(query, places, &names, params, &mut values, out);
    if bound.is_err() {
        out.truncate(start);
    }
    bound
}

/// Appends the text of a query with the literals of a set's values in the places of its
/// placeholders.
///
/// A placeholder is a question mark, or a colon and a name. A name is of `a` to `z`, `0` to `9` and
/// `_`, and begins with no digit. The set gives values by these names, without the colon. Names end
/// at the first other byte: `:aB` is the placeholder `a` before a `B`. `:Name` is none: over
/// `SELECT :Name` a set that names values is refused by `Params`.
///
/// **Safe for** a server whose SQL mode has neither NO_BACKSLASH_ESCAPES nor ANSI_QUOTES. The
/// connection is in UTF-8 or another character set in which no character hides a quote or a
/// backslash (`is_safe_to_quote`). For a server in another mode a value may end its literal, and
/// what stands behind the quote is read as SQL. [`bind_text_in`] takes the mode.
///
/// An all-zero time is written without its sign.
///
/// Promise: the text has the query's tokens with one literal in each place, and is read as the
/// set's meaning. Else it is refused exactly for its causes, the first one (`Binds`, `Lexes`,
/// `Slices`, `IsBindCause`).
///
/// # Errors
/// - `Mixed`.
/// - `NotAlone` with the first such placeholder.
/// - `Params`.
/// - `WrongCount`.
/// - `Float` with the first such placeholder.
/// - `Memory`.
///
/// Nothing is appended after an error.
pub fn bind_text(
    alloc: Global,
    query: &[u8],
    params: &Params,
    out: &mut Vec<u8>,
) -> Result<(), BindError>
    ensures ok { OnOk result
        (Binds (read_by_default query.now) params.now out.old.items out.new.items) }
    ensures err { IfErr result (RefusesBinding (read_by_default query.now) params.now) }
    ensures kept { OnErr result (out.new.items ≡ out.old.items) }
{
    bind_text_in(alloc, query, params, Mode::default(), Spelling::Quoted, out)
}

/// Appends the text that [`bind_text`] appends, for a server in this mode and with byte strings
/// spelled so.
///
/// **Safe for** a server in this mode. By [`Spelling::Quoted`] the connection is in UTF-8 or
/// another character set in which no character hides a quote or a backslash (`is_safe_to_quote`).
/// By [`Spelling::Hexadecimal`] it is in any in which bytes below 80 that follow one another are
/// themselves. Where the query's own text is the same in all modes, what is spelled in hexadecimal
/// is so too. Its literals are texts and strings of bytes also where a number is wanted, as in an
/// execution.
///
/// Promise: the text has the query's tokens with one literal in each place, and is read in this
/// mode and spelling as the set's meaning. Else it is refused exactly for its causes, the first one
/// (`Binds`, `Lexes`, `Slices`, `IsBindCause`).
///
/// # Errors
/// - `Mixed`.
/// - `NotAlone` with the first such placeholder.
/// - `Params`.
/// - `WrongCount`.
/// - `Float` with the first such placeholder.
/// - `Memory`.
///
/// Nothing is appended after an error.
///
/// (MySQL Reference Manual, "Server SQL Modes", "String Literals", "Hexadecimal Literals",
/// "Character Set Introducers", "Comments", "Optimizer Hints".)
pub fn bind_text_in(
    alloc: Global,
    query: &[u8],
    params: &Params,
    mode: Mode,
    spelling: Spelling,
    out: &mut Vec<u8>,
) -> Result<(), BindError>
    ensures ok { OnOk result (Binds (read_by mode spelling query.now) params.now out.old.items out.new.items) }
    ensures err { IfErr result (RefusesBinding (read_by mode spelling query.now) params.now) }
    ensures kept { OnErr result (out.new.items ≡ out.old.items) }
{
    pieces_of_a_query();
    let parsed = ParsedQuery::new_in(alloc, query, mode, spelling)?;
    check_places(parsed.places())?;
    let mut values = Vec::new(alloc);
    bind_query(&parsed, params, &mut values, out)
}
