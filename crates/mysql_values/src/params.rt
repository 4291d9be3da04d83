//! Parameter sets of a query: values in order, or by name.
//!
//!     let query = ParsedNamedParams::parse(alloc, b"SELECT ? + 1")?;
//!     let params = Params::Positional(values);
//!     let lent = params.values_for(alloc, &query)?;

ghost use Rattle.mysql_values.specs.Params.{IsMissing, IsPositional, names_given, value_named, values_named};
ghost use Rattle.mysql_values.specs.Params.{values_over};
ghost use Rattle.std.specs.Prelude.{◌≡◌, ◌⊎◌, Err, IfErr, IfOk, List, Ok, OnOk, map, option_copied, ℕ};
ghost use Rattle.mysql_values.specs.declared.params.ParamsError.TheVariants as params_error;
ghost use Rattle.mysql_values.specs.declared.params.SetError.TheVariants as set_error;

use mysql_bytes::ByteString;
use mysql_cells::Value;
use mysql_queries::ParsedNamedParams;
use std::alloc::{AllocError, AllocFailed, Global};
use std::collections::HashMap;
use std::convert::AsSlice;
use thiserror::Error;

/// A set of parameters of a query.
#[derive(Debug, PartialEq, Eq, Drop)]
pub enum Params {
    /// No values.
    Empty,
    /// A value for each name.
    Named(HashMap<Vec<u8>, Value>),
    /// The values in order.
    Positional(Vec<Value>),
}

/// The first name of a query for which a set has no value.
#[derive(Debug, PartialEq, Eq, Hash, Drop, Error)]
#[error("the named parameter {name} has no value", name = .0.as_slice().escape_ascii())]
pub struct MissingNamedParameterError(pub ByteString);

impl MissingNamedParameterError {
    /// A copy.
    ///
    /// # Errors
    /// - `AllocError` for want of memory.
    pub fn clone(&self, alloc: Global) -> Result<MissingNamedParameterError, AllocError>
        ensures { IfOk result (λ copy. copy ≡ self.now) }
    {
        Ok(MissingNamedParameterError(self.0.clone(alloc)?))
    }
}

/// A set of the other kind than the query's placeholders.
#[derive(Clone, Copy, Debug, PartialEq, Eq, Hash, Error)]
pub enum ParamsConfusionError {
    /// Names for a query that has none.
    #[error("named parameters for a query without names: give the values in order")]
    NamedParamsForPositionalQuery,
    /// A list of values for a query with names.
    #[error("positional parameters for a query with names: name each value")]
    PositionalParamsForNamedQuery,
}

/// Why a set gives a query no values.
#[derive(Debug, PartialEq, Eq, Hash, Drop, Error)]
pub enum ParamsError {
    #[error(transparent)]
    Missing(MissingNamedParameterError),
    #[error(transparent)]
    Confusion(ParamsConfusionError),
    #[error("out of memory")]
    Memory,
}

impl ParamsError {
    /// A copy.
    ///
    /// # Errors
    /// - `AllocError` for want of memory.
    pub fn clone(&self, alloc: Global) -> Result<ParamsError, AllocError>
        ensures { IfOk result (λ copy. copy ≡ self.now) }
    {
        match self {
            ParamsError::Missing(error) => Ok(ParamsError::Missing(error.clone(alloc)?)),
            ParamsError::Confusion(confusion) => Ok(ParamsError::Confusion(*confusion)),
            ParamsError::Memory => Ok(ParamsError::Memory),
        }
    }
}

impl From<AllocError> for ParamsError {
    ghost from_gives = { λ _ e. e ≡ params_error.Memory };

    fn from(_e: AllocError) -> ParamsError {
        ParamsError::Memory
    }
}

impl<T: Drop> From<AllocFailed<T>> for ParamsError {
    ghost from_gives = { λ _ e. e ≡ params_error.Memory };

    fn from(_e: AllocFailed<T>) -> ParamsError {
        ParamsError::Memory
    }
}

/// Why no parameter set is made of what was handed in.
#[derive(Debug, PartialEq, Eq, Hash, Drop, Error)]
pub enum SetError {
    #[error(transparent)]
    Params(ParamsError),
    /// The first name that an earlier pair has too.
    #[error("the named parameter {name} is given twice", name = .0.as_slice().escape_ascii())]
    Redefined(ByteString),
    /// The least place whose value is too long.
    #[error("the value at place {0} is too long: a time has at most 4294967295 days")]
    TooLong(usize),
    #[error("out of memory")]
    Memory,
}

impl From<AllocError> for SetError {
    ghost from_gives = { λ _ e. e ≡ set_error.Memory };

    fn from(_e: AllocError) -> SetError {
        SetError::Memory
    }
}

impl<T: Drop> From<AllocFailed<T>> for SetError {
    ghost from_gives = { λ _ e. e ≡ set_error.Memory };

    fn from(_e: AllocFailed<T>) -> SetError {
        SetError::Memory
    }
}

/// The value of a name.
fn find<'a>(entries: &'a HashMap<Vec<u8>, Value>, name: &[u8]) -> Option<&'a Value>
    ensures { option_copied result ≡ value_named name.now entries.entry.now.entries }
{
    entries.get(name)
}

/// Lists the value of each name, in order, in place of what the list holds.
///
/// Refuses `Missing` with the first name that has none, `Memory`.
fn look_up<'a, N: AsSlice<u8>>(
    entries: &'a HashMap<Vec<u8>, Value>,
    names: &[N],
    values: &mut Vec<&'a Value>,
) -> Result<(), ParamsError>
    ensures ok { OnOk result (values_named entries.entry.now.entries (map N.items names.now) ≡
        Ok (map (λ value. value.now) values.new.items)) }
    ensures err { IfErr result (λ e. (e ≡ params_error.Memory) ⊎
        (values_named entries.entry.now.entries (map N.items names.now) ≡ Err e)) }
{
    values.clear();
    values.reserve(names.len())?;
    for name in names {
        let Some(value) = find(entries, name.as_slice()) else {
            let name = ByteString::copy(*values.allocator(), name.as_slice())?;
            return Err(ParamsError::Missing(MissingNamedParameterError(name)));
        };
        values.push(value)?;
    }
    Ok(())
}

/// Lists the values by reference, in place of what the list holds.
fn list_references<'a>(values: &'a [Value], listed: &mut Vec<&'a Value>) -> Result<(), AllocError>
    ensures { OnOk result (map (λ value. value.now) listed.new.items ≡ values.entry.now) }
{
    listed.clear();
    listed.reserve(values.len())?;
    for value in values {
        listed.push_reserved(value);
    }
    Ok(())
}

/// Lists the values that a set gives a query with these names, in place of what the list holds.
///
/// # Errors
/// - Those of [`Params::values_for`]. What the list then holds isn't said.
pub fn list_values_over_names<'a, N: AsSlice<u8>>(
    params: &'a Params,
    names: &[N],
    values: &mut Vec<&'a Value>,
) -> Result<(), ParamsError>
    ensures ok { OnOk result (values_over (map N.items names.now) params.entry.now ≡
        Ok (map (λ value. value.now) values.new.items)) }
    ensures err { IfErr result (λ e. (e ≡ params_error.Memory) ⊎
        (values_over (map N.items names.now) params.entry.now ≡ Err e)) }
{
    match params {
        Params::Empty => {
            values.clear();
            Ok(())
        }
        Params::Positional(given) => {
            if names.is_empty() {
                Ok(list_references(given, values)?)
            } else {
                Err(ParamsError::Confusion(ParamsConfusionError::PositionalParamsForNamedQuery))
            }
        }
        Params::Named(entries) => {
            if names.is_empty() {
                Err(ParamsError::Confusion(ParamsConfusionError::NamedParamsForPositionalQuery))
            } else {
                look_up(entries, names, values)
            }
        }
    }
}

/// Copies of the values.
fn copies(alloc: Global, values: &[&Value]) -> Result<Vec<Value>, AllocError>
    ensures { IfOk result (λ copies. copies.items ≡ map (λ value. value.now) values.now) }
{
    let mut copies = Vec::with_capacity(alloc, values.len())?;
    for value in values {
        let value: &Value = *value;
        copies.push(value.clone(alloc)?)?;
    }
    Ok(copies)
}

/// The value of each name, in order, copied.
///
/// Refuses `Missing` with the first name that has none, `Memory`.
fn copies_of(
    alloc: Global,
    entries: &HashMap<Vec<u8>, Value>,
    names: &[Vec<u8>],
) -> Result<Vec<Value>, ParamsError>
    ensures ok { IfOk result (λ values. values_named entries.now.entries
        (map (λ name. name.items) names.now) ≡ Ok values.items) }
    ensures err { IfErr result (λ e. (e ≡ params_error.Memory) ⊎
        (values_named entries.now.entries (map (λ name. name.items) names.now) ≡ Err e)) }
{
    let mut values = Vec::new(alloc);
    look_up(entries, names, &mut values)?;
    Ok(copies(alloc, &values)?)
}

impl Params {
    /// A copy of the set, which gives each query what the set gives it.
    ///
    /// # Errors
    /// - `AllocError` for want of memory.
    pub fn clone(&self, alloc: Global) -> Result<Params, AllocError>
        ensures { IfOk result (λ copy. (names : List (List ℕ)) → values_over names copy ≡ values_over names self.now) }
    {
        match self {
            Params::Empty => Ok(Params::Empty),
            Params::Named(entries) => Ok(Params::Named(entries.clone()?)),
            Params::Positional(values) => {
                Ok(Params::Positional(Vec::from_clones(alloc, values.as_slice())?))
            }
        }
    }

    /// The values that the set gives a query, in the order of its placeholders, lent.
    ///
    /// A set by name looks up each name of the query, a name that occurs twice twice; names that
    /// the query lacks are left aside.
    ///
    /// Promise: the values are those that the set gives the query, or its first error
    /// (`values_over`).
    ///
    /// # Errors
    /// - `Missing` with the first name that has no entry.
    /// - `Confusion` for names over a query without names, and for a list of values over a query
    ///   with names.
    /// - `Memory`.
    pub fn values_for<'a>(
        &'a self,
        alloc: Global,
        query: &ParsedNamedParams<'_>,
    ) -> Result<Vec<&'a Value>, ParamsError>
        ensures ok { IfOk result (λ values. values_over query.now.names self.entry.now ≡
            Ok (map (λ value. value.now) values.items)) }
        ensures err { IfErr result (λ e. (e ≡ params_error.Memory) ⊎
            (values_over query.now.names self.entry.now ≡ Err e)) }
    {
        let mut values = Vec::new(alloc);
        self.list_values_for(query, &mut values)?;
        Ok(values)
    }

    /// Lists the values of [`Params::values_for`] in `values`, whose room is kept from set to set.
    ///
    /// What the list held leaves it.
    ///
    /// # Errors
    /// - Those of [`Params::values_for`]. What the list then holds isn't said.
    pub fn list_values_for<'a>(
        &'a self,
        query: &ParsedNamedParams<'_>,
        values: &mut Vec<&'a Value>,
    ) -> Result<(), ParamsError>
        ensures ok { OnOk result (values_over query.now.names self.entry.now ≡
            Ok (map (λ value. value.now) values.new.items)) }
        ensures err { IfErr result (λ e. (e ≡ params_error.Memory) ⊎
            (values_over query.now.names self.entry.now ≡ Err e)) }
    {
        list_values_over_names(self, query.params(), values)
    }

    /// The values that the set gives a query with these names, in the order of its placeholders.
    ///
    /// An empty list of names counts as none.
    ///
    /// # Errors
    /// - `Missing` with the first name that has no entry.
    /// - `Confusion` for names over a query without names, and for a list of values over a query
    ///   with names.
    /// - `Memory`.
    pub fn into_values(
        self,
        alloc: Global,
        named_params: Option<&[Vec<u8>]>,
    ) -> Result<Vec<Value>, ParamsError>
        ensures ok { IfOk result (λ values. values_over
            (names_given (option_copied named_params.entry)) self ≡ Ok values.items) }
        ensures err { IfErr result (λ e. (e ≡ params_error.Memory) ⊎
            (values_over (names_given (option_copied named_params.entry)) self ≡ Err e)) }
    {
        let names = named_params.unwrap_or(&[]);
        match self {
            Params::Empty => Ok(Vec::new(alloc)),
            Params::Positional(values) => {
                if names.is_empty() {
                    Ok(values)
                } else {
                    Err(ParamsError::Confusion(ParamsConfusionError::PositionalParamsForNamedQuery))
                }
            }
            Params::Named(entries) => {
                if names.is_empty() {
                    return Err(ParamsError::Confusion(
                        ParamsConfusionError::NamedParamsForPositionalQuery,
                    ));
                }
                copies_of(alloc, &entries, names)
            }
        }
    }

    /// The set by place: a set by name becomes the list of these names' values.
    ///
    /// Any other set stays as it is.
    ///
    /// Promise: the set gives by place what it gave these names, or the first name without a value
    /// is named (`IsPositional`).
    ///
    /// # Errors
    /// - `Missing` with the first name that has no entry.
    /// - `Memory`.
    pub fn into_positional(
        self,
        alloc: Global,
        named_params: &[Vec<u8>],
    ) -> Result<Params, ParamsError>
        ensures ok { IfOk result (λ set. IsPositional (map (λ name. name.items) named_params.now) self set) }
        ensures err { IfErr result (λ e. (e ≡ params_error.Memory) ⊎
            IsMissing (map (λ name. name.items) named_params.now) self e) }
    {
        match self {
            Params::Empty => Ok(Params::Empty),
            Params::Positional(values) => Ok(Params::Positional(values)),
            Params::Named(entries) => {
                Ok(Params::Positional(copies_of(alloc, &entries, named_params)?))
            }
        }
    }
}
