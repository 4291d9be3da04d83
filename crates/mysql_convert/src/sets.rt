//! Parameter sets made of lists, pairs, tuples and boxed objects.
//!
//!     let by_place = (number, "abc").into_params(alloc)?;
//!     let by_name = pairs.into_params(alloc)?;

ghost use Rattle.std.specs.Prelude.{◌≡◌, ◌++◌, ◌⊎◌, IfErr, IfOk, List, OnOk, [], None, Option, Some};
ghost use Rattle.std.specs.Prelude.{if◌then◌else◌, is_none, is_some, map, nat_eq, ℕ};
ghost use Rattle.std.specs.Cmp.Lexicographic.{pointwise};
ghost use Rattle.std.specs.Option.{option_or};
ghost use Rattle.mysql_values.specs.Params.{value_named};
ghost use Rattle.mysql_convert.specs.Sets.{IsMadeOf, Parts, set_cause, too_long};
ghost use Rattle.mysql_convert.specs.Sets.Parts.{ByName, InOrder};
ghost use Rattle.mysql_values.specs.declared.params.SetError.TheVariants as set_error;

use crate::objects::{Elements, values_of_list};
use crate::to_value::ToValue;
use crate::to_value_error::ToValueError;
use mysql_values::{ByteString, Params, SetError, Value};
use std::alloc::Global;
use std::collections::HashMap;
use std::convert::AsSlice;

/// What a parameter set is made of.
///
/// A list (`Vec<T>`, `&[T]`) and a tuple of 1 to 12 elements make a set of their values in order.
/// `()` and a list without elements make the empty set. A list of pairs of a name (text or bytes,
/// without the colon) and a value makes a set of a value for each name. So it does where it has no
/// pairs. A list of `Box<dyn ToValue + Drop>` holds values of several types. A reference to any of
/// these makes the set of what it refers to.
///
/// The values are copied: `into_params` drops what it takes, `to_params` leaves it.
///
/// Promise: the set has each value in order or by its name. No pair is left out, and of two equal
/// names none is kept (`set_cause`).
pub trait IntoParams: Sized + Drop {
    // its values in order, or beside their names
    ghost parts: { Self → Parts };

    /// The set of the values.
    ///
    /// Promise: the set has each value in order or by its name, or it is refused for `Redefined`
    /// before `TooLong` (`IsMadeOf`, `set_cause`).
    ///
    /// # Errors
    /// - `Redefined` with the first name that an earlier pair has.
    /// - `TooLong` with the least place whose value is too long.
    /// - `Memory`.
    fn to_params(&self, alloc: Global) -> Result<Params, SetError>
        ensures ok { IfOk result (IsMadeOf (parts self.now)) }
        ensures none { OnOk result (set_cause (parts self.now) ≡ None) }
        ensures err { IfErr result (λ e. (e ≡ set_error.Memory) ⊎ (set_cause (parts self.now) ≡ Some e)) };

    /// The set of the values, as `to_params` makes it.
    ///
    /// # Errors
    /// - Those of `to_params`.
    final fn into_params(self, alloc: Global) -> Result<Params, SetError>
        ensures ok { IfOk result (IsMadeOf (parts self)) }
        ensures none { OnOk result (set_cause (parts self) ≡ None) }
        ensures err { IfErr result (λ e. (e ≡ set_error.Memory) ⊎ (set_cause (parts self) ≡ Some e)) }
    {
        self.to_params(alloc)
    }
}

/// A set of values in order.
fn set_of(values: Vec<Value>) -> Params
    ensures { IsMadeOf (InOrder (map Some values.items)) result }
{
    if values.is_empty() {
        Params::Empty
    } else {
        Params::Positional(values)
    }
}

/// A set of the values of a list.
#[inline(always)]
pub(crate) fn set_of_list<T: ToValue>(alloc: Global, list: &[T]) -> Result<Params, SetError>
    ensures ok { IfOk result (IsMadeOf (InOrder (map T.as_value list.now))) }
    ensures none { OnOk result (set_cause (InOrder (map T.as_value list.now)) ≡ None) }
    ensures err { IfErr result (λ e. (e ≡ set_error.Memory) ⊎
        (set_cause (InOrder (map T.as_value list.now)) ≡ Some e)) }
{
    Ok(set_of(values_of_list(alloc, list)?))
}

/// A set of the values of some elements and of those behind them.
pub(crate) fn set_of_elements<E: Elements, F: Elements>(
    alloc: Global,
    first: &E,
    second: &F,
) -> Result<Params, SetError>
    ensures ok { IfOk result (IsMadeOf (InOrder (E.as_values first.now ++ F.as_values second.now))) }
    ensures none { OnOk result (too_long 0 (E.as_values first.now ++ F.as_values second.now) ≡ None) }
    ensures err { IfErr result (λ e. (e ≡ set_error.Memory) ⊎
        (too_long 0 (E.as_values first.now ++ F.as_values second.now) ≡ Some e)) }
{
    let mut values = Vec::new(alloc);
    first.push_to(alloc, &mut values)?;
    second.push_to(alloc, &mut values)?;
    Ok(set_of(values))
}

/// The value of an element; None where it is too long.
fn value_if_short<T: ToValue>(alloc: Global, x: &T) -> Result<Option<Value>, SetError>
    ensures ok { IfOk result (λ found. T.as_value x.now ≡ found) }
    ensures err { IfErr result (λ e. e ≡ set_error.Memory) }
{
    match x.to_value(alloc) {
        Ok(value) => Ok(Some(value)),
        Err(ToValueError::TooLong) => Ok(None),
        Err(ToValueError::Memory) => Err(SetError::Memory),
    }
}

/// The least place whose value is too long, with one more value seen.
fn first_long_at(first: Option<usize>, place: usize, found: &Option<Value>) -> Option<usize>
    ensures { result ≡ option_or first (if is_none found.now then Some place else None) }
{
    if first.is_none() && found.is_none() {
        Some(place)
    } else {
        first
    }
}

/// Puts a value under a name. Whether the name had one.
fn put_entry(
    alloc: Global,
    entries: &mut HashMap<Vec<u8>, Value>,
    name: &[u8],
    value: Value,
) -> Result<bool, SetError>
    ensures stood { IfOk result (λ stood. stood ≡ is_some (value_named name.now entries.old.entries)) }
    ensures put { OnOk result ((other : List ℕ) → value_named other entries.new.entries
        ≡ (if pointwise nat_eq other name.now then Some value else value_named other entries.old.entries)) }
    ensures err { IfErr result (λ e. e ≡ set_error.Memory) }
{
    let name = Vec::from_slice(alloc, name)?;
    Ok(entries.insert(name, value)?.is_some())
}

/// A set of a value for each name. Refuses `Redefined`, then `TooLong`.
fn named_set<N: AsSlice<u8>, V: ToValue>(
    alloc: Global,
    pairs: &[(N, V)],
) -> Result<Params, SetError>
    ensures ok { IfOk result (IsMadeOf (ByName (map (λ pair. (N.items pair.0, V.as_value pair.1)) pairs.now))) }
    ensures none { OnOk result
        (set_cause (ByName (map (λ pair. (N.items pair.0, V.as_value pair.1)) pairs.now)) ≡ None) }
    ensures err { IfErr result (λ e. (e ≡ set_error.Memory) ⊎
        (set_cause (ByName (map (λ pair. (N.items pair.0, V.as_value pair.1)) pairs.now)) ≡ Some e)) }
{
    let mut entries = HashMap::new(alloc);
    let mut first_long = None;
    for (place, pair) in pairs.iter().enumerate() {
        let found = value_if_short(alloc, &pair.1)?;
        first_long = first_long_at(first_long, place, &found);
        let name = pair.0.as_slice();
        if put_entry(alloc, &mut entries, name, found.unwrap_or(Value::NULL))? {
            return Err(SetError::Redefined(ByteString::copy(alloc, name)?));
        }
    }
    match first_long {
        Some(place) => Err(SetError::TooLong(place)),
        None => Ok(Params::Named(entries)),
    }
}

/// No values.
impl IntoParams for () {
    ghost parts = { λ _. InOrder [] };

    fn to_params(&self, _alloc: Global) -> Result<Params, SetError> {
        Ok(Params::Empty)
    }
}

impl<T: IntoParams> IntoParams for &T {
    ghost parts = { λ x. T.parts x.now };

    fn to_params(&self, alloc: Global) -> Result<Params, SetError> {
        (**self).to_params(alloc)
    }
}

impl<T: ToValue + Drop> IntoParams for Vec<T> {
    ghost parts = { λ list. InOrder (map T.as_value list.items) };

    fn to_params(&self, alloc: Global) -> Result<Params, SetError> {
        set_of_list(alloc, self)
    }
}

impl<N: AsSlice<u8> + Drop, V: ToValue + Drop> IntoParams for Vec<(N, V)> {
    ghost parts = { λ list. ByName (map (λ pair. (N.items pair.0, V.as_value pair.1)) list.items) };

    fn to_params(&self, alloc: Global) -> Result<Params, SetError> {
        named_set(alloc, self)
    }
}

impl<T: ToValue> IntoParams for &[T] {
    ghost parts = { λ list. InOrder (map T.as_value list.now) };

    #[inline(always)]
    fn to_params(&self, alloc: Global) -> Result<Params, SetError> {
        set_of_list(alloc, *self)
    }
}
