//! The values of lists, and of elements of several types.

ghost use Rattle.std.specs.Prelude.{◌≡◌, ◌++◌, ◌⊎◌, IfErr, IfOk, List, OnOk, [], ◌∷◌, None, Option, Some, map};
ghost use Rattle.std.specs.Prelude.{vec_len};
ghost use Rattle.mysql_cells.specs.declared.value.Value.{Value as ValueOf};
ghost use Rattle.mysql_convert.specs.Sets.{too_long};
ghost use Rattle.mysql_values.specs.declared.params.SetError.TheVariants as set_error;

use crate::to_value::ToValue;
use crate::to_value_error::ToValueError;
use mysql_values::{SetError, Value};
use std::alloc::Global;

/// The refusal of a set for that of the value at a place.
fn refused(place: usize, error: ToValueError) -> SetError
    ensures memory { error ≡ ToValueError.Memory → result ≡ set_error.Memory }
    ensures long { error ≡ ToValueError.TooLong → result ≡ set_error.TooLong place }
{
    match error {
        ToValueError::TooLong => SetError::TooLong(place),
        ToValueError::Memory => SetError::Memory,
    }
}

/// The value of the element at a place. Refuses `TooLong` with the place, `Memory`.
fn value_at<T: ToValue>(alloc: Global, place: usize, x: &T) -> Result<Value, SetError>
    ensures ok { IfOk result (λ value. T.as_value x.now ≡ Some value) }
    ensures err { IfErr result (λ e. (e ≡ set_error.Memory) ⊎
        ((e ≡ set_error.TooLong place) × (T.as_value x.now ≡ None))) }
{
    match x.to_value(alloc) {
        Ok(value) => Ok(value),
        Err(error) => Err(refused(place, error)),
    }
}

/// The values of a list, in order. Refuses `TooLong` with the least place, `Memory`.
pub(crate) fn values_of_list<T: ToValue>(alloc: Global, list: &[T]) -> Result<Vec<Value>, SetError>
    ensures ok { IfOk result (λ values. map T.as_value list.now ≡ map Some values.items) }
    ensures err { IfErr result (λ e. (e ≡ set_error.Memory) ⊎ (too_long 0 (map T.as_value list.now) ≡ Some e)) }
{
    let mut values = Vec::with_capacity(alloc, list.len())?;
    for (place, x) in list.iter().enumerate() {
        let value = value_at(alloc, place, x)?;
        values.push_reserved(value);
    }
    Ok(values)
}

/// Elements of several types, one after another.
pub(crate) trait Elements {
    // the values that they convert to, in order
    ghost as_values: { Self → List (Option ValueOf) };

    /// Appends the values.
    ///
    /// # Errors
    /// - `TooLong` with the least place.
    /// - `Memory`.
    fn push_to(&self, alloc: Global, values: &mut Vec<Value>) -> Result<(), SetError>
        ensures ok { OnOk result (map Some values.new.items ≡ map Some values.old.items ++ as_values self.now) }
        ensures err { IfErr result (λ e. (e ≡ set_error.Memory) ⊎
            (too_long (vec_len values.old) (as_values self.now) ≡ Some e)) };
}

impl Elements for () {
    ghost as_values = { λ _. [] };

    fn push_to(&self, _alloc: Global, _values: &mut Vec<Value>) -> Result<(), SetError> {
        Ok(())
    }
}

impl<T: ToValue, R: Elements> Elements for (&T, R) {
    ghost as_values = { λ elements. T.as_value elements.0.now ∷ R.as_values elements.1 };

    fn push_to(&self, alloc: Global, values: &mut Vec<Value>) -> Result<(), SetError> {
        let value = value_at(alloc, values.len(), self.0)?;
        values.push(value)?;
        self.1.push_to(alloc, values)
    }
}

/// These elements in order, lent.
macro_rules! in_order {
    () => { () };
    ($first:expr $(, $rest:expr)* $(,)?) => { (&$first, $crate::objects::in_order!($($rest),*)) };
}

pub(crate) use in_order;
