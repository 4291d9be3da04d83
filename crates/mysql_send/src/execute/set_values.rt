//! The values that a set gives a statement.

ghost use Rattle.std.specs.Prelude.{◌≡◌, IfErr, None, OnOk, Some, map};
ghost use Rattle.std.specs.List.{AllByRecursion};
ghost use Rattle.mysql_values.specs.Values.{FitsFields};
ghost use Rattle.mysql_values.specs.Binding.{values_cause};
ghost use Rattle.mysql_values.specs.Values.{first_float as float_at};
ghost use Rattle.mysql_command_rules.specs.declared.refusal.Refusal.TheVariants as refusals;
ghost use Rattle.mysql_send.specs.Executions.{refusal_of};

use mysql_cells::value::is_float;
use mysql_command_rules::Refusal;
use mysql_stmt::HasValue;
use mysql_values::laws::fields_fit;
use mysql_values::{ParamsError, SetError};

/// The first value that is a float.
fn first_float<V: HasValue>(values: &[V]) -> Option<usize>
    ensures { result ≡ float_at (map V.value values.now) }
{
    for (place, value) in values.iter().enumerate() {
        if is_float(value.value()) {
            return Some(place);
        }
    }
    None
}

/// The refusal of a set that gives no values.
pub fn refused(set: usize, error: ParamsError) -> Refusal
    ensures { result ≡ refusal_of set error }
{
    match error {
        ParamsError::Memory => Refusal::Memory,
        ParamsError::Missing(name) => {
            Refusal::Params(set, SetError::Params(ParamsError::Missing(name)))
        }
        ParamsError::Confusion(confusion) => {
            Refusal::Params(set, SetError::Params(ParamsError::Confusion(confusion)))
        }
    }
}

/// Checks that a set's values are as many as the placeholders, and none is a float.
///
/// `set` is the set's number.
///
/// # Errors
/// - `WrongCount`.
/// - `Float` with the least place.
pub fn check_values<V: HasValue>(values: &[V], places: usize, set: usize) -> Result<(), Refusal>
    ensures ok { OnOk result (values_cause (refusals.WrongCount set)
        (λ place. refusals.Float set place) places (map V.value values.now) ≡ None) }
    ensures err { IfErr result
        (λ refusal. values_cause (refusals.WrongCount set) (λ place. refusals.Float set place)
        places (map V.value values.now) ≡ Some refusal) }
{
    if values.len() != places {
        return Err(Refusal::WrongCount(set));
    }
    match first_float(values) {
        Some(place) => Err(Refusal::Float(set, place)),
        None => Ok(()),
    }
}

/// The numbers of values fit their fields.
pub fn values_fit<V: HasValue>(values: &[V])
    ensures { AllByRecursion (λ value. FitsFields value) (map V.value values.now) }
{
    for value in values {
        fields_fit(value.value());
    }
}
