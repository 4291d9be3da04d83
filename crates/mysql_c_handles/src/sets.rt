//! What parameter sets hold.

ghost use Rattle.std.specs.Prelude.{◌≡◌, MatchResult, Some, None};
ghost use Rattle.mysql_c_handles.specs.declared.code.Code.TheVariants as code;
ghost use Rattle.mysql_c_handles.specs.Sets.{set_held, unheld_code, value_held, values_held};

use crate::code::Code;
use crate::object::Object;
use mysql_values::{Params, Value};

impl Object {
    /// The set of a number, from 0.
    pub fn set_at(&self, set: usize) -> Result<&Params, Code>
        ensures { MatchResult result (λ params. (set_held self.now set ≡ Some params.now) ×
            (unheld_code self.now ≡ code.OutOfRange)) (λ e. (set_held self.now set ≡ None) ×
            (e ≡ unheld_code self.now)) }
    {
        match self {
            Object::Sets(sets) => match sets.sets.get(set) {
                Some(params) => Ok(params),
                None => Err(Code::OutOfRange),
            },
            Object::Empty => Err(Code::EmptyHandle),
            _ => Err(Code::OtherKind),
        }
    }

    /// The values of the set of a number, by their order.
    pub fn values_at(&self, set: usize) -> Result<&[Value], Code>
        ensures { MatchResult result (λ values. (values_held self.now set ≡ Some values.now) ×
            (unheld_code self.now ≡ code.OutOfRange)) (λ e. (values_held self.now set ≡ None) ×
            (e ≡ unheld_code self.now)) }
    {
        match self.set_at(set) {
            Ok(Params::Positional(values)) => Ok(values),
            Ok(_) => Err(Code::OutOfRange),
            Err(code) => Err(code),
        }
    }

    /// The value at a place of the set of a number, both from 0.
    pub fn value_at(&self, set: usize, place: usize) -> Result<&Value, Code>
        ensures { MatchResult result (λ value. value_held self.now set place ≡
            Some value.now) (λ e. (value_held self.now set place ≡ None) ×
            (e ≡ unheld_code self.now)) }
    {
        match self.values_at(set) {
            Ok(values) => match values.get(place) {
                Some(value) => Ok(value),
                None => Err(Code::OutOfRange),
            },
            Err(code) => Err(code),
        }
    }
}
