//! Conversions that can still be undone, and those of values and of options.
//!
//!     let step: ParseIrOpt<u32> = get_intermediate::<u32>(value)?;
//!     let number = step.commit();
//!     let step: OptionIr2<u32> = get_intermediate::<Option<u32>>(other)?;
//!     let other = step.rollback(alloc)?;

ghost use Rattle.std.specs.Prelude.{Option, Some, None};
ghost use Rattle.std.specs.Option.{option_map};
ghost use Rattle.mysql_cells.specs.declared.value.Value.{Value as ValueOf};
ghost use Rattle.mysql_cells.specs.declared.value.Value.TheVariants.{NULL};
ghost use Rattle.mysql_convert.specs.Conversions.{converted_if_some};
ghost use Rattle.mysql_convert.specs.Intermediates.{committed_of, rolled_back_of};
ghost use Rattle.mysql_convert.specs.declared.intermediates.OptionIr2.TheVariants as option_step;

use crate::conversion::{FromValue, Intermediate};
use crate::errors::FromValueError;
use crate::to_value::ToValue;
use crate::to_value_error::ToValueError;
use mysql_cells::Value;
use std::alloc::{AllocError, Global};

/// What was parsed from a value, and that value.
///
/// No type of this crate is read by it: it is for types of callers.
#[derive(Drop)]
pub struct ParseIr<T>(pub T, pub Value);

/// What was read from a value without parsing, or what was parsed from a value, and that value.
#[derive(Drop)]
pub enum ParseIrOpt<T> {
    Ready(T),
    Parsed(T, Value),
}

/// None for `NULL`, and otherwise what is between the value and the type of an option.
#[derive(Drop)]
pub enum OptionIr2<T: FromValue> {
    None,
    Some(T::Intermediate),
}

/// The value as it is.
#[derive(Drop)]
pub struct ValueIr(pub Value);

impl Intermediate<Value> for ValueIr {
    ghost committed = { λ step. step.0 };

    ghost rolled_back = { λ step. Some step.0 };

    fn commit(self) -> Value {
        self.0
    }

    fn rollback(self, _alloc: Global) -> Result<Value, ToValueError> {
        Ok(self.0)
    }
}

impl FromValue for Value {
    type Intermediate = ValueIr;

    ghost Shown = { ValueOf };

    ghost shown = { λ value. value };

    ghost converted = { λ value. Some value };

    fn get_intermediate(value: Value) -> Result<ValueIr, FromValueError> {
        Ok(ValueIr(value))
    }

    #[inline(always)]
    fn from_value_ref_opt(
        alloc: Global,
        value: &Value,
    ) -> Result<Result<Value, FromValueError>, AllocError> {
        Ok(Ok(value.clone(alloc)?))
    }
}

impl<T: Drop> Intermediate<T> for ParseIr<T> {
    ghost committed = { λ step. step.0 };

    ghost rolled_back = { λ step. Some step.1 };

    fn commit(self) -> T {
        self.0
    }

    fn rollback(self, _alloc: Global) -> Result<Value, ToValueError> {
        Ok(self.1)
    }
}

impl<T: ToValue + Drop> Intermediate<T> for ParseIrOpt<T> {
    ghost committed = { committed_of };

    ghost rolled_back = { rolled_back_of T.as_value };

    fn commit(self) -> T {
        match self {
            ParseIrOpt::Ready(x) => x,
            ParseIrOpt::Parsed(x, _) => x,
        }
    }

    fn rollback(self, alloc: Global) -> Result<Value, ToValueError> {
        match self {
            ParseIrOpt::Ready(x) => x.to_value(alloc),
            ParseIrOpt::Parsed(_, value) => Ok(value),
        }
    }
}

impl<T: FromValue> Intermediate<Option<T>> for OptionIr2<T> {
    ghost committed = { elim [
      | option_step.None ↦ None
      | option_step.Some step ↦ Some
          (T.Intermediate.committed step)
    ] };

    ghost rolled_back = { elim [
      | option_step.None ↦ Some NULL
      | option_step.Some
          step ↦ T.Intermediate.rolled_back step
    ] };

    fn commit(self) -> Option<T> {
        match self {
            OptionIr2::None => None,
            OptionIr2::Some(step) => Some(step.commit()),
        }
    }

    fn rollback(self, alloc: Global) -> Result<Value, ToValueError> {
        match self {
            OptionIr2::None => Ok(Value::NULL),
            OptionIr2::Some(step) => step.rollback(alloc),
        }
    }
}

impl<T: FromValue> FromValue for Option<T> {
    type Intermediate = OptionIr2<T>;

    ghost Shown = { Option T.Shown };

    ghost shown = { option_map T.shown };

    ghost converted = { converted_if_some T.converted };

    fn get_intermediate(value: Value) -> Result<OptionIr2<T>, FromValueError> {
        if let Value::NULL = &value {
            return Ok(OptionIr2::None);
        }
        Ok(OptionIr2::Some(T::get_intermediate(value)?))
    }

    #[inline(always)]
    fn from_value_ref_opt(
        alloc: Global,
        value: &Value,
    ) -> Result<Result<Option<T>, FromValueError>, AllocError> {
        if let Value::NULL = value {
            return Ok(Ok(None));
        }
        match T::from_value_ref_opt(alloc, value)? {
            Ok(x) => Ok(Ok(Some(x))),
            Err(e) => Ok(Err(e)),
        }
    }
}
