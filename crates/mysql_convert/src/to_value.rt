//! The trait of types that convert to values.
//!
//!     let text = "abc".to_value(alloc)?;
//!     let time = duration.to_value(alloc)?;

ghost use Rattle.std.specs.Prelude.{◌≡◌, ◌⊎◌, IfErr, IfOk, None, Option, Some};
ghost use Rattle.mysql_cells.specs.declared.value.Value.{Value as ValueOf};
ghost use Rattle.mysql_convert.specs.Values.{value_or_null};
ghost use Rattle.mysql_convert.specs.declared.to_value_error.ToValueError.TheVariants as to_value_error;

use crate::to_value_error::ToValueError;
use mysql_cells::Value;
use std::alloc::Global;

/// A type that converts to a [`Value`].
///
/// Whole numbers convert to `Int`, but `u64` and `usize` to `UInt`. `i128` and `u128` convert to
/// `Int` where they fit, else to `UInt`, else to `Bytes` of their digits. `bool` converts to `Int`
/// of 0 or 1, texts and bytes to `Bytes`, `Duration` to `Time`, rounded half up to microseconds.
/// None converts to `NULL`, a `Content` to the value that carries it, and a `Value` to itself.
///
/// An impl says by `as_value` which value it gives. `Box<dyn ToValue + Drop>` is such a type too,
/// so that a list can hold values of several types.
pub trait ToValue {
    // the value that it converts to, none where it is too long for any
    ghost as_value: { Self → Option ValueOf };

    /// The value that this converts to.
    ///
    /// Promise: the value is the one that the type's definition says, of callers' impls too;
    /// `TooLong` is answered exactly where there is none.
    ///
    /// # Errors
    /// - `TooLong` for a duration of more than 2^32-1 days.
    /// - `Memory`.
    fn to_value(&self, alloc: Global) -> Result<Value, ToValueError>
        ensures ok { IfOk result (λ value. as_value self.now ≡ Some value) }
        ensures err { IfErr result (λ e. (e ≡ to_value_error.Memory) ⊎
            ((e ≡ to_value_error.TooLong) × (as_value self.now ≡ None))) };
}

/// A copy of a value of a kind that few have. It stands apart, so that the others are answered in
/// place.
#[inline(never)]
fn copy_rare(alloc: Global, value: &Value) -> Result<Value, ToValueError>
    ensures ok { IfOk result (λ copy. copy ≡ value.now) }
    ensures err { IfErr result (λ e. e ≡ to_value_error.Memory) }
{
    Ok(value.clone(alloc)?)
}

impl ToValue for Value {
    ghost as_value = { λ value. Some value };

    fn to_value(&self, alloc: Global) -> Result<Value, ToValueError> {
        // Each is returned by itself: an answer that is one of several is moved once more.
        match self {
            Value::NULL => return Ok(Value::NULL),
            Value::Bytes(bytes) => return Ok(Value::Bytes(bytes.clone(alloc)?)),
            Value::Int(number) => return Ok(Value::Int(*number)),
            Value::UInt(number) => return Ok(Value::UInt(*number)),
            Value::Float(_) | Value::Double(_) | Value::Date(..) | Value::Time(..) => {}
        }
        copy_rare(alloc, self)
    }
}

impl<T: ToValue> ToValue for Option<T> {
    ghost as_value = { value_or_null T.as_value };

    fn to_value(&self, alloc: Global) -> Result<Value, ToValueError> {
        match self {
            None => Ok(Value::NULL),
            Some(x) => x.to_value(alloc),
        }
    }
}

/// What is lent converts to its own value.
impl<T: ToValue> ToValue for &T {
    ghost as_value = { λ x. T.as_value x.now };

    fn to_value(&self, alloc: Global) -> Result<Value, ToValueError> {
        (**self).to_value(alloc)
    }
}

/// A boxed object converts to the value of what is in the box.
impl ToValue for Box<dyn ToValue + Drop> {
    ghost as_value = { λ object. (ToValue-box object).as_value object.value };

    fn to_value(&self, alloc: Global) -> Result<Value, ToValueError> {
        (**self).to_value(alloc)
    }
}
