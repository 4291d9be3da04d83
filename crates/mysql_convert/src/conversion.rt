//! The trait of types that values convert to.
//!
//!     let number = from_value_opt::<u32>(value)?;
//!     let text = from_value_opt::<Option<String>>(other)?;

ghost use Rattle.std.specs.Prelude.{◌≡◌, ◌⊎◌, Err, IfErr, IfOk, IsSome, None, Ok, Option, Some};
ghost use Rattle.mysql_cells.specs.declared.value.Value.{Value as ValueOf};
ghost use Rattle.mysql_convert.specs.Conversions.{ReadsAgain};
ghost use Rattle.mysql_convert.specs.declared.to_value_error.ToValueError.TheVariants as to_value_error;

use crate::errors::FromValueError;
use crate::to_value_error::ToValueError;
use mysql_cells::Value;
use std::alloc::{AllocError, Global};

/// A conversion from a value to `T` that can still be undone.
pub trait Intermediate<T>: Sized {
    // what committing gives
    ghost committed: { Self → T };

    // the value that rolling back gives, none where it is too long for any
    ghost rolled_back: { Self → Option ValueOf };

    /// Ends the conversion: what the value converts to.
    fn commit(self) -> T
        ensures { result ≡ committed self };

    /// Undoes the conversion: a value that converts to the same result again.
    ///
    /// It is the value that was read where that was kept or moved, and else the one that its result
    /// converts to.
    ///
    /// Promise: the value converts to the same result again, and is `NULL` exactly where the first
    /// value was.
    ///
    /// # Errors
    /// - `TooLong` where that has no value, which no intermediate of this crate that was read
    ///   answers.
    /// - `Memory`.
    fn rollback(self, alloc: Global) -> Result<Value, ToValueError>
        ensures ok { IfOk result (λ value. rolled_back self ≡ Some value) }
        ensures err { IfErr result (λ e. (e ≡ to_value_error.Memory) ⊎
            ((e ≡ to_value_error.TooLong) × (rolled_back self ≡ None))) };
}

/// A type that a [`Value`] converts to.
///
/// A whole number is read from `Int`, `UInt` and texts of an optional sign and digits, in its
/// range. A `bool` is read from 0 and 1 as `Int`, as `UInt` and as texts. A text is read from
/// `Bytes` that are UTF-8, a list of bytes from `Bytes`, an array from `Bytes` of its length. A
/// `Duration` is read from a `Time` that isn't negative and from texts such as `838:59:59.5`. An
/// `Option` is None of `NULL`, and a `Value` is any value.
///
/// No conversion of a value that is handed over asks for memory; a copy of a borrowed one does. An
/// impl says by `converted` what each value converts to.
pub trait FromValue: Sized {
    /// A conversion to this type that can still be undone.
    type Intermediate: Intermediate<Self>;

    // what this is, apart from where it lies
    ghost Shown: { Type 0 };

    ghost shown: { Self → Shown };

    // what a value converts to, if it converts
    ghost converted: { ValueOf → Option Shown };

    /// Converts a value so that it can still be undone.
    ///
    /// # Errors
    /// - `FromValueError` with the value, where it doesn't convert.
    fn get_intermediate(value: Value) -> Result<Self::Intermediate, FromValueError>
        ensures ok { IfOk result (λ step. converted value ≡ Some (shown (Self.Intermediate.committed step))) }
        ensures again { IfOk result (λ step. ReadsAgain converted value (Self.Intermediate.rolled_back step)) }
        ensures err { IfErr result (λ e. (converted value ≡ None) × (e.0 ≡ value)) };

    /// Converts a copy of a value, as `from_value_opt` does.
    ///
    /// An impl may spare the copy where it keeps nothing of it.
    ///
    /// Promise: the result is that of converting a copy, or `AllocError`, which is outermost.
    ///
    /// # Errors
    /// - `AllocError`, outermost, out of memory alone.
    /// - `FromValueError` with a copy of the value, where it doesn't convert.
    fn from_value_ref_opt(
        alloc: Global,
        value: &Value,
    ) -> Result<Result<Self, FromValueError>, AllocError>
        ensures ok { IfOk result (λ answer. IfOk answer (λ x. converted value.now ≡ Some (shown x))) }
        ensures err { IfOk result (λ answer. IfErr answer (λ e. (converted value.now ≡ None) × (e.0 ≡ value.now))) }
    {
        match Self::get_intermediate(value.clone(alloc)?) {
            Ok(step) => Ok(Ok(step.commit())),
            Err(e) => Ok(Err(e)),
        }
    }

    /// Converts a value.
    ///
    /// Promise: the result is the one that the type's definition says, of callers' impls too, or
    /// the error holds the very value.
    ///
    /// # Errors
    /// - `FromValueError` with the value, where it doesn't convert.
    final fn from_value_opt(value: Value) -> Result<Self, FromValueError>
        ensures ok { IfOk result (λ x. converted value ≡ Some (shown x)) }
        ensures err { IfErr result (λ e. (converted value ≡ None) × (e.0 ≡ value)) }
    {
        let step = Self::get_intermediate(value)?;
        Ok(step.commit())
    }

    /// Converts a value that converts, as `from_value_opt` tells.
    final fn from_value(value: Value) -> Self
        requires { IsSome (converted value) }
        ensures { converted value ≡ Some (shown result) }
    {
        match Self::from_value_opt(value) {
            Ok(x) => x,
            Err(_) => unreachable!(),
        }
    }
}

/// Converts a value that converts, as [`from_value_opt`] tells.
pub fn from_value<T: FromValue>(value: Value) -> T
    requires { IsSome (T.converted value) }
    ensures { T.converted value ≡ Some (T.shown result) }
{
    T::from_value(value)
}

/// Converts a value.
///
/// # Errors
/// - `FromValueError` with the value, where it doesn't convert.
pub fn from_value_opt<T: FromValue>(value: Value) -> Result<T, FromValueError>
    ensures ok { IfOk result (λ x. T.converted value ≡ Some (T.shown x)) }
    ensures err { IfErr result (λ e. (T.converted value ≡ None) × (e.0 ≡ value)) }
{
    T::from_value_opt(value)
}

/// Converts a value so that it can still be undone.
///
/// # Errors
/// - `FromValueError` with the value, where it doesn't convert.
pub fn get_intermediate<T: FromValue>(value: Value) -> Result<T::Intermediate, FromValueError>
    ensures ok { IfOk result (λ step. T.converted value ≡ Some (T.shown (T.Intermediate.committed step))) }
    ensures again { IfOk result (λ step. ReadsAgain T.converted value (T.Intermediate.rolled_back step)) }
    ensures err { IfErr result (λ e. (T.converted value ≡ None) × (e.0 ≡ value)) }
{
    T::get_intermediate(value)
}
