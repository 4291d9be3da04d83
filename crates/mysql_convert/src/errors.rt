//! Why a value doesn't convert: the error holds the value.
//!
//!     match from_value_opt::<u64>(value) {
//!         Ok(number) => Ok(Some(number)),
//!         Err(FromValueError(Value::NULL)) => Ok(None),
//!         Err(error) => Err(error),
//!     }

ghost use Rattle.std.specs.Prelude.{◌≡◌, IfErr, IfOk, None, Some};

use mysql_cells::Value;
use std::alloc::{AllocError, Global};
use thiserror::Error;

/// A value that doesn't convert to the type that was asked for. It holds the value itself; its text
/// names the value's kind.
#[derive(Debug, PartialEq, Eq, Drop, Error)]
#[error("{found} doesn't convert to the type that was asked for", found = kind_of(&self.0))]
pub struct FromValueError(pub Value);

/// The kind of a value, in words.
fn kind_of(value: &Value) -> &'static str {
    match value {
        Value::NULL => "NULL",
        Value::Bytes(_) => "a text",
        Value::Int(_) => "a number with a sign",
        Value::UInt(_) => "a number without a sign",
        Value::Float(_) => "a float",
        Value::Double(_) => "a double",
        Value::Date(..) => "a date",
        Value::Time(..) => "a time",
    }
}

/// The error of a borrowed value that doesn't convert: it holds a copy of the value.
#[cold]
#[inline(never)]
fn refused(alloc: Global, value: &Value) -> Result<FromValueError, AllocError>
    ensures { IfOk result (λ e. e.0 ≡ value.now) }
{
    Ok(FromValueError(value.clone(alloc)?))
}

/// What was read of a borrowed value, or the error with a copy of the value where nothing was.
#[inline(always)]
pub(crate) fn read_or_refused<T>(
    alloc: Global,
    value: &Value,
    read: Option<T>,
) -> Result<Result<T, FromValueError>, AllocError>
    ensures ok { IfOk result (λ answer. IfOk answer (λ x. read ≡ Some x)) }
    ensures err { IfOk result (λ answer. IfErr answer (λ e. (read ≡ None) × (e.0 ≡ value.now))) }
{
    match read {
        Some(x) => Ok(Ok(x)),
        None => Ok(Err(refused(alloc, value)?)),
    }
}
