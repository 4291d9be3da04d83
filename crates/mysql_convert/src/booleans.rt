//! Conversions of booleans.

ghost use Rattle.std.specs.Prelude.{◌≡◌, Bool};
ghost use Rattle.mysql_convert.specs.Booleans.{boolean_of};

use crate::conversion::FromValue;
use crate::errors::{FromValueError, read_or_refused};
use crate::intermediates::ParseIrOpt;
use mysql_cells::Value;
use std::alloc::{AllocError, Global};

/// The boolean that a value holds.
fn boolean_in(value: &Value) -> Option<bool>
    ensures { result ≡ boolean_of value.now }
{
    match value {
        Value::Int(0) | Value::UInt(0) => Some(false),
        Value::Int(1) | Value::UInt(1) => Some(true),
        Value::Bytes(text) => match text.as_slice() {
            [b'0'] => Some(false),
            [b'1'] => Some(true),
            _ => None,
        },
        _ => None,
    }
}

impl FromValue for bool {
    type Intermediate = ParseIrOpt<bool>;

    ghost Shown = { Bool };

    ghost shown = { λ boolean. boolean };

    ghost converted = { boolean_of };

    fn get_intermediate(value: Value) -> Result<ParseIrOpt<bool>, FromValueError> {
        match value {
            Value::Int(0) | Value::UInt(0) => Ok(ParseIrOpt::Ready(false)),
            Value::Int(1) | Value::UInt(1) => Ok(ParseIrOpt::Ready(true)),
            Value::Bytes(text) => match text.as_slice() {
                [b'0'] => Ok(ParseIrOpt::Parsed(false, Value::Bytes(text))),
                [b'1'] => Ok(ParseIrOpt::Parsed(true, Value::Bytes(text))),
                _ => Err(FromValueError(Value::Bytes(text))),
            },
            value => Err(FromValueError(value)),
        }
    }

    #[inline(always)]
    fn from_value_ref_opt(
        alloc: Global,
        value: &Value,
    ) -> Result<Result<bool, FromValueError>, AllocError> {
        read_or_refused(alloc, value, boolean_in(value))
    }
}
