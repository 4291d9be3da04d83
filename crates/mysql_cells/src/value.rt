//! Values of the client/server protocol: NULL, bytes, numbers, dates and times.
//!
//!     let number = Value::Int(-1);
//!     let text = Value::Bytes(ByteString::copy(alloc, b"abc")?);
//!     let date = Value::Date(2024, 12, 31, 23, 59, 59, 0);

ghost use Rattle.std.specs.Prelude.{◌≡◌, IfOk, is_none};
ghost use Rattle.mysql_cells.specs.Values.{content_of, is_null as is_no_value};

use mysql_bytes::ByteString;
use std::alloc::{AllocError, Global};

/// A value as the protocol carries it.
///
/// Two values are equal where their fields are, floats by their bits. No field is checked: a date may have month 13.
///
/// Follows "Binary Protocol Value" of the client/server protocol documentation.
#[derive(Debug, PartialEq, Eq, Drop)]
pub enum Value {
    /// No value.
    NULL,
    /// Bytes or a text, made by [`ByteString::copy`] or [`ByteString::from_vec`].
    Bytes(ByteString),
    /// A whole number with a sign.
    Int(i64),
    /// A whole number without a sign.
    UInt(u64),
    /// A float's bits.
    Float(u32),
    /// A double's bits.
    Double(u64),
    /// Year, month, day, hour, minute, second, microseconds.
    Date(u16, u8, u8, u8, u8, u8, u32),
    /// Whether negative, days, hours, minutes, seconds, microseconds.
    Time(bool, u32, u8, u8, u8, u32),
}

/// Whether a value is a float, which has no content and no text in a query.
pub fn is_float(value: &Value) -> bool
    ensures { result ≡ is_none (content_of value.now) }
{
    matches!(value, Value::Float(_) | Value::Double(_))
}

impl Value {
    /// Whether the value is NULL.
    #[inline(always)]
    pub fn is_null(&self) -> bool
        ensures { result ≡ is_no_value self.now }
    {
        matches!(self, Value::NULL)
    }

    /// A copy of the value, with bytes of its own.
    pub fn clone(&self, alloc: Global) -> Result<Value, AllocError>
        ensures { IfOk result (λ copy. copy ≡ self.now) }
    {
        match self {
            Value::NULL => Ok(Value::NULL),
            Value::Bytes(bytes) => Ok(Value::Bytes(bytes.clone(alloc)?)),
            Value::Int(number) => Ok(Value::Int(*number)),
            Value::UInt(number) => Ok(Value::UInt(*number)),
            Value::Float(bits) => Ok(Value::Float(*bits)),
            Value::Double(bits) => Ok(Value::Double(*bits)),
            Value::Date(year, month, day, hour, minute, second, micros) => {
                Ok(Value::Date(*year, *month, *day, *hour, *minute, *second, *micros))
            }
            Value::Time(negative, days, hours, minutes, seconds, micros) => {
                Ok(Value::Time(*negative, *days, *hours, *minutes, *seconds, *micros))
            }
        }
    }
}

/// Copies the value, by the allocator of its bytes; so lists and maps of values are cloned.
impl Clone for Value {
    ghost is_clone = { λ value copy. copy ≡ value };

    fn clone(&self) -> Result<Value, AllocError> {
        match self {
            Value::NULL => Ok(Value::NULL),
            Value::Bytes(bytes) => Ok(Value::Bytes(Clone::clone(bytes)?)),
            Value::Int(number) => Ok(Value::Int(*number)),
            Value::UInt(number) => Ok(Value::UInt(*number)),
            Value::Float(bits) => Ok(Value::Float(*bits)),
            Value::Double(bits) => Ok(Value::Double(*bits)),
            Value::Date(year, month, day, hour, minute, second, micros) => {
                Ok(Value::Date(*year, *month, *day, *hour, *minute, *second, *micros))
            }
            Value::Time(negative, days, hours, minutes, seconds, micros) => {
                Ok(Value::Time(*negative, *days, *hours, *minutes, *seconds, *micros))
            }
        }
    }
}
