//! Values that borrow their bytes.

ghost use Rattle.std.specs.Prelude.{◌≡◌, IfOk};
ghost use Rattle.mysql_row_refs.specs.Places.{value_of};

use mysql_bytes::ByteString;
use mysql_cells::Value;
use std::alloc::{AllocError, Global};

/// What a cell of a payload holds, as [`Value`] tells it, but for its bytes, which it borrows.
///
/// Two are equal where their values are, floats by their bits. No field is checked: a date may have month 13.
///
/// MySQL: Client/Server Protocol, "Binary Protocol Value" and "Text Resultset Row".
#[derive(Clone, Copy, Debug, PartialEq, Eq)]
pub enum ValueRef<'p> {
    /// No value.
    NULL,
    /// Bytes or a text.
    Bytes(&'p [u8]),
    /// A whole number with a sign.
    Int(i64),
    /// A whole number without a sign.
    UInt(u64),
    /// A float's bits.
    Float(u32),
    /// A double's bits.
    Double(u64),
    /// Year, month, day, hour, minute, second, microseconds.
    Date(u16, u8, u8, u8, u8, u8, u32),
    /// Whether negative, days, hours, minutes, seconds, microseconds.
    Time(bool, u32, u8, u8, u8, u32),
}

impl ValueRef<'_> {
    /// The value, with a copy of its bytes.
    ///
    /// # Errors
    /// - `AllocError` for want of memory.
    pub fn to_value(&self, alloc: Global) -> Result<Value, AllocError>
        ensures { IfOk result (λ value. value ≡ value_of self.now) }
    {
        match *self {
            ValueRef::NULL => Ok(Value::NULL),
            ValueRef::Bytes(bytes) => Ok(Value::Bytes(ByteString::copy(alloc, bytes)?)),
            ValueRef::Int(number) => Ok(Value::Int(number)),
            ValueRef::UInt(number) => Ok(Value::UInt(number)),
            ValueRef::Float(bits) => Ok(Value::Float(bits)),
            ValueRef::Double(bits) => Ok(Value::Double(bits)),
            ValueRef::Date(year, month, day, hour, minute, second, micros) => {
                Ok(Value::Date(year, month, day, hour, minute, second, micros))
            }
            ValueRef::Time(negative, days, hours, minutes, seconds, micros) => {
                Ok(Value::Time(negative, days, hours, minutes, seconds, micros))
            }
        }
    }
}
