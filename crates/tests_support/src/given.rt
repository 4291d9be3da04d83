//! Values that the tables of tests give.

use mysql_bytes::ByteString;
use mysql_cells::Value;
use std::alloc::{AllocError, Global};

/// A value of a table.
#[derive(Clone, Copy)]
pub enum Given {
    Null,
    Bytes(&'static [u8]),
    /// So many bytes `x`.
    Filled(usize),
    Int(i64),
    UInt(u64),
    /// A float by its bits.
    Float(u32),
    /// A double by its bits.
    Double(u64),
    Date(u16, u8, u8, u8, u8, u8, u32),
    Time(bool, u32, u8, u8, u8, u32),
}

/// The value itself.
pub fn given_value(alloc: Global, given: Given) -> Result<Value, AllocError> {
    match given {
        Given::Null => Ok(Value::NULL),
        Given::Bytes(bytes) => Ok(Value::Bytes(ByteString::copy(alloc, bytes)?)),
        Given::Filled(len) => {
            let mut bytes = Vec::new(alloc);
            bytes.resize(len, b'x')?;
            Ok(Value::Bytes(ByteString::from_vec(bytes)))
        }
        Given::Int(number) => Ok(Value::Int(number)),
        Given::UInt(number) => Ok(Value::UInt(number)),
        Given::Float(bits) => Ok(Value::Float(bits)),
        Given::Double(bits) => Ok(Value::Double(bits)),
        Given::Date(year, month, day, hour, minute, second, micros) => {
            Ok(Value::Date(year, month, day, hour, minute, second, micros))
        }
        Given::Time(negative, days, hours, minutes, seconds, micros) => {
            Ok(Value::Time(negative, days, hours, minutes, seconds, micros))
        }
    }
}

/// The values themselves.
pub fn given_values(alloc: Global, given: &[Given]) -> Result<Vec<Value>, AllocError> {
    let mut values = Vec::new(alloc);
    for one in given {
        values.push(given_value(alloc, *one)?)?;
    }
    Ok(values)
}
