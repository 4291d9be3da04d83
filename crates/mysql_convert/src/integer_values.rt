//! The values of integers.

ghost use Rattle.std.specs.Prelude.{Some, pos};
ghost use Rattle.mysql_cells.specs.declared.value.Value.TheVariants.{Int, UInt};
ghost use Rattle.mysql_values.specs.Contents.{integer_value};

use crate::to_value::ToValue;
use crate::to_value_error::ToValueError;
use itoa::Buffer;
use mysql_bytes::ByteString;
use mysql_cells::Value;
use std::alloc::Global;

impl ToValue for i8 {
    ghost as_value = { λ x. Some (Int x) };

    fn to_value(&self, _alloc: Global) -> Result<Value, ToValueError> {
        Ok(Value::Int(i64::from(*self)))
    }
}

impl ToValue for i16 {
    ghost as_value = { λ x. Some (Int x) };

    fn to_value(&self, _alloc: Global) -> Result<Value, ToValueError> {
        Ok(Value::Int(i64::from(*self)))
    }
}

impl ToValue for i32 {
    ghost as_value = { λ x. Some (Int x) };

    fn to_value(&self, _alloc: Global) -> Result<Value, ToValueError> {
        Ok(Value::Int(i64::from(*self)))
    }
}

impl ToValue for i64 {
    ghost as_value = { λ x. Some (Int x) };

    fn to_value(&self, _alloc: Global) -> Result<Value, ToValueError> {
        Ok(Value::Int(*self))
    }
}

impl ToValue for isize {
    ghost as_value = { λ x. Some (Int x) };

    fn to_value(&self, _alloc: Global) -> Result<Value, ToValueError> {
        Ok(Value::Int(*self as i64))
    }
}

impl ToValue for u8 {
    ghost as_value = { λ x. Some (Int (pos x)) };

    fn to_value(&self, _alloc: Global) -> Result<Value, ToValueError> {
        Ok(Value::Int(i64::from(*self)))
    }
}

impl ToValue for u16 {
    ghost as_value = { λ x. Some (Int (pos x)) };

    fn to_value(&self, _alloc: Global) -> Result<Value, ToValueError> {
        Ok(Value::Int(i64::from(*self)))
    }
}

impl ToValue for u32 {
    ghost as_value = { λ x. Some (Int (pos x)) };

    fn to_value(&self, _alloc: Global) -> Result<Value, ToValueError> {
        Ok(Value::Int(i64::from(*self)))
    }
}

impl ToValue for u64 {
    ghost as_value = { λ x. Some (UInt x) };

    fn to_value(&self, _alloc: Global) -> Result<Value, ToValueError> {
        Ok(Value::UInt(*self))
    }
}

impl ToValue for usize {
    ghost as_value = { λ x. Some (UInt x) };

    fn to_value(&self, _alloc: Global) -> Result<Value, ToValueError> {
        Ok(Value::UInt(*self as u64))
    }
}

impl ToValue for i128 {
    ghost as_value = { λ x. Some (integer_value x) };

    fn to_value(&self, alloc: Global) -> Result<Value, ToValueError> {
        if let Ok(number) = i64::try_from(*self) {
            return Ok(Value::Int(number));
        }
        if let Ok(number) = u64::try_from(*self) {
            return Ok(Value::UInt(number));
        }
        let mut buffer = Buffer::new();
        let text = buffer.format(*self);
        Ok(Value::Bytes(ByteString::copy(alloc, text.as_bytes())?))
    }
}

impl ToValue for u128 {
    ghost as_value = { λ x. Some (integer_value (pos x)) };

    fn to_value(&self, alloc: Global) -> Result<Value, ToValueError> {
        if let Ok(number) = i64::try_from(*self) {
            return Ok(Value::Int(number));
        }
        if let Ok(number) = u64::try_from(*self) {
            return Ok(Value::UInt(number));
        }
        let mut buffer = Buffer::new();
        let text = buffer.format(*self);
        Ok(Value::Bytes(ByteString::copy(alloc, text.as_bytes())?))
    }
}
