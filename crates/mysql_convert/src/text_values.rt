//! The values of bytes and texts.

ghost use Rattle.std.specs.Prelude.{◌≡◌, IfErr, IfOk, Some};
ghost use Rattle.std.specs.String.{string_bytes};
ghost use Rattle.std.specs.Cow.{cow_slice_items, cow_str_bytes};
ghost use Rattle.mysql_cells.specs.declared.value.Value.TheVariants.{Bytes};

use crate::to_value::ToValue;
use crate::to_value_error::ToValueError;
use mysql_bytes::ByteString;
use mysql_cells::Value;
use std::alloc::Global;
use std::borrow::{CowSlice, CowStr};

/// A value of a copy of the bytes.
fn bytes_value(alloc: Global, bytes: &[u8]) -> Result<Value, ToValueError>
    ensures ok { IfOk result (λ value. value ≡ Bytes bytes.now) }
    ensures err { IfErr result (λ e. e ≡ ToValueError.Memory) }
{
    Ok(Value::Bytes(ByteString::copy(alloc, bytes)?))
}

impl ToValue for Vec<u8> {
    ghost as_value = { λ bytes. Some (Bytes bytes.items) };

    fn to_value(&self, alloc: Global) -> Result<Value, ToValueError> {
        bytes_value(alloc, self)
    }
}

impl ToValue for CowSlice<'_, u8, Global> {
    ghost as_value = { λ bytes. Some (Bytes (cow_slice_items bytes)) };

    fn to_value(&self, alloc: Global) -> Result<Value, ToValueError> {
        bytes_value(alloc, self.as_slice())
    }
}

impl ToValue for &[u8] {
    ghost as_value = { λ bytes. Some (Bytes bytes.now) };

    fn to_value(&self, alloc: Global) -> Result<Value, ToValueError> {
        bytes_value(alloc, *self)
    }
}

impl<const N: usize> ToValue for [u8; N] {
    ghost as_value = { λ bytes. Some (Bytes bytes) };

    fn to_value(&self, alloc: Global) -> Result<Value, ToValueError> {
        bytes_value(alloc, self)
    }
}

impl ToValue for String {
    ghost as_value = { λ text. Some (Bytes (string_bytes text)) };

    fn to_value(&self, alloc: Global) -> Result<Value, ToValueError> {
        bytes_value(alloc, self.as_bytes())
    }
}

impl ToValue for CowStr<'_, Global> {
    ghost as_value = { λ text. Some (Bytes (cow_str_bytes text)) };

    fn to_value(&self, alloc: Global) -> Result<Value, ToValueError> {
        bytes_value(alloc, self.as_str().as_bytes())
    }
}

impl ToValue for &str {
    ghost as_value = { λ text. Some (Bytes text.now) };

    fn to_value(&self, alloc: Global) -> Result<Value, ToValueError> {
        bytes_value(alloc, (*self).as_bytes())
    }
}
