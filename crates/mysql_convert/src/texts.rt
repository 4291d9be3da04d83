//! Conversions of bytes and texts.

ghost use Rattle.std.specs.Prelude.{◌≡◌, IfErr, IfOk, List, None, Option, Some, ℕ};
ghost use Rattle.std.specs.Option.{option_copied, option_map};
ghost use Rattle.std.specs.String.{string_bytes};
ghost use Rattle.std.specs.Cow.{cow_slice_items, cow_str_bytes};
ghost use Rattle.mysql_cells.specs.declared.value.Value.TheVariants.{Bytes};
ghost use Rattle.mysql_convert.specs.Texts.{array_of, bytes_of, text_of as text_of_value};

use crate::conversion::{FromValue, Intermediate};
use crate::errors::{FromValueError, read_or_refused};
use crate::to_value::ToValue;
use crate::to_value_error::ToValueError;
use mysql_bytes::ByteString;
use mysql_cells::Value;
use std::alloc::{AllocError, Global};
use std::borrow::{CowSlice, CowStr};
use std::str::from_utf8;

/// The bytes that a value holds, moved, or the value.
fn bytes_in(value: Value) -> Result<Vec<u8>, FromValueError>
    ensures ok { IfOk result (λ bytes. value ≡ Bytes bytes.items) }
    ensures err { IfErr result (λ e. (bytes_of value ≡ None) × (e.0 ≡ value)) }
{
    match value {
        Value::Bytes(bytes) => Ok(bytes.into_vec()),
        value => Err(FromValueError(value)),
    }
}

/// The bytes that a value holds.
fn lent_bytes(value: &Value) -> Option<&[u8]>
    ensures { option_copied result ≡ bytes_of value.now }
{
    match value {
        Value::Bytes(bytes) => Some(bytes.as_slice()),
        _ => None,
    }
}

/// A copy of the bytes that a value holds.
fn copied_bytes(alloc: Global, value: &Value) -> Result<Option<Vec<u8>>, AllocError>
    ensures { IfOk result (λ copy. option_map (λ bytes. bytes.items) copy ≡ bytes_of value.now) }
{
    match lent_bytes(value) {
        Some(bytes) => Ok(Some(Vec::from_slice(alloc, bytes)?)),
        None => Ok(None),
    }
}

/// A copy of the text that a value holds.
fn copied_text(alloc: Global, value: &Value) -> Result<Option<String>, AllocError>
    ensures { IfOk result (λ copy. option_map string_bytes copy ≡ text_of_value value.now) }
{
    let Some(bytes) = lent_bytes(value) else {
        return Ok(None);
    };
    match from_utf8(bytes) {
        Ok(text) => Ok(Some(String::from_str(alloc, text)?)),
        Err(_) => Ok(None),
    }
}

/// The array of this length that a value holds.
fn array_in<const N: usize>(value: &Value) -> Option<[u8; N]>
    ensures { result ≡ array_of N value.now }
{
    match <[u8; N]>::try_from(lent_bytes(value)?) {
        Ok(array) => Some(array),
        Err(_) => None,
    }
}

/// The text that a value holds, moved, or the value.
fn text_in(value: Value) -> Result<String, FromValueError>
    ensures ok { IfOk result (λ text. (value ≡ Bytes (string_bytes text)) ×
        (text_of_value value ≡ Some (string_bytes text))) }
    ensures err { IfErr result (λ e. (text_of_value value ≡ None) × (e.0 ≡ value)) }
{
    match String::from_utf8(bytes_in(value)?) {
        Ok(text) => Ok(text),
        Err(e) => Err(FromValueError(Value::Bytes(ByteString::from_vec(e.into_bytes())))),
    }
}

impl FromValue for Vec<u8> {
    type Intermediate = Vec<u8>;

    ghost Shown = { List ℕ };

    ghost shown = { λ bytes. bytes.items };

    ghost converted = { bytes_of };

    fn get_intermediate(value: Value) -> Result<Vec<u8>, FromValueError> {
        bytes_in(value)
    }

    #[inline(always)]
    fn from_value_ref_opt(
        alloc: Global,
        value: &Value,
    ) -> Result<Result<Vec<u8>, FromValueError>, AllocError> {
        read_or_refused(alloc, value, copied_bytes(alloc, value)?)
    }
}

impl Intermediate<Vec<u8>> for Vec<u8> {
    ghost committed = { λ bytes. bytes };

    ghost rolled_back = { λ bytes. Some (Bytes bytes.items) };

    fn commit(self) -> Vec<u8> {
        self
    }

    fn rollback(self, _alloc: Global) -> Result<Value, ToValueError> {
        Ok(Value::Bytes(ByteString::from_vec(self)))
    }
}

impl FromValue for CowSlice<'static, u8, Global> {
    type Intermediate = CowSlice<'static, u8, Global>;

    ghost Shown = { List ℕ };

    ghost shown = { cow_slice_items };

    ghost converted = { bytes_of };

    fn get_intermediate(value: Value) -> Result<CowSlice<'static, u8, Global>, FromValueError> {
        Ok(CowSlice::Owned(bytes_in(value)?))
    }

    #[inline(always)]
    fn from_value_ref_opt(
        alloc: Global,
        value: &Value,
    ) -> Result<Result<CowSlice<'static, u8, Global>, FromValueError>, AllocError> {
        let read = copied_bytes(alloc, value)?.map(|bytes| CowSlice::Owned(bytes));
        read_or_refused(alloc, value, read)
    }
}

impl Intermediate<CowSlice<'static, u8, Global>> for CowSlice<'static, u8, Global> {
    ghost committed = { λ bytes. bytes };

    ghost rolled_back = { λ bytes. Some (Bytes (cow_slice_items bytes)) };

    fn commit(self) -> CowSlice<'static, u8, Global> {
        self
    }

    fn rollback(self, alloc: Global) -> Result<Value, ToValueError> {
        match self {
            CowSlice::Owned(bytes) => Ok(Value::Bytes(ByteString::from_vec(bytes))),
            CowSlice::Borrowed(bytes) => bytes.to_value(alloc),
        }
    }
}

impl<const N: usize> FromValue for [u8; N] {
    type Intermediate = [u8; N];

    ghost Shown = { List ℕ };

    ghost shown = { λ bytes. bytes };

    ghost converted = { array_of N };

    fn get_intermediate(value: Value) -> Result<[u8; N], FromValueError> {
        let bytes = bytes_in(value)?;
        match <[u8; N]>::try_from(bytes.as_slice()) {
            Ok(array) => Ok(array),
            Err(_) => Err(FromValueError(Value::Bytes(ByteString::from_vec(bytes)))),
        }
    }

    #[inline(always)]
    fn from_value_ref_opt(
        alloc: Global,
        value: &Value,
    ) -> Result<Result<[u8; N], FromValueError>, AllocError> {
        read_or_refused(alloc, value, array_in(value))
    }
}

impl<const N: usize> Intermediate<[u8; N]> for [u8; N] {
    ghost committed = { λ bytes. bytes };

    ghost rolled_back = { λ bytes. Some (Bytes bytes) };

    fn commit(self) -> [u8; N] {
        self
    }

    fn rollback(self, alloc: Global) -> Result<Value, ToValueError> {
        self.to_value(alloc)
    }
}

impl FromValue for String {
    type Intermediate = String;

    ghost Shown = { List ℕ };

    ghost shown = { string_bytes };

    ghost converted = { text_of_value };

    fn get_intermediate(value: Value) -> Result<String, FromValueError> {
        text_in(value)
    }

    #[inline(always)]
    fn from_value_ref_opt(
        alloc: Global,
        value: &Value,
    ) -> Result<Result<String, FromValueError>, AllocError> {
        read_or_refused(alloc, value, copied_text(alloc, value)?)
    }
}

impl Intermediate<String> for String {
    ghost committed = { λ text. text };

    ghost rolled_back = { λ text. Some (Bytes (string_bytes text)) };

    fn commit(self) -> String {
        self
    }

    fn rollback(self, _alloc: Global) -> Result<Value, ToValueError> {
        Ok(Value::Bytes(ByteString::from_vec(self.into_bytes())))
    }
}

impl FromValue for CowStr<'static, Global> {
    type Intermediate = CowStr<'static, Global>;

    ghost Shown = { List ℕ };

    ghost shown = { cow_str_bytes };

    ghost converted = { text_of_value };

    fn get_intermediate(value: Value) -> Result<CowStr<'static, Global>, FromValueError> {
        Ok(CowStr::Owned(text_in(value)?))
    }

    #[inline(always)]
    fn from_value_ref_opt(
        alloc: Global,
        value: &Value,
    ) -> Result<Result<CowStr<'static, Global>, FromValueError>, AllocError> {
        let read = copied_text(alloc, value)?.map(|text| CowStr::Owned(text));
        read_or_refused(alloc, value, read)
    }
}

impl Intermediate<CowStr<'static, Global>> for CowStr<'static, Global> {
    ghost committed = { λ text. text };

    ghost rolled_back = { λ text. Some (Bytes (cow_str_bytes text)) };

    fn commit(self) -> CowStr<'static, Global> {
        self
    }

    fn rollback(self, alloc: Global) -> Result<Value, ToValueError> {
        match self {
            CowStr::Owned(text) => Ok(Value::Bytes(ByteString::from_vec(text.into_bytes()))),
            CowStr::Borrowed(text) => text.to_value(alloc),
        }
    }
}
