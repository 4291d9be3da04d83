//! Conversions of bytes and texts.

ghost use Rattle.std.specs.Prelude.{◌≡◌, List, ℕ};
ghost use Rattle.std.specs.Option.{option_copied};
ghost use Rattle.mysql_convert.specs.Texts.{array_of, bytes_of, text_of};
ghost use Rattle.mysql_row_refs.specs.Places.{value_of};

use crate::from_value_ref::FromValueRef;
use mysql_row_refs::ValueRef;
use std::str::from_utf8;

/// The bytes that a value holds.
#[inline(always)]
fn bytes_in<'p>(value: ValueRef<'p>) -> Option<&'p [u8]>
    ensures { option_copied result ≡ bytes_of (value_of value.entry) }
{
    match value {
        ValueRef::Bytes(bytes) => Some(bytes),
        _ => None,
    }
}

impl<'p> FromValueRef<'p> for &'p [u8] {
    ghost Shown = { List ℕ };

    ghost shown = { λ bytes. bytes.now };

    ghost converted = { bytes_of };

    #[inline(always)]
    fn from_value_ref(value: ValueRef<'p>) -> Option<&'p [u8]> {
        match value {
            ValueRef::Bytes(bytes) => Some(bytes),
            _ => None,
        }
    }
}

impl<'p> FromValueRef<'p> for &'p str {
    ghost Shown = { List ℕ };

    ghost shown = { λ text. text.now };

    ghost converted = { text_of };

    fn from_value_ref(value: ValueRef<'p>) -> Option<&'p str> {
        let Some(bytes) = bytes_in(value) else {
            return None;
        };
        match from_utf8(bytes) {
            Ok(text) => Some(text),
            Err(_) => None,
        }
    }
}

/// The array of this length that a value holds.
fn array_in<const N: usize>(value: ValueRef) -> Option<[u8; N]>
    ensures { result ≡ array_of N (value_of value.entry) }
{
    match <[u8; N]>::try_from(bytes_in(value)?) {
        Ok(array) => Some(array),
        Err(_) => None,
    }
}

impl<'p, const N: usize> FromValueRef<'p> for [u8; N] {
    ghost Shown = { List ℕ };

    ghost shown = { λ bytes. bytes };

    ghost converted = { array_of N };

    fn from_value_ref(value: ValueRef<'p>) -> Option<[u8; N]> {
        array_in(value)
    }
}
