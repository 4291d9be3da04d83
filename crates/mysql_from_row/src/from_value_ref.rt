//! The trait of types that values convert to where they lie.

ghost use Rattle.std.specs.Prelude.{◌≡◌, List, Option, Some, ℕ};
ghost use Rattle.std.specs.Option.{option_map};
ghost use Rattle.mysql_cells.specs.declared.value.Value.{Value as ValueOf};
ghost use Rattle.mysql_convert.specs.Conversions.{converted_if_some};
ghost use Rattle.mysql_row_refs.specs.Places.{value_of};

use mysql_row_refs::ValueRef;

/// A type that a [`ValueRef`] converts to, with no bytes copied but an array's.
///
/// It goes by the rules of [`FromValue`](mysql_convert::FromValue): `converted` of a type is what
/// it is there. A whole number of at most 64 bits is read from `Int`, `UInt` and texts of an
/// optional sign and digits, in its range. A `bool` is read from 0 and 1 in the same three. A
/// `&str` is read from `Bytes` that are UTF-8, a `&[u8]` from `Bytes`, an array from `Bytes` of its
/// length. An `Option` is None of `NULL`, and a [`ValueRef`] is any value.
pub trait FromValueRef<'p>: Sized {
    // what this is, apart from where it lies
    ghost Shown: { Type 0 };

    ghost shown: { Self → Shown };

    // what a value converts to, if it converts
    ghost converted: { ValueOf → Option Shown };

    /// Converts a value; None where it doesn't convert.
    fn from_value_ref(value: ValueRef<'p>) -> Option<Self>
        ensures { option_map shown result ≡ converted (value_of value.entry) };
}

impl<'p> FromValueRef<'p> for ValueRef<'p> {
    ghost Shown = { ValueOf };

    ghost shown = { value_of };

    ghost converted = { λ value. Some value };

    #[inline(always)]
    fn from_value_ref(value: ValueRef<'p>) -> Option<ValueRef<'p>> {
        Some(value)
    }
}

impl<'p, T: FromValueRef<'p>> FromValueRef<'p> for Option<T> {
    ghost Shown = { Option T.Shown };

    ghost shown = { option_map T.shown };

    ghost converted = { converted_if_some T.converted };

    #[inline(always)]
    fn from_value_ref(value: ValueRef<'p>) -> Option<Option<T>> {
        if let ValueRef::NULL = value {
            return Some(None);
        }
        match T::from_value_ref(value) {
            Some(x) => Some(Some(x)),
            None => None,
        }
    }
}
