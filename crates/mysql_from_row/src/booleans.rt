//! Conversions of booleans.

ghost use Rattle.std.specs.Prelude.{◌≡◌, Bool};
ghost use Rattle.mysql_convert.specs.Booleans.{boolean_of};
ghost use Rattle.mysql_row_refs.specs.Places.{value_of};

use crate::from_value_ref::FromValueRef;
use mysql_row_refs::ValueRef;

/// The boolean that a value holds.
fn boolean_in(value: ValueRef) -> Option<bool>
    ensures { result ≡ boolean_of (value_of value.entry) }
{
    match value {
        ValueRef::Int(0) | ValueRef::UInt(0) | ValueRef::Bytes([b'0']) => Some(false),
        ValueRef::Int(1) | ValueRef::UInt(1) | ValueRef::Bytes([b'1']) => Some(true),
        _ => None,
    }
}

impl<'p> FromValueRef<'p> for bool {
    ghost Shown = { Bool };

    ghost shown = { λ boolean. boolean };

    ghost converted = { boolean_of };

    fn from_value_ref(value: ValueRef<'p>) -> Option<bool> {
        boolean_in(value)
    }
}
