//! Conversions of whole numbers.

ghost use Rattle.std.specs.Prelude.{◌≡◌};
ghost use Rattle.mysql_convert.specs.Numbers.{integer_of};
ghost use Rattle.mysql_row_refs.specs.Places.{value_of};

use crate::from_value_ref::FromValueRef;
use mysql_convert::numbers::{Integer, Number, text_integer};
use mysql_row_refs::ValueRef;

/// An integer type of at most 64 bits.
pub trait ShortInteger: Integer {}

impl ShortInteger for i8 {}

impl ShortInteger for i16 {}

impl ShortInteger for i32 {}

impl ShortInteger for i64 {}

impl ShortInteger for isize {}

impl ShortInteger for u8 {}

impl ShortInteger for u16 {}

impl ShortInteger for u32 {}

impl ShortInteger for u64 {}

impl ShortInteger for usize {}

impl<'p, T: ShortInteger> FromValueRef<'p> for T {
    ghost Shown = { T };

    ghost shown = { λ x. x };

    ghost converted = { integer_of T.narrowed };

    #[inline(always)]
    fn from_value_ref(value: ValueRef<'p>) -> Option<T> {
        integer_in(value)
    }
}

/// The number of an integer type that a value holds.
#[inline(always)]
fn integer_in<T: ShortInteger>(value: ValueRef) -> Option<T>
    ensures { result ≡ integer_of T.narrowed (value_of value.entry) }
{
    match value {
        ValueRef::Int(number) => T::narrow(Number::of_signed(number)),
        ValueRef::UInt(number) => T::narrow(Number::of_unsigned(number)),
        ValueRef::Bytes(text) => text_integer(text),
        _ => None,
    }
}
