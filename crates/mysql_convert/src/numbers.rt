//! Whole numbers that values and texts hold, and the integer types that they are narrowed to.
//!
//!     let number = Number::of_signed(-1);
//!     let narrowed = i8::narrow(number);

ghost use Rattle.std.specs.Prelude.{◌≡◌, ◌^◌, ◌≤◌, IfErr, IfNone, IfOk, IfSome, IsSomeAnd, Option, Some, None, length};
ghost use Rattle.std.specs.Prelude.{pos, unsigned_abs, ℤ};
ghost use Rattle.std.specs.Option.{option_and_then};
ghost use Rattle.mysql_queries.specs.Literals.{is_digit as is_digit_byte};
ghost use Rattle.mysql_convert.specs.Conversions.{ReadsAgain};
ghost use Rattle.mysql_convert.specs.Numbers.{HoldsNumber, digits_number as number_of_digits, integer_of, number_of};
ghost use Rattle.mysql_convert.specs.Numbers.{signed, signed_in, text_number as number_of_text, unsigned_in};
ghost use Rattle.mysql_convert.specs.Intermediates.{committed_of, rolled_back_of};

use crate::conversion::FromValue;
use crate::errors::{FromValueError, read_or_refused};
use crate::intermediates::ParseIrOpt;
use crate::to_value::ToValue;
use mysql_cells::Value;
use std::alloc::{AllocError, Global};

/// A whole number by its sign and its magnitude.
#[derive(Clone, Copy)]
pub struct Number {
    pub(crate) negative: bool,
    pub(crate) magnitude: u128,
}

impl Number {
    /// A number with a sign.
    #[inline(always)]
    pub fn of_signed(number: i64) -> Number
        ensures { signed result.negative result.magnitude ≡ number }
    {
        Number {
            negative: number < 0,
            magnitude: u128::from(number.unsigned_abs()),
        }
    }

    /// A number without a sign.
    #[inline(always)]
    pub fn of_unsigned(number: u64) -> Number
        ensures { signed result.negative result.magnitude ≡ pos number }
    {
        Number {
            negative: false,
            magnitude: u128::from(number),
        }
    }

    /// The number as an `i128`, if it fits.
    #[inline(always)]
    pub(crate) fn to_i128(self) -> Option<i128>
        ensures { result ≡ signed_in 128 (signed self.negative self.magnitude) }
    {
        if !self.negative {
            i128::try_from(self.magnitude).ok()
        } else if self.magnitude == 0 {
            Some(0)
        } else if self.magnitude <= 1 << 127 {
            Some(-1 - (self.magnitude - 1) as i128)
        } else {
            None
        }
    }

    /// The number as a `u128`, if it fits.
    #[inline(always)]
    pub(crate) fn to_u128(self) -> Option<u128>
        ensures { result ≡ unsigned_in 128 (signed self.negative self.magnitude) }
    {
        if self.negative && self.magnitude > 0 {
            None
        } else {
            Some(self.magnitude)
        }
    }
}

/// An integer type of at most 128 bits.
pub trait Integer: Copy + ToValue {
    // the number of this type that a whole number is, if it is in its range
    ghost narrowed: { ℤ → Option Self };

    /// The number of this type, if it is in its range.
    fn narrow(number: Number) -> Option<Self>
        ensures { result ≡ narrowed (signed number.negative number.magnitude) };

    // no number of more than 128 bits is in the range
    ghost small: { (z : ℤ) → 2 ^ 128 ≤ unsigned_abs z → narrowed z ≡ None };

    // the value of a number holds it
    ghost holds: { (z : ℤ) (x : Self) → narrowed z ≡ Some x → IsSomeAnd (Self.as_value x) (HoldsNumber z) };
}

impl<T: Integer> FromValue for T {
    type Intermediate = ParseIrOpt<T>;

    ghost Shown = { T };

    ghost shown = { λ x. x };

    ghost converted = { integer_of T.narrowed };

    fn get_intermediate(value: Value) -> Result<ParseIrOpt<T>, FromValueError> {
        read_integer(value)
    }

    #[inline(always)]
    fn from_value_ref_opt(
        alloc: Global,
        value: &Value,
    ) -> Result<Result<T, FromValueError>, AllocError> {
        read_or_refused(alloc, value, integer_in(value))
    }
}

pub(crate) fn is_digit(byte: u8) -> bool
    ensures { result ≡ is_digit_byte byte }
{
    b'0' <= byte && byte <= b'9'
}

/// The number of a text of at most 19 digits, which 64 bits hold.
fn few_digits_number(digits: &[u8]) -> Option<u64>
    requires { length digits.now ≤ 19 }
    ensures { result ≡ number_of_digits digits.now }
{
    if digits.is_empty() {
        return None;
    }
    let mut n: u64 = 0;
    for byte in digits {
        if !is_digit(*byte) {
            return None;
        }
        n = n * 10 + u64::from(*byte - b'0');
    }
    Some(n)
}

/// The number of a text of any number of digits; None also where it has more than 128 bits.
fn many_digits_number(digits: &[u8]) -> Option<u128>
    ensures some { IfSome result (λ n. number_of_digits digits.now ≡ Some n) }
    ensures none { IfNone result (IfSome (number_of_digits digits.now) (λ n. 2 ^ 128 ≤ n)) }
{
    if digits.is_empty() {
        return None;
    }
    let mut n: u128 = 0;
    for byte in digits {
        if !is_digit(*byte) {
            return None;
        }
        let Some(tens) = n.checked_mul(10) else {
            return None;
        };
        let Some(next) = tens.checked_add((*byte - b'0') as u128) else {
            return None;
        };
        n = next;
    }
    Some(n)
}

/// The number of a text of digits; None also where it has more than 128 bits.
pub(crate) fn digits_number(digits: &[u8]) -> Option<u128>
    ensures some { IfSome result (λ n. number_of_digits digits.now ≡ Some n) }
    ensures none { IfNone result (IfSome (number_of_digits digits.now) (λ n. 2 ^ 128 ≤ n)) }
{
    if digits.len() <= 19 {
        match few_digits_number(digits) {
            Some(n) => Some(u128::from(n)),
            None => None,
        }
    } else {
        many_digits_number(digits)
    }
}

/// The number of a text of an optional sign and digits; None also where it has more than 128 bits.
fn text_number(text: &[u8]) -> Option<Number>
    ensures some { IfSome result (λ n. number_of_text text.now ≡ Some (signed n.negative n.magnitude)) }
    ensures none { IfNone result (IfSome (number_of_text text.now) (λ z. 2 ^ 128 ≤ unsigned_abs z)) }
{
    let (negative, digits) = match text {
        [b'-', digits @ ..] => (true, digits),
        [b'+', digits @ ..] => (false, digits),
        digits => (false, digits),
    };
    let magnitude = digits_number(digits)?;
    Some(Number {
        negative,
        magnitude,
    })
}

/// The whole number that a value holds; None also where it has more than 128 bits.
fn value_number(value: &Value) -> Option<Number>
    ensures some { IfSome result (λ n. number_of value.now ≡ Some (signed n.negative n.magnitude)) }
    ensures none { IfNone result (IfSome (number_of value.now) (λ z. 2 ^ 128 ≤ unsigned_abs z)) }
{
    match value {
        Value::Int(number) => Some(Number::of_signed(*number)),
        Value::UInt(number) => Some(Number::of_unsigned(*number)),
        Value::Bytes(bytes) => text_number(bytes.as_slice()),
        _ => None,
    }
}

/// The number of an integer type that a text holds: an optional sign and digits.
///
/// (MySQL Reference Manual, "Numeric Literals".)
#[inline(never)]
pub fn text_integer<T: Integer>(text: &[u8]) -> Option<T>
    ensures { result ≡ option_and_then T.narrowed (number_of_text text.now) }
{
    T::narrow(text_number(text)?)
}

/// The number of an integer type that a value holds.
#[inline(always)]
fn integer_in<T: Integer>(value: &Value) -> Option<T>
    ensures { result ≡ integer_of T.narrowed value.now }
{
    match value {
        Value::Int(number) => T::narrow(Number::of_signed(*number)),
        Value::UInt(number) => T::narrow(Number::of_unsigned(*number)),
        Value::Bytes(text) => text_integer(text.as_slice()),
        _ => None,
    }
}

/// What is between a value and an integer type: a number is ready, a text is kept.
fn read_integer<T: Integer>(value: Value) -> Result<ParseIrOpt<T>, FromValueError>
    ensures ok { IfOk result (λ step. integer_of T.narrowed value ≡ Some (committed_of step)) }
    ensures again { IfOk result
        (λ step. ReadsAgain (integer_of T.narrowed) value (rolled_back_of T.ToValue.as_value step)) }
    ensures err { IfErr result (λ e. (integer_of T.narrowed value ≡ None) × (e.0 ≡ value)) }
{
    let Some(number) = value_number(&value) else {
        return Err(FromValueError(value));
    };
    let Some(x) = T::narrow(number) else {
        return Err(FromValueError(value));
    };
    match value {
        Value::Bytes(text) => Ok(ParseIrOpt::Parsed(x, Value::Bytes(text))),
        _ => Ok(ParseIrOpt::Ready(x)),
    }
}
