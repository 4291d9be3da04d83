//! The ranges of integer types.

ghost use Rattle.mysql_convert.specs.Numbers.{signed_in, unsigned_in};
ghost use Rattle.mysql_convert.specs.IntegerLaws.{signed_in-held_wide, signed_in-holds, signed_in-small};
ghost use Rattle.mysql_convert.specs.IntegerLaws.{unsigned_in-held_signed, unsigned_in-held_wide, unsigned_in-holds};
ghost use Rattle.mysql_convert.specs.IntegerLaws.{unsigned_in-small};
ghost use Rattle.std.proofs.Common.{lit<, lit≤};

use crate::numbers::{Integer, Number};

impl Integer for i8 {
    ghost narrowed = { signed_in 8 };

    fn narrow(number: Number) -> Option<i8> {
        i8::try_from(number.to_i128()?).ok()
    }

    ghost holds = { signed_in-holds 8 };

    ghost small = { signed_in-small 8 (lit< tt) };
}

impl Integer for i16 {
    ghost narrowed = { signed_in 16 };

    fn narrow(number: Number) -> Option<i16> {
        i16::try_from(number.to_i128()?).ok()
    }

    ghost holds = { signed_in-holds 16 };

    ghost small = { signed_in-small 16 (lit< tt) };
}

impl Integer for i32 {
    ghost narrowed = { signed_in 32 };

    fn narrow(number: Number) -> Option<i32> {
        i32::try_from(number.to_i128()?).ok()
    }

    ghost holds = { signed_in-holds 32 };

    ghost small = { signed_in-small 32 (lit< tt) };
}

impl Integer for i64 {
    ghost narrowed = { signed_in 64 };

    fn narrow(number: Number) -> Option<i64> {
        i64::try_from(number.to_i128()?).ok()
    }

    ghost holds = { signed_in-holds 64 };

    ghost small = { signed_in-small 64 (lit< tt) };
}

impl Integer for isize {
    ghost narrowed = { signed_in 64 };

    fn narrow(number: Number) -> Option<isize> {
        isize::try_from(number.to_i128()?).ok()
    }

    ghost holds = { signed_in-holds 64 };

    ghost small = { signed_in-small 64 (lit< tt) };
}

impl Integer for u8 {
    ghost narrowed = { unsigned_in 8 };

    fn narrow(number: Number) -> Option<u8> {
        u8::try_from(number.to_u128()?).ok()
    }

    ghost holds = { unsigned_in-held_signed 8 };

    ghost small = { unsigned_in-small 8 (lit≤ tt) };
}

impl Integer for u16 {
    ghost narrowed = { unsigned_in 16 };

    fn narrow(number: Number) -> Option<u16> {
        u16::try_from(number.to_u128()?).ok()
    }

    ghost holds = { unsigned_in-held_signed 16 };

    ghost small = { unsigned_in-small 16 (lit≤ tt) };
}

impl Integer for u32 {
    ghost narrowed = { unsigned_in 32 };

    fn narrow(number: Number) -> Option<u32> {
        u32::try_from(number.to_u128()?).ok()
    }

    ghost holds = { unsigned_in-held_signed 32 };

    ghost small = { unsigned_in-small 32 (lit≤ tt) };
}

impl Integer for u64 {
    ghost narrowed = { unsigned_in 64 };

    fn narrow(number: Number) -> Option<u64> {
        u64::try_from(number.to_u128()?).ok()
    }

    ghost holds = { unsigned_in-holds 64 };

    ghost small = { unsigned_in-small 64 (lit≤ tt) };
}

impl Integer for usize {
    ghost narrowed = { unsigned_in 64 };

    fn narrow(number: Number) -> Option<usize> {
        usize::try_from(number.to_u128()?).ok()
    }

    ghost holds = { unsigned_in-holds 64 };

    ghost small = { unsigned_in-small 64 (lit≤ tt) };
}

impl Integer for i128 {
    ghost narrowed = { signed_in 128 };

    fn narrow(number: Number) -> Option<i128> {
        number.to_i128()
    }

    ghost holds = { signed_in-held_wide };

    ghost small = { signed_in-small 128 (lit< tt) };
}

impl Integer for u128 {
    ghost narrowed = { unsigned_in 128 };

    fn narrow(number: Number) -> Option<u128> {
        number.to_u128()
    }

    ghost holds = { unsigned_in-held_wide };

    ghost small = { unsigned_in-small 128 (lit≤ tt) };
}
