//! Constants in their representations, one of two values, and how many bytes a value takes.

ghost use Rattle.std.proofs.Common.{lit<};
ghost use Rattle.std.specs.Prelude.{[], refl, ◌∷◌};

use crate::support::Asserting;
use mysql_buf::ParseBuf;
use mysql_const::{
    Command, DEFAULT_MAX_ALLOWED_PACKET, ItemResult, MAX_PAYLOAD_LEN, StatusFlags, UTF8_GENERAL_CI,
    UTF8MB4_GENERAL_CI,
};
use mysql_field_constants::{
    Const, ConstBytes, ConstBytesValue, ConstU8, ConstU32, ConstValue, Either, RawConst, RawFlags,
    Skip,
};
use mysql_field_lists::Seq;
use mysql_fields::{
    BareU8Bytes, BareU16Bytes, BytesRepr, FixedLengthText, IntRepr, LeU16, LeU32, LenEnc,
    NullBytes, ParseExt, RawBytes, RawInt, Readable, U8Bytes, U32Bytes, VarLen, WireError,
};
use std::alloc::Global;
use std::fmt::Debug;
use std::test::*;
use tests_support::{
    Assert, assert_equal, assert_reads_back, assert_same, assert_written, first_of, once_more,
    whole,
};

/// The catalog's name after its length.
struct Catalog;

impl ConstBytesValue<4> for Catalog {
    const VALUE: [u8; 4] = [3, 100, 101, 102];

    ghost VALUE = { 3 ∷ 100 ∷ 101 ∷ 102 ∷ [] };

    ghost value_len = { refl };

    ghost fits = { lit< tt };
}

/// Names a header.
struct Header;

// Asserts that a value in a representation is written as these bytes, and that they are read as it.
fn assert_by_number<T: ConstValue + PartialEq + Debug + Drop, U: IntRepr<Primitive = T::Number>>(
    assert: &impl Assert,
    alloc: Global,
    value: T,
    bytes: &[u8],
) {
    let value: Const<T, U> = Const::new(value);
    assert_written(assert, alloc, &value, bytes);
    assert_same(
        assert,
        &whole::<Const<T, U>, ()>(assert, alloc, (), bytes).0,
        &value.0,
    );
}

/// A number of one byte or of two.
type OneOfTwo = Either<RawInt<u8>, RawInt<LeU16>>;

#[test]
fn values_by_their_numbers(rt: HostRuntime) {
    let assert = Asserting(&rt);
    let alloc = rt.alloc();
    assert_by_number::<Command, u8>(&assert, alloc, Command::COM_PING, &[14]);
    assert_by_number::<ItemResult, i8>(&assert, alloc, ItemResult::INVALID_RESULT, &[0xff]);
    assert_by_number::<StatusFlags, LeU16>(&assert, alloc, StatusFlags(0x802), &[2, 8]);
    assert_reads_back::<ConstU8<Header, 0xfe>, ()>(&assert, alloc, (), &[0xfe]);
    assert_reads_back::<ConstU32<Header, 1>, ()>(&assert, alloc, (), &[1, 0, 0, 0]);
    assert_reads_back::<ConstBytes<Catalog, 4>, ()>(&assert, alloc, (), b"\x03def");
    // Whatever is skipped, zeros are written.
    let skipped = whole::<Skip<2>, ()>(&assert, alloc, (), &[7, 0xff]);
    assert_written(&assert, alloc, &skipped, &[0, 0]);
    // Flags with an unknown bit.
    let mut buf = ParseBuf(&[2, 0x80, 33]);
    let flags = first_of::<RawFlags<StatusFlags, LeU16>, ()>(&assert, alloc, (), &mut buf);
    assert_equal(&assert, flags.0, 0x8002);
    assert_equal(&assert, flags.get(), StatusFlags::SERVER_STATUS_AUTOCOMMIT);
    assert_written(&assert, alloc, &flags, &[2, 0x80]);
    // A number without a command, behind them.
    let number = first_of::<RawConst<u8, Command>, ()>(&assert, alloc, (), &mut buf);
    assert_equal(&assert, number.0, 33);
    assert_equal(&assert, number.get(), Err(WireError::UnknownValue));
    let ping: RawConst<u8, Command> = RawConst::new(14);
    assert_equal(&assert, ping.get(), Ok(Command::COM_PING));
}

#[test]
fn one_of_two(rt: HostRuntime) {
    let assert = Asserting(&rt);
    let one: OneOfTwo = Either::Right(RawInt::new(9));
    assert_written(&assert, rt.alloc(), &one, &[9, 0]);
    let mut buf = ParseBuf(&[7, 8]);
    // A number asks for no memory.
    let read = buf.parse::<OneOfTwo>(rt.alloc(), Either::Left(()));
    let read = once_more(&assert, read, Err(WireError::Memory));
    assert.holds(read == Either::Left(RawInt::new(7)));
    assert_equal(&assert, buf.len(), 1);
    let left: Either<u8, u16> = Either::Left(1);
    assert_equal(&assert, left.unwrap_left(), 1);
    let right: Either<u8, u16> = Either::Right(2);
    assert_equal(&assert, right.unwrap_right(), 2);
    // Representations are equal where what they hold is.
    let are_compared = (RawInt::<LeU16>::new(5) == RawInt::new(5))
        & (RawInt::<LeU16>::new(5) != RawInt::default())
        & (ConstU8::<Header, 1>::new() == ConstU8::default())
        & (RawConst::<u8, Command>::new(14) != RawConst::default())
        & (Const::<Command, u8>::new(Command::COM_PING).get() == Command::COM_PING);
    assert.holds(are_compared);
}

#[test]
fn sizes(rt: HostRuntime) {
    let assert = Asserting(&rt);
    assert.holds((LeU32::SIZE == Some(4)) & (U8Bytes::MAX_LEN == 255));
    assert.holds((U32Bytes::MAX_LEN == 4294967295) & (VarLen::MAX_LEN == 4294967295));
    assert.holds((BareU8Bytes::MAX_LEN == 255) & (BareU16Bytes::MAX_LEN == 65535));
    assert.holds((MAX_PAYLOAD_LEN == 16777215) & (DEFAULT_MAX_ALLOWED_PACKET == 4194304));
    assert.holds((UTF8_GENERAL_CI == 33) & (UTF8MB4_GENERAL_CI == 45));
    let are_sizes = (RawInt::<LeU32>::size() == Some(4))
        & (ConstU32::<Header, 1>::size() == Some(4))
        & (Skip::<10>::size() == Some(10))
        & (<[u8; 6]>::size() == Some(6))
        & (RawBytes::<FixedLengthText<5>>::size() == Some(5))
        & RawInt::<LenEnc>::size().is_none()
        & RawBytes::<NullBytes>::size().is_none()
        & Seq::<RawInt<LeU32>, u8>::size().is_none();
    assert.holds(are_sizes);
}
