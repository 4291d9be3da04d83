//! Whole numbers as fields: each representation says how many bytes they take, and in which order.
//!
//!     let id: RawInt<LeU32> = buf.parse(alloc, ())?;
//!     let number = id.get();
//!     RawInt::<LenEnc>::new(300).serialize(&mut out)?;

ghost use Rattle.std.specs.Prelude.{◌≡◌, None, Option, Some, length, refl, ℕ};
ghost use Rattle.std.specs.Int.{w8, w16, w32, w64};
ghost use Rattle.mysql_fields.specs.Numbers.{NumberForm, length_encoded, of_upper_half, of_variable_length};
ghost use Rattle.mysql_fields.specs.Numbers.{signed, unsigned};
ghost use Rattle.mysql_fields.specs.Wire.{Appends, Suffices, Tells};

use crate::WireError;
use crate::io::{MyDeserialize, MySerialize, Readable, ReadsBack};
use bytes::BufMut;
use mysql_buf::{BufMutExt, ParseBuf, read_varlen_uint, write_varlen_uint};
use std::alloc::{AllocError, Global};
use std::fmt;
use std::marker::PhantomData;

/// A representation of whole numbers.
/// (MySQL: Client/Server Protocol, "Protocol Basics: Integer Types".)
///
/// Promise: a number is written as its bytes, and read as exactly what stands there (`Tells`).
pub trait IntRepr {
    /// The type of the numbers.
    type Primitive: Copy;

    /// The number of bytes that are needed and eaten, where it is the same for all numbers.
    const SIZE: Option<usize>;

    ghost SIZE: { Option ℕ };

    // how a number is written and read
    ghost form: { NumberForm SIZE Self.Primitive };

    /// Appends a number.
    ///
    /// # Errors
    /// - `AllocError` for want of memory. The buffer is then as it was.
    fn serialize(number: Self::Primitive, buf: &mut Vec<u8>) -> Result<(), AllocError>
        ensures { Appends result buf.old.items buf.new.items (form.written number) };

    /// Reads the number that stands first.
    ///
    /// # Errors
    /// - `UnexpectedEof` where it is cut off. All bytes are then left.
    fn deserialize(buf: &mut ParseBuf) -> Result<Self::Primitive, WireError>
        requires { Suffices SIZE (length buf.old.0.now) }
        ensures { Tells (λ x. x) buf.old.0.now buf.new.0.now result (form.read_at buf.old.0.now) };
}

/// A number in the representation `T`.
#[derive(Drop)]
#[derive_where(Clone)]
#[derive_where(Default, PartialEq, Eq, Hash; T::Primitive)]
pub struct RawInt<T: IntRepr>(pub T::Primitive, PhantomData<T>);

impl<T: IntRepr> RawInt<T> {
    /// A number that is to be written.
    pub fn new(number: T::Primitive) -> RawInt<T>
        ensures { result.0 ≡ number }
    {
        RawInt(number, PhantomData)
    }

    /// The number.
    pub fn get(&self) -> T::Primitive
        ensures { result ≡ self.now.0 }
    {
        self.0
    }
}

/// Shows the number.
impl<T: IntRepr> fmt::Debug for RawInt<T>
where
    T::Primitive: fmt::Debug,
{
    fn fmt<W: fmt::Write>(&self, f: &mut fmt::Formatter<W>) -> fmt::Result {
        self.0.fmt(f)
    }
}

impl<T: IntRepr> MySerialize for RawInt<T> {
    ghost written = { λ x. T.form.written x.0 };

    fn serialize(&self, buf: &mut Vec<u8>) -> Result<(), AllocError> {
        T::serialize(self.0, buf)
    }
}

impl<T: IntRepr> Readable for RawInt<T> {
    fn size() -> Option<usize> {
        T::SIZE
    }

    type Ctx = ();

    ghost SIZE = { T.SIZE };

    ghost Shown = { T.Primitive };

    ghost shown = { λ x. x.0 };

    ghost kept = { λ x. x.0 };

    ghost read_at = { λ _ bytes. T.form.read_at bytes };

    ghost IsReadBack = { λ _ x _. T.form.IsKept x.0 };

    ghost sized = { λ _. T.form.sized };
}

impl<T: IntRepr> ReadsBack for RawInt<T> {
    ghost reads_back = { λ _ x rest. T.form.reads_back x.0 rest };
}

impl<'de, T: IntRepr> MyDeserialize<'de> for RawInt<T> {
    fn deserialize(
        _alloc: Global,
        _ctx: (),
        buf: &mut ParseBuf<'de>,
    ) -> Result<RawInt<T>, WireError> {
        let number = T::deserialize(buf)?;
        Ok(RawInt(number, PhantomData))
    }
}

/// One byte.
impl IntRepr for u8 {
    type Primitive = u8;

    const SIZE: Option<usize> = Some(1);

    ghost SIZE = { Some 1 };

    ghost form = { unsigned 1 };

    fn serialize(number: u8, buf: &mut Vec<u8>) -> Result<(), AllocError> {
        buf.put_u8(number)
    }

    fn deserialize(buf: &mut ParseBuf) -> Result<u8, WireError> {
        Ok(buf.eat_u8())
    }
}

/// One byte in two's complement.
impl IntRepr for i8 {
    type Primitive = i8;

    const SIZE: Option<usize> = Some(1);

    ghost SIZE = { Some 1 };

    ghost form = { signed w8 1 refl refl };

    fn serialize(number: i8, buf: &mut Vec<u8>) -> Result<(), AllocError> {
        buf.put_i8(number)
    }

    fn deserialize(buf: &mut ParseBuf) -> Result<i8, WireError> {
        Ok(buf.eat_i8())
    }
}

/// Two bytes, lowest first.
#[derive(Clone, Copy, Debug, PartialEq, Eq)]
pub struct LeU16;

impl IntRepr for LeU16 {
    type Primitive = u16;

    const SIZE: Option<usize> = Some(2);

    ghost SIZE = { Some 2 };

    ghost form = { unsigned 2 };

    fn serialize(number: u16, buf: &mut Vec<u8>) -> Result<(), AllocError> {
        buf.put_u16_le(number)
    }

    fn deserialize(buf: &mut ParseBuf) -> Result<u16, WireError> {
        Ok(buf.eat_u16_le())
    }
}

/// Two bytes in two's complement, lowest first.
#[derive(Clone, Copy, Debug, PartialEq, Eq)]
pub struct LeI16;

impl IntRepr for LeI16 {
    type Primitive = i16;

    const SIZE: Option<usize> = Some(2);

    ghost SIZE = { Some 2 };

    ghost form = { signed w16 2 refl refl };

    fn serialize(number: i16, buf: &mut Vec<u8>) -> Result<(), AllocError> {
        buf.put_i16_le(number)
    }

    fn deserialize(buf: &mut ParseBuf) -> Result<i16, WireError> {
        Ok(buf.eat_i16_le())
    }
}

/// The low three bytes, lowest first.
#[derive(Clone, Copy, Debug, PartialEq, Eq)]
pub struct LeU24;

impl IntRepr for LeU24 {
    type Primitive = u32;

    const SIZE: Option<usize> = Some(3);

    ghost SIZE = { Some 3 };

    ghost form = { unsigned 3 };

    fn serialize(number: u32, buf: &mut Vec<u8>) -> Result<(), AllocError> {
        buf.put_u24_le(number)
    }

    fn deserialize(buf: &mut ParseBuf) -> Result<u32, WireError> {
        Ok(buf.eat_u24_le())
    }
}

/// The low three bytes in two's complement, lowest first.
#[derive(Clone, Copy, Debug, PartialEq, Eq)]
pub struct LeI24;

impl IntRepr for LeI24 {
    type Primitive = i32;

    const SIZE: Option<usize> = Some(3);

    ghost SIZE = { Some 3 };

    ghost form = { signed w32 3 refl refl };

    fn serialize(number: i32, buf: &mut Vec<u8>) -> Result<(), AllocError> {
        buf.put_i24_le(number)
    }

    fn deserialize(buf: &mut ParseBuf) -> Result<i32, WireError> {
        Ok(buf.eat_i24_le())
    }
}

/// Four bytes, lowest first.
#[derive(Clone, Copy, Debug, PartialEq, Eq)]
pub struct LeU32;

impl IntRepr for LeU32 {
    type Primitive = u32;

    const SIZE: Option<usize> = Some(4);

    ghost SIZE = { Some 4 };

    ghost form = { unsigned 4 };

    fn serialize(number: u32, buf: &mut Vec<u8>) -> Result<(), AllocError> {
        buf.put_u32_le(number)
    }

    fn deserialize(buf: &mut ParseBuf) -> Result<u32, WireError> {
        Ok(buf.eat_u32_le())
    }
}

/// Four bytes in two's complement, lowest first.
#[derive(Clone, Copy, Debug, PartialEq, Eq)]
pub struct LeI32;

impl IntRepr for LeI32 {
    type Primitive = i32;

    const SIZE: Option<usize> = Some(4);

    ghost SIZE = { Some 4 };

    ghost form = { signed w32 4 refl refl };

    fn serialize(number: i32, buf: &mut Vec<u8>) -> Result<(), AllocError> {
        buf.put_i32_le(number)
    }

    fn deserialize(buf: &mut ParseBuf) -> Result<i32, WireError> {
        Ok(buf.eat_i32_le())
    }
}

/// The low six bytes, lowest first.
#[derive(Clone, Copy, Debug, PartialEq, Eq)]
pub struct LeU48;

impl IntRepr for LeU48 {
    type Primitive = u64;

    const SIZE: Option<usize> = Some(6);

    ghost SIZE = { Some 6 };

    ghost form = { unsigned 6 };

    fn serialize(number: u64, buf: &mut Vec<u8>) -> Result<(), AllocError> {
        buf.put_u48_le(number)
    }

    fn deserialize(buf: &mut ParseBuf) -> Result<u64, WireError> {
        Ok(buf.eat_u48_le())
    }
}

/// The low seven bytes, lowest first.
#[derive(Clone, Copy, Debug, PartialEq, Eq)]
pub struct LeU56;

impl IntRepr for LeU56 {
    type Primitive = u64;

    const SIZE: Option<usize> = Some(7);

    ghost SIZE = { Some 7 };

    ghost form = { unsigned 7 };

    fn serialize(number: u64, buf: &mut Vec<u8>) -> Result<(), AllocError> {
        buf.put_u56_le(number)
    }

    fn deserialize(buf: &mut ParseBuf) -> Result<u64, WireError> {
        Ok(buf.eat_u56_le())
    }
}

/// The low seven bytes in two's complement, lowest first.
#[derive(Clone, Copy, Debug, PartialEq, Eq)]
pub struct LeI56;

impl IntRepr for LeI56 {
    type Primitive = i64;

    const SIZE: Option<usize> = Some(7);

    ghost SIZE = { Some 7 };

    ghost form = { signed w64 7 refl refl };

    fn serialize(number: i64, buf: &mut Vec<u8>) -> Result<(), AllocError> {
        buf.put_i56_le(number)
    }

    fn deserialize(buf: &mut ParseBuf) -> Result<i64, WireError> {
        Ok(buf.eat_i56_le())
    }
}

/// Eight bytes, lowest first.
#[derive(Clone, Copy, Debug, PartialEq, Eq)]
pub struct LeU64;

impl IntRepr for LeU64 {
    type Primitive = u64;

    const SIZE: Option<usize> = Some(8);

    ghost SIZE = { Some 8 };

    ghost form = { unsigned 8 };

    fn serialize(number: u64, buf: &mut Vec<u8>) -> Result<(), AllocError> {
        buf.put_u64_le(number)
    }

    fn deserialize(buf: &mut ParseBuf) -> Result<u64, WireError> {
        Ok(buf.eat_u64_le())
    }
}

/// Eight bytes in two's complement, lowest first.
#[derive(Clone, Copy, Debug, PartialEq, Eq)]
pub struct LeI64;

impl IntRepr for LeI64 {
    type Primitive = i64;

    const SIZE: Option<usize> = Some(8);

    ghost SIZE = { Some 8 };

    ghost form = { signed w64 8 refl refl };

    fn serialize(number: i64, buf: &mut Vec<u8>) -> Result<(), AllocError> {
        buf.put_i64_le(number)
    }

    fn deserialize(buf: &mut ParseBuf) -> Result<i64, WireError> {
        Ok(buf.eat_i64_le())
    }
}

/// The two low bytes of a number of four, lowest first. What is read has no other bytes.
#[derive(Clone, Copy, Debug, PartialEq, Eq)]
pub struct LeU32LowerHalf;

impl IntRepr for LeU32LowerHalf {
    type Primitive = u32;

    const SIZE: Option<usize> = Some(2);

    ghost SIZE = { Some 2 };

    ghost form = { unsigned 2 };

    fn serialize(number: u32, buf: &mut Vec<u8>) -> Result<(), AllocError> {
        buf.put_u16_le((number & 0xffff) as u16)
    }

    fn deserialize(buf: &mut ParseBuf) -> Result<u32, WireError> {
        Ok(u32::from(buf.eat_u16_le()))
    }
}

/// The two high bytes of a number of four, lowest first. What is read has no other bytes.
#[derive(Clone, Copy, Debug, PartialEq, Eq)]
pub struct LeU32UpperHalf;

impl IntRepr for LeU32UpperHalf {
    type Primitive = u32;

    const SIZE: Option<usize> = Some(2);

    ghost SIZE = { Some 2 };

    ghost form = { of_upper_half };

    fn serialize(number: u32, buf: &mut Vec<u8>) -> Result<(), AllocError> {
        buf.put_u16_le((number >> 16) as u16)
    }

    fn deserialize(buf: &mut ParseBuf) -> Result<u32, WireError> {
        Ok(u32::from(buf.eat_u16_le()) * 0x1_0000)
    }
}

/// A length-encoded number; as a text, bytes after their length as such a number. After a first
/// byte `fb` or `ff` the number is 0.
/// (MySQL: Client/Server Protocol, "Protocol::LengthEncodedInteger".)
#[derive(Clone, Copy, Debug, PartialEq, Eq)]
pub struct LenEnc;

impl IntRepr for LenEnc {
    type Primitive = u64;

    const SIZE: Option<usize> = None;

    ghost SIZE = { None };

    ghost form = { length_encoded };

    fn serialize(number: u64, buf: &mut Vec<u8>) -> Result<(), AllocError> {
        buf.put_lenenc_int(number)
    }

    fn deserialize(buf: &mut ParseBuf) -> Result<u64, WireError> {
        match buf.checked_eat_lenenc_int() {
            Some(number) => Ok(number),
            None => Err(WireError::UnexpectedEof),
        }
    }
}

/// A number of variable length; as a text, bytes after their length as such a number.
/// (MySQL: Source Code Documentation, "mysql::serialization", "Variable-length integer".)
#[derive(Clone, Copy, Debug, PartialEq, Eq)]
pub struct VarLen;

impl IntRepr for VarLen {
    type Primitive = u64;

    const SIZE: Option<usize> = None;

    ghost SIZE = { None };

    ghost form = { of_variable_length };

    fn serialize(number: u64, buf: &mut Vec<u8>) -> Result<(), AllocError> {
        write_varlen_uint(buf, number)
    }

    fn deserialize(buf: &mut ParseBuf) -> Result<u64, WireError> {
        match read_varlen_uint(buf) {
            Some(number) => Ok(number),
            None => Err(WireError::UnexpectedEof),
        }
    }
}
