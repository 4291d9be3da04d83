//! Constants, values by their numbers, flags, and bytes that are skipped, as fields.
//!
//!     let header: ConstU8<Header, 0xfe> = buf.parse(alloc, ())?;
//!     let command: Const<Command, u8> = buf.parse(alloc, ())?;
//!     let status: RawFlags<StatusFlags, LeU16> = buf.parse(alloc, ())?;
//!     let filler: Skip<2> = buf.parse(alloc, ())?;
//!     let (command, status) = (command.get(), status.get());

ghost use Rattle.std.specs.Prelude.{◌≡◌, ◌<◌, ◌^◌, List, Option, Some, length, replicate, ℕ, ⊤};
ghost use Rattle.std.specs.Int.RustNames.{bit_and};
ghost use Rattle.bitflags.specs.Sets.{known_bits};
ghost use Rattle.byteorder.specs.Endian.{little_bytes};
ghost use Rattle.mysql_field_constants.specs.ConstantLaws.{constant_at-back, constant_at-sized, named_at-back};
ghost use Rattle.mysql_field_constants.specs.ConstantLaws.{named_at-sized, text_constant_at-back};
ghost use Rattle.mysql_field_constants.specs.ConstantLaws.{text_constant_at-sized, skipped_at-back, skipped_at-sized};
ghost use Rattle.mysql_field_constants.specs.Constants.{constant_at, known, named_at, text_constant_at, skipped_at};

use bitflags::Flags;
use bytes::BufMut;
use mysql_buf::ParseBuf;
use mysql_fields::{IntRepr, MyDeserialize, MySerialize, Readable, ReadsBack, WireError};
use std::alloc::{AllocError, Global};
use std::fmt;
use std::marker::PhantomData;

/// The byte `N`; `T` names it. Another byte is refused by `BadConstant`.
#[derive_where(Clone, Copy, Debug, Default, PartialEq, Eq, Hash)]
pub struct ConstU8<T, const N: u8>(PhantomData<T>);

impl<T, const N: u8> ConstU8<T, N> {
    /// The constant.
    pub fn new() -> ConstU8<T, N> {
        ConstU8(PhantomData)
    }

    /// Its number.
    pub fn value(&self) -> u8
        ensures { result ≡ N }
    {
        N
    }
}

impl<T, const N: u8> MySerialize for ConstU8<T, N> {
    ghost written = { λ _. little_bytes 1 N };

    fn serialize(&self, buf: &mut Vec<u8>) -> Result<(), AllocError> {
        buf.extend_from_slice(&[N])
    }
}

impl<T, const N: u8> Readable for ConstU8<T, N> {
    type Ctx = ();

    ghost SIZE = { Some 1 };

    ghost Shown = { ℕ };

    ghost shown = { λ _. N };

    ghost kept = { λ _. N };

    ghost read_at = { λ _ bytes. constant_at 1 N bytes };

    ghost IsReadBack = { λ _ _ _. N < 2 ^ 8 };

    ghost sized = { λ _. constant_at-sized 1 N };

    fn size() -> Option<usize> {
        Some(1)
    }
}

impl<T, const N: u8> ReadsBack for ConstU8<T, N> {
    ghost reads_back = { λ _ _ rest. constant_at-back 1 N rest };
}

impl<'de, T, const N: u8> MyDeserialize<'de> for ConstU8<T, N> {
    fn deserialize(
        _alloc: Global,
        _ctx: (),
        buf: &mut ParseBuf<'de>,
    ) -> Result<ConstU8<T, N>, WireError> {
        let mut rest = *buf;
        if rest.eat_u8() != N {
            return Err(WireError::BadConstant);
        }
        *buf = rest;
        Ok(ConstU8(PhantomData))
    }
}

/// The number `N` in four bytes, lowest first; `T` names it. Another number is refused by `BadConstant`.
#[derive_where(Clone, Copy, Debug, Default, PartialEq, Eq, Hash)]
pub struct ConstU32<T, const N: u32>(PhantomData<T>);

impl<T, const N: u32> ConstU32<T, N> {
    /// The constant.
    pub fn new() -> ConstU32<T, N> {
        ConstU32(PhantomData)
    }

    /// Its number.
    pub fn value(&self) -> u32
        ensures { result ≡ N }
    {
        N
    }
}

impl<T, const N: u32> MySerialize for ConstU32<T, N> {
    ghost written = { λ _. little_bytes 4 N };

    fn serialize(&self, buf: &mut Vec<u8>) -> Result<(), AllocError> {
        buf.put_u32_le(N)
    }
}

impl<T, const N: u32> Readable for ConstU32<T, N> {
    type Ctx = ();

    ghost SIZE = { Some 4 };

    ghost Shown = { ℕ };

    ghost shown = { λ _. N };

    ghost kept = { λ _. N };

    ghost read_at = { λ _ bytes. constant_at 4 N bytes };

    ghost IsReadBack = { λ _ _ _. N < 2 ^ 32 };

    ghost sized = { λ _. constant_at-sized 4 N };

    fn size() -> Option<usize> {
        Some(4)
    }
}

impl<T, const N: u32> ReadsBack for ConstU32<T, N> {
    ghost reads_back = { λ _ _ rest. constant_at-back 4 N rest };
}

impl<'de, T, const N: u32> MyDeserialize<'de> for ConstU32<T, N> {
    fn deserialize(
        _alloc: Global,
        _ctx: (),
        buf: &mut ParseBuf<'de>,
    ) -> Result<ConstU32<T, N>, WireError> {
        let mut rest = *buf;
        if rest.eat_u32_le() != N {
            return Err(WireError::BadConstant);
        }
        *buf = rest;
        Ok(ConstU32(PhantomData))
    }
}

/// `L` zeros, which are read whatever they are.
#[derive(Clone, Copy, Debug, Default, PartialEq, Eq, Hash)]
pub struct Skip<const L: usize>;

impl<const L: usize> MySerialize for Skip<L> {
    ghost written = { λ _. replicate L 0 };

    fn serialize(&self, buf: &mut Vec<u8>) -> Result<(), AllocError> {
        match buf.len().checked_add(L) {
            Some(n) => buf.resize(n, 0),
            None => Err(AllocError),
        }
    }
}

impl<const L: usize> Readable for Skip<L> {
    type Ctx = ();

    ghost SIZE = { Some L };

    ghost Shown = { Unit {0} };

    ghost shown = { λ _. tt };

    ghost kept = { λ _. tt };

    ghost read_at = { λ _ bytes. skipped_at L bytes };

    ghost IsReadBack = { λ _ _ _. ⊤ };

    ghost sized = { λ _. skipped_at-sized L };

    fn size() -> Option<usize> {
        Some(L)
    }
}

impl<const L: usize> ReadsBack for Skip<L> {
    ghost reads_back = { λ _ _ rest _. skipped_at-back L rest };
}

impl<'de, const L: usize> MyDeserialize<'de> for Skip<L> {
    fn deserialize(
        _alloc: Global,
        _ctx: (),
        buf: &mut ParseBuf<'de>,
    ) -> Result<Skip<L>, WireError> {
        let _ = buf.eat(L);
        Ok(Skip)
    }
}

/// A set of flags, its unknown bits too, in the representation `U`.
#[derive(Drop)]
#[derive_where(Clone, PartialEq)]
#[derive_where(Default; T::Bits)]
pub struct RawFlags<T: Flags, U: IntRepr<Primitive = T::Bits>>(pub T::Bits, PhantomData<U>);

impl<T: Flags, U: IntRepr<Primitive = T::Bits>> MySerialize for RawFlags<T, U> {
    ghost written = { λ x. U.form.written x.0 };

    fn serialize(&self, buf: &mut Vec<u8>) -> Result<(), AllocError> {
        U::serialize(self.0, buf)
    }
}

/// The bytes of a constant.
pub trait ConstBytesValue<const LEN: usize> {
    /// The bytes.
    const VALUE: [u8; LEN];

    ghost VALUE: { List ℕ };

    ghost value_len: { length VALUE ≡ LEN };

    ghost fits: { LEN < 2 ^ 63 };
}

/// The bytes of `T`. Others are refused by `BadConstant`.
#[derive_where(Clone, Copy, Debug, Default, PartialEq, Eq, Hash)]
pub struct ConstBytes<T, const LEN: usize>(PhantomData<T>);

impl<T: ConstBytesValue<LEN>, const LEN: usize> ConstBytes<T, LEN> {
    /// The constant.
    pub fn new() -> ConstBytes<T, LEN> {
        ConstBytes(PhantomData)
    }
}

impl<T: ConstBytesValue<LEN>, const LEN: usize> MySerialize for ConstBytes<T, LEN> {
    ghost written = { λ _. T.VALUE };

    fn serialize(&self, buf: &mut Vec<u8>) -> Result<(), AllocError> {
        buf.extend_from_slice(&T::VALUE)
    }
}

impl<T: ConstBytesValue<LEN>, const LEN: usize> Readable for ConstBytes<T, LEN> {
    type Ctx = ();

    ghost SIZE = { Some LEN };

    ghost Shown = { Unit {0} };

    ghost shown = { λ _. tt };

    ghost read_at = { λ _ bytes. text_constant_at LEN T.VALUE bytes };

    ghost kept = { λ _. tt };

    ghost IsReadBack = { λ _ _ _. ⊤ };

    ghost sized = { λ _. text_constant_at-sized LEN T.VALUE };

    fn size() -> Option<usize> {
        Some(LEN)
    }
}

impl<T: ConstBytesValue<LEN>, const LEN: usize> ReadsBack for ConstBytes<T, LEN> {
    ghost reads_back = { λ _ _ rest _. text_constant_at-back LEN T.VALUE rest T.value_len };
}

impl<'de, T: ConstBytesValue<LEN>, const LEN: usize> MyDeserialize<'de> for ConstBytes<T, LEN> {
    fn deserialize(
        _alloc: Global,
        _ctx: (),
        buf: &mut ParseBuf<'de>,
    ) -> Result<ConstBytes<T, LEN>, WireError> {
        let mut rest = *buf;
        if rest.eat(LEN) != T::VALUE.as_slice() {
            return Err(WireError::BadConstant);
        }
        *buf = rest;
        Ok(ConstBytes(PhantomData))
    }
}

impl<T: Flags, U: IntRepr<Primitive = T::Bits>> RawFlags<T, U> {
    /// Bits that are to be written.
    pub fn new(bits: T::Bits) -> RawFlags<T, U>
        ensures { result.0 ≡ bits }
    {
        RawFlags(bits, PhantomData)
    }

    /// The known flags; unknown bits are dropped.
    pub fn get(&self) -> T
        ensures { T.exact → T.set_of result ≡ bit_and (T.Bits.pattern self.now.0) (known_bits T.table) }
    {
        T::from_bits_truncate(self.0)
    }
}

/// Shows the bits.
impl<T: Flags, U: IntRepr<Primitive = T::Bits>> fmt::Debug for RawFlags<T, U>
where
    T::Bits: fmt::Debug,
{
    fn fmt<W: fmt::Write>(&self, f: &mut fmt::Formatter<W>) -> fmt::Result {
        self.0.fmt(f)
    }
}

impl<T: Flags, U: IntRepr<Primitive = T::Bits>> Readable for RawFlags<T, U> {
    type Ctx = ();

    ghost SIZE = { U.SIZE };

    ghost Shown = { T.Bits };

    ghost shown = { λ x. x.0 };

    ghost read_at = { λ _ bytes. U.form.read_at bytes };

    ghost kept = { λ x. x.0 };

    ghost IsReadBack = { λ _ x _. U.form.IsKept x.0 };

    ghost sized = { λ _. U.form.sized };

    fn size() -> Option<usize> {
        U::SIZE
    }
}

impl<T: Flags, U: IntRepr<Primitive = T::Bits>> ReadsBack for RawFlags<T, U> {
    ghost reads_back = { λ _ x rest. U.form.reads_back x.0 rest };
}

impl<'de, T: Flags, U: IntRepr<Primitive = T::Bits>> MyDeserialize<'de> for RawFlags<T, U> {
    fn deserialize(
        _alloc: Global,
        _ctx: (),
        buf: &mut ParseBuf<'de>,
    ) -> Result<RawFlags<T, U>, WireError> {
        let x = U::deserialize(buf)?;
        Ok(RawFlags(x, PhantomData))
    }
}

/// Values that have numbers.
pub trait ConstValue: Copy {
    /// The type of the numbers.
    type Number: Copy;

    ghost number: { Self → Self.Number };

    ghost named: { Self.Number → Option Self };

    // the values that their numbers name; a set of flags with a bit without a name is none of them
    ghost IsNamed: { Self → Type 0 } = { λ _. ⊤ };

    /// The value's number.
    fn to_number(self) -> Self::Number
        ensures { result ≡ number self };

    /// The value that has this number.
    fn from_number(n: Self::Number) -> Option<Self>
        ensures { result ≡ named n };

    ghost names_back: { (x : Self) → IsNamed x → named (number x) ≡ Some x };
}

/// A value by its number in the representation `U`. A number without a value is refused by
/// `UnknownValue`.
#[derive_where(Clone, Copy)]
#[derive_where(PartialEq, Eq, Hash; T)]
pub struct Const<T: ConstValue, U: IntRepr<Primitive = T::Number>>(pub T, PhantomData<U>);

impl<T: ConstValue, U: IntRepr<Primitive = T::Number>> Const<T, U> {
    /// A value that is to be written.
    pub fn new(x: T) -> Const<T, U>
        ensures { result.0 ≡ x }
    {
        Const(x, PhantomData)
    }

    /// The value.
    pub fn get(&self) -> T
        ensures { result ≡ self.now.0 }
    {
        self.0
    }
}

/// Shows the value.
impl<T: ConstValue + fmt::Debug, U: IntRepr<Primitive = T::Number>> fmt::Debug for Const<T, U> {
    fn fmt<W: fmt::Write>(&self, f: &mut fmt::Formatter<W>) -> fmt::Result {
        self.0.fmt(f)
    }
}

impl<T: ConstValue, U: IntRepr<Primitive = T::Number>> MySerialize for Const<T, U> {
    ghost written = { λ x. U.form.written (T.number x.0) };

    fn serialize(&self, buf: &mut Vec<u8>) -> Result<(), AllocError> {
        U::serialize(self.0.to_number(), buf)
    }
}

impl<T: ConstValue, U: IntRepr<Primitive = T::Number>> Readable for Const<T, U> {
    type Ctx = ();

    ghost SIZE = { U.SIZE };

    ghost Shown = { T };

    ghost shown = { λ x. x.0 };

    ghost read_at = { λ _ bytes. named_at T.named U.form.read_at bytes };

    ghost kept = { λ x. x.0 };

    ghost IsReadBack = { λ _ x _. T.IsNamed x.0 × U.form.IsKept (T.number x.0) };

    ghost sized = { λ _. named_at-sized U.SIZE T.named U.form.read_at U.form.sized };

    fn size() -> Option<usize> {
        U::SIZE
    }
}

impl<T: ConstValue, U: IntRepr<Primitive = T::Number>> ReadsBack for Const<T, U> {
    ghost reads_back = { λ _ x rest h. named_at-back T.named T.number U.form.read_at U.form.written x.0 rest
        (T.names_back x.0 h.0) (U.form.reads_back (T.number x.0) rest h.1) };
}

impl<'de, T: ConstValue, U: IntRepr<Primitive = T::Number>> MyDeserialize<'de> for Const<T, U> {
    fn deserialize(
        _alloc: Global,
        _ctx: (),
        buf: &mut ParseBuf<'de>,
    ) -> Result<Const<T, U>, WireError> {
        let mut rest = *buf;
        let number = U::deserialize(&mut rest)?;
        match T::from_number(number) {
            Some(x) => {
                *buf = rest;
                Ok(Const(x, PhantomData))
            }
            None => Err(WireError::UnknownValue),
        }
    }
}

/// The number of a constant in the representation `T`. Any number is held; `U` are the values that
/// are meant.
#[derive(Drop)]
#[derive_where(Clone)]
#[derive_where(Default, PartialEq, Eq, Hash; T::Primitive)]
pub struct RawConst<T: IntRepr, U>(pub T::Primitive, PhantomData<U>);

impl<T: IntRepr, U> RawConst<T, U> {
    /// A number that is to be written.
    pub fn new(number: T::Primitive) -> RawConst<T, U>
        ensures { result.0 ≡ number }
    {
        RawConst(number, PhantomData)
    }
}

impl<T: IntRepr, U: ConstValue<Number = T::Primitive>> RawConst<T, U> {
    /// The value that has this number.
    ///
    /// # Errors
    /// - `UnknownValue` where there is none.
    pub fn get(&self) -> Result<U, WireError>
        ensures { result ≡ known (U.named self.now.0) }
    {
        U::from_number(self.0).ok_or(WireError::UnknownValue)
    }
}

/// Shows the number.
impl<T: IntRepr, U> fmt::Debug for RawConst<T, U>
where
    T::Primitive: fmt::Debug,
{
    fn fmt<W: fmt::Write>(&self, f: &mut fmt::Formatter<W>) -> fmt::Result {
        self.0.fmt(f)
    }
}

impl<T: IntRepr, U> MySerialize for RawConst<T, U> {
    ghost written = { λ x. T.form.written x.0 };

    fn serialize(&self, buf: &mut Vec<u8>) -> Result<(), AllocError> {
        T::serialize(self.0, buf)
    }
}

impl<T: IntRepr, U> Readable for RawConst<T, U> {
    type Ctx = ();

    ghost SIZE = { T.SIZE };

    ghost Shown = { T.Primitive };

    ghost shown = { λ x. x.0 };

    ghost read_at = { λ _ bytes. T.form.read_at bytes };

    ghost kept = { λ x. x.0 };

    ghost IsReadBack = { λ _ x _. T.form.IsKept x.0 };

    ghost sized = { λ _. T.form.sized };

    fn size() -> Option<usize> {
        T::SIZE
    }
}

impl<T: IntRepr, U> ReadsBack for RawConst<T, U> {
    ghost reads_back = { λ _ x rest. T.form.reads_back x.0 rest };
}

impl<'de, T: IntRepr, U> MyDeserialize<'de> for RawConst<T, U> {
    fn deserialize(
        _alloc: Global,
        _ctx: (),
        buf: &mut ParseBuf<'de>,
    ) -> Result<RawConst<T, U>, WireError> {
        let number = T::deserialize(buf)?;
        Ok(RawConst(number, PhantomData))
    }
}
