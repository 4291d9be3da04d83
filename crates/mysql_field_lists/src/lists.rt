//! Lists of fields, behind their count or without one.
//!
//!     let names: Seq<RawBytes<LenEnc>, u8> = buf.parse(alloc, ())?;
//!     let first = names.as_slice().first();
//!     let ids: Seq<RawInt<LeU32>, Unknown> = buf.parse(alloc, count)?;

ghost use Rattle.std.specs.Prelude.{◌≡◌, ◌==◌, ◌<◌, ◌≤◌, ◌-◌, ◌^◌, List, None, Ok, Option, Some, [], ◌∷◌, ◌++◌, IfErr};
ghost use Rattle.std.specs.Prelude.{IfOk, length, map, take, ℕ, true};
ghost use Rattle.std.proofs.Common.{ap};
ghost use Rattle.std.specs.Cow.{IsOwnedSlice, cow_slice_items};
ghost use Rattle.std.specs.List.{AllByRecursion, AllZip, flat_map};
ghost use Rattle.byteorder.specs.Endian.{little_bytes};
ghost use Rattle.mysql_buf.specs.Writing.{lenenc_int};
ghost use Rattle.mysql_fields.specs.Forms.{lenenc_number_at, fixed_number_at};
ghost use Rattle.mysql_fields.specs.Laws.{lenenc_number_at-back, fixed_number_at-back, unsized};
ghost use Rattle.mysql_field_lists.specs.Lists.{IsCopied, IsGrown, counted_at, elements_at};
ghost use Rattle.mysql_field_lists.specs.ListLaws.{counted, counted_at-back};
ghost use Rattle.mysql_fields.specs.Wire.{Appends, GivesPart, IsSized, Reading, Suffices, Tells};

use bytes::BufMut;
use mysql_buf::{BufMutExt, ParseBuf};
use mysql_fields::{
    LeU16, LeU32, LeU64, LenEnc, MyDeserialize, MySerialize, ParseExt, Readable, ReadsBack,
    WireError,
};
use std::alloc::{AllocError, Global};
use std::borrow::CowSlice;
use std::marker::PhantomData;

/// A representation of how many elements there are.
pub trait SeqRepr {
    /// What has to be known before a count is read.
    type Ctx: Drop;

    /// The number of elements that count at most.
    const MAX_LEN: usize;

    ghost MAX_LEN: { ℕ };

    ghost written: { ℕ → List ℕ };

    ghost read_at: { Self.Ctx → List ℕ → Reading ℕ };

    // in this context the count is read back
    ghost IsReadBack: { Self.Ctx → ℕ → Type 0 };

    /// Appends a count.
    ///
    /// # Errors
    /// - `AllocError` for want of memory. The buffer is then as it was.
    fn serialize_count(count: usize, buf: &mut Vec<u8>) -> Result<(), AllocError>
        requires { count ≤ MAX_LEN }
        ensures { Appends result buf.old.items buf.new.items (written count) };

    /// Reads the count that stands first.
    ///
    /// # Errors
    /// - `UnexpectedEof` where it is cut off. All bytes are then left.
    fn deserialize_count(ctx: Self::Ctx, buf: &mut ParseBuf) -> Result<usize, WireError>
        ensures { Tells (λ n. n) buf.old.0.now buf.new.0.now result (read_at ctx buf.old.0.now) };

    ghost reads_back: { (ctx : Self.Ctx) (count : ℕ) (rest : List ℕ) → count ≤ MAX_LEN →
        IsReadBack ctx count → read_at ctx (written count ++ rest) ≡ Ok (count, rest) };
}

/// Elements alone: the context counts.
#[derive(Clone, Copy, Debug, PartialEq, Eq)]
pub struct Unknown;

impl SeqRepr for Unknown {
    type Ctx = usize;

    const MAX_LEN: usize = usize::MAX;

    ghost MAX_LEN = { 2 ^ 64 - 1 };

    ghost written = { λ _. [] };

    ghost read_at = { λ n bytes. Ok (n, bytes) };

    ghost IsReadBack = { λ n count. n ≡ count };

    ghost reads_back = { λ ctx count rest _ h. ap (λ (n : ℕ). Ok (n, rest)) h };

    fn serialize_count(_count: usize, _buf: &mut Vec<u8>) -> Result<(), AllocError> {
        Ok(())
    }

    fn deserialize_count(n: usize, _buf: &mut ParseBuf) -> Result<usize, WireError> {
        Ok(n)
    }
}

/// A count in one byte.
impl SeqRepr for u8 {
    type Ctx = ();

    const MAX_LEN: usize = u8::MAX as usize;

    ghost MAX_LEN = { 2 ^ 8 - 1 };

    ghost written = { little_bytes 1 };

    ghost read_at = { λ _ bytes. fixed_number_at 1 bytes };

    ghost IsReadBack = { λ _ count. count < 2 ^ 8 };

    ghost reads_back = { λ _ count rest _ h. fixed_number_at-back 1 count rest h };

    fn serialize_count(count: usize, buf: &mut Vec<u8>) -> Result<(), AllocError> {
        buf.put_u8(count as u8)
    }

    fn deserialize_count(_ctx: (), buf: &mut ParseBuf) -> Result<usize, WireError> {
        match buf.checked_eat_u8() {
            Some(count) => Ok(count as usize),
            None => Err(WireError::UnexpectedEof),
        }
    }
}

/// A count in two bytes.
impl SeqRepr for LeU16 {
    type Ctx = ();

    const MAX_LEN: usize = u16::MAX as usize;

    ghost MAX_LEN = { 2 ^ 16 - 1 };

    ghost written = { little_bytes 2 };

    ghost read_at = { λ _ bytes. fixed_number_at 2 bytes };

    ghost IsReadBack = { λ _ count. count < 2 ^ 16 };

    ghost reads_back = { λ _ count rest _ h. fixed_number_at-back 2 count rest h };

    fn serialize_count(count: usize, buf: &mut Vec<u8>) -> Result<(), AllocError> {
        buf.put_u16_le(count as u16)
    }

    fn deserialize_count(_ctx: (), buf: &mut ParseBuf) -> Result<usize, WireError> {
        match buf.checked_eat_u16_le() {
            Some(count) => Ok(count as usize),
            None => Err(WireError::UnexpectedEof),
        }
    }
}

/// A count in four bytes.
impl SeqRepr for LeU32 {
    type Ctx = ();

    const MAX_LEN: usize = u32::MAX as usize;

    ghost MAX_LEN = { 2 ^ 32 - 1 };

    ghost written = { little_bytes 4 };

    ghost read_at = { λ _ bytes. fixed_number_at 4 bytes };

    ghost IsReadBack = { λ _ count. count < 2 ^ 32 };

    ghost reads_back = { λ _ count rest _ h. fixed_number_at-back 4 count rest h };

    fn serialize_count(count: usize, buf: &mut Vec<u8>) -> Result<(), AllocError> {
        buf.put_u32_le(count as u32)
    }

    fn deserialize_count(_ctx: (), buf: &mut ParseBuf) -> Result<usize, WireError> {
        match buf.checked_eat_u32_le() {
            Some(count) => Ok(count as usize),
            None => Err(WireError::UnexpectedEof),
        }
    }
}

/// A count in eight bytes.
impl SeqRepr for LeU64 {
    type Ctx = ();

    const MAX_LEN: usize = usize::MAX;

    ghost MAX_LEN = { 2 ^ 64 - 1 };

    ghost written = { little_bytes 8 };

    ghost read_at = { λ _ bytes. fixed_number_at 8 bytes };

    ghost IsReadBack = { λ _ count. count < 2 ^ 64 };

    ghost reads_back = { λ _ count rest _ h. fixed_number_at-back 8 count rest h };

    fn serialize_count(count: usize, buf: &mut Vec<u8>) -> Result<(), AllocError> {
        buf.put_u64_le(count as u64)
    }

    fn deserialize_count(_ctx: (), buf: &mut ParseBuf) -> Result<usize, WireError> {
        match buf.checked_eat_u64_le() {
            Some(count) => Ok(count as usize),
            None => Err(WireError::UnexpectedEof),
        }
    }
}

/// A count as a length-encoded number.
impl SeqRepr for LenEnc {
    type Ctx = ();

    const MAX_LEN: usize = usize::MAX;

    ghost MAX_LEN = { 2 ^ 64 - 1 };

    ghost written = { lenenc_int };

    ghost read_at = { λ _ bytes. lenenc_number_at bytes };

    ghost IsReadBack = { λ _ count. count < 2 ^ 64 };

    ghost reads_back = { λ _ count rest _ h. lenenc_number_at-back count rest h };

    fn serialize_count(count: usize, buf: &mut Vec<u8>) -> Result<(), AllocError> {
        buf.put_lenenc_int(count as u64)
    }

    fn deserialize_count(_ctx: (), buf: &mut ParseBuf) -> Result<usize, WireError> {
        match buf.checked_eat_lenenc_int() {
            Some(count) => Ok(count as usize),
            None => Err(WireError::UnexpectedEof),
        }
    }
}

// Reads so many elements; the list grows as they come.
fn parse_elements<'de, T: MyDeserialize<'de> + Readable<Ctx = ()> + Drop>(
    alloc: Global,
    count: usize,
    rest: &mut ParseBuf<'de>,
) -> Result<Vec<T>, WireError>
    ensures { GivesPart (λ v. map T.shown v.items) rest.new.0.now result
        (elements_at (T.read_at tt) count rest.old.0.now) }
{
    let mut items = Vec::new(alloc);
    for _ in 0..count {
        let item: T = rest.parse(alloc, ())?;
        items.push(item)?;
    }
    Ok(items)
}

/// A list, counted in the representation `U`. At most as many elements as `U` counts are written.
#[derive(Drop)]
#[derive_where(Debug, PartialEq, Eq; T)]
pub struct Seq<'a, T, U>(pub CowSlice<'a, T>, PhantomData<U>);

impl<'a, T, U> Seq<'a, T, U> {
    /// A list that is to be written.
    pub fn new(all: CowSlice<'a, T>) -> Seq<'a, T, U>
        ensures { cow_slice_items result.0 ≡ cow_slice_items all.entry }
    {
        Seq(all, PhantomData)
    }

    /// The number of its elements.
    pub fn len(&self) -> usize
        ensures { result ≡ length (cow_slice_items self.now.0) }
    {
        self.0.len()
    }

    /// Whether it has no elements.
    pub fn is_empty(&self) -> bool
        ensures { result ≡ (length (cow_slice_items self.now.0) == 0) }
    {
        self.len() == 0
    }

    /// Its elements.
    pub fn as_slice(&self) -> &[T]
        ensures { result.now ≡ cow_slice_items self.now.0 }
    {
        self.0.as_slice()
    }
}

/// No elements.
impl<'a, T, U> Default for Seq<'a, T, U> {
    ghost is_default = { λ list. cow_slice_items list.0 ≡ [] };

    fn default() -> Seq<'a, T, U> {
        Seq(CowSlice::Borrowed(&[]), PhantomData)
    }
}

impl<T, U> Seq<'static, T, U> {
    /// A list without elements.
    pub fn empty() -> Seq<'static, T, U>
        ensures { cow_slice_items result.0 ≡ [] }
    {
        Seq(CowSlice::Borrowed(&[]), PhantomData)
    }
}

impl<'a, T: Clone, U> Seq<'a, T, U> {
    /// Appends an element; borrowed ones are cloned first.
    ///
    /// # Errors
    /// - `AllocError` for want of memory. The list is then as it was.
    pub fn push(&mut self, alloc: Global, element: T) -> Result<(), AllocError>
        ensures grown { IfOk result
            (λ _. IsGrown T.is_clone (cow_slice_items self.old.0) element
            (cow_slice_items self.new.0)) }
        ensures grown_if_clones_equal { IfOk result (λ _. ((x y : T) → T.is_clone x y → y ≡ x) →
            cow_slice_items self.new.0 ≡ cow_slice_items self.old.0 ++ element ∷ []) }
        ensures grown_if_owned { IfOk result (λ _. IsOwnedSlice self.old.0 →
            cow_slice_items self.new.0 ≡ cow_slice_items self.old.0 ++ element ∷ []) }
        ensures refused { IfErr result (λ _. cow_slice_items self.new.0 ≡ cow_slice_items self.old.0) }
    {
        match &mut self.0 {
            CowSlice::Owned(all) => all.push(element)?,
            CowSlice::Borrowed(all) => {
                let mut owned = Vec::from_clones(alloc, all)?;
                owned.push(element)?;
                self.0 = CowSlice::Owned(owned);
            }
        }
        Ok(())
    }
}

impl<'a, T: Clone, U> Seq<'a, T, U> {
    /// The list in a `Vec` of its own; borrowed elements are cloned.
    ///
    /// # Errors
    /// - `AllocError` for want of memory.
    pub fn into_owned<'b>(self, alloc: Global) -> Result<Seq<'b, T, U>, AllocError>
        ensures same { IfOk result
            (λ owned. IsCopied T.is_clone (cow_slice_items self.entry.0) (cow_slice_items owned.0)) }
        ensures same_if_clones_equal { IfOk result (λ owned. ((x y : T) → T.is_clone x y → y ≡ x) →
            cow_slice_items owned.0 ≡ cow_slice_items self.entry.0) }
        ensures same_if_owned { IfOk result (λ owned. IsOwnedSlice self.entry.0 →
            cow_slice_items owned.0 ≡ cow_slice_items self.entry.0) }
        ensures owned { IfOk result (λ owned. IsOwnedSlice owned.0) }
    {
        let all = match self.0 {
            CowSlice::Borrowed(all) => Vec::from_clones(alloc, all)?,
            CowSlice::Owned(all) => all,
        };
        Ok(Seq(CowSlice::Owned(all), PhantomData))
    }

    /// A copy of the list, which owns clones of the elements.
    ///
    /// # Errors
    /// - `AllocError` for want of memory.
    pub fn clone<'b>(&self, alloc: Global) -> Result<Seq<'b, T, U>, AllocError>
        ensures same { IfOk result (λ copy. AllZip T.is_clone (cow_slice_items self.now.0) (cow_slice_items copy.0)) }
        ensures same_if_clones_equal { IfOk result (λ copy. ((x y : T) → T.is_clone x y → y ≡ x) →
            cow_slice_items copy.0 ≡ cow_slice_items self.now.0) }
        ensures owned { IfOk result (λ copy. IsOwnedSlice copy.0) }
    {
        let all = Vec::from_clones(alloc, self.0.as_slice())?;
        Ok(Seq(CowSlice::Owned(all), PhantomData))
    }
}

// Appends all elements or none.
fn put_elements<T: MySerialize>(all: &[T], buf: &mut Vec<u8>) -> Result<(), AllocError>
    ensures { Appends result buf.old.items buf.new.items (flat_map T.written all.now) }
{
    let len = buf.len();
    for item in all {
        if let Err(e) = item.serialize(buf) {
            buf.truncate(len);
            return Err(e);
        }
    }
    Ok(())
}

impl<'a, T: MySerialize, U: SeqRepr> MySerialize for Seq<'a, T, U> {
    ghost written = { λ x. let all = take U.MAX_LEN (cow_slice_items x.0) in
        U.written (length all) ++ flat_map T.written all };

    fn serialize(&self, buf: &mut Vec<u8>) -> Result<(), AllocError> {
        let all = self.0.as_slice();
        let most = U::MAX_LEN;
        let all = if all.len() < most { all } else { &all[..most] };
        let len = buf.len();
        U::serialize_count(all.len(), buf)?;
        let answer = put_elements(all, buf);
        if answer.is_err() {
            buf.truncate(len);
        }
        answer
    }
}

impl<'a, T: Readable<Ctx = ()>, U: SeqRepr> Readable for Seq<'a, T, U> {
    type Ctx = U::Ctx;

    ghost AsksForMemory = { true };

    ghost Shown = { List T.Shown };

    ghost shown = { λ x. map T.shown (cow_slice_items x.0) };

    ghost read_at = { λ ctx. counted_at (U.read_at ctx) (T.read_at tt) };

    ghost kept = { λ x. map T.kept (take U.MAX_LEN (cow_slice_items x.0)) };

    ghost IsReadBack = { λ ctx x _. U.IsReadBack ctx
        (length (take U.MAX_LEN (cow_slice_items x.0))) ×
        AllByRecursion (λ y. (rest : List ℕ) → T.IsReadBack tt y rest)
        (take U.MAX_LEN (cow_slice_items x.0)) };

    ghost sized = { λ ctx. unsized (counted_at (U.read_at ctx) (T.read_at tt)) };

    fn size() -> Option<usize>
        ensures { result ≡ None }
    {
        None
    }
}

impl<'a, T: ReadsBack + Readable<Ctx = ()>, U: SeqRepr> ReadsBack for Seq<'a, T, U> {
    ghost reads_back = { λ ctx x rest h. counted_at-back (T.IsReadBack tt) T.written (T.read_at tt)
        T.kept (T.reads_back tt) U.written (U.read_at ctx) U.MAX_LEN (cow_slice_items x.0) rest
        (λ n after small is. U.reads_back ctx n after small (counted (U.IsReadBack ctx) is h.0)) h.1 };
}

#[tactic(auto, unfolding(crate::specs::Lists::counted_at))]
impl<'de, T: MyDeserialize<'de> + Readable<Ctx = ()> + Drop, U: SeqRepr> MyDeserialize<'de>
    for Seq<'de, T, U> {
    fn deserialize(
        alloc: Global,
        ctx: U::Ctx,
        buf: &mut ParseBuf<'de>,
    ) -> Result<Seq<'de, T, U>, WireError> {
        let mut rest = *buf;
        let count = U::deserialize_count(ctx, &mut rest)?;
        let all = parse_elements(alloc, count, &mut rest)?;
        *buf = rest;
        Ok(Seq(CowSlice::Owned(all), PhantomData))
    }
}
