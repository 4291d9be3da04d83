//! Lists of whole numbers, behind their count or without one.
//!
//!     let ids: RawSeq<LeU32, u8> = buf.parse(alloc, ())?;
//!     let first = ids.get(0);
//!     let numbers: RawSeq<LeU16, Unknown> = buf.parse(alloc, count)?;

ghost use Rattle.std.specs.Prelude.{◌≡◌, ◌==◌, List, None, Ok, Option, [], ◌++◌, IfOk, length, take, ℕ, true};
ghost use Rattle.std.specs.Cow.{IsOwnedSlice, cow_slice_items};
ghost use Rattle.std.specs.List.{AllByRecursion, flat_map, slice_get};
ghost use Rattle.mysql_fields.specs.Laws.{unsized};
ghost use Rattle.mysql_field_lists.specs.Lists.{counted_at, elements_at};
ghost use Rattle.mysql_field_lists.specs.ListLaws.{counted, counted_numbers_at-back};
ghost use Rattle.mysql_fields.specs.Wire.{Appends, GivesPart};

use crate::lists::SeqRepr;
use mysql_buf::ParseBuf;
use mysql_fields::{
    IntRepr, MyDeserialize, MySerialize, ParseExt, RawInt, Readable, ReadsBack, WireError,
};
use std::alloc::{AllocError, Global};
use std::borrow::CowSlice;
use std::marker::PhantomData;

/// A list of numbers in the representation `T`, counted in the representation `U`. At most as many
/// numbers as `U` counts are written.
/// (MySQL: Client/Server Protocol, "Protocol Basics: Integer Types".)
#[derive(Drop)]
#[derive_where(Debug, PartialEq, Eq; T::Primitive)]
pub struct RawSeq<'a, T: IntRepr, U>(pub CowSlice<'a, T::Primitive>, PhantomData<U>);

impl<'a, T: IntRepr, U> RawSeq<'a, T, U> {
    /// A list that is to be written.
    pub fn new(all: CowSlice<'a, T::Primitive>) -> RawSeq<'a, T, U>
        ensures { cow_slice_items result.0 ≡ cow_slice_items all.entry }
    {
        RawSeq(all, PhantomData)
    }

    /// The number of its elements.
    pub fn len(&self) -> usize
        ensures { result ≡ length (cow_slice_items self.now.0) }
    {
        self.0.len()
    }

    /// Whether it has no elements.
    pub fn is_empty(&self) -> bool
        ensures { result ≡ (length (cow_slice_items self.now.0) == 0) }
    {
        self.len() == 0
    }

    /// The number at this place, counted from 0, where there is one.
    pub fn get(&self, index: usize) -> Option<T::Primitive>
        ensures { result ≡ slice_get (cow_slice_items self.now.0) index }
    {
        self.0.as_slice().get(index).copied()
    }

    /// The list in a `Vec` of its own.
    ///
    /// # Errors
    /// - `AllocError` for want of memory.
    pub fn into_owned<'b>(self, alloc: Global) -> Result<RawSeq<'b, T, U>, AllocError>
        ensures same { IfOk result (λ owned. cow_slice_items owned.0 ≡ cow_slice_items self.entry.0) }
        ensures owned { IfOk result (λ owned. IsOwnedSlice owned.0) }
    {
        let all = match self.0 {
            CowSlice::Borrowed(all) => Vec::from_slice(alloc, all)?,
            CowSlice::Owned(all) => all,
        };
        Ok(RawSeq(CowSlice::Owned(all), PhantomData))
    }

    /// A copy of the list, which owns its numbers.
    ///
    /// # Errors
    /// - `AllocError` for want of memory.
    pub fn clone<'b>(&self, alloc: Global) -> Result<RawSeq<'b, T, U>, AllocError>
        ensures same { IfOk result (λ copy. cow_slice_items copy.0 ≡ cow_slice_items self.now.0) }
        ensures owned { IfOk result (λ copy. IsOwnedSlice copy.0) }
    {
        let all = Vec::from_slice(alloc, self.0.as_slice())?;
        Ok(RawSeq(CowSlice::Owned(all), PhantomData))
    }
}

// Appends all numbers or none.
fn put_numbers<T: IntRepr>(all: &[T::Primitive], buf: &mut Vec<u8>) -> Result<(), AllocError>
    ensures { Appends result buf.old.items buf.new.items (flat_map T.form.written all.now) }
{
    let len = buf.len();
    for number in all {
        if let Err(e) = T::serialize(*number, buf) {
            buf.truncate(len);
            return Err(e);
        }
    }
    Ok(())
}

// Reads so many numbers; the list grows as they come.
fn parse_numbers<T: IntRepr>(
    alloc: Global,
    count: usize,
    rest: &mut ParseBuf,
) -> Result<Vec<T::Primitive>, WireError>
    ensures { GivesPart (λ v. v.items) rest.new.0.now result (elements_at T.form.read_at count rest.old.0.now) }
{
    let mut items = Vec::new(alloc);
    for _ in 0..count {
        let item: RawInt<T> = rest.parse(alloc, ())?;
        items.push(item.0)?;
    }
    Ok(items)
}

impl<'a, T: IntRepr, U: SeqRepr> MySerialize for RawSeq<'a, T, U> {
    ghost written = { λ x. let all = take U.MAX_LEN (cow_slice_items x.0) in
        U.written (length all) ++ flat_map T.form.written all };

    fn serialize(&self, buf: &mut Vec<u8>) -> Result<(), AllocError> {
        let all = self.0.as_slice();
        let most = U::MAX_LEN;
        let all = if all.len() < most { all } else { &all[..most] };
        let len = buf.len();
        U::serialize_count(all.len(), buf)?;
        let answer = put_numbers::<T>(all, buf);
        if answer.is_err() {
            buf.truncate(len);
        }
        answer
    }
}

impl<'a, T: IntRepr, U: SeqRepr> Readable for RawSeq<'a, T, U> {
    type Ctx = U::Ctx;

    ghost AsksForMemory = { true };

    ghost Shown = { List T.Primitive };

    ghost shown = { λ x. cow_slice_items x.0 };

    ghost read_at = { λ ctx. counted_at (U.read_at ctx) T.form.read_at };

    ghost kept = { λ x. take U.MAX_LEN (cow_slice_items x.0) };

    ghost IsReadBack = { λ ctx x _. U.IsReadBack ctx
        (length (take U.MAX_LEN (cow_slice_items x.0))) ×
        AllByRecursion T.form.IsKept (take U.MAX_LEN (cow_slice_items x.0)) };

    ghost sized = { λ ctx. unsized (counted_at (U.read_at ctx) T.form.read_at) };

    fn size() -> Option<usize>
        ensures { result ≡ None }
    {
        None
    }
}

impl<'a, T: IntRepr, U: SeqRepr> ReadsBack for RawSeq<'a, T, U> {
    ghost reads_back = { λ ctx x rest h. counted_numbers_at-back T.form.IsKept T.form.written T.form.read_at
        T.form.reads_back U.written (U.read_at ctx) U.MAX_LEN (cow_slice_items x.0) rest
        (λ n after small is. U.reads_back ctx n after small (counted (U.IsReadBack ctx) is h.0)) h.1 };
}

#[tactic(auto, unfolding(crate::specs::Lists::counted_at))]
impl<'de, T: IntRepr, U: SeqRepr> MyDeserialize<'de> for RawSeq<'de, T, U> {
    fn deserialize(
        alloc: Global,
        ctx: U::Ctx,
        buf: &mut ParseBuf<'de>,
    ) -> Result<RawSeq<'de, T, U>, WireError> {
        let mut rest = *buf;
        let count = U::deserialize_count(ctx, &mut rest)?;
        let all = parse_numbers::<T>(alloc, count, &mut rest)?;
        *buf = rest;
        Ok(RawSeq(CowSlice::Owned(all), PhantomData))
    }
}
