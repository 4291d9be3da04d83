//! Which columns or parameters are NULL: a bitmap with a bit for each.
//!
//!     let mut bitmap = NullBitmap::<ClientSide>::new(alloc, 3)?;
//!     bitmap.set(2, true);
//!     let is_null = bitmap.is_null(2);

ghost use Rattle.std.specs.Prelude.{◌≡◌, ◌≤◌, ◌<◌, ◌+◌, ◌/◌, ◌-◌, ◌==◌, ℕ, List, IfOk, None, OnErr, OnOk, length};
ghost use Rattle.std.specs.Prelude.{slice_set, take, drop, replicate, if◌then◌else◌};
ghost use Rattle.std.specs.Cow.{cow_slice_items};
ghost use Rattle.std.specs.Int.{bit_at};
ghost use Rattle.mysql_fields.specs.Forms.{bytes_at};
ghost use Rattle.mysql_fields.specs.Laws.{unsized};
ghost use Rattle.mysql_field_lists.specs.NullBitmap.{bitmap_len as len_of, is_null_at, nulls_of, SetsBit};
ghost use Rattle.mysql_field_lists.specs.NullBits.{bits_left};

use crate::null_bits::NullBits;
use crate::side::SerializationSide;
use mysql_buf::ParseBuf;
use mysql_fields::{MyDeserialize, Readable, WireError};
use std::alloc::{AllocError, Global};
use std::borrow::CowSlice;
use std::convert::AsSlice;
use std::marker::PhantomData;

/// The bytes of a bitmap whose bits can be set.
pub trait BitmapBytes: AsSlice<u8> {
    /// Writes one byte.
    fn set_byte(&mut self, index: usize, byte: u8)
        requires { index < length (Self.items self.old) }
        ensures { Self.items self.new ≡ slice_set (Self.items self.old) index byte };
}

impl BitmapBytes for Vec<u8> {
    fn set_byte(&mut self, index: usize, byte: u8) {
        self[index] = byte;
    }
}

impl BitmapBytes for &mut [u8] {
    fn set_byte(&mut self, index: usize, byte: u8) {
        self[index] = byte;
    }
}

/// Which columns are NULL: a bit for each, in the bytes `U`, as the side `T` writes them. Columns
/// count from 0; their byte has to stand in the bitmap, and there are at most `usize::MAX - 9`.
///
/// Promise: `is_null` answers a column's bit, and `set` changes that bit alone. `read` takes
/// exactly the bitmap's bytes, and `iter` gives the columns in order (`SetsBit`, `nulls_of`).
///
/// MySQL: Client/Server Protocol, "Null-Bitmap".
#[derive(Drop)]
#[derive_where(Debug, Clone, PartialEq, Eq; U)]
pub struct NullBitmap<T: SerializationSide, U = Vec<u8>>(pub U, PhantomData<T>);

impl<T: SerializationSide> NullBitmap<T, Vec<u8>> {
    /// A bitmap of so many columns, none of them NULL.
    ///
    /// # Errors
    /// - `AllocError` for want of memory.
    pub fn new(alloc: Global, columns: usize) -> Result<NullBitmap<T, Vec<u8>>, AllocError>
        ensures { IfOk result (λ bitmap. bitmap.0.items ≡ replicate (len_of T.BIT_OFFSET columns) 0) }
    {
        let len = NullBitmap::<T, Vec<u8>>::bitmap_len(columns);
        let mut bytes = Vec::new(alloc);
        bytes.resize(len, 0)?;
        Ok(NullBitmap(bytes, PhantomData))
    }

    /// A copy.
    ///
    /// # Errors
    /// - `AllocError` for want of memory.
    pub fn clone(&self, alloc: Global) -> Result<NullBitmap<T, Vec<u8>>, AllocError>
        ensures { IfOk result (λ copy. copy.0.items ≡ self.now.0.items) }
    {
        Ok(NullBitmap(Vec::from_slice(alloc, &self.0)?, PhantomData))
    }

    /// Takes the bitmap of so many columns from the front of `input`, where its bytes have to
    /// stand.
    ///
    /// # Errors
    /// - `AllocError` for want of memory. `input` is then as it was.
    pub fn read(
        alloc: Global,
        input: &mut &[u8],
        columns: usize,
    ) -> Result<NullBitmap<T, Vec<u8>>, AllocError>
        requires { len_of T.BIT_OFFSET columns ≤ length input.old.now }
        ensures taken { IfOk result (λ bitmap. bitmap.0.items ≡ take (len_of T.BIT_OFFSET columns) input.old.now) }
        ensures left { OnOk result (input.new.now ≡ drop (len_of T.BIT_OFFSET columns) input.old.now) }
        ensures kept { OnErr result (input.new.now ≡ input.old.now) }
    {
        let len = NullBitmap::<T, Vec<u8>>::bitmap_len(columns);
        let bytes = Vec::from_slice(alloc, &input[..len])?;
        *input = &input[len..];
        Ok(NullBitmap(bytes, PhantomData))
    }
}

impl<T: SerializationSide, U: AsSlice<u8>> NullBitmap<T, U> {
    /// How many bytes the bits of so many columns fill.
    pub fn bitmap_len(columns: usize) -> usize
        ensures { result ≡ len_of T.BIT_OFFSET columns }
    {
        columns / 8 + (columns % 8 + 7 + T::BIT_OFFSET) / 8
    }

    /// The bitmap that these bytes are.
    pub fn from_bytes(bytes: U) -> NullBitmap<T, U>
        ensures { result.0 ≡ bytes }
    {
        NullBitmap(bytes, PhantomData)
    }

    /// The bytes of the bitmap.
    pub fn as_slice(&self) -> &[u8]
        ensures { result.now ≡ U.items self.now.0 }
    {
        self.0.as_slice()
    }

    /// Whether a column is NULL.
    pub fn is_null(&self, column: usize) -> bool
        requires few { column ≤ usize.MAX - 9 }
        requires inside { (T.BIT_OFFSET + column) / 8 < length (U.items self.now.0) }
        ensures { result ≡ is_null_at T.BIT_OFFSET (U.items self.now.0) column }
    {
        let bit = T::BIT_OFFSET + column;
        (self.0.as_slice()[bit / 8] >> (bit % 8)) % 2 == 1
    }

    /// Whether each of the first `columns` columns is NULL, in order.
    pub fn iter(&self, columns: usize) -> NullBits<'_>
        requires few { columns ≤ usize.MAX - 9 }
        requires inside { len_of T.BIT_OFFSET columns ≤ length (U.items self.now.0) }
        ensures { bits_left result ≡ nulls_of T.BIT_OFFSET (U.items self.now.0) columns }
    {
        NullBits::new(self.0.as_slice(), T::BIT_OFFSET, columns)
    }
}

impl<T: SerializationSide, U: BitmapBytes> NullBitmap<T, U> {
    /// Says whether a column is NULL. All other bits stay.
    #[tactic(auto, using(crate::proofs::Setting::sets_bit))]
    pub fn set(&mut self, column: usize, is_null: bool)
        requires few { column ≤ usize.MAX - 9 }
        requires inside { (T.BIT_OFFSET + column) / 8 < length (U.items self.old.0) }
        ensures { SetsBit (U.items self.old.0) (U.items self.new.0) (T.BIT_OFFSET + column) is_null }
    {
        let bit = T::BIT_OFFSET + column;
        let byte = self.0.as_slice()[bit / 8];
        self.0.set_byte(bit / 8, with_bit(byte, bit % 8, is_null));
    }
}

impl<'a, T: SerializationSide> Readable for NullBitmap<T, CowSlice<'a, u8>> {
    // how many columns there are
    type Ctx = usize;

    ghost Shown = { List ℕ };

    ghost shown = { λ bitmap. cow_slice_items bitmap.0 };

    ghost kept = { λ bitmap. cow_slice_items bitmap.0 };

    ghost read_at = { λ columns bytes. bytes_at (len_of T.BIT_OFFSET columns) bytes };

    ghost sized = { λ columns. unsized (bytes_at (len_of T.BIT_OFFSET columns)) };

    fn size() -> Option<usize>
        ensures { result ≡ None }
    {
        None
    }
}

/// Reads the bitmap of so many columns, which borrows its bytes. Refuses UnexpectedEof where they
/// aren't there; all bytes are then left.
///
/// MySQL: Client/Server Protocol, "Null-Bitmap".
impl<'de, T: SerializationSide> MyDeserialize<'de> for NullBitmap<T, CowSlice<'de, u8>> {
    fn deserialize(
        _alloc: Global,
        columns: usize,
        buf: &mut ParseBuf<'de>,
    ) -> Result<NullBitmap<T, CowSlice<'de, u8>>, WireError> {
        let len = NullBitmap::<T, CowSlice<'de, u8>>::bitmap_len(columns);
        match buf.checked_eat(len) {
            Some(bytes) => Ok(NullBitmap(CowSlice::Borrowed(bytes), PhantomData)),
            None => Err(WireError::UnexpectedEof),
        }
    }
}

/// The byte with one bit set or cleared.
fn with_bit(byte: u8, bit: usize, value: bool) -> u8
    requires { bit < 8 }
    ensures { (other : ℕ) → other < 8 → bit_at result other ≡
        (if other == bit then (if value then 1 else 0) else bit_at byte other) }
{
    if value {
        byte | 1 << bit
    } else {
        byte & !(1 << bit)
    }
}
