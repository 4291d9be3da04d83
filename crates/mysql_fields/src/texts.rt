//! Texts as fields: behind their length, up to a zero, to the end, or of a length that is known.
//!
//!     let name: RawBytes<LenEnc> = buf.parse(alloc, ())?;
//!     let shown = name.as_str(alloc)?;
//!     let host: RawBytes<BareU8Bytes> = buf.parse(alloc, count)?;
//!     RawBytes::<NullBytes>::from(bytes).serialize(&mut out)?;

ghost use Rattle.std.specs.Prelude.{◌≡◌, ◌==◌, ◌-◌, ◌<◌, ◌^◌, IfErr, IfOk, List, None, Ok, Option, Some, [], ◌++◌};
ghost use Rattle.std.specs.Prelude.{length, ℕ, ⊤};
ghost use Rattle.std.specs.Cow.{cow_slice_items, cow_str_bytes};
ghost use Rattle.std.specs.List.{before_first};
ghost use Rattle.mysql_buf.specs.Reading.{is_zero};
ghost use Rattle.mysql_buf.specs.Writing.{front, lenenc_str, u8_str, u32_str};
ghost use Rattle.mysql_fields.specs.Laws.{unsized};
ghost use Rattle.mysql_fields.specs.TextLaws.{all-back, bare_at-back, fixed_text_at-back, fixed_text_at-sized};
ghost use Rattle.mysql_fields.specs.TextLaws.{lenenc_text_at-back, null_text_at-back, u32_text_at-back};
ghost use Rattle.mysql_fields.specs.TextLaws.{u8_text_at-back, varlen_text_at-back};
ghost use Rattle.mysql_fields.specs.Texts.{bare_at, fixed_text, fixed_text_at, lenenc_text_at, lossy_text};
ghost use Rattle.mysql_fields.specs.Texts.{null_text, null_text_at};
ghost use Rattle.mysql_fields.specs.Texts.{u32_text_at, u8_text_at, varlen_text, varlen_text_at};
ghost use Rattle.mysql_fields.specs.declared.error.WireError.TheVariants.{Memory};
ghost use Rattle.mysql_fields.specs.Wire.{Appends, IsSized, Reading, Suffices, Tells};

use crate::copies::{copy_bytes, lossy_text, own_bytes};
use crate::{LenEnc, MyDeserialize, MySerialize, Readable, ReadsBack, VarLen, WireError};
use mysql_buf::{BufMutExt, ParseBuf, front_of, read_varlen_uint, write_varlen_uint};
use std::alloc::{AllocError, Global};
use std::borrow::{CowSlice, CowStr};
use std::marker::PhantomData;

/// A representation of texts.
/// (MySQL: Client/Server Protocol, "Protocol Basics: String Types".)
///
/// Promise: a text is written as its bytes, and read as exactly what stands there (`Tells`).
pub trait BytesRepr {
    /// What has to be known before a text is read.
    type Ctx: Drop;

    /// The number of bytes of a text that count at most.
    const MAX_LEN: usize;

    ghost MAX_LEN: { ℕ };

    /// The number of bytes that are needed and eaten, where it is the same for all texts.
    const SIZE: Option<usize>;

    ghost SIZE: { Option ℕ };

    // the bytes that are written of a text
    ghost written: { List ℕ → List ℕ };

    // what is read of them
    ghost kept: { List ℕ → List ℕ };

    // in this context, with these bytes following, what was written of the text is read back
    ghost IsReadBack: { Self.Ctx → List ℕ → List ℕ → Type 0 };

    // what reading answers, of every list of bytes
    ghost read_at: { Self.Ctx → List ℕ → Reading (List ℕ) };

    /// Appends a text.
    ///
    /// # Errors
    /// - `AllocError` for want of memory. The buffer is then as it was.
    fn serialize(text: &[u8], buf: &mut Vec<u8>) -> Result<(), AllocError>
        ensures { Appends result buf.old.items buf.new.items (written text.now) };

    /// Reads the text that stands first.
    ///
    /// # Errors
    /// - `UnexpectedEof` where it is cut off.
    /// - Those that the representation names.
    ///
    /// All bytes are left after an error.
    fn deserialize<'de>(
        ctx: Self::Ctx,
        buf: &mut ParseBuf<'de>,
    ) -> Result<CowSlice<'de, u8>, WireError>
        requires { Suffices SIZE (length buf.old.0.now) }
        ensures { Tells cow_slice_items buf.old.0.now buf.new.0.now result (read_at ctx buf.old.0.now) };

    // where there is a size, that many bytes are needed and eaten
    ghost sized: { (ctx : Self.Ctx) → IsSized SIZE (read_at ctx) };

    ghost reads_back: { (ctx : Self.Ctx) (text rest : List ℕ) → IsReadBack ctx text rest →
        read_at ctx (written text ++ rest) ≡ Ok (kept text, rest) };
}

/// A text in the representation `T`.
#[derive(Drop)]
pub struct RawBytes<'a, T: BytesRepr>(pub CowSlice<'a, u8>, PhantomData<T>);

impl<'a, T: BytesRepr> RawBytes<'a, T> {
    /// A text that is to be written.
    pub fn new(text: CowSlice<'a, u8>) -> RawBytes<'a, T>
        ensures { cow_slice_items result.0 ≡ cow_slice_items text.entry }
    {
        RawBytes(text, PhantomData)
    }

    /// The bytes that count: at most the representation's maximum.
    pub fn as_bytes(&self) -> &[u8]
        ensures { result.now ≡ front (cow_slice_items self.now.0) T.MAX_LEN }
    {
        front_of(self.0.as_slice(), T::MAX_LEN)
    }

    /// How many bytes count.
    pub fn len(&self) -> usize
        ensures { result ≡ length (front (cow_slice_items self.now.0) T.MAX_LEN) }
    {
        self.as_bytes().len()
    }

    /// Whether no byte counts.
    pub fn is_empty(&self) -> bool
        ensures { result ≡ (length (front (cow_slice_items self.now.0) T.MAX_LEN) == 0) }
    {
        self.len() == 0
    }

    /// The bytes that count as text, where bytes that aren't UTF-8 are replaced.
    ///
    /// # Errors
    /// - `Memory`.
    pub fn as_str(&self, alloc: Global) -> Result<CowStr<'_>, WireError>
        ensures memory { IfErr result (λ e. e ≡ Memory) }
        ensures text { IfOk result (λ text. cow_str_bytes text ≡
            lossy_text (front (cow_slice_items self.now.0) T.MAX_LEN)) }
    {
        lossy_text(alloc, self.as_bytes())
    }

    /// The text in bytes of its own.
    ///
    /// # Errors
    /// - `AllocError` for want of memory.
    pub fn into_owned(self, alloc: Global) -> Result<RawBytes<'static, T>, AllocError>
        ensures { IfOk result (λ owned. cow_slice_items owned.0 ≡ cow_slice_items self.entry.0) }
    {
        Ok(RawBytes(own_bytes(alloc, self.0)?, PhantomData))
    }

    /// A copy of the text, which borrows nothing.
    ///
    /// # Errors
    /// - `AllocError` for want of memory.
    pub fn clone(&self, alloc: Global) -> Result<RawBytes<'static, T>, AllocError>
        ensures { IfOk result (λ copy. cow_slice_items copy.0 ≡ cow_slice_items self.now.0) }
    {
        Ok(RawBytes(copy_bytes(alloc, self.0.as_slice())?, PhantomData))
    }
}

/// An empty text.
impl<'a, T: BytesRepr> Default for RawBytes<'a, T> {
    ghost is_default = { λ x. cow_slice_items x.0 ≡ [] };

    fn default() -> RawBytes<'a, T> {
        RawBytes(CowSlice::Borrowed(&[]), PhantomData)
    }
}

/// A borrowed text.
impl<'a, T: BytesRepr> From<&'a [u8]> for RawBytes<'a, T> {
    ghost from_gives = { λ text x. cow_slice_items x.0 ≡ text.now };

    fn from(text: &'a [u8]) -> RawBytes<'a, T> {
        RawBytes::new(CowSlice::Borrowed(text))
    }
}

/// A text that is handed over.
impl<T: BytesRepr> From<Vec<u8>> for RawBytes<'static, T> {
    ghost from_gives = { λ text x. cow_slice_items x.0 ≡ text.items };

    fn from(text: Vec<u8>) -> RawBytes<'static, T> {
        RawBytes::new(CowSlice::Owned(text))
    }
}

impl<'a, T: BytesRepr> MySerialize for RawBytes<'a, T> {
    ghost written = { λ x. T.written (cow_slice_items x.0) };

    fn serialize(&self, buf: &mut Vec<u8>) -> Result<(), AllocError> {
        T::serialize(self.0.as_slice(), buf)
    }
}

impl<'a, T: BytesRepr> Readable for RawBytes<'a, T> {
    fn size() -> Option<usize>
        ensures { result ≡ T.SIZE }
    {
        T::SIZE
    }

    type Ctx = T::Ctx;

    ghost SIZE = { T.SIZE };

    ghost Shown = { List ℕ };

    ghost shown = { λ x. cow_slice_items x.0 };

    ghost read_at = { T.read_at };

    ghost kept = { λ x. T.kept (cow_slice_items x.0) };

    ghost IsReadBack = { λ ctx x rest. T.IsReadBack ctx (cow_slice_items x.0) rest };

    ghost sized = { T.sized };
}

impl<'a, T: BytesRepr> ReadsBack for RawBytes<'a, T> {
    ghost reads_back = { λ ctx x rest. T.reads_back ctx (cow_slice_items x.0) rest };
}

impl<'de, T: BytesRepr> MyDeserialize<'de> for RawBytes<'de, T> {
    fn deserialize(
        _alloc: Global,
        ctx: T::Ctx,
        buf: &mut ParseBuf<'de>,
    ) -> Result<RawBytes<'de, T>, WireError> {
        let text = T::deserialize(ctx, buf)?;
        Ok(RawBytes(text, PhantomData))
    }
}

/// A text after its length as a length-encoded number.
/// (MySQL: Client/Server Protocol, "Protocol::LengthEncodedString".)
impl BytesRepr for LenEnc {
    type Ctx = ();

    const MAX_LEN: usize = usize::MAX;

    ghost MAX_LEN = { 2 ^ 64 - 1 };

    const SIZE: Option<usize> = None;

    ghost SIZE = { None };

    ghost written = { lenenc_str };

    ghost kept = { λ text. text };

    ghost IsReadBack = { λ _ text _. length text < 2 ^ 64 };

    ghost read_at = { λ _ bytes. lenenc_text_at bytes };

    ghost sized = { λ _. unsized lenenc_text_at };

    ghost reads_back = { λ _. lenenc_text_at-back };

    fn serialize(text: &[u8], buf: &mut Vec<u8>) -> Result<(), AllocError> {
        buf.put_lenenc_str(text)
    }

    fn deserialize<'de>(_ctx: (), buf: &mut ParseBuf<'de>) -> Result<CowSlice<'de, u8>, WireError> {
        match buf.checked_eat_lenenc_str() {
            Some(text) => Ok(CowSlice::Borrowed(text)),
            None => Err(WireError::UnexpectedEof),
        }
    }
}

/// A text's first 2^32 - 1 bytes after their length as a number of variable length.
impl BytesRepr for VarLen {
    type Ctx = ();

    const MAX_LEN: usize = u32::MAX as usize;

    ghost MAX_LEN = { 2 ^ 32 - 1 };

    const SIZE: Option<usize> = None;

    ghost SIZE = { None };

    ghost written = { varlen_text };

    ghost kept = { λ text. front text (2 ^ 32 - 1) };

    ghost IsReadBack = { λ _ _ _. ⊤ };

    ghost read_at = { λ _ bytes. varlen_text_at bytes };

    ghost sized = { λ _. unsized varlen_text_at };

    ghost reads_back = { λ _ text rest _. varlen_text_at-back text rest };

    fn serialize(text: &[u8], buf: &mut Vec<u8>) -> Result<(), AllocError> {
        put_varlen_text(text, buf)
    }

    fn deserialize<'de>(_ctx: (), buf: &mut ParseBuf<'de>) -> Result<CowSlice<'de, u8>, WireError> {
        let mut rest = *buf;
        let Some(count) = read_varlen_uint(&mut rest) else {
            return Err(WireError::UnexpectedEof);
        };
        match rest.checked_eat(count as usize) {
            Some(text) => {
                *buf = rest;
                Ok(CowSlice::Borrowed(text))
            }
            None => Err(WireError::UnexpectedEof),
        }
    }
}

// A text after its length as a number of variable length.
fn put_varlen_text(text: &[u8], buf: &mut Vec<u8>) -> Result<(), AllocError>
    ensures { Appends result buf.old.items buf.new.items (varlen_text text.now) }
{
    let text = front_of(text, u32::MAX as usize);
    let len = buf.len();
    write_varlen_uint(buf, text.len() as u64)?;
    let answer = buf.extend_from_slice(text);
    if answer.is_err() {
        buf.truncate(len);
    }
    answer
}

/// A text's first 255 bytes after their number in one byte.
#[derive(Clone, Copy, Debug, PartialEq, Eq)]
pub struct U8Bytes;

impl BytesRepr for U8Bytes {
    type Ctx = ();

    const MAX_LEN: usize = 255;

    ghost MAX_LEN = { 255 };

    const SIZE: Option<usize> = None;

    ghost SIZE = { None };

    ghost written = { u8_str };

    ghost kept = { λ text. front text 255 };

    ghost IsReadBack = { λ _ _ _. ⊤ };

    ghost read_at = { λ _ bytes. u8_text_at bytes };

    ghost sized = { λ _. unsized u8_text_at };

    ghost reads_back = { λ _ text rest _. u8_text_at-back text rest };

    fn serialize(text: &[u8], buf: &mut Vec<u8>) -> Result<(), AllocError> {
        buf.put_u8_str(text)
    }

    fn deserialize<'de>(_ctx: (), buf: &mut ParseBuf<'de>) -> Result<CowSlice<'de, u8>, WireError> {
        match buf.checked_eat_u8_str() {
            Some(text) => Ok(CowSlice::Borrowed(text)),
            None => Err(WireError::UnexpectedEof),
        }
    }
}

/// A text's first 2^32 - 1 bytes after their number in four bytes, lowest first.
#[derive(Clone, Copy, Debug, PartialEq, Eq)]
pub struct U32Bytes;

impl BytesRepr for U32Bytes {
    type Ctx = ();

    const MAX_LEN: usize = u32::MAX as usize;

    ghost MAX_LEN = { 2 ^ 32 - 1 };

    const SIZE: Option<usize> = None;

    ghost SIZE = { None };

    ghost written = { u32_str };

    ghost kept = { λ text. front text (2 ^ 32 - 1) };

    ghost IsReadBack = { λ _ _ _. ⊤ };

    ghost read_at = { λ _ bytes. u32_text_at bytes };

    ghost sized = { λ _. unsized u32_text_at };

    ghost reads_back = { λ _ text rest _. u32_text_at-back text rest };

    fn serialize(text: &[u8], buf: &mut Vec<u8>) -> Result<(), AllocError> {
        buf.put_u32_str(text)
    }

    fn deserialize<'de>(_ctx: (), buf: &mut ParseBuf<'de>) -> Result<CowSlice<'de, u8>, WireError> {
        match buf.checked_eat_u32_str() {
            Some(text) => Ok(CowSlice::Borrowed(text)),
            None => Err(WireError::UnexpectedEof),
        }
    }
}

/// A text before its first zero, and a zero.
///
/// Reading is refused by `UnexpectedEof` where no zero comes.
///
/// (MySQL: Client/Server Protocol, "Protocol::NullTerminatedString".)
#[derive(Clone, Copy, Debug, PartialEq, Eq)]
pub struct NullBytes;

impl BytesRepr for NullBytes {
    type Ctx = ();

    const MAX_LEN: usize = usize::MAX;

    ghost MAX_LEN = { 2 ^ 64 - 1 };

    const SIZE: Option<usize> = None;

    ghost SIZE = { None };

    ghost written = { null_text };

    ghost kept = { before_first is_zero };

    ghost IsReadBack = { λ _ _ _. ⊤ };

    ghost read_at = { λ _ bytes. null_text_at bytes };

    ghost sized = { λ _. unsized null_text_at };

    ghost reads_back = { λ _ text rest _. null_text_at-back text rest };

    fn serialize(text: &[u8], buf: &mut Vec<u8>) -> Result<(), AllocError> {
        put_null_text(text, buf)
    }

    fn deserialize<'de>(_ctx: (), buf: &mut ParseBuf<'de>) -> Result<CowSlice<'de, u8>, WireError> {
        let mut rest = *buf;
        let text = rest.eat_null_str();
        if text.len() == buf.0.len() {
            return Err(WireError::UnexpectedEof);
        }
        *buf = rest;
        Ok(CowSlice::Borrowed(text))
    }
}

// A text before its first zero, and a zero.
fn put_null_text(text: &[u8], buf: &mut Vec<u8>) -> Result<(), AllocError>
    ensures { Appends result buf.old.items buf.new.items (null_text text.now) }
{
    let len = buf.len();
    buf.extend_from_slice(ParseBuf(text).eat_null_str())?;
    if let Err(_) = buf.push(0) {
        buf.truncate(len);
        return Err(AllocError);
    }
    Ok(())
}

/// All bytes to the end.
/// (MySQL: Client/Server Protocol, "Protocol::RestOfPacketString".)
#[derive(Clone, Copy, Debug, PartialEq, Eq)]
pub struct EofBytes;

impl BytesRepr for EofBytes {
    type Ctx = ();

    const MAX_LEN: usize = usize::MAX;

    ghost MAX_LEN = { 2 ^ 64 - 1 };

    const SIZE: Option<usize> = None;

    ghost SIZE = { None };

    ghost written = { λ text. text };

    ghost kept = { λ text. text };

    ghost IsReadBack = { λ _ _ rest. rest ≡ [] };

    ghost read_at = { λ _ bytes. Ok (bytes, []) };

    ghost sized = { λ _. unsized (λ bytes. Ok (bytes, [])) };

    ghost reads_back = { λ _. all-back };

    fn serialize(text: &[u8], buf: &mut Vec<u8>) -> Result<(), AllocError> {
        buf.extend_from_slice(text)
    }

    fn deserialize<'de>(_ctx: (), buf: &mut ParseBuf<'de>) -> Result<CowSlice<'de, u8>, WireError> {
        Ok(CowSlice::Borrowed(buf.eat_all()))
    }
}

/// A text's first `M` bytes alone: the context says how many are read.
///
/// Reading is refused by `TooManyBytes` where the context says more than `M`.
///
/// (MySQL: Client/Server Protocol, "Protocol::VariableLengthString".)
#[derive(Clone, Copy, Debug, PartialEq, Eq)]
pub struct BareBytes<const M: usize>;

/// [`BareBytes`] of at most 255 bytes.
pub type BareU8Bytes = BareBytes<255>;

/// [`BareBytes`] of at most 65535 bytes.
pub type BareU16Bytes = BareBytes<65535>;

impl<const M: usize> BytesRepr for BareBytes<M> {
    type Ctx = usize;

    const MAX_LEN: usize = M;

    ghost MAX_LEN = { M };

    const SIZE: Option<usize> = None;

    ghost SIZE = { None };

    ghost written = { λ text. front text M };

    ghost kept = { λ text. front text M };

    ghost IsReadBack = { λ n text _. n ≡ length (front text M) };

    ghost read_at = { bare_at M };

    ghost sized = { λ n. unsized (bare_at M n) };

    ghost reads_back = { bare_at-back M };

    fn serialize(text: &[u8], buf: &mut Vec<u8>) -> Result<(), AllocError> {
        buf.extend_from_slice(front_of(text, M))
    }

    fn deserialize<'de>(
        count: usize,
        buf: &mut ParseBuf<'de>,
    ) -> Result<CowSlice<'de, u8>, WireError> {
        if M < count {
            return Err(WireError::TooManyBytes);
        }
        match buf.checked_eat(count) {
            Some(text) => Ok(CowSlice::Borrowed(text)),
            None => Err(WireError::UnexpectedEof),
        }
    }
}

/// `L` bytes: a text, cut or padded with zeros.
/// (MySQL: Client/Server Protocol, "Protocol::FixedLengthString".)
#[derive(Clone, Copy, Debug, PartialEq, Eq)]
pub struct FixedLengthText<const L: usize>;

impl<const L: usize> BytesRepr for FixedLengthText<L> {
    type Ctx = ();

    const MAX_LEN: usize = L;

    ghost MAX_LEN = { L };

    const SIZE: Option<usize> = Some(L);

    ghost SIZE = { Some L };

    ghost written = { fixed_text L };

    ghost kept = { fixed_text L };

    ghost IsReadBack = { λ _ _ _. ⊤ };

    ghost read_at = { λ _ bytes. fixed_text_at L bytes };

    ghost sized = { λ _. fixed_text_at-sized L };

    ghost reads_back = { λ _ text rest _. fixed_text_at-back L text rest };

    fn serialize(text: &[u8], buf: &mut Vec<u8>) -> Result<(), AllocError> {
        if L <= text.len() {
            return buf.extend_from_slice(&text[..L]);
        }
        let len = buf.len();
        let Some(whole) = len.checked_add(L) else {
            return Err(AllocError);
        };
        buf.extend_from_slice(text)?;
        if let Err(e) = buf.resize(whole, 0) {
            buf.truncate(len);
            return Err(e);
        }
        Ok(())
    }

    fn deserialize<'de>(_ctx: (), buf: &mut ParseBuf<'de>) -> Result<CowSlice<'de, u8>, WireError> {
        Ok(CowSlice::Borrowed(buf.eat(L)))
    }
}
