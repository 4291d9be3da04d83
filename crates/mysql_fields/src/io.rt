//! The traits of fields: what is written as bytes and read from them, and reading from a buffer.
//!
//!     let mut buf = ParseBuf(payload);
//!     let id: RawInt<LeU32> = buf.parse(alloc, ())?;
//!     let name: RawBytes<LenEnc> = buf.parse(alloc, ())?;
//!     in_order!(id, name).serialize(&mut out)?;

ghost use Rattle.std.specs.Prelude.{◌≡◌, ◌++◌, Bool, List, None, Ok, Option, [], false, length, ℕ};
ghost use Rattle.mysql_fields.specs.Wire.{Reading, Answers, Appends, Suffices, IsSized, lacks};

use crate::WireError;
use mysql_buf::ParseBuf;
use std::alloc::{AllocError, Global};

/// A value that is written as bytes.
/// (MySQL: Client/Server Protocol, "Protocol Basics: Basic Data Types".)
///
/// Promise: what is appended is a function of the value, and nothing is where memory was refused
/// (`Appends`).
pub trait MySerialize {
    // the bytes that are written
    ghost written: { Self → List ℕ };

    /// Appends the whole value.
    ///
    /// # Errors
    /// - `AllocError` for want of memory. The buffer is then as it was.
    fn serialize(&self, buf: &mut Vec<u8>) -> Result<(), AllocError>
        ensures { Appends result buf.old.items buf.new.items (written self.now) };
}

impl<T: MySerialize> MySerialize for &T {
    ghost written = { λ x. T.written x.now };

    fn serialize(&self, buf: &mut Vec<u8>) -> Result<(), AllocError> {
        (**self).serialize(buf)
    }
}

/// No bytes.
impl MySerialize for () {
    ghost written = { λ _. [] };

    fn serialize(&self, _buf: &mut Vec<u8>) -> Result<(), AllocError> {
        Ok(())
    }
}

/// One value after the other, or neither.
impl<A: MySerialize, B: MySerialize> MySerialize for (A, B) {
    ghost written = { λ x. A.written x.0 ++ B.written x.1 };

    fn serialize(&self, buf: &mut Vec<u8>) -> Result<(), AllocError> {
        let len = buf.len();
        self.0.serialize(buf)?;
        let answer = self.1.serialize(buf);
        if answer.is_err() {
            buf.truncate(len);
        }
        answer
    }
}

/// These values in order, as one value that is written whole or not at all.
#[macro_export]
macro_rules! in_order {
    () => { () };
    ($first:expr $(, $rest:expr)* $(,)?) => { (&$first, $crate::in_order!($($rest),*)) };
}

/// What stands for a value in bytes, apart from where they lie.
pub trait Readable: Sized {
    /// The number of bytes that are needed and eaten, where it is the same for all values.
    fn size() -> Option<usize>
        ensures { result ≡ SIZE };

    /// What has to be known before a value is read.
    type Ctx: Drop;

    ghost SIZE: { Option ℕ } = { None };

    // whether reading may ask for memory, and so answer that it was refused
    ghost AsksForMemory: { Bool } = { false };

    // what a value is, apart from where its bytes lie
    ghost Shown: { Type 0 };

    ghost shown: { Self → Shown };

    // what reading answers, of every list of bytes: the value that stands first and the bytes after
    // it, or why none does
    ghost read_at: { Self.Ctx → List ℕ → Reading Shown };

    // what is read of a value that was written
    ghost kept: { Self → Shown };

    // in this context, with these bytes following, a value that was written is read back
    ghost IsReadBack: { Self.Ctx → Self → List ℕ → Type 0 } = { λ _ _ _. ⊥ };

    /// Whether a buffer of `len` bytes is too short for any value.
    fn is_too_short(len: usize) -> bool
        ensures value { result ≡ lacks SIZE len }
        ensures enough { result ≡ false → Suffices SIZE len }
    {
        match Self::size() {
            Some(size) => len < size,
            None => false,
        }
    }

    // where there is a size, that many bytes are needed and eaten
    ghost sized: { (ctx : Self.Ctx) → IsSized SIZE (read_at ctx) };
}

/// A value that is read back from what was written, whatever follows it.
///
/// Promise: what is written is read back where the type's `IsReadBack` says so.
pub trait ReadsBack: MySerialize + Readable {
    ghost reads_back: { (ctx : Self.Ctx) (x : Self) (rest : List ℕ) → Self.IsReadBack ctx x rest →
        Self.read_at ctx (Self.written x ++ rest) ≡ Ok (Self.kept x, rest) };
}

/// A value that is read from the front of a buffer.
///
/// Promise: reading answers exactly what the type's function gives of the bytes, the value and the
/// rest or the refusal. A refusal leaves all bytes (`Answers`).
pub trait MyDeserialize<'de>: Readable {
    /// Reads the value that stands first.
    ///
    /// # Errors
    /// - Those of the type. `Memory` is answered only by a type that asks for some.
    ///
    /// The buffer is as it was after an error.
    fn deserialize(
        alloc: Global,
        ctx: Self::Ctx,
        buf: &mut ParseBuf<'de>,
    ) -> Result<Self, WireError>
        requires { Suffices Self.SIZE (length buf.old.0.now) }
        ensures { Answers Self.AsksForMemory Self.shown buf.old.0.now buf.new.0.now result
            (Self.read_at ctx buf.old.0.now) };
}

/// Reading a value of any type from the front of a buffer. It stands in place of methods of
/// `ParseBuf`, which is a type of another crate.
pub trait ParseExt<'a>: Sized {
    // the bytes that are left
    ghost left: { Self → List ℕ };

    /// What is left.
    fn unread(&self) -> ParseBuf<'a>
        ensures { result.0.now ≡ left self.now };

    /// Leaves this.
    fn set_unread(&mut self, buf: ParseBuf<'a>)
        ensures { left self.new ≡ buf.entry.0.now };

    /// Reads a value whose bytes are there, if it has a size.
    ///
    /// # Errors
    /// - Those of the value's type. All bytes are then left.
    final fn parse_unchecked<T: MyDeserialize<'a>>(
        &mut self,
        alloc: Global,
        ctx: T::Ctx,
    ) -> Result<T, WireError>
        requires { Suffices T.SIZE (length (left self.old)) }
        ensures { Answers T.AsksForMemory T.shown (left self.old) (left self.new) result
            (T.read_at ctx (left self.old)) }
    {
        let mut buf = self.unread();
        let answer = T::deserialize(alloc, ctx, &mut buf);
        self.set_unread(buf);
        answer
    }

    /// Reads a value.
    ///
    /// Promise: what is answered is the type's own reading, or `UnexpectedEof` below its size, or
    /// `Memory` of types that ask for memory (`Answers`).
    ///
    /// # Errors
    /// - `UnexpectedEof` where there are fewer bytes than its size.
    /// - Those of the value's type.
    ///
    /// All bytes are left after an error.
    final fn parse<T: MyDeserialize<'a>>(
        &mut self,
        alloc: Global,
        ctx: T::Ctx,
    ) -> Result<T, WireError>
        ensures { Answers T.AsksForMemory T.shown (left self.old) (left self.new) result
            (T.read_at ctx (left self.old)) }
    {
        if T::is_too_short(self.unread().0.len()) {
            return Err(WireError::UnexpectedEof);
        }
        self.parse_unchecked(alloc, ctx)
    }
}

impl<'a> ParseExt<'a> for ParseBuf<'a> {
    ghost left = { λ s. s.0.now };

    fn unread(&self) -> ParseBuf<'a> {
        *self
    }

    fn set_unread(&mut self, buf: ParseBuf<'a>) {
        *self = buf;
    }
}
