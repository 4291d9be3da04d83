//! Numbers and texts of the protocol written to the end of a buffer.
//!
//!     out.put_lenenc_int(300)?;
//!     out.put_lenenc_str(b"name")?;
//!     out.put_u24_le(length)?;

ghost use Rattle.std.specs.Prelude.{◌≡◌, ◌+◌, ◌≤◌, ◌∷◌, ◌++◌, OnErr, OnOk, length};
ghost use Rattle.std.specs.Int.{cast_unsigned, w32, w64};
ghost use Rattle.byteorder.specs.Endian.{little_bytes};
ghost use Rattle.bytes.specs.Filled.{UsesSpare};
ghost use Rattle.mysql_buf.specs.Writing.{lenenc_int, lenenc_str, u8_str, u32_str};

use crate::lengths::{front_of, lenenc_str_len};
use bytes::BufMut;
use std::alloc::AllocError;

/// What every buffer writes besides [`BufMut`]'s numbers. A call appends all its bytes, or is
/// refused for want of memory and leaves the buffer's bytes as they were. None is refused where the
/// buffer has room.
/// (MySQL: Client/Server Protocol, "Protocol Basics: Integer Types" and "String Types".)
///
/// Promise: each call appends exactly its bytes, or refuses only where room is missing and leaves
/// the buffer as it was (`lenenc_int`).
pub trait BufMutExt: BufMut {
    /// Appends a length-encoded number in its shortest spelling.
    /// (MySQL: Client/Server Protocol, "Protocol::LengthEncodedInteger".)
    final fn put_lenenc_int(&mut self, number: u64) -> Result<(), AllocError>
    where
        Self: Sized,
        ensures ok { OnOk result (Self.written self.new ≡ Self.written self.old ++ lenenc_int number) }
        ensures err { OnErr result (Self.written self.new ≡ Self.written self.old) }
        ensures spare { UsesSpare result (Self.spare self.old) (Self.spare self.new) (length (lenenc_int number)) }
    {
        match number {
            0..=250 => self.put_u8(number as u8),
            251..=0xffff => put_marked(self, 0xfc, number, 2),
            0x1_0000..=0xff_ffff => put_marked(self, 0xfd, number, 3),
            _ => put_marked(self, 0xfe, number, 8),
        }
    }

    /// Appends a text after its length as a length-encoded number.
    /// (MySQL: Client/Server Protocol, "Protocol::LengthEncodedString".)
    final fn put_lenenc_str(&mut self, text: &[u8]) -> Result<(), AllocError>
    where
        Self: Sized,
        ensures ok { OnOk result (Self.written self.new ≡ Self.written self.old ++ lenenc_str text.now) }
        ensures err { OnErr result (Self.written self.new ≡ Self.written self.old) }
        ensures spare { UsesSpare result (Self.spare self.old) (Self.spare self.new) (length (lenenc_str text.now)) }
    {
        self.reserve(lenenc_str_len(text) as usize)?;
        self.put_lenenc_int(text.len() as u64)?;
        self.put_slice(text)
    }

    /// Appends the low 3 bytes of a number, lowest first.
    final fn put_u24_le(&mut self, number: u32) -> Result<(), AllocError>
    where
        Self: Sized,
        ensures ok { OnOk result (Self.written self.new ≡ Self.written self.old ++ little_bytes 3 number) }
        ensures err { OnErr result (Self.written self.new ≡ Self.written self.old) }
        ensures spare { UsesSpare result (Self.spare self.old) (Self.spare self.new) 3 }
    {
        self.put_slice(&number.to_le_bytes()[..3])
    }

    /// Appends the low 3 bytes of a number in two's complement, lowest first.
    final fn put_i24_le(&mut self, number: i32) -> Result<(), AllocError>
    where
        Self: Sized,
        ensures ok { OnOk result (Self.written self.new ≡ Self.written self.old ++
            little_bytes 3 (cast_unsigned w32 number)) }
        ensures err { OnErr result (Self.written self.new ≡ Self.written self.old) }
        ensures spare { UsesSpare result (Self.spare self.old) (Self.spare self.new) 3 }
    {
        self.put_u24_le(number.cast_unsigned())
    }

    /// Appends the low 6 bytes of a number, lowest first.
    final fn put_u48_le(&mut self, number: u64) -> Result<(), AllocError>
    where
        Self: Sized,
        ensures ok { OnOk result (Self.written self.new ≡ Self.written self.old ++ little_bytes 6 number) }
        ensures err { OnErr result (Self.written self.new ≡ Self.written self.old) }
        ensures spare { UsesSpare result (Self.spare self.old) (Self.spare self.new) 6 }
    {
        self.put_uint_le(number, 6)
    }

    /// Appends the low 7 bytes of a number, lowest first.
    final fn put_u56_le(&mut self, number: u64) -> Result<(), AllocError>
    where
        Self: Sized,
        ensures ok { OnOk result (Self.written self.new ≡ Self.written self.old ++ little_bytes 7 number) }
        ensures err { OnErr result (Self.written self.new ≡ Self.written self.old) }
        ensures spare { UsesSpare result (Self.spare self.old) (Self.spare self.new) 7 }
    {
        self.put_uint_le(number, 7)
    }

    /// Appends the low 7 bytes of a number in two's complement, lowest first.
    final fn put_i56_le(&mut self, number: i64) -> Result<(), AllocError>
    where
        Self: Sized,
        ensures ok { OnOk result (Self.written self.new ≡ Self.written self.old ++
            little_bytes 7 (cast_unsigned w64 number)) }
        ensures err { OnErr result (Self.written self.new ≡ Self.written self.old) }
        ensures spare { UsesSpare result (Self.spare self.old) (Self.spare self.new) 7 }
    {
        self.put_int_le(number, 7)
    }

    /// Appends the first 255 bytes of a text, after their number in one byte.
    /// (MySQL: Client/Server Protocol, "COM_REGISTER_SLAVE", the host and user names.)
    final fn put_u8_str(&mut self, text: &[u8]) -> Result<(), AllocError>
    where
        Self: Sized,
        ensures ok { OnOk result (Self.written self.new ≡ Self.written self.old ++ u8_str text.now) }
        ensures err { OnErr result (Self.written self.new ≡ Self.written self.old) }
        ensures spare { UsesSpare result (Self.spare self.old) (Self.spare self.new) (length (u8_str text.now)) }
    {
        let text = front_of(text, 255);
        self.reserve(1 + text.len())?;
        self.put_u8(text.len() as u8)?;
        self.put_slice(text)
    }

    /// Appends the first 2^32 - 1 bytes of a text, after their number in four bytes, lowest first.
    /// (MySQL: Client/Server Protocol, "COM_BINLOG_DUMP_GTID", the file name.)
    final fn put_u32_str(&mut self, text: &[u8]) -> Result<(), AllocError>
    where
        Self: Sized,
        ensures ok { OnOk result (Self.written self.new ≡ Self.written self.old ++ u32_str text.now) }
        ensures err { OnErr result (Self.written self.new ≡ Self.written self.old) }
        ensures spare { UsesSpare result (Self.spare self.old) (Self.spare self.new) (length (u32_str text.now)) }
    {
        let text = front_of(text, u32::MAX as usize);
        self.reserve(4 + text.len())?;
        self.put_u32_le(text.len() as u32)?;
        self.put_slice(text)
    }
}

impl<B: BufMut> BufMutExt for B {}

// Appends a first byte and then a number in so many bytes, lowest first.
pub(crate) fn put_marked<B: BufMut>(
    buf: &mut B,
    mark: u8,
    number: u64,
    count: usize,
) -> Result<(), AllocError>
    requires { count ≤ 8 }
    ensures ok { OnOk result (B.written buf.new ≡ B.written buf.old ++ (mark ∷ little_bytes count number)) }
    ensures err { OnErr result (B.written buf.new ≡ B.written buf.old) }
    ensures spare { UsesSpare result (B.spare buf.old) (B.spare buf.new) (1 + count) }
{
    buf.reserve(1 + count)?;
    buf.put_u8(mark)?;
    buf.put_uint_le(number, count)
}
