//! Numbers of variable length, written to the end of a buffer and read from the front of one.
//!
//!     write_varlen_uint(&mut out, 300)?;
//!     let number = read_varlen_uint(&mut buf);

ghost use Rattle.std.specs.Prelude.{◌≡◌, ◌<◌, ◌^◌, ◌++◌, OnErr, OnOk, length};
ghost use Rattle.bytes.specs.Filled.{UsesSpare};
ghost use Rattle.mysql_buf.specs.Reading.{Checks};
ghost use Rattle.mysql_buf.specs.Varlen.{marked, short_at, varlen, varlen_at, varlen_size};

use crate::buf_mut::put_marked;
use crate::parse_buf::ParseBuf;
use byteorder::{ByteOrder, LittleEndian};
use bytes::BufMut;
use std::alloc::AllocError;

/// How many bytes the shortest spelling of a variable-length number takes: 1 to 9.
/// (MySQL: Source Code Documentation, "mysql::serialization", "Variable-length integer".)
pub fn varlen_uint_size(number: u64) -> usize
    ensures size { result ≡ varlen_size number }
    ensures bytes { result ≡ length (varlen number) }
{
    match number {
        0..=0x7f => 1,
        0x80..=0x3fff => 2,
        0x4000..=0x1f_ffff => 3,
        0x20_0000..=0xfff_ffff => 4,
        0x1000_0000..=0x7_ffff_ffff => 5,
        0x8_0000_0000..=0x3ff_ffff_ffff => 6,
        0x400_0000_0000..=0x1_ffff_ffff_ffff => 7,
        0x2_0000_0000_0000..=0xff_ffff_ffff_ffff => 8,
        _ => 9,
    }
}

/// Takes a number of variable length, in any of its spellings.
///
/// The answer is `None` where the number is cut off; the buffer then stays as it was.
///
/// Promise: the number that stands first is read in any of its spellings, and nothing is taken of
/// one that is cut off (`varlen_at`).
///
/// (MySQL: Source Code Documentation, "mysql::serialization", "Variable-length integer".)
#[tactic(auto, unfolding(crate::specs::Reading::first))]
pub fn read_varlen_uint(buf: &mut ParseBuf<'_>) -> Option<u64>
    ensures { Checks (λ x. x) buf.old.0.now buf.new.0.now result (varlen_at buf.old.0.now) }
{
    match buf.0 {
        [] => None,
        [first, behind @ ..] => {
            if *first < 0xff {
                return read_short(*first, buf);
            }
            let mut rest = ParseBuf(behind);
            let number = rest.checked_eat_u64_le()?;
            *buf = rest;
            Some(number)
        }
    }
}

// Takes the number of at most eight bytes that this first byte begins.
#[tactic(auto, unfolding(crate::specs::Reading::first))]
fn read_short(first: u8, buf: &mut ParseBuf<'_>) -> Option<u64>
    requires { first < 255 }
    ensures { Checks (λ x. x) buf.old.0.now buf.new.0.now result (short_at first buf.old.0.now) }
{
    let size = first.trailing_ones() as usize + 1;
    let bytes = buf.checked_eat(size)?;
    Some(LittleEndian::read_uint(bytes, size) >> size)
}

/// Appends a number of variable length in its shortest spelling.
///
/// Promise: exactly the shortest spelling is appended, or nothing (`varlen`).
///
/// # Errors
/// - `AllocError` for want of memory. The buffer's bytes are then as they were.
///
/// (MySQL: Source Code Documentation, "mysql::serialization", "Variable-length integer".)
pub fn write_varlen_uint<B: BufMut>(buf: &mut B, number: u64) -> Result<(), AllocError>
    ensures ok { OnOk result (B.written buf.new ≡ B.written buf.old ++ varlen number) }
    ensures err { OnErr result (B.written buf.new ≡ B.written buf.old) }
    ensures spare { UsesSpare result (B.spare buf.old) (B.spare buf.new) (length (varlen number)) }
{
    let size = varlen_uint_size(number);
    if size < 9 {
        buf.put_uint_le(with_mark(number, size), size)
    } else {
        put_marked(buf, 0xff, number, 8)
    }
}

// The number behind the bits that say how many bytes it takes.
#[tactic(auto, unfolding(crate::specs::Varlen::marked))]
fn with_mark(number: u64, size: usize) -> u64
    requires size { size ≡ varlen_size number }
    requires small { number < 2 ^ 56 }
    ensures { result ≡ marked size number }
{
    number * (1 << size) + ((1 << (size - 1)) - 1)
}
