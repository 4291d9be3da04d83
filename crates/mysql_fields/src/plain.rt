//! Bytes as they stand, and the names of the two protocols that rows are read by.
//!
//!     let marker: [u8; 4] = buf.parse(alloc, ())?;
//!     let front: &[u8] = buf.parse(alloc, count)?;
//!     let row: RowDeserializer<ServerSide, Text> = buf.parse(alloc, columns)?;

ghost use Rattle.std.specs.Prelude.{◌≡◌, List, None, Some, length, ℕ};
ghost use Rattle.mysql_fields.specs.Forms.{bytes_at};
ghost use Rattle.mysql_fields.specs.Laws.{bytes_at-back, bytes_at-sized, unsized};

use crate::WireError;
use crate::io::{MyDeserialize, MySerialize, Readable, ReadsBack};
use mysql_buf::ParseBuf;
use std::alloc::{AllocError, Global};

/// Names the text protocol.
/// (MySQL: Client/Server Protocol, "Text Protocol".)
#[derive(Clone, Copy, Debug, PartialEq, Eq)]
pub struct Text;

/// Names the binary protocol.
/// (MySQL: Client/Server Protocol, "Binary Protocol".)
#[derive(Clone, Copy, Debug, PartialEq, Eq)]
pub struct Binary;

/// The bytes themselves.
impl<const N: usize> MySerialize for [u8; N] {
    ghost written = { λ x. x };

    fn serialize(&self, buf: &mut Vec<u8>) -> Result<(), AllocError> {
        buf.extend_from_slice(self.as_slice())
    }
}

/// The next `N` bytes.
impl<const N: usize> Readable for [u8; N] {
    type Ctx = ();

    ghost SIZE = { Some N };

    ghost Shown = { List ℕ };

    ghost shown = { λ x. x };

    ghost kept = { λ x. x };

    ghost read_at = { λ _ bytes. bytes_at N bytes };

    ghost IsReadBack = { λ _ x _. length x ≡ N };

    ghost sized = { λ _. bytes_at-sized N };

    fn size() -> Option<usize>
        ensures { result ≡ Some N }
    {
        Some(N)
    }

    fn is_too_short(len: usize) -> bool {
        len < N
    }
}

impl<const N: usize> ReadsBack for [u8; N] {
    ghost reads_back = { λ _ x rest is. bytes_at-back N x rest is };
}

#[tactic(auto, unfolding(mysql_buf::specs::Reading::first))]
impl<'de, const N: usize> MyDeserialize<'de> for [u8; N] {
    fn deserialize(
        _alloc: Global,
        _ctx: (),
        buf: &mut ParseBuf<'de>,
    ) -> Result<[u8; N], WireError> {
        match buf.0.split_first_chunk::<N>() {
            Some((bytes, rest)) => {
                *buf = ParseBuf(rest);
                Ok(*bytes)
            }
            None => Err(WireError::UnexpectedEof),
        }
    }
}

/// As many bytes as the context says.
impl<'a> Readable for &'a [u8] {
    type Ctx = usize;

    ghost Shown = { List ℕ };

    ghost shown = { λ x. x.now };

    ghost kept = { λ x. x.now };

    ghost read_at = { λ n bytes. bytes_at n bytes };

    ghost sized = { λ n. unsized (bytes_at n) };

    fn size() -> Option<usize>
        ensures { result ≡ None }
    {
        None
    }
}

impl<'de> MyDeserialize<'de> for &'de [u8] {
    fn deserialize(
        _alloc: Global,
        len: usize,
        buf: &mut ParseBuf<'de>,
    ) -> Result<&'de [u8], WireError> {
        match buf.checked_eat(len) {
            Some(bytes) => Ok(bytes),
            None => Err(WireError::UnexpectedEof),
        }
    }
}

/// As many bytes as the context says, as a buffer.
impl<'a> Readable for ParseBuf<'a> {
    type Ctx = usize;

    ghost Shown = { List ℕ };

    ghost shown = { λ x. x.0.now };

    ghost kept = { λ x. x.0.now };

    ghost read_at = { λ n bytes. bytes_at n bytes };

    ghost sized = { λ n. unsized (bytes_at n) };

    fn size() -> Option<usize>
        ensures { result ≡ None }
    {
        None
    }
}

impl<'de> MyDeserialize<'de> for ParseBuf<'de> {
    fn deserialize(
        _alloc: Global,
        len: usize,
        buf: &mut ParseBuf<'de>,
    ) -> Result<ParseBuf<'de>, WireError> {
        match buf.checked_eat_buf(len) {
            Some(bytes) => Ok(bytes),
            None => Err(WireError::UnexpectedEof),
        }
    }
}
