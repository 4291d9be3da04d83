//! Length-encoded numbers and texts read from streams and written to them.
//!
//!     let count = writer.write_lenenc_str(b"name")?;
//!     let text = reader.read_lenenc_str(alloc)?;

ghost use Rattle.std.specs.Prelude.{◌≡◌, ◌<◌, ◌≤◌, ◌^◌, [], ◌∷◌, IfErr, IfOk, OnErr, OnOk, length};
ghost use Rattle.std.specs.Io.KnownBytes.{Appends, Consumes, Keeps};
ghost use Rattle.std.specs.IoError.{error_kind};
ghost use Rattle.byteorder.specs.Endian.{little_bytes};
ghost use Rattle.mysql_buf.specs.Streams.{RefusesToBegin, Takes, begun_lenenc_int_at, begun_lenenc_str_at};
ghost use Rattle.mysql_buf.specs.Writing.{lenenc_int, lenenc_str};

use crate::lengths::lenenc_int_len;
use byteorder::{LittleEndian, ReadBytesExt, WriteBytesExt};
use std::alloc::Global;
use std::io;
use std::io::{ErrorKind, Read, Write};

/// What every reader reads besides the numbers of `byteorder`.
pub trait ReadMysqlExt: Read {
    /// Reads a length-encoded number, in any of its spellings.
    ///
    /// Promise: the answer is what stands first, and a number that begins with fb or ff is refused
    /// (`begun_lenenc_int_at`).
    ///
    /// # Errors
    /// - Those of the reader.
    /// - `UnexpectedEof` where the bytes end early.
    /// - `InvalidData` where the first byte is `fb` or `ff`, which begins no number.
    ///
    /// (MySQL: Client/Server Protocol, "Protocol::LengthEncodedInteger".)
    final fn read_lenenc_int(&mut self) -> io::Result<u64>
    where
        Self: Sized,
        ensures taken { IfOk result (Takes begun_lenenc_int_at (Self.remaining self.old) (Self.remaining self.new)) }
        ensures refused { IfErr result
            (λ e. RefusesToBegin (Self.remaining self.old) (Self.remaining self.new) (error_kind e ≡
            ErrorKind.InvalidData)) }
    {
        let first = first_byte(self)?;
        match first {
            0xfb | 0xff => Err(io::Error::from(ErrorKind::InvalidData)),
            0xfc => Ok(u64::from(self.read_u16::<LittleEndian>()?)),
            0xfd => Ok(u64::from(self.read_u24::<LittleEndian>()?)),
            0xfe => self.read_u64::<LittleEndian>(),
            _ => Ok(u64::from(first)),
        }
    }

    /// Reads a length-encoded number and that many bytes, which take room only as they come.
    ///
    /// Promise: the answer is what stands first, and a text that begins with fb or ff is refused
    /// (`begun_lenenc_str_at`).
    ///
    /// # Errors
    /// - Those of [`read_lenenc_int`](Self::read_lenenc_int).
    /// - `OutOfMemory`.
    ///
    /// (MySQL: Client/Server Protocol, "Protocol::LengthEncodedString".)
    final fn read_lenenc_str(&mut self, alloc: Global) -> io::Result<Vec<u8>>
    where
        Self: Sized,
        ensures taken { IfOk result
            (λ text. Takes begun_lenenc_str_at (Self.remaining self.old) (Self.remaining self.new)
            text.items) }
        ensures refused { IfErr result
            (λ e. RefusesToBegin (Self.remaining self.old) (Self.remaining self.new) (error_kind e ≡
            ErrorKind.InvalidData)) }
    {
        let count = self.read_lenenc_int()?;
        read_bytes(alloc, self, count)
    }
}

impl<R: Read> ReadMysqlExt for R {}

/// What every writer writes besides the numbers of `byteorder`.
pub trait WriteMysqlExt: Write {
    /// Writes a length-encoded number in its shortest spelling, and answers how many bytes it
    /// wrote.
    ///
    /// # Errors
    /// - Those of the writer. A part of the bytes may then be written.
    ///
    /// (MySQL: Client/Server Protocol, "Protocol::LengthEncodedInteger".)
    final fn write_lenenc_int(&mut self, number: u64) -> io::Result<u64>
    where
        Self: Sized,
        ensures count { IfOk result (λ count. count ≡ length (lenenc_int number)) }
        ensures bytes { IfOk result
            (λ _. Appends (Self.contents self.old) (Self.contents self.new) (lenenc_int number)) }
    {
        write_shortest(self, number)?;
        Ok(lenenc_int_len(number))
    }

    /// Writes a text after its length as a length-encoded number, and answers how many bytes it
    /// wrote.
    ///
    /// The number counts the length's bytes too.
    ///
    /// # Errors
    /// - Those of the writer. A part of the bytes may then be written.
    ///
    /// (MySQL: Client/Server Protocol, "Protocol::LengthEncodedString".)
    final fn write_lenenc_str(&mut self, text: &[u8]) -> io::Result<u64>
    where
        Self: Sized,
        ensures count { IfOk result (λ count. count ≡ length (lenenc_str text.now)) }
        ensures bytes { IfOk result
            (λ _. Appends (Self.contents self.old) (Self.contents self.new) (lenenc_str text.now)) }
    {
        let count = self.write_lenenc_int(text.len() as u64)?;
        self.write_all(text)?;
        Ok(count + text.len() as u64)
    }
}

impl<W: Write> WriteMysqlExt for W {}

// Writes a length-encoded number in its shortest spelling.
fn write_shortest<W: Write>(writer: &mut W, number: u64) -> io::Result<()>
    ensures { OnOk result (Appends (W.contents writer.old) (W.contents writer.new) (lenenc_int number)) }
{
    match number {
        0..=250 => writer.write_u8(number as u8),
        251..=0xffff => write_marked(writer, 0xfc, number, 2),
        0x1_0000..=0xff_ffff => write_marked(writer, 0xfd, number, 3),
        _ => write_marked(writer, 0xfe, number, 8),
    }
}

// Writes a first byte and then a number in so many bytes, lowest first.
fn write_marked<W: Write>(writer: &mut W, mark: u8, number: u64, count: usize) -> io::Result<()>
    requires some { 1 ≤ count }
    requires few { count ≤ 8 }
    requires fits { number < 256 ^ count }
    ensures { OnOk result (Appends (W.contents writer.old) (W.contents writer.new) (mark ∷ little_bytes count number)) }
{
    writer.write_u8(mark)?;
    writer.write_uint::<LittleEndian>(number, count)
}

// Reads one byte, or refuses and takes none. A reader that was interrupted is asked again.
fn first_byte<R: Read>(reader: &mut R) -> io::Result<u8>
    ensures ok { IfOk result (λ first. Consumes (R.remaining reader.old) (R.remaining reader.new) (first ∷ [])) }
    ensures err { OnErr result (Keeps (R.remaining reader.old) (R.remaining reader.new)) }
{
    let mut first = [0];
    'tries: for _ in 0..u64::MAX {
        match reader.read(&mut first) {
            Ok(0) => return Err(io::Error::from(ErrorKind::UnexpectedEof)),
            Ok(_) => return Ok(first[0]),
            Err(error) => {
                if error.kind() != ErrorKind::Interrupted {
                    return Err(error);
                }
            }
        }
    }
    Err(io::Error::from(ErrorKind::Interrupted))
}

/// How many bytes are read at once.
const PIECE: usize = 4096;

// Reads so many bytes. Room is made for those that came alone.
fn read_bytes<R: Read>(alloc: Global, reader: &mut R, count: u64) -> io::Result<Vec<u8>>
    ensures len { IfOk result (λ bytes. length bytes.items ≡ count) }
    ensures bytes { IfOk result (λ bytes. Consumes (R.remaining reader.old) (R.remaining reader.new) bytes.items) }
{
    let mut bytes = Vec::new(alloc);
    let mut piece = [0u8; PIECE];
    while (bytes.len() as u64) < count {
        let more = (count - bytes.len() as u64).min(PIECE as u64) as usize;
        let front = &mut piece[..more];
        reader.read_exact(front)?;
        bytes.extend_from_slice(front)?;
    }
    Ok(bytes)
}
