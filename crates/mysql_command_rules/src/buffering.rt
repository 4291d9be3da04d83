//! Packets that are buffered, and written to a writer together.

ghost use Rattle.std.specs.Prelude.{◌≡◌, [], IfErr, OnErr, OnOk, Ok};
ghost use Rattle.std.specs.Io.KnownBytes.{Appends};
ghost use Rattle.mysql_wire.specs.Bytes.{AreBytes};
ghost use Rattle.mysql_command_rules.specs.Buffering.{Flushes, StopsAt, TakesFront};

use crate::refusal::Refusal;
use crate::send_to_error::SendToError;
use std::io::{self, ErrorKind, Write};

/// So many bytes are written together, and what was buffered beyond them.
const BUFFER_LEN: usize = 8192;

/// Writes all bytes. A writer that was interrupted is asked again; one that failed has taken a
/// front of them, and not all.
fn write_bytes<W: Write>(bytes: &[u8], to: &mut W) -> io::Result<()>
    ensures ok { OnOk result (Appends (W.contents to.old) (W.contents to.new) bytes.now) }
    ensures err { OnErr result (TakesFront (W.contents to.old) (W.contents to.new) bytes.now) }
    ensures bytes { AreBytes bytes.now }
{
    let mut rest = bytes;
    'writes: for _ in 0..u64::MAX {
        if rest.is_empty() {
            return Ok(());
        }
        match to.write(rest) {
            Ok(0) => return Err(io::Error::from(ErrorKind::WriteZero)),
            Ok(count) => rest = &rest[count..],
            Err(error) => {
                if error.kind() != ErrorKind::Interrupted {
                    return Err(error);
                }
            }
        }
    }
    // The last of the writes may have taken the last bytes.
    if rest.is_empty() {
        Ok(())
    } else {
        Err(io::Error::from(ErrorKind::Interrupted))
    }
}

/// Writes what was buffered, and empties the buffer.
///
/// # Errors
/// Those of the writer, which has then taken a front of it, and not all.
pub fn flush<W: Write>(buffer: &mut Vec<u8>, to: &mut W) -> io::Result<()>
    ensures ok { OnOk result (Appends (W.contents to.old) (W.contents to.new) buffer.old.items) }
    ensures err { OnErr result (TakesFront (W.contents to.old) (W.contents to.new) buffer.old.items) }
    ensures bytes { AreBytes buffer.old.items }
    ensures emptied { buffer.new.items ≡ [] }
{
    let written = write_bytes(buffer, to);
    buffer.clear();
    written
}

/// Flushes a full buffer behind a set that was appended. Where the set was refused, what it began
/// behind, from `start` on, is written, and the refusal handed on with the set's number.
///
/// # Errors
/// `Refused` with the set's refusal, `Io` where the writer failed.
pub fn flush_set<W: Write>(
    put: Result<(), Refusal>,
    set: usize,
    start: usize,
    buffer: &mut Vec<u8>,
    to: &mut W,
) -> Result<(), SendToError>
    ensures ok { OnOk result (Flushes (W.contents to.old) (W.contents to.new) buffer.old.items buffer.new.items) }
    ensures put { OnOk result (put ≡ Ok tt) }
    ensures err { IfErr result (StopsAt (W.contents to.old) (W.contents to.new) put set start buffer.old.items) }
{
    match put {
        Ok(()) => {
            if buffer.len() >= BUFFER_LEN {
                flush(buffer, to)?;
            }
            Ok(())
        }
        Err(refusal) => {
            buffer.truncate(start);
            flush(buffer, to)?;
            Err(SendToError::Refused(refusal, set))
        }
    }
}
