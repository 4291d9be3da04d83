//! What is printed, line by line.

use crate::stop::Stop;
use mysql_connection_lines::write_hexadecimal;
use mysql_session::{Audit, Content, End};
use std::alloc::Global;
use std::io;
use std::io::{BufWriter, Write};

/// How many bytes wait to be written together.
const WAITING_LEN: usize = 65536;

/// Writes a content: `null`, a number, or `x` and bytes in hexadecimal.
fn write_content<W: Write>(output: &mut W, content: &Content) -> io::Result<()> {
    match content {
        Content::Null => output.write_all(b" null"),
        Content::Number(number) => write!(output, " {number}"),
        Content::Bytes(bytes) => {
            output.write_all(b" ")?;
            write_hexadecimal(output, bytes.as_slice())
        }
    }
}

/// Writes the contents of a set, up to the line's end.
fn write_set<W: Write>(output: &mut W, set: &[Content]) -> io::Result<()> {
    for content in set {
        write_content(output, content)?;
    }
    output.write_all(b"\n")
}

/// Writes how a stream ends, as a line.
fn write_end<W: Write>(output: &mut W, end: End) -> io::Result<()> {
    match end {
        End::Fault(packet, fault) => writeln!(output, "end: fault {packet} {fault:?}"),
        End::WaitingPieces => writeln!(output, "end: waiting pieces"),
        End::UnfinishedPacket => writeln!(output, "end: unfinished packet"),
        End::Whole => writeln!(output, "end: whole"),
    }
}

/// Writes a line for each set, numbered on from the first.
fn write_sets<W: Write>(output: &mut W, first: u64, sets: &[Vec<Content>]) -> io::Result<()> {
    let mut number = first;
    for set in sets {
        write!(output, "set {number}:")?;
        write_set(output, set)?;
        number = number.saturating_add(1);
    }
    Ok(())
}

/// Writes a line for each set, numbered on from the first, and one for the end where there is one.
fn write_lines<W: Write>(
    output: &mut W,
    first: u64,
    sets: &[Vec<Content>],
    end: Option<End>,
) -> io::Result<()> {
    write_sets(output, first, sets)?;
    if let Some(end) = end {
        write_end(output, end)?;
    }
    output.flush()
}

/// Prints these lines. After a line that could not be written nothing more is written.
fn print_lines<W: Write>(
    alloc: Global,
    output: &mut W,
    first: u64,
    sets: &[Vec<Content>],
    end: Option<End>,
) -> Result<(), Stop> {
    let Ok(mut waiting) = BufWriter::with_capacity(alloc, WAITING_LEN, output) else {
        return Err(Stop::Memory);
    };
    if write_lines(&mut waiting, first, sets, end).is_ok() {
        return Ok(());
    }
    let _unwritten = waiting.into_parts();
    Err(Stop::Writing)
}

/// Prints an audit: a line for each set, and one for the end.
pub(crate) fn print_audit<W: Write>(
    alloc: Global,
    output: &mut W,
    audit: &Audit,
) -> Result<(), Stop> {
    print_lines(alloc, output, 0, &audit.sets, Some(audit.end))
}

/// Prints a line for each set, numbered on from the first. Without sets nothing is written.
pub(crate) fn print_sets<W: Write>(
    alloc: Global,
    output: &mut W,
    first: u64,
    sets: &[Vec<Content>],
) -> Result<(), Stop> {
    if sets.is_empty() {
        return Ok(());
    }
    print_lines(alloc, output, first, sets, None)
}

/// Prints a stream as it is.
pub(crate) fn print_stream<W: Write>(output: &mut W, stream: &[u8]) -> Result<(), Stop> {
    if output.write_all(stream).is_err() || output.flush().is_err() {
        return Err(Stop::Writing);
    }
    Ok(())
}

/// Prints a line that begins so and ends so.
pub(crate) fn print_line<W: Write>(output: &mut W, start: &str, rest: &str) -> Result<(), Stop> {
    if writeln!(output, "{start}{rest}").is_err() || output.flush().is_err() {
        return Err(Stop::Writing);
    }
    Ok(())
}

/// Writes a byte's digits, behind a space but at the beginning.
fn write_digits<W: Write>(output: &mut W, stream: &[u8]) -> io::Result<()> {
    for (place, byte) in stream.iter().enumerate() {
        let space = if place > 0 { " " } else { "" };
        write!(output, "{space}{byte:02x}")?;
    }
    writeln!(output)
}

/// Prints a short stream in hexadecimal, as a line.
pub(crate) fn print_digits<W: Write>(output: &mut W, stream: &[u8]) -> Result<(), Stop> {
    if write_digits(output, stream).is_err() {
        return Err(Stop::Writing);
    }
    Ok(())
}
