//! The state of a connection, as a line.

use mysql_connection_machine::{ConnectionFault, End, side_name};
use mysql_connection_rules::Fault;
use std::io;
use std::io::Write;

/// Writes whose payload is at fault, the byte of that side's stream by which it begins, and why.
/// The number that a packet out of its order has is left out.
fn write_failure<W: Write>(output: &mut W, word: &str, failure: ConnectionFault) -> io::Result<()> {
    let side = side_name(failure.side);
    write!(output, "{word} {side} {} ", failure.byte)?;
    match failure.fault {
        Fault::OutOfSync(_) => output.write_all(b"OutOfSync"),
        fault => write!(output, "{fault:?}"),
    }
}

/// Writes the state of a connection, as a line without its end.
///
/// # Errors
/// - Those of the output.
pub fn write_end<W: Write>(output: &mut W, end: End) -> io::Result<()> {
    match end {
        End::Over(reason) => write!(output, "end Over {reason:?}"),
        End::Whole => output.write_all(b"end Whole"),
        End::Unfinished(side) => write!(output, "end Unfinished {}", side_name(side)),
        End::Fault(failure) => write_failure(output, "end Fault", failure),
        End::Unread => output.write_all(b"end Unread"),
    }
}

/// Prints the state of a connection as a line for people.
///
/// # Errors
/// - Those of the output.
pub fn print_end<W: Write>(output: &mut W, end: End) -> io::Result<()> {
    match end {
        End::Over(reason) => write!(output, "end: over {reason:?}")?,
        End::Whole => output.write_all(b"end: whole")?,
        End::Unfinished(side) => write!(output, "end: unfinished {}", side_name(side))?,
        End::Fault(failure) => write_failure(output, "end: fault", failure)?,
        End::Unread => output.write_all(b"end: unread")?,
    }
    output.write_all(b"\n")
}
