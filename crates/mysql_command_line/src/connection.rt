//! The command `connection`: a transcript of a connection, printed as it comes.

use crate::program::Status;
use crate::reading::{TakesPieces, follow_input};
use crate::stop::Stop;
use crate::transcript::Transcript;
use mysql_connection_lines::{Form, print_end};
use mysql_connection_machine::End;
use mysql_connection_rules::Limits;
use std::alloc::Global;
use std::io::{BufWriter, Read, Write};

/// How many bytes wait to be written together.
const WAITING_LEN: usize = 65536;

/// The length of a packet's longest chunk, and of its header.
const CHUNK_LEN: usize = 16777215;

const HEADER_LEN: usize = 4;

/// What the longest payload takes with the headers of its chunks.
fn framed(limit: usize) -> usize {
    let chunks = (limit / CHUNK_LEN).saturating_add(1);
    limit.saturating_add(chunks.saturating_mul(HEADER_LEN))
}

/// The limits of a connection whose payloads are no longer than this. Beside the unread bytes of
/// both sides as much is kept as four such payloads.
fn limits_of(limit: usize) -> Limits {
    let unread = framed(limit).saturating_mul(2);
    Limits {
        client: limit,
        server: limit,
        held: limit.saturating_mul(4).saturating_add(unread),
    }
}

/// A transcript, and where its lines go.
#[derive(Drop)]
struct Printing<'a, W> {
    alloc: Global,
    transcript: Transcript,
    output: &'a mut W,
}

/// Writes what waits, and gives the answer; where something couldn't be written nothing more is.
fn written<T: Drop, W: Write>(
    waiting: BufWriter<&mut W>,
    answer: Result<T, Stop>,
) -> Result<T, Stop> {
    let mut waiting = waiting;
    let has_failed = matches!(&answer, Err(Stop::Writing));
    if !has_failed && waiting.flush().is_ok() {
        return answer;
    }
    let _unwritten = waiting.into_parts();
    Err(Stop::Writing)
}

impl<W: Write> TakesPieces for Printing<'_, W> {
    // Behind a fault or an end no more is wanted.
    fn take_piece(&mut self, piece: &[u8]) -> Result<bool, Stop> {
        let Ok(mut waiting) = BufWriter::with_capacity(self.alloc, WAITING_LEN, &mut *self.output)
        else {
            return Err(Stop::Memory);
        };
        let taken = self.transcript.take_piece(&mut waiting, piece);
        written(waiting, taken)
    }
}

/// Prints the end of a transcript, and answers whether its connection was read to its end.
fn answer_end<W: Write>(output: &mut W, transcript: &mut Transcript) -> Result<Status, Stop> {
    let end = transcript.end(output)?;
    print_end(output, end)?;
    match end {
        End::Whole | End::Over(_) => Ok(Status::Done),
        _ => Ok(Status::Refused),
    }
}

/// Prints what the transcript on the input says, each event in this form as soon as it can be said.
pub(crate) fn connection<R: Read, W: Write>(
    alloc: Global,
    limit: usize,
    form: Form,
    input: &mut R,
    output: &mut W,
) -> Result<Status, Stop> {
    let mut printing = Printing {
        alloc,
        transcript: Transcript::new(alloc, limits_of(limit), form),
        output,
    };
    follow_input(alloc, input, &mut printing)?;
    let Printing {
        alloc: _,
        mut transcript,
        output,
    } = printing;
    let Ok(mut waiting) = BufWriter::with_capacity(alloc, WAITING_LEN, output) else {
        return Err(Stop::Memory);
    };
    let answer = answer_end(&mut waiting, &mut transcript);
    written(waiting, answer)
}
