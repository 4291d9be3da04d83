//! The program, as one function over its words, its input and its output.

use crate::commands::{answer_audit, audit, audit_of, encode, recode};
use crate::connection::connection;
use crate::following::follow;
use crate::help::{HELP, VERSION};
use crate::lines::{print_digits, print_line, print_stream};
use crate::stop::{Answer, Stop};
use crate::words::{Task, task_of};
use mysql_connection_lines::{Form, Texts};
use mysql_session::{Audit, Params, Receiver, Road, Value, send};
use std::alloc::Global;
use std::collections::HashMap;
use std::io::{Read, Write};

/// How a run of the program ends, by its exit status: 0, 1 or 2.
#[derive(Clone, Copy, Debug, PartialEq, Eq)]
pub enum Status {
    /// The run did what it was asked for, and the stream that it read is whole.
    Done,
    /// A refusal, or a stream that isn't whole.
    Refused,
    /// The words or the input are none that the program knows, or its output could not be written.
    Failed,
}

/// The query of the worked run, the id of its statement and the limit of its packets.
const QUERY: &[u8] = b"SELECT :a";

const STATEMENT: u32 = 1;

const LIMIT: usize = 1000;

/// The set that gives `a` the number 1.
fn worked_set(alloc: Global) -> Result<Params, Stop> {
    let name = Vec::from_slice(alloc, b"a")?;
    let mut values = HashMap::new(alloc);
    let _ = values.insert(name, Value::Int(1))?;
    Ok(Params::Named(values))
}

/// The stream that carries the worked set.
fn worked_stream(alloc: Global) -> Result<Vec<u8>, Stop> {
    let mut sets = Vec::new(alloc);
    sets.push(worked_set(alloc)?)?;
    let mut stream = Vec::new(alloc);
    send(
        alloc,
        QUERY,
        &sets,
        Road::Text,
        STATEMENT,
        LIMIT,
        &mut stream,
    )?;
    Ok(stream)
}

/// The audit of a stream that comes byte by byte.
fn audit_by_bytes(alloc: Global, stream: &[u8]) -> Result<Audit, Stop> {
    let mut receiver = Receiver::new(alloc, QUERY, STATEMENT, LIMIT)?;
    for byte in stream {
        let _answer = receiver.feed(&[*byte]);
    }
    audit_of(receiver)
}

/// Sends the worked set, prints the stream, reads it back byte by byte and prints the audit.
fn worked_run<W: Write>(alloc: Global, output: &mut W) -> Result<Status, Stop> {
    let stream = worked_stream(alloc)?;
    print_digits(output, &stream)?;
    let audit = audit_by_bytes(alloc, &stream)?;
    answer_audit(alloc, output, &audit)
}

/// Prints what the program knows.
fn help<W: Write>(output: &mut W) -> Result<Status, Stop> {
    print_stream(output, HELP.as_bytes())?;
    Ok(Status::Done)
}

/// Prints the version.
fn version<W: Write>(output: &mut W) -> Result<Status, Stop> {
    print_stream(output, VERSION.as_bytes())?;
    Ok(Status::Done)
}

/// Does what the words ask for; texts are printed so where they don't say how.
fn run_words<R: Read, W: Write>(
    alloc: Global,
    words: &[String],
    usual: Texts,
    input: &mut R,
    output: &mut W,
) -> Result<Status, Stop> {
    match task_of(words)? {
        Task::WorkedRun => worked_run(alloc, output),
        Task::Encode(road, statement) => encode(alloc, road, statement, input, output),
        Task::Audit(statement) => audit(alloc, statement, input, output),
        Task::Follow(statement) => follow(alloc, statement, input, output),
        Task::Recode(statement) => recode(alloc, statement, input, output),
        Task::Connection(limit, secrets, texts) => {
            let form = Form::Short(secrets, texts.unwrap_or(usual), alloc);
            connection(alloc, limit, form, input, output)
        }
        Task::Help => help(output),
        Task::Version => version(output),
    }
}

/// Prints the line of a stop, and answers the status.
fn answer_stop<W: Write>(output: &mut W, stop: &Stop) -> Status {
    let (status, printed) = match stop.answer() {
        Answer::Line(line) => (Status::Failed, print_line(output, line, "")),
        Answer::Refused(name) => (Status::Refused, print_line(output, "refused: ", name)),
        Answer::Nothing => return Status::Failed,
    };
    match printed {
        Ok(()) => status,
        Err(_) => Status::Failed,
    }
}

/// Runs the program over its words, its input and its output, and answers its exit status.
///
/// Without words it sends the query `SELECT :a` with a = 1 by text, and prints the stream in
/// hexadecimal. It then reads it back byte by byte and prints the audit: a line for each set and
/// one for the end.
///
/// - `encode ROAD ID LIMIT QUERY` reads a list of parameter sets in JSON and prints the commands
///   that carry them by `text`, `execute` or `bulk`.
/// - `audit ID LIMIT QUERY` reads a stream of commands and prints its audit.
/// - `follow ID LIMIT QUERY` prints the same lines, those of sets as soon as they can be said, and
///   reads no further than to a fault.
/// - `recode ID LIMIT QUERY` reads a stream of commands and prints the executions that carry the same sets.
/// - `connection LIMIT` reads a transcript of a connection and prints a line for each payload, as
///   soon as it can be said. It reads no further than to a fault or an end. Of an authentication's
///   data it prints the length, but behind `--secrets`, which is before the limit. Behind it may be
///   `--text` or `--hex`: bytes that are a text are printed in quotes, or all in hexadecimal. Without
///   them it is as `usual` says, which is what suits the output.
/// - `help`, `--help` and `-h` print these words in fourteen lines, and read nothing. `--version`
///   prints the version.
///
/// Behind a command `--mode NAMES` may follow, with `no-backslash-escapes` and `ansi-quotes`
/// between commas: the modes of the server that reads the commands. `--hex` may follow: texts have
/// byte strings in hexadecimal.
///
/// Other words print `usage`, and a limit that is no whole number from 4 to `usize::MAX` prints
/// `bad limit`, before anything is read. Input that can't be read, or not by 1000000 reads, prints
/// `bad input`, then a text that is no list of sets `bad json`. A refusal comes after these: it
/// prints `refused:` and its name. `follow` refuses the query before it reads. It and `connection`
/// have no greatest number of reads, and print `bad input` behind the lines of what came.
/// `connection` so prints `bad transcript` where a record is none, or is cut off. After a write
/// that fails nothing more is written.
pub fn run<R: Read, W: Write>(
    alloc: Global,
    words: &[String],
    usual: Texts,
    input: &mut R,
    output: &mut W,
) -> Status {
    match run_words(alloc, words, usual, input, output) {
        Ok(status) => status,
        Err(stop) => answer_stop(output, &stop),
    }
}

/// Answers for words that are no texts: prints `usage`.
pub fn refuse_words<W: Write>(output: &mut W) -> Status {
    answer_stop(output, &Stop::Usage)
}

/// Answers for words that memory is too short for: prints `refused: Memory`.
pub(crate) fn refuse_memory<W: Write>(output: &mut W) -> Status {
    answer_stop(output, &Stop::Memory)
}
