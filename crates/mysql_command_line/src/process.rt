//! The program over a process: its words, its standard input and its standard output.

use crate::program::{Status, refuse_memory, refuse_words, run};
use mysql_connection_lines::Texts;
use std::alloc::Global;
use std::env::Env;
use std::io::{Input, Print};
use std::process::ExitCode;
use std::{env, io};

/// The words behind the program's name.
fn read_words<R: Env + Alloc<A = Global>>(rt: &R) -> io::Result<Vec<String>> {
    let mut words = Vec::new(rt.alloc());
    for word in env::args(rt)?.skip(1) {
        words.push(word)?;
    }
    Ok(words)
}

/// Runs the program over a process, and answers its exit status.
///
/// It is [`run`] over the process's words, its standard input and its standard output. Words that
/// are no texts print `usage`, and where there is no memory for them `refused: Memory`. On a terminal
/// texts are in quotes.
pub fn run_process<R: Env + Alloc<A = Global> + Input + Print>(
    rt: &R,
    is_terminal: bool,
) -> ExitCode {
    let usual = if is_terminal {
        Texts::Quoted
    } else {
        Texts::Hexadecimal
    };
    let mut output = io::writer(rt);
    let status = match read_words(rt) {
        Ok(words) => run(rt.alloc(), &words, usual, &mut rt.reader(), &mut output),
        Err(error) if error.kind() == io::ErrorKind::OutOfMemory => refuse_memory(&mut output),
        Err(_) => refuse_words(&mut output),
    };
    match status {
        Status::Done => ExitCode::SUCCESS,
        Status::Refused => ExitCode::from(1),
        Status::Failed => ExitCode::from(2),
    }
}
