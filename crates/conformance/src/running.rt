//! Files of rows, line by line.

use crate::rows::run_row;
use std::alloc::Global;
use std::env::Env;
use std::io::Print;
use std::process::ExitCode;
use std::rt::Files;
use std::{env, fs, io};
use tests_support::rows::{Names, Token, Trouble, tokens_of};

/// Runs the row of these tokens.
fn run_tokens(alloc: Global, tokens: &[Token<'_>], words: &mut String) -> Result<(), Trouble> {
    let mut fields = Vec::new(alloc);
    for field in tokens.split(|token| matches!(token, Token::Word("|"))) {
        fields.push(field)?;
    }
    run_row(alloc, &fields, words)
}

/// Runs a line: whether it is a row. A line `NAME = ..` gives a name to tokens; an empty one and
/// one that begins with `#` say nothing.
fn run_line<'a>(
    alloc: Global,
    line: &'a str,
    names: &mut Names<'a>,
    words: &mut String,
) -> Result<bool, Trouble> {
    words.clear();
    let tokens = tokens_of(alloc, line, names)?;
    match tokens.as_slice() {
        [] => Ok(false),
        [Token::Word(word), ..] if word.starts_with('#') => Ok(false),
        [Token::Word(name), Token::Word("="), meaning @ ..] => {
            names.push((*name, Vec::from_slice(alloc, meaning)?))?;
            Ok(false)
        }
        tokens => match run_tokens(alloc, tokens, words) {
            Ok(()) => Ok(true),
            Err(trouble) => Err(trouble),
        },
    }
}

/// How many rows passed, and how many failed.
type Tally = (u64, u64);

/// Runs the lines of a text, each once more where memory was refused, and prints those that fail.
fn run_lines<R: AllocGlobal + Print>(rt: &R, name: &str, text: &str) -> io::Result<Tally> {
    let (mut names, mut words) = (Vec::new(rt.alloc()), String::new(rt.alloc()));
    let (mut passed, mut failed) = (0u64, 0u64);
    for (place, line) in text.lines().enumerate() {
        let mut ran = run_line(rt.alloc(), line, &mut names, &mut words);
        if matches!(ran, Err(Trouble::Memory)) {
            ran = run_line(rt.alloc(), line, &mut names, &mut words);
        }
        match ran {
            Ok(is_row) => passed = passed.saturating_add(u64::from(is_row)),
            Err(trouble) => {
                failed = failed.saturating_add(1);
                println!(rt;
                    "{name}, line {}: {trouble}{words}",
                    place.saturating_add(1)
                )?;
            }
        }
    }
    Ok((passed, failed))
}

/// Runs the rows of a file, and prints those that fail and how many there are.
fn run_file<R: Files + AllocGlobal + Print>(rt: &R, name: &str) -> io::Result<Tally> {
    let text = fs::read_to_string(rt, name)?;
    let (passed, failed) = run_lines(rt, name, &text)?;
    println!(rt; "{name}: {} rows", passed.saturating_add(failed))?;
    Ok((passed, failed))
}

/// Runs the rows of the files that the process's words name.
///
/// It prints those that fail, and how many there are; the status is 0 where none failed.
pub fn run_files<R: Env + Files + AllocGlobal + Print>(rt: &R) -> io::Result<ExitCode> {
    let (mut passed, mut failed) = (0u64, 0u64);
    for name in env::args(rt)?.skip(1) {
        let (passes, failures) = run_file(rt, name.as_str())?;
        passed = passed.saturating_add(passes);
        failed = failed.saturating_add(failures);
    }
    println!(rt; "{passed} passed, {failed} failed")?;
    Ok(if failed == 0 {
        ExitCode::SUCCESS
    } else {
        ExitCode::from(1)
    })
}
