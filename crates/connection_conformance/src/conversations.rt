//! Conversations, which are rows of payloads, each with the event that it is. The head of each file
//! says how they are written. Each is read in all ways in which a recording is, which have to give
//! the same; `bindings/test` compares what they give with the rows.

use crate::orders::Order;
use crate::recordings::{FEW, failure_of};
use crate::talks::Talk;
use crate::tallies::{NOTHING, Tally};
use crate::troubles::{Failure, Part as Reading, Trouble};
use mysql_connection_rules::Side;
use std::alloc::Global;
use std::io::Print;
use std::rt::Files;
use std::{fs, io};
use tests_support::rows::{Names, tokens_of};

/// Streams above this aren't read here.
const LONG: usize = 100_000;

/// What is between two titles of a file.
#[derive(Clone, Copy)]
struct Part<'a> {
    file: &'a str,
    /// The line of the title, from 1 on.
    line: usize,
    text: &'a str,
    /// Whether it is what comes before the first title: comments, and names for bytes.
    is_head: bool,
}

/// Takes a line: a comment, a name for bytes, or a row.
fn take_line<'a>(
    alloc: Global,
    line: &'a str,
    names: &mut Names<'a>,
    talk: &mut Talk,
) -> Result<(), Trouble> {
    let mut words = line.split_whitespace();
    let name = words.next().unwrap_or("#");
    if name.starts_with('#') {
        return Ok(());
    }
    if words.next() == Some("=") {
        let meaning = line.split_once('=').map_or("", |(_, meaning)| meaning);
        let tokens = tokens_of(alloc, meaning, names)?;
        return match names.push((name, tokens)) {
            Ok(()) => Ok(()),
            Err(_) => Err(Trouble::Memory),
        };
    }
    talk.take(alloc, names, line)
}

/// Takes the lines behind a title.
fn take_lines<'a>(
    alloc: Global,
    part: Part<'a>,
    names: &mut Names<'a>,
    talk: &mut Talk,
) -> Result<(), Failure> {
    for line in part.text.lines().skip(1) {
        talk.line = talk.line.saturating_add(1);
        if let Err(trouble) = take_line(alloc, line, names, talk) {
            return Err(failure_of(Reading::Rows, Order::First(Side::Client), trouble));
        }
    }
    Ok(())
}

/// Reads a conversation in all ways, where what comes doesn't depend on which bytes come first.
fn read_talk<'a>(
    alloc: Global,
    part: Part<'a>,
    names: &mut Names<'a>,
    talk: &mut Talk,
    tally: &mut Tally,
) -> Result<(), Failure> {
    take_lines(alloc, part, names, talk)?;
    if part.is_head || talk.depends_on_order || talk.told.len() > LONG {
        return Ok(());
    }
    talk.told.collect(alloc)?;
    talk.told.check_once(alloc, FEW, tally)
}

/// Reads a conversation in all ways, once more where memory was refused: whether each gave the same.
/// Prints why it doesn't.
fn check_talk<'a, R: AllocGlobal + Print>(
    rt: &R,
    part: Part<'a>,
    names: &mut Names<'a>,
    tally: &mut Tally,
) -> io::Result<bool> {
    let (alloc, mut own) = (rt.alloc(), NOTHING);
    let mut talk = Talk::new(alloc);
    let mut read = read_talk(alloc, part, names, &mut talk, &mut own);
    if matches!(read, Err(failure) if matches!(failure.trouble, Trouble::Memory)) {
        own = NOTHING;
        talk = Talk::new(alloc);
        read = read_talk(alloc, part, names, &mut talk, &mut own);
    }
    tally.add(own);
    let line = part.line.saturating_add(talk.line);
    let Err(failure) = read else {
        return Ok(true);
    };
    let title = part.text.lines().next().unwrap_or("");
    println!(rt; "{}, line {line}, {title}: {failure}", part.file)?;
    Ok(false)
}

/// Reads the conversations of a file: how many there are, and of how many each reading gave the same.
fn check_talks<R: AllocGlobal + Print>(
    rt: &R,
    file: &str,
    text: &str,
    tally: &mut Tally,
) -> io::Result<(u64, u64)> {
    let mut names = Vec::new(rt.alloc());
    let (mut count, mut passed) = (0u64, 0u64);
    let mut line = 1usize;
    for text in text.split("\nconversation ") {
        let is_head = line == 1;
        let part = Part {
            file,
            line,
            text,
            is_head,
        };
        if check_talk(rt, part, &mut names, tally)? {
            passed = passed.saturating_add(1);
        }
        count = count.saturating_add(1);
        line = line.saturating_add(text.split('\n').count());
    }
    Ok((count, passed))
}

/// Reads the conversations of a file and prints how much was read: whether all readings gave the same.
pub fn check<R: Files + AllocGlobal + Print>(
    rt: &R,
    name: &str,
    all: &mut Tally,
) -> io::Result<bool> {
    let text = fs::read_to_string(rt, name)?;
    let mut tally = NOTHING;
    let (count, passed) = check_talks(rt, name, &text, &mut tally)?;
    all.add(tally);
    println!(rt;
        "{name}: {} conversations, {tally}",
        count.saturating_sub(1)
    )?;
    Ok(passed == count)
}
