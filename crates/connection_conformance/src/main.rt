//! Recorded connections, read whole, in pieces, cut, with bytes changed and with rows that are lent.
//!
//! Each argument names a recording. NAME.client and NAME.server are the bytes of both sides.
//! NAME.events has a line for each payload, in the order of turns, and one for the end. However the
//! bytes arrive, these lines have to come, each as soon as its bytes are there. Or it is
//! NAME.conversations, a file of conversations written by hand.
#![tactic(auto)]

mod calls;
mod conversations;
mod numbers;
mod orders;
mod readings;
mod recordings;
mod speaking;
mod streams;
mod talks;
mod tallies;
mod troubles;

use crate::recordings::{MANY, Recording};
use crate::tallies::{NOTHING, Tally};
use crate::troubles::Failure;
use std::process::ExitCode;
use std::rt::Files;
use std::{env, io};

/// Reads a recording in all ways.
fn read<R: Files + AllocGlobal>(
    rt: &R,
    name: &str,
    tally: &mut Tally,
) -> io::Result<Result<(), Failure>> {
    let mut recording = Recording::read(rt, name)?;
    Ok(recording.check(rt.alloc(), MANY, tally))
}

/// Reads a recording in all ways, or conversations, and prints how much was read: whether all was as
/// it has to be.
fn check<R: Files + AllocGlobal + Print>(rt: &R, name: &str, all: &mut Tally) -> io::Result<bool> {
    if name.ends_with(".conversations") {
        return conversations::check(rt, name, all);
    }
    let mut tally = NOTHING;
    let read = read(rt, name, &mut tally)?;
    all.add(tally);
    match read {
        Ok(()) => println!(rt; "{name}: {tally}")?,
        Err(failure) => println!(rt; "{name}: {failure}")?,
    }
    Ok(read.is_ok())
}

fn main(rt: HostRuntime) -> io::Result<ExitCode> {
    let mut all = NOTHING;
    let (mut passed, mut failed) = (0u64, 0u64);
    for name in env::args(&rt)?.skip(1) {
        if check(&rt, name.as_str(), &mut all)? {
            passed = passed.saturating_add(1);
        } else {
            failed = failed.saturating_add(1);
        }
    }
    println!(rt; "all: {all}")?;
    println!(rt; "{passed} passed, {failed} failed")?;
    Ok(if failed == 0 {
        ExitCode::SUCCESS
    } else {
        ExitCode::from(1)
    })
}
