//! Rows of data, each an input beside what it has to give, run through those public calls that the
//! library for C has none for. The head of each file in `data` says how its rows are written.
#![tactic(auto)]

mod calls;
mod lending;
mod received;
mod replies;
mod rows;
mod running;
mod sets;
mod tokens;
mod writing;

use std::io;
use std::process::ExitCode;

fn main(rt: HostRuntime) -> io::Result<ExitCode> {
    running::run_files(&rt)
}
