//! The program for a shell. `mysql_command_line::run` is what it does; docs/PROGRAM.md has its
//! words and what it prints.
#![tactic(auto)]

use mysql_command_line::run_process;
use std::io::IsTerminal;
use std::process::ExitCode;

fn main(rt: HostRuntime) -> ExitCode {
    let is_terminal = rt.stdout().is_terminal();
    run_process(&rt, is_terminal)
}
