//! The program for a shell: parameter sets encoded, streams of commands audited and recoded,
//! connections read.
//!
//! `mysql_session_program` calls [`run_process`], and the tests call [`run`]. docs/PROGRAM.md has
//! the words and what is printed. [`run`] is all of the program but the process: words and input
//! in, output and a [`Status`] out.
//!
//!     let status = run(alloc, &words, Texts::Hexadecimal, &mut input, &mut output);
#![tactic(auto)]

mod commands;
mod connection;
mod following;
mod help;
mod json_sets;
mod lines;
mod position;
mod process;
mod program;
mod reading;
mod stop;
mod transcript;
mod words;

pub use mysql_connection_lines::Texts;
pub use process::run_process;
pub use program::{Status, refuse_words, run};
