//! The command `follow`: an audit that is printed as its stream comes.

use crate::commands::{answer_audit, audit_of};
use crate::lines::print_sets;
use crate::program::Status;
use crate::reading::{TakesPieces, follow_input};
use crate::stop::Stop;
use crate::words::Statement;
use mysql_session::Receiver;
use std::alloc::Global;
use std::io::{Read, Write};

/// A stream whose sets are printed as they come, and how many were.
#[derive(Drop)]
struct Following<'a, W> {
    alloc: Global,
    receiver: Receiver,
    printed: u64,
    output: &'a mut W,
}

impl<W: Write> TakesPieces for Following<'_, W> {
    // What is printed is held no longer; behind a fault no more is wanted.
    fn take_piece(&mut self, piece: &[u8]) -> Result<bool, Stop> {
        let is_good = self.receiver.feed(piece).is_ok();
        let sets = self.receiver.take_sets();
        print_sets(self.alloc, self.output, self.printed, &sets)?;
        self.printed = self.printed.saturating_add(sets.len() as u64);
        Ok(is_good)
    }
}

/// Prints what the stream on the input says, each set as soon as it can be said.
pub(crate) fn follow<R: Read, W: Write>(
    alloc: Global,
    statement: Statement<'_>,
    input: &mut R,
    output: &mut W,
) -> Result<Status, Stop> {
    let Statement {
        query,
        mode,
        spelling,
        id,
        limit,
    } = statement;
    let mut following = Following {
        alloc,
        receiver: Receiver::new_in(alloc, query, id, limit, mode, spelling)?,
        printed: 0,
        output,
    };
    follow_input(alloc, input, &mut following)?;
    let Following {
        alloc: _,
        receiver,
        printed: _,
        output,
    } = following;
    // The sets were taken, so that the end alone is left.
    answer_audit(alloc, output, &audit_of(receiver)?)
}
