//! Whole replies.

ghost use Rattle.mysql_witnesses.specs.Replies.{BorrowedRowsAreCounted, BorrowedRowsAreNotKept};
ghost use Rattle.mysql_witnesses.specs.Replies.{CursorsEndRows, FilesAreAskedFor, MariadbsBitIsKept};
ghost use Rattle.mysql_witnesses.specs.Replies.{NothingFollowsTheEnd, OnlyWhatIsReadIsCounted};
ghost use Rattle.mysql_witnesses.specs.Replies.{RepliesBeginBehindCommands, TakesLeaveTheColumns};

/// A reply begins with the number behind its command's packets.
pub fn replies_begin_behind_commands()
    ensures { RepliesBeginBehindCommands }
{}

/// Bytes behind the end of a reply are a fault.
pub fn nothing_follows_the_end()
    ensures { NothingFollowsTheEnd }
{}

/// What is read is counted, and nothing else.
#[tactic(auto, using(crate::proofs::AboutReplies::borrowed_rows_are_counted))]
pub fn what_is_read_is_counted()
    ensures alone { OnlyWhatIsReadIsCounted }
    ensures rows { BorrowedRowsAreCounted }
{}

/// A row that is borrowed isn't kept.
#[tactic(auto, using(crate::proofs::AboutReplies::borrowed_rows_are_not_kept))]
pub fn borrowed_rows_are_not_kept()
    ensures { BorrowedRowsAreNotKept }
{}

/// Rows that are taken in parts have their columns in each.
pub fn takes_leave_the_columns()
    ensures { TakesLeaveTheColumns }
{}

/// A request for a file is one result.
pub fn files_are_asked_for()
    ensures { FilesAreAskedFor }
{}

/// MariaDB's bit of ANSI_QUOTES is kept in a whole reply.
pub fn mariadbs_bit_is_kept()
    ensures { MariadbsBitIsKept }
{}

/// A cursor ends the rows of an execution.
pub fn cursors_end_rows()
    ensures { CursorsEndRows }
{}
