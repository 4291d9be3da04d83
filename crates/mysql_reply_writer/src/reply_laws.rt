//! Laws of replies as they are written. Each function is its law alone.

ghost use Rattle.mysql_reply_writer.specs.ReplyLaws.{WrittenRepliesAreFramed, WrittenRepliesAreWhole};
ghost use Rattle.mysql_reply_writer.specs.ReplyLaws.{WrittenRepliesReadBack};
ghost use Rattle.mysql_reply_writer.specs.Own.{EqualFormsWereReadEqually, ReadFormsAreWrittenAgain};
ghost use Rattle.mysql_reply_writer.specs.Own.{ReadRepliesCanBeWritten, ReadReportsAreTheirOwn, ReadResultsAreTheirOwn};

use mysql_ok_packets::laws::packets_are_their_own;
use mysql_replies::laws::{whole_bytes_are_framed_results, whole_replies_are_results};
use mysql_rows::laws::{
    binary_rows_begin, binary_rows_read_back, read_binary_rows_are_written,
    read_text_rows_are_written, text_rows_begin, text_rows_read_back,
};

/// The payloads of a reply against which nothing speaks are a whole reply as the manual has it.
///
/// It has what its results and its progress reports are read as; their framings are such a reply's.
/// None of MariaDB's own capabilities is in force, in these laws.
pub fn written_replies_are_whole()
    ensures whole { WrittenRepliesAreWhole }
    ensures framed { WrittenRepliesAreFramed }
{
    text_rows_read_back();
    binary_rows_read_back();
    text_rows_begin();
    binary_rows_begin();
}

/// The bytes of a reply against which nothing speaks have one answer.
///
/// It is what its results and its progress reports are read as, and `Whole`.
pub fn written_replies_read_back()
    ensures { WrittenRepliesReadBack }
{
    written_replies_are_whole();
    whole_bytes_are_framed_results();
}

/// What a whole reply was read as is what is read of it once it was written again.
///
/// Only the sign of an all-zero time in a binary row is lost: reading and writing gives one form.
/// Nothing but a payload's size speaks against writing it.
pub fn read_replies_are_their_own()
    ensures results { ReadResultsAreTheirOwn }
    ensures reports { ReadReportsAreTheirOwn }
    ensures written { ReadRepliesCanBeWritten }
{
    packets_are_their_own();
    read_text_rows_are_written();
    read_binary_rows_are_written();
}

/// What a whole reply was read as is written in one form.
///
/// What is read of that is written in the same payloads. Two whole replies that are written in the
/// same payloads, nothing speaking against either, were read equally. Only the sign of an all-zero
/// time in a binary row may differ.
pub fn read_replies_have_one_form()
    ensures again { ReadFormsAreWrittenAgain }
    ensures equal { EqualFormsWereReadEqually }
{
    read_replies_are_their_own();
    written_replies_are_whole();
    whole_replies_are_results();
}
