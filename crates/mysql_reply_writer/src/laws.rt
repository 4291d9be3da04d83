//! Laws of writing. Each function is its law alone.

ghost use Rattle.mysql_reply_writer.specs.Laws.{WholeWritingsAreReplies, WritingsGoOn};

use crate::reply_laws::written_replies_are_whole;

/// What a writer wrote call by call it wrote at once: the framings of all payloads, numbered on.
pub fn writings_go_on()
    ensures { WritingsGoOn }
{}

/// A writer that wrote the steps of some results, and may end there, has appended that reply.
///
/// Reading answers the results and the progress reports as they are read, and `Whole`.
pub fn whole_writings_are_replies()
    ensures { WholeWritingsAreReplies }
{
    written_replies_are_whole();
}
