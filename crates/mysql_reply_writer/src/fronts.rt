//! Laws of fronts of whole replies. Each function is its law alone.

ghost use Rattle.mysql_reply_writer.specs.Fronts.{EachFramedFrontIsUnfinished, EachFramedReplyIsWhole};
ghost use Rattle.mysql_reply_writer.specs.Fronts.{EachFrontIsUnfinished, LongerFramedFrontsGoOn, LongerFrontsGoOn};

use mysql_replies::laws::{answers_have_what_stands, whole_replies_are_results};
use mysql_wire::laws::{fronts_split, reader_laws};

/// The first payloads of a whole reply, with at most a part of the next, read without a fault.
///
/// The answer is unfinished, and has the results and the rows that are in them, and their progress
/// reports. The answer to more of the payloads goes on from there.
///
/// Follows the MySQL Client/Server Protocol, "COM_QUERY Response" and "COM_STMT_PREPARE Response".
pub fn payload_fronts_are_unfinished()
    ensures unfinished { EachFrontIsUnfinished }
    ensures longer { LongerFrontsGoOn }
{
    answers_have_what_stands();
    whole_replies_are_results();
}

/// The framings of a whole reply, cut off at any byte, read without a fault.
///
/// The answer is unfinished, and has the results and the rows that are whole before the cut, and
/// the progress reports. The answer to more of the bytes goes on from there; where nothing is cut
/// off, it is whole.
///
/// Follows the MySQL Client/Server Protocol, "MySQL Packets", "COM_QUERY Response" and "COM_STMT_PREPARE Response".
pub fn byte_fronts_are_unfinished()
    ensures unfinished { EachFramedFrontIsUnfinished }
    ensures longer { LongerFramedFrontsGoOn }
    ensures whole { EachFramedReplyIsWhole }
{
    answers_have_what_stands();
    whole_replies_are_results();
    fronts_split();
    reader_laws();
}
