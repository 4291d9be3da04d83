//! Laws of replies and of what a reader holds. Each function is its law alone.

ghost use Rattle.mysql_replies.specs.Beginnings.{EachAnswerHasWhatStands};
ghost use Rattle.mysql_replies.specs.Reply.{PayloadsGoOn};
ghost use Rattle.mysql_replies.specs.Bytes.{AnyBytesHaveAnswer, CuttingsAgree};
ghost use Rattle.mysql_replies.specs.Holding.{EachReaderDecides, ReadersAgree, FreshReaderDecides};
ghost use Rattle.mysql_replies.specs.Borrowing.{BorrowedRowsAreHandedOut};
ghost use Rattle.mysql_replies.specs.Taking.{TakenResultsAreTheReply};
ghost use Rattle.mysql_replies.specs.Manual.{EachSuchListIsWhole, OnlySuchListsAreWhole, EachFramingIsWhole};
ghost use Rattle.mysql_replies.specs.Manual.{OnlyFramingsAreWhole};

use mysql_wire::laws::{one_split, reader_laws};

/// Behind some payloads that is decided which was decided before over these and those to come.
pub fn payloads_go_on()
    ensures { PayloadsGoOn }
{}

/// Any bytes have an answer, and it doesn't depend on how they were cut into pieces.
pub fn bytes_have_one_answer()
    ensures some { AnyBytesHaveAnswer }
    ensures cuttings { CuttingsAgree }
{
    one_split();
}

/// Whatever a reader holds decides one answer over the bytes still to come.
///
/// A fresh reader decides the reply's.
pub fn each_reader_decides()
    ensures some { EachReaderDecides }
    ensures only { ReadersAgree }
    ensures fresh { FreshReaderDecides }
{
    one_split();
}

/// Over any feeds and takes, what was handed out and what is left at the end are the reply.
///
/// They are, joined, that of all the bytes; where memory ran out, that of the first payloads.
pub fn taken_results_are_the_reply()
    ensures { TakenResultsAreTheReply }
{}

/// A row that was borrowed where nothing else is listed is as one that was handed out.
///
/// So it is over any feeds, takes and rows that were borrowed so. These rows, the results that were
/// handed out and those at the end are, joined, the reply.
pub fn lent_rows_are_handed_out()
    ensures { BorrowedRowsAreHandedOut }
{}

/// A list of payloads that the manual has as a whole reply has a whole answer.
///
/// That is: results one after another, and before any of their payloads progress reports. The
/// answer's results and reports are those. Of a query, an execution or a prepare whose columns
/// always follow no other list has one.
pub fn whole_replies_are_results()
    ensures some { EachSuchListIsWhole }
    ensures only { OnlySuchListsAreWhole }
{}

/// The framings of a whole reply have an answer that ends whole.
///
/// Of a query, an execution or a prepare whose columns always follow no other bytes have one.
pub fn whole_bytes_are_framed_results()
    ensures some { EachFramingIsWhole }
    ensures only { OnlyFramingsAreWhole }
{
    reader_laws();
    whole_replies_are_results();
}

/// The answer to any payloads has each result and each row that is whole in them.
///
/// These are the results, where each but the last says that another follows. Behind them stand the
/// rows whose columns are whole, as far as they came. Progress reports may stand among the
/// payloads.
pub fn answers_have_what_stands()
    ensures { EachAnswerHasWhatStands }
{}
