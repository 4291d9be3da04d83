//! Laws of the definitions. Each function has an empty body, or calls the laws below: its contract is the law.

ghost use Rattle.mysql_receive.specs.Laws.{AuditGoesOn, CuttingsAgree, EachPayloadIsJudged, FeedingGoesOn};
ghost use Rattle.mysql_receive.specs.Laws.{FrontsReadOn, LastWordCounts, LookingBackGoesOn, PiecesAreTaken, PiecesGoOn};
ghost use Rattle.mysql_receive.specs.Laws.{StartDecidesTheAudit, StreamHasOneAudit, TakenSetsAreTheAudit};
ghost use Rattle.mysql_receive.specs.Laws.{ThereIsOneAudit, WholeStreamsJoin, WrittenCellsAreHeld};

use mysql_values::laws::{cells_read_back, one_reading, texts_are_decided, tokens_of_a_text};
use mysql_wire::laws::{fronts_split, reader_laws};

/// Looking back over joined payloads is looking back over the second ones from the first.
///
/// What is in force behind the first list is what looking back over the second begins with.
pub fn looking_back_goes_on()
    ensures { LookingBackGoesOn }
{}

/// What is in force can be found by looking back.
///
/// A payload that says something, with none behind it that says anything, decides. The types in
/// force are those of the last payload that speaks of types.
pub fn last_word_counts()
    ensures { LastWordCounts }
{}

/// Each payload reads as one list of sets or has one fault, and never both.
pub fn each_payload_is_judged()
    ensures { EachPayloadIsJudged }
{
    texts_are_decided();
    one_reading();
    tokens_of_a_text();
}

/// There is exactly one audit of any payloads and rest, whatever is in force before them.
pub fn there_is_one_audit()
    ensures { ThereIsOneAudit }
{
    texts_are_decided();
    one_reading();
    tokens_of_a_text();
}

/// Behind payloads that all read, the audit goes on by what they leave in force.
pub fn audit_goes_on()
    ensures { AuditGoesOn }
{}

/// There is exactly one audit of any bytes.
pub fn stream_has_one_audit()
    ensures { StreamHasOneAudit }
{
    reader_laws();
    texts_are_decided();
    one_reading();
    tokens_of_a_text();
}

/// Two cuttings of the same bytes have equal audits.
pub fn cuttings_agree()
    ensures { CuttingsAgree }
{
    reader_laws();
    texts_are_decided();
    one_reading();
    tokens_of_a_text();
}

/// What a new receiver holds decides the audit of the bytes to come.
pub fn start_decides_the_audit()
    ensures { StartDecidesTheAudit }
{}

/// What is held after a piece decides what was decided before it, over the piece too.
///
/// That is over the piece and the bytes still to come; or memory ran out over the piece.
pub fn feeding_goes_on()
    ensures { FeedingGoesOn }
{
    reader_laws();
}

/// Pieces one after another are one piece.
pub fn pieces_go_on()
    ensures { PiecesGoOn }
{}

/// Pieces that were read one after another were read as one piece, also where memory ran out.
pub fn pieces_are_taken()
    ensures { PiecesAreTaken }
{
    reader_laws();
}

/// The sets that were taken of a receiver and those of its end are, joined, the audit.
///
/// It is the audit of all that the receiver was fed, or of its first payloads where memory ran out.
pub fn taken_sets_are_the_audit()
    ensures { TakenSetsAreTheAudit }
{
    reader_laws();
}

/// A stream that is cut off has no fault, and the sets of the payloads that stand whole.
pub fn fronts_read_on()
    ensures { FrontsReadOn }
{
    fronts_split();
    texts_are_decided();
    one_reading();
    tokens_of_a_text();
}

/// Two streams that audit whole make one that does, with their sets joined.
pub fn whole_streams_join()
    ensures { WholeStreamsJoin }
{
    reader_laws();
}

/// The cell that is written for a value is read as what the value means.
pub fn written_cells_are_held()
    ensures { WrittenCellsAreHeld }
{
    cells_read_back();
}
