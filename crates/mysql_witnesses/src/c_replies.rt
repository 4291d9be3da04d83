//! Replies, read and written.

ghost use Rattle.mysql_witnesses.specs.CReplies.{ChangesEndBehindTheirData, NoKindIsNoReader};
ghost use Rattle.mysql_witnesses.specs.CReplies.{NoOldLengthStays};
ghost use Rattle.mysql_witnesses.specs.CReplies.{OpenRowsHaveNoEnd, ResultsStandBeforeRows};
ghost use Rattle.mysql_witnesses.specs.CReplies.{TakenResultsTakeTheReports};

/// Of rows that haven't ended nothing old is shown, and no end.
pub fn open_rows_show_nothing_old()
    ensures length { NoOldLengthStays }
    ensures end { OpenRowsHaveNoEnd }
{}

/// A change of the session's state ends behind its data.
#[tactic(auto, using(crate::proofs::AboutCReplies::changes_end_behind_their_data))]
pub fn changes_end_behind_their_data()
    ensures { ChangesEndBehindTheirData }
{}

/// Once results are taken no progress report is held.
#[tactic(auto, using(crate::proofs::AboutCReplies::taken_results_take_the_reports))]
pub fn taken_results_take_the_reports()
    ensures { TakenResultsTakeTheReports }
{}

/// Of a number that names no kind of command no reader is made.
#[tactic(auto, using(crate::proofs::AboutCReplies::no_kind_is_no_reader))]
pub fn no_kind_is_no_reader()
    ensures { NoKindIsNoReader }
{}

/// The result and the row of a refusal are in their order.
pub fn results_stand_before_rows()
    ensures { ResultsStandBeforeRows }
{}
