//! Sending: bulk requests, streams of commands, recodings, and what stays after a refusal.

ghost use Rattle.std.specs.Prelude.{◌≡◌, ◌≤◌};
ghost use Rattle.std.specs.Bool.{OnFalse};
ghost use Rattle.mysql_witnesses.specs.Sending.{CommandsBeginAtZero, ContentsStayInTheirPlaces};
ghost use Rattle.mysql_witnesses.specs.Sending.{EmptyStringsHaveAPiece, FailuresLeaveSomeUntaken};
ghost use Rattle.mysql_witnesses.specs.Sending.{FirstValuesBringTheirType, FrontsAreOfTheTightCut};
ghost use Rattle.mysql_witnesses.specs.Sending.{FurtherSetsAreNumberedOn, KeptQueriesMayRunTogether};
ghost use Rattle.mysql_witnesses.specs.Sending.{LimitsCountTheHeader, NullGivesWayInItsColumn};
ghost use Rattle.mysql_witnesses.specs.Sending.{NullGivesWayInTheTypes, OneRequestHoldsBothRows};
ghost use Rattle.mysql_witnesses.specs.Sending.{RefusalsComeBeforeTheirSet, RefusedSetsAreNotFlushed};
ghost use Rattle.mysql_witnesses.specs.Sending.{RequestsKeepToTheRoom, SignsAreKinds, StreamsAreNotCopied};
ghost use Rattle.mysql_witnesses.specs.Sending.{StreamsArePreparedOnce, TypesAreNotRepeated};

use mysql_bulk_builder::laws::{one_tight_typed_cut, whole_is_tight};
use mysql_command_rules::Road;
use mysql_queries::laws::tokens_of_a_text;
use mysql_session::send;
use mysql_values::Params;
use std::alloc::Global;

/// Rows are cut into requests that are full, and not more than full; types aren't repeated.
#[tactic(auto, using(crate::proofs::AboutSending::one_request_holds_both_rows, crate::proofs::AboutSending::requests_keep_to_the_room, crate::proofs::AboutSending::types_are_not_repeated))]
pub fn requests_are_full_and_not_more()
    ensures full { OneRequestHoldsBothRows }
    ensures room { RequestsKeepToTheRoom }
    ensures types { TypesAreNotRepeated }
{
    one_tight_typed_cut();
    whole_is_tight();
}

/// What a failed writer took of requests is a prefix of those of the tight cut.
///
/// Excluded: a prefix of the request of the first set alone.
#[tactic(auto, using(crate::proofs::AboutSending::fronts_are_of_the_tight_cut))]
pub fn fronts_are_of_the_tight_cut()
    ensures { FrontsAreOfTheTightCut }
{}

/// The type of a column is that of its first value, which a NULL before it gives way to.
#[tactic(auto, unfolding(mysql_bulk_builder::specs::Bulk::bulk_execution), using(crate::proofs::AboutSending::first_values_bring_their_type))]
pub fn columns_have_the_type_of_their_first_value()
    ensures brought { FirstValuesBringTheirType }
    ensures compared { NullGivesWayInItsColumn }
    ensures sent { NullGivesWayInTheTypes }
{}

/// Numbers with a sign and without are of two kinds.
pub fn signs_are_kinds()
    ensures { SignsAreKinds }
{}

/// Each command is numbered from 0, and its packet, header and all, is within the limit.
#[tactic(auto, unfolding(mysql_wire::specs::Framing::framing, mysql_wire::specs::Framing::chunks))]
pub fn commands_are_framed_each_by_itself()
    ensures numbers { CommandsBeginAtZero }
    ensures limits { LimitsCountTheHeader }
{}

/// A byte string of no bytes is sent as long data too.
#[tactic(auto, unfolding(mysql_command_rules::specs::Commands::pieces_from, mysql_stmt::specs::Commands::long_data))]
pub fn empty_strings_have_a_piece()
    ensures { EmptyStringsHaveAPiece }
{}

/// Further sets are numbered on from those before them.
#[tactic(auto, using(crate::proofs::AboutSending::further_sets_are_numbered_on))]
pub fn further_sets_are_numbered_on()
    ensures { FurtherSetsAreNumberedOn }
{}

/// A writer that fails has not taken all, and a refused set isn't flushed.
#[tactic(auto, using(crate::proofs::AboutSending::failures_leave_some_untaken, crate::proofs::AboutSending::refused_sets_are_not_flushed))]
pub fn writers_take_whole_sets()
    ensures failures { FailuresLeaveSomeUntaken }
    ensures refusals { RefusedSetsAreNotFlushed }
{}

/// A set is refused before it is written, and a query isn't refused for what is beside its
/// placeholders.
#[tactic(auto, using(crate::proofs::AboutSending::refusals_come_before_their_set, crate::proofs::AboutSending::kept_queries_may_run_together))]
pub fn refusals_come_in_time()
    ensures sets { RefusalsComeBeforeTheirSet }
    ensures queries { KeptQueriesMayRunTogether }
{}

/// Sets that are refused leave the bytes that were there before.
///
/// Excluded: what was written of them before the refusal.
pub fn refused_sets_leave_no_bytes(
    alloc: Global,
    query: &[u8],
    sets: &[Params],
    road: Road,
    stmt_id: u32,
    limit: usize,
    out: &mut Vec<u8>,
) -> bool
    requires { 4 ≤ limit }
    ensures { OnFalse result (out.new.items ≡ out.old.items) }
{
    send(alloc, query, sets, road, stmt_id, limit, out).is_ok()
}

/// A stream is recoded as one prepare and executions of what it carries.
pub fn streams_are_recoded_anew()
    ensures copies { StreamsAreNotCopied }
    ensures places { ContentsStayInTheirPlaces }
    ensures prepares { StreamsArePreparedOnce }
{
    tokens_of_a_text();
}
