//! Replies, read and written.

ghost use Rattle.mysql_witnesses.specs.SessionReplies.{ColumnsThatCameAreKept, EmptyInfosAreNotPut};
ghost use Rattle.mysql_witnesses.specs.SessionReplies.{EofsStandBehindColumns};
ghost use Rattle.mysql_witnesses.specs.SessionReplies.{EventsThatReadOtherwiseAreNotPut};
ghost use Rattle.mysql_witnesses.specs.SessionReplies.{FollowStandsBeforeTheCount, LastResultsSayNoMore};
ghost use Rattle.mysql_witnesses.specs.SessionReplies.{LaterColumnsStand, NothingIsBadWhereNothingIsDue};
ghost use Rattle.mysql_witnesses.specs.SessionReplies.{NumbersCountChunks, RowsEndByTheCapabilities};
ghost use Rattle.mysql_witnesses.specs.SessionReplies.{RowsMayBeginWithFe};

/// The columns of a result set are kept as they come, and are in force behind the last.
pub fn columns_stand_as_they_came()
    ensures kept { ColumnsThatCameAreKept }
    ensures later { LaterColumnsStand }
{}

/// Without DEPRECATE_EOF a payload of nine bytes may be a row, though it begins with fe.
pub fn rows_may_begin_with_fe()
    ensures { RowsMayBeginWithFe }
{}

/// An event isn't put whose payload reads as another one, and none is bad where nothing may come.
pub fn events_that_read_otherwise_are_not_put()
    ensures infos { EmptyInfosAreNotPut }
    ensures lines { EventsThatReadOtherwiseAreNotPut }
    ensures due { NothingIsBadWhereNothingIsDue }
{}

/// What ends rows, and what comes before and behind columns, goes by the capabilities.
#[tactic(auto, unfolding(crate::proofs::OnLiterals::packets_on_literals))]
pub fn results_go_by_the_capabilities()
    ensures end { RowsEndByTheCapabilities }
    ensures count { FollowStandsBeforeTheCount }
    ensures columns { EofsStandBehindColumns }
{}

/// The last result says that no more follow, and the number goes on behind each chunk.
#[tactic(auto, using(crate::proofs::AboutSessionReplies::numbers_count_chunks))]
pub fn results_are_counted_and_numbered()
    ensures more { LastResultsSayNoMore }
    ensures numbers { NumbersCountChunks }
{}
