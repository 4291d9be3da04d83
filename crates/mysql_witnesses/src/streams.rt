//! Both streams of a connection: packets, numbers, limits, turns, faults, ends.

ghost use Rattle.mysql_witnesses.specs.Streams.{FaultsAreKept, FullChunksGoOn};
ghost use Rattle.mysql_witnesses.specs.Streams.{LaterChunksAreNumberedOn, NoMoreIsKeptThanTheLimit};
ghost use Rattle.mysql_witnesses.specs.Streams.{PayloadsStandBehindHeaders, PipelinedCommandsWait};
ghost use Rattle.mysql_witnesses.specs.Streams.{RepliesAreNumberedOn, TurnsAreOfPhases};
ghost use Rattle.mysql_witnesses.specs.Streams.{WhatComesNextIsUnread, WhatFitsIsTaken};

/// A payload comes behind its packet's header, and the number behind it is one more.
pub fn payloads_stand_behind_headers()
    ensures { PayloadsStandBehindHeaders }
{}

/// A packet's chunks are numbered on, up to one that isn't full.
#[tactic(auto, using(crate::proofs::AboutStreams::full_chunks_go_on))]
pub fn chunks_go_on_behind_full_ones()
    ensures numbers { LaterChunksAreNumberedOn }
    ensures ends { FullChunksGoOn }
{}

/// A reply is numbered on from its command's packets.
pub fn replies_are_numbered_on()
    ensures { RepliesAreNumberedOn }
{}

/// No more is kept than the limit leaves.
pub fn no_more_is_kept_than_the_limit()
    ensures { NoMoreIsKeptThanTheLimit }
{}

/// A piece that just fits is taken.
#[tactic(auto, using(crate::proofs::AboutStreams::what_fits_is_taken))]
pub fn what_fits_is_taken()
    ensures { WhatFitsIsTaken }
{}

/// Commands that came together are read one by one.
#[tactic(auto, unfolding(mysql_connection_rules::specs::Steps::step), using(crate::proofs::AboutStreams::pipelined_commands_wait))]
pub fn pipelined_commands_wait()
    ensures { PipelinedCommandsWait }
{}

/// Whose turn it is follows from what was said.
#[tactic(auto, using(crate::proofs::AboutStreams::turns_are_of_phases))]
pub fn turns_are_of_phases()
    ensures { TurnsAreOfPhases }
{}

/// A fault is kept, of either side.
pub fn faults_are_kept()
    ensures { FaultsAreKept }
{}

/// An event that comes next is unread where both streams end.
#[tactic(auto, using(crate::proofs::AboutStreams::what_comes_next_is_unread))]
pub fn what_comes_next_is_unread()
    ensures { WhatComesNextIsUnread }
{}
