//! Streams of commands that are read back.

ghost use Rattle.mysql_witnesses.specs.Receiving.{EachRowIsASet, EmptyStreamsAreWhole};
ghost use Rattle.mysql_witnesses.specs.Receiving.{FrontsAreNoFaults, LongDataIsNoSet};
ghost use Rattle.mysql_witnesses.specs.Receiving.{PreparesDropTheTypes, ResetsLeaveTheTypes};
ghost use Rattle.mysql_witnesses.specs.Receiving.{SetsThatWereReadStay};

use mysql_wire::laws::reader_laws;

/// A reset leaves the types in force, and a prepare none.
pub fn types_stay_to_the_next_prepare()
    ensures resets { ResetsLeaveTheTypes }
    ensures prepares { PreparesDropTheTypes }
{}

/// Long data is no set.
#[tactic(auto, using(crate::proofs::AboutReceiving::long_data_is_no_set))]
pub fn long_data_is_no_set()
    ensures { LongDataIsNoSet }
{}

/// Each row of a bulk request is a set.
#[tactic(auto, using(crate::proofs::AboutReceiving::each_row_is_a_set))]
pub fn each_row_is_a_set()
    ensures { EachRowIsASet }
{}

/// A stream that is cut off has no fault.
pub fn fronts_are_no_faults()
    ensures { FrontsAreNoFaults }
{}

/// A stream of no bytes is whole.
pub fn empty_streams_are_whole()
    ensures { EmptyStreamsAreWhole }
{
    reader_laws();
}

/// Sets that were read stay where memory runs out.
#[tactic(auto, using(crate::proofs::AboutReceiving::sets_that_were_read_stay))]
pub fn sets_that_were_read_stay()
    ensures { SetsThatWereReadStay }
{}
