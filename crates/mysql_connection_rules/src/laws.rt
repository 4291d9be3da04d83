//! Laws of the rules of a connection. Each function has an empty body, or names the laws that it
//! rests on: its contract is the law.

ghost use Rattle.mysql_connection_rules.specs.Laws.{EndAddsLastWords, EventsAreInTurn};
ghost use Rattle.mysql_connection_rules.specs.Laws.{EventsStayWithinLimits};
ghost use Rattle.mysql_connection_rules.specs.Laws.{EventsTakeBytes, FaultsAreOfTheirBytes};
ghost use Rattle.mysql_connection_rules.specs.Laws.{FreshIsWithinLimits};
ghost use Rattle.mysql_connection_rules.specs.Laws.{LastWordsAreLast, UnaskedIsBehindTheEnd};
ghost use Rattle.mysql_connection_rules.specs.Laws.{FrontsReadOn, HeldStays, PiecesAreTheRun};
ghost use Rattle.mysql_connection_rules.specs.Laws.{PiecesStayWithinLimits, PositionsStay};
ghost use Rattle.mysql_connection_rules.specs.Laws.{RunExists, RunIsOne};
ghost use Rattle.mysql_connection_rules.specs.Laws.{ServersEndChangesNothing, TurnCanCome};

use mysql_wire::first_packet_laws::{
    packets_stay, packets_take_bytes, rests_follow, room_is_enough,
};

/// Any two streams have a run of events.
#[tactic(auto, using(crate::proofs::Running::run_exists))]
pub fn run_exists()
    ensures { RunExists }
{
    packets_stay();
    packets_take_bytes();
    rests_follow();
}

/// They have no other.
#[tactic(auto, using(crate::proofs::Running::run_is_one))]
pub fn run_is_one()
    ensures { RunIsOne }
{}

/// Events that were taken, and those that are left to take, are the events of the one run.
///
/// That holds for any pieces of two streams, in any order, and whenever events were taken.
/// They come in its order, and end where it ends, by the same fault if by one.
pub fn pieces_are_the_run()
    ensures { PiecesAreTheRun }
{
    packets_stay();
    packets_take_bytes();
    rests_follow();
}

/// The events of prefixes of two streams are a prefix of their events.
///
/// A fault of fronts is the streams' fault, behind the same events.
#[tactic(auto, using(crate::proofs::Running::fronts_read_on))]
pub fn fronts_read_on()
    ensures { FrontsReadOn }
{
    packets_stay();
    packets_take_bytes();
    rests_follow();
}

/// The end of the client's stream adds the server's last words at most, one event.
#[tactic(auto, using(crate::proofs::Running::end_adds_last_words))]
pub fn end_adds_last_words()
    ensures { EndAddsLastWords }
{
    packets_stay();
    packets_take_bytes();
    rests_follow();
}

/// The end of the server's stream changes nothing.
#[tactic(auto, using(crate::proofs::Running::servers_end_changes_nothing))]
pub fn servers_end_changes_nothing()
    ensures { ServersEndChangesNothing }
{
    packets_stay();
    packets_take_bytes();
    rests_follow();
}

/// Behind the server's last words nothing more is said.
///
/// And the server says what nothing asked for only once the client's stream has ended.
pub fn last_words_are_last()
    ensures last { LastWordsAreLast }
    ensures unasked { UnaskedIsBehindTheEnd }
{}

/// An event takes four unread bytes at least, those of a header.
pub fn events_take_bytes()
    ensures { EventsTakeBytes }
{
    packets_stay();
    packets_take_bytes();
    rests_follow();
}

/// What was unread of a stream is what an event read of it and what is unread behind it.
///
/// So the count of bytes that were read is the place in the stream.
#[tactic(auto, using(crate::proofs::Within::positions_stay))]
pub fn positions_stay()
    ensures { PositionsStay }
{
    packets_stay();
    packets_take_bytes();
    rests_follow();
}

/// A fault names the byte at which what is unread of its side begins.
#[tactic(auto, using(crate::proofs::Within::faults_are_of_their_bytes))]
pub fn faults_are_of_their_bytes()
    ensures { FaultsAreOfTheirBytes }
{
    packets_stay();
    packets_take_bytes();
    rests_follow();
}

/// Nothing is held at first, pieces that have room stay within the limits, and so do events.
///
/// Within the limits no more is held than they say.
pub fn held_stays()
    ensures fresh { FreshIsWithinLimits }
    ensures pieces { PiecesStayWithinLimits }
    ensures events { EventsStayWithinLimits }
    ensures held { HeldStays }
{
    packets_stay();
    packets_take_bytes();
    rests_follow();
}

/// A side whose payload is due and isn't there whole has room for more bytes of it.
///
/// So whatever came of the other side, what is due can come.
#[tactic(auto, using(crate::proofs::Ending::turn_can_come))]
pub fn turn_can_come()
    ensures { TurnCanCome }
{
    room_is_enough();
}

/// An event is of the side whose payload is due, or the server's last words.
pub fn events_are_in_turn()
    ensures { EventsAreInTurn }
{}
