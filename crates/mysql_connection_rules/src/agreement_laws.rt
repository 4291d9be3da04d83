//! Laws of what is put on a connection. Each function has no code but the laws that it rests on:
//! its contract is the law.

ghost use Rattle.mysql_connection_rules.specs.Examples.{PingIsPut};
ghost use Rattle.mysql_connection_rules.specs.AgreementLaws.{NumbersAreBytes, PutsAreNotRefused};
ghost use Rattle.mysql_connection_rules.specs.AgreementLaws.{PutOrRefused, PutsAreRead, RefusalsAreOne};
ghost use Rattle.mysql_connection_rules.specs.AgreementLaws.{PutsAreTheRun, ThreeAgree};

use crate::laws::{
    events_take_bytes, fronts_read_on, pieces_are_the_run, positions_stay, run_exists,
};
use mysql_wire::first_packet_laws::framings_are_found;

/// What a put appends is read as the event that was put, and nothing of it is left unread.
#[tactic(auto, using(crate::proofs::Putting::puts_are_read))]
pub fn puts_are_read()
    ensures { PutsAreRead }
{
    framings_are_found();
}

/// The number of the packet that is due is a byte's, in any machine that was new.
#[tactic(auto, using(crate::proofs::Numbers::numbers_are_bytes))]
pub fn numbers_are_bytes()
    ensures { NumbersAreBytes }
{}

/// An event is put, or refused for one cause.
#[tactic(auto, using(crate::proofs::Refusing::puts_are_not_refused, crate::proofs::Refusing::refusals_are_one, crate::proofs::Refusing::put_or_refused))]
pub fn puts_or_refusals()
    ensures put { PutsAreNotRefused }
    ensures one { RefusalsAreOne }
    ensures either { PutOrRefused }
{}

/// Events that were taken, put or are left to take are, in order, those of the one run.
///
/// That holds for any pieces of two streams, and any events that were put in between.
pub fn puts_are_the_run()
    ensures { PutsAreTheRun }
{
    pieces_are_the_run();
}

/// A client, a server and an auditor between them, all by the same limits, agree on one list of
/// events.
///
/// Its client's events are those that the client put, and its server's those that the server put.
#[tactic(auto, using(crate::proofs::Agreeing::three_agree))]
pub fn three_agree()
    ensures { ThreeAgree }
{
    run_exists();
    pieces_are_the_run();
    fronts_read_on();
    positions_stay();
    events_take_bytes();
}

/// A client whose command is due puts a ping in five bytes.
#[tactic(auto, using(crate::proofs::Pinging::ping_is_put))]
pub fn ping_is_put()
    ensures { PingIsPut }
{
    framings_are_found();
}
