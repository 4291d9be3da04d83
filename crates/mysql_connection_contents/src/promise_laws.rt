//! The theorem of a client, a server and an auditor between them. The function has no code but the
//! theorems that it rests on: its contract is the theorem.

ghost use Rattle.mysql_connection_contents.specs.Promise.{AllSeeTheSame};

use crate::delivery_laws::delivered_sets_are_said;
use crate::laws::runs_are_heard;
use mysql_connection_rules::agreement_laws::{numbers_are_bytes, puts_are_read, three_agree};
use mysql_connection_rules::laws::{fronts_read_on, positions_stay};
use mysql_wire::first_packet_laws::{
    framings_are_found, packets_stay, packets_take_bytes, rests_follow,
};

/// A client, a server and an auditor between them see the same.
///
/// That is said of the calls of three connections, each with its answer, refusals too. They begin
/// alike, with the same limits. The client puts its own events and feeds what came of the server's, the
/// server does the reverse, and the auditor feeds both. Nothing is said of the pieces, of their order, nor
/// of when events are taken.
///
/// There is one list of events. Its client's events are those that the client put, by any calls, and its
/// server's those that the server put. The events of each of the three are a prefix of it at each moment.
/// They are all of it, and the three have the same state, once all has come. No fault is found in it, and
/// no byte is left unread.
///
/// Each prepared statement has the text that was asked for, at each moment and in each of the three. Its
/// executions in the list say the sets that were sent of it, as `Query::send` and `Query::send_more` send
/// them, and the values of `Connection::put_execution`. What was asked by text are queries of those texts.
///
/// MySQL: Client/Server Protocol, "Connection Lifecycle" and "MySQL Packets".
pub fn all_see_the_same()
    ensures { AllSeeTheSame }
{
    packets_stay();
    packets_take_bytes();
    rests_follow();
    framings_are_found();
    fronts_read_on();
    positions_stay();
    puts_are_read();
    numbers_are_bytes();
    three_agree();
    runs_are_heard();
    delivered_sets_are_said();
}
