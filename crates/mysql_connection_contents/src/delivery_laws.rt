//! Theorems of sets that are put on a connection. Each function has no code but the theorems that
//! it rests on: its contract is the theorem.

ghost use Rattle.mysql_connection_contents.specs.Deliveries.{DeliveredSetsAreSaid, FurtherSetsJoin};
ghost use Rattle.mysql_connection_contents.specs.Deliveries.{PutPayloadsAreRead, PutSetsAreRead};
ghost use Rattle.mysql_connection_contents.specs.PutValues.{PutValuesAreExecuted};
ghost use Rattle.mysql_connection_contents.specs.Records.{MachinesHear, MachinesHearWhatTheyPut};
ghost use Rattle.mysql_connection_contents.specs.Records.{PutEventsAreSpoken, TakenEventsAreSpoken};

use crate::laws::{runs_are_heard, streams_are_received};
use mysql_command_rules::laws::{executions_read, requests_read};
use mysql_connection_rules::agreement_laws::{
    numbers_are_bytes, puts_are_read, puts_are_the_run, three_agree,
};
use mysql_connection_rules::laws::run_exists;
use mysql_queries::laws::tokens_of_a_text;
use mysql_receive::laws::written_cells_are_held;
use mysql_wire::first_packet_laws::{framings_are_found, packets_stay};

/// A machine whose events are all taken has heard the payloads of both streams.
///
/// That holds for any pieces of them, and anything that was put in between. Its events are what
/// those payloads say, one after another, and last words of the server at most behind them.
///
/// MySQL: Client/Server Protocol, "Connection Lifecycle".
pub fn machines_hear()
    ensures { MachinesHear }
{
    run_exists();
    puts_are_the_run();
    runs_are_heard();
}

/// What a machine put and took is what is heard of its streams, payload by payload.
///
/// MySQL: Client/Server Protocol, "MySQL Packets" and "Connection Lifecycle".
pub fn machines_hear_what_they_put()
    ensures { MachinesHearWhatTheyPut }
{
    packets_stay();
    framings_are_found();
    puts_are_read();
    numbers_are_bytes();
}

/// Each event that a machine takes or puts is what a payload says, but for last words.
///
/// So what `Connection::next_event`, `put` and `put_payload` promise of each event makes the record
/// by which [`machines_hear_what_they_put`] goes.
///
/// MySQL: Client/Server Protocol, "MySQL Packets".
pub fn events_are_spoken()
    ensures taken { TakenEventsAreSpoken }
    ensures put { PutEventsAreSpoken }
{
    runs_are_heard();
}

/// The executions of a prepared statement say the sets that were sent of it.
///
/// The sets are delivered as `Query::send` and `Query::send_more` promise, by executions or in
/// bulk. The server's answer to a prepare gave the statement the id by which they are sent, and as
/// many parameters as the query has placeholders. What the client says of it behind that answer is
/// what is sent of them, payload by payload. What else is said in between doesn't matter. Then the
/// executions say the contents of the sets: all of them, in order, and nothing between. The same is
/// so where it is what `Query::send_more` alone appends of sets.
///
/// That is so as far as the statement isn't closed or replaced, nor goes with a change of user or a
/// reset of the connection. No error takes an execution back, query attributes aren't in force, and
/// bulk executions are if there are any.
///
/// MySQL: Client/Server Protocol, "Prepared Statements"; MariaDB: Client/Server Protocol,
/// "3 - Binary Protocol (Prepared Statements)".
pub fn delivered_sets_are_said()
    ensures { DeliveredSetsAreSaid }
{
    executions_read();
    requests_read();
    written_cells_are_held();
    streams_are_received();
}

/// What `Query::send_more` appends of sets in two calls is what it appends of all of them in one.
///
/// So sets of one statement may be sent in as many calls as one likes.
///
/// MySQL: Client/Server Protocol, "COM_STMT_EXECUTE".
pub fn further_sets_join()
    ensures { FurtherSetsJoin }
{
    tokens_of_a_text();
}

/// What a client puts on a connection, an auditor between it and the server reads.
///
/// The three go by the same limits. All bytes of both have come to the auditor, in any pieces
/// and order, and all events are taken. Then the client's events that it has are those that the
/// client put, in order. The server's are those that the server put. Of each prepared statement the
/// executions say the sets that were sent of it.
///
/// MySQL: Client/Server Protocol, "Connection Lifecycle" and "Prepared Statements".
pub fn put_sets_are_read()
    ensures { PutSetsAreRead }
{
    three_agree();
    machines_hear();
    delivered_sets_are_said();
}

/// What a client put, payload by payload, an auditor between it and the server reads.
///
/// The three go by the same limits. All bytes of both have come to the auditor, and all events are
/// taken. Then its events begin with those of the client's own record of payloads that it put and
/// took. Where what the client put of a prepared statement is what is sent of sets, their
/// executions say the sets.
///
/// MySQL: Client/Server Protocol, "Connection Lifecycle" and "Prepared Statements".
pub fn put_payloads_are_read()
    ensures { PutPayloadsAreRead }
{
    three_agree();
    packets_stay();
    framings_are_found();
    puts_are_read();
    numbers_are_bytes();
    delivered_sets_are_said();
}

/// What is put of a statement by `Connection::put_execution` is executed with the contents of its values.
///
/// That is said of calls by which nothing else executes the statement. Its executions in their events are
/// then those of the values: all of them, in order, and nothing between. The statement's id isn't
/// 0xffffffff, which names the one that was prepared last.
///
/// MySQL: Client/Server Protocol, "COM_STMT_EXECUTE"; MariaDB: "COM_STMT_EXECUTE" ('Statement id').
pub fn put_values_are_executed()
    ensures { PutValuesAreExecuted }
{}
