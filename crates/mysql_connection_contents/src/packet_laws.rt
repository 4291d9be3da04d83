//! Theorems of packets that are put and read. The functions have no code: their contracts are the
//! theorems.

ghost use Rattle.mysql_connection_contents.specs.PacketLaws.{ClientsGoOn, FurtherSetsAreOf};
ghost use Rattle.mysql_connection_contents.specs.PacketLaws.{CountsAreChecked, PacketsAreCommands};
ghost use Rattle.mysql_connection_contents.specs.PacketLaws.{PacketsAreSpoken, PutPacketsAreAbout};
ghost use Rattle.mysql_connection_contents.specs.PacketLaws.{SentPacketsAreAbout, SentSetsAreOf};

use crate::delivery_laws::machines_hear_what_they_put;
use mysql_connection_machine::laws::sent_packets_are_put;
use mysql_connection_rules::agreement_laws::{numbers_are_bytes, puts_are_read};
use mysql_wire::first_packet_laws::{
    framings_are_found, packets_stay, packets_take_bytes, rests_follow,
};

/// Each payload that a machine puts by packets is spoken, behind what it has put and taken.
///
/// So what `Connection::put_packets` promises makes the record by which
/// [`machines_hear_what_they_put`](crate::delivery_laws::machines_hear_what_they_put) and
/// [`put_payloads_are_read`](crate::delivery_laws::put_payloads_are_read) go; and
/// [`sent_packets_are_put`](mysql_connection_machine::laws::sent_packets_are_put) says which payloads
/// those are of packets that were sent.
///
/// MySQL: Client/Server Protocol, "MySQL Packets" and "Connection Lifecycle".
pub fn packets_are_spoken()
    ensures { PacketsAreSpoken }
{}

/// Where a command is due, all that a client puts by one call of `put_packets` are commands.
///
/// Elsewhere they needn't be: while the server awaits a file, the same packets are its bytes.
///
/// MySQL: Client/Server Protocol, "MySQL Packets" and "Command Phase".
pub fn packets_are_commands()
    ensures { PacketsAreCommands }
{}

/// Where a command is due, payloads about a prepared statement that a client puts are said about it.
///
/// Each of them names the statement by its id, which isn't 0xffffffff. That is the id of whichever was
/// prepared last.
///
/// MySQL: Client/Server Protocol, "Prepared Statements"; MariaDB: "COM_STMT_EXECUTE" ('Statement id').
pub fn sent_packets_are_about()
    ensures { SentPacketsAreAbout }
{}

/// What `Query::send` sends of sets behind the prepare of their statement is about it, payload by payload.
///
/// Those are executions, their long data, and bulk executions. So is what `Query::send_more` appends.
///
/// MySQL: Client/Server Protocol, "Prepared Statements"; MariaDB: "COM_STMT_BULK_EXECUTE".
pub fn sent_sets_are_of_their_statement()
    ensures sent { SentSetsAreOf }
    ensures further { FurtherSetsAreOf }
{}

/// Where a command is due, what `put_packets` puts of such packets is said about their statement.
///
/// It puts the first of them, up to one whose turn hasn't come, and no other payload. The packets behind
/// those are left, for a later call. Each payload is within the client's limit.
///
/// MySQL: Client/Server Protocol, "MySQL Packets" and "Prepared Statements".
pub fn put_packets_are_about()
    ensures { PutPacketsAreAbout }
{
    sent_packets_are_put();
}

/// Where `put_sets` puts sets, the server's answer to the prepare has as many parameters as the query
/// has placeholders.
///
/// That is said of the statement's last answer, while the statement isn't closed or replaced. The
/// user doesn't change, and the session isn't reset. The id isn't 0xffffffff. So the call checks what
/// [`delivered_sets_are_said`](crate::delivery_laws::delivered_sets_are_said) asks of the answer.
///
/// MySQL: Client/Server Protocol, "COM_STMT_PREPARE Response" (num_params).
pub fn counts_are_checked()
    ensures { CountsAreChecked }
{
    machines_hear_what_they_put();
}

/// The record of what a client put and took goes on with its calls.
///
/// That is said of any calls, with their answers. The events of the payloads that are added are those that
/// the calls took and put. It ends where the server's last words end the connection.
///
/// MySQL: Client/Server Protocol, "Connection Lifecycle" and "MySQL Packets".
pub fn clients_go_on()
    ensures { ClientsGoOn }
{
    packets_stay();
    packets_take_bytes();
    rests_follow();
    framings_are_found();
    puts_are_read();
    numbers_are_bytes();
}
