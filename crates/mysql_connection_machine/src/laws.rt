//! The theorem of packets that are put. The function has no code but the theorem that it rests on:
//! its contract is the theorem.

ghost use Rattle.mysql_connection_machine.specs.Laws.{SentPacketsArePut};

use mysql_wire::first_packet_laws::framings_are_found;

/// Of packets that were sent the first payloads are put, up to one whose turn hasn't come.
///
/// So [`Connection::put_packets`](crate::Connection::put_packets) does where it answers `Ok`.
pub fn sent_packets_are_put()
    ensures { SentPacketsArePut }
{
    framings_are_found();
}
