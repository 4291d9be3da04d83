//! Packets that are put: payload by payload, as long as it is their turn.

ghost use Rattle.mysql_connection_machine.specs.PuttingPackets.{PutsFirst, PutsPackets};

use crate::connection::Connection;
use crate::last_words::number_of;
use crate::packets_refusal::PacketsRefusal;
use crate::payload_refusal::PayloadRefusal;
use mysql_connection_rules::{Fault, Side};
use mysql_wire::first_packet_laws::packets_take_bytes;
use mysql_wire::{FirstPacket, first_packet};

impl Connection {
    // Puts the payload of the packet that stands first, and answers how many bytes that takes. `None`
    // where it isn't due, or isn't whole.
    fn put_first(
        &mut self,
        side: Side,
        packets: &[u8],
        out: &mut Vec<u8>,
    ) -> Result<Option<usize>, PayloadRefusal>
        ensures { PutsFirst self.old side packets.now out.old.items result self.new
            out.new.items }
    {
        match self.put_first_command(side, packets, out) {
            Some(used) => Ok(Some(used)),
            None => self.put_first_packet(side, packets, out),
        }
    }

    // The same, whatever the packet is. A function of its own, so that a command of one chunk doesn't
    // pay for what this one holds.
    #[inline(never)]
    fn put_first_packet(
        &mut self,
        side: Side,
        packets: &[u8],
        out: &mut Vec<u8>,
    ) -> Result<Option<usize>, PayloadRefusal>
        ensures { PutsFirst self.old side packets.now out.old.items result self.new
            out.new.items }
    {
        packets_take_bytes();
        if !self.is_due(side) {
            return Ok(None);
        }
        let limit = self.limit_of(side);
        match first_packet(*out.allocator(), limit, number_of(packets), packets)? {
            FirstPacket::Short => Ok(None),
            FirstPacket::TooLarge => Err(PayloadRefusal::TooLarge),
            FirstPacket::OutOfSync(number) => {
                Err(PayloadRefusal::BadPayload(Fault::OutOfSync(number)))
            }
            FirstPacket::Whole { payload, used, .. } => {
                self.put_without_event(side, payload.as_slice(), out)?;
                Ok(Some(used))
            }
        }
    }

    /// Puts the payloads of packets of a side, one after another, as long as it is the side's turn.
    ///
    /// It takes what `Query::send`, `Query::send_more`, `write_reply` or a `ReplyWriter` append: a
    /// set with its long data, or a whole reply, is one call. Answers how many bytes of `packets`
    /// were taken: all, or those before the first packet whose turn hasn't come. What is cut off at
    /// the end is left. The packets' own numbers are looked at in the chunks of one payload alone:
    /// each is framed anew, by the next number. No event is made of a command, and none of its
    /// values is read. One that is laid out as none is put as `Other`, which nothing tells here. Of
    /// packets that were sent the first payloads are put, by the theorem
    /// [`sent_packets_are_put`](crate::laws::sent_packets_are_put).
    ///
    ///     let used = connection.put_packets(Side::Client, packets, &mut output)?;
    ///     socket.write_all(&output)?;
    ///
    /// Promise: the payloads of the packets that were taken are put in their order, each as
    /// [`Connection::put_payload`] puts it, and it stops exactly there (`PutsPackets`).
    ///
    /// # Errors
    /// The cause of the first packet that isn't put at its turn, and how many bytes come before it.
    /// The packets before it were put, and what was appended of them stays.
    /// - `TooLarge` where it is longer than the limit of its side.
    /// - `BadPayload(OutOfSync)` where the numbers of its chunks don't go on from one another.
    /// - `BadPayload` where its payload can't be read here, with the fault.
    /// - `Held` where more would be kept behind it than the limit leaves.
    /// - `Memory`.
    ///
    /// MySQL: Client/Server Protocol, "MySQL Packets" and "Sequence ID".
    pub fn put_packets(
        &mut self,
        side: Side,
        packets: &[u8],
        out: &mut Vec<u8>,
    ) -> Result<usize, PacketsRefusal>
        ensures { PutsPackets self.old side packets.now out.old.items result self.new
            out.new.items }
    {
        let mut used = 0;
        'packets: loop {
            match self.put_first(side, &packets[used..], out) {
                Ok(Some(taken)) => used += taken,
                Ok(None) => return Ok(used),
                Err(cause) => return Err(PacketsRefusal { used, cause }),
            }
        }
    }
}
