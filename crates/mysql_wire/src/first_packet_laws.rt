//! Laws of the first packet, over the definitions alone.

ghost use Rattle.mysql_wire.specs.FirstPacketLaws.{FramingsAreFound, PacketsStay};
ghost use Rattle.mysql_wire.specs.FirstPacketLaws.{PacketsTakeBytes, RestsFollow, RoomIsEnough};

/// What was found first stays with more bytes behind.
pub fn packets_stay()
    ensures { PacketsStay }
{}

/// A packet takes its payload and a header at least from the bytes.
pub fn packets_take_bytes()
    ensures { PacketsTakeBytes }
{}

/// The bytes end with what follows their first packet.
pub fn rests_follow()
    ensures { RestsFollow }
{}

/// The framing of a payload within the limit is found as this payload.
pub fn framings_are_found()
    ensures { FramingsAreFound }
{}

/// Where less than a packet stands, one byte more has room in the longest packet.
pub fn room_is_enough()
    ensures { RoomIsEnough }
{}
