//! All packets of a stream that is handed over in pieces.
//!
//!     let answer = feed_all(alloc, PacketCodec::default(), pieces);
//!     for payload in &answer.packets { .. }

ghost use Rattle.std.specs.Prelude.{◌≡◌, ◌++◌, ◌∷◌, [], IfErr, List, OnOk, flat_map, ℕ};
ghost use Rattle.mysql_wire.specs.declared.codec.PacketCodecError.TheVariants.{Memory};
ghost use Rattle.mysql_wire.specs.Codec.{IsBetween};
ghost use Rattle.mysql_wire.specs.Incoming.{codec_by};
ghost use Rattle.mysql_wire.specs.Reader.{HasRead, IsAnswer, IsDrained, payloads_of};
ghost use Rattle.mysql_wire.specs.Stream.Numbering.{OnFrom};

use super::reader::PacketReader;
use super::{PacketCodec, PacketCodecError};
use std::alloc::Global;

/// What [`feed_all`] reads of a stream.
#[derive(Debug, Drop)]
pub struct Packets {
    /// The payloads of the packets that stand whole, in order.
    pub packets: Vec<Vec<u8>>,
    /// Why reading stopped before the stream's end.
    pub fault: Option<PacketCodecError>,
}

// Adds a payload that stands whole in a piece: it is copied once, to its size.
fn add_copy(payload: &[u8], packets: &mut Vec<Vec<u8>>) -> Result<(), PacketCodecError>
    ensures ok { OnOk result (payloads_of packets.new.items ≡ payloads_of packets.old.items ++ payload.now ∷ []) }
    ensures err { IfErr result (λ error. (error ≡ Memory) × (packets.new.items ≡ packets.old.items)) }
{
    let Ok(packet) = Vec::from_slice(*packets.allocator(), payload) else {
        return Err(PacketCodecError::Memory);
    };
    if packets.push(packet).is_err() {
        return Err(PacketCodecError::Memory);
    }
    Ok(())
}

// Adds the payload that was handed out.
fn add_taken(reader: &mut PacketReader, packets: &mut Vec<Vec<u8>>) -> Result<(), PacketCodecError>
    ensures ok { OnOk result ((payloads_of packets.new.items ≡ payloads_of packets.old.items ++ reader.old.payload ∷ [])
        × (reader.new ≡ record reader.old { payload = [] })) }
    ensures err { IfErr result (λ error. (error ≡ Memory) × (packets.new.items ≡ packets.old.items)) }
{
    let Ok(packet) = reader.take_payload() else {
        return Err(PacketCodecError::Memory);
    };
    if packets.push(packet).is_err() {
        return Err(PacketCodecError::Memory);
    }
    Ok(())
}

// Takes each payload that the piece makes whole.
fn drain(
    reader: &mut PacketReader,
    piece: &[u8],
    packets: &mut Vec<Vec<u8>>,
) -> Result<(), PacketCodecError>
    ensures { (limit id : ℕ) (bytes : List ℕ) →
        HasRead limit (OnFrom id) bytes (payloads_of packets.old.items) (codec_by reader.old)
        (reader.old.bytes ++ piece.now) []
        → IsDrained limit (OnFrom id) bytes result (payloads_of packets.new.items)
        (codec_by reader.new) reader.new.bytes [] }
{
    let mut rest = piece;
    'packets: loop {
        if let Some(payload) = reader.read_in_place(&mut rest) {
            match add_copy(payload, packets) {
                Ok(()) => continue 'packets,
                Err(error) => return Err(error),
            }
        }
        match reader.advance(&mut rest) {
            Ok(false) => return Ok(()),
            Ok(true) => match add_taken(reader, packets) {
                Ok(()) => {}
                Err(error) => return Err(error),
            },
            Err(error) => return Err(error),
        }
    }
}

/// Reads all packets of the stream whose bytes are those of the pieces, one after another, however
/// they are cut. Their chunks are numbered on from the codec's number, as in a reply; the codec has to
/// stand between packets, and to have refused nothing.
///
/// The answer has the payloads that stand whole, up to the first fault. The fault is
/// `PacketTooLarge` or `PacketsOutOfSync` as the stream's bytes have it. Without one nothing or the
/// front of a packet follows the payloads. Where memory was refused the fault is `Memory`, and the
/// payloads are the stream's first ones.
/// (MySQL: Client/Server Protocol, "Protocol Basics: MySQL Packets", "Sending More Than 16Mb" and
/// "Sequence ID".)
///
/// Promise: the payloads and the fault are those of the one split of the pieces' bytes
/// (`IsAnswer`).
pub fn feed_all(alloc: Global, codec: PacketCodec, pieces: &[&[u8]]) -> Packets
    requires { IsBetween codec }
    ensures { IsAnswer codec.limit (OnFrom codec.number) (flat_map (λ piece. piece.now) pieces.now)
        (payloads_of result.packets.items) result.fault }
{
    let mut reader = PacketReader::new(alloc, codec.seq_id(), codec.max_allowed_packet);
    let mut packets = Vec::new(alloc);
    'pieces: for piece in pieces {
        if let Err(fault) = drain(&mut reader, piece, &mut packets) {
            return Packets {
                packets,
                fault: Some(fault),
            };
        }
    }
    Packets {
        packets,
        fault: None,
    }
}
