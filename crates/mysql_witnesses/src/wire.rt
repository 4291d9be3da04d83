//! The wire: streams, fields and packets.

ghost use Rattle.std.specs.Prelude.{◌≡◌, OnErr};
ghost use Rattle.mysql_witnesses.specs.Wire.{BytesAskForNoMemory, EmptyChunksEndFullPackets};
ghost use Rattle.mysql_witnesses.specs.Wire.{FbIsInvalidData};
ghost use Rattle.mysql_witnesses.specs.Wire.{HeadersBeginInWhatCame, RefusalsKeepTheNumber};
ghost use Rattle.mysql_witnesses.specs.Wire.{RefusalsLeaveAllBytes, RefusedPairsLeaveNothing};

use bytes::BytesMut;
use mysql_wire::{ChunkDecoder, ChunkInfo, PacketCodecError};

/// A length that begins with fb is refused as invalid data.
#[tactic(auto, using(crate::proofs::AboutWire::fb_is_invalid_data))]
pub fn fb_is_invalid_data()
    ensures { FbIsInvalidData }
{}

/// A pair of fields is written whole or not at all.
pub fn refused_pairs_leave_nothing()
    ensures { RefusedPairsLeaveNothing }
{}

/// A refusal leaves all bytes; and so many bytes are read without memory.
#[tactic(auto, using(crate::proofs::AboutWire::bytes_ask_for_no_memory, crate::proofs::AboutWire::refusals_leave_all_bytes))]
pub fn refusals_leave_all_bytes()
    ensures without_memory { BytesAskForNoMemory }
    ensures left { RefusalsLeaveAllBytes }
{}

/// A payload of 16777215 bytes is followed by an empty chunk.
#[tactic(auto, using(crate::proofs::AboutWire::empty_chunks_end_full_packets))]
pub fn empty_chunks_end_full_packets()
    ensures { EmptyChunksEndFullPackets }
{}

/// A header may begin in what came, and end in the piece behind it.
pub fn headers_begin_in_what_came()
    ensures { HeadersBeginInWhatCame }
{}

/// A codec that refuses keeps the number of the next chunk.
#[tactic(auto, using(crate::proofs::AboutWire::refusals_keep_the_number))]
pub fn refusals_keep_the_number()
    ensures { RefusalsKeepTheNumber }
{}

/// A decoder that refuses a chunk awaits the chunk that it awaited.
///
/// Excluded: one that takes any chunk after a refusal.
pub fn a_refusing_decoder_awaits_the_same_chunk(
    decoder: &mut ChunkDecoder,
    src: &mut BytesMut,
    dst: &mut BytesMut,
    limit: usize,
) -> Result<Option<ChunkInfo>, PacketCodecError>
    ensures { OnErr result (decoder.new ≡ decoder.old) }
{
    decoder.decode(src, dst, limit)
}
