//! The wire layer: packets in chunks and the codec that reads and writes them, over constants, numbers
//! and the representations of fields.
//!
//! `PacketCodec` goes over a buffer, `PacketReader` over pieces of a stream, `packet_to_chunks` writes
//! one payload. `FirstPacket` is the packet that comes first in bytes, where it lies. All readers and
//! senders call these.
#![tactic(auto)]

pub mod codec;
pub mod laws;

pub use codec::{
    ChunkDecoder, ChunkHeader, ChunkInfo, PacketCodec, PacketCodecError, PacketReader, Packets,
    PartialHeader, feed_all, frame_in_place, packet_header, packet_to_chunks,
};
pub use mysql_buf::{
    BufMutExt, ParseBuf, ReadMysqlExt, WriteMysqlExt, constants, lenenc_int_len, lenenc_str_len,
    read_varlen_uint, varlen_uint_size, write_varlen_uint,
};
pub use mysql_const::{
    DEFAULT_MAX_ALLOWED_PACKET, MAX_PAYLOAD_LEN, UTF8_GENERAL_CI, UTF8MB4_GENERAL_CI,
};
pub use mysql_field_constants::{
    Const, ConstBytes, ConstBytesValue, ConstU8, ConstU32, ConstValue, Either, RawConst, RawFlags,
    Skip,
};
pub use mysql_field_lists::{RawSeq, Seq, SeqRepr, Unknown};
pub use mysql_fields::{
    BareBytes, BareU8Bytes, BareU16Bytes, Binary, BytesRepr, EofBytes, FixedLengthText, IntRepr,
    InvalidLengthEncodedInteger, LeI16, LeI24, LeI32, LeI56, LeI64, LeU16, LeU24, LeU32,
    LeU32LowerHalf, LeU32UpperHalf, LeU48, LeU56, LeU64, LenEnc, MyDeserialize, MySerialize,
    NullBytes, ParseExt, RawBytes, RawInt, Readable, ReadsBack, Text, U8Bytes, U32Bytes, VarLen,
    WireError,
};

mod chunk;
mod extent;
pub mod first_packet_laws;
pub mod packet;
mod single;

pub use packet::{FirstPacket, first_packet, framed, is_short};
pub use single::one_chunk;
