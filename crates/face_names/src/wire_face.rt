//! What a user of `mysql_wire` can name: each item that it passes on, by each of its paths.
//! Written by `tools/faces` from the sources. A name that the crate doesn't pass on is refused here.

use mysql_wire::{
    BareBytes, BareU8Bytes, BareU16Bytes, Binary, BufMutExt, BytesRepr, ChunkDecoder, ChunkHeader,
    ChunkInfo, Const, ConstBytes, ConstBytesValue, ConstU8, ConstU32, ConstValue,
    DEFAULT_MAX_ALLOWED_PACKET, Either, EofBytes, FirstPacket, FixedLengthText, IntRepr,
    InvalidLengthEncodedInteger, LeI16, LeI24, LeI32, LeI56, LeI64, LeU16, LeU24, LeU32,
    LeU32LowerHalf, LeU32UpperHalf, LeU48, LeU56, LeU64, LenEnc, MAX_PAYLOAD_LEN, MyDeserialize,
    MySerialize, NullBytes, PacketCodec, PacketCodecError, PacketReader, Packets, ParseBuf,
    ParseExt, PartialHeader, RawBytes, RawConst, RawFlags, RawInt, RawSeq, ReadMysqlExt, Readable,
    ReadsBack, Seq, SeqRepr, Skip, Text, U8Bytes, U32Bytes, UTF8_GENERAL_CI, UTF8MB4_GENERAL_CI,
    Unknown, VarLen, WireError, WriteMysqlExt, feed_all, first_packet, frame_in_place, framed,
    is_short, lenenc_int_len, lenenc_str_len, one_chunk, packet_header, packet_to_chunks,
    read_varlen_uint, varlen_uint_size, write_varlen_uint,
};

mod codec {
    use mysql_wire::codec::{
        ChunkDecoder, ChunkHeader, ChunkInfo, PacketCodec, PacketCodecError, PacketReader, Packets,
        PartialHeader, feed_all, frame_in_place, packet_header, packet_to_chunks,
    };
}

mod constants {
    use mysql_wire::constants::{
        BinlogDumpFlags, Capabilities, CapabilityFlags, ColumnFlags, ColumnType, Command,
        CursorType, DEFAULT_MAX_ALLOWED_PACKET, Flags, GeometryType, ItemResult, MAX_PAYLOAD_LEN,
        MariadbBulkIndicator, MariadbCapabilities, MariadbStatusFlags, SessionStateType,
        StatusFlags, StmtBulkExecuteFlags, StmtExecuteParamFlags, StmtExecuteParamsFlags,
        UTF8_GENERAL_CI, UTF8MB4_GENERAL_CI, UnknownBinlogDumpFlags, UnknownCapabilityFlags,
        UnknownColumnFlags, UnknownColumnType, UnknownCommand, UnknownCursorType,
        UnknownGeometryType, UnknownItemResultType, UnknownMariadbBulkIndicator,
        UnknownMariadbCapabilities, UnknownSessionStateType, UnknownStatusFlags,
        UnknownStmtBulkExecuteFlags, UnknownStmtExecuteParamFlags, UnknownStmtExecuteParamsFlags,
    };
}

mod first_packet_laws {
    use mysql_wire::first_packet_laws::{
        framings_are_found, packets_stay, packets_take_bytes, rests_follow, room_is_enough,
    };
}

mod laws {
    use mysql_wire::laws::{
        answer_grows, between_goes_on, between_holds_src, fault_stays, framed_come_first,
        framing_comes_first, fronts_split, handed_out_comes_first, memory_keeps_first, one_answer,
        one_count_stands_whole, one_split, piece_is_held, prefix_has_no_fault, reader_feeds,
        reader_laws, reader_refuses, reader_starts, reader_takes, reader_waits,
        refusal_was_decided, split_goes_on, waiting_decides_the_same,
    };

    mod buffers {
        use mysql_wire::laws::buffers::{
            are_bytes, lenenc_reads_back, numbers_read_back, shortest_spellings,
            signed_numbers_read_back, texts_read_back, varlen_reads_back,
        };
    }
}

mod packet {
    use mysql_wire::packet::{FirstPacket, first_packet, framed, is_short};
}
