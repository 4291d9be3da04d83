//! What a user of `mysql_session` can name: each item that it passes on, by each of its paths.
//! Written by `tools/faces` from the sources. A name that the crate doesn't pass on is refused here.

use mysql_session::{
    ASK_SESSION_MODE, Audit, BindError, ByteString, CapabilityFlags, ChunkHeader, Column,
    ColumnIndex, Content, End, Flags, FromRow, FromRowError, FromRowRef, FromValue, FromValueError,
    FromValueRef, Intermediate, IntoParams, LentRow, LocalInfilePacket, MissingNamedParameterError,
    Mode, OkPacket, PacketCodecError, PacketReader, Params, ParamsConfusionError, ParamsError,
    ParseIr, ProgressReport, Query, Receiver, ReceiverError, RecodeError, Recoder, Refusal, Reply,
    ReplyEnd, ReplyFault, ReplyKind, ReplyReader, ReplyRefusal, ReplyResult, ReplyWriter, Road,
    Row, RowConversionError, RowError, RowExt, RowFormat, RowLender, RowReader, RowRef, RowRefExt,
    SendToError, ServerError, SessionMode, SetError, SingleValue, SingleValueRef, Spelling,
    SqlState, StatusFlags, StmtPacket, StoredRows, StreamFault, ToValue, ToValueError, Value,
    ValueRef, WrongCount, from_cell, from_cell_ref, from_row, from_row_opt, from_row_ref,
    from_value, from_value_opt, is_safe_to_quote, packet_to_chunks, read_reply, receive,
    receive_in, recode, recode_in, send, send_contents, send_contents_in, send_values, write_reply,
};

mod laws {
    use mysql_session::laws::{
        deliveries_are_read_back, deliveries_are_received, failed_writers_are_read,
        further_sets_are_delivered, hexadecimal_reads_in_each_mode, made_sets_give_the_same,
        readable_sets_are_delivered, recodings_are_delivered, roads_read_equally,
        sent_streams_join, tokens_in_each_mode,
    };

    mod commands {
        use mysql_session::laws::commands::{
            audit_goes_on, cuttings_agree, each_payload_is_judged, feeding_goes_on, fronts_read_on,
            last_word_counts, looking_back_goes_on, pieces_are_taken, pieces_go_on,
            start_decides_the_audit, stream_has_one_audit, taken_sets_are_the_audit,
            there_is_one_audit, whole_streams_join, written_cells_are_held,
        };
    }

    mod recoding {
        use mysql_session::laws::recoding::{
            carried_sets_fill_places, equal_sets_recode_equally, joined_streams_recode,
            recoded_as_it_comes, recodings_are_decided, recodings_are_sent,
            recodings_carry_the_same, recodings_recode_to_themselves,
        };
    }

    mod replies {
        use mysql_session::laws::replies::{
            answers_have_what_stands, bytes_have_one_answer, each_reader_decides,
            lent_rows_are_handed_out, payloads_go_on, taken_results_are_the_reply,
            whole_bytes_are_framed_results, whole_replies_are_results,
        };
    }

    mod reply_fronts {
        use mysql_session::laws::reply_fronts::{
            byte_fronts_are_unfinished, payload_fronts_are_unfinished,
        };
    }

    mod reply_packets {
        use mysql_session::laws::reply_packets::{
            read_replies_are_their_own, read_replies_have_one_form, written_replies_are_whole,
            written_replies_read_back,
        };
    }

    mod reply_writer {
        use mysql_session::laws::reply_writer::{whole_writings_are_replies, writings_go_on};
    }

    mod senders {
        use mysql_session::laws::senders::further_sets_are_sent;
    }

    mod streams {
        use mysql_session::laws::streams::{
            executions_read, hexadecimal_reads_in_each_mode, queries_read,
            requests_have_their_size, requests_read, roads_read_equally, sent_payloads_fit,
            sent_sets_are_delivered, sent_streams_join, sent_values_are_carried, sets_mean_each,
            statements_are_one, tokens_in_each_mode,
        };
    }

    mod values {
        use mysql_session::laws::values::{
            all_fields_fit, cells_have_lengths, cells_read_back, content_of_a_spelling, fields_fit,
            filled_text_is_read, one_reading, pieces_of_a_query, servers_read_alike,
            sql_text_is_a_literal, texts_are_decided, tokens_of_a_text,
        };
    }

    mod wire {
        use mysql_session::laws::wire::{
            answer_grows, between_goes_on, between_holds_src, fault_stays, framed_come_first,
            framing_comes_first, fronts_split, handed_out_comes_first, memory_keeps_first,
            one_answer, one_count_stands_whole, one_split, piece_is_held, prefix_has_no_fault,
            reader_feeds, reader_laws, reader_refuses, reader_starts, reader_takes, reader_waits,
            refusal_was_decided, split_goes_on, waiting_decides_the_same,
        };

        mod buffers {
            use mysql_session::laws::wire::buffers::{
                are_bytes, lenenc_reads_back, numbers_read_back, shortest_spellings,
                signed_numbers_read_back, texts_read_back, varlen_reads_back,
            };
        }
    }
}
