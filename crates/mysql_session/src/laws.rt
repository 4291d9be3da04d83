//! The theorems of the crates below, of sets that are delivered, and of lists of objects. A
//! function without a result does nothing: its contract is the theorem.

ghost use Rattle.mysql_session.specs.WritingTo.{FailedWritersAreRead};
ghost use Rattle.mysql_session.specs.Laws.{DeliveriesAreReadBack, DeliveriesAreReceived, FurtherSetsAreDelivered};
ghost use Rattle.mysql_session.specs.Laws.{MadeSetsGiveTheSame, ReadableSetsAreDelivered, RecodingsAreDelivered};

pub use mysql_command_rules::laws as streams;
use mysql_command_rules::laws::{sent_payloads_fit, sent_sets_are_delivered};
pub use mysql_command_rules::laws::{
    hexadecimal_reads_in_each_mode, roads_read_equally, sent_streams_join, tokens_in_each_mode,
};
pub use mysql_receive::laws as commands;
use mysql_receive::laws::{cuttings_agree, stream_has_one_audit};
pub use mysql_recoding::laws as recoding;
use mysql_recoding::laws::recodings_are_sent;
pub use mysql_replies::laws as replies;
pub use mysql_reply_writer::{
    fronts as reply_fronts, laws as reply_writer, reply_laws as reply_packets,
};
pub use mysql_send::execute::laws as senders;
use mysql_send::execute::laws::further_sets_are_sent;
pub use mysql_values::laws as values;
use mysql_values::laws::tokens_of_a_text;
pub use mysql_wire::laws as wire;
use mysql_wire::laws::one_count_stands_whole;

/// Sets that were sent in a form that can be read back are delivered: what `send_contents` appends
/// too.
pub fn readable_sets_are_delivered()
    ensures { ReadableSetsAreDelivered }
{
    sent_sets_are_delivered();
    sent_payloads_fit();
    cuttings_agree();
    tokens_of_a_text();
}

/// Sets that are delivered were sent, and are read back as what they mean.
///
/// Each prefix of their stream reads as the sets that are whole in it: what [`sent_streams_join`]
/// and [`roads_read_equally`] go by.
pub fn deliveries_are_read_back()
    ensures { DeliveriesAreReadBack }
{}

/// What `receive` answers of what was appended, in any pieces, but Memory, is what the sets mean,
/// and Whole.
pub fn deliveries_are_received()
    ensures { DeliveriesAreReceived }
{}

/// What a writer took that failed reads as the sets that are whole in it.
///
/// Where a writer fails while sets are sent to it by [`Query::send_to`], it has taken a prefix of a
/// stream, and not all of it. That stream carries the first of the sets, by bulk all. Where the
/// stream has fewer than 2^64 bytes, the prefix reads, without a fault, as exactly the sets that
/// are whole in it. That is what `receive` answers of it, in any pieces, but Memory.
pub fn failed_writers_are_read()
    ensures { FailedWritersAreRead }
{
    readable_sets_are_delivered();
    stream_has_one_audit();
    tokens_of_a_text();
    one_count_stands_whole();
}

/// What `recode` appends delivers, by execute, the values that the stream's contents are sent as.
pub fn recodings_are_delivered()
    ensures { RecodingsAreDelivered }
{
    recodings_are_sent();
    readable_sets_are_delivered();
}

/// Sets that [`Query::send_more`](crate::Query::send_more) appends are delivered with those before
/// them.
///
/// Those before were delivered by execute, and the further ones are numbered on from them.
pub fn further_sets_are_delivered()
    ensures { FurtherSetsAreDelivered }
{
    further_sets_are_sent();
    readable_sets_are_delivered();
    tokens_of_a_text();
}

/// Parameter sets that are made of lists of objects give every query what the lists give. So by
/// [`roads_read_equally`] what `send` appended of the ones and `send_values` of the others read as
/// the same contents.
pub fn made_sets_give_the_same()
    ensures { MadeSetsGiveTheSame }
{}
