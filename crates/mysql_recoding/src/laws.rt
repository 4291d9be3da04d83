//! Laws of recoding. Functions without a result do nothing: their contracts are the laws.

ghost use Rattle.mysql_recoding.specs.AsItComes.{RecodedAsItComes};
ghost use Rattle.mysql_recoding.specs.Laws.{CarriedSetsFillPlaces, EqualSetsRecodeEqually, JoinedStreamsRecode};
ghost use Rattle.mysql_recoding.specs.Laws.{RecodingsAreDecided, RecodingsAreSent, RecodingsCarryTheSame};
ghost use Rattle.mysql_recoding.specs.Laws.{RecodingsRecodeToThemselves};

use mysql_command_rules::laws::sent_values_are_carried;
use mysql_receive::laws::{
    start_decides_the_audit, stream_has_one_audit, there_is_one_audit, whole_streams_join,
};
use mysql_stmt::laws::executions_have_sizes;
use mysql_values::laws::tokens_of_a_text;
use mysql_wire::laws::{framed_come_first, reader_laws};

/// Each set that a stream carries has as many contents as the query has placeholders.
///
/// Its numbers are from -2^63 to 2^64-1, and of the values that it is sent as none is a float.
pub fn carried_sets_fill_places()
    ensures { CarriedSetsFillPlaces }
{
    tokens_of_a_text();
}

/// What recoding appends audits whole, with the sets of the stream that was recoded.
pub fn recodings_carry_the_same()
    ensures { RecodingsCarryTheSame }
{
    carried_sets_fill_places();
    sent_values_are_carried();
    executions_have_sizes();
}

/// What recoding appends is what execute sends of the values that the stream's contents are sent as.
pub fn recodings_are_sent()
    ensures { RecodingsAreSent }
{
    carried_sets_fill_places();
    executions_have_sizes();
}

/// What recoding appends recodes to the same bytes, with the same query, id and limit.
pub fn recodings_recode_to_themselves()
    ensures { RecodingsRecodeToThemselves }
{
    recodings_carry_the_same();
}

/// Two streams whose recodings with one query, id and limit succeed carry equal sets exactly where
/// the recodings are equal.
pub fn equal_sets_recode_equally()
    ensures { EqualSetsRecodeEqually }
{
    recodings_carry_the_same();
    stream_has_one_audit();
    tokens_of_a_text();
}

/// A stream is recoded in one way, or refused for one cause, and never both.
pub fn recodings_are_decided()
    ensures { RecodingsAreDecided }
{
    stream_has_one_audit();
    tokens_of_a_text();
}

/// The recoding of two whole streams, one behind the other, is both recodings.
///
/// The second one's stands behind the first one's, without its prepare.
pub fn joined_streams_recode()
    ensures { JoinedStreamsRecode }
{
    whole_streams_join();
    tokens_of_a_text();
    framed_come_first();
}

/// What a [`Recoder`](crate::Recoder) appends is what [`recode`](crate::recode) appends of all
/// bytes.
///
/// That holds however the stream's bytes are cut; and what it refuses is the first cause in the
/// order of the stream.
pub fn recoded_as_it_comes()
    ensures { RecodedAsItComes }
{
    stream_has_one_audit();
    tokens_of_a_text();
    start_decides_the_audit();
    there_is_one_audit();
    reader_laws();
}
