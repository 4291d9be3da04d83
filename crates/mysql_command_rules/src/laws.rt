//! Laws of what is sent. Functions without a result do nothing: their contracts are the laws.

ghost use Rattle.mysql_command_rules.specs.Laws.{HexadecimalInEachMode, OneStatement};
ghost use Rattle.mysql_command_rules.specs.Laws.{RequestsHaveTheirSize, RoadsReadEqually};
ghost use Rattle.mysql_command_rules.specs.Laws.{SentPayloadsFit, SentPayloadsRead, SentSetsAreDelivered};
ghost use Rattle.mysql_command_rules.specs.Laws.{SentStreamsJoin, SentValuesAreCarried, SetsMeanEach};
ghost use Rattle.mysql_command_rules.specs.Laws.{TokensInEachMode};
ghost use Rattle.mysql_command_rules.specs.declared.road.Road.TheVariants as roads;

use mysql_bulk_builder::laws::{tight_typed_has_fewest, types_in_force_serve};
use mysql_literals::as_sql::hexadecimal_is_safe;
use mysql_receive::laws::{fronts_read_on, whole_streams_join, written_cells_are_held};
use mysql_values::laws::{
    cells_have_lengths, filled_text_is_read, pieces_of_a_query, sql_text_is_a_literal,
    tokens_of_a_text,
};

/// Text queries read as the sets whose values they carry.
pub fn queries_read()
    ensures { SentPayloadsRead roads.Text }
{}

/// A prepare and executions, with long data before those that need it, read as the sets whose values they carry.
pub fn executions_read()
    ensures { SentPayloadsRead roads.Execute }
{
    written_cells_are_held();
}

/// A bulk request takes as many bytes as are counted for its part.
pub fn requests_have_their_size()
    ensures { RequestsHaveTheirSize }
{
    cells_have_lengths();
}

/// Each payload that is sent of sets without a cause has at most `limit - 4` bytes.
pub fn sent_payloads_fit()
    ensures { SentPayloadsFit }
{
    requests_have_their_size();
}

/// A prepare and bulk requests read as the sets whose values they carry.
pub fn requests_read()
    ensures { SentPayloadsRead roads.Bulk }
{
    written_cells_are_held();
    cells_have_lengths();
    types_in_force_serve();
}

/// A query and an id have one statement.
pub fn statements_are_one()
    ensures { OneStatement }
{
    tokens_of_a_text();
}

/// Values that were sent are carried by what was appended, whichever sets gave them.
pub fn sent_values_are_carried()
    ensures { SentValuesAreCarried }
{
    queries_read();
    executions_read();
    requests_read();
}

/// Sets that were sent are read back.
///
/// Each front of their stream reads as the sets that stand whole in it, and by bulk no requests
/// could be fewer.
pub fn sent_sets_are_delivered()
    ensures { SentSetsAreDelivered }
{
    queries_read();
    executions_read();
    requests_read();
    sent_values_are_carried();
    fronts_read_on();
    tokens_of_a_text();
    tight_typed_has_fewest();
}

/// A text without a backslash has the same tokens in each mode.
///
/// Only a backslash makes a string or a quoted identifier end elsewhere.
///
/// (MySQL Reference Manual, "Server SQL Modes": ANSI_QUOTES, NO_BACKSLASH_ESCAPES.)
pub fn tokens_in_each_mode()
    ensures { TokensInEachMode }
{}

/// Sets that were sent by text in hexadecimal are sent so for a server in any other mode.
///
/// The query needs to have the same tokens in that mode, as it has without a backslash by
/// `tokens_in_each_mode`, and its placeholders stand alone there. Then whoever sends need not know
/// the mode of the server: by `sent_sets_are_delivered` what was appended reads in each as the same
/// sets. That the numbers of the values fit their fields is what `all_fields_fit` gives.
///
/// (MySQL Reference Manual, "Server SQL Modes", "Hexadecimal Literals".)
pub fn hexadecimal_reads_in_each_mode()
    ensures { HexadecimalInEachMode }
{
    hexadecimal_is_safe();
    sql_text_is_a_literal();
    filled_text_is_read();
    pieces_of_a_query();
}

/// Parameter sets mean what each of them means by itself, as `bind_text` goes by it.
pub fn sets_mean_each()
    ensures { SetsMeanEach }
{}

/// Sets that are appended behind others read as all of them one after another.
///
/// That holds of each by whichever road, and of parameter sets or lists of objects behind either.
pub fn sent_streams_join()
    ensures { SentStreamsJoin }
{
    tokens_of_a_text();
    whole_streams_join();
}

/// Sets that give a query the same read as the same contents, by whichever road.
///
/// They may be the same parameter sets, the same lists of objects, or lists of objects and the
/// parameter sets that are made of them.
pub fn roads_read_equally()
    ensures { RoadsReadEqually }
{
    tokens_of_a_text();
}
