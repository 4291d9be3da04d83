//! What a user of `mysql_values` can name: each item that it passes on, by each of its paths.
//! Written by `tools/faces` from the sources. A name that the crate doesn't pass on is refused here.

use mysql_values::{
    AsSql, AsSqlError, BinValue, BindError, ByteString, ClientSide, Content, ContentExt, Literal,
    MissingNamedParameterError, MixedParamsError, Mode, NamedParamsError, Params,
    ParamsConfusionError, ParamsError, ParsedNamedParams, Place, SerializationSide, ServerSide,
    SetError, Spelling, TextValue, Value, ValueDeserializer, bind_query, bind_text, bind_text_at,
    bind_text_in, first_not_alone, is_mixed, is_safe_to_quote, places, places_in, read_cell,
    read_literal, read_literal_in, read_text, read_text_cell, read_text_in,
};

mod bind {
    use mysql_values::bind::{
        BindError, ParsedQuery, bind_query, bind_query_onto, bind_text, bind_text_at, bind_text_in,
        names_among,
    };
}

mod laws {
    use mysql_values::laws::{
        all_fields_fit, cells_have_lengths, cells_read_back, content_of_a_spelling, fields_fit,
        filled_text_is_read, one_reading, pieces_of_a_query, servers_read_alike,
        sql_text_is_a_literal, texts_are_decided, tokens_of_a_text,
    };
}

mod params {
    use mysql_values::params::{
        MissingNamedParameterError, Params, ParamsConfusionError, ParamsError, SetError,
        list_values_over_names,
    };
}
