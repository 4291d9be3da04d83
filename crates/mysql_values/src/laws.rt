//! Laws of queries and of cells.

pub use mysql_cells::laws::{all_fields_fit, cells_have_lengths, cells_read_back, fields_fit};
pub use mysql_literals::as_sql::sql_text_is_a_literal;
pub use mysql_queries::laws::{
    content_of_a_spelling, filled_text_is_read, one_reading, pieces_of_a_query, servers_read_alike,
    texts_are_decided, tokens_of_a_text,
};
