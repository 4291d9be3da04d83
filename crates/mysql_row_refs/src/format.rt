/// How the cells of rows are written.
#[derive(Clone, Copy, Debug, PartialEq, Eq)]
pub enum RowFormat {
    /// As texts, of a query. MySQL: Client/Server Protocol, "Text Resultset Row".
    Text,
    /// By their columns' types, of a prepared statement. MySQL: Client/Server Protocol, "Binary
    /// Protocol Resultset Row".
    Binary,
}
