//! What one payload of a connection says, where rows stay in their payloads.

use mysql_connection_state::Event;

/// What one payload of a connection says, where a row stays in its payload.
///
/// MySQL: Client/Server Protocol, "Text Resultset Row" and "Binary Protocol Resultset Row"; C API,
/// "mysql_use_result()".
#[derive(Drop)]
pub enum LentEvent {
    /// A row of a reply, which [`Connection::row`](crate::Connection::row) lends.
    Row,
    /// Any other event; also a row of more than one packet's chunk.
    Event(Event),
}
