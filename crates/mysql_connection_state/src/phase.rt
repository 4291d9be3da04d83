//! What is due on a connection.

use mysql_connection_rules::Reason;

/// What is due on a connection.
///
/// MySQL: Client/Server Protocol, "Connection Lifecycle".
#[derive(Clone, Copy, Debug, PartialEq, Eq)]
pub enum Phase {
    /// The server's first payload.
    Greeting,
    /// The client's answer to it.
    Response,
    /// A payload of the server's by which a user is logged in or changed.
    Authentication,
    /// The client's answer to such a one.
    Answer,
    /// A command.
    Command,
    /// A payload of a reply.
    Reply,
    /// Bytes of a file of the client's.
    FileData,
    /// Nothing: what follows isn't read here.
    Over(Reason),
}
