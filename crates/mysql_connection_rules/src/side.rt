//! The two sides of a connection.

/// A side of a connection.
///
/// MySQL: Client/Server Protocol, "Connection Lifecycle".
#[derive(Clone, Copy, Debug, PartialEq, Eq)]
pub enum Side {
    /// The client.
    Client,
    /// The server.
    Server,
}
