//! How much of a connection is held.

/// How much of a connection is held at most, in bytes of payloads with their headers.
///
/// Any three numbers are taken. Memory is a multiple of what is counted.
#[derive(Clone, Copy, Debug, PartialEq, Eq)]
pub struct Limits {
    /// The longest payload of the client.
    pub client: usize,
    /// The longest payload of the server.
    pub server: usize,
    /// The unread bytes of both, and what is kept of statements, columns and long data.
    ///
    /// Of each side as much waits unread as its longest payload takes with its headers. What this
    /// leaves beside both is for what is kept. Where nothing is left, no statement is prepared and no
    /// column is read: `Held`. So less than both longest payloads take keeps nothing. It doesn't limit
    /// what waits unread.
    pub held: usize,
}
