//! Why a connection is read no further.

/// Why a connection is over: what follows isn't read by the same machine.
///
/// MySQL: Client/Server Protocol, "Connection Lifecycle".
#[derive(Clone, Copy, Debug, PartialEq, Eq)]
pub enum Reason {
    /// The server refused the connection in place of a greeting.
    Rejected,
    /// TLS follows (MySQL: "TLS").
    Secure,
    /// The login was denied.
    Denied,
    /// Compressed packets follow (MySQL: "Compression").
    Compressed,
    /// The client quit.
    Quit,
    /// A binary log or a table's bytes follow (MySQL: "Replication Protocol").
    Dump,
    /// A server's data follow (MySQL: "The Clone Plugin").
    Clone,
    /// The server said an error that answers nothing, its last words.
    Farewell,
}
