//! What an authentication is for.

/// What an authentication is for.
///
/// MySQL: Client/Server Protocol, "Authentication Phase" and "COM_CHANGE_USER".
#[derive(Clone, Copy, Debug, PartialEq, Eq)]
pub enum Exchange {
    /// A user logs in.
    Login,
    /// A user is changed.
    ChangeUser,
    /// A user is changed by a command that is its number alone.
    BareChange,
}
