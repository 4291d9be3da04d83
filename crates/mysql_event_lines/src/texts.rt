//! How lines for people have bytes.

/// How a line for people has bytes, of which it isn't known whether they are a text.
#[derive(Clone, Copy, Debug, PartialEq, Eq)]
pub enum Texts {
    /// As `x` and hexadecimal. NULL is `null`.
    Hexadecimal,
    /// In quotes with escapes where they are UTF-8, and in hexadecimal where not. NULL is `NULL`, and
    /// dates and times are as the server's own client shows them.
    Quoted,
}
