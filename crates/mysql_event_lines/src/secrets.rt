//! What a line shows of an authentication.

/// What a line shows of an authentication's bytes, as a password or its scramble.
#[derive(Clone, Copy, Debug, PartialEq, Eq)]
pub enum Secrets {
    /// How many they are alone, as `(20 bytes)`. A log may have such lines.
    Hidden,
    /// All of them.
    Shown,
}
