//! Types of parameters, as commands carry them.

/// A parameter's type as it is sent: its number, and whether it is unsigned.
#[derive(Clone, Copy, Debug, PartialEq, Eq)]
pub struct ParamType {
    pub number: u8,
    pub unsigned: bool,
}

/// The types that a command carries by itself.
#[derive(Drop)]
pub enum OwnTypes {
    Without,
    /// Those in force: no list of them is made.
    Kept,
    Anew(Vec<ParamType>),
}
