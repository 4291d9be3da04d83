//! That a server counted another number of parameters than a query has placeholders.

use std::error::Error;
use std::fmt;
use std::fmt::{Display, Formatter, Write};

/// The server counted another number of parameters than the query has placeholders.
///
/// MySQL: Client/Server Protocol, "COM_STMT_PREPARE Response" (num_params).
#[derive(Clone, Copy, Debug, PartialEq, Eq)]
pub struct WrongCount {
    /// How many placeholders the query has.
    pub places: usize,
    /// How many parameters the server counted.
    pub parameters: u16,
}

impl Error for WrongCount {}

impl Display for WrongCount {
    fn fmt<W: Write>(&self, f: &mut Formatter<W>) -> fmt::Result {
        write!(
            f,
            "the query has {} placeholders, and the server counted {} parameters",
            self.places, self.parameters
        )
    }
}
