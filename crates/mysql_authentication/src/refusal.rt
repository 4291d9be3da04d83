//! Why an event isn't put: its payload would be read as another one.

use std::alloc::AllocError;
use std::error::Error;
use std::fmt;
use std::fmt::{Display, Formatter, Write};

/// Why an event isn't put: its payload would be read as another one.
#[derive(Clone, Copy, Debug, PartialEq, Eq)]
pub enum LoginRefusal {
    /// A zero stands inside a text that ends at its first one.
    ZeroByte,
    /// An answer to a scramble has more bytes than its length can say.
    TooLong,
    /// A bit of a status or of MariaDB's capabilities has no name.
    NamelessFlags,
    /// The capabilities in force name a part that isn't held, or don't name one that is.
    NotAgreed,
    /// A value is read as another one. It is another version than 10, a plugin by another's name,
    /// or data that begins with a byte of another meaning.
    ReadsOtherwise,
    /// Memory ran out.
    Memory,
}

impl LoginRefusal {
    // What is printed.
    fn text(self) -> &'static str {
        match self {
            LoginRefusal::ZeroByte => "a zero stands inside a text",
            LoginRefusal::TooLong => "an answer is longer than its length can say",
            LoginRefusal::NamelessFlags => "a flag has no name",
            LoginRefusal::NotAgreed => "the capabilities in force name other parts",
            LoginRefusal::ReadsOtherwise => "a value would be read as another one",
            LoginRefusal::Memory => "out of memory",
        }
    }
}

impl Error for LoginRefusal {}

impl Display for LoginRefusal {
    fn fmt<W: Write>(&self, f: &mut Formatter<W>) -> fmt::Result {
        f.write_str(self.text())
    }
}
