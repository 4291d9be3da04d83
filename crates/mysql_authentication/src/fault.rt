//! Why a payload is none that its phase of logging in has.

use std::error::Error;
use std::fmt;
use std::fmt::{Display, Formatter, Write};

/// Why a payload is none that its phase of logging in has.
///
/// MySQL: Client/Server Protocol, "Connection Phase".
#[derive(Clone, Copy, Debug, PartialEq, Eq)]
pub enum LoginFault {
    /// The greeting has another version than 10, or not both sides speak the protocol of version 4.1.
    OldProtocol,
    /// A greeting can't be read, or is empty.
    BadGreeting,
    /// A client's answer has fewer than the 32 bytes that stand first.
    BadLogin,
    /// No zero ends the name of the plugin that is asked for.
    BadSwitch,
    /// A payload of an authentication is empty.
    BadHeader,
    /// An OK packet can't be read.
    BadOk,
    /// An error can't be read.
    BadError,
    /// Memory ran out.
    Memory,
}

impl LoginFault {
    // What is printed.
    fn text(self) -> &'static str {
        match self {
            LoginFault::OldProtocol => "the protocol is an old one",
            LoginFault::BadGreeting => "the greeting can't be read",
            LoginFault::BadLogin => "the login is cut off",
            LoginFault::BadSwitch => "the request for a plugin can't be read",
            LoginFault::BadHeader => "the payload is empty",
            LoginFault::BadOk => "an OK packet can't be read",
            LoginFault::BadError => "an error can't be read",
            LoginFault::Memory => "out of memory",
        }
    }
}

impl Error for LoginFault {}

impl Display for LoginFault {
    fn fmt<W: Write>(&self, f: &mut Formatter<W>) -> fmt::Result {
        f.write_str(self.text())
    }
}
