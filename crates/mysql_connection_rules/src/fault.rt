//! Why a connection can't be read further.

ghost use Rattle.std.specs.Prelude.{◌≡◌};
ghost use Rattle.mysql_connection_rules.specs.declared.fault.Fault.TheVariants as faults;

use mysql_reply_events::ReplyFault;
use std::alloc::AllocError;
use std::error::Error;
use std::fmt;

/// Why a payload can't be read where it stands.
///
/// MySQL: Client/Server Protocol, "MySQL Packets", "Connection Phase" and "Command Phase".
#[derive(Clone, Copy, Debug, PartialEq, Eq)]
pub enum Fault {
    /// It is longer than the limit of its side.
    TooLarge,
    /// Its packet has this number, and another one is due.
    OutOfSync(u8),
    /// The greeting has another version than 10, or not both sides speak the protocol of version
    /// 4.1.
    OldProtocol,
    /// The greeting can't be read, or stands where none is due.
    BadGreeting,
    /// The client's answer to the greeting is shorter than 32 bytes.
    BadLogin,
    /// No zero ends the name of the plugin that is asked for.
    BadSwitch,
    /// An answer of the server can't be read.
    BadReply(ReplyFault),
    /// The server says what nothing asked for.
    Unasked,
    /// More would be kept of statements, columns and long data than the limit leaves.
    Held,
    /// The client says more behind a quit.
    AfterQuit,
    /// Memory ran out.
    Memory,
}

impl Fault {
    // What is printed.
    fn text(self) -> &'static str {
        match self {
            Fault::TooLarge => "the payload is longer than the limit",
            Fault::OutOfSync(_) => "the packet's number isn't the one that is due",
            Fault::OldProtocol => "the protocol is an old one",
            Fault::BadGreeting => "the greeting can't be read",
            Fault::BadLogin => "the login is cut off",
            Fault::BadSwitch => "the request for a plugin can't be read",
            Fault::BadReply(_) => "the server's answer can't be read",
            Fault::Unasked => "the server says what nothing asked for",
            Fault::Held => "more would be kept than the limit leaves",
            Fault::AfterQuit => "the client says more behind a quit",
            Fault::Memory => "out of memory",
        }
    }
}

impl fmt::Display for Fault {
    fn fmt<W: fmt::Write>(&self, f: &mut fmt::Formatter<W>) -> fmt::Result {
        match self {
            Fault::BadReply(fault) => fault.fmt(f),
            fault => f.write_str(fault.text()),
        }
    }
}

impl Error for Fault {}

impl From<AllocError> for Fault {
    ghost from_gives = { λ _ fault. fault ≡ faults.Memory };

    fn from(_e: AllocError) -> Fault {
        Fault::Memory
    }
}
