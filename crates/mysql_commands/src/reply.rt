//! What the front of a payload tells: how the reply reads, and which statement the command is about.
//!
//!     let parameters = Command::statement_id(payload).and_then(|id| statements.get(id));
//!     let command = Command::read(alloc, capabilities, parameters, payload)?;
//!     let reply = Command::reply(payload);

ghost use Rattle.std.specs.Prelude.{◌≡◌};
ghost use Rattle.mysql_commands.specs.Replies.{id_at, reply_to, statement_of};

use crate::command::Command;
use mysql_buf::ParseBuf;

/// How the reply to a command reads.
///
/// MySQL: Client/Server Protocol, "Command Phase"; MariaDB: Client/Server Protocol, "4 - Server
/// Response Packets".
#[derive(Clone, Copy, Debug, PartialEq, Eq)]
pub enum Reply {
    /// There is none.
    Missing,
    /// An OK, an error or an EOF packet.
    Plain,
    /// Results, one after another, whose rows come as text.
    Text,
    /// Results, one after another, whose rows come in binary.
    Binary,
    /// A statement that was prepared.
    Prepared,
    /// One text, or an error.
    Line,
    /// Columns of a table with their defaults.
    Columns,
    /// Binary rows of an open cursor.
    Rows,
    /// An exchange of packets by which a user logs in.
    Authentication,
    /// An error, or the first payload of what goes on in a form of its own. That is a binary log, a
    /// table's bytes, or a clone.
    First,
}

/// A statement's id.
fn id_of(bytes: &[u8]) -> Option<u32>
    ensures { result ≡ id_at bytes.now }
{
    ParseBuf(bytes).checked_eat_u32_le()
}

impl<'a> Command<'a> {
    /// How the reply to a payload reads, by the payload's first byte. That holds also where the
    /// payload isn't laid out as the byte says. It is plain where the byte is no command's, or
    /// missing.
    ///
    /// Promise: exactly the kind that the table of replies has for that byte (`reply_to`).
    ///
    /// MySQL: Client/Server Protocol, "Command Phase".
    pub fn reply(payload: &[u8]) -> Reply
        ensures { result ≡ reply_to payload.now }
    {
        match payload {
            [0x01 | 0x18 | 0x19, ..] => Reply::Missing,
            [0x03 | 0x0a, ..] => Reply::Text,
            [0x04, ..] => Reply::Columns,
            [0x09, ..] => Reply::Line,
            [0x11, ..] => Reply::Authentication,
            [0x12 | 0x13 | 0x1e | 0x20, ..] => Reply::First,
            [0x16, ..] => Reply::Prepared,
            [0x17 | 0xfa, ..] => Reply::Binary,
            [0x1c, ..] => Reply::Rows,
            _ => Reply::Plain,
        }
    }

    /// The id of the statement that a payload is about. An execution, also a bulk one, long data, a
    /// fetch, a reset and a close have one. They have it also where they aren't laid out so behind
    /// it.
    ///
    /// Promise: exactly the four bytes behind such a command's number (`statement_of`).
    ///
    /// MySQL: Client/Server Protocol, "Prepared Statements".
    pub fn statement_id(payload: &[u8]) -> Option<u32>
        ensures { result ≡ statement_of payload.now }
    {
        match payload {
            [0x17 | 0x18 | 0x19 | 0x1a | 0x1c | 0xfa, bytes @ ..] => id_of(bytes),
            _ => None,
        }
    }
}
