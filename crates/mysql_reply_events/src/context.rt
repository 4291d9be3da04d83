//! What a reply is read by.

ghost use Rattle.std.specs.Prelude.{◌≡◌};
ghost use Rattle.mysql_reply_events.specs.Readings.{cached_metadata, deprecate_eof, is_binary, optional_metadata};

use bitflags::Flags;
use mysql_const::{Capabilities, CapabilityFlags, MariadbCapabilities};

/// The kind of command that a reply answers.
///
/// MySQL: Client/Server Protocol, "Command Phase"; MariaDB: "Replication Protocol".
#[derive(Clone, Copy, Debug, PartialEq, Eq)]
pub enum ReplyKind {
    /// COM_QUERY and COM_PROCESS_INFO: results one after another, whose rows come as text.
    Text,
    /// COM_STMT_EXECUTE and MariaDB's bulk execution: results, whose rows come in binary.
    Binary,
    /// COM_STMT_PREPARE: a statement, its parameters and its columns.
    Prepare,
    /// Commands without a result, as COM_PING: an OK packet, or an EOF packet in its place.
    Plain,
    /// COM_STATISTICS, whose answer is one text. Also the first payload of what goes on in a form
    /// of its own: a binary log, a table's dump, a clone.
    Line,
    /// COM_FIELD_LIST: columns of a table with their default values.
    FieldList,
    /// COM_STMT_FETCH: binary rows of an open cursor, under the columns that the statement has.
    Fetch,
}

impl ReplyKind {
    /// Rows are binary.
    pub fn has_binary_rows(self) -> bool
        ensures { result ≡ is_binary self }
    {
        match self {
            ReplyKind::Binary | ReplyKind::Fetch => true,
            _ => false,
        }
    }
}

/// The command's kind and the capabilities in force on the connection.
#[derive(Clone, Copy, Debug, PartialEq, Eq)]
pub struct Context {
    pub kind: ReplyKind,
    pub capabilities: Capabilities,
}

impl Context {
    /// No EOF packet comes behind columns, and an OK packet ends rows.
    #[tactic(auto, unfolding(bitflags::proofs::OnLiterals::bitflags_on_literals))]
    pub fn deprecates_eof(self) -> bool
        ensures { result ≡ deprecate_eof self }
    {
        self.capabilities
            .protocol
            .contains(CapabilityFlags::CLIENT_DEPRECATE_EOF)
    }

    /// MySQL's byte says whether columns follow.
    #[tactic(auto, unfolding(bitflags::proofs::OnLiterals::bitflags_on_literals))]
    pub fn has_optional_metadata(self) -> bool
        ensures { result ≡ optional_metadata self }
    {
        self.capabilities
            .protocol
            .contains(CapabilityFlags::CLIENT_OPTIONAL_RESULTSET_METADATA)
    }

    /// MariaDB's byte says whether columns follow.
    #[tactic(auto, unfolding(bitflags::proofs::OnLiterals::bitflags_on_literals))]
    pub fn has_cached_metadata(self) -> bool
        ensures { result ≡ cached_metadata self }
    {
        self.capabilities
            .mariadb
            .contains(MariadbCapabilities::MARIADB_CLIENT_CACHE_METADATA)
    }
}
