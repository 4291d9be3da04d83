//! How a server reads a text, by its SQL mode.
//!
//! Two modes change where a string ends. In NO_BACKSLASH_ESCAPES a backslash is a byte like any
//! other. In ANSI_QUOTES double quotes are those of identifiers. What is made for a server in one
//! mode may be something else in another.
//!
//!     let mode = Mode { no_backslash_escapes: true, ansi_quotes: false };
//!     let safe = is_safe_to_quote(45);       // literals in quotes are safe in utf8mb4_general_ci

ghost use Rattle.mysql_bytes.specs.Modes.{hides_quotes, is_known_mode, is_one_of, is_safe_to_quote as is_safe};
ghost use Rattle.mysql_bytes.specs.Modes.{mode_of_sql_mode, mode_of_status, names_of_sql_mode, within_blanks};
ghost use Rattle.std.specs.List.{list_all, list_any};
ghost use Rattle.std.specs.Prelude.{◌≡◌, map};
ghost use Rattle.std.specs.Str.{str_eq_ignore_ascii_case};

use bitflags::Flags;
use mysql_const::StatusFlags;

/// The SQL mode of a server, as far as it changes how a text is read. The default has neither.
///
/// (MySQL Reference Manual, "Server SQL Modes".)
#[derive(Clone, Copy, Debug, Default, PartialEq, Eq, Hash)]
pub struct Mode {
    /// A backslash in a string is a byte like any other.
    pub no_backslash_escapes: bool,
    /// Double quotes are those of identifiers, as backticks are.
    pub ansi_quotes: bool,
}

/// MariaDB's bit of a status for ANSI_QUOTES, which [`StatusFlags`] has no name for.
const SERVER_STATUS_ANSI_QUOTES: StatusFlags = StatusFlags(0x8000);

impl Mode {
    /// The mode that the status of a server tells, as an OK packet or an EOF packet has it.
    ///
    /// MySQL tells NO_BACKSLASH_ESCAPES in its status and not ANSI_QUOTES, for which the bit is
    /// MariaDB's. Where a MySQL server may be in ANSI_QUOTES, take the variable `sql_mode`, as
    /// session tracking tells it, and [`Mode::of_sql_mode`].
    ///
    /// Promise: each part of the mode is its bit of the status (`mode_of_status`).
    ///
    /// (MySQL: Client/Server Protocol, "Status Flags"; MariaDB Server Documentation, "OK_Packet"
    /// (server status).)
    pub fn of(status: StatusFlags) -> Mode
        ensures { result ≡ mode_of_status status.0 }
    {
        Mode {
            no_backslash_escapes: status.contains(StatusFlags::SERVER_STATUS_NO_BACKSLASH_ESCAPES),
            ansi_quotes: status.contains(SERVER_STATUS_ANSI_QUOTES),
        }
    }

    /// The mode that the value of the variable `sql_mode` tells.
    ///
    /// It has names between commas, their letters in any case; blanks around them don't count.
    ///
    /// ANSI_QUOTES is also told by each name that has it among others. These are ANSI, and DB2, MAXDB,
    /// ORACLE and POSTGRESQL, which MariaDB has, and MySQL before 8.0. Those bring PIPES_AS_CONCAT
    /// and IGNORE_SPACE too, which change nothing of where a string or a name ends. ORACLE also
    /// makes placeholders of `:1` and `:A`, which aren't placeholders here. The other names of both
    /// manuals say nothing of how a text is read, and an empty value tells the default mode.
    ///
    /// None where it has a name that neither manual lists, or MSSQL, in which `[` and `]` quote a
    /// name: the mode isn't known then. Take `Spelling::Hexadecimal` or executions.
    ///
    /// Promise: each part of the mode is whether the value has one of its names. There is no mode
    /// exactly where one of the names isn't known (`mode_of_sql_mode`).
    ///
    /// (MySQL Reference Manual, "Server SQL Modes" (Combination SQL Modes), also of 5.7, "Server
    /// Tracking of Client Session State"; MariaDB Server Documentation, "SQL_MODE".)
    pub fn of_sql_mode(value: &[u8]) -> Option<Mode>
        ensures { result ≡ mode_of_sql_mode value.now }
    {
        if !are_known(value) {
            return None;
        }
        Some(Mode {
            no_backslash_escapes: tells_one_of(value, &MODES_WITHOUT_ESCAPES),
            ansi_quotes: tells_one_of(value, &MODES_WITH_ANSI_QUOTES),
        })
    }
}

const MODES_WITHOUT_ESCAPES: [&[u8]; 1] = [b"NO_BACKSLASH_ESCAPES"];

const MODES_WITH_ANSI_QUOTES: [&[u8]; 6] = [
    b"ANSI_QUOTES",
    b"ANSI",
    b"DB2",
    b"MAXDB",
    b"ORACLE",
    b"POSTGRESQL",
];

// All others that either manual lists, but for MSSQL, and the empty name.
const MODES_OF_OTHER_THINGS: [&[u8]; 29] = [
    b"",
    b"ALLOW_INVALID_DATES",
    b"EMPTY_STRING_IS_NULL",
    b"ERROR_FOR_DIVISION_BY_ZERO",
    b"HIGH_NOT_PRECEDENCE",
    b"IGNORE_BAD_TABLE_OPTIONS",
    b"IGNORE_SPACE",
    b"MYSQL323",
    b"MYSQL40",
    b"NO_AUTO_CREATE_USER",
    b"NO_AUTO_VALUE_ON_ZERO",
    b"NO_DIR_IN_CREATE",
    b"NO_ENGINE_SUBSTITUTION",
    b"NO_FIELD_OPTIONS",
    b"NO_KEY_OPTIONS",
    b"NO_TABLE_OPTIONS",
    b"NO_UNSIGNED_SUBTRACTION",
    b"NO_ZERO_DATE",
    b"NO_ZERO_IN_DATE",
    b"ONLY_FULL_GROUP_BY",
    b"PAD_CHAR_TO_FULL_LENGTH",
    b"PIPES_AS_CONCAT",
    b"REAL_AS_FLOAT",
    b"SIMULTANEOUS_ASSIGNMENT",
    b"STRICT_ALL_TABLES",
    b"STRICT_TRANS_TABLES",
    b"TIME_ROUND_FRACTIONAL",
    b"TIME_TRUNCATE_FRACTIONAL",
    b"TRADITIONAL",
];

fn same_name(name: &[u8], other: &[u8]) -> bool
    ensures { result ≡ str_eq_ignore_ascii_case name.now other.now }
{
    name.eq_ignore_ascii_case(other)
}

fn is_listed(name: &[u8], names: &[&[u8]]) -> bool
    ensures { result ≡ is_one_of (map (λ listed. listed.now) names.now) name.now }
{
    names.iter().any(|listed| same_name(name, listed))
}

/// A name without the blanks around it.
fn within(name: &[u8]) -> &[u8]
    ensures { result.now ≡ within_blanks name.entry.now }
{
    name.trim_ascii()
}

fn is_known(name: &[u8]) -> bool
    ensures { result ≡ is_known_mode name.now }
{
    is_listed(name, &MODES_WITHOUT_ESCAPES)
        || is_listed(name, &MODES_WITH_ANSI_QUOTES)
        || is_listed(name, &MODES_OF_OTHER_THINGS)
}

/// Whether each name in the value of `sql_mode` tells how a text is read.
fn are_known(value: &[u8]) -> bool
    ensures { result ≡ list_all is_known_mode (names_of_sql_mode value.now) }
{
    value
        .split(|b| *b == b',')
        .all(|name| is_known(within(name)))
}

/// Whether one of some names stands in the value of `sql_mode`.
fn tells_one_of(value: &[u8], names: &[&[u8]]) -> bool
    ensures { result ≡ list_any (is_one_of (map (λ listed. listed.now) names.now))
        (names_of_sql_mode value.now) }
{
    value
        .split(|b| *b == b',')
        .any(|name| is_listed(within(name), names))
}

// Collations of big5, sjis, gb2312, gbk, cp932 and gb18030, in this order.
const COLLATIONS_THAT_HIDE_QUOTES: [u16; 12] = [1, 84, 13, 88, 86, 28, 87, 95, 96, 248, 249, 250];

fn may_hide_quotes(collation: u16) -> bool
    ensures { result ≡ hides_quotes collation }
{
    COLLATIONS_THAT_HIDE_QUOTES
        .iter()
        .any(|listed| *listed == collation)
}

/// Whether literals in quotes are safe in a text of this collation, by its id.
///
/// In some character sets a quote, a backslash or a backtick can be the second byte of a character.
/// A server that reads a text so may take the byte before a quote and the quote for one character,
/// and the string goes on. There take literals in hexadecimal, or an execution.
///
/// False for collations of big5, sjis, gbk, cp932 and gb18030, for gb2312_bin, and for MariaDB's of
/// these without padding, whose ids are greater by 1024.
///
/// Promise: exactly the ids of such collations are refused (`is_safe_to_quote`).
///
/// (MySQL Reference Manual, "Supported Character Sets and Collations"; MariaDB Server
/// Documentation, "Supported Character Sets and Collations".)
pub fn is_safe_to_quote(collation: u16) -> bool
    ensures { result ≡ is_safe collation }
{
    let without_padding = 1024 <= collation && may_hide_quotes(collation - 1024);
    !(may_hide_quotes(collation) || without_padding)
}
