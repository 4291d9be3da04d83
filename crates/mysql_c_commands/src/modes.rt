//! The flags by which C tells the mode of a server and how byte strings are spelled.

ghost use Rattle.std.specs.Option.{option_map};
ghost use Rattle.std.specs.Prelude.{◌≡◌, None, Some, false, true};
ghost use Rattle.mysql_values.specs.Modes.{is_safe_to_quote as is_safe, mode_of_sql_mode as told_by_variable};
ghost use Rattle.mysql_values.specs.Modes.{mode_of_status as told_by_status};
ghost use Rattle.mysql_c_commands.specs.Modes.{flagged, mode_number, unknown_mode};

use mysql_session::StatusFlags;
use mysql_values::{Mode, Spelling};

/// The flags of a mode that isn't known.
const UNKNOWN_MODE: u32 = 8;

/// The mode and the spelling that flags tell.
///
/// The flags are 1 for NO_BACKSLASH_ESCAPES, 2 for ANSI_QUOTES, 4 for byte strings in hexadecimal.
pub(crate) fn mode_of(flags: u32) -> Option<(Mode, Spelling)>
    ensures { result ≡ flagged flags }
{
    if flags >= 8 {
        return None;
    }
    let mode = Mode {
        no_backslash_escapes: flags & 1 == 1,
        ansi_quotes: flags & 2 == 2,
    };
    let spelling = if flags & 4 == 4 {
        Spelling::Hexadecimal
    } else {
        Spelling::Quoted
    };
    Some((mode, spelling))
}

/// The flags that tell a mode, byte strings in quotes.
fn flags_of(mode: Mode) -> u32
    ensures told { flagged result ≡ Some (mode, Spelling.Quoted) }
    ensures flags { result ≡ mode_number (Some mode) }
{
    match (mode.no_backslash_escapes, mode.ansi_quotes) {
        (false, false) => 0,
        (true, false) => 1,
        (false, true) => 2,
        (true, true) => 3,
    }
}

/// The flags that tell the mode of a server by its status, as its OK packets have it.
///
/// MySQL's status doesn't tell ANSI_QUOTES: [`mode_of_sql_mode`] does. Behind a procedure that changed
/// the mode a status may tell another one than the server is in.
///
/// Promise: the mode that the flags tell is the status's (`mode_of_status`).
///
/// (MySQL: Client/Server Protocol, "Status Flags"; MariaDB Server Documentation, "OK_Packet"
/// (server status).)
pub fn mode_of_status(status: u16) -> u32
    ensures { flagged result ≡ Some (told_by_status status, Spelling.Quoted) }
{
    flags_of(Mode::of(StatusFlags(status)))
}

/// The flags that tell the mode of a server by the value of its variable `sql_mode`.
///
/// Where one of its names isn't known they are 8, which no call takes: each answers that there is no
/// such mode.
///
/// Promise: the mode that the flags tell is the value's, and they are 8 where it has none
/// (`mode_of_sql_mode`).
///
/// (MySQL Reference Manual, "Server SQL Modes"; MariaDB Server Documentation, "SQL_MODE".)
pub fn mode_of_sql_mode(value: &[u8]) -> u32
    ensures told { flagged result ≡ option_map (λ mode. (mode, Spelling.Quoted)) (told_by_variable value.now) }
    ensures unknown { told_by_variable value.now ≡ None → result ≡ unknown_mode }
{
    mode_flags(Mode::of_sql_mode(value))
}

/// The flags that tell a mode, and 8 where it isn't known.
pub(crate) fn mode_flags(mode: Option<Mode>) -> u32
    ensures told { flagged result ≡ option_map (λ mode. (mode, Spelling.Quoted)) mode }
    ensures flags { result ≡ mode_number mode }
{
    match mode {
        Some(mode) => flags_of(mode),
        None => UNKNOWN_MODE,
    }
}

/// 1 where literals in quotes are safe in a text that a server reads in this collation, else 0.
///
/// Promise: exactly the ids of collations in which quotes are no safe ends are refused
/// (`is_safe_to_quote`).
///
/// (MySQL Reference Manual, "Supported Character Sets and Collations".)
pub fn is_safe_to_quote(collation: u16) -> u32
    ensures safe { is_safe collation ≡ true → result ≡ 1 }
    ensures hidden { is_safe collation ≡ false → result ≡ 0 }
{
    if mysql_values::is_safe_to_quote(collation) {
        1
    } else {
        0
    }
}
