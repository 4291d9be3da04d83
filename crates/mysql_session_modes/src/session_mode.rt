//! The SQL mode and the character set of a session, as far as its server told them.
//!
//! No status, no login and no silence tells either. A procedure's mode stays in the status of
//! MariaDB, MySQL's has no bit of ANSI_QUOTES, and `init_connect` changes both behind a login.
//!
//!     let mut session = SessionMode::unknown();
//!     session = session.behind_text(ASK_SESSION_MODE);
//!     session = session.behind_ok(&reply);
//!     let query = Query::new_in(alloc, text, id, mode, session.spelling())?;

ghost use Rattle.std.specs.Prelude.{◌≡◌, ◌||◌, List, codes, not, ℕ};
ghost use Rattle.mysql_session_modes.specs.SessionModes.{BehindText, is_ascii, is_keeping, is_one};
ghost use Rattle.mysql_session_modes.specs.SessionModes.{is_plain_set, is_safe, kept_behind, kept_by};
ghost use Rattle.mysql_session_modes.specs.SessionModes.{kept_by_set, mode_read, spelling_in, unknown_mode};
ghost use Rattle.mysql_session_modes.specs.Texts.{has_word};
ghost use Rattle.mysql_queries.specs.Tokens.{HasTokens};

use crate::texts::{ends_at_semicolon, first_word, is_one_statement};
use crate::words::{has_rare_word, has_statement, is_listed};
use mysql_bytes::{Mode, Spelling};
use mysql_queries::laws::tokens_of_a_text;

/// The text that asks a server for the mode and the character set of its session.
///
/// It may be sent any number of times, at each server. It keeps all that was tracked. Without the
/// capability CLIENT_SESSION_TRACK its OK tells nothing, and texts stay in hexadecimal.
///
/// MySQL Reference Manual, "Server Tracking of Client Session State".
pub const ASK_SESSION_MODE: &[u8] =
    b"SET session_track_system_variables = '*', sql_mode = @@sql_mode, character_set_client = @@character_set_client";

/// What is known of a session's mode and character set. The default is that nothing is.
///
/// MySQL Reference Manual, "Server SQL Modes", "Connection Character Sets and Collations", "Server
/// Tracking of Client Session State".
#[derive(Clone, Copy, Debug, Default, PartialEq, Eq, Hash)]
pub struct SessionMode {
    /// The mode, where it is known. None too where still other quotes are in force.
    pub mode: Option<Mode>,
    /// Whether quotes and backslashes are themselves in `character_set_client`, where it is known.
    pub is_safe_set: Option<bool>,
    /// What the reply to the last text tells counts.
    pub counts: bool,
}

// First words of statements that change neither the mode nor the set.
const KEEPING_WORDS: [&[u8]; 34] = [
    b"SELECT",
    b"INSERT",
    b"UPDATE",
    b"DELETE",
    b"COMMIT",
    b"ROLLBACK",
    b"START",
    b"REPLACE",
    b"WITH",
    b"CALL",
    b"SHOW",
    b"USE",
    b"DO",
    b"SAVEPOINT",
    b"RELEASE",
    b"EXPLAIN",
    b"DESCRIBE",
    b"DESC",
    b"CREATE",
    b"ALTER",
    b"DROP",
    b"TRUNCATE",
    b"RENAME",
    b"LOCK",
    b"UNLOCK",
    b"GRANT",
    b"REVOKE",
    b"ANALYZE",
    b"OPTIMIZE",
    b"CHECK",
    b"VALUES",
    b"TABLE",
    b"KILL",
    b"FLUSH",
];

const BEGIN: [&[u8]; 1] = [b"BEGIN"];

const SET: [&[u8]; 1] = [b"SET"];

// A statement with this first word changes neither.
fn is_keeping(word: &[u8], text: &[u8]) -> bool
    ensures { result ≡ is_keeping word.now text.now }
{
    is_listed(word, &KEEPING_WORDS) || (is_listed(word, &BEGIN) && !has_rare_word(b"not", text))
}

// All of its bytes are ASCII's.
fn is_ascii(text: &[u8]) -> bool
    ensures { result ≡ is_ascii text.now }
{
    text.iter().all(|b| *b < 0x80)
}

// A SET whose words are all there as ASCII, behind which what is told counts.
fn is_plain_set(word: &[u8], text: &[u8], counts: bool) -> bool
    requires { counts ≡ not (has_word (codes "statement") text.now) }
    ensures { result ≡ is_plain_set word.now text.now }
{
    is_listed(word, &SET) && is_ascii(text) && counts
}

// A text may set `character_set_client`.
fn may_set_characters(text: &[u8]) -> bool
    ensures { result ≡ (has_word (codes "character") text.now || (has_word (codes "charset") text.now
        || has_word (codes "names") text.now)) }
{
    has_rare_word(b"character", text)
        || has_rare_word(b"charset", text)
        || has_rare_word(b"names", text)
}

impl SessionMode {
    /// Of a session of which nothing is known: behind a login, a change of user, or a reset.
    pub fn unknown() -> SessionMode
        ensures { result ≡ unknown_mode }
    {
        SessionMode {
            mode: None,
            is_safe_set: None,
            counts: false,
        }
    }

    // Both are known, and quotes are safe.
    fn is_safe(self) -> bool
        ensures { result ≡ is_safe self }
    {
        self.mode.is_some() && self.is_safe_set == Some(true)
    }

    // Behind a SET that is one statement.
    fn kept_by_set(self, text: &[u8]) -> SessionMode
        ensures { result ≡ kept_by_set text.now self }
    {
        SessionMode {
            mode: if has_rare_word(b"sql_mode", text) {
                None
            } else {
                self.mode
            },
            is_safe_set: if may_set_characters(text) {
                None
            } else {
                self.is_safe_set
            },
            counts: self.counts,
        }
    }

    // Behind one statement with this first word.
    fn kept_by(self, word: &[u8], text: &[u8], counts: bool) -> SessionMode
        requires { counts ≡ not (has_word (codes "statement") text.now) }
        ensures { result ≡ kept_by word.now text.now self }
    {
        if is_keeping(word, text) {
            self
        } else if is_plain_set(word, text, counts) {
            self.kept_by_set(text)
        } else {
            SessionMode::unknown()
        }
    }

    // The mode by which a text is read.
    fn mode_read(self) -> Mode
        ensures { result ≡ mode_read self }
    {
        match self.mode {
            Some(mode) => mode,
            None => Mode::default(),
        }
    }

    // A text is one statement.
    fn is_one(self, text: &[u8]) -> bool
        ensures { (tokens : List (List ℕ)) → HasTokens (mode_read self) text.now tokens →
            result ≡ is_one tokens text.now self }
    {
        ends_at_semicolon(text) || (self.is_safe() && is_one_statement(text, self.mode_read()))
    }

    // Behind a text, but for what its reply tells.
    fn kept_behind(self, text: &[u8], counts: bool) -> SessionMode
        requires { counts ≡ not (has_word (codes "statement") text.now) }
        ensures { (tokens : List (List ℕ)) → HasTokens (mode_read self) text.now tokens →
            result ≡ kept_behind tokens text.now self }
    {
        if !self.is_one(text) {
            return SessionMode::unknown();
        }
        self.kept_by(first_word(text, self.mode_read()), text, counts)
    }

    /// Behind a statement that is sent as this text, or executed as it was prepared of it.
    ///
    /// Call it for each, before its reply is looked at, whether it is answered or refused. Behind a
    /// prepare, a close, a ping and the like what is known stays.
    ///
    /// Promise: both stay behind one statement that begins with a word that changes neither. Behind a
    /// SET the one that it may set isn't known. Behind all else neither is (`BehindText`).
    ///
    /// MySQL Reference Manual, "Stored Objects", "SET Syntax for Variable Assignment"; MariaDB
    /// Server Documentation, "SET STATEMENT".
    #[tactic(auto, unfolding(crate::specs::SessionModes::mode_behind_tokens))]
    pub fn behind_text(self, text: &[u8]) -> SessionMode
        ensures { BehindText text.now self result }
    {
        tokens_of_a_text();
        let counts = !has_statement(text);
        let kept = self.kept_behind(text, counts);
        SessionMode {
            mode: kept.mode,
            is_safe_set: kept.is_safe_set,
            counts,
        }
    }

    /// How texts are to be spelled: in quotes where both are known and safe, else in hexadecimal.
    ///
    /// Text in hexadecimal is safe of a query that has the same tokens in all modes, as one without
    /// backslashes has. An execution is safe of each query.
    ///
    /// MySQL Reference Manual, "Hexadecimal Literals".
    pub fn spelling(self) -> Spelling
        ensures { result ≡ spelling_in self }
    {
        if self.is_safe() {
            Spelling::Quoted
        } else {
            Spelling::Hexadecimal
        }
    }
}
