//! The SQL text of a value: the literal that stands for it in a query.
//!
//!     let number = Value::Int(-1).as_sql(alloc, false)?;
//!     let text = value.as_sql(alloc, no_backslash_escape)?;

ghost use Rattle.mysql_literals.specs.AsSql.{EachHexadecimalIsSafe, EachSqlIsLiteral, HasLiteral, OneHexadecimal};
ghost use Rattle.mysql_literals.specs.AsSql.{PutsLiteral, PutsSql, SqlIsLiteral};
ghost use Rattle.mysql_queries.specs.Sql.{default_mode};
ghost use Rattle.mysql_literals.specs.Literals.{literal_of, spelled_sql, sql_of};
ghost use Rattle.mysql_cells.specs.Values.{with_zero_sign};
ghost use Rattle.mysql_cells.specs.declared.value.Value.{Value as ValueOf};
ghost use Rattle.mysql_literals.specs.declared.as_sql.AsSqlError.TheVariants as as_sql_error;
ghost use Rattle.std.specs.Prelude.{◌≡◌, ◌↔◌, Err, IfOk, None, Some, string_bytes};

use crate::date_literal::{put_date, put_time};
use crate::quoting::put_bytes;
use itoa::Buffer;
use mysql_bytes::{Mode, Spelling};
use mysql_cells::Value;
use mysql_cells::date_text::is_zero_time;
use mysql_cells::laws::fields_fit;
use mysql_queries::laws::content_of_a_spelling;
use std::alloc::{AllocError, AllocFailed, Global};
use thiserror::Error;

/// Why a value has no SQL text, in the order in which the causes are looked for.
#[derive(Clone, Copy, Debug, PartialEq, Eq, Error)]
pub enum AsSqlError {
    /// The value is a float.
    #[error("a float has no text here: convert it to a text")]
    Float,
    #[error("out of memory")]
    Memory,
}

impl From<AllocError> for AsSqlError {
    ghost from_gives = { λ _ e. e ≡ as_sql_error.Memory };

    fn from(_e: AllocError) -> AsSqlError {
        AsSqlError::Memory
    }
}

impl<T: Drop> From<AllocFailed<T>> for AsSqlError {
    ghost from_gives = { λ _ e. e ≡ as_sql_error.Memory };

    fn from(_e: AllocFailed<T>) -> AsSqlError {
        AsSqlError::Memory
    }
}

/// The SQL text of a value for a mode is in that mode a literal of what the value means.
pub fn sql_text_is_a_literal()
    ensures { EachSqlIsLiteral }
{
    content_of_a_spelling();
}

/// In hexadecimal spelling literals are the same for each mode, and have safe bytes alone.
///
/// Those are bytes below 80 but the three quotes, the backslash, the star and the slash. Quotes are
/// around a date, a time and no bytes. So a literal is one in every mode. It is one in every character
/// set in which bytes below 80 that follow one another are themselves.
pub fn hexadecimal_is_safe()
    ensures one { OneHexadecimal }
    ensures safe { EachHexadecimalIsSafe }
{}

/// The SQL text of a value is a literal of what it means. So is the literal that is bound for it.
fn text_is_a_literal(value: &Value)
    ensures plain { SqlIsLiteral value.now }
    ensures literal { HasLiteral value.now }
{
    sql_text_is_a_literal();
    fields_fit(value);
}

/// Appends the SQL text of a value for a server in a mode.
///
/// Byte strings are by their spelling. The sign of an all-zero time is written only where it is kept.
/// A refusal may leave a part behind.
///
/// # Errors
/// - `Float` for a float: nothing is appended then.
/// - `Memory`
///
/// Follows the MySQL Reference Manual, "Literal Values", "Character Set Introducers".
pub fn put_sql(
    out: &mut Vec<u8>,
    value: &Value,
    no_backslash_escape: bool,
    spelling: Spelling,
    zero_sign: bool,
) -> Result<(), AsSqlError>
    ensures text { PutsSql (spelled_sql no_backslash_escape spelling (with_zero_sign zero_sign value.now))
        out.old.items out.new.items result }
    ensures plain { SqlIsLiteral value.now }
    ensures literal { HasLiteral value.now }
{
    text_is_a_literal(value);
    match value {
        Value::NULL => out.extend_from_slice(b"NULL")?,
        Value::Bytes(bytes) => put_bytes(out, bytes.as_slice(), no_backslash_escape, spelling)?,
        Value::Int(number) => out.extend_from_slice(Buffer::new().format(*number).as_bytes())?,
        Value::UInt(number) => out.extend_from_slice(Buffer::new().format(*number).as_bytes())?,
        Value::Float(_) | Value::Double(_) => return Err(AsSqlError::Float),
        Value::Date(year, month, day, hour, minute, second, micros) => {
            put_date(out, *year, *month, *day, *hour, *minute, *second, *micros)?
        }
        Value::Time(negative, days, hours, minutes, seconds, micros) => {
            let zero = is_zero_time(*days, *hours, *minutes, *seconds, *micros);
            let signed = *negative && (zero_sign || !zero);
            put_time(out, signed, *days, *hours, *minutes, *seconds, *micros)?
        }
    }
    Ok(())
}

/// Appends the literal of a value for a server in the default mode.
///
/// That is its SQL text, byte strings in quotes, an all-zero time without its sign.
///
/// # Errors
/// - `Float` for a float.
/// - `Memory`.
///
/// `out` is as it was after an error.
///
/// Follows the MySQL Reference Manual, "Literal Values".
pub fn push_literal(out: &mut Vec<u8>, value: &Value) -> Result<(), AsSqlError>
    ensures text { PutsLiteral (literal_of default_mode Spelling.Quoted value.now) out.old.items out.new.items result }
    ensures literal { HasLiteral value.now }
{
    push_literal_in(out, value, Mode::default(), Spelling::Quoted)
}

/// Appends the literal of a value for a server in a mode.
///
/// That is its SQL text, byte strings by their spelling, an all-zero time without its sign.
///
/// # Errors
/// - `Float` for a float.
/// - `Memory`.
///
/// `out` is as it was after an error.
///
/// Follows the MySQL Reference Manual, "Literal Values", "Server SQL Modes".
pub fn push_literal_in(
    out: &mut Vec<u8>,
    value: &Value,
    mode: Mode,
    spelling: Spelling,
) -> Result<(), AsSqlError>
    ensures text { PutsLiteral (literal_of mode spelling value.now) out.old.items out.new.items result }
    ensures literal { HasLiteral value.now }
{
    let start = out.len();
    let put = put_sql(out, value, mode.no_backslash_escapes, spelling, false);
    if put.is_err() {
        out.truncate(start);
    }
    put
}

/// The SQL text of a value. It stands in place of a method of `Value`, which is a type of another crate.
pub trait AsSql {
    // the value
    ghost value: { Self → ValueOf };

    /// The SQL text of the value: `NULL`, digits, or quoted or hexadecimal bytes.
    ///
    /// Dates, times and UTF-8 stand in quotes, other bytes in hexadecimal.
    ///
    /// **Safe for** a server that takes backslash escapes, over a connection in UTF-8. With
    /// `no_backslash_escape` it is for one in the SQL mode NO_BACKSLASH_ESCAPES: single quotes are
    /// doubled, and no other byte is escaped. By the wrong one of both a value may end its literal.
    /// So it may in a character set with a quote or a backslash among the bytes of a character.
    ///
    /// Promise: exactly the stated text of the value is written, in the mode that it is for a
    /// literal of its content (`sql_of`, `SqlIsLiteral`).
    ///
    /// # Errors
    /// - `Float` for a float.
    /// - `Memory`.
    ///
    /// Follows the MySQL Reference Manual, "Literal Values".
    fn as_sql(&self, alloc: Global, no_backslash_escape: bool) -> Result<String, AsSqlError>
        ensures ok { IfOk result (λ text. sql_of no_backslash_escape (value self.now) ≡ Some (string_bytes text)) }
        ensures float { (result ≡ Err AsSqlError.Float) ↔ (sql_of no_backslash_escape (value self.now) ≡ None) }
        ensures literal { SqlIsLiteral (value self.now) };
}

impl AsSql for Value {
    ghost value = { λ value. value };

    fn as_sql(&self, alloc: Global, no_backslash_escape: bool) -> Result<String, AsSqlError> {
        fields_fit(self);
        let mut text = Vec::new(alloc);
        put_sql(&mut text, self, no_backslash_escape, Spelling::Quoted, true)?;
        Ok(unsafe { String::from_utf8_unchecked(text) })
    }
}
