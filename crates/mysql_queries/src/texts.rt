//! Texts of a query with literals in the places of its placeholders.
//!
//!     let places = places(alloc, query)?;
//!     let contents = read_text(alloc, query, &places, text)?;

ghost use Rattle.mysql_queries.specs.LiteralRuns.{IsLiteralRun};
ghost use Rattle.mysql_queries.specs.LiteralViews.{IsNoLiteral};
ghost use Rattle.mysql_queries.specs.Literals.{IsLiteral};
ghost use Rattle.mysql_queries.specs.Queries.{HasPlaces};
ghost use Rattle.mysql_queries.specs.Sql.{read_by, read_by_default, read_in};
ghost use Rattle.mysql_queries.specs.TextViews.{TellsContents};
ghost use Rattle.std.specs.List.{AllByRecursion};
ghost use Rattle.std.specs.Prelude.{◌++◌, ◌≡◌, IfNone, IfOk, IfSome, List, true, ℕ};

use crate::literals::{Literal, read_literal_in};
use crate::placeholders::Place;
use mysql_bytes::{ByteString, Content, Mode, Spelling};
use std::alloc::{AllocError, Global};

/// The content of the literal at the front of a text, and what follows it; None where no literal stands there.
fn read_content<'a>(
    alloc: Global,
    text: &'a [u8],
    mode: Mode,
    spelling: Spelling,
) -> Result<Option<(Content, &'a [u8])>, AllocError>
    ensures found { IfOk result (λ found. IfSome found (λ x. (run : List ℕ) × (text.entry.now ≡ run ++ x.1.now)
        × IsLiteralRun mode spelling run x.1.now × IsLiteral mode spelling run x.0)) }
    ensures none { IfOk result (λ found. IfNone found (IsNoLiteral mode spelling text.entry.now)) }
{
    let mut buf = Vec::new(alloc);
    match read_literal_in(text, mode, spelling, &mut buf)? {
        Some((Literal::Null, rest)) => Ok(Some((Content::Null, rest))),
        Some((Literal::Number(number), rest)) => Ok(Some((Content::Number(number), rest))),
        Some((Literal::Bytes, rest)) => {
            Ok(Some((Content::Bytes(ByteString::from_vec(buf)), rest)))
        }
        None => Ok(None),
    }
}

/// Reads a text as the query with literals in its places, and gives their contents in order.
///
/// `places` are the query's placeholders, as [`places`](crate::placeholders::places) lists them,
/// and each of them stands alone. None where the text is not the query's pieces with literals
/// between them.
///
/// **Read as** by a server in the default mode, without introducers: [`read_text_in`] takes the mode
/// and the spelling.
///
/// Promise: the contents are those of the text over the query, by its pieces and by its tokens.
/// None says that no contents satisfy it (`Slices`, `Lexes`).
///
/// # Errors
/// - `AllocError` for want of memory.
pub fn read_text(
    alloc: Global,
    query: &[u8],
    places: &[Place],
    text: &[u8],
) -> Result<Option<Vec<Content>>, AllocError>
    requires places { HasPlaces (read_by_default query.now) places.now }
    requires alone { AllByRecursion (λ place. place.alone ≡ true) places.now }
    ensures { IfOk result (λ found. TellsContents (read_by_default query.now) text.now found) }
{
    read_text_in(
        alloc,
        query,
        places,
        text,
        Mode::default(),
        Spelling::Quoted,
    )
}

/// Reads a text as the query with literals in its places, for a server in this mode.
///
/// It gives their contents in order. By `Spelling::Hexadecimal` literals behind an introducer are
/// read too, as [`read_literal_in`] says.
///
/// `places` are the query's placeholders, as [`places_in`](crate::placeholders::places_in) lists
/// them for the mode, and each of them stands alone. None where the text is not the query's pieces
/// with literals between them.
///
/// Promise: the contents are those of the text over the query, by its pieces and by its tokens.
/// None says that no contents satisfy it (`Slices`, `Lexes`).
///
/// # Errors
/// - `AllocError` for want of memory.
///
/// (MySQL Reference Manual, "Literal Values", "Character Set Introducers", "Server SQL Modes".)
pub fn read_text_in(
    alloc: Global,
    query: &[u8],
    places: &[Place],
    text: &[u8],
    mode: Mode,
    spelling: Spelling,
) -> Result<Option<Vec<Content>>, AllocError>
    requires places { HasPlaces (read_in mode query.now) places.now }
    requires alone { AllByRecursion (λ place. place.alone ≡ true) places.now }
    ensures { IfOk result (λ found. TellsContents (read_by mode spelling query.now) text.now found) }
{
    let mut contents = Vec::new(alloc);
    let mut at = 0;
    let mut rest = text;
    for place in places {
        let Some(behind) = rest.strip_prefix(&query[at..place.start]) else {
            return Ok(None);
        };
        let Some((content, after)) = read_content(alloc, behind, mode, spelling)? else {
            return Ok(None);
        };
        contents.push(content)?;
        rest = after;
        at = place.end;
    }
    if rest == &query[at..] {
        Ok(Some(contents))
    } else {
        Ok(None)
    }
}
