//! The placeholders of a query: question marks, and names such as `:a`.
//!
//!     let places = places(alloc, query)?;
//!     let stand_alone = first_not_alone(&places).is_none();
//!     let is_refused = is_mixed(&places);

ghost use Rattle.mysql_queries.specs.Alone.{is_joining, is_name_kind, meets_string, stands_apart};
ghost use Rattle.mysql_queries.specs.PlaceKinds.{is_place_kind};
ghost use Rattle.mysql_queries.specs.Placing.{not_alone, place_between};
ghost use Rattle.mysql_queries.specs.Tokens.{HasTokens, Mark, kind_of};
ghost use Rattle.mysql_queries.specs.Queries.{HasPlaces, first_not_alone as first_apart};
ghost use Rattle.mysql_queries.specs.Queries.{is_mixed as has_both_kinds};
ghost use Rattle.mysql_queries.specs.Sql.{read_by_default, read_in};
ghost use Rattle.mysql_queries.specs.TokenKinds.{kind_view};
ghost use Rattle.std.specs.List.{AllByRecursion, list_any};
ghost use Rattle.std.specs.Prelude.{
  ◌+◌,
  ◌<◌,
  ◌≡◌,
  ◌≤◌,
  IfNone,
  IfOk,
  IfSome,
  List,
  drop,
  false,
  length,
  map,
  not,
  true,
  ℕ,
};

use crate::alone::{SoFar, string_first};
use crate::tokens::{TokenKind, kind_at, quiet_end, token_end};
use mysql_bytes::Mode;
use std::alloc::{AllocError, Global};

/// A placeholder of a query, from `start` up to `end`: a name such as `:a`, or a question mark.
#[derive(Clone, Copy, Debug, PartialEq, Eq, Drop)]
pub struct Place {
    pub start: usize,
    pub end: usize,
    /// Whether it is a name.
    pub name: bool,
    /// Whether it is alone: a literal in its place is read as that literal by each server.
    ///
    /// No neighbouring byte can run together with the literal, no string is beside it, and servers
    /// agree about the query.
    pub alone: bool,
}

// A `1` at each byte that could run together with a literal.
static JOINING: [u8; 256] = *b"\
    00000000000000000000000000000000\
    00101001000000101111111111100001\
    11111111111111111111111111101001\
    11111111111111111111111111100000\
    11111111111111111111111111111111\
    11111111111111111111111111111111\
    11111111111111111111111111111111\
    11111111111111111111111111111111";

fn joining(b: u8) -> bool
    ensures { result ≡ is_joining b }
{
    JOINING[usize::from(b)] == b'1'
}

fn apart(query: &[u8], start: usize, end: usize) -> bool
    requires order { start ≤ end }
    requires in_range { end ≤ length query.now }
    ensures { result ≡ stands_apart query.now start end }
{
    let before = start == 0 || (!joining(query[start - 1]) && query[start - 1] != b'-');
    let after = end == query.len() || !joining(query[end]);
    before && after
}

/// Whether a placeholder of this kind is a name; None of another token.
fn is_name_of(kind: TokenKind) -> Option<bool>
    ensures found { IfSome result (λ name. (is_place_kind (kind_view kind) ≡ true) ×
        (name ≡ is_name_kind (kind_view kind))) }
    ensures none { IfNone result (is_place_kind (kind_view kind) ≡ false) }
{
    match kind {
        TokenKind::Name => Some(true),
        TokenKind::Mark => Some(false),
        TokenKind::Quoted(_) => None,
        TokenKind::LineComment => None,
        TokenKind::BlockComment => None,
        TokenKind::Opening => None,
        TokenKind::Closing => None,
        TokenKind::Plain => None,
    }
}

/// The placeholder that a token of this kind is in the query, if servers agree about the query; None
/// of a token that is none.
fn place_of(
    query: &[u8],
    so_far: SoFar,
    kind: TokenKind,
    start: usize,
    end: usize,
    mode: Mode,
) -> Option<Place>
    requires order { start < end }
    requires in_range { end ≤ length query.now }
    ensures found { IfSome result (λ place. (is_place_kind (kind_view kind) ≡ true) ×
        ((behind : List (List ℕ)) → HasTokens mode (drop end query.now) behind →
        place ≡ place_between query.now (kind_view kind) start end so_far.opening so_far.string
        (meets_string mode behind))) }
    ensures none { IfNone result (is_place_kind (kind_view kind) ≡ false) }
{
    let name = is_name_of(kind)?;
    let alone = apart(query, start, end)
        && !so_far.opening
        && !so_far.string
        && !string_first(&query[end..], mode);
    Some(Place {
        start,
        end,
        name,
        alone,
    })
}

/// The placeholder that the question mark at a place of the query is, if servers agree about the query.
#[inline(always)]
fn mark_at(query: &[u8], so_far: SoFar, at: usize, mode: Mode) -> Place
    requires { at < length query.now }
    ensures { (behind : List (List ℕ)) → HasTokens mode (drop (at + 1) query.now) behind →
        result ≡ place_between query.now Mark at (at + 1) so_far.opening so_far.string
        (meets_string mode behind) }
{
    let end = at + 1;
    Place {
        start: at,
        end,
        name: false,
        alone: apart(query, at, end)
            && !so_far.opening
            && !so_far.string
            && !string_first(&query[end..], mode),
    }
}

/// The placeholders of a query about which servers disagree: none is alone.
fn none_alone(alloc: Global, places: &[Place]) -> Result<Vec<Place>, AllocError>
    ensures { IfOk result (λ v. v.items ≡ map not_alone places.now) }
{
    let mut found = Vec::new(alloc);
    for place in places {
        found.push(Place {
            start: place.start,
            end: place.end,
            name: place.name,
            alone: false,
        })?;
    }
    Ok(found)
}

/// The placeholders of a query, in order.
///
/// Strings, quoted identifiers and comments hold none. Hints are comments, and so is a simple version
/// comment, as `/*!50000 x */`. The inside of another comment that begins with `/*!` is read as the
/// query's own.
///
/// **Read as** by a server in the default mode: [`places_in`] takes the mode.
///
/// Promise: exactly the placeholders of the query are listed (`HasPlaces`).
pub fn places(alloc: Global, query: &[u8]) -> Result<Vec<Place>, AllocError>
    ensures { IfOk result (λ v. HasPlaces (read_by_default query.now) v.items) }
{
    places_in(alloc, query, Mode::default())
}

/// The placeholders of a query as a server in this mode reads it, in order.
///
/// Strings, quoted identifiers and comments hold none. Hints are comments, and so is a simple version
/// comment, as `/*!50000 x */`. The inside of another comment that begins with `/*!` is read as the
/// query's own.
///
/// Promise: exactly the placeholders of the query are listed (`HasPlaces`).
///
/// (MySQL Reference Manual, "PREPARE Statement" (parameter markers), "Comments", "Optimizer Hints",
/// "Server SQL Modes"; MariaDB Server Documentation, "Comment Syntax".)
pub fn places_in(alloc: Global, query: &[u8], mode: Mode) -> Result<Vec<Place>, AllocError>
    ensures { IfOk result (λ v. HasPlaces (read_in mode query.now) v.items) }
{
    let mut found = Vec::new(alloc);
    let mut at = quiet_end(query, 0);
    let mut so_far = SoFar::new().behind_quiet(&query[..at]);
    while at < query.len() {
        if query[at] == b'?' {
            found.push(mark_at(query, so_far, at, mode))?;
            so_far = so_far.behind_mark();
            at += 1;
        } else {
            let rest = &query[at..];
            let kind = kind_at(rest);
            let len = token_end(rest, kind, mode);
            if let Some(place) = place_of(query, so_far, kind, at, at + len, mode) {
                found.push(place)?;
            }
            so_far = so_far.behind(rest, kind, len, mode);
            at += len;
        }
        let next = quiet_end(query, at);
        so_far = so_far.behind_quiet(&query[at..next]);
        at = next;
    }
    if so_far.agree {
        Ok(found)
    } else {
        none_alone(alloc, &found)
    }
}

fn any_name(places: &[Place]) -> bool
    ensures { result ≡ list_any (λ place. place.name) places.now }
{
    places.iter().any(|place| place.name)
}

fn any_mark(places: &[Place]) -> bool
    ensures { result ≡ list_any (λ place. not place.name) places.now }
{
    places.iter().any(|place| !place.name)
}

/// Whether both kinds of placeholder occur, names and question marks.
pub fn is_mixed(places: &[Place]) -> bool
    ensures { result ≡ has_both_kinds places.now }
{
    any_name(places) && any_mark(places)
}

fn apart_at(places: &[Place]) -> Option<usize>
    ensures { result ≡ first_apart places.now }
{
    places.iter().position(|place| !place.alone)
}

/// The first placeholder that is not alone, counted from 0.
pub fn first_not_alone(places: &[Place]) -> Option<usize>
    ensures first { result ≡ first_apart places.now }
    ensures none { IfNone result (AllByRecursion (λ place. place.alone ≡ true) places.now) }
{
    apart_at(places)
}
