//! The digest of a statement.

ghost use Rattle.mysql_digests.specs.Digest.{IsDigest};
ghost use Rattle.std.specs.Prelude.{IfOk};

use crate::left_out::Before;
use crate::lexemes::{disputed, lexeme_at};
use crate::pieces::Pieces;
use mysql_bytes::Mode;
use std::alloc::{AllocError, Global};

/// The digest of a statement, for a server in this mode: its text with the values taken out.
///
/// Strings, numbers, placeholders, NULL, TRUE and FALSE become `?`, and a number's sign goes with
/// it. Values between commas become `?, ...`. Values alone in parentheses become `(...)`, one value
/// there becomes `(?)`, and such rows between commas become `(...) /* , ... */`. Comments and blanks
/// become one space, which is between all else too.
/// Words are in lower case. Operators and quoted identifiers remain as they are; `_utf8mb4` and
/// `_binary` go.
///
/// A digest goes up to the first token about which servers disagree. That is a dollar quote, `/*M!`,
/// a `[`, or a `/*!` that is no simple version comment. A mark, `/* ... */`, is for all that
/// follows. So nothing of what a server takes for a string is told.
///
/// The mode has to be that of the session. In another one a string may end elsewhere, and what
/// follows may be part of a value.
///
/// The text is read once, in a time that grows with its length. The digest is at most three times as
/// long as the text and ten bytes. Beside it two bytes are taken for each piece of it.
///
/// Promise: the digest is that of the text by its tokens (`IsDigest`).
///
/// # Errors
/// - `AllocError` when memory runs out.
///
/// (MySQL Reference Manual, "Performance Schema Statement Digests and Sampling", "Server SQL
/// Modes".)
pub fn digest(alloc: Global, mode: Mode, text: &[u8]) -> Result<Vec<u8>, AllocError>
    ensures { IfOk result (λ digest. IsDigest mode text.now digest.items) }
{
    let mut pieces = Pieces::new(alloc);
    let mut before = Before::Apart;
    let mut last = 0;
    let mut at = 0;
    while at < text.len() {
        let rest = &text[at..];
        if disputed(last, rest) {
            pieces.add_rest()?;
            return Ok(pieces.into_text());
        }
        let (found, len) = lexeme_at(rest, mode);
        let bytes = &rest[..len];
        let after = &rest[len..];
        if !before.leaves_out(found, bytes, after, mode) {
            pieces.add(found, bytes)?;
        }
        before = before.next(found, bytes, after, mode);
        last = rest[len - 1];
        at += len;
    }
    Ok(pieces.into_text())
}
