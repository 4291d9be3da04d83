//! Queries: their tokens, the server's mode, and texts over them.
//!
//! That `+5` is no number, which a wrong reader takes for one, is a theorem of `mysql_queries`
//! (`content_of_a_spelling`).

ghost use Rattle.mysql_witnesses.specs.Queries.{EachBitTellsItsMode, HintsAreComments};
ghost use Rattle.mysql_witnesses.specs.Queries.{IdentifiersHaveNoEscapes, NamesTellAModeOrNone};
ghost use Rattle.mysql_witnesses.specs.Queries.{OthersPartServers, PiecesFollowLiteralsAtOnce};
ghost use Rattle.mysql_witnesses.specs.Queries.{QuotesMakeNoSimpleComment, SimpleCommentsPartNone};

use mysql_queries::laws::tokens_of_a_text;

/// In ANSI_QUOTES an identifier in double quotes has no escapes: `"\" ?` has a placeholder.
pub fn identifiers_have_no_escapes()
    ensures { IdentifiersHaveNoEscapes }
{
    tokens_of_a_text();
}

/// A hint and a simple version comment are comments; behind another version comment no placeholder is alone.
pub fn comments_that_part_servers()
    ensures hints { HintsAreComments }
    ensures quotes { QuotesMakeNoSimpleComment }
    ensures others { OthersPartServers }
    ensures simple { SimpleCommentsPartNone }
{
    tokens_of_a_text();
}

/// Blanks around a name of `sql_mode` don't count, and one that isn't known tells that.
pub fn names_tell_a_mode_or_none()
    ensures { NamesTellAModeOrNone }
{}

/// The bit 200 of a status tells NO_BACKSLASH_ESCAPES, and 8000 ANSI_QUOTES.
pub fn each_bit_tells_its_mode()
    ensures { EachBitTellsItsMode }
{}

/// `1x 2` is no text over the query `? ?`: a piece of the query follows its literal at once.
pub fn pieces_follow_literals_at_once()
    ensures { PiecesFollowLiteralsAtOnce }
{
    tokens_of_a_text();
}
