//! Laws of tokens, literals and queries. The functions change nothing: their contracts are the laws.

ghost use Rattle.mysql_queries.specs.Laws.{
  AloneIsAgreed,
  FilledIsRead,
  LexedIsSliced,
  LiteralIsRun,
  NamesAreSlices,
  NoVersionIsRead,
  OneContent,
  OnePlaces,
  OneRead,
  OneReading,
  OneTokens,
  PiecesAreSlices,
  PlainIsRead,
  PlacesInOrder,
  ServersReadAlike,
  SlicedIsLexed,
  SomeTokens,
  TextIsDecided,
  WorkedSpellings,
  WrittenIsRead,
};

/// The tokens of a text exist, and are one list.
pub fn tokens_of_a_text()
    ensures some { SomeTokens }
    ensures one { OneTokens }
    ensures places { OnePlaces }
{}

/// The pieces and the names of a query are its slices between and at its placeholders, which stand in order.
pub fn pieces_of_a_query()
    ensures pieces { PiecesAreSlices }
    ensures names { NamesAreSlices }
    ensures order { PlacesInOrder }
{}

/// A literal has at most one content.
pub fn content_of_a_spelling()
    ensures one { OneContent }
    ensures run { LiteralIsRun }
    ensures worked { WorkedSpellings }
    ensures read { OneRead }
    ensures written { WrittenIsRead }
    ensures plain { PlainIsRead }
{}

/// Where placeholders stand alone, the two ways to read a text agree.
///
/// There is at most one reading then.
pub fn one_reading()
    ensures at_most_one { OneReading }
    ensures lexed { LexedIsSliced }
    ensures sliced { SlicedIsLexed }
{}

/// Where each placeholder of a query stands alone, each text is read as contents or as none.
pub fn texts_are_decided()
    ensures { TextIsDecided }
{}

/// A query with a literal in each place is read as the literals' contents.
///
/// Each placeholder has to stand alone.
pub fn filled_text_is_read()
    ensures { FilledIsRead }
{}

/// Servers that run comments with a version and those that skip them read texts alike.
///
/// Take a query whose placeholders are alone, and a text over it. Each server has the text's own
/// tokens. One that runs such a comment has the tokens of its inside in place of it. It holds no
/// placeholder, since a comment whose inside is read has no version.
pub fn servers_read_alike()
    ensures alone { AloneIsAgreed }
    ensures version { NoVersionIsRead }
    ensures servers { ServersReadAlike }
{}
