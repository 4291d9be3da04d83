//! The laws of sets that are sent, made and written one after another. Functions without a result
//! do nothing: their contracts are the laws.

ghost use Rattle.mysql_command_rules.specs.InTurn.{MadeInTurn, SentInTurn};
ghost use Rattle.mysql_command_rules.specs.WritingLaws.{WrittenInTurn};

use mysql_values::laws::tokens_of_a_text;

/// Sets are sent in turn by text and by execute.
///
/// A query against which nothing speaks begins a stream. Each set against which nothing speaks is
/// sent behind those before it. The first that is refused is why all are.
pub fn sent_in_turn()
    ensures { SentInTurn }
{
    tokens_of_a_text();
}

/// Sets are made in turn.
pub fn made_in_turn()
    ensures { MadeInTurn }
{}

/// Sets are written in turn by text and by execute.
///
/// A front of what carries the first of them is taken by the writer, and the rest is buffered.
pub fn written_in_turn()
    ensures { WrittenInTurn }
{
    tokens_of_a_text();
}
