//! Laws of framing, brought together for the proofs of the reader. They do nothing when they run.

ghost use Rattle.mysql_replies.specs.States.{FramingLaws};

use mysql_wire::laws;

/// The laws of framing that a reader rests on.
pub fn framing_laws()
    ensures { FramingLaws }
{
    laws::framing_comes_first();
    laws::one_split();
    laws::between_holds_src();
    laws::piece_is_held();
    laws::reader_takes();
    laws::reader_waits();
    laws::refusal_was_decided();
}
