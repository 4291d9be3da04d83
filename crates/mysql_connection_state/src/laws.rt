//! The law of the payload that is due, over the definitions alone.

ghost use Rattle.mysql_connection_state.specs.Laws.{PayloadsAreInTurn};

/// What a payload says is in turn: of the side that is due, and put as it is read.
#[tactic(auto, using(crate::proofs::Turns::payloads_are_in_turn))]
pub fn payloads_are_in_turn()
    ensures { PayloadsAreInTurn }
{}
