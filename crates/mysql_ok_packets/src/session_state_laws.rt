//! Laws of session states. Functions without a result do nothing: their contracts are the laws.

ghost use Rattle.mysql_ok_packets.specs.SessionStateStatements.{ChangesReadBack, GtidsReadBack, ListsOfStatesReadBack};
ghost use Rattle.mysql_ok_packets.specs.SessionStateStatements.{StatesReadBack, TextsReadBack, VariablesReadBack};

/// A member that is written after its length is read again, whatever follows it.
#[tactic(auto, using(crate::proofs::SessionStatesBack::texts_read_back))]
pub fn texts_read_back()
    ensures { TextsReadBack }
{}

/// GTIDs that were written are read again where nothing follows them.
#[tactic(auto, using(crate::proofs::SessionStatesBack::gtids_read_back))]
pub fn gtids_read_back()
    ensures { GtidsReadBack }
{}

/// A system variable that was written is read again, whatever follows it.
#[tactic(auto, using(crate::proofs::SessionStatesBack::variables_read_back))]
pub fn variables_read_back()
    ensures { VariablesReadBack }
{}

/// A change that was written is read again by its type.
///
/// That holds whatever follows it, or where nothing does if it stands to the end.
#[tactic(auto, using(crate::proofs::SessionStatesBack::changes_read_back))]
pub fn changes_read_back()
    ensures { ChangesReadBack }
{}

/// A state that was written is read again, whatever follows it.
#[tactic(auto, using(crate::proofs::SessionStatesBack::states_read_back))]
pub fn states_read_back()
    ensures { StatesReadBack }
{}

/// States that were written one after another are read again, where nothing follows them.
#[tactic(auto, using(crate::proofs::SessionStatesBack::lists_of_states_read_back))]
pub fn lists_of_states_read_back()
    ensures { ListsOfStatesReadBack }
{}
