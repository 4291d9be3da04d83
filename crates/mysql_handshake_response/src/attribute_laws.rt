//! A law of what is written and read, over the definitions alone.

ghost use Rattle.mysql_handshake_response.specs.Laws.{AttributesReadBack};

/// Attributes that are written are read as the same list, equal keys too, with anything following.
#[tactic(auto, using(crate::proofs::AttributesBack::attributes_read_back))]
pub fn attributes_read_back()
    ensures { AttributesReadBack }
{}
