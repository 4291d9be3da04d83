//! Whole connections and their events.

ghost use Rattle.mysql_witnesses.specs.Connections.{AttributesHaveNames, EachSideHasItsRoom};
ghost use Rattle.mysql_witnesses.specs.Connections.{EndsTellTheirFault};
ghost use Rattle.mysql_witnesses.specs.Connections.{ExecutionsCountTheirAttributes, RowsHaveTheirOwnValues};
ghost use Rattle.mysql_witnesses.specs.Connections.{StatesHaveFiveBytes, ToldEventsAreHeld};

/// An attribute is shown with its name.
#[tactic(auto, using(crate::proofs::AboutConnections::attributes_have_names))]
pub fn attributes_have_names()
    ensures { AttributesHaveNames }
{}

/// Each row of a bulk execution has its own values.
pub fn rows_have_their_own_values()
    ensures { RowsHaveTheirOwnValues }
{}

/// The end of a connection that failed tells the fault.
pub fn ends_tell_their_fault()
    ensures { EndsTellTheirFault }
{}

/// An event that was told is held.
#[tactic(auto, using(crate::proofs::AboutConnections::told_events_are_held))]
pub fn told_events_are_held()
    ensures { ToldEventsAreHeld }
{}

/// Each side has room by its own limit.
#[tactic(auto, using(crate::proofs::AboutConnections::each_side_has_its_room))]
pub fn each_side_has_its_room()
    ensures { EachSideHasItsRoom }
{}

/// An execution counts its attributes.
pub fn executions_count_their_attributes()
    ensures { ExecutionsCountTheirAttributes }
{}

/// The SQL state of an error has five bytes.
pub fn states_have_five_bytes()
    ensures { StatesHaveFiveBytes }
{}
