//! Commands: modes, parameter sets, sending, contents.

ghost use Rattle.mysql_witnesses.specs.Commands.{BytesBeginWhereTheyAreTold, EachFlagTellsItsMode};
ghost use Rattle.mysql_witnesses.specs.Commands.{NegativeNumbersAreShown, NoRoadIsNoSending};
ghost use Rattle.mysql_witnesses.specs.Commands.{OtherObjectsAreTold, SetsStandBeforePlaces};

/// The flag 1 tells NO_BACKSLASH_ESCAPES, and 2 ANSI_QUOTES.
pub fn each_flag_tells_its_mode()
    ensures { EachFlagTellsItsMode }
{}

/// A parameter's bytes are those from its position on.
pub fn bytes_begin_where_they_are_told()
    ensures { BytesBeginWhereTheyAreTold }
{}

/// A call on sets tells of another object that it is one.
#[tactic(auto, using(crate::proofs::AboutCommands::other_objects_are_told))]
pub fn other_objects_are_told()
    ensures { OtherObjectsAreTold }
{}

/// The number -1 is in range.
#[tactic(auto, using(crate::proofs::AboutCommands::negative_numbers_are_shown))]
pub fn negative_numbers_are_shown()
    ensures { NegativeNumbersAreShown }
{}

/// The set and the placeholder of an error are in their order.
pub fn sets_stand_before_places()
    ensures { SetsStandBeforePlaces }
{}

/// By a method without a name nothing is sent, and the answer says so.
#[tactic(auto, using(crate::proofs::AboutCommands::no_road_is_no_sending))]
pub fn no_road_is_no_sending()
    ensures { NoRoadIsNoSending }
{}
