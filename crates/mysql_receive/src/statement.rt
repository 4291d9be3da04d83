//! A statement, and what is in force of it.

ghost use Rattle.std.specs.Prelude.{◌≡◌};
ghost use Rattle.std.specs.List.{list_all};

use crate::param_type::ParamType;
use mysql_values::{Mode, Place, Spelling};

/// A query with its placeholders, and the id that its statement was given.
///
/// Its texts are for a server in the mode, with byte strings in the spelling.
#[derive(Drop)]
pub struct Statement {
    pub query: Vec<u8>,
    pub mode: Mode,
    pub spelling: Spelling,
    pub parsed: Vec<u8>,
    pub places: Vec<Place>,
    pub alone: bool,
    pub id: u32,
    ghost alone_is: { alone ≡ list_all (λ place. place.alone) places.items },
}

/// What is in force behind the payloads that were read.
#[derive(Drop)]
pub struct StatementState {
    pub prepared: bool,
    pub types: Option<Vec<ParamType>>,
    pub long_data: Vec<Option<Vec<u8>>>,
}
