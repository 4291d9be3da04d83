//! Types of what an expression or a loadable function gives, by their numbers.
//!
//!     let result_type = ItemResult::try_from(number)?;
//!     let is_text = result_type == ItemResult::STRING_RESULT;

ghost use Rattle.std.specs.Prelude.{◌≡◌};
ghost use Rattle.mysql_const.specs.Tables.{ReadsAs};
ghost use Rattle.mysql_const.specs.ItemResults.{item_result_number, item_result_named};

use crate::unknown::write_unknown_number;
use std::error::Error;
use std::fmt;
use std::fmt::{Display, Formatter, Write};

/// The type of the value that an expression or a loadable function gives.
///
/// MySQL: Extending MySQL, "Adding a Loadable Function" (Item_result); -1 is the server's own mark for no result.
#[allow(non_camel_case_types)]
#[derive(Clone, Copy, PartialEq, Eq, Hash, Debug)]
pub enum ItemResult {
    INVALID_RESULT = -1,
    STRING_RESULT = 0,
    REAL_RESULT = 1,
    INT_RESULT = 2,
    ROW_RESULT = 3,
    DECIMAL_RESULT = 4,
}

/// A number that no [`ItemResult`] has.
#[derive(Clone, Copy, PartialEq, Eq, Debug)]
pub struct UnknownItemResultType(pub i8);

impl Error for UnknownItemResultType {}

impl Display for UnknownItemResultType {
    fn fmt<W: Write>(&self, f: &mut Formatter<W>) -> fmt::Result {
        write_unknown_number(f, "item result type", i32::from(self.0))
    }
}

/// The number of a [`ItemResult`].
impl From<ItemResult> for i8 {
    ghost from_gives = { λ result_type number. number ≡ item_result_number result_type };

    fn from(result_type: ItemResult) -> i8 {
        result_type as i8
    }
}

/// The [`ItemResult`] of a number. A number without a name is refused, and the refusal carries it.
impl TryFrom<i8> for ItemResult {
    type Error = UnknownItemResultType;

    ghost try_from_gives = { λ number answer. ReadsAs (item_result_named number) (λ unknown. unknown.0) number answer };

    fn try_from(number: i8) -> Result<ItemResult, UnknownItemResultType> {
        match number {
            -1 => Ok(ItemResult::INVALID_RESULT),
            0 => Ok(ItemResult::STRING_RESULT),
            1 => Ok(ItemResult::REAL_RESULT),
            2 => Ok(ItemResult::INT_RESULT),
            3 => Ok(ItemResult::ROW_RESULT),
            4 => Ok(ItemResult::DECIMAL_RESULT),
            _ => Err(UnknownItemResultType(number)),
        }
    }
}

/// The number that was refused.
impl From<UnknownItemResultType> for i8 {
    ghost from_gives = { λ unknown number. number ≡ unknown.0 };

    fn from(unknown: UnknownItemResultType) -> i8 {
        unknown.0
    }
}
