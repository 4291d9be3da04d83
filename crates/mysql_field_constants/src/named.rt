//! The enumerations of the protocol, as values by their numbers.

ghost use Rattle.mysql_const.specs.BulkIndicators.{bulk_indicator_named, bulk_indicator_number};
ghost use Rattle.mysql_const.specs.ColumnTypes.{column_type_named, column_type_number};
ghost use Rattle.mysql_const.specs.Commands.{command_named, command_number};
ghost use Rattle.mysql_const.specs.Geometries.{geometry_named, geometry_number};
ghost use Rattle.mysql_const.specs.ItemResults.{item_result_named, item_result_number};
ghost use Rattle.mysql_const.specs.SessionStates.{session_state_named, session_state_number};
ghost use Rattle.mysql_const.specs.NamedLaws.{bulk_indicator-names_back, column_type-names_back, command-names_back};
ghost use Rattle.mysql_const.specs.NamedLaws.{geometry-names_back, item_result-names_back, session_state-names_back};

use crate::consts::ConstValue;
use mysql_const::{
    ColumnType, Command, GeometryType, ItemResult, MariadbBulkIndicator, SessionStateType,
};

impl ConstValue for Command {
    type Number = u8;

    ghost number = { command_number };

    ghost named = { command_named };

    ghost names_back = { λ x _. command-names_back x };

    fn to_number(self) -> u8 {
        u8::from(self)
    }

    fn from_number(n: u8) -> Option<Command> {
        match Command::try_from(n) {
            Ok(x) => Some(x),
            Err(_) => None,
        }
    }
}

impl ConstValue for ColumnType {
    type Number = u8;

    ghost number = { column_type_number };

    ghost named = { column_type_named };

    ghost names_back = { λ x _. column_type-names_back x };

    fn to_number(self) -> u8 {
        u8::from(self)
    }

    fn from_number(n: u8) -> Option<ColumnType> {
        match ColumnType::try_from(n) {
            Ok(x) => Some(x),
            Err(_) => None,
        }
    }
}

impl ConstValue for MariadbBulkIndicator {
    type Number = u8;

    ghost number = { bulk_indicator_number };

    ghost named = { bulk_indicator_named };

    ghost names_back = { λ x _. bulk_indicator-names_back x };

    fn to_number(self) -> u8 {
        u8::from(self)
    }

    fn from_number(n: u8) -> Option<MariadbBulkIndicator> {
        match MariadbBulkIndicator::try_from(n) {
            Ok(x) => Some(x),
            Err(_) => None,
        }
    }
}

impl ConstValue for SessionStateType {
    type Number = u8;

    ghost number = { session_state_number };

    ghost named = { session_state_named };

    ghost names_back = { λ x _. session_state-names_back x };

    fn to_number(self) -> u8 {
        u8::from(self)
    }

    fn from_number(n: u8) -> Option<SessionStateType> {
        match SessionStateType::try_from(n) {
            Ok(x) => Some(x),
            Err(_) => None,
        }
    }
}

impl ConstValue for GeometryType {
    type Number = u8;

    ghost number = { geometry_number };

    ghost named = { geometry_named };

    ghost names_back = { λ x _. geometry-names_back x };

    fn to_number(self) -> u8 {
        u8::from(self)
    }

    fn from_number(n: u8) -> Option<GeometryType> {
        match GeometryType::try_from(n) {
            Ok(x) => Some(x),
            Err(_) => None,
        }
    }
}

impl ConstValue for ItemResult {
    type Number = i8;

    ghost number = { item_result_number };

    ghost named = { item_result_named };

    ghost names_back = { λ x _. item_result-names_back x };

    fn to_number(self) -> i8 {
        i8::from(self)
    }

    fn from_number(n: i8) -> Option<ItemResult> {
        match ItemResult::try_from(n) {
            Ok(x) => Some(x),
            Err(_) => None,
        }
    }
}
