//! The values of booleans and of durations.

ghost use Rattle.std.specs.Prelude.{Some};
ghost use Rattle.std.specs.Duration.{as_nanos};
ghost use Rattle.mysql_cells.specs.declared.value.Value.TheVariants.{Int};
ghost use Rattle.mysql_convert.specs.Values.{duration_value, number_of_boolean};

use crate::to_value::ToValue;
use crate::to_value_error::ToValueError;
use mysql_cells::Value;
use std::alloc::Global;
use std::time::Duration;

impl ToValue for bool {
    ghost as_value = { λ boolean. Some (Int (number_of_boolean boolean)) };

    fn to_value(&self, _alloc: Global) -> Result<Value, ToValueError> {
        Ok(Value::Int(i64::from(*self)))
    }
}

impl ToValue for Duration {
    ghost as_value = { λ duration. duration_value (as_nanos duration) };

    fn to_value(&self, _alloc: Global) -> Result<Value, ToValueError> {
        let nanos = self.as_nanos();
        let micros = nanos / 1_000 + if nanos % 1_000 >= 500 { 1 } else { 0 };
        let Ok(days) = u32::try_from(micros / 86_400_000_000) else {
            return Err(ToValueError::TooLong);
        };
        Ok(Value::Time(
            false,
            days,
            (micros / 3_600_000_000 % 24) as u8,
            (micros / 60_000_000 % 60) as u8,
            (micros / 1_000_000 % 60) as u8,
            (micros % 1_000_000) as u32,
        ))
    }
}
