//! A type of one's own that is sent as a parameter and read out of rows.

ghost use Rattle.std.specs.Prelude.{Some, ℕ};
ghost use Rattle.mysql_session.specs.Numbers.{integer_of, unsigned_in};
ghost use Rattle.mysql_session.specs.Value.TheVariants.{UInt};

use mysql_session::{
    FromValue, FromValueError, Intermediate, ParseIr, ToValue, ToValueError, Value,
};
use std::alloc::Global;
use std::fmt;

/// An amount of money, which a column keeps as a whole number of cents.
#[derive(Clone, Copy)]
pub struct Cents(pub u64);

impl fmt::Display for Cents {
    fn fmt<W: fmt::Write>(&self, f: &mut fmt::Formatter<W>) -> fmt::Result {
        write!(f, "{}.{:02}", self.0 / 100, self.0 % 100)
    }
}

impl ToValue for Cents {
    // The value that an amount is sent as: there is one, and it is the number of cents, without a sign.
    ghost as_value = { λ cents. Some (UInt cents.0) };

    fn to_value(&self, _alloc: Global) -> Result<Value, ToValueError> {
        Ok(Value::UInt(self.0))
    }
}

impl FromValue for Cents {
    // What stands between a value and an amount while the conversion can be undone: the amount, and the value.
    type Intermediate = ParseIr<Cents>;

    // What contracts compare of an amount: its number.
    ghost Shown = { ℕ };

    // The number of an amount.
    ghost shown = { λ cents. cents.0 };

    // What a value converts to, if it does: the number that it holds, as a number or as a text of
    // digits, where 64 bits hold it.
    ghost converted = { integer_of (unsigned_in 64) };

    fn get_intermediate(value: Value) -> Result<ParseIr<Cents>, FromValueError> {
        let step = u64::get_intermediate(value)?;
        let number = step.commit();
        Ok(ParseIr(Cents(number), Value::UInt(number)))
    }
}
