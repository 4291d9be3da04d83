//! What is written as a cell.

ghost use Rattle.std.specs.Prelude.{◌≡◌, Option, Some};
ghost use Rattle.std.specs.Option.{option_copied};
ghost use Rattle.mysql_cells.specs.declared.value.Value.{Value as ValueOf};

use mysql_cells::Value;

/// What is written as a cell: a value, or a row's cell, whose value may have been taken.
pub trait Held: Drop {
    ghost held: { Self → Option ValueOf };

    /// The value, if there is one.
    fn held(&self) -> Option<&Value>
        ensures { option_copied result ≡ held self.now };
}

impl Held for Value {
    ghost held = { λ value. Some value };

    #[inline(always)]
    fn held(&self) -> Option<&Value> {
        Some(self)
    }
}

impl Held for Option<Value> {
    ghost held = { λ cell. cell };

    #[inline(always)]
    fn held(&self) -> Option<&Value> {
        match self {
            Some(value) => Some(value),
            None => None,
        }
    }
}
