//! What lends a value.

ghost use Rattle.std.specs.Prelude.{◌≡◌};
ghost use Rattle.mysql_cells.specs.declared.value.Value.{Value as ValueOf};

use mysql_cells::Value;

/// What lends a value: the value itself, or a reference to one. So a list of values is sent as it
/// lies, and so is a list of references.
pub trait HasValue {
    ghost value: { Self → ValueOf };

    /// The value.
    fn value(&self) -> &Value
        ensures { result.now ≡ value self.now };
}

impl HasValue for Value {
    ghost value = { λ value. value };

    #[inline(always)]
    fn value(&self) -> &Value {
        self
    }
}

impl<'a> HasValue for &'a Value {
    ghost value = { λ value. value.now };

    #[inline(always)]
    fn value(&self) -> &Value {
        *self
    }
}
