//! The values of contents.

ghost use Rattle.std.specs.Prelude.{Some};
ghost use Rattle.mysql_values.specs.Contents.{content_value};

use crate::to_value::ToValue;
use crate::to_value_error::ToValueError;
use mysql_bytes::Content;
use mysql_cells::Value;
use std::alloc::Global;

/// What a command carried, as a value that can be sent again. A number from -2^63 to 2^64-1, as
/// each that was read is, is `Int` where it fits, else `UInt`.
impl ToValue for Content {
    ghost as_value = { λ content. Some (content_value content) };

    fn to_value(&self, alloc: Global) -> Result<Value, ToValueError> {
        match self {
            Content::Null => Ok(Value::NULL),
            Content::Number(number) => number.to_value(alloc),
            Content::Bytes(bytes) => Ok(Value::Bytes(bytes.clone(alloc)?)),
        }
    }
}
