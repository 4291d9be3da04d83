//! The values that contents are sent as.
//!
//!     let value = content.to_value(alloc)?;
//!     values.push(value)?;

ghost use Rattle.std.specs.Prelude.{◌≡◌, IfOk};
ghost use Rattle.mysql_bytes.specs.declared.content.Content.{Content as ContentOf};
ghost use Rattle.mysql_bytes.specs.declared.content.Content.TheVariants as contents;
ghost use Rattle.mysql_values.specs.Contents.{IsInRange, content_value, integer_value};

use mysql_bytes::Content;
use mysql_cells::Value;
use std::alloc::{AllocError, Global};

/// The value of a number from -2^63 to 2^64-1.
fn value_of_number(number: i128) -> Value
    requires { IsInRange (contents.Number number) }
    ensures { result ≡ integer_value number }
{
    if number <= i128::from(i64::MAX) {
        Value::Int(number as i64)
    } else {
        Value::UInt(number as u64)
    }
}

/// The value of a content. It stands in place of a method of `Content`, which is a type of another crate.
pub trait ContentExt {
    // the content that this is
    ghost content: { Self → ContentOf };

    /// The value that the content is sent as; bytes are copied.
    ///
    /// It is `NULL`, a number as `Int` where it fits, else as `UInt`, bytes as `Bytes`. A number is
    /// from -2^63 to 2^64-1, as each that was read is.
    ///
    /// Promise: the value is the one that the content is sent as; only memory is refused
    /// (`content_value`).
    ///
    /// # Errors
    /// - `AllocError` for want of memory.
    ///
    /// (MySQL Reference Manual, "Integer Types (Exact Value)".)
    fn to_value(&self, alloc: Global) -> Result<Value, AllocError>
        requires { IsInRange (content self.now) }
        ensures { IfOk result (λ value. value ≡ content_value (content self.now)) };
}

impl ContentExt for Content {
    ghost content = { λ content. content };

    fn to_value(&self, alloc: Global) -> Result<Value, AllocError> {
        match self {
            Content::Null => Ok(Value::NULL),
            Content::Number(number) => Ok(value_of_number(*number)),
            Content::Bytes(bytes) => Ok(Value::Bytes(bytes.clone(alloc)?)),
        }
    }
}
