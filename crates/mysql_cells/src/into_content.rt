//! What a value means.

ghost use Rattle.mysql_cells.specs.Values.{content_of};
ghost use Rattle.std.specs.Prelude.{◌≡◌, IfOk};

use crate::date_text::{is_zero_time, put_date_text, put_time_text};
use crate::value::Value;
use mysql_bytes::{ByteString, Content};
use std::alloc::{AllocError, Global};

impl Value {
    /// What the value means: nothing, a number, bytes, or the text of a date or time.
    ///
    /// An all-zero time is taken as positive, and a float means None. Bytes are moved, not copied.
    ///
    /// Promise: the content is the value's meaning, an all-zero time without its sign
    /// (`content_of`).
    ///
    /// # Errors
    /// - `AllocError` for want of memory.
    ///
    /// Follows the MySQL Reference Manual, "Literal Values".
    pub fn into_content(self, alloc: Global) -> Result<Option<Content>, AllocError>
        ensures { IfOk result (λ found. found ≡ content_of self) }
    {
        match self {
            Value::NULL => Ok(Some(Content::Null)),
            Value::Bytes(bytes) => Ok(Some(Content::Bytes(bytes))),
            Value::Int(number) => Ok(Some(Content::Number(i128::from(number)))),
            Value::UInt(number) => Ok(Some(Content::Number(i128::from(number)))),
            Value::Float(_) => Ok(None),
            Value::Double(_) => Ok(None),
            Value::Date(year, month, day, hour, minute, second, micros) => {
                let mut text = Vec::new(alloc);
                put_date_text(&mut text, year, month, day, hour, minute, second, micros)?;
                Ok(Some(Content::Bytes(ByteString::from_vec(text))))
            }
            Value::Time(negative, days, hours, minutes, seconds, micros) => {
                let signed = negative && !is_zero_time(days, hours, minutes, seconds, micros);
                let mut text = Vec::new(alloc);
                put_time_text(&mut text, signed, days, hours, minutes, seconds, micros)?;
                Ok(Some(Content::Bytes(ByteString::from_vec(text))))
            }
        }
    }
}
