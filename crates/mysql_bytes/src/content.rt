//! What a literal or a value stands for: nothing, a number or bytes.
//!
//!     let shown = match &content {
//!         Content::Null => b"NULL".as_slice(),
//!         Content::Number(_) => b"a number".as_slice(),
//!         Content::Bytes(bytes) => bytes.as_slice(),
//!     };

ghost use Rattle.std.specs.Prelude.{◌≡◌, IfOk};

use crate::byte_string::ByteString;
use std::alloc::{AllocError, Global};

/// What a literal or a value stands for: nothing, a number or bytes.
///
/// The numbers of literals and values lie from -2^63 to 2^64-1.
#[derive(Debug, PartialEq, Eq, Hash, Drop)]
pub enum Content {
    Null,
    Number(i128),
    Bytes(ByteString),
}

impl Content {
    /// A copy of the content, in memory of its own.
    pub fn clone(&self, alloc: Global) -> Result<Content, AllocError>
        ensures { IfOk result (λ copy. copy ≡ self.now) }
    {
        match self {
            Content::Null => Ok(Content::Null),
            Content::Number(number) => Ok(Content::Number(*number)),
            Content::Bytes(bytes) => Ok(Content::Bytes(bytes.clone(alloc)?)),
        }
    }
}
