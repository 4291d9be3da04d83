//! Why bytes can't be read as a field, or a field not be written.
//!
//!     match buf.parse::<RawInt<LeU32>>(alloc, ()) {
//!         Ok(id) => Ok(Some(id.get())),
//!         Err(WireError::UnexpectedEof) => Ok(None),
//!         Err(error) => Err(error),
//!     }

ghost use Rattle.std.specs.Prelude.{◌≡◌};
ghost use Rattle.mysql_fields.specs.declared.error.WireError.TheVariants.{Memory};

use std::alloc::{AllocError, AllocFailed};
use thiserror::Error;

/// Why bytes could not be read as a field, or a field not be written.
/// (MySQL: Client/Server Protocol, "Protocol Basics: Basic Data Types".)
#[derive(Clone, Copy, Debug, PartialEq, Eq, Error)]
pub enum WireError {
    /// The bytes end before the field does.
    #[error("the bytes end before the field does")]
    UnexpectedEof = 1,
    /// Other bytes stand where the protocol has fixed ones.
    #[error("other bytes stand where the protocol has fixed ones")]
    BadConstant = 2,
    /// A number stands there that is none of those that are listed for the field.
    #[error("the number is none of those that are listed for the field")]
    UnknownValue = 3,
    /// A length that the field can't have.
    #[error("the field can't have that length")]
    BadLength = 4,
    /// A type of values that isn't read here.
    #[error("values of that type are not read")]
    UnsupportedType = 5,
    /// More bytes are asked for than the field can hold.
    #[error("more bytes than the field can hold")]
    TooManyBytes = 6,
    /// A growth of a buffer was refused.
    #[error("out of memory")]
    Memory = 7,
}

/// A length-encoded number that begins with a byte which no such number has.
/// (MySQL: Client/Server Protocol, "Protocol::LengthEncodedInteger".)
#[derive(Clone, Copy, Debug, Default, PartialEq, Eq, Hash, Error)]
#[error("invalid length-encoded number")]
pub struct InvalidLengthEncodedInteger;

impl From<AllocError> for WireError {
    ghost from_gives = { λ _ e. e ≡ Memory };

    fn from(_e: AllocError) -> WireError {
        WireError::Memory
    }
}

impl<T: Drop> From<AllocFailed<T>> for WireError {
    ghost from_gives = { λ _ e. e ≡ Memory };

    fn from(_e: AllocFailed<T>) -> WireError {
        WireError::Memory
    }
}
