//! Fields that hold a constant, flags, or one of two kinds of values.
//!
//! The crates of packets use it for headers and for numbers that have names. A user names
//! [`Either`] by `mysql_login`.
//!
//! | field | it is |
//! |---|---|
//! | [`ConstU8`], [`ConstU32`], [`ConstBytes`] | the same bytes always; others are refused |
//! | [`RawConst`], [`RawFlags`] | a named number or flags; unknown ones are kept |
//! | [`Const`] | a number that must have a name |
//! | [`Either`] | one of two kinds of values; what has to be known says which |
//! | [`Skip`] | so many bytes that say nothing |
//!
//!     type PingHeader = ConstU8<InvalidPing, 14>;
//!     let flags: RawFlags<CapabilityFlags, LeU32> = rest.parse(alloc, ())?;
//!     let known = flags.get();
#![tactic(auto)]

mod consts;
mod either;
mod flags;
mod named;

pub use crate::consts::{
    Const, ConstBytes, ConstBytesValue, ConstU8, ConstU32, ConstValue, RawConst, RawFlags, Skip,
};
pub use crate::either::Either;
