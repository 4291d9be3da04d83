//! The fields of packets: how numbers and texts are written as bytes and read from them, and why
//! bytes are no field.
//!
//! The crates of packets use it. A user names its traits and [`WireError`] by `mysql_wire` or
//! `mysql_login`.
//!
//! | trait | what a type says by it |
//! |---|---|
//! | [`MySerialize`] | the bytes that a value is written as |
//! | [`Readable`], [`MyDeserialize`] | how a value is read, and by what that has to be known |
//! | [`ReadsBack`] | that a written value is read again |
//!
//!     let mut rest = ParseBuf(payload);
//!     let id: RawInt<LeU32> = rest.parse(alloc, ())?;       // Err(WireError::UnexpectedEof)
//!     let name: RawBytes<LenEnc> = rest.parse(alloc, ())?;
//!     in_order!(id, name).serialize(&mut out)?;
#![tactic(auto)]

mod compared;
mod copies;
mod error;
mod int;
mod io;
mod plain;
mod texts;

pub use crate::copies::{copy_bytes, lossy_text, own_bytes, read_lenenc_text};
pub use crate::error::{InvalidLengthEncodedInteger, WireError};
pub use crate::int::{
    IntRepr, LeI16, LeI24, LeI32, LeI56, LeI64, LeU16, LeU24, LeU32, LeU32LowerHalf,
    LeU32UpperHalf, LeU48, LeU56, LeU64, LenEnc, RawInt, VarLen,
};
pub use crate::io::{MyDeserialize, MySerialize, ParseExt, Readable, ReadsBack};
pub use crate::plain::{Binary, Text};
pub use crate::texts::{
    BareBytes, BareU8Bytes, BareU16Bytes, BytesRepr, EofBytes, FixedLengthText, NullBytes,
    RawBytes, U8Bytes, U32Bytes,
};
