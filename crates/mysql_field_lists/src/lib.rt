//! The fields of packets that hold many: lists of fields, and the NULL bitmap, a bit for each
//! column or parameter.
//!
//! The crates of rows, executions and replication use it. A user names [`NullBitmap`] by
//! `mysql_packets`, and the sides by `mysql_values`.
//!
//! | side of a bitmap | it has a bit for | first bit |
//! |---|---|---|
//! | [`ClientSide`] | each parameter of an execution | 0 |
//! | [`ServerSide`] | each column of a row in the binary format | 2 |
//!
//!     let mut nulls = NullBitmap::<ClientSide>::new(alloc, values.len())?;
//!     nulls.set(1, true);
//!     let is_null = NullBitmap::<ServerSide, [u8; 1]>::from_bytes([4]).is_null(0);  // true
#![tactic(auto)]

mod lists;
mod null_bitmap;
mod null_bits;
mod raw_seq;
mod side;

pub use crate::lists::{Seq, SeqRepr, Unknown};
pub use crate::null_bitmap::{BitmapBytes, NullBitmap};
pub use crate::null_bits::NullBits;
pub use crate::raw_seq::RawSeq;
pub use crate::side::{ClientSide, SerializationSide, ServerSide};
