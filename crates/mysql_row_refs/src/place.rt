//! Cells of a payload by their places.

ghost use Rattle.std.specs.Prelude.{◌≡◌, IsSome, drop, true};
ghost use Rattle.mysql_buf.specs.Reading.{lenenc_str_at, u8_str_at};
ghost use Rattle.mysql_row_refs.specs.Places.{bytes_read, held, is_inside, value_of};

use crate::cell_values::{date, time};
use crate::value_ref::ValueRef;
use mysql_buf::ParseBuf;

/// What a cell of a payload holds. Of bytes, a date or a time the place is kept where its length
/// stands, right before it.
#[derive(Clone, Copy, Debug, PartialEq, Eq)]
pub enum CellPlace {
    Null,
    Bytes(usize),
    Int(i64),
    UInt(u64),
    Float(u32),
    Double(u64),
    Date(usize),
    Time(usize),
}

/// The bytes at a place of a payload, behind a length of one byte.
#[inline(always)]
#[tactic(auto, using(crate::proofs::Tails::short_within))]
fn short_bytes<'p>(payload: &'p [u8], at: usize) -> &'p [u8]
    requires { IsSome (u8_str_at (drop at payload.now)) }
    ensures { result.now ≡ bytes_read (u8_str_at (drop at payload.now)) }
{
    let mut rest = ParseBuf(&payload[at..]);
    rest.eat_u8_str()
}

/// The length-encoded bytes at a place of a payload. Most have a length of one byte.
#[inline(always)]
fn lenenc_bytes<'p>(payload: &'p [u8], at: usize) -> &'p [u8]
    requires { IsSome (lenenc_str_at (drop at payload.now)) }
    ensures { result.now ≡ bytes_read (lenenc_str_at (drop at payload.now)) }
{
    if payload[at] < 251 {
        return short_bytes(payload, at);
    }
    let mut rest = ParseBuf(&payload[at..]);
    rest.eat_lenenc_str()
}

/// The value of the cell of a payload at a place.
#[inline(always)]
pub fn value_at<'p>(payload: &'p [u8], place: CellPlace) -> ValueRef<'p>
    requires { is_inside payload.now place ≡ true }
    ensures { value_of result ≡ held payload.now place }
{
    match place {
        CellPlace::Null => ValueRef::NULL,
        CellPlace::Bytes(at) => ValueRef::Bytes(lenenc_bytes(payload, at)),
        CellPlace::Int(number) => ValueRef::Int(number),
        CellPlace::UInt(number) => ValueRef::UInt(number),
        CellPlace::Float(bits) => ValueRef::Float(bits),
        CellPlace::Double(bits) => ValueRef::Double(bits),
        CellPlace::Date(at) => date(short_bytes(payload, at)),
        CellPlace::Time(at) => time(short_bytes(payload, at)),
    }
}
