//! Cells of the binary protocol, and what they mean.

ghost use Rattle.std.specs.Prelude.{◌≡◌, Bool};
ghost use Rattle.mysql_values.specs.Cells.{cell_at, is_float as is_float_type};
ghost use Rattle.mysql_receive.specs.Reading.{content_at, or_cell_fault};
ghost use Rattle.mysql_receive.specs.Views.{Gives};

use crate::fault::StreamFault;
use crate::param_type::ParamType;
use crate::read_error::ReadError;
use mysql_const::ColumnType;
use mysql_values::{ByteString, Content, Value, read_cell};
use mysql_wire::{ParseBuf, WireError};
use std::alloc::Global;

const LONGLONG: u8 = ColumnType::MYSQL_TYPE_LONGLONG as u8;

const VAR_STRING: u8 = ColumnType::MYSQL_TYPE_VAR_STRING as u8;

/// Whether the number is the type of a float.
fn is_float(number: u8) -> bool
    ensures { result ≡ is_float_type number }
{
    number == ColumnType::MYSQL_TYPE_FLOAT as u8 || number == ColumnType::MYSQL_TYPE_DOUBLE as u8
}

/// Reads the value of the cell that stands first. Where bytes are missing it is the fault `short`.
fn read_value(
    alloc: Global,
    short: StreamFault,
    kind: ParamType,
    bytes: &[u8],
) -> Result<(Value, &[u8]), ReadError>
    ensures { Gives (λ x. (x.0, x.1.now)) result (or_cell_fault short (cell_at kind.number kind.unsigned bytes.now)) }
{
    let mut buf = ParseBuf(bytes);
    match read_cell(alloc, kind.number, kind.unsigned, &mut buf) {
        Ok(value) => Ok((value, buf.0)),
        Err(WireError::Memory) => Err(ReadError::Memory),
        Err(WireError::UnsupportedType) => Err(ReadError::Fault(StreamFault::BadType)),
        Err(_) => Err(ReadError::Fault(short)),
    }
}

/// Reads eight bytes that stand first as a whole number.
#[inline(always)]
#[tactic(auto, unfolding(crate::specs::Reading::content_at, mysql_cells::specs::Cells::cell_at))]
fn read_number(
    short: StreamFault,
    unsigned: bool,
    bytes: &[u8],
) -> Result<(Content, &[u8]), ReadError>
    ensures { Gives (λ x. (x.0, x.1.now)) result
        (content_at short (record { number = 8; unsigned = unsigned }) bytes.now) }
{
    let mut buf = ParseBuf(bytes);
    let Some(bits) = buf.checked_eat_u64_le() else {
        return Err(ReadError::Fault(short));
    };
    let number = if unsigned {
        i128::from(bits)
    } else {
        i128::from(bits.cast_signed())
    };
    Ok((Content::Number(number), buf.0))
}

/// Reads length-encoded bytes that stand first.
#[inline(always)]
#[tactic(auto, unfolding(crate::specs::Reading::content_at, mysql_cells::specs::Cells::cell_at))]
fn read_counted(
    alloc: Global,
    short: StreamFault,
    bytes: &[u8],
) -> Result<(Content, &[u8]), ReadError>
    ensures { (unsigned : Bool) →
        Gives (λ x. (x.0, x.1.now)) result
        (content_at short (record { number = 253; unsigned = unsigned }) bytes.now) }
{
    let mut buf = ParseBuf(bytes);
    let Some(held) = buf.checked_eat_lenenc_str() else {
        return Err(ReadError::Fault(short));
    };
    Ok((Content::Bytes(ByteString::copy(alloc, held)?), buf.0))
}

/// Reads the content of the cell that stands first, of any type.
#[inline(never)]
#[tactic(auto, unfolding(crate::specs::Reading::content_at))]
fn read_any(
    alloc: Global,
    short: StreamFault,
    kind: ParamType,
    bytes: &[u8],
) -> Result<(Content, &[u8]), ReadError>
    ensures { Gives (λ x. (x.0, x.1.now)) result (content_at short kind bytes.now) }
{
    if is_float(kind.number) {
        return Err(ReadError::Fault(StreamFault::Float));
    }
    let (value, rest) = read_value(alloc, short, kind, bytes)?;
    match value.into_content(alloc)? {
        Some(content) => Ok((content, rest)),
        None => Err(ReadError::Fault(StreamFault::Float)),
    }
}

/// Reads the content of the cell that stands first. The types that most values are sent by come first.
#[inline(always)]
pub fn read_content(
    alloc: Global,
    short: StreamFault,
    kind: ParamType,
    bytes: &[u8],
) -> Result<(Content, &[u8]), ReadError>
    ensures { Gives (λ x. (x.0, x.1.now)) result (content_at short kind bytes.now) }
{
    match kind.number {
        LONGLONG => read_number(short, kind.unsigned, bytes),
        VAR_STRING => read_counted(alloc, short, bytes),
        _ => read_any(alloc, short, kind, bytes),
    }
}
