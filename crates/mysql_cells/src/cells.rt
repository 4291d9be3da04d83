//! Cells: values as the binary protocol carries them, and as rows of the text protocol do.
//!
//!     let value = read_cell(alloc, u8::from(column_type), unsigned, &mut buf)?;
//!     let shown = read_text_cell(alloc, &mut buf)?;
//!     value.serialize(&mut out)?;

ghost use Rattle.mysql_cells.specs.Cells.{bin_len, cell, cell_at, is_unsigned as is_sent_unsigned, text_cell_at};
ghost use Rattle.mysql_cells.specs.Cells.{type_of, value_at};
ghost use Rattle.mysql_fields.specs.Wire.{Gives, GivesPart, or_end};
ghost use Rattle.mysql_cells.specs.declared.cell_form.CellForm.TheVariants as cell_form;
ghost use Rattle.mysql_fields.specs.declared.error.WireError.TheVariants as wire;
ghost use Rattle.std.specs.Prelude.{◌≡◌, ◌≢◌, Err, IfNone, IfSome, Ok};

use crate::cell_form::{CellForm, form};
use crate::cell_values::{date_parts, time_parts, whole1, whole2, whole4, whole8};
use crate::cell_writing::{date_size, put_date, put_time, time_size};
use crate::value::Value;
use mysql_buf::{BufMutExt, ParseBuf, lenenc_str_len};
use mysql_bytes::ByteString;
use mysql_const::ColumnType;
use mysql_fields::{IntRepr, LeI64, LeU32, LeU64, MySerialize, WireError};
use std::alloc::{AllocError, Global};

/// The value of a cell that needs no memory; None where the bytes end before it does. What is left then isn't said.
fn plain_value(form: CellForm, unsigned: bool, buf: &mut ParseBuf) -> Option<Value>
    ensures some { IfSome result (λ value. value_at form unsigned buf.old.0.now ≡ Ok (value, buf.new.0.now)) }
    ensures none { IfNone result (form ≢ cell_form.Counted → form ≢ cell_form.Without →
        value_at form unsigned buf.old.0.now ≡ Err wire.UnexpectedEof) }
{
    match form {
        CellForm::Nothing => Some(Value::NULL),
        CellForm::Whole1 => Some(Value::Int(whole1(unsigned, buf.checked_eat_u8()?))),
        CellForm::Whole2 => Some(Value::Int(whole2(unsigned, buf.checked_eat_u16_le()?))),
        CellForm::Whole4 => Some(Value::Int(whole4(unsigned, buf.checked_eat_u32_le()?))),
        CellForm::Whole8 => Some(whole8(unsigned, buf.checked_eat_u64_le()?)),
        CellForm::FloatBits => Some(Value::Float(buf.checked_eat_u32_le()?)),
        CellForm::DoubleBits => Some(Value::Double(buf.checked_eat_u64_le()?)),
        CellForm::DateAndTime => {
            let (year, month, day, hour, minute, second, micros) = date_parts(
                buf.checked_eat_u8_str()?,
            );
            Some(Value::Date(year, month, day, hour, minute, second, micros))
        }
        CellForm::Duration => {
            let (negative, days, hours, minutes, seconds, micros) = time_parts(
                buf.checked_eat_u8_str()?,
            );
            Some(Value::Time(negative, days, hours, minutes, seconds, micros))
        }
        CellForm::Counted | CellForm::Without => None,
    }
}

/// The value of the cell that stands first, by its form. What is left after a refusal isn't said.
fn cell_value(
    alloc: Global,
    form: CellForm,
    unsigned: bool,
    buf: &mut ParseBuf,
) -> Result<Value, WireError>
    ensures { GivesPart (λ x. x) buf.new.0.now result (value_at form unsigned buf.old.0.now) }
{
    match form {
        CellForm::Counted => {
            let held = or_eof(buf.checked_eat_lenenc_str())?;
            Ok(Value::Bytes(ByteString::copy(alloc, held)?))
        }
        CellForm::Without => Err(WireError::UnsupportedType),
        _ => or_eof(plain_value(form, unsigned, buf)),
    }
}

/// What stands first, or the end of the bytes.
fn or_eof<T>(first: Option<T>) -> Result<T, WireError>
    ensures { result ≡ or_end first }
{
    first.ok_or(WireError::UnexpectedEof)
}

/// Reads the cell of the binary protocol that stands first.
///
/// `column_type` is the number of the cell's type, and `unsigned` whether the type's whole numbers
/// have no sign. A whole number comes as `Int` where it fits, else as `UInt`. An overlong length is
/// read. Of a date or a time the fields that its length leaves out are 0, and bytes behind its last
/// field are skipped.
///
/// Promise: exactly what stands first is read by the type and its sign. Spellings that no writer
/// chooses are read too. A refusal leaves all bytes (`cell_at`).
///
/// # Errors
/// - `UnsupportedType` for a type without cells.
/// - `UnexpectedEof` where the bytes end before the cell does.
/// - `Memory`.
///
/// All bytes are left after an error.
///
/// Follows "Binary Protocol Value" of the client/server protocol documentation.
#[tactic(auto, unfolding(crate::specs::Cells::cell_at))]
pub fn read_cell(
    alloc: Global,
    column_type: u8,
    unsigned: bool,
    buf: &mut ParseBuf,
) -> Result<Value, WireError>
    ensures { Gives (λ x. x) buf.old.0.now buf.new.0.now result (cell_at column_type unsigned buf.old.0.now) }
{
    let mut rest = *buf;
    let value = cell_value(alloc, form(column_type), unsigned, &mut rest)?;
    *buf = rest;
    Ok(value)
}

/// Reads the cell of the text protocol that stands first: NULL or bytes.
///
/// Promise: exactly what stands first is read; a refusal leaves all bytes (`text_cell_at`).
///
/// # Errors
/// - `UnexpectedEof` where the bytes end before the cell does.
/// - `BadLength` where the first one is ff.
/// - `Memory`.
///
/// All bytes are left after an error.
///
/// Follows "Text Resultset Row" of the client/server protocol documentation.
#[tactic(auto, unfolding(crate::specs::Cells::text_cell_at))]
pub fn read_text_cell(alloc: Global, buf: &mut ParseBuf) -> Result<Value, WireError>
    ensures { Gives (λ x. x) buf.old.0.now buf.new.0.now result (text_cell_at buf.old.0.now) }
{
    match buf.0 {
        [] => Err(WireError::UnexpectedEof),
        [251, rest @ ..] => {
            *buf = ParseBuf(rest);
            Ok(Value::NULL)
        }
        [255, ..] => Err(WireError::BadLength),
        _ => {
            let mut rest = *buf;
            let held = or_eof(rest.checked_eat_lenenc_str())?;
            let value = Value::Bytes(ByteString::copy(alloc, held)?);
            *buf = rest;
            Ok(value)
        }
    }
}

/// The cell of the value by the type that the value is sent by. Whole numbers have 8 bytes. Bytes
/// follow their length. Dates and times have the shortest form that keeps them. NULL has no byte.
///
/// Follows "Binary Protocol Value" of the client/server protocol documentation.
impl MySerialize for Value {
    ghost written = { cell };

    fn serialize(&self, buf: &mut Vec<u8>) -> Result<(), AllocError> {
        match self {
            Value::NULL => Ok(()),
            Value::Bytes(bytes) => buf.put_lenenc_str(bytes.as_slice()),
            Value::Int(number) => LeI64::serialize(*number, buf),
            Value::UInt(number) => LeU64::serialize(*number, buf),
            Value::Float(bits) => LeU32::serialize(*bits, buf),
            Value::Double(bits) => LeU64::serialize(*bits, buf),
            Value::Date(year, month, day, hour, minute, second, micros) => {
                put_date(*year, *month, *day, *hour, *minute, *second, *micros, buf)
            }
            Value::Time(negative, days, hours, minutes, seconds, micros) => {
                put_time(*negative, *days, *hours, *minutes, *seconds, *micros, buf)
            }
        }
    }
}

impl Value {
    /// How many bytes `serialize` writes.
    ///
    /// Promise: that is the length of the cell that is written (`bin_len`).
    pub fn bin_len(&self) -> u64
        ensures { result ≡ bin_len self.now }
    {
        match self {
            Value::NULL => 0,
            Value::Bytes(bytes) => lenenc_str_len(bytes.as_slice()),
            Value::Int(_) | Value::UInt(_) | Value::Double(_) => 8,
            Value::Float(_) => 4,
            Value::Date(year, month, day, hour, minute, second, micros) => {
                1 + u64::from(date_size(*year, *month, *day, *hour, *minute, *second, *micros))
            }
            Value::Time(_, days, hours, minutes, seconds, micros) => {
                1 + u64::from(time_size(*days, *hours, *minutes, *seconds, *micros))
            }
        }
    }

    /// The type that the value is sent by: VAR_STRING for bytes, LONGLONG for whole numbers, DATETIME for dates.
    ///
    /// Follows "Binary Protocol Value" of the client/server protocol documentation.
    pub fn column_type(&self) -> ColumnType
        ensures { result ≡ type_of self.now }
    {
        match self {
            Value::NULL => ColumnType::MYSQL_TYPE_NULL,
            Value::Bytes(_) => ColumnType::MYSQL_TYPE_VAR_STRING,
            Value::Int(_) | Value::UInt(_) => ColumnType::MYSQL_TYPE_LONGLONG,
            Value::Float(_) => ColumnType::MYSQL_TYPE_FLOAT,
            Value::Double(_) => ColumnType::MYSQL_TYPE_DOUBLE,
            Value::Date(..) => ColumnType::MYSQL_TYPE_DATETIME,
            Value::Time(..) => ColumnType::MYSQL_TYPE_TIME,
        }
    }

    /// Whether the value is sent by a type without a sign: of `UInt` alone.
    pub fn is_unsigned(&self) -> bool
        ensures { result ≡ is_sent_unsigned self.now }
    {
        matches!(self, Value::UInt(_))
    }
}
