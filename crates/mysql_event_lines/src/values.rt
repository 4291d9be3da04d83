//! Bytes and values in lines.

ghost use Rattle.std.specs.Prelude.{◌≤◌, length};

use crate::form::Form;
use crate::moments::write_moment;
use crate::quoted::push_readable;
use crate::texts::Texts;
use mysql_bytes::Content;
use mysql_cells::Value;
use mysql_columns::Column;
use mysql_row_refs::ValueRef;
use std::alloc::Global;
use std::io;
use std::io::Write;

/// How many bytes are put into hexadecimal together.
const RUN_LEN: usize = 4096;

/// Writes the digits of a few bytes.
fn write_run<W: Write>(output: &mut W, run: &[u8]) -> io::Result<()>
    requires { length run.now ≤ 4096 }
{
    let mut digits = [0; 2 * RUN_LEN];
    let digits = &mut digits[..2 * run.len()];
    let Ok(()) = hex::encode_to_slice(run, digits) else {
        unreachable!()
    };
    output.write_all(digits)
}

/// Writes bytes in hexadecimal behind an `x`.
///
/// # Errors
/// - Those of the output.
pub fn write_hexadecimal<W: Write>(output: &mut W, bytes: &[u8]) -> io::Result<()> {
    output.write_all(b"x")?;
    let mut rest = bytes;
    while !rest.is_empty() {
        let (run, behind) = rest.split_at(rest.len().min(RUN_LEN));
        write_run(output, run)?;
        rest = behind;
    }
    Ok(())
}

/// Writes bytes as people read them.
fn write_readable<W: Write>(alloc: Global, output: &mut W, bytes: &[u8]) -> io::Result<()> {
    let mut text = Vec::new(alloc);
    push_readable(&mut text, bytes)?;
    output.write_all(text.as_slice())
}

/// Writes bytes as a line of this form has them.
pub(crate) fn write_bytes<W: Write>(output: &mut W, form: Form, bytes: &[u8]) -> io::Result<()> {
    match form {
        Form::Long(_) | Form::Short(_, Texts::Hexadecimal, _) => write_hexadecimal(output, bytes),
        Form::LongWithTexts(_, alloc) | Form::Short(_, Texts::Quoted, alloc) => {
            write_readable(alloc, output, bytes)
        }
    }
}

/// A value that borrows its bytes.
pub(crate) fn borrowed(value: &Value) -> ValueRef<'_> {
    match value {
        Value::NULL => ValueRef::NULL,
        Value::Bytes(bytes) => ValueRef::Bytes(bytes.as_slice()),
        Value::Int(number) => ValueRef::Int(*number),
        Value::UInt(number) => ValueRef::UInt(*number),
        Value::Float(bits) => ValueRef::Float(*bits),
        Value::Double(bits) => ValueRef::Double(*bits),
        Value::Date(year, month, day, hour, minute, second, micros) => {
            ValueRef::Date(*year, *month, *day, *hour, *minute, *second, *micros)
        }
        Value::Time(negative, days, hours, minutes, seconds, micros) => {
            ValueRef::Time(*negative, *days, *hours, *minutes, *seconds, *micros)
        }
    }
}

/// Writes a value with its kind: `-` for NULL, `(i -5)`, `(f32 3fc00000)` and `(f64 ..)` by their
/// bits, `(b x61)`, `(d (year month day hour minute second microsecond))`, and
/// `(t (negative days hours minutes seconds microseconds))`.
fn write_kind<W: Write>(output: &mut W, value: ValueRef<'_>) -> io::Result<()> {
    match value {
        ValueRef::NULL => output.write_all(b"-"),
        ValueRef::Bytes(bytes) => {
            output.write_all(b"(b ")?;
            write_hexadecimal(output, bytes)?;
            output.write_all(b")")
        }
        ValueRef::Int(number) => write!(output, "(i {number})"),
        ValueRef::UInt(number) => write!(output, "(i {number})"),
        ValueRef::Float(bits) => write!(output, "(f32 {bits:08x})"),
        ValueRef::Double(bits) => write!(output, "(f64 {bits:016x})"),
        ValueRef::Date(year, month, day, hour, minute, second, micros) => write!(
            output,
            "(d ({year} {month} {day} {hour} {minute} {second} {micros}))"
        ),
        ValueRef::Time(negative, days, hours, minutes, seconds, micros) => {
            let negative = u8::from(negative);
            write!(
                output,
                "(t ({negative} {days} {hours} {minutes} {seconds} {micros}))"
            )
        }
    }
}

/// Writes a value as `audit` prints contents: `null`, a number, or bytes. Of a date or a time those
/// of its text are written. A float is `f` and its bits.
fn write_content<W: Write>(alloc: Global, output: &mut W, value: ValueRef<'_>) -> io::Result<()> {
    match value {
        ValueRef::NULL => output.write_all(b"null"),
        ValueRef::Bytes(bytes) => write_hexadecimal(output, bytes),
        ValueRef::Int(number) => write!(output, "{number}"),
        ValueRef::UInt(number) => write!(output, "{number}"),
        ValueRef::Float(bits) => write!(output, "f{bits:08x}"),
        ValueRef::Double(bits) => write!(output, "f{bits:016x}"),
        moment => match moment.to_value(alloc)?.into_content(alloc)? {
            Some(Content::Bytes(text)) => write_hexadecimal(output, text.as_slice()),
            _ => Ok(()),
        },
    }
}

/// Writes a value as people read it: `NULL`, a number, a text in quotes, or a date or a time in
/// quotes. A float is `f` and its bits.
fn write_known<W: Write>(
    alloc: Global,
    output: &mut W,
    column: Option<&Column>,
    value: ValueRef<'_>,
) -> io::Result<()> {
    match value {
        ValueRef::NULL => output.write_all(b"NULL"),
        ValueRef::Bytes(bytes) => write_readable(alloc, output, bytes),
        ValueRef::Date(..) | ValueRef::Time(..) => {
            output.write_all(b"\"")?;
            write_moment(alloc, output, column, value)?;
            output.write_all(b"\"")
        }
        number => write_content(alloc, output, number),
    }
}

/// Writes a value of a cell of this column, if it is one.
pub(crate) fn write_cell<W: Write>(
    output: &mut W,
    form: Form,
    column: Option<&Column>,
    value: ValueRef<'_>,
) -> io::Result<()> {
    match form {
        Form::Long(_) => write_kind(output, value),
        Form::Short(_, Texts::Hexadecimal, alloc) => write_content(alloc, output, value),
        Form::LongWithTexts(_, alloc) | Form::Short(_, Texts::Quoted, alloc) => {
            write_known(alloc, output, column, value)
        }
    }
}

/// Writes a value that no column is known of.
pub(crate) fn write_value<W: Write>(
    output: &mut W,
    form: Form,
    value: ValueRef<'_>,
) -> io::Result<()> {
    write_cell(output, form, None, value)
}
