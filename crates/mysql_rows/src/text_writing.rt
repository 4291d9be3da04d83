//! Text rows as they are written.

ghost use Rattle.std.specs.Prelude.{◌≡◌, ◌++◌, [], IsSome, MatchResult, None, OnOk, Some, is_none, length, map, take};
ghost use Rattle.std.specs.Prelude.{unwrap_or};
ghost use Rattle.std.specs.Fmt.{decimal, signed_decimal};
ghost use Rattle.std.specs.Option.{option_and_then};
ghost use Rattle.mysql_buf.specs.Writing.{lenenc_str};
ghost use Rattle.mysql_cells.specs.Values.{Puts};
ghost use Rattle.mysql_fields.specs.Wire.{Appends};
ghost use Rattle.mysql_rows.specs.Written.{text_cause, text_cell};
ghost use Rattle.mysql_rows.specs.CellsWritten.{temporal_text, text_cells};

use crate::held::Held;
use itoa::Buffer;
use mysql_buf::BufMutExt;
use mysql_cells::Value;
use mysql_cells::date_text::{is_zero_time, put_date_text, put_time_text};
use mysql_cells::laws::fields_fit;
use std::alloc::AllocError;

/// Appends a text after its length.
#[inline(always)]
pub fn put_text(text: &[u8], out: &mut Vec<u8>) -> Result<(), AllocError>
    ensures { Appends result out.old.items out.new.items (lenenc_str text.now) }
{
    if text.len() > 250 {
        return out.put_lenenc_str(text);
    }
    out.reserve(text.len() + 1)?;
    out.push_reserved(text.len() as u8);
    out.extend_from_slice(text)
}

/// Appends the number's digits after their length.
fn put_unsigned(number: u64, out: &mut Vec<u8>) -> Result<(), AllocError>
    ensures { Appends result out.old.items out.new.items (lenenc_str (decimal number)) }
{
    let mut buffer = Buffer::new();
    put_text(buffer.format(number).as_bytes(), out)
}

/// Appends the number's digits, behind a dash where it is negative, after their length.
fn put_signed(number: i64, out: &mut Vec<u8>) -> Result<(), AllocError>
    ensures { Appends result out.old.items out.new.items (lenenc_str (signed_decimal number)) }
{
    let mut buffer = Buffer::new();
    put_text(buffer.format(number).as_bytes(), out)
}

/// Appends the text of a date or a time; nothing for another value.
fn put_temporal_text(temporal: &Value, out: &mut Vec<u8>) -> Result<(), AllocError>
    requires { IsSome (temporal_text temporal.now) }
    ensures { Puts (unwrap_or (temporal_text temporal.now) []) out.old.items out.new.items result }
{
    match temporal {
        Value::Date(year, month, day, hour, minute, second, micros) => {
            put_date_text(out, *year, *month, *day, *hour, *minute, *second, *micros)
        }
        Value::Time(negative, days, hours, minutes, seconds, micros) => {
            let zero = is_zero_time(*days, *hours, *minutes, *seconds, *micros);
            let signed = *negative && !zero;
            put_time_text(out, signed, *days, *hours, *minutes, *seconds, *micros)
        }
        _ => Ok(()),
    }
}

/// Appends the text of a date or a time after its length, which is one byte, put last.
fn put_temporal(temporal: &Value, out: &mut Vec<u8>) -> Result<(), AllocError>
    requires { IsSome (temporal_text temporal.now) }
    ensures { Appends result out.old.items out.new.items (lenenc_str (unwrap_or (temporal_text temporal.now) [])) }
{
    fields_fit(temporal);
    let start = out.len();
    out.push(0)?;
    if put_temporal_text(temporal, out).is_err() {
        out.truncate(start);
        return Err(AllocError);
    }
    out[start] = (out.len() - start - 1) as u8;
    Ok(())
}

/// Appends the cell of a value; nothing for a float.
fn put_cell(value: &Value, out: &mut Vec<u8>) -> Result<(), AllocError>
    ensures { Appends result out.old.items out.new.items (unwrap_or (text_cell value.now) []) }
{
    match value {
        Value::NULL => out.extend_from_slice(&[251]),
        Value::Bytes(bytes) => put_text(bytes.as_slice(), out),
        Value::Int(number) => put_signed(*number, out),
        Value::UInt(number) => put_unsigned(*number, out),
        Value::Float(_) | Value::Double(_) => Ok(()),
        Value::Date(..) | Value::Time(..) => put_temporal(value, out),
    }
}

/// Bytes that are enough for the cell of a value; None for a float.
fn cell_room(value: &Value) -> Option<usize>
    ensures { is_none result ≡ is_none (text_cell value.now) }
{
    match value {
        Value::NULL => Some(1),
        Value::Bytes(bytes) => Some(bytes.as_slice().len() + 9),
        Value::Int(_) | Value::UInt(_) => Some(21),
        Value::Float(_) | Value::Double(_) => None,
        Value::Date(..) | Value::Time(..) => Some(40),
    }
}

/// Bytes that are enough for the cell of what is held; None for a float, or where nothing is.
fn held_room<C: Held>(cell: &C) -> Option<usize>
    ensures { is_none result ≡ is_none (option_and_then text_cell (C.held cell.now)) }
{
    cell_room(cell.held()?)
}

/// Bytes that are enough for a row of these cells; or the first one that has no form.
pub fn row_room<C: Held>(cells: &[C]) -> Result<usize, usize>
    ensures { MatchResult result (λ _. text_cause (map C.held cells.now) ≡
        None) (λ place. text_cause (map C.held cells.now) ≡ Some place) }
{
    let mut room: usize = 0;
    for (place, cell) in cells.iter().enumerate() {
        match held_room(cell) {
            Some(more) => room = room.saturating_add(more),
            None => return Err(place),
        }
    }
    Ok(room)
}

/// Appends what is held; nothing where that has no form.
fn put_held<C: Held>(cell: &C, out: &mut Vec<u8>) -> Result<(), AllocError>
    ensures { Appends result out.old.items out.new.items (unwrap_or (option_and_then text_cell (C.held cell.now)) []) }
{
    match cell.held() {
        Some(value) => put_cell(value, out),
        None => Ok(()),
    }
}

/// Appends the cells that have a form. After a refusal what stood before stands in front.
pub fn put_row<C: Held>(cells: &[C], out: &mut Vec<u8>) -> Result<(), AllocError>
    ensures ok { OnOk result (out.new.items ≡ out.old.items ++ text_cells (map C.held cells.now)) }
    ensures kept { take (length out.old.items) out.new.items ≡ out.old.items }
{
    for cell in cells {
        put_held(cell, out)?;
    }
    Ok(())
}
